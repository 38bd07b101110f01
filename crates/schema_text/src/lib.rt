//! CREATE TABLE as SQLite reads it: the tokens of its text and their clauses.
#![tactic(auto)]

mod clauses;
mod rules;
mod texts;
mod tokens;

pub use clauses::{Clause, Found, Place, Rule, Table, first_statement, table_of};
pub use rules::is_operand;
pub use texts::{TableText, read_table, statement_of};
pub use tokens::{depth_after, group_length, is_name, is_open, is_type_token, is_word, later};
