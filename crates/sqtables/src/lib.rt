//! The tables of a database: their names, roots and columns, from the texts of its schema (fileformat2, 2.6).
#![tactic(auto)]

mod columns;
mod defaults;
mod keys;
mod list;
mod named;
mod schema;
mod text;

pub use columns::Columns;
pub use keys::primary_of;
pub use list::{ListError, Object, objects, table_named};
pub use named::columns_of;
pub use schema::{TableRow, table_row};
pub use sqdefaults::Literal;
pub use text::{alias_of, is_integer};
