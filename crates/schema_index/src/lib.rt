//! The indexes of a schema: those that SQLite creates for a table's keys, and the texts of CREATE INDEX.
#![tactic(auto)]

mod automatic;
mod columns;
mod create;
mod terms;
mod walk;

pub use automatic::{automatic_indexes, index_name, integer_column};
pub use columns::{KeyColumn, collation_name, key_columns};
pub use create::{Index, IndexText, index_of, read_index};
pub use terms::{Extent, IndexTerm, index_terms};
