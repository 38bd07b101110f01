//! What the texts of a schema create, in the types of the kit's crates for tables and indexes.
#![tactic(auto)]

mod defaults;
mod indexes;
mod rules;
mod tables;
mod types;

pub use indexes::{MadeIndex, made_index};
pub use tables::{MadeTable, made_table};
