//! The keys of indexes, from the texts of a schema: the columns of a table that an index has, how they are sorted, and
//! what stands for those that a row doesn't store (SQLite's lang_createindex).
#![tactic(auto)]

mod accepts;
mod affinity;
mod automatic;
mod column;
mod default;
mod entry_key;
mod key;
mod keyed;
mod order;
mod row_rules;
mod rule;
mod text;

pub use accepts::Accepts;
pub use automatic::automatic_key_of;
pub use entry_key::{EntryKey, keyed_automatic_of, keyed_entry_of, partial_of};
pub use key::{IndexKey, KeyColumn, key_of};
pub use keyed::{RowKey, row_key_of};
pub use row_rules::{ColumnRule, rules_of};
