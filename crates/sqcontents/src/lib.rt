//! What the trees of a schema hold (fileformat2, 1.6 and 2.4): whether each index has, in its order, exactly the keys
//! and rowids of its table, and whether the rows of each table keep to its columns.
#![tactic(auto)]

mod check;
mod error;
mod first;
mod item_key;
mod items;
mod keys;
mod table_rules;
mod tables;

pub use check::check_contents;
pub use error::{ContentError, ContentsError, TableRowError};
pub use tables::check_tables;
