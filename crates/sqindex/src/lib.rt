//! An index of a database against its table (fileformat2, 1.6 and 2.4), and the rows of a table against its columns
//! (SQLite's lang_createtable).
#![tactic(auto)]

mod column_fault;
mod compare;
mod entries;
mod error;
mod fault;
mod fields;
mod join;
mod judge;
mod judge_by;
mod keyed_rows;
mod last;
mod marks;
mod number;
mod order;
mod part;
mod read;
mod room;
mod row_fault;
mod rows;
mod span;
mod spans;
mod stream;
mod table;
mod walk;

pub use error::{EntryError, IndexError, ReadError, RowError, TableError};
pub use fault::IndexFault;
pub use judge::judge_index;
pub use judge_by::judge_index_by;
pub use keyed_rows::judge_keyed_rows;
pub use row_fault::RowFault;
pub use sqkeys::{ColumnRule, EntryKey, IndexKey, KeyColumn, RowKey};
pub use table::judge_rows;
