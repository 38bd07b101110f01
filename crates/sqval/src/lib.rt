//! The values that a database file, its journal and its write-ahead log are made of (fileformat2, 1.2, 1.3, 1.6 and
//! 2.1).
#![tactic(auto)]

mod commit;
mod encoding;
mod error;
mod limits;
mod page_size;
mod record;
mod stride;
mod value;
pub mod varint;

pub use commit::{CommitFault, judge_pages};
pub use encoding::encode;
pub use error::RecordError;
pub use limits::Limits;
pub use page_size::PageSize;
pub use record::{Columns, MOST_BYTES, Record};
pub use stride::gather;
pub use value::Value;
