//! Rollback journals (fileformat2, 3): their headers, the sums of their records, and what a journal says, read in
//! pieces.
#![tactic(auto)]

mod error;
mod header;
mod nonce;
mod pieces;
mod reading;
mod replay;
mod slots;

pub use error::JournalError;
pub use header::{JournalHeader, is_magic, next_header_at};
pub use nonce::page_sum;
pub use reading::{Record, Why};
pub use replay::{LONGEST, Replay, Stop};
pub use slots::{RecordSlot, is_zeroed};
