//! SQLite's own locks (own; the bytes are those of SQLite's os.h and wal.c): which of them a reading and a recovery in
//! place hold, in which order they are asked for, and what a refusal gives back; which front the index of a write-ahead
//! log names (walformat, 2.1); and what the system tells of the locks that a process holds.
#![tactic(auto)]

mod bytes;
mod index;
mod places;
mod plan;
mod told;

pub use bytes::{Bytes, bytes_of};
pub use index::{IndexHead, index_front, names_front};
pub use plan::{Answer, Lock, Reason, Step, Target, Want, asked};
pub use told::{FileId, tells, tells_all};
