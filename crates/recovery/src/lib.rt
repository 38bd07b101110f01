//! What the engines share that recover a database from a file and a log (own).
#![tactic(auto)]

mod copying;
mod errors;
mod finishing;
mod limits;
mod scanning;

pub use copying::{CopyPlan, Run, Shape, copy_pages};
pub use errors::DeviceError;
pub use finishing::finish;
pub use limits::MOST_BYTES;
pub use scanning::{LogScan, scan_log};
