//! A disk of two files that may lose, in a crash, what was not synced (own).
#![tactic(auto)]

mod calls;
mod choice;
mod counting;
mod crash;
mod disk;
mod error;
mod file;
mod held;
mod laws;
mod log;
mod model;
mod since;
mod stops;
mod values;

pub use choice::{Choice, FileChoice, Rest};
pub use disk::Disk;
pub use error::DiskError;
pub use file::File;
pub use held::Part;
pub use laws::{what_a_crash_may_leave, what_an_end_leaves};
pub use model::ModelDisk;
