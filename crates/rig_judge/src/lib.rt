//! Which committed database the files show that a crash may leave: a judgment of images (own).
#![tactic(auto)]

mod error;
mod history;
mod judgment;
mod leaves;
mod near;
mod rolled;
mod showing;
mod snapshot;
mod sound;

pub use error::SnapshotError;
pub use history::History;
pub use judgment::{Judgment, judge_files, judge_scanned, judge_source};
pub use leaves::free_leaves;
pub use near::Near;
pub use showing::files_show;
pub use snapshot::Snapshot;
pub use sound::fault_in_files;
