//! The database that a file shows with the logs beside it, a write-ahead log and a rollback journal: its pages, and
//! whether it is well formed. Nothing is written (fileformat2, 3 and 4.5; the choice of the log is own).
#![tactic(auto)]

mod copying;
mod file_bytes;
mod file_head;
mod judge_error;
mod logs;
mod place_table;
mod places;
mod read_ahead;
mod survey;
mod verdict;
mod view;
mod view_error;

pub use copying::{CopyError, copy};
pub use file_bytes::FileBytes;
pub use judge_error::JudgeError;
pub use logs::{LogInUse, hot_header, log_in_use, replay_log, scan_log, scan_log_within};
pub use read_ahead::ReadAhead;
pub use survey::{survey_view, survey_view_with};
pub use verdict::{
    Verdict, judge, judge_at, judge_at_within, judge_view, judge_view_with, judge_within,
    without_view,
};
pub use view::{Origin, View, front_is_shown};
pub use view_error::ViewError;
