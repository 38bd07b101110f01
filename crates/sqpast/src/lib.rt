//! The database that was there at a commit of a log, which FILE and log show or nothing does (own).
#![tactic(auto)]

mod at;
mod before;
mod chains;
mod commits;
mod files;
mod gone;
mod likeness;
mod past_error;
mod used;

pub use at::{past_of_scan, read_table, used_count};
pub use before::past_before;
pub use commits::{first_known, known_commits};
pub use files::{past, past_front_is_shown, past_within};
pub use past_error::PastError;
pub use used::{Counts, leave_used};
