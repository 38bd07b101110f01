//! What each commit of a write-ahead log changed: the rows that differ between its database and the one before it, as
//! they are printed (fileformat2, 4.5), whatever checkpoints copied into the file since.
#![tactic(auto)]

mod commits;
mod error;
mod files;
mod first;
mod range;

pub use commits::{CommitForm, Told, print_commits};
pub use error::HistoryError;
pub use files::Files;
pub use first::{first_shown, next_known};
pub use range::commits_between;
