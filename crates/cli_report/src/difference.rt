//! What is compared between two commits of a log.
use cli_words::{Between, Compared};

/// What is compared between two commits of a log, and how.
#[derive(Clone, Copy)]
pub enum Difference<'a> {
    /// The rows of tables.
    Rows(Compared<'a>),
    /// The cells of deleted rows.
    Deleted(Between),
}
