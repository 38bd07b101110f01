//! Why changes aren't found (own).
use sqrows::RowsError;
use sqval::RecordError;
use thiserror::Error;

/// Why the rows of one of both tables aren't read to their end.
#[derive(Clone, Copy, Debug, PartialEq, Eq, Error)]
pub enum SideError {
    /// The next row isn't read, as `sqrows::Rows::advance` tells it.
    #[error("{0}")]
    Rows(RowsError),
    /// The payload of a row is no record.
    #[error("a row is unsound: {0}")]
    Record(RecordError),
    /// A row has no rowid or key that the order tells, or one that isn't above that of the row before it.
    #[error("the rowids or keys of a table don't rise")]
    Unordered,
}

/// Why the changes between two tables aren't found.
#[derive(Clone, Copy, Debug, PartialEq, Eq, Error)]
pub enum DiffError {
    /// The old table isn't read.
    #[error("in the old table: {0}")]
    Old(SideError),
    /// The new table isn't read.
    #[error("in the new table: {0}")]
    New(SideError),
}
