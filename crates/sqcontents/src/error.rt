//! Why the contents of a schema aren't found sound (own).
use sqindex::{EntryError, RowError};
use std::alloc::AllocError;
use thiserror::Error;

/// A fault of an index, and of which one.
#[derive(Clone, Copy, Debug, PartialEq, Eq, Error)]
#[error("row {row} of the schema: {error}")]
pub struct ContentError {
    /// The fault, and the cell that it stands at.
    pub error: EntryError,
    /// The row of the index in the schema, from 0, in the order of rowids.
    pub row: usize,
}

/// A fault of a row of a table, and of which one.
#[derive(Clone, Copy, Debug, PartialEq, Eq, Error)]
#[error("row {row} of the schema: {error}")]
pub struct TableRowError {
    /// The fault, and the cell that it stands at.
    pub error: RowError,
    /// The row of the table in the schema, from 0, in the order of rowids.
    pub row: usize,
}

/// Why the contents of a schema aren't found sound.
#[derive(Clone, Copy, Debug, PartialEq, Eq, Error)]
pub enum ContentsError {
    /// A page could not be read.
    #[error("a page could not be read")]
    Source,
    /// Memory ran out.
    #[error("no memory")]
    NoMemory,
    /// An index isn't sound.
    #[error("{0}")]
    Content(ContentError),
    /// A row of a table doesn't keep to its columns.
    #[error("{0}")]
    Row(TableRowError),
}
