//! Why an index isn't found sound (own).
ghost use Rattle.std.specs.Prelude.{◌≡◌};
ghost use Rattle.sqindex.specs.internal.Reading.{read_error};

use crate::fault::IndexFault;
use crate::row_fault::RowFault;
use sqpage::CheckError;
use sqrows::{PayloadError, RowsError};
use thiserror::Error;

/// Why the cells of a tree aren't read to their end.
#[derive(Clone, Copy, Debug, PartialEq, Eq, Error)]
pub enum ReadError {
    /// The tree isn't sound, a page could not be read, or memory ran out.
    #[error("{0}")]
    Tree(CheckError),
    /// A row has more than 1,073,741,824 bytes (own), or an entry more than all may take.
    #[error("a payload is longer than it may be")]
    TooLong,
    /// A cell of the table has no rowid, or one of the index has one.
    #[error("a tree is of another kind")]
    OtherKind,
    /// A rowid isn't above that of the row before.
    #[error("the rowids of a table don't rise")]
    RowidOrder,
    /// Memory ran out.
    #[error("no memory")]
    NoMemory,
}

/// A fault, and the cell that it stands at: a row's for `RowWithoutEntry`, otherwise an entry's.
#[derive(Clone, Copy, Debug, PartialEq, Eq, Error)]
#[error("page {page}, cell {cell}: {fault}")]
pub struct EntryError {
    /// What is wrong.
    pub fault: IndexFault,
    /// The page of the cell.
    pub page: u32,
    /// The cell's index there, from 0.
    pub cell: usize,
}

/// Why an index isn't found sound.
#[derive(Clone, Copy, Debug, PartialEq, Eq, Error)]
pub enum IndexError {
    /// The rows of the table can't be read.
    #[error("the table: {0}")]
    Table(ReadError),
    /// The entries of the index can't be read, or memory ran out.
    #[error("the index: {0}")]
    Index(ReadError),
    /// An entry isn't as it should be, or a row has none.
    #[error("{0}")]
    Entry(EntryError),
    /// The entries take more memory than they may: for each its payload and 64 bytes (own).
    #[error("the index takes more memory than it may")]
    TooLarge,
}

/// A fault, and the cell of the row that it stands at.
#[derive(Clone, Copy, Debug, PartialEq, Eq, Error)]
#[error("page {page}, cell {cell}: {fault}")]
pub struct RowError {
    /// What is wrong.
    pub fault: RowFault,
    /// The page of the cell.
    pub page: u32,
    /// The cell's index there, from 0.
    pub cell: usize,
}

/// Why the rows of a table aren't found to keep to its columns.
#[derive(Clone, Copy, Debug, PartialEq, Eq, Error)]
pub enum TableError {
    /// The rows can't be read, or memory ran out.
    #[error("{0}")]
    Unread(ReadError),
    /// A row isn't as it should be.
    #[error("{0}")]
    Row(RowError),
}

impl ReadError {
    /// Why a cell isn't read.
    pub(crate) fn of_cell(error: RowsError) -> ReadError
        ensures { result ≡ read_error error }
    {
        match error {
            RowsError::Tree(refusal) => ReadError::Tree(refusal),
            RowsError::Payload(PayloadError::Chain(refusal)) => ReadError::Tree(refusal),
            RowsError::Payload(PayloadError::TooLong) => ReadError::TooLong,
        }
    }
}
