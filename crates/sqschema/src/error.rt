//! Why a schema isn't found sound (own).
ghost use Rattle.std.specs.Prelude.{◌≡◌};
ghost use Rattle.sqschema.specs.internal.Reading.{read_error};

use crate::fault::SchemaFault;
use sqpage::CheckError;
use sqrows::{PayloadError, RowsError};
use sqval::RecordError;
use std::alloc::AllocError;
use thiserror::Error;

/// Why the rows of a schema aren't read and judged to their end.
#[derive(Clone, Copy, Debug, PartialEq, Eq, Error)]
pub enum ReadError {
    /// The schema's tree isn't sound, a page could not be read, or memory ran out.
    #[error("{0}")]
    Tree(CheckError),
    /// A row has more than 1,073,741,824 bytes (own).
    #[error("a row of the schema is longer than 1 GiB")]
    TooLong,
    /// A row is no record.
    #[error("a row of the schema is unsound: {0}")]
    Record(RecordError),
    /// Memory ran out.
    #[error("no memory")]
    NoMemory,
}

/// A fault, and at which row of the schema it stands.
#[derive(Clone, Copy, Debug, PartialEq, Eq, Error)]
#[error("row {row} of the schema: {fault}")]
pub struct ObjectError {
    /// What is wrong.
    pub fault: SchemaFault,
    /// The row, from 0, in the order of rowids.
    pub row: usize,
}

/// Why a schema isn't found sound.
#[derive(Clone, Copy, Debug, PartialEq, Eq, Error)]
pub enum SchemaError {
    /// Its rows can't be read, or memory ran out.
    #[error("{0}")]
    Unread(ReadError),
    /// A row of it doesn't follow the rules.
    #[error("{0}")]
    Object(ObjectError),
}

impl ReadError {
    /// Why a row isn't read.
    pub(crate) fn of_row(error: RowsError) -> ReadError
        ensures { result ≡ read_error error }
    {
        match error {
            RowsError::Tree(refusal) => ReadError::Tree(refusal),
            RowsError::Payload(PayloadError::Chain(refusal)) => ReadError::Tree(refusal),
            RowsError::Payload(PayloadError::TooLong) => ReadError::TooLong,
        }
    }
}

/// A fault of a row.
pub(crate) fn at_row(row: usize, fault: SchemaFault) -> SchemaError
    ensures { result ≡ SchemaError.Object (record { fault = fault; row = row }) }
{
    SchemaError::Object(ObjectError { fault, row })
}

/// Memory ran out.
pub(crate) fn no_memory() -> SchemaError
    ensures { result ≡ SchemaError.Unread ReadError.NoMemory }
{
    SchemaError::Unread(ReadError::NoMemory)
}
