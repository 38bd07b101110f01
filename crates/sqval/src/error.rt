//! What goes wrong with records (own).
ghost use Rattle.std.specs.Prelude.{◌≡◌};
ghost use Rattle.sqval.specs.RecordError.{number_of};

use std::alloc::AllocError;
use thiserror::Error;

/// Why bytes are no record, or why no record was written.
#[derive(Clone, Copy, Debug, PartialEq, Eq, Error)]
pub enum RecordError {
    /// The bytes don't begin with a varint of a number from its own length to theirs.
    #[error("no header size")]
    HeaderSize,
    /// A serial type runs past the end of the header.
    #[error("a type is cut")]
    TypeCut,
    /// A serial type is 10 or 11.
    #[error("an internal type")]
    InternalType,
    /// The bodies need more bytes than there are.
    #[error("a body is cut")]
    BodyCut,
    /// The bodies need fewer bytes than there are.
    #[error("trailing bytes")]
    TrailingBytes,
    /// The record has more than 1,073,741,824 bytes.
    #[error("the record is too large")]
    TooLarge,
    /// There was no memory for it.
    #[error("out of memory")]
    NoMemory,
}

impl RecordError {
    /// The number of the refusal, from 1 to 7.
    pub fn number(&self) -> u8
        ensures { result ≡ number_of self.now }
    {
        match self {
            RecordError::HeaderSize => 1,
            RecordError::TypeCut => 2,
            RecordError::InternalType => 3,
            RecordError::BodyCut => 4,
            RecordError::TrailingBytes => 5,
            RecordError::TooLarge => 6,
            RecordError::NoMemory => 7,
        }
    }
}
