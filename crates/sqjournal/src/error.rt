//! Why a journal is refused (own).
ghost use Rattle.std.specs.Prelude.{◌≡◌};
ghost use Rattle.sqjournal.specs.declared.error.JournalError.TheVariants.{NoMemory};
ghost use Rattle.sqjournal.specs.Header.{error_number};

use std::alloc::{AllocError, AllocFailed};
use thiserror::Error;

/// Why the bytes of a journal are refused.
#[derive(Debug, Drop, Error)]
pub enum JournalError {
    /// The file doesn't begin with a journal's magic.
    #[error("not a journal")]
    NotAJournal,
    /// The sector size is no power of two from 512 to 65536.
    #[error("no sector size")]
    SectorSize,
    /// The page size is no power of two from 512 to 65536.
    #[error("no page size")]
    PageSize,
    /// A growth of memory was refused.
    #[error("no memory")]
    NoMemory,
    /// The journal is longer than 1,099,511,627,776 bytes.
    #[error("the journal is too long")]
    TooLong,
}

impl JournalError {
    /// The number of the error, from 1 to 5 in the order above.
    pub fn number(&self) -> u8
        ensures { result ≡ error_number self.now }
    {
        match self {
            JournalError::NotAJournal => 1,
            JournalError::SectorSize => 2,
            JournalError::PageSize => 3,
            JournalError::NoMemory => 4,
            JournalError::TooLong => 5,
        }
    }
}

impl From<AllocError> for JournalError {
    ghost from_gives = { λ _ e. e ≡ NoMemory };

    fn from(_refused: AllocError) -> JournalError {
        JournalError::NoMemory
    }
}

impl<T: Drop> From<AllocFailed<T>> for JournalError {
    ghost from_gives = { λ _ e. e ≡ NoMemory };

    fn from(_refused: AllocFailed<T>) -> JournalError {
        JournalError::NoMemory
    }
}
