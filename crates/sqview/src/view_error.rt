//! Why a file and its logs show no database (own).
ghost use Rattle.std.specs.Prelude.{◌≡◌};
ghost use Rattle.sqview.specs.Numbers.{view_number};
ghost use Rattle.sqview.specs.declared.view_error.ViewError.TheVariants.{Unread, NoMemory};

use sqpage::{Fault, SourceError};
use std::alloc::{AllocError, AllocFailed};
use thiserror::Error;

/// Why a file and its logs show no database.
#[derive(Clone, Copy, Debug, PartialEq, Eq, Error)]
pub enum ViewError {
    /// The journal is hot, and the write-ahead log isn't empty.
    #[error("two logs")]
    TwoLogs,
    /// The log is too long to be scanned, or the database would be above the limit, 1,073,741,824 bytes where none is
    /// named.
    #[error("too large")]
    TooLarge,
    /// No log counts, and the file's header has this fault, Magic or PageSize.
    #[error("{0}")]
    Header(Fault),
    /// The file could not be read.
    #[error("file failed")]
    Unread,
    /// No memory.
    #[error("no memory")]
    NoMemory,
    /// The log has no such commit frame, or a hot journal lies beside it.
    #[error("no such commit")]
    NoSuchCommit,
}

impl ViewError {
    /// From TwoLogs, 1, to NoSuchCommit, 6, in the order of the enum.
    pub fn number(&self) -> u8
        ensures { result ≡ view_number self.now }
    {
        match self {
            ViewError::TwoLogs => 1,
            ViewError::TooLarge => 2,
            ViewError::Header(_) => 3,
            ViewError::Unread => 4,
            ViewError::NoMemory => 5,
            ViewError::NoSuchCommit => 6,
        }
    }
}

impl From<SourceError> for ViewError {
    ghost from_gives = { λ _ e. e ≡ Unread };

    fn from(_unread: SourceError) -> ViewError {
        ViewError::Unread
    }
}

impl From<AllocError> for ViewError {
    ghost from_gives = { λ _ e. e ≡ NoMemory };

    fn from(_refused: AllocError) -> ViewError {
        ViewError::NoMemory
    }
}

impl<T: Drop> From<AllocFailed<T>> for ViewError {
    ghost from_gives = { λ _ e. e ≡ NoMemory };

    fn from(_refused: AllocFailed<T>) -> ViewError {
        ViewError::NoMemory
    }
}
