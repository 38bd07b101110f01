//! Why a log is refused (own).
ghost use Rattle.std.specs.Prelude.{◌≡◌};
ghost use Rattle.sqwal.specs.Refusal.{number_of};

use std::alloc::AllocError;
use thiserror::Error;

/// Why bytes are no log that can be scanned.
#[derive(Clone, Copy, Debug, PartialEq, Eq, Error)]
pub enum WalFormatError {
    /// The first four bytes are neither magic.
    #[error("not a write-ahead log")]
    NotAWal,
    /// The page size isn't a power of two from 512 to 65536.
    #[error("no such page size")]
    PageSize,
    /// The header's sums aren't those of its first 24 bytes.
    #[error("the header's checksum is wrong")]
    HeaderSum,
    /// The version isn't 3007000.
    #[error("unknown version of the log")]
    UnknownVersion,
    /// There is a valid frame 2,097,153.
    #[error("the log is too long")]
    TooLong,
    /// No memory for what a scan or an index keeps.
    #[error("no memory")]
    NoMemory,
}

impl WalFormatError {
    /// From NotAWal, 1, to NoMemory, 6, in the order of the enum.
    pub fn number(&self) -> u8
        ensures { result ≡ number_of self.now }
    {
        match self {
            WalFormatError::NotAWal => 1,
            WalFormatError::PageSize => 2,
            WalFormatError::HeaderSum => 3,
            WalFormatError::UnknownVersion => 4,
            WalFormatError::TooLong => 5,
            WalFormatError::NoMemory => 6,
        }
    }
}

impl From<AllocError> for WalFormatError {
    ghost use Rattle.std.specs.Prelude.{◌≡◌};
    ghost use Rattle.sqwal.specs.declared.error.WalFormatError.TheVariants.{NoMemory};

    ghost from_gives = { λ _ e. e ≡ NoMemory };

    fn from(_error: AllocError) -> WalFormatError {
        WalFormatError::NoMemory
    }
}
