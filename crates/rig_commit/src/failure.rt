//! Why a run ended early.
ghost use Rattle.std.specs.Prelude.{◌≡◌};
ghost use Rattle.rig_commit.specs.declared.failure.Failure.TheVariants.{File, NoMemory, Roll, Wal};

use rollcore::RollError;
use std::alloc::{AllocError, AllocFailed};
use std::io;
use thiserror::Error;
use walcore::WalError;

/// Why a run ended early.
#[derive(Debug, Drop, Error)]
pub enum Failure {
    /// The words or the marks' path are missing.
    #[error("usage: SQCRASH_MARKS=PATH rig_commit wal|journal FILE")]
    Words,
    /// A file is missing, or its system refused a call.
    #[error("file failed")]
    File,
    /// The engine over a write-ahead log refused a call.
    #[error("wal: {0}")]
    Wal(WalError),
    /// The engine over a rollback journal refused a call.
    #[error("journal: {0}")]
    Roll(RollError),
    /// No memory.
    #[error("no memory")]
    NoMemory,
}

impl From<AllocError> for Failure {
    ghost from_gives = { λ _ failure. failure ≡ NoMemory };

    fn from(_error: AllocError) -> Failure {
        Failure::NoMemory
    }
}

impl<T: Drop> From<AllocFailed<T>> for Failure {
    ghost from_gives = { λ _ failure. failure ≡ NoMemory };

    fn from(_error: AllocFailed<T>) -> Failure {
        Failure::NoMemory
    }
}

impl From<io::Error> for Failure {
    ghost from_gives = { λ _ failure. failure ≡ File };

    fn from(_error: io::Error) -> Failure {
        Failure::File
    }
}

impl From<WalError> for Failure {
    ghost from_gives = { λ error failure. failure ≡ Wal error };

    fn from(error: WalError) -> Failure {
        Failure::Wal(error)
    }
}

impl From<RollError> for Failure {
    ghost from_gives = { λ error failure. failure ≡ Roll error };

    fn from(error: RollError) -> Failure {
        Failure::Roll(error)
    }
}
