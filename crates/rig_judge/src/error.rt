//! Why a database isn't taken or compared (own).
ghost use Rattle.std.specs.Prelude.{◌≡◌};

use sqpage::SourceError;
use std::alloc::{AllocError, AllocFailed};
use thiserror::Error;

/// Why a database isn't taken or compared.
#[derive(Clone, Copy, Debug, PartialEq, Eq, Error)]
pub enum SnapshotError {
    /// A page could not be read.
    #[error("a page could not be read")]
    Unread,
    /// No memory.
    #[error("no memory")]
    NoMemory,
}

impl From<SourceError> for SnapshotError {
    ghost use Rattle.std.specs.Prelude.{◌≡◌};
    ghost use Rattle.rig_judge.specs.declared.error.SnapshotError.TheVariants.{Unread};

    ghost from_gives = { λ _ e. e ≡ Unread };

    fn from(_unread: SourceError) -> SnapshotError {
        SnapshotError::Unread
    }
}

impl From<AllocError> for SnapshotError {
    ghost use Rattle.std.specs.Prelude.{◌≡◌};
    ghost use Rattle.rig_judge.specs.declared.error.SnapshotError.TheVariants.{NoMemory};

    ghost from_gives = { λ _ e. e ≡ NoMemory };

    fn from(_refused: AllocError) -> SnapshotError {
        SnapshotError::NoMemory
    }
}

impl<T: Drop> From<AllocFailed<T>> for SnapshotError {
    ghost use Rattle.std.specs.Prelude.{◌≡◌};
    ghost use Rattle.rig_judge.specs.declared.error.SnapshotError.TheVariants.{NoMemory};

    ghost from_gives = { λ _ e. e ≡ NoMemory };

    fn from(_refused: AllocFailed<T>) -> SnapshotError {
        SnapshotError::NoMemory
    }
}
