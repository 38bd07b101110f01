//! Why a trace can't be played (own).
ghost use Rattle.std.specs.Prelude.{◌≡◌};

use crashdisk::DiskError;
use std::alloc::{AllocError, AllocFailed};
use thiserror::Error;

/// Why a record can't be played.
#[derive(Clone, Copy, Debug, PartialEq, Eq, Error)]
pub enum PlayError {
    /// It is of a call that a trace can't hold.
    #[error("a call that a trace can't hold")]
    NotHeld,
    /// It renames a file.
    #[error("a file was renamed")]
    Renamed,
    /// Of a file as it was when recording ended: the calls before it leave another one, so some weren't recorded.
    #[error("a file isn't what the recorded calls leave")]
    Differs,
    /// A file would end above 1,099,511,627,776 bytes.
    #[error("the file would be too long")]
    TooLong,
    /// No memory.
    #[error("no memory")]
    NoMemory,
}

impl From<DiskError> for PlayError {
    ghost use Rattle.std.specs.Prelude.{◌≡◌, ◌⊎◌};
    ghost use Rattle.crashdisk.specs.Refusal.{number_of};
    ghost use Rattle.rig_play.specs.declared.error.PlayError.TheVariants.{TooLong, NoMemory};

    ghost from_gives = { λ error told. (told ≡ NoMemory) ⊎ ((told ≡ TooLong) × (number_of error ≡ 3)) };

    fn from(error: DiskError) -> PlayError {
        match error {
            DiskError::TooLong => PlayError::TooLong,
            _ => PlayError::NoMemory,
        }
    }
}

impl From<AllocError> for PlayError {
    ghost use Rattle.std.specs.Prelude.{◌≡◌};
    ghost use Rattle.rig_play.specs.declared.error.PlayError.TheVariants.{NoMemory};

    ghost from_gives = { λ _ told. told ≡ NoMemory };

    fn from(_refused: AllocError) -> PlayError {
        PlayError::NoMemory
    }
}

impl<T: Drop> From<AllocFailed<T>> for PlayError {
    ghost use Rattle.std.specs.Prelude.{◌≡◌};
    ghost use Rattle.rig_play.specs.declared.error.PlayError.TheVariants.{NoMemory};

    ghost from_gives = { λ _ told. told ≡ NoMemory };

    fn from(_refused: AllocFailed<T>) -> PlayError {
        PlayError::NoMemory
    }
}
