//! Why a trace of a set of files can't be played (own).
ghost use Rattle.std.specs.Prelude.{◌≡◌};

use rig_play::PlayError;
use std::alloc::{AllocError, AllocFailed};
use thiserror::Error;

/// Why a record can't be played.
#[derive(Clone, Copy, Debug, PartialEq, Eq, Error)]
pub enum StoreError {
    /// It is of a call that a trace can't hold.
    #[error("a call that a trace can't hold")]
    NotHeld,
    /// It speaks of a file that wasn't made, or of a name that wasn't told.
    #[error("no such file")]
    Unknown,
    /// What a file is after it can't be modelled, or isn't what it was when recording ended.
    #[error("{0}")]
    Play(PlayError),
    /// A file was there when recording ended, and the calls before it leave none: some weren't recorded.
    #[error("a file isn't what the recorded calls leave")]
    Differs,
    /// No memory.
    #[error("no memory")]
    NoMemory,
}

impl From<PlayError> for StoreError {
    ghost use Rattle.std.specs.Prelude.{◌≡◌};
    ghost use Rattle.rig_store.specs.declared.error.StoreError.TheVariants.{Play};

    ghost from_gives = { λ error told. told ≡ Play error };

    fn from(error: PlayError) -> StoreError {
        StoreError::Play(error)
    }
}

impl From<AllocError> for StoreError {
    ghost use Rattle.std.specs.Prelude.{◌≡◌};
    ghost use Rattle.rig_store.specs.declared.error.StoreError.TheVariants.{NoMemory};

    ghost from_gives = { λ _ told. told ≡ NoMemory };

    fn from(_refused: AllocError) -> StoreError {
        StoreError::NoMemory
    }
}

impl<T: Drop> From<AllocFailed<T>> for StoreError {
    ghost use Rattle.std.specs.Prelude.{◌≡◌};
    ghost use Rattle.rig_store.specs.declared.error.StoreError.TheVariants.{NoMemory};

    ghost from_gives = { λ _ told. told ≡ NoMemory };

    fn from(_refused: AllocFailed<T>) -> StoreError {
        StoreError::NoMemory
    }
}
