//! Why a run was refused.
ghost use Rattle.std.specs.Prelude.{◌≡◌, ◌+◌, MatchResult};
ghost use Rattle.sqcrash_store.specs.Refused.{IsTooMany};

use rig_play::TraceError;
use rig_store::StoreError;
use std::alloc::{AllocError, AllocFailed};
use std::io;
use thiserror::Error;

/// Why a run was refused.
#[derive(Debug, Drop, Error)]
pub enum Refusal {
    /// A file is missing, or its system refused a call.
    #[error("file failed")]
    FileFailed,
    /// The trace is none.
    #[error("{0}")]
    Trace(TraceError),
    /// The record at this byte can't be played.
    #[error("{1} at byte {0}")]
    Record(usize, StoreError),
    /// A name of the trace is that of no file in a folder.
    #[error("a name that isn't one of a file in a folder")]
    Name,
    /// No record of the trace is a point.
    #[error("no marks, so that nothing would be judged; --every judges after each call")]
    NoPoints,
    /// No image was judged: the points or the image that are asked for aren't there.
    #[error("no such points or images, so that nothing would be judged")]
    NoImages,
    /// The command names all states alike.
    #[error("the command names all states alike, so that nothing lost or mixed would be found")]
    Alike,
    /// The command gave no answer.
    #[error("no answer")]
    NoAnswer,
    /// A count would pass its greatest number.
    #[error("too many images")]
    TooMany,
    /// A line can't be written.
    #[error("can't write")]
    Unwritten,
    /// No memory.
    #[error("no memory")]
    NoMemory,
}

impl From<AllocError> for Refusal {
    ghost use Rattle.std.specs.Prelude.{◌≡◌};
    ghost use Rattle.sqcrash_store.specs.declared.outcome.Refusal.TheVariants.{NoMemory};

    ghost from_gives = { λ _ refusal. refusal ≡ NoMemory };

    fn from(_error: AllocError) -> Refusal {
        Refusal::NoMemory
    }
}

impl<T: Drop> From<AllocFailed<T>> for Refusal {
    ghost use Rattle.std.specs.Prelude.{◌≡◌};
    ghost use Rattle.sqcrash_store.specs.declared.outcome.Refusal.TheVariants.{NoMemory};

    ghost from_gives = { λ _ refusal. refusal ≡ NoMemory };

    fn from(_error: AllocFailed<T>) -> Refusal {
        Refusal::NoMemory
    }
}

impl From<StoreError> for Refusal {
    ghost use Rattle.std.specs.Prelude.{◌≡◌};
    ghost use Rattle.sqcrash_store.specs.declared.outcome.Refusal.TheVariants.{NoMemory};

    ghost from_gives = { λ _ refusal. refusal ≡ NoMemory };

    fn from(_error: StoreError) -> Refusal {
        Refusal::NoMemory
    }
}

impl From<TraceError> for Refusal {
    ghost use Rattle.std.specs.Prelude.{◌≡◌};
    ghost use Rattle.sqcrash_store.specs.declared.outcome.Refusal.TheVariants as refusals;

    ghost from_gives = { λ error refusal. refusal ≡ refusals.Trace error };

    fn from(error: TraceError) -> Refusal {
        Refusal::Trace(error)
    }
}

impl From<io::Error> for Refusal {
    ghost use Rattle.std.specs.Prelude.{◌≡◌, ◌⊎◌};
    ghost use Rattle.sqcrash_store.specs.declared.outcome.Refusal.TheVariants.{NoMemory, Unwritten};

    ghost from_gives = { λ _ refusal. (refusal ≡ NoMemory) ⊎ (refusal ≡ Unwritten) };

    fn from(error: io::Error) -> Refusal {
        if error.kind() == io::ErrorKind::OutOfMemory {
            Refusal::NoMemory
        } else {
            Refusal::Unwritten
        }
    }
}

/// One more. TooMany where that is above 18,446,744,073,709,551,615 (own).
pub fn more(count: u64) -> Result<u64, Refusal>
    ensures { MatchResult result (λ n. n ≡ count + 1) (IsTooMany count) }
{
    match count.checked_add(1) {
        Some(n) => Ok(n),
        None => Err(Refusal::TooMany),
    }
}
