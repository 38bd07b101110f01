//! What comes of a run, or why it was refused.
ghost use Rattle.std.specs.Prelude.{◌≡◌, ◌+◌, MatchResult};
ghost use Rattle.sqcrash.specs.Refusals.{IsTooMany};

use crashdisk::DiskError;
use rig_judge::SnapshotError;
use rig_play::{PlayError, TraceError};
use std::alloc::{AllocError, AllocFailed};
use std::io;
use thiserror::Error;

/// Why a run was refused.
#[derive(Debug, Drop, Error)]
pub enum Refusal {
    /// The trace is missing, or its system refused a call.
    #[error("file failed")]
    FileFailed,
    /// It is none.
    #[error("{0}")]
    Trace(TraceError),
    /// The record at this byte can't be played.
    #[error("{1} at byte {0}")]
    Record(usize, PlayError),
    /// No record of the trace is a mark, and a crash was to come at marks alone.
    #[error("no marks, so that nothing would be judged; --every judges after each call")]
    NoMarks,
    /// No record of the trace may change what is on the disk, and none is a mark.
    #[error("no calls, so that nothing would be judged")]
    NoCalls,
    /// No point of the trace is of the part that was asked for.
    #[error("no points of this part, so that nothing would be judged")]
    NoPart,
    /// A count would pass its greatest number.
    #[error("too many images")]
    TooMany,
    /// A line can't be written.
    #[error("can't write")]
    Unwritten,
    /// No memory.
    #[error("no memory")]
    NoMemory,
}

impl From<AllocError> for Refusal {
    ghost use Rattle.std.specs.Prelude.{◌≡◌};
    ghost use Rattle.sqcrash.specs.declared.outcome.Refusal.TheVariants.{NoMemory};

    ghost from_gives = { λ _ refusal. refusal ≡ NoMemory };

    fn from(_error: AllocError) -> Refusal {
        Refusal::NoMemory
    }
}

impl<T: Drop> From<AllocFailed<T>> for Refusal {
    ghost use Rattle.std.specs.Prelude.{◌≡◌};
    ghost use Rattle.sqcrash.specs.declared.outcome.Refusal.TheVariants.{NoMemory};

    ghost from_gives = { λ _ refusal. refusal ≡ NoMemory };

    fn from(_error: AllocFailed<T>) -> Refusal {
        Refusal::NoMemory
    }
}

impl From<DiskError> for Refusal {
    ghost use Rattle.std.specs.Prelude.{◌≡◌};
    ghost use Rattle.sqcrash.specs.declared.outcome.Refusal.TheVariants.{NoMemory};

    ghost from_gives = { λ _ refusal. refusal ≡ NoMemory };

    fn from(_error: DiskError) -> Refusal {
        Refusal::NoMemory
    }
}

impl From<SnapshotError> for Refusal {
    ghost use Rattle.std.specs.Prelude.{◌≡◌};
    ghost use Rattle.sqcrash.specs.declared.outcome.Refusal.TheVariants.{NoMemory};

    ghost from_gives = { λ _ refusal. refusal ≡ NoMemory };

    fn from(_error: SnapshotError) -> Refusal {
        Refusal::NoMemory
    }
}

impl From<TraceError> for Refusal {
    ghost use Rattle.std.specs.Prelude.{◌≡◌};
    ghost use Rattle.sqcrash.specs.declared.outcome.Refusal.TheVariants as refusals;

    ghost from_gives = { λ error refusal. refusal ≡ refusals.Trace error };

    fn from(error: TraceError) -> Refusal {
        Refusal::Trace(error)
    }
}

impl From<io::Error> for Refusal {
    ghost use Rattle.std.specs.Prelude.{◌≡◌};
    ghost use Rattle.sqcrash.specs.declared.outcome.Refusal.TheVariants.{Unwritten};

    ghost from_gives = { λ _ refusal. refusal ≡ Unwritten };

    fn from(_error: io::Error) -> Refusal {
        Refusal::Unwritten
    }
}

/// One more. TooMany where that is above 18,446,744,073,709,551,615 (own).
pub fn more(count: u64) -> Result<u64, Refusal>
    ensures { MatchResult result (λ n. n ≡ count + 1) (IsTooMany count) }
{
    match count.checked_add(1) {
        Some(n) => Ok(n),
        None => Err(Refusal::TooMany),
    }
}
