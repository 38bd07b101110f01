//! Which refusal each error of an engine becomes.
ghost use Rattle.std.specs.Prelude.{◌≡◌};
ghost use Rattle.cli_recover.specs.Refusals.{IsFromGuard, refusal_of_roll, refusal_of_wal};
ghost use Rattle.cli_recover.specs.internal.Refusals.{refusal_of_guard};

use cli_facts::Refusal;
use rollcore::RollError;
use walcore::WalError;

/// That of a write-ahead log that couldn't be folded.
pub(crate) fn refusal_of_wal(error: WalError) -> Refusal
    ensures { result ≡ refusal_of_wal error }
{
    match error {
        WalError::TooLarge => Refusal::TooLarge,
        WalError::PageSize => Refusal::PageSizesDiffer,
        WalError::NoMemory => Refusal::NoMemory,
        _ => Refusal::FileFailed,
    }
}

/// That of a journal that couldn't be replayed.
pub(crate) fn refusal_of_roll(error: RollError) -> Refusal
    ensures { result ≡ refusal_of_roll error }
{
    match error {
        RollError::TooLarge => Refusal::TooLarge,
        RollError::NoMemory => Refusal::NoMemory,
        _ => Refusal::FileFailed,
    }
}

/// That of a guard: another process has the files open, or the system refused a call.
pub(crate) fn refusal_of_guard(refusal: Refusal) -> Refusal
    ensures is { result ≡ refusal_of_guard refusal }
    ensures named { IsFromGuard result }
{
    match refusal {
        Refusal::InUse => Refusal::InUse,
        Refusal::NoMemory => Refusal::NoMemory,
        _ => Refusal::FileFailed,
    }
}
