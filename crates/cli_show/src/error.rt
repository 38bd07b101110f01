//! Why not all was shown.
ghost use Rattle.std.specs.Prelude.{◌≡◌};
ghost use Rattle.cli_facts.specs.declared.outcome.Refusal.TheVariants.{FileFailed, NoMemory};
ghost use Rattle.cli_show.specs.declared.error.ShowError.TheVariants.{Refused, Unwritten};

use cli_facts::Refusal;
use sqpage::SourceError;
use std::alloc::AllocError;
use std::io;

/// Why not all was shown.
#[derive(Clone, Copy, Debug, PartialEq, Eq)]
pub enum ShowError {
    /// It is refused.
    Refused(Refusal),
    /// A line could not be written.
    Unwritten,
}

impl From<Refusal> for ShowError {
    ghost from_gives = { λ refusal error. error ≡ Refused refusal };

    fn from(refusal: Refusal) -> ShowError {
        ShowError::Refused(refusal)
    }
}

impl From<AllocError> for ShowError {
    ghost from_gives = { λ _ error. error ≡ Refused NoMemory };

    fn from(_error: AllocError) -> ShowError {
        ShowError::Refused(Refusal::NoMemory)
    }
}

impl From<io::Error> for ShowError {
    ghost from_gives = { λ _ error. error ≡ Unwritten };

    fn from(_error: io::Error) -> ShowError {
        ShowError::Unwritten
    }
}

impl From<SourceError> for ShowError {
    ghost from_gives = { λ _ error. error ≡ Refused FileFailed };

    fn from(_error: SourceError) -> ShowError {
        ShowError::Refused(Refusal::FileFailed)
    }
}
