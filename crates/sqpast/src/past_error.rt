//! Why no database is shown at a commit.
ghost use Rattle.std.specs.Prelude.{◌≡◌};
ghost use Rattle.sqpast.specs.declared.past_error.PastError.TheVariants.{Refused};

use sqview::ViewError;
use thiserror::Error;

/// Why no database is shown at a commit.
#[derive(Clone, Copy, Debug, PartialEq, Eq, Error)]
pub enum PastError {
    /// The view is refused.
    #[error("{0}")]
    Refused(ViewError),
    /// A later checkpoint copied a page over one that was there, or may have cut it away.
    #[error("commit overwritten")]
    CommitOverwritten,
}

impl From<ViewError> for PastError {
    ghost from_gives = { λ error e. e ≡ Refused error };

    fn from(error: ViewError) -> PastError {
        PastError::Refused(error)
    }
}
