//! Why files aren't judged (own).
ghost use Rattle.std.specs.Prelude.{◌≡◌};
ghost use Rattle.sqview.specs.Numbers.{judge_number};
ghost use Rattle.sqview.specs.declared.judge_error.JudgeError.TheVariants.{NoMemory};

use std::alloc::AllocError;
use thiserror::Error;

/// Why it isn't judged whether the database that files show is well formed.
#[derive(Clone, Copy, Debug, PartialEq, Eq, Error)]
pub enum JudgeError {
    /// The journal is hot, and the write-ahead log isn't empty.
    #[error("two logs")]
    TwoLogs,
    /// The log is too long to be scanned, or the database would be above 1,073,741,824 bytes.
    #[error("too large")]
    TooLarge,
    /// The database is one of auto-vacuum, whose pointer maps aren't read.
    #[error("auto-vacuum")]
    AutoVacuum,
    /// A file could not be read.
    #[error("file failed")]
    Unread,
    /// No memory.
    #[error("no memory")]
    NoMemory,
    /// The log has no such commit frame, or a hot journal lies beside it.
    #[error("no such commit")]
    NoSuchCommit,
}

impl JudgeError {
    /// From TwoLogs, 1, to NoSuchCommit, 6, in the order of the enum.
    pub fn number(&self) -> u8
        ensures { result ≡ judge_number self.now }
    {
        match self {
            JudgeError::TwoLogs => 1,
            JudgeError::TooLarge => 2,
            JudgeError::AutoVacuum => 3,
            JudgeError::Unread => 4,
            JudgeError::NoMemory => 5,
            JudgeError::NoSuchCommit => 6,
        }
    }
}

impl From<AllocError> for JudgeError {
    ghost from_gives = { λ _ e. e ≡ NoMemory };

    fn from(_refused: AllocError) -> JudgeError {
        JudgeError::NoMemory
    }
}
