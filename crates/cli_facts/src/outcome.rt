//! What a recovery did, or why a command was refused.
ghost use Rattle.std.specs.Prelude.{◌≡◌};
ghost use Rattle.std.specs.IoError.{error_kind};
ghost use Rattle.cli_facts.specs.Refusals.{refusal_of, refusal_of_past};
ghost use Rattle.cli_facts.specs.internal.Refusals.{refusal_of_judge, refusal_of_kind};
ghost use Rattle.cli_facts.specs.declared.outcome.Refusal.TheVariants.{FileFailed, NoMemory};

use sqpage::SourceError;
use sqpast::PastError;
use sqview::{JudgeError, ViewError};
use std::alloc::AllocError;
use std::{fmt, io};
use thiserror::Error;

/// What a recovery did.
#[derive(Clone, Copy, Debug, PartialEq, Eq)]
pub enum Outcome {
    /// There was no log that counts: no write-ahead log, or an empty one, and no hot journal.
    Nothing,
    /// The log had no committed frame, and was emptied.
    NoFront,
    /// So many committed frames were folded into the database, which has so many pages now.
    Folded { frames: u32, pages: u32 },
    /// The hot journal, of which so many records passed, was replayed into the database, which has so many pages now.
    RolledBack { records: usize, pages: u32 },
}

impl fmt::Display for Outcome {
    fn fmt<W: fmt::Write>(&self, f: &mut fmt::Formatter<W>) -> fmt::Result {
        match self {
            Outcome::Nothing => write!(f, "nothing to recover"),
            Outcome::NoFront => write!(f, "wal: front 0"),
            Outcome::Folded { frames, pages } => write!(f, "wal: front {frames}, {pages} pages"),
            Outcome::RolledBack { records, pages } => {
                write!(f, "journal: {records} records, {pages} pages")
            }
        }
    }
}

/// Why a command was refused. Nothing was written but where a file failed.
#[derive(Clone, Copy, Debug, PartialEq, Eq, Error)]
pub enum Refusal {
    /// Another process has a lock on the database file, or has it open.
    #[error("in use")]
    InUse,
    /// SQLite's locks can't be taken where the file is.
    #[error("no locks")]
    NoLocks,
    /// A file changed while it was read.
    #[error("file changed")]
    FileChanged,
    /// A file is missing, is no file, or its system refused a call.
    #[error("file failed")]
    FileFailed,
    /// The log's version isn't 3007000.
    #[error("unknown log version")]
    UnknownLogVersion,
    /// The database and its log name different page sizes.
    #[error("page sizes differ")]
    PageSizesDiffer,
    /// The log's database would be above 1,073,741,824 bytes, or the log has more frames than are scanned.
    #[error("too large")]
    TooLarge,
    /// A hot journal and a write-ahead log that isn't empty lie beside the file.
    #[error("two logs")]
    TwoLogs,
    /// The journal is one of a transaction over several files.
    #[error("super-journal")]
    SuperJournal,
    /// The file's header is no database's.
    #[error("not a database")]
    NotADatabase,
    /// The database is one of auto-vacuum, whose pointer maps aren't read.
    #[error("auto-vacuum")]
    AutoVacuum,
    /// The database has no page of this number.
    #[error("no such page")]
    NoSuchPage,
    /// The log has no such commit.
    #[error("no such commit")]
    NoSuchCommit,
    /// A later checkpoint may have changed the database of the commit that is asked for.
    #[error("commit overwritten")]
    CommitOverwritten,
    /// No memory.
    #[error("no memory")]
    NoMemory,
}

impl From<AllocError> for Refusal {
    ghost from_gives = { λ _ refusal. refusal ≡ NoMemory };

    fn from(_error: AllocError) -> Refusal {
        Refusal::NoMemory
    }
}

impl From<io::Error> for Refusal {
    ghost from_gives = { λ error refusal. refusal ≡ refusal_of_kind (error_kind error) };

    fn from(error: io::Error) -> Refusal {
        match error.kind() {
            io::ErrorKind::OutOfMemory => Refusal::NoMemory,
            _ => Refusal::FileFailed,
        }
    }
}

impl From<SourceError> for Refusal {
    ghost from_gives = { λ _ refusal. refusal ≡ FileFailed };

    fn from(_unread: SourceError) -> Refusal {
        Refusal::FileFailed
    }
}

impl From<ViewError> for Refusal {
    ghost from_gives = { λ error refusal. refusal ≡ refusal_of error };

    fn from(error: ViewError) -> Refusal {
        match error {
            ViewError::TwoLogs => Refusal::TwoLogs,
            ViewError::TooLarge => Refusal::TooLarge,
            ViewError::Header(_) => Refusal::NotADatabase,
            ViewError::Unread => Refusal::FileFailed,
            ViewError::NoMemory => Refusal::NoMemory,
            ViewError::NoSuchCommit => Refusal::NoSuchCommit,
        }
    }
}

impl From<PastError> for Refusal {
    ghost from_gives = { λ error refusal. refusal ≡ refusal_of_past error };

    fn from(error: PastError) -> Refusal {
        match error {
            PastError::Refused(error) => Refusal::from(error),
            PastError::CommitOverwritten => Refusal::CommitOverwritten,
        }
    }
}

impl From<JudgeError> for Refusal {
    ghost from_gives = { λ error refusal. refusal ≡ refusal_of_judge error };

    fn from(error: JudgeError) -> Refusal {
        match error {
            JudgeError::TwoLogs => Refusal::TwoLogs,
            JudgeError::TooLarge => Refusal::TooLarge,
            JudgeError::AutoVacuum => Refusal::AutoVacuum,
            JudgeError::Unread => Refusal::FileFailed,
            JudgeError::NoMemory => Refusal::NoMemory,
            JudgeError::NoSuchCommit => Refusal::NoSuchCommit,
        }
    }
}
