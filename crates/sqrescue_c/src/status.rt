//! What the calls answer (own).
ghost use Rattle.std.specs.Prelude.{◌≡◌, IfOk, IfErr};
ghost use Rattle.sqview.specs.declared.judge_error.JudgeError.{JudgeError};
ghost use Rattle.sqrescue_c.specs.Statuses.{past_status, view_status, judge_status, wal_status, journal_status};
ghost use Rattle.sqrescue_c.specs.internal.Statuses.{number_of};

use sqjournal::JournalError;
use sqpast::PastError;
use sqview::{JudgeError, ViewError};
use sqwal::WalFormatError;

/// What a call answers.
#[derive(Clone, Copy, Debug, PartialEq, Eq)]
pub(crate) enum Status {
    /// It did what it does.
    Done,
    /// The database isn't well formed.
    Damaged,
    /// A hot journal, and a write-ahead log that isn't empty.
    TwoLogs,
    /// The log or the database is above a limit.
    TooLarge,
    /// The database is one of auto-vacuum.
    AutoVacuum,
    /// No log counts, and the header names no database.
    NotADatabase,
    /// No memory.
    NoMemory,
    /// There is no such page.
    NoSuchPage,
    /// The buffer isn't as long as a page.
    WrongSize,
    /// The array has fewer places than are needed.
    NoRoom,
    /// There is no such commit.
    NoSuchCommit,
    /// A log's header doesn't begin with its magic.
    Magic,
    /// It names a page or a sector of a size that there isn't.
    PageSize,
    /// Its sums are wrong.
    Sum,
    /// It is of another version.
    LogVersion,
    /// The hot journal names a super-journal.
    SuperJournal,
    /// The log's pages are of another size than the database file's.
    PageSizesDiffer,
    /// A later checkpoint may have changed the database at the commit.
    CommitOverwritten,
    /// The database is sound, but not all of it was judged.
    NotJudged,
}

impl Status {
    /// From Done, 0, to PageSizesDiffer, 16, in the order of the enum; then CommitOverwritten, 30, and NotJudged, 31.
    pub(crate) fn number(self) -> u32
        ensures { result ≡ number_of self }
    {
        match self {
            Status::Done => 0,
            Status::Damaged => 1,
            Status::TwoLogs => 2,
            Status::TooLarge => 3,
            Status::AutoVacuum => 4,
            Status::NotADatabase => 5,
            Status::NoMemory => 6,
            Status::NoSuchPage => 7,
            Status::WrongSize => 8,
            Status::NoRoom => 9,
            Status::NoSuchCommit => 10,
            Status::Magic => 11,
            Status::PageSize => 12,
            Status::Sum => 13,
            Status::LogVersion => 14,
            Status::SuperJournal => 15,
            Status::PageSizesDiffer => 16,
            Status::CommitOverwritten => 30,
            Status::NotJudged => 31,
        }
    }
}

/// The status of a view's refusal. Bytes in memory are never unread.
fn view_status(error: ViewError) -> Status
    ensures { number_of result ≡ view_status error }
{
    match error {
        ViewError::TwoLogs => Status::TwoLogs,
        ViewError::TooLarge => Status::TooLarge,
        ViewError::Header(_) => Status::NotADatabase,
        ViewError::Unread | ViewError::NoMemory => Status::NoMemory,
        ViewError::NoSuchCommit => Status::NoSuchCommit,
    }
}

/// Its number.
pub(crate) fn view_number(error: ViewError) -> u32
    ensures { result ≡ view_status error }
{
    view_status(error).number()
}

/// The status of the refusal of a view at a commit.
pub(crate) fn past_status(error: PastError) -> Status
    ensures { number_of result ≡ past_status error }
{
    match error {
        PastError::Refused(error) => view_status(error),
        PastError::CommitOverwritten => Status::CommitOverwritten,
    }
}

/// The status of a check's refusal. Bytes in memory are never unread.
fn judge_status(error: JudgeError) -> Status
    ensures { number_of result ≡ judge_status error }
{
    match error {
        JudgeError::TwoLogs => Status::TwoLogs,
        JudgeError::TooLarge => Status::TooLarge,
        JudgeError::AutoVacuum => Status::AutoVacuum,
        JudgeError::Unread | JudgeError::NoMemory => Status::NoMemory,
        JudgeError::NoSuchCommit => Status::NoSuchCommit,
    }
}

/// A check's answer, whose refusal is a status.
pub(crate) fn with_status<T: Drop>(found: Result<T, JudgeError>) -> Result<T, Status>
    ensures ok { IfOk result (λ x. found ≡ Ok x) }
    ensures err { IfErr result (λ s. (e : JudgeError) × (found ≡ Err e) × (number_of s ≡ judge_status e)) }
{
    match found {
        Ok(x) => Ok(x),
        Err(error) => Err(judge_status(error)),
    }
}

/// The number of what refuses a write-ahead log.
pub(crate) fn wal_number(error: WalFormatError) -> u32
    ensures { result ≡ wal_status error }
{
    match error {
        WalFormatError::NotAWal => Status::Magic,
        WalFormatError::PageSize => Status::PageSize,
        WalFormatError::HeaderSum => Status::Sum,
        WalFormatError::UnknownVersion => Status::LogVersion,
        WalFormatError::TooLong => Status::TooLarge,
        WalFormatError::NoMemory => Status::NoMemory,
    }
    .number()
}

/// The number of what refuses a rollback journal.
pub(crate) fn journal_number(error: &JournalError) -> u32
    ensures { result ≡ journal_status error.now }
{
    match error {
        JournalError::NotAJournal => Status::Magic,
        JournalError::SectorSize | JournalError::PageSize => Status::PageSize,
        JournalError::NoMemory => Status::NoMemory,
        JournalError::TooLong => Status::TooLarge,
    }
    .number()
}
