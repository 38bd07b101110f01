//! What is said to be done after a refusal, and after damage.
use cli_facts::Refusal;
use cli_job::{Finding, Untold};
use cli_show::Found;
use cli_words::Request;
use sqdeepjudge::{Damage, DeepVerdict};
use sqpage::Fault;
use std::io::ErrorKind;

/// What to do where a page or a row has a fault.
const IN_PAGES: &str =
    "report --to shows which pages have a fault, and salvage --to takes out the rows that can be read";

/// What to do where the first page doesn't begin as that of a database.
const AT_HEADER: &str =
    "salvage --to takes out the rows; where no log counts, of a copy with its first 18 bytes put right (3-evidence.md)";

/// What to do where a script or changes came to damage; none of other requests, whose finding tells more of it.
pub(crate) fn step_after_damage(request: &Request<'_>) -> Option<&'static str> {
    match request {
        Request::Salvage { .. } => {
            Some("the script has a comment for each cell that can't be read")
        }
        Request::Diff { .. } | Request::DeletedDiff { .. } => Some(IN_PAGES),
        _ => None,
    }
}

/// What to do where a command found this, if it is damage.
pub(crate) fn step_after_finding<F>(found: &Finding<F>) -> &'static str {
    let fault = match found {
        Finding::Checked(found) => match &found.verdict {
            DeepVerdict::Damaged(Damage::Check(error)) => Some(error.fault),
            _ => None,
        },
        Finding::Surveyed(Found::Nothing(error)) => Some(error.fault),
        _ => None,
    };
    match fault {
        Some(Fault::Magic | Fault::PageSize) => AT_HEADER,
        _ => IN_PAGES,
    }
}

/// What to do where the system refused a call for this.
fn step_after(cause: Option<ErrorKind>) -> &'static str {
    match cause {
        Some(ErrorKind::StorageFull | ErrorKind::QuotaExceeded) =>
            "make room there, and call this again",
        Some(ErrorKind::PermissionDenied) => "call this as a user who may do that there",
        Some(ErrorKind::ReadOnlyFilesystem) =>
            "nothing can be written there: give recover --to a place where that can be",
        Some(ErrorKind::AlreadyExists) => "move away what lies there, or give another name",
        Some(ErrorKind::NotFound) => "see whether the name is right",
        _ =>
            "nothing can be said of files that can't be read; after a failed recover call it again",
    }
}

/// What to do if a command was refused after what was printed.
pub(crate) fn step_after_untold(why: Untold) -> &'static str {
    match why {
        Untold::NoSuchTable =>
            "see whether the name is right: rows without --table begins each table with its name",
        Untold::NotUnderstood =>
            "the note before names what isn't understood; rows --table prints another table alone",
        Untold::NotJudged =>
            "what is judged is sound; the notes before name the rest: PRAGMA integrity_check judges more of it",
    }
}

/// What to do where standard output couldn't be written for this.
pub(crate) fn step_after_print(cause: ErrorKind) -> &'static str {
    match cause {
        ErrorKind::StorageFull | ErrorKind::QuotaExceeded => "make room there, and call this again",
        _ => "what was printed ends in the middle: call this again with another standard output",
    }
}

/// What to do after a refusal, where the system refused a call for this cause, if one was told; where large files were
/// asked for, they aren't named.
pub(crate) fn next_step(
    refusal: Refusal,
    cause: Option<ErrorKind>,
    is_large: bool,
) -> &'static str {
    match refusal {
        Refusal::InUse =>
            "another process has a lock on the file: end it, give --wait, or --no-lock if it writes no more",
        Refusal::NoLocks =>
            "SQLite's locks can't be taken here: give --no-lock if nobody else touches the file meanwhile",
        Refusal::FileChanged => "another process writes the files: try again, or end it first",
        Refusal::FileFailed => step_after(cause),
        Refusal::UnknownLogVersion =>
            "the log's header names another version than 3007000: look at it by show --log",
        Refusal::PageSizesDiffer =>
            "the log is of another database: look at both by show and show --log",
        Refusal::TooLarge if is_large =>
            "above 1,099,511,627,776 bytes, or too long a log: that can't be read",
        Refusal::TooLarge => "above 1,073,741,824 bytes, or too long a log: give --large",
        Refusal::TwoLogs => "look at both logs, move one away, and call this again",
        Refusal::SuperJournal =>
            "give --super-journal=look if FILE is in its place, otherwise =present or =gone",
        Refusal::NotADatabase =>
            "the header that is to be shown isn't a database's: see show --log and check",
        Refusal::AutoVacuum =>
            "the database has pointer maps: give check, show --pages or report --pointer-maps",
        Refusal::NoSuchCommit => "show --commits has a line for each commit, which names its frame",
        Refusal::CommitOverwritten =>
            "show --commits says of each commit whether it is known: name one that is",
        Refusal::NoSuchPage => "show names the number of pages, in the line that begins with pages",
        Refusal::NoMemory => "the system refused memory: call this again where there is more",
    }
}
