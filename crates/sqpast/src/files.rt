//! The database that files had at a commit of their log.
ghost use Rattle.std.specs.Prelude.{◌≡◌, ℕ, List, IfOk};
ghost use Rattle.sqjournal.specs.Journal.{IsHot};
ghost use Rattle.sqview.specs.Logs.{AreTwoLogs, IsRead};
ghost use Rattle.sqpast.specs.Files.{PastAnswer, PastAnswerWithin, IsPastRead, PastFrontIsShown, PastZeroIsShown};
ghost use Rattle.sqpast.specs.internal.Opening.{PastScanned, HasNoLog};

use crate::at::past_of_scan;
use crate::before::past_before;
use crate::past_error::PastError;
use sqval::Limits;
use sqview::{FileBytes, LogInUse, View, ViewError, log_in_use, scan_log_within};
use sqwal::{Scan, WalFormatError};
use std::alloc::Global;

/// The scan of a log. None if it has no valid header.
fn scanned<F: FileBytes>(
    alloc: Global,
    limits: Limits,
    wal: &mut F,
) -> Result<Option<Scan>, ViewError>
    ensures right { F.reads_right wal.old → IsRead result → PastScanned limits.frames (F.bytes wal.old) result }
    ensures read { F.gives_bytes wal.old → IsRead result }
    ensures still_right { F.reads_right wal.old → F.reads_right wal.new }
    ensures still_gives { F.gives_bytes wal.old → F.gives_bytes wal.new }
    ensures same_bytes { F.bytes wal.new ≡ F.bytes wal.old }
{
    match scan_log_within(alloc, limits, wal)? {
        Ok(scan) => Ok(Some(scan)),
        Err(WalFormatError::TooLong) => Err(ViewError::TooLarge),
        Err(WalFormatError::NoMemory) => Err(ViewError::NoMemory),
        Err(_) => Ok(None),
    }
}

/// The view of a file at 0, without a log that has a commit.
fn past_alone<F: FileBytes + Drop>(
    alloc: Global,
    limits: Limits,
    db: F,
    wal: F,
    journal: F,
    frame: u32,
) -> Result<View<F>, PastError>
    ensures right { F.reads_right db × F.reads_right wal × F.reads_right journal → IsPastRead result
        → HasNoLog limits frame (F.bytes wal) (F.bytes journal)
        → PastAnswerWithin limits F.bytes frame (F.bytes db) (F.bytes wal) (F.bytes journal) result }
    ensures read { F.gives_bytes db × F.gives_bytes wal × F.gives_bytes journal → IsPastRead result }
    ensures still_right { F.reads_right db × F.reads_right wal × F.reads_right journal
        → IfOk result (λ view. F.reads_right view.db × F.reads_right view.log) }
    ensures still_gives { F.gives_bytes db × F.gives_bytes wal × F.gives_bytes journal
        → IfOk result (λ view. F.gives_bytes view.db × F.gives_bytes view.log) }
    ensures reads { IfOk result (λ view. (F.bytes view.db ≡ F.bytes db) × (F.bytes view.log ≡ F.bytes wal)) }
{
    let view = View::at_within(alloc, limits, db, wal, journal, frame)?;
    Ok(view)
}

/// The view of a file with its log at a commit frame, or at 0. The journal isn't hot.
fn past_logged<F: FileBytes + Drop>(
    alloc: Global,
    limits: Limits,
    db: F,
    wal: F,
    journal: F,
    frame: u32,
) -> Result<View<F>, PastError>
    ensures right { F.reads_right db × F.reads_right wal × F.reads_right journal → IsPastRead result
        → ¬ IsHot (F.bytes journal)
        → PastAnswerWithin limits F.bytes frame (F.bytes db) (F.bytes wal) (F.bytes journal) result }
    ensures read { F.gives_bytes db × F.gives_bytes wal × F.gives_bytes journal → IsPastRead result }
    ensures still_right { F.reads_right db × F.reads_right wal × F.reads_right journal
        → IfOk result (λ view. F.reads_right view.db × F.reads_right view.log) }
    ensures still_gives { F.gives_bytes db × F.gives_bytes wal × F.gives_bytes journal
        → IfOk result (λ view. F.gives_bytes view.db × F.gives_bytes view.log) }
    ensures reads { IfOk result (λ view. (F.bytes view.db ≡ F.bytes db) × (F.bytes view.log ≡ F.bytes wal)) }
{
    let mut log = wal;
    let Some(scan) = scanned(alloc, limits, &mut log)? else {
        return past_alone(alloc, limits, db, log, journal, frame);
    };
    if frame == 0 {
        return past_before(alloc, limits, db, log, journal, &scan);
    }
    past_of_scan(alloc, limits, db, log, &scan, frame)
}

/// The view of a file with its write-ahead log and its rollback journal at a commit frame, or at 0, within these
/// limits. A missing file has no bytes. At the log's front it is what the files show, before it the database that was
/// there, with the pages that its header counts. Without a log that has a commit, or beside a hot journal, the file
/// alone is the one at 0. Refused by TwoLogs, by TooLarge, by NoSuchCommit if the frame ends no commit or the journal
/// is hot, by CommitOverwritten if a later checkpoint may have changed that database, and at 0 by Header. NoMemory may
/// stand in place of any answer, and Unread if a file can't be read.
pub fn past_within<F: FileBytes + Drop>(
    alloc: Global,
    limits: Limits,
    db: F,
    wal: F,
    journal: F,
    frame: u32,
) -> Result<View<F>, PastError>
    ensures answer { F.gives_bytes db × F.gives_bytes wal × F.gives_bytes journal
        → PastAnswerWithin limits F.bytes frame (F.bytes db) (F.bytes wal) (F.bytes journal) result }
    ensures right { F.reads_right db × F.reads_right wal × F.reads_right journal → IsPastRead result
        → PastAnswerWithin limits F.bytes frame (F.bytes db) (F.bytes wal) (F.bytes journal) result }
    ensures still_right { F.reads_right db × F.reads_right wal × F.reads_right journal
        → IfOk result (λ view. F.reads_right view.db × F.reads_right view.log) }
    ensures still_gives { F.gives_bytes db × F.gives_bytes wal × F.gives_bytes journal
        → IfOk result (λ view. F.gives_bytes view.db × F.gives_bytes view.log) }
    ensures reads { IfOk result (λ view. (F.bytes view.db ≡ F.bytes db) × (F.bytes view.log ≡ F.bytes wal)) }
{
    let mut journal = journal;
    let in_use = log_in_use(&wal, &mut journal)?;
    match in_use {
        LogInUse::Wal => past_logged(alloc, limits, db, wal, journal, frame),
        _ => past_alone(alloc, limits, db, wal, journal, frame),
    }
}

/// `past_within` at the usual limits.
pub fn past<F: FileBytes + Drop>(
    alloc: Global,
    db: F,
    wal: F,
    journal: F,
    frame: u32,
) -> Result<View<F>, PastError>
    ensures answer { F.gives_bytes db × F.gives_bytes wal × F.gives_bytes journal
        → PastAnswer F.bytes frame (F.bytes db) (F.bytes wal) (F.bytes journal) result }
    ensures right { F.reads_right db × F.reads_right wal × F.reads_right journal → IsPastRead result
        → PastAnswer F.bytes frame (F.bytes db) (F.bytes wal) (F.bytes journal) result }
    ensures still_right { F.reads_right db × F.reads_right wal × F.reads_right journal
        → IfOk result (λ view. F.reads_right view.db × F.reads_right view.log) }
    ensures still_gives { F.gives_bytes db × F.gives_bytes wal × F.gives_bytes journal
        → IfOk result (λ view. F.gives_bytes view.db × F.gives_bytes view.log) }
    ensures reads { IfOk result (λ view. (F.bytes view.db ≡ F.bytes db) × (F.bytes view.log ≡ F.bytes wal)) }
{
    past_within(alloc, Limits::USUAL, db, wal, journal, frame)
}

/// The view at the front of a log is the view of the file with its logs, and so is the one at 0 if nothing is beside
/// the file. It does nothing; its contract is that law.
pub fn past_front_is_shown()
    ensures front { PastFrontIsShown }
    ensures zero { PastZeroIsShown }
{}
