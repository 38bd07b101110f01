//! The view of a file at a commit of its log (fileformat2, 4.5).
ghost use Rattle.std.specs.Prelude.{◌≡◌, ◌≤◌, ℕ, List, IfOk};
ghost use Rattle.sqwal.specs.Took.{Took, TookWithin};
ghost use Rattle.sqjournal.specs.Journal.{IsHot};
ghost use Rattle.sqview.specs.At.{AtAnswer, AtAnswerWithin, FrontIsShown, ZeroIsShown};
ghost use Rattle.sqview.specs.Logs.{IsRead};
ghost use Rattle.sqview.specs.internal.ViewParts.{CommitFound};

use super::View;
use super::opening::{own, placed, scanned};
use crate::file_bytes::FileBytes;
use crate::logs::{LogInUse, log_in_use};
use crate::view_error::ViewError;
use sqval::{Limits, PageSize};
use sqwal::Scan;
use std::alloc::Global;

/// A commit of a log: the frame that ends it, the size of the log's pages, and how many the database has there.
#[derive(Clone, Copy)]
pub(super) struct Commit {
    pub(super) frame: u32,
    pub(super) page_size: PageSize,
    pub(super) size: u32,
}

/// The commit that a frame of the log ends. None where it ends none.
fn commit_of(scan: &Scan, frame: u32) -> Option<Commit>
    ensures { (most : ℕ) (w : List ℕ) → TookWithin most w scan.now → CommitFound w frame result }
{
    let header = scan.header()?;
    let entry = scan.entry(frame as usize)?;
    if entry.size == 0 {
        return None;
    }
    Some(Commit {
        frame,
        page_size: header.page_size,
        size: entry.size,
    })
}

/// The view of a file at a frame of its log, where no hot journal is.
fn at_frame<F: FileBytes + Drop>(
    alloc: Global,
    limits: Limits,
    db: F,
    wal: F,
    frame: u32,
) -> Result<View<F>, ViewError>
    ensures right { F.reads_right wal → IsRead result → 1 ≤ frame → (journal : List ℕ) → ¬ IsHot journal
        → AtAnswerWithin limits F.bytes frame (F.bytes db) (F.bytes wal) journal result }
    ensures read { F.gives_bytes wal → IsRead result }
    ensures still_right { F.reads_right db → F.reads_right wal
        → IfOk result (λ view. F.reads_right view.db × F.reads_right view.log) }
    ensures still_gives { F.gives_bytes db → F.gives_bytes wal
        → IfOk result (λ view. F.gives_bytes view.db × F.gives_bytes view.log) }
    ensures reads { IfOk result (λ view. (F.bytes view.db ≡ F.bytes db) × (F.bytes view.log ≡ F.bytes wal)) }
{
    let mut log = wal;
    let Some(scan) = scanned(alloc, limits, &mut log)? else {
        return Err(ViewError::NoSuchCommit);
    };
    View::of_scan_within(alloc, limits, db, log, &scan, frame)
}

impl<F: FileBytes + Drop> View<F> {
    /// The view of a file with a log that counts, of which this is the scan, up to a commit frame. Nothing is read.
    /// Refused, in this order, by NoSuchCommit where the frame ends no commit, also where it is 0, and by TooLarge;
    /// NoMemory may stand in place of any answer.
    pub fn of_scan(
        alloc: Global,
        db: F,
        log: F,
        scan: &Scan,
        frame: u32,
    ) -> Result<View<F>, ViewError>
        ensures answer { Took (F.bytes log) scan.now → 1 ≤ frame → (journal : List ℕ) → ¬ IsHot journal
            → AtAnswer F.bytes frame (F.bytes db) (F.bytes log) journal result }
        ensures zero { Took (F.bytes log) scan.now → frame ≡ 0 → result ≡ Err ViewError.NoSuchCommit }
        ensures read { IsRead result }
        ensures still_right { F.reads_right db → F.reads_right log
            → IfOk result (λ view. F.reads_right view.db × F.reads_right view.log) }
        ensures still_gives { F.gives_bytes db → F.gives_bytes log
            → IfOk result (λ view. F.gives_bytes view.db × F.gives_bytes view.log) }
        ensures reads { IfOk result (λ view. (F.bytes view.db ≡ F.bytes db) × (F.bytes view.log ≡ F.bytes log)) }
    {
        View::of_scan_within(alloc, Limits::USUAL, db, log, scan, frame)
    }

    /// The same within these limits.
    pub fn of_scan_within(
        alloc: Global,
        limits: Limits,
        db: F,
        log: F,
        scan: &Scan,
        frame: u32,
    ) -> Result<View<F>, ViewError>
        ensures answer { TookWithin limits.frames (F.bytes log) scan.now → 1 ≤ frame → (journal : List ℕ)
            → ¬ IsHot journal → AtAnswerWithin limits F.bytes frame (F.bytes db) (F.bytes log) journal result }
        ensures zero { TookWithin limits.frames (F.bytes log) scan.now → frame ≡ 0
            → result ≡ Err ViewError.NoSuchCommit }
        ensures read { IsRead result }
        ensures still_right { F.reads_right db → F.reads_right log
            → IfOk result (λ view. F.reads_right view.db × F.reads_right view.log) }
        ensures still_gives { F.gives_bytes db → F.gives_bytes log
            → IfOk result (λ view. F.gives_bytes view.db × F.gives_bytes view.log) }
        ensures reads { IfOk result (λ view. (F.bytes view.db ≡ F.bytes db) × (F.bytes view.log ≡ F.bytes log)) }
    {
        match commit_of(scan, frame) {
            Some(it) => placed(alloc, limits, db, log, scan, it),
            None => Err(ViewError::NoSuchCommit),
        }
    }

    /// The view of a file with its write-ahead log up to a commit frame, where a missing file has no bytes. At frame 0
    /// it is the file without its log, also beside a hot journal, and has no places. What is read and kept is otherwise
    /// as for `new`. Refused, in this order, by TwoLogs, by TooLarge where the log is too long, by NoSuchCommit where
    /// the frame isn't 0 and the journal is hot or the log has no such commit frame, by TooLarge where that database is
    /// above the limit, and by Header at frame 0; NoMemory may stand in place of any answer, and Unread where a file
    /// could not be read.
    pub fn at(alloc: Global, db: F, wal: F, journal: F, frame: u32) -> Result<View<F>, ViewError>
        ensures answer { F.gives_bytes db × F.gives_bytes wal × F.gives_bytes journal
            → AtAnswer F.bytes frame (F.bytes db) (F.bytes wal) (F.bytes journal) result }
        ensures right { F.reads_right db × F.reads_right wal × F.reads_right journal → IsRead result
            → AtAnswer F.bytes frame (F.bytes db) (F.bytes wal) (F.bytes journal) result }
        ensures still_right { F.reads_right db × F.reads_right wal × F.reads_right journal
            → IfOk result (λ view. F.reads_right view.db × F.reads_right view.log) }
        ensures still_gives { F.gives_bytes db × F.gives_bytes wal × F.gives_bytes journal
            → IfOk result (λ view. F.gives_bytes view.db × F.gives_bytes view.log) }
        ensures reads { IfOk result (λ view. (F.bytes view.db ≡ F.bytes db) × (F.bytes view.log ≡ F.bytes wal)) }
    {
        View::at_within(alloc, Limits::USUAL, db, wal, journal, frame)
    }

    /// The same within these limits.
    pub fn at_within(
        alloc: Global,
        limits: Limits,
        db: F,
        wal: F,
        journal: F,
        frame: u32,
    ) -> Result<View<F>, ViewError>
        ensures answer { F.gives_bytes db × F.gives_bytes wal × F.gives_bytes journal
            → AtAnswerWithin limits F.bytes frame (F.bytes db) (F.bytes wal) (F.bytes journal) result }
        ensures right { F.reads_right db × F.reads_right wal × F.reads_right journal → IsRead result
            → AtAnswerWithin limits F.bytes frame (F.bytes db) (F.bytes wal) (F.bytes journal) result }
        ensures still_right { F.reads_right db × F.reads_right wal × F.reads_right journal
            → IfOk result (λ view. F.reads_right view.db × F.reads_right view.log) }
        ensures still_gives { F.gives_bytes db × F.gives_bytes wal × F.gives_bytes journal
            → IfOk result (λ view. F.gives_bytes view.db × F.gives_bytes view.log) }
        ensures reads { IfOk result (λ view. (F.bytes view.db ≡ F.bytes db) × (F.bytes view.log ≡ F.bytes wal)) }
    {
        let mut journal = journal;
        let in_use = log_in_use(&wal, &mut journal)?;
        if frame == 0 {
            return own(alloc, limits, db, wal);
        }
        match in_use {
            LogInUse::Wal => at_frame(alloc, limits, db, wal, frame),
            _ => Err(ViewError::NoSuchCommit),
        }
    }
}

/// The view at the front of a log that counts is the view of the file with its logs, and where no log counts the view
/// at frame 0 is. It does nothing; its contract is that law.
pub fn front_is_shown()
    ensures front { FrontIsShown }
    ensures zero { ZeroIsShown }
{}
