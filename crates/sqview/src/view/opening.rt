//! The view of a file with the log that counts.
ghost use Rattle.std.specs.Prelude.{◌≡◌, ℕ, List, [], IfOk};
ghost use Rattle.sqwal.specs.Frames.{size_of, IsValidFrame};
ghost use Rattle.sqwal.specs.Header.{named_size, IsHeader};
ghost use Rattle.sqwal.specs.Took.{Took, TookWithin};
ghost use Rattle.sqjournal.specs.Header.{Names};
ghost use Rattle.sqjournal.specs.Journal.{IsHot};
ghost use Rattle.sqview.specs.Logs.{IsRead};
ghost use Rattle.sqview.specs.LogView.{ViewAnswer, ViewAnswerWithin, ReadsFrom, IsTooLongWithin, IsAlone};
ghost use Rattle.sqview.specs.internal.ViewParts.{ScannedAnswer, ReplayedAnswer, LimitAnswer, IsUnsized, PlacedAnswer};

use super::View;
use super::at_commit::Commit;
use crate::file_bytes::FileBytes;
use crate::file_head::{count_pages, read_head};
use crate::logs::{LogInUse, log_in_use, replay_log, scan_log_within};
use crate::place_table::Places;
use crate::places::{frame_places, record_places};
use crate::view_error::ViewError;
use sqjournal::{JournalError, JournalHeader, Replay};
use sqpage::{Fault, has_magic, named_page_size};
use sqval::{Limits, PageSize};
use sqwal::{Scan, WalFormatError};
use std::alloc::Global;

/// So many pages of this size. TooLarge where they are above the limit.
fn within_limit(limits: Limits, count: u64, page_size: PageSize) -> Result<u32, ViewError>
    ensures { LimitAnswer limits.bytes page_size count result }
{
    if count > limits.bytes() / u64::from(page_size.get()) {
        return Err(ViewError::TooLarge);
    }
    Ok(count as u32)
}

/// The replay of a hot journal. Unread where it isn't hot any more.
fn replayed<F: FileBytes>(alloc: Global, journal: &mut F) -> Result<Replay, ViewError>
    ensures right { F.reads_right journal.old → IsRead result → IsHot (F.bytes journal.old)
        → ReplayedAnswer (F.bytes journal.old) result }
    ensures read { F.gives_bytes journal.old → IsHot (F.bytes journal.old) → IsRead result }
    ensures still_right { F.reads_right journal.old → F.reads_right journal.new }
    ensures still_gives { F.gives_bytes journal.old → F.gives_bytes journal.new }
    ensures same_bytes { F.bytes journal.new ≡ F.bytes journal.old }
{
    match replay_log(alloc, journal)? {
        Ok(replay) => Ok(replay),
        Err(JournalError::TooLong) => Err(ViewError::TooLarge),
        Err(JournalError::NoMemory) => Err(ViewError::NoMemory),
        Err(_) => Err(ViewError::Unread),
    }
}

/// The scan of a log. None where it has no valid header.
pub(super) fn scanned<F: FileBytes>(
    alloc: Global,
    limits: Limits,
    wal: &mut F,
) -> Result<Option<Scan>, ViewError>
    ensures right { F.reads_right wal.old → IsRead result → ScannedAnswer limits.frames (F.bytes wal.old) result }
    ensures read { F.gives_bytes wal.old → IsRead result }
    ensures still_right { F.reads_right wal.old → F.reads_right wal.new }
    ensures still_gives { F.gives_bytes wal.old → F.gives_bytes wal.new }
    ensures same_bytes { F.bytes wal.new ≡ F.bytes wal.old }
{
    match scan_log_within(alloc, limits, wal)? {
        Ok(scan) => Ok(Some(scan)),
        Err(WalFormatError::TooLong) => Err(ViewError::TooLarge),
        Err(WalFormatError::NoMemory) => Err(ViewError::NoMemory),
        Err(_) => Ok(None),
    }
}

/// The view of a file beside a hot journal with this first header.
fn restored<F: FileBytes + Drop>(
    alloc: Global,
    limits: Limits,
    db: F,
    journal: F,
    header: &JournalHeader,
) -> Result<View<F>, ViewError>
    ensures right { F.reads_right journal → IsRead result → IsHot (F.bytes journal)
        → Names (F.bytes journal) header.now
        → ViewAnswerWithin limits F.bytes (F.bytes db) [] (F.bytes journal) result }
    ensures read { F.gives_bytes journal → IsHot (F.bytes journal) → IsRead result }
    ensures still_right { F.reads_right db → F.reads_right journal
        → IfOk result (λ view. F.reads_right view.db × F.reads_right view.log) }
    ensures still_gives { F.gives_bytes db → F.gives_bytes journal
        → IfOk result (λ view. F.gives_bytes view.db × F.gives_bytes view.log) }
    ensures reads { IfOk result (λ view. (F.bytes view.db ≡ F.bytes db) × (F.bytes view.log ≡ F.bytes journal)) }
{
    let mut log = journal;
    let replay = replayed(alloc, &mut log)?;
    let page_size = header.page_size;
    let count = within_limit(limits, u64::from(header.first_size), page_size)?;
    let places = record_places(alloc, &replay, count)?;
    Ok(View {
        db,
        log,
        page_size,
        count,
        front: 0,
        places,
    })
}

/// The view of a file at the front of its log.
fn committed<F: FileBytes + Drop>(
    alloc: Global,
    limits: Limits,
    db: F,
    log: F,
    scan: &Scan,
    page_size: PageSize,
) -> Result<View<F>, ViewError>
    ensures right { F.reads_right db → IsRead result → TookWithin limits.frames (F.bytes log) scan.now
        → IsHeader page_size (F.bytes log) → (journal : List ℕ) → ¬ IsHot journal
        → ViewAnswerWithin limits F.bytes (F.bytes db) (F.bytes log) journal result }
    ensures read { F.gives_bytes db → IsRead result }
    ensures still_right { F.reads_right db → F.reads_right log
        → IfOk result (λ view. F.reads_right view.db × F.reads_right view.log) }
    ensures still_gives { F.gives_bytes db → F.gives_bytes log
        → IfOk result (λ view. F.gives_bytes view.db × F.gives_bytes view.log) }
    ensures reads { IfOk result (λ view. (F.bytes view.db ≡ F.bytes db) × (F.bytes view.log ≡ F.bytes log)) }
{
    let front = scan.committed();
    if front.frames == 0 {
        return own(alloc, limits, db, log);
    }
    let commit = Commit {
        frame: front.frames,
        page_size,
        size: front.size,
    };
    placed(alloc, limits, db, log, scan, commit)
}

/// The view of a file with the frames of its log up to this commit.
pub(super) fn placed<F: FileBytes + Drop>(
    alloc: Global,
    limits: Limits,
    db: F,
    log: F,
    scan: &Scan,
    commit: Commit,
) -> Result<View<F>, ViewError>
    ensures answer { TookWithin limits.frames (F.bytes log) scan.now → named_size (F.bytes log) ≡ commit.page_size
        → IsValidFrame commit.page_size (F.bytes log) commit.frame
        → commit.size ≡ size_of commit.page_size (F.bytes log) commit.frame → PlacedAnswer limits.bytes F.bytes
        commit.page_size commit.frame commit.size (F.bytes db) (F.bytes log) result }
    ensures read { IsRead result }
    ensures still_right { F.reads_right db → F.reads_right log
        → IfOk result (λ view. F.reads_right view.db × F.reads_right view.log) }
    ensures still_gives { F.gives_bytes db → F.gives_bytes log
        → IfOk result (λ view. F.gives_bytes view.db × F.gives_bytes view.log) }
    ensures reads { IfOk result (λ view. (F.bytes view.db ≡ F.bytes db) × (F.bytes view.log ≡ F.bytes log)) }
{
    let Commit {
        frame,
        page_size,
        size,
    } = commit;
    let count = within_limit(limits, u64::from(size), page_size)?;
    let places = frame_places(alloc, scan, page_size, frame, size)?;
    Ok(View {
        db,
        log,
        page_size,
        count,
        front: frame,
        places,
    })
}

/// The view of a file beside a log, where no hot journal is.
fn logged<F: FileBytes + Drop>(
    alloc: Global,
    limits: Limits,
    db: F,
    wal: F,
) -> Result<View<F>, ViewError>
    ensures right { F.reads_right db → F.reads_right wal → IsRead result → (journal : List ℕ) → ¬ IsHot journal
        → ViewAnswerWithin limits F.bytes (F.bytes db) (F.bytes wal) journal result }
    ensures read { F.gives_bytes db → F.gives_bytes wal → IsRead result }
    ensures still_right { F.reads_right db → F.reads_right wal
        → IfOk result (λ view. F.reads_right view.db × F.reads_right view.log) }
    ensures still_gives { F.gives_bytes db → F.gives_bytes wal
        → IfOk result (λ view. F.gives_bytes view.db × F.gives_bytes view.log) }
    ensures reads { IfOk result (λ view. (F.bytes view.db ≡ F.bytes db) × (F.bytes view.log ≡ F.bytes wal)) }
{
    let mut log = wal;
    let Some(scan) = scanned(alloc, limits, &mut log)? else {
        return own(alloc, limits, db, log);
    };
    logged_by(alloc, limits, db, log, &scan)
}

/// The view of a file beside a log of which this is the scan, where no hot journal is.
fn logged_by<F: FileBytes + Drop>(
    alloc: Global,
    limits: Limits,
    db: F,
    log: F,
    scan: &Scan,
) -> Result<View<F>, ViewError>
    ensures right { F.reads_right db → IsRead result → TookWithin limits.frames (F.bytes log) scan.now
        → (journal : List ℕ) → ¬ IsHot journal
        → ViewAnswerWithin limits F.bytes (F.bytes db) (F.bytes log) journal result }
    ensures read { F.gives_bytes db → IsRead result }
    ensures still_right { F.reads_right db → F.reads_right log
        → IfOk result (λ view. F.reads_right view.db × F.reads_right view.log) }
    ensures still_gives { F.gives_bytes db → F.gives_bytes log
        → IfOk result (λ view. F.gives_bytes view.db × F.gives_bytes view.log) }
    ensures reads { IfOk result (λ view. (F.bytes view.db ≡ F.bytes db) × (F.bytes view.log ≡ F.bytes log)) }
{
    match scan.header() {
        Some(header) => committed(alloc, limits, db, log, scan, header.page_size),
        None => own(alloc, limits, db, log),
    }
}

/// The view of a file without a log that counts.
pub(super) fn own<F: FileBytes + Drop>(
    alloc: Global,
    limits: Limits,
    db: F,
    log: F,
) -> Result<View<F>, ViewError>
    ensures right { F.reads_right db → IsRead result → (wal journal : List ℕ) → ¬ IsTooLongWithin limits wal journal
        → IsAlone wal journal → ViewAnswerWithin limits F.bytes (F.bytes db) wal journal result }
    ensures read { F.gives_bytes db → IsRead result }
    ensures still_right { F.reads_right db → F.reads_right log
        → IfOk result (λ view. F.reads_right view.db × F.reads_right view.log) }
    ensures still_gives { F.gives_bytes db → F.gives_bytes log
        → IfOk result (λ view. F.gives_bytes view.db × F.gives_bytes view.log) }
    ensures reads { IfOk result (λ view. (F.bytes view.db ≡ F.bytes db) × (F.bytes view.log ≡ F.bytes log)) }
{
    let mut db = db;
    let head = read_head(&mut db)?;
    let Some(page_size) = named_page_size(&head) else {
        return Err(without_size(&head));
    };
    let count = within_limit(limits, count_pages(&db, &head, page_size), page_size)?;
    if !has_magic(&head) {
        return Err(ViewError::Header(Fault::Magic));
    }
    Ok(View {
        db,
        log,
        page_size,
        count,
        front: 0,
        places: Places::none(alloc),
    })
}

/// Why a header without a page size is refused.
fn without_size(head: &[u8; 100]) -> ViewError
    ensures { IsUnsized head.now result }
{
    ViewError::Header(if has_magic(head) {
        Fault::PageSize
    } else {
        Fault::Magic
    })
}

impl<F: FileBytes + Drop> View<F> {
    /// The view of a file with its write-ahead log and its rollback journal, where a missing file has no bytes. A hot
    /// journal counts, or a log that isn't empty. It reads no log behind its stop. Where one counts it keeps about 160
    /// bytes for each frame or record at most, and 2 MiB; while it reads also 8 for each valid frame, or 16 for each
    /// record. Refused, in this order, by TwoLogs, TooLarge and Header; NoMemory may stand in place of any answer, and
    /// Unread where a file could not be read.
    pub fn new(alloc: Global, db: F, wal: F, journal: F) -> Result<View<F>, ViewError>
        ensures answer { F.gives_bytes db × F.gives_bytes wal × F.gives_bytes journal
            → ViewAnswer F.bytes (F.bytes db) (F.bytes wal) (F.bytes journal) result }
        ensures right { F.reads_right db × F.reads_right wal × F.reads_right journal → IsRead result
            → ViewAnswer F.bytes (F.bytes db) (F.bytes wal) (F.bytes journal) result }
        ensures still_right { F.reads_right db × F.reads_right wal × F.reads_right journal
            → IfOk result (λ view. F.reads_right view.db × F.reads_right view.log) }
        ensures still_gives { F.gives_bytes db × F.gives_bytes wal × F.gives_bytes journal
            → IfOk result (λ view. F.gives_bytes view.db × F.gives_bytes view.log) }
        ensures reads { F.reads_right wal × F.reads_right journal → IfOk result
            (λ view. ReadsFrom (F.bytes db) (F.bytes wal) (F.bytes journal) (F.bytes view.db) (F.bytes view.log)) }
    {
        View::new_within(alloc, Limits::USUAL, db, wal, journal)
    }

    /// The same within these limits. A journal of more than 2^40 bytes is too large within any.
    pub fn new_within(
        alloc: Global,
        limits: Limits,
        db: F,
        wal: F,
        journal: F,
    ) -> Result<View<F>, ViewError>
        ensures answer { F.gives_bytes db × F.gives_bytes wal × F.gives_bytes journal
            → ViewAnswerWithin limits F.bytes (F.bytes db) (F.bytes wal) (F.bytes journal) result }
        ensures right { F.reads_right db × F.reads_right wal × F.reads_right journal → IsRead result
            → ViewAnswerWithin limits F.bytes (F.bytes db) (F.bytes wal) (F.bytes journal) result }
        ensures still_right { F.reads_right db × F.reads_right wal × F.reads_right journal
            → IfOk result (λ view. F.reads_right view.db × F.reads_right view.log) }
        ensures still_gives { F.gives_bytes db × F.gives_bytes wal × F.gives_bytes journal
            → IfOk result (λ view. F.gives_bytes view.db × F.gives_bytes view.log) }
        ensures reads { F.reads_right wal × F.reads_right journal → IfOk result
            (λ view. ReadsFrom (F.bytes db) (F.bytes wal) (F.bytes journal) (F.bytes view.db) (F.bytes view.log)) }
    {
        let mut journal = journal;
        match log_in_use(&wal, &mut journal)? {
            LogInUse::Neither => own(alloc, limits, db, wal),
            LogInUse::Wal => logged(alloc, limits, db, wal),
            LogInUse::Journal(header) => restored(alloc, limits, db, journal, &header),
        }
    }

    /// The same as `new` of a write-ahead log of which this is the scan. Nothing of that log is read (own).
    pub fn new_scanned(
        alloc: Global,
        db: F,
        wal: F,
        journal: F,
        scan: &Scan,
    ) -> Result<View<F>, ViewError>
        ensures answer { F.gives_bytes db × F.gives_bytes wal × F.gives_bytes journal
            → Took (F.bytes wal) scan.now
            → ViewAnswer F.bytes (F.bytes db) (F.bytes wal) (F.bytes journal) result }
        ensures right { F.reads_right db × F.reads_right wal × F.reads_right journal
            → Took (F.bytes wal) scan.now → IsRead result
            → ViewAnswer F.bytes (F.bytes db) (F.bytes wal) (F.bytes journal) result }
        ensures still_right { F.reads_right db × F.reads_right wal × F.reads_right journal
            → IfOk result (λ view. F.reads_right view.db × F.reads_right view.log) }
        ensures still_gives { F.gives_bytes db × F.gives_bytes wal × F.gives_bytes journal
            → IfOk result (λ view. F.gives_bytes view.db × F.gives_bytes view.log) }
        ensures reads { F.reads_right wal × F.reads_right journal → IfOk result
            (λ view. ReadsFrom (F.bytes db) (F.bytes wal) (F.bytes journal) (F.bytes view.db) (F.bytes view.log)) }
    {
        let limits = Limits::USUAL;
        let mut journal = journal;
        match log_in_use(&wal, &mut journal)? {
            LogInUse::Neither => own(alloc, limits, db, wal),
            LogInUse::Wal => logged_by(alloc, limits, db, wal, scan),
            LogInUse::Journal(header) => restored(alloc, limits, db, journal, &header),
        }
    }
}
