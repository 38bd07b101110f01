//! What a recovery does, as data: `recover` carries it out, and `--to` copies by it.
ghost use Rattle.std.specs.Prelude.{◌≡◌, ◌≢◌, ◌↔◌, ℕ, suc, List, IfOk, IfSome, IsOkAnd, IsTrue, MatchResult};
ghost use Rattle.sqjournal.specs.declared.header.JournalHeader.{JournalHeader};
ghost use Rattle.cli_show.specs.Contents.{KeepsBytes};
ghost use Rattle.cli_show.specs.Limits.{limits_named};
ghost use Rattle.sqwal.specs.Took.{TookWithin};
ghost use Rattle.cli_recover.specs.Plans.{AreAlike, AreKept, AreUnlike, HasOtherSize, IsCommitOf, PlansFold, RollsBack};
ghost use Rattle.cli_recover.specs.internal.Scans.{FoldsByFront, FoldsBySize, NamesSize, ScansLog, ScansTo};

use cli_facts::Refusal;
use cli_files::{may_be_there, names_super_journal};
use cli_show::{Contents, limits_of, scanned};
use cli_words::Options;
use sqpage::{SourceError, has_magic, named_page_size};
use sqval::{Limits, PageSize};
use sqview::{FileBytes, LogInUse};
use sqwal::{Scan, WalFormatError, WalHeader};
use std::alloc::Global;

/// What a recovery does.
#[derive(Drop)]
pub enum Recovery {
    /// Nothing: no log counts, or by its index none of its frames does.
    Nothing,
    /// It empties the write-ahead log, whose header isn't valid, so that no frame counts.
    Empty,
    /// It folds the write-ahead log, of pages of this size, into the database file, up to its front, and empties it.
    /// With its scan, where one was made.
    Fold(PageSize, Option<Scan>),
    /// It replays the hot journal into the database file, and zeroes the journal's header.
    RollBack,
}

/// What a recovery does of files of which this log counts, if no commit is asked for: up to the front that the log's
/// index names, or to its own. Refused by `UnknownLogVersion`, `PageSizesDiffer`, `SuperJournal`, `TooLarge`,
/// `NoMemory` and `FileFailed`, and by `NoSuchCommit` if the log has no commit at that front. Of the write-ahead log no
/// more than its header is read, but where its index names a front, or the database file another page size.
pub fn plan_recovery<F: FileBytes>(
    alloc: Global,
    options: Options,
    in_use: LogInUse,
    files: &mut Contents<F>,
) -> Result<Recovery, Refusal>
    ensures file { options.front ≡ Some 0 → result ≡ Ok Recovery.Nothing }
    ensures nothing { in_use ≡ LogInUse.Neither → options.front ≡ None → result ≡ Ok Recovery.Nothing }
    ensures journal { (header : JournalHeader) → in_use ≡ LogInUse.Journal header → options.front ≡ None
        → F.gives_bytes files.old.journal → RollsBack options.super_journal (F.bytes files.old.journal) result }
    ensures no_commit { (m : ℕ) → options.front ≡ Some (suc m) → in_use ≢ LogInUse.Wal
        → result ≡ Err Refusal.NoSuchCommit }
    ensures wal { in_use ≡ LogInUse.Wal → options.front ≢ Some 0 → F.gives_bytes files.old.db
        → F.gives_bytes files.old.wal
        → PlansFold (limits_named options.large) options.front (F.bytes files.old.db) (F.bytes files.old.wal) result }
    ensures kept { AreKept F.bytes F.gives_bytes files.old files.new }
{
    match (in_use, options.front) {
        (_, Some(0)) | (LogInUse::Neither, None) => Ok(Recovery::Nothing),
        (LogInUse::Wal, _) => plan_fold(alloc, options, files),
        (_, Some(_)) => Err(Refusal::NoSuchCommit),
        (LogInUse::Journal(_), None) => plan_roll_back(options, &mut files.journal),
    }
}

/// What it does of a hot journal: one of a transaction over several files is replayed only if it is known to count.
fn plan_roll_back<F: FileBytes>(options: Options, journal: &mut F) -> Result<Recovery, Refusal>
    ensures plan { F.gives_bytes journal.old → RollsBack options.super_journal (F.bytes journal.old) result }
    ensures same { KeepsBytes F.bytes F.gives_bytes journal.old journal.new }
{
    if names_super_journal(journal)? && !may_be_there(options.super_journal) {
        return Err(Refusal::SuperJournal);
    }
    Ok(Recovery::RollBack)
}

/// What it does of a write-ahead log that isn't empty.
fn plan_fold<F: FileBytes>(
    alloc: Global,
    options: Options,
    files: &mut Contents<F>,
) -> Result<Recovery, Refusal>
    ensures plan { F.gives_bytes files.old.db → F.gives_bytes files.old.wal
        → PlansFold (limits_named options.large) options.front (F.bytes files.old.db) (F.bytes files.old.wal) result }
    ensures kept { AreKept F.bytes F.gives_bytes files.old files.new }
{
    let limits = limits_of(options);
    match (log_page_size(&mut files.wal)?, options.front) {
        (None, None) => Ok(Recovery::Empty),
        (None, Some(_)) => Err(Refusal::NoSuchCommit),
        (Some(page_size), at) => {
            let scan = scan_to(alloc, limits, &mut files.wal, at)?;
            let differs = has_other_size(&mut files.db, page_size)?;
            by_sizes(alloc, limits, &mut files.wal, (page_size, scan), differs)
        }
    }
}

/// The scan of a log of which the index names this front. Refused by `NoSuchCommit` where it has no commit there.
fn scan_to<F: FileBytes>(
    alloc: Global,
    limits: Limits,
    wal: &mut F,
    at: Option<u32>,
) -> Result<Option<Scan>, Refusal>
    ensures scan { F.gives_bytes wal.old → ScansTo limits at (F.bytes wal.old) result }
    ensures same { KeepsBytes F.bytes F.gives_bytes wal.old wal.new }
{
    let Some(frame) = at else {
        return Ok(None);
    };
    let Some(scan) = scan_of(alloc, limits, wal)? else {
        return Err(Refusal::NoSuchCommit);
    };
    if !is_commit(&scan, frame) {
        return Err(Refusal::NoSuchCommit);
    }
    Ok(Some(scan))
}

/// What it does of a log with a valid header, by whether the database file names another page size: refused then where
/// a frame of the log counts.
fn by_sizes<F: FileBytes>(
    alloc: Global,
    limits: Limits,
    wal: &mut F,
    log: (PageSize, Option<Scan>),
    differs: bool,
) -> Result<Recovery, Refusal>
    ensures plan { F.gives_bytes wal.old → IfSome log.1 (TookWithin limits.frames (F.bytes wal.old))
        → FoldsBySize limits (F.bytes wal.old) log.0 log.1 differs result }
    ensures same { KeepsBytes F.bytes F.gives_bytes wal.old wal.new }
{
    let (page_size, scan) = log;
    if !differs {
        return Ok(Recovery::Fold(page_size, scan));
    }
    match scan {
        Some(scan) => by_front(page_size, scan),
        None => match scan_of(alloc, limits, wal)? {
            Some(scan) => by_front(page_size, scan),
            None => Ok(Recovery::Fold(page_size, None)),
        },
    }
}

/// What it does of a scanned log where the database file names another page size.
fn by_front(page_size: PageSize, scan: Scan) -> Result<Recovery, Refusal>
    ensures { (most : ℕ) (wal : List ℕ) → TookWithin most wal scan → FoldsByFront wal page_size scan result }
{
    if scan.committed().frames != 0 {
        return Err(Refusal::PageSizesDiffer);
    }
    Ok(Recovery::Fold(page_size, Some(scan)))
}

/// The scan of a log; none where its header isn't valid.
pub(crate) fn scan_of<F: FileBytes>(
    alloc: Global,
    limits: Limits,
    wal: &mut F,
) -> Result<Option<Scan>, Refusal>
    ensures found { F.gives_bytes wal.old
        → IfOk result (λ scan. IfSome scan (TookWithin limits.frames (F.bytes wal.old))) }
    ensures scan { F.gives_bytes wal.old → ScansLog limits (F.bytes wal.old) result }
    ensures same { KeepsBytes F.bytes F.gives_bytes wal.old wal.new }
{
    match scanned(alloc, limits, wal)? {
        Ok(scan) => Ok(Some(scan)),
        Err(_) => Ok(None),
    }
}

/// Whether a frame of a scan, from 1, ends a commit. None behind the front does.
fn is_commit(scan: &Scan, frame: u32) -> bool
    ensures { (most : ℕ) (wal : List ℕ) → TookWithin most wal scan.now → IsTrue result ↔ IsCommitOf wal frame }
{
    match scan.entry(frame as usize) {
        Some(entry) => entry.size != 0,
        None => false,
    }
}

/// That a database file names no page size other than its log, of which this commit is asked for. Refused by
/// `PageSizesDiffer`, and by `UnknownLogVersion`.
pub(crate) fn judge_sizes<D: FileBytes, W: FileBytes>(
    db: &mut D,
    wal: &mut W,
    at: Option<u32>,
) -> Result<(), Refusal>
    ensures { D.gives_bytes db.old → W.gives_bytes wal.old → MatchResult result
        (λ _. AreAlike at (D.bytes db.old) (W.bytes wal.old)) (AreUnlike (D.bytes db.old) (W.bytes wal.old)) }
{
    if at.unwrap_or(0) == 0 {
        return Ok(());
    }
    let Some(size) = log_page_size(wal)? else {
        return Ok(());
    };
    match has_other_size(db, size)? {
        true => Err(Refusal::PageSizesDiffer),
        false => Ok(()),
    }
}

/// The page size that a log's header names; none where it isn't valid.
fn log_page_size<F: FileBytes>(log: &mut F) -> Result<Option<PageSize>, Refusal>
    ensures size { F.gives_bytes log.old → NamesSize (F.bytes log.old) result }
    ensures same { KeepsBytes F.bytes F.gives_bytes log.old log.new }
{
    if log.len() < 32 {
        return Ok(None);
    }
    let mut head = [0u8; 32];
    log.read_at(0, &mut head)?;
    match WalHeader::read(&head) {
        Ok(header) => Ok(Some(header.page_size)),
        Err(error) => match error {
            WalFormatError::UnknownVersion => Err(Refusal::UnknownLogVersion),
            _ => Ok(None),
        },
    }
}

/// Whether a database file's header names a page size other than this one.
fn has_other_size<F: FileBytes>(db: &mut F, page_size: PageSize) -> Result<bool, SourceError>
    ensures answer { F.gives_bytes db.old
        → IsOkAnd result (λ differs. IsTrue differs ↔ HasOtherSize (F.bytes db.old) page_size) }
    ensures same { KeepsBytes F.bytes F.gives_bytes db.old db.new }
{
    if db.len() < 18 {
        return Ok(false);
    }
    let mut head = [0u8; 100];
    db.read_at(0, &mut head)?;
    Ok(has_magic(&head) && named_page_size(&head).is_some_and(|own| own != page_size))
}
