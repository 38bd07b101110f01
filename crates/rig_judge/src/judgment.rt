//! What is wrong with the files that a crash left (own).
ghost use Rattle.std.specs.Prelude.{◌≡◌, ◌↔◌, ℕ, List, [], IfOk, IfErr, IsTrue};
ghost use Rattle.sqwal.specs.Took.{Took};
ghost use Rattle.sqview.specs.LogView.{ViewRefused};
ghost use Rattle.sqview.specs.declared.view_error.ViewError.TheVariants.{Header};
ghost use Rattle.rig_judge.specs.declared.error.SnapshotError.TheVariants.{NoMemory};
ghost use Rattle.rig_judge.specs.Shown.{Commit, IsLastShown, commits_of};
ghost use Rattle.rig_judge.specs.Judged.{IsJudged, IsViewJudgment, IsRolledJudgment, IsFilesJudgment};
ghost use Rattle.rig_judge.specs.internal.Judged.{IsPlaced};

use crate::error::SnapshotError;
use crate::history::History;
use crate::rolled::{are_two_logs, rolled_back};
use crate::sound::fault_of;
use sqpage::{CheckError, Fault, PageSource};
use sqview::{View, ViewError};
use sqwal::Scan;
use std::alloc::Global;

/// What files show that a crash left.
#[derive(Clone, Copy, Debug, PartialEq, Eq)]
pub enum Judgment {
    /// The database of this commit, which is the known one or a later one.
    Kept(usize),
    /// The database of this commit, which is before the known one.
    Lost(usize),
    /// A database of no commit, which is well formed or has pointer maps.
    Mixed,
    /// A database of no commit, which isn't well formed.
    Fault(CheckError),
    /// None.
    Refused(ViewError),
}

/// The judgment of the last commit that is shown.
fn placed(shown: usize, known: usize) -> Judgment
    ensures { IsPlaced shown known result }
{
    if shown < known {
        Judgment::Lost(shown)
    } else {
        Judgment::Kept(shown)
    }
}

/// The judgment of a database of no commit.
fn unshown<S: PageSource>(alloc: Global, source: &mut S) -> Result<Judgment, SnapshotError>
    ensures judged { S.reads_right source.old → IfOk result (λ j. (commits : List Commit) (known : ℕ)
        → IsLastShown commits (S.pages source.old) None
        → IsJudged commits known (S.pages source.old) (S.size source.old) j) }
    ensures memory { S.gives_pages source.old → IfErr result (λ e. e ≡ NoMemory) }
{
    match fault_of(alloc, source)? {
        Some(error) => Ok(Judgment::Fault(error)),
        None => Ok(Judgment::Mixed),
    }
}

/// The judgment of a database, where a commit is known to be durable. Refused by Unread, where a page can't be read,
/// and NoMemory.
pub fn judge_source<S: PageSource>(
    alloc: Global,
    history: &History,
    known: usize,
    source: &mut S,
) -> Result<Judgment, SnapshotError>
    ensures judged { S.reads_right source.old
        → IfOk result (IsJudged (commits_of history.now) known (S.pages source.old) (S.size source.old)) }
    ensures memory { S.gives_pages source.old → IfErr result (λ e. e ≡ NoMemory) }
{
    match history.shown(alloc, source)? {
        Some(shown) => Ok(placed(shown, known)),
        None => unshown(alloc, source),
    }
}

/// The judgment of files that show no database by their header, which has this fault. A file without bytes shows the
/// database of no pages.
fn headless(history: &History, known: usize, is_empty: bool, fault: Fault) -> Judgment
    ensures { (db wal journal : List ℕ) → ViewRefused db wal journal (Header fault) → IsTrue is_empty ↔ (db ≡ [])
        → IsViewJudgment (commits_of history.now) known db wal journal result }
{
    if !is_empty {
        return Judgment::Refused(ViewError::Header(fault));
    }
    match history.shown_by_nothing() {
        Some(shown) => placed(shown, known),
        None => Judgment::Refused(ViewError::Header(fault)),
    }
}

/// The judgment of files that are refused.
fn refused(
    history: &History,
    known: usize,
    is_empty: bool,
    refusal: ViewError,
) -> Result<Judgment, SnapshotError>
    ensures judged { (db wal journal : List ℕ) → ViewRefused db wal journal refusal → IsTrue is_empty ↔ (db ≡ [])
        → IfOk result (IsViewJudgment (commits_of history.now) known db wal journal) }
    ensures memory { (db wal journal : List ℕ) → ViewRefused db wal journal refusal
        → IfErr result (λ e. e ≡ NoMemory) }
{
    match refusal {
        ViewError::NoMemory => Err(SnapshotError::NoMemory),
        ViewError::Unread => Err(SnapshotError::Unread),
        ViewError::Header(fault) => Ok(headless(history, known, is_empty, fault)),
        ViewError::TwoLogs => Ok(Judgment::Refused(ViewError::TwoLogs)),
        ViewError::TooLarge => Ok(Judgment::Refused(ViewError::TooLarge)),
        ViewError::NoSuchCommit => Ok(Judgment::Refused(ViewError::NoSuchCommit)),
    }
}

/// The judgment of files of which one log counts, or none.
fn judge_view(
    alloc: Global,
    history: &History,
    known: usize,
    db: &[u8],
    wal: &[u8],
    journal: &[u8],
) -> Result<Judgment, SnapshotError>
    ensures judged { IfOk result (IsViewJudgment (commits_of history.now) known db.now wal.now journal.now) }
    ensures memory { IfErr result (λ e. e ≡ NoMemory) }
{
    match View::new(alloc, db, wal, journal) {
        Ok(mut view) => judge_source(alloc, history, known, &mut view),
        Err(refusal) => refused(history, known, db.is_empty(), refusal),
    }
}

/// The judgment of files beside two logs, as SQLite opens them: it rolls the journal back, and then the write-ahead log
/// counts.
fn judge_rolled_back(
    alloc: Global,
    history: &History,
    known: usize,
    db: &[u8],
    wal: &[u8],
    journal: &[u8],
) -> Result<Judgment, SnapshotError>
    ensures judged { IfOk result (IsRolledJudgment (commits_of history.now) known db.now wal.now journal.now) }
    ensures memory { IfErr result (λ e. e ≡ NoMemory) }
{
    match rolled_back(alloc, db, journal)? {
        Ok(file) => judge_view(alloc, history, known, &file, wal, &[]),
        Err(refusal) => Ok(Judgment::Refused(refusal)),
    }
}

/// The judgment of files that a crash left, where a commit is known to be durable. A missing file has no bytes, and a
/// database file without bytes shows the database of no pages where no log counts. A hot journal beside a log is rolled
/// back first, as SQLite does it, for which a copy of the database is held. Refused by NoMemory alone.
pub fn judge_files(
    alloc: Global,
    history: &History,
    known: usize,
    db: &[u8],
    wal: &[u8],
    journal: &[u8],
) -> Result<Judgment, SnapshotError>
    ensures judged { IfOk result (IsFilesJudgment (commits_of history.now) known db.now wal.now journal.now) }
    ensures memory { IfErr result (λ e. e ≡ NoMemory) }
{
    if are_two_logs(wal, journal) {
        return judge_rolled_back(alloc, history, known, db, wal, journal);
    }
    judge_view(alloc, history, known, db, wal, journal)
}

/// The judgment of files of which one log counts, or none, where this is the write-ahead log's scan.
fn judge_view_scanned(
    history: &History,
    known: usize,
    db: &[u8],
    wal: &[u8],
    journal: &[u8],
    scan: &Scan,
) -> Result<Judgment, SnapshotError>
    ensures judged { Took wal.now scan.now
        → IfOk result (IsViewJudgment (commits_of history.now) known db.now wal.now journal.now) }
    ensures memory { Took wal.now scan.now → IfErr result (λ e. e ≡ NoMemory) }
{
    let alloc = history.alloc();
    match View::new_scanned(alloc, db, wal, journal, scan) {
        Ok(mut view) => judge_source(alloc, history, known, &mut view),
        Err(refusal) => refused(history, known, db.is_empty(), refusal),
    }
}

/// The same as `judge_files` of a write-ahead log of which this is the scan, so that it need not be scanned again.
/// Memory is taken where the history has its own (own).
pub fn judge_scanned(
    history: &History,
    known: usize,
    db: &[u8],
    wal: &[u8],
    journal: &[u8],
    scan: &Scan,
) -> Result<Judgment, SnapshotError>
    ensures judged { Took wal.now scan.now
        → IfOk result (IsFilesJudgment (commits_of history.now) known db.now wal.now journal.now) }
    ensures memory { Took wal.now scan.now → IfErr result (λ e. e ≡ NoMemory) }
{
    if are_two_logs(wal, journal) {
        return judge_rolled_back(history.alloc(), history, known, db, wal, journal);
    }
    judge_view_scanned(history, known, db, wal, journal, scan)
}
