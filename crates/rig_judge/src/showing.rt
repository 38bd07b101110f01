//! Whether files show a committed database (own).
ghost use Rattle.std.specs.Prelude.{◌≡◌, ◌↔◌, ℕ, List, [], IfOk, IfErr, IsTrue};
ghost use Rattle.sqview.specs.LogView.{ViewRefused};
ghost use Rattle.rig_judge.specs.declared.error.SnapshotError.TheVariants.{NoMemory};
ghost use Rattle.rig_judge.specs.Shown.{IsShowing, commit_of};

use crate::error::SnapshotError;
use crate::snapshot::Snapshot;
use sqview::{View, ViewError};
use std::alloc::Global;

/// Whether files that are refused show a commit: where the database file has no bytes, the one of no pages.
fn refused_shows(
    commit: &Snapshot,
    is_empty: bool,
    refusal: ViewError,
) -> Result<bool, SnapshotError>
    ensures shows { (db wal journal : List ℕ) → ViewRefused db wal journal refusal → IsTrue is_empty ↔ (db ≡ [])
        → IfOk result (IsShowing (commit_of commit.now) db wal journal) }
    ensures memory { (db wal journal : List ℕ) → ViewRefused db wal journal refusal → IfErr result (λ e. e ≡ NoMemory) }
{
    match refusal {
        ViewError::NoMemory => Err(SnapshotError::NoMemory),
        ViewError::Unread => Err(SnapshotError::Unread),
        ViewError::Header(_) if is_empty => Ok(commit.is_empty()),
        ViewError::Header(_) | ViewError::TwoLogs | ViewError::TooLarge | ViewError::NoSuchCommit =>
            Ok(false),
    }
}

/// Whether files show a commit. A missing file has no bytes. Refused by NoMemory alone.
pub fn files_show(
    alloc: Global,
    commit: &Snapshot,
    db: &[u8],
    wal: &[u8],
    journal: &[u8],
) -> Result<bool, SnapshotError>
    ensures shows { IfOk result (IsShowing (commit_of commit.now) db.now wal.now journal.now) }
    ensures memory { IfErr result (λ e. e ≡ NoMemory) }
{
    match View::new(alloc, db, wal, journal) {
        Ok(mut view) => commit.is_shown(alloc, &mut view),
        Err(refusal) => refused_shows(commit, db.is_empty(), refusal),
    }
}
