//! Files beside two logs, as SQLite opens them (own).
ghost use Rattle.std.specs.Prelude.{◌≡◌, IfOk, IfErr, MatchBool, MatchResult};
ghost use Rattle.std.specs.List.{concat};
ghost use Rattle.sqjournal.specs.Journal.{IsHot};
ghost use Rattle.sqview.specs.LogView.{pages_of};
ghost use Rattle.sqview.specs.Logs.{AreTwoLogs};
ghost use Rattle.rig_judge.specs.declared.error.SnapshotError.TheVariants.{NoMemory};
ghost use Rattle.rig_judge.specs.Judged.{LeavesRolled};
ghost use Rattle.rig_judge.specs.internal.Judged.{IsRollRefused};

use crate::error::SnapshotError;
use sqview::{FileBytes, View, ViewError, copy, hot_header};
use std::alloc::Global;

/// Whether a journal is hot.
fn is_hot(journal: &[u8]) -> bool
    ensures { MatchBool result (IsHot journal.now) (¬ IsHot journal.now) }
{
    let mut journal = journal;
    match hot_header(&mut journal) {
        Ok(Some(_)) => true,
        Ok(None) | Err(_) => false,
    }
}

/// Whether a hot journal lies beside a write-ahead log that isn't empty.
pub(crate) fn are_two_logs(wal: &[u8], journal: &[u8]) -> bool
    ensures { MatchBool result (AreTwoLogs wal.now journal.now) (¬ AreTwoLogs wal.now journal.now) }
{
    !wal.is_empty() && is_hot(journal)
}

/// The pages of a view, one behind the other.
fn copied<F: FileBytes>(alloc: Global, view: &mut View<F>) -> Result<Vec<u8>, SnapshotError>
    ensures pages { F.reads_right view.old.db × F.reads_right view.old.log
        → IfOk result (λ file. file.items ≡ concat (pages_of F.bytes view.old)) }
    ensures memory { IfErr result (λ e. e ≡ NoMemory) }
{
    let mut file = Vec::new(alloc);
    match copy(alloc, view, &mut file) {
        Ok(()) => Ok(file),
        Err(_) => Err(SnapshotError::NoMemory),
    }
}

/// The file that is left where a hot journal is rolled back, or what refuses that.
pub(crate) fn rolled_back(
    alloc: Global,
    db: &[u8],
    journal: &[u8],
) -> Result<Result<Vec<u8>, ViewError>, SnapshotError>
    ensures file { IfOk result (λ r. MatchResult r (λ file. LeavesRolled db.now journal.now file.items)
        (IsRollRefused db.now journal.now)) }
    ensures memory { IfErr result (λ e. e ≡ NoMemory) }
{
    let none: &[u8] = &[];
    match View::new(alloc, db, none, journal) {
        Ok(mut view) => Ok(Ok(copied(alloc, &mut view)?)),
        Err(ViewError::NoMemory) => Err(SnapshotError::NoMemory),
        Err(refusal) => Ok(Err(refusal)),
    }
}
