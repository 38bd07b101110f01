//! What is wrong with a database, whatever was committed (own).
ghost use Rattle.std.specs.Prelude.{◌≡◌, ℕ, List, IfOk, IfErr, MatchOption};
ghost use Rattle.sqpage.specs.Source.{KeepsPages};
ghost use Rattle.sqview.specs.LogView.{ViewRefused};
ghost use Rattle.rig_judge.specs.declared.error.SnapshotError.TheVariants.{NoMemory};
ghost use Rattle.rig_judge.specs.Sound.{IsSound, IsFaulty, ShowsSound, ShowsFault};

use crate::error::SnapshotError;
use sqcheck::check;
use sqpage::{CheckError, Fault, PageSource};
use sqview::{View, ViewError};
use std::alloc::Global;

/// What is wrong with the database of a source. None where it is well formed, or has pointer maps.
pub(crate) fn fault_of<S: PageSource>(
    alloc: Global,
    source: &mut S,
) -> Result<Option<CheckError>, SnapshotError>
    ensures fault { S.reads_right source.old → IfOk result (λ fault. MatchOption fault
        (IsSound (S.pages source.old) (S.size source.old)) (IsFaulty (S.pages source.old) (S.size source.old))) }
    ensures memory { S.gives_pages source.old → IfErr result (λ e. e ≡ NoMemory) }
{
    match check(alloc, source) {
        Ok(_) => Ok(None),
        Err(error) => match error.fault {
            Fault::NoMemory => Err(SnapshotError::NoMemory),
            Fault::Source => Err(SnapshotError::Unread),
            Fault::AutoVacuum => Ok(None),
            _ => Ok(Some(error)),
        },
    }
}

/// Why files show no database that could be at fault.
fn unseen(refusal: ViewError) -> Result<Option<CheckError>, SnapshotError>
    ensures fault { (db wal journal : List ℕ) → ViewRefused db wal journal refusal
        → IfOk result (λ fault. MatchOption fault (ShowsSound db wal journal) (ShowsFault db wal journal)) }
    ensures memory { (db wal journal : List ℕ) → ViewRefused db wal journal refusal → IfErr result (λ e. e ≡ NoMemory) }
{
    match refusal {
        ViewError::NoMemory => Err(SnapshotError::NoMemory),
        ViewError::Unread => Err(SnapshotError::Unread),
        ViewError::Header(_) | ViewError::TwoLogs | ViewError::TooLarge | ViewError::NoSuchCommit =>
            Ok(None),
    }
}

/// What is wrong with the database that files show. None where it is well formed, or has pointer maps, and where they
/// show none. A missing file has no bytes. Refused by NoMemory alone.
pub fn fault_in_files(
    alloc: Global,
    db: &[u8],
    wal: &[u8],
    journal: &[u8],
) -> Result<Option<CheckError>, SnapshotError>
    ensures fault { IfOk result (λ fault. MatchOption fault (ShowsSound db.now wal.now journal.now)
        (ShowsFault db.now wal.now journal.now)) }
    ensures memory { IfErr result (λ e. e ≡ NoMemory) }
{
    match View::new(alloc, db, wal, journal) {
        Ok(mut view) => fault_of(alloc, &mut view),
        Err(refusal) => unseen(refusal),
    }
}
