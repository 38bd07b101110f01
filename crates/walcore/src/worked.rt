//! Worked runs of the machine, and what is none (own).
ghost use Rattle.walcore.specs.Rows.{Synced, Lost, LostForGood, Stopped, SyncFailed, Forgotten};
ghost use Rattle.walcore.specs.Rows.{Waits, TwoReaders, CommitsRefused};
ghost use Rattle.walcore.specs.Rows.{NoLostSync, NoSkipped, NoReturn, NoOtherPage, NoEarlyComplete};

/// What crashes, and calls that the disk refuses, leave: what was synced is shown; what wasn't may be lost, and is then
/// lost for good; a restart that was stopped loses nothing; after a failed sync the machine is closed; and a crash
/// forgets the readers.
pub fn crashes_lose_what_is_not_durable()
    ensures synced { Synced }
    ensures lost { Lost }
    ensures lost_for_good { LostForGood }
    ensures stopped { Stopped }
    ensures sync_failed { SyncFailed }
    ensures forgotten { Forgotten }
{}

/// A checkpoint and a restart wait for readers, each reader has the database at which it began, and a refused commit
/// changes nothing.
pub fn readers_are_waited_for()
    ensures waits { Waits }
    ensures two_readers { TwoReaders }
    ensures commits_refused { CommitsRefused }
{}

/// No runs: a synced commit is lost; a commit is shown without the one before it; a lost one comes back; a reader is
/// given a later page; a checkpoint is complete with a reader behind.
pub fn no_runs()
    ensures lost_sync { NoLostSync }
    ensures skipped { NoSkipped }
    ensures returned { NoReturn }
    ensures other_page { NoOtherPage }
    ensures early_complete { NoEarlyComplete }
{}
