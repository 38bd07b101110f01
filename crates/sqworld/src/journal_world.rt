//! Whole runs over a rollback journal (own).
ghost use Rattle.std.specs.Prelude.{◌≡◌, ℕ, false, IfOk, take};
ghost use Rattle.rollcore.specs.Machine.{Step};
ghost use Rattle.rollcore.specs.Premises.{Holds};
ghost use Rattle.sqval.specs.Runs.{IsRun};
ghost use Rattle.sqworld.specs.WorldKinds.{moments_of, start_of, IsComplete};
ghost use Rattle.sqworld.specs.JournalWorlds.{journal_kind};
ghost use Rattle.sqworld.specs.Worlds.{HasLife};

use crate::base::Base;
use crate::journal_engine::JournalEngine;
use crate::journal_event::JEvent;
use crate::reply::Run;
use crate::world::{NoMemory, WorldOf, run_events};
use std::alloc::Global;

/// A world over a rollback journal.
pub type JournalWorld = WorldOf<JournalEngine>;

/// Answers the events one after another, with an engine over a rollback journal on a modelled disk of the base.
/// NoMemory alone, where a vector of the run's own finds none. Up to the first crash at which a disk that tears puts
/// the header of a journal together, the replies are a run of the machine; on a disk that doesn't tear, all of them
/// are.
pub fn run_journal(alloc: Global, base: &Base, events: &[JEvent]) -> Result<Run, NoMemory>
    ensures complete { IfOk result (λ run. IsComplete journal_kind base.now.tears events.now run) }
    ensures life { IfOk result (λ run. HasLife journal_kind base.now events.now run) }
    ensures runs { IfOk result (λ run. (n : ℕ) → Holds (take n (moments_of journal_kind events.now run))
        → IsRun Step (start_of journal_kind base.now) (take n (moments_of journal_kind events.now run))) }
    ensures untorn { base.now.tears ≡ false → IfOk result (λ run. IsRun Step (start_of journal_kind base.now)
        (moments_of journal_kind events.now run)) }
{
    run_events::<JournalEngine>(alloc, base, events)
}
