//! Whole runs.
ghost use Rattle.std.specs.Prelude.{◌≡◌, ◌+◌, ◌<◌, ◌≤◌, ◌^◌, ℕ, [], IfOk, OnOk, IsSome, IfSome, Some, take};
ghost use Rattle.walcore.specs.Machine.{Step};
ghost use Rattle.walcore.specs.Making.{Holds, nothing};
ghost use Rattle.sqval.specs.Runs.{IsRun};
ghost use Rattle.sqworld.specs.WorldKinds.{disk_of, moments_of, start_of, IsComplete};
ghost use Rattle.sqworld.specs.WalWorlds.{wal_kind};
ghost use Rattle.sqworld.specs.Worlds.{EndsWith, BeginsOn, HasLife, IsRunOf};
ghost use Rattle.sqworld.specs.internal.Worlds.{IsNoted, Goes};

use crate::base::Base;
use crate::engine::{Engine, Given};
use crate::event::Event;
use crate::reply::{Reply, Run};
use crate::wal_engine::WalEngine;
use crashdisk::ModelDisk;
use sqval::PageSize;
use std::alloc::{AllocError, Global};

/// No memory for what a run answers (own).
#[derive(Clone, Copy, Debug, PartialEq, Eq)]
pub struct NoMemory;

/// A disk with the database of the base and an empty log.
pub(crate) fn base_disk(alloc: Global, base: &Base) -> Result<ModelDisk, AllocError>
    ensures { IfOk result (λ disk. BeginsOn base.now disk) }
{
    let bytes = base.bytes(alloc)?;
    let made = if base.tears() {
        ModelDisk::tearing(alloc, base.sector(), bytes)
    } else {
        ModelDisk::new(alloc, base.sector(), bytes)
    };
    match made {
        Ok(disk) => Ok(disk),
        Err(_) => Err(AllocError),
    }
}

impl Run {
    /// Takes one answer more, and gives the reply of it.
    pub(crate) fn tell(
        &mut self,
        alloc: Global,
        given: Given,
        refused: u64,
    ) -> Result<Reply, AllocError>
        ensures noted { OnOk result (IsNoted given refused self.old self.new) }
        ensures ends { IfOk result (λ reply. EndsWith reply self.old self.new) }
    {
        let reply = given.reply.copy(alloc)?;
        self.note(given, refused)?;
        Ok(reply)
    }

    /// Takes one answer more, with how many calls the disk had refused when the event ended.
    pub(crate) fn note(&mut self, given: Given, refused: u64) -> Result<(), AllocError>
        ensures { OnOk result (IsNoted given refused self.old self.new) }
    {
        let Given {
            reply,
            found,
            crashed,
        } = given;
        self.replies.push(reply)?;
        self.refused.push(refused)?;
        if let Some(found) = found {
            self.found.push(found)?;
        }
        if let Some(crashed) = crashed {
            self.crashed.push(crashed)?;
        }
        Ok(())
    }
}

/// Answers an event, notes it, and gives its reply.
fn go<E: Engine>(
    alloc: Global,
    engine: E,
    page_size: PageSize,
    tears: bool,
    event: &E::Event,
    run: &mut Run,
) -> (E, Result<Reply, AllocError>)
    requires { E.begun_of engine < 2 ^ 63 }
    ensures goes { OnOk result.1 (Goes E.kind page_size tears event.now engine run.old result.0 run.new) }
    ensures ends { IfOk result.1 (λ reply. EndsWith reply run.old run.new) }
    ensures begun { E.begun_of result.0 ≤ E.begun_of engine + 1 }
{
    let (served, given) = engine.serve(alloc, page_size, tears, event);
    let mut engine = served;
    match given {
        Ok(given) => {
            let refused = engine.refused();
            let told = run.tell(alloc, given, refused);
            (engine, told)
        }
        Err(error) => (engine, Err(error)),
    }
}

/// The most events of a run.
const MOST_EVENTS: usize = 4611686018427387904;

/// A run that goes on event by event: an engine on a modelled disk, and what was answered so far (own). It is ended by
/// `finish`.
pub struct WorldOf<E: Engine> {
    page_size: PageSize,
    tears: bool,
    engine: Option<E>,
    run: Run,
    served: usize,
    failed: bool,
    ghost there: { IsSome engine },
    ghost begun: { (e : E) → engine ≡ Some e → E.begun_of e ≤ served },
    ghost few: { served ≤ 2 ^ 62 },
}

/// One over a write-ahead log.
pub type World = WorldOf<WalEngine>;

impl<E: Engine> WorldOf<E> {
    ghost use Rattle.crashdisk.specs.Model.{state_of};
    ghost use Rattle.sqworld.specs.Stepping.{HasServed, IsRunOfServed, IsUnchanged, ServesNext, StaysServed};

    /// A closed engine on a modelled disk of the base, before the first event; NoMemory alone.
    pub fn new(alloc: Global, base: &Base) -> Result<WorldOf<E>, NoMemory>
        ensures { IfOk result (λ world. HasServed E.kind base.now [] world) }
    {
        let Ok(disk) = base_disk(alloc, base) else {
            return Err(NoMemory);
        };
        Ok(WorldOf {
            page_size: base.page_size(),
            tears: base.tears(),
            engine: Some(E::closed(disk)),
            run: Run::new(alloc),
            served: 0,
            failed: false,
        })
    }

    /// Answers one event, notes the answer in the run, and gives the reply, which says what the last of the run's says.
    /// NoMemory where a vector of the run's own or of the reply finds none, and past 4,611,686,018,427,387,904 events;
    /// from then on the world answers nothing else, and is only to be finished.
    pub fn serve(&mut self, alloc: Global, event: &E::Event) -> Result<Reply, NoMemory>
        ensures serves { OnOk result (ServesNext E.kind event.now self.old self.new) }
        ensures reply { IfOk result (λ reply. EndsWith reply self.old.run self.new.run) }
    {
        if self.failed || self.served >= MOST_EVENTS {
            return Err(NoMemory);
        }
        let Some(engine) = self.engine.take() else {
            unreachable!()
        };
        let (engine, told) = go(
            alloc,
            engine,
            self.page_size,
            self.tears,
            event,
            &mut self.run,
        );
        if let Some(engine) = self.engine.replace(engine) {
            let _ = engine.into_disk();
        }
        self.served += 1;
        self.failed = told.is_err();
        match told {
            Ok(reply) => Ok(reply),
            Err(_) => Err(NoMemory),
        }
    }

    /// What was answered so far.
    pub fn run(&self) -> &Run
        ensures run { result.now ≡ self.now.run }
        ensures served { IsRunOfServed E.kind self.now result.now }
    {
        &self.run
    }

    /// A disk of its own that lists the same as the world's, of which the same is set; NoMemory alone. The world stays
    /// as it is.
    pub fn disk(&mut self) -> Result<ModelDisk, NoMemory>
        ensures same { IsUnchanged self.old self.new }
        ensures run { self.new.run ≡ self.old.run }
        ensures served { StaysServed E.kind self.old self.new }
        ensures listed { IfOk result (λ disk. IfSome self.old.engine
            (λ engine. state_of disk ≡ disk_of E.kind engine)) }
    {
        let copied = match &mut self.engine {
            Some(engine) => engine.copy_disk(),
            None => return Err(NoMemory),
        };
        match copied {
            Ok(disk) => Ok(disk),
            Err(_) => Err(NoMemory),
        }
    }

    /// Ends the world, and gives what was answered.
    pub fn finish(self) -> Run
        ensures run { result ≡ self.run }
        ensures served { IsRunOfServed E.kind self result }
    {
        let WorldOf {
            engine,
            run,
            page_size: _,
            tears: _,
            served: _,
            failed: _,
        } = self;
        if let Some(engine) = engine {
            let _ = engine.into_disk();
        }
        run
    }
}

/// Answers the events one after another, with an engine on a modelled disk of the base. NoMemory alone, where a vector
/// of the run's own finds none.
pub(crate) fn run_events<E: Engine>(
    alloc: Global,
    base: &Base,
    events: &[E::Event],
) -> Result<Run, NoMemory>
    ensures { IfOk result (IsRunOf E.kind base.now events.now) }
{
    let mut world = WorldOf::<E>::new(alloc, base)?;
    for event in events {
        let Ok(_) = world.serve(alloc, event) else {
            let _ = world.finish();
            return Err(NoMemory);
        };
    }
    let run = world.finish();
    Ok(run)
}

/// Answers the events one after another, with an engine on a modelled disk of the base (own). NoMemory alone, where a
/// vector of the run's own finds none. Up to the first event at which a premise fails, the replies are a run of the
/// machine: a header or a frame passes by chance, a pair of salts comes twice, or a disk that tears puts a header or a
/// frame together.
pub fn run_wal(alloc: Global, base: &Base, events: &[Event]) -> Result<Run, NoMemory>
    ensures complete { IfOk result (λ run. IsComplete wal_kind base.now.tears events.now run) }
    ensures life { IfOk result (λ run. HasLife wal_kind base.now events.now run) }
    ensures runs { IfOk result (λ run. (n : ℕ) → Holds base.now.page_size base.now.sector base.now.tears nothing
        (take n (moments_of wal_kind events.now run)) → IsRun Step (start_of wal_kind base.now)
        (take n (moments_of wal_kind events.now run))) }
{
    run_events::<WalEngine>(alloc, base, events)
}
