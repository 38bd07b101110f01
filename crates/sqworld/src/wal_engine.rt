//! The engine of a run over a write-ahead log, or the disk that it is to be opened on (own).
ghost use Rattle.std.specs.Prelude.{◌≡◌, ◌+◌, ◌<◌, ◌≤◌, ◌^◌, ℕ, Bool, false, None, IfOk, OnOk, length};
ghost use Rattle.crashdisk.specs.Model.{state_of};
ghost use Rattle.sqval.specs.Answers.{Files};
ghost use Rattle.walcore.specs.Machine.{Opens};
ghost use Rattle.walcore.specs.Making.{Permits};
ghost use Rattle.walcore.specs.Fits.{Past, FitsAlone};
ghost use Rattle.sqworld.specs.Run.{act_of, answer_of, is_opening, is_crash};
ghost use Rattle.sqworld.specs.Sessions.{ServesTo};
ghost use Rattle.sqworld.specs.internal.Sessions.{SessionServes, begun_by};
ghost use Rattle.sqworld.specs.Engines.{IsSetTo, IsCalm, Rests};
ghost use Rattle.sqworld.specs.Engines.{FitsEngine, model_of, disk_of, EngineServes, Answers};
ghost use Rattle.sqworld.specs.internal.Engines.{begun_of, closed_answer};
ghost use Rattle.recovery.specs.Files.{AreFiles};

use crate::engine::{Engine, Given, alone, crash_disk, crash_disk_at, fail_disk, find};
use crate::event::Event;
use crate::reply::Reply;
use crate::session::Session;
use crashdisk::{Choice, Disk, DiskError, ModelDisk};
use sqval::PageSize;
use std::alloc::{AllocError, Global};
use walcore::{Refused, Wal, WalError};

/// The engine, or no engine and the disk.
pub enum WalEngine {
    /// So many readers have begun, and none is open.
    Closed { disk: ModelDisk, begun: usize },
    Open(Session),
}

/// Sets a stop or a failure.
fn set_disk(alloc: Global, disk: &mut ModelDisk, event: &Event) -> Result<(), AllocError>
    ensures set { OnOk result (IsSetTo event.now disk.old disk.new) }
{
    match event {
        Event::StopAfter(calls) => disk.stop_after(*calls),
        Event::StopAtSync(syncs) => disk.stop_at_sync(*syncs),
        Event::Fail { call, part } => fail_disk(alloc, disk, *call, part)?,
        _ => (),
    }
    Ok(())
}

/// What a disk without an engine answers.
fn refuse(alloc: Global, disk: &mut ModelDisk, event: &Event) -> Result<Reply, AllocError>
    ensures reply { IfOk result (λ reply. answer_of reply ≡ closed_answer event.now) }
    ensures set { OnOk result (IsSetTo event.now disk.old disk.new) }
    ensures calm { OnOk result (IsCalm event.now disk.old disk.new) }
{
    match event {
        Event::Read { .. } | Event::End { .. } => Ok(Reply::NoReader),
        Event::StopAfter(_) | Event::StopAtSync(_) | Event::Fail { .. } => {
            set_disk(alloc, disk, event)?;
            Ok(Reply::Done)
        }
        _ => Ok(Reply::Refused(WalError::Closed.number())),
    }
}

impl Session {
    /// How many calls the disk has refused.
    fn refused(&mut self) -> u64
        ensures value { result ≡ (state_of self.old.wal.disk).refused }
        ensures same { self.new ≡ self.old }
    {
        self.wal.disk().refused()
    }

    /// Sets a stop or a failure of the disk.
    fn set(&mut self, alloc: Global, event: &Event) -> Result<(), AllocError>
        ensures core { self.new.wal.core ≡ self.old.wal.core }
        ensures set { OnOk result (IsSetTo event.now self.old.wal.disk self.new.wal.disk) }
        ensures first { self.new.first ≡ self.old.first }
        ensures slots { self.new.slots ≡ self.old.slots }
    {
        set_disk(alloc, self.wal.disk(), event)
    }

    /// Answers an event that isn't an opening or a crash.
    fn call(
        &mut self,
        alloc: Global,
        page_size: PageSize,
        event: &Event,
    ) -> Result<Reply, AllocError>
        requires { begun_by self.old < 2 ^ 63 }
        ensures serves { IfOk result (λ reply. is_opening event.now ≡ false → is_crash event.now ≡ false →
            SessionServes page_size self.old self.new (act_of event.now None None) (answer_of reply)) }
        ensures set { OnOk result (IsSetTo event.now self.old.wal.disk self.new.wal.disk) }
        ensures begun { begun_by self.new ≤ begun_by self.old + 1 }
    {
        match event {
            Event::Commit { pages, size } => self.commit(alloc, pages, *size),
            Event::Sync => Ok(self.sync()),
            Event::Checkpoint => Ok(self.checkpoint()),
            Event::Restart { salt2 } => Ok(self.restart(*salt2)),
            Event::Begin => self.begin(),
            Event::Read { reader, page } => self.read(alloc, page_size, *reader, *page),
            Event::End { reader } => Ok(self.end(*reader)),
            _ => {
                self.set(alloc, event)?;
                Ok(Reply::Done)
            }
        }
    }
}

/// Opens an engine on a disk.
fn open_disk(
    alloc: Global,
    disk: ModelDisk,
    begun: usize,
    page_size: PageSize,
    salts: (u32, u32),
) -> (WalEngine, Reply)
    ensures opens { (past : Past) (found : Files) → AreFiles (state_of disk) found → past.state.page_size ≡ page_size
        → FitsAlone past (state_of disk) → length past.tokens ≡ begun
        → Permits past.made (Opens salts found) (answer_of result.1) → ServesTo past (Opens salts found)
        (answer_of result.1) (λ next. FitsEngine next result.0) (state_of disk) (disk_of result.0) }
    ensures begun { begun_of result.0 ≡ begun }
{
    match Wal::open(alloc, disk, page_size, salts) {
        Ok(wal) => {
            let session = Session::new(alloc, wal, begun);
            (WalEngine::Open(session), Reply::Done)
        }
        Err(refused) => {
            let Refused { error, disk } = refused;
            let reply = Reply::Refused(error.number());
            (WalEngine::Closed { disk, begun }, reply)
        }
    }
}

impl WalEngine {
    /// Ends all readers and gives the disk back, and how many readers have begun.
    fn close(self) -> (ModelDisk, usize)
        requires { begun_of self < 2 ^ 63 }
        ensures disk { state_of result.0 ≡ disk_of self }
        ensures begun { result.1 ≡ begun_of self }
    {
        match self {
            WalEngine::Closed { disk, begun } => (disk, begun),
            WalEngine::Open(session) => session.close(),
        }
    }

    /// Opens the engine, after one that is there is given up.
    fn open(
        self,
        alloc: Global,
        page_size: PageSize,
        salts: (u32, u32),
    ) -> (WalEngine, Result<Given, AllocError>)
        requires { begun_of self < 2 ^ 63 }
        ensures answers { (tears : Bool) (event : Event) → event ≡ Event.Open salts
            → IfOk result.1 (λ given. Answers page_size tears event self given result.0) }
        ensures begun { begun_of result.0 ≡ begun_of self }
    {
        let (disk, begun) = self.close();
        match find(alloc, &disk) {
            Ok(found) => {
                let (engine, reply) = open_disk(alloc, disk, begun, page_size, salts);
                let given = Given {
                    reply,
                    found: Some(found),
                    crashed: None,
                };
                (engine, Ok(given))
            }
            Err(error) => (WalEngine::Closed { disk, begun }, Err(error)),
        }
    }

    /// Crashes the disk.
    fn crash(
        self,
        alloc: Global,
        tears: bool,
        choice: &Choice,
    ) -> (WalEngine, Result<Given, AllocError>)
        requires { begun_of self < 2 ^ 63 }
        ensures answers { (page_size : ℕ) (event : Event) → event ≡ Event.Crash choice.now
            → IfOk result.1 (λ given. Answers page_size tears event self given result.0) }
        ensures begun { begun_of result.0 ≡ begun_of self }
    {
        let (mut disk, begun) = self.close();
        match crash_disk(alloc, &mut disk, tears, choice) {
            Ok(crashed) => {
                let given = Given {
                    reply: Reply::Done,
                    found: None,
                    crashed,
                };
                (WalEngine::Closed { disk, begun }, Ok(given))
            }
            Err(error) => (WalEngine::Closed { disk, begun }, Err(error)),
        }
    }

    /// Crashes the disk by the number of what is left.
    fn crash_at(
        self,
        alloc: Global,
        tears: bool,
        number: u64,
    ) -> (WalEngine, Result<Given, AllocError>)
        requires { begun_of self < 2 ^ 63 }
        ensures answers { (page_size : ℕ) (event : Event) → event ≡ Event.CrashAt number
            → IfOk result.1 (λ given. Answers page_size tears event self given result.0) }
        ensures begun { begun_of result.0 ≡ begun_of self }
    {
        let (mut disk, begun) = self.close();
        match crash_disk_at(alloc, &mut disk, tears, number) {
            Ok(crashed) => {
                let given = Given {
                    reply: Reply::Done,
                    found: None,
                    crashed,
                };
                (WalEngine::Closed { disk, begun }, Ok(given))
            }
            Err(error) => (WalEngine::Closed { disk, begun }, Err(error)),
        }
    }

    /// Answers an event that isn't an opening or a crash.
    fn call(
        self,
        alloc: Global,
        page_size: PageSize,
        event: &Event,
    ) -> (WalEngine, Result<Reply, AllocError>)
        requires { begun_of self < 2 ^ 63 }
        ensures serves { IfOk result.1 (λ reply. is_opening event.now ≡ false → is_crash event.now ≡ false →
            EngineServes page_size self result.0 (act_of event.now None None) (answer_of reply)) }
        ensures set { OnOk result.1 (IsSetTo event.now (model_of self) (model_of result.0)) }
        ensures rests { OnOk result.1 (Rests event.now self result.0) }
        ensures begun { begun_of result.0 ≤ begun_of self + 1 }
    {
        match self {
            WalEngine::Closed { mut disk, begun } => {
                let reply = refuse(alloc, &mut disk, event);
                (WalEngine::Closed { disk, begun }, reply)
            }
            WalEngine::Open(mut session) => {
                let reply = session.call(alloc, page_size, event);
                (WalEngine::Open(session), reply)
            }
        }
    }
}

impl Engine for WalEngine {
    ghost use Rattle.sqworld.specs.WalWorlds.{wal_kind};
    ghost use Rattle.sqworld.specs.internal.Engines.{begun_of as begun_readers};
    ghost use Rattle.sqworld.specs.internal.WalLaws.{wal_lawful};

    type Event = Event;

    ghost kind = { wal_kind };

    ghost begun_of = { begun_readers };

    fn closed(disk: ModelDisk) -> WalEngine {
        WalEngine::Closed { disk, begun: 0 }
    }

    fn serve(
        self,
        alloc: Global,
        page_size: PageSize,
        tears: bool,
        event: &Event,
    ) -> (WalEngine, Result<Given, AllocError>) {
        match event {
            Event::Open { salts } => self.open(alloc, page_size, *salts),
            Event::Crash(choice) => self.crash(alloc, tears, choice),
            Event::CrashAt(number) => self.crash_at(alloc, tears, *number),
            _ => {
                let (engine, reply) = self.call(alloc, page_size, event);
                (engine, alone(reply))
            }
        }
    }

    fn refused(&mut self) -> u64 {
        match self {
            WalEngine::Closed { disk, .. } => disk.refused(),
            WalEngine::Open(session) => session.refused(),
        }
    }

    fn copy_disk(&mut self) -> Result<ModelDisk, DiskError> {
        match self {
            WalEngine::Closed { disk, .. } => disk.copy(),
            WalEngine::Open(session) => session.wal.disk().copy(),
        }
    }

    fn into_disk(self) -> ModelDisk {
        self.close().0
    }

    ghost lawful = { wal_lawful };
}
