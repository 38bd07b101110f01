//! The engine of a run over a rollback journal, or the disk that it is to be opened on (own).
ghost use Rattle.std.specs.Prelude.{◌≡◌, ℕ, Bool, false, None, IfOk, OnOk};
ghost use Rattle.crashdisk.specs.Model.{state_of};
ghost use Rattle.sqval.specs.Answers.{Files, Done, Page};
ghost use Rattle.rollcore.specs.Machine.{State, Opens, Commits, Reads};
ghost use Rattle.rollcore.specs.Fits.{FitsDisk};
ghost use Rattle.sqworld.specs.Run.{answer_of, numbered};
ghost use Rattle.sqworld.specs.JournalRun.{act_of, is_opening, is_crash};
ghost use Rattle.sqworld.specs.JournalEngines.{IsSetTo, IsCalm, Rests, ServesTo, FitsEngine};
ghost use Rattle.sqworld.specs.internal.JournalEngines.{RollServes, closed_answer};
ghost use Rattle.sqworld.specs.JournalEngines.{model_of, disk_of, EngineServes, Answers};
ghost use Rattle.recovery.specs.Files.{AreFiles};
ghost use Rattle.recovery.specs.Moments.{answered};
ghost use Rattle.rollcore.specs.Refusal.{number_of};

use crate::engine::{Engine, Given, alone, crash_disk, crash_disk_at, fail_disk, find};
use crate::journal_event::JEvent;
use crate::reply::Reply;
use crate::session::{lend, zeros};
use crashdisk::{Choice, Disk, DiskError, ModelDisk};
use rollcore::{Refused, Roll, RollError};
use sqval::PageSize;
use std::alloc::{AllocError, Global};

/// The engine, or no engine and the disk.
pub enum JournalEngine {
    Closed(ModelDisk),
    Open(Roll<ModelDisk>),
}

/// What a commit answers.
fn outcome(answer: Result<(), RollError>) -> Reply
    ensures { answer_of result ≡ answered number_of (λ _. Done) answer }
{
    match answer {
        Ok(()) => Reply::Done,
        Err(error) => Reply::Refused(error.number()),
    }
}

/// What a read of these bytes answers.
fn page_outcome(answer: Result<(), RollError>, bytes: Vec<u8>) -> Reply
    ensures { answer_of result ≡ answered number_of (λ _. Page bytes.items) answer }
{
    match answer {
        Ok(()) => Reply::Page(bytes),
        Err(error) => Reply::Refused(error.number()),
    }
}

/// Commits pages.
fn commit(
    alloc: Global,
    roll: &mut Roll<ModelDisk>,
    pages: &[(u32, Vec<u8>)],
    size: u32,
    nonces: &[u32],
) -> Result<Reply, AllocError>
    ensures { (page_size : ℕ) → IfOk result (λ reply. RollServes page_size roll.old roll.new
        (Commits (numbered pages.now) size nonces.now) (answer_of reply)) }
{
    let all = lend(alloc, pages)?;
    Ok(outcome(roll.commit(&all, size, nonces)))
}

/// Reads a page.
fn read(
    alloc: Global,
    roll: &mut Roll<ModelDisk>,
    page_size: PageSize,
    page: u32,
) -> Result<Reply, AllocError>
    ensures { IfOk result (λ reply. RollServes page_size roll.old roll.new (Reads page) (answer_of reply)) }
{
    let mut out = zeros(alloc, page_size.get() as usize)?;
    let answer = roll.read(page, &mut out);
    Ok(page_outcome(answer, out))
}

/// Sets a stop or a failure.
fn set_disk(alloc: Global, disk: &mut ModelDisk, event: &JEvent) -> Result<(), AllocError>
    ensures set { OnOk result (IsSetTo event.now disk.old disk.new) }
{
    match event {
        JEvent::StopAfter(calls) => disk.stop_after(*calls),
        JEvent::StopAtSync(syncs) => disk.stop_at_sync(*syncs),
        JEvent::Fail { call, part } => fail_disk(alloc, disk, *call, part)?,
        _ => (),
    }
    Ok(())
}

/// Sets a stop or a failure of an engine's disk.
fn set(alloc: Global, roll: &mut Roll<ModelDisk>, event: &JEvent) -> Result<(), AllocError>
    ensures core { roll.new.core ≡ roll.old.core }
    ensures set { OnOk result (IsSetTo event.now roll.old.disk roll.new.disk) }
{
    set_disk(alloc, roll.disk(), event)
}

/// Answers an event that isn't an opening or a crash, with an engine.
fn answer(
    alloc: Global,
    roll: &mut Roll<ModelDisk>,
    page_size: PageSize,
    event: &JEvent,
) -> Result<Reply, AllocError>
    ensures serves { IfOk result (λ reply. is_opening event.now ≡ false → is_crash event.now ≡ false → RollServes
        page_size roll.old roll.new (act_of event.now None None) (answer_of reply)) }
    ensures set { OnOk result (IsSetTo event.now roll.old.disk roll.new.disk) }
{
    match event {
        JEvent::Commit {
            pages,
            size,
            nonces,
        } => commit(alloc, roll, pages, *size, nonces),
        JEvent::Read { page } => read(alloc, roll, page_size, *page),
        _ => {
            set(alloc, roll, event)?;
            Ok(Reply::Done)
        }
    }
}

/// And without an engine.
fn refuse(alloc: Global, disk: &mut ModelDisk, event: &JEvent) -> Result<Reply, AllocError>
    ensures reply { IfOk result (λ reply. answer_of reply ≡ closed_answer event.now) }
    ensures set { OnOk result (IsSetTo event.now disk.old disk.new) }
    ensures calm { OnOk result (IsCalm event.now disk.old disk.new) }
{
    match event {
        JEvent::StopAfter(_) | JEvent::StopAtSync(_) | JEvent::Fail { .. } => {
            set_disk(alloc, disk, event)?;
            Ok(Reply::Done)
        }
        _ => Ok(Reply::Refused(RollError::Closed.number())),
    }
}

/// Opens an engine on a disk.
fn open_disk(alloc: Global, disk: ModelDisk, page_size: PageSize) -> (JournalEngine, Reply)
    ensures { (past : State) (found : Files) → AreFiles (state_of disk) found → past.page_size ≡ page_size
        → FitsDisk past (state_of disk) → ServesTo past (Opens found) (answer_of result.1)
        (λ next. FitsEngine next result.0) (state_of disk) (disk_of result.0) }
{
    match Roll::open(alloc, disk, page_size) {
        Ok(roll) => (JournalEngine::Open(roll), Reply::Done),
        Err(refused) => {
            let Refused { error, disk } = refused;
            let reply = Reply::Refused(error.number());
            (JournalEngine::Closed(disk), reply)
        }
    }
}

impl JournalEngine {
    /// Opens the engine, after one that is there is given up.
    fn open(self, alloc: Global, page_size: PageSize) -> (JournalEngine, Result<Given, AllocError>)
        ensures { (tears : Bool) → IfOk result.1 (λ given. Answers page_size tears JEvent.Open self given result.0) }
    {
        let disk = self.into_disk();
        match find(alloc, &disk) {
            Ok(found) => {
                let (engine, reply) = open_disk(alloc, disk, page_size);
                let given = Given {
                    reply,
                    found: Some(found),
                    crashed: None,
                };
                (engine, Ok(given))
            }
            Err(error) => (JournalEngine::Closed(disk), Err(error)),
        }
    }

    /// Crashes the disk.
    fn crash(
        self,
        alloc: Global,
        tears: bool,
        choice: &Choice,
    ) -> (JournalEngine, Result<Given, AllocError>)
        ensures { (page_size : ℕ)
            → IfOk result.1 (λ given. Answers page_size tears (JEvent.Crash choice.now) self given result.0) }
    {
        let mut disk = self.into_disk();
        match crash_disk(alloc, &mut disk, tears, choice) {
            Ok(crashed) => {
                let given = Given {
                    reply: Reply::Done,
                    found: None,
                    crashed,
                };
                (JournalEngine::Closed(disk), Ok(given))
            }
            Err(error) => (JournalEngine::Closed(disk), Err(error)),
        }
    }

    /// Crashes the disk by the number of what is left.
    fn crash_at(
        self,
        alloc: Global,
        tears: bool,
        number: u64,
    ) -> (JournalEngine, Result<Given, AllocError>)
        ensures { (page_size : ℕ)
            → IfOk result.1 (λ given. Answers page_size tears (JEvent.CrashAt number) self given result.0) }
    {
        let mut disk = self.into_disk();
        match crash_disk_at(alloc, &mut disk, tears, number) {
            Ok(crashed) => {
                let given = Given {
                    reply: Reply::Done,
                    found: None,
                    crashed,
                };
                (JournalEngine::Closed(disk), Ok(given))
            }
            Err(error) => (JournalEngine::Closed(disk), Err(error)),
        }
    }

    /// Answers an event that isn't an opening or a crash.
    fn call(
        self,
        alloc: Global,
        page_size: PageSize,
        event: &JEvent,
    ) -> (JournalEngine, Result<Reply, AllocError>)
        ensures serves { IfOk result.1 (λ reply. is_opening event.now ≡ false → is_crash event.now ≡ false →
            EngineServes page_size self result.0 (act_of event.now None None) (answer_of reply)) }
        ensures set { OnOk result.1 (IsSetTo event.now (model_of self) (model_of result.0)) }
        ensures rests { OnOk result.1 (Rests event.now self result.0) }
    {
        match self {
            JournalEngine::Closed(mut disk) => {
                let reply = refuse(alloc, &mut disk, event);
                (JournalEngine::Closed(disk), reply)
            }
            JournalEngine::Open(mut roll) => {
                let reply = answer(alloc, &mut roll, page_size, event);
                (JournalEngine::Open(roll), reply)
            }
        }
    }
}

impl Engine for JournalEngine {
    ghost use Rattle.sqworld.specs.JournalWorlds.{journal_kind};
    ghost use Rattle.sqworld.specs.internal.JournalLaws.{journal_lawful};

    type Event = JEvent;

    ghost kind = { journal_kind };

    ghost begun_of = { λ _. 0 };

    fn closed(disk: ModelDisk) -> JournalEngine {
        JournalEngine::Closed(disk)
    }

    fn serve(
        self,
        alloc: Global,
        page_size: PageSize,
        tears: bool,
        event: &JEvent,
    ) -> (JournalEngine, Result<Given, AllocError>) {
        match event {
            JEvent::Open => self.open(alloc, page_size),
            JEvent::Crash(choice) => self.crash(alloc, tears, choice),
            JEvent::CrashAt(number) => self.crash_at(alloc, tears, *number),
            _ => {
                let (engine, reply) = self.call(alloc, page_size, event);
                (engine, alone(reply))
            }
        }
    }

    fn refused(&mut self) -> u64 {
        match self {
            JournalEngine::Closed(disk) => disk.refused(),
            JournalEngine::Open(roll) => roll.disk().refused(),
        }
    }

    fn copy_disk(&mut self) -> Result<ModelDisk, DiskError> {
        match self {
            JournalEngine::Closed(disk) => disk.copy(),
            JournalEngine::Open(roll) => roll.disk().copy(),
        }
    }

    fn into_disk(self) -> ModelDisk {
        match self {
            JournalEngine::Closed(disk) => disk,
            JournalEngine::Open(roll) => roll.into_disk(),
        }
    }

    ghost lawful = { journal_lawful };
}
