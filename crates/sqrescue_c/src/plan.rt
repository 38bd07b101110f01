//! What a recovery does, one step after another, for a caller that carries it out on its own storage.
ghost use Rattle.std.specs.Prelude.{◌≡◌, ◌≢◌, ◌<◌, ◌≤◌, [], length};
ghost use Rattle.sqview.specs.Logs.{CountsAnswer};
ghost use Rattle.sqrescue_c.specs.Plans.{recovery_of, left_in, step_of, NextOf, IsPlanned};
ghost use Rattle.sqrescue_c.specs.internal.Plans.{number_in, CountsSome};
ghost use Rattle.sqrescue_c.specs.Recoveries.{RefusesAsRecovery};
ghost use Rattle.sqrescue_c.specs.Views.{OpenRefused};

use crate::refusals::ask;
use crate::status::{Status, view_number};
use crate::view::{Files, Handle, hand_over, view_of};
use sqplan::{Plan as Recovers, Recovery, Step as Does};
use sqview::{LogInUse, ViewError, log_in_use};
use std::alloc::Global;

/// The recovery of a database file from the log that counts beside it.
#[repr(C)]
#[derive(Clone, Copy)]
pub struct Plan<'a> {
    /// The database that it leaves.
    pub view: Handle<'a>,
    /// How much of it is done.
    pub done: u64,
    /// Nothing, 0; a log is folded, 1, or emptied, 2; a journal is replayed, 3.
    pub recovery: u32,
}

/// A step of a recovery: of which kind, in the file, 0, or in the log, 1; where and how many bytes; and which page.
#[repr(C)]
#[derive(Clone, Copy)]
pub struct Step {
    pub at: u64,
    pub length: u64,
    pub kind: u32,
    pub is_of_log: u32,
    pub page: u32,
}

/// A recovery by its number.
fn recovery_of(number: u32) -> Recovery
    ensures { result ≡ recovery_of number }
{
    match number {
        1 => Recovery::Fold,
        2 => Recovery::Empty,
        3 => Recovery::RollBack,
        _ => Recovery::Nothing,
    }
}

/// A step of the database file.
fn of_file(kind: u32, at: u64, length: u64, page: u32) -> Step
    ensures { result ≡ record { at = at; length = length; kind = kind; is_of_log = 0; page = page } }
{
    Step {
        at,
        length,
        kind,
        is_of_log: 0,
        page,
    }
}

/// A step of the log.
fn of_log(kind: u32, length: u64) -> Step
    ensures { result ≡ record { at = 0; length = length; kind = kind; is_of_log = 1; page = 0 } }
{
    Step {
        at: 0,
        length,
        kind,
        is_of_log: 1,
        page: 0,
    }
}

/// A step in numbers, of pages of this size.
fn step_of(size: u32, does: Does) -> Step
    ensures { result ≡ step_of size does }
{
    match does {
        Does::WritePage(page) => {
            let at = u64::from(page.saturating_sub(1)) * u64::from(size);
            of_file(1, at, u64::from(size), page)
        }
        Does::ZeroHeader(length) => of_log(2, u64::from(length)),
        Does::SetLength(length) => of_file(3, 0, length, 0),
        Does::CutLog => of_log(3, 0),
        Does::SyncDatabase => of_file(4, 0, 0, 0),
        Does::SyncLog => of_log(4, 0),
    }
}

/// The next step of a plan: its kind, and 0 at the end, where nothing is written. It asks for no memory (fileformat2, 3
/// and 4.3).
#[unsafe(no_mangle)]
pub extern "C" fn sqr_plan_next(plan: &mut Plan<'_>, step: &mut Step) -> u32
    ensures next { 1 ≤ result → NextOf plan.old plan.new step.new }
    ensures kind { 1 ≤ result → result ≡ step.new.kind }
    ensures end { result ≡ 0 → left_in plan.old ≡ [] }
    ensures kept { result ≡ 0 → (plan.new ≡ plan.old) × (step.new ≡ step.old) }
    ensures same { (plan.new.view ≡ plan.old.view) × (plan.new.recovery ≡ plan.old.recovery) }
{
    let recovers = Recovers {
        recovery: recovery_of(plan.recovery),
        page_size: plan.view.page_size,
        pages: plan.view.pages,
        places: plan.view.places,
    };
    let Some((does, done)) = recovers.next(plan.done) else {
        return 0;
    };
    *step = step_of(plan.view.page_size, does);
    plan.done = done;
    step.kind
}

/// A plan of a recovery that reads no page.
fn without_pages<'a>(files: &Files<'a>, places: &'a mut [u64], recovery: u32) -> Plan<'a>
    ensures places { result.view.places.now ≡ [] }
    ensures recovery { result.recovery ≡ recovery }
    ensures done { result.done ≡ 0 }
{
    let (none, _) = places.split_at_mut(0);
    Plan {
        view: Handle {
            db: files.db,
            log: files.wal,
            places: none,
            page_size: 0,
            pages: 0,
        },
        done: 0,
        recovery,
    }
}

/// The log of files that counts.
fn counting(files: &Files<'_>) -> Result<LogInUse, ViewError>
    ensures { CountsAnswer files.now.wal.now files.now.journal.now result }
{
    let mut journal = files.journal;
    log_in_use(&files.wal, &mut journal)
}

/// The number of the recovery from the log that counts, of a view that stands at this frame.
fn recovery_number(in_use: &LogInUse, front: u32) -> u32
    ensures { result ≡ number_in in_use.now front }
{
    match in_use {
        LogInUse::Neither => 0,
        LogInUse::Wal => if front == 0 { 2 } else { 1 },
        LogInUse::Journal(_) => 3,
    }
}

/// The recovery of files from the log that counts. Answers as `sqr_open` does, but where the header names no database.
fn plan_from<'a>(
    alloc: Global,
    files: &Files<'a>,
    in_use: &LogInUse,
    places: &'a mut [u64],
    out: &mut Plan<'a>,
) -> u32
    requires { CountsSome files.now.wal.now files.now.journal.now in_use.now }
    ensures planned { result ≡ 0 → IsPlanned files.now.db.now files.now.wal.now files.now.journal.now out.new }
    ensures refused { result ≢ 0
        → OpenRefused files.now.db.now files.now.wal.now files.now.journal.now (length places.old) result }
    ensures low { result < 14 }
    ensures room { result ≡ 0 → length out.new.view.places.now ≤ length places.old }
    ensures kept { result ≢ 0 → out.new ≡ out.old }
{
    let view = match view_of(alloc, files) {
        Ok(view) => view,
        Err(ViewError::Header(_)) => {
            *out = without_pages(files, places, 2);
            return Status::Done.number();
        }
        Err(error) => return view_number(error),
    };
    let mut handed = out.view;
    match hand_over(&view, places, &mut handed) {
        Ok(()) => {
            *out = Plan {
                view: handed,
                done: 0,
                recovery: recovery_number(in_use, view.front()),
            };
            Status::Done.number()
        }
        Err(status) => status.number(),
    }
}

/// The recovery of files. The places are the plan's view's from then on, as `sqr_open`'s are. Answers Done; or refuses
/// as `sqr_open` does, but for files of which no log counts, which need no recovery, and for a log without a front
/// beside a file that is no database; and then leaves the plan and the places as they are (fileformat2, 3 and 4.3).
#[unsafe(no_mangle)]
pub extern "C" fn sqr_plan<'a>(
    alloc: Global,
    files: &Files<'a>,
    places: &'a mut [u64],
    out: &mut Plan<'a>,
) -> u32
    ensures planned { result ≡ 0 → IsPlanned files.now.db.now files.now.wal.now files.now.journal.now out.new }
    ensures refused { result ≢ 0 → result < 14
        → OpenRefused files.now.db.now files.now.wal.now files.now.journal.now (length places.old) result }
    ensures recovery { RefusesAsRecovery files.now.db.now files.now.wal.now files.now.journal.now result }
    ensures room { result ≡ 0 → length out.new.view.places.now ≤ length places.old }
    ensures kept { result ≢ 0 → out.new ≡ out.old }
{
    if let Err(status) = ask(alloc, files) {
        return status.number();
    }
    match counting(files) {
        Ok(LogInUse::Neither) => {
            *out = without_pages(files, places, 0);
            Status::Done.number()
        }
        Ok(in_use) => plan_from(alloc, files, &in_use, places, out),
        Err(error) => view_number(error),
    }
}
