//! Whether the database that files show is well formed.
ghost use Rattle.std.specs.Prelude.{◌≡◌, ◌≢◌, ◌↔◌, ◌<◌, ◌≤◌, IfOk, IfErr};
ghost use Rattle.sqpage.specs.Faults.{number_of};
ghost use Rattle.sqrescue_c.specs.Asked.{at_commit, AreAskedFlags};
ghost use Rattle.sqrescue_c.specs.Checks.{SaysClean, SaysDamaged, IsAskedVerdict, AreAskedUnjudged};
ghost use Rattle.sqrescue_c.specs.internal.Statuses.{number_of as status_number};

use crate::asked::{AT, UNKNOWN_OPTIONS, are_known, options_of, view_asked};
use crate::status::{Status, with_status};
use crate::view::Files;
use sqcheck::Report;
use sqpage::CheckError;
use sqpast::PastError;
use sqview::{Verdict, judge_view_with, without_view};
use std::alloc::Global;

/// What a check finds: the counts of a well-formed database, with fault and page 0; or the fault's number and its
/// page, from 1, with the counts 0.
#[repr(C)]
#[derive(Clone, Copy)]
pub struct CheckReport {
    pub fault: u32,
    pub page: u32,
    pub pages: u32,
    pub trees: u32,
    pub btree: u32,
    pub overflow: u32,
    pub free: u32,
}

/// The counts of a report.
fn clean(report: Report) -> CheckReport
    ensures { result ≡ record {
      fault = 0;
      page = 0;
      pages = report.pages;
      trees = report.trees;
      btree = report.btree;
      overflow = report.overflow;
      free = report.free;
    } }
{
    CheckReport {
        fault: 0,
        page: 0,
        pages: report.pages,
        trees: report.trees,
        btree: report.btree,
        overflow: report.overflow,
        free: report.free,
    }
}

/// A fault and its page.
fn damaged(error: CheckError) -> CheckReport
    ensures fault { result.fault ≡ number_of error.fault }
    ensures page { result.page ≡ error.page }
{
    CheckReport {
        fault: u32::from(error.fault.number()),
        page: error.page,
        pages: 0,
        trees: 0,
        btree: 0,
        overflow: 0,
        free: 0,
    }
}

/// What a check finds of the database that is asked for.
fn judge_asked(alloc: Global, files: &Files<'_>, flags: u32, frame: u32) -> Result<Verdict, Status>
    ensures found { IfOk result
        (IsAskedVerdict flags frame files.now.db.now files.now.wal.now files.now.journal.now) }
    ensures refused { IfErr result (λ status. AreAskedUnjudged flags frame
        files.now.db.now files.now.wal.now files.now.journal.now (status_number status)) }
{
    match view_asked(alloc, files, flags, frame) {
        Ok(mut view) => with_status(judge_view_with(alloc, &mut view, options_of(flags))),
        Err(PastError::Refused(error)) => with_status(without_view(error)),
        Err(PastError::CommitOverwritten) => Err(Status::CommitOverwritten),
    }
}

/// Writes it to a report, and answers its status.
fn report_asked(
    alloc: Global,
    files: &Files<'_>,
    flags: u32,
    frame: u32,
    report: &mut CheckReport,
) -> u32
    ensures clean { result ≡ 0 → SaysClean
        (IsAskedVerdict flags frame files.now.db.now files.now.wal.now files.now.journal.now) report.new }
    ensures damaged { result ≡ 1 → SaysDamaged
        (IsAskedVerdict flags frame files.now.db.now files.now.wal.now files.now.journal.now) report.new }
    ensures unjudged { 2 ≤ result → AreAskedUnjudged flags frame
        files.now.db.now files.now.wal.now files.now.journal.now result }
    ensures known { result ≢ 24 }
    ensures kept { 2 ≤ result → report.new ≡ report.old }
{
    match judge_asked(alloc, files, flags, frame) {
        Ok(Verdict::Clean(found)) => {
            *report = clean(found);
            Status::Done.number()
        }
        Ok(Verdict::Damaged(error)) => {
            *report = damaged(error);
            Status::Damaged.number()
        }
        Err(status) => status.number(),
    }
}

/// Whether the database that files show is well formed, by the pages that SQLite uses. Answers Done with its counts, or
/// Damaged with a fault that it has, which a header that names no database is too; otherwise TwoLogs, TooLarge or
/// AutoVacuum, in this order, or NoMemory in place of any, and then leaves the report unchanged (fileformat2, 1 to 4).
#[unsafe(no_mangle)]
pub extern "C" fn sqr_check(alloc: Global, files: &Files<'_>, report: &mut CheckReport) -> u32
    ensures clean { result ≡ 0 → SaysClean
        (IsAskedVerdict 0 0 files.now.db.now files.now.wal.now files.now.journal.now) report.new }
    ensures damaged { result ≡ 1 → SaysDamaged
        (IsAskedVerdict 0 0 files.now.db.now files.now.wal.now files.now.journal.now) report.new }
    ensures unjudged { 2 ≤ result → AreAskedUnjudged 0 0
        files.now.db.now files.now.wal.now files.now.journal.now result }
    ensures kept { 2 ≤ result → report.new ≡ report.old }
{
    report_asked(alloc, files, 0, 0, report)
}

/// The same of the database that files had at a commit frame of their write-ahead log, or at frame 0 before the first
/// commit, as `sqr_open_at` opens it. Answers Done, Damaged, or TwoLogs, TooLarge, NoSuchCommit, CommitOverwritten or
/// AutoVacuum, or NoMemory in place of any, and then leaves the report as it is (fileformat2, 1 to 4).
#[unsafe(no_mangle)]
pub extern "C" fn sqr_check_at(
    alloc: Global,
    files: &Files<'_>,
    frame: u32,
    report: &mut CheckReport,
) -> u32
    ensures clean { result ≡ 0 → SaysClean
        (IsAskedVerdict at_commit frame files.now.db.now files.now.wal.now files.now.journal.now) report.new }
    ensures damaged { result ≡ 1 → SaysDamaged
        (IsAskedVerdict at_commit frame files.now.db.now files.now.wal.now files.now.journal.now) report.new }
    ensures unjudged { 2 ≤ result → AreAskedUnjudged at_commit frame
        files.now.db.now files.now.wal.now files.now.journal.now result }
    ensures kept { 2 ≤ result → report.new ≡ report.old }
{
    report_asked(alloc, files, AT, frame, report)
}

/// The same of the database that flags ask for: 4, at a commit frame; 8, within the greatest limits; 16, with its
/// pointer maps, where it is one of auto-vacuum. Answers Done, Damaged or what `sqr_check` and `sqr_check_at` do, or 24
/// where a flag is another one, and then leaves the report as it is (fileformat2, 1 to 4).
#[unsafe(no_mangle)]
pub extern "C" fn sqr_check_with(
    alloc: Global,
    files: &Files<'_>,
    flags: u32,
    frame: u32,
    report: &mut CheckReport,
) -> u32
    ensures clean { result ≡ 0 → SaysClean
        (IsAskedVerdict flags frame files.now.db.now files.now.wal.now files.now.journal.now) report.new }
    ensures damaged { result ≡ 1 → SaysDamaged
        (IsAskedVerdict flags frame files.now.db.now files.now.wal.now files.now.journal.now) report.new }
    ensures unjudged { 2 ≤ result → result ≢ 24 → AreAskedUnjudged flags frame
        files.now.db.now files.now.wal.now files.now.journal.now result }
    ensures known { (result ≢ 24) ↔ AreAskedFlags flags }
    ensures kept { 2 ≤ result → report.new ≡ report.old }
{
    if !are_known(flags) {
        return UNKNOWN_OPTIONS;
    }
    report_asked(alloc, files, flags, frame, report)
}
