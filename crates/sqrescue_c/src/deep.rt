//! Whether the database that files show is sound inside, too.
ghost use Rattle.std.specs.Prelude.{◌≡◌, ◌≢◌, ◌↔◌, ◌<◌, ◌≤◌, ℕ, length, get_or, IfOk, IfErr};
ghost use Rattle.sqdeep.specs.Faults.{number_of as inner_number};
ghost use Rattle.sqdeepjudge.specs.Verdicts.{is_damaged};
ghost use Rattle.sqrescue_c.specs.Asked.{AreDeepFlags};
ghost use Rattle.sqrescue_c.specs.Deeps.{AreDeepUnjudged, AreRowsToldOf, IsAskedDeep, IsDeepAnswer};
ghost use Rattle.sqrescue_c.specs.Deeps.{IsDeepAnswerAll, ill_formed_of, left_of};
ghost use Rattle.sqrescue_c.specs.Deeps.{counts_of, deep_report, deep_status, fault_at, inner_at, rows_of};
ghost use Rattle.sqrescue_c.specs.internal.Statuses.{number_of};

use crate::asked::{UNKNOWN_OPTIONS, Used, are_known_deep, is_complete, used_asked};
use crate::status::{Status, with_status};
use crate::view::Files;
use sqcheck::{Options, Report};
use sqdeep::InnerError;
use sqdeepjudge::{Damage, DeepVerdict, Lengths, Unjudged, deep_without, judge_deep};
use sqpast::PastError;
use std::alloc::Global;

/// The fault of a page that is missing.
const FILE_CUT: u8 = 36;

/// The fault of a header that counts more pages than there are.
const PAGE_COUNT: u8 = 37;

/// A fault names a page.
const PAGE: u32 = 1;

/// It names a cell of a page.
const CELL: u32 = 2;

/// It names a row of the schema.
const ROW: u32 = 4;

/// What a deep check finds: the counts of a sound database, with fault 0; or the fault's number, with the counts 0, and
/// which places it names, of which those that it doesn't are 0.
#[repr(C)]
#[derive(Clone, Copy)]
pub struct DeepReport {
    pub fault: u32,
    /// The sum of 1 for a page, 2 for a cell of it, and 4 for a row of the schema.
    pub places: u32,
    /// From 1.
    pub page: u32,
    pub pages: u32,
    pub trees: u32,
    pub btree: u32,
    pub overflow: u32,
    pub free: u32,
    /// From 0.
    pub cell: u64,
    /// From 0, in the order of rowids.
    pub row: u64,
    /// How many indexes aren't judged.
    pub indexes: u64,
    /// How many tables have rows that aren't judged.
    pub tables: u64,
    /// How many tables have trees whose kind isn't judged, since their texts aren't understood.
    pub asides: u64,
}

/// What a deep check finds, how many things of a sound database it doesn't judge, and how many of its cells have a text
/// that isn't one in its encoding.
#[repr(C)]
#[derive(Clone, Copy)]
pub struct DeepAnswer {
    pub report: DeepReport,
    pub left: u64,
    pub ill_formed: u64,
}

/// A fault, and where it is.
fn fault_at(fault: u8, places: u32, page: u32, cell: usize, row: usize) -> DeepReport
    ensures { result ≡ fault_at fault places page cell row }
{
    DeepReport {
        fault: u32::from(fault),
        places,
        page,
        pages: 0,
        trees: 0,
        btree: 0,
        overflow: 0,
        free: 0,
        cell: cell as u64,
        row: row as u64,
        indexes: 0,
        tables: 0,
        asides: 0,
    }
}

/// The counts of a database that is well formed, of which nothing is left open.
fn counts_of(report: &Report) -> DeepReport
    ensures { result ≡ counts_of report.now 0 0 0 }
{
    DeepReport {
        fault: 0,
        places: 0,
        page: 0,
        pages: report.pages,
        trees: report.trees,
        btree: report.btree,
        overflow: report.overflow,
        free: report.free,
        cell: 0,
        row: 0,
        indexes: 0,
        tables: 0,
        asides: 0,
    }
}

/// The counts of a sound one, and of what isn't judged.
fn sound_counts(report: &Report, unjudged: &Unjudged, asides: usize) -> DeepReport
    ensures { result ≡ counts_of report.now (length unjudged.now.indexes.items) (length unjudged.now.tables.items)
        asides }
{
    DeepReport {
        indexes: unjudged.indexes.len() as u64,
        tables: unjudged.tables.len() as u64,
        asides: asides as u64,
        ..counts_of(report)
    }
}

/// A fault inside, at a page or a cell of it.
fn inner_at(error: &InnerError) -> DeepReport
    ensures { result ≡ inner_at (inner_number error.now.fault) error.now.page error.now.cell }
{
    let (fault, page) = (error.fault.number(), error.page);
    match error.cell {
        None => fault_at(fault, PAGE, page, 0, 0),
        Some(cell) => fault_at(fault, PAGE + CELL, page, cell, 0),
    }
}

/// What is told of a verdict.
fn deep_report(verdict: &DeepVerdict) -> DeepReport
    ensures { result ≡ deep_report verdict.now }
{
    match verdict {
        DeepVerdict::Clean(report) => counts_of(report),
        DeepVerdict::Sound(report, schema, unjudged) => {
            sound_counts(report, unjudged, schema.asides.len())
        }
        DeepVerdict::Damaged(Damage::Cut(page)) => fault_at(FILE_CUT, PAGE, *page, 0, 0),
        DeepVerdict::Damaged(Damage::Excess(_)) => fault_at(PAGE_COUNT, PAGE, 1, 0, 0),
        DeepVerdict::Damaged(Damage::Check(error)) => {
            fault_at(error.fault.number(), PAGE, error.page, 0, 0)
        }
        DeepVerdict::Damaged(Damage::Inner(error)) => inner_at(error),
        DeepVerdict::Damaged(Damage::Schema(error)) => {
            fault_at(error.fault.number(), ROW, 0, 0, error.row)
        }
        DeepVerdict::Damaged(Damage::Content(found)) => {
            let error = &found.error;
            fault_at(
                error.fault.number(),
                PAGE + CELL + ROW,
                error.page,
                error.cell,
                found.row,
            )
        }
        DeepVerdict::Damaged(Damage::Row(found)) => {
            let error = &found.error;
            fault_at(
                error.fault.number(),
                PAGE + CELL + ROW,
                error.page,
                error.cell,
                found.row,
            )
        }
    }
}

/// The row of the i-th object that isn't judged: first those of indexes, then those of tables.
fn row_at(unjudged: &Unjudged, i: usize) -> usize
    requires { i < length (rows_of unjudged.now) }
    ensures { result ≡ get_or (rows_of unjudged.now) i 0 }
{
    let count = unjudged.indexes.len();
    if i < count {
        unjudged.indexes[i]
    } else {
        unjudged.tables[i - count]
    }
}

/// Writes these rows to the front of an array, as many as there is room for.
fn copy_rows(unjudged: &Unjudged, rows: &mut [u64])
    ensures { (i : ℕ) → i < length rows.new → i < length (rows_of unjudged.now)
        → get_or rows.new i 0 ≡ get_or (rows_of unjudged.now) i 0 }
{
    let count = unjudged.indexes.len().saturating_add(unjudged.tables.len());
    for i in 0..count.min(rows.len()) {
        rows[i] = row_at(unjudged, i) as u64;
    }
}

/// The same of a verdict, where it has some.
fn tell_rows(verdict: &DeepVerdict, rows: &mut [u64])
    ensures { AreRowsToldOf verdict.now rows.new }
{
    match verdict {
        DeepVerdict::Sound(_, _, unjudged) => copy_rows(unjudged, rows),
        DeepVerdict::Clean(_) | DeepVerdict::Damaged(_) => (),
    }
}

/// How many bytes the database file has.
fn length_of(files: &Files<'_>) -> u64
    ensures { result ≡ length files.now.db.now }
{
    files.db.len() as u64
}

/// What a deep check finds of the database that is asked for.
fn judge_deep_asked(
    alloc: Global,
    files: &Files<'_>,
    flags: u32,
    frame: u32,
) -> Result<DeepVerdict, Status>
    ensures found { IfOk result
        (IsAskedDeep flags frame files.now.db.now files.now.wal.now files.now.journal.now) }
    ensures refused { IfErr result (λ status. AreDeepUnjudged flags frame
        files.now.db.now files.now.wal.now files.now.journal.now (number_of status)) }
{
    let maps = Options { pointer_maps: true };
    let long = length_of(files);
    match used_asked(alloc, files, flags, frame) {
        Ok(used) => {
            let Used { mut view, counts } = used;
            with_status(judge_deep(alloc, &mut view, Lengths { long, counts }, maps))
        }
        Err(PastError::Refused(error)) => with_status(deep_without(error)),
        Err(PastError::CommitOverwritten) => Err(Status::CommitOverwritten),
    }
}

/// Whether the database that flags ask for, as for `sqr_check_with`, is well formed, and its records, its schema, its
/// indexes and its tables are sound, with its pointer maps, where it has some. Answers Done with its counts, and the
/// rows of the schema, from 0, of the indexes and then of the tables that aren't judged at the front of an array, as
/// many as there is room for; with flag 32 NotJudged, and the same, if anything isn't judged except bodies of views and
/// triggers; or Damaged with a fault that it has; otherwise TwoLogs, TooLarge, NoSuchCommit or CommitOverwritten, in
/// this order, or NoMemory in place of any, or 24 for another flag, and then leaves the report unchanged (fileformat2,
/// 1 to 4).
#[unsafe(no_mangle)]
pub extern "C" fn sqr_check_deep(
    alloc: Global,
    files: &Files<'_>,
    flags: u32,
    frame: u32,
    rows: &mut [u64],
    report: &mut DeepReport,
) -> u32
    ensures found { result ≤ 1 → IsDeepAnswer flags frame files.now.db.now files.now.wal.now files.now.journal.now
        result report.new rows.new }
    ensures in_part { result ≡ 31 → IsDeepAnswer flags frame files.now.db.now files.now.wal.now files.now.journal.now
        result report.new rows.new }
    ensures unjudged { 2 ≤ result → result ≢ 24 → result ≢ 31 → AreDeepUnjudged flags frame
        files.now.db.now files.now.wal.now files.now.journal.now result }
    ensures known { (result ≢ 24) ↔ AreDeepFlags flags }
    ensures kept { 2 ≤ result → result ≢ 31 → report.new ≡ report.old }
    ensures rows_kept { 2 ≤ result → result ≢ 31 → rows.new ≡ rows.old }
{
    let mut answer = DeepAnswer {
        report: *report,
        left: 0,
        ill_formed: 0,
    };
    let status = sqr_check_deep_all(alloc, files, flags, frame, rows, &mut answer);
    *report = answer.report;
    status
}

/// How many things of a sound database a deep check doesn't judge.
fn left_of(verdict: &DeepVerdict) -> u64
    ensures { result ≡ left_of verdict.now }
{
    match verdict {
        DeepVerdict::Sound(_, _, unjudged) => unjudged.all.len() as u64,
        DeepVerdict::Clean(_) | DeepVerdict::Damaged(_) => 0,
    }
}

/// How many cells of a sound database have a text that isn't one in its encoding.
fn ill_formed_of(verdict: &DeepVerdict) -> u64
    ensures { result ≡ ill_formed_of verdict.now }
{
    match verdict {
        DeepVerdict::Sound(_, _, unjudged) => unjudged.ill_formed,
        DeepVerdict::Clean(_) | DeepVerdict::Damaged(_) => 0,
    }
}

/// The status of a verdict.
fn status_of(flags: u32, verdict: &DeepVerdict) -> Status
    ensures { number_of result ≡ deep_status flags verdict.now }
{
    if verdict.is_damaged() {
        Status::Damaged
    } else if is_complete(flags) && verdict.is_in_part() {
        Status::NotJudged
    } else {
        Status::Done
    }
}

/// As `sqr_check_deep`, and with Done or NotJudged how many things it doesn't judge, 0 only if all is judged: indexes,
/// also partial ones, tables, CHECKs, foreign keys, views, triggers and virtual tables; and how many cells have a text
/// that isn't one in the database's encoding. With Damaged both are 0. Otherwise the answer and the rows don't change.
#[unsafe(no_mangle)]
pub extern "C" fn sqr_check_deep_all(
    alloc: Global,
    files: &Files<'_>,
    flags: u32,
    frame: u32,
    rows: &mut [u64],
    answer: &mut DeepAnswer,
) -> u32
    ensures found { result ≤ 1 → IsDeepAnswerAll flags frame files.now.db.now files.now.wal.now files.now.journal.now
        result answer.new rows.new }
    ensures in_part { result ≡ 31 → IsDeepAnswerAll flags frame files.now.db.now files.now.wal.now files.now.journal.now
        result answer.new rows.new }
    ensures unjudged { 2 ≤ result → result ≢ 24 → result ≢ 31 → AreDeepUnjudged flags frame
        files.now.db.now files.now.wal.now files.now.journal.now result }
    ensures known { (result ≢ 24) ↔ AreDeepFlags flags }
    ensures kept { 2 ≤ result → result ≢ 31 → answer.new ≡ answer.old }
    ensures rows_kept { 2 ≤ result → result ≢ 31 → rows.new ≡ rows.old }
{
    if !are_known_deep(flags) {
        return UNKNOWN_OPTIONS;
    }
    match judge_deep_asked(alloc, files, flags, frame) {
        Ok(verdict) => {
            tell_rows(&verdict, rows);
            *answer = DeepAnswer {
                report: deep_report(&verdict),
                left: left_of(&verdict),
                ill_formed: ill_formed_of(&verdict),
            };
            status_of(flags, &verdict).number()
        }
        Err(status) => status.number(),
    }
}
