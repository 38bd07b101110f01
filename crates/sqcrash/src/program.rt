//! The program over a runtime's files and two writers.
ghost use Rattle.std.specs.Prelude.{◌≡◌, ◌⊎◌, ◌↔◌, ◌<◌, ◌≤◌, ℕ, List, IsTrue, IfOk, IfErr, map};
ghost use Rattle.std.specs.Io.KnownBytes.{Appends};
ghost use Rattle.std.specs.IoError.{error_kind};
ghost use Rattle.std.specs.declared.io.ErrorKind.TheVariants.{OutOfMemory};
ghost use Rattle.sqcrash.specs.Rigs.{IsJudgment, BeginsRig, rig_of};
ghost use Rattle.sqcrash.specs.Refusals.{IsOfFiles};
ghost use Rattle.sqcrash.specs.Refused.{IsRefusal, BeginRefused, IsFirstPart, IsNoPoint};
ghost use Rattle.sqcrash.specs.Ends.{Comes, Ends, IsStatusOf, MayWrite};
ghost use Rattle.sqcrash.specs.declared.plan.Style.TheVariants.{Lines};

use crate::commands::request;
use crate::explained::{write_findings, write_left};
use crate::keep::{Folder, Keeper};
use crate::lines::{TimeText, write_commits, write_sum};
use crate::marked::{are_at_marks, take_marked};
use crate::outcome::Refusal;
use crate::plan::{Part, Plan, Style};
use crate::requests::{LineError, Request};
use crate::rig::Rig;
use crate::survey::Tally;
use rig_play::{Record, Trace};
use std::alloc::Global;
use std::fmt::Display;
use std::fs;
use std::io::{self, Write};
use std::rt::Files;
use std::time::{Clock, Instant};

const DONE: u8 = 0;

const WRONG: u8 = 1;

const NOT_UNDERSTOOD: u8 = 2;

const REFUSED: u8 = 3;

/// Carries out a command line, whose first word is the program's name, and answers the program's status: 0 where
/// nothing is wrong (also for help and the version), 1 where something is with a commit or an image, 2 for words that
/// aren't understood, 3 where it was refused or a file or a writer failed.
pub fn run<R: Files + Clock + AllocGlobal, O: Write, E: Write>(
    rt: &R,
    words: &[&str],
    out: &mut O,
    err: &mut E,
) -> u8
    ensures least { result ≤ 3 }
    ensures ends { Ends (map (λ w. w.now) words.entry.now) (O.contents out.old) (O.contents out.new) result }
{
    let request = match request(rt.alloc(), words) {
        Ok(request) => request,
        Err(LineError::Help(help)) => return printed(out, &help, DONE),
        Err(LineError::Version) => return printed(out, &LineError::Version, DONE),
        Err(LineError::NotUnderstood(fault)) => return printed(err, &fault, NOT_UNDERSTOOD),
        Err(LineError::NoMemory) => return refused(err, &LineError::NoMemory),
    };
    let begun = begun_at(rt, request.time);
    match carried_out(rt, &request, out) {
        Ok(tally) => {
            tell_time(rt, err, begun, tally.images);
            status_of(&tally)
        }
        Err(refusal) => refused_in(out, err, request.plan.style, &refusal),
    }
}

/// When a run began, where it is to be told how long it took, and the clock can be read.
fn begun_at<C: Clock>(clock: &C, is_asked: bool) -> Option<Instant> {
    if is_asked {
        Instant::now(clock).ok()
    } else {
        None
    }
}

/// Tells how long it took since then, and how many images were judged.
fn tell_time<C: Clock, E: Write>(clock: &C, err: &mut E, begun: Option<Instant>, images: u64) {
    let Some(begun) = begun else {
        return;
    };
    if let Ok(now) = Instant::now(clock) {
        let millis = now.saturating_duration_since(begun).as_millis();
        let _ = line(err, &TimeText { millis, images });
    }
}

/// The status of what was counted.
fn status_of(tally: &Tally) -> u8
    ensures { IsStatusOf tally.now result }
{
    if tally.is_clean() { DONE } else { WRONG }
}

/// The bytes of a file.
fn read<R: Files + AllocGlobal>(rt: &R, path: &str) -> Result<Vec<u8>, Refusal>
    ensures { IfErr result IsOfFiles }
{
    match fs::read(rt, path) {
        Ok(bytes) => Ok(bytes),
        Err(error) if error.kind() == io::ErrorKind::OutOfMemory => Err(Refusal::NoMemory),
        Err(_) => Err(Refusal::FileFailed),
    }
}

/// Judges the trace that is asked for.
fn carried_out<R: Files + AllocGlobal, O: Write>(
    rt: &R,
    request: &Request<'_>,
    out: &mut O,
) -> Result<Tally, Refusal>
    ensures { Comes request.now.plan (O.contents out.old) (O.contents out.new) result }
{
    let bytes = read(rt, request.trace)?;
    let mut folder = Folder::new(rt, request.keep, request.plan)?;
    let tally = judge_trace(rt.alloc(), request.plan, &bytes, &mut folder, out)?;
    write_sum(out, request.plan.style, tally)?;
    out.flush()?;
    Ok(tally)
}

/// Judges a trace, and writes a line for each commit at a mark that isn't well formed, and for each image with
/// something wrong, which goes to the keeper, too. Answers what there was, which is one point or more. Refused by
/// NoMarks, NoCalls and NoPart where there is none, by Trace, and by what refuses a point.
pub(crate) fn judge_trace<K: Keeper, O: Write>(
    alloc: Global,
    plan: Plan,
    bytes: &[u8],
    keeper: &mut K,
    out: &mut O,
) -> Result<Tally, Refusal>
    ensures judged { IfOk result (λ tally. (lines : List ℕ) × IsJudgment plan bytes.now tally lines
        × Appends (O.contents out.old) (O.contents out.new) lines) }
    ensures some { IfOk result (λ tally. 0 < tally.points) }
    ensures refused { IfErr result (IsRefusal plan bytes.now) }
    ensures unread { IfErr result (λ refusal. MayWrite refusal (O.contents out.old) (O.contents out.new)) }
{
    let tally = judge_records(alloc, plan, bytes, keeper, out)?;
    if tally.points > 0 {
        return Ok(tally);
    }
    Err(no_points(plan))
}

/// Whether the first point is of the part that is asked for.
fn is_first(part: Option<Part>) -> bool
    ensures { IsTrue result ↔ IsFirstPart part }
{
    match part {
        Some(part) => part.number <= 1,
        None => true,
    }
}

/// Why there is no point. Of a trace with a point the first one is of the first part.
fn no_points(plan: Plan) -> Refusal
    ensures { IsNoPoint plan result }
{
    if !is_first(plan.part) {
        return Refusal::NoPart;
    }
    if plan.every {
        return Refusal::NoCalls;
    }
    Refusal::NoMarks
}

/// The rig by which the records of a trace are judged. Writes a line for each commit at a mark that isn't well formed.
fn begun<O: Write>(
    alloc: Global,
    plan: Plan,
    bytes: &[u8],
    records: &[Record],
    out: &mut O,
) -> Result<Rig, Refusal>
    ensures begins { IfOk result (λ rig. (lines : List ℕ) × BeginsRig plan bytes.now records.now (rig_of rig) lines
        × Appends (O.contents out.old) (O.contents out.new) lines) }
    ensures plan { IfOk result (λ rig. rig.plan ≡ plan) }
    ensures refused { IfErr result (BeginRefused plan bytes.now records.now) }
{
    let mut rig = Rig::new(alloc, plan);
    if !are_at_marks(plan.commits) {
        return Ok(rig);
    }
    let marked = take_marked(alloc, plan, bytes, records)?;
    write_commits(out, plan.style, &marked.faults)?;
    rig.wait_for(marked);
    Ok(rig)
}

/// The same of any trace, also of one without a point.
fn judge_records<K: Keeper, O: Write>(
    alloc: Global,
    plan: Plan,
    bytes: &[u8],
    keeper: &mut K,
    out: &mut O,
) -> Result<Tally, Refusal>
    ensures judged { IfOk result (λ tally. (lines : List ℕ) × IsJudgment plan bytes.now tally lines
        × Appends (O.contents out.old) (O.contents out.new) lines) }
    ensures refused { IfErr result (IsRefusal plan bytes.now) }
    ensures unread { IfErr result (λ refusal. MayWrite refusal (O.contents out.old) (O.contents out.new)) }
{
    let trace = Trace::read(alloc, bytes)?;
    let mut rig = begun(alloc, plan, bytes, trace.records.as_slice(), out)?;
    let mut told = 0;
    for call in &trace.records {
        let findings = rig.play(bytes, call, keeper)?;
        let next = write_findings(out, plan, rig.stopped(bytes, call), told, &findings)?;
        told = next;
    }
    write_left(out, plan.style, plan.lines, told)?;
    Ok(rig.tally())
}

/// The status where the words can't be read: 3 for want of memory, 2 where they aren't text.
pub(crate) fn unread<E: Write>(err: &mut E, error: &io::Error) -> u8
    ensures least { result ≤ 3 }
    ensures is { (result ≡ 2) ⊎ (result ≡ 3) }
    ensures memory { error_kind error.now ≡ OutOfMemory → result ≡ 3 }
{
    match error.kind() {
        io::ErrorKind::OutOfMemory => refused(err, &LineError::NoMemory),
        _ => printed(err, &"sqcrash: the words aren't text", NOT_UNDERSTOOD),
    }
}

fn line<W: Write, T: Display>(writer: &mut W, text: &T) -> io::Result<()> {
    writeln!(writer, "{text}")?;
    writer.flush()
}

/// The status, or 3 where the line can't be written.
fn printed<W: Write, T: Display>(writer: &mut W, text: &T, status: u8) -> u8
    requires { status ≤ 3 }
    ensures least { result ≤ 3 }
    ensures is { (result ≡ status) ⊎ (result ≡ 3) }
{
    match line(writer, text) {
        Ok(()) => status,
        Err(_) => REFUSED,
    }
}

/// A refusal on standard error, or as an object on standard output.
fn refused_in<O: Write, E: Write>(out: &mut O, err: &mut E, style: Style, refusal: &Refusal) -> u8
    ensures status { result ≡ 3 }
    ensures lines { style ≡ Lines → O.contents out.new ≡ O.contents out.old }
{
    match style {
        Style::Lines => refused(err, refusal),
        Style::Json => printed(out, &format_args!("{{\"refused\":\"{refusal}\"}}"), REFUSED),
    }
}

fn refused<W: Write, T: Display>(err: &mut W, text: &T) -> u8
    ensures { result ≡ 3 }
{
    let _ = line(err, &format_args!("sqcrash: {text}"));
    REFUSED
}
