//! A trace is judged from its beginning to its end (own).
ghost use Rattle.std.specs.Prelude.{◌<◌, ℕ, List, IfOk, IfErr};
ghost use Rattle.std.specs.Io.KnownBytes.{Appends};
ghost use Rattle.sqcrash_store.specs.Judged.{Judged, Keeps};
ghost use Rattle.sqcrash_store.specs.Refused.{TraceRefused};
ghost use Rattle.sqcrash_store.specs.Rigs.{IsJudgment};

use crate::asking::Judge;
use crate::outcome::Refusal;
use crate::plan::Plan;
use crate::printed::write_last;
use crate::rig::Rig;
use crate::states::{take_names, take_states};
use crate::survey::Bench;
use crate::tally::Tally;
use crate::verdict::are_alike;
use rig_store::Trace;
use std::alloc::Global;
use std::io::Write;

/// Judges a trace by a command, writes lines for each image with something wrong, and at the end what there was, and
/// hands over those images that are kept. Answers what there was, which is one point and one image or more. Refused by
/// NoPoints and NoImages if there is none, by Alike, Trace, Record, Name and TooMany, by FileFailed, NoAnswer and
/// Unwritten once the command is asked, and by NoMemory.
pub fn judge_trace<J: Judge, O: Write>(
    alloc: Global,
    plan: Plan,
    bytes: &[u8],
    judge: &mut J,
    out: &mut O,
) -> Result<Tally, Refusal>
    ensures judged { IfOk result (λ tally. (lines : List ℕ) × (kept : List Judged)
        × IsJudgment J.says plan bytes.now tally lines kept
        × Appends (O.contents out.old) (O.contents out.new) lines
        × Keeps (J.kept judge.old) (J.kept judge.new) kept) }
    ensures some { IfOk result (λ tally. 0 < tally.points) }
    ensures images { IfOk result (λ tally. 0 < tally.images) }
    ensures refused { IfErr result (TraceRefused J.says plan bytes.now) }
{
    let trace = Trace::read(alloc, bytes)?;
    let names = take_names(alloc, bytes, &trace.calls)?;
    let states = take_states(alloc, plan, bytes, &trace.calls, &names, judge)?;
    if are_alike(&states) {
        return Err(Refusal::Alike);
    }
    let bench = Bench {
        alloc,
        plan,
        trace: bytes,
        names: &names,
        states: &states,
    };
    let mut rig = Rig::new(&bench);
    for call in &trace.calls {
        rig.play(&bench, call, judge, out)?;
    }
    let tally = rig.tally();
    if tally.points == 0 {
        return Err(Refusal::NoPoints);
    }
    if tally.has_no_image() {
        return Err(Refusal::NoImages);
    }
    write_last(out, plan, tally)?;
    Ok(tally)
}
