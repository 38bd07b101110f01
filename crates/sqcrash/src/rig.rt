//! A trace is played, and what crashes may leave at its points is judged (own).
ghost use Rattle.std.specs.Prelude.{◌≡◌, ◌≢◌};
ghost use Rattle.rand_pcg.specs.Lcg.{started, increment_of};
ghost use Rattle.rand_pcg.specs.Pcg.{multiplier_64};
ghost use Rattle.sqcrash.specs.Rigs.{is_point, is_of_part};

use crate::finding::Finding;
use crate::keep::Keeper;
use crate::marked::Marked;
use crate::outcome::{Refusal, more};
use crate::plan::{Part, Plan};
use crate::run::Run;
use crate::stopped::Stopped;
use crate::survey::{Tally, judge_images};
use rand_pcg::Pcg32;
use rig_families::Prefixes;
use rig_play::{Kind, Record};
use std::alloc::Global;

/// A run that is being played and judged.
#[derive(Drop)]
pub struct Rig {
    alloc: Global,
    plan: Plan,
    rng: Pcg32,
    run: Run,
    /// The versions of its files behind its last calls.
    prefixes: Prefixes,
    tally: Tally,
    /// The number of the last point, counted from 1; 0 before the first.
    point: u64,
}

/// Whether a crash is judged behind a record.
fn is_point(every: bool, call: &Record) -> bool
    ensures { result ≡ is_point every call.now }
{
    match call.kind {
        Kind::Mark => true,
        Kind::Base | Kind::Close | Kind::End => false,
        Kind::Open => every && call.place == 1,
        _ => every,
    }
}

/// Whether a point of this number, counted from 1, is of the part that is asked for, if one is.
fn is_of_part(part: Option<Part>, point: u64) -> bool
    ensures { result ≡ is_of_part part point }
{
    match part {
        Some(part) => point.saturating_sub(1) % part.of == part.number.saturating_sub(1),
        None => true,
    }
}

/// Where a part is asked for, the draws of a point begin anew, by its number, so that they are the same in each part.
fn begin_draws(plan: Plan, point: u64, rng: &mut Pcg32)
    ensures same { plan.part ≡ None → rng.new ≡ rng.old }
    ensures anew { plan.part ≢ None → rng.new ≡ started 64 multiplier_64 plan.seed (increment_of 64 point) }
{
    if plan.part.is_some() {
        *rng = Pcg32::new(plan.seed, point);
    }
}

impl Rig {
    ghost use Rattle.std.specs.Prelude.{◌≡◌, [], OnOk, IfOk, IfErr};
    ghost use Rattle.sqcrash.specs.Runs.{run_of};
    ghost use Rattle.sqcrash.specs.Surveys.{no_tally};
    ghost use Rattle.sqcrash.specs.Rigs.{rig_of, no_rig, marked_rig, stopped_at, Judges};
    ghost use Rattle.sqcrash.specs.Refused.{RigRefused};

    /// Nothing is played yet.
    pub fn new(alloc: Global, plan: Plan) -> Rig
        ensures run { run_of result.run ≡ (no_rig plan).run }
        ensures versions { result.prefixes.versions.items ≡ [] }
        ensures tally { result.tally ≡ no_tally }
        ensures point { result.point ≡ 0 }
        ensures plan { result.plan ≡ plan }
    {
        let mut run = Run::new(alloc, plan.promise, plan.sector, plan.tears, plan.meta);
        run.explain(plan.why, plan.shrink, plan.sector);
        Rig {
            alloc,
            plan,
            rng: Pcg32::new(plan.seed, 1),
            run,
            prefixes: Prefixes::new(alloc),
            tally: Tally::none(),
            point: 0,
        }
    }

    /// The commits are those at marks. Each that isn't well formed is counted as a fault.
    pub fn wait_for(&mut self, marked: Marked)
        ensures rig { rig_of self.new ≡ marked_rig (rig_of self.old) marked }
        ensures plan { self.new.plan ≡ self.old.plan }
    {
        self.tally.faults = marked.faults.len() as u64;
        self.run.wait_for(marked.commits);
    }

    /// What was counted so far.
    pub fn tally(&self) -> Tally
        ensures { result ≡ self.now.tally }
    {
        self.tally
    }

    /// Where the machine stops behind a record, which was played last.
    pub fn stopped(&self, trace: &[u8], call: &Record) -> Stopped
        ensures { result ≡ stopped_at trace.now call.now (rig_of self.now) }
    {
        Stopped {
            point: self.point,
            known: self.run.known(),
            number: self.run.played(),
            kind: call.kind,
            subject: call.subject,
            place: call.place,
            count: call.bytes(trace).len() as u64,
        }
    }

    /// Plays one record of its trace, and where it is a point that is asked for judges what a crash may leave there.
    /// Answers what is wrong, and gives those images to the keeper. Refused by Record, TooMany and NoMemory, and by
    /// what refuses the keeper, after which nothing is said of the run.
    pub fn play<K: Keeper>(
        &mut self,
        trace: &[u8],
        call: &Record,
        keeper: &mut K,
    ) -> Result<Vec<Finding>, Refusal>
        ensures judged { IfOk result
            (λ found. Judges self.old.plan trace.now call.now (rig_of self.old) (rig_of self.new) found.items) }
        ensures plan { OnOk result (self.new.plan ≡ self.old.plan) }
        ensures refused { IfErr result (RigRefused self.old.plan trace.now call.now (rig_of self.old)) }
    {
        self.run.play(trace, call)?;
        self.prefixes
            .note(self.alloc, self.run.player(), call.kind)?;
        if !is_point(self.plan.every, call) {
            return Ok(Vec::new(self.alloc));
        }
        let point = more(self.point)?;
        self.point = point;
        if !is_of_part(self.plan.part, point) {
            return Ok(Vec::new(self.alloc));
        }
        keeper.reach(point);
        begin_draws(self.plan, point, &mut self.rng);
        let found = judge_images(
            &self.run,
            self.plan.images,
            &self.prefixes,
            &mut self.rng,
            keeper,
            self.tally,
        )?;
        self.tally = found.tally;
        Ok(found.findings)
    }
}
