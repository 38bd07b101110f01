//! Images that are drawn at a point, each judged once (own).
ghost use Rattle.std.specs.Prelude.{◌≡◌, ◌<◌, ◌⊎◌, map, OnOk, IfErr, MatchResult};
ghost use Rattle.rig_images.specs.Torn.{NoneTears};
ghost use Rattle.sqcrash.specs.Runs.{run_of};
ghost use Rattle.rig_families.specs.Versions.{named_of};
ghost use Rattle.sqcrash.specs.Samples.{IsDrawing};
ghost use Rattle.sqcrash.specs.Surveys.{IsFixedScan, IsLogScan, IsDrawnSurvey, IsTornSurvey};
ghost use Rattle.sqcrash.specs.Refusals.{IsOfMemory, JudgingRefused};

use crate::keep::Keeper;
use crate::outcome::Refusal;
use crate::run::Run;
use crate::survey::Survey;
use rand_core::Rng;
use rig_families::{Families, Prefixes};
use rig_images::{Fixed, Image, Which, draw, draw_now, draw_torn, redraw};
use sqview::scan_log;
use sqwal::Scan;
use std::alloc::Global;
use std::collections::HashSet;

/// Which images were judged that were drawn by one rule, and how many more may be.
#[derive(Drop)]
struct Sample {
    /// The keys of those that were judged.
    keys: HashSet<u64>,
    left: u64,
}

impl Sample {
    ghost use Rattle.std.specs.Prelude.{◌≡◌, ◌↔◌, ◌≤◌, ℕ, false, nat_eq, IsTrue, OnOk};
    ghost use Rattle.sqcrash.specs.Runs.{run_of};
    ghost use Rattle.sqcrash.specs.Surveys.{IsScanOf};
    ghost use Rattle.std.specs.HashSet.{contains};
    ghost use Rattle.rig_images.specs.Keys.{key_of};
    ghost use Rattle.sqcrash.specs.Samples.{Takes, GoesOn};

    /// None yet, of so many.
    fn new(alloc: Global, limit: u64) -> Sample
        ensures keys { (q : ℕ) → contains nat_eq result.keys q ≡ false }
        ensures left { result.left ≡ limit }
    {
        Sample {
            keys: HashSet::new(alloc),
            left: limit,
        }
    }

    /// Whether there are enough.
    fn is_full(&self) -> bool
        ensures { IsTrue result ↔ (self.now.left ≡ 0) }
    {
        self.left == 0
    }

    /// Whether no more than this are left to be taken.
    fn is_down_to(&self, left: u64) -> bool
        ensures { IsTrue result ↔ (self.now.left ≤ left) }
    {
        self.left <= left
    }

    /// Takes an image, unless one of its key was taken before, or there are enough. Answers whether it did.
    fn takes(&mut self, image: &Image) -> Result<bool, Refusal>
        ensures { MatchResult result (λ taken. Takes (key_of image.now) taken self.old self.new) IsOfMemory }
    {
        if self.left == 0 {
            return Ok(false);
        }
        if !self.keys.insert(image.key())? {
            return Ok(false);
        }
        self.left -= 1;
        Ok(true)
    }

    /// Judges an image where it takes it, the scan of whose log is there or isn't.
    fn judge<K: Keeper>(
        &mut self,
        run: &Run,
        image: &Image,
        scan: &Option<Scan>,
        keeper: &mut K,
        survey: &mut Survey,
    ) -> Result<(), Refusal>
        ensures judged { IsScanOf image.now scan.now
            → OnOk result (GoesOn (run_of run.now) image.now self.old self.new survey.old survey.new) }
        ensures refused { IfErr result (JudgingRefused 1 survey.old) }
    {
        let taken = self.takes(image)?;
        if !taken {
            return Ok(());
        }
        survey.judge(run, image, scan, keeper)
    }
}

/// How often an image is drawn, where so many are wanted.
fn tries(limit: u64) -> u64
    ensures { 0 < limit → 0 < result }
{
    limit.saturating_mul(2)
}

/// The scan of the log of an image, where that is fixed and is a log.
fn fixed_scan(alloc: Global, fixed: Fixed, image: &Image) -> Option<Scan>
    ensures { IsFixedScan fixed image.now result }
{
    if !fixed.wal {
        return None;
    }
    let mut log = image.wal.as_slice();
    match scan_log(alloc, &mut log) {
        Ok(Ok(scan)) => Some(scan),
        _ => None,
    }
}

/// The present log, and its scan, where it is one.
#[derive(Drop)]
struct Log {
    bytes: Vec<u8>,
    scan: Option<Scan>,
}

/// The scan of a log, where it is one.
fn scan_of(alloc: Global, log: &[u8]) -> Option<Scan>
    ensures { IsLogScan log.now result }
{
    let mut source = log;
    match scan_log(alloc, &mut source) {
        Ok(Ok(scan)) => Some(scan),
        _ => None,
    }
}

impl Log {
    ghost use Rattle.std.specs.Prelude.{◌≡◌, IsTrue, OnOk, IfErr, MatchResult};
    ghost use Rattle.sqcrash.specs.Runs.{run_of};
    ghost use Rattle.sqcrash.specs.Samples.{GoesOn};
    ghost use Rattle.sqcrash.specs.Refusals.{IsOfMemory, JudgingRefused};
    ghost use Rattle.sqcrash.specs.Surveys.{IsLogScan};

    /// That of the present files, which it takes for this in place of an image.
    fn of(alloc: Global, run: &Run, image: &mut Image) -> Result<Log, Refusal>
        ensures { MatchResult result (λ log. IsLogScan log.bytes.items log.scan) IsOfMemory }
    {
        image.set_present(run.player())?;
        let bytes = Vec::from_slice(alloc, &image.wal)?;
        let scan = scan_of(alloc, &bytes);
        Ok(Log { bytes, scan })
    }

    /// Whether an image has it.
    fn is_of(&self, image: &Image) -> bool
        ensures { IsTrue result → image.now.wal.items ≡ self.now.bytes.items }
    {
        image.wal.as_slice() == self.bytes.as_slice()
    }

    /// Judges an image where a sample takes it.
    fn judge<K: Keeper>(
        &self,
        run: &Run,
        image: &Image,
        sample: &mut Sample,
        keeper: &mut K,
        survey: &mut Survey,
    ) -> Result<(), Refusal>
        ensures judged { IsLogScan self.now.bytes.items self.now.scan
            → OnOk result (GoesOn (run_of run.now) image.now sample.old sample.new survey.old survey.new) }
        ensures refused { IfErr result (JudgingRefused 1 survey.old) }
    {
        if self.is_of(image) {
            return sample.judge(run, image, &self.scan, keeper, survey);
        }
        sample.judge(run, image, &None, keeper, survey)
    }
}

/// Judges the likeliest images, no more than half of the limit: all up to a call is down and nothing later, or all but
/// one sector or one length. They begin a sample.
fn survey_likeliest<K: Keeper>(
    run: &Run,
    limit: u64,
    prefixes: &Prefixes,
    keeper: &mut K,
    survey: &mut Survey,
) -> Result<Sample, Refusal>
    ensures { MatchResult result (λ sample. IsDrawing (map (λ v. named_of v) prefixes.now.versions.items)
        (run_of run.now) limit survey.old sample survey.new) (JudgingRefused limit survey.old) }
{
    let alloc = run.alloc();
    let mut image = Image::none(alloc);
    let log = Log::of(alloc, run, &mut image)?;
    let player = run.player();
    let mut families = Families::of(alloc, player, prefixes)?;
    let count = families.count();
    let mut sample = Sample::new(alloc, limit);
    for n in 0..count {
        if sample.is_down_to(limit / 2) {
            return Ok(sample);
        }
        let made = families.put(alloc, player, n, &mut image)?;
        if !made {
            continue;
        }
        log.judge(run, &image, &mut sample, keeper, survey)?;
    }
    Ok(sample)
}

/// Judges the likeliest images, and then others that are drawn, where there is one epoch. The files that are fixed are
/// made once, and where the log is, it is scanned once.
pub fn survey_redrawn<R: Rng, K: Keeper>(
    run: &Run,
    limit: u64,
    prefixes: &Prefixes,
    rng: &mut R,
    keeper: &mut K,
    survey: &mut Survey,
) -> Result<(), Refusal>
    ensures { MatchResult result (λ done. IsDrawnSurvey (map (λ v. named_of v) prefixes.now.versions.items)
        (run_of run.now) limit survey.old survey.new)
        (JudgingRefused limit survey.old) }
{
    let alloc = run.alloc();
    let player = run.player();
    let fixed = Fixed::of(player);
    let mut image = Image::none(alloc);
    draw_now(alloc, rng, player, &mut image)?;
    let scan = fixed_scan(alloc, fixed, &image);
    let mut sample = survey_likeliest(run, limit, prefixes, keeper, survey)?;
    for n in 0..tries(limit) {
        if sample.is_full() {
            return Ok(());
        }
        sample.judge(run, &image, &scan, keeper, survey)?;
        redraw(alloc, rng, player, fixed, &mut image)?;
    }
    Ok(())
}

/// Judges the likeliest images, and then others that are drawn.
pub fn survey_drawn<R: Rng, K: Keeper>(
    run: &Run,
    limit: u64,
    prefixes: &Prefixes,
    rng: &mut R,
    keeper: &mut K,
    survey: &mut Survey,
) -> Result<(), Refusal>
    ensures { MatchResult result (λ done. IsDrawnSurvey (map (λ v. named_of v) prefixes.now.versions.items)
        (run_of run.now) limit survey.old survey.new)
        (JudgingRefused limit survey.old) }
{
    let alloc = run.alloc();
    let player = run.player();
    let mut image = Image::none(alloc);
    draw(alloc, rng, player, &mut image)?;
    let mut sample = survey_likeliest(run, limit, prefixes, keeper, survey)?;
    for n in 0..tries(limit) {
        if sample.is_full() {
            return Ok(());
        }
        sample.judge(run, &image, &None, keeper, survey)?;
        draw(alloc, rng, player, &mut image)?;
    }
    Ok(())
}

/// Judges images that are drawn with a torn sector of a file.
pub fn survey_torn<R: Rng, K: Keeper>(
    run: &Run,
    which: Which,
    limit: u64,
    rng: &mut R,
    keeper: &mut K,
    survey: &mut Survey,
) -> Result<(), Refusal>
    ensures { MatchResult result (λ done. IsTornSurvey (run_of run.now) which limit survey.old survey.new)
        (JudgingRefused limit survey.old) }
{
    let alloc = run.alloc();
    let player = run.player();
    let mut image = Image::none(alloc);
    if !draw_torn(alloc, rng, player, which, &mut image)? {
        return Ok(());
    }
    let mut sample = Sample::new(alloc, limit);
    for n in 0..tries(limit) {
        if sample.is_full() {
            return Ok(());
        }
        sample.judge(run, &image, &None, keeper, survey)?;
        draw_torn(alloc, rng, player, which, &mut image)?;
    }
    Ok(())
}
