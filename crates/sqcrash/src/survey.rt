//! The images of a point are judged, counted and told (own).
ghost use Rattle.std.specs.Prelude.{◌≡◌, ◌+◌, OnOk, IfOk, IfErr, MatchResult, map};
ghost use Rattle.rig_families.specs.Versions.{named_of};
ghost use Rattle.rig_images.specs.Images.{AreCounts};
ghost use Rattle.sqcrash.specs.Runs.{run_of};
ghost use Rattle.sqcrash.specs.Surveys.{IsNumberedSurvey, IsDrawnSurvey, IsUntornSurvey, IsSurvey, third_of};
ghost use Rattle.sqcrash.specs.Surveys.{Shows, ExplainsWrong};
ghost use Rattle.sqcrash.specs.Keeping.{Keeps, kept_of};
ghost use Rattle.sqcrash.specs.Refusals.{IsOfMemory, IsOfFiles, JudgingRefused, SurveyRefused};

use crate::finding::Finding;
use crate::keep::Keeper;
use crate::outcome::{Refusal, more};
use crate::run::Run;
use crate::sample::{survey_drawn, survey_redrawn, survey_torn};
use crate::shown::{shown_of, shrunk_in};
use rand_core::Rng;
use rig_families::Prefixes;
use rig_images::{Counts, Image, Which};
use rig_judge::Judgment;
use rig_missing::Missing;
use sqwal::Scan;
use std::alloc::Global;

/// How many points and images there were, and of these how many with something wrong.
#[derive(Clone, Copy, Debug, PartialEq, Eq)]
pub struct Tally {
    pub points: u64,
    pub images: u64,
    /// A commit that was known to be durable is gone.
    pub lost: u64,
    /// A database that no commit had.
    pub mixed: u64,
    /// One that isn't well formed either, or none.
    pub faults: u64,
}

/// A third, and one where that leaves something.
fn third_of(limit: u64) -> u64
    ensures { result ≡ third_of limit }
{
    limit / 3 + u64::from(limit % 3 > 0)
}

impl Tally {
    ghost use Rattle.std.specs.Prelude.{◌≡◌, ◌↔◌, IsTrue, MatchResult};
    ghost use Rattle.sqcrash.specs.Surveys.{no_tally, with_point, with_image, IsClean};
    ghost use Rattle.sqcrash.specs.Refusals.{IsTooMany, HasRoom};
    ghost use Rattle.sqcrash.specs.declared.outcome.Refusal.TheVariants.{TooMany};

    /// None.
    pub fn none() -> Tally
        ensures { result ≡ no_tally }
    {
        Tally {
            points: 0,
            images: 0,
            lost: 0,
            mixed: 0,
            faults: 0,
        }
    }

    /// Whether nothing is wrong.
    pub fn is_clean(&self) -> bool
        ensures { IsTrue result ↔ IsClean self.now }
    {
        self.lost == 0 && self.mixed == 0 && self.faults == 0
    }

    /// With one more point.
    fn with_point(mut self) -> Result<Tally, Refusal>
        ensures { MatchResult result (λ t. t ≡ with_point self) (IsTooMany self.points) }
    {
        self.points = more(self.points)?;
        Ok(self)
    }

    /// With one more image, which is judged so.
    fn with_image(mut self, judgment: &Judgment) -> Result<Tally, Refusal>
        ensures { MatchResult result (λ t. t ≡ with_image self judgment.now)
            (λ refusal. (refusal ≡ TooMany) × ¬ HasRoom 1 self) }
    {
        self.images = more(self.images)?;
        match judgment {
            Judgment::Kept(_) => {}
            Judgment::Lost(_) => self.lost = more(self.lost)?,
            Judgment::Mixed => self.mixed = more(self.mixed)?,
            Judgment::Fault(_) | Judgment::Refused(_) => self.faults = more(self.faults)?,
        }
        Ok(self)
    }
}

/// What was found at a point so far.
#[derive(Drop)]
pub struct Survey {
    /// With the points before it.
    pub tally: Tally,
    /// In the order of the images.
    pub findings: Vec<Finding>,
    /// The number of the next image at the point.
    pub next: u64,
}

impl Survey {
    ghost use Rattle.std.specs.Prelude.{◌≡◌, ◌+◌, ◌++◌, OnOk, IfErr, MatchResult};
    ghost use Rattle.sqcrash.specs.Refusals.{IsTooMany, JudgingRefused};
    ghost use Rattle.sqcrash.specs.Runs.{run_of};
    ghost use Rattle.sqcrash.specs.Surveys.{IsScanOf, IsBegun};
    ghost use Rattle.sqcrash.specs.Keeping.{KeepsWrong};
    ghost use Rattle.sqcrash.specs.Samples.{Adds, TakesOne};

    /// At the next point.
    fn new(alloc: Global, before: Tally) -> Result<Survey, Refusal>
        ensures { MatchResult result (IsBegun before) (IsTooMany before.points) }
    {
        Ok(Survey {
            tally: before.with_point()?,
            findings: Vec::new(alloc),
            next: 0,
        })
    }

    /// Counts an image, and keeps what is wrong with it, and which calls aren't down in it.
    fn add(&mut self, judgment: Judgment, missing: Vec<Missing>) -> Result<(), Refusal>
        ensures { MatchResult result (λ done. Adds judgment missing.items self.old self.new)
            (JudgingRefused 1 self.old) }
    {
        self.tally = self.tally.with_image(&judgment)?;
        let image = self.next;
        self.next = more(image)?;
        if !matches!(judgment, Judgment::Kept(_)) {
            self.findings.push(Finding::new(image, judgment, missing))?;
        }
        Ok(())
    }

    /// Judges one image more of a run, the scan of whose log is there or isn't. Where something is wrong with it, what
    /// is shown of it goes to the keeper.
    pub fn judge<K: Keeper>(
        &mut self,
        run: &Run,
        image: &Image,
        scan: &Option<Scan>,
        keeper: &mut K,
    ) -> Result<(), Refusal>
        ensures judged { IsScanOf image.now scan.now
            → OnOk result (TakesOne (run_of run.now) image.now self.old self.new) }
        ensures kept { IsScanOf image.now scan.now → OnOk result
            (KeepsWrong (run_of run.now) image.now self.old.next (K.kept keeper.old) (K.kept keeper.new)) }
        ensures refused { IfErr result (JudgingRefused 1 self.old) }
    {
        let judgment = run.judge_scanned(image, scan)?;
        let shrunk = shrunk_in(run, image, judgment)?;
        let shown = shown_of(image, &shrunk);
        let missing = missing_in(run, image, shown, judgment)?;
        let number = self.next;
        self.add(judgment, missing)?;
        keep_wrong(keeper, number, shown, judgment)?;
        Ok(())
    }
}

/// The calls that aren't down in what is shown of an image, where something is wrong with it, and these are to be told.
fn missing_in(
    run: &Run,
    image: &Image,
    shown: &Image,
    judgment: Judgment,
) -> Result<Vec<Missing>, Refusal>
    ensures explained { Shows (run_of run.now) judgment image.now shown.now
        → IfOk result (λ found. ExplainsWrong (run_of run.now) image.now judgment found.items) }
    ensures memory { IfErr result IsOfMemory }
{
    match judgment {
        Judgment::Kept(_) => Ok(Vec::new(run.alloc())),
        _ => run.missing(shown),
    }
}

/// Gives an image to the keeper where something is wrong with it.
fn keep_wrong<K: Keeper>(
    keeper: &mut K,
    number: u64,
    image: &Image,
    judgment: Judgment,
) -> Result<(), Refusal>
    ensures kept { OnOk result (Keeps (K.kept keeper.old) (K.kept keeper.new) (kept_of number judgment image.now)) }
    ensures refused { IfErr result IsOfFiles }
{
    match judgment {
        Judgment::Kept(_) => Ok(()),
        _ => keeper.keep(number, image),
    }
}

/// Judges all images, by their numbers.
fn survey_numbered<K: Keeper>(
    run: &Run,
    counts: &Counts,
    keeper: &mut K,
    survey: &mut Survey,
) -> Result<(), Refusal>
    requires { AreCounts (run_of run.now).files counts.now }
    ensures { MatchResult result (λ done. IsNumberedSurvey (run_of run.now) survey.old survey.new)
        (JudgingRefused counts.now.images survey.old) }
{
    let mut image = Image::none(run.alloc());
    for n in 0..counts.images() {
        image.set(run.player(), counts, n)?;
        survey.judge(run, &image, &None, keeper)?;
    }
    Ok(())
}

/// Judges the likeliest images, and then others that are drawn, by what is quicker.
fn survey_some<R: Rng, K: Keeper>(
    run: &Run,
    limit: u64,
    prefixes: &Prefixes,
    rng: &mut R,
    keeper: &mut K,
    survey: &mut Survey,
) -> Result<(), Refusal>
    ensures { MatchResult result (λ done. IsDrawnSurvey (map (λ v. named_of v) prefixes.now.versions.items)
        (run_of run.now) limit survey.old survey.new)
        (JudgingRefused limit survey.old) }
{
    if run.player().earlier().is_empty() {
        survey_redrawn(run, limit, prefixes, rng, keeper, survey)
    } else {
        survey_drawn(run, limit, prefixes, rng, keeper, survey)
    }
}

/// Judges what a crash may leave of a run without a torn sector.
fn survey_untorn<R: Rng, K: Keeper>(
    run: &Run,
    limit: u64,
    prefixes: &Prefixes,
    rng: &mut R,
    keeper: &mut K,
    survey: &mut Survey,
) -> Result<(), Refusal>
    ensures { MatchResult result (λ done. IsUntornSurvey (map (λ v. named_of v) prefixes.now.versions.items)
        (run_of run.now) limit survey.old survey.new)
        (JudgingRefused limit survey.old) }
{
    match Counts::of(run.alloc(), run.player(), limit)? {
        Some(counts) => survey_numbered(run, &counts, keeper, survey),
        None => survey_some(run, limit, prefixes, rng, keeper, survey),
    }
}

/// Judges what a crash may leave of a run now: all images that aren't torn, where they are no more than the limit,
/// otherwise so many, first the likeliest, at most half of them, and then some that are drawn; and of each file that
/// may be torn a third as many that are drawn so. What was counted before is counted on. Images with something wrong go
/// to the keeper. Refused by NoMemory, by TooMany where a count would pass 18,446,744,073,709,551,615, and by what
/// refuses the keeper.
pub fn judge_images<R: Rng, K: Keeper>(
    run: &Run,
    limit: u64,
    prefixes: &Prefixes,
    rng: &mut R,
    keeper: &mut K,
    before: Tally,
) -> Result<Survey, Refusal>
    ensures { MatchResult result (IsSurvey (map (λ v. named_of v) prefixes.now.versions.items)
        (run_of run.now) limit before) (SurveyRefused limit before) }
{
    let mut survey = Survey::new(run.alloc(), before)?;
    survey_untorn(run, limit, prefixes, rng, keeper, &mut survey)?;
    let third = third_of(limit);
    survey_torn(run, Which::Db, third, rng, keeper, &mut survey)?;
    survey_torn(run, Which::Wal, third, rng, keeper, &mut survey)?;
    survey_torn(run, Which::Journal, third, rng, keeper, &mut survey)?;
    Ok(survey)
}
