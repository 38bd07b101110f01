//! What is shown of an image with something wrong: where that is asked for, it is shrunk first (own).
ghost use Rattle.std.specs.Prelude.{◌≡◌, Some, MatchResult};
ghost use Rattle.rig_shrink.specs.Shrunk.{IsShrunk};
ghost use Rattle.sqcrash.specs.Runs.{run_of};
ghost use Rattle.sqcrash.specs.Refusals.{IsOfMemory};
ghost use Rattle.sqcrash.specs.Surveys.{is_lost, is_mixed, is_fault, are_alike, IsFoundAs, Shows, ShowsBy, shown_of};

use crate::outcome::Refusal;
use crate::run::Run;
use crashdisk::DiskError;
use rig_images::Image;
use rig_judge::Judgment;
use rig_missing::SectorSize;
use rig_shrink::{Finder, shrink};

fn is_lost(judgment: Judgment) -> bool
    ensures { result ≡ is_lost judgment }
{
    match judgment {
        Judgment::Lost(_) => true,
        Judgment::Kept(_) | Judgment::Mixed | Judgment::Fault(_) | Judgment::Refused(_) => false,
    }
}

fn is_mixed(judgment: Judgment) -> bool
    ensures { result ≡ is_mixed judgment }
{
    match judgment {
        Judgment::Mixed => true,
        Judgment::Kept(_) | Judgment::Lost(_) | Judgment::Fault(_) | Judgment::Refused(_) => false,
    }
}

fn is_fault(judgment: Judgment) -> bool
    ensures { result ≡ is_fault judgment }
{
    match judgment {
        Judgment::Fault(_) | Judgment::Refused(_) => true,
        Judgment::Kept(_) | Judgment::Lost(_) | Judgment::Mixed => false,
    }
}

/// Whether two images are wrong in the same way.
fn are_alike(judgment: Judgment, other: Judgment) -> bool
    ensures { result ≡ are_alike judgment other }
{
    match judgment {
        Judgment::Kept(_) => false,
        Judgment::Lost(_) => is_lost(other),
        Judgment::Mixed => is_mixed(other),
        Judgment::Fault(_) | Judgment::Refused(_) => is_fault(other),
    }
}

/// What is found of an image of a run.
#[derive(Clone, Copy)]
struct Found<'a> {
    run: &'a Run,
    judgment: Judgment,
}

impl Finder for Found<'_> {
    ghost use Rattle.sqcrash.specs.Runs.{run_of};
    ghost use Rattle.sqcrash.specs.Surveys.{IsFoundAs};

    ghost says = { λ found image same. IsFoundAs (run_of found.run.now) found.judgment image same };

    fn finds(&self, image: &Image) -> Result<bool, DiskError> {
        match self.run.judge(image) {
            Ok(judgment) => Ok(are_alike(self.judgment, judgment)),
            Err(_) => Err(DiskError::NoMemory),
        }
    }
}

/// An image of a run that is judged so, shrunk.
fn shrunk(
    run: &Run,
    size: SectorSize,
    image: &Image,
    judgment: Judgment,
) -> Result<Option<Image>, Refusal>
    ensures { MatchResult result (λ shrunk. IsShrunk (IsFoundAs (run_of run.now) judgment) (run_of run.now).files
        size.bytes image.now (shown_of image.now shrunk)) IsOfMemory }
{
    let found = Found { run, judgment };
    let shrunk = shrink(run.alloc(), run.player(), size, &found, image)?;
    Ok(Some(shrunk))
}

/// The same where images are to be shrunk; none where they aren't.
fn shrunk_by(run: &Run, image: &Image, judgment: Judgment) -> Result<Option<Image>, Refusal>
    ensures { MatchResult result (λ shrunk. ShowsBy (run_of run.now).shrinks (run_of run.now) judgment image.now
        (shown_of image.now shrunk)) IsOfMemory }
{
    match run.shrinks() {
        Some(size) => shrunk(run, size, image, judgment),
        None => Ok(None),
    }
}

/// What an image that is judged so is shrunk to, where it is to be; none where nothing is wrong with it.
pub fn shrunk_in(run: &Run, image: &Image, judgment: Judgment) -> Result<Option<Image>, Refusal>
    ensures { MatchResult result (λ shrunk. Shows (run_of run.now) judgment image.now (shown_of image.now shrunk))
        IsOfMemory }
{
    match judgment {
        Judgment::Kept(_) => Ok(None),
        Judgment::Lost(_) | Judgment::Mixed | Judgment::Fault(_) | Judgment::Refused(_) => {
            shrunk_by(run, image, judgment)
        }
    }
}

/// What is shown of an image: what it is shrunk to, or itself.
pub fn shown_of<'a>(image: &'a Image, shrunk: &'a Option<Image>) -> &'a Image
    ensures { result.now ≡ shown_of image.now shrunk.now }
{
    match shrunk {
        Some(shrunk) => shrunk,
        None => image,
    }
}
