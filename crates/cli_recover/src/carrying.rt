//! A plan that is carried out on a disk.
ghost use Rattle.std.specs.Prelude.{◌≡◌, IfErr, IfOk};
ghost use Rattle.crashdisk.specs.During.{During};
ghost use Rattle.cli_recover.specs.Engines.{CarriesOut, FoldsTo, ReplaysTo, answer_of_fold, answer_of_replay};
ghost use Rattle.cli_recover.specs.Engines.{IsOfFold, IsOfReplay, IsOutcomeOf, IsRefusalOf, IsUnfolded, IsUnreplayed};
ghost use Rattle.cli_recover.specs.Engines.{folded_as};

use crate::plans::Recovery;
use crate::refusals::{refusal_of_roll, refusal_of_wal};
use cli_facts::{Outcome, Refusal};
use crashdisk::Disk;
use rollcore::{Replayed, RollError, replay_within};
use sqval::{Limits, PageSize};
use std::alloc::Global;
use walcore::{Folded, WalError, fold_within};

/// Carries out a plan on a disk of the database file and the log that counts, within these limits: folds the log in
/// pages of the size that is planned, one without a valid header in the smallest, or replays the journal. Refused by
/// `TooLarge`, `PageSizesDiffer`, `NoMemory` and `FileFailed`.
pub fn carry_out<D: Disk>(
    alloc: Global,
    limits: Limits,
    plan: &Recovery,
    disk: &mut D,
) -> Result<Outcome, Refusal>
    ensures disk { During D.keeps_word D.state disk.old disk.new (CarriesOut limits plan.now result) }
    ensures outcome { IfOk result (IsOutcomeOf plan.now) }
    ensures refused { IfErr result (IsRefusalOf plan.now) }
{
    match plan {
        Recovery::Nothing => Ok(Outcome::Nothing),
        Recovery::Empty => fold(alloc, limits, smallest(), disk),
        Recovery::Fold(page_size, _) => fold(alloc, limits, *page_size, disk),
        Recovery::RollBack => roll_back(alloc, limits, disk),
    }
}

/// Folds the log of a disk by pages of this size.
fn fold<D: Disk>(
    alloc: Global,
    limits: Limits,
    page_size: PageSize,
    disk: &mut D,
) -> Result<Outcome, Refusal>
    ensures disk { During D.keeps_word D.state disk.old disk.new (FoldsTo limits page_size result) }
    ensures outcome { IfOk result IsOfFold }
    ensures refused { IfErr result IsUnfolded }
{
    answer_of_fold(fold_within(alloc, disk, page_size, limits))
}

/// Replays the journal of a disk.
fn roll_back<D: Disk>(alloc: Global, limits: Limits, disk: &mut D) -> Result<Outcome, Refusal>
    ensures disk { During D.keeps_word D.state disk.old disk.new (ReplaysTo limits result) }
    ensures outcome { IfOk result IsOfReplay }
    ensures refused { IfErr result IsUnreplayed }
{
    answer_of_replay(replay_within(alloc, disk, limits))
}

/// So many frames of a log, which came to so many pages of its database.
pub(crate) fn folded_as(frames: u32, pages: u32) -> Outcome
    ensures is { result ≡ folded_as frames pages }
    ensures outcome { IsOfFold result }
{
    match frames {
        0 => Outcome::NoFront,
        _ => Outcome::Folded { frames, pages },
    }
}

/// What a fold comes to.
fn answer_of_fold(folded: Result<Folded, WalError>) -> Result<Outcome, Refusal>
    ensures answer { result ≡ answer_of_fold folded }
    ensures outcome { IfOk result IsOfFold }
    ensures refused { IfErr result IsUnfolded }
{
    match folded {
        Ok(Folded { frames, size }) => Ok(folded_as(frames, size)),
        Err(error) => Err(refusal_of_wal(error)),
    }
}

/// What a replay comes to.
fn answer_of_replay(replayed: Result<Replayed, RollError>) -> Result<Outcome, Refusal>
    ensures answer { result ≡ answer_of_replay replayed }
    ensures outcome { IfOk result IsOfReplay }
    ensures refused { IfErr result IsUnreplayed }
{
    match replayed {
        Ok(replayed) if replayed.hot => Ok(Outcome::RolledBack {
            records: replayed.records,
            pages: replayed.size,
        }),
        Ok(_) => Ok(Outcome::Nothing),
        Err(error) => Err(refusal_of_roll(error)),
    }
}

/// By which pages a log without a valid header is folded: it has no frame.
fn smallest() -> PageSize
    ensures { result ≡ 512 }
{
    PageSize::new(512).unwrap()
}
