//! Recovery: a hot journal is replayed into its database (fileformat2, 3; what it answers is own).
ghost use Rattle.std.specs.Prelude.{◌≡◌, IfOk, MatchOption};

use crate::copying::{copy_records, finish};
use crate::error::RollError;
use crate::plan::{Plan, read_plan};
use crashdisk::{Disk, File};
use sqval::Limits;
use std::alloc::Global;

/// What a replay found: whether the journal was hot, how many of its records passed, and the first size of the
/// database in pages. Both are 0 where it wasn't hot.
#[derive(Clone, Copy, Debug, PartialEq, Eq)]
pub struct Replayed {
    /// Whether anything was replayed.
    pub hot: bool,
    /// Of all segments, also those of pages above the first size.
    pub records: usize,
    /// In pages.
    pub size: u32,
}

ghost use Rattle.crashdisk.specs.State.{IsSectorSize};
ghost use Rattle.rollcore.specs.internal.Steps.{torn_sector};
ghost use Rattle.rollcore.specs.internal.Plans.{IsSmall, IsPlanWithin};
ghost use Rattle.crashdisk.specs.During.{During};
ghost use Rattle.rollcore.specs.internal.Reading.{FindsPlan};
ghost use Rattle.rollcore.specs.Copying.{ReplaysSynced, ReplaysSyncedWithin};
ghost use Rattle.rollcore.specs.internal.Copying.{ReplaysPlan};
ghost use Rattle.rollcore.specs.Copying.{ReplaysFile, ReplaysFileWithin};
ghost use Rattle.recovery.specs.Reading.{OnlyReads};

/// The size in bytes of a sector that may tear, 0 on a disk that doesn't tear.
pub(crate) fn sector_that_tears<D: Disk>(disk: &D) -> usize
    ensures sectors { D.keeps_word disk.now → IsSectorSize (D.state disk.now).sector }
    ensures value { D.keeps_word disk.now → result ≡ torn_sector (D.state disk.now) }
{
    let sector = disk.sector();
    if disk.tears() { sector } else { 0 }
}

/// Reads the journal and judges it. None where it isn't hot.
pub(crate) fn find_plan<D: Disk>(
    alloc: Global,
    disk: &mut D,
    limits: Limits,
) -> Result<Option<Plan>, RollError>
    ensures disk { During D.keeps_word D.state disk.old disk.new
        (OnlyReads RollError.Device result (FindsPlan limits.bytes result)) }
    ensures within { IfOk result (λ o. MatchOption o (Unit {0}) (IsPlanWithin limits.bytes)) }
    ensures small { IfOk result (λ o. MatchOption o (Unit {0}) IsSmall) }
{
    let torn = sector_that_tears(disk);
    let long = disk.len(File::Log)?;
    read_plan(alloc, disk, limits, long, torn)
}

/// Replays what is planned.
pub(crate) fn replay_plan<D: Disk>(disk: &mut D, plan: Plan) -> Result<Replayed, RollError>
    requires { IsSmall plan }
    ensures disk { During D.keeps_word D.state disk.old disk.new (ReplaysPlan plan result) }
    ensures size { IfOk result (λ r. r.size ≡ plan.header.first_size) }
{
    let Plan {
        scan,
        header,
        mut room,
    } = plan;
    let page = header.page_size.get() as usize;
    copy_records(disk, &scan, header.first_size, page, &mut room)?;
    finish(disk)?;
    Ok(Replayed {
        hot: true,
        records: scan.count(),
        size: header.first_size,
    })
}

/// Replays the journal into the database, where it is hot: writes the pages of its records up to the first size in
/// order, sets the database's length to the first size, and once that is durable zeroes the journal's first header.
///
/// Refused with, in this order, `TooLarge` where the first size is above 1,073,741,824 bytes or the journal above
/// 1,099,511,627,776, and `SectorAbovePage` where a disk that tears has larger sectors than the journal's pages or the
/// sectors that it names; with `NoMemory`; and with `Device` where the disk refused a call, either of which may stand
/// in place of these two. All but `Device` change no byte. After `Device` the replay is to be called again.
pub fn replay<D: Disk>(alloc: Global, disk: &mut D) -> Result<Replayed, RollError>
    ensures { During D.keeps_word D.state disk.old disk.new (ReplaysFile result) }
{
    replay_within(alloc, disk, Limits::USUAL)
}

/// The same into a database of no more bytes than these limits allow: refused with `TooLarge` where the first size is
/// above `limits.bytes()`, or the journal above 1,099,511,627,776 bytes; otherwise as `replay` is. The limit of frames
/// is of no account. The database that is there may have any length (fileformat2, 3; the limit is own).
pub fn replay_within<D: Disk>(
    alloc: Global,
    disk: &mut D,
    limits: Limits,
) -> Result<Replayed, RollError>
    ensures { During D.keeps_word D.state disk.old disk.new (ReplaysFileWithin limits.bytes result) }
{
    disk.sync(File::Log)?;
    replay_synced_within(alloc, disk, limits)
}

/// What a replay does once it has synced the log. Refused as `replay` is.
pub fn replay_synced<D: Disk>(alloc: Global, disk: &mut D) -> Result<Replayed, RollError>
    ensures { During D.keeps_word D.state disk.old disk.new (ReplaysSynced result) }
{
    replay_synced_within(alloc, disk, Limits::USUAL)
}

/// The same within these limits. Refused as `replay_within` is.
fn replay_synced_within<D: Disk>(
    alloc: Global,
    disk: &mut D,
    limits: Limits,
) -> Result<Replayed, RollError>
    ensures { During D.keeps_word D.state disk.old disk.new (ReplaysSyncedWithin limits.bytes result) }
{
    match find_plan(alloc, disk, limits)? {
        Some(plan) => replay_plan(disk, plan),
        None => Ok(Replayed {
            hot: false,
            records: 0,
            size: 0,
        }),
    }
}
