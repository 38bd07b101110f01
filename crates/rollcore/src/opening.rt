//! The opening of an engine: a hot journal is replayed, and none is left that could become hot.
ghost use Rattle.std.specs.Prelude.{◌≡◌, ◌+◌, ◌≤◌, ◌*◌, ℕ, List, length, OnOk, IfOk, IfErr, MatchResult};
ghost use Rattle.crashdisk.specs.internal.Keeps.{SyncStep};
ghost use Rattle.rollcore.specs.internal.Plans.{IsPlan};
ghost use Rattle.crashdisk.specs.During.{During};
ghost use Rattle.crashdisk.specs.declared.file.File.TheVariants.{Log};
ghost use Rattle.rollcore.specs.internal.Reading.{CountsPages};
ghost use Rattle.rollcore.specs.Opening.{OpensCore};
ghost use Rattle.rollcore.specs.internal.Opening.{BreaksMagic, BreaksFront, RecoversSynced, Recovers};
ghost use Rattle.rollcore.specs.internal.Opening.{SizeJudged};
ghost use Rattle.rollcore.specs.internal.Opening.{IsNewCore};
ghost use Rattle.recovery.specs.Reading.{OnlyReads};

use crate::error::RollError;
use crate::plan::Plan;
use crate::replaying::{find_plan, replay_plan, sector_that_tears};
use crate::roll::{Refused, Roll};
use crate::state::Core;
use crashdisk::{Disk, File};
use recovery::MOST_BYTES;
use sqjournal::is_magic;
use sqval::{Limits, PageSize};
use std::alloc::Global;

/// How many pages the database file has: TooLarge where it is above the limit, else PageSize where that is no whole
/// number, or 0.
fn count_pages<D: Disk>(disk: &mut D, page_size: PageSize) -> Result<u32, RollError>
    ensures disk { During D.keeps_word D.state disk.old disk.new
        (OnlyReads RollError.Device result (CountsPages page_size result)) }
    ensures few { IfOk result (λ n. n * page_size ≤ 1073741824) }
{
    let long = disk.len(File::Db)?;
    let size = u64::from(page_size.get());
    if long > MOST_BYTES {
        return Err(RollError::TooLarge);
    }
    if long == 0 || long % size != 0 {
        return Err(RollError::PageSize);
    }
    Ok((long / size) as u32)
}

/// Whether a hot journal is one of pages of this size, of a database that has some.
fn judge_size(plan: &Plan, page_size: PageSize) -> Result<(), RollError>
    ensures judged { (w : List ℕ) → IsPlan w plan.now → SizeJudged page_size w result }
    ensures same { OnOk result (plan.now.header.page_size ≡ page_size) }
{
    if plan.header.page_size != page_size || plan.header.first_size == 0 {
        return Err(RollError::PageSize);
    }
    Ok(())
}

/// Where a header's magic stands at a place of the log, its first byte is made a zero. Whether one stood there.
pub(crate) fn break_magic<D: Disk>(disk: &mut D, at: u64) -> Result<bool, RollError>
    requires { at + 8 ≤ 1099511627776 }
    ensures disk { During D.keeps_word D.state disk.old disk.new (BreaksMagic at result) }
    ensures error { IfErr result (λ e. e ≡ RollError.Device) }
{
    let mut front = [0; 8];
    disk.read_at(File::Log, at, &mut front)?;
    if !is_magic(&front) {
        return Ok(false);
    }
    disk.write_at(File::Log, at, &[0])?;
    Ok(true)
}

/// Syncs the log.
pub(crate) fn sync_log<D: Disk>(disk: &mut D) -> Result<(), RollError>
    ensures disk { During D.keeps_word D.state disk.old disk.new (SyncStep RollError.Device Log result) }
    ensures error { IfErr result (λ e. e ≡ RollError.Device) }
{
    disk.sync(File::Log)?;
    Ok(())
}

/// Leaves no magic at the front of a log that isn't hot, so that no later write makes it hot.
fn break_front<D: Disk>(disk: &mut D) -> Result<(), RollError>
    ensures { During D.keeps_word D.state disk.old disk.new (BreaksFront result) }
{
    if break_magic(disk, 0)? {
        sync_log(disk)?;
    }
    Ok(())
}

/// Recovers from a log that is durable, and answers how many pages the database has.
fn recover_synced<D: Disk>(
    alloc: Global,
    disk: &mut D,
    page_size: PageSize,
) -> Result<u32, RollError>
    ensures disk { During D.keeps_word D.state disk.old disk.new (RecoversSynced page_size result) }
    ensures few { IfOk result (λ n. n * page_size ≤ 1073741824) }
{
    match find_plan(alloc, disk, Limits::USUAL)? {
        Some(plan) => {
            judge_size(&plan, page_size)?;
            let replayed = replay_plan(disk, plan)?;
            Ok(replayed.size)
        }
        None => {
            let pages = count_pages(disk, page_size)?;
            break_front(disk)?;
            Ok(pages)
        }
    }
}

/// The same, once the log is synced: what is read is what a crash leaves.
fn recover<D: Disk>(alloc: Global, disk: &mut D, page_size: PageSize) -> Result<u32, RollError>
    ensures disk { During D.keeps_word D.state disk.old disk.new (Recovers page_size result) }
    ensures few { IfOk result (λ n. n * page_size ≤ 1073741824) }
{
    sync_log(disk)?;
    recover_synced(alloc, disk, page_size)
}

/// A core over a database of so many pages.
fn new_core(alloc: Global, page_size: PageSize, size: u32, room: Vec<u8>, header: Vec<u8>) -> Core
    requires sized { (512 ≤ page_size) × (page_size ≤ 65536) }
    requires record { length room.items ≡ page_size + 8 }
    requires header { 512 ≤ length header.items }
    requires short { length header.items ≤ 65536 }
    requires few { size * page_size ≤ 1073741824 }
    ensures { IsNewCore page_size size (length header.items) result }
{
    Core {
        page_size,
        is_open: true,
        size,
        numbers: Vec::new(alloc),
        changes: Vec::new(alloc),
        record: room,
        header,
    }
}

/// What an opening leaves to hold.
fn open_core<D: Disk>(alloc: Global, disk: &mut D, page_size: PageSize) -> Result<Core, RollError>
    ensures { During D.keeps_word D.state disk.old disk.new (OpensCore page_size result) }
{
    let size = page_size.get() as usize;
    if size < sector_that_tears(disk) {
        return Err(RollError::SectorAbovePage);
    }
    let room = vec![in alloc; 0u8; size + 8]?;
    let header = vec![in alloc; 0u8; disk.sector()]?;
    let pages = recover(alloc, disk, page_size)?;
    Ok(new_core(alloc, page_size, pages, room, header))
}

impl<D: Disk> Roll<D> {
    /// Recovers what a crash, a failure or another engine left (own). Refused are, in this order, SectorAbovePage for
    /// the page size handed in, TooLarge, SectorAbovePage for a hot journal, PageSize; NoMemory or Device may stand in
    /// place of the last three.
    pub fn open(alloc: Global, disk: D, page_size: PageSize) -> Result<Roll<D>, Refused<D>>
        ensures { MatchResult result
            (λ roll. During D.keeps_word D.state disk roll.disk (OpensCore page_size (Ok roll.core)))
            (λ refused. During D.keeps_word D.state disk refused.disk (OpensCore page_size (Err refused.error))) }
    {
        let mut disk = disk;
        match open_core(alloc, &mut disk, page_size) {
            Ok(core) => Ok(Roll { disk, core }),
            Err(error) => Err(Refused { error, disk }),
        }
    }
}
