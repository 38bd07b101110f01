//! Recovery: a log is folded into its database (fileformat2, 4.3; what it answers is own).
ghost use Rattle.std.specs.Prelude.{◌≡◌, OnOk, OnErr};

use crate::copying::{copy_pages, finish};
use crate::error::WalError;
use crate::plan::{Plan, read_plan};
use crashdisk::{Disk, File};
use sqval::{Limits, PageSize};
use std::alloc::Global;

/// What a fold found: the number of committed frames, and the size of the database in pages there, 0 with no frame.
#[derive(Clone, Copy, Debug, PartialEq, Eq)]
pub struct Folded {
    /// 0 where nothing was folded.
    pub frames: u32,
    /// In pages.
    pub size: u32,
}

ghost use Rattle.crashdisk.specs.During.{During};
ghost use Rattle.crashdisk.specs.Keeps.{Suits, TearsPages};
ghost use Rattle.walcore.specs.internal.Plans.{HasRoom};
ghost use Rattle.walcore.specs.Copying.{FoldsSyncedWithin, FoldsSynced, FoldsFileWithin};
ghost use Rattle.walcore.specs.internal.Copying.{FoldsPlan, FoldsLong};
ghost use Rattle.walcore.specs.Copying.{FoldsFile};

/// On a disk that tears, a sector may hold no more than a page. SectorAbovePage alone.
pub fn judge_sector<D: Disk>(disk: &D, page_size: PageSize) -> Result<(), WalError>
    ensures suits { D.keeps_word disk.now → OnOk result (Suits page_size (D.state disk.now)) }
    ensures refused { D.keeps_word disk.now → OnErr result (TearsPages page_size (D.state disk.now)) }
    ensures error { OnErr result (result ≡ Err WalError.SectorAbovePage) }
{
    let sector = disk.sector();
    if disk.tears() && (page_size.get() as usize) < sector {
        return Err(WalError::SectorAbovePage);
    }
    Ok(())
}

/// Folds what is planned.
fn fold_plan<D: Disk>(disk: &mut D, plan: Plan) -> Result<Folded, WalError>
    requires { HasRoom plan }
    ensures { During D.keeps_word D.state disk.old disk.new (FoldsPlan plan result) }
{
    if plan.frames == 0 {
        finish(disk)?;
        return Ok(Folded { frames: 0, size: 0 });
    }
    let mut room = plan.room;
    let page = plan.page_size.get() as usize;
    copy_pages(disk, &plan.index, plan.frames, plan.size, page, &mut room)?;
    finish(disk)?;
    Ok(Folded {
        frames: plan.frames,
        size: plan.size,
    })
}

/// Folds a log of this many bytes.
fn fold_log<D: Disk>(
    alloc: Global,
    disk: &mut D,
    long: u64,
    page_size: PageSize,
    limits: Limits,
) -> Result<Folded, WalError>
    ensures { During D.keeps_word D.state disk.old disk.new (FoldsLong limits long page_size result) }
{
    let plan = read_plan(alloc, disk, long, page_size, limits)?;
    fold_plan(disk, plan)
}

/// Folds the log into the database as `fold_within` does, within `Limits::USUAL`: 1,073,741,824 bytes and 2,097,152
/// valid frames.
pub fn fold<D: Disk>(alloc: Global, disk: &mut D, page_size: PageSize) -> Result<Folded, WalError>
    ensures { During D.keeps_word D.state disk.old disk.new (FoldsFile page_size result) }
{
    fold_within(alloc, disk, page_size, Limits::USUAL)
}

/// Folds the log into the database within these limits, and empties it: writes each page of the database at the log's
/// front from the last committed frame that names it, sets the database's length, and once that is durable zeroes the
/// log's header and cuts the log to no bytes. With no committed frame the database's bytes stay. `page_size` must be
/// the one that the log's header names, and can be any where the log has no valid header.
///
/// Refused with, in this order, `SectorAbovePage` where a disk that tears has larger sectors than such a page,
/// `TooLarge` where the log has more valid frames than the limits allow or its front's database has more bytes, and
/// `PageSize` where the log's header names another page size; with `NoMemory`; and with `Device` where the disk
/// refused a call, either of which may stand in place of the last two. All but `Device` change no byte. After `Device`
/// the fold is to be called again.
pub fn fold_within<D: Disk>(
    alloc: Global,
    disk: &mut D,
    page_size: PageSize,
    limits: Limits,
) -> Result<Folded, WalError>
    ensures { During D.keeps_word D.state disk.old disk.new (FoldsFileWithin limits page_size result) }
{
    judge_sector(disk, page_size)?;
    disk.sync(File::Log)?;
    fold_synced_within(alloc, disk, page_size, limits)
}

/// What `fold` does once it has synced the log: a log of no bytes is left as it is. Refused as `fold` is.
pub fn fold_synced<D: Disk>(
    alloc: Global,
    disk: &mut D,
    page_size: PageSize,
) -> Result<Folded, WalError>
    ensures { During D.keeps_word D.state disk.old disk.new (FoldsSynced page_size result) }
{
    fold_synced_within(alloc, disk, page_size, Limits::USUAL)
}

/// The same within these limits.
fn fold_synced_within<D: Disk>(
    alloc: Global,
    disk: &mut D,
    page_size: PageSize,
    limits: Limits,
) -> Result<Folded, WalError>
    ensures { During D.keeps_word D.state disk.old disk.new (FoldsSyncedWithin limits page_size result) }
{
    judge_sector(disk, page_size)?;
    let long = disk.len(File::Log)?;
    if long == 0 {
        return Ok(Folded { frames: 0, size: 0 });
    }
    fold_log(alloc, disk, long, page_size, limits)
}
