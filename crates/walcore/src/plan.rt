//! What a fold is going to do (own).
ghost use Rattle.std.specs.Prelude.{◌≡◌, ◌+◌, ◌≤◌, ℕ, List, IfOk, OnOk, OnErr};
ghost use Rattle.crashdisk.specs.During.{During};
ghost use Rattle.sqwal.specs.Took.{TookWithin};
ghost use Rattle.sqwal.specs.Header.{named_size, IsHeader};
ghost use Rattle.sqwal.specs.Frames.{IsValidFrame};
ghost use Rattle.walcore.specs.Plans.{IsTable};
ghost use Rattle.walcore.specs.internal.Plans.{wanted_page, HasRoom, JudgeAnswer, PlanAnswer, ReadAnswer};
ghost use Rattle.recovery.specs.Reading.{OnlyReads, OfLog};

use crate::error::WalError;
use crashdisk::Disk;
use recovery::scan_log;
use sqval::{Limits, PageSize};
use sqwal::{FrameIndex, Front, Scan};
use std::alloc::Global;

/// The most room beyond one page in which pages are copied, in bytes.
const RUN: usize = 196_608;

/// The committed frames of a log, the size of the database there in pages, the size of a page, the frames by their
/// pages, and room for some pages.
#[derive(Drop)]
pub struct Plan {
    pub frames: u32,
    pub size: u32,
    pub page_size: PageSize,
    pub index: FrameIndex,
    pub room: Vec<u8>,
}

/// Whether a log of pages of the named size is too large, or one of pages of another size.
fn judge_frames(
    scan: &Scan,
    named: PageSize,
    page_size: PageSize,
    limits: Limits,
) -> Result<Front, WalError>
    ensures { (w : List ℕ) → TookWithin limits.frames w scan.now → IsHeader named w
        → JudgeAnswer limits page_size w result }
{
    let front = scan.committed();
    if u64::from(front.size) * u64::from(named.get()) > limits.bytes() {
        return Err(WalError::TooLarge);
    }
    if named.get() != page_size.get() {
        return Err(WalError::PageSize);
    }
    Ok(front)
}

/// Whether the log is too large, or one of pages of another size.
fn judge(scan: &Scan, page_size: PageSize, limits: Limits) -> Result<Front, WalError>
    ensures { (w : List ℕ) → TookWithin limits.frames w scan.now → JudgeAnswer limits page_size w result }
{
    match scan.header() {
        Some(header) => judge_frames(scan, header.page_size, page_size, limits),
        None => Ok(scan.committed()),
    }
}

/// The page that a frame names, 0 where it is above the size.
fn wanted(scan: &Scan, frame: usize, size: u32) -> u32
    ensures bound { result ≤ size }
    ensures page { (most : ℕ) (w : List ℕ) → TookWithin most w scan.now → IsValidFrame (named_size w) w frame
        → result ≡ wanted_page (named_size w) size w frame }
{
    match scan.entry(frame) {
        Some(entry) => { if entry.page <= size { entry.page } else { 0 } }
        None => 0,
    }
}

/// Makes room for the frames of a log and the pages of its database.
pub fn grow(index: &mut FrameIndex, bound: u32, frames: u32) -> Result<(), WalError>
    ensures pages { index.new.pages ≡ index.old.pages }
    ensures bound { OnOk result (bound ≤ index.new.bound) }
    ensures room { OnOk result (frames ≤ index.new.room) }
    ensures wider { index.old.bound ≤ index.new.bound }
    ensures longer { index.old.room ≤ index.new.room }
    ensures memory { OnErr result (result ≡ Err WalError.NoMemory) }
{
    match index.grow(bound, frames) {
        Ok(()) => Ok(()),
        Err(_) => Err(WalError::NoMemory),
    }
}

/// The frames of a log up to its front by their pages (own). NoMemory alone.
pub fn index_of(alloc: Global, scan: &Scan, front: Front) -> Result<FrameIndex, WalError>
    ensures table { IfOk result (λ t. (most : ℕ) (w : List ℕ) → TookWithin most w scan.now
        → IsValidFrame (named_size w) w front.frames → IsTable (named_size w) front.size w front.frames t) }
    ensures memory { OnErr result (result ≡ Err WalError.NoMemory) }
{
    let mut index = FrameIndex::new(alloc);
    grow(&mut index, front.size, front.frames)?;
    for k in 0..front.frames {
        index.push(wanted(scan, k as usize + 1, front.size));
    }
    Ok(index)
}

/// With no committed frames there is nothing to do.
fn no_plan(alloc: Global, page_size: PageSize) -> Plan
    ensures frames { result.frames ≡ 0 }
    ensures size { result.size ≡ 0 }
{
    Plan {
        frames: 0,
        size: 0,
        page_size,
        index: FrameIndex::new(alloc),
        room: Vec::new(alloc),
    }
}

/// Judges the scanned log, and takes all memory that the fold needs.
fn plan_of(
    alloc: Global,
    scan: &Scan,
    page_size: PageSize,
    limits: Limits,
) -> Result<Plan, WalError>
    ensures plan { (w : List ℕ) → TookWithin limits.frames w scan.now → PlanAnswer limits page_size w result }
    ensures room { IfOk result HasRoom }
{
    let front = judge(scan, page_size, limits)?;
    if front.frames == 0 {
        return Ok(no_plan(alloc, page_size));
    }
    let index = index_of(alloc, scan, front)?;
    let page = page_size.get() as usize;
    let room = vec![in alloc; 0u8; page + RUN.min(front.frames as usize * page)]?;
    Ok(Plan {
        frames: front.frames,
        size: front.size,
        page_size,
        index,
        room,
    })
}

/// Reads the log, which has this many bytes, and judges it within these limits.
pub fn read_plan<D: Disk>(
    alloc: Global,
    disk: &mut D,
    long: u64,
    page_size: PageSize,
    limits: Limits,
) -> Result<Plan, WalError>
    ensures disk { During D.keeps_word D.state disk.old disk.new
        (OnlyReads WalError.Device result (OfLog long (λ w. ReadAnswer limits page_size w result))) }
    ensures room { IfOk result HasRoom }
{
    let scanned = scan_log(alloc, disk, Scan::within(alloc, limits), long)?;
    match scanned {
        Some(scan) => plan_of(alloc, &scan, page_size, limits),
        None => Ok(no_plan(alloc, page_size)),
    }
}
