//! What a replay is going to do (own).
ghost use Rattle.std.specs.Prelude.{◌+◌, ◌*◌, ◌≤◌, ℕ, List, OnOk, IfOk, MatchOption};
ghost use Rattle.sqjournal.specs.Header.{Names};
ghost use Rattle.sqjournal.specs.Journal.{IsHot};
ghost use Rattle.rollcore.specs.internal.Plans.{IsSmall, IsPlanWithin, JudgeAnswer, PlanAnswer, ReadAnswer};
ghost use Rattle.rollcore.specs.internal.Steps.{HasRead};
ghost use Rattle.crashdisk.specs.During.{During};
ghost use Rattle.recovery.specs.Reading.{OnlyReads, OfLog};

use crate::error::RollError;
use crate::reading::scan_log;
use crashdisk::Disk;
use sqjournal::{JournalHeader, Replay};
use sqval::Limits;
use std::alloc::Global;

/// More room than for one page in which pages are copied, in bytes.
const RUN: usize = 196_608;

/// A scanned journal that is hot, its first header, and room for some pages.
#[derive(Drop)]
pub struct Plan {
    pub scan: Replay,
    pub header: JournalHeader,
    pub room: Vec<u8>,
}

/// Whether the database of a hot journal is above the limit, or sectors that tear, of this size, are larger than its
/// pages or the sectors that it names.
fn judge(header: &JournalHeader, limits: Limits, torn: usize) -> Result<(), RollError>
    ensures judged { (w : List ℕ) → IsHot w → Names w header.now → JudgeAnswer limits.bytes torn w result }
    ensures within { OnOk result (header.now.first_size * header.now.page_size ≤ limits.bytes) }
    ensures few { OnOk result (header.now.first_size * header.now.page_size ≤ 1099511627776) }
{
    let page_size = header.page_size.get();
    if u64::from(header.first_size) * u64::from(page_size) > limits.bytes() {
        return Err(RollError::TooLarge);
    }
    if (page_size as usize) < torn || (header.sector as usize) < torn {
        return Err(RollError::SectorAbovePage);
    }
    Ok(())
}

/// Judges the scanned journal, and takes all memory that its replay needs. None where it isn't hot.
fn plan_of(
    alloc: Global,
    scan: Replay,
    limits: Limits,
    torn: usize,
) -> Result<Option<Plan>, RollError>
    ensures plan { (w : List ℕ) → HasRead w scan → PlanAnswer limits.bytes torn w result }
    ensures within { IfOk result (λ o. MatchOption o (Unit {0}) (IsPlanWithin limits.bytes)) }
    ensures small { IfOk result (λ o. MatchOption o (Unit {0}) IsSmall) }
{
    let Some(header) = scan.first() else {
        return Ok(None);
    };
    judge(&header, limits, torn)?;
    let room = vec![in alloc; 0u8; header.page_size.get() as usize + RUN]?;
    Ok(Some(Plan { scan, header, room }))
}

/// Reads the journal, which has this many bytes, and judges it. None where it isn't hot.
pub fn read_plan<D: Disk>(
    alloc: Global,
    disk: &mut D,
    limits: Limits,
    long: u64,
    torn: usize,
) -> Result<Option<Plan>, RollError>
    ensures disk { During D.keeps_word D.state disk.old disk.new
        (OnlyReads RollError.Device result (OfLog long (λ w. ReadAnswer limits.bytes torn w result))) }
    ensures within { IfOk result (λ o. MatchOption o (Unit {0}) (IsPlanWithin limits.bytes)) }
    ensures small { IfOk result (λ o. MatchOption o (Unit {0}) IsSmall) }
{
    match scan_log(alloc, disk, long)? {
        Some(scan) => plan_of(alloc, scan, limits, torn),
        None => Ok(None),
    }
}
