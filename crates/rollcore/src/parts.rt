//! The segments of a commit: what it changes is cut into parts, and one after another becomes durable and is put.
ghost use Rattle.std.specs.Prelude.{◌≡◌, ◌+◌, ◌*◌, ◌^◌, ◌<◌, ◌≤◌, ℕ, length, IfErr};
ghost use Rattle.crashdisk.specs.During.{During};
ghost use Rattle.rollcore.specs.internal.Committing.{PutsPart, PutsSegments, KeepsChanges};
ghost use Rattle.std.specs.Prelude.{MatchResult};
ghost use Rattle.sqjournal.specs.Header.{IsSector};
ghost use Rattle.rollcore.specs.Machine.{segments_of};
ghost use Rattle.rollcore.specs.internal.Commits.{IsReady};

use crate::error::RollError;
use crate::roll::SEGMENT_RECORDS;
use crate::segments::{Head, put_segment};
use crate::state::Core;
use crashdisk::Disk;
use sqjournal::JournalHeader;

/// How many segments so many records take: one at least.
pub(crate) fn count_segments(records: usize) -> usize
    ensures { result ≡ segments_of records }
{
    records.div_ceil(SEGMENT_RECORDS).max(1)
}

/// A part of a commit's changes, which becomes a segment of the journal.
#[derive(Clone, Copy)]
pub struct Part {
    /// Of the parts, from 0.
    pub number: usize,
    /// Of the segment's header in the journal.
    pub place: u64,
    /// From which the segment's sums begin.
    pub nonce: u32,
}

/// Makes a segment durable by its nonce, and then puts its pages. The place of the next header.
fn put_part<D: Disk>(
    disk: &mut D,
    core: &mut Core,
    pages: &[(u32, &[u8])],
    sector: u32,
    part: Part,
) -> Result<u64, RollError>
    requires ready { (n nonces : ℕ) × IsReady pages.now n nonces core.old }
    requires part { (part.number < segments_of (length core.old.changes.items)) × (part.place ≤ 2 ^ 38) }
    requires sector { IsSector sector }
    ensures disk { During D.keeps_word D.state disk.old disk.new (PutsPart core.old pages.now sector part result) }
    ensures answer { MatchResult result (λ next. next ≤ part.place + 2 ^ 23) (λ e. e ≡ RollError.Device) }
    ensures core { KeepsChanges core.old core.new }
{
    let from = part.number * SEGMENT_RECORDS;
    let to = core.changes.len().min(from + SEGMENT_RECORDS);
    let header = JournalHeader {
        count: (to - from) as u32,
        nonce: part.nonce,
        first_size: core.size,
        sector,
        page_size: core.page_size,
    };
    let head = Head {
        place: part.place,
        header,
    };
    put_segment(
        disk,
        &mut core.record,
        &mut core.header,
        &core.changes[from..to],
        pages,
        &head,
    )
}

/// Makes the segments durable one after another, each with its pages. Segment `k` takes nonce `k`.
pub(crate) fn put_segments<D: Disk>(
    disk: &mut D,
    core: &mut Core,
    pages: &[(u32, &[u8])],
    nonces: &[u32],
    sector: u32,
) -> Result<(), RollError>
    requires ready { (n : ℕ) × IsReady pages.now n (length nonces.now) core.old }
    requires sector { IsSector sector }
    ensures disk { During D.keeps_word D.state disk.old disk.new
        (PutsSegments core.old pages.now nonces.now sector result) }
    ensures error { IfErr result (λ e. e ≡ RollError.Device) }
    ensures core { KeepsChanges core.old core.new }
{
    let mut place = 0;
    for k in 0..count_segments(core.changes.len()) {
        let part = Part {
            number: k,
            place,
            nonce: nonces[k],
        };
        place = put_part(disk, core, pages, sector, part)?;
    }
    Ok(())
}
