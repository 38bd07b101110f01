//! The calls that aren't down in an image, and in which sectors (own).
ghost use Rattle.std.specs.Prelude.{◌≡◌, ◌↔◌, ◌⊎◌, ℕ, ◌+◌, ◌≤◌, ◌++◌, ◌∷◌, [], true, IsTrue, OnOk, IfOk};
ghost use Rattle.rig_missing.specs.Missing.{file_in, InRanges, IsOut, AreMissing};
ghost use Rattle.rig_missing.specs.internal.Telling.{Tells};

use crate::change::Change;
use crate::sectors::SectorSize;
use crate::there::none_leaves;
use rig_images::Image;
use rig_play::{Kind, Subject};
use std::alloc::{AllocError, AllocFailed, Global};

/// A call that isn't down in an image.
#[derive(Drop)]
pub struct Missing {
    /// The number of its record in the trace, counted from 1.
    pub number: u64,
    /// A making, a write, a truncation or an unlinking.
    pub kind: Kind,
    /// The file.
    pub subject: Subject,
    /// Where in the file a write begins, or the length that a truncation gives.
    pub place: u64,
    /// How many bytes are written.
    pub count: u64,
    /// The sectors of the file in which it isn't down, in ranges from a first one to a last one.
    pub sectors: Vec<(u64, u64)>,
}

/// The bytes of a file in an image.
pub fn file_in(subject: Subject, image: &Image) -> &[u8]
    ensures { result.now ≡ file_in subject image.now }
{
    match subject {
        Subject::Db => &image.db,
        Subject::Wal => &image.wal,
        Subject::Journal => &image.journal,
        _ => &[],
    }
}

/// Whether a sector is the next one behind a range.
fn follows(range: (u64, u64), k: u64) -> bool
    ensures { result ≡ true → (range.0 ≤ k) × (k ≡ range.1 + 1) }
{
    range.0 <= k && range.1 < k && k - range.1 == 1
}

/// One sector more, behind a range that comes behind others.
fn add_behind(
    ranges: &mut Vec<(u64, u64)>,
    range: (u64, u64),
    k: u64,
) -> Result<(), AllocFailed<(u64, u64)>>
    ensures { OnOk result ((j : ℕ) → InRanges ranges.new.items j
        ↔ (InRanges (ranges.old.items ++ range ∷ []) j ⊎ (j ≡ k))) }
{
    if follows(range, k) {
        ranges.push((range.0, k))?;
        return Ok(());
    }
    ranges.push(range)?;
    ranges.push((k, k))?;
    Ok(())
}

/// One sector more, behind the others.
fn add(ranges: &mut Vec<(u64, u64)>, k: u64) -> Result<(), AllocFailed<(u64, u64)>>
    ensures { OnOk result ((j : ℕ) → InRanges ranges.new.items j ↔ (InRanges ranges.old.items j ⊎ (j ≡ k))) }
{
    match ranges.pop() {
        Some(range) => add_behind(ranges, range, k),
        None => ranges.push((k, k)),
    }
}

/// One sector more, where it is out.
fn add_if(ranges: &mut Vec<(u64, u64)>, is_out: bool, k: u64) -> Result<(), AllocFailed<(u64, u64)>>
    ensures { OnOk result ((j : ℕ) → InRanges ranges.new.items j
        ↔ (InRanges ranges.old.items j ⊎ (IsTrue is_out × (j ≡ k)))) }
{
    if !is_out {
        return Ok(());
    }
    add(ranges, k)
}

/// The sectors of a file in which a call isn't down, where these are that call and the later ones.
fn sectors_out(
    alloc: Global,
    size: SectorSize,
    bytes: &[u8],
    change: &Change,
    later: &[Change],
) -> Result<Vec<(u64, u64)>, AllocError>
    ensures { IfOk result (λ ranges. (k : ℕ) → InRanges ranges.items k
        ↔ IsOut size.bytes bytes.now change.now later.now k) }
{
    let mut ranges = Vec::new(alloc);
    let first = change.first(size);
    let stop = change.stop(size).max(first);
    for k in first..stop {
        let is_out = none_leaves(later, size, change.subject, bytes, k);
        add_if(&mut ranges, is_out, k)?;
    }
    Ok(ranges)
}

/// Tells of a call that isn't down in these sectors, behind others, unless there are none.
fn tell(
    found: &mut Vec<Missing>,
    change: &Change,
    sectors: Vec<(u64, u64)>,
) -> Result<(), AllocFailed<Missing>>
    ensures { OnOk result (Tells change.now sectors.items found.old.items found.new.items) }
{
    if sectors.len() == 0 {
        return Ok(());
    }
    found.push(Missing {
        number: change.number,
        kind: change.kind,
        subject: change.subject,
        place: change.place,
        count: change.count,
        sectors,
    })?;
    Ok(())
}

/// Of these calls, in their order, each that isn't down in an image, and in which sectors. AllocError for want of
/// memory (own).
pub fn missing_calls(
    alloc: Global,
    size: SectorSize,
    changes: &[Change],
    image: &Image,
) -> Result<Vec<Missing>, AllocError>
    ensures { IfOk result (λ found. AreMissing size.bytes image.now changes.now found.items) }
{
    let mut found = Vec::new(alloc);
    for j in 0..changes.len() {
        let change = &changes[j];
        let bytes = file_in(change.subject, image);
        let sectors = sectors_out(alloc, size, bytes, change, &changes[j..])?;
        tell(&mut found, change, sectors)?;
    }
    Ok(found)
}
