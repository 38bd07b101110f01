//! The calls of records that change what a file holds, and what each left there (own).
ghost use Rattle.std.specs.Prelude.{◌≡◌, ◌+◌, ◌-◌, ◌*◌, ◌/◌, ◌≤◌, ◌<◌, ◌^◌, take, drop, nat_le, IfOk};
ghost use Rattle.rig_missing.specs.Changes.{from_by, to_by, may_change, is_change, ChangeAnswer};

use crate::change::Change;
use crate::playing::Playing;
use crate::sectors::SectorSize;
use rig_play::{Kind, Record};
use std::alloc::{AllocError, Global};

/// The most bytes of a file.
const LONGEST: u64 = 1 << 40;

/// The first place in the file that a call writes, or from which on it takes away what is there.
fn from_by(kind: Kind, place: u64) -> u64
    ensures { result ≡ from_by kind place }
{
    match kind {
        Kind::Write | Kind::Cut => place,
        _ => 0,
    }
}

/// The place behind the last one, in a file that was so long.
fn to_by(kind: Kind, place: u64, count: u64, was: u64) -> u64
    requires below { place + count ≤ 2 ^ 40 }
    requires room { was < 2 ^ 63 }
    ensures is { result ≡ to_by kind place count was }
    ensures room { result < 2 ^ 63 }
{
    match kind {
        Kind::Write => place + count,
        _ => was,
    }
}

/// Whether a record is that of a making, a write, a truncation or an unlinking.
fn may_change(kind: Kind, place: u64) -> bool
    ensures { result ≡ may_change kind place }
{
    match kind {
        Kind::Write | Kind::Cut | Kind::Unlink => true,
        Kind::Open => place == 1,
        _ => false,
    }
}

/// Whether a call stays below the most bytes of a file.
fn is_within(place: u64, count: u64) -> bool
    ensures { result ≡ nat_le (place + count) (2 ^ 40) }
{
    place <= LONGEST && count <= LONGEST - place
}

/// Whether a record is that of a call that changes a file: it didn't fail, and stays below the most bytes of a file.
fn is_change(call: &Record, count: u64) -> bool
    ensures { result ≡ is_change call.now count }
{
    may_change(call.kind, call.place) && !call.has_failed() && is_within(call.place, count)
}

/// What a file has from the first sector on of these places, to the last one or further.
fn left_between(size: SectorSize, from: u64, to: u64, present: &[u8]) -> &[u8]
    requires { to < 2 ^ 63 }
    ensures { result.now ≡ take (to - from + 2 * size.bytes) (drop (from / size.bytes * size.bytes) present.now) }
{
    let start = (from / size.bytes * size.bytes).min(present.len() as u64) as usize;
    let rest = &present[start..];
    let most = to.saturating_sub(from) + 2 * size.bytes;
    &rest[..most.min(rest.len() as u64) as usize]
}

/// The call of a record that is played, where it changes what a file holds. Behind it the file has these bytes.
/// AllocError for want of memory (own).
pub fn change_of(
    alloc: Global,
    size: SectorSize,
    call: &Record,
    playing: Playing,
    present: &[u8],
) -> Result<Option<Change>, AllocError>
    ensures { IfOk result (ChangeAnswer size.bytes call.now playing present.now) }
{
    if !is_change(call, playing.count) {
        return Ok(None);
    }
    let from = from_by(call.kind, call.place);
    let to = to_by(call.kind, call.place, playing.count, playing.was);
    let left = Vec::from_slice(alloc, left_between(size, from, to, present))?;
    Ok(Some(Change {
        number: playing.number,
        kind: call.kind,
        subject: call.subject,
        place: call.place,
        count: playing.count,
        from,
        to,
        left,
    }))
}
