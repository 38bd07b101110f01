//! What the calls of a modelled disk do to one file.
ghost use Rattle.std.specs.Prelude.{◌≡◌, ◌↔◌, IsTrue, ◌<◌, ◌≤◌, ◌+◌, ◌^◌, [], ◌-◌, true, false, min, suc};
ghost use Rattle.std.specs.Prelude.{length, slice_index, OnOk, OnErr, IfOk, IfErr, ℕ, List, ◌++◌};
ghost use Rattle.crashdisk.specs.State.{byte, longest, IsSettled, IsSynced, IsShuffled};
ghost use Rattle.crashdisk.specs.Call.{counted};
ghost use Rattle.crashdisk.specs.Ending.{IsEnded};
ghost use Rattle.crashdisk.specs.Held.{file_of, IsHeld, IsTurned, picked};
ghost use Rattle.crashdisk.specs.internal.Held.{Stands, Suits};
ghost use Rattle.crashdisk.specs.Solid.{is_sector_size};
ghost use Rattle.crashdisk.specs.internal.Answer.{changing, writing, cutting, IsAnswered};
ghost use Rattle.crashdisk.specs.Refusal.{number_of};

use crate::error::DiskError;
use crate::held::{Change, Held, Part};
use std::alloc::Global;

/// A file may not end above it.
pub(crate) const LIMIT: u64 = 1_099_511_627_776;

/// How a change is carried out: whether the disk tears, whether the change fails, and what it leaves then.
#[derive(Clone, Copy)]
pub(crate) struct Manner<'a> {
    pub(crate) alloc: Global,
    pub(crate) sector: usize,
    pub(crate) tears: bool,
    pub(crate) fails: bool,
    pub(crate) part: &'a Part,
}

/// Counts a refusal; the count stays at its greatest.
pub(crate) fn refuse(refused: &mut u64)
    ensures { refused.new ≡ min (refused.old + 1) (2 ^ 64 - 1) }
{
    *refused = refused.saturating_add(1);
}

/// Changes a file, and counts a refusal.
fn change_held(
    held: &mut Held,
    refused: &mut u64,
    manner: &Manner<'_>,
    change: &Change<'_>,
) -> Result<(), DiskError>
    requires held { IsHeld manner.now.sector held.old }
    requires suits { Suits change.now held.old.len }
    ensures held { IsHeld manner.now.sector held.new }
    ensures answered { IsAnswered manner.now (changing (file_of manner.now.sector held.old) change.now)
        result held.old held.new }
    ensures counted { refused.new ≡ counted result refused.old }
{
    if manner.fails {
        return match held.fail(manner.alloc, manner.sector, change, manner.part) {
            Ok(()) => {
                refuse(refused);
                Err(DiskError::Failed)
            }
            Err(_) => {
                refuse(refused);
                Err(DiskError::NoMemory)
            }
        };
    }
    match held.carry_out(manner.alloc, manner.sector, change) {
        Ok(()) => Ok(()),
        Err(_) => {
            refuse(refused);
            Err(DiskError::NoMemory)
        }
    }
}

/// Writes into a file, and counts a refusal.
pub(crate) fn write_held(
    held: &mut Held,
    refused: &mut u64,
    manner: &Manner<'_>,
    at: u64,
    bytes: &[u8],
) -> Result<(), DiskError>
    requires stands { Stands manner.now.sector held.old }
    requires room { at + length bytes.now ≤ longest }
    ensures stands { Stands manner.now.sector held.new }
    ensures answered { IsAnswered manner.now (writing (file_of manner.now.sector held.old) at bytes.now)
        result held.old held.new }
    ensures counted { refused.new ≡ counted result refused.old }
{
    let from = at as usize;
    let to = from + bytes.len();
    let end = held.len.max(to);
    let change = Change {
        from,
        to,
        end,
        keep: held.len,
        bytes,
    };
    change_held(held, refused, manner, &change)
}

/// Changes the length of a file, and counts a refusal.
pub(crate) fn cut_held(
    held: &mut Held,
    refused: &mut u64,
    manner: &Manner<'_>,
    end: u64,
) -> Result<(), DiskError>
    requires stands { Stands manner.now.sector held.old }
    requires room { end ≤ longest }
    ensures stands { Stands manner.now.sector held.new }
    ensures answered { IsAnswered manner.now (cutting (file_of manner.now.sector held.old) end)
        result held.old held.new }
    ensures counted { refused.new ≡ counted result refused.old }
{
    let end = end as usize;
    let keep = end.min(held.len);
    let change = Change {
        from: end,
        to: held.len,
        end,
        keep,
        bytes: &[],
    };
    change_held(held, refused, manner, &change)
}

/// Syncs a file.
pub(crate) fn sync_held(held: &mut Held, sector: usize)
    requires { Stands sector held.old }
    ensures stands { Stands sector held.new }
    ensures synced { IsSynced (file_of sector held.old) (file_of sector held.new) }
{
    held.sync(sector);
}

/// Fails in the middle of a sync of a file.
pub(crate) fn turn_held(held: &mut Held, sector: usize, pick: &[u32])
    requires { Stands sector held.old }
    ensures stands { Stands sector held.new }
    ensures shuffled { IsShuffled sector (file_of sector held.old) (file_of sector held.new) }
    ensures turned { (k : ℕ) → IsTurned sector (file_of sector held.old) (file_of sector held.new) k
        (picked pick.now true k (suc (length ((file_of sector held.old).earlier k)))) }
{
    held.turn(sector, pick);
}

/// Ends a file at a length, in each of its values.
pub(crate) fn end_held(held: &mut Held, sector: usize, end: u64)
    requires { Stands sector held.old }
    ensures stands { Stands sector held.new }
    ensures ended { IsEnded sector end (file_of sector held.old) (file_of sector held.new) }
{
    held.end(sector, end as usize);
}

/// Whether a call that ends there is too long.
pub(crate) fn is_too_long(at: u64, length: usize) -> bool
    ensures { IsTrue result ↔ longest < at + length }
{
    at > LIMIT || length as u64 > LIMIT - at
}

/// An empty file.
pub(crate) fn empty(alloc: Global) -> Held
    ensures stands { (sector : ℕ) → IsTrue (is_sector_size sector) → Stands sector result }
    ensures settled { (sector : ℕ) → IsSettled (file_of sector result) [] }
{
    Held {
        sectors: Vec::new(alloc),
        len: 0,
        least: 0,
        greatest: 0,
    }
}

/// A file that holds these bytes and is durable.
pub(crate) fn filled(alloc: Global, sector: usize, bytes: &[u8]) -> Result<Held, DiskError>
    requires is_size { IsTrue (is_sector_size sector) }
    requires room { length bytes.now ≤ longest }
    ensures stands { IfOk result (λ f. Stands sector f) }
    ensures settled { IfOk result (λ f. IsSettled (file_of sector f) bytes.now) }
    ensures error { IfErr result (λ e. number_of e ≡ 4) }
{
    let mut held = empty(alloc);
    let mut refused = 0;
    let part = Part::nothing(alloc);
    let manner = Manner {
        alloc,
        sector,
        tears: false,
        fails: false,
        part: &part,
    };
    write_held(&mut held, &mut refused, &manner, 0, bytes)?;
    sync_held(&mut held, sector);
    Ok(held)
}

/// Appends the present bytes of a file.
pub(crate) fn append_present(
    alloc: Global,
    held: &Held,
    sector: usize,
    out: &mut Vec<u8>,
) -> Result<(), DiskError>
    requires { Stands sector held.now }
    ensures ok { OnOk result ((bytes : List ℕ) × (out.new.items ≡ out.old.items ++ bytes) × (length bytes ≡
        held.now.len) × ((i : ℕ) → i < held.now.len → slice_index bytes i ≡ byte (file_of sector held.now)
        i)) }
    ensures err { OnErr result (out.new.items ≡ out.old.items) }
    ensures error { IfErr result (λ e. number_of e ≡ 4) }
{
    let mut bytes = Vec::new(alloc);
    if bytes.resize(held.len, 0).is_err() {
        return Err(DiskError::NoMemory);
    }
    held.read(sector, 0, &mut bytes);
    match out.extend_from_slice(&bytes) {
        Ok(()) => Ok(()),
        Err(_) => Err(DiskError::NoMemory),
    }
}
