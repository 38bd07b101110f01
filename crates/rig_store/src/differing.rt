//! In what the names show other things in an image than they do now (own).
ghost use Rattle.std.specs.Prelude.{◌≡◌, ◌≢◌, ◌↔◌, ◌+◌, ◌/◌, ◌<◌, ◌≤◌, ◌^◌, ℕ, None, get_or, length};
ghost use Rattle.std.specs.Prelude.{option_map, IfOk, IsTrue};
ghost use Rattle.rig_store.specs.Differing.{AreDifferences, InRanges, IsDifference, sector_bytes};
ghost use Rattle.rig_store.specs.Left.{image_of, IsPresent};
ghost use Rattle.rig_store.specs.Stores.{store_of};

use crate::error::StoreError;
use crate::image::{Image, present};
use crate::ranges::add_if;
use crate::store::Store;
use std::alloc::Global;

/// What a name shows in an image, beside what it shows now.
#[derive(Debug, Drop, PartialEq, Eq)]
pub struct Difference {
    /// The number of the name.
    pub name: u32,
    /// How long the file is that it shows in the image, in bytes, if it shows one.
    pub shown: Option<u64>,
    /// How long the file is that it has now, if it has one.
    pub now: Option<u64>,
    /// Where there are both: the sectors in which they differ, counted from 0, in ranges from a first to a last one.
    pub sectors: Vec<(u64, u64)>,
}

/// The bytes of sector k, as far as there are any.
fn sector_of(size: u64, bytes: &[u8], k: u64) -> &[u8]
    ensures { result.now ≡ sector_bytes size k bytes.now }
{
    let start = k.saturating_mul(size).min(bytes.len() as u64) as usize;
    let rest = &bytes[start..];
    &rest[..(rest.len() as u64).min(size) as usize]
}

/// A length that none of two files passes.
fn longest_of(shown: &[u8], now: &[u8]) -> u64
    ensures shown { length shown.now ≤ result }
    ensures now { length now.now ≤ result }
    ensures room { result < 2 ^ 63 }
{
    shown.len().max(now.len()) as u64
}

/// The first sector that comes behind the end of a file of this length.
fn stop_of(size: u64, longest: u64) -> u64
    requires some { 0 < size }
    requires room { longest < 2 ^ 63 }
    ensures { result ≡ longest / size + 1 }
{
    1 + longest / size
}

/// Whether two files differ in sector k.
fn differ_in(size: u64, shown: &[u8], now: &[u8], k: u64) -> bool
    ensures { IsTrue result ↔ (sector_bytes size k shown.now ≢ sector_bytes size k now.now) }
{
    sector_of(size, shown, k) != sector_of(size, now, k)
}

/// The sectors in which two files differ.
fn sectors_between(
    alloc: Global,
    size: u64,
    shown: &[u8],
    now: &[u8],
) -> Result<Vec<(u64, u64)>, StoreError>
    requires { 0 < size }
    ensures { IfOk result (λ ranges. (k : ℕ) → InRanges ranges.items k
        ↔ (sector_bytes size k shown.now ≢ sector_bytes size k now.now)) }
{
    let mut ranges = Vec::new(alloc);
    let longest = longest_of(shown, now);
    let stop = stop_of(size, longest);
    for k in 0..stop {
        let differ = differ_in(size, shown, now, k);
        add_if(&mut ranges, differ, k)?;
    }
    Ok(ranges)
}

/// How long a file is, if there is one.
fn length_of(bytes: Option<&[u8]>) -> Option<u64>
    ensures { result ≡ option_map (λ b. length b.now) bytes.entry }
{
    match bytes {
        Some(bytes) => Some(bytes.len() as u64),
        None => None,
    }
}

/// Whether both are none, or the same bytes.
fn are_same(shown: Option<&[u8]>, now: Option<&[u8]>) -> bool
    ensures { IsTrue result ↔ (option_map (λ b. b.now) shown.entry ≡ option_map (λ b. b.now) now.entry) }
{
    match (shown, now) {
        (Some(shown), Some(now)) => shown == now,
        (None, None) => true,
        (Some(_), None) | (None, Some(_)) => false,
    }
}

/// What a name shows, beside what it shows now.
fn difference_of(
    alloc: Global,
    size: u64,
    name: u32,
    shown: Option<&[u8]>,
    now: Option<&[u8]>,
) -> Result<Difference, StoreError>
    requires { 0 < size }
    ensures name { IfOk result (λ d. d.name ≡ name) }
    ensures is { IfOk result (IsDifference size (option_map (λ b. b.now) shown.entry)
        (option_map (λ b. b.now) now.entry)) }
{
    let sectors = match (shown, now) {
        (Some(shown), Some(now)) => sectors_between(alloc, size, shown, now)?,
        (Some(_), None) | (None, Some(_)) | (None, None) => Vec::new(alloc),
    };
    Ok(Difference {
        name,
        shown: length_of(shown),
        now: length_of(now),
        sectors,
    })
}

/// What a name shows in an image.
fn file_of(image: &Image, name: u32) -> Option<&[u8]>
    ensures { option_map (λ b. b.now) result ≡ get_or (image_of image.now) name None }
{
    match image.files.get(name as usize) {
        Some(Some(bytes)) => Some(bytes.as_slice()),
        _ => None,
    }
}

/// Each name that shows another thing in an image than it does now, in the order of the names. NoMemory alone.
pub fn differences(
    alloc: Global,
    store: &Store,
    image: &Image,
) -> Result<Vec<Difference>, StoreError>
    ensures { IfOk result (λ found. (now : _) × IsPresent (store_of store.now) now
        × AreDifferences (store_of store.now).sector (store_of store.now).names (image_of image.now) now found.items) }
{
    let now = present(alloc, store)?;
    let size = store.sector();
    let mut found = Vec::new(alloc);
    for name in 0..store.names {
        let there = file_of(image, name);
        let here = file_of(&now, name);
        if are_same(there, here) {
            continue;
        }
        let difference = difference_of(alloc, size, name, there, here)?;
        found.push(difference)?;
    }
    Ok(found)
}
