//! The entries of an index in memory (own).
ghost use Rattle.std.specs.Prelude.{◌≡◌, ◌≢◌, ◌≤◌, ◌+◌, ◌<◌, ℕ, [], ◌∷◌, ◌++◌, All, IfOk, OnOk, MatchOption, Some};
ghost use Rattle.std.specs.Prelude.{None, length, take, drop, slice_get, slice_index_or, nat_le, if◌then◌else◌};
ghost use Rattle.std.specs.List.Sorted.{IsPermutation, IsSortedByKey};
ghost use Rattle.std.specs.Ordering.{int_cmp};
ghost use Rattle.std.specs.Int.{to_le_bytes, from_le_bytes, w32};
ghost use Rattle.sqindex.specs.declared.entries.Held.{Held as SpecHeld};
ghost use Rattle.sqindex.specs.internal.Bodies.{start_in, size_in};

use crate::error::EntryError;
use crate::fault::IndexFault;
use crate::walk::Found;
use std::alloc::{AllocError, Global};

/// The most bytes of a payload that lies in its entry, and not behind the others.
pub(crate) const INSIDE: usize = 16;

/// How many bytes an entry takes beside a payload that lies behind the others.
pub(crate) const HELD: u64 = 32;

/// An entry: its payload, or where that lies, and where the entry stands in the index.
#[derive(Clone, Copy, Debug)]
pub(crate) struct Held {
    /// The rowid that it ends with, once it was judged.
    pub(crate) rowid: i64,
    pub(crate) page: u32,
    pub(crate) cell: u16,
    /// How many bytes its payload has, or 17 for more than 16.
    pub(crate) size: u16,
    /// The payload; or where it begins behind the others, and how many bytes it has.
    pub(crate) body: [u8; 16],
}

impl Held {
    /// Where it was found.
    fn found(self) -> Found
        ensures { (result.page ≡ self.page) × (result.cell ≡ self.cell) × (result.rowid ≡ None) }
    {
        Found {
            page: self.page,
            cell: self.cell as usize,
            rowid: None,
        }
    }
}

/// The entries of an index, in its order or by rowid.
#[derive(Drop)]
pub(crate) struct Entries {
    pub(crate) list: Vec<Held>,
    /// The payloads that don't lie in the entries, one behind another.
    pub(crate) bytes: Vec<u8>,
    ghost within: { All (λ held. 16 < held.size → start_in held.body + size_in held.body ≤ length bytes.items)
        list.items },
}

/// A number about halfway from one to a greater one.
fn halfway(low: i64, high: i64) -> i64 {
    low.saturating_add(i64::try_from(high.abs_diff(low) / 2).unwrap_or(0))
}

/// A payload of a few bytes, and zeros behind it.
fn body_of(payload: &[u8]) -> [u8; 16]
    ensures { length payload.now ≤ 16 → take (length payload.now) result ≡ payload.now }
{
    let mut body = [0u8; 16];
    if payload.len() <= INSIDE {
        let (front, _) = body.split_at_mut(payload.len());
        front.copy_from_slice(payload);
    }
    body
}

/// Where a payload begins behind the others, and how many bytes it has.
fn place_body(start: u32, size: u32) -> [u8; 16]
    ensures start { take 4 result ≡ to_le_bytes w32 start }
    ensures size { take 4 (drop 4 result) ≡ to_le_bytes w32 size }
{
    let mut body = [0u8; 16];
    let (first, rest) = body.split_at_mut(4);
    first.copy_from_slice(&start.to_le_bytes());
    let (second, _) = rest.split_at_mut(4);
    second.copy_from_slice(&size.to_le_bytes());
    body
}

/// The number in the first four bytes, the lowest first.
fn word(bytes: &[u8]) -> usize
    requires { 4 ≤ length bytes.now }
    ensures { result ≡ from_le_bytes w32 (take 4 bytes.now) }
{
    match bytes.first_chunk::<4>() {
        Some(word) => u32::from_le_bytes(*word) as usize,
        None => 0,
    }
}

/// Where a payload begins that lies behind the others.
fn start_of(body: &[u8; 16]) -> usize
    ensures { result ≡ start_in body.now }
{
    word(body)
}

/// How many bytes it has.
fn size_of(body: &[u8; 16]) -> usize
    ensures { result ≡ size_in body.now }
{
    word(&body[4..])
}

/// A place or a size. Refused where it takes more than 32 bits.
fn small(number: usize) -> Result<u32, AllocError>
    ensures { IfOk result (λ same. same ≡ number) }
{
    match u32::try_from(number) {
        Ok(same) => Ok(same),
        Err(_) => Err(AllocError),
    }
}

/// The place of a cell in its page. Refused where it takes more than 16 bits, which none does.
fn place(number: usize) -> Result<u16, AllocError>
    ensures { IfOk result (λ same. same ≡ number) }
{
    match u16::try_from(number) {
        Ok(same) => Ok(same),
        Err(_) => Err(AllocError),
    }
}

/// An entry with a payload, which is in it, or begins there behind the others.
fn held_of(rowid: i64, page: u32, cell: u16, payload: &[u8], start: u32, size: u32) -> Held
    requires { size ≡ length payload.now }
    ensures place { (result.rowid ≡ rowid) × (result.page ≡ page) × (result.cell ≡ cell) }
    ensures few { length payload.now ≤ 16
        → (result.size ≡ length payload.now) × (take (length payload.now) result.body ≡ payload.now) }
    ensures many { 16 < length payload.now
        → (16 < result.size) × (start_in result.body ≡ start) × (size_in result.body ≡ length payload.now) }
{
    if payload.len() <= INSIDE {
        return Held {
            rowid,
            page,
            cell,
            size: size as u16,
            body: body_of(payload),
        };
    }
    Held {
        rowid,
        page,
        cell,
        size: 17,
        body: place_body(start, size),
    }
}

/// Adds a payload behind the others, unless it lies in its entry.
fn keep_behind(bytes: &mut Vec<u8>, payload: &[u8]) -> Result<(), AllocError>
    ensures ok { OnOk result (bytes.new.items ≡ (if nat_le (length payload.now) 16 then bytes.old.items
        else bytes.old.items ++ payload.now)) }
    ensures more { length bytes.old.items ≤ length bytes.new.items }
{
    if payload.len() <= INSIDE {
        return Ok(());
    }
    bytes.extend_from_slice(payload)
}

impl Entries {
    ghost use Rattle.sqindex.specs.internal.Held.{held_by, nothing, plain};
    ghost use Rattle.sqindex.specs.internal.Spans.{IsSame, KeepsTo};

    /// None.
    pub(crate) fn new(alloc: Global) -> Entries
        ensures { held_by result ≡ [] }
    {
        Entries {
            list: Vec::new(alloc),
            bytes: Vec::new(alloc),
        }
    }

    /// How many there are.
    pub(crate) fn len(&self) -> usize
        ensures { result ≡ length (held_by self.now) }
    {
        self.list.len()
    }

    /// The payload of entry `i`.
    pub(crate) fn payload(&self, i: usize) -> &[u8]
        requires { i < length (held_by self.now) }
        ensures { (slice_index_or (held_by self.now) i nothing).bytes ≡ result.now }
    {
        let held = &self.list[i];
        let size = held.size as usize;
        if size <= INSIDE {
            &held.body[..size]
        } else {
            let start = start_of(&held.body);
            &self.bytes[start..start + size_of(&held.body)]
        }
    }

    /// A fault that stands at entry `i`.
    pub(crate) fn fault(&self, i: usize, fault: IndexFault) -> EntryError
        requires { i < length (held_by self.now) }
        ensures is { result.fault ≡ fault }
        ensures page { (slice_index_or (held_by self.now) i nothing).page ≡ result.page }
        ensures cell { (slice_index_or (held_by self.now) i nothing).cell ≡ result.cell }
    {
        let held = self.list[i];
        EntryError {
            fault,
            page: held.page,
            cell: held.cell as usize,
        }
    }

    /// The rowid that entry `i` holds. None behind the last one.
    pub(crate) fn rowid(&self, i: usize) -> Option<i64>
        ensures { MatchOption result (length self.now.list.items ≤ i)
            (λ rowid. (p : SpecHeld) × (slice_get self.now.list.items i ≡ Some p) × (p.rowid ≡ rowid)) }
    {
        let held = self.list.get(i)?;
        Some(held.rowid)
    }

    /// Adds one behind the others, with this rowid. Refused where memory runs out, and where its place behind the
    /// others or its size takes more than 32 bits, or its place in its page more than 16.
    pub(crate) fn add(&mut self, found: Found, rowid: i64, payload: &[u8]) -> Result<(), AllocError>
        ensures held { OnOk result (held_by self.new ≡ held_by self.old ++ plain found payload.now ∷ []) }
        ensures last { OnOk result ((p : SpecHeld) × (self.new.list.items ≡ self.old.list.items ++ p ∷ [])
            × (p.rowid ≡ rowid)) }
    {
        let start = small(self.bytes.len())?;
        let size = small(payload.len())?;
        let cell = place(found.cell)?;
        keep_behind(&mut self.bytes, payload)?;
        self.list
            .push(held_of(rowid, found.page, cell, payload, start, size))?;
        Ok(())
    }

    /// Sorts them by rowid, in place.
    pub(crate) fn sort(&mut self)
        ensures same { IsPermutation self.old.list.items self.new.list.items }
        ensures bytes { self.new.bytes ≡ self.old.bytes }
        ensures sorted { IsSortedByKey (λ p. p.rowid) int_cmp self.new.list.items }
    {
        self.list.sort_unstable_by_key(|p| p.rowid);
    }

    /// How many bytes they take, and half of them that are kept beside all, where payloads lie behind the others.
    pub(crate) fn memory(&self) -> u64 {
        let list = (self.list.len() as u64).saturating_mul(HELD);
        let bytes = self.bytes.len() as u64;
        list.saturating_add(bytes).saturating_add(bytes / 2)
    }

    /// How many have a rowid up to this one.
    fn many_to(&self, last: i64) -> usize {
        self.list.iter().filter(|p| p.rowid <= last).count()
    }

    /// A rowid below the greatest that about half of them are up to, as far as there is one.
    fn middle(&self) -> Option<i64> {
        let mut low = self.list.iter().map(|p| p.rowid).min()?;
        let greatest = self.list.iter().map(|p| p.rowid).max()?;
        let mut high = greatest.checked_sub(1)?;
        let eighth = self.list.len() / 8;
        'halves: for _ in 0..64 {
            if low >= high {
                return Some(high);
            }
            let middle = halfway(low, high);
            let many = self.many_to(middle);
            if many / 3 < eighth {
                low = middle.saturating_add(1);
            } else if many / 5 > eighth {
                high = middle;
            } else {
                return Some(middle);
            }
        }
        Some(high)
    }

    /// Where to end a range that has no room for this rowid: at the greatest of theirs where that is below it, else at
    /// one that about half of them are up to.
    pub(crate) fn end_before(&self, rowid: i64) -> Option<i64> {
        let greatest = self.list.iter().map(|p| p.rowid).max()?;
        if greatest < rowid {
            return Some(greatest);
        }
        self.middle()
    }

    /// Keeps those whose rowids are up to this one, in their order.
    fn retain_to(&mut self, last: i64)
        ensures { KeepsTo last self.old self.new }
    {
        self.list.retain(|p| p.rowid <= last);
    }

    /// The same, beside no payloads of others.
    fn packed(&self, alloc: Global) -> Result<Entries, AllocError>
        ensures { IfOk result (IsSame self.now) }
    {
        let mut kept = Entries::new(alloc);
        'entries: for i in 0..self.len() {
            let held = self.list[i];
            kept.add(held.found(), held.rowid, self.payload(i))?;
        }
        Ok(kept)
    }

    /// Keeps those whose rowids are up to this one, in their order.
    pub(crate) fn keep_to(&mut self, alloc: Global, last: i64) -> Result<(), AllocError>
        ensures { OnOk result (KeepsTo last self.old self.new) }
    {
        let many = self.list.len();
        self.retain_to(last);
        if self.bytes.is_empty() || self.list.len() == many {
            return Ok(());
        }
        *self = self.packed(alloc)?;
        Ok(())
    }

    /// Keeps none of them.
    pub(crate) fn clear(&mut self)
        ensures { held_by self.new ≡ [] }
    {
        self.list.clear();
        self.bytes.clear();
    }
}
