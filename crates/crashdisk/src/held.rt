//! A file as the modelled disk keeps it (own).
ghost use Rattle.std.specs.Prelude.{◌≡◌, ◌≢◌, ◌⊎◌, ◌<◌, ◌≤◌, ◌+◌, ◌-◌, ◌*◌, ◌/◌, ◌%◌, ◌^◌, ◌↔◌, ℕ, IsTrue, List, []};
ghost use Rattle.std.specs.Prelude.{◌∷◌, ◌++◌, length, take, drop, replicate, slice_index, slice_index_or, OnOk, OnErr};
ghost use Rattle.std.specs.Prelude.{IfOk, max, set, cond, EachIndex, suc, true};
ghost use Rattle.crashdisk.specs.State.{Meets};
ghost use Rattle.crashdisk.specs.Held.{last_of, file_by, AreWhole, IsListOf};
ghost use Rattle.crashdisk.specs.internal.Held.{Touches, put_byte, EachOf, AreRising};
ghost use Rattle.crashdisk.specs.Held.{is_odd};
ghost use Rattle.crashdisk.specs.internal.Held.{EndsWhole, Suits, IsPut, Gets, Loses, Takes, IsCutTo, IsEndedTo};
ghost use Rattle.crashdisk.specs.Held.{picked};
ghost use Rattle.crashdisk.specs.internal.Held.{turned};

use crate::values::{Bytes, Values};
use std::alloc::{AllocError, Global};

/// What a call changes: it touches the places from `from` to `to`, leaves the file's end at `end`, keeps what was there
/// below `keep`, and puts these bytes at `from`.
#[derive(Clone, Copy)]
pub(crate) struct Change<'a> {
    pub(crate) from: usize,
    pub(crate) to: usize,
    pub(crate) end: usize,
    pub(crate) keep: usize,
    pub(crate) bytes: &'a [u8],
}

impl Change<'_> {
    /// What it puts at a place.
    fn byte(&self, place: usize, was: u8) -> u8
        requires room { self.now.from + length self.now.bytes.now < 2 ^ 62 }
        ensures { result ≡ put_byte self.now.from self.now.keep self.now.bytes.now place was }
    {
        if self.from <= place && place < self.from + self.bytes.len() {
            self.bytes[place - self.from]
        } else if place < self.keep {
            was
        } else {
            0
        }
    }

    /// The value that it gives a sector.
    fn value(&self, alloc: Global, start: usize, was: &[u8]) -> Result<Bytes, AllocError>
        requires room { self.now.from + length self.now.bytes.now < 2 ^ 62 }
        requires places { start + length was.now < 2 ^ 62 }
        ensures { IfOk result (λ b. (length b ≡ length was.now) × ((j : ℕ) → j < length was.now → slice_index b j ≡
            put_byte self.now.from self.now.keep self.now.bytes.now (start + j) (slice_index was.now j))) }
    {
        let mut value = Vec::from_slice(alloc, was)?;
        self.put(start, &mut value);
        Ok(Bytes::new(value))
    }

    fn put(&self, start: usize, value: &mut [u8])
        requires room { self.now.from + length self.now.bytes.now < 2 ^ 62 }
        requires places { start + length value.old < 2 ^ 62 }
        ensures { (j : ℕ) → j < length value.old → slice_index value.new j ≡ put_byte self.now.from self.now.keep
            self.now.bytes.now (start + j) (slice_index value.old j) }
    {
        for (j, byte) in value.iter_mut().enumerate() {
            *byte = self.byte(start + j, *byte);
        }
    }
}

/// What a failing call leaves: for a write or a change of the length, touched sector number i, from the lowest on, is
/// new where `pick[i]` is odd, and the length is new where `new_len` holds; for a sync, sector number i takes the
/// listed value number `pick[i]` modulo their count. Where an entry is missing, a write leaves the old value, and a
/// sync the present one.
#[derive(Clone, Debug, PartialEq, Eq, Drop)]
pub struct Part {
    /// By the touched sectors; of a sync by all sectors.
    pub pick: Vec<u32>,
    /// Of a sync without effect.
    pub new_len: bool,
}

impl Part {
    /// Nothing is new, and the present values stay.
    pub(crate) fn nothing(alloc: Global) -> Part {
        Part {
            pick: Vec::new(alloc),
            new_len: false,
        }
    }

    pub(crate) fn copy(&self, alloc: Global) -> Result<Part, AllocError>
        ensures pick { IfOk result (λ p. p.pick.items ≡ self.now.pick.items) }
        ensures new_len { IfOk result (λ p. p.new_len ≡ self.now.new_len) }
    {
        let pick = Vec::from_slice(alloc, self.pick.as_slice())?;
        Ok(Part {
            pick,
            new_len: self.new_len,
        })
    }

    /// The length that it takes.
    fn len(&self, new: usize, old: usize) -> usize
        ensures { result ≡ cond self.now.new_len new old }
    {
        if self.new_len { new } else { old }
    }
}

/// A file: for each sector its values, up to the last one that was touched, and its length now and at its shortest and
/// longest since the last sync. The sectors behind them hold zeros.
#[derive(Drop)]
pub(crate) struct Held {
    pub(crate) sectors: Vec<Values>,
    pub(crate) len: usize,
    pub(crate) least: usize,
    pub(crate) greatest: usize,
}

/// Lengthens the list to so many sectors of zeros.
fn grow(
    sectors: &mut Vec<Values>,
    alloc: Global,
    sector: usize,
    count: usize,
) -> Result<(), AllocError>
    ensures grown { sectors.new.items ≡ sectors.old.items ++ replicate
        (length sectors.new.items - length sectors.old.items) (replicate sector 0 ∷ []) }
    ensures longer { length sectors.old.items ≤ length sectors.new.items }
    ensures enough { OnOk result (count ≤ length sectors.new.items) }
    ensures bounded { length sectors.new.items ≤ max (length sectors.old.items) count }
{
    for _ in sectors.len()..count {
        let zeros = Bytes::zeros(alloc, sector)?;
        sectors.push(Values::new(alloc, zeros)?)?;
    }
    Ok(())
}

/// Whether a byte isn't zero.
fn has_bytes(bytes: &[u8]) -> bool
    ensures { IsTrue result ↔ ((j : ℕ) × (j < length bytes.now) × (0 < slice_index bytes.now j)) }
{
    bytes.iter().any(|byte| *byte != 0)
}

/// Whether sector k holds something that isn't zero at this place or behind it.
fn holds_past(sectors: &[Values], sector: usize, place: usize, k: usize) -> bool
    requires positive { 0 < sector }
    requires places { k * sector + sector < 2 ^ 62 }
    requires whole { AreWhole sector sectors.now }
    ensures { IsTrue result
        ↔ ((i : ℕ) × (place ≤ i) × (i / sector ≡ k) × ((file_by sector sectors.now 0 0 0).present i ≢ 0)) }
{
    match sectors.get(k) {
        Some(values) => {
            let present = values.present();
            has_bytes(&present[place.saturating_sub(k * sector).min(present.len())..])
        }
        None => false,
    }
}

/// Whether sector k has a place in this range.
fn meets(sector: usize, from: usize, to: usize, k: usize) -> bool
    requires positive { 0 < sector }
    requires places { k * sector + sector < 2 ^ 62 }
    ensures { IsTrue result ↔ Meets sector from to k }
{
    from < to && from < k * sector + sector && k * sector < to
}

/// Whether the call touches sector k.
fn is_touched(sectors: &[Values], sector: usize, len: usize, change: &Change<'_>, k: usize) -> bool
    requires positive { 0 < sector }
    requires places { k * sector + sector < 2 ^ 62 }
    requires whole { AreWhole sector sectors.now }
    ensures { IsTrue result
        ↔ Touches sector (file_by sector sectors.now len 0 0) change.now.from change.now.to change.now.end k }
{
    if meets(sector, change.from, change.to, k) {
        return true;
    }
    len < change.end && meets(sector, 0, change.end, k) && holds_past(sectors, sector, len, k)
}

/// How many sectors are to be held for a change: those up to the last place that it touches.
fn needed(sector: usize, change: &Change<'_>) -> usize
    requires positive { 0 < sector }
    requires small { change.now.to < 2 ^ 60 }
    ensures enough { change.now.from < change.now.to → change.now.to / sector < result }
    ensures within { result ≤ change.now.to / sector + 1 }
{
    if change.from < change.to {
        change.to / sector + 1
    } else {
        0
    }
}

/// The sectors that the call touches, rising. One that isn't held holds zeros.
fn touched(
    alloc: Global,
    sectors: &[Values],
    sector: usize,
    len: usize,
    change: &Change<'_>,
) -> Result<Vec<usize>, AllocError>
    requires size { (0 < sector) × (sector < 2 ^ 17) }
    requires suits { Suits change.now len }
    requires there { change.now.from < change.now.to → change.now.to / sector < length sectors.now }
    requires whole { AreWhole sector sectors.now }
    ensures { IfOk result (λ v. IsListOf
        (Touches sector (file_by sector sectors.now len 0 0) change.now.from change.now.to change.now.end)
        v.items) }
{
    let place = if len < change.end {
        change.end
    } else {
        change.to
    };
    let mut list = Vec::new(alloc);
    for k in change.from.min(len) / sector..(place / sector + 1).min(sectors.len()) {
        if is_touched(sectors, sector, len, change, k) {
            list.push(k)?;
        }
    }
    Ok(list)
}

/// Gives sector k its new value.
fn append_one(
    alloc: Global,
    sectors: &mut Vec<Values>,
    sector: usize,
    change: &Change<'_>,
    k: usize,
) -> Result<(), AllocError>
    requires there { k < length sectors.old.items }
    requires ends { EndsWhole sector (slice_index_or sectors.old.items k []) }
    requires places { k * sector + sector < 2 ^ 62 }
    requires room { change.now.from + length change.now.bytes.now < 2 ^ 62 }
    ensures ok { OnOk result ((values : _) × (sectors.new.items ≡ set sectors.old.items k values) × ((value : _) ×
        (values ≡ slice_index_or sectors.old.items k [] ++ value ∷ []) × IsPut sector change.now.from
        change.now.keep change.now.bytes.now k (last_of (slice_index_or sectors.old.items k [])) value)) }
    ensures err { OnErr result (sectors.new.items ≡ sectors.old.items) }
{
    let values = &mut sectors[k];
    let value = change.value(alloc, k * sector, values.present())?;
    values.push(value)
}

/// Takes back the newest values of these sectors.
fn undo(sectors: &mut Vec<Values>, list: &[usize])
    requires rising { AreRising (length sectors.old.items) list.now }
    ensures { EachOf list.now Loses sectors.old.items sectors.new.items }
{
    for k in list {
        sectors[*k].pop();
    }
}

/// Gives these sectors their new values, or none of them.
fn append(
    alloc: Global,
    sectors: &mut Vec<Values>,
    sector: usize,
    change: &Change<'_>,
    list: &[usize],
) -> Result<(), AllocError>
    requires rising { AreRising (length sectors.old.items) list.now }
    requires whole { AreWhole sector sectors.old.items }
    requires places { length sectors.old.items * sector + sector < 2 ^ 62 }
    requires room { change.now.from + length change.now.bytes.now < 2 ^ 62 }
    ensures ok { OnOk result (EachOf list.now
        (Gets sector change.now.from change.now.keep change.now.bytes.now list.now) sectors.old.items
        sectors.new.items) }
    ensures err { OnErr result (sectors.new.items ≡ sectors.old.items) }
{
    for (done, k) in list.iter().enumerate() {
        match append_one(alloc, sectors, sector, change, *k) {
            Ok(()) => (),
            Err(error) => {
                undo(sectors, &list[..done]);
                return Err(error);
            }
        }
    }
    Ok(())
}

/// Lets the value before it stand in place of the newest one, but where the newest is taken.
fn take_picked(sectors: &mut Vec<Values>, list: &[usize], pick: &[u32])
    requires rising { AreRising (length sectors.old.items) list.now }
    requires two { (i : ℕ) → i < length list.now
        → 2 ≤ length (slice_index_or sectors.old.items (slice_index list.now i) []) }
    ensures { EachOf list.now (Takes pick.now) sectors.old.items sectors.new.items }
{
    for (i, k) in list.iter().enumerate() {
        if !is_taken(pick, i) {
            let values = &mut sectors[*k];
            values.turn(values.count() - 2);
        }
    }
}

/// Whether the entry at this index is odd.
fn is_taken(pick: &[u32], i: usize) -> bool
    ensures { result ≡ is_odd (slice_index pick.now i) }
{
    match pick.get(i) {
        Some(n) => *n % 2 == 1,
        None => false,
    }
}

impl Held {
    ghost use Rattle.crashdisk.specs.State.{IsSynced, byte};
    ghost use Rattle.crashdisk.specs.internal.Answer.{changing, IsMade, IsMadeInPart};
    ghost use Rattle.crashdisk.specs.Ending.{IsEnded};
    ghost use Rattle.crashdisk.specs.Held.{file_of, IsHeld, IsTurned, picked};
    ghost use Rattle.crashdisk.specs.internal.Held.{Suits};

    /// The same file.
    pub(crate) fn copy(&self, alloc: Global) -> Result<Held, AllocError>
        ensures sectors { IfOk result (λ h. h.sectors.items ≡ self.now.sectors.items) }
        ensures len { IfOk result (λ h. (h.len ≡ self.now.len) × (h.least ≡ self.now.least)
            × (h.greatest ≡ self.now.greatest)) }
    {
        let mut sectors = Vec::new(alloc);
        for values in self.sectors.iter() {
            sectors.push(values.copy(alloc)?)?;
        }
        Ok(Held {
            sectors,
            len: self.len,
            least: self.least,
            greatest: self.greatest,
        })
    }

    /// The sectors that a change touches, rising; each is held afterwards.
    fn prepare(
        &mut self,
        alloc: Global,
        sector: usize,
        change: &Change<'_>,
    ) -> Result<Vec<usize>, AllocError>
        requires held { IsHeld sector self.old }
        requires suits { Suits change.now self.old.len }
        ensures held { IsHeld sector self.new }
        ensures same { file_of sector self.new ≡ file_of sector self.old }
        ensures list { IfOk result (λ v. IsListOf
            (Touches sector (file_of sector self.old) change.now.from change.now.to change.now.end) v.items ×
            AreRising (length self.new.sectors.items) v.items) }
    {
        grow(&mut self.sectors, alloc, sector, needed(sector, change))?;
        touched(alloc, &self.sectors, sector, self.len, change)
    }

    /// Carries a change out.
    pub(crate) fn carry_out(
        &mut self,
        alloc: Global,
        sector: usize,
        change: &Change<'_>,
    ) -> Result<(), AllocError>
        requires held { IsHeld sector self.old }
        requires suits { Suits change.now self.old.len }
        ensures held { IsHeld sector self.new }
        ensures made { OnOk result
            (IsMade sector (changing (file_of sector self.old) change.now) self.old self.new) }
        ensures same { OnErr result (file_of sector self.new ≡ file_of sector self.old) }
    {
        let list = self.prepare(alloc, sector, change)?;
        append(alloc, &mut self.sectors, sector, change, &list)?;
        self.len = change.end;
        self.least = self.least.min(change.end);
        self.greatest = self.greatest.max(change.end);
        Ok(())
    }

    /// Fails in the middle of a change.
    pub(crate) fn fail(
        &mut self,
        alloc: Global,
        sector: usize,
        change: &Change<'_>,
        part: &Part,
    ) -> Result<(), AllocError>
        requires held { IsHeld sector self.old }
        requires suits { Suits change.now self.old.len }
        ensures held { IsHeld sector self.new }
        ensures made { OnOk result
            (IsMadeInPart sector (changing (file_of sector self.old) change.now) part.now self.old self.new) }
        ensures same { OnErr result (file_of sector self.new ≡ file_of sector self.old) }
    {
        let touched = self.prepare(alloc, sector, change)?;
        let list = touched.as_slice();
        append(alloc, &mut self.sectors, sector, change, list)?;
        take_picked(&mut self.sectors, list, part.pick.as_slice());
        self.len = part.len(change.end, self.len);
        self.least = self.least.min(change.end);
        self.greatest = self.greatest.max(change.end);
        Ok(())
    }

    /// Makes the present values the only ones, with zeros past the end.
    pub(crate) fn sync(&mut self, sector: usize)
        requires { IsHeld sector self.old }
        ensures held { IsHeld sector self.new }
        ensures synced { IsSynced (file_of sector self.old) (file_of sector self.new) }
    {
        settle(&mut self.sectors, sector, self.len);
        self.least = self.len;
        self.greatest = self.len;
    }

    /// Fails in the middle of a sync: of each sector the picked value is moved to the end.
    pub(crate) fn turn(&mut self, sector: usize, pick: &[u32])
        requires { IsHeld sector self.old }
        ensures held { IsHeld sector self.new }
        ensures len { (self.new.len ≡ self.old.len) × (self.new.least ≡ self.old.least)
            × (self.new.greatest ≡ self.old.greatest) }
        ensures turned { (k : ℕ) → IsTurned sector (file_of sector self.old) (file_of sector self.new) k
            (picked pick.now true k (suc (length ((file_of sector self.old).earlier k)))) }
    {
        turn_each(&mut self.sectors, pick);
    }

    /// Ends the file at a length, in each of its values.
    pub(crate) fn end(&mut self, sector: usize, end: usize)
        requires { IsHeld sector self.old }
        ensures held { IsHeld sector self.new }
        ensures ended { IsEnded sector end (file_of sector self.old) (file_of sector self.new) }
    {
        self.sectors.truncate(end.div_ceil(sector));
        end_each(&mut self.sectors, sector, end);
        self.len = self.len.min(end);
        self.least = self.least.min(end);
        self.greatest = self.greatest.min(end);
    }

    /// Reads the bytes from a place on.
    pub(crate) fn read(&self, sector: usize, at: usize, out: &mut [u8])
        requires room { at + length out.old < 2 ^ 60 }
        requires held { IsHeld sector self.now }
        ensures { EachIndex out.new (λ i. slice_index out.new i ≡ byte (file_of sector self.now) (at + i)) }
    {
        out.fill(0);
        let end = (at + out.len()).min(self.len);
        for k in at / sector..(end / sector + 1).min(self.sectors.len()) {
            let values = &self.sectors[k];
            copy_part(values.present(), k * sector, at, end, out);
        }
    }
}

/// The number of the picked value of sector k among so many, counted from the oldest.
fn number(pick: &[u32], k: usize, count: usize) -> usize
    requires { 0 < count }
    ensures is { result ≡ picked pick.now true k count }
    ensures below { result < count }
{
    match pick.get(k) {
        Some(n) => *n as usize % count,
        None => count - 1,
    }
}

/// Moves the picked value of each sector to the end.
fn turn_each(sectors: &mut Vec<Values>, pick: &[u32])
    requires some { (k : ℕ) → k < length sectors.old.items → 0 < length (slice_index_or sectors.old.items k []) }
    ensures count { length sectors.new.items ≡ length sectors.old.items }
    ensures each { (k : ℕ) → k < length sectors.old.items → slice_index_or sectors.new.items k [] ≡ turned
        (picked pick.now true k (length (slice_index_or sectors.old.items k [])))
        (slice_index_or sectors.old.items k []) }
{
    for k in 0..sectors.len() {
        let values = &mut sectors[k];
        values.turn(number(pick, k, values.count()));
    }
}

/// Makes the present values the only ones, with zeros from an end on.
fn settle(sectors: &mut Vec<Values>, sector: usize, end: usize)
    requires whole { AreWhole sector sectors.old.items }
    requires room { length sectors.old.items * sector < 2 ^ 62 }
    ensures count { length sectors.new.items ≡ length sectors.old.items }
    ensures each { (k : ℕ) → k < length sectors.old.items
        → IsCutTo (end - k * sector) (slice_index_or sectors.old.items k []) (slice_index_or sectors.new.items k []) }
{
    for k in 0..sectors.len() {
        let values = &mut sectors[k];
        values.settle(end.saturating_sub(k * sector));
    }
}

/// Ends each value of these sectors at a place of the file.
fn end_each(sectors: &mut Vec<Values>, sector: usize, end: usize)
    requires room { length sectors.old.items * sector < 2 ^ 62 }
    ensures count { length sectors.new.items ≡ length sectors.old.items }
    ensures each { (k : ℕ) → k < length sectors.old.items
        → IsEndedTo (end - k * sector) (slice_index_or sectors.old.items k []) (slice_index_or sectors.new.items k []) }
{
    for k in 0..sectors.len() {
        let values = &mut sectors[k];
        values.end(end.saturating_sub(k * sector));
    }
}

/// Copies to the bytes of a reader at one place those of a sector at another, up to an end.
fn copy_part(present: &[u8], start: usize, at: usize, end: usize, out: &mut [u8])
    requires room { (at + length out.old < 2 ^ 60) × (start + length present.now < 2 ^ 61) }
    requires end { end ≤ at + length out.old }
    ensures inside { (i : ℕ) → i < length out.old → start ≤ at + i → at + i < start + length present.now
        → at + i < end → slice_index out.new i ≡ slice_index present.now (at + i - start) }
    ensures outside { (i : ℕ) → i < length out.old → (at + i < start)
        ⊎ ((start + length present.now ≤ at + i) ⊎ (end ≤ at + i)) → slice_index out.new i ≡ slice_index out.old i }
{
    let from = at.max(start);
    let to = end.min(start + present.len());
    if from < to {
        out[from - at..to - at].copy_from_slice(&present[from - start..to - start]);
    }
}
