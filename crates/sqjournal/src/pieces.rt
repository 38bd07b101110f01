//! Taking a piece of a journal (own).
ghost use Rattle.std.specs.Prelude.{◌≡◌, ◌⊎◌, ℕ, ◌+◌, ◌^◌, ◌<◌, ◌≤◌, ◌++◌, List, [], length, take, drop, IfOk, OnOk};
ghost use Rattle.std.specs.Prelude.{OnErr, MatchOption, MatchResult};
ghost use Rattle.sqjournal.specs.Header.{IsFirstHeader, IsRefused, Names};
ghost use Rattle.sqjournal.specs.Reading.{Stands, next_len, IsOver, UnlessOver, Keeps, Waits, IsSound};
ghost use Rattle.sqjournal.specs.internal.Reading.{IsNext};
ghost use Rattle.sqjournal.specs.declared.reading.Record.{Record};

use crate::error::JournalError;
use crate::header::{HEADER_LEN, JournalHeader};
use crate::reading::{Reading, Record};
use std::alloc::AllocError;

/// The first bytes of what is kept and a piece after it, as many as a header has. None where they are
/// too short.
fn front_of(begun: &[u8], piece: &[u8]) -> Option<[u8; HEADER_LEN]>
    ensures { MatchOption result
        (length (begun.now ++ piece.now) < 28)
        (λ front. (28 ≤ length (begun.now ++ piece.now)) × (front ≡ take 28 (begun.now ++ piece.now))) }
{
    let kept = begun.len().min(HEADER_LEN);
    if piece.len() < HEADER_LEN - kept {
        return None;
    }
    let mut front = [0u8; HEADER_LEN];
    front[..kept].copy_from_slice(&begun[..kept]);
    front[kept..].copy_from_slice(&piece[..HEADER_LEN - kept]);
    Some(front)
}

/// Reads the first header from what is kept and a piece after it. None where they are too short.
pub(crate) fn first_header(
    begun: &[u8],
    piece: &[u8],
) -> Result<Option<JournalHeader>, JournalError>
    ensures { MatchResult result
        (λ first. MatchOption first
        (length (begun.now ++ piece.now) < 28)
        (λ h. (28 ≤ length (begun.now ++ piece.now))
        × IsFirstHeader (begun.now ++ piece.now) × Names (begun.now ++ piece.now) h))
        (λ e. (28 ≤ length (begun.now ++ piece.now)) × IsRefused (begun.now ++ piece.now) e) }
{
    let Some(front) = front_of(begun, piece) else {
        return Ok(None);
    };
    let header = JournalHeader::read(&front)?;
    Ok(Some(header))
}

/// Takes the whole header or record that is next.
fn take_next(
    reading: &Reading,
    unit: &[u8],
    records: &mut Vec<Record>,
) -> Result<Reading, AllocError>
    requires sector { (512 ≤ reading.now.header.sector) × (reading.now.header.sector ≤ 65536) }
    requires whole { (length unit.now ≡ next_len reading.now) × (reading.now.at + length unit.now ≤ 2 ^ 40) }
    ensures stands { IfOk result (λ r. (b : List ℕ) → Stands b reading.now records.old.items
        → IsNext b reading.now unit.now → Stands b r records.new.items) }
    ensures header { IfOk result (λ r. r.header ≡ reading.now.header) }
    ensures further { IfOk result (λ r. UnlessOver r.next (reading.now.at + length unit.now ≤ r.at) × (r.at ≤ 2 ^ 41)) }
    ensures grows { (new : List Record) × (records.new.items ≡ records.old.items ++ new) }
{
    let (next, record) = reading.after(unit);
    if let Some(record) = record {
        records.push(record)?;
    }
    Ok(next)
}

/// Takes the whole headers and records of a piece at a place of the journal, from the next one on.
fn take_whole(
    mut reading: Reading,
    place: u64,
    piece: &[u8],
    records: &mut Vec<Record>,
) -> Result<Reading, AllocError>
    requires sector { (512 ≤ reading.header.sector) × (reading.header.sector ≤ 65536) }
    requires ahead { UnlessOver reading.next (place ≤ reading.at) × (reading.at ≤ 2 ^ 41) }
    requires within { place + length piece.now ≤ 2 ^ 40 }
    ensures stands { IfOk result (λ r. (b : List ℕ) → length b ≡ place
        → Stands (b ++ piece.now) reading records.old.items
        → Stands (b ++ piece.now) r records.new.items) }
    ensures place { IfOk result (λ r. (r.header ≡ reading.header) × (r.at ≤ 2 ^ 41) × UnlessOver r.next (place ≤ r.at)
        × UnlessOver r.next (place + length piece.now < r.at + next_len r)) }
    ensures grows { (new : List Record) × (records.new.items ≡ records.old.items ++ new) }
{
    while let Some(start) = reading.start_in(place, piece.len()) {
        let len = reading.next_len();
        reading = take_next(&reading, &piece[start..start + len], records)?;
    }
    Ok(reading)
}

/// Keeps these bytes in place of those that were kept.
fn keep(begun: &mut Vec<u8>, bytes: &[u8]) -> Result<(), AllocError>
    ensures ok { OnOk result (begun.new.items ≡ bytes.now) }
    ensures err { OnErr result (begun.new.items ≡ begun.old.items) }
{
    begun.reserve(bytes.len().saturating_sub(begun.len()))?;
    begun.clear();
    begun.extend_from_slice(bytes)
}

/// Takes a piece at a place of the journal where nothing is kept that counts.
fn take_rest(
    reading: Reading,
    place: u64,
    piece: &[u8],
    begun: &mut Vec<u8>,
    records: &mut Vec<Record>,
) -> Result<Reading, AllocError>
    requires sector { (512 ≤ reading.header.sector) × (reading.header.sector ≤ 65536) }
    requires place { UnlessOver reading.next (place ≤ reading.at) × (reading.at ≤ 2 ^ 41)
        × (place + length piece.now ≤ 2 ^ 40) }
    ensures stands { IfOk result (λ r. (b : List ℕ) → length b ≡ place
        → Stands (b ++ piece.now) reading records.old.items
        → Stands (b ++ piece.now) r records.new.items × Waits (b ++ piece.now) r begun.new.items) }
    ensures sound { IfOk result (λ r. IsSound (place + length piece.now) (length begun.new.items) r) }
    ensures kept { OnErr result (begun.new.items ≡ begun.old.items) }
    ensures grows { (new : List Record) × (records.new.items ≡ records.old.items ++ new) }
{
    let next = take_whole(reading, place, piece, records)?;
    let from = next.kept_in(place, piece.len());
    keep(begun, &piece[from..])?;
    Ok(next)
}

/// Takes a piece. Where memory is refused, what is kept and the records may have grown.
fn take_piece(
    reading: &Reading,
    place: u64,
    piece: &[u8],
    begun: &mut Vec<u8>,
    records: &mut Vec<Record>,
) -> Result<Reading, AllocError>
    requires sound { IsSound place (length begun.old.items) reading.now }
    requires within { place + length piece.now ≤ 2 ^ 40 }
    ensures stands { IfOk result (λ r. (b : List ℕ) → length b ≡ place → Keeps b reading.now begun.old.items
        → Stands (b ++ piece.now) reading.now records.old.items
        → Stands (b ++ piece.now) r records.new.items × Waits (b ++ piece.now) r begun.new.items) }
    ensures sound { IfOk result (λ r. IsSound (place + length piece.now) (length begun.new.items) r) }
    ensures kept { OnErr result ((new : List ℕ) × (begun.new.items ≡ begun.old.items ++ new)) }
    ensures grows { (new : List Record) × (records.new.items ≡ records.old.items ++ new) }
{
    if begun.is_empty() {
        return take_rest(*reading, place, piece, begun, records);
    }
    let missing = reading.next_len() - begun.len();
    if piece.len() < missing {
        begun.extend_from_slice(piece)?;
        return Ok(*reading);
    }
    begun.extend_from_slice(&piece[..missing])?;
    let next = take_next(reading, begun, records)?;
    take_rest(next, place, piece, begun, records)
}

/// Takes a piece at a place of the journal. Where memory is refused, nothing changes.
pub(crate) fn take(
    reading: &Reading,
    place: u64,
    piece: &[u8],
    begun: &mut Vec<u8>,
    records: &mut Vec<Record>,
) -> Result<Reading, AllocError>
    requires sound { IsSound place (length begun.old.items) reading.now }
    requires within { place + length piece.now ≤ 2 ^ 40 }
    ensures stands { IfOk result (λ r. (b : List ℕ) → length b ≡ place → Keeps b reading.now begun.old.items
        → Stands (b ++ piece.now) reading.now records.old.items
        → Stands (b ++ piece.now) r records.new.items × Waits (b ++ piece.now) r begun.new.items) }
    ensures sound { IfOk result (λ r. IsSound (place + length piece.now) (length begun.new.items) r) }
    ensures kept { OnErr result (begun.new.items ≡ begun.old.items) }
    ensures records { OnErr result (records.new.items ≡ records.old.items) }
{
    let (begun_len, records_len) = (begun.len(), records.len());
    match take_piece(reading, place, piece, begun, records) {
        Ok(next) => Ok(next),
        Err(refused) => {
            begun.truncate(begun_len);
            records.truncate(records_len);
            Err(refused)
        }
    }
}
