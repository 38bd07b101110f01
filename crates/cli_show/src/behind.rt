//! What stands behind the stop of a log, which is no part of the database (own).
ghost use Rattle.std.specs.Prelude.{◌≡◌, ◌≢◌, ◌⊎◌, ◌↔◌, ℕ, ◌+◌, ◌-◌, ◌*◌, ◌/◌, ◌%◌, ◌^◌, ◌<◌, ◌≤◌, List, length};
ghost use Rattle.std.specs.Prelude.{IfErr, IfOk, IsOk, IsOkAnd, IsTrue, OnOk, Some};
ghost use Rattle.std.specs.Io.KnownBytes.{Appends};
ghost use Rattle.std.specs.Option.{option_map};
ghost use Rattle.sqval.specs.Bytes.{AreBytes, word};
ghost use Rattle.sqval.specs.Limits.{Bounds};
ghost use Rattle.sqwal.specs.Frames.{frame_at};
ghost use Rattle.sqwal.specs.Header.{IsHeaderOf};
ghost use Rattle.sqwal.specs.Slots.{IsSlot, stored};
ghost use Rattle.sqwal.specs.Took.{TookWithin};
ghost use Rattle.sqjournal.specs.Header.{Names};
ghost use Rattle.sqjournal.specs.Journal.{IsHot};
ghost use Rattle.sqjournal.specs.Slots.{IsRecordSlot};
ghost use Rattle.sqview.specs.Logs.{HasRead};
ghost use Rattle.cli_facts.specs.declared.outcome.Refusal.TheVariants.{NoMemory};
ghost use Rattle.cli_show.specs.Behind.{AreRecordLines, AreSlotLines, BeginsZeroed, IsBehindFrames, IsBehindRecords};
ghost use Rattle.cli_show.specs.Behind.{IsBehindText, IsBehindZeros, IsRestLine, IsZeroedLine, NamesSize, as_written};
ghost use Rattle.cli_show.specs.Behind.{EndsSegments, slots_from};
ghost use Rattle.cli_show.specs.Contents.{AreGiven, KeepsBytes, contents_of};
ghost use Rattle.cli_show.specs.Errors.{IfRefused};
ghost use Rattle.cli_show.specs.internal.Behind.{IsLastPlace, IsRecordOf};
ghost use Rattle.cli_show.specs.internal.Generations.{AreRead};
ghost use Rattle.cli_show.specs.internal.LogsShown.{IsShownLog};

use crate::contents::Contents;
use crate::error::ShowError;
use crate::generations::Generations;
use crate::logs::Shown;
use byteorder::{BigEndian, ByteOrder};
use cli_text::{SlotKind, write_end, write_record_slot, write_slot};
use cli_words::Style;
use sqjournal::{JournalHeader, RecordSlot, Replay, is_zeroed};
use sqpage::{DbHeader, SourceError};
use sqval::PageSize;
use sqview::{FileBytes, hot_header};
use sqwal::{Scan, Slot, Sum, WalHeader};
use std::alloc::Global;
use std::io::Write;

/// Where the records of a journal begin whose first header is zeros: behind the sector that SQLite takes.
const ZEROED_SECTOR: u64 = 512;

/// The number at a place, the highest byte first.
fn word(bytes: &[u8], at: usize) -> u32
    requires { at + 4 ≤ length bytes.now }
    ensures { result ≡ word bytes.now at }
{
    BigEndian::read_u32(&bytes[at..at + 4])
}

/// Where slot i begins, from 0, of slots of one length from a place on.
fn place_of(from: u64, length: u64, i: u64) -> u64
    ensures { from + i * length < 2 ^ 64 → result ≡ from + i * length }
{
    from.saturating_add(i.saturating_mul(length))
}

/// The whole slots of one length from a place to the end of a file, and how many bytes are over.
#[derive(Clone, Copy, Debug, PartialEq, Eq)]
struct Slots {
    from: u64,
    length: u64,
    count: u64,
    over: u64,
}

impl Slots {
    fn new(from: u64, length: u64, end: u64) -> Slots
        requires { 0 < length }
        ensures count { result.count ≡ (end - from) / length }
        ensures over { result.over ≡ (end - from) % length }
        ensures from { result.from ≡ from }
        ensures length { result.length ≡ length }
        ensures within { (i : ℕ) → i < result.count → from + (i + 1) * length ≤ end }
        ensures end { end < 2 ^ 64 }
    {
        let bytes = end.saturating_sub(from);
        Slots {
            from,
            length,
            count: bytes / length,
            over: bytes % length,
        }
    }

    /// Where slot i begins, from 0.
    fn place(&self, i: u64) -> u64
        ensures { self.now.from + i * self.now.length < 2 ^ 64 → result ≡ self.now.from + i * self.now.length }
    {
        place_of(self.from, self.length, i)
    }
}

/// Where the slot of a number begins, from 1.
fn frame_place(page_size: PageSize, i: u32) -> u64
    ensures { result ≡ 32 + (i - 1) * (24 + page_size) }
{
    32 + u64::from(i.saturating_sub(1)) * (24 + u64::from(page_size.get()))
}

/// The sums that stand in the slot before that of a number, from 1, or in the header.
fn sum_before<F: FileBytes>(wal: &mut F, header: &WalHeader, i: u32) -> Result<Sum, SourceError>
    ensures sum { F.gives_bytes wal.old → AreBytes (F.bytes wal.old) → length (F.bytes wal.old) < 2 ^ 64
        → IsHeaderOf (F.bytes wal.old) header.now
        → frame_at header.now.page_size i ≤ length (F.bytes wal.old)
        → IsOkAnd result (λ sum. sum ≡ stored header.now.page_size (F.bytes wal.old) (i - 1)) }
    ensures same { KeepsBytes F.bytes F.gives_bytes wal.old wal.new }
{
    if i <= 1 {
        return Ok(header.sum());
    }
    let mut sums = [0u8; 8];
    let place = frame_place(header.page_size, i - 1);
    wal.read_at(place.saturating_add(16), &mut sums)?;
    let s0 = word(&sums, 0);
    let s1 = word(&sums, 4);
    Ok(Sum { s0, s1 })
}

/// The slot that begins at a place, behind one with these sums.
fn slot_at<F: FileBytes>(
    wal: &mut F,
    header: &WalHeader,
    before: Sum,
    place: u64,
    frame: &mut [u8],
) -> Result<Slot, SourceError>
    requires { length frame.old ≡ 24 + header.now.page_size }
    ensures slot { F.gives_bytes wal.old → IsHeaderOf (F.bytes wal.old) header.now
        → place + (24 + header.now.page_size) ≤ length (F.bytes wal.old)
        → IsOkAnd result (λ slot. (i : ℕ) → 1 ≤ i → place ≡ frame_at header.now.page_size i
        → stored header.now.page_size (F.bytes wal.old) (i - 1) ≡ before
        → IsSlot header.now.page_size (F.bytes wal.old) i slot) }
    ensures same { KeepsBytes F.bytes F.gives_bytes wal.old wal.new }
{
    wal.read_at(place, frame)?;
    match Slot::read(header, before, frame) {
        Some(slot) => Ok(slot),
        None => Err(SourceError),
    }
}

/// A slot, of which nothing was written where it is zeros: these have the sums of zeros, but follow nothing.
fn as_written(slot: Slot) -> Slot
    ensures { result ≡ as_written slot }
{
    if slot.page == 0 && slot.sum.s0 == 0 && slot.sum.s1 == 0 {
        return Slot {
            follows: false,
            ..slot
        };
    }
    slot
}

/// Prints the frame slots of a write-ahead log from that of a number on.
fn show_slots<F: FileBytes, W: Write>(
    wal: &mut F,
    header: &WalHeader,
    first: u32,
    frame: &mut [u8],
    style: Style,
    out: &mut W,
) -> Result<(), ShowError>
    requires { length frame.old ≡ 24 + header.now.page_size }
    ensures text { F.gives_bytes wal.old → IsHeaderOf (F.bytes wal.old) header.now → 1 ≤ first
        → frame_at header.now.page_size first ≤ length (F.bytes wal.old)
        → OnOk result ((text : List ℕ) × AreSlotLines style (F.bytes wal.old) first text
        × Appends (W.contents out.old) (W.contents out.new) text) }
    ensures refused { F.gives_bytes wal.old → IsHeaderOf (F.bytes wal.old) header.now → 1 ≤ first
        → frame_at header.now.page_size first ≤ length (F.bytes wal.old)
        → IfErr result (IfRefused (λ _. ⊥)) }
    ensures same { KeepsBytes F.bytes F.gives_bytes wal.old wal.new }
{
    let slots = Slots::new(
        frame_place(header.page_size, first),
        frame.len() as u64,
        wal.len(),
    );
    let mut before = sum_before(wal, header, first)?;
    for i in 0..slots.count {
        let slot = slot_at(wal, header, before, slots.place(i), frame)?;
        write_slot(
            out,
            style,
            u64::from(first).saturating_add(i),
            &as_written(slot),
        )?;
        before = slot.sum;
    }
    write_end(out, style, SlotKind::Frame, slots.count, slots.over)?;
    Ok(())
}

/// The generations of the frame slots of a write-ahead log from that of a number on.
fn generations_of<F: FileBytes>(
    alloc: Global,
    wal: &mut F,
    header: &WalHeader,
    first: u32,
    frame: &mut [u8],
) -> Result<Generations, ShowError>
    requires { length frame.old ≡ 24 + header.now.page_size }
    ensures read { F.gives_bytes wal.old → IsHeaderOf (F.bytes wal.old) header.now → 1 ≤ first
        → frame_at header.now.page_size first ≤ length (F.bytes wal.old)
        → IfOk result (AreRead header.now.page_size (F.bytes wal.old) first
        (first + slots_from (frame_at header.now.page_size first) (24 + header.now.page_size) (F.bytes wal.old))) }
    ensures refused { F.gives_bytes wal.old → IsHeaderOf (F.bytes wal.old) header.now → 1 ≤ first
        → frame_at header.now.page_size first ≤ length (F.bytes wal.old)
        → IfErr result (IfRefused (λ refusal. refusal ≡ NoMemory)) }
    ensures same { KeepsBytes F.bytes F.gives_bytes wal.old wal.new }
{
    let slots = Slots::new(
        frame_place(header.page_size, first),
        frame.len() as u64,
        wal.len(),
    );
    let mut before = sum_before(wal, header, first)?;
    let mut generations = Generations::new(alloc);
    for i in 0..slots.count {
        let slot = slot_at(wal, header, before, slots.place(i), frame)?;
        generations.add(u64::from(first).saturating_add(i), &slot)?;
        before = slot.sum;
    }
    Ok(generations)
}

/// Prints the frame slots of a write-ahead log from its stop on, and then of which earlier logs they are.
fn show_frames<F: FileBytes, W: Write>(
    alloc: Global,
    wal: &mut F,
    scan: &Scan,
    style: Style,
    out: &mut W,
) -> Result<(), ShowError>
    ensures text { F.gives_bytes wal.old → (most : ℕ) → TookWithin most (F.bytes wal.old) scan.now
        → OnOk result ((text : List ℕ) × IsBehindFrames style (F.bytes wal.old) text
        × Appends (W.contents out.old) (W.contents out.new) text) }
    ensures refused { F.gives_bytes wal.old → (most : ℕ) → TookWithin most (F.bytes wal.old) scan.now
        → IfErr result (IfRefused (λ refusal. refusal ≡ NoMemory)) }
    ensures same { KeepsBytes F.bytes F.gives_bytes wal.old wal.new }
{
    let Some(header) = scan.header() else {
        write_end(out, style, SlotKind::Frame, 0, wal.len())?;
        return Ok(());
    };
    let length = 24 + header.page_size.get() as usize;
    let mut frame = vec![in alloc; 0u8; length]?;
    let first = scan.stop().frame;
    show_slots(wal, &header, first, &mut frame, style, out)?;
    let generations = generations_of(alloc, wal, &header, first, &mut frame)?;
    match generations.write(out, style) {
        Ok(()) => Ok(()),
        Err(_) => Err(ShowError::Unwritten),
    }
}

/// The records behind those that count: where they begin, the number of the first one, and the nonce from which their
/// sums follow, if they were written under the last valid header.
#[derive(Clone, Copy)]
struct Rest {
    from: u64,
    first: u64,
    nonce: u32,
}

/// The record that begins at a place.
fn record_at<F: FileBytes>(
    journal: &mut F,
    page_size: PageSize,
    place: u64,
    bytes: &mut [u8],
) -> Result<RecordSlot, SourceError>
    requires { length bytes.old ≡ page_size + 8 }
    ensures slot { F.gives_bytes journal.old → place + (page_size + 8) ≤ length (F.bytes journal.old)
        → IsOkAnd result (IsRecordSlot page_size (F.bytes journal.old) place) }
    ensures read { F.gives_bytes journal.old → IsOk result }
    ensures same { KeepsBytes F.bytes F.gives_bytes journal.old journal.new }
{
    journal.read_at(place, bytes)?;
    match RecordSlot::read(page_size, bytes) {
        Some(slot) => Ok(slot),
        None => Err(SourceError),
    }
}

/// Where the last record of a hot journal begins, none where the last segment has no record.
fn last_place(replay: &Replay, header: &JournalHeader) -> Option<u64>
    ensures { (b : List ℕ) → IsHot b → Names b header.now → HasRead b replay.now → IsLastPlace b result }
{
    let last = replay.entry(replay.count())?;
    let place = last.at.saturating_sub(4);
    let end = place.saturating_add(u64::from(header.page_size.get()) + 8);
    if replay.stop().at.saturating_sub(end) < u64::from(header.sector) {
        Some(place)
    } else {
        None
    }
}

/// Where the last segment of a hot journal ends, and its nonce, which its last record has too.
fn end_of_segments<F: FileBytes>(
    journal: &mut F,
    header: &JournalHeader,
    replay: &Replay,
    bytes: &mut [u8],
) -> Result<(u64, u32), SourceError>
    requires { length bytes.old ≡ header.now.page_size + 8 }
    ensures ends { F.gives_bytes journal.old → AreBytes (F.bytes journal.old) → IsHot (F.bytes journal.old)
        → Names (F.bytes journal.old) header.now → HasRead (F.bytes journal.old) replay.now
        → IsOkAnd result (λ end. EndsSegments (F.bytes journal.old) end.0 end.1) }
    ensures read { F.gives_bytes journal.old → IsOk result }
    ensures same { KeepsBytes F.bytes F.gives_bytes journal.old journal.new }
{
    if let Some(place) = last_place(replay, header) {
        let slot = record_at(journal, header.page_size, place, bytes)?;
        return Ok((place.saturating_add(bytes.len() as u64), slot.nonce));
    }
    let stop = replay.stop().at;
    let mut head = [0u8; 16];
    journal.read_at(stop.saturating_sub(u64::from(header.sector)), &mut head)?;
    Ok((stop, word(&head, 12)))
}

/// Prints the record places of a journal from the rest on.
fn show_rest<F: FileBytes, W: Write>(
    journal: &mut F,
    page_size: PageSize,
    rest: Rest,
    bytes: &mut [u8],
    style: Style,
    out: &mut W,
) -> Result<(), ShowError>
    requires { length bytes.old ≡ page_size + 8 }
    ensures text { F.gives_bytes journal.old → OnOk result ((text : List ℕ)
        × AreRecordLines style
        (IsRestLine style page_size (F.bytes journal.old) rest.from rest.first rest.nonce) page_size rest.from
        (F.bytes journal.old) text
        × Appends (W.contents out.old) (W.contents out.new) text) }
    ensures bytes { F.gives_bytes journal.old → AreBytes (F.bytes journal.old) }
    ensures refused { F.gives_bytes journal.old → IfErr result (IfRefused (λ _. ⊥)) }
    ensures same { KeepsBytes F.bytes F.gives_bytes journal.old journal.new }
{
    let slots = Slots::new(rest.from, bytes.len() as u64, journal.len());
    for i in 0..slots.count {
        let place = slots.place(i);
        let slot = record_at(journal, page_size, place, bytes)?;
        let follows = slot.nonce == rest.nonce;
        write_record_slot(
            out,
            style,
            rest.first.saturating_add(i),
            place,
            &slot,
            follows,
        )?;
    }
    write_end(out, style, SlotKind::Record, slots.count, slots.over)?;
    Ok(())
}

/// Prints the record places of a hot journal from its stop on.
fn show_records<F: FileBytes, W: Write>(
    alloc: Global,
    journal: &mut F,
    replay: &Replay,
    style: Style,
    out: &mut W,
) -> Result<(), ShowError>
    ensures text { F.gives_bytes journal.old → IsHot (F.bytes journal.old) → HasRead (F.bytes journal.old) replay.now
        → OnOk result ((text : List ℕ) × IsBehindRecords style (F.bytes journal.old) text
        × Appends (W.contents out.old) (W.contents out.new) text) }
    ensures refused { F.gives_bytes journal.old → IfErr result (IfRefused (λ refusal. refusal ≡ NoMemory)) }
{
    let hot = hot_header(journal)?;
    let Some(header) = hot else {
        return Ok(());
    };
    let mut record = vec![in alloc; 0u8; header.page_size.get() as usize + 8]?;
    let end = end_of_segments(journal, &header, replay, &mut record)?;
    let first = (replay.count() as u64).saturating_add(1);
    let rest = Rest {
        from: end.0,
        first,
        nonce: end.1,
    };
    show_rest(journal, header.page_size, rest, &mut record, style, out)
}

/// The page size that a database file's header names; none where it is no such header.
fn page_size_of<F: FileBytes>(db: &mut F) -> Result<Option<PageSize>, SourceError>
    ensures { F.gives_bytes db.old → IsOkAnd result (NamesSize (F.bytes db.old)) }
{
    let mut head = [0u8; 100];
    db.read_at(0, &mut head)?;
    match DbHeader::read(&head) {
        Ok(header) => Ok(Some(header.page_size)),
        Err(_) => Ok(None),
    }
}

/// Whether a journal's first header was overwritten with zeros.
fn has_zeros<F: FileBytes>(journal: &mut F) -> Result<bool, SourceError>
    ensures zeros { F.gives_bytes journal.old
        → IsOkAnd result (λ zeros. IsTrue zeros ↔ BeginsZeroed (F.bytes journal.old)) }
    ensures same { KeepsBytes F.bytes F.gives_bytes journal.old journal.new }
{
    let mut head = [0u8; 28];
    journal.read_at(0, &mut head)?;
    Ok(journal.len() >= 28 && is_zeroed(&head))
}

/// Record i, from 0, behind a header that was overwritten with zeros; none behind the last one.
fn record_in<F: FileBytes>(
    journal: &mut F,
    slots: Slots,
    i: u64,
    page_size: PageSize,
    bytes: &mut [u8],
) -> Result<Option<RecordSlot>, SourceError>
    requires whole { length bytes.old ≡ page_size + 8 }
    requires from { slots.from ≡ 512 }
    requires long { slots.length ≡ page_size + 8 }
    ensures slot { F.gives_bytes journal.old → slots.count ≡ slots_from 512 (page_size + 8) (F.bytes journal.old)
        → length (F.bytes journal.old) < 2 ^ 64
        → IsOkAnd result (IsRecordOf page_size (F.bytes journal.old) slots.count i) }
    ensures same { KeepsBytes F.bytes F.gives_bytes journal.old journal.new }
{
    if i >= slots.count {
        return Ok(None);
    }
    match record_at(journal, page_size, slots.place(i), bytes) {
        Ok(slot) => Ok(Some(slot)),
        Err(error) => Err(error),
    }
}

/// The nonce of a record, if there is one.
fn nonce_of(slot: Option<RecordSlot>) -> Option<u32>
    ensures { result ≡ option_map (λ s. s.nonce) slot }
{
    match slot {
        Some(slot) => Some(slot.nonce),
        None => None,
    }
}

/// Whether a record follows that stands between others with these nonces: one of them has its nonce. Zeros are no
/// record, though they have one nonce.
fn has_fellow(before: Option<u32>, slot: RecordSlot, next: Option<u32>) -> bool
    ensures fits { slot.nonce < 2 ^ 32 }
    ensures fellow { IsTrue result ↔ ((slot.page ≢ 0) × ((before ≡ Some slot.nonce) ⊎ (next ≡ Some slot.nonce))) }
{
    let nonce = Some(slot.nonce);
    slot.page != 0 && (before == nonce || next == nonce)
}

/// Prints the records behind a first header that was overwritten with zeros. A record follows where it and the one
/// before it or behind it have the same nonce.
fn show_zeroed<F: FileBytes, W: Write>(
    page_size: PageSize,
    journal: &mut F,
    bytes: &mut [u8],
    style: Style,
    out: &mut W,
) -> Result<(), ShowError>
    requires { length bytes.old ≡ page_size + 8 }
    ensures text { F.gives_bytes journal.old → OnOk result ((text : List ℕ) × AreRecordLines style
        (IsZeroedLine style page_size (slots_from 512 (page_size + 8) (F.bytes journal.old)) (F.bytes journal.old))
        page_size 512 (F.bytes journal.old) text × Appends (W.contents out.old) (W.contents out.new) text) }
    ensures refused { F.gives_bytes journal.old → IfErr result (IfRefused (λ _. ⊥)) }
{
    let slots = Slots::new(ZEROED_SECTOR, bytes.len() as u64, journal.len());
    let mut before = None;
    for i in 0..slots.count {
        let place = slots.place(i);
        let slot = record_at(journal, page_size, place, bytes)?;
        let number = i.saturating_add(1);
        let next = record_in(journal, slots, number, page_size, bytes)?;
        let follows = has_fellow(before, slot, nonce_of(next));
        write_record_slot(out, style, number, place, &slot, follows)?;
        before = Some(slot.nonce);
    }
    write_end(out, style, SlotKind::Record, slots.count, slots.over)?;
    Ok(())
}

/// Prints the records of a journal that doesn't count behind a header that was overwritten with zeros, beside a
/// database whose header names a page size.
fn show_zeros<F: FileBytes, W: Write>(
    alloc: Global,
    files: &mut Contents<F>,
    style: Style,
    out: &mut W,
) -> Result<(), ShowError>
    ensures text { AreGiven F.gives_bytes files.old → OnOk result ((text : List ℕ)
        × IsBehindZeros style (F.bytes files.old.db) (F.bytes files.old.journal) text
        × Appends (W.contents out.old) (W.contents out.new) text) }
    ensures refused { AreGiven F.gives_bytes files.old
        → IfErr result (IfRefused (λ refusal. refusal ≡ NoMemory)) }
{
    if !has_zeros(&mut files.journal)? {
        return Ok(());
    }
    let Some(page_size) = page_size_of(&mut files.db)? else {
        return Ok(());
    };
    let mut record = vec![in alloc; 0u8; page_size.get() as usize + 8]?;
    show_zeroed(page_size, &mut files.journal, &mut record, style, out)
}

/// Prints what stands behind the stop of the log that was shown, and where none counts, behind a journal's header that
/// was overwritten with zeros.
pub(crate) fn show_behind<F: FileBytes, W: Write>(
    alloc: Global,
    files: &mut Contents<F>,
    shown: &Shown,
    style: Style,
    out: &mut W,
) -> Result<(), ShowError>
    ensures text { AreGiven F.gives_bytes files.old → (limits : Bounds)
        → IsShownLog limits (F.bytes files.old.wal) (F.bytes files.old.journal) shown.now
        → OnOk result ((text : List ℕ) × IsBehindText style (contents_of F.bytes files.old) text
        × Appends (W.contents out.old) (W.contents out.new) text) }
    ensures refused { AreGiven F.gives_bytes files.old → (limits : Bounds)
        → IsShownLog limits (F.bytes files.old.wal) (F.bytes files.old.journal) shown.now
        → IfErr result (IfRefused (λ refusal. refusal ≡ NoMemory)) }
{
    match shown {
        Shown::Refused => Ok(()),
        Shown::Wal(scan) => show_frames(alloc, &mut files.wal, scan, style, out),
        Shown::Journal(replay) => show_records(alloc, &mut files.journal, replay, style, out),
        Shown::Neither => show_zeros(alloc, files, style, out),
    }
}
