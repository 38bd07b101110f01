//! What stands behind the stop of a log, a line for each slot (own).
ghost use Rattle.std.specs.Prelude.{◌≡◌, OnOk};
ghost use Rattle.std.specs.Io.KnownBytes.{Appends};
ghost use Rattle.cli_text.specs.Behind.{end_text, follows_word, record_slot_text, slot_text};

use crate::fact::{Fact, number, write_facts};
use cli_words::Style;
use sqjournal::RecordSlot;
use sqwal::Slot;
use std::io::{self, Write};

/// What stands in a slot.
#[derive(Clone, Copy, Debug, PartialEq, Eq)]
pub enum SlotKind {
    /// A frame of a write-ahead log.
    Frame,
    /// A record of a journal.
    Record,
}

/// Whether the sum in a slot follows.
fn follows_name(follows: bool) -> &'static str
    ensures { result.now ≡ follows_word follows }
{
    if follows { "yes" } else { "no" }
}

/// The last line: how many slots there were, and the bytes over. An error of the writer.
pub fn write_end<W: Write>(
    out: &mut W,
    style: Style,
    kind: SlotKind,
    count: u64,
    over: u64,
) -> io::Result<()>
    ensures { OnOk result (Appends (W.contents out.old) (W.contents out.new) (end_text style kind count over)) }
{
    match (style, kind) {
        (Style::Lines, SlotKind::Frame) => writeln!(
            out,
            "behind {count} frames, {over} bytes over"
        ),
        (Style::Lines, SlotKind::Record) => {
            writeln!(out, "behind {count} records, {over} bytes over")
        }
        (Style::Json, SlotKind::Frame) => {
            let count = Fact::Number("behind frames", count);
            write_facts(out, style, &[count, Fact::Number("bytes over", over)])
        }
        (Style::Json, SlotKind::Record) => {
            let count = Fact::Number("behind records", count);
            write_facts(out, style, &[count, Fact::Number("bytes over", over)])
        }
    }
}

/// A frame by its number, from 1. An error of the writer.
pub fn write_slot<W: Write>(out: &mut W, style: Style, i: u64, slot: &Slot) -> io::Result<()>
    ensures { OnOk result (Appends (W.contents out.old) (W.contents out.new) (slot_text style i slot.now)) }
{
    let facts = [
        Fact::Number("behind", i),
        number("page", slot.page),
        number("size", slot.size),
        Fact::Salts("salts", slot.salt1, slot.salt2),
        Fact::Text("follows", follows_name(slot.follows)),
    ];
    write_facts(out, style, &facts)
}

/// A record by its number, from 1, and where it begins, in bytes. An error of the writer.
pub fn write_record_slot<W: Write>(
    out: &mut W,
    style: Style,
    i: u64,
    place: u64,
    slot: &RecordSlot,
    follows: bool,
) -> io::Result<()>
    ensures { OnOk result (Appends (W.contents out.old) (W.contents out.new)
        (record_slot_text style i place slot.now follows)) }
{
    let facts = [
        Fact::Number("behind record", i),
        number("page", slot.page),
        Fact::Number("at", place.saturating_add(4)),
        Fact::Text("follows", follows_name(follows)),
    ];
    write_facts(out, style, &facts)
}
