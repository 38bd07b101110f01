//! A change of a row.
ghost use Rattle.std.specs.Prelude.{◌≡◌, ℕ, List, OnOk, IfErr};
ghost use Rattle.std.specs.Io.KnownBytes.{Appends};
ghost use Rattle.sqval.specs.Datum.{row_of};
ghost use Rattle.sqtables.specs.Columns.{shown};
ghost use Rattle.sqdiff.specs.Changes.{changed};
ghost use Rattle.cli_change_text.specs.declared.style.Writing.{Writing};
ghost use Rattle.cli_change_text.specs.Changes.{IsChangedText, IsTextIn};
ghost use Rattle.cli_change_text.specs.Refusals.{IsKept, IsUnwritable, IsUnwritableChange, IsUnwritten, side_of};
ghost use Rattle.cli_change_text.specs.internal.Steps.{IsBegunChanged, IsBegunOne, IsChangedObject};

use crate::differences::write_differences;
use crate::name::write_row_name;
use crate::one::{write_arrival, write_member, write_object_start, write_one, write_removal};
use crate::style::{Naming, Style, Writing};
use cli_show_rows::Stop;
use sqrows::Row;
use sqval::Value;
use std::alloc::Global;
use std::io::{self, Write};

/// Refused where nothing names a row, not each value of it is known, or an INSERT can't have them all.
fn written_whole(row: &Row<'_>, style: Style<'_>) -> Result<(), Stop>
    ensures { IfErr result (IsUnwritable style.entry.writing style.entry.key style.entry.columns.now
        (record { rowid = row.now.rowid; values = row.now.values })) }
{
    if row.rowid.is_none() && style.key.is_none() {
        return Err(Stop::NotUnderstood);
    }
    if row.values.len() < style.columns.needed {
        return Err(Stop::Default);
    }
    if style.writing == Writing::Arrival && row.values.len() > style.columns.names.len() {
        return Err(Stop::Behind);
    }
    Ok(())
}

/// A row that came or went, behind what stands before it.
fn write_begun<W: Write>(
    out: &mut W,
    style: Style<'_>,
    comes: bool,
    row: &Row<'_>,
    values: &[Value<'_>],
) -> io::Result<()>
    ensures { OnOk result ((t : List ℕ) × IsBegunOne style.entry comes
        (record { rowid = row.now.rowid; values = row.now.values }) (row_of values.now) t
        × Appends (W.contents out.old) (W.contents out.new) t) }
{
    out.write_all(style.before)?;
    write_one(out, style, comes, row, values)
}

/// Writes a row that came, or that went, in this style. Refused by `NotUnderstood` where it has no rowid and the order
/// of its table's keys isn't known, by `Default` where it lacks a column whose default isn't known, and by `Behind`
/// where an INSERT can't name all of its columns.
pub fn write_one_side<W: Write>(
    alloc: Global,
    row: &Row<'_>,
    comes: bool,
    style: Style<'_>,
    out: &mut W,
) -> Result<(), Stop>
    ensures ok { OnOk result ((t : List ℕ) × IsTextIn style.entry
        (side_of comes (record { rowid = row.now.rowid; values = row.now.values })) t
        × Appends (W.contents out.old) (W.contents out.new) t) }
    ensures err { IfErr result (IsUnwritten style.entry.writing style.entry.key style.entry.columns.now
        (side_of comes (record { rowid = row.now.rowid; values = row.now.values }))) }
    ensures kept { IfErr result (λ stop. IsKept stop (W.contents out.old) (W.contents out.new)) }
{
    match written_whole(row, style) {
        Ok(()) => {}
        Err(stop) => return Err(stop),
    }
    let values = match style.columns.shown(alloc, row) {
        Ok(values) => values,
        Err(_) => return Err(Stop::NoMemory),
    };
    match write_begun(out, style, comes, row, &values) {
        Ok(()) => Ok(()),
        Err(error) => Err(Stop::Write(error)),
    }
}

/// The line of a row that changed.
fn write_changed_line<W: Write>(
    out: &mut W,
    style: Style<'_>,
    old: &Row<'_>,
    new: &Row<'_>,
) -> io::Result<()>
    ensures { OnOk result ((t : List ℕ) × IsChangedText style.entry.encoding Writing.Line style.entry.head.now
        style.entry.columns.now
        style.entry.leads style.entry.key (record { rowid = old.now.rowid; values = old.now.values })
        (record { rowid = new.now.rowid; values = new.now.values }) t
        × Appends (W.contents out.old) (W.contents out.new) t) }
{
    out.write_all(b"~ ")?;
    write_row_name(out, Naming::InLine, style, new)?;
    out.write_all(b": ")?;
    write_differences(out, style, old, new)?;
    out.write_all(b"\n")
}

/// The object of a row that changed, whose columns showed these values and show those.
fn write_changed_object<W: Write>(
    out: &mut W,
    style: Style<'_>,
    row: &Row<'_>,
    was: &[Value<'_>],
    is: &[Value<'_>],
) -> io::Result<()>
    ensures { OnOk result ((t : List ℕ) × IsChangedObject style.entry
        (record { rowid = row.now.rowid; values = row.now.values }) (row_of was.now) (row_of is.now) t
        × Appends (W.contents out.old) (W.contents out.new) t) }
{
    let names = &style.columns.names;
    write_object_start(out, style, "update", row)?;
    write_member(out, style.encoding, ",\"old\":{", names, was)?;
    write_member(out, style.encoding, ",\"new\":{", names, is)?;
    out.write_all(b"}\n")
}

/// A row that changed, whose columns showed these values and show those.
fn write_changed_values<W: Write>(
    out: &mut W,
    style: Style<'_>,
    old: &Row<'_>,
    new: &Row<'_>,
    was: &[Value<'_>],
    is: &[Value<'_>],
) -> io::Result<()>
    requires was { row_of was.now ≡ shown style.columns.now
        (record { rowid = old.now.rowid; values = old.now.values }) }
    requires is { row_of is.now ≡ shown style.columns.now (record { rowid = new.now.rowid; values = new.now.values }) }
    ensures { OnOk result ((t : List ℕ) × IsBegunChanged style.entry
        (record { rowid = old.now.rowid; values = old.now.values })
        (record { rowid = new.now.rowid; values = new.now.values }) t
        × Appends (W.contents out.old) (W.contents out.new) t) }
{
    out.write_all(style.before)?;
    match style.writing {
        Writing::Line => write_changed_line(out, style, old, new),
        Writing::Object(_) => write_changed_object(out, style, new, was, is),
        Writing::Removal => write_removal(out, style, old),
        Writing::Arrival => write_arrival(out, style, new.rowid, is),
    }
}

/// Refused where one of two rows is.
fn both_whole(old: &Row<'_>, new: &Row<'_>, style: Style<'_>) -> Result<(), Stop>
    ensures { IfErr result (IsUnwritableChange style.entry.writing style.entry.key style.entry.columns.now
        (changed (record { rowid = old.now.rowid; values = old.now.values })
        (record { rowid = new.now.rowid; values = new.now.values }))) }
{
    match written_whole(old, style) {
        Ok(()) => written_whole(new, style),
        Err(stop) => Err(stop),
    }
}

/// Writes a row that has other values now, in this style. Refused as `write_one_side` is, for either row.
pub fn write_changed<W: Write>(
    alloc: Global,
    old: &Row<'_>,
    new: &Row<'_>,
    style: Style<'_>,
    out: &mut W,
) -> Result<(), Stop>
    ensures ok { OnOk result ((t : List ℕ) × IsTextIn style.entry
        (changed (record { rowid = old.now.rowid; values = old.now.values })
        (record { rowid = new.now.rowid; values = new.now.values })) t
        × Appends (W.contents out.old) (W.contents out.new) t) }
    ensures err { IfErr result (IsUnwritten style.entry.writing style.entry.key style.entry.columns.now
        (changed (record { rowid = old.now.rowid; values = old.now.values })
        (record { rowid = new.now.rowid; values = new.now.values }))) }
    ensures kept { IfErr result (λ stop. IsKept stop (W.contents out.old) (W.contents out.new)) }
{
    match both_whole(old, new, style) {
        Ok(()) => {}
        Err(stop) => return Err(stop),
    }
    let was = match style.columns.shown(alloc, old) {
        Ok(values) => values,
        Err(_) => return Err(Stop::NoMemory),
    };
    let is = match style.columns.shown(alloc, new) {
        Ok(values) => values,
        Err(_) => return Err(Stop::NoMemory),
    };
    match write_changed_values(out, style, old, new, &was, &is) {
        Ok(()) => Ok(()),
        Err(error) => Err(Stop::Write(error)),
    }
}
