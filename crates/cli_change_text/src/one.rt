//! A row that came or went.
ghost use Rattle.std.specs.Prelude.{◌≡◌, ℕ, List, OnOk, map};
ghost use Rattle.std.specs.Io.KnownBytes.{Appends};
ghost use Rattle.sqval.specs.Datum.{row_of};
ghost use Rattle.cli_row_text.specs.Printed.{led_by};
ghost use Rattle.cli_change_text.specs.Changes.{IsArrival, IsLineOf, IsMember, IsObjectOf, IsOneText, object_start};
ghost use Rattle.cli_change_text.specs.Changes.{member_of, removal_text, sign_of, word_of};
ghost use Rattle.cli_change_text.specs.Names.{IsRowName, names_of};
ghost use Rattle.cli_change_text.specs.declared.style.Naming.{Naming};

use crate::name::write_row_name;
use crate::style::{Naming, Style, Writing};
use cli_row_text::{Form, Notation, write_line, write_values};
use sqdeep::Encoding;
use sqrows::Row;
use sqval::Value;
use std::io::{self, Write};

/// The sign of a row that came, or went.
fn sign_of(comes: bool) -> &'static str
    ensures { result.now ≡ sign_of comes }
{
    if comes { "+ " } else { "- " }
}

/// The word for it.
fn word_of(comes: bool) -> &'static str
    ensures { result.now ≡ word_of comes }
{
    if comes { "insert" } else { "delete" }
}

/// What the member of an object begins with that has the row.
fn member_of(comes: bool) -> &'static str
    ensures { result.now ≡ member_of comes }
{
    if comes { ",\"new\":{" } else { ",\"old\":{" }
}

/// The line of a row behind a sign.
fn write_row<W: Write>(
    out: &mut W,
    sign: &str,
    style: Style<'_>,
    row: &Row<'_>,
    values: &[Value<'_>],
) -> io::Result<()>
    ensures { OnOk result ((t : List ℕ) × ((name : List ℕ) × IsRowName style.entry.encoding Naming.InLine
        style.entry.columns.now
        style.entry.key (record { rowid = row.now.rowid; values = row.now.values }) name
        × IsLineOf style.entry.encoding sign.now (names_of style.entry.columns.now) name (row_of values.now) t)
        × Appends (W.contents out.old) (W.contents out.new) t) }
{
    let form = Form {
        notation: Notation::Sql,
        encoding: style.encoding,
    };
    out.write_all(sign.as_bytes())?;
    write_row_name(out, Naming::InLine, style, row)?;
    out.write_all(b": ")?;
    write_values(out, form, &style.columns.names, values)?;
    out.write_all(b"\n")
}

/// The member of an object that has a row.
pub(crate) fn write_member<W: Write>(
    out: &mut W,
    encoding: Encoding,
    member: &str,
    names: &[Vec<u8>],
    values: &[Value<'_>],
) -> io::Result<()>
    ensures { OnOk result ((t : List ℕ) × IsMember encoding member.now (map (λ n. n.items) names.now) (row_of
        values.now) t
        × Appends (W.contents out.old) (W.contents out.new) t) }
{
    out.write_all(member.as_bytes())?;
    let form = Form {
        notation: Notation::Json,
        encoding,
    };
    write_values(out, form, names, values)?;
    out.write_all(b"}")
}

/// What stands in an object before the rows.
pub(crate) fn write_object_start<W: Write>(
    out: &mut W,
    style: Style<'_>,
    word: &str,
    row: &Row<'_>,
) -> io::Result<()>
    ensures { OnOk result ((name : List ℕ) × IsRowName style.entry.encoding Naming.InObject style.entry.columns.now
        style.entry.key
        (record { rowid = row.now.rowid; values = row.now.values }) name
        × Appends (W.contents out.old) (W.contents out.new) (object_start style.entry.head.now word.now name)) }
{
    out.write_all(style.head)?;
    out.write_all(word.as_bytes())?;
    write_row_name(out, Naming::InObject, style, row)
}

/// The object of a row that came or went.
fn write_object<W: Write>(
    out: &mut W,
    style: Style<'_>,
    comes: bool,
    row: &Row<'_>,
    values: &[Value<'_>],
) -> io::Result<()>
    ensures { OnOk result ((t : List ℕ) × ((name : List ℕ) × IsRowName style.entry.encoding Naming.InObject
        style.entry.columns.now
        style.entry.key (record { rowid = row.now.rowid; values = row.now.values }) name
        × IsObjectOf style.entry.encoding style.entry.head.now comes (names_of style.entry.columns.now) name (row_of
        values.now) t)
        × Appends (W.contents out.old) (W.contents out.new) t) }
{
    write_object_start(out, style, word_of(comes), row)?;
    let names = &style.columns.names;
    write_member(out, style.encoding, member_of(comes), names, values)?;
    out.write_all(b"}\n")
}

/// The DELETE of a row.
pub(crate) fn write_removal<W: Write>(
    out: &mut W,
    style: Style<'_>,
    row: &Row<'_>,
) -> io::Result<()>
    ensures { OnOk result ((name : List ℕ) × IsRowName style.entry.encoding Naming.InCondition style.entry.columns.now
        style.entry.key
        (record { rowid = row.now.rowid; values = row.now.values }) name
        × Appends (W.contents out.old) (W.contents out.new) (removal_text style.entry.head.now name)) }
{
    out.write_all(style.head)?;
    write_row_name(out, Naming::InCondition, style, row)?;
    out.write_all(b";\n")
}

/// The rowid of a row, where it is to stand before the values.
fn led_by(leads: bool, rowid: Option<i64>) -> Option<i64>
    ensures { result ≡ led_by leads rowid }
{
    if leads { rowid } else { None }
}

/// The INSERT of a row.
pub(crate) fn write_arrival<W: Write>(
    out: &mut W,
    style: Style<'_>,
    rowid: Option<i64>,
    values: &[Value<'_>],
) -> io::Result<()>
    ensures { OnOk result ((t : List ℕ) × IsArrival style.entry.encoding style.entry.head.now (map
        (λ n. n.items) style.entry.columns.now.names.items)
        style.entry.leads rowid (row_of values.now) t × Appends (W.contents out.old) (W.contents out.new) t) }
{
    let rowid = led_by(style.leads, rowid);
    let names = &style.columns.names;
    let form = Form {
        notation: Notation::Sql,
        encoding: style.encoding,
    };
    write_line(out, form, style.head, names, rowid, values)
}

/// A row that came or went.
pub(crate) fn write_one<W: Write>(
    out: &mut W,
    style: Style<'_>,
    comes: bool,
    row: &Row<'_>,
    values: &[Value<'_>],
) -> io::Result<()>
    ensures { OnOk result ((t : List ℕ) × IsOneText style.entry.encoding style.entry.writing style.entry.head.now
        style.entry.columns.now
        style.entry.leads style.entry.key comes (record { rowid = row.now.rowid; values = row.now.values })
        (row_of values.now) t × Appends (W.contents out.old) (W.contents out.new) t) }
{
    match style.writing {
        Writing::Line => write_row(out, sign_of(comes), style, row, values),
        Writing::Object(_) => write_object(out, style, comes, row, values),
        Writing::Removal if comes => Ok(()),
        Writing::Removal => write_removal(out, style, row),
        Writing::Arrival if comes => write_arrival(out, style, row.rowid, values),
        Writing::Arrival => Ok(()),
    }
}
