//! How a row is told from the others of its table.
ghost use Rattle.std.specs.Prelude.{◌≡◌, ℕ, ◌+◌, ◌<◌, ◌^◌, ◌++◌, List, OnOk, option_map};
ghost use Rattle.std.specs.Io.KnownBytes.{Appends};
ghost use Rattle.sqval.specs.Datum.{datum_of};
ghost use Rattle.cli_change_text.specs.Names.{AreKeyColumns, IsKeyColumn, IsRowName, collation_text, column_at};
ghost use Rattle.cli_change_text.specs.Names.{column_text, name_at};
ghost use Rattle.cli_change_text.specs.Names.{compared_by, key_end, key_label, label_in, mark_at, mark_in, notation_in};
ghost use Rattle.cli_change_text.specs.Names.{rowid_label, rowid_text, sign_in, stored_in, stored_name};

use crate::style::{Naming, Style};
use cli_row_text::{Form, Notation, write_between, write_integer, write_string, write_value};
use sqkeydiff::KeyOrder;
use sqlite_value::keys::Collation;
use sqrows::Row;
use sqtables::Columns;
use sqval::{Record, Value};
use std::io::{self, Write};

/// The name of column `j`, if it has one.
pub(crate) fn write_name<W: Write>(out: &mut W, name: Option<&Vec<u8>>, j: usize) -> io::Result<()>
    requires { j + 1 < 2 ^ 64 }
    ensures { OnOk result (Appends (W.contents out.old) (W.contents out.new)
        (column_text (option_map (λ n. n.now.items) name.entry) j)) }
{
    match name {
        Some(name) => write_between(out, b'"', name),
        None => {
            let number = j + 1;
            write!(out, "c{number}")
        }
    }
}

/// The notation in which values stand.
fn notation_in(naming: Naming) -> Notation
    ensures { result ≡ notation_in naming }
{
    match naming {
        Naming::InLine | Naming::InCondition => Notation::Sql,
        Naming::InObject => Notation::Json,
    }
}

/// What stands between the name of a column and its value.
fn sign_in(naming: Naming) -> &'static str
    ensures { result.now ≡ sign_in naming }
{
    match naming {
        Naming::InLine => " ",
        Naming::InObject => ":",
        Naming::InCondition => " IS ",
    }
}

/// What stands between two columns.
fn mark_in(naming: Naming) -> &'static str
    ensures { result.now ≡ mark_in naming }
{
    match naming {
        Naming::InLine => ", ",
        Naming::InObject => ",",
        Naming::InCondition => " AND ",
    }
}

/// What stands before a column at this place of a key.
fn mark_at(naming: Naming, place: usize) -> &'static str
    ensures { result.now ≡ mark_at naming place }
{
    if place == 0 { "" } else { mark_in(naming) }
}

/// The words of a collation.
fn collation_text(collation: Collation) -> &'static str
    ensures { result.now ≡ collation_text collation }
{
    match collation {
        Collation::Binary => " COLLATE BINARY",
        Collation::NoCase => " COLLATE NOCASE",
        Collation::RTrim => " COLLATE RTRIM",
    }
}

/// What stands behind a value, so that it is compared as the key has it.
fn compared_by(naming: Naming, collation: Collation, value: Value<'_>) -> &'static str
    ensures { result.now ≡ compared_by naming collation (datum_of value.entry) }
{
    match (naming, value) {
        (Naming::InCondition, Value::Text(_)) => collation_text(collation),
        _ => "",
    }
}

/// The name of a column.
pub(crate) fn name_at(columns: &Columns, at: Option<usize>) -> Option<&Vec<u8>>
    ensures { option_map (λ n. n.now.items) result ≡ name_at columns.now at }
{
    match at {
        Some(i) => columns.names.get(i),
        None => None,
    }
}

/// The column that rows store at a place.
fn column_at(columns: &Columns, place: usize) -> Option<usize>
    ensures { result ≡ column_at columns.now place }
{
    let places = columns.places.as_slice();
    places.iter().position(|at| *at == place)
}

/// The name of the column that rows store at a place.
fn stored_name(columns: &Columns, place: usize) -> Option<&Vec<u8>>
    ensures { option_map (λ n. n.now.items) result ≡ stored_name columns.now place }
{
    name_at(columns, column_at(columns, place))
}

/// The name of a column at this place of a key.
fn write_label<W: Write>(
    out: &mut W,
    naming: Naming,
    name: Option<&Vec<u8>>,
    place: usize,
) -> io::Result<()>
    requires { place + 1 < 2 ^ 64 }
    ensures { OnOk result (Appends (W.contents out.old) (W.contents out.new)
        (label_in naming (option_map (λ n. n.now.items) name.entry) place)) }
{
    match (naming, name) {
        (Naming::InObject, Some(name)) => write_string(out, name),
        (Naming::InObject, None) => {
            let number = place + 1;
            write!(out, "\"c{number}\"")
        }
        _ => write_name(out, name, place),
    }
}

/// A column at this place of a key.
fn write_key_column<W: Write>(
    out: &mut W,
    naming: Naming,
    style: Style<'_>,
    collation: Collation,
    place: usize,
    value: Value<'_>,
) -> io::Result<()>
    requires { place + 1 < 2 ^ 64 }
    ensures { OnOk result ((t : List ℕ) × IsKeyColumn style.entry.encoding naming style.entry.columns.now collation
        place (datum_of value.entry) t
        × Appends (W.contents out.old) (W.contents out.new) t) }
{
    let form = Form {
        notation: notation_in(naming),
        encoding: style.encoding,
    };
    out.write_all(mark_at(naming, place).as_bytes())?;
    write_label(out, naming, stored_name(style.columns, place), place)?;
    out.write_all(sign_in(naming).as_bytes())?;
    write_value(out, form, value)?;
    out.write_all(compared_by(naming, collation, value).as_bytes())
}

/// What a row stores at a place.
fn stored_in<'a>(values: &Record<'a>, place: usize) -> Value<'a>
    ensures { datum_of result ≡ stored_in values.now place }
{
    match values.column(place) {
        Some(value) => value,
        None => Value::Null,
    }
}

/// The columns of a key.
fn write_key_columns<W: Write>(
    out: &mut W,
    naming: Naming,
    style: Style<'_>,
    key: KeyOrder,
    values: &Record<'_>,
) -> io::Result<()>
    ensures { OnOk result ((t : List ℕ) × AreKeyColumns style.entry.encoding naming style.entry.columns.now key.order
        values.now 0 key.width t
        × Appends (W.contents out.old) (W.contents out.new) t) }
{
    let mut order = key.order;
    for place in 0..key.width {
        let sorted = order.first();
        let value = stored_in(values, place);
        write_key_column(out, naming, style, sorted.collation, place, value)?;
        order = order.later();
    }
    Ok(())
}

/// The rowid of a row.
fn write_rowid<W: Write>(out: &mut W, notation: Notation, rowid: Option<i64>) -> io::Result<()>
    ensures { OnOk result (Appends (W.contents out.old) (W.contents out.new) (rowid_text notation rowid)) }
{
    match rowid {
        Some(id) => write_integer(out, notation, id),
        None => Ok(()),
    }
}

/// What stands before a rowid.
fn rowid_label(naming: Naming) -> &'static str
    ensures { result.now ≡ rowid_label naming }
{
    match naming {
        Naming::InLine | Naming::InCondition => "",
        Naming::InObject => "\",\"rowid\":",
    }
}

/// What stands before a key, and behind it.
fn key_labels(naming: Naming) -> (&'static str, &'static str)
    ensures { (result.0.now ≡ key_label naming) × (result.1.now ≡ key_end naming) }
{
    match naming {
        Naming::InLine | Naming::InCondition => ("", ""),
        Naming::InObject => ("\",\"key\":{", "}"),
    }
}

/// The rowid that names a row.
fn write_rowid_name<W: Write>(out: &mut W, naming: Naming, rowid: Option<i64>) -> io::Result<()>
    ensures { OnOk result (Appends (W.contents out.old) (W.contents out.new)
        (rowid_label naming ++ rowid_text (notation_in naming) rowid)) }
{
    out.write_all(rowid_label(naming).as_bytes())?;
    write_rowid(out, notation_in(naming), rowid)
}

/// The key that names a row.
fn write_key_name<W: Write>(
    out: &mut W,
    naming: Naming,
    style: Style<'_>,
    key: KeyOrder,
    values: &Record<'_>,
) -> io::Result<()>
    ensures { OnOk result ((t : List ℕ) × ((all : List ℕ)
        × AreKeyColumns style.entry.encoding naming style.entry.columns.now key.order values.now 0 key.width all
        × (t ≡ key_label naming ++ (all ++ key_end naming))) × Appends (W.contents out.old) (W.contents out.new) t) }
{
    let (label, end) = key_labels(naming);
    out.write_all(label.as_bytes())?;
    write_key_columns(out, naming, style, key, values)?;
    out.write_all(end.as_bytes())
}

/// What names a row.
pub(crate) fn write_row_name<W: Write>(
    out: &mut W,
    naming: Naming,
    style: Style<'_>,
    row: &Row<'_>,
) -> io::Result<()>
    ensures { OnOk result ((t : List ℕ) × IsRowName style.entry.encoding naming style.entry.columns.now style.entry.key
        (record { rowid = row.now.rowid; values = row.now.values }) t
        × Appends (W.contents out.old) (W.contents out.new) t) }
{
    match style.key {
        Some(key) => write_key_name(out, naming, style, key, &row.values),
        None => write_rowid_name(out, naming, row.rowid),
    }
}
