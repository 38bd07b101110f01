//! A row as a line.
ghost use Rattle.std.specs.Prelude.{◌≡◌, ℕ, ◌<◌, ◌^◌, ◌++◌, List, OnOk, map, option_map};
ghost use Rattle.std.specs.Io.KnownBytes.{Appends};
ghost use Rattle.sqval.specs.Datum.{datum_of, row_of};
ghost use Rattle.cli_row_text.specs.Lines.{mark_before, name_text, label, AreTexts, line_start, line_end};
ghost use Rattle.cli_row_text.specs.Lines.{IsLine, IsText, lead_label, lead_text};

use crate::form::{Form, Notation};
use crate::value::{write_integer, write_string, write_value};
use sqval::Value;
use std::io::{self, Write};

/// What stands before value `i`.
fn write_mark<W: Write>(out: &mut W, i: usize) -> io::Result<()>
    ensures { OnOk result (Appends (W.contents out.old) (W.contents out.new) (mark_before i)) }
{
    if i == 0 { Ok(()) } else { out.write_all(b",") }
}

/// The name of value `i` as a string of JSON.
fn write_name<W: Write>(out: &mut W, name: Option<&Vec<u8>>, i: usize) -> io::Result<()>
    requires { i < 2 ^ 63 }
    ensures { OnOk result (Appends (W.contents out.old) (W.contents out.new)
        (name_text (option_map (λ n. n.now.items) name.entry) i)) }
{
    match name {
        Some(name) => write_string(out, name),
        None => {
            let number = i + 1;
            write!(out, "\"c{number}\"")
        }
    }
}

/// The name of value `i`.
fn write_label<W: Write>(
    out: &mut W,
    notation: Notation,
    names: &[Vec<u8>],
    i: usize,
) -> io::Result<()>
    requires { i < 2 ^ 63 }
    ensures { OnOk result (Appends (W.contents out.old) (W.contents out.new)
        (label notation (map (λ n. n.items) names.now) i)) }
{
    match notation {
        Notation::Json => {
            write_name(out, names.get(i), i)?;
            out.write_all(b":")
        }
        Notation::Csv | Notation::Sql => Ok(()),
    }
}

/// What a line begins with.
fn write_start<W: Write>(out: &mut W, notation: Notation, insert: &[u8]) -> io::Result<()>
    ensures { OnOk result (Appends (W.contents out.old) (W.contents out.new) (line_start notation insert.now)) }
{
    match notation {
        Notation::Json => out.write_all(b"{"),
        Notation::Csv => Ok(()),
        Notation::Sql => out.write_all(insert),
    }
}

/// What a line ends with.
fn write_end<W: Write>(out: &mut W, notation: Notation) -> io::Result<()>
    ensures { OnOk result (Appends (W.contents out.old) (W.contents out.new) (line_end notation)) }
{
    match notation {
        Notation::Json => out.write_all(b"}\n"),
        Notation::Csv => out.write_all(b"\n"),
        Notation::Sql => out.write_all(b");\n"),
    }
}

/// Value `i` of a row, behind what stands before it.
fn write_part<W: Write>(
    out: &mut W,
    form: Form,
    names: &[Vec<u8>],
    i: usize,
    value: Value<'_>,
) -> io::Result<()>
    requires { i < 2 ^ 63 }
    ensures { OnOk result ((t : List ℕ) × IsText form (datum_of value.entry) t
        × Appends (W.contents out.old) (W.contents out.new)
        (mark_before i ++ (label form.notation (map (λ n. n.items) names.now) i ++ t))) }
{
    write_mark(out, i)?;
    write_label(out, form.notation, names, i)?;
    write_value(out, form, value)
}

/// The values of a row whose columns have these names. An error of the writer.
pub fn write_values<W: Write>(
    out: &mut W,
    form: Form,
    names: &[Vec<u8>],
    values: &[Value<'_>],
) -> io::Result<()>
    ensures { OnOk result ((t : List ℕ) × AreTexts form (map (λ n. n.items) names.now) 0 (row_of values.now) t
        × Appends (W.contents out.old) (W.contents out.new) t) }
{
    for (i, value) in values.iter().enumerate() {
        write_part(out, form, names, i, *value)?;
    }
    Ok(())
}

/// The name of a rowid before the values.
fn write_lead_label<W: Write>(out: &mut W, notation: Notation) -> io::Result<()>
    ensures { OnOk result (Appends (W.contents out.old) (W.contents out.new) (lead_label notation)) }
{
    match notation {
        Notation::Json => out.write_all(b"\"rowid\":"),
        Notation::Csv | Notation::Sql => Ok(()),
    }
}

/// The rowid before so many values, where it is written.
fn write_lead<W: Write>(
    out: &mut W,
    notation: Notation,
    rowid: Option<i64>,
    count: usize,
) -> io::Result<()>
    ensures { OnOk result (Appends (W.contents out.old) (W.contents out.new) (lead_text notation rowid count)) }
{
    match rowid {
        Some(id) => {
            write_lead_label(out, notation)?;
            write_integer(out, notation, id)?;
            write_mark(out, count)
        }
        None => Ok(()),
    }
}

/// The line of a row whose columns have these names, and whose rowid stands before its values where it is given.
/// `insert` is what stands before the values of an INSERT. An error of the writer.
pub fn write_line<W: Write>(
    out: &mut W,
    form: Form,
    insert: &[u8],
    names: &[Vec<u8>],
    rowid: Option<i64>,
    values: &[Value<'_>],
) -> io::Result<()>
    ensures { OnOk result ((t : List ℕ)
        × IsLine form insert.now (map (λ n. n.items) names.now) rowid (row_of values.now) t
        × Appends (W.contents out.old) (W.contents out.new) t) }
{
    write_start(out, form.notation, insert)?;
    write_lead(out, form.notation, rowid, values.len())?;
    write_values(out, form, names, values)?;
    write_end(out, form.notation)
}
