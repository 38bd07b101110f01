//! The line of a deleted cell.
ghost use Rattle.std.specs.Prelude.{ℕ, List, [], OnOk, IfErr};
ghost use Rattle.std.specs.Io.KnownBytes.{Appends};
ghost use Rattle.sqval.specs.Datum.{row_of};
ghost use Rattle.sqdeleted.specs.Deleted.{BeginsRecord};
ghost use Rattle.cli_row_text.specs.Lines.{AreTexts};
ghost use Rattle.cli_show_deleted.specs.Lines.{IsCellText, colon_text, cut_text, end_text, opening_text, place_text};
ghost use Rattle.cli_show_deleted.specs.Lines.{tail_text, text_with};
ghost use Rattle.cli_show_deleted.specs.Printed.{IsRunOut};

use crate::layout::Layout;
use crate::mark::Mark;
use cli_row_text::{Form, Notation, write_integer, write_values};
use cli_show_rows::Stop;
use sqdeleted::DeletedCell;
use sqval::Value;
use std::io::{self, Write};

/// What stands before the page of a cell of this mark.
pub(crate) fn write_opening<W: Write>(out: &mut W, mark: Mark, notation: Notation) -> io::Result<()>
    ensures { OnOk result (Appends (W.contents out.old) (W.contents out.new) (opening_text mark notation)) }
{
    match notation {
        Notation::Json => match mark {
            Mark::Stands => out.write_all(b"{"),
            Mark::Went => out.write_all(b"{\"change\":\"delete\","),
            Mark::Came => out.write_all(b"{\"change\":\"insert\","),
            Mark::InFrame(frame) => write!(out, "{{\"frame\":{frame},"),
        },
        Notation::Csv | Notation::Sql => match mark {
            Mark::Stands => out.write_all(b""),
            Mark::Went => out.write_all(b"- "),
            Mark::Came => out.write_all(b"+ "),
            Mark::InFrame(frame) => write!(out, "frame {frame} "),
        },
    }
}

/// The page of a cell and its place there.
fn write_place<W: Write>(out: &mut W, notation: Notation, cell: &DeletedCell<'_>) -> io::Result<()>
    ensures { OnOk result (Appends (W.contents out.old) (W.contents out.new) (place_text notation cell.now)) }
{
    let (page, at, size) = (cell.page, cell.at, cell.size);
    match notation {
        Notation::Json => {
            write!(
                out,
                "\"page\":{page},\"at\":{at},\"size\":{size},\"rowid\":"
            )
        }
        Notation::Csv | Notation::Sql => write!(out, "page {page} at {at} rowid "),
    }
}

/// What stands between its rowid and its values.
fn write_colon<W: Write>(out: &mut W, notation: Notation) -> io::Result<()>
    ensures { OnOk result (Appends (W.contents out.old) (W.contents out.new) (colon_text notation)) }
{
    match notation {
        Notation::Json => out.write_all(b",\"values\":{"),
        Notation::Csv | Notation::Sql => out.write_all(b": "),
    }
}

/// What stands behind the values where the payload goes on in other pages.
fn write_cut<W: Write>(out: &mut W, notation: Notation, overflow: u32) -> io::Result<()>
    ensures { OnOk result (Appends (W.contents out.old) (W.contents out.new) (cut_text notation overflow)) }
{
    match notation {
        Notation::Json => write!(out, "}},\"overflow\":{overflow}}}\n"),
        Notation::Csv | Notation::Sql => write!(out, " .. page {overflow}\n"),
    }
}

/// The same where it doesn't.
pub(crate) fn write_end<W: Write>(out: &mut W, notation: Notation) -> io::Result<()>
    ensures { OnOk result (Appends (W.contents out.old) (W.contents out.new) (end_text notation)) }
{
    match notation {
        Notation::Json => out.write_all(b"}}\n"),
        Notation::Csv | Notation::Sql => out.write_all(b"\n"),
    }
}

/// What stands behind the values.
fn write_tail<W: Write>(out: &mut W, notation: Notation, cell: &DeletedCell<'_>) -> io::Result<()>
    ensures { OnOk result (Appends (W.contents out.old) (W.contents out.new) (tail_text notation cell.now)) }
{
    if (cell.local.len() as u64) < cell.payload {
        write_cut(out, notation, cell.overflow)
    } else {
        write_end(out, notation)
    }
}

/// A cell of this mark with the values that stand whole in its page.
fn write_cell<W: Write>(
    out: &mut W,
    mark: Mark,
    form: Form,
    cell: &DeletedCell<'_>,
    values: &[Value<'_>],
) -> io::Result<()>
    ensures { OnOk result ((all : List ℕ) × AreTexts form [] 0 (row_of values.now) all
        × Appends (W.contents out.old) (W.contents out.new) (text_with mark form.notation cell.now all)) }
{
    write_opening(out, mark, form.notation)?;
    write_place(out, form.notation, cell)?;
    write_integer(out, form.notation, cell.rowid)?;
    write_colon(out, form.notation)?;
    write_values(out, form, &[], values)?;
    write_tail(out, form.notation, cell)
}

/// Prints a cell of this mark.
pub(crate) fn print_cell<W: Write>(
    out: &mut W,
    mark: Mark,
    layout: Layout,
    cell: &DeletedCell<'_>,
) -> Result<(), Stop>
    ensures ok { BeginsRecord cell.now.payload cell.now.local.now → OnOk result ((t : List ℕ)
        × IsCellText mark layout.form cell.now t × Appends (W.contents out.old) (W.contents out.new) t) }
    ensures err { IfErr result IsRunOut }
{
    match cell.values(layout.alloc) {
        Ok(values) => match write_cell(out, mark, layout.form, cell, &values) {
            Ok(()) => Ok(()),
            Err(error) => Err(Stop::Write(error)),
        },
        Err(_) => Err(Stop::NoMemory),
    }
}
