//! The line of a deleted cell that lost its first four bytes.
ghost use Rattle.std.specs.Prelude.{ℕ, List, [], OnOk, IfErr};
ghost use Rattle.std.specs.Io.KnownBytes.{Appends};
ghost use Rattle.sqval.specs.Datum.{row_of};
ghost use Rattle.sqdeleted.specs.Cut.{AreFilled};
ghost use Rattle.cli_row_text.specs.Lines.{AreTexts};
ghost use Rattle.cli_show_deleted.specs.CutLines.{IsCutText, cut_place_text, cut_text_with};
ghost use Rattle.cli_show_deleted.specs.Printed.{IsRunOut};

use crate::cell::{write_end, write_opening};
use crate::layout::Layout;
use crate::mark::Mark;
use cli_row_text::{Form, Notation, write_values};
use cli_show_rows::Stop;
use sqdeleted::CutCell;
use sqval::Value;
use std::io::{self, Write};

/// The page of a cell and its place there, and what else stands before its values.
fn write_cut_place<W: Write>(out: &mut W, notation: Notation, cell: &CutCell<'_>) -> io::Result<()>
    ensures { OnOk result (Appends (W.contents out.old) (W.contents out.new) (cut_place_text notation cell.now)) }
{
    let (page, at, size) = (cell.page, cell.at, cell.size);
    match notation {
        Notation::Json => {
            write!(
                out,
                "\"page\":{page},\"at\":{at},\"size\":{size},\"rowid\":null,\"cut\":4,\"values\":{{"
            )
        }
        Notation::Csv | Notation::Sql => write!(out, "page {page} at {at} rowid ?: "),
    }
}

/// A cell of this mark with the values that are left of it.
fn write_cut_cell<W: Write>(
    out: &mut W,
    mark: Mark,
    form: Form,
    cell: &CutCell<'_>,
    values: &[Value<'_>],
) -> io::Result<()>
    ensures { OnOk result ((all : List ℕ) × AreTexts form [] 0 (row_of values.now) all
        × Appends (W.contents out.old) (W.contents out.new) (cut_text_with mark form.notation cell.now all)) }
{
    write_opening(out, mark, form.notation)?;
    write_cut_place(out, form.notation, cell)?;
    write_values(out, form, &[], values)?;
    write_end(out, form.notation)
}

/// Prints a cell of this mark.
pub(crate) fn print_cut<W: Write>(
    out: &mut W,
    mark: Mark,
    layout: Layout,
    cell: &CutCell<'_>,
) -> Result<(), Stop>
    ensures ok { AreFilled cell.now.types.now cell.now.bodies.now → OnOk result ((t : List ℕ)
        × IsCutText mark layout.form cell.now t × Appends (W.contents out.old) (W.contents out.new) t) }
    ensures err { IfErr result IsRunOut }
{
    match cell.values(layout.alloc) {
        Ok(values) => match write_cut_cell(out, mark, layout.form, cell, &values) {
            Ok(()) => Ok(()),
            Err(error) => Err(Stop::Write(error)),
        },
        Err(_) => Err(Stop::NoMemory),
    }
}
