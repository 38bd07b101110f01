//! Lines of a script that stand for cells of which no row is written.
ghost use Rattle.std.specs.Prelude.{◌≡◌, OnOk};
ghost use Rattle.std.specs.Io.KnownBytes.{Appends};
ghost use Rattle.cli_row_text.specs.Lines.{hex_literal};
ghost use Rattle.cli_show_salvage.specs.Marks.{id_of as rowid_of, mark_text, outside_text, place_text, placed_text};
ghost use Rattle.cli_show_salvage.specs.Marks.{rowid_text, size_text};

use cli_text::write_hex;
use sqpage::Cell;
use std::io::{self, Write};

/// The rowid of a cell, or 0 where it has none.
pub(crate) fn id_of(cell: &Cell) -> i64
    ensures { result ≡ rowid_of cell.now }
{
    cell.rowid.unwrap_or(0)
}

/// The place of cell `i` of page `p`.
fn write_place<W: Write>(out: &mut W, p: u32, i: usize) -> io::Result<()>
    ensures { OnOk result (Appends (W.contents out.old) (W.contents out.new) (place_text p i)) }
{
    write!(out, "-- page {p} cell {i}: ")
}

/// The line of a cell that leaves its page.
pub(crate) fn write_outside<W: Write>(out: &mut W, p: u32, i: usize) -> io::Result<()>
    ensures { OnOk result (Appends (W.contents out.old) (W.contents out.new) (outside_text p i)) }
{
    write_place(out, p, i)?;
    out.write_all(b"leaves its page\n")
}

/// The line that stands before the row in cell `i` of page `p`, where places are written.
pub(crate) fn write_placed<W: Write>(out: &mut W, places: bool, p: u32, i: usize) -> io::Result<()>
    ensures { OnOk result (Appends (W.contents out.old) (W.contents out.new) (placed_text places p i)) }
{
    if !places {
        return Ok(());
    }
    write_place(out, p, i)?;
    out.write_all(b"row\n")
}

/// X'..'
pub(crate) fn write_literal<W: Write>(out: &mut W, bytes: &[u8]) -> io::Result<()>
    ensures { OnOk result (Appends (W.contents out.old) (W.contents out.new) (hex_literal bytes.now)) }
{
    out.write_all(b"X'")?;
    write_hex(out, bytes)?;
    out.write_all(b"'")
}

/// A rowid, if there is one.
fn write_rowid<W: Write>(out: &mut W, rowid: Option<i64>) -> io::Result<()>
    ensures { OnOk result (Appends (W.contents out.old) (W.contents out.new) (rowid_text rowid)) }
{
    match rowid {
        Some(id) => write!(out, "rowid {id}, "),
        None => Ok(()),
    }
}

/// The rowid of a cell, where it has one, and how many bytes its payload has.
fn write_size<W: Write>(out: &mut W, cell: &Cell) -> io::Result<()>
    ensures { OnOk result (Appends (W.contents out.old) (W.contents out.new) (size_text cell.now)) }
{
    let size = cell.payload.unwrap_or(0);
    write_rowid(out, cell.rowid)?;
    write!(out, "{size} bytes, ")
}

/// The line of cell `i` of a page, of which no row is written, why not, and bytes of it.
pub(crate) fn write_mark<W: Write>(
    out: &mut W,
    i: usize,
    cell: &Cell,
    why: &str,
    bytes: &[u8],
) -> io::Result<()>
    ensures { OnOk result (Appends (W.contents out.old) (W.contents out.new) (mark_text i cell.now why.now bytes.now)) }
{
    write_place(out, cell.page, i)?;
    write_size(out, cell)?;
    out.write_all(why.as_bytes())?;
    out.write_all(b": ")?;
    write_literal(out, bytes)?;
    out.write_all(b"\n")
}
