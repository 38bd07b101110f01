//! What is printed of a cell: where it stands.
ghost use Rattle.std.specs.Prelude.{◌≡◌, OnOk};
ghost use Rattle.std.specs.Io.KnownBytes.{Appends};
ghost use Rattle.cli_show_places.specs.Lines.{end_text, frame_text, place_text, rowid_text, start_text};

use cli_words::Style;
use std::io::{self, Write};

/// Where a row stands.
#[derive(Clone, Copy)]
pub(crate) struct Place {
    pub page: u32,
    /// The index of its cell in the page, from 0.
    pub cell: usize,
    /// The frame of the write-ahead log in which the page stands, if it stands in one.
    pub frame: Option<u64>,
    /// None in a table WITHOUT ROWID.
    pub rowid: Option<i64>,
}

/// The page and the cell.
fn write_start<W: Write>(out: &mut W, style: Style, page: u32, cell: usize) -> io::Result<()>
    ensures { OnOk result (Appends (W.contents out.old) (W.contents out.new) (start_text style page cell)) }
{
    match style {
        Style::Lines => write!(out, "{page},{cell},"),
        Style::Json => write!(out, "{{\"page\":{page},\"cell\":{cell}"),
    }
}

/// The frame, if there is one.
fn write_frame<W: Write>(out: &mut W, style: Style, frame: Option<u64>) -> io::Result<()>
    ensures { OnOk result (Appends (W.contents out.old) (W.contents out.new) (frame_text style frame)) }
{
    match (style, frame) {
        (Style::Lines, Some(frame)) => write!(out, "{frame}"),
        (Style::Json, Some(frame)) => write!(out, ",\"frame\":{frame}"),
        (_, None) => Ok(()),
    }
}

/// The rowid, if there is one.
fn write_rowid<W: Write>(out: &mut W, style: Style, rowid: Option<i64>) -> io::Result<()>
    ensures { OnOk result (Appends (W.contents out.old) (W.contents out.new) (rowid_text style rowid)) }
{
    match (style, rowid) {
        (Style::Lines, Some(rowid)) => write!(out, ",{rowid}"),
        (Style::Lines, None) => out.write_all(b","),
        (Style::Json, Some(rowid)) => write!(out, ",\"rowid\":{rowid}"),
        (Style::Json, None) => Ok(()),
    }
}

/// The end of the line.
fn write_end<W: Write>(out: &mut W, style: Style) -> io::Result<()>
    ensures { OnOk result (Appends (W.contents out.old) (W.contents out.new) (end_text style)) }
{
    match style {
        Style::Lines => out.write_all(b"\n"),
        Style::Json => out.write_all(b"}\n"),
    }
}

/// The line of a row, or its object.
pub(crate) fn write_place<W: Write>(out: &mut W, style: Style, place: Place) -> io::Result<()>
    ensures { OnOk result (Appends (W.contents out.old) (W.contents out.new) (place_text style place)) }
{
    write_start(out, style, place.page, place.cell)?;
    write_frame(out, style, place.frame)?;
    write_rowid(out, style, place.rowid)?;
    write_end(out, style)
}
