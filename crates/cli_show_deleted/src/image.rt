//! The cells in the image of a page that a frame of a log has.
ghost use Rattle.std.specs.Prelude.{◌≡◌, ◌↔◌, ◌+◌, ◌≤◌, ℕ, List, length, IsTrue, OnOk, IfErr};
ghost use Rattle.std.specs.Io.KnownBytes.{Appends};
ghost use Rattle.sqdeleted.specs.Deleted.{BeginsRecord};
ghost use Rattle.sqdeleted.specs.declared.cell.DeletedCell.{DeletedCell};
ghost use Rattle.cli_show_deleted.specs.Images.{IsTextOfImage};
ghost use Rattle.cli_show_deleted.specs.Printed.{IsRunOut};
ghost use Rattle.cli_show_deleted.specs.internal.Images.{AreTextsAlone, IsTextAlone, StaysIn};
ghost use Rattle.cli_show_deleted.specs.internal.Walks.{AreTold};

use crate::cell::print_cell;
use crate::layout::Layout;
use crate::mark::Mark;
use cli_show_rows::Stop;
use sqdeleted::{DeletedCell, DeletedCells};
use std::io::Write;

/// The image of a page in a frame of a log.
#[derive(Clone, Copy)]
pub struct Image<'a> {
    /// The frame, from 1.
    pub frame: u64,
    /// The page that it names.
    pub page: u32,
    /// What of the image is used.
    pub used: &'a [u8],
}

/// Whether the bytes of a cell of an image stand at its place in the page that is shown.
fn stays_in(cell: &DeletedCell<'_>, used: &[u8], shown: &[u8]) -> bool
    requires { cell.now.at + cell.now.size ≤ length used.now }
    ensures { IsTrue result ↔ StaysIn used.now shown.now cell.now }
{
    let bytes = &used[cell.at..cell.at + cell.size];
    let behind = &shown[cell.at.min(shown.len())..];
    let there = &behind[..cell.size.min(behind.len())];
    bytes == there
}

/// Prints a cell of an image, unless its bytes stand at its place in the page that is shown.
fn print_alone<W: Write>(
    out: &mut W,
    layout: Layout,
    image: Image<'_>,
    shown: &[u8],
    cell: &DeletedCell<'_>,
) -> Result<(), Stop>
    requires { cell.now.at + cell.now.size ≤ length image.used.now }
    ensures ok { BeginsRecord cell.now.payload cell.now.local.now → OnOk result ((t : List ℕ)
        × IsTextAlone layout.form image.entry.frame image.entry.used.now shown.now cell.now t
        × Appends (W.contents out.old) (W.contents out.new) t) }
    ensures err { IfErr result IsRunOut }
{
    if stays_in(cell, image.used, shown) {
        return Ok(());
    }
    print_cell(out, Mark::InFrame(image.frame), layout, cell)
}

/// Prints the cells of an image that are left, but for those whose bytes stand at their places in the page that is
/// shown.
fn print_left<W: Write>(
    out: &mut W,
    layout: Layout,
    image: Image<'_>,
    shown: &[u8],
    cells: DeletedCells<'_>,
) -> Result<(), Stop>
    requires { cells.used.now ≡ image.used.now }
    ensures ok { OnOk result ((told : List DeletedCell) × (t : List ℕ) × AreTold cells.entry told
        × AreTextsAlone layout.form image.entry.frame image.entry.used.now shown.entry.now told t
        × Appends (W.contents out.old) (W.contents out.new) t) }
    ensures err { IfErr result IsRunOut }
{
    let mut left = cells;
    'cells: for _ in 0..u64::MAX {
        let Some(cell) = left.next_cell() else {
            return Ok(());
        };
        match print_alone(out, layout, image, shown, &cell) {
            Ok(()) => {}
            Err(stop) => return Err(stop),
        }
    }
    Err(Stop::NoMemory)
}

/// Prints the cells of leaves of tables that stand whole in the image of a page that a frame of a log has, wherever in
/// it, in the order of their places: but for those whose bytes stand at the same place in the page that is shown, of
/// which these are used. Stopped by `NoMemory`, and by an error of the writer; what was printed then stands.
pub fn print_image<W: Write>(
    out: &mut W,
    layout: Layout,
    image: Image<'_>,
    shown: &[u8],
) -> Result<(), Stop>
    requires { (480 ≤ length image.used.now) × (length image.used.now ≤ 65536) }
    ensures ok { OnOk result ((t : List ℕ)
        × IsTextOfImage layout.form image.entry.frame image.entry.page image.entry.used.now shown.entry.now t
        × Appends (W.contents out.old) (W.contents out.new) t) }
    ensures err { IfErr result IsRunOut }
{
    let cells = DeletedCells::of_free_page(image.used, image.page);
    print_left(out, layout, image, shown, cells)
}
