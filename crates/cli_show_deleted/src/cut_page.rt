//! The deleted cells of a page: those that stand whole, and those that lost their first four bytes.
ghost use Rattle.std.specs.Prelude.{◌≡◌, ◌≤◌, ℕ, List, [], length, IfSome, IsNone, IfOk, OnOk, IfErr};
ghost use Rattle.std.specs.Io.KnownBytes.{Appends};
ghost use Rattle.sqdeleted.specs.CutCursor.{AreCutLeft};
ghost use Rattle.sqdeleted.specs.declared.cut.CutCell.{CutCell};
ghost use Rattle.cli_show_deleted.specs.CutCells.{AreCutsIn, AreWholeIn};
ghost use Rattle.cli_show_deleted.specs.CutLines.{AreCutLines};
ghost use Rattle.cli_show_deleted.specs.Printed.{IsRunOut, IsTextOf, IsTextOfCuts};

use crate::cut_line::print_cut;
use crate::layout::Layout;
use crate::mark::Mark;
use crate::page::{cells_in, print_whole};
use cli_show_rows::Stop;
use sqcheck::Role;
use sqdeleted::{CutCells, WholeCells};
use std::alloc::Global;
use std::io::Write;

/// The deleted cells of page `number`, which has this role, that stand whole.
fn whole_in(alloc: Global, used: &[u8], role: Role, number: u32) -> Result<WholeCells, Stop>
    requires { (480 ≤ length used.now) × (length used.now ≤ 65536) }
    ensures ok { IfOk result (AreWholeIn role used.now number) }
    ensures err { IfErr result IsRunOut }
{
    match cells_in(used, role, number) {
        Some(cells) => match WholeCells::of_cells(alloc, cells) {
            Ok(whole) => Ok(whole),
            Err(_) => Err(Stop::NoMemory),
        },
        None => Ok(WholeCells::none(alloc)),
    }
}

/// The deleted cells of page `number`, which has this role, that lost their first four bytes. None where it can have
/// none.
fn cuts_in<'a>(
    used: &'a [u8],
    role: Role,
    number: u32,
    whole: &'a WholeCells,
) -> Option<CutCells<'a>>
    requires { (480 ≤ length used.now) × (length used.now ≤ 65536) }
    ensures left { IfSome result (λ s. (cells : List CutCell) → AreCutLeft s cells
        → AreCutsIn role used.now whole.now number cells) }
    ensures none { IsNone result → AreCutsIn role used.now whole.now number [] }
{
    match role {
        Role::Btree { .. } => CutCells::of_page(used, number, whole),
        Role::FreeTrunk | Role::FreeLeaf | Role::Unused => {
            Some(CutCells::of_free_page(used, number, whole))
        }
        Role::Overflow { .. } | Role::PointerMap | Role::LockByte => None,
    }
}

/// Prints the cells that are left.
fn print_cuts<W: Write>(out: &mut W, layout: Layout, cells: CutCells<'_>) -> Result<(), Stop>
    ensures ok { OnOk result ((told : List CutCell) × (t : List ℕ) × AreCutLeft cells.entry told
        × AreCutLines layout.form told t × Appends (W.contents out.old) (W.contents out.new) t) }
    ensures err { IfErr result IsRunOut }
{
    let mut left = cells;
    'cells: for _ in 0..u64::MAX {
        let Some(cell) = left.next_cell() else {
            return Ok(());
        };
        match print_cut(out, Mark::Stands, layout, &cell) {
            Ok(()) => {}
            Err(stop) => return Err(stop),
        }
    }
    Err(Stop::NoMemory)
}

/// Prints the deleted cells of page `number` that lost their first four bytes.
fn print_cut_page<W: Write>(
    out: &mut W,
    layout: Layout,
    used: &[u8],
    role: Role,
    number: u32,
) -> Result<(), Stop>
    requires { (480 ≤ length used.now) × (length used.now ≤ 65536) }
    ensures ok { OnOk result ((t : List ℕ) × IsTextOfCuts layout.form role used.now number t
        × Appends (W.contents out.old) (W.contents out.new) t) }
    ensures err { IfErr result IsRunOut }
{
    let whole = match whole_in(layout.alloc, used, role, number) {
        Ok(whole) => whole,
        Err(stop) => return Err(stop),
    };
    match cuts_in(used, role, number, &whole) {
        Some(cells) => print_cuts(out, layout, cells),
        None => Ok(()),
    }
}

/// Prints the deleted cells of page `number`, which has this role, and of which these bytes are used.
pub(crate) fn print_used<W: Write>(
    out: &mut W,
    layout: Layout,
    used: &[u8],
    role: Role,
    number: u32,
) -> Result<(), Stop>
    requires { (480 ≤ length used.now) × (length used.now ≤ 65536) }
    ensures ok { OnOk result ((t : List ℕ) × IsTextOf layout.form role used.now number t
        × Appends (W.contents out.old) (W.contents out.new) t) }
    ensures err { IfErr result IsRunOut }
{
    match print_whole(out, layout, used, role, number) {
        Ok(()) => print_cut_page(out, layout, used, role, number),
        Err(stop) => Err(stop),
    }
}
