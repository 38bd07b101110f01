//! The deleted cells of a page that stand whole.
ghost use Rattle.std.specs.Prelude.{◌≡◌, ◌↔◌, ◌≤◌, ℕ, List, length, IfSome, IsNone, OnOk, IfErr};
ghost use Rattle.std.specs.Io.KnownBytes.{Appends};
ghost use Rattle.sqpage.specs.declared.cell.Parts.{Parts};
ghost use Rattle.sqdeleted.specs.DeletedCursor.{IsLeft};
ghost use Rattle.sqdeleted.specs.declared.cell.DeletedCell.{DeletedCell};
ghost use Rattle.cli_show_deleted.specs.Cells.{StandsIn};
ghost use Rattle.cli_show_deleted.specs.Lines.{AreLines};
ghost use Rattle.cli_show_deleted.specs.Printed.{IsRunOut, IsWholeText};
ghost use Rattle.cli_show_deleted.specs.internal.Walks.{AreTold};

use crate::cell::print_cell;
use crate::layout::Layout;
use crate::mark::Mark;
use cli_show_rows::Stop;
use sqcheck::Role;
use sqdeleted::DeletedCells;
use std::io::Write;

/// The deleted cells of page `number`, which has this role. None where it can have none.
pub(crate) fn cells_in<'a>(used: &'a [u8], role: Role, number: u32) -> Option<DeletedCells<'a>>
    requires { (480 ≤ length used.now) × (length used.now ≤ 65536) }
    ensures left { IfSome result (λ s. (at : ℕ) (c : Parts) → IsLeft s at c ↔ StandsIn role used.now number at c) }
    ensures same { IfSome result (λ s. (s.used.now ≡ used.now) × (s.number ≡ number)) }
    ensures none { IsNone result → (at : ℕ) (c : Parts) → ¬ StandsIn role used.now number at c }
{
    match role {
        Role::Btree { .. } => DeletedCells::of_page(used, number),
        Role::FreeTrunk | Role::FreeLeaf | Role::Unused => {
            Some(DeletedCells::of_free_page(used, number))
        }
        Role::Overflow { .. } | Role::PointerMap | Role::LockByte => None,
    }
}

/// Prints the cells that are left.
fn print_cells<W: Write>(out: &mut W, layout: Layout, cells: DeletedCells<'_>) -> Result<(), Stop>
    ensures ok { OnOk result ((told : List DeletedCell) × (t : List ℕ) × AreTold cells.entry told
        × AreLines layout.form told t × Appends (W.contents out.old) (W.contents out.new) t) }
    ensures err { IfErr result IsRunOut }
{
    let mut left = cells;
    'cells: for _ in 0..u64::MAX {
        let Some(cell) = left.next_cell() else {
            return Ok(());
        };
        match print_cell(out, Mark::Stands, layout, &cell) {
            Ok(()) => {}
            Err(stop) => return Err(stop),
        }
    }
    Err(Stop::NoMemory)
}

/// Prints the deleted cells of page `number` that stand whole, which has this role, and of which these bytes are used.
pub(crate) fn print_whole<W: Write>(
    out: &mut W,
    layout: Layout,
    used: &[u8],
    role: Role,
    number: u32,
) -> Result<(), Stop>
    requires { (480 ≤ length used.now) × (length used.now ≤ 65536) }
    ensures ok { OnOk result ((t : List ℕ) × IsWholeText layout.form role used.now number t
        × Appends (W.contents out.old) (W.contents out.new) t) }
    ensures err { IfErr result IsRunOut }
{
    match cells_in(used, role, number) {
        Some(cells) => print_cells(out, layout, cells),
        None => Ok(()),
    }
}
