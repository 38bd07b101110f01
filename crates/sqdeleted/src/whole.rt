//! Where deleted cells stand whole (own).
ghost use Rattle.std.specs.Prelude.{◌≡◌, ◌↔◌, ◌⊎◌, ◌<◌, ◌≤◌, ℕ, IfOk, IsTrue, false, [], length, replicate};
ghost use Rattle.sqdeleted.specs.Cut.{AreWholeOf, IsHeld, IsWhole};

use crate::cursor::DeletedCells;
use std::alloc::{AllocError, Global};

/// Where the deleted cells of a page begin that stand whole in it, and which bytes they have.
#[derive(Debug, Drop)]
pub struct WholeCells {
    pub(crate) begin: Vec<bool>,
    pub(crate) held: Vec<bool>,
}

/// None of so many places.
fn no_places(alloc: Global, count: usize) -> Result<Vec<bool>, AllocError>
    ensures { IfOk result (λ whole. whole.items ≡ replicate count false) }
{
    let whole = vec![in alloc; false; count]?;
    Ok(whole)
}

/// Marks the places from one to another.
fn mark(held: &mut Vec<bool>, from: usize, to: usize)
    requires { (from ≤ to) × (to ≤ length held.old.items) }
    ensures sized { length held.new.items ≡ length held.old.items }
    ensures marks { (at : ℕ) → IsWhole held.new.items at
        ↔ (IsWhole held.old.items at ⊎ ((from ≤ at) × (at < to))) }
{
    'places: for at in from..to {
        held[at] = true;
    }
}

impl WholeCells {
    /// Whether one begins at `at`.
    pub(crate) fn begins_at(&self, at: usize) -> bool
        ensures { IsTrue result ↔ IsWhole self.now.begin.items at }
    {
        match self.begin.get(at) {
            Some(stands) => *stands,
            None => false,
        }
    }

    /// Whether one has the byte at `at`.
    pub(crate) fn holds(&self, at: usize) -> bool
        ensures { IsTrue result ↔ IsHeld self.now at }
    {
        match self.held.get(at) {
            Some(held) => *held,
            None => false,
        }
    }

    /// None.
    pub fn none(alloc: Global) -> WholeCells
        ensures { (result.begin.items ≡ []) × (result.held.items ≡ []) }
    {
        WholeCells {
            begin: Vec::new(alloc),
            held: Vec::new(alloc),
        }
    }

    /// Those of the deleted cells of a page that are left. An error for want of memory.
    pub fn of_cells(alloc: Global, cells: DeletedCells<'_>) -> Result<WholeCells, AllocError>
        ensures { IfOk result (AreWholeOf cells.entry) }
    {
        let size = cells.used.len();
        let mut begin = no_places(alloc, size)?;
        let mut held = no_places(alloc, size)?;
        let mut left = cells;
        'cells: for _ in 0..u64::MAX {
            let Some(cell) = left.next_cell() else {
                return Ok(WholeCells { begin, held });
            };
            begin[cell.at] = true;
            mark(&mut held, cell.at, cell.at + cell.size);
        }
        Err(AllocError)
    }
}
