//! The deleted cells of a page with their bytes.
ghost use Rattle.std.specs.Prelude.{◌≡◌, ◌⊎◌, ◌+◌, ◌≤◌, length, IfOk, IfErr};
ghost use Rattle.sqval.specs.Bytes.{part};
ghost use Rattle.cli_show_deleted.specs.Printed.{IsRunOut};
ghost use Rattle.cli_show_deleted.specs.internal.Candidates.{AreCandidatesOf, AreCollected};

use crate::page::cells_in;
use cli_show_rows::Stop;
use sqcheck::Role;
use sqdeleted::{DeletedCell, DeletedCells};
use std::alloc::Global;

/// A deleted cell and its bytes.
#[derive(Clone, Copy)]
pub(crate) struct Candidate<'a> {
    pub(crate) cell: DeletedCell<'a>,
    pub(crate) bytes: &'a [u8],
}

/// A cell of a page, of which these bytes are used, with its own.
fn candidate_of<'a>(used: &'a [u8], cell: DeletedCell<'a>) -> Candidate<'a>
    requires { cell.at + cell.size ≤ length used.now }
    ensures cell { result.cell ≡ cell.entry }
    ensures bytes { result.bytes.now ≡ part used.entry.now cell.entry.at cell.entry.size }
{
    let bytes = &used[cell.at..cell.at + cell.size];
    Candidate { cell, bytes }
}

/// The cells that are left of a page, of which these bytes are used.
fn collected<'a>(
    alloc: Global,
    used: &'a [u8],
    cells: DeletedCells<'a>,
) -> Result<Vec<Candidate<'a>>, Stop>
    requires { cells.used.now ≡ used.now }
    ensures ok { IfOk result (λ all. AreCollected cells.entry all.items) }
    ensures err { IfErr result IsRunOut }
{
    let mut all = Vec::new(alloc);
    let mut left = cells;
    'cells: for _ in 0..u64::MAX {
        let Some(cell) = left.next_cell() else {
            return Ok(all);
        };
        match all.push(candidate_of(used, cell)) {
            Ok(()) => {}
            Err(_) => return Err(Stop::NoMemory),
        }
    }
    Err(Stop::NoMemory)
}

/// The deleted cells of page `number`, which has this role, and of which these bytes are used; none where it has no
/// bytes.
pub(crate) fn candidates_in<'a>(
    alloc: Global,
    used: &'a [u8],
    role: Role,
    number: u32,
) -> Result<Vec<Candidate<'a>>, Stop>
    requires { (length used.now ≡ 0) ⊎ ((480 ≤ length used.now) × (length used.now ≤ 65536)) }
    ensures ok { IfOk result (λ all. AreCandidatesOf role used.entry.now number all.items) }
    ensures err { IfErr result IsRunOut }
{
    if used.is_empty() {
        return Ok(Vec::new(alloc));
    }
    match cells_in(used, role, number) {
        Some(cells) => collected(alloc, used, cells),
        None => Ok(Vec::new(alloc)),
    }
}
