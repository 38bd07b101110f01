//! Where freeblocks are and were in a page (fileformat2, 1.6).
ghost use Rattle.std.specs.Prelude.{◌≡◌, ◌↔◌, ◌⊎◌, ◌<◌, ◌≤◌, ℕ, Some, IsTrue, length};
ghost use Rattle.sqdeleted.specs.Cut.{WasFreed, EndedAt, EndsHere};

use crate::bytes::half_at;
use crate::freeblock::freeblock_size;
use crate::whole::WholeCells;

/// The used bytes of a page, and its deleted cells that stand whole.
#[derive(Clone, Copy, Debug)]
pub(crate) struct Marked<'a> {
    pub(crate) used: &'a [u8],
    pub(crate) whole: &'a WholeCells,
    ghost enough: { 480 ≤ length used.now },
    ghost most: { length used.now ≤ 65536 },
}

/// Where the freeblock ended that is or was at `at`. None where none was.
pub(crate) fn freed_end(used: &[u8], at: usize) -> Option<usize>
    requires { (length used.now ≤ 65536) × (at ≤ length used.now) }
    ensures { (last : ℕ) → (result ≡ Some last) ↔ WasFreed used.now at last }
{
    if at + 4 > used.len() {
        return None;
    }
    let size = freeblock_size(used, 0, at)?;
    let next = half_at(used, at);
    let last = at + size;
    if next != 0 && next <= last {
        return None;
    }
    Some(last)
}

/// Whether a freeblock that ends at `last` ended at `end` once.
fn ended_at(whole: &WholeCells, last: usize, end: usize) -> bool
    ensures { IsTrue result ↔ EndedAt whole.now.begin.items last end }
{
    end == last || (end < last && whole.begins_at(end))
}

/// Whether a cell that a freeblock which ends at `last` took the front of may end at `end`.
pub(crate) fn ends_here(page: Marked<'_>, last: usize, end: usize) -> bool
    requires { end ≤ length page.used.now }
    ensures { IsTrue result ↔ EndsHere page.entry.used.now page.entry.whole.now.begin.items last end }
{
    if ended_at(page.whole, last, end) {
        return true;
    }
    match freed_end(page.used, end) {
        Some(inner) => ended_at(page.whole, last, inner),
        None => false,
    }
}
