//! A cursor over the cells of a page that lost their first four bytes (own).
ghost use Rattle.std.specs.Prelude.{◌<◌, ◌≤◌, length};

use crate::whole::WholeCells;

/// Goes over the deleted cells of a page that lost their first four bytes, from its front to its end: those between
/// the pointers and the content, and those in its freeblocks. It borrows the page, and what was told of the cells
/// that stand whole, and holds nothing else of it.
#[derive(Debug, Drop)]
pub struct CutCells<'a> {
    pub(crate) used: &'a [u8],
    pub(crate) whole: &'a WholeCells,
    pub(crate) number: u32,
    /// The place that it looks at next.
    pub(crate) at: usize,
    /// Where the gap ends that it is in.
    pub(crate) to: usize,
    /// Where the next freeblock begins, if that is `least` or later and it is sound.
    pub(crate) next: usize,
    pub(crate) least: usize,
    ghost enough: { 480 ≤ length used.now },
    ghost most: { length used.now ≤ 65536 },
    ghost within: { to ≤ length used.now },
    ghost apart: { to ≤ least },
    ghost named: { next < 65536 },
}
