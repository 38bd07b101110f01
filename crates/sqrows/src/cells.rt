//! The cells of a tree in order (fileformat2, 1.6).
ghost use Rattle.std.specs.Prelude.{◌≡◌, ◌≤◌, All};

use crate::level::Level;
use std::alloc::Global;

/// Goes over the cells of a tree in order: those of a table by rowid, those of an index by key (fileformat2, 1.6). It
/// holds a page for each level of the tree, of which it takes 20 at most, and reads each page once.
#[derive(Drop)]
pub struct Cells {
    pub(crate) alloc: Global,
    /// The page that the next cell stands in or below.
    pub(crate) top: Level,
    /// The pages above it, the root first.
    pub(crate) above: Vec<Level>,
    /// The index of the cell that the walk came to last, in the page `top`.
    pub(crate) at: usize,
    /// Room for a page that isn't in use.
    pub(crate) spare: Option<Vec<u8>>,
    pub(crate) size: u32,
    pub(crate) usable: u32,
    pub(crate) table: bool,
    /// How many pages may still be read.
    pub(crate) allowed: u32,
    ghost least: { 480 ≤ usable },
    ghost most: { usable ≤ size },
    ghost sized: { size ≤ 65536 },
    ghost alike: { top.usable ≡ usable },
    ghost above_alike: { All (λ l. l.usable ≡ usable) above.items },
}
