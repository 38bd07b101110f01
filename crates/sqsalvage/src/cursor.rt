//! A cursor over the trees of a database (own).
ghost use Rattle.std.specs.Prelude.{◌≤◌};

use std::alloc::Global;

/// What is read of a tree at once; and where the walk over it stands, a place on each page on the way down.
#[derive(Clone, Copy)]
pub enum Piece {
    /// A page. Of a leaf all cells are entries of the tree. As a place: one that isn't read yet.
    Whole(u32),
    /// A cell of an interior page, from 0, where it is an entry too. As a place: from it on the page is still to be
    /// gone over, its cells and the children behind them.
    Part(u32, usize),
}

/// Goes over the trees of a database that may be damaged, those of tables and those of tables WITHOUT ROWID: tree by
/// tree, each page once, and then over the leaves of tables that no tree reached. It holds a mark for each page, and
/// a place for each page on the way to where it stands; of pages of tables the next few children too, where there are
/// few places. A page is read again where the walk comes back to it.
#[derive(Drop)]
pub struct Salvage {
    pub(crate) alloc: Global,
    pub(crate) size: u32,
    pub(crate) usable: u32,
    /// Whether a page was reached by a tree or left out.
    pub(crate) marks: Vec<bool>,
    /// Whether the tree that was begun last is one of a table with rowids: its pages are those of tables, else those of
    /// indexes.
    pub(crate) table: bool,
    /// Where the walk goes on, the next place last: pages that aren't read yet, and one place on each page above.
    pub(crate) pending: Vec<Piece>,
    /// The page that was looked at last for one that no tree reached.
    pub(crate) at: u32,
    ghost least: { 480 ≤ usable },
    ghost most: { usable ≤ size },
    ghost sized: { size ≤ 65536 },
}
