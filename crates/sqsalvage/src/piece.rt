//! What is read of a tree at once (own).
use crate::page::TreePage;

/// A leaf of a tree, all of whose cells are its entries; or one cell of an interior page.
#[derive(Drop)]
pub struct PieceRead {
    pub page: TreePage,
    /// The cell of an interior page, from 0. None of a leaf.
    pub cell: Option<usize>,
}
