//! Trees of pages (own).

/// Which tree is followed.
#[derive(Clone, Copy, Debug)]
pub(crate) struct Tree {
    /// Its root.
    pub root: u32,
    /// Whether it is one of a table, and not of an index.
    pub table: bool,
    /// Whether it is the schema's.
    pub schema: bool,
}
