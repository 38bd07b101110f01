//! What a check of a well-formed database tells (own).

/// How the pages of a well-formed database are used. `btree`, `overflow` and `free` together are `pages`.
#[derive(Clone, Copy, Debug, PartialEq, Eq)]
pub struct Report {
    /// How many pages the source has.
    pub pages: u32,
    /// How many trees there are, with the schema's.
    pub trees: u32,
    /// How many pages are of trees.
    pub btree: u32,
    /// How many pages hold parts of payloads.
    pub overflow: u32,
    /// How many pages are in the freelist.
    pub free: u32,
}
