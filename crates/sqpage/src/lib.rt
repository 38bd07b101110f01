//! The pages of a database file (fileformat2, 1): its header, the pages of its b-trees with their cells, overflow
//! chains, the freelist, and pointer maps.
#![tactic(auto)]

mod bytes;
mod cell;
mod fault;
mod free_pages;
mod header;
mod kind;
mod layout;
mod overflow;
mod page;
mod pointer_map;
mod source;
mod taken;

pub use cell::{Cell, Parts, split};
pub use fault::{CheckError, Fault};
pub use free_pages::freelist;
pub use header::{DbHeader, has_magic, named_page_size};
pub use kind::Kind;
pub use overflow::{links_of, payload};
pub use page::BtreePage;
pub use pointer_map::{
    EntryPlace, MapEntry, PointerKind, entry_place, is_pointer_map, lock_byte_page,
};
pub use source::{PageSource, SliceSource, SourceError};
