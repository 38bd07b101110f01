//! What a well-formed database holds: the numbers of its header, its pages of trees, and the records in their cells
//! (fileformat2, 1.3, 1.6 and 2.1).
#![tactic(auto)]

mod bytes;
mod cells;
mod deep;
mod fault;
mod header;
mod judge;
mod pages;
mod records;
mod snapshot;
mod text;
mod trees;

pub use deep::{Inside, check_deep};
pub use fault::{DeepError, InnerError, InnerFault};
pub use text::Encoding;
