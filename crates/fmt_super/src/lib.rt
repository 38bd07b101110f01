//! The name of the super-journal at the end of a rollback journal (fileformat2, 3).
#![tactic(auto)]

mod name;

pub use name::{END, super_path};
