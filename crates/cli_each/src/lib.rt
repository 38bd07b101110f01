//! A command line that names several database files, as a line for each of them (own).
#![tactic(auto)]

mod apart;
mod files;
mod free;

pub use apart::{Apart, taken_apart};
pub use files::{files_of, line_of};
