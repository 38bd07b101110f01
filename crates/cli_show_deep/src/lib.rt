//! What a deep check finds of the bytes of files: whether the database that they show is well formed, and what it holds
//! and its schema are sound, with the front of its log, and how that is printed.
#![tactic(auto)]

mod found;
mod lines;
mod parts;

pub use found::{DeepFinding, judged_as};
pub use lines::write_found;
