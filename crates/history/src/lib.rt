//! Which database was there at a commit of a write-ahead log, when later frames may be copied into the file already, or
//! the file was cut (own).
#![tactic(auto)]

mod laws;
mod table;

pub use laws::{known_or_lost, later_is_known};
pub use table::Table;
