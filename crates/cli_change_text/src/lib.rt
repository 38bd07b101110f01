//! Changes of rows as they are written: as lines, as objects of JSON, or as SQL.
#![tactic(auto)]

mod change;
mod differences;
mod heads;
mod name;
mod one;
mod style;

pub use change::{write_changed, write_one_side};
pub use heads::{write_object_head, write_removal_head, write_removal_start, write_title};
pub use style::{Style, Writing};
