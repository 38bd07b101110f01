//! The cells in the frames of a log that a view doesn't show, a line or an object for each (own).
#![tactic(auto)]

mod all;
mod frames;
mod held;
mod shown;
mod slots;

pub use all::print_all_deleted;
pub use frames::print_frame_cells;
