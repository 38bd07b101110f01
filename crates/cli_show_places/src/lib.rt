//! Where the rows of tables stand, as it is printed: the page, the cell and the frame of each (own).
#![tactic(auto)]

mod cells;
mod framed;
mod held;
mod line;
mod places;
mod table;
mod tables;

pub use places::print_places;
