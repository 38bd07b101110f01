//! What still stands of deleted rows in the pages of a database, a line or an object for each cell (own).
#![tactic(auto)]

mod candidate;
mod cell;
mod changed;
mod cut_line;
mod cut_page;
mod deleted;
mod image;
mod layout;
mod mark;
mod opening;
mod page;
mod seen;
mod surveyed;
mod turn;

pub use changed::print_deleted_changes;
pub use deleted::print_deleted;
pub use image::{Image, print_image};
pub use layout::Layout;
pub use opening::layout_in;
pub use surveyed::notation_in;
