//! Images with something wrong, shrunk: as much as may be of what a crash left is brought down, to what the files have
//! now, so that what is left explains what is wrong (own).
#![tactic(auto)]

mod bytes;
mod files;
mod piece;
mod shrinking;

pub use files::may_leave;
pub use piece::Piece;
pub use shrinking::{Finder, shrink};
