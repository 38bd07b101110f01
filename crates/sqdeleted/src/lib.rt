//! Cells of tables that were deleted, as far as their bytes still stand in a page (fileformat2, 1.6; which of them are
//! told is own).
#![tactic(auto)]

mod bytes;
mod cell;
mod cursor;
mod cut;
mod cut_cursor;
mod cut_walk;
mod freeblock;
mod freed;
mod header;
mod rest;
mod values;
mod walk;
mod whole;

pub use cell::DeletedCell;
pub use cursor::DeletedCells;
pub use cut::CutCell;
pub use cut_cursor::CutCells;
pub use whole::WholeCells;
