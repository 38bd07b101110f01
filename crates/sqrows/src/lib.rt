//! The rows of a database file: the cells of its trees in order, and the values in them (fileformat2, 1.6 and 2.1).
#![tactic(auto)]

mod begin;
mod bytes;
mod cells;
mod level;
mod parts;
mod payload;
mod row;
mod rows;
mod steps;
mod walk;

pub use cells::Cells;
pub use payload::{PayloadError, payload_into, payload_within};
pub use row::{Row, read_row};
pub use rows::{Rows, RowsError};
