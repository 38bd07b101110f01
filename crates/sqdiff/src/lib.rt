//! Which rows of a table changed between two databases (own).
#![tactic(auto)]

mod diff;
mod error;
mod laws;
mod side;
mod turn;
mod values;

pub use diff::{Diff, Kind};
pub use error::{DiffError, SideError};
pub use laws::changes_make_the_new_rows;
