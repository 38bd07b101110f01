//! Which rows of a table WITHOUT ROWID changed between two databases (own).
#![tactic(auto)]

mod diff;
mod key;
mod laws;
mod side;
mod turn;
mod values;

pub use diff::KeyDiff;
pub use key::KeyOrder;
pub use laws::changes_make_the_new_rows;
