//! What stands for a column in the rows that don't store it.
#![tactic(auto)]

mod affinity;
mod default;
mod literal;
mod number;

pub use affinity::{Affinity, affinity_in, affinity_of, begins};
pub use default::{default_of, last_default};
pub use literal::Literal;
