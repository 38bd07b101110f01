//! Why the database at a commit of a write-ahead log isn't known (own).
#![tactic(auto)]

mod at;
mod loss;
mod start;

pub use at::loss_at;
pub use loss::{Loss, loss_is_lost};
