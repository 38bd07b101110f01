//! The steps of a recovery, one after another, for a caller that carries them out on a storage of its own.
#![tactic(auto)]

mod laws;
mod plan;

pub use laws::{a_plan_asks_what_a_recovery_asks, a_plan_leaves_the_database};
pub use plan::{Plan, Recovery, Step};
