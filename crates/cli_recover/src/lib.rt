//! A recovery: what it would do of the files of a database, as data, by which it is carried out, or a copy made.
#![tactic(auto)]

mod carrying;
mod copies;
mod guarded_disk;
mod outcomes;
mod plans;
mod recovered;
mod recovering;
mod refusals;

pub use carrying::carry_out;
pub use copies::recover_to;
pub use guarded_disk::Over;
pub use plans::{Recovery, plan_recovery};
pub use recovered::recovery_keeps_view;
pub use recovering::{recover, recover_on};
