//! The likeliest images that a crash may leave of a player's files: all up to a call is down and nothing later, or all
//! but one sector or one length (own).
#![tactic(auto)]

mod families;
mod file_version;
mod laws;
mod prefixes;
mod puts;
mod version;

pub use families::Families;
pub use laws::each_has_number;
pub use prefixes::Prefixes;
