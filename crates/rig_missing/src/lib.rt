//! Which calls of a recorded run aren't down in an image that a crash left (own).
#![tactic(auto)]

mod change;
mod changing;
mod missing;
mod playing;
mod sectors;
mod there;

pub use change::Change;
pub use changing::change_of;
pub use missing::{Missing, file_in, missing_calls};
pub use playing::Playing;
pub use sectors::SectorSize;
