//! What crashes may leave of a recorded run (own): the trace of the run is read, and played over modelled disks.
#![tactic(auto)]

mod calls;
mod error;
mod meta;
mod name;
mod player;
mod trace;

pub use error::PlayError;
pub use meta::{Epoch, Holds, Meta};
pub use name::Name;
pub use player::Player;
pub use trace::{Kind, Record, Subject, Trace, TraceError};
