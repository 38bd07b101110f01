//! Which of SQLite's locks a command line asks for, and whether the process that reads it holds them (own). They are
//! taken before the program starts, by whoever starts it; what it is told of them is believed as far as the system says
//! so.
#![tactic(auto)]

mod fdinfo;
mod front;
mod line;
mod todo;
mod wants;

pub use fdinfo::{Held, held_by, told_of};
pub use front::frames_named;
pub use line::{Hidden, Line, line_of};
pub use todo::{Locks, Todo, Why, prepared};
pub use wants::wanted;
