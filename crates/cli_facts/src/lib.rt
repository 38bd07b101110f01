//! What the program knows of files, pages and its own end: why it refuses, what files are at one time and whether they
//! are so later, which locks are on them, and runs of pages of one use.
#![tactic(auto)]

mod faults;
mod fronts;
mod guard;
mod locks;
mod notes;
mod outcome;
mod quoted;
mod readings;
mod runs;
mod status;
mod system_file;

pub use faults::{first_fault, is_unsound};
pub use fronts::{Front, standing};
pub use guard::Guard;
pub use locks::{Identity, identity_of, is_locked};
pub use notes::{NoteWriter, Notes};
pub use outcome::{Outcome, Refusal};
pub use quoted::Quoted;
pub use readings::{Reading, Readings, unchanged};
pub use runs::{Run, Use, number_of, runs_of, uses_of};
pub use status::Status;
pub use system_file::{SystemFile, metadata_of, read_or_zeros, read_up_to};
