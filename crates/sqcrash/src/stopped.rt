//! Where the machine stops (own).
use rig_play::{Kind, Subject};

/// A point, and the record behind which it comes.
#[derive(Clone, Copy, Debug, PartialEq, Eq)]
pub struct Stopped {
    /// The number of the point, counted from 1.
    pub point: u64,
    /// The number of the last commit that is known to be durable.
    pub known: usize,
    /// The number of the record in the trace, counted from 1.
    pub number: u64,
    /// What it is of.
    pub kind: Kind,
    /// What it speaks of.
    pub subject: Subject,
    /// A place in the file, or what stands for it.
    pub place: u64,
    /// How many bytes it carries.
    pub count: u64,
}
