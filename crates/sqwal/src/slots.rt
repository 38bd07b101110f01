//! The frame slots of a log, valid or not (own).
use crate::header::WalHeader;
use crate::scan::{frame_length, names_sum, sum_over};
use crate::sum::Sum;
use crate::words::word;

/// What stands in a whole frame slot, whether the frame in it is valid or not.
#[derive(Clone, Copy, Debug, PartialEq, Eq)]
pub struct Slot {
    /// The page that it names.
    pub page: u32,
    /// The database's size in pages where it ends a commit, otherwise 0.
    pub size: u32,
    /// The header's, where the frame was written under it.
    pub salt1: u32,
    /// The header's, where the frame was written under it.
    pub salt2: u32,
    /// The sums that stand in it.
    pub sum: Sum,
    /// Whether they follow from the sums in the slot before it: then it was written behind that.
    pub follows: bool,
}

impl Slot {
    ghost use Rattle.sqwal.specs.Slots.{SlotAnswer};

    /// Reads the bytes of a slot behind the one with the sums `before`, those of the header for the first slot. None
    /// where they aren't 24 and a page.
    pub fn read(header: &WalHeader, before: Sum, frame: &[u8]) -> Option<Slot>
        ensures { SlotAnswer header.now before frame.now result }
    {
        if frame.len() != frame_length(header) {
            return None;
        }
        let sum = Sum {
            s0: word(frame, 16),
            s1: word(frame, 20),
        };
        Some(Slot {
            page: word(frame, 0),
            size: word(frame, 4),
            salt1: word(frame, 8),
            salt2: word(frame, 12),
            sum,
            follows: names_sum(frame, sum_over(header, before, frame)),
        })
    }
}
