//! A crash of a run (own).
use rig_store::Call;

/// Where a crash came, and what is known there.
#[derive(Clone, Copy, Debug, PartialEq, Eq)]
pub struct Crash {
    /// The point, counted from 1.
    pub point: u64,
    /// The number of the last state that is known to be durable there.
    pub known: u64,
    /// The number of the record behind which it came, counted from 1.
    pub played: u64,
    /// That record.
    pub call: Call,
}
