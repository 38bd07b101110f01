//! The engine (own): each call is a step of the machine of histories, for whatever history fits the disk.

use crate::error::WalError;
use crate::state::Core;

/// An engine that commits pages to a log and reads them back. A commit is durable, whatever a crash does, once a later
/// `sync` or `checkpoint` is done. After a refusal by Device, but of `read`, it is closed until the disk is opened
/// again.
pub struct Wal<D> {
    pub(crate) disk: D,
    pub(crate) core: Core,
}

/// An opening that was refused gives the disk back.
#[derive(Debug)]
pub struct Refused<D> {
    /// Why it was refused.
    pub error: WalError,
    /// As the opening left it.
    pub disk: D,
}

/// How much of the log a checkpoint brought into the database file.
#[derive(Clone, Copy, Debug, PartialEq, Eq)]
pub enum Checkpointed {
    /// All of it.
    Complete,
    /// What the oldest open reader sees: there are readers of an earlier commit.
    Partial,
}
