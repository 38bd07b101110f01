//! The engine (own): each call is a step of the machine of histories, for whatever history fits the disk.
ghost use Rattle.std.specs.Prelude.{◌≡◌, ◌↔◌};

use crate::error::RollError;
use crate::state::Core;
use crashdisk::Disk;

/// How many records a segment of the journal has (own); the last one may have fewer.
pub const SEGMENT_RECORDS: usize = 64;

/// An engine that commits pages in place, behind a rollback journal, and reads them back. A commit that is done is
/// durable, whatever a crash does. After a refusal by Device, but of `read`, it is closed until the disk is opened
/// again.
pub struct Roll<D> {
    pub(crate) disk: D,
    pub(crate) core: Core,
}

/// An opening that was refused gives the disk back.
#[derive(Debug)]
pub struct Refused<D> {
    /// Why it was refused.
    pub error: RollError,
    /// As the opening left it.
    pub disk: D,
}
