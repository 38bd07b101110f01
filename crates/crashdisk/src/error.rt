//! Why a disk refuses a call (own).
ghost use Rattle.std.specs.Prelude.{◌≡◌};
ghost use Rattle.crashdisk.specs.Refusal.{number_of};

use thiserror::Error;

/// Why a disk refused a call. After `Stopped`, `TooLong` and `NoMemory` nothing has changed.
#[derive(Clone, Copy, Debug, PartialEq, Eq, Error)]
pub enum DiskError {
    /// The machine has stopped; no call is carried out until a crash.
    #[error("the disk has stopped")]
    Stopped,
    /// The device failed: a change may be there in part, and a sync may have synced nothing.
    #[error("the disk call failed")]
    Failed,
    /// The call would end above 1,099,511,627,776 bytes.
    #[error("the file would be too long")]
    TooLong,
    /// The modelled disk found no memory.
    #[error("no memory")]
    NoMemory,
}

impl DiskError {
    /// Stopped is 1, Failed 2, TooLong 3, NoMemory 4.
    pub fn number(&self) -> u8
        ensures { result ≡ number_of self.now }
    {
        match self {
            DiskError::Stopped => 1,
            DiskError::Failed => 2,
            DiskError::TooLong => 3,
            DiskError::NoMemory => 4,
        }
    }
}
