//! Why the engine refuses a call (own).
ghost use Rattle.std.specs.Prelude.{◌≡◌};
ghost use Rattle.sqval.specs.JudgedPages.{fault_number};
ghost use Rattle.walcore.specs.Refusal.{number_of};
ghost use Rattle.walcore.specs.declared.error.WalError.TheVariants.{Device, NoMemory};

use crashdisk::DiskError;
use recovery::DeviceError;
use sqval::CommitFault;
use std::alloc::AllocError;
use thiserror::Error;

/// Why the engine refused a call. All but `Device` change no byte and no state, but that the log may have been synced.
#[derive(Clone, Copy, Debug, PartialEq, Eq, Error)]
pub enum WalError {
    /// The core is closed, since a call of its disk was refused.
    #[error("closed")]
    Closed,
    /// A commit of no page.
    #[error("no page in the commit")]
    EmptyCommit,
    /// A commit to a size of 0 pages.
    #[error("a database of no pages")]
    SizeZero,
    /// A page number 0.
    #[error("page number 0")]
    PageZero,
    /// A page number above the size.
    #[error("page number above the size")]
    PageAboveSize,
    /// A page number twice in one commit.
    #[error("a page twice in the commit")]
    PageTwice,
    /// A page above the old size and up to the new one isn't supplied.
    #[error("a page above the old size is missing")]
    HoleInGrowth,
    /// A page's length isn't the page size.
    #[error("a page of another length")]
    BadLength,
    /// The database is or would be above its limit in bytes, or the log has more valid frames than its limit. The usual
    /// limits are 1,073,741,824 bytes and 2,097,152 frames.
    #[error("too large")]
    TooLarge,
    /// More than 1,048,576 pages committed since the log was begun.
    #[error("the log is full")]
    WalFull,
    /// The log isn't drained.
    #[error("not all of the log is in the database")]
    NotDrained,
    /// A reader is open.
    #[error("a reader is open")]
    ReadersOpen,
    /// The log's header names another page size; or where an engine is opened and the log has no committed frame, the
    /// database file is empty or has no whole number of pages.
    #[error("another page size")]
    PageSize,
    /// No memory.
    #[error("no memory")]
    NoMemory,
    /// A call of the disk was refused.
    #[error("the disk refused a call")]
    Device,
    /// On a disk that tears the page size is below the size of a sector.
    #[error("the sectors are larger than the pages")]
    SectorAbovePage,
}

impl WalError {
    /// From Closed, 1, to Device, 15, in the order of the enum, and SectorAbovePage, 17.
    pub fn number(&self) -> u8
        ensures { result ≡ number_of self.now }
    {
        match self {
            WalError::Closed => 1,
            WalError::EmptyCommit => 2,
            WalError::SizeZero => 3,
            WalError::PageZero => 4,
            WalError::PageAboveSize => 5,
            WalError::PageTwice => 6,
            WalError::HoleInGrowth => 7,
            WalError::BadLength => 8,
            WalError::TooLarge => 9,
            WalError::WalFull => 10,
            WalError::NotDrained => 11,
            WalError::ReadersOpen => 12,
            WalError::PageSize => 13,
            WalError::NoMemory => 14,
            WalError::Device => 15,
            WalError::SectorAbovePage => 17,
        }
    }
}

impl From<AllocError> for WalError {
    ghost from_gives = { λ _ e. e ≡ NoMemory };

    fn from(_e: AllocError) -> WalError {
        WalError::NoMemory
    }
}

impl From<DiskError> for WalError {
    ghost from_gives = { λ _ e. e ≡ Device };

    fn from(_e: DiskError) -> WalError {
        WalError::Device
    }
}

impl DeviceError for WalError {
    ghost device = { Device };

    ghost device_gives = { λ _ e is. is };
}

impl From<CommitFault> for WalError {
    ghost from_gives = { λ fault e. number_of e ≡ fault_number fault };

    fn from(fault: CommitFault) -> WalError {
        match fault {
            CommitFault::EmptyCommit => WalError::EmptyCommit,
            CommitFault::SizeZero => WalError::SizeZero,
            CommitFault::PageZero => WalError::PageZero,
            CommitFault::PageAboveSize => WalError::PageAboveSize,
            CommitFault::PageTwice => WalError::PageTwice,
            CommitFault::HoleInGrowth => WalError::HoleInGrowth,
            CommitFault::BadLength => WalError::BadLength,
            CommitFault::TooLarge => WalError::TooLarge,
        }
    }
}
