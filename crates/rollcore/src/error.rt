//! Why the engine refuses a call (own).
ghost use Rattle.std.specs.Prelude.{◌≡◌};
ghost use Rattle.sqval.specs.JudgedPages.{fault_number};
ghost use Rattle.rollcore.specs.Refusal.{number_of};
ghost use Rattle.rollcore.specs.declared.error.RollError.TheVariants.{Device, NoMemory};

use crashdisk::DiskError;
use recovery::DeviceError;
use sqval::CommitFault;
use std::alloc::AllocError;
use thiserror::Error;

/// Why the engine refused a call. All but `Device` change no byte and no state, but that the log may have been synced.
#[derive(Clone, Copy, Debug, PartialEq, Eq, Error)]
pub enum RollError {
    /// The core is closed, since a call of its disk was refused.
    #[error("closed")]
    Closed,
    /// A commit of no page.
    #[error("no page in the commit")]
    EmptyCommit,
    /// A commit to a size of 0 pages.
    #[error("a database of no pages")]
    SizeZero,
    /// A page number 0.
    #[error("page number 0")]
    PageZero,
    /// A page number above the size.
    #[error("page number above the size")]
    PageAboveSize,
    /// A page number twice in one commit.
    #[error("a page twice in the commit")]
    PageTwice,
    /// A page above the old size and up to the new one isn't supplied.
    #[error("a page above the old size is missing")]
    HoleInGrowth,
    /// A page's length isn't the page size.
    #[error("a page of another length")]
    BadLength,
    /// The database is or would be above 1,073,741,824 bytes, or above the limit that was handed in; or the journal is
    /// above 1,099,511,627,776.
    #[error("too large")]
    TooLarge,
    /// A hot journal names another page size or a database of no pages; or where none is hot, the database file is
    /// empty or has no whole number of pages.
    #[error("another page size")]
    PageSize,
    /// No memory.
    #[error("no memory")]
    NoMemory,
    /// A call of the disk was refused.
    #[error("the disk refused a call")]
    Device,
    /// Fewer nonces than the commit has segments.
    #[error("a nonce is missing")]
    NonceMissing,
    /// On a disk that tears a page, or the sector that a journal names, is smaller than the disk's sector.
    #[error("the sectors are larger than the pages")]
    SectorAbovePage,
}

impl RollError {
    /// From Closed, 1, to TooLarge, 9, and from PageSize, 13, to SectorAbovePage, 17, in the order of the enum.
    pub fn number(&self) -> u8
        ensures { result ≡ number_of self.now }
    {
        match self {
            RollError::Closed => 1,
            RollError::EmptyCommit => 2,
            RollError::SizeZero => 3,
            RollError::PageZero => 4,
            RollError::PageAboveSize => 5,
            RollError::PageTwice => 6,
            RollError::HoleInGrowth => 7,
            RollError::BadLength => 8,
            RollError::TooLarge => 9,
            RollError::PageSize => 13,
            RollError::NoMemory => 14,
            RollError::Device => 15,
            RollError::NonceMissing => 16,
            RollError::SectorAbovePage => 17,
        }
    }
}

impl From<AllocError> for RollError {
    ghost from_gives = { λ _ e. e ≡ NoMemory };

    fn from(_e: AllocError) -> RollError {
        RollError::NoMemory
    }
}

impl From<DiskError> for RollError {
    ghost from_gives = { λ _ e. e ≡ Device };

    fn from(_e: DiskError) -> RollError {
        RollError::Device
    }
}

impl DeviceError for RollError {
    ghost device = { Device };

    ghost device_gives = { λ _ e is. is };
}

impl From<CommitFault> for RollError {
    ghost from_gives = { λ fault e. number_of e ≡ fault_number fault };

    fn from(fault: CommitFault) -> RollError {
        match fault {
            CommitFault::EmptyCommit => RollError::EmptyCommit,
            CommitFault::SizeZero => RollError::SizeZero,
            CommitFault::PageZero => RollError::PageZero,
            CommitFault::PageAboveSize => RollError::PageAboveSize,
            CommitFault::PageTwice => RollError::PageTwice,
            CommitFault::HoleInGrowth => RollError::HoleInGrowth,
            CommitFault::BadLength => RollError::BadLength,
            CommitFault::TooLarge => RollError::TooLarge,
        }
    }
}
