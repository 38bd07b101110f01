//! The scan of the log on a disk (own).
ghost use Rattle.std.specs.Prelude.{◌≡◌};
ghost use Rattle.walcore.specs.declared.error.WalError.TheVariants.{Device};
ghost use Rattle.walcore.specs.internal.Steps.{IsWithoutHeader, wal_scan};
ghost use Rattle.walcore.specs.internal.SoundScan.{wal_sound, scan_memory};

use crate::error::WalError;
use recovery::LogScan;
use sqwal::{Scan, WalFormatError};

/// A log whose header isn't valid has no frames.
fn without_header(error: WalFormatError) -> Result<bool, WalError>
    ensures { IsWithoutHeader error result }
{
    match error {
        WalFormatError::NotAWal => Ok(false),
        WalFormatError::PageSize => Ok(false),
        WalFormatError::HeaderSum => Ok(false),
        WalFormatError::UnknownVersion => Ok(false),
        WalFormatError::TooLong => Err(WalError::TooLarge),
        WalFormatError::NoMemory => Err(WalError::NoMemory),
    }
}

impl LogScan<WalError> for Scan {
    ghost kind = { wal_scan };

    ghost device = { Device };

    fn take_piece(&mut self, piece: &[u8]) -> Result<bool, WalError> {
        match self.feed(piece) {
            Ok(()) => Ok(true),
            Err(error) => without_header(error),
        }
    }

    fn is_settled(&self) -> bool {
        self.is_over()
    }

    ghost sound = { wal_sound };

    ghost device_gives = { λ _ e is. is };

    ghost memory_gives = { λ most w _ e a b is. scan_memory most w e a b is };
}
