//! The scan of the journal on a disk (own).
ghost use Rattle.std.specs.Prelude.{◌≡◌};
ghost use Rattle.crashdisk.specs.During.{During};
ghost use Rattle.rollcore.specs.declared.error.RollError.TheVariants.{Device};
ghost use Rattle.rollcore.specs.internal.SoundScan.{journal_sound, scan_memory};
ghost use Rattle.rollcore.specs.internal.Steps.{IsWithoutHeader, journal_scan};
ghost use Rattle.recovery.specs.Reading.{OnlyReads, OfLog};
ghost use Rattle.recovery.specs.Scanning.{ScanAnswer};

use crate::error::RollError;
use crashdisk::Disk;
use recovery::LogScan;
use sqjournal::{JournalError, LONGEST, Replay};
use std::alloc::Global;

/// A journal whose first header isn't valid isn't hot.
fn without_header(error: JournalError) -> Result<bool, RollError>
    ensures { IsWithoutHeader error result }
{
    match error {
        JournalError::NotAJournal => Ok(false),
        JournalError::SectorSize => Ok(false),
        JournalError::PageSize => Ok(false),
        JournalError::TooLong => Err(RollError::TooLarge),
        JournalError::NoMemory => Err(RollError::NoMemory),
    }
}

impl LogScan<RollError> for Replay {
    ghost kind = { λ _. journal_scan };

    ghost device = { Device };

    fn take_piece(&mut self, piece: &[u8]) -> Result<bool, RollError> {
        match self.feed(piece) {
            Ok(()) => Ok(true),
            Err(error) => without_header(error),
        }
    }

    fn is_settled(&self) -> bool {
        self.is_over()
    }

    ghost sound = { λ _. journal_sound };

    ghost device_gives = { λ _ e is. is };

    ghost memory_gives = { λ _ w _ e a b is. scan_memory w e a b is };
}

/// Scans the journal, which has this many bytes. None where its first header is refused. Of one that is too long
/// nothing is read.
pub fn scan_log<D: Disk>(
    alloc: Global,
    disk: &mut D,
    long: u64,
) -> Result<Option<Replay>, RollError>
    ensures { During D.keeps_word D.state disk.old disk.new
        (OnlyReads RollError.Device result (OfLog long (λ w. ScanAnswer journal_scan w result))) }
{
    if long > LONGEST {
        return Err(RollError::TooLarge);
    }
    recovery::scan_log(alloc, disk, Replay::new(alloc), long)
}
