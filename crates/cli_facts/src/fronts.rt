//! The last frame of a log that counts, and whether it still stands.
ghost use Rattle.std.specs.Prelude.{◌≡◌, ◌+◌, ◌*◌, ◌-◌, ◌↔◌, ℕ, List, IfErr, IsOk, IsTrue};
ghost use Rattle.sqwal.specs.Took.{TookWithin};
ghost use Rattle.cli_facts.specs.Fronts.{HasSalts, IsFrontOf, IsLogFront};
ghost use Rattle.cli_facts.specs.declared.outcome.Refusal.TheVariants.{FileChanged};

use crate::outcome::Refusal;
use sqpage::PageSource;
use sqval::PageSize;
use sqview::{FileBytes, View};
use sqwal::Scan;

/// The last frame of a log that counts, from 1, and the size of the log's pages.
#[derive(Clone, Copy, Debug, PartialEq, Eq)]
pub struct Front {
    pub frame: u32,
    pub page_size: PageSize,
}

impl Front {
    /// The front at which a view stands, if a frame counts.
    pub fn of_view<F: FileBytes>(view: &View<F>) -> Option<Front>
        ensures { IsFrontOf view.now.front view.now.page_size result }
    {
        Front::at(view.front(), view.page_size())
    }

    /// The front of a scanned log, if a frame counts.
    pub fn of_scan(scan: &Scan) -> Option<Front>
        ensures { (most : ℕ) (wal : List ℕ) → TookWithin most wal scan.now → IsLogFront wal result }
    {
        Front::at(scan.committed().frames, scan.header()?.page_size)
    }

    fn at(frame: u32, page_size: PageSize) -> Option<Front>
        ensures { IsFrontOf frame page_size result }
    {
        (frame != 0).then_some(Front { frame, page_size })
    }

    /// Where its frame begins in the log, in bytes.
    pub fn place(self) -> u64
        ensures { result ≡ 32 + (self.frame - 1) * (self.page_size + 24) }
    {
        32 + u64::from(self.frame.saturating_sub(1)) * (u64::from(self.page_size.get()) + 24)
    }
}

/// Whether a frame has the salts that a log's header has.
fn has_salts(header: &[u8; 32], frame: &[u8; 24]) -> bool
    ensures { IsTrue result ↔ HasSalts header.now frame.now }
{
    header[16..24] == frame[8..16]
}

/// FileChanged where the last frame that counts has other salts than its log's header.
pub fn standing(header: &[u8; 32], last: &[u8; 24]) -> Result<(), Refusal>
    ensures stands { IsOk result ↔ HasSalts header.now last.now }
    ensures changed { IfErr result (λ refusal. refusal ≡ FileChanged) }
{
    if has_salts(header, last) {
        Ok(())
    } else {
        Err(Refusal::FileChanged)
    }
}
