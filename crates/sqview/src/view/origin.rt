//! Where the pages of a view come from (fileformat2, 4.4).
ghost use Rattle.std.specs.Prelude.{◌≡◌, ◌+◌, ◌<◌, ◌≤◌, ℕ, List};
ghost use Rattle.sqwal.specs.Frames.{frame_at};
ghost use Rattle.sqview.specs.Laid.{place_of};
ghost use Rattle.sqview.specs.Origins.{AreFramePlaces, IsFrameOrigin, IsRecordOrigin};

use super::View;
use sqval::PageSize;

/// Where a page of a view comes from.
#[derive(Clone, Copy, Debug, PartialEq, Eq)]
pub enum Origin {
    /// The database file.
    File,
    /// This frame of the write-ahead log, from 1.
    Frame(u64),
    /// A record of the hot journal. Its page begins here in the journal, in bytes.
    Record(u64),
}

/// The frame whose page begins at `at` in the log.
fn frame_of(at: u64, page_size: PageSize) -> u64
    ensures { (i : ℕ) → 1 ≤ i → at ≡ frame_at page_size i + 24 → result ≡ i }
{
    at.saturating_sub(56) / (24 + u64::from(page_size.get())) + 1
}

impl<F> View<F> {
    /// Where page `p` comes from: the last frame up to the one at which the view stands that names the page, or the
    /// record of the hot journal that counts, or else the file.
    pub fn origin(&self, p: u32) -> Origin
        requires above { 0 < p }
        ensures frame { 1 ≤ self.now.front → (w : List ℕ) → p ≤ self.now.count
            → AreFramePlaces self.now.page_size w self.now.front self.now.count self.now.places.items
            → IsFrameOrigin self.now.page_size w self.now.front p result }
        ensures record { self.now.front ≡ 0 → IsRecordOrigin (place_of self.now.places.items p) result }
    {
        let at = self.place(p);
        if at == 0 {
            return Origin::File;
        }
        if self.front == 0 {
            return Origin::Record(at);
        }
        Origin::Frame(frame_of(at, self.page_size))
    }
}
