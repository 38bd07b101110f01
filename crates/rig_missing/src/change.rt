//! Calls that change what a file holds (own).
ghost use Rattle.std.specs.Prelude.{◌<◌, ◌^◌};

use crate::sectors::SectorSize;
use rig_play::{Kind, Subject};

/// A call that changed what a file holds.
#[derive(Drop)]
pub struct Change {
    /// The number of its record in the trace, counted from 1.
    pub number: u64,
    /// A making, a write, a truncation or an unlinking.
    pub kind: Kind,
    /// The file.
    pub subject: Subject,
    /// Where in the file a write begins, or the length that a truncation gives.
    pub place: u64,
    /// How many bytes are written.
    pub count: u64,
    /// The first place in the file that it wrote or took away.
    pub from: u64,
    /// The place behind the last one.
    pub to: u64,
    /// What the file had behind the call, from the first sector on that it touched.
    pub left: Vec<u8>,
    ghost room: { to < 2 ^ 63 },
}

impl Change {
    ghost use Rattle.std.specs.Prelude.{◌≡◌, ◌↔◌, ◌/◌, IsTrue};
    ghost use Rattle.crashdisk.specs.Count.{sector_count};
    ghost use Rattle.rig_missing.specs.Changes.{Touches};

    /// The first sector that it touches.
    pub(crate) fn first(&self, size: SectorSize) -> u64
        ensures { result ≡ self.now.from / size.bytes }
    {
        self.from / size.bytes
    }

    /// The sector behind the last one that it touches.
    pub(crate) fn stop(&self, size: SectorSize) -> u64
        ensures { result ≡ sector_count size.bytes self.now.to }
    {
        size.count(self.to)
    }

    /// Whether it touches sector k.
    pub(crate) fn touches(&self, size: SectorSize, k: u64) -> bool
        ensures { IsTrue result ↔ Touches size.bytes self.now k }
    {
        self.first(size) <= k && k < self.stop(size)
    }
}
