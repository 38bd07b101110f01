//! The records of a hot journal, by the place of their pages.
ghost use Rattle.std.specs.Prelude.{◌≡◌, ℕ, List, MatchResult};
ghost use Rattle.sqview.specs.Logs.{HasRead};
ghost use Rattle.cli_show.specs.Contents.{KeepsBytes};
ghost use Rattle.cli_show.specs.Records.{AreRecordsOf, IsRecordNumber};
ghost use Rattle.cli_show.specs.internal.Records.{AreUnreadRecords};

use crate::logs::replayed;
use cli_facts::Refusal;
use sqjournal::Replay;
use sqview::{FileBytes, hot_header};
use std::alloc::Global;

/// The records of the hot journal that counts, of which there may be none.
#[derive(Drop)]
pub struct Records {
    replay: Option<Replay>,
}

/// The records of a journal that is hot; none of another. Refused as the journal is.
pub(crate) fn records_in<F: FileBytes>(alloc: Global, journal: &mut F) -> Result<Records, Refusal>
    ensures found { F.gives_bytes journal.old → MatchResult result (AreRecordsOf (F.bytes journal.old))
        (AreUnreadRecords (F.bytes journal.old)) }
    ensures same { KeepsBytes F.bytes F.gives_bytes journal.old journal.new }
{
    if hot_header(journal)?.is_none() {
        return Ok(Records { replay: None });
    }
    match replayed(alloc, journal) {
        Ok(replay) => Ok(Records {
            replay: Some(replay),
        }),
        Err(refusal) => Err(refusal),
    }
}

impl Records {
    /// The number of the record whose page begins at this place, from 1. They stand one behind the other.
    pub fn number_at(&self, at: u64) -> Option<u64>
        ensures { (journal : List ℕ) → AreRecordsOf journal self.now → IsRecordNumber journal at result }
    {
        let replay = self.replay.as_ref()?;
        number_in(replay, at)
    }
}

/// The number of the record of a replay whose page begins at this place, from 1.
fn number_in(replay: &Replay, at: u64) -> Option<u64>
    ensures { (journal : List ℕ) → HasRead journal replay.now → IsRecordNumber journal at result }
{
    let (mut low, mut high) = (0usize, replay.count());
    while low < high {
        let middle = low + (high - low) / 2;
        let number = middle + 1;
        let place = replay.entry(number)?.at;
        if place == at {
            return Some(number as u64);
        }
        if place < at {
            low = number;
        } else {
            high = middle;
        }
    }
    None
}
