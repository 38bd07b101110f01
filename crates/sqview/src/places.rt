//! Where a log has the pages of a database.
ghost use Rattle.std.specs.Prelude.{◌≡◌, ◌+◌, ◌*◌, ◌^◌, ◌<◌, ◌≤◌, ℕ, List, length, IfOk, OnOk, OnErr};
ghost use Rattle.sqwal.specs.Took.{TookWithin};
ghost use Rattle.sqwal.specs.Header.{named_size};
ghost use Rattle.sqwal.specs.Frames.{IsValidFrame, frame_at};
ghost use Rattle.sqjournal.specs.Took.{Took as ReplayTook};
ghost use Rattle.sqview.specs.Origins.{AreFramePlaces};
ghost use Rattle.sqview.specs.internal.ViewParts.{AreFew, AreRecordPlaces};

use crate::place_table::Places;
use crate::view_error::ViewError;
use sqjournal::Replay;
use sqval::PageSize;
use sqwal::Scan;
use std::alloc::Global;

/// Where the page of a frame begins in the log.
fn place(frame: u32, page_size: PageSize) -> u64
    requires { 1 ≤ frame }
    ensures { result ≡ frame_at page_size frame + 24 }
{
    32 + u64::from(frame - 1) * (24 + u64::from(page_size.get())) + 24
}

/// Where the log has each page up to the count, by the last of its first frames that names it; 0 where none does.
pub fn frame_places(
    alloc: Global,
    scan: &Scan,
    page_size: PageSize,
    frames: u32,
    count: u32,
) -> Result<Places, ViewError>
    ensures few { IfOk result (λ v. v.kept ≤ 262144 + 17 * frames) }
    ensures places { IfOk result (λ v. (most : ℕ) (w : List ℕ) → TookWithin most w scan.now → named_size w ≡ page_size
        → IsValidFrame (named_size w) w frames → AreFramePlaces page_size w frames count v.items) }
    ensures memory { OnErr result (result ≡ Err ViewError.NoMemory) }
{
    let mut places = Places::new(alloc, count, frames as usize)?;
    for i in 0..frames {
        let Some(entry) = scan.entry(i as usize + 1) else {
            break;
        };
        places.put(entry.page, place(i + 1, page_size))?;
    }
    Ok(places)
}

/// Where the journal has each page up to the count, by the last record that names it; 0 where none does.
pub fn record_places(alloc: Global, replay: &Replay, count: u32) -> Result<Places, ViewError>
    ensures few { IfOk result (λ v. (b : List ℕ) → ReplayTook b replay.now → AreFew b v.kept) }
    ensures places { IfOk result
        (λ v. (b : List ℕ) → ReplayTook b replay.now → length b ≤ 2 ^ 40 → AreRecordPlaces b count v.items) }
    ensures memory { OnErr result (result ≡ Err ViewError.NoMemory) }
{
    let records = replay.count();
    let mut places = Places::new(alloc, count, records)?;
    for before in 0..records {
        let Some(record) = replay.entry(before + 1) else {
            break;
        };
        places.put(record.page, record.at)?;
    }
    Ok(places)
}
