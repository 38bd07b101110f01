//! Where a page lies, and which log counts.
ghost use Rattle.std.specs.Prelude.{◌≡◌, ◌≢◌, ◌⊎◌, ◌<◌, ◌≤◌};
ghost use Rattle.sqview.specs.Logs.{AreTwoLogs};
ghost use Rattle.sqrescue_c.specs.Places.{IsPageAt, IsLog};

use crate::status::{Status, view_number};
use crate::view::{Files, Handle, place};
use sqview::{LogInUse, log_in_use};

/// Where the bytes of a page begin, in bytes, in the database file (0) or in the log that counts (1).
#[repr(C)]
#[derive(Clone, Copy)]
pub struct PagePlace {
    pub at: u64,
    pub is_of_log: u32,
}

/// Where a page that there is lies.
fn place_at(handle: &Handle<'_>, p: u32) -> PagePlace
    requires one { 1 ≤ p }
    requires most { p ≤ handle.now.pages }
    ensures { IsPageAt handle.now p result }
{
    let at = place(handle.places, p);
    if at == 0 {
        return PagePlace {
            at: u64::from(p - 1) * u64::from(handle.page_size),
            is_of_log: 0,
        };
    }
    PagePlace { at, is_of_log: 1 }
}

/// Where a page, from 1, lies. Answers Done, or NoSuchPage, and then leaves the place as it is. What lies past the end
/// of the bytes is zeros (own).
#[unsafe(no_mangle)]
pub extern "C" fn sqr_page_place(handle: &Handle<'_>, p: u32, out: &mut PagePlace) -> u32
    ensures placed { result ≡ 0 → IsPageAt handle.now p out.new }
    ensures there { 1 ≤ p → p ≤ handle.now.pages → result ≡ 0 }
    ensures outside { (p ≡ 0) ⊎ (handle.now.pages < p) → result ≡ 7 }
    ensures kept { result ≢ 0 → out.new ≡ out.old }
{
    if p == 0 || p > handle.pages {
        return Status::NoSuchPage.number();
    }
    *out = place_at(handle, p);
    Status::Done.number()
}

/// Which log of files counts: none (0), the write-ahead log (1) or the rollback journal (2). Answers Done, or TwoLogs,
/// and then leaves it as it is (fileformat2, 3 and 4.5).
#[unsafe(no_mangle)]
pub extern "C" fn sqr_log(files: &Files<'_>, log: &mut u32) -> u32
    ensures log { result ≡ 0 → IsLog files.now.wal.now files.now.journal.now log.new }
    ensures two { result ≢ 0 → (result ≡ 2) × AreTwoLogs files.now.wal.now files.now.journal.now }
    ensures kept { result ≢ 0 → log.new ≡ log.old }
{
    let mut journal = files.journal;
    *log = match log_in_use(&files.wal, &mut journal) {
        Ok(LogInUse::Neither) => 0,
        Ok(LogInUse::Wal) => 1,
        Ok(LogInUse::Journal(_)) => 2,
        Err(error) => return view_number(error),
    };
    Status::Done.number()
}
