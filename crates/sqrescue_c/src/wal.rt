//! What a write-ahead log says.
ghost use Rattle.std.specs.Prelude.{◌≡◌, ◌≢◌, ◌⊎◌, ◌<◌, ◌≤◌, ℕ, List, length, get_or, IfOk, IfErr};
ghost use Rattle.sqwal.specs.Answers.{LogRefused};
ghost use Rattle.sqwal.specs.Took.{Took};
ghost use Rattle.sqwal.specs.declared.error.WalFormatError.TheVariants.{TooLong};
ghost use Rattle.sqrescue_c.specs.Logs.{IsScanned, AreFrames, WalRefused, scanned_size};
ghost use Rattle.sqrescue_c.specs.internal.Logs.{frame_of, no_entry};
ghost use Rattle.sqrescue_c.specs.Statuses.{wal_why};

use crate::status::{Status, wal_number};
use sqwal::{Entry, Scan, WalFormatError, Why};
use std::alloc::Global;

/// The most valid frames of a log that is scanned.
pub(crate) const MOST_FRAMES: usize = 2_097_152;

/// A valid frame: the page that it holds, and the size of the database in pages where it ends a commit, otherwise 0.
#[repr(C)]
#[derive(Clone, Copy)]
pub struct Frame {
    pub page: u32,
    pub size: u32,
}

/// What a log says as a whole.
#[repr(C)]
#[derive(Clone, Copy)]
pub struct WalReport {
    /// In bytes; 0 where the log is shorter than its header.
    pub page_size: u32,
    /// How many valid frames there are.
    pub frames: u32,
    /// The last of them that ends a commit, otherwise 0.
    pub front: u32,
    /// How many pages the database has there, otherwise 0.
    pub pages: u32,
    /// The first frame that isn't valid, 0 where the log is shorter than its header.
    pub stop: u32,
    /// Why: from End, 1, to Sum, 5, in the order of sqwal's `Why`.
    pub why: u32,
}

/// The scan of a whole log.
pub(crate) fn scan_of(alloc: Global, wal: &[u8]) -> Result<Scan, WalFormatError>
    ensures took { IfOk result (Took wal.now) }
    ensures short { IfOk result (λ _. ¬ LogRefused wal.now TooLong) }
    ensures refused { IfErr result (LogRefused wal.now) }
{
    let mut scan = Scan::new(alloc);
    scan.feed(wal)?;
    Ok(scan)
}

/// The number of the reason why a log stops.
fn why_number(why: Why) -> u32
    ensures { result ≡ wal_why why }
{
    match why {
        Why::End => 1,
        Why::Cut => 2,
        Why::Salt => 3,
        Why::PageZero => 4,
        Why::Sum => 5,
    }
}

/// The page size of a log's header, 0 where it isn't whole.
fn page_size_of(scan: &Scan) -> u32
    ensures { (w : List ℕ) → Took w scan.now → result ≡ scanned_size w }
{
    match scan.header() {
        Some(header) => header.page_size.get(),
        None => 0,
    }
}

/// What the scan says of the log.
fn report_of(scan: &Scan) -> WalReport
    ensures { (w : List ℕ) → Took w scan.now → IsScanned w result }
{
    let front = scan.committed();
    let stop = scan.stop();
    WalReport {
        page_size: page_size_of(scan),
        frames: scan.entries().len().min(MOST_FRAMES) as u32,
        front: front.frames,
        pages: front.size,
        stop: stop.frame,
        why: why_number(stop.why),
    }
}

/// Writes the frames of entries to the front of an array.
fn copy_frames(entries: &[Entry], frames: &mut [Frame])
    requires { length entries.now ≤ length frames.old }
    ensures { (k : ℕ) (d : Frame) → k < length entries.now
        → get_or frames.new k d ≡ frame_of (get_or entries.now k no_entry) }
{
    for i in 0..entries.len() {
        let entry = entries[i];
        frames[i] = Frame {
            page: entry.page,
            size: entry.size,
        };
    }
}

/// The valid frames of a write-ahead log, the first one first, and where it stops. Answers Done, or NoRoom where
/// there are more frames than the array has places, and then leaves the array as it is; otherwise Magic, PageSize,
/// Sum or Version, in this order, or TooLarge, or NoMemory in place of any, and then leaves both as they are
/// (fileformat2, 4.1; stops are own).
#[unsafe(no_mangle)]
pub extern "C" fn sqr_wal_scan(
    alloc: Global,
    wal: &[u8],
    frames: &mut [Frame],
    out: &mut WalReport,
) -> u32
    ensures scanned { (result ≡ 0) ⊎ (result ≡ 9) → IsScanned wal.now out.new }
    ensures frames { result ≡ 0 → AreFrames wal.now out.new.frames frames.new }
    ensures crowded { result ≡ 9 → length frames.old < out.new.frames }
    ensures refused { result ≢ 0 → result ≢ 9 → WalRefused wal.now result }
    ensures frames_kept { result ≢ 0 → frames.new ≡ frames.old }
    ensures out_kept { result ≢ 0 → result ≢ 9 → out.new ≡ out.old }
{
    let scan = match scan_of(alloc, wal) {
        Ok(scan) => scan,
        Err(error) => return wal_number(error),
    };
    *out = report_of(&scan);
    let entries = scan.entries();
    if entries.len() > frames.len() {
        return Status::NoRoom.number();
    }
    copy_frames(entries, frames);
    Status::Done.number()
}
