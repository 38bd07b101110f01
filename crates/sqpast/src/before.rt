//! The database that a file had before the first commit of its log.
ghost use Rattle.std.specs.Prelude.{◌≡◌, ◌≤◌, ◌<◌, ◌^◌, ◌↔◌, ◌==◌, cond, ℕ, List, length, IsTrue, IsOk, IfOk, IfErr};
ghost use Rattle.sqval.specs.Database.{file_page};
ghost use Rattle.sqwal.specs.Frames.{IsFront};
ghost use Rattle.sqwal.specs.Header.{named_size};
ghost use Rattle.sqwal.specs.Took.{TookWithin};
ghost use Rattle.sqjournal.specs.Journal.{IsHot};
ghost use Rattle.history.specs.Checkpoints.{zero_page};
ghost use Rattle.history.specs.Known.{IsByLength, IsLengthGone};
ghost use Rattle.sqview.specs.Logs.{IsRead};
ghost use Rattle.sqpast.specs.Past.{IsSource};
ghost use Rattle.sqpast.specs.Files.{PastAnswerWithin, IsPastRead};
ghost use Rattle.sqpast.specs.internal.Before.{IsStart, IsJudgedBefore, IsChanged, IsOtherSize};

use crate::at::{MOST, count_at, read_table};
use crate::chains::least_commit;
use crate::likeness::is_zero;
use crate::past_error::PastError;
use sqpage::{Fault, PageSource, SourceError};
use sqval::{Limits, PageSize};
use sqview::{FileBytes, View, ViewError};
use sqwal::Scan;
use std::alloc::Global;

/// How many pages a file has: by its length, and by its first page, 0 if that count isn't valid.
#[derive(Clone, Copy)]
pub struct Start {
    pub long: u64,
    pub valid: u32,
}

impl Start {
    /// How many pages its database has: the header's count if it is valid, otherwise as many as the file.
    fn count(self) -> u64
        ensures { result ≡ cond (self.valid == 0) self.long self.valid }
    {
        if self.valid == 0 {
            return self.long;
        }
        u64::from(self.valid)
    }
}

/// How many pages of this size a file has. NoMemory if they are more than 2^40.
fn start_of<F: FileBytes>(db: &mut F, page_size: PageSize) -> Result<Start, ViewError>
    ensures right { F.reads_right db.old → IfOk result (IsStart page_size (F.bytes db.old)) }
    ensures low { IfOk result (λ start. start.long ≤ 2 ^ 40) }
    ensures refused { IfErr result IsSource }
    ensures read { F.gives_bytes db.old → IsRead result }
    ensures kept { (F.reads_right db.old → F.reads_right db.new) × (F.gives_bytes db.old → F.gives_bytes db.new)
        × (F.bytes db.new ≡ F.bytes db.old) }
{
    let long = db.len().div_ceil(u64::from(page_size.get()));
    if long > MOST {
        return Err(ViewError::NoMemory);
    }
    let valid = count_at(db, 0)?;
    Ok(Start { long, valid })
}

/// Page `p` of a file is zeros. Its bytes go to the buffer.
fn is_zero_page<F: FileBytes>(
    db: &mut F,
    page_size: PageSize,
    p: u64,
    page: &mut [u8],
) -> Result<bool, SourceError>
    requires { (1 ≤ p) × (p ≤ 2 ^ 40) × (length page.old ≡ page_size) }
    ensures read { F.reads_right db.old
        → IfOk result (λ zeros. IsTrue zeros ↔ (file_page page_size (F.bytes db.old) p ≡ zero_page page_size)) }
    ensures never_fails { F.gives_bytes db.old → IsOk result }
    ensures kept { (F.reads_right db.old → F.reads_right db.new) × (F.gives_bytes db.old → F.gives_bytes db.new)
        × (F.bytes db.new ≡ F.bytes db.old) }
{
    db.read_at((p - 1) * u64::from(page_size.get()), page)?;
    Ok(is_zero(page))
}

/// The last page of a file of so many is zeros.
fn ends_in_zeros<F: FileBytes>(
    alloc: Global,
    db: &mut F,
    page_size: PageSize,
    long: u64,
) -> Result<bool, ViewError>
    requires { long ≤ 2 ^ 40 }
    ensures right { F.reads_right db.old → IfOk result (λ zeros. IsTrue zeros ↔ ((1 ≤ long)
        × (file_page page_size (F.bytes db.old) long ≡ zero_page page_size))) }
    ensures refused { IfErr result IsSource }
    ensures read { F.gives_bytes db.old → IsRead result }
    ensures kept { (F.reads_right db.old → F.reads_right db.new) × (F.gives_bytes db.old → F.gives_bytes db.new)
        × (F.bytes db.new ≡ F.bytes db.old) }
{
    if long == 0 {
        return Ok(false);
    }
    let mut last = vec![in alloc; 0u8; page_size.get() as usize]?;
    let page = last.as_mut_slice();
    let zeros = is_zero_page(db, page_size, long, page)?;
    Ok(zeros)
}

/// The length counts, and the file may have been longer or shorter.
fn is_length_gone<F: FileBytes>(
    alloc: Global,
    db: &mut F,
    scan: &Scan,
    page_size: PageSize,
    start: Start,
) -> Result<bool, ViewError>
    requires { start.long ≤ 2 ^ 40 }
    ensures right { F.reads_right db.old → IfOk result (λ gone. (most front : ℕ) (w : List ℕ)
        → TookWithin most w scan.now → named_size w ≡ page_size → IsFront (named_size w) w front → 1 ≤ front
        → IsStart page_size (F.bytes db.old) start → IsTrue gone
        ↔ (IsByLength page_size (F.bytes db.old) 0 × IsLengthGone page_size w front (F.bytes db.old))) }
    ensures refused { IfErr result IsSource }
    ensures read { F.gives_bytes db.old → IsRead result }
    ensures kept { (F.reads_right db.old → F.reads_right db.new) × (F.gives_bytes db.old → F.gives_bytes db.new)
        × (F.bytes db.new ≡ F.bytes db.old) }
{
    if start.valid != 0 {
        return Ok(false);
    }
    if u64::from(least_commit(scan, scan.committed())) <= start.long {
        return Ok(true);
    }
    ends_in_zeros(alloc, db, page_size, start.long)
}

/// The database before the first commit isn't known: one of its pages is gone, or its length is.
fn is_lost_before<F: FileBytes>(
    alloc: Global,
    db: &mut F,
    log: &mut F,
    scan: &Scan,
    page_size: PageSize,
    start: Start,
) -> Result<bool, ViewError>
    requires { start.long ≤ 2 ^ 40 }
    ensures right { F.reads_right db.old × F.reads_right log.old → IfOk result (λ lost. (most front : ℕ)
        → TookWithin most (F.bytes log.old) scan.now → named_size (F.bytes log.old) ≡ page_size
        → IsFront (named_size (F.bytes log.old)) (F.bytes log.old) front → 1 ≤ front
        → IsStart page_size (F.bytes db.old) start
        → IsJudgedBefore page_size (F.bytes log.old) front (F.bytes db.old) lost) }
    ensures refused { IfErr result IsSource }
    ensures read { F.gives_bytes db.old × F.gives_bytes log.old → IsRead result }
    ensures still_right { F.reads_right db.old × F.reads_right log.old
        → F.reads_right db.new × F.reads_right log.new }
    ensures still_gives { F.gives_bytes db.old × F.gives_bytes log.old
        → F.gives_bytes db.new × F.gives_bytes log.new }
    ensures same_bytes { (F.bytes db.new ≡ F.bytes db.old) × (F.bytes log.new ≡ F.bytes log.old) }
{
    let count = start.count() as usize;
    let table = read_table(alloc, db, log, scan, count)?;
    if count > table.len() || table.first_gone(0, count).is_some() {
        return Ok(true);
    }
    let gone = is_length_gone(alloc, db, scan, page_size, start)?;
    Ok(gone)
}

/// A checkpoint may have changed the database that was there before the first commit. False also if that has more pages
/// than the limits allow.
fn is_changed<F: FileBytes>(
    alloc: Global,
    limits: Limits,
    db: &mut F,
    log: &mut F,
    scan: &Scan,
) -> Result<bool, ViewError>
    ensures right { F.reads_right db.old × F.reads_right log.old → IfOk result (λ changed. (most front : ℕ)
        → TookWithin most (F.bytes log.old) scan.now
        → IsFront (named_size (F.bytes log.old)) (F.bytes log.old) front
        → IsChanged limits.bytes (F.bytes log.old) front (F.bytes db.old) changed) }
    ensures refused { IfErr result IsSource }
    ensures read { F.gives_bytes db.old × F.gives_bytes log.old → IsRead result }
    ensures still_right { F.reads_right db.old × F.reads_right log.old
        → F.reads_right db.new × F.reads_right log.new }
    ensures still_gives { F.gives_bytes db.old × F.gives_bytes log.old
        → F.gives_bytes db.new × F.gives_bytes log.new }
    ensures same_bytes { (F.bytes db.new ≡ F.bytes db.old) × (F.bytes log.new ≡ F.bytes log.old) }
{
    let Some(header) = scan.header() else {
        return Ok(false);
    };
    if scan.committed().frames == 0 {
        return Ok(false);
    }
    let page_size = header.page_size;
    let start = start_of(db, page_size)?;
    let count = start.count();
    let most = limits.bytes() / u64::from(page_size.get());
    if count > most {
        return Ok(false);
    }
    let lost = is_lost_before(alloc, db, log, scan, page_size, start)?;
    Ok(lost)
}

/// The log has a commit, and pages of another size.
fn is_other_size(scan: &Scan, front: u32, page_size: PageSize) -> bool
    ensures { (most : ℕ) (w : List ℕ) → TookWithin most w scan.now → IsFront (named_size w) w front
        → IsOtherSize w front page_size result }
{
    let Some(header) = scan.header() else {
        return false;
    };
    if front == 0 {
        return false;
    }
    let named = header.page_size.get();
    let size = page_size.get();
    if named == size {
        return false;
    }
    true
}

/// The view of a file at 0, before the first commit of its log, of which this is the scan. It has no places. The
/// journal isn't hot. What is read is as for `read_table`. Refused by CommitOverwritten if a checkpoint
/// may have changed that database, by TooLarge, and by Header, also if the file names another page size than its log.
/// NoMemory may stand in place of any answer, and Unread if a file can't be read.
pub fn past_before<F: FileBytes + Drop>(
    alloc: Global,
    limits: Limits,
    db: F,
    wal: F,
    journal: F,
    scan: &Scan,
) -> Result<View<F>, PastError>
    ensures right { F.reads_right db × F.reads_right wal × F.reads_right journal → IsPastRead result
        → TookWithin limits.frames (F.bytes wal) scan.now → ¬ IsHot (F.bytes journal)
        → PastAnswerWithin limits F.bytes 0 (F.bytes db) (F.bytes wal) (F.bytes journal) result }
    ensures read { F.gives_bytes db × F.gives_bytes wal × F.gives_bytes journal → IsPastRead result }
    ensures still_right { F.reads_right db × F.reads_right wal × F.reads_right journal
        → IfOk result (λ view. F.reads_right view.db × F.reads_right view.log) }
    ensures still_gives { F.gives_bytes db × F.gives_bytes wal × F.gives_bytes journal
        → IfOk result (λ view. F.gives_bytes view.db × F.gives_bytes view.log) }
    ensures reads { IfOk result (λ view. (F.bytes view.db ≡ F.bytes db) × (F.bytes view.log ≡ F.bytes wal)) }
{
    let mut db = db;
    let mut log = wal;
    let front = scan.committed().frames;
    let changed = is_changed(alloc, limits, &mut db, &mut log, scan)?;
    if changed {
        return Err(PastError::CommitOverwritten);
    }
    let view = View::at_within(alloc, limits, db, log, journal, 0)?;
    let other = is_other_size(scan, front, view.page_size());
    if other {
        return Err(PastError::Refused(ViewError::Header(Fault::PageSize)));
    }
    Ok(view)
}
