//! The view of a file at a commit of its log, if it is known which database was there.
ghost use Rattle.std.specs.Prelude.{◌≡◌, ◌≤◌, ◌==◌, cond, min, ℕ, List, length, IfOk, IfErr, IsOk, MatchResult};
ghost use Rattle.sqwal.specs.Frames.{IsFront};
ghost use Rattle.sqwal.specs.Header.{named_size};
ghost use Rattle.sqwal.specs.Took.{TookWithin};
ghost use Rattle.sqjournal.specs.Journal.{IsHot};
ghost use Rattle.history.specs.Past.{used, valid_count};
ghost use Rattle.sqval.specs.Bytes.{word};
ghost use Rattle.sqview.specs.Laid.{part_or_zeros};
ghost use Rattle.sqview.specs.LogView.{pages_of};
ghost use Rattle.sqview.specs.Logs.{IsRead};
ghost use Rattle.sqview.specs.Shapes.{shape_of};
ghost use Rattle.sqval.specs.Database.{page};
ghost use Rattle.sqpast.specs.Past.{IsTable, IsSource};
ghost use Rattle.sqpast.specs.Files.{PastAnswerWithin, IsPastRead};

use crate::chains::link_all;
use crate::gone::until;
use crate::past_error::PastError;
use crate::used::counts_of;
use byteorder::{BigEndian, ByteOrder};
use history::Table;
use sqpage::SourceError;
use sqval::Limits;
use sqview::{FileBytes, View, ViewError};
use sqwal::Scan;
use std::alloc::Global;

/// The most pages of a file that are judged.
pub(super) const MOST: u64 = 1 << 40;

/// The smallest page size.
const LEAST: u64 = 512;

/// Which pages of a file are gone at which commits of its log, of which this is the scan. Each page of the file that a
/// frame names is read once, with those frames; so are those after the smallest commit, back to the first that is
/// neither zeros nor copied. It keeps 4 bytes for each page, and while it reads 8 for each page and 4 for each frame.
/// Refused by Unread and NoMemory, also if the file has more than 2^40 pages.
pub fn read_table<F: FileBytes>(
    alloc: Global,
    db: &mut F,
    log: &mut F,
    scan: &Scan,
    pages: usize,
) -> Result<Table, ViewError>
    ensures right { F.reads_right db.old × F.reads_right log.old → IfOk result (λ table. (most front : ℕ)
        → TookWithin most (F.bytes log.old) scan.now → IsFront (named_size (F.bytes log.old)) (F.bytes log.old) front
        → 1 ≤ front
        → IsTable (named_size (F.bytes log.old)) (F.bytes log.old) front (F.bytes db.old) pages table) }
    ensures refused { IfErr result IsSource }
    ensures read { F.gives_bytes db.old × F.gives_bytes log.old → IsRead result }
    ensures still_right { F.reads_right db.old × F.reads_right log.old
        → F.reads_right db.new × F.reads_right log.new }
    ensures still_gives { F.gives_bytes db.old × F.gives_bytes log.old
        → F.gives_bytes db.new × F.gives_bytes log.new }
    ensures same_bytes { (F.bytes db.new ≡ F.bytes db.old) × (F.bytes log.new ≡ F.bytes log.old) }
{
    let Some(header) = scan.header() else {
        return Ok(Table::new(Vec::new(alloc)));
    };
    let long = db.len().div_ceil(u64::from(header.page_size.get()));
    if long > MOST {
        return Err(ViewError::NoMemory);
    }
    let total = pages.max(long as usize);
    let chains = link_all(alloc, scan, header.page_size, scan.committed(), total)?;
    let list = until(alloc, db, log, &chains, long as usize)?;
    Ok(Table::new(list))
}

fn word_at(first: &[u8], at: usize) -> u32
    requires { (at ≤ 96) × (100 ≤ length first.now) }
    ensures { result ≡ word first.now at }
{
    BigEndian::read_u32(&first[at..at + 4])
}

/// The count of pages in a database's first page, if it was written with the last change; otherwise 0.
pub(super) fn header_count(first: &[u8]) -> u32
    requires { 100 ≤ length first.now }
    ensures { result ≡ valid_count first.now }
{
    let changed = word_at(first, 24);
    let valid_for = word_at(first, 92);
    if changed != valid_for {
        return 0;
    }
    word_at(first, 28)
}

/// The header's count of the database whose first page begins there; 0 if it isn't valid.
pub(super) fn count_at<F: FileBytes>(file: &mut F, at: u64) -> Result<u32, SourceError>
    ensures read { F.reads_right file.old
        → IfOk result (λ count. count ≡ valid_count (part_or_zeros 100 at (F.bytes file.old))) }
    ensures never_fails { F.gives_bytes file.old → IsOk result }
    ensures still_right { F.reads_right file.old → F.reads_right file.new }
    ensures still_gives { F.gives_bytes file.old → F.gives_bytes file.new }
    ensures same_bytes { F.bytes file.new ≡ F.bytes file.old }
{
    let mut head = [0u8; 100];
    file.read_at(at, &mut head)?;
    Ok(header_count(&head))
}

/// How many pages SQLite uses of so many, by their first page (fileformat2, 1.3.7; the limit own).
pub fn used_count(most: u32, first: &[u8]) -> u32
    requires { 100 ≤ length first.now }
    ensures { result ≡ used most first.now }
{
    used_of(most, header_count(first))
}

/// How many pages SQLite uses of so many: as many as the header names if that number isn't 0, which it is if it isn't
/// valid, and no larger (fileformat2, 1.3.7; the limit own).
pub(super) fn used_of(most: u32, count: u32) -> u32
    ensures { result ≡ cond (count == 0) most (min count most) }
{
    if count == 0 {
        return most;
    }
    count.min(most)
}

/// How many pages of a view count; 0 if it has none.
fn used_pages<F: FileBytes>(alloc: Global, view: &mut View<F>) -> Result<u32, ViewError>
    ensures right { F.reads_right view.old.db × F.reads_right view.old.log → IfOk result (λ count.
        1 ≤ view.old.count → count ≡ used view.old.count (page (pages_of F.bytes view.old) 1)) }
    ensures within { MatchResult result (λ count. count ≤ view.old.count) IsSource }
    ensures read { F.gives_bytes view.old.db × F.gives_bytes view.old.log → IsRead result }
    ensures still_right { F.reads_right view.old.db × F.reads_right view.old.log
        → F.reads_right view.new.db × F.reads_right view.new.log }
    ensures still_gives { F.gives_bytes view.old.db × F.gives_bytes view.old.log
        → F.gives_bytes view.new.db × F.gives_bytes view.new.log }
    ensures same { shape_of F.bytes view.new ≡ shape_of F.bytes view.old }
{
    let counts = counts_of(alloc, view)?;
    Ok(counts.used())
}

/// The view of a file with its log, of which this is the scan, at a commit frame: at the log's front what both show,
/// and before it the database that was there, with the pages that its header counts. Each page of the file that a frame
/// names is read once more, as `read_table` says. Refused by NoSuchCommit if the frame ends no commit, also if it is 0;
/// by TooLarge; and by CommitOverwritten if a later checkpoint may have changed that database. NoMemory may stand in
/// place of any answer, and Unread if a file can't be read.
pub fn past_of_scan<F: FileBytes + Drop>(
    alloc: Global,
    limits: Limits,
    db: F,
    log: F,
    scan: &Scan,
    frame: u32,
) -> Result<View<F>, PastError>
    ensures right { F.reads_right db × F.reads_right log → IsPastRead result
        → TookWithin limits.frames (F.bytes log) scan.now → 1 ≤ frame → (journal : List ℕ) → ¬ IsHot journal
        → PastAnswerWithin limits F.bytes frame (F.bytes db) (F.bytes log) journal result }
    ensures read { F.gives_bytes db × F.gives_bytes log → IsPastRead result }
    ensures still_right { F.reads_right db × F.reads_right log
        → IfOk result (λ view. F.reads_right view.db × F.reads_right view.log) }
    ensures still_gives { F.gives_bytes db × F.gives_bytes log
        → IfOk result (λ view. F.gives_bytes view.db × F.gives_bytes view.log) }
    ensures reads { IfOk result (λ view. (F.bytes view.db ≡ F.bytes db) × (F.bytes view.log ≡ F.bytes log)) }
{
    if frame >= scan.committed().frames {
        return Ok(View::of_scan_within(alloc, limits, db, log, scan, frame)?);
    }
    let Some(commit) = scan.entry(frame as usize) else {
        return Err(PastError::Refused(ViewError::NoSuchCommit));
    };
    if u64::from(commit.size) > limits.bytes() / LEAST {
        return Err(PastError::Refused(ViewError::TooLarge));
    }
    let mut db = db;
    let mut log = log;
    let table = read_table(alloc, &mut db, &mut log, scan, commit.size as usize)?;
    let mut view = View::of_scan_within(alloc, limits, db, log, scan, frame)?;
    let count = used_pages(alloc, &mut view)?;
    if count as usize > table.len() || table.first_gone(frame, count as usize).is_some() {
        return Err(PastError::CommitOverwritten);
    }
    view.shorten(count);
    Ok(view)
}
