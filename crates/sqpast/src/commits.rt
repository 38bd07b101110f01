//! For which commits of a log the database is known.
ghost use Rattle.std.specs.Prelude.{◌≡◌, ◌≤◌, ◌<◌, ◌^◌, ◌+◌, ◌↔◌, ℕ, List, length, IsTrue, IfOk, IfErr, IsOk, OnErr};
ghost use Rattle.std.specs.Prelude.{MatchOption};
ghost use Rattle.sqwal.specs.Frames.{IsFront, IsValidFrame, size_of};
ghost use Rattle.sqwal.specs.Header.{named_size};
ghost use Rattle.sqwal.specs.Took.{TookWithin};
ghost use Rattle.sqview.specs.Logs.{IsRead};
ghost use Rattle.history.specs.Past.{valid_count};
ghost use Rattle.history.specs.Table.{AreGreatest};
ghost use Rattle.sqview.specs.Laid.{part_or_zeros};
ghost use Rattle.sqpast.specs.Past.{IsSource};
ghost use Rattle.sqpast.specs.Commits.{AreKnown, NoneIsKnown, IsFirstKnown};
ghost use Rattle.sqpast.specs.internal.Commits.{AreAtMost, IsThereUpTo, IsCountAfter, IsKnownBy};

use crate::at::{count_at, read_table, used_of};
use crate::likeness::place;
use history::Table;
use sqpage::SourceError;
use sqview::{FileBytes, ViewError};
use sqwal::Scan;
use std::alloc::Global;

/// How many pages the largest commit of a log up to a frame has.
fn largest(scan: &Scan, frames: u32) -> u32
    ensures { (most : ℕ) (w : List ℕ) → TookWithin most w scan.now → AreAtMost (named_size w) w frames result }
{
    let mut most = 0;
    for before in 0..frames {
        let Some(entry) = scan.entry(before as usize + 1) else {
            break;
        };
        most = most.max(entry.size);
    }
    most
}

/// No page up to the last of a commit of so many is gone there.
fn is_there(table: &Table, frame: u32, count: u32) -> bool
    ensures { (until : List ℕ) → AreGreatest until table.now.greatest.items
        → IsTrue result ↔ IsThereUpTo until frame count }
{
    let count = count as usize;
    count <= table.len() && table.is_known(frame, count)
}

/// The header's count in page 1 after a frame of this page, which begins there.
fn count_after<F: FileBytes>(
    log: &mut F,
    page: u32,
    at: u64,
    before: u32,
) -> Result<u32, SourceError>
    ensures read { F.reads_right log.old → IfOk result
        (λ count. IsCountAfter page (part_or_zeros 100 at (F.bytes log.old)) before count) }
    ensures never_fails { F.gives_bytes log.old → IsOk result }
    ensures still_right { F.reads_right log.old → F.reads_right log.new }
    ensures still_gives { F.gives_bytes log.old → F.gives_bytes log.new }
    ensures same_bytes { F.bytes log.new ≡ F.bytes log.old }
{
    if page != 1 {
        return Ok(before);
    }
    count_at(log, at)
}

/// A frame ends a commit, of so many pages and with this header's count, and the database there is known.
fn is_known(table: &Table, frame: u32, front: u32, size: u32, first: u32) -> bool
    ensures { (until : List ℕ) → AreGreatest until table.now.greatest.items
        → IsTrue result ↔ IsKnownBy until frame front size first }
{
    size != 0 && (frame == front || is_there(table, frame, used_of(size, first)))
}

/// By frame of a log up to its front, from 1: it ends a commit, and the database there is known. The front is. It takes
/// time that is linear in the frames. What is read and kept is as for `read_table`, and 100 bytes of each frame of page
/// 1. Refused by Unread and NoMemory, also if the file has more than 2^40 pages.
pub fn known_commits<F: FileBytes>(
    alloc: Global,
    db: &mut F,
    log: &mut F,
    scan: &Scan,
) -> Result<Vec<bool>, ViewError>
    ensures right { F.reads_right db.old × F.reads_right log.old → IfOk result (λ known. (most front : ℕ)
        → TookWithin most (F.bytes log.old) scan.now
        → IsFront (named_size (F.bytes log.old)) (F.bytes log.old) front
        → AreKnown (named_size (F.bytes log.old)) (F.bytes log.old) front (F.bytes db.old) known.items) }
    ensures refused { IfErr result IsSource }
    ensures read { F.gives_bytes db.old × F.gives_bytes log.old → IsRead result }
    ensures still_right { F.reads_right db.old × F.reads_right log.old
        → F.reads_right db.new × F.reads_right log.new }
    ensures still_gives { F.gives_bytes db.old × F.gives_bytes log.old
        → F.gives_bytes db.new × F.gives_bytes log.new }
    ensures same_bytes { (F.bytes db.new ≡ F.bytes db.old) × (F.bytes log.new ≡ F.bytes log.old) }
{
    let mut known = Vec::new(alloc);
    let front = scan.committed().frames;
    let Some(header) = scan.header() else {
        return Ok(known);
    };
    if front == 0 {
        return Ok(known);
    }
    let table = read_table(alloc, db, log, scan, largest(scan, front) as usize)?;
    let mut first = count_at(db, 0)?;
    for before in 0..front {
        let frame = before + 1;
        let Some(entry) = scan.entry(frame as usize) else {
            break;
        };
        first = count_after(log, entry.page, place(frame, header.page_size), first)?;
        known.push(is_known(&table, frame, front, entry.size, first))?;
    }
    Ok(known)
}

/// The first commit after a frame, or from 1 after 0, of which the database is known.
pub fn first_known(known: &[bool], after: u32) -> Option<usize>
    ensures { MatchOption result (NoneIsKnown known.now after) (IsFirstKnown known.now after) }
{
    for before in after as usize..known.len() {
        if known[before] {
            return Some(before + 1);
        }
    }
    None
}
