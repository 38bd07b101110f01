//! The commits of a write-ahead log.
ghost use Rattle.std.specs.Prelude.{◌≡◌, ◌≢◌, ◌⊎◌, ◌<◌, ◌≤◌, ◌-◌, ℕ, List, length, get_or, cond, false};
ghost use Rattle.sqwal.specs.Commits.{AreCommits};
ghost use Rattle.sqwal.specs.Frames.{size_of, IsValidFrame};
ghost use Rattle.sqwal.specs.Header.{named_size};
ghost use Rattle.sqwal.specs.Took.{Took};
ghost use Rattle.sqrescue_c.specs.Commits.{HasCommits, BeginsWithCommits, AreCommitsOf, IsCommitOf, BeginsWithKnown};
ghost use Rattle.sqrescue_c.specs.Logs.{WalRefused};

use crate::status::{Status, view_number, wal_number};
use crate::view::Files;
use crate::wal::{MOST_FRAMES, scan_of};
use sqpast::known_commits;
use sqwal::Scan;
use std::alloc::Global;

/// A commit of a write-ahead log.
#[repr(C)]
#[derive(Clone, Copy)]
pub struct Commit {
    /// The frame that ends it, from 1.
    pub frame: u32,
    /// How many frames it has: those behind the commit before it, up to this one.
    pub frames: u32,
    /// How many pages the database has there.
    pub pages: u32,
}

/// The commit that a frame ends, where the one before it ends at another.
fn commit_of(scan: &Scan, before: u32, frame: u32) -> Commit
    requires { before ≤ frame }
    ensures { (w : List ℕ) → Took w scan.now → IsValidFrame (named_size w) w frame → IsCommitOf w before frame result }
{
    let pages = match scan.entry(frame as usize) {
        Some(entry) => entry.size,
        None => 0,
    };
    Commit {
        frame,
        frames: frame - before,
        pages,
    }
}

/// Writes the commits that these frames end to the front of an array.
fn copy_commits(scan: &Scan, ends: &[u32], commits: &mut [Commit])
    requires room { length ends.now ≤ length commits.old }
    requires rising { (i j : ℕ) → i < j → j < length ends.now → get_or ends.now i 0 < get_or ends.now j 0 }
    ensures { (w : List ℕ) → Took w scan.now → AreCommits (named_size w) w ends.now
        → AreCommitsOf w (length ends.now) ends.now commits.new }
{
    let mut before = 0;
    for i in 0..ends.len() {
        let frame = ends[i];
        commits[i] = commit_of(scan, before, frame);
        before = frame;
    }
}

/// The commits of a write-ahead log, the first one first, and how many there are. Answers Done, or NoRoom where there
/// are more than the array has places, and then leaves the array as it is; otherwise Magic, PageSize, Sum or Version,
/// in this order, or TooLarge, or NoMemory in place of any, and then leaves both as they are (fileformat2, 4.1).
#[unsafe(no_mangle)]
pub extern "C" fn sqr_wal_commits(
    alloc: Global,
    wal: &[u8],
    commits: &mut [Commit],
    count: &mut u32,
) -> u32
    ensures counted { (result ≡ 0) ⊎ (result ≡ 9) → HasCommits wal.now count.new }
    ensures commits { result ≡ 0 → BeginsWithCommits wal.now count.new commits.new }
    ensures crowded { result ≡ 9 → length commits.old < count.new }
    ensures refused { result ≢ 0 → result ≢ 9 → WalRefused wal.now result }
    ensures commits_kept { result ≢ 0 → commits.new ≡ commits.old }
    ensures count_kept { result ≢ 0 → result ≢ 9 → count.new ≡ count.old }
{
    let scan = match scan_of(alloc, wal) {
        Ok(scan) => scan,
        Err(error) => return wal_number(error),
    };
    let ends = match scan.commits(alloc) {
        Ok(ends) => ends,
        Err(error) => return wal_number(error),
    };
    *count = ends.len().min(MOST_FRAMES) as u32;
    if ends.len() > commits.len() {
        return Status::NoRoom.number();
    }
    copy_commits(&scan, &ends, commits);
    Status::Done.number()
}

/// Whether the database is known at a commit, by the list of all frames: 1 or 0.
fn known_at(by_frame: &[bool], frame: u32) -> u8
    requires { 1 ≤ frame }
    ensures { result ≡ cond (get_or by_frame.now (frame - 1) false) 1 0 }
{
    let is_known = by_frame.get(frame as usize - 1).copied().unwrap_or(false);
    if is_known { 1 } else { 0 }
}

/// Writes whether the database is known at each of these commits, by the list of all frames, to the front of an array.
fn copy_known(by_frame: &[bool], ends: &[u32], known: &mut [u8])
    requires room { length ends.now ≤ length known.old }
    requires from_one { (i : ℕ) → i < length ends.now → 1 ≤ get_or ends.now i 0 }
    ensures { (i : ℕ) → i < length ends.now
        → get_or known.new i 0 ≡ cond (get_or by_frame.now (get_or ends.now i 0 - 1) false) 1 0 }
{
    for i in 0..ends.len() {
        known[i] = known_at(by_frame, ends[i]);
    }
}

/// For each commit of the write-ahead log of files, the first one first, 1 if the database is known there, as
/// `sqr_open_at` shows it, and 0 if a later checkpoint may have changed it; and how many commits there are. The journal
/// isn't looked at. Answers as `sqr_wal_commits`.
#[unsafe(no_mangle)]
pub extern "C" fn sqr_known_commits(
    alloc: Global,
    files: &Files<'_>,
    known: &mut [u8],
    count: &mut u32,
) -> u32
    ensures counted { (result ≡ 0) ⊎ (result ≡ 9) → HasCommits files.now.wal.now count.new }
    ensures known { result ≡ 0 → BeginsWithKnown files.now.db.now files.now.wal.now count.new known.new }
    ensures crowded { result ≡ 9 → length known.old < count.new }
    ensures refused { result ≢ 0 → result ≢ 9 → WalRefused files.now.wal.now result }
    ensures known_kept { result ≢ 0 → known.new ≡ known.old }
    ensures count_kept { result ≢ 0 → result ≢ 9 → count.new ≡ count.old }
{
    let scan = match scan_of(alloc, files.wal) {
        Ok(scan) => scan,
        Err(error) => return wal_number(error),
    };
    let ends = match scan.commits(alloc) {
        Ok(ends) => ends,
        Err(error) => return wal_number(error),
    };
    if ends.len() > known.len() {
        *count = ends.len().min(MOST_FRAMES) as u32;
        return Status::NoRoom.number();
    }
    let (mut db, mut wal) = (files.db, files.wal);
    let by_frame = match known_commits(alloc, &mut db, &mut wal, &scan) {
        Ok(by_frame) => by_frame,
        Err(error) => return view_number(error),
    };
    *count = ends.len().min(MOST_FRAMES) as u32;
    copy_known(&by_frame, &ends, known);
    Status::Done.number()
}
