//! Commits are kept or lost, or an image shows none, on databases that are made by hand.

use crate::asserts::same;
use rig_judge::{
    History, Judgment, Snapshot, SnapshotError, files_show, free_leaves, judge_files, judge_source,
};
use sqpage::{CheckError, Fault, SliceSource};
use sqval::PageSize;
use sqview::ViewError;
use std::alloc::Global;
use std::test::Fail;

/// Pages of 512 bytes, if they are whole.
fn source(bytes: &[u8]) -> Option<SliceSource<'_>> {
    match PageSize::new(512) {
        Some(size) => SliceSource::new(bytes, size),
        None => None,
    }
}

/// The database of some pages; Unread where they aren't whole, here and below.
fn taken(alloc: Global, bytes: &[u8]) -> Result<Snapshot, SnapshotError> {
    match source(bytes) {
        Some(mut source) => Snapshot::take(alloc, &mut source),
        None => Err(SnapshotError::Unread),
    }
}

/// Whether pages show a database.
fn is_shown(alloc: Global, snapshot: &Snapshot, bytes: &[u8]) -> Result<bool, SnapshotError> {
    match source(bytes) {
        Some(mut source) => snapshot.is_shown(alloc, &mut source),
        None => Err(SnapshotError::Unread),
    }
}

/// The last commit that pages show.
fn shown(alloc: Global, history: &History, bytes: &[u8]) -> Result<Option<usize>, SnapshotError> {
    match source(bytes) {
        Some(mut source) => history.shown(alloc, &mut source),
        None => Err(SnapshotError::Unread),
    }
}

/// The judgment of pages.
fn judged(
    alloc: Global,
    history: &History,
    known: usize,
    bytes: &[u8],
) -> Result<Judgment, SnapshotError> {
    match source(bytes) {
        Some(mut source) => judge_source(alloc, history, known, &mut source),
        None => Err(SnapshotError::Unread),
    }
}

/// The leaves of the freelist.
fn leaves_of(alloc: Global, bytes: &[u8]) -> Result<Vec<u32>, SnapshotError> {
    match source(bytes) {
        Some(mut source) => free_leaves(alloc, &mut source),
        None => Err(SnapshotError::Unread),
    }
}

/// Two pages. The freelist has the trunk 2 with no leaves.
fn pages(change: u8) -> [u8; 1024] {
    let mut bytes = [0u8; 1024];
    bytes[35] = 2;
    bytes[39] = 1;
    bytes[100] = change;
    bytes
}

/// Commits of those pages, with these changes.
fn history_of(alloc: Global, changes: &[u8]) -> Result<History, SnapshotError> {
    let mut history = History::new(alloc);
    for change in changes {
        history.push(taken(alloc, &pages(*change))?)?;
    }
    Ok(history)
}

#[test]
fn shown_commits(rt: HostRuntime) -> Result<(), Fail> {
    let alloc = rt.alloc();
    let history = history_of(alloc, &[1, 2])?;
    same(&rt, history.len(), 2);
    let (first, third) = (pages(1), pages(3));
    same(&rt, shown(alloc, &history, &first), Ok(Some(0)));
    same(&rt, shown(alloc, &history, &third), Ok(None));
    let fault = CheckError {
        page: 1,
        fault: Fault::Magic,
    };
    for (known, pages, wanted) in [
        (0, &first, Judgment::Kept(0)),
        (1, &first, Judgment::Lost(0)),
        (0, &third, Judgment::Fault(fault)),
    ] {
        same(&rt, judged(alloc, &history, known, pages), Ok(wanted));
    }
    Ok(())
}

/// Three pages. The freelist has the trunk 2 with the leaf 3.
fn with_a_leaf() -> [u8; 1536] {
    let mut bytes = [0u8; 1536];
    bytes[35] = 2;
    bytes[39] = 2;
    bytes[519] = 1;
    bytes[523] = 3;
    bytes
}

// The pages of a leaf of the freelist may hold anything, those of its trunk may not.
#[test]
fn leaves(rt: HostRuntime) -> Result<(), Fail> {
    let alloc = rt.alloc();
    let mut bytes = with_a_leaf();
    let none = leaves_of(alloc, &pages(0))?;
    assert!(rt; none.is_empty());
    let leaves = leaves_of(alloc, &bytes)?;
    same(&rt, leaves.as_slice(), [3].as_slice());
    let snapshot = taken(alloc, &bytes)?;
    assert!(rt; !snapshot.is_empty() && Snapshot::nothing(alloc).is_empty());
    bytes[1100] = 7;
    same(&rt, is_shown(alloc, &snapshot, &bytes), Ok(true));
    bytes[600] = 7;
    same(&rt, is_shown(alloc, &snapshot, &bytes), Ok(false));
    Ok(())
}

/// The judgment of a database file without logs.
fn judged_file(
    alloc: Global,
    history: &History,
    known: usize,
    db: &[u8],
) -> Result<Judgment, SnapshotError> {
    judge_files(alloc, history, known, db, b"", b"")
}

/// Whether the history takes a database file without logs.
fn noted(alloc: Global, history: &mut History, db: &[u8]) -> Result<bool, SnapshotError> {
    history.note(alloc, db, b"", b"")
}

// A file without bytes is the database of no pages.
#[test]
fn no_files(rt: HostRuntime) {
    let alloc = rt.alloc();
    let mut history = History::new(alloc);
    let refused = Judgment::Refused(ViewError::Header(Fault::Magic));
    same(&rt, judged_file(alloc, &history, 0, b""), Ok(refused));
    same(&rt, noted(alloc, &mut history, b""), Ok(true));
    same(&rt, noted(alloc, &mut history, b""), Ok(false));
    same(&rt, noted(alloc, &mut history, b"no database"), Ok(false));
    same(&rt, history.len(), 1);
    for (known, db, wanted) in [
        (0, b"".as_slice(), Judgment::Kept(0)),
        (1, b"", Judgment::Lost(0)),
        (0, b"no database", refused),
    ] {
        same(&rt, judged_file(alloc, &history, known, db), Ok(wanted));
    }
}

/// A file of two pages of 512 bytes.
fn two_pages() -> [u8; 1024] {
    let mut bytes = [0u8; 1024];
    bytes[..18].copy_from_slice(b"SQLite format 3\0\x02\0");
    bytes
}

/// A hot journal without records, by which a file had one page of 512 bytes.
fn journal_of_a_page() -> [u8; 512] {
    let mut bytes = [0u8; 512];
    bytes[..8].copy_from_slice(&[0xd9, 0xd5, 0x05, 0xf9, 0x20, 0xa1, 0x63, 0xd7]);
    bytes[19] = 1;
    bytes[22] = 2;
    bytes[26] = 2;
    bytes
}

// Files beside two logs show no commit, but their judgment is that of what the journal restores, with the log.
#[test]
fn two_logs(rt: HostRuntime) -> Result<(), Fail> {
    let alloc = rt.alloc();
    let (file, journal) = (two_pages(), journal_of_a_page());
    let page = &file[..512];
    let commit = taken(alloc, page)?;
    for (db, wal, journal, wanted) in [
        (page, b"".as_slice(), b"".as_slice(), true),
        (&file, b"", b"", false),
        (&file, b"", &journal, true),
        (&file, b"x", &journal, false),
    ] {
        same(
            &rt,
            files_show(alloc, &commit, db, wal, journal),
            Ok(wanted),
        );
    }
    let mut history = History::new(alloc);
    history.push(commit)?;
    for (known, wanted) in [(0, Judgment::Kept(0)), (1, Judgment::Lost(0))] {
        let judgment = judge_files(alloc, &history, known, &file, b"x", &journal);
        same(&rt, judgment, Ok(wanted));
    }
    Ok(())
}
