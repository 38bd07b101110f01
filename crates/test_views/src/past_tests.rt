//! The database at a commit, after a checkpoint copied pages of later ones.
use crate::asserts::same;
use crate::logs::log;
use crate::sqcheck_tests::file_of;
use sqpage::{Fault, PageSource};
use sqpast::{PastError, first_known, known_commits, past, past_before, past_of_scan};
use sqval::Limits;
use sqview::{ViewError, scan_log};
use sqwal::Scan;
use std::alloc::{AllocError, Global};
use std::test::Fail;

/// How many pages the view at a commit has.
fn count_at(alloc: Global, db: &[u8], wal: &[u8], frame: u32) -> Result<u32, PastError> {
    let view = past(alloc, db, wal, [].as_slice(), frame)?;
    Ok(view.count())
}

/// A file of two pages whose header says so, with these bytes from a place on.
fn two_pages(alloc: Global, at: usize, bytes: &[u8]) -> Result<Vec<u8>, AllocError> {
    file_of(
        alloc,
        2,
        &[(28, &[0, 0, 0, 2]), (1000, b"old"), (at, bytes)],
    )
}

// Frame 1 ends a commit that changes page 2, frame 2 one that changes page 1, each of two pages.
#[test]
fn shows_what_no_checkpoint_copied(rt: HostRuntime) -> Result<(), Fail> {
    let alloc = rt.alloc();
    let file = two_pages(alloc, 0, b"")?;
    let log = log(alloc, &[(2, 2), (1, 2)])?;
    for frame in 0..3 {
        same(&rt, count_at(alloc, &file, &log, frame), Ok(2));
    }
    let none = Err(PastError::Refused(ViewError::NoSuchCommit));
    same(&rt, count_at(alloc, &file, &log, 3), none);
    Ok(())
}

// The same after a checkpoint copied page 1, and after it copied page 2.
#[test]
fn refuses_what_was_copied(rt: HostRuntime) -> Result<(), Fail> {
    let alloc = rt.alloc();
    let log = log(alloc, &[(2, 2), (1, 2)])?;
    let gone = Err(PastError::CommitOverwritten);
    let first = two_pages(alloc, 0, &[b'b'; 512])?;
    for (frame, wanted) in [(1, gone), (2, Ok(2))] {
        same(&rt, count_at(alloc, &first, &log, frame), wanted);
    }
    let second = two_pages(alloc, 512, &[b'b'; 512])?;
    for (frame, wanted) in [(0, gone), (1, Ok(2)), (2, Ok(2))] {
        same(&rt, count_at(alloc, &second, &log, frame), wanted);
    }
    Ok(())
}

// A file of two pages, and a commit of one page that a checkpoint may have cut it to: page 2 is zeros, or isn't.
#[test]
fn refuses_what_may_have_been_cut_away(rt: HostRuntime) -> Result<(), Fail> {
    let alloc = rt.alloc();
    let log = log(alloc, &[(1, 1), (1, 2)])?;
    let zeros = file_of(alloc, 2, &[(28, &[0, 0, 0, 2])])?;
    let gone = Err(PastError::CommitOverwritten);
    same(&rt, count_at(alloc, &zeros, &log, 0), gone);
    same(
        &rt,
        count_at(alloc, &two_pages(alloc, 0, b"")?, &log, 0),
        Ok(2),
    );
    Ok(())
}

// A header's count that isn't valid: the length isn't known if a commit is as small.
#[test]
fn refuses_a_length_that_may_have_changed(rt: HostRuntime) -> Result<(), Fail> {
    let alloc = rt.alloc();
    let file = file_of(alloc, 2, &[(1000, b"old")])?;
    let gone = Err(PastError::CommitOverwritten);
    same(
        &rt,
        count_at(alloc, &file, &log(alloc, &[(1, 2)])?, 0),
        gone,
    );
    same(
        &rt,
        count_at(alloc, &file, &log(alloc, &[(1, 3)])?, 0),
        Ok(2),
    );
    let bare = file_of(alloc, 2, &[])?;
    same(
        &rt,
        count_at(alloc, &bare, &log(alloc, &[(1, 3)])?, 0),
        gone,
    );
    let size = Err(PastError::Refused(ViewError::Header(Fault::PageSize)));
    let other = two_pages(alloc, 16, &[4, 0])?;
    same(
        &rt,
        count_at(alloc, &other, &log(alloc, &[(1, 3)])?, 0),
        size,
    );
    Ok(())
}

/// How many pages the view at a commit of a scan has.
fn count_of_scan(
    alloc: Global,
    db: &[u8],
    wal: &[u8],
    scan: &Scan,
    frame: u32,
) -> Result<u32, PastError> {
    let limits = Limits::USUAL;
    let view = if frame == 0 {
        past_before(alloc, limits, db, wal, [].as_slice(), scan)?
    } else {
        past_of_scan(alloc, limits, db, wal, scan, frame)?
    };
    Ok(view.count())
}

// By one scan; the second commit grows to three pages, of which a checkpoint copied the last.
#[test]
fn knows_the_commits_of_a_scan(rt: HostRuntime) -> Result<(), Fail> {
    let alloc = rt.alloc();
    let file = two_pages(alloc, 512, &[b'b'; 512])?;
    let log = log(alloc, &[(1, 2), (3, 0), (2, 3), (1, 3)])?;
    let (mut db, mut wal) = (file.as_slice(), log.as_slice());
    let scan = scan_log(alloc, &mut wal)??;
    let gone = Err(PastError::CommitOverwritten);
    for (frame, wanted) in [(0, gone), (1, gone), (3, Ok(3)), (4, Ok(3))] {
        same(&rt, count_of_scan(alloc, db, wal, &scan, frame), wanted);
    }
    let known = known_commits(alloc, &mut db, &mut wal, &scan)?;
    same(&rt, known.as_slice(), [false, false, true, true].as_slice());
    for (after, wanted) in [(0, Some(3)), (3, Some(4)), (4, None)] {
        same(&rt, first_known(&known, after), wanted);
    }
    Ok(())
}
