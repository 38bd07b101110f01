//! The view of a file at each commit of its log, and its pages.
use crate::asserts::same;
use crate::logs::{header, log, push_record};
use crate::sqcheck_tests::file_of;
use sqcheck::{Report, Role, Survey};
use sqpage::{CheckError, Fault, Kind, PageSource, SourceError};
use sqval::Limits;
use sqview::{
    CopyError, FileBytes, JudgeError, Origin, ReadAhead, Verdict, View, ViewError, copy, judge_at,
    judge_at_within, judge_view, judge_within, scan_log, scan_log_within, survey_view,
    without_view,
};
use sqwal::{Scan, WalFormatError};
use std::alloc::{AllocError, Global};
use std::test::Fail;

/// Pages of 512 times each of these letters, behind these bytes.
fn spelled(alloc: Global, head: &[u8], letters: &[u8]) -> Result<Vec<u8>, AllocError> {
    let mut pages = head.to_vec(alloc)?;
    for letter in letters {
        pages.extend_from_slice(&[*letter; 512])?;
    }
    Ok(pages)
}

/// What a copy of the view appends to these bytes.
fn copied<F: FileBytes>(
    alloc: Global,
    view: &mut View<F>,
    head: &[u8],
) -> Result<Vec<u8>, CopyError> {
    let Ok(mut out) = head.to_vec(alloc) else {
        return Err(CopyError::NoMemory);
    };
    copy(alloc, view, &mut out)?;
    Ok(out)
}

/// The front of the newest view, and how many pages it has.
fn newest(alloc: Global, db: &[u8], wal: &[u8]) -> Result<(u32, u32), ViewError> {
    let view = View::new(alloc, db, wal, [].as_slice())?;
    Ok((view.front(), view.count()))
}

/// How many pages the view at a commit has.
fn count_at(alloc: Global, db: &[u8], wal: &[u8], frame: u32) -> Result<u32, ViewError> {
    let view = View::at(alloc, db, wal, [].as_slice(), frame)?;
    Ok(view.count())
}

// A log of pages of `b`, of which frame 2 ends a commit of two pages and frame 3 one of three, over a file of one page.
#[test]
fn views_at_commits(rt: HostRuntime) -> Result<(), Fail> {
    let alloc = rt.alloc();
    let file = [b'a'; 512];
    let log = log(alloc, &[(1, 0), (2, 2), (3, 3)])?;
    let (db, wal) = (file.as_slice(), log.as_slice());
    same(&rt, newest(alloc, db, wal), Ok((3, 3)));
    for frame in [1, 4] {
        let refused = Err(ViewError::NoSuchCommit);
        same(&rt, count_at(alloc, db, wal, frame), refused);
    }
    let mut view = View::at(alloc, db, wal, [].as_slice(), 2)?;
    same(&rt, (view.front(), view.count()), (2, 2));
    same(&rt, *view.file(), db);
    same(&rt, *view.log(), wal);
    let mut places = [1u64; 2];
    if view.place_count() == places.len() {
        view.copy_places(&mut places);
    }
    same(&rt, places.as_slice(), [56u64, 592].as_slice());
    same(
        &rt,
        (view.place_count(), view.place(2), view.place(3)),
        (2, 592, 0),
    );
    let out = copied(alloc, &mut view, b"")?;
    same(&rt, out.as_slice(), [b'b'; 1024].as_slice());
    Ok(())
}

// A log of one frame, which names page 300,000 of 2,000,000: that page is too far behind for the list.
#[test]
fn views_far_pages(rt: HostRuntime) -> Result<(), Fail> {
    let alloc = rt.alloc();
    let log = log(alloc, &[(300_000, 2_000_000)])?;
    let view = View::new(alloc, [].as_slice(), log.as_slice(), [].as_slice())?;
    same(
        &rt,
        (view.count(), view.place_count()),
        (2_000_000, 2_000_000),
    );
    let places = (view.place(1), view.place(299_999), view.place(300_000));
    same(&rt, places, (0, 0, 56));
    let past = (view.place(300_001), view.place(2_000_001));
    same(&rt, past, (0, 0));
    Ok(())
}

/// What a check of one sound page answers.
const ONE_PAGE: Report = Report {
    pages: 1,
    trees: 1,
    btree: 1,
    overflow: 0,
    free: 0,
};

/// The verdict on the files at a commit.
fn judged_at(alloc: Global, db: &[u8], wal: &[u8], frame: u32) -> Result<Verdict, JudgeError> {
    judge_at(alloc, db, wal, [].as_slice(), frame)
}

// A file of one sound page, and a log of which frame 2 ends a commit of a page 1 of `b`.
#[test]
fn judges_at_commits(rt: HostRuntime) -> Result<(), Fail> {
    let alloc = rt.alloc();
    let file = file_of(alloc, 1, &[])?;
    let log = log(alloc, &[(1, 0), (1, 1)])?;
    let damage = CheckError {
        page: 1,
        fault: Fault::Magic,
    };
    let rows = [
        (0, Ok(Verdict::Clean(ONE_PAGE))),
        (1, Err(JudgeError::NoSuchCommit)),
        (2, Ok(Verdict::Damaged(damage))),
        (3, Err(JudgeError::NoSuchCommit)),
    ];
    for (frame, wanted) in rows {
        same(&rt, judged_at(alloc, &file, &log, frame), wanted);
    }
    Ok(())
}

// A view, and files that have none.
#[test]
fn judges_a_view(rt: HostRuntime) -> Result<(), Fail> {
    let alloc = rt.alloc();
    let file = file_of(alloc, 1, &[])?;
    let mut view = View::new(alloc, file.as_slice(), [].as_slice(), [].as_slice())?;
    let clean = Ok(Verdict::Clean(ONE_PAGE));
    same(&rt, judge_view(alloc, &mut view), clean);
    let damage = CheckError {
        page: 1,
        fault: Fault::PageSize,
    };
    let damaged = Ok(Verdict::Damaged(damage));
    same(
        &rt,
        without_view(ViewError::Header(Fault::PageSize)),
        damaged,
    );
    same(
        &rt,
        without_view(ViewError::TwoLogs),
        Err(JudgeError::TwoLogs),
    );
    Ok(())
}

// Each page once, in order, and nothing else.
#[test]
fn copies_a_view(rt: HostRuntime) -> Result<(), Fail> {
    let alloc = rt.alloc();
    let file = [b'a'; 1536];
    let log = log(alloc, &[(2, 3)])?;
    let mut view = View::new(alloc, file.as_slice(), log.as_slice(), [].as_slice())?;
    let out = copied(alloc, &mut view, b"::")?;
    same(&rt, out, spelled(alloc, b"::", b"aba")?);
    Ok(())
}

/// How many pages the newest view has within these limits, and that at frame 3.
fn counts_within(
    alloc: Global,
    limits: Limits,
    db: &[u8],
    wal: &[u8],
) -> [Result<u32, ViewError>; 2] {
    let none = [].as_slice();
    let newest = View::new_within(alloc, limits, db, wal, none);
    let third = View::at_within(alloc, limits, db, wal, none, 3);
    [
        newest.map(|view| view.count()),
        third.map(|view| view.count()),
    ]
}

/// The verdict on the files within these limits, and that at frame 3.
fn judged_within(
    alloc: Global,
    limits: Limits,
    db: &[u8],
    wal: &[u8],
) -> [Result<Verdict, JudgeError>; 2] {
    let none = [].as_slice();
    [
        judge_within(alloc, limits, db, wal, none),
        judge_at_within(alloc, limits, db, wal, none, 3),
    ]
}

/// Where a scan within these limits stops.
fn stop_within(
    alloc: Global,
    limits: Limits,
    mut wal: &[u8],
) -> Result<Result<u32, WalFormatError>, Fail> {
    let scan = scan_log_within(alloc, limits, &mut wal)?;
    Ok(scan.map(|scan| scan.stop().frame))
}

// A log of three frames over a file of one page, which has three pages then: too long where two frames may be read,
// too large where 1535 bytes may be.
#[test]
fn limits_that_are_named(rt: HostRuntime) -> Result<(), Fail> {
    let alloc = rt.alloc();
    let file = [b'a'; 512];
    let log = log(alloc, &[(1, 0), (2, 2), (3, 3)])?;
    for (bytes, frames, wanted) in [
        (1536, 3, Ok(3)),
        (1535, 3, Err(ViewError::TooLarge)),
        (1536, 2, Err(ViewError::TooLarge)),
    ] {
        let limits = Limits::new(bytes, frames).ok_or("limits")?;
        same(&rt, counts_within(alloc, limits, &file, &log), [wanted; 2]);
    }
    let few = Limits::new(1536, 2).ok_or("limits")?;
    let too_large = Err(JudgeError::TooLarge);
    same(&rt, judged_within(alloc, few, &file, &log), [too_large; 2]);
    let too_long = Err(WalFormatError::TooLong);
    same(&rt, stop_within(alloc, few, &log)?, too_long);
    Ok(())
}

/// Where the three pages of the newest view come from.
fn origins(alloc: Global, db: &[u8], wal: &[u8], journal: &[u8]) -> Result<[Origin; 3], ViewError> {
    let view = View::new(alloc, db, wal, journal)?;
    Ok([view.origin(1), view.origin(2), view.origin(3)])
}

// Two frames name page 2, and a record of a journal page 3.
#[test]
fn pages_come_from(rt: HostRuntime) -> Result<(), Fail> {
    let alloc = rt.alloc();
    let file = [b'a'; 1536];
    let log = log(alloc, &[(2, 0), (2, 3)])?;
    let wanted = [Origin::File, Origin::Frame(2), Origin::File];
    same(&rt, origins(alloc, &file, &log, &[]), Ok(wanted));
    let mut journal = header(alloc, 1, 3)?;
    push_record(&mut journal, 3, b'j')?;
    let wanted = [Origin::File, Origin::File, Origin::Record(516)];
    same(&rt, origins(alloc, &file, &[], &journal), Ok(wanted));
    Ok(())
}

/// Four bytes of a view's log, from a place on.
fn bytes_of_log(alloc: Global, db: &[u8], wal: &[u8], from: u64) -> Result<[u8; 4], Fail> {
    let mut view = View::new(alloc, db, wal, [].as_slice())?;
    let mut out = [b'x'; 4];
    view.read_log(from, &mut out)?;
    Ok(out)
}

// The magic of a log whose words have the highest byte first, bytes of its page, and zeros past its end.
#[test]
fn reads_the_log_of_a_view(rt: HostRuntime) -> Result<(), Fail> {
    let alloc = rt.alloc();
    let file = [b'a'; 512];
    let log = log(alloc, &[(1, 1)])?;
    let (db, wal) = (file.as_slice(), log.as_slice());
    same(
        &rt,
        bytes_of_log(alloc, db, wal, 0)?,
        [0x37, 0x7f, 0x06, 0x83],
    );
    same(&rt, bytes_of_log(alloc, db, wal, 56)?, [b'b'; 4]);
    same(&rt, bytes_of_log(alloc, db, wal, 1000)?, [0; 4]);
    Ok(())
}

/// What a survey of the file finds, as a view of it.
fn surveyed(alloc: Global, db: &[u8]) -> Result<Survey, Fail> {
    let mut view = View::new(alloc, db, [].as_slice(), [].as_slice())?;
    Ok(survey_view(alloc, &mut view)?)
}

#[test]
fn maps_a_view(rt: HostRuntime) -> Result<(), Fail> {
    let alloc = rt.alloc();
    let file = file_of(alloc, 2, &[])?;
    let survey = surveyed(alloc, &file)?;
    let leaf = Role::Btree {
        kind: Kind::TableLeaf,
        root: 1,
    };
    same(
        &rt,
        survey.roles.as_slice(),
        [leaf, Role::Unused].as_slice(),
    );
    let unused = CheckError {
        page: 2,
        fault: Fault::PageUnused,
    };
    same(&rt, survey.answer, Err(unused));
    Ok(())
}

/// A copy of the view at a commit of a scan, of files that are read ahead.
fn copied_at(
    alloc: Global,
    db: &[u8],
    wal: &[u8],
    scan: &Scan,
    frame: u32,
) -> Result<Vec<u8>, Fail> {
    let db = ReadAhead::new(alloc, db, 2048)?;
    let wal = ReadAhead::new(alloc, wal, 2048)?;
    let mut view = View::of_scan(alloc, db, wal, scan, frame)?;
    Ok(copied(alloc, &mut view, b"")?)
}

/// A file of which one byte can't be read.
#[derive(Drop)]
struct Torn<'a> {
    bytes: &'a [u8],
    unreadable: u64,
}

impl FileBytes for Torn<'_> {
    ghost bytes = { λ torn. torn.bytes.now };

    ghost reads_right = { λ _. ⊥ };

    ghost gives_bytes = { λ _. ⊥ };

    ghost right = { λ _ gives. gives };

    fn len(&self) -> u64 {
        self.bytes.len() as u64
    }

    fn read_at(&mut self, at: u64, out: &mut [u8]) -> Result<(), SourceError> {
        if at <= self.unreadable && self.unreadable - at < out.len() as u64 {
            return Err(SourceError);
        }
        let mut bytes = self.bytes;
        bytes.read_at(at, out)
    }
}

/// The first byte of each page of 512 bytes that can be read, of so many pages that are read one behind the other.
fn letters_of(alloc: Global, file: Torn<'_>, pages: u64) -> Result<Vec<Option<u8>>, AllocError> {
    let mut file = ReadAhead::new(alloc, file, 2048)?;
    let mut letters = Vec::new(alloc);
    for page in 0..pages {
        let mut content = [0u8; 512];
        let read = file.read_at(page.saturating_mul(512), &mut content);
        letters.push(read.ok().map(|_| content[0]))?;
    }
    Ok(letters)
}

// A byte of the fifth page can't be read, which is read ahead with the second.
#[test]
fn reads_what_is_before_an_unreadable_page_and_behind(rt: HostRuntime) -> Result<(), Fail> {
    let alloc = rt.alloc();
    let bytes = spelled(alloc, b"", b"abcdefgh")?;
    let file = Torn {
        bytes: &bytes,
        unreadable: 2500,
    };
    let letters = letters_of(alloc, file, 8)?;
    for (page, letter) in b"abcdefgh".iter().enumerate() {
        let wanted = if page == 4 { None } else { Some(*letter) };
        same(&rt, letters.get(page).copied(), Some(wanted));
    }
    Ok(())
}

/// How many pages the view at a commit of a scan has.
fn count_of_scan(
    alloc: Global,
    db: &[u8],
    wal: &[u8],
    scan: &Scan,
    frame: u32,
) -> Result<u32, ViewError> {
    let view = View::of_scan(alloc, db, wal, scan, frame)?;
    Ok(view.count())
}

// Of a log of which frames 3 and 5 end commits, by one scan.
#[test]
fn copies_views_of_a_scan(rt: HostRuntime) -> Result<(), Fail> {
    let alloc = rt.alloc();
    let file = [b'a'; 4096];
    let log = log(alloc, &[(2, 0), (3, 0), (4, 8), (7, 0), (1, 8)])?;
    let (db, mut wal) = (file.as_slice(), log.as_slice());
    let scan = scan_log(alloc, &mut wal)??;
    for (frame, letters) in [(3, b"abbbaaaa"), (5, b"bbbbaaba")] {
        let out = copied_at(alloc, db, wal, &scan, frame)?;
        same(&rt, out, spelled(alloc, b"", letters)?);
    }
    let refused = Err(ViewError::NoSuchCommit);
    same(&rt, count_of_scan(alloc, db, wal, &scan, 2), refused);
    Ok(())
}
