//! What still stands of deleted rows, as it is printed: the expected lines were written by hand.
use crate::files::{file_of, source_of};
use cli_show_deleted::{
    Image, layout_in, notation_in, print_deleted, print_deleted_changes, print_image,
};
use cli_words::Style;
use std::alloc::Global;
use std::test::Fail;

/// A database without tables, whose other pages nothing uses.
static EMPTY: [(usize, &[u8]); 3] = [
    (0, b"SQLite format 3\0"),
    (16, &[2, 0, 1, 1, 0, 64, 32, 32]),
    (100, &[13, 0, 0, 0, 0, 2, 0, 0]),
];

/// The cell of row 9 'x' at the end of page 2.
static CELL: [(usize, &[u8]); 1] = [(1019, &[3, 9, 2, 15, 120])];

/// The cells of a file.
fn printed(alloc: Global, file: &[u8]) -> Option<Vec<u8>> {
    let Some(mut source) = source_of(file) else {
        return None;
    };
    let mut out = Vec::new(alloc);
    match print_deleted(alloc, &mut source, Style::Lines, &mut out) {
        Ok(()) => Some(out),
        Err(_) => None,
    }
}

/// Those that went and came between two files.
fn printed_between(alloc: Global, old: &[u8], new: &[u8]) -> Option<Vec<u8>> {
    let (Some(mut old), Some(mut new)) = (source_of(old), source_of(new)) else {
        return None;
    };
    let mut out = Vec::new(alloc);
    match print_deleted_changes(alloc, &mut old, &mut new, Style::Lines, &mut out) {
        Ok(()) => Some(out),
        Err(_) => None,
    }
}

/// Those of pages that frame 4 has, which name page 2 and aren't shown.
fn printed_image(alloc: Global, first: &[u8], used: &[u8]) -> Option<Vec<u8>> {
    if first.len() != 512 || used.len() != 512 {
        return None;
    }
    let image = Image {
        frame: 4,
        page: 2,
        used,
    };
    let mut out = Vec::new(alloc);
    match layout_in(alloc, first, notation_in(Style::Lines)) {
        Ok(layout) => match print_image(&mut out, layout, image, b"") {
            Ok(()) => Some(out),
            Err(_) => None,
        },
        Err(_) => None,
    }
}

#[test]
fn cells_of_deleted_rows(rt: HostRuntime) -> Result<(), Fail> {
    let empty = file_of(rt.alloc(), &EMPTY, &[])?;
    let file = file_of(rt.alloc(), &EMPTY, &CELL)?;
    let cells = printed(rt.alloc(), &file).ok_or("not printed")?;
    assert!(rt; cells.as_slice() == b"page 2 at 507 rowid 9: 'x'\n".as_slice());
    let came = printed_between(rt.alloc(), &empty, &file).ok_or("not printed")?;
    assert!(rt; came.as_slice() == b"+ page 2 at 507 rowid 9: 'x'\n".as_slice());
    let first = file.get(..512).ok_or("no page 1")?;
    let second = file.get(512..1024).ok_or("no page 2")?;
    let cells = printed_image(rt.alloc(), first, second).ok_or("not printed")?;
    assert!(rt; cells.as_slice() == b"frame 4 page 2 at 507 rowid 9: 'x'\n".as_slice());
    Ok(())
}
