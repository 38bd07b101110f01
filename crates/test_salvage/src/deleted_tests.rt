//! What still stands of rows that were deleted, in pages of 512 bytes that sqlite3 3.40.1 wrote with secure_delete off:
//! worked by hand.
use sqdeleted::{CutCell, CutCells, DeletedCell, DeletedCells, WholeCells};
use sqpage::Kind;
use sqsalvage::parts_at;
use sqval::Value;
use std::alloc::{AllocError, Global};
use std::test::Fail;

/// A page that is zero but for these pieces.
fn page_of(alloc: Global, pieces: &[(usize, &[u8])]) -> Result<Vec<u8>, AllocError> {
    let mut page = vec![in alloc; 0; 512]?;
    for (at, bytes) in pieces.iter() {
        for (i, byte) in bytes.iter().enumerate() {
            if let Some(place) = page.get_mut(at.saturating_add(i)) {
                *place = *byte;
            }
        }
    }
    Ok(page)
}

/// A leaf of the rows 1 10 'row1' to 7 70 'row7', behind DELETE of 7, of 4 and of 3: of these 3 stands whole, in the
/// one freeblock, behind what is left of 4.
static FREEBLOCK: [(usize, &[u8]); 2] = [
    (
        0,
        &[
            13, 1, 216, 0, 4, 1, 196, 0, 1, 246, 1, 236, 1, 206, 1, 196, 1, 196, 1, 196, 1, 186,
        ],
    ),
    (
        445,
        &[
            10, 21, 70, 114, 111, 119, 55, 8, 6, 3, 1, 21, 60, 114, 111, 119, 54, 8, 5, 3, 1, 21,
            50, 114, 111, 119, 53, 0, 0, 0, 20, 21, 40, 114, 111, 119, 52, 8, 3, 3, 1, 21, 30, 114,
            111, 119, 51, 8, 2, 3, 1, 21, 20, 114, 111, 119, 50, 8, 1, 3, 1, 21, 10, 114, 111, 119,
            49,
        ],
    ),
];

/// The root of a table of the rows 1 to 29 with zeroblob(60) and 30 with zeroblob(700), which had five leaves, behind
/// DELETE of all above 5: it is a leaf itself now, and has what was copied of 6 and 7.
static UNALLOCATED: [(usize, &[u8]); 8] = [
    (
        0,
        &[
            13, 0, 0, 0, 5, 0, 178, 0, 1, 190, 1, 123, 1, 56, 0, 245, 0, 178, 1, 236, 0, 44,
        ],
    ),
    (44, &[65, 7, 4, 1, 129, 4, 7]),
    (111, &[65, 6, 4, 1, 129, 4, 6]),
    (178, &[65, 5, 4, 1, 129, 4, 5]),
    (245, &[65, 4, 4, 1, 129, 4, 4]),
    (312, &[65, 3, 4, 1, 129, 4, 3]),
    (379, &[65, 2, 4, 1, 129, 4, 2]),
    (446, &[64, 1, 4, 9, 129, 4]),
];

/// The last leaf of that table, which is free now: row 30, which goes on in page 8, and row 29.
static FREED: [(usize, &[u8]); 3] = [
    (0, &[13, 0, 0, 0, 2, 0, 241, 0, 1, 189, 0, 241]),
    (241, &[133, 65, 30, 4, 1, 139, 4, 30]),
    (444, &[8, 65, 29, 4, 1, 129, 4, 29]),
];

/// Where a cell begins, how many bytes it takes, its rowid and its first overflow page; 0 where there is none.
fn told(cell: Option<DeletedCell<'_>>) -> (usize, usize, i64, u32) {
    match cell {
        Some(cell) => (cell.at, cell.size, cell.rowid, cell.overflow),
        None => (0, 0, 0, 0),
    }
}

/// The number in the first column of a cell's record, and 0 where there is none.
fn number_in(cell: &DeletedCell<'_>) -> i64 {
    match cell.record() {
        Some(record) => match record.column(0) {
            Some(Value::Int(number)) => number,
            _ => 0,
        },
        None => 0,
    }
}

#[test]
fn in_a_freeblock(rt: HostRuntime) -> Result<(), Fail> {
    let page = page_of(rt.alloc(), &FREEBLOCK)?;
    assert_eq!(rt; page.len(), 512);
    let Some(mut cells) = DeletedCells::of_page(&page, 2) else {
        assert!(rt; false);
        return Ok(());
    };
    let Some(cell) = cells.next_cell() else {
        assert!(rt; false);
        return Ok(());
    };
    assert_eq!(rt; number_in(&cell), 30);
    assert_eq!(rt; cell.page, 2);
    assert_eq!(rt; cell.payload, 8);
    assert_eq!(rt; told(Some(cell)), (482, 10, 3, 0));
    assert_eq!(rt; told(cells.next_cell()), (0, 0, 0, 0));
    Ok(())
}

#[test]
fn before_the_content(rt: HostRuntime) -> Result<(), Fail> {
    let page = page_of(rt.alloc(), &UNALLOCATED)?;
    assert_eq!(rt; page.len(), 512);
    let Some(mut cells) = DeletedCells::of_page(&page, 2) else {
        assert!(rt; false);
        return Ok(());
    };
    assert_eq!(rt; told(cells.next_cell()), (44, 67, 7, 0));
    assert_eq!(rt; told(cells.next_cell()), (111, 67, 6, 0));
    assert_eq!(rt; told(cells.next_cell()), (0, 0, 0, 0));
    Ok(())
}

#[test]
fn in_a_free_page(rt: HostRuntime) -> Result<(), Fail> {
    let page = page_of(rt.alloc(), &FREED)?;
    assert_eq!(rt; page.len(), 512);
    let mut cells = DeletedCells::of_free_page(&page, 7);
    let Some(cell) = cells.next_cell() else {
        assert!(rt; false);
        return Ok(());
    };
    assert!(rt; cell.record().is_none());
    assert_eq!(rt; cell.payload, 705);
    assert_eq!(rt; told(Some(cell)), (241, 204, 30, 8));
    assert_eq!(rt; told(cells.next_cell()), (445, 67, 29, 0));
    assert_eq!(rt; told(cells.next_cell()), (0, 0, 0, 0));
    Ok(())
}

#[test]
fn in_no_page_of_a_tree(rt: HostRuntime) -> Result<(), Fail> {
    let page = page_of(rt.alloc(), &[])?;
    assert_eq!(rt; page.len(), 512);
    assert!(rt; DeletedCells::of_page(&page, 2).is_none());
    Ok(())
}

#[test]
fn parts_of_a_cell(rt: HostRuntime) -> Result<(), Fail> {
    let page = page_of(rt.alloc(), &FREED)?;
    assert_eq!(rt; page.len(), 512);
    let Some(parts) = parts_at(Kind::TableLeaf, &page, 241) else {
        assert!(rt; false);
        return Ok(());
    };
    assert_eq!(rt; (parts.body, parts.local, parts.end), (244, 197, 445));
    Ok(())
}

/// A leaf without rows: in its one freeblock rows 200 'apple' and 17000 4660, which lost their first four bytes, and
/// row 7 'grape', which was joined to it last. In each the first column is NULL.
static CUT: [(usize, &[u8]); 2] = [
    (0, &[13, 1, 144, 0, 0, 1, 144, 0]),
    (
        400,
        &[
            0, 0, 0, 30, 0, 23, 97, 112, 112, 108, 101, 0, 0, 0, 9, 3, 0, 2, 18, 52, 8, 7, 3, 0,
            23, 103, 114, 97, 112, 101,
        ],
    ),
];

/// Where a cell began, and how many bytes it took; 0 where there is none.
fn cut(cell: Option<CutCell<'_>>) -> (usize, usize) {
    match cell {
        Some(cell) => (cell.at, cell.size),
        None => (0, 0),
    }
}

#[test]
fn without_their_first_bytes(rt: HostRuntime) -> Result<(), Fail> {
    let page = page_of(rt.alloc(), &CUT)?;
    assert_eq!(rt; page.len(), 512);
    let Some(cells) = DeletedCells::of_page(&page, 2) else {
        assert!(rt; false);
        return Ok(());
    };
    let whole = WholeCells::of_cells(rt.alloc(), cells)?;
    let Some(mut cuts) = CutCells::of_page(&page, 2, &whole) else {
        assert!(rt; false);
        return Ok(());
    };
    let Some(apple) = cuts.next_cell() else {
        assert!(rt; false);
        return Ok(());
    };
    assert_eq!(rt; apple.page, 2);
    assert_eq!(rt; cut(Some(apple)), (400, 11));
    let values = apple.values(rt.alloc())?;
    assert_eq!(rt; values.len(), 2);
    assert!(rt; matches!(values.get(1), Some(Value::Text(b"apple"))));
    let Some(number) = cuts.next_cell() else {
        assert!(rt; false);
        return Ok(());
    };
    assert_eq!(rt; cut(Some(number)), (411, 9));
    let values = number.values(rt.alloc())?;
    assert!(rt; matches!(values.get(1), Some(Value::Int(4660))));
    assert_eq!(rt; cut(cuts.next_cell()), (0, 0));
    Ok(())
}

#[test]
fn without_their_first_bytes_in_a_free_page(rt: HostRuntime) -> Result<(), Fail> {
    let page = page_of(rt.alloc(), &CUT)?;
    assert_eq!(rt; page.len(), 512);
    let none = WholeCells::none(rt.alloc());
    let mut cuts = CutCells::of_free_page(&page, 2, &none);
    assert_eq!(rt; cut(cuts.next_cell()), (411, 9));
    assert_eq!(rt; cut(cuts.next_cell()), (0, 0));
    Ok(())
}
