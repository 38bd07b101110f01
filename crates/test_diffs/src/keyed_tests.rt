//! Worked changes between tables WITHOUT ROWID of sqlite3 3.40.1: which they are was written by hand.
use crate::files::{FIVE, file_of, source_of};
use sqdiff::{DiffError, Kind, SideError};
use sqkeydiff::{KeyDiff, KeyOrder};
use sqlite_value::keys::{Collation, Key, Order};
use sqrows::Row;
use sqval::{RecordError, Value};
use std::process::Abort;
use std::test::Fail;

/// Rows of CREATE TABLE t(a TEXT COLLATE NOCASE, b INT, c, PRIMARY KEY(a, b DESC)) WITHOUT ROWID: 'a' 2 'p', 'a' 1 'q',
/// 'B' 5 'r', 'c' 1 's', 'd' 1 't'.
static KEYED: [(usize, &[u8]); 2] = [
    (
        512,
        &[
            10, 0, 0, 0, 5, 1, 219, 0, 1, 248, 1, 241, 1, 233, 1, 226, 1, 219,
        ],
    ),
    (
        987,
        &[
            6, 4, 15, 9, 15, 100, 116, 6, 4, 15, 9, 15, 99, 115, 7, 4, 15, 1, 15, 66, 5, 114, 6, 4,
            15, 9, 15, 97, 113, 7, 4, 15, 1, 15, 97, 2, 112,
        ],
    ),
];

/// The same, where the first 'a' is 'A', 'r' is 'R', and 'c' 1 became 'C' 0.
static OTHER_KEYS: [(usize, &[u8]); 2] = [
    (
        512,
        &[
            10, 0, 0, 0, 5, 1, 219, 0, 1, 248, 1, 241, 1, 233, 1, 226, 1, 219,
        ],
    ),
    (
        987,
        &[
            6, 4, 15, 9, 15, 100, 116, 6, 4, 15, 8, 15, 67, 115, 7, 4, 15, 1, 15, 66, 5, 82, 6, 4,
            15, 9, 15, 97, 113, 7, 4, 15, 1, 15, 65, 2, 112,
        ],
    ),
];

/// How these are sorted, where letters of both cases are the same, or aren't.
fn order_by(collation: Collation) -> Option<KeyOrder> {
    let falling = Key {
        collation: Collation::Binary,
        descending: true,
    };
    let rising = Key {
        collation,
        descending: false,
    };
    let order = Order::from_parts(rising, Order::from_parts(falling, Order::PLAIN)?)?;
    Some(KeyOrder { width: 2, order })
}

/// Whether a row is these values.
fn is_row(row: Result<Row<'_>, RecordError>, a: &[u8], b: i64, c: &[u8]) -> bool {
    match row {
        Ok(row) => {
            row.rowid.is_none()
                && row.values.column(0) == Some(Value::Text(a))
                && row.values.column(1) == Some(Value::Int(b))
                && row.values.column(2) == Some(Value::Text(c))
        }
        Err(_) => false,
    }
}

#[test]
fn changes_by_key(rt: HostRuntime) -> Result<(), Fail> {
    let keyed = file_of(rt.alloc(), &KEYED)?;
    let others = file_of(rt.alloc(), &OTHER_KEYS)?;
    let (Some(mut old), Some(mut new)) = (source_of(&keyed), source_of(&others)) else {
        assert!(rt; false);
        return Ok(());
    };
    let Some(key) = order_by(Collation::NoCase) else {
        assert!(rt; false);
        return Ok(());
    };
    let Ok(mut diff) = KeyDiff::new(rt.alloc(), &mut old, &mut new, (2, 2), key, 100) else {
        assert!(rt; false);
        return Ok(());
    };
    assert!(rt; matches!(diff.advance(&mut old, &mut new), Ok(Some(Kind::Changed))));
    assert!(rt; is_row(diff.old_row(), b"a", 2, b"p"));
    assert!(rt; is_row(diff.new_row(), b"A", 2, b"p"));
    assert!(rt; matches!(diff.advance(&mut old, &mut new), Ok(Some(Kind::Changed))));
    assert!(rt; is_row(diff.old_row(), b"B", 5, b"r"));
    assert!(rt; is_row(diff.new_row(), b"B", 5, b"R"));
    assert!(rt; matches!(diff.advance(&mut old, &mut new), Ok(Some(Kind::Deleted))));
    assert!(rt; is_row(diff.old_row(), b"c", 1, b"s"));
    assert!(rt; matches!(diff.advance(&mut old, &mut new), Ok(Some(Kind::Inserted))));
    assert!(rt; is_row(diff.new_row(), b"C", 0, b"s"));
    assert!(rt; matches!(diff.advance(&mut old, &mut new), Ok(None)));
    Ok(())
}

#[test]
fn keys_of_another_order(rt: HostRuntime) -> Result<(), Fail> {
    let keyed = file_of(rt.alloc(), &KEYED)?;
    let (Some(mut old), Some(mut new)) = (source_of(&keyed), source_of(&keyed)) else {
        assert!(rt; false);
        return Ok(());
    };
    let Some(key) = order_by(Collation::Binary) else {
        assert!(rt; false);
        return Ok(());
    };
    let Ok(mut diff) = KeyDiff::new(rt.alloc(), &mut old, &mut new, (2, 2), key, 100) else {
        assert!(rt; false);
        return Ok(());
    };
    let unordered = DiffError::Old(SideError::Unordered);
    assert!(rt; diff.advance(&mut old, &mut new) == Err(unordered));
    Ok(())
}

#[test]
fn rows_with_rowids(rt: HostRuntime) -> Result<(), Fail> {
    let five = file_of(rt.alloc(), &FIVE)?;
    let (Some(mut old), Some(mut new)) = (source_of(&five), source_of(&five)) else {
        assert!(rt; false);
        return Ok(());
    };
    let Some(key) = order_by(Collation::Binary) else {
        assert!(rt; false);
        return Ok(());
    };
    let Ok(mut diff) = KeyDiff::new(rt.alloc(), &mut old, &mut new, (2, 2), key, 100) else {
        assert!(rt; false);
        return Ok(());
    };
    let unordered = DiffError::Old(SideError::Unordered);
    assert!(rt; diff.advance(&mut old, &mut new) == Err(unordered));
    Ok(())
}
