//! Worked tables: what SQLite's lang_createtable says of the texts that made them.
use sqrows::Row;
use sqtables::{Columns, columns_of, table_row};
use sqval::{Record, Value};
use std::alloc::Global;
use std::test::Fail;

/// How many columns a text names, and which of them is another name for the rowid.
fn columns(alloc: Global, text: &[u8]) -> Option<(usize, Option<usize>)> {
    let columns = columns_of(alloc, text).ok()?;
    Some((columns.names.len(), columns.alias))
}

#[test]
fn aliases_of_the_rowid(rt: HostRuntime) -> Result<(), Fail> {
    let alloc = rt.alloc();
    let own = b"CREATE TABLE t(a, b INTEGER PRIMARY KEY)";
    assert!(rt; columns(alloc, own) == Some((2, Some(1))));
    let short = b"CREATE TABLE t(a INT PRIMARY KEY, b)";
    assert!(rt; columns(alloc, short) == Some((2, None)));
    let ruled = b"CREATE TABLE t(a integer, b, PRIMARY KEY(A))";
    assert!(rt; columns(alloc, ruled) == Some((2, Some(0))));
    let pair = b"CREATE TABLE t(a INTEGER, b INTEGER, PRIMARY KEY(a, b))";
    assert!(rt; columns(alloc, pair) == Some((2, None)));
    Ok(())
}

#[test]
fn tables_of_no_columns(rt: HostRuntime) -> Result<(), Fail> {
    let alloc = rt.alloc();
    let keyed = b"CREATE TABLE t(a INTEGER PRIMARY KEY, b) WITHOUT ROWID";
    assert!(rt; columns(alloc, keyed) == Some((2, None)));
    let twice = b"CREATE TABLE t(a, b, PRIMARY KEY(a, A)) WITHOUT ROWID";
    assert!(rt; columns(alloc, twice) == Some((0, None)));
    let odd = b"CREATE VIRTUAL TABLE t USING fts5(a)";
    assert!(rt; columns(alloc, odd) == Some((0, None)));
    Ok(())
}

#[test]
fn generated_columns(rt: HostRuntime) -> Result<(), Fail> {
    let alloc = rt.alloc();
    let left_out = b"CREATE TABLE t(a, b AS (a), c INTEGER PRIMARY KEY) -- , d)";
    assert!(rt; columns(alloc, left_out) == Some((2, Some(1))));
    let stored = b"CREATE TABLE t(a, b AS (a) STORED)";
    assert!(rt; columns(alloc, stored) == Some((0, None)));
    let hides = b"CREATE TABLE t(a, \"Oid\" AS (a))";
    assert!(rt; columns(alloc, hides) == Some((0, None)));
    Ok(())
}

#[test]
fn texts_with_more(rt: HostRuntime) -> Result<(), Fail> {
    let alloc = rt.alloc();
    let own = b"CREATE TABLE t(a DEFAULT \"\", b TEXT COLLATE own CHECK (b) CHECK (1)); SELECT 1";
    assert!(rt; columns(alloc, own) == Some((2, None)));
    let keyed = b"CREATE TABLE t(a PRIMARY KEY, b) WITHOUT ROWID /* last */";
    assert!(rt; columns(alloc, keyed) == Some((2, None)));
    Ok(())
}

/// A row of the schema: table, t, t, 2 and the text.
static SCHEMA: &[u8] = b"\x06\x17\x0f\x0f\x01\x2ftablett\x02CREATE TABLE t(a)";

/// The root of a table that is named t.
fn root_of(payload: &[u8]) -> Option<u32> {
    let record = Record::new(payload).ok()?;
    let row = table_row(&record)?;
    if row.name == b"t".as_slice() && row.sql == b"CREATE TABLE t(a)".as_slice() {
        Some(row.root)
    } else {
        None
    }
}

#[test]
fn table_of_a_schema(rt: HostRuntime) -> Result<(), Fail> {
    assert!(rt; root_of(SCHEMA) == Some(2));
    Ok(())
}

/// The first two values that a row shows, which stores NULL and 7.
fn shown(alloc: Global, columns: &Columns, rowid: i64) -> Option<(i64, i64)> {
    let row = Row {
        rowid: Some(rowid),
        values: Record::new(b"\x03\x00\x01\x07").ok()?,
    };
    match columns.shown(alloc, &row).ok()?.as_slice() {
        [Value::Int(first), Value::Int(second)] => Some((*first, *second)),
        _ => None,
    }
}

#[test]
fn row_with_its_rowid(rt: HostRuntime) -> Result<(), Fail> {
    let text = b"CREATE TABLE t(a INTEGER PRIMARY KEY, b)";
    let Ok(columns) = columns_of(rt.alloc(), text) else {
        assert!(rt; false);
        return Ok(());
    };
    assert!(rt; shown(rt.alloc(), &columns, 5) == Some((5, 7)));
    Ok(())
}

/// What is shown of the last column by a row that stores NULL and 7.
fn last_shown(alloc: Global, text: &[u8]) -> Option<(usize, i64)> {
    let columns = columns_of(alloc, text).ok()?;
    let row = Row {
        rowid: None,
        values: Record::new(b"\x03\x00\x01\x07").ok()?,
    };
    let values = columns.shown(alloc, &row).ok()?;
    match values.as_slice() {
        [.., Value::Int(number)] => Some((values.len(), *number)),
        [.., Value::Text(bytes)] if *bytes == b"-70".as_slice() => Some((values.len(), -70)),
        _ => None,
    }
}

#[test]
fn row_without_its_last_column(rt: HostRuntime) -> Result<(), Fail> {
    let alloc = rt.alloc();
    let number = b"CREATE TABLE t(a, b, c INT DEFAULT '90')";
    assert!(rt; last_shown(alloc, number) == Some((3, 90)));
    let text = b"CREATE TABLE t(a, b, c TEXT DEFAULT -70)";
    assert!(rt; last_shown(alloc, text) == Some((3, -70)));
    Ok(())
}

#[test]
fn row_in_the_order_of_its_key(rt: HostRuntime) -> Result<(), Fail> {
    let text = b"CREATE TABLE t(b, a, c, PRIMARY KEY(c, a)) WITHOUT ROWID";
    assert!(rt; last_shown(rt.alloc(), text) == None);
    let other = b"CREATE TABLE t(b PRIMARY KEY, a) WITHOUT ROWID";
    assert!(rt; last_shown(rt.alloc(), other) == Some((2, 7)));
    Ok(())
}
