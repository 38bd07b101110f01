//! The rows of a table beside what texts ask of its columns, on the pages of `index_tests`: sound ones, and each fault.
use crate::index_tests::file_with;
use sqindex::{RowError, RowFault, TableError, judge_rows};
use sqkeys::{Accepts, rules_of};
use sqpage::SliceSource;
use sqval::PageSize;
use std::alloc::{AllocError, Global};
use std::test::Fail;

/// What is found of the rows at page 2, with these bytes changed, by this text.
fn found(
    alloc: Global,
    changes: &[(usize, &[u8])],
    text: &str,
) -> Result<Option<Result<bool, TableError>>, AllocError> {
    let file = file_with(alloc, changes)?;
    let Some(rules) = rules_of(alloc, text.as_bytes())? else {
        return Ok(None);
    };
    let Some(size) = PageSize::new(512) else {
        return Ok(None);
    };
    match SliceSource::new(&file, size) {
        None => Ok(None),
        Some(mut source) => Ok(Some(judge_rows(alloc, &mut source, 2, &rules))),
    }
}

/// Texts by which the rows are sound, and whether all is known of them.
const SOUND: [(&str, bool); 5] = [
    (
        "CREATE TABLE t(i INTEGER PRIMARY KEY, s TEXT, r REAL, n, d DEFAULT 'x')",
        true,
    ),
    (
        "CREATE TABLE t(i INTEGER PRIMARY KEY NOT NULL, s INT, r NOT NULL, n BLOB, d TEXT NOT NULL DEFAULT 'x')",
        true,
    ),
    (
        "CREATE TABLE t(i INTEGER PRIMARY KEY, s TEXT, r REAL, n ANY, d TEXT DEFAULT 'x') STRICT",
        true,
    ),
    ("CREATE TABLE t(i, s)", true),
    (
        "CREATE TABLE t(i INTEGER PRIMARY KEY, s TEXT, r REAL, n, d NOT NULL DEFAULT (1 + 1))",
        false,
    ),
];

/// Texts by which they aren't, the fault, and the cell of page 2 that it stands at.
const FAULTS: [(&str, RowFault, usize); 6] = [
    (
        "CREATE TABLE t(i INTEGER PRIMARY KEY, s TEXT, r REAL, n NOT NULL)",
        RowFault::NullUnderNotNull,
        0,
    ),
    (
        "CREATE TABLE t(i INTEGER PRIMARY KEY, s TEXT NOT NULL, r REAL, n)",
        RowFault::NullUnderNotNull,
        4,
    ),
    (
        "CREATE TABLE t(i INTEGER PRIMARY KEY, s, r, n, d INT NOT NULL)",
        RowFault::NullUnderNotNull,
        0,
    ),
    (
        "CREATE TABLE t(i INTEGER PRIMARY KEY, s, r, n VARCHAR(9))",
        RowFault::NumberUnderText,
        2,
    ),
    (
        "CREATE TABLE t(i INTEGER PRIMARY KEY, s TEXT, r REAL, n INT) STRICT",
        RowFault::TypeUnderStrict,
        3,
    ),
    (
        "CREATE TABLE t(i INTEGER PRIMARY KEY, s NUMERIC, r, n)",
        RowFault::TextUnderNumeric,
        5,
    ),
];

/// A text of row 12 is a number in place of a letter.
const NUMBER: [(usize, &[u8]); 1] = [(964, b"7")];

#[test]
fn sound_rows(rt: HostRuntime) -> Result<(), Fail> {
    for (text, clear) in SOUND {
        match found(rt.alloc(), &[], text)? {
            Some(Ok(known)) => assert!(rt; known == clear),
            _ => assert!(rt; false),
        }
    }
    Ok(())
}

#[test]
fn each_fault_of_a_row(rt: HostRuntime) -> Result<(), Fail> {
    for (text, fault, cell) in FAULTS {
        let wanted = RowError {
            fault,
            page: 2,
            cell,
        };
        match found(rt.alloc(), &NUMBER, text)? {
            Some(Err(TableError::Row(error))) => assert!(rt; error == wanted),
            _ => assert!(rt; false),
        }
    }
    Ok(())
}

#[test]
fn what_a_text_asks_of_its_columns(rt: HostRuntime) -> Result<(), Fail> {
    let text = "CREATE TABLE t(a INT, b REAL NOT NULL, PRIMARY KEY(a)) STRICT";
    let Some(rules) = rules_of(rt.alloc(), text.as_bytes())? else {
        assert!(rt; false);
        return Ok(());
    };
    match rules.as_slice() {
        [a, b] => {
            assert!(rt; a.not_null && a.accepts == Accepts::Integers);
            assert!(rt; b.not_null && b.accepts == Accepts::Numbers);
        }
        _ => assert!(rt; false),
    }
    Ok(())
}

#[test]
fn texts_that_are_not_understood(rt: HostRuntime) -> Result<(), Fail> {
    for text in [
        "CREATE TABLE t(a PRIMARY KEY) WITHOUT ROWID",
        "CREATE TABLE t(a DATE) STRICT",
        "CREATE TABLE t(a, b NOT NULL AS (a))",
        "CREATE TABLE t(a INT, b INT AS (a)) STRICT",
        "CREATE VIEW t AS SELECT 1",
    ] {
        assert!(rt; rules_of(rt.alloc(), text.as_bytes())?.is_none());
    }
    Ok(())
}
