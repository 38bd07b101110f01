//! The keys of indexes, of texts that SQLite 3.40.1 takes, as its `index_xinfo` tells them.
use sqkeys::{IndexKey, KeyColumn, automatic_key_of, key_of};
use sqlite_value::keys::{Collation, Order};
use sqlite_value::value::Value;
use std::alloc::{AllocError, Global};
use std::test::Fail;

/// The texts of a table and an index, and the key that these mean: of each column its place, + where it rises and -
/// where it falls, the first letter of its collation, and its default.
const KEYS: [(&str, &str, &str); 41] = [
    ("CREATE TABLE t(a, b)", "CREATE INDEX i ON t(a)", "0+B"),
    (
        "CREATE TABLE t(a, b)",
        "CREATE INDEX i ON t(b, a)",
        "1+B 0+B",
    ),
    (
        "CREATE TABLE t(a, b)",
        "CREATE UNIQUE INDEX i ON t(b)",
        "1+B unique",
    ),
    (
        "CREATE TABLE t(a, b)",
        "CREATE INDEX i ON t(a DESC, b)",
        "0-B 1+B",
    ),
    (
        "CREATE TABLE t(a, b)",
        "CREATE INDEX i ON t(a ASC, b DESC)",
        "0+B 1-B",
    ),
    (
        "CREATE TABLE t(a TEXT COLLATE NOCASE)",
        "CREATE INDEX i ON t(a)",
        "0+N",
    ),
    (
        "CREATE TABLE t(a TEXT COLLATE NOCASE)",
        "CREATE INDEX i ON t(a COLLATE rtrim DESC)",
        "0-R",
    ),
    (
        "CREATE TABLE t(a TEXT COLLATE NOCASE)",
        "CREATE INDEX i ON t(a COLLATE BINARY)",
        "0+B",
    ),
    (
        "CREATE TABLE t(a COLLATE NOCASE COLLATE RTRIM)",
        "CREATE INDEX i ON t(a)",
        "0+R",
    ),
    (
        "CREATE TABLE t(a COLLATE NOCASE, b, c COLLATE RTRIM)",
        "CREATE INDEX i ON t(c, b, a)",
        "2+R 1+B 0+N",
    ),
    (
        "CREATE TABLE t(id INTEGER PRIMARY KEY, v)",
        "CREATE INDEX i ON t(id)",
        "rowid+B",
    ),
    (
        "CREATE TABLE t(id INTEGER PRIMARY KEY, v)",
        "CREATE INDEX i ON t(v, id DESC)",
        "1+B rowid-B",
    ),
    (
        "CREATE TABLE t(v, id INTEGER, PRIMARY KEY(id DESC))",
        "CREATE INDEX i ON t(id, v)",
        "rowid+B 0+B",
    ),
    (
        "CREATE TABLE t(id INTEGER PRIMARY KEY AUTOINCREMENT)",
        "CREATE INDEX i ON t(ID)",
        "rowid+B",
    ),
    (
        "CREATE TABLE t(id INTEGER PRIMARY KEY DESC)",
        "CREATE INDEX i ON t(id)",
        "0+B",
    ),
    (
        "CREATE TABLE t(id INT PRIMARY KEY)",
        "CREATE INDEX i ON t(id)",
        "0+B",
    ),
    (
        "CREATE TABLE t(id INTEGER, v, PRIMARY KEY(id, v))",
        "CREATE INDEX i ON t(id)",
        "0+B",
    ),
    (
        "CREATE TABLE \"a b\"(\"x y\", [z w], `q`)",
        "CREATE INDEX \"i\" ON \"a b\"(\"x y\", [z w] DESC, `q`)",
        "0+B 1-B 2+B",
    ),
    (
        "CREATE TABLE t(\"x\"\"y\", z)",
        "CREATE INDEX i ON t(\"x\"\"y\")",
        "0+B",
    ),
    (
        "CREATE TABLE Tt(Aa, bB)",
        "CREATE INDEX i ON tT(BB, aA)",
        "1+B 0+B",
    ),
    (
        "CREATE TABLE t(a /* one, */, b -- two,\n)",
        "CREATE INDEX i ON t(b /* DESC */)",
        "1+B",
    ),
    (
        "CREATE TABLE t(\"order\", desc)",
        "CREATE INDEX i ON t(desc DESC, \"order\")",
        "1-B 0+B",
    ),
    (
        "CREATE TABLE t(a, b INTEGER DEFAULT 5)",
        "CREATE INDEX i ON t(b)",
        "1+B=5",
    ),
    (
        "CREATE TABLE t(a, b INT DEFAULT -7, c DEFAULT (8), d DEFAULT +9)",
        "CREATE INDEX i ON t(b, c, d)",
        "1+B=-7 2+B=8 3+B=9",
    ),
    (
        "CREATE TABLE t(a, b NUMERIC DEFAULT 999999999999999999)",
        "CREATE INDEX i ON t(b)",
        "1+B=999999999999999999",
    ),
    (
        "CREATE TABLE t(a, b TEXT DEFAULT 'it''s', c VARCHAR(9) DEFAULT '', d DEFAULT '12')",
        "CREATE INDEX i ON t(b, c, d)",
        "1+B='it's' 2+B='' 3+B='12'",
    ),
    (
        "CREATE TABLE t(a, b DEFAULT NULL, c INT DEFAULT (NULL))",
        "CREATE INDEX i ON t(b, c)",
        "1+B 2+B",
    ),
    (
        "CREATE TABLE t(a, b BOOLEAN DEFAULT TRUE, c BOOL DEFAULT false)",
        "CREATE INDEX i ON t(b, c)",
        "1+B=1 2+B=0",
    ),
    (
        "CREATE TABLE t(a, b DATETIME DEFAULT CURRENT_TIMESTAMP)",
        "CREATE INDEX i ON t(b)",
        "1+B",
    ),
    (
        "CREATE TABLE t(a, b DEFAULT 1 DEFAULT 'two')",
        "CREATE INDEX i ON t(b)",
        "1+B='two'",
    ),
    (
        "CREATE TABLE t(a, b REAL DEFAULT 1.5, c DEFAULT (1 + 1))",
        "CREATE INDEX i ON t(a)",
        "0+B",
    ),
    (
        "CREATE TABLE t(a, b TEXT DEFAULT 1, c TEXT DEFAULT 1.50)",
        "CREATE INDEX i ON t(b, c)",
        "1+B='1' 2+B='1.50'",
    ),
    (
        "CREATE TABLE t(a, b REAL DEFAULT 1, c DEFAULT -2.5, d DEFAULT 2.0)",
        "CREATE INDEX i ON t(b, c, d)",
        "1+B=real 1 2+B=real -2.5 3+B=2",
    ),
    (
        "CREATE TABLE t(a, b INT DEFAULT x'0a1f', c DEFAULT 1000000000000000000)",
        "CREATE INDEX i ON t(b, c)",
        "1+B=blob 2 2+B=1000000000000000000",
    ),
    (
        "CREATE TABLE t(a ANY, b INT) STRICT",
        "CREATE INDEX i ON t(a, b)",
        "0+B 1+B",
    ),
    (
        "CREATE TABLE t(a NOT NULL UNIQUE CHECK (a > 0) REFERENCES o(x), b, UNIQUE(a, b))",
        "CREATE INDEX IF NOT EXISTS i ON t(a)",
        "0+B",
    ),
    ("CREATE TABLE t(a, b)", "CREATE INDEX i ON t((b))", "1+B"),
    ("CREATE TABLE t(a, b)", "CREATE INDEX i ON t('b')", "1+B"),
    (
        "CREATE TABLE t(a TEXT GENERATED ALWAYS PRIMARY KEY)",
        "CREATE INDEX i ON t(a)",
        "0+B",
    ),
    (
        "CREATE TABLE t(a, b AS (a + 1), c, d DEFAULT (random()))",
        "CREATE INDEX i ON t(c, d); more",
        "1+B 2+B",
    ),
    (
        "CREATE TABLE t(a UNIQUE CHECK (a > 0) CHECK (a < 9) /* , b */, CONSTRAINT n UNIQUE(a) CHECK (1)) -- )",
        "CREATE INDEX i ON t(a)",
        "0+B",
    ),
];

/// Those that aren't understood.
const OTHERS: [(&str, &str); 17] = [
    ("CREATE TABLE t(a, b)", "CREATE INDEX i ON t(a) WHERE b > 0"),
    ("CREATE TABLE t(a, b)", "CREATE INDEX i ON t(a + 1)"),
    ("CREATE TABLE t(a, b)", "CREATE INDEX i ON t(lower(a))"),
    (
        "CREATE TABLE t(a COLLATE NOCASE)",
        "CREATE INDEX i ON t(a COLLATE other)",
    ),
    (
        "CREATE TABLE t(a COLLATE other, b)",
        "CREATE INDEX i ON t(b)",
    ),
    (
        "CREATE TABLE t(a, UNIQUE(a COLLATE other))",
        "CREATE INDEX i ON t(a)",
    ),
    ("CREATE TABLE t(a, b AS (a + 1))", "CREATE INDEX i ON t(b)"),
    (
        "CREATE TABLE t(a PRIMARY KEY) WITHOUT ROWID",
        "CREATE INDEX i ON t(a)",
    ),
    ("CREATE TABLE t(a)", "CREATE INDEX i ON u(a)"),
    ("CREATE TABLE t(a)", "CREATE INDEX i ON t(b)"),
    ("CREATE TABLE t(a)", "CREATE INDEX i ON t(rowid)"),
    ("CREATE VIEW t AS SELECT 1 AS a", "CREATE INDEX i ON t(a)"),
    ("CREATE TABLE t(a)", "CREATE TABLE i(a)"),
    ("CREATE TABLE t(a)", ""),
    (
        "CREATE TABLE t(a, b INTEGER DEFAULT '1')",
        "CREATE INDEX i ON t(b)",
    ),
    (
        "CREATE TABLE t(a, b DEFAULT (1 + 1))",
        "CREATE INDEX i ON t(b)",
    ),
    (
        "CREATE TABLE t(a, b DEFAULT 0x10)",
        "CREATE INDEX i ON t(b)",
    ),
];

/// The indexes of constraints, by number.
const AUTOMATIC: [(&str, u32, &str); 29] = [
    (
        "CREATE TABLE t(a PRIMARY KEY, b UNIQUE, c, UNIQUE(c, b DESC))",
        1,
        "0+B unique",
    ),
    (
        "CREATE TABLE t(a PRIMARY KEY, b UNIQUE, c, UNIQUE(c, b DESC))",
        2,
        "1+B unique",
    ),
    (
        "CREATE TABLE t(a PRIMARY KEY, b UNIQUE, c, UNIQUE(c, b DESC))",
        3,
        "2+B 1-B unique",
    ),
    (
        "CREATE TABLE t(a PRIMARY KEY, b UNIQUE, c, UNIQUE(c, b DESC))",
        4,
        "none",
    ),
    (
        "CREATE TABLE t(id INTEGER PRIMARY KEY, b UNIQUE)",
        1,
        "1+B unique",
    ),
    (
        "CREATE TABLE t(id INTEGER PRIMARY KEY, b UNIQUE)",
        2,
        "none",
    ),
    (
        "CREATE TABLE t(id INTEGER UNIQUE PRIMARY KEY, b UNIQUE UNIQUE, UNIQUE(b COLLATE NOCASE), UNIQUE(b, id))",
        1,
        "rowid+B unique",
    ),
    (
        "CREATE TABLE t(id INTEGER UNIQUE PRIMARY KEY, b UNIQUE UNIQUE, UNIQUE(b COLLATE NOCASE), UNIQUE(b, id))",
        2,
        "1+B unique",
    ),
    (
        "CREATE TABLE t(id INTEGER UNIQUE PRIMARY KEY, b UNIQUE UNIQUE, UNIQUE(b COLLATE NOCASE), UNIQUE(b, id))",
        3,
        "1+N unique",
    ),
    (
        "CREATE TABLE t(id INTEGER UNIQUE PRIMARY KEY, b UNIQUE UNIQUE, UNIQUE(b COLLATE NOCASE), UNIQUE(b, id))",
        4,
        "1+B rowid+B unique",
    ),
    (
        "CREATE TABLE t(id INTEGER UNIQUE PRIMARY KEY, b UNIQUE UNIQUE, UNIQUE(b COLLATE NOCASE), UNIQUE(b, id))",
        5,
        "none",
    ),
    (
        "CREATE TABLE t(a TEXT UNIQUE COLLATE NOCASE, b, PRIMARY KEY(a), UNIQUE(a COLLATE BINARY))",
        1,
        "0+N unique",
    ),
    (
        "CREATE TABLE t(a TEXT UNIQUE COLLATE NOCASE, b, PRIMARY KEY(a), UNIQUE(a COLLATE BINARY))",
        2,
        "0+B unique",
    ),
    (
        "CREATE TABLE t(a TEXT UNIQUE COLLATE NOCASE, b, PRIMARY KEY(a), UNIQUE(a COLLATE BINARY))",
        3,
        "none",
    ),
    (
        "CREATE TABLE t(a INTEGER PRIMARY KEY DESC, b, UNIQUE(b, a))",
        1,
        "0-B unique",
    ),
    (
        "CREATE TABLE t(a INTEGER PRIMARY KEY DESC, b, UNIQUE(b, a))",
        2,
        "1+B 0+B unique",
    ),
    (
        "CREATE TABLE t(a INTEGER PRIMARY KEY DESC, b, UNIQUE(b, a))",
        3,
        "none",
    ),
    (
        "CREATE TABLE t(a, b INTEGER, UNIQUE(A), PRIMARY KEY(b), UNIQUE(a DESC), UNIQUE(\"a\", b))",
        1,
        "0+B unique",
    ),
    (
        "CREATE TABLE t(a, b INTEGER, UNIQUE(A), PRIMARY KEY(b), UNIQUE(a DESC), UNIQUE(\"a\", b))",
        2,
        "0+B rowid+B unique",
    ),
    (
        "CREATE TABLE t(a, b INTEGER, UNIQUE(A), PRIMARY KEY(b), UNIQUE(a DESC), UNIQUE(\"a\", b))",
        3,
        "none",
    ),
    (
        "CREATE TABLE t(a, b, PRIMARY KEY(a, b), UNIQUE(b, a))",
        1,
        "0+B 1+B unique",
    ),
    (
        "CREATE TABLE t(a, b, PRIMARY KEY(a, b), UNIQUE(b, a))",
        2,
        "1+B 0+B unique",
    ),
    (
        "CREATE TABLE t(a, b, PRIMARY KEY(a, b), UNIQUE(b, a))",
        3,
        "none",
    ),
    (
        "CREATE TABLE t(a, b INTEGER, PRIMARY KEY(b AUTOINCREMENT), UNIQUE(a))",
        1,
        "0+B unique",
    ),
    (
        "CREATE TABLE t(a, b INTEGER, PRIMARY KEY(b AUTOINCREMENT), UNIQUE(a))",
        2,
        "none",
    ),
    (
        "CREATE TABLE t(a UNIQUE, b DEFAULT (1 + 1) UNIQUE)",
        1,
        "0+B unique",
    ),
    (
        "CREATE TABLE t(a UNIQUE, b DEFAULT (1 + 1) UNIQUE)",
        2,
        "none",
    ),
    (
        "CREATE TABLE t(a PRIMARY KEY, b UNIQUE) WITHOUT ROWID",
        1,
        "none",
    ),
    ("CREATE TABLE t(a UNIQUE)", 0, "none"),
];

/// How a column is sorted.
fn sort_text(order: Order) -> &'static str {
    let key = order.first();
    match (key.collation, key.descending) {
        (Collation::Binary, false) => "+B",
        (Collation::Binary, true) => "-B",
        (Collation::NoCase, false) => "+N",
        (Collation::NoCase, true) => "-N",
        (Collation::RTrim, false) => "+R",
        (Collation::RTrim, true) => "-R",
    }
}

/// A column of a key, and how it is sorted.
fn column_text(alloc: Global, column: &KeyColumn, sort: &str) -> Result<String, AllocError> {
    match column {
        KeyColumn::Rowid => format!(in alloc; "rowid{sort}"),
        KeyColumn::Stored { at, default } => match default {
            Value::Null => format!(in alloc; "{at}{sort}"),
            Value::Int(number) => format!(in alloc; "{at}{sort}={number}"),
            Value::Text(bytes) => match std::str::from_utf8(bytes.as_slice()) {
                Ok(text) => format!(in alloc; "{at}{sort}='{text}'"),
                Err(_) => format!(in alloc; "{at}{sort}=?"),
            },
            Value::Real(number) => format!(in alloc; "{at}{sort}=real {number}"),
            Value::Blob(bytes) => format!(in alloc; "{at}{sort}=blob {}", bytes.as_slice().len()),
        },
    }
}

/// A key as the lists above write it.
fn key_text(alloc: Global, found: Option<IndexKey>) -> Result<String, AllocError> {
    let mut text = String::new(alloc);
    let Some(key) = found else {
        text.push_str("none")?;
        return Ok(text);
    };
    let mut order = key.order;
    for column in key.columns.as_slice() {
        if !text.is_empty() {
            text.push_str(" ")?;
        }
        text.push_str(column_text(alloc, column, sort_text(order))?.as_str())?;
        order = order.later();
    }
    if key.unique {
        text.push_str(" unique")?;
    }
    Ok(text)
}

/// The key that is found.
fn shown(alloc: Global, table: &str, index: &str, format: u32) -> Result<String, AllocError> {
    key_text(
        alloc,
        key_of(alloc, table.as_bytes(), index.as_bytes(), format)?,
    )
}

#[test]
fn keys_of_indexes(rt: HostRuntime) -> Result<(), Fail> {
    for (table, index, wanted) in &KEYS {
        let text = shown(rt.alloc(), table, index, 4)?;
        assert!(rt; text.as_str() == *wanted, "{index}");
    }
    Ok(())
}

#[test]
fn texts_that_are_not_understood(rt: HostRuntime) -> Result<(), Fail> {
    for (table, index) in &OTHERS {
        let text = shown(rt.alloc(), table, index, 4)?;
        assert!(rt; text.as_str() == "none", "{index}");
    }
    Ok(())
}

#[test]
fn an_order_that_falls_in_format_4_alone(rt: HostRuntime) -> Result<(), Fail> {
    let table = "CREATE TABLE t(a, b COLLATE NOCASE)";
    let index = "CREATE INDEX i ON t(a DESC, b DESC)";
    assert!(rt; shown(rt.alloc(), table, index, 1)?.as_str() == "0+B 1+N");
    assert!(rt; shown(rt.alloc(), table, index, 4)?.as_str() == "0-B 1-N");
    Ok(())
}

/// A text with columns behind it, and a parenthesis.
fn with_columns(alloc: Global, text: &str, count: u8, sort: &str) -> Result<String, AllocError> {
    let mut made = String::from_str(alloc, text)?;
    for k in 0..count {
        let comma = if k == 0 { "" } else { ", " };
        made.push_str(format!(in alloc; "{comma}c{k}{sort}")?.as_str())?;
    }
    made.push_str(")")?;
    Ok(made)
}

#[test]
fn as_many_columns_as_an_order_holds(rt: HostRuntime) -> Result<(), Fail> {
    let alloc = rt.alloc();
    let table = with_columns(alloc, "CREATE TABLE t(", 40, "")?;
    for (count, sort, known) in [
        (40, "", true),
        (21, " COLLATE RTRIM DESC", true),
        (22, " COLLATE RTRIM DESC", false),
    ] {
        let index = with_columns(alloc, "CREATE INDEX i ON t(", count, sort)?;
        let found = key_of(alloc, table.as_bytes(), index.as_bytes(), 4)?;
        assert!(rt; found.is_some() == known, "{count}{sort}");
    }
    Ok(())
}

#[test]
fn a_text_that_is_too_long(rt: HostRuntime) -> Result<(), Fail> {
    let alloc = rt.alloc();
    let mut table = String::from_str(alloc, "CREATE TABLE t(a)")?;
    for _ in 0..1_048_576 {
        table.push_str(" ")?;
    }
    let text = shown(alloc, table.as_str(), "CREATE INDEX i ON t(a)", 4)?;
    assert!(rt; text.as_str() == "none");
    Ok(())
}

#[test]
fn keys_of_constraints(rt: HostRuntime) -> Result<(), Fail> {
    for (table, number, wanted) in &AUTOMATIC {
        let found = automatic_key_of(rt.alloc(), table.as_bytes(), *number, 4)?;
        let text = key_text(rt.alloc(), found)?;
        assert!(rt; text.as_str() == *wanted, "{table} {number}");
    }
    Ok(())
}

#[test]
fn a_constraint_that_falls_in_format_1(rt: HostRuntime) -> Result<(), Fail> {
    let table = "CREATE TABLE t(a, UNIQUE(a DESC))";
    let found = automatic_key_of(rt.alloc(), table.as_bytes(), 1, 1)?;
    assert!(rt; key_text(rt.alloc(), found)?.as_str() == "0+B unique");
    Ok(())
}
