//! The indexes that sqlite3 3.40.1 creates for tables and CREATE INDEX, by PRAGMA index_list and index_xinfo.
use schema_columns::name_at;
use schema_index::{
    IndexText, KeyColumn, automatic_indexes, collation_name, index_name, index_terms, read_index,
};
use schema_text::{TableText, read_table};
use schema_tokens::text_of;
use std::alloc::{AllocError, Global};
use std::test::Fail;

/// For each table its automatic indexes: a column's number, its collation, DESC.
static AUTOMATIC: [(&[u8], &[u8]); 11] = [
    (b"CREATE TABLE t(a)", b""),
    (
        b"CREATE TABLE t(a UNIQUE, b INT PRIMARY KEY DESC)",
        b"0 BINARY,;1 BINARY DESC,;",
    ),
    (
        b"CREATE TABLE t(a INTEGER PRIMARY KEY, b UNIQUE)",
        b"1 BINARY,;",
    ),
    (
        b"CREATE TABLE t(a UNIQUE COLLATE nocase UNIQUE COLLATE rtrim, b UNIQUE, UNIQUE(a, b))",
        b"0 rtrim,;1 BINARY,;0 rtrim,1 BINARY,;",
    ),
    (
        b"CREATE TABLE t(a, b, UNIQUE(a, b), UNIQUE(b, a), UNIQUE(\"A\" DESC, (b)), UNIQUE(a COLLATE nocase, b))",
        b"0 BINARY,1 BINARY,;1 BINARY,0 BINARY,;0 nocase,1 BINARY,;",
    ),
    (
        b"CREATE TABLE t(a COLLATE nocase, PRIMARY KEY(a), UNIQUE(a COLLATE NOCASE), UNIQUE(a COLLATE binary))",
        b"0 nocase,;0 binary,;",
    ),
    (
        b"CREATE TABLE t(a INTEGER, b, UNIQUE(a), PRIMARY KEY(a))",
        b"0 BINARY,;",
    ),
    (
        b"CREATE TABLE t(a INTEGER PRIMARY KEY, b UNIQUE) WITHOUT ROWID",
        b"1 BINARY,;0 BINARY,;",
    ),
    (
        b"CREATE TABLE t(a INTEGER, b UNIQUE, PRIMARY KEY(a COLLATE nocase DESC), UNIQUE(a)) WITHOUT ROWID",
        b"1 BINARY,;0 BINARY,;",
    ),
    (
        b"CREATE TABLE t(a, b, c, PRIMARY KEY(c DESC, a COLLATE rtrim), UNIQUE(b)) WITHOUT ROWID",
        b"2 BINARY DESC,0 rtrim,;1 BINARY,;",
    ),
    (b"CREATE TABLE t(a UNIQUE PRIMARY KEY)", b"0 BINARY,;"),
];

/// For each index its table, and its terms: a column in small letters, its collation, DESC. Then u of UNIQUE, w of
/// WHERE.
static INDEXES: [(&[u8], &[u8]); 9] = [
    (b"CREATE INDEX i ON t(a)", b"t:a BINARY,"),
    (
        b"create unique index if not exists main.'i' on \"t\"(a DESC, b COLLATE nocase ASC)",
        b"t:a BINARY DESC,b nocase,u",
    ),
    (
        b"CREATE INDEX i ON t((a) COLLATE rtrim COLLATE nocase, ((\"b\")))",
        b"t:a nocase,b BINARY,",
    ),
    (
        b"CREATE INDEX i ON t(a + b DESC, lower(a), b COLLATE nocase = 1) WHERE a IS NOT NULL AND b",
        b"t:(expression) DESC,(expression),(expression),w",
    ),
    (
        b"CREATE INDEX i ON k(desc desc, \"asc\", asc, a COLLATE desc)",
        b"k:desc BINARY DESC,asc BINARY,asc BINARY,a desc,",
    ),
    (
        b"CREATE INDEX i ON t(CASE WHEN a THEN b ELSE (a, b) = (1, 2) END DESC)",
        b"t:(expression) DESC,",
    ),
    (
        b"CREATE INDEX i ON t(a/* , b */,-- )\n b) -- more",
        b"t:a BINARY,b BINARY,",
    ),
    (
        b"CREATE INDEX i ON k(a * desc, - desc desc, desc asc)",
        b"k:(expression),(expression) DESC,desc BINARY,",
    ),
    (
        b"CREATE INDEX i ON t(cast(a AS TEXT), CURRENT, a IN (1, b))",
        b"t:(expression),current BINARY,(expression),",
    ),
];

/// What sqlite3 finds no statement.
static REFUSED: [&[u8]; 8] = [
    b"CREATE INDEX i ON t",
    b"CREATE INDEX i ON t()",
    b"CREATE INDEX i ON t(a) WHERE",
    b"CREATE INDEX i t(a)",
    b"CREATE INDEX ON t(a)",
    b"CREATE INDEX i ON t(a) b",
    b"CREATE TEMP INDEX i ON t(a)",
    b"CREATE INDEX i ON main.t(a)",
];

fn digit(n: usize) -> u8 {
    match n {
        0 => b'0',
        1 => b'1',
        2 => b'2',
        _ => b'-',
    }
}

fn push_column(
    alloc: Global,
    out: &mut Vec<u8>,
    text: &[u8],
    table: &TableText,
    column: &KeyColumn,
) -> Result<(), AllocError> {
    out.push(digit(column.column))?;
    out.push(b' ')?;
    out.extend_from_slice(&collation_name(alloc, text, &table.tokens, column.collate)?)?;
    if column.descends {
        out.extend_from_slice(b" DESC")?;
    }
    out.push(b',')?;
    Ok(())
}

pub(crate) fn automatic_of(
    alloc: Global,
    bytes: &[u8],
    table: &TableText,
) -> Result<Vec<u8>, AllocError> {
    let text = text_of(bytes);
    let mut out = Vec::new(alloc);
    for index in &automatic_indexes(alloc, text, &table.tokens, &table.table.clauses)? {
        for column in index {
            push_column(alloc, &mut out, text, table, column)?;
        }
        out.push(b';')?;
    }
    Ok(out)
}

fn push_terms(
    alloc: Global,
    out: &mut Vec<u8>,
    text: &[u8],
    found: &IndexText,
) -> Result<(), AllocError> {
    for term in &index_terms(alloc, text, &found.tokens, &found.index)? {
        match term.name {
            Some(name) => {
                for byte in &name_at(alloc, text, &found.tokens, name)? {
                    out.push(byte.to_ascii_lowercase())?;
                }
                out.push(b' ')?;
                match term.collation {
                    Some(at) => out.extend_from_slice(&name_at(alloc, text, &found.tokens, at)?)?,
                    None => out.extend_from_slice(b"BINARY")?,
                }
            }
            None => out.extend_from_slice(b"(expression)")?,
        }
        if term.descends {
            out.extend_from_slice(b" DESC")?;
        }
        out.push(b',')?;
    }
    Ok(())
}

pub(crate) fn index_of(
    alloc: Global,
    bytes: &[u8],
    found: &IndexText,
) -> Result<Vec<u8>, AllocError> {
    let text = text_of(bytes);
    let mut out = name_at(alloc, text, &found.tokens, found.index.table)?;
    out.push(b':')?;
    push_terms(alloc, &mut out, text, found)?;
    if found.index.unique {
        out.push(b'u')?;
    }
    if found.index.condition.is_some() {
        out.push(b'w')?;
    }
    Ok(out)
}

#[test]
fn automatic_indexes_are_those_of_sqlite(rt: HostRuntime) -> Result<(), Fail> {
    for (text, indexes) in AUTOMATIC.iter() {
        match read_table(rt.alloc(), text)? {
            Some(table) => {
                let found = automatic_of(rt.alloc(), text, &table)?;
                assert_eq!(rt; found.as_slice(), *indexes);
            }
            None => assert!(rt; false),
        }
    }
    let name = index_name(rt.alloc(), b"t", 12)?;
    assert_eq!(rt; name.as_slice(), b"sqlite_autoindex_t_12".as_slice());
    Ok(())
}

#[test]
fn indexes_are_read_as_sqlite_reads_them(rt: HostRuntime) -> Result<(), Fail> {
    for (text, terms) in INDEXES.iter() {
        match read_index(rt.alloc(), text)? {
            Some(index) => {
                let found = index_of(rt.alloc(), text, &index)?;
                assert_eq!(rt; found.as_slice(), *terms);
            }
            None => assert!(rt; false),
        }
    }
    Ok(())
}

#[test]
fn no_other_texts_are_indexes(rt: HostRuntime) -> Result<(), Fail> {
    for text in REFUSED.iter() {
        let found = read_index(rt.alloc(), text)?;
        assert!(rt; found.is_none());
    }
    Ok(())
}
