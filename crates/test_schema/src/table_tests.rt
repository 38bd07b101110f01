//! Texts of tables, and how sqlite3 3.40.1 reads them: PRAGMA table_xinfo and table_list, the affinities by CREATE
//! TABLE AS SELECT, the collations by an index of the column.
use schema_columns::{
    Affinity, Column, affinity_in, columns_of, is_stored, is_strict, is_without_rowid, name_at,
    rowid_of, type_of, written_default, written_type,
};
use schema_text::{TableText, read_table};
use schema_tokens::text_of;
use std::alloc::{AllocError, Global};
use std::test::Fail;

/// For each text its columns: a name, a type and the first letter of its affinity. Then ! after NOT NULL (a key's
/// aside), = and a default, ~ and a collation, * if it is virtual, + if it is stored. At the end are @ and the column
/// that is the rowid, w of WITHOUT ROWID, s of STRICT.
static TABLES: [(&[u8], &[u8]); 33] = [
    (b"CREATE TABLE t(a)", b"a::B;"),
    (b"create table if not exists main.t(a,b)", b"a::B;b::B;"),
    (
        b"CREATE TEMP TABLE \"t\"(a INT, 'b' VARCHAR(10), [c] DOUBLE PRECISION, `d` blob)",
        b"a:INT:I;b:VARCHAR(10):T;c:DOUBLE PRECISION:R;d:BLOB:B;",
    ),
    (
        b"CREATE TABLE t(a FLOATING POINT, b \"my type\", c CHARINT, d STRING, e BLOBTEXT)",
        b"a:FLOATING POINT:I;b:my type:N;c:CHARINT:I;d:STRING:N;e:BLOBTEXT:T;",
    ),
    (
        b"CREATE TABLE t(a DECIMAL(10, -5), b NUMERIC(+3), c \"\", d any, e REAL)",
        b"a:DECIMAL(10, -5):N;b:NUMERIC(+3):N;c::N;d:ANY:N;e:REAL:R;",
    ),
    (
        b"CREATE TABLE t(a 'INTEGER' PRIMARY KEY, b int PRIMARYKEY)",
        b"a:INTEGER:I;b:int PRIMARYKEY:I;@0",
    ),
    (b"CREATE TABLE t(a INTEGER PRIMARY KEY)", b"a:INTEGER:I;@0"),
    (
        b"CREATE TABLE t(a INTEGER PRIMARY KEY DESC)",
        b"a:INTEGER:I;",
    ),
    (
        b"CREATE TABLE t(a INTEGER PRIMARY KEY ASC ON CONFLICT FAIL AUTOINCREMENT)",
        b"a:INTEGER:I;@0",
    ),
    (b"CREATE TABLE t(a INT PRIMARY KEY)", b"a:INT:I;"),
    (
        b"CREATE TABLE t(a, b INTEGER, PRIMARY KEY((\"B\" COLLATE nocase) DESC))",
        b"a::B;b:INTEGER:I;@1",
    ),
    (
        b"CREATE TABLE t(a INTEGER, b INTEGER, PRIMARY KEY(a, b))",
        b"a:INTEGER:I;b:INTEGER:I;",
    ),
    (
        b"CREATE TABLE t(a INTEGER PRIMARY KEY, b) WITHOUT ROWID",
        b"a:INTEGER:I;b::B;w",
    ),
    (
        b"CREATE TABLE t(a ANY, b TEXT, PRIMARY KEY(b)) STRICT, WITHOUT ROWID",
        b"a:ANY:B;b:TEXT:T;ws",
    ),
    (
        b"CREATE TABLE t(a int, b BLOB) strict",
        b"a:INT:I;b:BLOB:B;s",
    ),
    (
        b"CREATE TABLE t(a NOT NULL NULL, b NULL ON CONFLICT ABORT, c CONSTRAINT x NOT NULL ON CONFLICT FAIL)",
        b"a::B!;b::B;c::B!;",
    ),
    (
        b"CREATE TABLE t(a DEFAULT 1, b DEFAULT -1.5e3, c DEFAULT 'it''s', d DEFAULT x'00ff', e DEFAULT NULL)",
        b"a::B=1;b::B=-1.5e3;c::B='it''s';d::B=x'00ff';e::B=NULL;",
    ),
    (
        b"CREATE TABLE t(a DEFAULT ( 1 + 2 ), b DEFAULT current_time, c DEFAULT w, d DEFAULT \"w\", e DEFAULT + 1)",
        b"a::B=1 + 2;b::B=current_time;c::B=w;d::B=\"w\";e::B=+ 1;",
    ),
    (
        b"CREATE TABLE t(a DEFAULT 1 DEFAULT 2, b DEFAULT 3 NOT NULL DEFAULT (/* */ 4 /* */))",
        b"a::B=2;b::B!=/* */ 4 /* */;",
    ),
    (
        b"CREATE TABLE t(a TEXT COLLATE nocase COLLATE RTRIM, b COLLATE \"binary\")",
        b"a:TEXT:T~RTRIM;b::B~binary;",
    ),
    (
        b"CREATE TABLE t(a, b INT AS (a), c GENERATED ALWAYS AS (a) STORED, d TEXT GENERATED ALWAYS AS (1) VIRTUAL)",
        b"a::B;b:INT:I*;c::B+;d:TEXT:T*;",
    ),
    (
        b"CREATE TABLE t(a, b very_long_type_always AS (a), c GENERATED ALWAYS AS (a))",
        b"a::B;b:very_long_type_:N*;c::B*;",
    ),
    (
        b"CREATE TABLE t(a CHECK (a > 0), b CHECK (b IN (1, 2)) UNIQUE ON CONFLICT ROLLBACK)",
        b"a::B;b::B;",
    ),
    (
        b"CREATE TABLE t(a REFERENCES x(y) ON DELETE SET NULL ON UPDATE CASCADE MATCH FULL NOT DEFERRABLE)",
        b"a::B;",
    ),
    (
        b"CREATE TABLE t(a REFERENCES x ON DELETE SET DEFAULT DEFERRABLE INITIALLY DEFERRED)",
        b"a::B;",
    ),
    (
        b"CREATE TABLE t(a REFERENCES x ON INSERT NO ACTION DEFERRABLE, b)",
        b"a::B;b::B;",
    ),
    (
        b"CREATE TABLE t(a, b, CONSTRAINT n UNIQUE (a, b COLLATE nocase) ON CONFLICT FAIL CHECK (a) PRIMARY KEY (b))",
        b"a::B;b::B;",
    ),
    (
        b"CREATE TABLE t(a, FOREIGN KEY(a) REFERENCES x DEFERRABLE INITIALLY IMMEDIATE, CHECK (1) ON CONFLICT ABORT)",
        b"a::B;",
    ),
    (
        b"CREATE TABLE t(a, -- , b\n c /* ) */, \"d\"\"e\" int\n)  ; no more",
        b"a::B;c::B;d\"e:INT:I;",
    ),
    (
        b"CREATE TABLE t(abort, key, left, 'x y', indexed, replace text)",
        b"abort::B;key::B;left::B;x y::B;indexed::B;replace:TEXT:T;",
    ),
    (
        b"CREATE TABLE t(a\xc3\xa9\xe4\xb8\xad INT, \"\" TEXT)",
        b"a\xc3\xa9\xe4\xb8\xad:INT:I;:TEXT:T;",
    ),
    (
        b"CREATE TABLE 't t'(a integer, primary key('a'))",
        b"a:INTEGER:I;@0",
    ),
    (
        b"CREATE TABLE t(a GENERATED, b ALWAYS, c INT GENERATED ALWAYS)",
        b"a:GENERATED:N;b:ALWAYS:N;c:INT:I;",
    ),
];

/// sqlite3 refuses all but the last of these, which isn't a table.
static REFUSED: [&[u8]; 14] = [
    b"CREATE TABLE t()",
    b"CREATE TABLE t(a,)",
    b"CREATE TABLE t(a",
    b"CREATE TABLE t(a) WITHOUT ROWID,",
    b"CREATE TABLE t(a b(1,2,3))",
    b"CREATE TABLE t(a, CHECK (1), b)",
    b"CREATE TABLE t(a DEFAULT (1)",
    b"CREATE TABLE t(a COLLATE 1)",
    b"CREATE TABLE t(a) x",
    b"CREATE TABLE if(a)",
    b"CREATE TABLE t(a NOT)",
    b"CREATE TABLE t(a, UNIQUE ())",
    b"CREATE TABLE t(a 12c)",
    b"CREATE VIEW v AS SELECT 1",
];

fn letter(affinity: Affinity) -> u8 {
    match affinity {
        Affinity::Integer => b'I',
        Affinity::Text => b'T',
        Affinity::Blob => b'B',
        Affinity::Real => b'R',
        Affinity::Numeric => b'N',
    }
}

/// What follows a column's affinity.
fn push_rest(
    alloc: Global,
    out: &mut Vec<u8>,
    text: &[u8],
    table: &TableText,
    column: &Column,
) -> Result<(), AllocError> {
    if column.not_null {
        out.push(b'!')?;
    }
    if let Some(clause) = column.default {
        out.push(b'=')?;
        out.extend_from_slice(written_default(text, &table.tokens, &clause))?;
    }
    if let Some(clause) = column.collate {
        out.push(b'~')?;
        out.extend_from_slice(&name_at(
            alloc,
            text,
            &table.tokens,
            clause.from.saturating_add(1),
        )?)?;
    }
    if let Some(clause) = column.generated {
        let stored = is_stored(text, &table.tokens, &clause);
        out.push(if stored { b'+' } else { b'*' })?;
    }
    out.push(b';')?;
    Ok(())
}

fn push_column(
    alloc: Global,
    out: &mut Vec<u8>,
    text: &[u8],
    table: &TableText,
    column: &Column,
) -> Result<(), AllocError> {
    out.extend_from_slice(&name_at(alloc, text, &table.tokens, column.name)?)?;
    let found = type_of(alloc, written_type(text, &table.tokens, column))?;
    out.push(b':')?;
    out.extend_from_slice(&found.name)?;
    out.push(b':')?;
    out.push(letter(affinity_in(is_strict(&table.table.clauses), &found)))?;
    push_rest(alloc, out, text, table, column)
}

pub(crate) fn described(
    alloc: Global,
    bytes: &[u8],
    table: &TableText,
) -> Result<Vec<u8>, AllocError> {
    let clauses = &table.table.clauses;
    let text = text_of(bytes);
    let mut out = Vec::new(alloc);
    for column in &columns_of(alloc, clauses)? {
        push_column(alloc, &mut out, text, table, column)?;
    }
    if let Some(n) = rowid_of(alloc, text, &table.tokens, clauses)? {
        out.push(b'@')?;
        out.push(if n == 0 { b'0' } else { b'1' })?;
    }
    if is_without_rowid(clauses) {
        out.push(b'w')?;
    }
    if is_strict(clauses) {
        out.push(b's')?;
    }
    Ok(out)
}

#[test]
fn tables_are_read_as_sqlite_reads_them(rt: HostRuntime) -> Result<(), Fail> {
    for (text, columns) in TABLES.iter() {
        match read_table(rt.alloc(), text)? {
            Some(table) => {
                let found = described(rt.alloc(), text, &table)?;
                assert_eq!(rt; found.as_slice(), *columns);
            }
            None => assert!(rt; false),
        }
    }
    Ok(())
}

#[test]
fn no_other_texts_are_tables(rt: HostRuntime) -> Result<(), Fail> {
    for text in REFUSED.iter() {
        let found = read_table(rt.alloc(), text)?;
        assert!(rt; found.is_none());
    }
    Ok(())
}
