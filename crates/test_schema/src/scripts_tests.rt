//! What a script has of the schema's texts and names: worked by hand from what sqlite3's shell reads.
use cli_schema_text::{
    can_be_named, column_names, is_left_out, judged, write_count, write_fallback, write_printed,
    write_schema_row, write_unnamed,
};
use std::alloc::Global;
use std::test::Fail;

/// Texts of a view, a table or an index x, and what a script has of them; whether that is a comment alone.
static TEXTS: [(&[u8], &[u8], &[u8], bool); 8] = [
    (
        b"view",
        b"CREATE VIEW x AS SELECT a FROM t",
        b"CREATE VIEW x AS SELECT a FROM t;\n",
        false,
    ),
    (
        b"table",
        b"CREATE TABLE x(a)\n  ",
        b"CREATE TABLE x(a)\n  ;\n",
        false,
    ),
    (
        b"view",
        b"create view \"X\" AS SELECT 1 ;  -- c",
        b"create view \"X\" AS SELECT 1 ;\n",
        false,
    ),
    (
        b"index",
        b"CREATE INDEX x ON t(a) -- c",
        b"CREATE INDEX x ON t(a);\n",
        false,
    ),
    (
        b"view",
        b"CREATE VIEW x AS SELECT 8\n/\n.5",
        b"-- printed with other blanks: x'435245415445205649455720782041532053454c45435420380a2f0a2e35'\n\
        CREATE VIEW x AS SELECT 8 /\n.5;\n",
        false,
    ),
    (
        b"view",
        b"CREATE VIEW x AS SELECT 1;2",
        b"-- not printed, a semicolon inside: x'435245415445205649455720782041532053454c45435420313b32'\n",
        true,
    ),
    (
        b"view",
        b"CREATE VIEW x AS SELECT\0",
        b"-- not printed, not one whole statement: x'435245415445205649455720782041532053454c45435400'\n",
        true,
    ),
    (
        b"table",
        b"CREATE VIRTUAL TABLE x USING fts5(a)",
        b"-- not printed, a virtual table with rows of its own: \
        x'435245415445205649525455414c205441424c452078205553494e472066747335286129'\n",
        true,
    ),
];

fn script_of(alloc: Global, kind: &[u8], text: &[u8]) -> Option<(Vec<u8>, bool)> {
    let printed = judged(alloc, kind, b"x", text).ok()?;
    let mut out = Vec::new(alloc);
    match write_printed(&mut out, text, &printed) {
        Ok(()) => Some((out, is_left_out(&printed))),
        Err(_) => None,
    }
}

#[test]
fn texts_in_a_script(rt: HostRuntime) -> Result<(), Fail> {
    for (kind, text, wanted, left) in TEXTS.iter() {
        let (script, is_left) = script_of(rt.alloc(), kind, text).ok_or("no text")?;
        assert_eq!(rt; script.as_slice(), *wanted);
        assert_eq!(rt; is_left, *left);
    }
    Ok(())
}

#[test]
fn a_virtual_table_is_a_row(rt: HostRuntime) -> Result<(), Fail> {
    let mut out = Vec::new(rt.alloc());
    write_schema_row(&mut out, b"x\r", b"CREATE")?;
    let wanted = b"PRAGMA writable_schema=ON;\n\
        INSERT OR ABORT INTO sqlite_schema(type,name,tbl_name,rootpage,sql) VALUES('table',CAST(X'780d' AS TEXT),\
        CAST(X'780d' AS TEXT),0,CAST(X'435245415445' AS TEXT));\nPRAGMA writable_schema=OFF;\n";
    assert_eq!(rt; out.as_slice(), wanted.as_slice());
    Ok(())
}

/// Names of columns.
fn names_of(alloc: Global, names: &[&[u8]]) -> Option<Vec<Vec<u8>>> {
    let mut out = Vec::new(alloc);
    for name in names {
        out.push(Vec::from_slice(alloc, name).ok()?).ok()?;
    }
    Some(out)
}

/// The statement that makes a table of these columns.
fn fallback_of(alloc: Global, names: &[&[u8]]) -> Option<Vec<u8>> {
    let names = names_of(alloc, names)?;
    let names = column_names(alloc, &names).ok()?;
    let mut out = Vec::new(alloc);
    match write_fallback(&mut out, b"x\"y", &names) {
        Ok(()) => Some(out),
        Err(_) => None,
    }
}

#[test]
fn a_table_that_is_made_in_any_case(rt: HostRuntime) -> Result<(), Fail> {
    let own = fallback_of(rt.alloc(), &[b"a", b"b\"c"]).ok_or("no text")?;
    assert_eq!(rt;
        own.as_slice(),
        b"CREATE TABLE IF NOT EXISTS \"x\"\"y\"(\"a\",\"b\"\"c\");\n".as_slice()
    );
    let numbered = b"CREATE TABLE IF NOT EXISTS \"x\"\"y\"(\"c1\",\"c2\");\n".as_slice();
    let zero = fallback_of(rt.alloc(), &[b"a\0", b"b"]).ok_or("no text")?;
    assert_eq!(rt; zero.as_slice(), numbered);
    let twice = fallback_of(rt.alloc(), &[b"a", b"A"]).ok_or("no text")?;
    assert_eq!(rt; twice.as_slice(), numbered);
    let none = fallback_of(rt.alloc(), &[]).ok_or("no text")?;
    assert!(rt; none.is_empty());
    Ok(())
}

#[test]
fn names_that_no_statement_has(rt: HostRuntime) -> Result<(), Fail> {
    assert!(rt; can_be_named(b"a\n\"'") && !can_be_named(b"a\0") && !can_be_named(b"a\r\nb"));
    let mut out = Vec::new(rt.alloc());
    write_unnamed(&mut out, b"a\0")?;
    write_count(&mut out, 0)?;
    write_count(&mut out, 12)?;
    let wanted =
        b"-- not printed, NUL or CR in its name: x'6100'\n-- texts and tables left out: 12\n";
    assert_eq!(rt; out.as_slice(), wanted.as_slice());
    Ok(())
}
