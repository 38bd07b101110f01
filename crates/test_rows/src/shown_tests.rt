//! Worked tables as they are printed: the expected lines were written by hand.
use cli_row_text::{Form, Notation, write_heading, write_insert};
use cli_show_rows::{print_headed, print_table};
use sqdeep::Encoding;
use sqpage::SliceSource;
use sqtables::{objects, table_named};
use sqval::PageSize;
use std::alloc::{AllocError, Global};
use std::process::Abort;
use std::test::Fail;

/// A schema of the table t, and its leaf with the row 5, which stores 7.
static PIECES: [(usize, &[u8]); 4] = [
    (100, &[0x0d, 0, 0, 0, 1, 1, 0xdf, 0, 1, 0xdf]),
    (
        479,
        b"\x1f\x01\x06\x17\x0f\x0f\x01\x2ftablett\x02CREATE TABLE t(a)",
    ),
    (512, &[0x0d, 0, 0, 0, 1, 1, 0xfb, 0, 1, 0xfb]),
    (1019, &[3, 5, 2, 1, 7]),
];

/// A file of two pages of 512 bytes with these pieces.
fn file_of(alloc: Global) -> Result<Vec<u8>, AllocError> {
    let mut file = vec![in alloc; 0; 1024]?;
    for (at, bytes) in PIECES {
        for (i, byte) in bytes.iter().enumerate() {
            if let Some(place) = file.get_mut(at.saturating_add(i)) {
                *place = *byte;
            }
        }
    }
    Ok(file)
}

#[test]
fn objects_of_a_schema(rt: HostRuntime) -> Result<(), Fail> {
    let file = file_of(rt.alloc())?;
    let size = PageSize::new(512).expect(&rt, "a page size");
    let Some(mut source) = SliceSource::new(&file, size) else {
        assert!(rt; false);
        return Ok(());
    };
    let Ok(found) = objects(rt.alloc(), &mut source) else {
        assert!(rt; false);
        return Ok(());
    };
    assert!(rt; found.len() == 1);
    assert!(rt; table_named(&found, b"T").is_some_and(|table| table.root == 2));
    assert!(rt; table_named(&found, b"u").is_none());
    Ok(())
}

/// How rows are written in a notation, whose texts are in UTF-8.
fn form_of(notation: Notation) -> Form {
    Form {
        notation,
        encoding: Encoding::Utf8,
    }
}

/// What the table t is printed as.
fn printed(alloc: Global, notation: Notation, source: &mut SliceSource<'_>) -> Option<Vec<u8>> {
    let found = objects(alloc, source).ok()?;
    let table = table_named(&found, b"t")?;
    let mut out = Vec::new(alloc);
    match print_table(alloc, source, table, form_of(notation), &mut out) {
        Ok(()) => Some(out),
        Err(_) => None,
    }
}

/// The same behind the heading.
fn headed(alloc: Global, source: &mut SliceSource<'_>) -> Option<Vec<u8>> {
    let found = objects(alloc, source).ok()?;
    let table = table_named(&found, b"t")?;
    let mut out = Vec::new(alloc);
    match print_headed(alloc, source, table, form_of(Notation::Json), &mut out) {
        Ok(()) => Some(out),
        Err(_) => None,
    }
}

#[test]
fn rows_of_a_table(rt: HostRuntime) -> Result<(), Fail> {
    let file = file_of(rt.alloc())?;
    let size = PageSize::new(512).expect(&rt, "a page size");
    let Some(mut source) = SliceSource::new(&file, size) else {
        assert!(rt; false);
        return Ok(());
    };
    let json = printed(rt.alloc(), Notation::Json, &mut source).ok_or("no rows")?;
    assert!(rt; json.as_slice() == b"{\"a\":7}\n".as_slice());
    let sql = printed(rt.alloc(), Notation::Sql, &mut source).ok_or("no rows")?;
    assert!(rt;
        sql.as_slice() == b"INSERT OR ABORT INTO \"t\"(rowid,\"a\") VALUES(5,7);\n".as_slice()
    );
    let all = headed(rt.alloc(), &mut source).ok_or("no rows")?;
    assert!(rt; all.as_slice() == b"{\"table\":\"t\",\"columns\":[\"a\"]}\n{\"a\":7}\n".as_slice());
    Ok(())
}

#[test]
fn names_in_quotes(rt: HostRuntime) -> Result<(), Fail> {
    let mut names = Vec::new(rt.alloc());
    names.push(Vec::from_slice(rt.alloc(), b"a\"b")?)?;
    let mut out = Vec::new(rt.alloc());
    write_heading(&mut out, Notation::Csv, b"t", &names)?;
    write_insert(&mut out, b"t", None, &names)?;
    assert!(rt; out.as_slice() == b"\"a\"\"b\"\nINSERT OR ABORT INTO \"t\" VALUES(".as_slice());
    Ok(())
}
