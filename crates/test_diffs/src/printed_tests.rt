//! Changes as they are printed: the expected lines were written by hand.
use crate::files::{file_of, source_of};
use cli_change_text::{
    Style, Writing, write_changed, write_object_head, write_one_side, write_removal_head,
    write_removal_start, write_title,
};
use cli_show_diff::{ChangeForm, Selected, print_changes};
use sqdeep::Encoding;
use sqrows::Row;
use sqtables::{Columns, columns_of};
use sqval::Record;
use std::alloc::Global;
use std::io;
use std::test::Fail;

/// What stands before changes of a table, and what they begin with.
fn heads_of(alloc: Global, columns: &Columns) -> io::Result<Vec<u8>> {
    let mut out = Vec::new(alloc);
    write_title(&mut out, b"t")?;
    write_object_head(&mut out, Some(3), b"t")?;
    write_removal_start(&mut out, b"t")?;
    write_removal_head(&mut out, b"t", columns, Some("rowid"))?;
    Ok(out)
}

const HEADS: &[u8] =
    b"table \"t\"\n{\"frame\":3,\"table\":\"t\",\"change\":\"DELETE FROM \"t\" WHERE \
    DELETE FROM \"t\" WHERE rowid=";

/// The row 5 that stores this.
fn row_of(payload: &[u8]) -> Option<Row<'_>> {
    Some(Row {
        rowid: Some(5),
        values: Record::new(payload).ok()?,
    })
}

/// A row that came, and one that changed.
fn lines_of(alloc: Global, columns: &Columns) -> Option<Vec<u8>> {
    let style = Style {
        writing: Writing::Line,
        encoding: Encoding::Utf8,
        columns,
        before: b"",
        head: b"",
        leads: false,
        key: None,
    };
    let (seven, eight) = (row_of(b"\x02\x01\x07")?, row_of(b"\x02\x01\x08")?);
    let mut out = Vec::new(alloc);
    let one = write_one_side(alloc, &seven, true, style, &mut out).is_ok();
    let changed = write_changed(alloc, &seven, &eight, style, &mut out).is_ok();
    if one && changed { Some(out) } else { None }
}

#[test]
fn texts_of_changes(rt: HostRuntime) -> Result<(), Fail> {
    let Ok(columns) = columns_of(rt.alloc(), b"CREATE TABLE t(a)") else {
        assert!(rt; false);
        return Ok(());
    };
    let heads = heads_of(rt.alloc(), &columns)?;
    assert!(rt; heads.as_slice() == HEADS);
    let lines = lines_of(rt.alloc(), &columns).ok_or("no lines")?;
    assert!(rt; lines.as_slice() == b"+ 5: 7\n~ 5: \"a\" 7 -> 8\n".as_slice());
    Ok(())
}

/// A schema of the table t, and its leaf with the row 5, which stores 7.
static SEVEN: [(usize, &[u8]); 4] = [
    (100, &[13, 0, 0, 0, 1, 1, 223, 0, 1, 223]),
    (
        479,
        b"\x1f\x01\x06\x17\x0f\x0f\x01\x2ftablett\x02CREATE TABLE t(a)",
    ),
    (512, &[13, 0, 0, 0, 1, 1, 251, 0, 1, 251]),
    (1019, &[3, 5, 2, 1, 7]),
];

/// What is printed between that and a file whose row stores something else.
fn printed_between(alloc: Global, old: &[u8], new: &[u8]) -> Option<Vec<u8>> {
    let (Some(mut old), Some(mut new)) = (source_of(old), source_of(new)) else {
        return None;
    };
    let selected = Selected {
        names: &[],
        needed: true,
    };
    let mut out = Vec::new(alloc);
    match print_changes(
        alloc,
        &mut old,
        &mut new,
        selected,
        ChangeForm::Lines,
        &mut out,
    ) {
        Ok(()) => Some(out),
        Err(_) => None,
    }
}

#[test]
fn changes_between_databases(rt: HostRuntime) -> Result<(), Fail> {
    let seven = file_of(rt.alloc(), &SEVEN)?;
    let mut eight = file_of(rt.alloc(), &SEVEN)?;
    if let Some(stored) = eight.get_mut(1023) {
        *stored = 8;
    }
    let printed = printed_between(rt.alloc(), &seven, &eight).ok_or("not printed")?;
    assert!(rt; printed.as_slice() == b"table \"t\"\n~ 5: \"a\" 7 -> 8\n".as_slice());
    Ok(())
}
