//! Worked lines: the expected ones were written by hand from RFC 8259, RFC 4180 and SQLite's grammar.
use cli_row_text::{Form, Notation, write_line};
use sqdeep::Encoding;
use sqval::Value;
use std::alloc::Global;
use std::test::Fail;

/// The line of values in a database of UTF-8.
fn line_of(alloc: Global, notation: Notation, values: &[Value]) -> Option<Vec<u8>> {
    let form = Form {
        notation,
        encoding: Encoding::Utf8,
    };
    line_in(alloc, form, values)
}

/// The line of values, of which the first one's name is known.
fn line_in(alloc: Global, form: Form, values: &[Value]) -> Option<Vec<u8>> {
    let mut names = Vec::new(alloc);
    names.push(Vec::from_slice(alloc, b"a\"b").ok()?).ok()?;
    let mut out = Vec::new(alloc);
    match write_line(
        &mut out,
        form,
        b"INSERT INTO t VALUES(",
        &names,
        None,
        values,
    ) {
        Ok(()) => Some(out),
        Err(_) => None,
    }
}

/// A value of each kind.
static VALUES: [Value; 6] = [
    Value::Null,
    Value::Int(-9_007_199_254_740_993),
    Value::Real([0x40, 0x09, 0, 0, 0, 0, 0, 0]),
    Value::Text(b"it's \"a\"\n"),
    Value::Text(b"\xff"),
    Value::Blob(b"\x01\xab"),
];

const JSON: &[u8] = b"{\"a\\\"b\":null,\"c2\":{\"integer\":\"-9007199254740993\"},\"c3\":3.125,\
    \"c4\":\"it's \\\"a\\\"\\u000a\",\"c5\":{\"text\":\"ff\"},\"c6\":{\"blob\":\"01ab\"}}\n";

const CSV: &[u8] = b",-9007199254740993,3.125,\"it's \"\"a\"\"\n\",TX'ff',X'01ab'\n";

const SQL: &[u8] = b"INSERT INTO t VALUES(NULL,-9007199254740993,3.125,'it''s \"a\"\n',\
    CAST(X'ff' AS TEXT),X'01ab');\n";

#[test]
fn line_of_json(rt: HostRuntime) -> Result<(), Fail> {
    let line = line_of(rt.alloc(), Notation::Json, &VALUES).ok_or("no line")?;
    assert!(rt; line.as_slice() == JSON);
    Ok(())
}

#[test]
fn line_of_csv(rt: HostRuntime) -> Result<(), Fail> {
    let line = line_of(rt.alloc(), Notation::Csv, &VALUES).ok_or("no line")?;
    assert!(rt; line.as_slice() == CSV);
    Ok(())
}

#[test]
fn line_of_sql(rt: HostRuntime) -> Result<(), Fail> {
    let line = line_of(rt.alloc(), Notation::Sql, &VALUES).ok_or("no line")?;
    assert!(rt; line.as_slice() == SQL);
    Ok(())
}

/// A text with a zero byte stands as it is but in SQL.
static ZERO: [Value; 1] = [Value::Text(b"n\x00")];

#[test]
fn zero_byte(rt: HostRuntime) -> Result<(), Fail> {
    let json = line_of(rt.alloc(), Notation::Json, &ZERO).ok_or("no line")?;
    assert!(rt; json.as_slice() == b"{\"a\\\"b\":\"n\\u0000\"}\n".as_slice());
    let csv = line_of(rt.alloc(), Notation::Csv, &ZERO).ok_or("no line")?;
    assert!(rt; csv.as_slice() == b"\"n\x00\"\n".as_slice());
    let sql = line_of(rt.alloc(), Notation::Sql, &ZERO).ok_or("no line")?;
    assert!(rt; sql.as_slice() == b"INSERT INTO t VALUES(CAST(X'6e00' AS TEXT));\n".as_slice());
    Ok(())
}

/// Texts of UTF-16, the lower byte of a unit first: characters of one unit and of two, U+FEFF before a letter, a unit
/// of a pair that stands alone, a byte behind the last unit, and a zero character.
static LITTLE: [Value; 5] = [
    Value::Text(b"a\x00\xe9\x00\x3d\xd8\x00\xde"),
    Value::Text(b"\xff\xfea\x00"),
    Value::Text(b"\x3d\xd8a\x00"),
    Value::Text(b"a\x00b"),
    Value::Text(b"n\x00\x00\x00"),
];

#[test]
fn texts_of_utf16(rt: HostRuntime) -> Result<(), Fail> {
    let little = Form {
        notation: Notation::Json,
        encoding: Encoding::Utf16Le,
    };
    let json = line_in(rt.alloc(), little, &LITTLE).ok_or("no line")?;
    let wanted = b"{\"a\\\"b\":\"a\xc3\xa9\xf0\x9f\x98\x80\",\"c2\":\"\xef\xbb\xbfa\",\
        \"c3\":{\"text\":\"3dd86100\"},\"c4\":{\"text\":\"610062\"},\"c5\":\"n\\u0000\"}\n";
    assert!(rt; json.as_slice() == wanted.as_slice());
    let script = Form {
        notation: Notation::Sql,
        ..little
    };
    let sql = line_in(rt.alloc(), script, &LITTLE).ok_or("no line")?;
    let wanted =
        b"INSERT INTO t VALUES('a\xc3\xa9\xf0\x9f\x98\x80','\xef\xbb\xbfa',CAST(X'3dd86100' AS TEXT),\
        CAST(X'610062' AS TEXT),CAST(X'6e000000' AS TEXT));\n";
    assert!(rt; sql.as_slice() == wanted.as_slice());
    let big = Form {
        notation: Notation::Csv,
        encoding: Encoding::Utf16Be,
    };
    let csv = line_in(rt.alloc(), big, &[Value::Text(b"\x00\"\xd8\x3d\xde\x00")]).ok_or("no line")?;
    assert!(rt; csv.as_slice() == b"\"\"\"\xf0\x9f\x98\x80\"\n".as_slice());
    Ok(())
}
