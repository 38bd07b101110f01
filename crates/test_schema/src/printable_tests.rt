//! How stored texts are printed. Those that are not printed as they are do harm in sqlite3 3.40.1: a command runs, a
//! statement that isn't the database's, or the rest of the script is lost.
use schema_print::{Printed, Row, Why, printable};
use std::alloc::{AllocError, Global};
use std::test::Fail;

/// What becomes of a text.
#[derive(Clone, Copy, Debug, PartialEq, Eq)]
enum Outcome {
    AsItIs(usize),
    Spaced,
    InRow,
    Refused(Why),
}

/// A text of a view, an index, a trigger or a table x; those of indexes and triggers belong to t.
static TEXTS: [(&[u8], &[u8], Outcome); 22] = [
    (
        b"view",
        b"CREATE VIEW x AS SELECT a FROM t",
        Outcome::AsItIs(32),
    ),
    (
        b"view",
        b"create view \"X\" AS SELECT 1 ;  ",
        Outcome::AsItIs(27),
    ),
    (
        b"view",
        b"CREATE VIEW x AS SELECT 8\n/\n.5",
        Outcome::Spaced,
    ),
    (
        b"view",
        b"CREATE VIEW x AS SELECT\ngo\n.system a\nFROM t AS go",
        Outcome::Spaced,
    ),
    (
        b"view",
        b"CREATE VIEW x AS SELECT 'a\ngo\n'",
        Outcome::AsItIs(31),
    ),
    (
        b"view",
        b"CREATE VIEW x AS SELECT a -- b\n/ 2",
        Outcome::Refused(Why::NotSpaced),
    ),
    (
        b"view",
        b"CREATE VIEW x AS SELECT a \x0b, b",
        Outcome::Spaced,
    ),
    (
        b"view",
        b"CREATE VIEW x AS SELECT 'a\r\nb'",
        Outcome::Refused(Why::ReturnInQuotes),
    ),
    (
        b"view",
        b"CREATE VIEW x AS SELECT 1; DROP TABLE t",
        Outcome::Refused(Why::SemicolonInside),
    ),
    (
        b"view",
        b"CREATE VIEW x AS SELECT 1\0;",
        Outcome::Refused(Why::NotWhole),
    ),
    (
        b"view",
        b"CREATE VIEW x AS SELECT 'open",
        Outcome::Refused(Why::NotWhole),
    ),
    (
        b"view",
        b" CREATE VIEW x AS SELECT 1",
        Outcome::Refused(Why::NotWhole),
    ),
    (
        b"view",
        b"CREATE VIEW x AS SELECT $a(;)",
        Outcome::Refused(Why::HasVariable),
    ),
    (
        b"view",
        b"CREATE VIEW main.x AS SELECT 1",
        Outcome::Refused(Why::NotPlain),
    ),
    (
        b"view",
        b"CREATE VIEW x AS SELECT a FROM t/*",
        Outcome::Refused(Why::EndsInComment),
    ),
    (
        b"table",
        b"CREATE TABLE x AS SELECT 1",
        Outcome::Refused(Why::NotCreate),
    ),
    (
        b"table",
        b"CREATE TABLE x(a, CHECK(\"writefile\"('p', a)))",
        Outcome::Refused(Why::EndsSafeMode),
    ),
    (
        b"table",
        b"CREATE TABLE x(a PRIMARY KEY) WITHOUT ROWID /* b",
        Outcome::AsItIs(43),
    ),
    (
        b"table",
        b"CREATE VIRTUAL TABLE x USING fts5(a, b)",
        Outcome::InRow,
    ),
    (
        b"table",
        b"CREATE VIRTUAL TABLE x USING zipfile('a')",
        Outcome::Refused(Why::UnknownModule),
    ),
    (
        b"trigger",
        b"CREATE TRIGGER x AFTER DELETE ON t BEGIN SELECT CASE WHEN 1 THEN 2 END; END",
        Outcome::AsItIs(75),
    ),
    (
        b"trigger",
        b"CREATE TRIGGER x AFTER DELETE ON t BEGIN SELECT 1; END; SELECT 2; END",
        Outcome::Refused(Why::SemicolonInside),
    ),
];

fn outcome_of(alloc: Global, kind: &[u8], text: &[u8]) -> Result<Outcome, AllocError> {
    let table: &[u8] = if kind == b"trigger".as_slice() {
        b"t"
    } else {
        b"x"
    };
    let row = Row {
        kind,
        name: b"x",
        table: Some(table),
    };
    Ok(match printable(alloc, text, row)? {
        Printed::AsItIs(last) => Outcome::AsItIs(last),
        Printed::Spaced(_) => Outcome::Spaced,
        Printed::RowOfSchema => Outcome::InRow,
        Printed::Comment(why) => Outcome::Refused(why),
    })
}

#[test]
fn texts_are_printed_or_refused(rt: HostRuntime) -> Result<(), Fail> {
    for (kind, text, outcome) in TEXTS.iter() {
        assert_eq!(rt; outcome_of(rt.alloc(), kind, text)?, *outcome);
    }
    Ok(())
}

#[test]
fn a_row_has_to_say_the_same(rt: HostRuntime) -> Result<(), Fail> {
    let row = Row {
        kind: b"index",
        name: b"x",
        table: Some(b"other"),
    };
    let printed = printable(rt.alloc(), b"CREATE INDEX x ON t(a)", row)?;
    assert!(rt; matches!(printed, Printed::Comment(Why::OtherInRow)));
    Ok(())
}

#[test]
fn a_spaced_text_has_its_bytes(rt: HostRuntime) -> Result<(), Fail> {
    let row = Row {
        kind: b"view",
        name: b"x",
        table: Some(b"x"),
    };
    let printed = printable(rt.alloc(), b"CREATE VIEW x AS SELECT 8\n/\n.5", row)?;
    match printed {
        Printed::Spaced(text) => assert_eq!(rt;
            text.as_slice(),
            b"CREATE VIEW x AS SELECT 8 /\n.5".as_slice()
        ),
        _ => assert!(rt; false),
    }
    Ok(())
}
