//! The texts of a schema.
ghost use Rattle.std.specs.Prelude.{◌≡◌, ◌++◌, ◌≤◌, IfOk, OnOk, codes, length};
ghost use Rattle.std.specs.List.{prefix_len};
ghost use Rattle.std.specs.Io.KnownBytes.{Appends};
ghost use Rattle.schema_print.specs.declared.refusals.Printed.TheVariants.{AsItIs};
ghost use Rattle.cli_schema_text.specs.Comments.{hex_line};
ghost use Rattle.cli_schema_text.specs.Texts.{IsJudged, is_end_blank, end_blanks, printed_text, is_left_out};
ghost use Rattle.cli_schema_text.specs.Texts.{cast_text, schema_row_text};

use crate::comments::{why_words, write_hex_line, write_left_out};
use cli_text::write_hex;
use schema_print::{Printed, Row, printable};
use schema_tokens::{after, byte_at};
use std::alloc::{AllocError, Global};
use std::io::{self, Write};

/// How a script prints the text of an object of this type and name. Takes time linear in the text.
pub fn judged<'a>(
    alloc: Global,
    kind: &'a [u8],
    name: &'a [u8],
    sql: &[u8],
) -> Result<Printed, AllocError>
    ensures { IfOk result (λ p. IsJudged kind.now name.now sql.now p) }
{
    let row = Row {
        kind,
        name,
        table: None,
    };
    printable(alloc, sql, row)
}

/// Whether a comment stands for a text.
pub fn is_left_out(printed: &Printed) -> bool
    ensures { result ≡ is_left_out printed.now }
{
    matches!(printed, Printed::RowOfSchema | Printed::Comment(_))
}

fn is_end_blank(b: u8) -> bool
    ensures { result ≡ is_end_blank b }
{
    b == b' ' || b == b'\t' || b == b'\n'
}

/// How many of them are at the front.
fn before_end(rest: &[u8]) -> usize
    ensures value { result ≡ prefix_len is_end_blank rest.now }
    ensures within { result ≤ length rest.now }
{
    rest.iter().take_while(|b| is_end_blank(**b)).count()
}

/// The blanks behind a statement, if nothing else stands behind it but `;`.
#[tactic(auto, unfolding(crate::specs::Texts::end_blanks))]
fn end_blanks(rest: &[u8]) -> &[u8]
    ensures { result.now ≡ end_blanks rest.now }
{
    let n = before_end(rest);
    if n == rest.len() || byte_at(rest, n) == b';' {
        &rest[..n]
    } else {
        &[]
    }
}

/// A text as it is, up to the end of its last token.
fn write_as_it_is<W: Write>(out: &mut W, sql: &[u8], last: usize) -> io::Result<()>
    ensures { OnOk result (Appends (W.contents out.old) (W.contents out.new) (printed_text sql.now (AsItIs last))) }
{
    out.write_all(&sql[..last.min(sql.len())])?;
    out.write_all(end_blanks(after(sql, last)))?;
    out.write_all(b";\n")
}

/// A statement behind a comment that has the bytes of its text.
fn write_spaced<W: Write>(out: &mut W, sql: &[u8], spaced: &[u8]) -> io::Result<()>
    ensures { OnOk result (Appends (W.contents out.old) (W.contents out.new)
        (codes "-- printed with other blanks" ++ (hex_line sql.now ++ (spaced.now ++ codes ";\n")))) }
{
    out.write_all(b"-- printed with other blanks")?;
    write_hex_line(out, sql)?;
    out.write_all(spaced)?;
    out.write_all(b";\n")
}

/// Writes a text as it was judged: a statement and `;` at the end of a line, or a comment of one line. An error of the
/// writer.
pub fn write_printed<W: Write>(out: &mut W, sql: &[u8], printed: &Printed) -> io::Result<()>
    ensures { OnOk result (Appends (W.contents out.old) (W.contents out.new) (printed_text sql.now printed.now)) }
{
    match printed {
        Printed::AsItIs(last) => write_as_it_is(out, sql, *last),
        Printed::Spaced(spaced) => write_spaced(out, sql, spaced.as_slice()),
        Printed::RowOfSchema => write_left_out(out, b"a virtual table with rows of its own", sql),
        Printed::Comment(why) => write_left_out(out, why_words(*why), sql),
    }
}

/// Bytes as a text.
fn write_cast<W: Write>(out: &mut W, bytes: &[u8]) -> io::Result<()>
    ensures { OnOk result (Appends (W.contents out.old) (W.contents out.new) (cast_text bytes.now)) }
{
    out.write_all(b"CAST(X'")?;
    write_hex(out, bytes)?;
    out.write_all(b"' AS TEXT)")
}

/// What stands before the root of a virtual table's row.
fn write_row_start<W: Write>(out: &mut W, name: &[u8]) -> io::Result<()>
    ensures { OnOk result (Appends (W.contents out.old) (W.contents out.new)
        (cast_text name.now ++ (codes "," ++ (cast_text name.now ++ codes ",0,")))) }
{
    write_cast(out, name)?;
    out.write_all(b",")?;
    write_cast(out, name)?;
    out.write_all(b",0,")
}

/// Writes the row of a virtual table into the schema. Its name and its text are in the database's encoding. An error of
/// the writer.
pub fn write_schema_row<W: Write>(out: &mut W, name: &[u8], sql: &[u8]) -> io::Result<()>
    ensures { OnOk result (Appends (W.contents out.old) (W.contents out.new) (schema_row_text name.now sql.now)) }
{
    out.write_all(
        b"PRAGMA writable_schema=ON;\n\
        INSERT OR ABORT INTO sqlite_schema(type,name,tbl_name,rootpage,sql) VALUES('table',",
    )?;
    write_row_start(out, name)?;
    write_cast(out, sql)?;
    out.write_all(b");\nPRAGMA writable_schema=OFF;\n")
}
