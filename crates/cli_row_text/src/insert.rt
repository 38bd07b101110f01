//! What stands before the values of an INSERT.
ghost use Rattle.std.specs.Prelude.{OnOk, map};
ghost use Rattle.std.specs.Io.KnownBytes.{Appends};
ghost use Rattle.cli_row_text.specs.Inserts.{quoted, columns_text, columns_listed, insert_text, rowid_name};

use crate::value::write_between;
use std::io::{self, Write};

/// A name in quotes behind a comma.
fn write_quoted<W: Write>(out: &mut W, name: &[u8]) -> io::Result<()>
    ensures { OnOk result (Appends (W.contents out.old) (W.contents out.new) (quoted name.now)) }
{
    out.write_all(b",")?;
    write_between(out, b'"', name)
}

/// Names behind a name that stands for the rowid, each behind a comma.
#[tactic(auto, using(crate::proofs::NamesWritten::texts_more))]
fn write_names<W: Write>(out: &mut W, names: &[Vec<u8>]) -> io::Result<()>
    ensures { OnOk result (Appends (W.contents out.old) (W.contents out.new)
        (columns_text (map (λ n. n.items) names.now))) }
{
    for name in names {
        write_quoted(out, name)?;
    }
    Ok(())
}

/// The names of the columns in parentheses, that of the rowid first; nothing where the rowid isn't written.
fn write_columns<W: Write>(out: &mut W, rowid: Option<&str>, names: &[Vec<u8>]) -> io::Result<()>
    ensures { OnOk result (Appends (W.contents out.old) (W.contents out.new)
        (columns_listed (rowid_name rowid.entry) (map (λ n. n.items) names.now))) }
{
    match rowid {
        Some(rowid) => {
            out.write_all(b"(")?;
            out.write_all(rowid.as_bytes())?;
            write_names(out, names)?;
            out.write_all(b")")
        }
        None => Ok(()),
    }
}

/// What stands before the values of an INSERT into a table: where `rowid` is a name of its rowid, that value comes
/// first, and the columns' values in the order of these names. An error of the writer.
pub fn write_insert<W: Write>(
    out: &mut W,
    table: &[u8],
    rowid: Option<&str>,
    names: &[Vec<u8>],
) -> io::Result<()>
    ensures { OnOk result (Appends (W.contents out.old) (W.contents out.new)
        (insert_text table.now (rowid_name rowid.entry) (map (λ n. n.items) names.now))) }
{
    out.write_all(b"INSERT OR ABORT INTO ")?;
    write_between(out, b'"', table)?;
    write_columns(out, rowid, names)?;
    out.write_all(b" VALUES(")
}
