//! What stands before the rows of a table.
ghost use Rattle.std.specs.Prelude.{◌≡◌, ◌++◌, ◌∷◌, [], OnOk, map};
ghost use Rattle.std.specs.Io.KnownBytes.{Appends};
ghost use Rattle.std.specs.List.{flat_map};
ghost use Rattle.cli_row_text.specs.Headings.{heading_text, name_in_quotes, names_listed, next_name};

use crate::form::Notation;
use crate::value::{write_between, write_string};
use std::io::{self, Write};

/// A name in quotes.
fn write_quoted<W: Write>(out: &mut W, notation: Notation, name: &[u8]) -> io::Result<()>
    ensures { OnOk result (Appends (W.contents out.old) (W.contents out.new) (name_in_quotes notation name.now)) }
{
    match notation {
        Notation::Json => write_string(out, name),
        Notation::Csv | Notation::Sql => write_between(out, b'"', name),
    }
}

/// The same behind a comma.
fn write_next<W: Write>(out: &mut W, notation: Notation, name: &[u8]) -> io::Result<()>
    ensures { OnOk result (Appends (W.contents out.old) (W.contents out.new) (next_name notation name.now)) }
{
    out.write_all(b",")?;
    write_quoted(out, notation, name)
}

/// Names behind another, each behind a comma.
#[tactic(auto, using(crate::proofs::NamesWritten::texts_more))]
fn write_others<W: Write>(out: &mut W, notation: Notation, names: &[Vec<u8>]) -> io::Result<()>
    ensures { OnOk result (Appends (W.contents out.old) (W.contents out.new)
        (flat_map (next_name notation) (map (λ n. n.items) names.now))) }
{
    for name in names {
        write_next(out, notation, name)?;
    }
    Ok(())
}

/// Names with commas between them.
#[tactic(auto, using(crate::proofs::NamesWritten::listed_first, crate::proofs::NamesWritten::listed_none))]
fn write_listed<W: Write>(out: &mut W, notation: Notation, names: &[Vec<u8>]) -> io::Result<()>
    ensures { OnOk result (Appends (W.contents out.old) (W.contents out.new)
        (names_listed notation (map (λ n. n.items) names.now))) }
{
    match names.split_first() {
        Some((first, others)) => {
            write_quoted(out, notation, first)?;
            write_others(out, notation, others)
        }
        None => Ok(()),
    }
}

/// What stands before the rows of a table, whose columns have these names: in JSON an object with the members `table`
/// and `columns`, which is an array and so no row's; a line of names; nothing before INSERTs. An error of the writer.
pub fn write_heading<W: Write>(
    out: &mut W,
    notation: Notation,
    table: &[u8],
    names: &[Vec<u8>],
) -> io::Result<()>
    ensures { OnOk result (Appends (W.contents out.old) (W.contents out.new)
        (heading_text notation table.now (map (λ n. n.items) names.now))) }
{
    match notation {
        Notation::Json => {
            out.write_all(b"{\"table\":")?;
            write_string(out, table)?;
            out.write_all(b",\"columns\":[")?;
            write_listed(out, notation, names)?;
            out.write_all(b"]}\n")
        }
        Notation::Csv => {
            write_listed(out, notation, names)?;
            out.write_all(b"\n")
        }
        Notation::Sql => Ok(()),
    }
}
