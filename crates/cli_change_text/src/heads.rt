//! What stands before changes, and what they begin with.
ghost use Rattle.std.specs.Prelude.{◌≡◌, OnOk, MatchOption, map, option_map};
ghost use Rattle.std.specs.Io.KnownBytes.{Appends};
ghost use Rattle.cli_row_text.specs.Inserts.{rowid_name};
ghost use Rattle.cli_change_text.specs.Heads.{alias_text, key_text, object_head, opening_text};
ghost use Rattle.cli_change_text.specs.Heads.{removal_head, removal_start, title_text};

use crate::name::name_at;
use cli_row_text::{write_between, write_string};
use sqtables::Columns;
use std::io::{self, Write};

/// The line that names a table. An error of the writer.
pub fn write_title<W: Write>(out: &mut W, table: &[u8]) -> io::Result<()>
    ensures { OnOk result (Appends (W.contents out.old) (W.contents out.new) (title_text table.now)) }
{
    out.write_all(b"table ")?;
    write_between(out, b'"', table)?;
    out.write_all(b"\n")
}

/// What an object begins with before the table.
fn write_opening<W: Write>(out: &mut W, commit: Option<u32>) -> io::Result<()>
    ensures { OnOk result (Appends (W.contents out.old) (W.contents out.new) (opening_text commit)) }
{
    match commit {
        Some(frame) => write!(out, "{{\"frame\":{frame},\"table\":"),
        None => out.write_all(b"{\"table\":"),
    }
}

/// What the objects of a table's changes begin with, which the commit that ends with this frame made, where one is
/// named. An error of the writer.
pub fn write_object_head<W: Write>(out: &mut W, commit: Option<u32>, table: &[u8]) -> io::Result<()>
    ensures { OnOk result (Appends (W.contents out.old) (W.contents out.new) (object_head commit table.now)) }
{
    write_opening(out, commit)?;
    write_string(out, table)?;
    out.write_all(b",\"change\":\"")
}

/// The name of a column in quotes.
fn write_alias<W: Write>(out: &mut W, name: Option<&Vec<u8>>) -> io::Result<()>
    ensures { OnOk result (Appends (W.contents out.old) (W.contents out.new)
        (alias_text (option_map (λ n. n.now.items) name.entry))) }
{
    match name {
        Some(name) => write_between(out, b'"', name),
        None => Ok(()),
    }
}

/// What the rowid is called.
fn write_key<W: Write>(out: &mut W, columns: &Columns, rowid: Option<&str>) -> io::Result<()>
    ensures { OnOk result (Appends (W.contents out.old) (W.contents out.new)
        (key_text columns.now (rowid_name rowid.entry))) }
{
    match rowid {
        Some(name) => out.write_all(name.as_bytes()),
        None => write_alias(out, name_at(columns, columns.alias)),
    }
}

/// What the DELETE of a row of a table begins with, before its condition. An error of the writer.
pub fn write_removal_start<W: Write>(out: &mut W, table: &[u8]) -> io::Result<()>
    ensures { OnOk result (Appends (W.contents out.old) (W.contents out.new) (removal_start table.now)) }
{
    out.write_all(b"DELETE FROM ")?;
    write_between(out, b'"', table)?;
    out.write_all(b" WHERE ")
}

/// What the DELETE of a row of a table begins with, whose rowid has this name, or a column is another name for it. An
/// error of the writer.
pub fn write_removal_head<W: Write>(
    out: &mut W,
    table: &[u8],
    columns: &Columns,
    rowid: Option<&str>,
) -> io::Result<()>
    ensures { OnOk result (Appends (W.contents out.old) (W.contents out.new)
        (removal_head table.now columns.now (rowid_name rowid.entry))) }
{
    write_removal_start(out, table)?;
    write_key(out, columns, rowid)?;
    out.write_all(b"=")
}
