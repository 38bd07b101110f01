//! The texts of a schema's objects, as a script has them.
ghost use Rattle.std.specs.Prelude.{◌≡◌, ◌≤◌, ◌++◌, ℕ, List, IfErr, IfOk, IsTrue, OnOk, false, length, map};
ghost use Rattle.std.specs.Io.KnownBytes.{Appends};
ghost use Rattle.cli_row_text.specs.declared.form.Notation.TheVariants.{Sql};
ghost use Rattle.cli_schema_text.specs.Comments.{unnamed_text};
ghost use Rattle.cli_schema_text.specs.Names.{fallback_text};
ghost use Rattle.cli_schema_text.specs.Texts.{IsJudged, printed_text};
ghost use Rattle.cli_show_rows.specs.Dumps.{HasLeftOut, IsLeftOut, IsMakingPrinted, IsSchemaRow, IsStatementPrinted};
ghost use Rattle.cli_show_rows.specs.Dumps.{IsTableText, IsUnnamedText, IsVirtual, IsVirtualText, LeavesOutIn};
ghost use Rattle.cli_show_rows.specs.Dumps.{AreCounting, IsCounting, IsUsers, internal_text, is_internal as is_kept};
ghost use Rattle.cli_show_rows.specs.Dumps.{IsUnread, IsUnreadIn, is_row, is_sequence as is_counter};
ghost use Rattle.cli_show_rows.specs.Stops.{IsUnheaded};

use crate::columns::known_columns;
use crate::stop::Stop;
use cli_row_text::Notation;
use cli_schema_text::{
    can_be_named, column_names, counts_keys, is_left_out, judged, write_fallback, write_printed,
    write_schema_row, write_unnamed,
};
use schema_print::Printed;
use sqdeep::Encoding;
use sqtables::{Object, columns_of};
use sqtext::encoded;
use std::alloc::{AllocError, Global};
use std::io::{self, Write};

/// Whether a name is one that SQLite keeps for its own tables (fileformat2, 2.6.2).
pub fn is_internal(name: &[u8]) -> bool
    ensures { result ≡ is_kept name.now }
{
    name.len() >= 7 && name[..7].eq_ignore_ascii_case(b"sqlite_")
}

/// Whether an object is a table of the user's.
pub(crate) fn is_users(object: &Object) -> bool
    ensures yes { IsTrue result → IsUsers object.now }
    ensures not { result ≡ false → ¬ IsUsers object.now }
{
    object.is_table() && !is_internal(object.name.as_slice())
}

/// Whether an object is a virtual table: one of no root, of the type "table" (fileformat2, 2.6).
pub fn is_virtual(object: &Object) -> bool
    ensures yes { IsTrue result → IsVirtual object.now }
    ensures not { result ≡ false → ¬ IsVirtual object.now }
{
    !object.is_table() && object.kind.as_slice() == b"table".as_slice()
}

/// Whether a name is that of the table in which SQLite counts keys (fileformat2, 2.6.2).
pub fn is_sequence(name: &[u8]) -> bool
    ensures { result ≡ is_counter name.now }
{
    name.eq_ignore_ascii_case(b"sqlite_sequence")
}

/// How a script prints the text of an object.
fn judged_object(alloc: Global, object: &Object) -> Result<Printed, AllocError>
    ensures { IfOk result (IsJudged object.now.kind.items object.now.name.items object.now.sql.items) }
{
    judged(
        alloc,
        object.kind.as_slice(),
        object.name.as_slice(),
        object.sql.as_slice(),
    )
}

/// Prints the text of an object in SQL, or a comment that stands for it. Refused by `NoMemory`, and by an error of the
/// writer.
pub fn print_statement<W: Write>(alloc: Global, object: &Object, out: &mut W) -> Result<(), Stop>
    ensures ok { OnOk result (IsStatementPrinted object.now (W.contents out.old) (W.contents out.new)) }
    ensures err { IfErr result (λ stop. IsUnheaded stop (W.contents out.old) (W.contents out.new)) }
{
    let Ok(printed) = judged_object(alloc, object) else {
        return Err(Stop::NoMemory);
    };
    match write_printed(out, object.sql.as_slice(), &printed) {
        Ok(()) => Ok(()),
        Err(error) => Err(Stop::Write(error)),
    }
}

/// What makes one of SQLite's own tables in SQL.
fn write_internal<W: Write>(out: &mut W, name: &[u8]) -> io::Result<()>
    ensures { OnOk result (Appends (W.contents out.old) (W.contents out.new) (internal_text name.now)) }
{
    if is_sequence(name) {
        out.write_all(b"DELETE FROM sqlite_sequence;\n")
    } else {
        out.write_all(b"ANALYZE sqlite_schema;\n")
    }
}

/// The text of a table, and what makes it if SQLite refuses that.
fn write_table<W: Write>(
    out: &mut W,
    table: &Object,
    printed: &Printed,
    columns: &[Vec<u8>],
) -> io::Result<()>
    ensures { OnOk result (Appends (W.contents out.old) (W.contents out.new)
        (printed_text table.now.sql.items printed.now
        ++ fallback_text table.now.name.items (map (λ n. n.items) columns.now))) }
{
    write_printed(out, table.sql.as_slice(), printed)?;
    write_fallback(out, table.name.as_slice(), columns)
}

/// What makes a user's table.
fn print_table_text<W: Write>(
    alloc: Global,
    encoding: Encoding,
    table: &Object,
    out: &mut W,
) -> Result<(), Stop>
    ensures ok { OnOk result ((t : List ℕ) × IsTableText encoding table.now t
        × Appends (W.contents out.old) (W.contents out.new) t) }
    ensures err { IfErr result (λ stop. IsUnheaded stop (W.contents out.old) (W.contents out.new)) }
{
    let Ok(columns) = known_columns(alloc, table, encoding) else {
        return Err(Stop::NoMemory);
    };
    let Ok(names) = column_names(alloc, columns.names.as_slice()) else {
        return Err(Stop::NoMemory);
    };
    let Ok(printed) = judged_object(alloc, table) else {
        return Err(Stop::NoMemory);
    };
    match write_table(out, table, &printed, names.as_slice()) {
        Ok(()) => Ok(()),
        Err(error) => Err(Stop::Write(error)),
    }
}

/// What stands for a table that no statement can name.
fn write_nameless<W: Write>(out: &mut W, table: &Object, printed: &Printed) -> io::Result<()>
    ensures { OnOk result (Appends (W.contents out.old) (W.contents out.new)
        (printed_text table.now.sql.items printed.now ++ unnamed_text table.now.name.items)) }
{
    write_printed(out, table.sql.as_slice(), printed)?;
    write_unnamed(out, table.name.as_slice())
}

/// The same, judged.
fn print_nameless<W: Write>(alloc: Global, table: &Object, out: &mut W) -> Result<(), Stop>
    ensures ok { OnOk result ((t : List ℕ) × IsUnnamedText table.now t
        × Appends (W.contents out.old) (W.contents out.new) t) }
    ensures err { IfErr result (λ stop. IsUnheaded stop (W.contents out.old) (W.contents out.new)) }
{
    let Ok(printed) = judged_object(alloc, table) else {
        return Err(Stop::NoMemory);
    };
    match write_nameless(out, table, &printed) {
        Ok(()) => Ok(()),
        Err(error) => Err(Stop::Write(error)),
    }
}

/// Prints what makes a table in SQL, in a database of this encoding: its text and, behind it, a statement that makes a
/// table of its name and columns if there is none; of SQLite's own tables what makes SQLite make them. Only comments if
/// no statement can have its name (`can_be_named`): then its rows can't be printed either. Refused by `NoMemory`, and
/// by an error of the writer.
pub fn print_making<W: Write>(
    alloc: Global,
    encoding: Encoding,
    table: &Object,
    out: &mut W,
) -> Result<(), Stop>
    ensures ok { OnOk result (IsMakingPrinted encoding table.now (W.contents out.old) (W.contents out.new)) }
    ensures err { IfErr result (λ stop. IsUnheaded stop (W.contents out.old) (W.contents out.new)) }
{
    if !can_be_named(table.name.as_slice()) {
        return print_nameless(alloc, table, out);
    }
    if !is_internal(table.name.as_slice()) {
        return print_table_text(alloc, encoding, table, out);
    }
    match write_internal(out, table.name.as_slice()) {
        Ok(()) => Ok(()),
        Err(error) => Err(Stop::Write(error)),
    }
}

/// The row of a virtual table.
fn print_schema_row<W: Write>(
    alloc: Global,
    encoding: Encoding,
    object: &Object,
    out: &mut W,
) -> Result<(), Stop>
    ensures ok { OnOk result ((t : List ℕ) × IsSchemaRow encoding object.now t
        × Appends (W.contents out.old) (W.contents out.new) t) }
    ensures err { IfErr result (λ stop. IsUnheaded stop (W.contents out.old) (W.contents out.new)) }
{
    let Ok(name) = encoded(alloc, encoding, object.name.as_slice()) else {
        return Err(Stop::NoMemory);
    };
    let Ok(sql) = encoded(alloc, encoding, object.sql.as_slice()) else {
        return Err(Stop::NoMemory);
    };
    match write_schema_row(out, name.as_slice(), sql.as_slice()) {
        Ok(()) => Ok(()),
        Err(error) => Err(Stop::Write(error)),
    }
}

/// Whether a text makes a virtual table that scripts may have.
fn is_row(printed: &Printed) -> bool
    ensures { result ≡ is_row printed.now }
{
    matches!(printed, Printed::RowOfSchema)
}

/// Prints a virtual table in SQL, in a database of this encoding: as a row of the schema, so its module creates no
/// table again. A comment replaces a text that creates no virtual table of a known module. Refused by `NoMemory`, and
/// by an error of the writer.
pub fn print_virtual_text<W: Write>(
    alloc: Global,
    encoding: Encoding,
    object: &Object,
    out: &mut W,
) -> Result<(), Stop>
    ensures ok { OnOk result ((t : List ℕ) × IsVirtualText encoding object.now t
        × Appends (W.contents out.old) (W.contents out.new) t) }
    ensures err { IfErr result (λ stop. IsUnheaded stop (W.contents out.old) (W.contents out.new)) }
{
    let Ok(printed) = judged_object(alloc, object) else {
        return Err(Stop::NoMemory);
    };
    if is_row(&printed) {
        return print_schema_row(alloc, encoding, object, out);
    }
    match write_printed(out, object.sql.as_slice(), &printed) {
        Ok(()) => Ok(()),
        Err(error) => Err(Stop::Write(error)),
    }
}

/// Whether no column of a table is known.
fn is_unread(alloc: Global, table: &Object) -> Result<bool, AllocError>
    ensures { IfOk result (IsUnread table.now) }
{
    match columns_of(alloc, &table.sql) {
        Ok(columns) => Ok(columns.names.is_empty()),
        Err(_) => Err(AllocError),
    }
}

/// The same, asked for a script alone.
pub(crate) fn is_unread_in(
    alloc: Global,
    notation: Notation,
    table: &Object,
) -> Result<bool, AllocError>
    ensures { IfOk result (IsUnreadIn notation table.now) }
{
    match notation {
        Notation::Json | Notation::Csv => Ok(false),
        Notation::Sql => is_unread(alloc, table),
    }
}

/// Whether a script leaves out an object, or its text.
fn leaves_out(alloc: Global, object: &Object) -> Result<bool, AllocError>
    ensures { IfOk result (IsLeftOut object.now) }
{
    let printed = judged_object(alloc, object)?;
    let commented = is_left_out(&printed);
    let name = object.name.as_slice();
    if object.is_table() {
        let unread = is_unread(alloc, object)?;
        return Ok(!can_be_named(name) || (!is_internal(name) && commented) || unread);
    }
    if is_virtual(object) {
        return Ok(!is_row(&printed));
    }
    Ok(commented)
}

/// How many of these objects a script leaves out, or their texts: tables that no statement can name, or whose columns
/// aren't known, tables without a root whose text creates no virtual table of a known module, and texts that a comment
/// replaces. Takes time linear in the texts.
pub fn left_out(alloc: Global, objects: &[Object]) -> Result<usize, AllocError>
    ensures counted { IfOk result (HasLeftOut objects.now) }
    ensures few { IfOk result (λ count. count ≤ length objects.now) }
{
    let mut count = 0;
    for object in objects {
        if leaves_out(alloc, object)? {
            count += 1;
        }
    }
    Ok(count)
}

/// The same in a notation: only a script has comments.
pub(crate) fn left_out_in(
    alloc: Global,
    notation: Notation,
    objects: &[Object],
) -> Result<usize, AllocError>
    ensures counted { IfOk result (LeavesOutIn notation objects.now) }
    ensures few { IfOk result (λ count. count ≤ length objects.now) }
{
    match notation {
        Notation::Json | Notation::Csv => Ok(0),
        Notation::Sql => left_out(alloc, objects),
    }
}

/// Whether the text of an object is that of a user's table, is printed, and makes SQLite count keys.
fn is_counting(alloc: Global, object: &Object) -> Result<bool, AllocError>
    ensures { IfOk result (IsCounting object.now) }
{
    if !is_users(object) {
        return Ok(false);
    }
    let printed = judged_object(alloc, object)?;
    let has = counts_keys(alloc, object.sql.as_slice())?;
    Ok(!is_left_out(&printed) && has)
}

/// Whether one of these does. Takes time linear in the texts.
fn are_counting(alloc: Global, objects: &[Object]) -> Result<bool, AllocError>
    ensures { IfOk result (AreCounting Sql objects.now) }
{
    for object in objects {
        if is_counting(alloc, object)? {
            return Ok(true);
        }
    }
    Ok(false)
}

/// The same, asked for a script alone.
pub(crate) fn counting_in(
    alloc: Global,
    notation: Notation,
    objects: &[Object],
) -> Result<bool, AllocError>
    ensures { IfOk result (AreCounting notation objects.now) }
{
    match notation {
        Notation::Json | Notation::Csv => Ok(false),
        Notation::Sql => are_counting(alloc, objects),
    }
}
