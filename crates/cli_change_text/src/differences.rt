//! What changed in a row, column by column.
ghost use Rattle.std.specs.Prelude.{◌≡◌, ◌↔◌, ℕ, ◌+◌, ◌<◌, ◌^◌, List, OnOk, IfOk, IsTrue, false, map};
ghost use Rattle.std.specs.Prelude.{slice_get};
ghost use Rattle.std.specs.Io.KnownBytes.{Appends};
ghost use Rattle.sqval.specs.Datum.{datum_of};
ghost use Rattle.cli_change_text.specs.Changes.{AreDifferences, IsDifference, column_count, mark_of};
ghost use Rattle.cli_change_text.specs.Names.{column_text};
ghost use Rattle.cli_change_text.specs.internal.Steps.{TakesColumn};

use crate::name::write_name;
use crate::style::Style;
use cli_row_text::{Form, Notation, write_value};
use sqrows::Row;
use sqval::Value;
use std::io::{self, Write};

/// Whether two values are the same as they are stored: an integer is no real number.
fn is_same(old: Value<'_>, new: Value<'_>) -> bool
    ensures { IsTrue result ↔ (datum_of old.entry ≡ datum_of new.entry) }
{
    old == new
}

/// What stands before a column's change.
fn write_mark<W: Write>(out: &mut W, begun: bool) -> io::Result<()>
    ensures { OnOk result (Appends (W.contents out.old) (W.contents out.new) (mark_of begun)) }
{
    if begun { out.write_all(b", ") } else { Ok(()) }
}

/// The name of column `j`.
fn write_column<W: Write>(out: &mut W, names: &[Vec<u8>], j: usize) -> io::Result<()>
    requires { j + 1 < 2 ^ 64 }
    ensures { OnOk result (Appends (W.contents out.old) (W.contents out.new)
        (column_text (slice_get (map (λ n. n.items) names.now) j) j)) }
{
    write_name(out, names.get(j), j)
}

/// A column's change.
fn write_difference<W: Write>(
    out: &mut W,
    style: Style<'_>,
    j: usize,
    begun: bool,
    old: Value<'_>,
    new: Value<'_>,
) -> io::Result<()>
    requires { j + 1 < 2 ^ 64 }
    ensures { OnOk result ((t : List ℕ) × IsDifference style.entry.encoding style.entry.columns.now begun j (datum_of
        old.entry) (datum_of new.entry) t
        × Appends (W.contents out.old) (W.contents out.new) t) }
{
    let form = Form {
        notation: Notation::Sql,
        encoding: style.encoding,
    };
    write_mark(out, begun)?;
    write_column(out, &style.columns.names, j)?;
    out.write_all(b" ")?;
    write_value(out, form, old)?;
    out.write_all(b" -> ")?;
    write_value(out, form, new)
}

/// A column's change, where it shows another value. Whether some change is written then.
fn write_column_change<W: Write>(
    out: &mut W,
    style: Style<'_>,
    old: &Row<'_>,
    new: &Row<'_>,
    j: usize,
    begun: bool,
) -> io::Result<bool>
    requires { j + 1 < 2 ^ 64 }
    ensures { IfOk result (λ written. (t : List ℕ) × TakesColumn style.entry.encoding style.entry.columns.now
        (record { rowid = old.now.rowid; values = old.now.values })
        (record { rowid = new.now.rowid; values = new.now.values }) j begun written t
        × Appends (W.contents out.old) (W.contents out.new) t) }
{
    let was = style.columns.value_at(old, j);
    let is = style.columns.value_at(new, j);
    if is_same(was, is) {
        return Ok(begun);
    }
    write_difference(out, style, j, begun, was, is)?;
    Ok(true)
}

/// The changes of the columns of a row.
pub(crate) fn write_differences<W: Write>(
    out: &mut W,
    style: Style<'_>,
    old: &Row<'_>,
    new: &Row<'_>,
) -> io::Result<()>
    ensures { OnOk result ((t : List ℕ) × AreDifferences style.entry.encoding style.entry.columns.now
        (record { rowid = old.now.rowid; values = old.now.values })
        (record { rowid = new.now.rowid; values = new.now.values }) false 0
        (column_count style.entry.columns.now (record { rowid = old.now.rowid; values = old.now.values })
        (record { rowid = new.now.rowid; values = new.now.values })) t
        × Appends (W.contents out.old) (W.contents out.new) t) }
{
    let stored = old.values.len().max(new.values.len());
    let count = stored.max(style.columns.names.len());
    let mut begun = false;
    for j in 0..count {
        begun = write_column_change(out, style, old, new, j, begun)?;
    }
    Ok(())
}
