//! The entry of a row, beside one of the index (fileformat2, 2.4).
ghost use Rattle.std.specs.Prelude.{◌≡◌, IsTrue, Some, slice_get};
ghost use Rattle.std.specs.declared.cmp.Ordering.TheVariants.{Equal};
ghost use Rattle.sqlite_record.specs.Record.{decode};
ghost use Rattle.sqlite_value.specs.declared.value.Value.TheVariants.{Int};
ghost use Rattle.sqlite_value.specs.Keys.{by_key, entry_cmp, first_key};
ghost use Rattle.sqkeys.specs.declared.key.KeyColumn.{KeyColumn};
ghost use Rattle.sqindex.specs.Keys.{entry_for, value_at, IsKeyed};
ghost use Rattle.sqindex.specs.Rules.{width};
ghost use Rattle.sqindex.specs.internal.Ends.{HasEnds};

use crate::fields::{Ends, value_in};
use sqkeys::IndexKey;
use sqlite_record::fields::Fields;
use sqlite_value::value::ValueRef;
use std::cmp::Ordering;

/// How the entry of a row with this rowid stands to one of the index. Nothing is copied.
pub(crate) fn compare_entry(key: &IndexKey, rowid: i64, row: &[u8], entry: &[u8]) -> Ordering
    ensures { result ≡ entry_cmp key.now.order (entry_for key.now.columns.items rowid (decode row.now))
        (decode entry.now) }
{
    let mut order = key.order;
    let mut fields = Fields::new(entry);
    'columns: for column in &key.columns {
        let Some(other) = fields.next() else {
            return Ordering::Greater;
        };
        match order.compare_first(value_in(column, rowid, row), other) {
            Ordering::Equal => {}
            found => return found,
        }
        order = order.later();
    }
    let Some(other) = fields.next() else {
        return Ordering::Greater;
    };
    match order.compare_first(ValueRef::Int(rowid), other) {
        Ordering::Equal => {}
        found => return found,
    }
    match fields.next() {
        Some(_) => Ordering::Less,
        None => Ordering::Equal,
    }
}

/// Whether an entry that has the rowid of a row is the row's. Its rowid isn't read again.
fn has_each(key: &IndexKey, rowid: i64, row: &[u8], entry: &[u8]) -> bool
    requires keyed { IsKeyed (width key.now) rowid (decode entry.now) }
    ensures { IsTrue result → entry_cmp key.now.order (entry_for key.now.columns.items rowid (decode row.now))
        (decode entry.now) ≡ Equal }
{
    let mut order = key.order;
    let mut fields = Fields::new(entry);
    'columns: for column in &key.columns {
        let Some(other) = fields.next() else {
            return false;
        };
        match order.compare_first(value_in(column, rowid, row), other) {
            Ordering::Equal => {}
            _ => return false,
        }
        order = order.later();
    }
    true
}

/// Whether the only column of a key is this integer in a row.
#[inline(always)]
fn has_integer(key: &IndexKey, rowid: i64, row: &[u8], n: i64) -> bool
    requires one { width key.now ≡ 1 }
    ensures { IsTrue result → (column : KeyColumn) → slice_get key.now.columns.items 0 ≡ Some column
        → by_key (first_key key.now.order) (value_at column rowid (decode row.now)) (Int n) ≡ Equal }
{
    let value = value_in(&key.columns[0], rowid, row);
    key.order.compare_first(value, ValueRef::Int(n)) == Ordering::Equal
}

/// Whether an entry that has the rowid of a row is the row's. An integer that is its only column isn't read again, nor
/// is its rowid.
#[inline(always)]
pub(crate) fn has_columns(key: &IndexKey, ends: Ends, row: &[u8], entry: &[u8]) -> bool
    requires ends { HasEnds (width key.now) (decode entry.now) ends }
    ensures { IsTrue result → entry_cmp key.now.order (entry_for key.now.columns.items ends.rowid (decode row.now))
        (decode entry.now) ≡ Equal }
{
    match ends.first {
        Some(first) if key.columns.len() == 1 => has_integer(key, ends.rowid, row, first),
        _ => has_each(key, ends.rowid, row, entry),
    }
}
