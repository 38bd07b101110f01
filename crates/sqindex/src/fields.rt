//! The values of records in place (fileformat2, 2.1).
ghost use Rattle.std.specs.Prelude.{◌≡◌, ◌≢◌, ◌↔◌, ◌<◌, ◌⊎◌, ℤ, take, IsTrue, MatchOption, option_map, slice_get, Some};
ghost use Rattle.std.specs.declared.cmp.Ordering.TheVariants.{Equal};
ghost use Rattle.sqlite_record.specs.Record.{decode};
ghost use Rattle.sqlite_value.specs.Value.{owned};
ghost use Rattle.sqlite_value.specs.declared.value.Value.TheVariants.{Null, Int};
ghost use Rattle.sqlite_value.specs.Keys.{prefix_cmp};
ghost use Rattle.sqindex.specs.Keys.{value_at, IsKeyed};
ghost use Rattle.sqindex.specs.Rules.{HasNull, IsSameKey};
ghost use Rattle.sqindex.specs.internal.Ends.{HasEnds};

use sqkeys::KeyColumn;
use sqlite_record::fields::Fields;
use sqlite_value::keys::Order;
use sqlite_value::value::{Value, ValueRef};
use std::cmp::Ordering;

/// A value that is lent.
pub(crate) fn lent(value: &Value) -> ValueRef<'_>
    ensures { owned result ≡ value.now }
{
    match value {
        Value::Null => ValueRef::Null,
        Value::Int(n) => ValueRef::Int(*n),
        Value::Real(x) => ValueRef::Real(*x),
        Value::Text(text) => ValueRef::Text(text.as_slice()),
        Value::Blob(blob) => ValueRef::Blob(blob.as_slice()),
    }
}

/// The value `at` of a record, from 0. None behind the last one.
#[inline(always)]
fn field(record: &[u8], at: usize) -> Option<ValueRef<'_>>
    ensures { option_map owned result ≡ slice_get (decode record.now) at }
{
    let mut fields = Fields::new(record);
    'fields: for i in 0..at {
        let Some(_) = fields.next() else {
            return None;
        };
    }
    fields.next()
}

/// The value of a column in a row that is this record.
#[inline(always)]
pub(crate) fn value_in<'a>(column: &'a KeyColumn, rowid: i64, row: &'a [u8]) -> ValueRef<'a>
    ensures { owned result ≡ value_at column.now rowid (decode row.now) }
{
    match column {
        KeyColumn::Rowid => ValueRef::Int(rowid),
        KeyColumn::Stored { at, default } => match field(row, *at) {
            Some(value) => value,
            None => lent(default),
        },
    }
}

/// The integer that a value is.
#[inline(always)]
fn integer(value: ValueRef<'_>) -> Option<i64>
    ensures { MatchOption result ((n : ℤ) → owned value.entry ≢ Int n) (λ n. owned value.entry ≡ Int n) }
{
    match value {
        ValueRef::Int(n) => Some(n),
        _ => None,
    }
}

/// What an entry begins and ends with: its first column, where that is an integer, and its rowid.
#[derive(Clone, Copy, Debug)]
pub(crate) struct Ends {
    pub(crate) first: Option<i64>,
    pub(crate) rowid: i64,
}

/// The integer that the first column is: of this value in column 0, and otherwise as it was.
#[inline(always)]
fn first_in(i: usize, value: ValueRef<'_>, first: Option<i64>) -> Option<i64>
    ensures { (n : ℤ) → result ≡ Some n → ((i ≡ 0) × (owned value.entry ≡ Int n)) ⊎ ((0 < i) × (first ≡ Some n)) }
{
    if i == 0 { integer(value) } else { first }
}

/// The ends of an entry of so many columns. None where it hasn't just these and an integer.
#[inline(always)]
pub(crate) fn ends_in(entry: &[u8], columns: usize) -> Option<Ends>
    ensures { MatchOption result ((rowid : ℤ) → ¬ IsKeyed columns rowid (decode entry.now))
        (HasEnds columns (decode entry.now)) }
{
    let mut fields = Fields::new(entry);
    let mut first = None;
    'fields: for i in 0..columns {
        let Some(value) = fields.next() else {
            return None;
        };
        first = first_in(i, value, first);
    }
    let Some(last) = fields.next() else {
        return None;
    };
    if fields.next().is_some() {
        return None;
    }
    match integer(last) {
        Some(rowid) => Some(Ends { first, rowid }),
        None => None,
    }
}

/// Whether a value is NULL.
fn is_null(value: ValueRef<'_>) -> bool
    ensures { IsTrue result ↔ (owned value.entry ≡ Null) }
{
    match value {
        ValueRef::Null => true,
        _ => false,
    }
}

/// Whether one of the first columns of a record is NULL.
fn has_null(entry: &[u8], columns: usize) -> bool
    ensures { IsTrue result ↔ HasNull columns (decode entry.now) }
{
    let mut fields = Fields::new(entry);
    'fields: for i in 0..columns {
        let Some(value) = fields.next() else {
            return true;
        };
        if is_null(value) {
            return true;
        }
    }
    false
}

/// Whether two records agree in all of the first columns.
fn agrees(mut order: Order, columns: usize, first: &[u8], second: &[u8]) -> bool
    ensures { IsTrue result ↔ (prefix_cmp order (decode first.now) (take columns (decode second.now)) ≡ Equal) }
{
    let mut left = Fields::new(first);
    let mut right = Fields::new(second);
    'fields: for i in 0..columns {
        let Some(other) = right.next() else {
            return true;
        };
        let Some(value) = left.next() else {
            return false;
        };
        match order.compare_first(value, other) {
            Ordering::Equal => {}
            _ => return false,
        }
        order = order.later();
    }
    true
}

/// Whether two entries have the same key of so many columns, none of which is NULL.
pub(crate) fn is_same_key(order: Order, columns: usize, first: &[u8], second: &[u8]) -> bool
    ensures { IsTrue result ↔ IsSameKey order columns (decode first.now) (decode second.now) }
{
    agrees(order, columns, first, second) && !has_null(first, columns)
}
