//! The keys of rows (SQLite's withoutrowid; datatype3, 4.1 and 7; fileformat2, 2.4).
ghost use Rattle.std.specs.Prelude.{◌≡◌, IfOk, List, Some, from_bits, map, take};
ghost use Rattle.std.specs.Float.{binary64};
ghost use Rattle.sqval.specs.Datum.{datum_of};
ghost use Rattle.sqlite_value.specs.Value.{owned};
ghost use Rattle.sqkeys.specs.Columns.{real_of, value_of};
ghost use Rattle.sqkeydiff.specs.KeyChanges.{key_of};

use sqlite_value::keys::Order;
use sqlite_value::row::Row as Key;
use sqlite_value::value::ValueRef;
use sqrows::Row;
use sqval::{Record, Value};
use std::alloc::{AllocError, Global};

/// How the rows of a table WITHOUT ROWID are sorted, as `sqkeys::row_key_of` tells it of the table's text.
#[derive(Clone, Copy, Debug, PartialEq, Eq)]
pub struct KeyOrder {
    /// How many columns the primary key has: the first ones that a row stores.
    pub width: usize,
    /// How these are sorted.
    pub order: Order,
}

/// The exponent of what is infinite, or no number.
const EXPONENT: u64 = 0x7ff0_0000_0000_0000;

/// The bit of the sign.
const SIGN: u64 = 1 << 63;

/// The number that has these bits; NULL where they are none.
fn real_of<'a>(bits: u64) -> ValueRef<'a>
    ensures { owned result ≡ real_of (from_bits binary64 bits) }
{
    if bits % SIGN > EXPONENT {
        ValueRef::Null
    } else {
        ValueRef::Real(f64::from_bits(bits))
    }
}

/// The same value, as keys have it.
fn value_of(value: Value<'_>) -> ValueRef<'_>
    ensures { owned result ≡ value_of (datum_of value.entry) }
{
    match value {
        Value::Null => ValueRef::Null,
        Value::Int(number) => ValueRef::Int(number),
        Value::Real(bytes) => real_of(u64::from_be_bytes(bytes)),
        Value::Text(bytes) => ValueRef::Text(bytes),
        Value::Blob(bytes) => ValueRef::Blob(bytes),
    }
}

/// The first values of a record, as keys have them.
fn first_values(alloc: Global, stored: &Record<'_>, width: usize) -> Result<Key, AllocError>
    ensures { IfOk result (λ values. values ≡ map value_of (take width stored.now)) }
{
    let mut values = Key::new(alloc);
    let mut columns = stored.columns();
    'fields: for i in 0..width {
        match columns.next() {
            Some(value) => values.push(value_of(value))?,
            None => return Ok(values),
        }
    }
    Ok(values)
}

/// The key of a row. None where it has a rowid.
pub(crate) fn key_of(alloc: Global, width: usize, row: &Row<'_>) -> Result<Option<Key>, AllocError>
    ensures { IfOk result (λ found. found
        ≡ key_of width (record { rowid = row.now.rowid; values = row.now.values })) }
{
    match row.rowid {
        Some(_) => Ok(None),
        None => Ok(Some(first_values(alloc, &row.values, width)?)),
    }
}
