//! What a row of the schema says (fileformat2, 2.6).
ghost use Rattle.std.specs.Prelude.{◌≡◌, IfOk, option_map, slice_get};
ghost use Rattle.sqval.specs.Datum.{datum_of};
ghost use Rattle.sqschema.specs.Items.{item_of, seen};
ghost use Rattle.sqschema.specs.Items.{is_formed, is_text, is_number, is_text_or_null, sql_in, text_in, number_in};

use crate::text::utf8;
use sqdeep::Encoding;
use sqval::{Record, Value};
use std::alloc::{AllocError, Global};

/// What a row of the schema says of an object, its texts in UTF-8.
#[derive(Debug, Drop)]
pub struct Item {
    /// Whether the row has just the five columns, of their kinds.
    pub formed: bool,
    /// Its type: `table`, `index`, `view` or `trigger`.
    pub kind: Vec<u8>,
    pub name: Vec<u8>,
    /// The name of its table; of a table or a view its own.
    pub table: Vec<u8>,
    /// The root of its tree, or 0 for none.
    pub root: i64,
    /// The text that made it. None for an index that a constraint made.
    pub sql: Option<Vec<u8>>,
}

/// Whether a column holds a text.
fn is_text(value: Option<Value<'_>>) -> bool
    ensures { result ≡ is_text (option_map datum_of value.entry) }
{
    match value {
        Some(Value::Text(_)) => true,
        _ => false,
    }
}

/// Whether it holds an integer or NULL.
fn is_number(value: Option<Value<'_>>) -> bool
    ensures { result ≡ is_number (option_map datum_of value.entry) }
{
    match value {
        Some(Value::Null | Value::Int(_)) => true,
        _ => false,
    }
}

/// Whether it holds a text or NULL.
fn is_text_or_null(value: Option<Value<'_>>) -> bool
    ensures { result ≡ is_text_or_null (option_map datum_of value.entry) }
{
    match value {
        Some(Value::Null | Value::Text(_)) => true,
        _ => false,
    }
}

/// Whether a row has the five columns of the schema.
fn is_formed(values: &Record<'_>) -> bool
    ensures { result ≡ is_formed values.now }
{
    values.len() == 5
        && is_text(values.column(0))
        && is_text(values.column(1))
        && is_text(values.column(2))
        && is_number(values.column(3))
        && is_text_or_null(values.column(4))
}

/// The text in a column, where it holds one.
fn sql_in(
    alloc: Global,
    encoding: Encoding,
    value: Option<Value<'_>>,
) -> Result<Option<Vec<u8>>, AllocError>
    ensures { IfOk result (λ sql. option_map (λ t. t.items) sql ≡ sql_in encoding (option_map datum_of value.entry)) }
{
    match value {
        Some(Value::Text(bytes)) => Ok(Some(utf8(alloc, encoding, bytes)?)),
        _ => Ok(None),
    }
}

/// The text in a column; none is empty.
fn text_in(
    alloc: Global,
    encoding: Encoding,
    value: Option<Value<'_>>,
) -> Result<Vec<u8>, AllocError>
    ensures { IfOk result (λ text. text.items ≡ text_in encoding (option_map datum_of value.entry)) }
{
    match value {
        Some(Value::Text(bytes)) => utf8(alloc, encoding, bytes),
        _ => Ok(Vec::new(alloc)),
    }
}

/// The integer in a column; none is 0.
fn number_in(value: Option<Value<'_>>) -> i64
    ensures { result ≡ number_in (option_map datum_of value.entry) }
{
    match value {
        Some(Value::Int(number)) => number,
        _ => 0,
    }
}

impl Item {
    /// What a row says.
    pub(crate) fn of_row(
        alloc: Global,
        encoding: Encoding,
        values: &Record<'_>,
    ) -> Result<Item, AllocError>
        ensures { IfOk result (λ item. seen item ≡ item_of encoding values.now) }
    {
        Ok(Item {
            formed: is_formed(values),
            kind: text_in(alloc, encoding, values.column(0))?,
            name: text_in(alloc, encoding, values.column(1))?,
            table: text_in(alloc, encoding, values.column(2))?,
            root: number_in(values.column(3)),
            sql: sql_in(alloc, encoding, values.column(4))?,
        })
    }
}
