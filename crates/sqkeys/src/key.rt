//! The key of an index.
ghost use Rattle.std.specs.Prelude.{◌≡◌, ◌⊎◌, ⊤, true, false, IfOk, MatchOption};
ghost use Rattle.std.specs.Str.{str_eq_ignore_ascii_case};
ghost use Rattle.sqkeys.specs.Keys.{IsKeyOver, HasNoKey, IsKeyOf, AreUnclear, IsNotUnderstood};

use crate::column::key_columns;
use crate::order::order_of;
use crate::text::{index_text, rowid_table};
use sqlite_ast::{CreateIndex, CreateTable, Keyed, TableBody};
use sqlite_value::keys::Order;
use sqlite_value::value::Value;
use std::alloc::{AllocError, Global};

/// A column of a key.
#[derive(Debug, Drop)]
pub enum KeyColumn {
    /// Another name for the rowid.
    Rowid,
    /// One that rows store.
    Stored {
        /// Its place among the columns that rows store, from 0.
        at: usize,
        /// What stands for it in a row that doesn't store it. A text is in UTF-8.
        default: Value,
    },
}

/// The key of an index.
#[derive(Debug, Drop)]
pub struct IndexKey {
    /// Its columns, in their order.
    pub columns: Vec<KeyColumn>,
    /// How these are sorted, and behind them the rowid, which rises.
    pub order: Order,
    /// Whether no two rows may have the same key.
    pub unique: bool,
}

/// The key over columns of a table.
pub(crate) fn key_over(
    alloc: Global,
    body: &TableBody,
    format: u32,
    named: &[Keyed],
    unique: bool,
) -> Result<Option<IndexKey>, AllocError>
    ensures key { IfOk result (λ found. MatchOption found (HasNoKey body.now format named.now)
        (IsKeyOver body.now format named.now)) }
    ensures unique { IfOk result (λ found. MatchOption found ⊤ (λ key. key.unique ≡ unique)) }
{
    let Some(order) = order_of(body, format, named) else {
        return Ok(None);
    };
    match key_columns(alloc, body, named)? {
        Some(columns) => Ok(Some(IndexKey {
            columns,
            order,
            unique,
        })),
        None => Ok(None),
    }
}

/// The key of an index that is one of this table.
fn key_between(
    alloc: Global,
    made: &CreateTable,
    indexed: &CreateIndex,
    format: u32,
) -> Result<Option<IndexKey>, AllocError>
    ensures { IfOk result (λ found. MatchOption found
        ((str_eq_ignore_ascii_case indexed.now.table made.now.name ≡ false)
        ⊎ HasNoKey made.now.body format indexed.now.columns)
        (λ key. (str_eq_ignore_ascii_case indexed.now.table made.now.name ≡ true)
        × IsKeyOver made.now.body format indexed.now.columns key × (key.unique ≡ indexed.now.is_unique))) }
{
    if !indexed
        .table
        .as_slice()
        .eq_ignore_ascii_case(made.name.as_slice())
    {
        return Ok(None);
    }
    key_over(
        alloc,
        &made.body,
        format,
        indexed.columns.as_slice(),
        indexed.is_unique,
    )
}

/// The key of an index, from the texts of its table and its own, in UTF-8, and the number of the schema's format in the
/// header (fileformat2, 1.3.8). None where these aren't understood. It takes memory for some hundred times their bytes.
pub fn key_of(
    alloc: Global,
    table: &[u8],
    index: &[u8],
    schema_format: u32,
) -> Result<Option<IndexKey>, AllocError>
    // The index has this key; or it is said why none is known.
    ensures { IfOk result (λ found. MatchOption found (IsNotUnderstood table.now index.now schema_format)
        (IsKeyOf table.now index.now schema_format)) }
{
    let Some(made) = rowid_table(alloc, table)? else {
        return Ok(None);
    };
    let Some(indexed) = index_text(alloc, index)? else {
        return Ok(None);
    };
    key_between(alloc, &made, &indexed, schema_format)
}
