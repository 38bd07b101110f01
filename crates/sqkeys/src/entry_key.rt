//! The columns of an index's entries where a key behind a rowid doesn't say them (SQLite's withoutrowid and
//! partialindex; fileformat2, 2.5).
ghost use Rattle.std.specs.Prelude.{◌≡◌, ◌⊎◌, ⊤, IfOk, MatchOption, map, position, true, false};
ghost use Rattle.std.specs.List.{AllZip, Contains};
ghost use Rattle.std.specs.Str.{str_eq_ignore_ascii_case};
ghost use Rattle.sqlite_ast.specs.declared.Keyed.{Keyed as SpecKeyed};
ghost use Rattle.sqkeys.specs.Constraints.{IsNoNumber};
ghost use Rattle.sqkeys.specs.Keys.{HasNoKey};
ghost use Rattle.sqkeys.specs.Keyed.{stored};
ghost use Rattle.sqkeys.specs.Entries.{IsStoredAs, IsNotStored, rising, columns_of, IsEntryOver, HasNoEntryOver};
ghost use Rattle.sqkeys.specs.Entries.{IsKeyedOver, HasNoKeyedOver, IsKeyedEntryOf, HasNoKeyedEntry};
ghost use Rattle.sqkeys.specs.Entries.{IsKeyedAutomatic, HasNoKeyedAutomatic};
ghost use Rattle.sqkeys.specs.Entries.{IsWithRowid, IsPartialOver, IsPartialOf, HasNoPartial};

use crate::automatic::index_numbered;
use crate::column::column_named;
use crate::key::{IndexKey, KeyColumn, key_over};
use crate::keyed::{add_columns, copies, default_for, primary_key, stored};
use crate::order::order_of;
use crate::text::{either_text, keyed_table, partial_text, rowid_table};
use sqlite_ast::{CreateIndex, CreateTable, Keyed, TableBody};
use sqlite_value::keys::Order;
use sqlite_value::value::Bytes;
use std::alloc::{AllocError, Global};

/// The columns of an index's entries.
#[derive(Debug, Drop)]
pub struct EntryKey {
    /// All of them, in their order: behind those of the index the rowid, or those of the primary key that it lacks.
    pub columns: Vec<KeyColumn>,
    /// How the entries are sorted by these.
    pub order: Order,
    /// How many columns the index has: the first ones.
    pub width: usize,
    /// Whether no two entries may have the same ones of these, none of them NULL.
    pub unique: bool,
    /// Whether some rows only have an entry, as those that a WHERE selects.
    pub partial: bool,
    /// Whether the table is one WITHOUT ROWID.
    pub without_rowid: bool,
}

/// The place of a column among those that a row stores.
fn place_in(names: &[Bytes], name: &[u8]) -> Option<usize>
    ensures { result ≡ position (λ other. str_eq_ignore_ascii_case other name.now) names.now }
{
    names
        .iter()
        .position(|other| other.as_slice().eq_ignore_ascii_case(name))
}

/// A column of an entry, where rows store the columns of these names.
fn stored_as(
    alloc: Global,
    body: &TableBody,
    key: &[Keyed],
    names: &[Bytes],
    keyed: &Keyed,
) -> Result<Option<KeyColumn>, AllocError>
    requires { names.now ≡ stored body.now key.now }
    ensures { IfOk result (λ found. MatchOption found (IsNotStored body.now key.now keyed.now.name)
        (IsStoredAs body.now key.now keyed.now.name)) }
{
    let name = keyed.name.as_slice();
    let Some(j) = column_named(body, name) else {
        return Ok(None);
    };
    let Some(at) = place_in(names, name) else {
        return Ok(None);
    };
    match default_for(alloc, body, key, name, j)? {
        Some(default) => Ok(Some(KeyColumn::Stored { at, default })),
        None => Ok(None),
    }
}

/// The columns of an entry.
fn all_stored_as(
    alloc: Global,
    body: &TableBody,
    key: &[Keyed],
    names: &[Bytes],
    columns: &[Keyed],
) -> Result<Option<Vec<KeyColumn>>, AllocError>
    requires { names.now ≡ stored body.now key.now }
    ensures { IfOk result (λ found. MatchOption found
        ((keyed : SpecKeyed) × Contains columns.now keyed × IsNotStored body.now key.now keyed.name)
        (λ all. AllZip (λ keyed column. IsStoredAs body.now key.now keyed.name column) columns.now all.items)) }
{
    let mut all = Vec::with_capacity(alloc, columns.len())?;
    for keyed in columns {
        match stored_as(alloc, body, key, names, keyed)? {
            Some(column) => all.push(column)?,
            None => return Ok(None),
        }
    }
    Ok(Some(all))
}

/// The entries of an index over columns of a table WITHOUT ROWID, whose primary key is this; behind them stand these.
fn entry_over(
    alloc: Global,
    body: &TableBody,
    format: u32,
    named: &[Keyed],
    key: &[Keyed],
    behind: &[Keyed],
) -> Result<Option<EntryKey>, AllocError>
    ensures key { IfOk result (λ found. MatchOption found (HasNoEntryOver body.now format named.now key.now behind.now)
        (IsEntryOver body.now format named.now key.now behind.now)) }
    ensures plain { IfOk result (λ found. MatchOption found ⊤
        (λ entry. (entry.unique ≡ true) × (entry.partial ≡ false))) }
{
    let mut columns = copies(alloc, named)?;
    add_columns(alloc, body, &mut columns, behind)?;
    let Some(order) = order_of(body, format, &columns) else {
        return Ok(None);
    };
    let names = stored(alloc, body, key)?;
    match all_stored_as(alloc, body, key, &names, &columns)? {
        Some(columns) => Ok(Some(EntryKey {
            columns,
            order,
            width: named.len(),
            unique: true,
            partial: false,
            without_rowid: true,
        })),
        None => Ok(None),
    }
}

/// The entries of an index over columns of a table WITHOUT ROWID.
fn keyed_over(
    alloc: Global,
    body: &TableBody,
    format: u32,
    named: &[Keyed],
) -> Result<Option<EntryKey>, AllocError>
    ensures { IfOk result (λ found. MatchOption found (HasNoKeyedOver body.now format named.now)
        (IsKeyedOver body.now format named.now)) }
{
    match primary_key(alloc, body)? {
        Some(key) => entry_over(alloc, body, format, named, &key, &key),
        None => Ok(None),
    }
}

/// Whether an index is one of this table.
fn is_of(made: &CreateTable, indexed: &CreateIndex) -> bool
    ensures { result ≡ str_eq_ignore_ascii_case indexed.now.table made.now.name }
{
    indexed
        .table
        .as_slice()
        .eq_ignore_ascii_case(made.name.as_slice())
}

/// The entries of an index that is one of this table WITHOUT ROWID.
fn keyed_between(
    alloc: Global,
    made: &CreateTable,
    indexed: &CreateIndex,
    partial: bool,
    format: u32,
) -> Result<Option<EntryKey>, AllocError>
    ensures { IfOk result (λ found. MatchOption found
        ((str_eq_ignore_ascii_case indexed.now.table made.now.name ≡ false)
        ⊎ HasNoKeyedOver made.now.body format indexed.now.columns)
        (λ entry. (str_eq_ignore_ascii_case indexed.now.table made.now.name ≡ true)
        × IsKeyedOver made.now.body format indexed.now.columns entry × (entry.unique ≡ indexed.now.is_unique)
        × (entry.partial ≡ partial))) }
{
    if !is_of(made, indexed) {
        return Ok(None);
    }
    match keyed_over(alloc, &made.body, format, indexed.columns.as_slice())? {
        Some(entry) => Ok(Some(EntryKey {
            unique: indexed.is_unique,
            partial,
            ..entry
        })),
        None => Ok(None),
    }
}

/// The columns of the entries of an index of a table WITHOUT ROWID, from the texts of both, in UTF-8, and the number of
/// the schema's format in the header (fileformat2, 1.3.8). None where these aren't understood. It takes memory for some
/// hundred times their bytes.
pub fn keyed_entry_of(
    alloc: Global,
    table: &[u8],
    index: &[u8],
    schema_format: u32,
) -> Result<Option<EntryKey>, AllocError>
    // The index has such entries; or it is said why none are known.
    ensures { IfOk result (λ found. MatchOption found (HasNoKeyedEntry table.now index.now schema_format)
        (IsKeyedEntryOf table.now index.now schema_format)) }
{
    let Some(made) = keyed_table(alloc, table)? else {
        return Ok(None);
    };
    let Some(read) = either_text(alloc, index)? else {
        return Ok(None);
    };
    keyed_between(alloc, &made, &read.1, read.0, schema_format)
}

/// Columns of a key, sorted upwards.
fn all_rising(alloc: Global, key: &[Keyed]) -> Result<Vec<Keyed>, AllocError>
    ensures { IfOk result (λ all. all.items ≡ map rising key.now) }
{
    let mut all = Vec::new(alloc);
    for keyed in key {
        all.push(Keyed {
            name: Bytes::from_slice(alloc, keyed.name.as_slice())?,
            collation: keyed.collation,
            descending: false,
        })?;
    }
    Ok(all)
}

/// The columns of the entries of the index that a constraint of a table WITHOUT ROWID made, which has no text: that of
/// this number, from 1, behind the last `_` of its name. From the table's text, in UTF-8, and the number of the
/// schema's format in the header. None where the text isn't understood, or has no such constraint. It takes memory for
/// some hundred times the text's bytes.
pub fn keyed_automatic_of(
    alloc: Global,
    table: &[u8],
    number: u32,
    schema_format: u32,
) -> Result<Option<EntryKey>, AllocError>
    // The index has such entries; or it is said why none are known.
    ensures { IfOk result (λ found. MatchOption found (HasNoKeyedAutomatic table.now number schema_format)
        (IsKeyedAutomatic table.now number schema_format)) }
{
    let Some(made) = keyed_table(alloc, table)? else {
        return Ok(None);
    };
    let Some(named) = index_numbered(alloc, &made.body, number)? else {
        return Ok(None);
    };
    let Some(key) = primary_key(alloc, &made.body)? else {
        return Ok(None);
    };
    let behind = all_rising(alloc, &key)?;
    entry_over(alloc, &made.body, schema_format, named, &key, &behind)
}

/// The entries behind whose columns, those of this key, stands the rowid, of some rows.
fn with_rowid(index: IndexKey) -> Result<EntryKey, AllocError>
    ensures { IfOk result (λ entry. IsWithRowid index entry × (entry.unique ≡ index.unique)
        × (entry.partial ≡ true)) }
{
    let width = index.columns.len();
    let order = index.order;
    let unique = index.unique;
    let mut columns = index.columns;
    columns.push(KeyColumn::Rowid)?;
    Ok(EntryKey {
        columns,
        order,
        width,
        unique,
        partial: true,
        without_rowid: false,
    })
}

/// The entries of a partial index over columns of a table with rowids.
fn partial_over(
    alloc: Global,
    body: &TableBody,
    format: u32,
    indexed: &CreateIndex,
) -> Result<Option<EntryKey>, AllocError>
    ensures key { IfOk result (λ found. MatchOption found (HasNoKey body.now format indexed.now.columns)
        (IsPartialOver body.now format indexed.now.columns)) }
    ensures of { IfOk result (λ found. MatchOption found ⊤
        (λ entry. (entry.unique ≡ indexed.now.is_unique) × (entry.partial ≡ true))) }
{
    let named = indexed.columns.as_slice();
    match key_over(alloc, body, format, named, indexed.is_unique)? {
        Some(index) => {
            let entry = with_rowid(index)?;
            Ok(Some(entry))
        }
        None => Ok(None),
    }
}

/// The columns of the entries of a partial index of a table with rowids, from the texts of both, in UTF-8, and the
/// number of the schema's format in the header (fileformat2, 1.3.8). None where these aren't understood. It takes
/// memory for some hundred times their bytes.
pub fn partial_of(
    alloc: Global,
    table: &[u8],
    index: &[u8],
    schema_format: u32,
) -> Result<Option<EntryKey>, AllocError>
    // The index has such entries; or it is said why none are known.
    ensures { IfOk result (λ found. MatchOption found (HasNoPartial table.now index.now schema_format)
        (IsPartialOf table.now index.now schema_format)) }
{
    let Some(made) = rowid_table(alloc, table)? else {
        return Ok(None);
    };
    let Some(indexed) = partial_text(alloc, index)? else {
        return Ok(None);
    };
    if !is_of(&made, &indexed) {
        return Ok(None);
    }
    partial_over(alloc, &made.body, schema_format, &indexed)
}
