//! How a table WITHOUT ROWID stores its rows (SQLite's withoutrowid; fileformat2, 2.4).
ghost use Rattle.std.specs.Prelude.{◌≡◌, ◌⊎◌, ◌≤◌, ◌^◌, ◌||◌, ◌++◌, ◌∷◌, [], ℕ, List, Some, None};
ghost use Rattle.std.specs.Prelude.{IfOk, OnOk, MatchOption, map, fold, not, slice_get};
ghost use Rattle.std.specs.List.{AllZip, Contains, filter, list_any};
ghost use Rattle.sqkeys.specs.Accepted.{accepts_at};
ghost use Rattle.sqdefaults.specs.Defaults.{last_said};
ghost use Rattle.sqkeys.specs.Columns.{column_named};
ghost use Rattle.sqkeys.specs.Constraints.{is_like};
ghost use Rattle.sqkeys.specs.Keys.{key_for, order_of};
ghost use Rattle.sqtables.specs.Keys.{primary_in};
ghost use Rattle.sqkeys.specs.Keyed.{with_column, with_columns_of, IsPrimaryOf, stored, default_for};
ghost use Rattle.sqkeys.specs.Keyed.{IsStoredRule, HasNoRule, IsRowKeyIn, IsUnclearKeyed, IsRowKeyOf, HasNoRowKey};
ghost use Rattle.sqkeys.specs.RowRules.{has_column};

use crate::accepts::accepts_at;
use crate::automatic::is_like;
use crate::column::column_named;
use crate::default::default_at;
use crate::order::order_of;
use crate::row_rules::{ColumnRule, has_column, is_not_null};
use crate::text::keyed_table;
use sqlite_ast::{CreateTable, Keyed, TableBody};
use sqlite_value::keys::Order;
use sqlite_value::value::{Bytes, Value};
use sqtables::primary_of;
use std::alloc::{AllocError, Global};

/// How a table WITHOUT ROWID stores its rows.
#[derive(Debug, Drop)]
pub struct RowKey {
    /// How many columns the primary key has, each once: the first ones that a row stores.
    pub width: usize,
    /// How the rows are sorted by these.
    pub order: Order,
    /// What the columns keep to, in the order in which rows store them.
    pub rules: Vec<ColumnRule>,
}

/// A copy of a column of a key.
fn copy_of(alloc: Global, keyed: &Keyed) -> Result<Keyed, AllocError>
    ensures { IfOk result (λ copy. copy ≡ keyed.now) }
{
    Ok(Keyed {
        name: Bytes::from_slice(alloc, keyed.name.as_slice())?,
        collation: keyed.collation,
        descending: keyed.descending,
    })
}

/// Copies of columns of a key.
pub(crate) fn copies(alloc: Global, named: &[Keyed]) -> Result<Vec<Keyed>, AllocError>
    ensures { IfOk result (λ all. all.items ≡ named.now) }
{
    let mut all = Vec::new(alloc);
    for keyed in named {
        let copy = copy_of(alloc, keyed)?;
        all.push(copy)?;
    }
    Ok(all)
}

/// Whether a column stands among these, by the same collation.
fn has_like(body: &TableBody, keyed: &Keyed, before: &[Keyed]) -> bool
    ensures { result ≡ list_any (is_like body.now keyed.now) before.now }
{
    before.iter().any(|other| is_like(body, keyed, other))
}

/// Adds a column, unless it stands there.
fn add_column(
    alloc: Global,
    body: &TableBody,
    before: &mut Vec<Keyed>,
    keyed: &Keyed,
) -> Result<(), AllocError>
    ensures { OnOk result (before.new.items ≡ with_column body.now before.old.items keyed.now) }
{
    if has_like(body, keyed, before.as_slice()) {
        return Ok(());
    }
    let copy = copy_of(alloc, keyed)?;
    before.push(copy)?;
    Ok(())
}

/// Adds those of the other columns that don't stand there.
pub(crate) fn add_columns(
    alloc: Global,
    body: &TableBody,
    before: &mut Vec<Keyed>,
    others: &[Keyed],
) -> Result<(), AllocError>
    ensures { OnOk result (before.new.items ≡ with_columns_of body.now before.old.items others.now) }
{
    for keyed in others {
        add_column(alloc, body, before, keyed)?;
    }
    Ok(())
}

/// The columns of the primary key, each once. None where the table has none.
pub(crate) fn primary_key(alloc: Global, body: &TableBody) -> Result<Option<Vec<Keyed>>, AllocError>
    ensures { IfOk result (λ found. MatchOption found (last_said primary_in body.now.rules ≡ None)
        (λ key. IsPrimaryOf body.now key.items)) }
{
    let Some(named) = primary_of(body.rules.as_slice()) else {
        return Ok(None);
    };
    let mut key = Vec::new(alloc);
    add_columns(alloc, body, &mut key, named)?;
    Ok(Some(key))
}

/// The names of the columns of a key.
fn key_names(alloc: Global, key: &[Keyed]) -> Result<Vec<Bytes>, AllocError>
    ensures { IfOk result (λ names. names.items ≡ map (λ keyed. keyed.name) key.now) }
{
    let mut names = Vec::new(alloc);
    for keyed in key {
        let name = Bytes::from_slice(alloc, keyed.name.as_slice())?;
        names.push(name)?;
    }
    Ok(names)
}

/// Adds the name of a column that isn't one of the key.
fn add_name(
    alloc: Global,
    key: &[Keyed],
    names: &mut Vec<Bytes>,
    name: &[u8],
) -> Result<(), AllocError>
    ensures { OnOk result (names.new.items
        ≡ names.old.items ++ filter (λ name. not (has_column key.now name)) (name.now ∷ [])) }
{
    if has_column(key, name) {
        return Ok(());
    }
    let copy = Bytes::from_slice(alloc, name)?;
    names.push(copy)?;
    Ok(())
}

/// The names of the columns that a row stores, in their order.
pub(crate) fn stored(
    alloc: Global,
    body: &TableBody,
    key: &[Keyed],
) -> Result<Vec<Bytes>, AllocError>
    ensures { IfOk result (λ names. names.items ≡ stored body.now key.now) }
{
    let mut names = key_names(alloc, key)?;
    for column in body.columns.as_slice() {
        add_name(alloc, key, &mut names, column.0.as_slice())?;
    }
    Ok(names)
}

/// What stands for column `j`, of this name, in a row that doesn't store it.
pub(crate) fn default_for(
    alloc: Global,
    body: &TableBody,
    key: &[Keyed],
    name: &[u8],
    j: usize,
) -> Result<Option<Value>, AllocError>
    ensures { IfOk result (λ found. found ≡ default_for body.now key.now name.now j) }
{
    if has_column(key, name) {
        Ok(Some(Value::Null))
    } else {
        Ok(default_at(alloc, body, j)?)
    }
}

/// What the column of this name keeps to.
fn stored_rule(
    alloc: Global,
    made: &CreateTable,
    key: &[Keyed],
    name: &Bytes,
) -> Result<Option<ColumnRule>, AllocError>
    ensures { IfOk result (λ found. MatchOption found (HasNoRule made.now name.now)
        (IsStoredRule made.now key.now name.now)) }
{
    let name = name.as_slice();
    let Some(j) = column_named(&made.body, name) else {
        return Ok(None);
    };
    let Some(accepts) = accepts_at(made, j) else {
        return Ok(None);
    };
    let default = default_for(alloc, &made.body, key, name, j)?;
    let not_null = has_column(key, name) || is_not_null(made, name);
    Ok(Some(ColumnRule {
        not_null,
        accepts,
        default,
    }))
}

/// What the columns of these names keep to.
fn stored_rules(
    alloc: Global,
    made: &CreateTable,
    key: &[Keyed],
    names: &[Bytes],
) -> Result<Option<Vec<ColumnRule>>, AllocError>
    ensures { IfOk result (λ found. MatchOption found
        ((name : List ℕ) × Contains names.now name × HasNoRule made.now name)
        (λ rules. AllZip (IsStoredRule made.now key.now) names.now rules.items)) }
{
    let mut rules = Vec::with_capacity(alloc, names.len())?;
    for name in names {
        match stored_rule(alloc, made, key, name)? {
            Some(rule) => rules.push(rule)?,
            None => return Ok(None),
        }
    }
    Ok(Some(rules))
}

/// How a table with this primary key stores its rows.
fn row_key_in(alloc: Global, made: &CreateTable, format: u32) -> Result<Option<RowKey>, AllocError>
    ensures { IfOk result (λ found. MatchOption found (IsUnclearKeyed made.now format) (IsRowKeyIn made.now format)) }
{
    let Some(key) = primary_key(alloc, &made.body)? else {
        return Ok(None);
    };
    let Some(order) = order_of(&made.body, format, &key) else {
        return Ok(None);
    };
    let names = stored(alloc, &made.body, &key)?;
    let Some(rules) = stored_rules(alloc, made, &key, &names)? else {
        return Ok(None);
    };
    Ok(Some(RowKey {
        width: key.len(),
        order,
        rules,
    }))
}

/// How a table WITHOUT ROWID stores its rows, from its text, in UTF-8, and the number of the schema's format in the
/// header (fileformat2, 1.3.8). None where the text isn't understood, or makes a table with rowids. It takes memory
/// for some hundred times the text's bytes.
pub fn row_key_of(
    alloc: Global,
    table: &[u8],
    schema_format: u32,
) -> Result<Option<RowKey>, AllocError>
    // It stores them so; or it is said why that isn't known.
    ensures { IfOk result (λ found. MatchOption found (HasNoRowKey table.now schema_format)
        (IsRowKeyOf table.now schema_format)) }
{
    match keyed_table(alloc, table)? {
        Some(made) => row_key_in(alloc, &made, schema_format),
        None => Ok(None),
    }
}
