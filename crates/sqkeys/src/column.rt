//! The columns of a key.
ghost use Rattle.std.specs.Prelude.{◌≡◌, ⊤, true, false, Some, IfOk, MatchOption, slice_get, option_copied};
ghost use Rattle.std.specs.Prelude.{◌<◌, ℕ, length};
ghost use Rattle.std.specs.List.{AllZip};
ghost use Rattle.std.specs.List.{Contains};
ghost use Rattle.sqlite_ast.specs.declared.Keyed.{Keyed as SpecKeyed};
ghost use Rattle.sqtables.specs.Texts.{lone_key, key_by, is_key_column, IsAliasBy, IsAlias};
ghost use Rattle.sqkeys.specs.Columns.{column_named, IsFoundAs, IsKeyColumn, IsUnclear, default_at};

use crate::default::default_at;
use crate::key::KeyColumn;
use sqlite_ast::{Keyed, Rule, TableBody};
use sqtables::is_integer;
use std::alloc::{AllocError, Global};

/// The first column of this name.
pub(crate) fn column_named(body: &TableBody, name: &[u8]) -> Option<usize>
    ensures { result ≡ column_named body.now name.now }
{
    let columns = body.columns.as_slice();
    columns
        .iter()
        .position(|column| column.0.as_slice().eq_ignore_ascii_case(name))
}

/// The lone column of a primary key.
fn lone_key_of(rule: &Rule) -> Option<&Keyed>
    ensures { option_copied result ≡ lone_key rule.now }
{
    match rule {
        Rule::PrimaryKey(keys) | Rule::CountedKey(keys) => match keys.as_slice() {
            [key] => Some(key),
            _ => None,
        },
        _ => None,
    }
}

/// The lone column of the primary key that rule `k` states.
fn key_at(body: &TableBody, k: usize) -> Option<&Keyed>
    ensures { option_copied result ≡ key_by (slice_get body.now.rules k) }
{
    match body.rules.get(k) {
        Some(rule) => lone_key_of(rule),
        None => None,
    }
}

/// Whether column `j` has this name, and its type is written INTEGER.
fn is_integer_at(body: &TableBody, j: usize, name: &[u8]) -> bool
    ensures { result ≡ is_key_column (slice_get body.now.columns j) name.now }
{
    match body.columns.get(j) {
        Some(column) => is_integer(column, name),
        None => false,
    }
}

/// Whether rule `k` makes column `j` another name for the rowid.
fn is_alias_by(body: &TableBody, k: usize, j: usize) -> bool
    ensures yes { result ≡ true → IsAliasBy body.now k j }
    ensures not { result ≡ false → ¬ IsAliasBy body.now k j }
{
    match key_at(body, k) {
        Some(key) => is_integer_at(body, j, key.name.as_slice()),
        None => false,
    }
}

/// Whether column `j` is another name for the rowid.
pub(crate) fn is_alias(body: &TableBody, j: usize) -> bool
    ensures yes { result ≡ true → IsAlias body.now j }
    ensures not { result ≡ false → ¬ IsAlias body.now j }
{
    for k in 0..body.rules.len() {
        if is_alias_by(body, k, j) {
            return true;
        }
    }
    false
}

/// How column `j` is found in the rows. None where what stands for it isn't known.
fn found_as(alloc: Global, body: &TableBody, j: usize) -> Result<Option<KeyColumn>, AllocError>
    ensures { IfOk result (λ found. MatchOption found ((¬ IsAlias body.now j) × (default_at body.now j ≡ None))
        (IsFoundAs body.now j)) }
{
    if is_alias(body, j) {
        return Ok(Some(KeyColumn::Rowid));
    }
    match default_at(alloc, body, j)? {
        Some(default) => Ok(Some(KeyColumn::Stored { at: j, default })),
        None => Ok(None),
    }
}

/// The column of a key that is named so.
fn key_column(
    alloc: Global,
    body: &TableBody,
    keyed: &Keyed,
) -> Result<Option<KeyColumn>, AllocError>
    ensures { IfOk result (λ found. MatchOption found (IsUnclear body.now keyed.now) (IsKeyColumn body.now keyed.now)) }
{
    match column_named(body, keyed.name.as_slice()) {
        Some(j) => found_as(alloc, body, j),
        None => Ok(None),
    }
}

/// The columns of a key, in their order. None where one of them is unclear.
pub(crate) fn key_columns(
    alloc: Global,
    body: &TableBody,
    named: &[Keyed],
) -> Result<Option<Vec<KeyColumn>>, AllocError>
    ensures { IfOk result (λ found. MatchOption found
        ((keyed : SpecKeyed) × Contains named.now keyed × IsUnclear body.now keyed)
        (λ columns. AllZip (IsKeyColumn body.now) named.now columns.items)) }
{
    let mut columns = Vec::with_capacity(alloc, named.len())?;
    for keyed in named {
        match key_column(alloc, body, keyed)? {
            Some(column) => columns.push(column)?,
            None => return Ok(None),
        }
    }
    Ok(Some(columns))
}
