//! The indexes that SQLite creates for a table's keys.
ghost use Rattle.std.specs.Prelude.{◌≡◌, [], map, filter, IfOk};
ghost use Rattle.std.specs.List.{list_any, fold};
ghost use Rattle.schema_columns.specs.Keys.{keys_from};
ghost use Rattle.schema_index.specs.KeyColumns.{key_columns, same_columns};
ghost use Rattle.schema_index.specs.Automatic.{is_indexed, integer_column, with_index, automatic_indexes, index_name};

use crate::columns::{KeyColumn, are_same_columns, collate_of, key_columns};
use itoa::Buffer;
use schema_columns::{
    Column, Key, columns_of, integer_key, is_without_rowid, keys_of, primary_terms,
};
use schema_text::Clause;
use schema_tokens::Piece;
use std::alloc::{AllocError, Global};

fn is_indexed(integer: Option<usize>, key: &Key) -> bool
    ensures { result ≡ is_indexed integer key.now }
{
    !(key.primary && integer.is_some())
}

/// The column of a PRIMARY KEY of one INTEGER, under its own collation whatever the key states.
#[tactic(auto, unfolding(crate::specs::Automatic::integer_column))]
pub fn integer_column(
    alloc: Global,
    columns: &[Column],
    clauses: &[Clause],
    column: usize,
) -> Result<KeyColumn, AllocError>
    ensures { IfOk result (λ c. c ≡ integer_column columns.now clauses.now column) }
{
    let terms = primary_terms(alloc, clauses)?;
    let descends = match terms.get(0) {
        Some(term) => term.descends,
        None => false,
    };
    Ok(KeyColumn {
        column,
        collate: collate_of(columns, column),
        descends,
    })
}

/// Whether one of these indexes has the same columns.
#[tactic(auto, using(crate::proofs::IndexesMade::any_next))]
fn is_made(
    alloc: Global,
    text: &[u8],
    tokens: &[Piece],
    indexes: &[Vec<KeyColumn>],
    key: &[KeyColumn],
) -> Result<bool, AllocError>
    ensures { IfOk result (λ r.
        r ≡ list_any (same_columns text.now tokens.now key.now) (map (λ i. i.items) indexes.now)) }
{
    for index in indexes {
        if are_same_columns(alloc, text, tokens, key, index)? {
            return Ok(true);
        }
    }
    Ok(false)
}

/// These indexes and one more, unless one of them has the same columns.
#[tactic(auto, using(crate::proofs::IndexesMade::one_more), unfolding(crate::specs::Automatic::with_index))]
fn with_index(
    alloc: Global,
    text: &[u8],
    tokens: &[Piece],
    indexes: Vec<Vec<KeyColumn>>,
    key: Vec<KeyColumn>,
) -> Result<Vec<Vec<KeyColumn>>, AllocError>
    ensures { IfOk result (λ r.
        map (λ i. i.items) r.items ≡ with_index text.now tokens.now (map (λ i. i.items) indexes.items) key.items) }
{
    let mut all = indexes;
    if !is_made(alloc, text, tokens, &all, &key)? {
        all.push(key)?;
    }
    Ok(all)
}

/// The indexes of the keys that get one where the text has them.
#[tactic(auto, using(crate::proofs::IndexesMade::key_taken, crate::proofs::IndexesMade::key_left))]
fn indexes_in_order(
    alloc: Global,
    text: &[u8],
    tokens: &[Piece],
    clauses: &[Clause],
    columns: &[Column],
    integer: Option<usize>,
) -> Result<Vec<Vec<KeyColumn>>, AllocError>
    ensures { IfOk result (λ r. map (λ i. i.items) r.items ≡ fold (with_index text.now tokens.now) []
        (map (key_columns text.now tokens.now columns.now clauses.now)
        (filter (is_indexed integer) (keys_from 0 0 clauses.now)))) }
{
    let keys = keys_of(alloc, clauses)?;
    let mut all = Vec::new(alloc);
    for key in &keys {
        if is_indexed(integer, key) {
            let found = key_columns(alloc, text, tokens, columns, clauses, key)?;
            all = with_index(alloc, text, tokens, all, found)?;
        }
    }
    Ok(all)
}

/// The columns of the indexes that SQLite creates for a table's keys, in its order: for each UNIQUE, and for a PRIMARY
/// KEY that isn't the rowid's alias, unless an earlier one has the same columns under the same collations. In a table
/// WITHOUT ROWID one of them is the table itself. As in SQLite, the time is quadratic in the number of indexes.
#[tactic(auto, unfolding(crate::specs::Automatic::automatic_indexes, crate::specs::Automatic::indexed_keys))]
pub fn automatic_indexes(
    alloc: Global,
    text: &[u8],
    tokens: &[Piece],
    clauses: &[Clause],
) -> Result<Vec<Vec<KeyColumn>>, AllocError>
    ensures { IfOk result (λ r. map (λ i. i.items) r.items ≡ automatic_indexes text.now tokens.now clauses.now) }
{
    let columns = columns_of(alloc, clauses)?;
    let integer = integer_key(alloc, text, tokens, clauses)?;
    let all = indexes_in_order(alloc, text, tokens, clauses, &columns, integer)?;
    match integer {
        Some(column) if is_without_rowid(clauses) => {
            let key = integer_column(alloc, &columns, clauses, column)?;
            with_index(alloc, text, tokens, all, Vec::from_slice(alloc, &[key])?)
        }
        _ => Ok(all),
    }
}

/// The name of an automatic index of a table of this name. The first of a table has the number 1.
#[tactic(auto, unfolding(crate::specs::Automatic::index_name))]
pub fn index_name(alloc: Global, table: &[u8], number: usize) -> Result<Vec<u8>, AllocError>
    ensures { IfOk result (λ v. v.items ≡ index_name table.now number) }
{
    let mut buffer = Buffer::new();
    let mut name = Vec::from_slice(alloc, b"sqlite_autoindex_")?;
    name.extend_from_slice(table)?;
    name.extend_from_slice(b"_")?;
    name.extend_from_slice(buffer.format(number).as_bytes())?;
    Ok(name)
}
