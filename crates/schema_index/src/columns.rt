//! The columns of a table's keys.
ghost use Rattle.std.specs.Prelude.{◌≡◌, drop, map, IfOk};
ghost use Rattle.schema_index.specs.KeyColumns.{collation_name, column_at, collate_of, term_column, own_descends};
ghost use Rattle.schema_index.specs.KeyColumns.{own_column, key_columns, same_column, same_columns};

use schema_columns::{Column, Key, Term, name_at, terms_of};
use schema_text::{Clause, is_word, later};
use schema_tokens::{Piece, is_same_word};
use std::alloc::{AllocError, Global};

/// A column of a key.
#[derive(Clone, Copy, Debug, PartialEq, Eq)]
pub struct KeyColumn {
    /// Which column of the table; the number of its columns, if none has the name (SQLite refuses such a text).
    pub column: usize,
    /// The COLLATE that gives its collation; it is BINARY without one.
    pub collate: Option<Clause>,
    /// Its order is DESC.
    pub descends: bool,
}

/// The name of the collation that a COLLATE gives; BINARY without one.
#[tactic(auto, unfolding(crate::specs::KeyColumns::collation_name))]
pub fn collation_name(
    alloc: Global,
    text: &[u8],
    tokens: &[Piece],
    collate: Option<Clause>,
) -> Result<Vec<u8>, AllocError>
    ensures { IfOk result (λ v. v.items ≡ collation_name text.now tokens.now collate) }
{
    match collate {
        Some(clause) => name_at(alloc, text, later(tokens, clause.from), 1),
        None => Vec::from_slice(alloc, b"BINARY"),
    }
}

/// The first column that has the name at a token; the number of columns, if none has it.
#[tactic(auto, unfolding(crate::specs::KeyColumns::column_at))]
fn column_at(
    alloc: Global,
    text: &[u8],
    tokens: &[Piece],
    columns: &[Column],
    name: usize,
) -> Result<usize, AllocError>
    ensures { IfOk result (λ n. n ≡ column_at text.now tokens.now columns.now name) }
{
    let wanted = name_at(alloc, text, tokens, name)?;
    for (i, column) in columns.iter().enumerate() {
        if is_same_word(&wanted, &name_at(alloc, text, tokens, column.name)?) {
            return Ok(i);
        }
    }
    Ok(columns.len())
}

/// A column's COLLATE.
#[tactic(auto, unfolding(crate::specs::KeyColumns::collate_of))]
pub fn collate_of(columns: &[Column], at: usize) -> Option<Clause>
    ensures { result ≡ collate_of columns.now at }
{
    match columns.get(at) {
        Some(column) => column.collate,
        None => None,
    }
}

#[tactic(auto, unfolding(crate::specs::KeyColumns::term_column))]
fn term_column(
    alloc: Global,
    text: &[u8],
    tokens: &[Piece],
    columns: &[Column],
    term: &Term,
) -> Result<KeyColumn, AllocError>
    ensures { IfOk result (λ c. c ≡ term_column text.now tokens.now columns.now term.now) }
{
    let column = column_at(alloc, text, tokens, columns, term.name)?;
    Ok(KeyColumn {
        column,
        collate: term.collate.or(collate_of(columns, column)),
        descends: term.descends,
    })
}

#[tactic(auto, unfolding(crate::specs::KeyColumns::own_descends))]
fn own_descends(text: &[u8], tokens: &[Piece], clauses: &[Clause], key: &Key) -> bool
    ensures { result ≡ own_descends text.now tokens.now clauses.now key.now }
{
    match clauses.get(key.clause) {
        Some(clause) => key.primary && is_word(text, later(tokens, clause.from), 2, b"DESC"),
        None => false,
    }
}

#[tactic(auto, unfolding(crate::specs::KeyColumns::own_column))]
fn own_column(
    text: &[u8],
    tokens: &[Piece],
    columns: &[Column],
    clauses: &[Clause],
    key: &Key,
) -> KeyColumn
    ensures { result ≡ own_column text.now tokens.now columns.now clauses.now key.now }
{
    let column = key.columns.saturating_sub(1);
    KeyColumn {
        column,
        collate: collate_of(columns, column),
        descends: own_descends(text, tokens, clauses, key),
    }
}

fn later_clauses(clauses: &[Clause], from: usize) -> &[Clause]
    ensures { result.now ≡ drop from clauses.now }
{
    if from <= clauses.len() {
        &clauses[from..]
    } else {
        &[]
    }
}

fn term_columns(
    alloc: Global,
    text: &[u8],
    tokens: &[Piece],
    columns: &[Column],
    terms: &[Term],
) -> Result<Vec<KeyColumn>, AllocError>
    ensures { IfOk result (λ v. v.items ≡ map (term_column text.now tokens.now columns.now) terms.now) }
{
    let mut found = Vec::with_capacity(alloc, terms.len())?;
    for term in terms {
        found.push(term_column(alloc, text, tokens, columns, term)?)?;
    }
    Ok(found)
}

/// The columns of a key of a table with these columns and clauses, in order.
#[tactic(auto, unfolding(crate::specs::KeyColumns::key_columns))]
pub fn key_columns(
    alloc: Global,
    text: &[u8],
    tokens: &[Piece],
    columns: &[Column],
    clauses: &[Clause],
    key: &Key,
) -> Result<Vec<KeyColumn>, AllocError>
    ensures { IfOk result (λ v. v.items ≡ key_columns text.now tokens.now columns.now clauses.now key.now) }
{
    if key.own {
        let column = own_column(text, tokens, columns, clauses, key);
        return Vec::from_slice(alloc, &[column]);
    }
    let terms = terms_of(alloc, later_clauses(later_clauses(clauses, key.clause), 1))?;
    term_columns(alloc, text, tokens, columns, &terms)
}

#[tactic(auto, unfolding(crate::specs::KeyColumns::same_column))]
fn is_same_column(
    alloc: Global,
    text: &[u8],
    tokens: &[Piece],
    a: &KeyColumn,
    b: &KeyColumn,
) -> Result<bool, AllocError>
    ensures { IfOk result (λ r. r ≡ same_column text.now tokens.now a.now b.now) }
{
    if a.column != b.column {
        return Ok(false);
    }
    let first = collation_name(alloc, text, tokens, a.collate)?;
    let second = collation_name(alloc, text, tokens, b.collate)?;
    Ok(is_same_word(&first, &second))
}

/// Whether two keys have the same columns under the same collations.
#[tactic(auto, using(crate::proofs::SameColumns::other_length, crate::proofs::SameColumns::next_both))]
pub fn are_same_columns(
    alloc: Global,
    text: &[u8],
    tokens: &[Piece],
    a: &[KeyColumn],
    b: &[KeyColumn],
) -> Result<bool, AllocError>
    ensures { IfOk result (λ r. r ≡ same_columns text.now tokens.now a.now b.now) }
{
    if a.len() != b.len() {
        return Ok(false);
    }
    for i in 0..a.len() {
        if !is_same_column(alloc, text, tokens, &a[i], &b[i])? {
            return Ok(false);
        }
    }
    Ok(true)
}
