//! The keys of a table.
ghost use Rattle.std.specs.Prelude.{◌≡◌, ◌≤◌, ◌+◌, ℕ, length, drop, not, slice_get, false, [], IfOk};
ghost use Rattle.std.specs.List.{list_any, prefix_len, position_or_len};
ghost use Rattle.std.specs.Option.{option_map_or};
ghost use Rattle.schema_tokens.specs.Keywords.{is_same_word};
ghost use Rattle.schema_columns.specs.Keys.{is_term_rule, is_descending_rule, is_key_end_rule, is_term_end_rule};
ghost use Rattle.schema_columns.specs.Keys.{is_primary_rule, is_own_rule, is_table_key_rule, own_of_term, term_of};
ghost use Rattle.schema_columns.specs.Keys.{all_terms, terms_of, keys_from, primary_terms, name_at, is_integer};
ghost use Rattle.schema_columns.specs.Keys.{is_own_key, is_only_term, may_be_rowid};
ghost use Rattle.schema_columns.specs.Keys.{integer_key, rowid_of};

use crate::columns::{Column, Wanted, columns_of, is_without_rowid, last_of, written_type};
use crate::types::{without_generated, without_quotes};
use schema_print::{bytes_of, name_of};
use schema_text::{Clause, Rule, is_word, later};
use schema_tokens::{Piece, is_same_word};
use std::alloc::{AllocError, Global};

/// A column of a key, as its text has it.
#[derive(Clone, Copy, Debug, PartialEq, Eq)]
pub struct Term {
    /// Which token is the column's name.
    pub name: usize,
    /// Its last COLLATE.
    pub collate: Option<Clause>,
    /// It has DESC.
    pub descends: bool,
}

/// A PRIMARY KEY or UNIQUE.
#[derive(Clone, Copy, Debug, PartialEq, Eq)]
pub struct Key {
    /// It is a PRIMARY KEY.
    pub primary: bool,
    /// It is part of a column's definition.
    pub own: bool,
    /// How many columns are before it. The last of them is the key's, if it is part of a column's definition.
    pub columns: usize,
    /// Which clause it is. Otherwise its terms are in the clauses after that.
    pub clause: usize,
}

fn is_primary(rule: Rule) -> bool
    ensures { result ≡ is_primary_rule rule }
{
    matches!(rule, Rule::PrimaryKey | Rule::TablePrimaryKey)
}

fn is_own(rule: Rule) -> bool
    ensures { result ≡ is_own_rule rule }
{
    matches!(rule, Rule::PrimaryKey | Rule::Unique)
}

fn is_table_key(rule: Rule) -> bool
    ensures { result ≡ is_table_key_rule rule }
{
    matches!(rule, Rule::TablePrimaryKey | Rule::TableUnique)
}

fn before_term_end(clauses: &[Clause]) -> usize
    ensures value { result ≡ prefix_len (λ c. not (is_term_end_rule c.rule)) clauses.now }
    ensures within { result ≤ length clauses.now }
{
    clauses
        .iter()
        .take_while(|c| !matches!(c.rule, Rule::TermComma | Rule::KeyEnd))
        .count()
}

#[tactic(auto, unfolding(crate::specs::Keys::own_of_term))]
fn own_of_term(clauses: &[Clause]) -> &[Clause]
    ensures { result.now ≡ own_of_term clauses.now }
{
    &clauses[..before_term_end(clauses)]
}

fn says_descending(own: &[Clause]) -> bool
    ensures { result ≡ list_any (λ c. is_descending_rule c.rule) own.now }
{
    own.iter().any(|c| matches!(c.rule, Rule::TermDescends))
}

#[tactic(auto, unfolding(crate::specs::Keys::term_of))]
fn term_of(name: &Clause, own: &[Clause]) -> Term
    ensures { result ≡ term_of name.now own.now }
{
    Term {
        name: name.from,
        collate: last_of(Wanted::TermCollate, own),
        descends: says_descending(own),
    }
}

fn all_terms(alloc: Global, clauses: &[Clause]) -> Result<Vec<Term>, AllocError>
    ensures { IfOk result (λ v. v.items ≡ all_terms clauses.now) }
{
    let mut terms = Vec::new(alloc);
    for (i, clause) in clauses.iter().enumerate() {
        if matches!(clause.rule, Rule::Term) {
            terms.push(term_of(clause, own_of_term(&clauses[i + 1..])))?;
        }
    }
    Ok(terms)
}

fn before_key_end(clauses: &[Clause]) -> usize
    ensures value { result ≡ prefix_len (λ c. not (is_key_end_rule c.rule)) clauses.now }
    ensures within { result ≤ length clauses.now }
{
    clauses
        .iter()
        .take_while(|c| !matches!(c.rule, Rule::KeyEnd))
        .count()
}

/// The terms of the key whose first clause is before these.
#[tactic(auto, unfolding(crate::specs::Keys::terms_of))]
pub fn terms_of(alloc: Global, clauses: &[Clause]) -> Result<Vec<Term>, AllocError>
    ensures { IfOk result (λ v. v.items ≡ terms_of clauses.now) }
{
    all_terms(alloc, &clauses[..before_key_end(clauses)])
}

/// The keys of a table with these clauses, in order.
pub fn keys_of(alloc: Global, clauses: &[Clause]) -> Result<Vec<Key>, AllocError>
    ensures { IfOk result (λ v. v.items ≡ keys_from 0 0 clauses.now) }
{
    let mut keys = Vec::new(alloc);
    let mut columns = 0usize;
    for (i, clause) in clauses.iter().enumerate() {
        if matches!(clause.rule, Rule::Column) {
            columns += 1;
        } else if is_own(clause.rule) || is_table_key(clause.rule) {
            keys.push(Key {
                primary: is_primary(clause.rule),
                own: is_own(clause.rule),
                columns,
                clause: i,
            })?;
        }
    }
    Ok(keys)
}

/// The terms of the table's first PRIMARY KEY that isn't in a column.
pub fn primary_terms(alloc: Global, clauses: &[Clause]) -> Result<Vec<Term>, AllocError>
    ensures { IfOk result (λ v. v.items ≡ primary_terms clauses.now) }
{
    for (i, clause) in clauses.iter().enumerate() {
        if is_primary(clause.rule) && is_table_key(clause.rule) {
            return terms_of(alloc, &clauses[i + 1..]);
        }
    }
    Ok(Vec::new(alloc))
}

/// The name that a token is.
#[tactic(auto, unfolding(crate::specs::Keys::name_at))]
pub fn name_at(
    alloc: Global,
    text: &[u8],
    tokens: &[Piece],
    at: usize,
) -> Result<Vec<u8>, AllocError>
    ensures { IfOk result (λ v. v.items ≡ name_at text.now tokens.now at) }
{
    match tokens.get(at) {
        Some(token) => name_of(alloc, bytes_of(text, token)),
        None => Ok(Vec::new(alloc)),
    }
}

#[tactic(auto, unfolding(crate::specs::Keys::is_integer))]
fn is_integer(text: &[u8], tokens: &[Piece], column: &Column) -> bool
    ensures { result ≡ is_integer text.now tokens.now column.now }
{
    let written = written_type(text, tokens, column);
    is_same_word(b"INTEGER", without_quotes(without_generated(written)))
}

#[tactic(auto, unfolding(crate::specs::Keys::is_own_key))]
fn is_own_key(text: &[u8], tokens: &[Piece], column: &Column) -> bool
    ensures { result ≡ is_own_key text.now tokens.now column.now }
{
    match column.primary {
        Some(clause) => !is_word(text, later(tokens, clause.from), 2, b"DESC"),
        None => false,
    }
}

#[tactic(auto, unfolding(crate::specs::Keys::is_only_term))]
fn is_only_term(
    alloc: Global,
    text: &[u8],
    tokens: &[Piece],
    terms: &[Term],
    column: &Column,
) -> Result<bool, AllocError>
    ensures { IfOk result (λ b. b ≡ is_only_term text.now tokens.now terms.now column.now) }
{
    if terms.len() != 1 {
        return Ok(false);
    }
    let named = name_at(alloc, text, tokens, terms[0].name)?;
    let name = name_at(alloc, text, tokens, column.name)?;
    Ok(is_same_word(&named, &name))
}

#[tactic(auto, unfolding(crate::specs::Keys::may_be_rowid))]
fn may_be_rowid(
    alloc: Global,
    text: &[u8],
    tokens: &[Piece],
    terms: &[Term],
    column: &Column,
) -> Result<bool, AllocError>
    ensures { IfOk result (λ b. b ≡ may_be_rowid text.now tokens.now terms.now column.now) }
{
    if !is_integer(text, tokens, column) {
        return Ok(false);
    }
    if is_own_key(text, tokens, column) {
        return Ok(true);
    }
    is_only_term(alloc, text, tokens, terms, column)
}

fn first_rowid(
    alloc: Global,
    text: &[u8],
    tokens: &[Piece],
    terms: &[Term],
    columns: &[Column],
) -> Result<usize, AllocError>
    ensures { IfOk result (λ n. n ≡ position_or_len (λ c. may_be_rowid text.now tokens.now terms.now c) columns.now) }
{
    for (i, column) in columns.iter().enumerate() {
        if may_be_rowid(alloc, text, tokens, terms, column)? {
            return Ok(i);
        }
    }
    Ok(columns.len())
}

/// Which column is the PRIMARY KEY alone and has the type INTEGER; None if there is none.
#[tactic(auto, unfolding(crate::specs::Keys::integer_key))]
pub fn integer_key(
    alloc: Global,
    text: &[u8],
    tokens: &[Piece],
    clauses: &[Clause],
) -> Result<Option<usize>, AllocError>
    ensures { IfOk result (λ r. r ≡ integer_key text.now tokens.now clauses.now) }
{
    let columns = columns_of(alloc, clauses)?;
    let terms = primary_terms(alloc, clauses)?;
    let n = first_rowid(alloc, text, tokens, &terms, &columns)?;
    if n == columns.len() {
        Ok(None)
    } else {
        Ok(Some(n))
    }
}

/// Which column is another name of the rowid; None if there is none.
#[tactic(auto, unfolding(crate::specs::Keys::rowid_of))]
pub fn rowid_of(
    alloc: Global,
    text: &[u8],
    tokens: &[Piece],
    clauses: &[Clause],
) -> Result<Option<usize>, AllocError>
    ensures { IfOk result (λ r. r ≡ rowid_of text.now tokens.now clauses.now) }
{
    if is_without_rowid(clauses) {
        Ok(None)
    } else {
        integer_key(alloc, text, tokens, clauses)
    }
}
