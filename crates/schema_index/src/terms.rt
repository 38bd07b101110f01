//! The terms of CREATE INDEX.
ghost use Rattle.std.specs.Prelude.{◌≡◌, ◌≤◌, ◌<◌, ◌==◌, ◌&&◌, length, reverse, not, codes, false};
ghost use Rattle.std.specs.Prelude.{IfOk, IfSome, IsTrue};
ghost use Rattle.std.specs.List.{prefix_len};
ghost use Rattle.schema_tokens.specs.Keywords.{is_same_word};
ghost use Rattle.schema_print.specs.Statements.{bytes_of, is_open_kind};
ghost use Rattle.schema_text.specs.Kinds.{is_comma_kind};
ghost use Rattle.schema_index.specs.Terms.{extents, tokens_in, is_ordered, is_wrapped, name_in, collation_in};
ghost use Rattle.schema_index.specs.Terms.{own_name, own_collation, index_term, index_terms};

use crate::create::Index;
use crate::walk::is_due;
use schema_print::bytes_of;
use schema_text::{depth_after, is_name, is_operand, is_type_token, is_word, later};
use schema_tokens::{Kind, Piece, is_same_word};
use std::alloc::{AllocError, Global};

/// A member of a list in parentheses.
#[derive(Clone, Copy, Debug, PartialEq, Eq)]
pub struct Extent {
    /// Its first token.
    pub from: usize,
    /// The token after its last.
    pub to: usize,
}

/// A term of an index: a column, or an expression.
#[derive(Clone, Copy, Debug, PartialEq, Eq)]
pub struct IndexTerm {
    /// The first token of its expression.
    pub from: usize,
    /// The token after the last of its expression, before ASC or DESC.
    pub to: usize,
    /// Which token is the column's name; None of any other expression. (A name in double or single quotes is a text, if
    /// no column of the table has it.)
    pub name: Option<usize>,
    /// Which token names the collation of a column; without one it has the column's. None of any other expression.
    pub collation: Option<usize>,
    /// Its order is DESC.
    pub descends: bool,
}

/// The tokens between two places.
fn tokens_in(tokens: &[Piece], from: usize, to: usize) -> &[Piece]
    ensures { result.now ≡ tokens_in tokens.now from to }
{
    let rest = later(tokens, from);
    &rest[..rest.len().min(to.saturating_sub(from))]
}

/// Whether a token is a comma outside of parentheses.
fn separates(token: &Piece, depth: usize) -> bool
    ensures value { result ≡ (is_comma_kind token.now.kind && depth == 0) }
    ensures outside { IsTrue result → depth ≡ 0 }
{
    depth == 0 && matches!(token.kind, Kind::Comma)
}

/// The members of a list between two tokens, cut at the commas outside of parentheses.
#[tactic(auto, using(crate::proofs::Members::cut_here, crate::proofs::Members::goes_on))]
fn extents(
    alloc: Global,
    tokens: &[Piece],
    from: usize,
    to: usize,
) -> Result<Vec<Extent>, AllocError>
    ensures { IfOk result (λ v. v.items ≡ extents from from 0 (tokens_in tokens.now from to)) }
{
    let inner = tokens_in(tokens, from, to);
    let mut found = Vec::new(alloc);
    let mut start = from;
    let mut depth = 0usize;
    for (i, token) in inner.iter().enumerate() {
        if separates(token, depth) {
            found.push(Extent {
                from: start,
                to: from + i,
            })?;
            start = from + i + 1;
        } else {
            depth = depth_after(token.kind, depth);
        }
    }
    found.push(Extent {
        from: start,
        to: from + inner.len(),
    })?;
    Ok(found)
}

/// Whether it ends with ASC or DESC after an operand.
#[tactic(auto, unfolding(crate::specs::Terms::is_ordered))]
fn is_ordered(text: &[u8], tokens: &[Piece], extent: &Extent) -> bool
    ensures value { result ≡ is_ordered text.now tokens.now extent.now }
{
    if extent.to.saturating_sub(extent.from) < 2 {
        return false;
    }
    let last = extent.to - 1;
    (is_word(text, tokens, last, b"ASC") || is_word(text, tokens, last, b"DESC"))
        && !is_due(text, tokens_in(tokens, extent.from, last))
}

/// Whether these tokens, after a name in so many parentheses, close these and give collations.
fn is_wrapped(text: &[u8], depth: usize, tokens: &[Piece]) -> bool
    ensures { result ≡ is_wrapped text.now depth false tokens.now }
{
    let mut open = depth;
    let mut due = false;
    for token in tokens {
        if due {
            if !is_type_token(token) {
                return false;
            }
            due = false;
        } else if matches!(token.kind, Kind::Close) {
            if open == 0 {
                return false;
            }
            open -= 1;
        } else {
            if !is_same_word(b"COLLATE", bytes_of(text, token)) {
                return false;
            }
            due = true;
        }
    }
    open == 0 && !due
}

fn opens(tokens: &[Piece]) -> usize
    ensures value { result ≡ prefix_len (λ p. is_open_kind p.kind) tokens.now }
    ensures within { result ≤ length tokens.now }
{
    tokens
        .iter()
        .take_while(|p| matches!(p.kind, Kind::Open))
        .count()
}

#[tactic(auto, unfolding(crate::specs::Terms::name_in))]
fn name_in(text: &[u8], tokens: &[Piece]) -> Option<usize>
    ensures value { result ≡ name_in text.now tokens.now }
    ensures within { IfSome result (λ n. n < length tokens.now) }
{
    let n = opens(tokens);
    if is_name(tokens, n)
        && !is_operand(text, later(tokens, n))
        && is_wrapped(text, n, later(tokens, n + 1))
    {
        Some(n)
    } else {
        None
    }
}

fn after_collate(text: &[u8], tokens: &[Piece]) -> usize
    ensures { result
        ≡ prefix_len (λ p. not (is_same_word (codes "COLLATE") (bytes_of text.now p))) (reverse tokens.now) }
{
    tokens
        .iter()
        .rev()
        .take_while(|p| !is_same_word(b"COLLATE", bytes_of(text, p)))
        .count()
}

#[tactic(auto, unfolding(crate::specs::Terms::collation_in))]
fn collation_in(text: &[u8], tokens: &[Piece]) -> Option<usize>
    ensures value { result ≡ collation_in text.now tokens.now }
    ensures within { IfSome result (λ n. (0 < n) × (n ≤ length tokens.now)) }
{
    match tokens.len().saturating_sub(after_collate(text, tokens)) {
        0 => None,
        n => Some(n),
    }
}

#[tactic(auto, unfolding(crate::specs::Terms::own_name))]
fn own_name(text: &[u8], tokens: &[Piece], from: usize, to: usize) -> Option<usize>
    ensures { result ≡ own_name text.now tokens.now from to }
{
    match name_in(text, tokens_in(tokens, from, to)) {
        Some(n) => Some(from + n),
        None => None,
    }
}

#[tactic(auto, unfolding(crate::specs::Terms::own_collation))]
fn own_collation(text: &[u8], tokens: &[Piece], from: usize, to: usize) -> Option<usize>
    ensures { result ≡ own_collation text.now tokens.now from to }
{
    match collation_in(text, tokens_in(tokens, from, to)) {
        Some(n) => Some(from + n),
        None => None,
    }
}

#[tactic(auto, unfolding(crate::specs::Terms::index_term))]
fn index_term(text: &[u8], tokens: &[Piece], extent: &Extent) -> IndexTerm
    ensures { result ≡ index_term text.now tokens.now extent.now }
{
    let ordered = is_ordered(text, tokens, extent);
    let last = extent.to.saturating_sub(1);
    let to = if ordered { last } else { extent.to };
    let name = own_name(text, tokens, extent.from, to);
    IndexTerm {
        from: extent.from,
        to,
        name,
        collation: if name.is_some() {
            own_collation(text, tokens, extent.from, to)
        } else {
            None
        },
        descends: ordered && is_word(text, tokens, last, b"DESC"),
    }
}

/// The terms of an index with this text and these tokens, in order.
#[tactic(auto, unfolding(crate::specs::Terms::index_terms))]
pub fn index_terms(
    alloc: Global,
    text: &[u8],
    tokens: &[Piece],
    index: &Index,
) -> Result<Vec<IndexTerm>, AllocError>
    ensures { IfOk result (λ v. v.items ≡ index_terms text.now tokens.now index.now) }
{
    let members = extents(alloc, tokens, index.first, index.close)?;
    let mut terms = Vec::with_capacity(alloc, members.len())?;
    for member in &members {
        terms.push(index_term(text, tokens, member))?;
    }
    Ok(terms)
}
