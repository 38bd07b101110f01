//! The expressions of DEFAULT clauses.
ghost use Rattle.std.specs.Prelude.{◌≡◌, ◌≤◌, length, IfOk};
ghost use Rattle.std.specs.List.{prefix_len};
ghost use Rattle.schema_print.specs.Names.{name_of};
ghost use Rattle.schema_print.specs.Statements.{is_open_kind};
ghost use Rattle.schema_ast.specs.Defaults.{unknown, changing, digits_of, is_present, word_value, value_by, value_at};
ghost use Rattle.schema_ast.specs.Defaults.{is_call, expression, default_tokens, default_of};

use schema_print::{bytes_of, name_of};
use schema_text::{Clause, is_name, is_open, is_operand, is_word, later};
use schema_tokens::{Kind, Piece, after, is_same_word};
use sqlite_ast::{Expr, Unary};
use sqlite_items::Boxed;
use sqlite_value::value::Bytes;
use std::alloc::{AllocError, Global};

fn unknown(alloc: Global) -> Result<Expr, AllocError>
    ensures { IfOk result (λ e. e ≡ unknown) }
{
    Ok(Expr::CallStar(Bytes::from_slice(alloc, b"")?))
}

fn changing() -> Expr
    ensures { result ≡ changing }
{
    Expr::Parameter(0)
}

/// The hexadecimal digits of a blob.
fn digits_of(bytes: &[u8]) -> &[u8]
    ensures { result.now ≡ digits_of bytes.now }
{
    after(&bytes[..bytes.len().saturating_sub(1)], 2)
}

#[tactic(auto, unfolding(crate::specs::Defaults::is_present))]
fn is_present(word: &[u8]) -> bool
    ensures { result ≡ is_present word.now }
{
    is_same_word(b"CURRENT_TIMESTAMP", word)
        || is_same_word(b"CURRENT_DATE", word)
        || is_same_word(b"CURRENT_TIME", word)
}

/// The text that a name is.
fn named(alloc: Global, bytes: &[u8]) -> Result<Expr, AllocError>
    ensures { IfOk result (λ e. e ≡ Expr.Text (name_of bytes.now)) }
{
    let name = name_of(alloc, bytes)?;
    Ok(Expr::Text(Bytes::from_slice(alloc, &name)?))
}

/// The value of a word; outside of parentheses it may be a text.
#[tactic(auto, unfolding(crate::specs::Defaults::word_value))]
fn word_value(alloc: Global, bare: bool, word: &[u8]) -> Result<Expr, AllocError>
    ensures { IfOk result (λ e. e ≡ word_value bare word.now) }
{
    if is_same_word(b"NULL", word) {
        Ok(Expr::Null)
    } else if is_present(word) {
        Ok(changing())
    } else if is_same_word(b"TRUE", word) {
        Ok(Expr::Truth(Bytes::from_slice(alloc, word)?, true))
    } else if is_same_word(b"FALSE", word) {
        Ok(Expr::Truth(Bytes::from_slice(alloc, word)?, false))
    } else if bare {
        named(alloc, word)
    } else {
        unknown(alloc)
    }
}

fn value_by(alloc: Global, kind: Kind, bare: bool, bytes: &[u8]) -> Result<Expr, AllocError>
    ensures { IfOk result (λ e. e ≡ value_by kind bare bytes.now) }
{
    match kind {
        Kind::Integer => Ok(Expr::Integer(Bytes::from_slice(alloc, bytes)?)),
        Kind::Float => Ok(Expr::Float(Bytes::from_slice(alloc, bytes)?)),
        Kind::Text => named(alloc, bytes),
        Kind::Blob => Ok(Expr::Blob(Bytes::from_slice(alloc, digits_of(bytes))?)),
        _ => word_value(alloc, bare, bytes),
    }
}

/// The value of a token.
#[tactic(auto, unfolding(crate::specs::Defaults::value_at))]
fn value_at(
    alloc: Global,
    text: &[u8],
    bare: bool,
    tokens: &[Piece],
    at: usize,
) -> Result<Expr, AllocError>
    ensures { IfOk result (λ e. e ≡ value_at text.now bare tokens.now at) }
{
    match tokens.get(at) {
        Some(token) => value_by(alloc, token.kind, bare, bytes_of(text, token)),
        None => unknown(alloc),
    }
}

fn negative(alloc: Global, operand: Expr) -> Result<Expr, AllocError>
    ensures { IfOk result (λ e. e ≡ Expr.Unary Unary.Minus operand) }
{
    Ok(Expr::Unary(Unary::Minus, Boxed::new(alloc, operand)?))
}

#[tactic(auto, unfolding(crate::specs::Defaults::is_call))]
fn is_call(text: &[u8], tokens: &[Piece]) -> bool
    ensures { result ≡ is_call text.now tokens.now }
{
    is_name(tokens, 0) && is_open(tokens, 1) && !is_operand(text, tokens)
}

#[tactic(auto, unfolding(crate::specs::Defaults::expression))]
fn expression(alloc: Global, text: &[u8], bare: bool, tokens: &[Piece]) -> Result<Expr, AllocError>
    ensures { IfOk result (λ e. e ≡ expression text.now bare tokens.now) }
{
    if tokens.len() == 1 {
        value_at(alloc, text, bare, tokens, 0)
    } else if tokens.len() == 2 && is_word(text, tokens, 0, b"-") {
        negative(alloc, value_at(alloc, text, false, tokens, 1)?)
    } else if tokens.len() == 2 && is_word(text, tokens, 0, b"+") {
        value_at(alloc, text, false, tokens, 1)
    } else if is_call(text, tokens) {
        Ok(changing())
    } else {
        unknown(alloc)
    }
}

/// The tokens after the word DEFAULT.
#[tactic(auto, unfolding(crate::specs::Defaults::default_tokens))]
fn default_tokens<'a>(tokens: &'a [Piece], clause: &Clause) -> &'a [Piece]
    ensures { result.now ≡ default_tokens tokens.now clause.now }
{
    let first = clause.from.saturating_add(1);
    let rest = later(tokens, first);
    &rest[..rest.len().min(clause.to.saturating_sub(first))]
}

fn opens(tokens: &[Piece]) -> usize
    ensures value { result ≡ prefix_len (λ p. is_open_kind p.kind) tokens.now }
    ensures within { result ≤ length tokens.now }
{
    tokens
        .iter()
        .take_while(|p| matches!(p.kind, Kind::Open))
        .count()
}

/// The expression of a DEFAULT clause, without the parentheses around it.
#[tactic(auto, unfolding(crate::specs::Defaults::default_of))]
pub fn default_of(
    alloc: Global,
    text: &[u8],
    tokens: &[Piece],
    clause: &Clause,
) -> Result<Expr, AllocError>
    ensures { IfOk result (λ e. e ≡ default_of text.now tokens.now clause.now) }
{
    let rest = default_tokens(tokens, clause);
    let n = opens(rest);
    expression(alloc, text, n == 0, later(&rest[..rest.len() - n], n))
}
