//! What the tokens of a statement are.
ghost use Rattle.std.specs.Prelude.{◌≡◌, ◌^◌, ◌<◌, ◌≤◌, ◌+◌, ℕ, IsTrue, length, drop, not};
ghost use Rattle.std.specs.List.{prefix_len, list_any};
ghost use Rattle.schema_print.specs.Statements.{is_word, is_name, is_open};
ghost use Rattle.schema_print.specs.Printable.{deeper, closing_at};
ghost use Rattle.schema_text.specs.Kinds.{is_identifier_kind, is_type_kind, is_number_kind, is_literal_kind};
ghost use Rattle.schema_text.specs.Kinds.{is_close_kind, is_comma_kind, is_semicolon_kind, has_kind};
ghost use Rattle.schema_text.specs.Rules.{group_length};

use schema_print;
use schema_tokens::{Kind, Piece};

/// The tokens from one on.
pub fn later(tokens: &[Piece], from: usize) -> &[Piece]
    ensures { result.now ≡ drop from tokens.now }
{
    if from <= tokens.len() {
        &tokens[from..]
    } else {
        &[]
    }
}

/// Whether a token is this word, in any case.
#[tactic(auto, unfolding(schema_print::specs::Statements::is_word))]
pub fn is_word(text: &[u8], tokens: &[Piece], at: usize, word: &[u8]) -> bool
    ensures value { result ≡ is_word text.now tokens.now at word.now }
    ensures within { IsTrue result → at < length tokens.now }
{
    at < tokens.len() && schema_print::is_word(text, tokens, at, word)
}

/// Whether a token may be a name.
#[tactic(auto, unfolding(schema_print::specs::Statements::is_name))]
pub fn is_name(tokens: &[Piece], at: usize) -> bool
    ensures value { result ≡ is_name tokens.now at }
    ensures within { IsTrue result → at < length tokens.now }
{
    at < tokens.len() && schema_print::is_name(tokens, at)
}

#[tactic(auto, unfolding(schema_print::specs::Statements::is_open))]
pub fn is_open(tokens: &[Piece], at: usize) -> bool
    ensures value { result ≡ is_open tokens.now at }
    ensures within { IsTrue result → at < length tokens.now }
{
    at < tokens.len() && schema_print::is_open(tokens, at)
}

#[tactic(auto, unfolding(crate::specs::Kinds::has_kind))]
pub fn is_close(tokens: &[Piece], at: usize) -> bool
    ensures value { result ≡ has_kind is_close_kind tokens.now at }
    ensures within { IsTrue result → at < length tokens.now }
{
    match tokens.get(at) {
        Some(token) => matches!(token.kind, Kind::Close),
        None => false,
    }
}

#[tactic(auto, unfolding(crate::specs::Kinds::has_kind))]
pub fn is_comma(tokens: &[Piece], at: usize) -> bool
    ensures value { result ≡ has_kind is_comma_kind tokens.now at }
    ensures within { IsTrue result → at < length tokens.now }
{
    match tokens.get(at) {
        Some(token) => matches!(token.kind, Kind::Comma),
        None => false,
    }
}

#[tactic(auto, unfolding(crate::specs::Kinds::has_kind))]
pub fn is_number(tokens: &[Piece], at: usize) -> bool
    ensures value { result ≡ has_kind is_number_kind tokens.now at }
    ensures within { IsTrue result → at < length tokens.now }
{
    match tokens.get(at) {
        Some(token) => matches!(token.kind, Kind::Integer | Kind::Float),
        None => false,
    }
}

#[tactic(auto, unfolding(crate::specs::Kinds::has_kind))]
pub fn is_literal(tokens: &[Piece], at: usize) -> bool
    ensures value { result ≡ has_kind is_literal_kind tokens.now at }
    ensures within { IsTrue result → at < length tokens.now }
{
    match tokens.get(at) {
        Some(token) => matches!(
            token.kind,
            Kind::Text | Kind::Blob | Kind::Integer | Kind::Float
        ),
        None => false,
    }
}

#[tactic(auto, unfolding(crate::specs::Kinds::has_kind))]
pub fn is_identifier(tokens: &[Piece], at: usize) -> bool
    ensures value { result ≡ has_kind is_identifier_kind tokens.now at }
    ensures within { IsTrue result → at < length tokens.now }
{
    match tokens.get(at) {
        Some(token) => matches!(token.kind, Kind::Word | Kind::Fallback | Kind::Quoted),
        None => false,
    }
}

#[tactic(auto, unfolding(crate::specs::Kinds::has_kind))]
pub fn is_type(tokens: &[Piece], at: usize) -> bool
    ensures value { result ≡ has_kind is_type_kind tokens.now at }
    ensures within { IsTrue result → at < length tokens.now }
{
    match tokens.get(at) {
        Some(token) => is_type_token(token),
        None => false,
    }
}

pub fn is_type_token(token: &Piece) -> bool
    ensures { result ≡ is_type_kind token.now.kind }
{
    matches!(
        token.kind,
        Kind::Word | Kind::Fallback | Kind::Quoted | Kind::Text
    )
}

fn is_semicolon(token: &Piece) -> bool
    ensures { result ≡ is_semicolon_kind token.now.kind }
{
    matches!(token.kind, Kind::Semicolon)
}

/// How many tokens come before one that is no part of a type's names.
pub fn type_tokens(tokens: &[Piece]) -> usize
    ensures value { result ≡ prefix_len (λ p. is_type_kind p.kind) tokens.now }
    ensures within { result ≤ length tokens.now }
{
    tokens.iter().take_while(|p| is_type_token(p)).count()
}

/// How many tokens come before the first `;`.
pub fn before_semicolon(tokens: &[Piece]) -> usize
    ensures value { result ≡ prefix_len (λ p. not (is_semicolon_kind p.kind)) tokens.now }
    ensures within { result ≤ length tokens.now }
{
    tokens.iter().take_while(|p| !is_semicolon(p)).count()
}

pub fn has_semicolon(tokens: &[Piece]) -> bool
    ensures { result ≡ list_any (λ p. is_semicolon_kind p.kind) tokens.now }
{
    tokens.iter().any(is_semicolon)
}

/// In how many parentheses the next token is.
pub fn depth_after(kind: Kind, depth: usize) -> usize
    requires { depth < 2 ^ 63 }
    ensures { result ≡ deeper kind depth }
{
    match kind {
        Kind::Open => depth + 1,
        Kind::Close => depth.saturating_sub(1),
        _ => depth,
    }
}

/// How many tokens there are up to the `)` that closes the `(` at the front, and with it; if none does, more than
/// there are.
fn closing_at(tokens: &[Piece]) -> usize
    ensures value { result ≡ closing_at 0 tokens.now }
    ensures within { result ≤ length tokens.now + 1 }
{
    let mut depth = 0usize;
    for (i, token) in tokens.iter().enumerate() {
        depth = depth_after(token.kind, depth);
        if depth == 0 {
            return i + 1;
        }
    }
    tokens.len() + 1
}

/// How many tokens `(` and its `)` have, with those between them; 0 if there is no such pair, or none between.
#[tactic(auto, unfolding(crate::specs::Rules::group_length))]
pub fn group_length(tokens: &[Piece]) -> usize
    ensures value { result ≡ group_length tokens.now }
    ensures within { result ≤ length tokens.now }
{
    if !is_open(tokens, 0) {
        return 0;
    }
    let n = closing_at(tokens);
    if 2 < n && n <= tokens.len() { n } else { 0 }
}
