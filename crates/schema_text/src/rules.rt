//! How many tokens a rule of CREATE TABLE takes.
ghost use Rattle.std.specs.Prelude.{◌≡◌, ◌<◌, ◌≤◌, ◌||◌, IsTrue, length, codes};
ghost use Rattle.schema_print.specs.Statements.{is_word};
ghost use Rattle.schema_text.specs.Rules.{signed_length, size_length, type_length, column_length};
ghost use Rattle.schema_text.specs.Rules.{is_resolution, conflict_length, named_length, primary_length};
ghost use Rattle.schema_text.specs.Rules.{deferrable_length, defer_length, is_term, default_length};
ghost use Rattle.schema_text.specs.Rules.{collate_length, references_length, check_length, as_length};
ghost use Rattle.schema_text.specs.Rules.{generated_length, effect_length, action_length, listed_length};
ghost use Rattle.schema_text.specs.Rules.{foreign_length, is_operand};

use crate::tokens::{
    group_length, is_close, is_comma, is_identifier, is_literal, is_name, is_number, is_open,
    is_type, is_word, later, type_tokens,
};
use schema_tokens::Piece;

fn is_sign(text: &[u8], tokens: &[Piece], at: usize) -> bool
    ensures value { result ≡ (is_word text.now tokens.now at (codes "+")
        || is_word text.now tokens.now at (codes "-")) }
    ensures within { IsTrue result → at < length tokens.now }
{
    is_word(text, tokens, at, b"+") || is_word(text, tokens, at, b"-")
}

/// A number with a sign or without.
#[tactic(auto, unfolding(crate::specs::Rules::signed_length))]
fn signed_length(text: &[u8], tokens: &[Piece]) -> usize
    ensures value { result ≡ signed_length text.now tokens.now }
    ensures within { result ≤ length tokens.now }
{
    if is_number(tokens, 0) {
        1
    } else if is_sign(text, tokens, 0) && is_number(tokens, 1) {
        2
    } else {
        0
    }
}

/// The size of a type in its parentheses.
#[tactic(auto, unfolding(crate::specs::Rules::size_length))]
fn size_length(text: &[u8], tokens: &[Piece]) -> usize
    ensures value { result ≡ size_length text.now tokens.now }
    ensures within { result ≤ length tokens.now }
{
    let n = signed_length(text, later(tokens, 1));
    if !is_open(tokens, 0) || n == 0 {
        return 0;
    }
    if is_close(tokens, 1 + n) {
        return 2 + n;
    }
    let m = signed_length(text, later(tokens, 2 + n));
    if is_comma(tokens, 1 + n) && m != 0 && is_close(tokens, 2 + n + m) {
        3 + n + m
    } else {
        0
    }
}

#[tactic(auto, unfolding(crate::specs::Rules::type_length))]
fn type_length(text: &[u8], tokens: &[Piece]) -> usize
    ensures value { result ≡ type_length text.now tokens.now }
    ensures within { result ≤ length tokens.now }
{
    let n = type_tokens(tokens);
    if n == 0 {
        0
    } else {
        n + size_length(text, later(tokens, n))
    }
}

/// A name, and a type or none.
#[tactic(auto, unfolding(crate::specs::Rules::column_length))]
pub fn column_length(text: &[u8], tokens: &[Piece]) -> usize
    ensures value { result ≡ column_length text.now tokens.now }
    ensures within { result ≤ length tokens.now }
{
    if is_name(tokens, 0) {
        1 + type_length(text, later(tokens, 1))
    } else {
        0
    }
}

#[tactic(auto, unfolding(crate::specs::Rules::is_resolution))]
fn is_resolution(text: &[u8], tokens: &[Piece], at: usize) -> bool
    ensures value { result ≡ is_resolution text.now tokens.now at }
    ensures within { IsTrue result → at < length tokens.now }
{
    is_word(text, tokens, at, b"ROLLBACK")
        || is_word(text, tokens, at, b"ABORT")
        || is_word(text, tokens, at, b"FAIL")
        || is_word(text, tokens, at, b"IGNORE")
        || is_word(text, tokens, at, b"REPLACE")
}

/// ON CONFLICT and what to do, or nothing.
#[tactic(auto, unfolding(crate::specs::Rules::conflict_length))]
pub fn conflict_length(text: &[u8], tokens: &[Piece]) -> usize
    ensures value { result ≡ conflict_length text.now tokens.now }
    ensures within { result ≤ length tokens.now }
{
    if is_word(text, tokens, 0, b"ON")
        && is_word(text, tokens, 1, b"CONFLICT")
        && is_resolution(text, tokens, 2)
    {
        3
    } else {
        0
    }
}

/// CONSTRAINT and a name.
#[tactic(auto, unfolding(crate::specs::Rules::named_length))]
pub fn named_length(tokens: &[Piece]) -> usize
    ensures value { result ≡ named_length tokens.now }
    ensures within { result ≤ length tokens.now }
{
    if is_name(tokens, 1) { 2 } else { 0 }
}

fn is_order(text: &[u8], tokens: &[Piece], at: usize) -> bool
    ensures value { result ≡ (is_word text.now tokens.now at (codes "ASC")
        || is_word text.now tokens.now at (codes "DESC")) }
    ensures within { IsTrue result → at < length tokens.now }
{
    is_word(text, tokens, at, b"ASC") || is_word(text, tokens, at, b"DESC")
}

/// PRIMARY KEY of a column.
#[tactic(auto, unfolding(crate::specs::Rules::primary_length))]
pub fn primary_length(text: &[u8], tokens: &[Piece]) -> usize
    ensures value { result ≡ primary_length text.now tokens.now }
    ensures within { result ≤ length tokens.now }
{
    if !is_word(text, tokens, 1, b"KEY") {
        return 0;
    }
    let ordered = if is_order(text, tokens, 2) { 3 } else { 2 };
    let n = ordered + conflict_length(text, later(tokens, ordered));
    if is_word(text, tokens, n, b"AUTOINCREMENT") {
        n + 1
    } else {
        n
    }
}

#[tactic(auto, unfolding(crate::specs::Rules::deferrable_length))]
fn deferrable_length(text: &[u8], tokens: &[Piece]) -> usize
    ensures value { result ≡ deferrable_length text.now tokens.now }
    ensures within { result ≤ length tokens.now }
{
    if !is_word(text, tokens, 0, b"DEFERRABLE") {
        0
    } else if is_word(text, tokens, 1, b"INITIALLY")
        && (is_word(text, tokens, 2, b"DEFERRED") || is_word(text, tokens, 2, b"IMMEDIATE"))
    {
        3
    } else {
        1
    }
}

/// DEFERRABLE, with NOT before it or without.
#[tactic(auto, unfolding(crate::specs::Rules::defer_length))]
pub fn defer_length(text: &[u8], tokens: &[Piece]) -> usize
    ensures value { result ≡ defer_length text.now tokens.now }
    ensures within { result ≤ length tokens.now }
{
    if !is_word(text, tokens, 0, b"NOT") {
        return deferrable_length(text, tokens);
    }
    let n = deferrable_length(text, later(tokens, 1));
    if n == 0 { 0 } else { 1 + n }
}

#[tactic(auto, unfolding(crate::specs::Rules::is_term))]
fn is_term(text: &[u8], tokens: &[Piece], at: usize) -> bool
    ensures value { result ≡ is_term text.now tokens.now at }
    ensures within { IsTrue result → at < length tokens.now }
{
    is_literal(tokens, at)
        || is_word(text, tokens, at, b"NULL")
        || is_word(text, tokens, at, b"CURRENT_DATE")
        || is_word(text, tokens, at, b"CURRENT_TIME")
        || is_word(text, tokens, at, b"CURRENT_TIMESTAMP")
}

/// DEFAULT and its value.
#[tactic(auto, unfolding(crate::specs::Rules::default_length))]
pub fn default_length(text: &[u8], tokens: &[Piece]) -> usize
    ensures value { result ≡ default_length text.now tokens.now }
    ensures within { result ≤ length tokens.now }
{
    let n = group_length(later(tokens, 1));
    if n != 0 {
        1 + n
    } else if is_term(text, tokens, 1)
        || is_identifier(tokens, 1)
        || is_word(text, tokens, 1, b"INDEXED")
    {
        2
    } else if is_sign(text, tokens, 1) && is_term(text, tokens, 2) {
        3
    } else {
        0
    }
}

/// COLLATE and a name.
#[tactic(auto, unfolding(crate::specs::Rules::collate_length))]
pub fn collate_length(tokens: &[Piece]) -> usize
    ensures value { result ≡ collate_length tokens.now }
    ensures within { result ≤ length tokens.now }
{
    if is_type(tokens, 1) { 2 } else { 0 }
}

/// REFERENCES, a table, and columns or none.
#[tactic(auto, unfolding(crate::specs::Rules::references_length))]
pub fn references_length(tokens: &[Piece]) -> usize
    ensures value { result ≡ references_length tokens.now }
    ensures within { result ≤ length tokens.now }
{
    if is_name(tokens, 1) {
        2 + group_length(later(tokens, 2))
    } else {
        0
    }
}

/// CHECK of a column.
#[tactic(auto, unfolding(crate::specs::Rules::check_length))]
pub fn check_length(tokens: &[Piece]) -> usize
    ensures value { result ≡ check_length tokens.now }
    ensures within { result ≤ length tokens.now }
{
    let n = group_length(later(tokens, 1));
    if n == 0 { 0 } else { 1 + n }
}

/// AS and an expression.
#[tactic(auto, unfolding(crate::specs::Rules::as_length))]
pub fn as_length(text: &[u8], tokens: &[Piece]) -> usize
    ensures value { result ≡ as_length text.now tokens.now }
    ensures within { result ≤ length tokens.now }
{
    let n = group_length(later(tokens, 1));
    if !is_word(text, tokens, 0, b"AS") || n == 0 {
        0
    } else if is_word(text, tokens, 1 + n, b"VIRTUAL") || is_word(text, tokens, 1 + n, b"STORED") {
        2 + n
    } else {
        1 + n
    }
}

/// GENERATED ALWAYS AS and an expression.
#[tactic(auto, unfolding(crate::specs::Rules::generated_length))]
pub fn generated_length(text: &[u8], tokens: &[Piece]) -> usize
    ensures value { result ≡ generated_length text.now tokens.now }
    ensures within { result ≤ length tokens.now }
{
    let n = as_length(text, later(tokens, 2));
    if !is_word(text, tokens, 1, b"ALWAYS") || n == 0 {
        0
    } else {
        2 + n
    }
}

#[tactic(auto, unfolding(crate::specs::Rules::effect_length))]
fn effect_length(text: &[u8], tokens: &[Piece]) -> usize
    ensures value { result ≡ effect_length text.now tokens.now }
    ensures within { result ≤ length tokens.now }
{
    if is_word(text, tokens, 0, b"CASCADE") || is_word(text, tokens, 0, b"RESTRICT") {
        1
    } else if is_word(text, tokens, 0, b"SET")
        && (is_word(text, tokens, 1, b"NULL") || is_word(text, tokens, 1, b"DEFAULT"))
        || is_word(text, tokens, 0, b"NO") && is_word(text, tokens, 1, b"ACTION")
    {
        2
    } else {
        0
    }
}

fn is_change(text: &[u8], tokens: &[Piece], at: usize) -> bool
    ensures value { result ≡ (is_word text.now tokens.now at (codes "INSERT")
        || is_word text.now tokens.now at (codes "DELETE") || is_word text.now tokens.now at (codes "UPDATE")) }
    ensures within { IsTrue result → at < length tokens.now }
{
    is_word(text, tokens, at, b"INSERT")
        || is_word(text, tokens, at, b"DELETE")
        || is_word(text, tokens, at, b"UPDATE")
}

/// MATCH and a name, or ON with a change and what it does.
#[tactic(auto, unfolding(crate::specs::Rules::action_length))]
pub fn action_length(text: &[u8], tokens: &[Piece]) -> usize
    ensures value { result ≡ action_length text.now tokens.now }
    ensures within { result ≤ length tokens.now }
{
    if is_word(text, tokens, 0, b"MATCH") {
        return if is_name(tokens, 1) { 2 } else { 0 };
    }
    let n = effect_length(text, later(tokens, 2));
    if is_word(text, tokens, 0, b"ON") && n != 0 && is_change(text, tokens, 1) {
        2 + n
    } else {
        0
    }
}

/// A list in parentheses after so many words, and ON CONFLICT or nothing.
#[tactic(auto, unfolding(crate::specs::Rules::listed_length))]
pub fn listed_length(words: usize, text: &[u8], tokens: &[Piece]) -> usize
    requires { words < 3 }
    ensures value { result ≡ listed_length words text.now tokens.now }
    ensures within { result ≤ length tokens.now }
{
    let n = group_length(later(tokens, words));
    if n == 0 {
        0
    } else {
        words + n + conflict_length(text, later(tokens, words + n))
    }
}

/// FOREIGN KEY, its columns, and what it references.
#[tactic(auto, unfolding(crate::specs::Rules::foreign_length))]
pub fn foreign_length(text: &[u8], tokens: &[Piece]) -> usize
    ensures value { result ≡ foreign_length text.now tokens.now }
    ensures within { result ≤ length tokens.now }
{
    let n = group_length(later(tokens, 2));
    if !is_word(text, tokens, 1, b"KEY") || n == 0 || !is_word(text, tokens, 2 + n, b"REFERENCES") {
        return 0;
    }
    let m = references_length(later(tokens, 2 + n));
    if m == 0 { 0 } else { 2 + n + m }
}

/// Whether a word at the front of an expression is no column's name.
#[tactic(auto, unfolding(crate::specs::Rules::is_operand))]
pub fn is_operand(text: &[u8], tokens: &[Piece]) -> bool
    ensures { result ≡ is_operand text.now tokens.now }
{
    is_word(text, tokens, 0, b"CAST")
        || is_word(text, tokens, 0, b"RAISE")
        || is_word(text, tokens, 0, b"CURRENT_DATE")
        || is_word(text, tokens, 0, b"CURRENT_TIME")
        || is_word(text, tokens, 0, b"CURRENT_TIMESTAMP")
}
