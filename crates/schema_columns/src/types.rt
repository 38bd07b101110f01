//! The types of columns.
ghost use Rattle.std.specs.Prelude.{◌≡◌, ◌≤◌, length, take, reverse, map, IfOk};
ghost use Rattle.std.specs.List.{prefix_len, list_any};
ghost use Rattle.std.specs.Char.{to_ascii_uppercase};
ghost use Rattle.schema_tokens.specs.Bytes.{is_blank};
ghost use Rattle.schema_columns.specs.Types.{begins, ends, has_word, affinity_of, is_standard, trimmed, cut};
ghost use Rattle.schema_columns.specs.Types.{without_generated, is_quote, inner, without_quotes, type_name};
ghost use Rattle.schema_columns.specs.Types.{type_affinity, affinity_in};

use schema_print::name_of;
use schema_tokens::{after, byte_at, is_blank, is_listed, is_same_word};
use std::alloc::{AllocError, Global};

/// The types of STRICT tables.
pub const STANDARD: [&[u8]; 6] = [b"ANY", b"BLOB", b"INT", b"INTEGER", b"REAL", b"TEXT"];

/// How a column converts the values that it is given (datatype3, 3.1).
#[derive(Clone, Copy, Debug, PartialEq, Eq)]
pub enum Affinity {
    Integer,
    Text,
    /// It keeps each value unchanged.
    Blob,
    Real,
    Numeric,
}

/// The type of a column.
#[derive(Debug, Drop)]
pub struct Type {
    /// As PRAGMA table_info prints it; empty if the column has none.
    pub name: Vec<u8>,
    /// In a table that isn't STRICT.
    pub affinity: Affinity,
    /// It is one of the types of STRICT tables.
    pub standard: bool,
}

/// The first bytes, as many as this.
fn first(s: &[u8], count: usize) -> &[u8]
    ensures { result.now ≡ take count s.now }
{
    &s[..count.min(s.len())]
}

fn begins(text: &[u8], word: &[u8]) -> bool
    ensures { result ≡ begins text.now word.now }
{
    is_same_word(first(text, word.len()), word)
}

#[tactic(auto, unfolding(crate::specs::Types::ends))]
fn ends(text: &[u8], word: &[u8]) -> bool
    ensures { result ≡ ends text.now word.now }
{
    is_same_word(after(text, text.len().saturating_sub(word.len())), word)
}

/// Whether a word is somewhere in a text, in any case.
fn has_word(text: &[u8], word: &[u8]) -> bool
    ensures { result ≡ has_word text.now word.now }
{
    for i in 0..text.len() {
        if begins(&text[i..], word) {
            return true;
        }
    }
    false
}

/// The affinity of a type that isn't missing.
#[tactic(auto, unfolding(crate::specs::Types::affinity_of))]
fn affinity_of(name: &[u8]) -> Affinity
    ensures { result ≡ affinity_of name.now }
{
    if has_word(name, b"int") {
        Affinity::Integer
    } else if has_word(name, b"char") || has_word(name, b"clob") || has_word(name, b"text") {
        Affinity::Text
    } else if has_word(name, b"blob") {
        Affinity::Blob
    } else if has_word(name, b"real") || has_word(name, b"floa") || has_word(name, b"doub") {
        Affinity::Real
    } else {
        Affinity::Numeric
    }
}

#[tactic(auto, unfolding(crate::specs::Types::is_standard))]
fn is_standard(words: &[u8]) -> bool
    ensures { result ≡ is_standard words.now }
{
    is_listed(&STANDARD, words)
}

fn blanks_at_end(s: &[u8]) -> usize
    ensures { result ≡ prefix_len is_blank (reverse s.now) }
{
    s.iter().rev().take_while(|b| is_blank(**b)).count()
}

#[tactic(auto, unfolding(crate::specs::Types::trimmed))]
pub fn trimmed(s: &[u8]) -> &[u8]
    ensures { result.now ≡ trimmed s.now }
{
    first(s, s.len().saturating_sub(blanks_at_end(s)))
}

/// A text without so many bytes at its end, trimmed.
#[tactic(auto, unfolding(crate::specs::Types::cut))]
fn cut(count: usize, s: &[u8]) -> &[u8]
    ensures { result.now ≡ cut count s.now }
{
    trimmed(first(s, s.len().saturating_sub(count)))
}

#[tactic(auto, unfolding(crate::specs::Types::without_generated))]
pub fn without_generated(s: &[u8]) -> &[u8]
    ensures { result.now ≡ without_generated s.now }
{
    if s.len() < 16 || !ends(s, b"always") {
        return s;
    }
    let rest = cut(6, s);
    if rest.len() >= 9 && ends(rest, b"generated") {
        cut(9, rest)
    } else {
        rest
    }
}

#[tactic(auto, unfolding(crate::specs::Types::is_quote))]
fn is_quote(b: u8) -> bool
    ensures { result ≡ is_quote b }
{
    b == b'\'' || b == b'"' || b == b'`' || b == b'['
}

#[tactic(auto, unfolding(crate::specs::Types::inner))]
fn inner(s: &[u8]) -> &[u8]
    ensures { result.now ≡ inner s.now }
{
    after(first(s, s.len().saturating_sub(1)), 1)
}

fn has_quote(s: &[u8]) -> bool
    ensures { result ≡ list_any is_quote s.now }
{
    s.iter().any(|b| is_quote(*b))
}

#[tactic(auto, unfolding(crate::specs::Types::without_quotes))]
pub fn without_quotes(s: &[u8]) -> &[u8]
    ensures { result.now ≡ without_quotes s.now }
{
    if s.len() >= 3 && is_quote(byte_at(s, 0)) && !has_quote(inner(s)) {
        inner(s)
    } else {
        s
    }
}

fn capitals(alloc: Global, s: &[u8]) -> Result<Vec<u8>, AllocError>
    ensures { IfOk result (λ v. v.items ≡ map to_ascii_uppercase s.now) }
{
    s.iter().map(|b| b.to_ascii_uppercase()).collect(alloc)
}

#[tactic(auto, unfolding(crate::specs::Types::type_name))]
fn type_name(alloc: Global, written: &[u8]) -> Result<Vec<u8>, AllocError>
    ensures { IfOk result (λ v. v.items ≡ type_name written.now) }
{
    let words = without_quotes(without_generated(written));
    if is_standard(words) {
        capitals(alloc, words)
    } else {
        name_of(alloc, words)
    }
}

#[tactic(auto, unfolding(crate::specs::Types::type_affinity))]
fn type_affinity(written: &[u8], name: &[u8]) -> Affinity
    requires { name.now ≡ type_name written.now }
    ensures { result ≡ type_affinity written.now }
{
    if without_generated(written).is_empty() {
        Affinity::Blob
    } else {
        affinity_of(name)
    }
}

/// The type that these bytes of a column's text are; none, if they are empty.
pub fn type_of(alloc: Global, written: &[u8]) -> Result<Type, AllocError>
    ensures name { IfOk result (λ t. t.name.items ≡ type_name written.now) }
    ensures affinity { IfOk result (λ t. t.affinity ≡ type_affinity written.now) }
    ensures standard { IfOk result (λ t. t.standard ≡ is_standard (without_quotes (without_generated written.now))) }
{
    let name = type_name(alloc, written)?;
    let affinity = type_affinity(written, &name);
    let standard = is_standard(without_quotes(without_generated(written)));
    Ok(Type {
        name,
        affinity,
        standard,
    })
}

/// The affinity of a column of this type, in a STRICT table or in another. In a STRICT one ANY keeps each value.
#[tactic(auto, unfolding(crate::specs::Types::affinity_in))]
pub fn affinity_in(strict: bool, found: &Type) -> Affinity
    ensures { result ≡ affinity_in strict found.now.name.items found.now.affinity }
{
    if strict && is_same_word(b"ANY", &found.name) {
        Affinity::Blob
    } else {
        found.affinity
    }
}
