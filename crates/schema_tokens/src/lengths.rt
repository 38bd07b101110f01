//! How long quoted texts, blobs and variables are.
ghost use Rattle.std.specs.Prelude.{◌≡◌, ◌≤◌, ℕ, length, IfSome};
ghost use Rattle.schema_tokens.specs.internal.Sizes.{IsWithin};
ghost use Rattle.schema_tokens.specs.Forms.{form_of, blob_length, quoted_length, bracketed_length};
ghost use Rattle.schema_tokens.specs.Forms.{suffix_length, variable_length, operator_length};

use crate::bytes::{after, byte_at, is_operator, is_operator_pair};
use crate::kinds::{Form, Kind};
use crate::runs::{
    digit_bytes, has_word_byte, hexadecimal_bytes, name_bytes, quoted_bytes, suffix_bytes, up_to,
};

/// A form of this length; None of length 0.
pub fn form_of(kind: Kind, size: usize) -> Option<Form>
    ensures value { result ≡ form_of kind size }
    ensures within { (n : ℕ) → size ≤ n → IsWithin n result }
{
    if size == 0 {
        None
    } else {
        Some(Form { kind, length: size })
    }
}

/// How long a blob is that begins here, or 0.
#[tactic(auto, unfolding(crate::specs::Forms::blob_length))]
pub fn blob_length(s: &[u8]) -> usize
    ensures value { result ≡ blob_length s.now }
    ensures within { result ≤ length s.now }
{
    let n = hexadecimal_bytes(after(s, 2));
    if byte_at(s, 2 + n) == b'\'' && n % 2 == 0 {
        3 + n
    } else {
        0
    }
}

/// How long a text in these quotes is that begins here, or 0.
#[tactic(auto, unfolding(crate::specs::Forms::quoted_length))]
pub fn quoted_length(quote: u8, s: &[u8]) -> usize
    ensures value { result ≡ quoted_length quote s.now }
    ensures within { result ≤ length s.now }
{
    let n = quoted_bytes(quote, after(s, 1));
    if 1 + n < s.len() { 2 + n } else { 0 }
}

/// How long a name in `[` and `]` is that begins here, or 0.
#[tactic(auto, unfolding(crate::specs::Forms::bracketed_length))]
pub fn bracketed_length(s: &[u8]) -> usize
    ensures value { result ≡ bracketed_length s.now }
    ensures within { result ≤ length s.now }
{
    let n = up_to(s, b']');
    if byte_at(s, n) == b']' { 1 + n } else { 0 }
}

#[tactic(auto, unfolding(crate::specs::Forms::suffix_length))]
fn suffix_length(s: &[u8]) -> Option<usize>
    ensures value { result ≡ suffix_length s.now }
    ensures within { IfSome result (λ n. n ≤ length s.now) }
{
    if byte_at(s, 0) != b'(' {
        return Some(0);
    }
    let n = suffix_bytes(after(s, 1));
    if byte_at(s, 1 + n) == b')' {
        Some(2 + n)
    } else {
        None
    }
}

/// How long a variable is that begins here, or 0.
#[tactic(auto, unfolding(crate::specs::Forms::variable_length))]
pub fn variable_length(s: &[u8]) -> usize
    ensures value { result ≡ variable_length s.now }
    ensures within { result ≤ length s.now }
{
    let name = after(s, 1);
    if byte_at(s, 0) == b'?' {
        return 1 + digit_bytes(name);
    }
    let n = name_bytes(name);
    if !has_word_byte(&name[..n]) {
        return 0;
    }
    match suffix_length(after(s, 1 + n)) {
        None => 0,
        Some(m) => 1 + n + m,
    }
}

#[tactic(auto, unfolding(crate::specs::Forms::operator_length))]
pub fn operator_length(s: &[u8]) -> usize
    ensures value { result ≡ operator_length s.now }
    ensures within { result ≤ length s.now }
{
    let (first, second) = (byte_at(s, 0), byte_at(s, 1));
    if first == b'-' && second == b'>' && byte_at(s, 2) == b'>' {
        3
    } else if is_operator_pair(first, second) {
        2
    } else if is_operator(first) {
        1
    } else {
        0
    }
}
