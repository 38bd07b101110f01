//! How far bytes of one kind reach.
ghost use Rattle.std.specs.Prelude.{◌≡◌, ◌==◌, ◌≤◌, ◌||◌, not, length};
ghost use Rattle.std.specs.List.{prefix_len, list_any};
ghost use Rattle.std.specs.Char.{is_ascii_digit, is_ascii_hexdigit};
ghost use Rattle.schema_tokens.specs.Bytes.{is_blank, is_word_byte};
ghost use Rattle.schema_tokens.specs.Runs.{quoted_bytes, comment_bytes, digits_on, name_bytes};

use crate::bytes::{byte_at, is_blank, is_digit, is_word_byte};

pub fn blanks(s: &[u8]) -> usize
    ensures value { result ≡ prefix_len is_blank s.now }
    ensures within { result ≤ length s.now }
{
    s.iter().take_while(|b| is_blank(**b)).count()
}

pub fn word_bytes(s: &[u8]) -> usize
    ensures value { result ≡ prefix_len is_word_byte s.now }
    ensures within { result ≤ length s.now }
{
    s.iter().take_while(|b| is_word_byte(**b)).count()
}

pub fn digit_bytes(s: &[u8]) -> usize
    ensures value { result ≡ prefix_len is_ascii_digit s.now }
    ensures within { result ≤ length s.now }
{
    s.iter().take_while(|b| b.is_ascii_digit()).count()
}

pub fn hexadecimal_bytes(s: &[u8]) -> usize
    ensures value { result ≡ prefix_len is_ascii_hexdigit s.now }
    ensures within { result ≤ length s.now }
{
    s.iter().take_while(|b| b.is_ascii_hexdigit()).count()
}

/// How many bytes come before this one.
pub fn up_to(s: &[u8], byte: u8) -> usize
    ensures value { result ≡ prefix_len (λ b. not (b == byte)) s.now }
    ensures within { result ≤ length s.now }
{
    s.iter().take_while(|b| **b != byte).count()
}

/// How many bytes come before a blank or `)`.
pub fn suffix_bytes(s: &[u8]) -> usize
    ensures value { result ≡ prefix_len (λ b. not (is_blank b || b == 41)) s.now }
    ensures within { result ≤ length s.now }
{
    s.iter()
        .take_while(|b| !(is_blank(**b) || **b == b')'))
        .count()
}

pub fn has_word_byte(s: &[u8]) -> bool
    ensures { result ≡ list_any is_word_byte s.now }
{
    s.iter().any(|b| is_word_byte(*b))
}

/// How many bytes lie inside the quotes.
#[tactic(auto, using(crate::proofs::Steps::quoted_other))]
pub fn quoted_bytes(quote: u8, s: &[u8]) -> usize
    ensures value { result ≡ quoted_bytes quote s.now }
    ensures within { result ≤ length s.now }
{
    let mut n = 0;
    while n < s.len() {
        if s[n] != quote {
            n += 1;
        } else if n + 1 < s.len() && s[n + 1] == quote {
            n += 2;
        } else {
            break;
        }
    }
    n
}

pub fn comment_bytes(s: &[u8]) -> usize
    ensures value { result ≡ comment_bytes s.now }
    ensures within { result ≤ length s.now }
{
    for (n, b) in s.iter().enumerate() {
        if *b == b'*' && byte_at(s, n + 1) == b'/' {
            return n + 2;
        }
    }
    s.len()
}

/// How many digits follow, also with a `_` before one of them.
pub fn digits_on(hexadecimal: bool, s: &[u8]) -> usize
    ensures value { result ≡ digits_on hexadecimal s.now }
    ensures within { result ≤ length s.now }
{
    for (n, b) in s.iter().enumerate() {
        let joins = *b == b'_' && is_digit(hexadecimal, byte_at(s, n + 1));
        if !joins && !is_digit(hexadecimal, *b) {
            return n;
        }
    }
    s.len()
}

/// How many bytes of words and pairs of colons.
#[tactic(auto, using(crate::proofs::Steps::name_steps))]
pub fn name_bytes(s: &[u8]) -> usize
    ensures value { result ≡ name_bytes s.now }
    ensures within { result ≤ length s.now }
{
    let mut n = 0;
    while n < s.len() {
        if is_word_byte(s[n]) {
            n += 1;
        } else if n + 1 < s.len() && s[n] == b':' && s[n + 1] == b':' {
            n += 2;
        } else {
            break;
        }
    }
    n
}
