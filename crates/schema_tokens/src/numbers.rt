//! Numbers.
ghost use Rattle.std.specs.Prelude.{◌≡◌, ◌≤◌, length};
ghost use Rattle.schema_tokens.specs.internal.Sizes.{IsWithin};
ghost use Rattle.schema_tokens.specs.Forms.{digits, fraction_length, exponent_length, hexadecimal_length};
ghost use Rattle.schema_tokens.specs.Forms.{decimal_form, number_form, begins_number};

use crate::bytes::{after, byte_at, is_word_byte};
use crate::kinds::{Form, Kind};
use crate::lengths::form_of;
use crate::runs::digits_on;

#[tactic(auto, unfolding(crate::specs::Forms::begins_number))]
pub fn begins_number(s: &[u8]) -> bool
    ensures { result ≡ begins_number s.now }
{
    let first = byte_at(s, 0);
    first.is_ascii_digit() || (first == b'.' && byte_at(s, 1).is_ascii_digit())
}

#[tactic(auto, unfolding(crate::specs::Forms::digits))]
fn digits(s: &[u8]) -> usize
    ensures value { result ≡ digits s.now }
    ensures within { result ≤ length s.now }
{
    if byte_at(s, 0).is_ascii_digit() {
        digits_on(false, s)
    } else {
        0
    }
}

#[tactic(auto, unfolding(crate::specs::Forms::fraction_length))]
fn fraction_length(s: &[u8]) -> usize
    ensures value { result ≡ fraction_length s.now }
    ensures within { result ≤ length s.now }
{
    if byte_at(s, 0) == b'.' {
        1 + digits(after(s, 1))
    } else {
        0
    }
}

#[tactic(auto, unfolding(crate::specs::Forms::exponent_length))]
fn exponent_length(s: &[u8]) -> usize
    ensures value { result ≡ exponent_length s.now }
    ensures within { result ≤ length s.now }
{
    let second = byte_at(s, 1);
    let sign = if second == b'+' || second == b'-' {
        1
    } else {
        0
    };
    let n = digits(after(s, 1 + sign));
    let first = byte_at(s, 0);
    if (first == b'e' || first == b'E') && n != 0 {
        1 + sign + n
    } else {
        0
    }
}

#[tactic(auto, unfolding(crate::specs::Forms::hexadecimal_length))]
fn hexadecimal_length(s: &[u8]) -> usize
    ensures value { result ≡ hexadecimal_length s.now }
    ensures within { result ≤ length s.now }
{
    let second = byte_at(s, 1);
    if byte_at(s, 0) == b'0'
        && (second == b'x' || second == b'X')
        && byte_at(s, 2).is_ascii_hexdigit()
    {
        2 + digits_on(true, after(s, 2))
    } else {
        0
    }
}

#[tactic(auto, unfolding(crate::specs::Forms::decimal_form))]
fn decimal_form(s: &[u8]) -> Option<Form>
    ensures value { result ≡ decimal_form s.now }
    ensures within { IsWithin (length s.now) result }
{
    let whole = digits(s);
    let fraction = fraction_length(after(s, whole));
    let exponent = exponent_length(after(s, whole + fraction));
    let n = whole + fraction + exponent;
    if is_word_byte(byte_at(s, n)) {
        return None;
    }
    let kind = if fraction + exponent == 0 {
        Kind::Integer
    } else {
        Kind::Float
    };
    form_of(kind, n)
}

/// The number that begins here; None if it is none.
#[tactic(auto, unfolding(crate::specs::Forms::number_form))]
pub fn number_form(s: &[u8]) -> Option<Form>
    ensures value { result ≡ number_form s.now }
    ensures within { IsWithin (length s.now) result }
{
    match hexadecimal_length(s) {
        0 => decimal_form(s),
        n => form_of(Kind::Integer, n),
    }
}
