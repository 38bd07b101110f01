//! The forms of tokens.
ghost use Rattle.std.specs.Prelude.{◌≡◌, ◌<◌, ◌≤◌, length, IsTrue};
ghost use Rattle.schema_tokens.specs.internal.Sizes.{IsWithin};
ghost use Rattle.schema_tokens.specs.Forms.{begins_byte_order_mark, begins_line_comment};
ghost use Rattle.schema_tokens.specs.Forms.{begins_block_comment, space_form, word_form, mark_form};
ghost use Rattle.schema_tokens.specs.Forms.{begins_variable, literal_form, form};

use crate::bytes::{after, begins_word, byte_at};
use crate::keywords::word_kind;
use crate::kinds::{Form, Kind};
use crate::lengths::{
    blob_length, bracketed_length, form_of, operator_length, quoted_length, variable_length,
};
use crate::numbers::{begins_number, number_form};
use crate::runs::{blanks, comment_bytes, up_to, word_bytes};

#[tactic(auto, unfolding(crate::specs::Forms::begins_byte_order_mark))]
fn begins_byte_order_mark(s: &[u8]) -> bool
    ensures value { result ≡ begins_byte_order_mark s.now }
    ensures within { IsTrue result → 3 ≤ length s.now }
{
    byte_at(s, 0) == 0xEF && byte_at(s, 1) == 0xBB && byte_at(s, 2) == 0xBF
}

#[tactic(auto, unfolding(crate::specs::Forms::begins_line_comment))]
fn begins_line_comment(s: &[u8]) -> bool
    ensures { result ≡ begins_line_comment s.now }
{
    byte_at(s, 0) == b'-' && byte_at(s, 1) == b'-'
}

#[tactic(auto, unfolding(crate::specs::Forms::begins_block_comment))]
fn begins_block_comment(s: &[u8]) -> bool
    ensures value { result ≡ begins_block_comment s.now }
    ensures within { IsTrue result → 2 < length s.now }
{
    byte_at(s, 0) == b'/' && byte_at(s, 1) == b'*' && s.len() > 2
}

#[tactic(auto, unfolding(crate::specs::Forms::space_form))]
fn space_form(s: &[u8]) -> Option<Form>
    ensures value { result ≡ space_form s.now }
    ensures within { IsWithin (length s.now) result }
{
    if byte_at(s, 0).is_ascii_whitespace() {
        form_of(Kind::Blanks, blanks(s))
    } else if begins_byte_order_mark(s) {
        form_of(Kind::ByteOrderMark, 3)
    } else if begins_line_comment(s) {
        form_of(Kind::LineComment, up_to(s, b'\n'))
    } else if begins_block_comment(s) {
        form_of(Kind::BlockComment, 2 + comment_bytes(after(s, 2)))
    } else {
        None
    }
}

#[tactic(auto, unfolding(crate::specs::Forms::word_form))]
fn word_form(s: &[u8]) -> Option<Form>
    ensures value { result ≡ word_form s.now }
    ensures within { IsWithin (length s.now) result }
{
    let first = byte_at(s, 0);
    if (first == b'x' || first == b'X') && byte_at(s, 1) == b'\'' {
        return form_of(Kind::Blob, blob_length(s));
    }
    let n = word_bytes(s);
    form_of(word_kind(&s[..n]), n)
}

#[tactic(auto, unfolding(crate::specs::Forms::mark_form))]
fn mark_form(s: &[u8]) -> Option<Form>
    ensures value { result ≡ mark_form s.now }
    ensures within { IsWithin (length s.now) result }
{
    match byte_at(s, 0) {
        b'(' => form_of(Kind::Open, 1),
        b')' => form_of(Kind::Close, 1),
        b',' => form_of(Kind::Comma, 1),
        b';' => form_of(Kind::Semicolon, 1),
        b'.' => form_of(Kind::Dot, 1),
        _ => form_of(Kind::Operator, operator_length(s)),
    }
}

#[tactic(auto, unfolding(crate::specs::Forms::begins_variable))]
fn begins_variable(s: &[u8]) -> bool
    ensures { result ≡ begins_variable s.now }
{
    matches!(byte_at(s, 0), b'?' | b'$' | b'@' | b':' | b'#')
}

#[tactic(auto, unfolding(crate::specs::Forms::literal_form))]
fn literal_form(s: &[u8]) -> Option<Form>
    ensures value { result ≡ literal_form s.now }
    ensures within { IsWithin (length s.now) result }
{
    if begins_number(s) {
        return number_form(s);
    }
    if begins_variable(s) {
        return form_of(Kind::Variable, variable_length(s));
    }
    let first = byte_at(s, 0);
    match first {
        b'\'' => form_of(Kind::Text, quoted_length(b'\'', s)),
        b'"' | b'`' => form_of(Kind::Quoted, quoted_length(first, s)),
        b'[' => form_of(Kind::Quoted, bracketed_length(s)),
        _ => mark_form(s),
    }
}

/// What these bytes begin with; None if they begin with no token and no space.
#[tactic(auto, unfolding(crate::specs::Forms::form))]
pub fn form(s: &[u8]) -> Option<Form>
    ensures value { result ≡ form s.now }
    ensures within { IsWithin (length s.now) result }
{
    if let Some(space) = space_form(s) {
        Some(space)
    } else if begins_word(byte_at(s, 0)) {
        word_form(s)
    } else {
        literal_form(s)
    }
}
