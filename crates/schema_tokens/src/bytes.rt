//! Which bytes SQL's tokens are made of.
ghost use Rattle.std.specs.Prelude.{◌≡◌, ◌⊎◌, ◌<◌, slice_index, drop, length, IsTrue};
ghost use Rattle.schema_tokens.specs.Bytes.{is_blank, begins_word, is_word_byte, is_digit, is_operator};
ghost use Rattle.schema_tokens.specs.Bytes.{is_operator_pair};

/// What is left after so many bytes.
pub fn after(s: &[u8], n: usize) -> &[u8]
    ensures { result.now ≡ drop n s.now }
{
    if n <= s.len() { &s[n..] } else { &[] }
}

/// The byte at this place; past the end 0, as SQLite reads it.
pub fn byte_at(s: &[u8], at: usize) -> u8
    ensures value { result ≡ slice_index s.now at }
    ensures within { (at < length s.now) ⊎ (result ≡ 0) }
{
    if at < s.len() { s[at] } else { 0 }
}

#[tactic(auto, unfolding(crate::specs::Bytes::is_blank))]
pub fn is_blank(b: u8) -> bool
    ensures { result ≡ is_blank b }
{
    b.is_ascii_whitespace() || b == 11
}

#[tactic(auto, unfolding(crate::specs::Bytes::begins_word))]
pub fn begins_word(b: u8) -> bool
    ensures { result ≡ begins_word b }
{
    b.is_ascii_alphabetic() || b == b'_' || b >= 128
}

#[tactic(auto, unfolding(crate::specs::Bytes::is_word_byte))]
pub fn is_word_byte(b: u8) -> bool
    ensures { result ≡ is_word_byte b }
{
    begins_word(b) || b.is_ascii_digit() || b == b'$'
}

#[tactic(auto, unfolding(crate::specs::Bytes::is_digit))]
pub fn is_digit(hexadecimal: bool, b: u8) -> bool
    ensures { result ≡ is_digit hexadecimal b }
{
    if hexadecimal {
        b.is_ascii_hexdigit()
    } else {
        b.is_ascii_digit()
    }
}

#[tactic(auto, unfolding(crate::specs::Bytes::is_operator))]
pub fn is_operator(b: u8) -> bool
    ensures value { result ≡ is_operator b }
    ensures some { IsTrue result → 0 < b }
{
    matches!(
        b,
        b'+' | b'*' | b'~' | b'%' | b'&' | b'=' | b'<' | b'>' | b'|' | b'-' | b'/'
    )
}

#[tactic(auto, unfolding(crate::specs::Bytes::is_operator_pair))]
pub fn is_operator_pair(a: u8, b: u8) -> bool
    ensures value { result ≡ is_operator_pair a b }
    ensures some { IsTrue result → (0 < a) × (0 < b) }
{
    match b {
        b'=' => a == b'=' || a == b'<' || a == b'>' || a == b'!',
        b'>' => a == b'<' || a == b'>' || a == b'-',
        b'<' => a == b'<',
        b'|' => a == b'|',
        _ => false,
    }
}
