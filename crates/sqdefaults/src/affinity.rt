//! The affinities of columns (datatype3, 3.1).
ghost use Rattle.std.specs.Prelude.{◌≡◌};
ghost use Rattle.sqdefaults.specs.Affinities.{begins, has_word, affinity_of, affinity_in};

/// What a column makes of the values that it is given.
#[derive(Clone, Copy, Debug, PartialEq, Eq)]
pub enum Affinity {
    Integer,
    Text,
    /// It keeps each value as it is.
    Blob,
    Real,
    Numeric,
}

/// Whether a text begins with a word, where ASCII's small letters are its capitals.
pub fn begins(text: &[u8], word: &[u8]) -> bool
    ensures { result ≡ begins text.now word.now }
{
    let end = word.len().min(text.len());
    text[..end].eq_ignore_ascii_case(word)
}

/// Whether a word stands somewhere in a text.
fn has_word(text: &[u8], word: &[u8]) -> bool
    ensures { result ≡ has_word text.now word.now }
{
    for i in 0..text.len() {
        if begins(&text[i..], word) {
            return true;
        }
    }
    false
}

/// The affinity of a column whose type is written so.
pub fn affinity_of(written: &[u8]) -> Affinity
    ensures { result ≡ affinity_of written.now }
{
    if has_word(written, b"int") {
        Affinity::Integer
    } else if has_word(written, b"char")
        || has_word(written, b"clob")
        || has_word(written, b"text")
    {
        Affinity::Text
    } else if has_word(written, b"blob") || written.is_empty() {
        Affinity::Blob
    } else if has_word(written, b"real")
        || has_word(written, b"floa")
        || has_word(written, b"doub")
    {
        Affinity::Real
    } else {
        Affinity::Numeric
    }
}

/// The same in a table that is STRICT or isn't: ANY keeps each value in one that is.
pub fn affinity_in(is_strict: bool, written: &[u8]) -> Affinity
    ensures { result ≡ affinity_in is_strict written.now }
{
    if is_strict && written.eq_ignore_ascii_case(b"any") {
        Affinity::Blob
    } else {
        affinity_of(written)
    }
}
