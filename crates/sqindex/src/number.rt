//! Texts that read as numbers (datatype3, 3.2).
ghost use Rattle.std.specs.Prelude.{◌≡◌, not, take, drop, length, position, unwrap_or};
ghost use Rattle.std.specs.Char.{is_ascii_digit};
ghost use Rattle.std.specs.List.{list_all};
ghost use Rattle.sqindex.specs.Numbers.{is_space, is_point, is_e};
ghost use Rattle.sqindex.specs.Numbers.{unsigned, is_whole, is_fraction, is_mantissa, is_exponent};
ghost use Rattle.sqindex.specs.Numbers.{is_decimal, is_spaced, is_number};

/// Whether a byte is one of SQLite's spaces.
fn is_space(byte: u8) -> bool
    ensures { result ≡ is_space byte }
{
    byte == 32 || (9 <= byte && byte <= 13)
}

/// The place of the first space.
fn first_space(text: &[u8]) -> Option<usize>
    ensures { result ≡ position is_space text.now }
{
    text.iter().position(|b| is_space(*b))
}

/// The place of the first byte that is no space.
fn first_other(text: &[u8]) -> Option<usize>
    ensures { result ≡ position (λ b. not (is_space b)) text.now }
{
    text.iter().position(|b| !is_space(*b))
}

/// The place of the first point.
fn first_point(text: &[u8]) -> Option<usize>
    ensures { result ≡ position is_point text.now }
{
    text.iter().position(|b| *b == 46)
}

/// The place of the first e.
fn first_e(text: &[u8]) -> Option<usize>
    ensures { result ≡ position is_e text.now }
{
    text.iter().position(|b| *b == 69 || *b == 101)
}

/// A text up to a place, and from there on; all of it where there is none.
fn cut(text: &[u8], at: Option<usize>) -> (&[u8], &[u8])
    ensures front { result.0.now ≡ take (unwrap_or at (length text.now)) text.now }
    ensures rest { result.1.now ≡ drop (unwrap_or at (length text.now)) text.now }
{
    let end = at.unwrap_or(text.len()).min(text.len());
    text.split_at(end)
}

/// What stands behind a sign, where there is one.
fn unsigned(text: &[u8]) -> &[u8]
    ensures { result.now ≡ unsigned text.now }
{
    match text {
        [sign, digits @ ..] if *sign == 43 || *sign == 45 => digits,
        _ => text,
    }
}

/// Whether each byte is a digit.
fn are_digits(text: &[u8]) -> bool
    ensures { result ≡ list_all is_ascii_digit text.now }
{
    text.iter().all(|b| b.is_ascii_digit())
}

/// Whether each byte is a space.
fn are_spaces(text: &[u8]) -> bool
    ensures { result ≡ list_all is_space text.now }
{
    text.iter().all(|b| is_space(*b))
}

/// Whether it is one digit, or more.
fn is_whole(text: &[u8]) -> bool
    ensures { result ≡ is_whole text.now }
{
    0 < text.len() && are_digits(text)
}

/// Whether it is nothing, or a point and digits.
fn is_fraction(text: &[u8]) -> bool
    ensures { result ≡ is_fraction text.now }
{
    match text {
        [] => true,
        [_, digits @ ..] => are_digits(digits),
    }
}

/// Whether it is digits, and a point among them or none.
fn is_mantissa(text: &[u8]) -> bool
    ensures { result ≡ is_mantissa text.now }
{
    let (whole, fraction) = cut(text, first_point(text));
    are_digits(whole) && is_fraction(fraction) && (0 < whole.len() || 1 < fraction.len())
}

/// Whether it is nothing, or an e and a whole number.
fn is_exponent(text: &[u8]) -> bool
    ensures { result ≡ is_exponent text.now }
{
    match text {
        [] => true,
        [_, digits @ ..] => is_whole(unsigned(digits)),
    }
}

/// Whether it is a decimal number without a sign.
fn is_decimal(text: &[u8]) -> bool
    ensures { result ≡ is_decimal text.now }
{
    let (mantissa, exponent) = cut(text, first_e(text));
    is_mantissa(mantissa) && is_exponent(exponent)
}

/// Whether it is such a number, and spaces behind it.
fn is_spaced(text: &[u8]) -> bool
    ensures { result ≡ is_spaced text.now }
{
    let (word, spaces) = cut(text, first_space(text));
    is_decimal(word) && are_spaces(spaces)
}

/// Whether a text reads as a number, with spaces around it or none.
pub(crate) fn is_number(text: &[u8]) -> bool
    ensures { result ≡ is_number text.now }
{
    let (_, number) = cut(text, first_other(text));
    is_spaced(unsigned(number))
}
