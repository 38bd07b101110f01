//! The characters of UTF-16, one by one.
ghost use Rattle.std.specs.Prelude.{◌≡◌, ◌≢◌, ◌<◌, ◌++◌, ◌∷◌, [], ℕ, List, MatchOption, length};
ghost use Rattle.std.specs.Char.{IsScalar};
ghost use Rattle.std.specs.Char.Escape.{encode_utf16};
ghost use Rattle.sqtext.specs.Texts.{BeginsWithNoChar, unit_bytes, utf16_bytes};

/// The unit of these two bytes.
fn unit_of(big: bool, first: u8, second: u8) -> u16
    ensures { unit_bytes big result ≡ first ∷ second ∷ [] }
{
    if big {
        u16::from(first) * 256 + u16::from(second)
    } else {
        u16::from(second) * 256 + u16::from(first)
    }
}

/// The first unit, and what stands behind it. None where fewer than two bytes are there.
fn split_unit(big: bool, bytes: &[u8]) -> Option<(u16, &[u8])>
    ensures { MatchOption result (length bytes.now < 2) (λ r. bytes.now ≡ unit_bytes big r.0 ++ r.1.now) }
{
    if bytes.len() < 2 {
        return None;
    }
    Some((unit_of(big, bytes[0], bytes[1]), &bytes[2..]))
}

/// The character that a unit is by itself. None where it is one of a pair.
fn lone_char(unit: u16) -> Option<char>
    ensures { MatchOption result ((c : ℕ) → IsScalar c → encode_utf16 c ≢ unit ∷ [])
        (λ c. IsScalar c × (encode_utf16 c ≡ unit ∷ [])) }
{
    char::from_u32(u32::from(unit))
}

/// The character that two units are. None where they are no pair.
fn pair_char(high: u16, low: u16) -> Option<char>
    ensures { MatchOption result ((c : ℕ) → IsScalar c → encode_utf16 c ≢ high ∷ low ∷ [])
        (λ c. IsScalar c × (encode_utf16 c ≡ high ∷ low ∷ [])) }
{
    if high < 0xD800 || 0xDC00 <= high || low < 0xDC00 || 0xE000 <= low {
        return None;
    }
    let code = 0x1_0000 + (u32::from(high) - 0xD800) * 0x400 + (u32::from(low) - 0xDC00);
    char::from_u32(code)
}

/// The character of a first unit and a second one that stands behind it.
fn split_pair(big: bool, high: u16, bytes: &[u8]) -> Option<(char, &[u8])>
    ensures { MatchOption result
        ((c low : ℕ) (rest : List ℕ) → IsScalar c → bytes.now ≡ unit_bytes big low ++ rest
        → encode_utf16 c ≢ high ∷ low ∷ [])
        (λ r. IsScalar r.0 × ((low : ℕ) × (encode_utf16 r.0 ≡ high ∷ low ∷ [])
        × (bytes.now ≡ unit_bytes big low ++ r.1.now))) }
{
    let (low, rest) = match split_unit(big, bytes) {
        Some(found) => found,
        None => return None,
    };
    match pair_char(high, low) {
        Some(c) => Some((c, rest)),
        None => None,
    }
}

/// The first character of UTF-16, whose units have the higher byte first or last, and what stands behind it. None where
/// the bytes begin with no character: where fewer than two are left, or with a unit of a pair that stands alone.
pub fn split_char(big: bool, bytes: &[u8]) -> Option<(char, &[u8])>
    ensures { MatchOption result (BeginsWithNoChar big bytes.now)
        (λ r. IsScalar r.0 × (bytes.now ≡ utf16_bytes big r.0 ++ r.1.now)) }
{
    let (unit, rest) = match split_unit(big, bytes) {
        Some(found) => found,
        None => return None,
    };
    match lone_char(unit) {
        Some(c) => Some((c, rest)),
        None => split_pair(big, unit, rest),
    }
}
