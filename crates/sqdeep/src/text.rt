//! Texts in the encodings of a database (fileformat2, 1.3.13).
ghost use Rattle.std.specs.Prelude.{◌≡◌, ◌↔◌, ◌+◌, ◌*◌, ◌<◌, ◌≤◌, ◌^◌, IsTrue, length};
ghost use Rattle.sqdeep.specs.Texts.{encoding_named, unit, is_high, is_low, IsUtf16, IsTextIn};

/// How the texts of a database are stored.
#[derive(Clone, Copy, Debug, PartialEq, Eq)]
pub enum Encoding {
    Utf8,
    /// UTF-16, the lower byte of a unit first.
    Utf16Le,
    /// UTF-16, the higher byte first.
    Utf16Be,
}

impl Encoding {
    /// The encoding that a number of the header stands for.
    pub(crate) fn named(number: u32) -> Encoding
        ensures { result ≡ encoding_named number }
    {
        match number {
            2 => Encoding::Utf16Le,
            3 => Encoding::Utf16Be,
            _ => Encoding::Utf8,
        }
    }
}

/// Unit `k` of UTF-16.
fn unit_at(big: bool, bytes: &[u8], k: usize) -> u16
    requires { 2 * k + 1 < length bytes.now }
    ensures { result ≡ unit big bytes.now k }
{
    let first = u16::from(bytes[2 * k]);
    let second = u16::from(bytes[2 * k + 1]);
    if big {
        first * 256 + second
    } else {
        second * 256 + first
    }
}

/// Whether a unit is the first one of a pair.
fn begins_pair(unit: u16) -> bool
    ensures { result ≡ is_high unit }
{
    0xD800 <= unit && unit < 0xDC00
}

/// Whether it is the second one.
fn ends_pair(unit: u16) -> bool
    ensures { result ≡ is_low unit }
{
    0xDC00 <= unit && unit < 0xE000
}

/// Whether the bytes are UTF-16.
fn is_utf16(big: bool, bytes: &[u8]) -> bool
    ensures { IsTrue result ↔ IsUtf16 big bytes.now }
{
    if bytes.len() % 2 != 0 {
        return false;
    }
    let mut high = false;
    'units: for k in 0..bytes.len() / 2 {
        let unit = unit_at(big, bytes, k);
        if ends_pair(unit) != high {
            return false;
        }
        high = begins_pair(unit);
    }
    !high
}

/// Whether the bytes are a text in this encoding.
pub(crate) fn is_text(encoding: Encoding, bytes: &[u8]) -> bool
    ensures { IsTrue result ↔ IsTextIn encoding bytes.now }
{
    match encoding {
        Encoding::Utf8 => str::from_utf8(bytes).is_ok(),
        Encoding::Utf16Le => is_utf16(false, bytes),
        Encoding::Utf16Be => is_utf16(true, bytes),
    }
}
