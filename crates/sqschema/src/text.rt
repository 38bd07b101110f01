//! Texts in the encodings of a database as UTF-8 (fileformat2, 1.3.13).
ghost use Rattle.std.specs.Prelude.{◌≡◌, ◌+◌, ◌*◌, ◌<◌, IfOk, length};
ghost use Rattle.std.specs.Char.Utf16.{utf16_lossy_chars};
ghost use Rattle.std.specs.Str.{encode_utf8_all};
ghost use Rattle.sqdeep.specs.Texts.{encoding_named, unit};
ghost use Rattle.sqschema.specs.Texts.{units_of, utf8_of};

use sqdeep::Encoding;
use std::alloc::{AllocError, Global};

/// The encoding that a number of the header stands for.
pub(crate) fn named(number: u32) -> Encoding
    ensures { result ≡ encoding_named number }
{
    match number {
        2 => Encoding::Utf16Le,
        3 => Encoding::Utf16Be,
        _ => Encoding::Utf8,
    }
}

/// Unit `k` of UTF-16.
fn unit_at(big: bool, bytes: &[u8], k: usize) -> u16
    requires { 2 * k + 1 < length bytes.now }
    ensures { result ≡ unit big bytes.now k }
{
    let first = u16::from(bytes[2 * k]);
    let second = u16::from(bytes[2 * k + 1]);
    if big {
        first * 256 + second
    } else {
        second * 256 + first
    }
}

/// The units of UTF-16.
fn units(alloc: Global, big: bool, bytes: &[u8]) -> Result<Vec<u16>, AllocError>
    ensures { IfOk result (λ units. units.items ≡ units_of big bytes.now) }
{
    let count = bytes.len() / 2;
    let mut units = Vec::with_capacity(alloc, count)?;
    for k in 0..count {
        units.push(unit_at(big, bytes, k))?;
    }
    Ok(units)
}

/// The bytes of a text of UTF-16 in UTF-8.
fn utf8_from(alloc: Global, big: bool, bytes: &[u8]) -> Result<Vec<u8>, AllocError>
    ensures { IfOk result (λ text. text.items ≡ encode_utf8_all (utf16_lossy_chars (units_of big bytes.now))) }
{
    let units = units(alloc, big, bytes)?;
    let text = String::from_utf16_lossy(alloc, &units)?;
    Ok(text.into_bytes())
}

/// The bytes of a text in UTF-8. In UTF-16 U+FFFD stands for a unit of a pair that stands alone, and a byte behind the
/// last unit is left out.
pub(crate) fn utf8(alloc: Global, encoding: Encoding, bytes: &[u8]) -> Result<Vec<u8>, AllocError>
    ensures { IfOk result (λ text. text.items ≡ utf8_of encoding bytes.now) }
{
    match encoding {
        Encoding::Utf8 => Vec::from_slice(alloc, bytes),
        Encoding::Utf16Le => utf8_from(alloc, false, bytes),
        Encoding::Utf16Be => utf8_from(alloc, true, bytes),
    }
}
