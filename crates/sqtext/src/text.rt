//! Texts of a database as UTF-8.
ghost use Rattle.std.specs.Prelude.{◌≡◌, ◌++◌, ◌||◌, ℕ, List, IfOk, MatchOption, false, true};
ghost use Rattle.std.specs.Char.{encode_utf8, IsScalar};
ghost use Rattle.sqdeep.specs.Texts.{encoding_named};
ghost use Rattle.sqtext.specs.Texts.{IsNoText, IsReadAs, IsTextOf, has_nul_or_cr};
ghost use Rattle.sqtext.specs.internal.Utf16.{IsNoUtf16, IsUtf16Of, IsUtf16ReadAs};

use crate::utf16::split_char;
use sqdeep::Encoding;
use std::alloc::{AllocError, Global};
use std::str;

/// The encoding that a number of the header stands for: UTF-16 for 2 and 3, UTF-8 for any other.
pub fn encoding_named(number: u32) -> Encoding
    ensures { result ≡ encoding_named number }
{
    match number {
        2 => Encoding::Utf16Le,
        3 => Encoding::Utf16Be,
        _ => Encoding::Utf8,
    }
}

/// Whether bytes have a zero or a 13.
fn bytes_have_nul_or_cr(bytes: &[u8]) -> bool
    ensures { result ≡ has_nul_or_cr bytes.now }
{
    bytes.iter().any(|b| *b == 0 || *b == b'\r')
}

/// Whether NUL or CR was found, or is the character.
fn found_or_is(found: bool, c: char) -> bool
    ensures { result ≡ (found || has_nul_or_cr (encode_utf8 c)) }
{
    let mut buffer = [0u8; 4];
    let text = c.encode_utf8(&mut buffer);
    found || bytes_have_nul_or_cr(text.as_bytes())
}

/// Whether a text of UTF-16 has the character NUL or CR.
fn utf16_has_nul_or_cr(big: bool, bytes: &[u8]) -> Option<bool>
    ensures { MatchOption result (IsNoUtf16 big bytes.now)
        (λ found. (text : List ℕ) × IsUtf16Of big bytes.now text × (found ≡ has_nul_or_cr text)) }
{
    let mut rest = bytes;
    let mut found = false;
    'chars: while !rest.is_empty() {
        let (c, others) = match split_char(big, rest) {
            Some(split) => split,
            None => return None,
        };
        found = found_or_is(found, c);
        rest = others;
    }
    Some(found)
}

/// Whether a text has the character NUL or CR. None if the bytes are no text in this encoding.
pub fn has_nul_or_cr(encoding: Encoding, bytes: &[u8]) -> Option<bool>
    ensures { MatchOption result (IsNoText encoding bytes.now)
        (λ found. (text : List ℕ) × IsTextOf encoding bytes.now text × (found ≡ has_nul_or_cr text)) }
{
    match encoding {
        Encoding::Utf8 => match str::from_utf8(bytes) {
            Ok(_) => Some(bytes_have_nul_or_cr(bytes)),
            Err(_) => None,
        },
        Encoding::Utf16Le => utf16_has_nul_or_cr(false, bytes),
        Encoding::Utf16Be => utf16_has_nul_or_cr(true, bytes),
    }
}

/// Adds a character.
fn add(text: &mut Vec<u8>, c: char) -> Result<(), AllocError>
    ensures { IfOk result (λ _. text.new.items ≡ text.old.items ++ encode_utf8 c) }
{
    let mut buffer = [0u8; 4];
    text.extend_from_slice(c.encode_utf8(&mut buffer).as_bytes())
}

/// What bytes of UTF-16 are read as.
fn utf16_decoded(alloc: Global, big: bool, bytes: &[u8]) -> Result<Vec<u8>, AllocError>
    ensures { IfOk result (λ read. IsUtf16ReadAs big bytes.now read.items) }
{
    let mut text = Vec::new(alloc);
    let mut rest = bytes;
    'chars: while !rest.is_empty() {
        let (c, others) = match split_char(big, rest) {
            Some(found) => found,
            None => return Vec::from_slice(alloc, bytes),
        };
        add(&mut text, c)?;
        rest = others;
    }
    Ok(text)
}

/// A text of a database in UTF-8. Bytes that are no text in its encoding stay as they are.
pub fn decoded(alloc: Global, encoding: Encoding, bytes: &[u8]) -> Result<Vec<u8>, AllocError>
    ensures { IfOk result (λ read. IsReadAs encoding bytes.now read.items) }
{
    match encoding {
        Encoding::Utf8 => Vec::from_slice(alloc, bytes),
        Encoding::Utf16Le => utf16_decoded(alloc, false, bytes),
        Encoding::Utf16Be => utf16_decoded(alloc, true, bytes),
    }
}
