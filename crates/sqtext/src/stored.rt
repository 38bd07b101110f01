//! Texts of UTF-8 as a database stores them.
ghost use Rattle.std.specs.Prelude.{◌≡◌, ◌++◌, IfOk};
ghost use Rattle.std.specs.List.{flat_map};
ghost use Rattle.sqtext.specs.Texts.{IsStoredAs, unit_bytes, utf16_bytes};
ghost use Rattle.sqtext.specs.internal.Utf16.{IsUtf16Of};

use sqdeep::Encoding;
use std::alloc::{AllocError, Global};
use std::str;

/// Adds the two bytes of a unit.
fn add_unit(bytes: &mut Vec<u8>, big: bool, unit: u16) -> Result<(), AllocError>
    ensures { IfOk result (λ _. bytes.new.items ≡ bytes.old.items ++ unit_bytes big unit) }
{
    let high = (unit / 256) as u8;
    let low = (unit % 256) as u8;
    if big {
        bytes.extend_from_slice(&[high, low])
    } else {
        bytes.extend_from_slice(&[low, high])
    }
}

/// Adds units.
#[tactic(auto, using(crate::proofs::TextsStored::units_more))]
fn add_units(bytes: &mut Vec<u8>, big: bool, units: &[u16]) -> Result<(), AllocError>
    ensures { IfOk result (λ _. bytes.new.items ≡ bytes.old.items ++ flat_map (unit_bytes big) units.now) }
{
    for unit in units {
        add_unit(bytes, big, *unit)?;
    }
    Ok(())
}

/// Adds a character.
fn add_char(bytes: &mut Vec<u8>, big: bool, c: char) -> Result<(), AllocError>
    ensures { IfOk result (λ _. bytes.new.items ≡ bytes.old.items ++ utf16_bytes big c) }
{
    let mut buffer = [0u16; 2];
    add_units(bytes, big, c.encode_utf16(&mut buffer))
}

/// A text in UTF-16.
fn utf16_encoded(alloc: Global, big: bool, text: &str) -> Result<Vec<u8>, AllocError>
    ensures { IfOk result (λ bytes. IsUtf16Of big bytes.items text.now) }
{
    let mut bytes = Vec::new(alloc);
    for c in text.chars() {
        add_char(&mut bytes, big, c)?;
    }
    Ok(bytes)
}

/// What a text of UTF-8 is stored as in an encoding. Bytes that are no UTF-8 stay as they are.
pub fn encoded(alloc: Global, encoding: Encoding, text: &[u8]) -> Result<Vec<u8>, AllocError>
    ensures { IfOk result (λ bytes. IsStoredAs encoding text.now bytes.items) }
{
    match (encoding, str::from_utf8(text)) {
        (Encoding::Utf16Le, Ok(text)) => utf16_encoded(alloc, false, text),
        (Encoding::Utf16Be, Ok(text)) => utf16_encoded(alloc, true, text),
        _ => Vec::from_slice(alloc, text),
    }
}
