//! Values as texts.
ghost use Rattle.std.specs.Prelude.{◌≡◌, ◌≢◌, ◌<◌, ◌≤◌, ℕ, ◌+◌, ◌*◌, ◌∷◌, ◌++◌, [], List, OnOk, IsTrue, false, length};
ghost use Rattle.std.specs.Prelude.{slice_index};
ghost use Rattle.std.specs.Io.KnownBytes.{Appends};
ghost use Rattle.std.specs.List.{flat_map};
ghost use Rattle.std.specs.Fmt.{signed_decimal};
ghost use Rattle.hex.specs.Hex.{encode_lower};
ghost use Rattle.sqval.specs.Datum.{datum_of, text as text_datum};
ghost use Rattle.cli_row_text.specs.Lines.{doubled, between_marks, escaped, json_string, tagged_hex};
ghost use Rattle.cli_row_text.specs.Lines.{hex_literal};
ghost use Rattle.cli_row_text.specs.Lines.{is_safe};
ghost use Rattle.cli_row_text.specs.Lines.{integer_text, json_integer, tagged_integer, null_text, float_of, IsReal};
ghost use Rattle.std.specs.Char.{encode_utf8};
ghost use Rattle.sqtext.specs.Texts.{IsTextOf, has_nul_or_cr};
ghost use Rattle.sqtext.specs.internal.Utf16.{IsUtf16Of};
ghost use Rattle.cli_row_text.specs.Lines.{blob_text, plain_text, other_text, wide_text, IsText};
ghost use Rattle.cli_row_text.specs.Lines.{IsPlain, Stands};
ghost use Rattle.cli_row_text.specs.internal.Quoting.{byte_text, mark_of};

use crate::form::{Form, Notation};
use byteorder::{BigEndian, ByteOrder};
use cli_text::write_hex;
use memchr::memchr;
use ryu::Buffer;
use sqdeep::Encoding;
use sqtext::{has_nul_or_cr, split_char};
use sqval::Value;
use std::io::{self, Write};

/// The integers that JSON's readers take as they are.
const SAFE: i64 = 9_007_199_254_740_992;

/// How many bytes come before the first mark.
fn before_mark(mark: u8, bytes: &[u8]) -> usize
    ensures within { result ≤ length bytes.now }
    ensures plain { (k : ℕ) → k < result → slice_index bytes.now k ≢ mark }
{
    memchr(mark, bytes).unwrap_or(bytes.len())
}

/// A byte between two marks, twice where it is one.
fn write_doubled<W: Write>(out: &mut W, mark: u8, byte: u8) -> io::Result<()>
    ensures { OnOk result (Appends (W.contents out.old) (W.contents out.new) (doubled mark byte)) }
{
    if byte == mark {
        out.write_all(&[mark, mark])
    } else {
        out.write_all(&[byte])
    }
}

/// Bytes of which each mark is there twice. Those between two are written at once.
fn write_all_doubled<W: Write>(out: &mut W, mark: u8, bytes: &[u8]) -> io::Result<()>
    ensures { OnOk result (Appends (W.contents out.old) (W.contents out.new) (flat_map (doubled mark) bytes.now)) }
{
    let mut rest = bytes;
    'marks: while !rest.is_empty() {
        let (front, behind) = rest.split_at(before_mark(mark, rest));
        out.write_all(front)?;
        let Some((byte, others)) = behind.split_first() else {
            return Ok(());
        };
        write_doubled(out, mark, *byte)?;
        rest = others;
    }
    Ok(())
}

/// Bytes between two marks, of which each that stands in them is there twice. An error of the writer.
pub fn write_between<W: Write>(out: &mut W, mark: u8, bytes: &[u8]) -> io::Result<()>
    ensures { OnOk result (Appends (W.contents out.old) (W.contents out.new) (between_marks mark bytes.now)) }
{
    out.write_all(&[mark])?;
    write_all_doubled(out, mark, bytes)?;
    out.write_all(&[mark])
}

/// A byte of a string of JSON.
fn write_escaped<W: Write>(out: &mut W, byte: u8) -> io::Result<()>
    ensures { OnOk result (Appends (W.contents out.old) (W.contents out.new) (escaped byte)) }
{
    match byte {
        b'"' => out.write_all(b"\\\""),
        b'\\' => out.write_all(b"\\\\"),
        0..=31 => {
            out.write_all(b"\\u00")?;
            write_hex(out, &[byte])
        }
        _ => out.write_all(&[byte]),
    }
}

/// Whether a byte stands as it is in a string of JSON.
fn stands(byte: u8) -> bool
    ensures { IsTrue result → escaped byte ≡ byte ∷ [] }
{
    byte >= 32 && byte != b'"' && byte != b'\\'
}

/// How many bytes come before the first one that doesn't stand as it is.
fn before_escape(bytes: &[u8]) -> usize
    ensures within { result ≤ length bytes.now }
    ensures plain { (k : ℕ) → k < result → escaped (slice_index bytes.now k) ≡ slice_index bytes.now k ∷ [] }
{
    for i in 0..bytes.len() {
        if !stands(bytes[i]) {
            return i;
        }
    }
    bytes.len()
}

/// The bytes of a string of JSON. Those that stand as they are are written at once.
fn write_all_escaped<W: Write>(out: &mut W, bytes: &[u8]) -> io::Result<()>
    ensures { OnOk result (Appends (W.contents out.old) (W.contents out.new) (flat_map escaped bytes.now)) }
{
    let mut rest = bytes;
    'escapes: while !rest.is_empty() {
        let (front, behind) = rest.split_at(before_escape(rest));
        out.write_all(front)?;
        let Some((byte, others)) = behind.split_first() else {
            return Ok(());
        };
        write_escaped(out, *byte)?;
        rest = others;
    }
    Ok(())
}

/// A string of JSON (RFC 8259). An error of the writer.
pub fn write_string<W: Write>(out: &mut W, bytes: &[u8]) -> io::Result<()>
    ensures { OnOk result (Appends (W.contents out.old) (W.contents out.new) (json_string bytes.now)) }
{
    out.write_all(b"\"")?;
    write_all_escaped(out, bytes)?;
    out.write_all(b"\"")
}

/// Bytes as hex in an object of JSON.
fn write_tagged<W: Write>(out: &mut W, tag: &str, bytes: &[u8]) -> io::Result<()>
    ensures { OnOk result (Appends (W.contents out.old) (W.contents out.new) (tagged_hex tag.now bytes.now)) }
{
    out.write_all(b"{\"")?;
    out.write_all(tag.as_bytes())?;
    out.write_all(b"\":\"")?;
    write_hex(out, bytes)?;
    out.write_all(b"\"}")
}

/// X'..'
fn write_literal<W: Write>(out: &mut W, bytes: &[u8]) -> io::Result<()>
    ensures { OnOk result (Appends (W.contents out.old) (W.contents out.new) (hex_literal bytes.now)) }
{
    out.write_all(b"X'")?;
    write_hex(out, bytes)?;
    out.write_all(b"'")
}

/// A BLOB.
fn write_blob<W: Write>(out: &mut W, notation: Notation, bytes: &[u8]) -> io::Result<()>
    ensures { OnOk result (Appends (W.contents out.old) (W.contents out.new) (blob_text notation bytes.now)) }
{
    match notation {
        Notation::Json => write_tagged(out, "blob", bytes),
        Notation::Csv | Notation::Sql => write_literal(out, bytes),
    }
}

/// A text of UTF-8 that stands as it is.
fn write_utf8<W: Write>(out: &mut W, notation: Notation, text: &[u8]) -> io::Result<()>
    ensures { OnOk result (Appends (W.contents out.old) (W.contents out.new) (plain_text notation text.now)) }
{
    match notation {
        Notation::Json => write_string(out, text),
        Notation::Csv => write_between(out, b'"', text),
        Notation::Sql => write_between(out, b'\'', text),
    }
}

/// Bytes of a text of UTF-8 between its marks.
fn write_inner<W: Write>(out: &mut W, notation: Notation, text: &[u8]) -> io::Result<()>
    ensures { OnOk result (Appends (W.contents out.old) (W.contents out.new)
        (flat_map (byte_text notation) text.now)) }
{
    match notation {
        Notation::Json => write_all_escaped(out, text),
        Notation::Csv => write_all_doubled(out, b'"', text),
        Notation::Sql => write_all_doubled(out, b'\'', text),
    }
}

/// A character between them.
fn write_char<W: Write>(out: &mut W, notation: Notation, c: char) -> io::Result<()>
    ensures { OnOk result (Appends (W.contents out.old) (W.contents out.new)
        (flat_map (byte_text notation) (encode_utf8 c))) }
{
    let mut buffer = [0u8; 4];
    write_inner(out, notation, c.encode_utf8(&mut buffer).as_bytes())
}

/// The characters of UTF-16 between them.
fn write_chars<W: Write>(out: &mut W, notation: Notation, big: bool, bytes: &[u8]) -> io::Result<()>
    ensures { (text : List ℕ) → IsUtf16Of big bytes.now text → OnOk result
        (Appends (W.contents out.old) (W.contents out.new) (flat_map (byte_text notation) text)) }
{
    let mut rest = bytes;
    'chars: while !rest.is_empty() {
        let (c, others) = match split_char(big, rest) {
            Some(found) => found,
            None => return Ok(()),
        };
        write_char(out, notation, c)?;
        rest = others;
    }
    Ok(())
}

/// The mark before and behind a text.
fn mark_of(notation: Notation) -> u8
    ensures { result ≡ mark_of notation }
{
    match notation {
        Notation::Json | Notation::Csv => b'"',
        Notation::Sql => b'\'',
    }
}

/// A text of UTF-16 that stands as its characters.
fn write_utf16<W: Write>(out: &mut W, notation: Notation, big: bool, bytes: &[u8]) -> io::Result<()>
    ensures { (text : List ℕ) → IsUtf16Of big bytes.now text → OnOk result
        (Appends (W.contents out.old) (W.contents out.new) (plain_text notation text)) }
{
    let mark = mark_of(notation);
    out.write_all(&[mark])?;
    write_chars(out, notation, big, bytes)?;
    out.write_all(&[mark])
}

/// A text that stands as its characters.
fn write_plain<W: Write>(out: &mut W, form: Form, bytes: &[u8]) -> io::Result<()>
    ensures { (text : List ℕ) → IsTextOf form.encoding bytes.now text → OnOk result
        (Appends (W.contents out.old) (W.contents out.new) (plain_text form.notation text)) }
{
    match form.encoding {
        Encoding::Utf8 => write_utf8(out, form.notation, bytes),
        Encoding::Utf16Le => write_utf16(out, form.notation, false, bytes),
        Encoding::Utf16Be => write_utf16(out, form.notation, true, bytes),
    }
}

/// Any other text.
fn write_other<W: Write>(out: &mut W, notation: Notation, bytes: &[u8]) -> io::Result<()>
    ensures { OnOk result (Appends (W.contents out.old) (W.contents out.new) (other_text notation bytes.now)) }
{
    match notation {
        Notation::Json => write_tagged(out, "text", bytes),
        Notation::Csv => {
            out.write_all(b"T")?;
            write_literal(out, bytes)
        }
        Notation::Sql => {
            out.write_all(b"CAST(")?;
            write_literal(out, bytes)?;
            out.write_all(b" AS TEXT)")
        }
    }
}

/// NULL.
fn write_null<W: Write>(out: &mut W, notation: Notation) -> io::Result<()>
    ensures { OnOk result (Appends (W.contents out.old) (W.contents out.new) (null_text notation)) }
{
    match notation {
        Notation::Json => out.write_all(b"null"),
        Notation::Csv => Ok(()),
        Notation::Sql => out.write_all(b"NULL"),
    }
}

/// Whether JSON's readers take an integer as it is.
fn is_safe_integer(number: i64) -> bool
    ensures { result ≡ is_safe number }
{
    -SAFE <= number && number <= SAFE
}

/// The digits of an integer.
fn write_number<W: Write>(out: &mut W, number: i64) -> io::Result<()>
    ensures { OnOk result (Appends (W.contents out.old) (W.contents out.new) (signed_decimal number)) }
{
    write!(out, "{number}")
}

/// An integer as a text in an object of JSON.
fn write_tagged_integer<W: Write>(out: &mut W, number: i64) -> io::Result<()>
    ensures { OnOk result (Appends (W.contents out.old) (W.contents out.new) (tagged_integer number)) }
{
    out.write_all(b"{\"integer\":\"")?;
    write_number(out, number)?;
    out.write_all(b"\"}")
}

/// An integer as JSON.
fn write_json_integer<W: Write>(out: &mut W, number: i64) -> io::Result<()>
    ensures { OnOk result (Appends (W.contents out.old) (W.contents out.new) (json_integer number)) }
{
    if is_safe_integer(number) {
        write_number(out, number)
    } else {
        write_tagged_integer(out, number)
    }
}

/// An integer. An error of the writer.
pub fn write_integer<W: Write>(out: &mut W, notation: Notation, number: i64) -> io::Result<()>
    ensures { OnOk result (Appends (W.contents out.old) (W.contents out.new) (integer_text notation number)) }
{
    match notation {
        Notation::Json => write_json_integer(out, number),
        Notation::Csv | Notation::Sql => write_number(out, number),
    }
}

/// A number that isn't finite.
fn write_wide<W: Write>(out: &mut W, notation: Notation, number: f64) -> io::Result<()>
    ensures { OnOk result (Appends (W.contents out.old) (W.contents out.new) (wide_text notation number)) }
{
    if number.is_nan() {
        return write_null(out, notation);
    }
    if number.is_sign_negative() {
        out.write_all(b"-9e999")
    } else {
        out.write_all(b"9e999")
    }
}

/// A floating-point number of eight bytes.
fn write_real<W: Write>(out: &mut W, notation: Notation, bytes: [u8; 8]) -> io::Result<()>
    ensures { OnOk result ((t : List ℕ) × IsReal notation (float_of bytes) t
        × Appends (W.contents out.old) (W.contents out.new) t) }
{
    let number = BigEndian::read_f64(&bytes);
    if !number.is_finite() {
        return write_wide(out, notation, number);
    }
    let mut buffer = Buffer::new();
    out.write_all(buffer.format_finite(number).as_bytes())
}

/// Whether a text is written as its characters. `found` is whether NUL or CR is among them.
fn can_stand(notation: Notation, found: bool) -> bool
    ensures yes { IsTrue result → (text : List ℕ) → found ≡ has_nul_or_cr text → Stands notation text }
    ensures not { result ≡ false → (text : List ℕ) → found ≡ has_nul_or_cr text → ¬ Stands notation text }
{
    match notation {
        Notation::Json | Notation::Csv => true,
        Notation::Sql => !found,
    }
}

/// Whether a text of these bytes stands as its characters.
fn is_plain(form: Form, bytes: &[u8]) -> bool
    ensures yes { IsTrue result → (text : List ℕ) × IsPlain form bytes.now text }
    ensures not { result ≡ false → (text : List ℕ) → ¬ IsPlain form bytes.now text }
{
    match has_nul_or_cr(form.encoding, bytes) {
        Some(found) => can_stand(form.notation, found),
        None => false,
    }
}

/// A text of these bytes.
fn write_text<W: Write>(out: &mut W, form: Form, bytes: &[u8]) -> io::Result<()>
    ensures { OnOk result ((t : List ℕ) × IsText form (text_datum bytes.now) t
        × Appends (W.contents out.old) (W.contents out.new) t) }
{
    if is_plain(form, bytes) {
        write_plain(out, form, bytes)
    } else {
        write_other(out, form.notation, bytes)
    }
}

/// A value. An error of the writer.
pub fn write_value<W: Write>(out: &mut W, form: Form, value: Value<'_>) -> io::Result<()>
    ensures { OnOk result ((t : List ℕ) × IsText form (datum_of value.entry) t
        × Appends (W.contents out.old) (W.contents out.new) t) }
{
    match value {
        Value::Null => write_null(out, form.notation),
        Value::Int(number) => write_integer(out, form.notation, number),
        Value::Real(bytes) => write_real(out, form.notation, bytes),
        Value::Text(bytes) => write_text(out, form, bytes),
        Value::Blob(bytes) => write_blob(out, form.notation, bytes),
    }
}
