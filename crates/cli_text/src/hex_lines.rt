//! Bytes as hex.
ghost use Rattle.std.specs.Prelude.{◌≡◌, OnOk};
ghost use Rattle.std.specs.Io.KnownBytes.{Appends};
ghost use Rattle.hex.specs.Hex.{encode_lower};
ghost use Rattle.cli_text.specs.HexLines.{bytes_line, bytes_text, hex_end_text, place_text};

use cli_words::Style;
use std::fmt;
use std::io::{self, Write};

/// How many bytes are written as hex at once.
const HEX_PIECE: usize = 512;

/// Bytes in lower-case hex. An error of the writer.
pub fn write_hex<W: Write>(out: &mut W, bytes: &[u8]) -> io::Result<()>
    ensures { OnOk result (Appends (W.contents out.old) (W.contents out.new) (encode_lower bytes.now)) }
{
    let mut text = [0u8; 2 * HEX_PIECE];
    let mut rest = bytes;
    while !rest.is_empty() {
        let (piece, more) = rest.split_at(rest.len().min(HEX_PIECE));
        let digits = &mut text[..2 * piece.len()];
        hex::encode_to_slice(piece, digits).unwrap();
        out.write_all(digits)?;
        rest = more;
    }
    Ok(())
}

/// What stands behind hex at the end of a line.
pub(crate) fn hex_end(style: Style) -> &'static str
    ensures { result.now ≡ hex_end_text style }
{
    match style {
        Style::Lines => "\n",
        Style::Json => "\"}\n",
    }
}

/// A place in a page, in hex, of four digits at least.
#[derive(Clone, Copy)]
struct HexPlace(usize);

impl fmt::Display for HexPlace {
    ghost use Rattle.std.specs.Prelude.{Some};
    ghost use Rattle.cli_text.specs.Facts.{hex_padded};

    ghost output = { λ x. Some (hex_padded 4 x.0) };

    fn fmt<W: fmt::Write>(&self, f: &mut fmt::Formatter<W>) -> fmt::Result {
        let at = self.0;
        write!(f, "{at:04x}")
    }
}

/// The place of bytes.
fn write_place<W: Write>(out: &mut W, style: Style, at: usize) -> io::Result<()>
    ensures { OnOk result (Appends (W.contents out.old) (W.contents out.new) (place_text style at)) }
{
    match style {
        Style::Lines => write!(out, "{} ", HexPlace(at)),
        Style::Json => write!(out, "{{\"at\":{at},\"bytes\":\""),
    }
}

/// Bytes at their place.
fn write_bytes_line<W: Write>(out: &mut W, style: Style, at: usize, bytes: &[u8]) -> io::Result<()>
    ensures { OnOk result (Appends (W.contents out.old) (W.contents out.new) (bytes_line style at bytes.now)) }
{
    write_place(out, style, at)?;
    write_hex(out, bytes)?;
    out.write_all(hex_end(style).as_bytes())
}

/// Every 16 bytes of a page: their place and they themselves in hex. An error of the writer.
pub fn write_bytes<W: Write>(out: &mut W, style: Style, page: &[u8]) -> io::Result<()>
    ensures { OnOk result (Appends (W.contents out.old) (W.contents out.new) (bytes_text style page.now)) }
{
    for k in 0..page.len().div_ceil(16) {
        let at = k * 16;
        let (_, rest) = page.split_at(at);
        write_bytes_line(out, style, at, &rest[..rest.len().min(16)])?;
    }
    Ok(())
}
