//! How a text is printed: as it is, with other blanks, as a row, or as a comment.
ghost use Rattle.std.specs.Prelude.{◌≡◌, ◌↔◌, bytes_eq, filter, length, true, IsTrue, IfSome, IfOk};
ghost use Rattle.std.specs.List.{list_all};
ghost use Rattle.schema_tokens.specs.Pieces.{is_token, IsReading};
ghost use Rattle.schema_print.specs.Statements.{bytes_of, head_of};
ghost use Rattle.schema_print.specs.Printable.{makes_virtual_table, IsSpacing, IsPrintedOf, IsPrinted};

use crate::heads::{bytes_of, head_of};
use crate::refusals::{
    Printed, Row, Why, is_plain, is_terminator, is_virtual, last_byte, refused, statement,
};
use schema_tokens::{Piece, after, is_token, read, tokens};
use std::alloc::{AllocError, Global};

/// A byte of a space, in front of `rest`, as one that the shell reads as a space too.
fn plain_blank(b: u8, rest: &[u8]) -> u8 {
    let ends = b == b'\n' && is_terminator(rest);
    if ends || b == b'\r' || b == 11 {
        b' '
    } else {
        b
    }
}

/// The text of these pieces up to `last`, with plain blanks. `spaced` judges the result.
fn with_plain_blanks(
    alloc: Global,
    text: &[u8],
    pieces: &[Piece],
    last: usize,
) -> Result<Vec<u8>, AllocError> {
    let cut = &text[..last.min(text.len())];
    let mut out = Vec::new(alloc);
    for piece in pieces {
        let keeps = is_token(piece);
        let mut rest = after(cut, piece.from);
        for b in bytes_of(cut, piece) {
            rest = after(rest, 1);
            out.push(if keeps { *b } else { plain_blank(*b, rest) })?;
        }
    }
    Ok(out)
}

fn has_same_tokens(a: &[Piece], b: &[Piece]) -> bool
    ensures { IsTrue result ↔ (a.now ≡ b.now) }
{
    a == b
}

fn has_same_bytes(a: &[u8], b: &[u8], tokens: &[Piece]) -> bool
    ensures { result ≡ list_all (λ p. bytes_eq (bytes_of a.now p) (bytes_of b.now p)) tokens.now }
{
    tokens.iter().all(|p| bytes_of(a, p) == bytes_of(b, p))
}

/// The text of a statement with plain blanks; None if it would have other tokens, or isn't plain all the same.
fn spaced(
    alloc: Global,
    text: &[u8],
    pieces: &[Piece],
    statement: &[Piece],
) -> Result<Option<Vec<u8>>, AllocError>
    ensures { IfOk result (λ o. IfSome o (λ v. IsSpacing text.now statement.now v.items)) }
{
    let out = with_plain_blanks(alloc, text, pieces, last_byte(statement))?;
    let reading = read(alloc, out.as_slice())?;
    let found = tokens(alloc, reading.pieces.as_slice())?;
    let whole = reading.end == out.len();
    if whole
        && has_same_tokens(found.as_slice(), statement)
        && has_same_bytes(out.as_slice(), text, statement)
        && is_plain(out.as_slice(), reading.pieces.as_slice(), out.len())
    {
        Ok(Some(out))
    } else {
        Ok(None)
    }
}

fn makes_virtual_table(text: &[u8], tokens: &[Piece]) -> bool
    ensures { result ≡ makes_virtual_table (head_of text.now tokens.now) }
{
    match head_of(text, tokens) {
        None => false,
        Some(head) => is_virtual(head.object),
    }
}

/// How a text is printed that is read as these pieces up to `end`.
fn printed_of(
    alloc: Global,
    text: &[u8],
    pieces: &[Piece],
    end: usize,
    row: Row<'_>,
) -> Result<Printed, AllocError>
    ensures { IfOk result (λ p. IsPrintedOf text.now pieces.now end row.entry p) }
{
    let all = tokens(alloc, pieces)?;
    if let Some(why) = refused(alloc, text, all.as_slice(), end, row)? {
        return Ok(Printed::Comment(why));
    }
    let statement = statement(all.as_slice());
    if makes_virtual_table(text, statement) {
        return Ok(Printed::RowOfSchema);
    }
    let last = last_byte(statement);
    if is_plain(text, pieces, last) {
        return Ok(Printed::AsItIs(last));
    }
    match spaced(alloc, text, pieces, statement)? {
        Some(out) => Ok(Printed::Spaced(out)),
        None => Ok(Printed::Comment(Why::NotSpaced)),
    }
}

/// How the text of a row is printed in a script. Takes time linear in the text.
pub fn printable(alloc: Global, text: &[u8], row: Row<'_>) -> Result<Printed, AllocError>
    ensures { IfOk result (λ p. IsPrinted text.now row.entry p) }
{
    let reading = read(alloc, text)?;
    printed_of(alloc, text, reading.pieces.as_slice(), reading.end, row)
}
