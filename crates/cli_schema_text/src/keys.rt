//! Texts of tables that count their keys.
ghost use Rattle.std.specs.Prelude.{◌≡◌, IfOk};
ghost use Rattle.std.specs.List.{list_any};
ghost use Rattle.cli_schema_text.specs.Keys.{CountsKeys, is_counting};

use schema_print::bytes_of;
use schema_tokens::{Piece, is_same_word, is_token, read};
use std::alloc::{AllocError, Global};

/// Whether a piece of a text is the keyword AUTOINCREMENT.
fn is_counting(text: &[u8], piece: &Piece) -> bool
    ensures { result ≡ is_counting text.now piece.now }
{
    is_token(piece) && is_same_word(b"AUTOINCREMENT", bytes_of(text, piece))
}

/// Whether some piece is.
fn has_counting(text: &[u8], pieces: &[Piece]) -> bool
    ensures { result ≡ list_any (λ p. is_counting text.now p) pieces.now }
{
    pieces.iter().any(|piece| is_counting(text, piece))
}

/// Whether the text of a table has the keyword AUTOINCREMENT, at which SQLite makes sqlite_sequence. Takes time linear
/// in the text.
pub fn counts_keys(alloc: Global, sql: &[u8]) -> Result<bool, AllocError>
    ensures { IfOk result (CountsKeys sql.now) }
{
    let reading = read(alloc, sql)?;
    Ok(has_counting(sql, reading.pieces.as_slice()))
}
