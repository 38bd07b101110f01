//! The keywords in texts of a schema that stand for what a deep check doesn't judge (SQLite's lang_createtable and
//! partialindex).
ghost use Rattle.std.specs.Prelude.{◌≡◌, IfOk, Some, count_by};
ghost use Rattle.sqschema.specs.Items.{seen};
ghost use Rattle.sqdeepjudge.specs.NotJudged.{is_keyword, HasWords};

use schema_tokens::{Kind, Piece, after, is_same_word, read};
use sqschema::Item;
use std::alloc::{AllocError, Global};

/// The longest text that is read (own): reading it takes memory for some 24 times its bytes.
const MOST_TEXT: usize = 1_048_576;

/// How often a text has the keywords CHECK, REFERENCES and WHERE.
#[derive(Clone, Copy)]
pub(crate) struct Words {
    pub(crate) checks: usize,
    pub(crate) references: usize,
    pub(crate) wheres: usize,
}

/// Whether a token of a text is this keyword, which is no name.
fn is_keyword(sql: &[u8], word: &[u8], piece: &Piece) -> bool
    ensures { result ≡ is_keyword sql.now word.now piece.now }
{
    let tail = after(sql, piece.from);
    let length = piece.to.saturating_sub(piece.from).min(tail.len());
    matches!(piece.kind, Kind::Reserved) && is_same_word(&tail[..length], word)
}

/// How many tokens of a text are this keyword.
fn count_of(sql: &[u8], word: &[u8], pieces: &[Piece]) -> usize
    ensures { result ≡ count_by (is_keyword sql.now word.now) pieces.now }
{
    pieces
        .iter()
        .filter(|piece| is_keyword(sql, word, piece))
        .count()
}

/// How often a text has each keyword.
fn words_in(alloc: Global, sql: &[u8]) -> Result<Words, AllocError>
    ensures { IfOk result (HasWords (Some sql.now)) }
{
    if sql.len() > MOST_TEXT {
        return Ok(NO_WORDS);
    }
    let reading = read(alloc, sql)?;
    Ok(Words {
        checks: count_of(sql, b"check", &reading.pieces),
        references: count_of(sql, b"references", &reading.pieces),
        wheres: count_of(sql, b"where", &reading.pieces),
    })
}

/// None of them.
const NO_WORDS: Words = Words {
    checks: 0,
    references: 0,
    wheres: 0,
};

/// How often the text of an object has each keyword: none of an index without a text.
pub(crate) fn words_of(alloc: Global, item: &Item) -> Result<Words, AllocError>
    ensures { IfOk result (HasWords (seen item.now).sql) }
{
    match &item.sql {
        Some(sql) => words_in(alloc, sql),
        None => Ok(NO_WORDS),
    }
}
