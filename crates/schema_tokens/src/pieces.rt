//! A text's tokens, one after another.
ghost use Rattle.std.specs.Prelude.{◌≡◌, ◌==◌, ◌≤◌, not, length, take_while, filter, IfOk};
ghost use Rattle.schema_tokens.specs.Pieces.{text_of, is_token, IsReading, IsOnlyReading};

use crate::bytes::after;
use crate::forms::form;
use crate::kinds::{Kind, Piece};
use crate::runs::up_to;
use std::alloc::{AllocError, Global};

/// A text as tokens and spaces.
#[derive(Debug, Drop)]
pub struct Reading {
    /// Each begins at the end of the one before.
    pub pieces: Vec<Piece>,
    /// The end of the text, or its first byte that begins no token.
    pub end: usize,
}

/// The bytes of a text: up to its first NUL.
#[tactic(auto, unfolding(crate::specs::Pieces::text_of))]
pub fn text_of(bytes: &[u8]) -> &[u8]
    ensures { result.now ≡ text_of bytes.now }
{
    &bytes[..up_to(bytes, 0)]
}

/// The tokens and spaces of a text. Each byte is read at most four times.
#[tactic(auto, using(crate::proofs::Chain::only))]
pub fn read(alloc: Global, bytes: &[u8]) -> Result<Reading, AllocError>
    ensures reading { IfOk result (λ r. IsReading bytes.now r.pieces.items r.end) }
    ensures only { IfOk result (λ r. IsOnlyReading bytes.now r.pieces.items r.end) }
{
    let text = text_of(bytes);
    let mut pieces = Vec::new(alloc);
    let mut at = 0;
    while let Some(found) = form(after(text, at)) {
        let to = at + found.length;
        pieces.push(Piece {
            kind: found.kind,
            from: at,
            to,
        })?;
        at = to;
    }
    Ok(Reading { pieces, end: at })
}

/// Whether a piece is a token, and no space.
pub fn is_token(piece: &Piece) -> bool
    ensures { result ≡ is_token piece.now }
{
    !matches!(
        piece.kind,
        Kind::Blanks | Kind::ByteOrderMark | Kind::LineComment | Kind::BlockComment
    )
}

/// The tokens among pieces.
pub fn tokens(alloc: Global, pieces: &[Piece]) -> Result<Vec<Piece>, AllocError>
    ensures { IfOk result (λ v. v.items ≡ filter is_token pieces.now) }
{
    pieces.iter().copied().filter(is_token).collect(alloc)
}
