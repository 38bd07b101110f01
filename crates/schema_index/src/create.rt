//! CREATE INDEX.
ghost use Rattle.std.specs.Prelude.{◌≡◌, ◌<◌, List, Some, IfOk, IfSome};
ghost use Rattle.schema_tokens.specs.declared.kinds.Piece.{Piece};
ghost use Rattle.schema_index.specs.Create.{makes_index, is_condition, index_from, index_of};
ghost use Rattle.schema_index.specs.Texts.{IsIndexText, IsIndexHeld};
ghost use Rattle.schema_index.specs.declared.create.Index.{Index};

use schema_print::{Head, Object, head_of};
use schema_text::{group_length, is_name, is_word, later, statement_of};
use schema_tokens::{Piece, text_of};
use std::alloc::{AllocError, Global};

/// A CREATE INDEX statement.
#[derive(Clone, Copy, Debug, PartialEq, Eq)]
pub struct Index {
    pub head: Head,
    pub unique: bool,
    /// Which token is its table's name.
    pub table: usize,
    /// The first token of its terms.
    pub first: usize,
    /// The `)` after its terms.
    pub close: usize,
    /// The first token of the expression after WHERE, which goes on to the statement's end.
    pub condition: Option<usize>,
}

/// A CREATE INDEX statement and its tokens.
#[derive(Debug, Drop)]
pub struct IndexText {
    /// The tokens of the statement, without spaces. Their places are in the text.
    pub tokens: Vec<Piece>,
    pub index: Index,
}

fn makes_index(object: Object) -> bool
    ensures { result ≡ makes_index object }
{
    matches!(object, Object::Index)
}

#[tactic(auto, unfolding(crate::specs::Create::is_condition))]
fn is_condition(text: &[u8], tokens: &[Piece]) -> bool
    ensures { result ≡ is_condition text.now tokens.now }
{
    tokens.is_empty() || (is_word(text, tokens, 0, b"WHERE") && tokens.len() > 1)
}

#[tactic(auto, unfolding(crate::specs::Create::index_from))]
fn index_from(text: &[u8], tokens: &[Piece], head: Head) -> Option<Index>
    requires { head.name < 10 }
    ensures { result ≡ index_from text.now tokens.now head }
{
    let n = group_length(later(tokens, head.name + 3));
    let rest = later(tokens, head.name + 3 + n);
    if makes_index(head.object)
        && is_word(text, tokens, head.name + 1, b"ON")
        && is_name(tokens, head.name + 2)
        && n != 0
        && is_condition(text, rest)
    {
        Some(Index {
            head,
            unique: is_word(text, tokens, 1, b"UNIQUE"),
            table: head.name + 2,
            first: head.name + 4,
            close: head.name + 2 + n,
            condition: if rest.is_empty() {
                None
            } else {
                Some(head.name + 4 + n)
            },
        })
    } else {
        None
    }
}

/// The CREATE INDEX statement whose tokens these are; None if they are no such statement. Its expressions are judged by
/// their parentheses alone.
#[tactic(auto, unfolding(crate::specs::Create::index_of))]
pub fn index_of(text: &[u8], tokens: &[Piece]) -> Option<Index>
    ensures { result ≡ index_of text.now tokens.now }
{
    match head_of(text, tokens) {
        Some(head) => index_from(text, tokens, head),
        None => None,
    }
}

/// The CREATE INDEX statement that a text begins with; None if it begins with none.
pub fn read_index(alloc: Global, bytes: &[u8]) -> Result<Option<IndexText>, AllocError>
    ensures found { IfOk result (λ r. IfSome r (λ t. IsIndexText bytes.now t.tokens.items t.index)) }
    ensures only { IfOk result (λ r. (ts : List Piece) (i : Index) → IsIndexText bytes.now ts i → IsIndexHeld ts i r) }
{
    let Some(statement) = statement_of(alloc, bytes)? else {
        return Ok(None);
    };
    match index_of(text_of(bytes), &statement) {
        Some(index) => Ok(Some(IndexText {
            tokens: statement,
            index,
        })),
        None => Ok(None),
    }
}
