//! The text of a table, as SQLite's loader reads it: its first statement.
ghost use Rattle.std.specs.Prelude.{◌≡◌, ℕ, List, IfOk, IfSome};
ghost use Rattle.std.specs.List.{list_any};
ghost use Rattle.std.specs.Option.{option_map};
ghost use Rattle.schema_tokens.specs.declared.kinds.Piece.{Piece};
ghost use Rattle.schema_print.specs.declared.heads.Head.{Head};
ghost use Rattle.schema_text.specs.Kinds.{is_semicolon_kind};
ghost use Rattle.schema_text.specs.declared.clauses.Clause.{Clause};
ghost use Rattle.schema_text.specs.Texts.{begins_text, is_ended, IsStatement, IsStatementHeld};
ghost use Rattle.schema_text.specs.Texts.{IsTableText, IsAnswered};

use crate::clauses::{Table, first_statement, table_of};
use crate::tokens::has_semicolon;
use schema_tokens::{Piece, read, text_of, tokens};
use std::alloc::{AllocError, Global};

/// A CREATE TABLE statement and its tokens.
#[derive(Debug, Drop)]
pub struct TableText {
    /// The tokens of the statement, without spaces. Their places are in the text.
    pub tokens: Vec<Piece>,
    pub table: Table,
}

#[tactic(auto, unfolding(crate::specs::Texts::begins_text))]
fn begins_text(tokens: &[Piece]) -> bool
    ensures { result ≡ begins_text tokens.now }
{
    match tokens.get(0) {
        Some(token) => token.from == 0,
        None => false,
    }
}

#[tactic(auto, unfolding(crate::specs::Texts::is_ended))]
fn is_ended(bytes: &[u8], tokens: &[Piece], end: usize) -> bool
    ensures { result ≡ is_ended bytes.now tokens.now end }
{
    has_semicolon(tokens) || end == text_of(bytes).len()
}

/// The tokens of the statement that a text begins with, without spaces; None if it doesn't begin with the first byte,
/// or if a byte that begins no token comes before its end. Their places are in the text.
pub fn statement_of(alloc: Global, bytes: &[u8]) -> Result<Option<Vec<Piece>>, AllocError>
    ensures found { IfOk result (λ r. IfSome r (λ ts. IsStatement bytes.now ts.items)) }
    ensures only { IfOk result (λ r. (ts : List Piece)
        → IsStatement bytes.now ts → IsStatementHeld ts (option_map (λ v. v.items) r)) }
{
    let reading = read(alloc, bytes)?;
    let all = tokens(alloc, &reading.pieces)?;
    let statement = first_statement(&all);
    if !begins_text(statement) || !is_ended(bytes, &all, reading.end) {
        return Ok(None);
    }
    let kept = statement.to_vec(alloc)?;
    Ok(Some(kept))
}

/// The CREATE TABLE statement that a text begins with; None if it begins with none. It takes time linear in the text.
pub fn read_table(alloc: Global, bytes: &[u8]) -> Result<Option<TableText>, AllocError>
    ensures found { IfOk result (λ r.
        IfSome r (λ t. IsTableText bytes.now t.tokens.items t.table.head t.table.clauses.items)) }
    ensures only { IfOk result (λ r. (ts : List Piece) (h : Head) (cs : List Clause)
        → IsTableText bytes.now ts h cs → IsAnswered ts h cs r) }
{
    let Some(statement) = statement_of(alloc, bytes)? else {
        return Ok(None);
    };
    match table_of(alloc, text_of(bytes), &statement)? {
        Some(table) => Ok(Some(TableText {
            tokens: statement,
            table,
        })),
        None => Ok(None),
    }
}
