//! Where an operand of an expression is due.
ghost use Rattle.std.specs.Prelude.{◌≡◌, true};
ghost use Rattle.std.specs.List.{fold};
ghost use Rattle.schema_index.specs.Terms.{is_operand_kind, is_asking_kind, ends_operand, asks_operand};
ghost use Rattle.schema_index.specs.Terms.{due_after, is_due};

use schema_print::bytes_of;
use schema_tokens::{Kind, Piece, is_listed, is_same_word};

/// The keywords that an operand follows.
pub const ASKING: [&[u8]; 29] = [
    b"AND",
    b"OR",
    b"IS",
    b"LIKE",
    b"GLOB",
    b"REGEXP",
    b"MATCH",
    b"BETWEEN",
    b"IN",
    b"ESCAPE",
    b"COLLATE",
    b"NOT",
    b"WHEN",
    b"THEN",
    b"ELSE",
    b"AS",
    b"DISTINCT",
    b"FROM",
    b"SELECT",
    b"WHERE",
    b"CASE",
    b"EXISTS",
    b"ALL",
    b"ON",
    b"HAVING",
    b"LIMIT",
    b"UNION",
    b"EXCEPT",
    b"INTERSECT",
];

fn is_operand_kind(kind: Kind) -> bool
    ensures { result ≡ is_operand_kind kind }
{
    matches!(
        kind,
        Kind::Word
            | Kind::Fallback
            | Kind::Joining
            | Kind::Quoted
            | Kind::Text
            | Kind::Blob
            | Kind::Integer
            | Kind::Float
            | Kind::Variable
            | Kind::Close
    )
}

fn is_asking_kind(kind: Kind) -> bool
    ensures { result ≡ is_asking_kind kind }
{
    matches!(kind, Kind::Operator | Kind::Dot | Kind::Open | Kind::Comma)
}

#[tactic(auto, unfolding(crate::specs::Terms::ends_operand))]
fn ends_operand(text: &[u8], token: &Piece) -> bool
    ensures { result ≡ ends_operand text.now token.now }
{
    let bytes = bytes_of(text, token);
    is_operand_kind(token.kind) || is_same_word(b"*", bytes) || is_same_word(b"NULL", bytes)
}

#[tactic(auto, unfolding(crate::specs::Terms::asks_operand))]
fn asks_operand(text: &[u8], token: &Piece) -> bool
    ensures { result ≡ asks_operand text.now token.now }
{
    is_asking_kind(token.kind) || is_listed(&ASKING, bytes_of(text, token))
}

#[tactic(auto, unfolding(crate::specs::Terms::due_after))]
fn due_after(text: &[u8], due: bool, token: &Piece) -> bool
    ensures { result ≡ due_after text.now due token.now }
{
    if due {
        !ends_operand(text, token)
    } else {
        asks_operand(text, token)
    }
}

/// Whether an operand is due after these tokens of an expression.
#[tactic(auto, unfolding(crate::specs::Terms::is_due))]
pub fn is_due(text: &[u8], tokens: &[Piece]) -> bool
    ensures { result ≡ is_due text.now tokens.now }
{
    let mut due = true;
    for token in tokens {
        due = due_after(text, due, token);
    }
    due
}
