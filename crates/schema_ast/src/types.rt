//! A word for a column's type.
ghost use Rattle.std.specs.Prelude.{◌≡◌, IfOk};
ghost use Rattle.schema_ast.specs.Types.{word_for, type_for};

use schema_columns::{Affinity, type_of};
use sqlite_value::value::Bytes;
use std::alloc::{AllocError, Global};

/// A word whose affinity is this one, and that isn't a type of STRICT tables.
fn word_for(affinity: Affinity) -> &'static [u8]
    ensures { result.now ≡ word_for affinity }
{
    match affinity {
        Affinity::Integer => b"BIGINT",
        Affinity::Text => b"CHARACTER",
        Affinity::Blob => b"",
        Affinity::Real => b"DOUBLE",
        Affinity::Numeric => b"NUMERIC",
    }
}

/// A type of STRICT tables in capitals; for any other, a word that has its affinity.
#[tactic(auto, unfolding(crate::specs::Types::type_for))]
pub fn type_for(alloc: Global, written: &[u8]) -> Result<Bytes, AllocError>
    ensures { IfOk result (λ b. b ≡ type_for written.now) }
{
    let found = type_of(alloc, written)?;
    if found.standard {
        Bytes::from_slice(alloc, &found.name)
    } else {
        Bytes::from_slice(alloc, word_for(found.affinity))
    }
}
