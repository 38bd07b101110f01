//! Values that stand in texts of SQL.
ghost use Rattle.std.specs.Prelude.{◌≡◌, IfOk};
ghost use Rattle.sqval.specs.Datum.{datum_of, text, blob};
ghost use Rattle.sqdefaults.specs.Literals.{datum_in};

use sqval::Value;
use std::alloc::{AllocError, Global};

/// A value that stands in a text of SQL.
#[derive(Debug, Drop)]
pub enum Literal {
    Null,
    Int(i64),
    /// Its eight bytes, the highest first.
    Real([u8; 8]),
    Text(Vec<u8>),
    Blob(Vec<u8>),
}

impl Literal {
    /// The value, borrowed.
    pub fn as_value(&self) -> Value<'_>
        ensures { datum_of result ≡ datum_in self.now }
    {
        match self {
            Literal::Null => Value::Null,
            Literal::Int(number) => Value::Int(*number),
            Literal::Real(bytes) => Value::Real(*bytes),
            Literal::Text(bytes) => Value::Text(bytes),
            Literal::Blob(bytes) => Value::Blob(bytes),
        }
    }

    /// A text of these bytes.
    pub(crate) fn of_text(alloc: Global, bytes: &[u8]) -> Result<Literal, AllocError>
        ensures { IfOk result (λ found. datum_in found ≡ text bytes.now) }
    {
        Ok(Literal::Text(Vec::from_slice(alloc, bytes)?))
    }
}
