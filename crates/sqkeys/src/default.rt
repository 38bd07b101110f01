//! What stands for a column in the rows that don't store it (SQLite's lang_altertable, "ALTER TABLE ADD COLUMN").
ghost use Rattle.std.specs.Prelude.{◌≡◌, Some, IfOk, from_bits, option_map};
ghost use Rattle.std.specs.Float.{binary64};
ghost use Rattle.sqlite_ast.specs.declared.Expr.{out-Expr};
ghost use Rattle.sqdefaults.specs.Literals.{datum_in};
ghost use Rattle.sqkeys.specs.Columns.{kept, real_of, value_of, stated_by};
ghost use Rattle.sqkeys.specs.Columns.{default_by, default_of, default_at};

use crate::affinity::keeps;
use sqdefaults::{Affinity, Literal, affinity_of, default_of as literal_of, last_default};
use sqlite_ast::{Expr, Rule, TableBody};
use sqlite_value::value::{Bytes, Value};
use std::alloc::{AllocError, Global};

/// The value, where a column of this affinity keeps it.
fn kept(affinity: Affinity, value: Option<Value>) -> Option<Value>
    ensures { result ≡ kept affinity value }
{
    match value {
        Some(value) => {
            if keeps(affinity, &value) {
                Some(value)
            } else {
                None
            }
        }
        None => None,
    }
}

/// The exponent of what is infinite, or no number.
const EXPONENT: u64 = 0x7ff0_0000_0000_0000;

/// The bit of the sign.
const SIGN: u64 = 1 << 63;

/// The number that has these bits; NULL where they are none.
fn real_of(bits: u64) -> Value
    ensures { result ≡ real_of (from_bits binary64 bits) }
{
    if bits % SIGN > EXPONENT {
        Value::Null
    } else {
        Value::Real(f64::from_bits(bits))
    }
}

/// The same value, as keys have it.
fn value_of(alloc: Global, literal: &Literal) -> Result<Value, AllocError>
    ensures { IfOk result (λ value. value ≡ value_of (datum_in literal.now)) }
{
    match literal {
        Literal::Null => Ok(Value::Null),
        Literal::Int(number) => Ok(Value::Int(*number)),
        Literal::Real(bytes) => Ok(real_of(u64::from_be_bytes(*bytes))),
        Literal::Text(bytes) => Ok(Value::Text(Bytes::from_slice(alloc, bytes)?)),
        Literal::Blob(bytes) => Ok(Value::Blob(Bytes::from_slice(alloc, bytes)?)),
    }
}

/// The value of a literal, where one is known and a column of this affinity keeps it.
fn kept_of(
    alloc: Global,
    affinity: Affinity,
    found: Option<Literal>,
) -> Result<Option<Value>, AllocError>
    ensures { IfOk result (λ value. value ≡ kept affinity (option_map value_of (option_map datum_in found))) }
{
    match found {
        Some(literal) => Ok(kept(affinity, Some(value_of(alloc, &literal)?))),
        None => Ok(None),
    }
}

/// What the last default says, which is stated so.
fn stated_by(
    alloc: Global,
    affinity: Affinity,
    name: &[u8],
    rules: &[Rule],
    stated: &Expr,
) -> Result<Option<Value>, AllocError>
    ensures { IfOk result (λ found. found ≡ stated_by affinity name.now rules.now (out-Expr stated.now)) }
{
    match stated {
        Expr::Parameter(_) => Ok(Some(Value::Null)),
        Expr::Text(bytes) => {
            let text = Value::Text(Bytes::from_slice(alloc, bytes.as_slice())?);
            Ok(kept(affinity, Some(text)))
        }
        _ => kept_of(alloc, affinity, literal_of(alloc, affinity, name, rules)?),
    }
}

/// The value of the last default that the rules say of a column, where one is stated.
fn default_by(
    alloc: Global,
    affinity: Affinity,
    name: &[u8],
    rules: &[Rule],
) -> Result<Option<Value>, AllocError>
    ensures { IfOk result (λ found. found ≡ default_by affinity name.now rules.now) }
{
    match last_default(rules, name) {
        Some(stated) => stated_by(alloc, affinity, name, rules, stated),
        None => Ok(Some(Value::Null)),
    }
}

/// What stands for a column in a row that doesn't store it.
fn default_of(
    alloc: Global,
    rules: &[Rule],
    column: &(Bytes, Bytes),
) -> Result<Option<Value>, AllocError>
    ensures { IfOk result (λ found. found ≡ default_of rules.now (Some column.now)) }
{
    let written = column.1.as_slice();
    let affinity = affinity_of(written);
    default_by(alloc, affinity, column.0.as_slice(), rules)
}

/// The same of column `j`. None where it isn't known.
pub(crate) fn default_at(
    alloc: Global,
    body: &TableBody,
    j: usize,
) -> Result<Option<Value>, AllocError>
    ensures { IfOk result (λ found. found ≡ default_at body.now j) }
{
    match body.columns.get(j) {
        Some(column) => default_of(alloc, body.rules.as_slice(), column),
        None => Ok(None),
    }
}
