//! What stands for a column in the rows that don't store it (SQLite's lang_altertable, "ALTER TABLE ADD COLUMN").
ghost use Rattle.std.specs.Prelude.{◌≡◌, ◌∷◌, IfOk, option_copied, option_map};
ghost use Rattle.hex.specs.Hex.{decode_of};
ghost use Rattle.sqlite_ast.specs.declared.Expr.{out-Expr};
ghost use Rattle.sqdefaults.specs.Literals.{datum_in};
ghost use Rattle.sqdefaults.specs.Defaults.{blob_of, default_by, default_in, default_of, last_said};
ghost use Rattle.sqdefaults.specs.Defaults.{negative_under, number_under, truth_under, value_under};

use crate::affinity::Affinity;
use crate::literal::Literal;
use crate::number::{as_real, of_numeral, of_text};
use hex::{FromHexError, decode};
use sqlite_ast::{Expr, Rule, Unary};
use sqlite_sql::numeral::is_numeral;
use std::alloc::{AllocError, Global};

/// The default that a rule says of a column.
fn default_in<'a>(rule: &'a Rule, name: &[u8]) -> Option<&'a Expr>
    ensures { option_copied result ≡ default_in name.now rule.now }
{
    match rule {
        Rule::Default(column, value) if column.as_slice().eq_ignore_ascii_case(name) => Some(value),
        _ => None,
    }
}

/// The last default that the rules say of a column.
pub fn last_default<'a>(rules: &'a [Rule], name: &[u8]) -> Option<&'a Expr>
    ensures { option_copied result ≡ last_said (default_in name.now) rules.now }
{
    let mut found = None;
    for rule in rules {
        found = default_in(rule, name).or(found);
    }
    found
}

/// A number that is written so. None where it is no decimal one.
fn number_under(
    alloc: Global,
    affinity: Affinity,
    bytes: &[u8],
) -> Result<Option<Literal>, AllocError>
    ensures { IfOk result (λ found. option_map datum_in found ≡ number_under affinity bytes.now) }
{
    if is_numeral(bytes) {
        Ok(Some(of_numeral(alloc, affinity, bytes)?))
    } else {
        Ok(None)
    }
}

/// The same behind a minus.
fn negated(alloc: Global, affinity: Affinity, digits: &[u8]) -> Result<Option<Literal>, AllocError>
    ensures { IfOk result (λ found. option_map datum_in found ≡ number_under affinity (45 ∷ digits.now)) }
{
    let mut bytes = Vec::with_capacity(alloc, 1)?;
    bytes.push(b'-')?;
    bytes.extend_from_slice(digits)?;
    number_under(alloc, affinity, &bytes)
}

/// An expression behind a minus.
fn negative_under(
    alloc: Global,
    affinity: Affinity,
    operand: &Expr,
) -> Result<Option<Literal>, AllocError>
    ensures { IfOk result (λ found. option_map datum_in found ≡ negative_under affinity (out-Expr operand.now)) }
{
    match operand {
        Expr::Integer(digits) => negated(alloc, affinity, digits.as_slice()),
        Expr::Float(digits) => negated(alloc, affinity, digits.as_slice()),
        _ => Ok(None),
    }
}

/// The bytes of hexadecimal digits.
fn blob_of(alloc: Global, digits: &[u8]) -> Result<Option<Literal>, AllocError>
    ensures { IfOk result (λ found. option_map datum_in found ≡ blob_of (decode_of digits.now)) }
{
    match decode(alloc, digits) {
        Ok(bytes) => Ok(Some(Literal::Blob(bytes))),
        Err(FromHexError::OutOfMemory) => Err(AllocError),
        Err(_) => Ok(None),
    }
}

/// 1 for TRUE, 0 for FALSE.
fn truth_under(affinity: Affinity, is: bool) -> Literal
    ensures { datum_in result ≡ truth_under affinity is }
{
    let value = Literal::Int(if is { 1 } else { 0 });
    match affinity {
        Affinity::Real => as_real(value),
        Affinity::Integer | Affinity::Numeric | Affinity::Text | Affinity::Blob => value,
    }
}

/// What an expression gives a column of an affinity. None where it is no literal.
fn value_under(
    alloc: Global,
    affinity: Affinity,
    expression: &Expr,
) -> Result<Option<Literal>, AllocError>
    ensures { IfOk result (λ found. option_map datum_in found ≡ value_under affinity expression.now) }
{
    match expression {
        Expr::Null => Ok(Some(Literal::Null)),
        Expr::Integer(digits) => number_under(alloc, affinity, digits.as_slice()),
        Expr::Float(digits) => number_under(alloc, affinity, digits.as_slice()),
        Expr::Text(bytes) => Ok(Some(of_text(alloc, affinity, bytes.as_slice())?)),
        Expr::Blob(digits) => blob_of(alloc, digits.as_slice()),
        Expr::Truth(_, is) => Ok(Some(truth_under(affinity, *is))),
        Expr::Unary(Unary::Minus, operand) => negative_under(alloc, affinity, operand.get()),
        _ => Ok(None),
    }
}

/// What stands for a column of this name and affinity where it isn't stored, by the rules of its table: its last
/// DEFAULT, or NULL. None where that is no literal.
pub fn default_of(
    alloc: Global,
    affinity: Affinity,
    name: &[u8],
    rules: &[Rule],
) -> Result<Option<Literal>, AllocError>
    ensures { IfOk result (λ found. option_map datum_in found ≡ default_of affinity name.now rules.now) }
{
    match last_default(rules, name) {
        Some(expression) => value_under(alloc, affinity, expression),
        None => Ok(Some(Literal::Null)),
    }
}
