//! What affinities make of texts that read as numbers (datatype3, 3).
ghost use Rattle.std.specs.Prelude.{◌≡◌, ◌&&◌, IfOk};
ghost use Rattle.std.specs.Float.Ieee;
ghost use Rattle.std.specs.Float.{binary64};
ghost use Rattle.sqlite_value.specs.Value.{owned};
ghost use Rattle.sqval.specs.Datum.{text as text_datum};
ghost use Rattle.sqdefaults.specs.Literals.{datum_in};
ghost use Rattle.sqdefaults.specs.Numbers.{as_numeric, as_real, in_bytes, is_inner, is_short, of_number, of_numeral};
ghost use Rattle.sqdefaults.specs.Numbers.{of_text, whole_of, whole_or_real, written_by};

use crate::affinity::Affinity;
use crate::literal::Literal;
use sqlite_sql::numeral::number_at_front;
use sqlite_sql::ops::numeric;
use sqlite_value::value::ValueRef;
use std::alloc::{AllocError, Global};
use std::num::{nearest_i64_to_f64, saturating_f64_to_i64};

/// A number in its eight bytes; NULL where it is none.
fn in_bytes(number: f64) -> Literal
    ensures { datum_in result ≡ in_bytes number }
{
    if number.is_nan() {
        Literal::Null
    } else {
        Literal::Real(number.to_bits().to_be_bytes())
    }
}

/// Whether an integer is neither the least nor the greatest one.
fn is_inner(number: i64) -> bool
    ensures { result ≡ is_inner number }
{
    i64::MIN < number && number < i64::MAX
}

/// Whether a number has no fraction.
fn is_whole(number: f64, whole: i64) -> bool
    ensures { result ≡ (Ieee.eq (Ieee.of_int binary64 whole) number && is_inner whole) }
{
    nearest_i64_to_f64(whole) == number && is_inner(whole)
}

/// A number: an integer where it is one.
fn whole_or_real(number: f64) -> Literal
    ensures { datum_in result ≡ whole_or_real number }
{
    let whole = saturating_f64_to_i64(number);
    if is_whole(number, whole) {
        Literal::Int(whole)
    } else {
        in_bytes(number)
    }
}

/// The value that was read.
fn of_number(alloc: Global, value: ValueRef<'_>) -> Result<Literal, AllocError>
    ensures { IfOk result (λ found. datum_in found ≡ of_number (owned value.entry)) }
{
    match value {
        ValueRef::Null => Ok(Literal::Null),
        ValueRef::Int(number) => Ok(Literal::Int(number)),
        ValueRef::Real(number) => Ok(whole_or_real(number)),
        ValueRef::Text(bytes) => Literal::of_text(alloc, bytes),
        ValueRef::Blob(bytes) => Ok(Literal::Blob(Vec::from_slice(alloc, bytes)?)),
    }
}

/// A text under affinity INTEGER or NUMERIC.
fn as_numeric(alloc: Global, bytes: &[u8]) -> Result<Literal, AllocError>
    ensures { IfOk result (λ found. datum_in found ≡ as_numeric bytes.now) }
{
    of_number(alloc, numeric(ValueRef::Text(bytes)))
}

/// A value under affinity REAL, which makes integers reals.
pub(crate) fn as_real(value: Literal) -> Literal
    ensures { datum_in result ≡ as_real (datum_in value) }
{
    match value {
        Literal::Int(number) => in_bytes(nearest_i64_to_f64(number)),
        other => other,
    }
}

/// A text under an affinity.
pub(crate) fn of_text(
    alloc: Global,
    affinity: Affinity,
    bytes: &[u8],
) -> Result<Literal, AllocError>
    ensures { IfOk result (λ found. datum_in found ≡ of_text affinity bytes.now) }
{
    match affinity {
        Affinity::Text | Affinity::Blob => Literal::of_text(alloc, bytes),
        Affinity::Integer | Affinity::Numeric => as_numeric(alloc, bytes),
        Affinity::Real => Ok(as_real(as_numeric(alloc, bytes)?)),
    }
}

/// Whether an integer is below 2^31, but for its sign.
fn is_short(number: i64) -> bool
    ensures { result ≡ is_short number }
{
    -0x8000_0000 < number && number < 0x8000_0000
}

/// The text of a number that is written so.
fn written_by(alloc: Global, value: ValueRef<'_>, bytes: &[u8]) -> Result<Literal, AllocError>
    ensures { IfOk result (λ found. datum_in found ≡ text_datum (written_by (owned value.entry) bytes.now)) }
{
    match value {
        ValueRef::Int(number) if is_short(number) => {
            Literal::of_text(alloc, number.to_string(alloc)?.as_bytes())
        }
        _ => Literal::of_text(alloc, bytes),
    }
}

/// A number that is written so, with its sign, under an affinity.
pub(crate) fn of_numeral(
    alloc: Global,
    affinity: Affinity,
    bytes: &[u8],
) -> Result<Literal, AllocError>
    ensures { IfOk result (λ found. datum_in found ≡ of_numeral affinity bytes.now) }
{
    match affinity {
        Affinity::Text => written_by(alloc, number_at_front(bytes), bytes),
        Affinity::Integer | Affinity::Numeric | Affinity::Blob => as_numeric(alloc, bytes),
        Affinity::Real => Ok(as_real(as_numeric(alloc, bytes)?)),
    }
}
