//! How records are written (fileformat2, 2.1; that it is the shortest one is own).
ghost use Rattle.std.specs.Prelude.{◌≡◌, ◌⊎◌, ℕ, ◌+◌, ◌<◌, ◌≤◌, ◌↔◌, List, [], ◌++◌, length, take, map, All, IfErr};
ghost use Rattle.std.specs.Prelude.{IfSome, IfNone, OnOk, OnErr, MatchOption};
ghost use Rattle.sqval.specs.Varint.{Spells};
ghost use Rattle.sqval.specs.Datum.{datum_of, integer, row_of};
ghost use Rattle.sqval.specs.Record.{Lead, Hold, IsRecord, most_bytes};
ghost use Rattle.sqval.specs.Shortest.{IsShortestRecord, AreTooLong, IsTooLarge, shortest_serial, varint_size};
ghost use Rattle.sqval.specs.Shortest.{types_size, bodies_size, IsSizeOfHeaderSize};
ghost use Rattle.sqval.specs.internal.Shortest.{IsWritable, IsShortestBody};
ghost use Rattle.sqval.specs.declared.error.RecordError.{RecordError};

use crate::error::RecordError;
use crate::record::MOST_BYTES;
use crate::value::{Value, body_size_of, serial_of_integer};
use crate::varint;
use std::alloc::AllocError;

/// Appends the shortest record of the values. It refuses TooLarge where that has more than
/// `MOST_BYTES`, and NoMemory where there is none. After a refusal `out` holds what it held.
pub fn encode(values: &[Value<'_>], out: &mut Vec<u8>) -> Result<(), RecordError>
    ensures appended { OnOk result ((bytes : List ℕ) × IsShortestRecord (row_of values.now) bytes
        × (length bytes ≤ most_bytes) × (out.new.items ≡ out.old.items ++ bytes)) }
    ensures unchanged { OnErr result (out.new.items ≡ out.old.items) }
    ensures too_large { (result ≡ Err RecordError.TooLarge) ↔ IsTooLarge (row_of values.now) }
    ensures no_record { result ≡ Err RecordError.TooLarge → AreTooLong (row_of values.now) }
    ensures no_other { IfErr result (λ error.
        (error ≡ RecordError.TooLarge) ⊎ (error ≡ RecordError.NoMemory)) }
{
    let Some(header) = header_size(values) else {
        return Err(RecordError::TooLarge);
    };
    let start = out.len();
    match append(values, header, out) {
        Ok(()) => Ok(()),
        Err(_) => {
            out.truncate(start);
            Err(RecordError::NoMemory)
        }
    }
}

/// The size of the header of the shortest record. None where that has more than `MOST_BYTES`.
fn header_size(values: &[Value<'_>]) -> Option<u64>
    ensures none { IfNone result (IsTooLarge (row_of values.now) × AreTooLong (row_of values.now)) }
    ensures some { IfSome result (λ header.
        (size : ℕ) × IsSizeOfHeaderSize (types_size (row_of values.now)) size
        × (header ≡ size + types_size (row_of values.now))
        × (header + bodies_size (row_of values.now) ≤ most_bytes)) }
    ensures writable { IfSome result (λ _. All IsWritable (row_of values.now)) }
{
    let (types, bodies) = sizes(values)?;
    let header = types + size_of_header_size(types);
    if header + bodies > MOST_BYTES as u64 {
        return None;
    }
    Some(header)
}

/// How many bytes the types and the bodies take. None where they are more than `MOST_BYTES`
/// together.
fn sizes(values: &[Value<'_>]) -> Option<(u64, u64)>
    ensures { MatchOption result
        (most_bytes < types_size (row_of values.now) + bodies_size (row_of values.now)) (λ sizes.
        (sizes.0 ≡ types_size (row_of values.now)) × (sizes.1 ≡ bodies_size (row_of values.now))
        × (sizes.0 + sizes.1 ≤ most_bytes) × All IsWritable (row_of values.now)) }
{
    let mut types = 0u64;
    let mut bodies = 0u64;
    for value in values {
        if !value.is_writable() {
            return None;
        }
        let serial = value.serial();
        types += varint::size_of(serial) as u64;
        bodies += body_size_of(serial);
        if types + bodies > MOST_BYTES as u64 {
            return None;
        }
    }
    Some((types, bodies))
}

/// How many bytes the varint of the header's size takes, which counts itself.
fn size_of_header_size(types: u64) -> u64
    requires { types ≤ most_bytes }
    ensures { IsSizeOfHeaderSize types result }
{
    match types {
        0..=126 => 1,
        127..=16_381 => 2,
        16_382..=2_097_148 => 3,
        2_097_149..=268_435_451 => 4,
        _ => 5,
    }
}

/// Appends the record. After an error `out` begins with what it held.
fn append(values: &[Value<'_>], header: u64, out: &mut Vec<u8>) -> Result<(), AllocError>
    requires writable { All IsWritable (row_of values.now) }
    requires size { (size : ℕ) × IsSizeOfHeaderSize (types_size (row_of values.now)) size
        × (header ≡ size + types_size (row_of values.now)) }
    ensures appended { OnOk result ((bytes : List ℕ) × IsRecord (row_of values.now) bytes
        × (length bytes ≡ header + bodies_size (row_of values.now))
        × (out.new.items ≡ out.old.items ++ bytes)) }
    ensures begins { take (length out.old.items) out.new.items ≡ out.old.items }
{
    push_varint(header, out)?;
    push_types(values, out)?;
    push_bodies(values, out)
}

/// Appends the shortest varint of the number. After an error `out` is as it was.
fn push_varint(number: u64, out: &mut Vec<u8>) -> Result<(), AllocError>
    ensures appended { OnOk result ((bytes : List ℕ) × Spells number bytes
        × (length bytes ≡ varint_size number) × (out.new.items ≡ out.old.items ++ bytes)) }
    ensures unchanged { OnErr result (out.new.items ≡ out.old.items) }
{
    let mut bytes = [0; 9];
    let size = varint::write(number, &mut bytes);
    out.extend_from_slice(&bytes[..size])
}

/// Appends the serial types. After an error `out` begins with what it held.
fn push_types(values: &[Value<'_>], out: &mut Vec<u8>) -> Result<(), AllocError>
    requires { All IsWritable (row_of values.now) }
    ensures appended { OnOk result ((bytes : List ℕ)
        × Lead (map shortest_serial (row_of values.now)) bytes []
        × (length bytes ≡ types_size (row_of values.now)) × (out.new.items ≡ out.old.items ++ bytes)) }
    ensures begins { take (length out.old.items) out.new.items ≡ out.old.items }
{
    for value in values {
        push_varint(value.serial(), out)?;
    }
    Ok(())
}

/// Appends the bodies. After an error `out` begins with what it held.
fn push_bodies(values: &[Value<'_>], out: &mut Vec<u8>) -> Result<(), AllocError>
    requires { All IsWritable (row_of values.now) }
    ensures appended { OnOk result ((bytes : List ℕ)
        × Hold (map shortest_serial (row_of values.now)) (row_of values.now) bytes
        × (length bytes ≡ bodies_size (row_of values.now)) × (out.new.items ≡ out.old.items ++ bytes)) }
    ensures begins { take (length out.old.items) out.new.items ≡ out.old.items }
{
    for value in values {
        push_body(value, out)?;
    }
    Ok(())
}

/// Appends the body of the value's serial type. After an error `out` is as it was.
fn push_body(value: &Value<'_>, out: &mut Vec<u8>) -> Result<(), AllocError>
    requires { IsWritable (datum_of value.now) }
    ensures appended { OnOk result ((body : List ℕ) × IsShortestBody (datum_of value.now) body
        × (out.new.items ≡ out.old.items ++ body)) }
    ensures unchanged { OnErr result (out.new.items ≡ out.old.items) }
{
    match value {
        Value::Null => Ok(()),
        Value::Int(number) => push_integer(*number, out),
        Value::Real(bytes) => out.extend_from_slice(bytes),
        Value::Text(bytes) | Value::Blob(bytes) => out.extend_from_slice(bytes),
    }
}

/// Appends the integer in as many bytes as its serial type has.
fn push_integer(number: i64, out: &mut Vec<u8>) -> Result<(), AllocError>
    ensures appended { OnOk result ((body : List ℕ) × IsShortestBody (integer number) body
        × (out.new.items ≡ out.old.items ++ body)) }
    ensures unchanged { OnErr result (out.new.items ≡ out.old.items) }
{
    let size = body_size_of(serial_of_integer(number)) as usize;
    out.extend_from_slice(&number.to_be_bytes()[8 - size..])
}
