//! Records: the values of a row, or of an index entry, as they stand in a file (fileformat2, 2.1).
ghost use Rattle.std.specs.Prelude.{◌≡◌, ℕ, ◌+◌, ◌<◌, ◌≤◌, ◌^◌, ◌-◌, ◌↔◌, List, [], length, drop, take, min, sum_by};
ghost use Rattle.std.specs.Prelude.{IsOkAnd, IfOk, IfErr, MatchOption, IsTrue, option_map, slice_get};
ghost use Rattle.sqval.specs.Serial.{body_size, held};
ghost use Rattle.sqval.specs.Record.{HasHeader, Lead, Fails};

use crate::error::RecordError;
use crate::value::{Value, body_size_of};
use crate::varint;
use std::marker::Model;

/// The most bytes of a record (own).
pub const MOST_BYTES: usize = 1_073_741_824;

/// A record, whose values stand in the bytes that it borrows.
#[derive(Debug, Drop)]
pub struct Record<'a> {
    types: &'a [u8],
    bodies: &'a [u8],
    count: usize,
}

impl<'a> Model for Record<'a> {
    ghost use Rattle.std.specs.Prelude.{◌≡◌, ◌≤◌, List, length, sum_by};
    ghost use Rattle.sqval.specs.Datum.{Datum};
    ghost use Rattle.sqval.specs.Serial.{body_size};
    ghost use Rattle.sqval.specs.internal.Shown.{serials, values_held};

    ghost Value = { List Datum };

    ghost view = { λ r. values_held (serials r.types.now) r.bodies.now };

    ghost invariant = { λ r. (r.count ≡ length (serials r.types.now))
        × (sum_by body_size (serials r.types.now) ≤ length r.bodies.now) };
}

impl<'a> Record<'a> {
    ghost use Rattle.sqval.specs.declared.error.RecordError.{RecordError};
    ghost use Rattle.sqval.specs.Datum.{Datum, datum_of};
    ghost use Rattle.sqval.specs.Record.{IsRecord, Refused, most_bytes};

    /// The record that the bytes are, as a whole. Refused are, in this order: TooLarge, HeaderSize,
    /// the types from left to right, each as TypeCut or InternalType, then BodyCut or
    /// TrailingBytes. No memory is taken.
    pub fn new(bytes: &'a [u8]) -> Result<Record<'a>, RecordError>
        ensures read { (values : List Datum) → IsOkAnd result (λ found. found ≡ values)
            ↔ ((length bytes.now ≤ most_bytes) × IsRecord values bytes.now) }
        ensures refused { (error : RecordError) → (result ≡ Err error) ↔ Refused error bytes.now }
    {
        if bytes.len() > MOST_BYTES {
            return Err(RecordError::TooLarge);
        }
        let Some((types, bodies)) = split_header(bytes) else {
            return Err(RecordError::HeaderSize);
        };
        let (count, size) = measure(types)?;
        if size > bodies.len() as u64 {
            return Err(RecordError::BodyCut);
        }
        if size < bodies.len() as u64 {
            return Err(RecordError::TrailingBytes);
        }
        Ok(Record {
            types,
            bodies,
            count,
        })
    }

    /// How many columns there are.
    pub fn len(&self) -> usize
        ensures { result ≡ length self.now }
    {
        self.count
    }

    /// Whether there is no column.
    pub fn is_empty(&self) -> bool
        ensures { IsTrue result ↔ (self.now ≡ []) }
    {
        self.len() == 0
    }

    /// The value of the column at this index, from 0. None where there is none. This walks over
    /// the header up to the column: use `columns` for all of them.
    pub fn column(&self, index: usize) -> Option<Value<'a>>
        ensures { option_map datum_of result ≡ slice_get self.now index }
    {
        self.columns().nth(index)
    }

    /// The values from left to right, in one walk over the header.
    pub fn columns(&self) -> Columns<'a>
        ensures { result ≡ self.now }
    {
        Columns {
            types: self.types,
            bodies: self.bodies,
        }
    }
}

/// The values of a record from left to right. A pass over all of them is one walk over the record.
#[derive(Debug, Drop)]
pub struct Columns<'a> {
    types: &'a [u8],
    bodies: &'a [u8],
}

impl<'a> Model for Columns<'a> {
    ghost use Rattle.std.specs.Prelude.{◌≤◌, List, length, sum_by};
    ghost use Rattle.sqval.specs.Datum.{Datum};
    ghost use Rattle.sqval.specs.Serial.{body_size};
    ghost use Rattle.sqval.specs.internal.Shown.{serials, values_held};

    ghost Value = { List Datum };

    ghost view = { λ c. values_held (serials c.types.now) c.bodies.now };

    ghost invariant = { λ c. sum_by body_size (serials c.types.now) ≤ length c.bodies.now };
}

impl<'a> Iterator for Columns<'a> {
    ghost use Rattle.std.specs.Iterator.{YieldsFirstBy, item_count};
    ghost use Rattle.sqval.specs.Datum.{datum_of};

    type Item = Value<'a>;

    ghost next_gives = { YieldsFirstBy datum_of (λ values. values) };

    ghost remaining = { item_count (λ values. values) };

    fn next(&mut self) -> Option<Value<'a>> {
        let (serial, taken) = varint::read(self.types)?;
        let (_, types) = self.types.split_at(taken);
        let (body, bodies) = self.bodies.split_at(body_size_of(serial) as usize);
        self.types = types;
        self.bodies = bodies;
        Some(Value::from_body(serial, body))
    }
}

/// The serial types of a record's header, and what stands behind it. None where the bytes don't
/// begin with the size of a header.
fn split_header(bytes: &[u8]) -> Option<(&[u8], &[u8])>
    ensures { MatchOption result ((header size : ℕ) → ¬ HasHeader header size bytes.now) (λ parts.
        (header : ℕ) × (size : ℕ) × HasHeader header size bytes.now
        × (parts.0.now ≡ drop size (take header bytes.now)) × (parts.1.now ≡ drop header bytes.now)) }
{
    let (header, size) = varint::read(bytes)?;
    if header < size as u64 || header > bytes.len() as u64 {
        return None;
    }
    let (head, bodies) = bytes.split_at(header as usize);
    Some((&head[size..], bodies))
}

/// How many serial types there are, and how many bytes their bodies have, or `u64::MAX` where
/// those are more.
fn measure(types: &[u8]) -> Result<(usize, u64), RecordError>
    ensures ok { IfOk result (λ found. (serials : List ℕ) × Lead serials types.now []
        × (found.0 ≡ length serials) × (found.1 ≡ min (sum_by body_size serials) (2 ^ 64 - 1))) }
    ensures err { IfErr result (λ error. (serials : List ℕ) × (rest : List ℕ) × Lead serials types.now rest
        × ((bodies : List ℕ) → Fails error serials rest bodies)) }
{
    let mut rest = types;
    let mut count = 0;
    let mut size = 0u64;
    while !rest.is_empty() {
        let Some((serial, taken)) = varint::read(rest) else {
            return Err(RecordError::TypeCut);
        };
        if serial == 10 || serial == 11 {
            return Err(RecordError::InternalType);
        }
        size = size.saturating_add(body_size_of(serial));
        count += 1;
        (_, rest) = rest.split_at(taken);
    }
    Ok((count, size))
}
