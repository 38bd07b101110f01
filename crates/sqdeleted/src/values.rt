//! The values of a deleted cell that stand whole in its page (fileformat2, 2.1).
ghost use Rattle.std.specs.Prelude.{◌≡◌, ℕ, List, [], length, IfOk};
ghost use Rattle.sqval.specs.Datum.{datum_of, row_of};
ghost use Rattle.sqval.specs.Record.{Lead};
ghost use Rattle.sqval.specs.Serial.{body_size, held};
ghost use Rattle.sqdeleted.specs.Deleted.{BeginsRecord, StandWhole};
ghost use Rattle.sqdeleted.specs.internal.Values.{AreFirst};

use crate::cell::DeletedCell;
use crate::header::{body_size_of, types_of};
use byteorder::{BigEndian, ByteOrder};
use sqval::{Value, varint};
use std::alloc::{AllocError, Global};

/// What a body of the serial type holds.
fn value_of<'a>(serial: u64, body: &'a [u8]) -> Value<'a>
    requires { length body.now ≡ body_size serial }
    ensures { datum_of result ≡ held serial body.now }
{
    match serial {
        0 => Value::Null,
        1..=6 => Value::Int(BigEndian::read_int(body, body.len())),
        7 => {
            let mut bytes = [0; 8];
            bytes.copy_from_slice(body);
            Value::Real(bytes)
        }
        8 => Value::Int(0),
        9 => Value::Int(1),
        _ if serial % 2 == 0 => Value::Blob(body),
        _ => Value::Text(body),
    }
}

/// The values of the first of these serial types, as far as their bodies stand in these bytes.
pub(crate) fn first_values<'a>(
    alloc: Global,
    types: &[u8],
    bodies: &'a [u8],
) -> Result<Vec<Value<'a>>, AllocError>
    ensures { (serials : List ℕ) → Lead serials types.now []
        → IfOk result (λ values. AreFirst types.now bodies.now (row_of values.items)) }
{
    let mut values = Vec::new(alloc);
    let mut rest = types;
    let mut left = bodies;
    'columns: while let Some((serial, taken)) = varint::read(rest) {
        let size = body_size_of(serial);
        if size > left.len() as u64 {
            return Ok(values);
        }
        let (body, behind) = left.split_at(size as usize);
        values.push(value_of(serial, body))?;
        left = behind;
        (_, rest) = rest.split_at(taken);
    }
    Ok(values)
}

impl<'a> DeletedCell<'a> {
    /// The values of its first columns, as far as they stand whole in the page: all of them where all of its payload
    /// does. An error for want of memory.
    pub fn values(&self, alloc: Global) -> Result<Vec<Value<'a>>, AllocError>
        ensures { BeginsRecord self.now.payload self.now.local.now
            → IfOk result (λ values. StandWhole self.now.local.now (row_of values.items)) }
    {
        match types_of(self.local) {
            Some((types, header)) => {
                let (_, bodies) = self.local.split_at(header as usize);
                first_values(alloc, types, bodies)
            }
            None => Ok(Vec::new(alloc)),
        }
    }
}
