//! What the columns of a record hold (fileformat2, 2.1).
ghost use Rattle.std.specs.Prelude.{◌≡◌, ◌↔◌, length, IsTrue};
ghost use Rattle.sqval.specs.Datum.{datum_of};
ghost use Rattle.sqval.specs.Serial.{body_size, held};
ghost use Rattle.sqval.specs.Shortest.{shortest_serial, integer_serial};
ghost use Rattle.sqval.specs.internal.Shortest.{IsWritable};

use crate::record::MOST_BYTES;
use byteorder::{BigEndian, ByteOrder};

/// The value of a column, borrowed from the record's bytes.
#[derive(Clone, Copy, Debug, PartialEq, Eq)]
pub enum Value<'a> {
    /// No value.
    Null,
    /// A signed integer.
    Int(i64),
    /// The eight bytes of a floating-point number, the highest first. They aren't looked at.
    Real([u8; 8]),
    /// The bytes of a text in the database's encoding. They aren't looked at.
    Text(&'a [u8]),
    /// Bytes.
    Blob(&'a [u8]),
}

impl<'a> Value<'a> {
    /// What a body of the serial type holds.
    pub(crate) fn from_body(serial: u64, body: &'a [u8]) -> Value<'a>
        requires { length body.now ≡ body_size serial }
        ensures { datum_of result ≡ held serial body.now }
    {
        match serial {
            0 => Value::Null,
            1..=6 => Value::Int(BigEndian::read_int(body, body.len())),
            7 => {
                let mut bytes = [0; 8];
                bytes.copy_from_slice(body);
                Value::Real(bytes)
            }
            8 => Value::Int(0),
            9 => Value::Int(1),
            _ if serial % 2 == 0 => Value::Blob(body),
            _ => Value::Text(body),
        }
    }

    /// Whether the value isn't too long for any record.
    pub(crate) fn is_writable(&self) -> bool
        ensures { IsTrue result ↔ IsWritable (datum_of self.now) }
    {
        match self {
            Value::Text(bytes) | Value::Blob(bytes) => bytes.len() <= MOST_BYTES,
            Value::Null | Value::Int(_) | Value::Real(_) => true,
        }
    }

    /// The serial type of the shortest body.
    pub(crate) fn serial(&self) -> u64
        requires { IsWritable (datum_of self.now) }
        ensures { result ≡ shortest_serial (datum_of self.now) }
    {
        match self {
            Value::Null => 0,
            Value::Int(number) => serial_of_integer(*number),
            Value::Real(_) => 7,
            Value::Text(bytes) => 13 + 2 * bytes.len() as u64,
            Value::Blob(bytes) => 12 + 2 * bytes.len() as u64,
        }
    }
}

/// The serial type of the integer's shortest body. 0 and 1 have types of their own.
pub(crate) fn serial_of_integer(number: i64) -> u64
    ensures { result ≡ integer_serial number }
{
    let steps = if number < 0 {
        (-1 - number) as u64
    } else {
        number as u64
    };
    match steps {
        0 | 1 if number >= 0 => 8 + steps,
        0..=0x7f => 1,
        0x80..=0x7fff => 2,
        0x8000..=0x7f_ffff => 3,
        0x80_0000..=0x7fff_ffff => 4,
        0x8000_0000..=0x7fff_ffff_ffff => 5,
        _ => 6,
    }
}

/// How many bytes a body of the serial type has.
pub(crate) fn body_size_of(serial: u64) -> u64
    ensures { result ≡ body_size serial }
{
    match serial {
        0..=4 => serial,
        5 => 6,
        6 | 7 => 8,
        8..=11 => 0,
        _ => (serial - 12) / 2,
    }
}
