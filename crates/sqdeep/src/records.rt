//! Payloads as records (fileformat2, 2.1).
ghost use Rattle.std.specs.Prelude.{◌≡◌, ◌↔◌, List, IsTrue, IfErr, IfOk, OnOk};
ghost use Rattle.sqval.specs.Datum.{Datum, datum_of};
ghost use Rattle.sqval.specs.Record.{IsRecord};
ghost use Rattle.sqval.specs.Serial.{body_size, held};
ghost use Rattle.sqpage.specs.Lists.{Every};
ghost use Rattle.sqdeep.specs.Records.{IsFormed};
ghost use Rattle.sqdeep.specs.internal.Judging.{HasForm, IsFormedRecord, RecordRefused};
ghost use Rattle.sqdeep.specs.internal.Columns.{AreFormedColumns};

use crate::fault::InnerFault;
use crate::text::{Encoding, is_text};
use sqval::{MOST_BYTES, Record, Value, varint};

/// How many bytes a body of the serial type has.
#[inline(always)]
fn body_size_of(serial: u64) -> u64
    ensures { result ≡ body_size serial }
{
    match serial {
        0..=4 => serial,
        5 => 6,
        6 | 7 => 8,
        8..=11 => 0,
        _ => (serial - 12) / 2,
    }
}

/// Whether what a body of the serial type holds is no text, or one in this encoding.
#[inline(always)]
fn is_formed_body(encoding: Encoding, serial: u64, body: &[u8]) -> bool
    ensures { IsTrue result → IsFormed encoding (held serial body.now) }
{
    if serial < 10 {
        return true;
    }
    if serial % 2 == 0 {
        return true;
    }
    is_text(encoding, body)
}

/// Whether a header goes on with the types of the bodies behind it, and each text of these is one in this encoding.
fn are_formed(encoding: Encoding, types: &[u8], bodies: &[u8]) -> bool
    ensures { IsTrue result → AreFormedColumns encoding types.now bodies.now }
{
    let (mut rest, mut behind) = (types, bodies);
    'columns: while !rest.is_empty() {
        let Some((serial, taken)) = varint::read(rest) else {
            return false;
        };
        let size = body_size_of(serial);
        if serial == 10 || serial == 11 || size > behind.len() as u64 {
            return false;
        }
        let (body, others) = behind.split_at(size as usize);
        if !is_formed_body(encoding, serial, body) {
            return false;
        }
        (_, rest) = rest.split_at(taken);
        behind = others;
    }
    behind.is_empty()
}

/// Whether a payload is a record, and each of its texts is one in this encoding. It is read once.
fn is_formed_record(encoding: Encoding, bytes: &[u8]) -> bool
    ensures { IsTrue result → IsFormedRecord encoding bytes.now }
{
    let Some((header, size)) = varint::read(bytes) else {
        return false;
    };
    if header < size as u64 || header > bytes.len() as u64 {
        return false;
    }
    let (head, bodies) = bytes.split_at(header as usize);
    are_formed(encoding, &head[size..], bodies)
}

/// Whether the value is no text, or one in this encoding.
fn is_formed(encoding: Encoding, value: &Value) -> bool
    ensures { IsTrue result ↔ IsFormed encoding (datum_of value.now) }
{
    match value {
        Value::Text(bytes) => is_text(encoding, bytes),
        _ => true,
    }
}

/// Whether each text of a record is one in this encoding.
fn texts_are_formed(encoding: Encoding, row: &Record) -> bool
    ensures { IsTrue result ↔ Every (IsFormed encoding) row.now }
{
    'values: for value in row.columns() {
        if !is_formed(encoding, &value) {
            return false;
        }
    }
    true
}

/// Judges a payload: whether a text of the record isn't one in this encoding. Refused by TooLong and NotRecord, the
/// first that applies. One that isn't formed is read again, to tell why.
pub(crate) fn judge_record(encoding: Encoding, bytes: &[u8]) -> Result<bool, InnerFault>
    ensures ok { OnOk result ((values : List Datum) × IsRecord values bytes.now) }
    ensures form { IfOk result (λ is_ill. HasForm is_ill encoding bytes.now) }
    ensures err { IfErr result (λ fault. RecordRefused bytes.now fault) }
{
    if bytes.len() > MOST_BYTES {
        return Err(InnerFault::TooLong);
    }
    if is_formed_record(encoding, bytes) {
        return Ok(false);
    }
    match Record::new(bytes) {
        Ok(row) => if texts_are_formed(encoding, &row) {
            Ok(false)
        } else {
            Ok(true)
        },
        Err(_) => Err(InnerFault::NotRecord),
    }
}
