//! Whether bytes begin a record (fileformat2, 2.1).
ghost use Rattle.std.specs.Prelude.{◌≡◌, ◌≢◌, ℕ, true, false, MatchOption};
ghost use Rattle.std.specs.Prelude.{List, [], drop, take, length, sum_by};
ghost use Rattle.sqval.specs.Serial.{body_size};
ghost use Rattle.sqval.specs.Record.{HasHeader, Lead};
ghost use Rattle.sqval.specs.Shortest.{varint_size};
ghost use Rattle.sqdeleted.specs.Deleted.{BeginsRecord, IsShort};

use sqval::varint;

/// How many bytes a body of the serial type has.
pub(crate) fn body_size_of(serial: u64) -> u64
    ensures { result ≡ body_size serial }
{
    match serial {
        0..=4 => serial,
        5 => 6,
        6 | 7 => 8,
        8..=11 => 0,
        _ => (serial - 12) / 2,
    }
}

/// The serial types of a record's header, and how many bytes it takes. None where the bytes don't begin with one.
pub(crate) fn types_of(bytes: &[u8]) -> Option<(&[u8], u64)>
    ensures { MatchOption result ((header size : ℕ) → ¬ HasHeader header size bytes.now) (λ found.
        (size : ℕ) × HasHeader found.1 size bytes.now × (found.0.now ≡ drop size (take found.1 bytes.now))) }
{
    let (header, size) = varint::read(bytes)?;
    if header < size as u64 || header > bytes.len() as u64 {
        return None;
    }
    let (head, _) = bytes.split_at(header as usize);
    Some((&head[size..], header))
}

/// How many bytes the shortest varint of the number takes.
pub(crate) fn least_size(number: u64) -> usize
    ensures { result ≡ varint_size number }
{
    match number {
        0..=0x7f => 1,
        0x80..=0x3fff => 2,
        0x4000..=0x1f_ffff => 3,
        0x20_0000..=0xfff_ffff => 4,
        0x1000_0000..=0x7_ffff_ffff => 5,
        0x8_0000_0000..=0x3ff_ffff_ffff => 6,
        0x400_0000_0000..=0x1_ffff_ffff_ffff => 7,
        0x2_0000_0000_0000..=0xff_ffff_ffff_ffff => 8,
        _ => 9,
    }
}

/// Whether the bytes are serial types that stand in files, one at least and each in the fewest bytes, whose bodies take
/// so many bytes. None is read behind a body that is more than is left: chains of types that begin in many places and
/// go on as one would be read from each of these.
fn are_types(types: &[u8], size: u64) -> bool
    ensures yes { result ≡ true → (serials : List ℕ) × (serials ≢ []) × Lead serials types.now []
        × (sum_by body_size serials ≡ size) × (sum_by varint_size serials ≡ length types.now) }
    ensures not { result ≡ false → (serials : List ℕ) → serials ≢ [] → Lead serials types.now []
        → sum_by body_size serials ≡ size → sum_by varint_size serials ≢ length types.now }
{
    if types.is_empty() {
        return false;
    }
    let mut rest = types;
    let mut left = size;
    'serials: while !rest.is_empty() {
        let Some((serial, taken)) = varint::read(rest) else {
            return false;
        };
        if serial == 10 || serial == 11 {
            return false;
        }
        let body = body_size_of(serial);
        if left < body {
            return false;
        }
        let least = least_size(serial);
        if least < taken {
            return false;
        }
        left -= body;
        (_, rest) = rest.split_at(taken);
    }
    left == 0
}

/// Whether a record of so many bytes begins with these, its types each in the fewest bytes.
pub(crate) fn begins_record(bytes: &[u8], size: u64) -> bool
    ensures yes { result ≡ true → (begins : BeginsRecord size bytes.now) × IsShort begins }
    ensures not { result ≡ false → (begins : BeginsRecord size bytes.now) → ¬ IsShort begins }
{
    let Some((types, header)) = types_of(bytes) else {
        return false;
    };
    if size < header {
        return false;
    }
    are_types(types, size - header)
}
