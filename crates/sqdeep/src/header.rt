//! The numbers of the header that a reader goes by (fileformat2, 1.3.3, 1.3.10 and 1.3.13).
ghost use Rattle.std.specs.Prelude.{◌≡◌, ◌↔◌, ◌≤◌, ℕ, IsTrue, IfErr, OnOk, length, take};
ghost use Rattle.sqval.specs.Database.{Database, page};
ghost use Rattle.sqcheck.specs.Places.{used_in};
ghost use Rattle.sqdeep.specs.Headers.{IsUpTo, IsBare, IsUpToOrBare, HasKnownNumbers, HeaderRefused};

use crate::bytes::{half_at, word_at};
use crate::fault::InnerFault;

/// The type byte of a leaf of a table.
const TABLE_LEAF: u8 = 13;

/// Whether a number is from 1 to this one.
fn is_up_to(most: u32, number: u32) -> bool
    ensures { IsTrue result ↔ IsUpTo most number }
{
    1 <= number && number <= most
}

/// Whether page 1 is the schema's only page, and has no cell.
fn is_bare(bytes: &[u8]) -> bool
    requires { 480 ≤ length bytes.now }
    ensures { (d : Database) → used_in d 1 ≡ bytes.now → IsTrue result ↔ IsBare d }
{
    bytes[100] == TABLE_LEAF && half_at(bytes, 103) == 0
}

/// Judges the header in the bytes of page 1, of which so many are used. Refused by Version, SchemaFormat and
/// TextEncoding, the first that applies.
pub(crate) fn judge_header(bytes: &[u8], usable: usize) -> Result<(), InnerFault>
    requires { (480 ≤ usable) × (usable ≤ length bytes.now) }
    ensures ok { (d : Database) → page d 1 ≡ bytes.now → used_in d 1 ≡ take usable bytes.now
        → OnOk result (HasKnownNumbers d) }
    ensures err { (d : Database) → page d 1 ≡ bytes.now → used_in d 1 ≡ take usable bytes.now
        → IfErr result (λ fault. HeaderRefused d fault) }
{
    if !is_up_to(2, u32::from(bytes[18])) || !is_up_to(2, u32::from(bytes[19])) {
        return Err(InnerFault::Version);
    }
    let bare = is_bare(&bytes[..usable]);
    let format = word_at(bytes, 44);
    if !is_up_to(4, format) && !(bare && format == 0) {
        return Err(InnerFault::SchemaFormat);
    }
    let encoding = word_at(bytes, 56);
    if !is_up_to(3, encoding) && !(bare && encoding == 0) {
        return Err(InnerFault::TextEncoding);
    }
    Ok(())
}
