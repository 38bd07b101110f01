//! What calls left in a sector, beside what an image has there (own).
ghost use Rattle.std.specs.Prelude.{◌≡◌, ◌↔◌, IsTrue, get_or};
ghost use Rattle.std.specs.List.{All};
ghost use Rattle.rig_missing.specs.Missing.{AreAlike, Leaves};

use crate::change::Change;
use crate::sectors::SectorSize;
use rig_play::Subject;

/// The byte at a place, or zero behind the end.
fn byte_at(bytes: &[u8], x: usize) -> u8
    ensures { result ≡ get_or bytes.now x 0 }
{
    match bytes.get(x) {
        Some(byte) => *byte,
        None => 0,
    }
}

/// Whether two sectors are the same, with zeros behind the end of a file.
fn are_alike(a: &[u8], b: &[u8]) -> bool
    ensures { IsTrue result ↔ AreAlike a.now b.now }
{
    for x in 0..a.len().max(b.len()) {
        if byte_at(a, x) != byte_at(b, x) {
            return false;
        }
    }
    true
}

/// Whether a call on this file left in sector k, which it touched, what an image's file has there.
fn leaves(change: &Change, size: SectorSize, subject: Subject, bytes: &[u8], k: u64) -> bool
    ensures { IsTrue result ↔ Leaves size.bytes subject bytes.now k change.now }
{
    if change.subject != subject || !change.touches(size, k) {
        return false;
    }
    let left = size.bytes_of(&change.left, k - change.first(size));
    are_alike(left, size.bytes_of(bytes, k))
}

/// Whether none of these calls did.
pub(crate) fn none_leaves(
    changes: &[Change],
    size: SectorSize,
    subject: Subject,
    bytes: &[u8],
    k: u64,
) -> bool
    ensures { IsTrue result ↔ All (λ d. ¬ Leaves size.bytes subject bytes.now k d) changes.now }
{
    for change in changes {
        if leaves(change, size, subject, bytes, k) {
            return false;
        }
    }
    true
}
