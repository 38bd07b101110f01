//! The entry of an index that came last, beside which the next one is judged.
ghost use Rattle.std.specs.Prelude.{◌≡◌, true, false, None, Some, ℤ, slice_get};
ghost use Rattle.sqlite_record.specs.Record.{decode};
ghost use Rattle.sqlite_value.specs.declared.value.Value.TheVariants.{Int};

use crate::walk::Walk;
use std::alloc::Global;

/// The payload of the entry that came last, where one did, and its first column, where that is known to be an integer.
#[derive(Drop)]
pub(crate) struct Last {
    pub(crate) some: bool,
    pub(crate) bytes: Vec<u8>,
    pub(crate) first: Option<i64>,
    ghost led: { (n : ℤ) → first ≡ Some n → slice_get (decode bytes.items) 0 ≡ Some (Int n) },
}

impl Last {
    /// None came yet.
    pub(crate) fn none(alloc: Global) -> Last
        ensures { result.some ≡ false }
    {
        Last {
            some: false,
            bytes: Vec::new(alloc),
            first: None,
        }
    }

    /// The payload that a walk came to comes last, which begins with this. The walk takes the room of the one before.
    #[inline(always)]
    pub(crate) fn moved_to(self, walk: &mut Walk, first: Option<i64>) -> Last
        requires { (n : ℤ) → first ≡ Some n → slice_get (decode walk.old.payload.items) 0 ≡ Some (Int n) }
        ensures held { (result.some ≡ true) × (result.bytes.items ≡ walk.old.payload.items) }
        ensures same { (walk.new.cells ≡ walk.old.cells) × (walk.new.limit ≡ walk.old.limit) }
    {
        let bytes = std::mem::replace(&mut walk.payload, self.bytes);
        Last {
            some: true,
            bytes,
            first,
        }
    }
}
