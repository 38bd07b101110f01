//! A cell that lost its first four bytes, read by itself (fileformat2, 1.6).
ghost use Rattle.std.specs.Prelude.{◌≡◌, ◌≤◌, ℕ, length, IfOk, MatchOption};
ghost use Rattle.sqval.specs.Datum.{row_of};
ghost use Rattle.sqdeleted.specs.Cut.{AreFilled, AreHeld, IsCut, IsCutCell};
ghost use Rattle.sqdeleted.specs.declared.rest.Rest.{Rest};

use crate::freed::Marked;
use crate::rest::rest_at;
use crate::values::first_values;
use sqval::Value;
use std::alloc::{AllocError, Global};

/// A deleted cell of a leaf of a table that lost its first four bytes to a freeblock: what stands of it in the page.
/// Its rowid isn't known. Nothing is said of whether its row was ever there.
#[derive(Clone, Copy, Debug)]
pub struct CutCell<'a> {
    /// The number of its page.
    pub page: u32,
    /// Where it began in the page.
    pub at: usize,
    /// How many bytes it took there, with the four that are lost.
    pub size: usize,
    /// The serial types that are left of its record: all of them, or all but the first.
    pub types: &'a [u8],
    /// Their bodies.
    pub bodies: &'a [u8],
}

impl<'a> CutCell<'a> {
    /// The values of its columns: all of them, or all but the first, which was NULL, 0, 1 or empty then. An error for
    /// want of memory.
    pub fn values(&self, alloc: Global) -> Result<Vec<Value<'a>>, AllocError>
        ensures { AreFilled self.now.types.now self.now.bodies.now
            → IfOk result (λ values. AreHeld self.now.types.now self.now.bodies.now (row_of values.items)) }
    {
        first_values(alloc, self.types, self.bodies)
    }
}

/// The cell that lost its first four bytes that began at `at`, of page `number`, and ends at `to` or before. None
/// where none did.
pub(crate) fn cut_at<'a>(page: Marked<'a>, number: u32, at: usize, to: usize) -> Option<CutCell<'a>>
    requires { to ≤ length page.used.now }
    ensures { MatchOption result ((rest : Rest) → ¬ IsCut page.entry.used.now page.entry.whole.now at to at rest)
        (λ cell. (rest : Rest) × IsCut page.entry.used.now page.entry.whole.now at to at rest
        × IsCutCell page.entry.used.now number at rest cell) }
{
    let rest = rest_at(page, at, to)?;
    Some(CutCell {
        page: number,
        at,
        size: rest.end - at,
        types: &page.used[rest.types..rest.bodies],
        bodies: &page.used[rest.bodies..rest.end],
    })
}
