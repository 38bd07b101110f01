//! A deleted cell, read by itself (fileformat2, 1.6).
ghost use Rattle.std.specs.Prelude.{◌≡◌, ◌↔◌, ◌<◌, ◌≤◌, List, length, MatchOption, IsSome, IsSomeAnd};
ghost use Rattle.sqval.specs.Datum.{Datum};
ghost use Rattle.sqval.specs.Record.{IsRecord, most_bytes};
ghost use Rattle.sqpage.specs.declared.cell.Parts.{Parts};
ghost use Rattle.sqpage.specs.declared.kind.Kind.{Kind};
ghost use Rattle.sqpage.specs.Page.{HasParts};
ghost use Rattle.sqdeleted.specs.Deleted.{BeginsRecord, StandsBetween, IsCellOf};

use crate::header::begins_record;
use sqpage::{Kind, Parts};
use sqsalvage::parts_at;
use sqval::Record;

/// A deleted cell of a leaf of a table: what stands in the page. Nothing is said of whether its row was ever there.
#[derive(Clone, Copy, Debug)]
pub struct DeletedCell<'a> {
    /// The number of its page.
    pub page: u32,
    /// Where it begins in the page.
    pub at: usize,
    /// How many bytes it takes there.
    pub size: usize,
    pub rowid: i64,
    /// The size of its whole payload in bytes.
    pub payload: u64,
    /// What of the payload lies in the page.
    pub local: &'a [u8],
    /// The first overflow page that it names, or 0. Others may have it by now.
    pub overflow: u32,
}

impl<'a> DeletedCell<'a> {
    /// Its record. None where not all of the payload lies in the page.
    pub fn record(&self) -> Option<Record<'a>>
        ensures read { (values : List Datum) → IsSomeAnd result (λ found. found ≡ values)
            ↔ ((length self.now.local.now ≤ most_bytes) × IsRecord values self.now.local.now) }
        ensures whole { length self.now.local.now ≤ most_bytes → length self.now.local.now ≡ self.now.payload
            → BeginsRecord self.now.payload self.now.local.now → IsSome result }
    {
        match Record::new(self.local) {
            Ok(record) => Some(record),
            Err(_) => None,
        }
    }
}

/// The cell of these parts at `at`, of page `number`.
fn cell_with<'a>(used: &'a [u8], number: u32, at: usize, parts: &Parts) -> DeletedCell<'a>
    requires sized { length used.now ≤ 65536 }
    requires parts { HasParts Kind.TableLeaf used.now at parts.now }
    ensures { IsCellOf used.now number at parts.now result }
{
    DeletedCell {
        page: number,
        at,
        size: parts.end - at,
        rowid: parts.rowid.cast_signed(),
        payload: parts.payload,
        local: &used[parts.body..parts.body + parts.local as usize],
        overflow: parts.overflow,
    }
}

/// The deleted cell that begins at `at`, of page `number`, and ends at `to` or before. None where none does.
pub(crate) fn cell_at<'a>(
    used: &'a [u8],
    number: u32,
    at: usize,
    to: usize,
) -> Option<DeletedCell<'a>>
    requires sized { (480 ≤ length used.now) × (length used.now ≤ 65536) }
    requires place { at < length used.now }
    ensures { MatchOption result ((c : Parts) → ¬ StandsBetween used.now at to at c)
        (λ cell. (c : Parts) × StandsBetween used.now at to at c × IsCellOf used.now number at c cell) }
{
    let parts = parts_at(Kind::TableLeaf, used, at)?;
    if parts.end > to {
        return None;
    }
    let cell = cell_with(used, number, at, &parts);
    if begins_record(cell.local, parts.payload) {
        Some(cell)
    } else {
        None
    }
}
