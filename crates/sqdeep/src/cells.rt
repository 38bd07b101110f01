//! The cells of a page (fileformat2, 1.6 and 2.1).
ghost use Rattle.std.specs.Prelude.{◌≡◌, ◌+◌, ◌<◌, ◌≤◌, ◌^◌, ℕ, cond, List, Some, IfSome, IfErr, IfOk, OnOk, length};
ghost use Rattle.sqval.specs.Database.{Database};
ghost use Rattle.sqval.specs.Datum.{Datum};
ghost use Rattle.sqval.specs.Record.{IsRecord};
ghost use Rattle.sqpage.specs.Chain.{payload_size, IsPayload};
ghost use Rattle.sqpage.specs.Page.{cell_count, HasPartsOf};
ghost use Rattle.sqpage.specs.declared.kind.Kind.{Kind};
ghost use Rattle.sqcheck.specs.Places.{page_as};
ghost use Rattle.sqdeep.specs.declared.fault.DeepError.TheVariants.{Inner};
ghost use Rattle.sqdeep.specs.Records.{encoding_of, IsSoundCell};
ghost use Rattle.sqdeep.specs.internal.Judging.{SameSource, IsWithinPage, CellTells, Tells, IsOfSoundTree};
ghost use Rattle.sqdeep.specs.internal.Judging.{AreSoundCells, HasForm, HasSoundTrees, PayloadTells};
ghost use Rattle.sqdeep.specs.internal.IllFormed.{HasCellForm, HasIllFormed};

use crate::fault::{DeepError, InnerError, InnerFault};
use crate::records::judge_record;
use crate::snapshot::Snapshot;
use crate::text::Encoding;
use sqpage::{BtreePage, Cell, PageSource, Parts, links_of, payload};
use sqval::MOST_BYTES;
use std::alloc::Global;

/// How many bytes of its page a cell takes at least.
const LEAST_CELL: usize = 4;

/// A fault of cell `i` of its page.
fn at_cell(cell: &Cell, i: usize, fault: InnerFault) -> DeepError
    ensures { result ≡ Inner (record { fault = fault; page = cell.now.page; cell = Some i }) }
{
    DeepError::Inner(InnerError {
        fault,
        page: cell.page,
        cell: Some(i),
    })
}

/// The payload of a cell where all of it lies there.
#[inline(always)]
fn whole_of<'a>(cell: &Cell<'a>) -> Option<&'a [u8]>
    requires least { 480 ≤ cell.now.usable }
    requires part { length cell.now.local.now ≤ payload_size cell.now }
    ensures { IfSome result (λ bytes. (d : Database) → IsPayload d cell.now bytes.now) }
{
    if links_of(cell) == 0 && cell.overflow == 0 {
        Some(cell.local)
    } else {
        None
    }
}

/// Judges the payload of cell `i`: whether a text of the record isn't one in this encoding. Refused by TooLong and
/// NotRecord, the first that applies.
#[inline(always)]
fn judge_payload(encoding: Encoding, cell: &Cell, i: usize, bytes: &[u8]) -> Result<bool, DeepError>
    ensures ok { OnOk result ((values : List Datum) × IsRecord values bytes.now) }
    ensures form { IfOk result (λ is_ill. HasForm is_ill encoding bytes.now) }
    ensures err { IfErr result (PayloadTells cell.now i bytes.now) }
{
    match judge_record(encoding, bytes) {
        Ok(is_ill) => Ok(is_ill),
        Err(fault) => Err(at_cell(cell, i, fault)),
    }
}

/// Judges cell `i` of a page, and its payload where it has one: whether a text of it isn't one in this encoding.
/// Refused by ShortCell, TooLong and NotRecord, the first that applies, by Source and NoMemory. `content` is room for
/// the payload.
#[inline(always)]
fn judge_cell<V: Snapshot, S: PageSource>(
    alloc: Global,
    source: &mut S,
    encoding: Encoding,
    cell: &Cell,
    i: usize,
    content: &mut Vec<u8>,
) -> Result<bool, DeepError>
    requires cell { IsWithinPage V.size cell.now }
    requires same { SameSource V.pages V.size V.right V.given (S.pages source.old) (S.size source.old)
        (S.reads_right source.old) (S.gives_pages source.old) }
    ensures ok { V.right → OnOk result (IsSoundCell V.pages cell.now) }
    ensures form { V.right → IfOk result (λ is_ill. HasCellForm is_ill encoding V.pages cell.now) }
    ensures err { V.right → (bytes : List ℕ) → IsPayload V.pages cell.now bytes
        → IfErr result (λ e. CellTells V.given V.pages cell.now i e) }
    ensures same { SameSource V.pages V.size V.right V.given (S.pages source.new) (S.size source.new)
        (S.reads_right source.new) (S.gives_pages source.new) }
{
    if cell.at > cell.usable as usize - LEAST_CELL {
        return Err(at_cell(cell, i, InnerFault::ShortCell));
    }
    let Some(size) = cell.payload else {
        return Ok(false);
    };
    if size > MOST_BYTES as u64 {
        return Err(at_cell(cell, i, InnerFault::TooLong));
    }
    if let Some(bytes) = whole_of(cell) {
        return judge_payload(encoding, cell, i, bytes);
    }
    content.clear();
    // A copy, so that the parts of a cell that lies whole in its page stay in registers.
    let chained = *cell;
    match payload(alloc, source, &chained, content) {
        Ok(()) => judge_payload(encoding, cell, i, content),
        Err(refusal) => Err(DeepError::Check(refusal)),
    }
}

/// One more of these, if there is one.
fn one_more(count: u64, is_one: bool) -> u64
    requires { count + 1 < 2 ^ 64 }
    ensures { result ≡ cond is_one (count + 1) count }
{
    if is_one { count + 1 } else { count }
}

/// Judges the cells of a page, which has these parts, in the order of their pointers, as `judge_cell` does, and counts
/// those with a text that isn't one in this encoding.
pub(crate) fn judge_cells<V: Snapshot, S: PageSource>(
    alloc: Global,
    source: &mut S,
    encoding: Encoding,
    page: &BtreePage,
    parts: &[Parts],
    content: &mut Vec<u8>,
) -> Result<u64, DeepError>
    requires most { length page.now.used ≤ V.size }
    requires parts { HasPartsOf page.now parts.now }
    requires encoding { V.right → encoding ≡ encoding_of V.pages }
    requires same { SameSource V.pages V.size V.right V.given (S.pages source.old) (S.size source.old)
        (S.reads_right source.old) (S.gives_pages source.old) }
    ensures ok { V.right → OnOk result (AreSoundCells V.pages page.now (cell_count page.now)) }
    ensures counted { V.right → HasSoundTrees V.pages → (kind : Kind) (root : ℕ)
        → page.now ≡ page_as V.pages kind page.now.number → IsOfSoundTree V.pages kind root page.now.number
        → IfOk result (λ n. (before : ℕ) → HasIllFormed V.pages page.now.number 0 before
        → HasIllFormed V.pages page.now.number (cell_count page.now) (before + n)) }
    ensures most { IfOk result (λ n. n ≤ cell_count page.now) }
    ensures err { V.right → (kind : Kind) (root : ℕ) → page.now ≡ page_as V.pages kind page.now.number
        → IsOfSoundTree V.pages kind root page.now.number → IfErr result (λ e. Tells V.given V.pages e) }
    ensures same { SameSource V.pages V.size V.right V.given (S.pages source.new) (S.size source.new)
        (S.reads_right source.new) (S.gives_pages source.new) }
{
    let mut count = 0;
    'cells: for i in 0..page.len() {
        let cell = page.cell_with(i, &parts[i]);
        let is_ill = judge_cell::<V, S>(alloc, source, encoding, &cell, i, content)?;
        count = one_more(count, is_ill);
    }
    Ok(count)
}
