//! Payloads and their overflow chains.
ghost use Rattle.std.specs.Prelude.{◌≡◌, ◌≢◌, ℕ, ◌+◌, ◌-◌, ◌/◌, ◌<◌, ◌≤◌, List, [], ◌++◌, true, false, length, take};
ghost use Rattle.std.specs.Prelude.{drop, IfOk, IfErr, OnOk, OnErr, IsSome};
ghost use Rattle.sqval.specs.Database.{Database, page};
ghost use Rattle.sqpage.specs.Freelist.{IsPage, next_in};
ghost use Rattle.sqpage.specs.Source.{KeepsPages, UnlessUnread};
ghost use Rattle.sqpage.specs.internal.Taking.{AreTaken, LinkRefused, AppendsChain, GoesOn, ChainStops};
ghost use Rattle.sqpage.specs.Chain.{payload_size, links, contents, Follows, IsPayload, ChainBroken, ChainRefused};
ghost use Rattle.sqpage.specs.declared.fault.Fault.{Fault};

use crate::bytes::word_at;
use crate::cell::Cell;
use crate::fault::{CheckError, Fault};
use crate::source::{PageSource, read_page};
use crate::taken::Taken;
use std::alloc::Global;

/// How many pages the rest of a cell's payload takes, behind what lies on the cell's own page (fileformat2, 1.7).
pub fn links_of(cell: &Cell) -> u64
    requires least { 480 ≤ cell.now.usable }
    requires part { length cell.now.local.now ≤ payload_size cell.now }
    ensures { result ≡ links cell.now }
{
    let size = cell.payload.unwrap_or(0);
    let beyond = size - cell.local.len() as u64;
    if beyond == 0 {
        return 0; // as of most cells, and a division is slow
    }
    beyond.div_ceil(u64::from(cell.usable) - 4)
}

/// Reads page `p` of a chain, which page `at` names, and appends its content. Answers the next number.
fn append_page<S: PageSource>(
    source: &mut S,
    at: u32,
    p: u32,
    used: &mut [u8],
    out: &mut Vec<u8>,
    usable: usize,
) -> Result<u32, CheckError>
    requires above { 0 < p }
    requires room { (length used.old ≡ S.size source.old) × (480 ≤ usable) × (usable ≤ length used.old) }
    ensures ok { S.reads_right source.old → IfOk result (λ next. IsPage (S.pages source.old) p
        × (next ≡ next_in (page (S.pages source.old) p))
        × (out.new.items ≡ out.old.items ++ take (usable - 4) (drop 4 (page (S.pages source.old) p)))) }
    ensures err { S.reads_right source.old → IfErr result (λ e. UnlessUnread (S.gives_pages source.old) e.fault
        (LinkRefused (S.pages source.old) at p e.fault e.page)) }
    ensures appended { (more : List ℕ) × (out.new.items ≡ out.old.items ++ more) }
    ensures keeps { KeepsPages S.pages S.size S.reads_right S.gives_pages source.old source.new }
{
    if p > source.count() {
        return Err(CheckError {
            page: at,
            fault: Fault::PageOutside,
        });
    }
    read_page(source, p, used)?;
    match out.extend_from_slice(&used[4..usable]) {
        Ok(()) => Ok(word_at(used, 0)),
        Err(_) => Err(CheckError {
            page: p,
            fault: Fault::NoMemory,
        }),
    }
}

/// Appends the contents of the pages of a cell's chain, of which there are to be so many. Answers whether
/// it ends with them. False where it goes on, and as soon as it is seen to come back to a page: a page is
/// kept each time that the number of those read is a power of two, and compared to those that follow.
fn append_chain<S: PageSource>(
    source: &mut S,
    cell: &Cell,
    needed: u64,
    used: &mut [u8],
    out: &mut Vec<u8>,
) -> Result<bool, CheckError>
    requires room { (length used.old ≡ S.size source.old) × (480 ≤ cell.now.usable)
        × (cell.now.usable ≤ length used.old) }
    requires needed { needed ≡ links cell.now }
    ensures ok { S.reads_right source.old → IfOk result (λ ends.
        (ends ≡ true → AppendsChain (S.pages source.old) cell.now out.old.items out.new.items)
        × (ends ≡ false → GoesOn (S.pages source.old) cell.now)) }
    ensures err { S.reads_right source.old → IfErr result (λ e. UnlessUnread (S.gives_pages source.old) e.fault
        (ChainBroken (S.pages source.old) cell.now e.fault e.page)) }
    ensures appended { (more : List ℕ) × (out.new.items ≡ out.old.items ++ more) }
    ensures keeps { KeepsPages S.pages S.size S.reads_right S.gives_pages source.old source.new }
{
    let usable = cell.usable as usize;
    let mut at = cell.page;
    let mut next = cell.overflow;
    let mut kept = 0;
    let mut left = needed;
    'links: while left > 0 {
        if next == 0 {
            return Err(CheckError {
                page: at,
                fault: Fault::ChainCut,
            });
        }
        if next == kept {
            return Ok(false);
        }
        let following = append_page(source, at, next, used, out, usable)?;
        if (needed - left).is_power_of_two() {
            kept = next;
        }
        at = next;
        next = following;
        left -= 1;
    }
    if next != 0 {
        return Ok(false);
    }
    Ok(true)
}

/// Takes the pages of a cell's chain, of which there are to be so many. Answers the last one.
fn mark_chain<S: PageSource>(
    source: &mut S,
    cell: &Cell,
    needed: u64,
    taken: &mut Taken,
    used: &mut [u8],
) -> Result<u32, CheckError>
    requires none { AreTaken taken.old.marks.items []
        × (length taken.old.marks.items ≡ length (S.pages source.old)) }
    requires room { (length used.old ≡ S.size source.old) × (480 ≤ length used.old) }
    requires needed { needed ≡ links cell.now }
    ensures ok { S.reads_right source.old → IfOk result (λ last. (pages : List ℕ) × (p : ℕ) × Follows
        (S.pages source.old) cell.now pages last p × (length pages ≡ links cell.now)) }
    ensures err { S.reads_right source.old → IfErr result (λ e. UnlessUnread (S.gives_pages source.old) e.fault
        (ChainStops (S.pages source.old) cell.now e.fault e.page)) }
    ensures keeps { KeepsPages S.pages S.size S.reads_right S.gives_pages source.old source.new }
{
    let mut at = cell.page;
    let mut next = cell.overflow;
    let mut left = needed;
    'links: while left > 0 {
        taken.take(at, next)?;
        read_page(source, next, used)?;
        at = next;
        next = word_at(used, 0);
        left -= 1;
    }
    Ok(at)
}

/// Why a cell's chain is refused that goes on where it is to end, or comes back to a page.
fn judge_chain<S: PageSource>(
    alloc: Global,
    source: &mut S,
    cell: &Cell,
    needed: u64,
    used: &mut [u8],
) -> CheckError
    requires room { (length used.old ≡ S.size source.old) × (480 ≤ length used.old) }
    requires needed { needed ≡ links cell.now }
    ensures stands { S.reads_right source.old → GoesOn (S.pages source.old) cell.now → UnlessUnread
        (S.gives_pages source.old) result.fault
        (ChainBroken (S.pages source.old) cell.now result.fault result.page) }
    ensures keeps { KeepsPages S.pages S.size S.reads_right S.gives_pages source.old source.new }
{
    match Taken::none(alloc, source.count()) {
        Ok(mut taken) => match mark_chain(source, cell, needed, &mut taken, used) {
            Ok(last) => CheckError {
                page: last,
                fault: Fault::ChainLong,
            },
            Err(refusal) => refusal,
        },
        Err(_) => CheckError {
            page: cell.page,
            fault: Fault::NoMemory,
        },
    }
}

/// Appends what lies on the pages of a cell's chain, of which there are to be so many.
fn append_pages<S: PageSource>(
    alloc: Global,
    source: &mut S,
    cell: &Cell,
    needed: u64,
    out: &mut Vec<u8>,
) -> Result<(), CheckError>
    requires usable { (480 ≤ cell.now.usable) × (cell.now.usable ≤ S.size source.old) }
    requires needed { needed ≡ links cell.now }
    ensures ok { S.reads_right source.old
        → OnOk result (AppendsChain (S.pages source.old) cell.now out.old.items out.new.items) }
    ensures appended { (more : List ℕ) × (out.new.items ≡ out.old.items ++ more) }
    ensures err { S.reads_right source.old → IfErr result (λ e. UnlessUnread (S.gives_pages source.old) e.fault
        (ChainBroken (S.pages source.old) cell.now e.fault e.page)) }
    ensures keeps { KeepsPages S.pages S.size S.reads_right S.gives_pages source.old source.new }
{
    let size = source.page_size().get() as usize;
    let mut used = match vec![in alloc; 0u8; size] {
        Ok(used) => used,
        Err(_) => {
            return Err(CheckError {
                page: cell.page,
                fault: Fault::NoMemory,
            });
        }
    };
    if append_chain(source, cell, needed, &mut used, out)? {
        return Ok(());
    }
    Err(judge_chain(alloc, source, cell, needed, &mut used))
}

/// Appends a cell's payload, for which its chain has so many pages.
fn append<S: PageSource>(
    alloc: Global,
    source: &mut S,
    cell: &Cell,
    needed: u64,
    out: &mut Vec<u8>,
) -> Result<(), CheckError>
    requires usable { (480 ≤ cell.now.usable) × (cell.now.usable ≤ S.size source.old) }
    requires needed { needed ≡ links cell.now }
    ensures ok { S.reads_right source.old → OnOk result
        (AppendsChain (S.pages source.old) cell.now (out.old.items ++ cell.now.local.now) out.new.items) }
    ensures appended { (more : List ℕ) × (out.new.items ≡ out.old.items ++ more) }
    ensures err { S.reads_right source.old → IfErr result (λ e. UnlessUnread (S.gives_pages source.old) e.fault
        (ChainBroken (S.pages source.old) cell.now e.fault e.page)) }
    ensures keeps { KeepsPages S.pages S.size S.reads_right S.gives_pages source.old source.new }
{
    match out.extend_from_slice(cell.local) {
        Ok(()) => {}
        Err(_) => {
            return Err(CheckError {
                page: cell.page,
                fault: Fault::NoMemory,
            });
        }
    }
    if needed > 0 {
        return append_pages(alloc, source, cell, needed, out);
    }
    if cell.overflow != 0 {
        return Err(CheckError {
            page: cell.page,
            fault: Fault::ChainLong,
        });
    }
    Ok(())
}

/// Appends the payload of a cell to `out` (fileformat2, 1.7, "Cell Payload Overflow Pages"). Refused by
/// ChainCut at the cell's page before the chain is followed where the source has too few pages, and where
/// a next number is 0 too early at its page; ChainLong at the last page where its next number isn't 0;
/// PageOutside at the page that holds the number; PageTwice at the page; Source and NoMemory. After a
/// refusal `out` is as before. The time is that of the pages of the cell's own chain; only a chain that is
/// too long or comes back to a page takes a mark for each page of the source.
pub fn payload<S: PageSource>(
    alloc: Global,
    source: &mut S,
    cell: &Cell,
    out: &mut Vec<u8>,
) -> Result<(), CheckError>
    requires payload { IsSome cell.now.payload × (length cell.now.local.now ≤ payload_size cell.now) }
    requires usable { (480 ≤ cell.now.usable) × (cell.now.usable ≤ S.size source.old) }
    ensures ok { S.reads_right source.old → OnOk result ((content : List ℕ) × IsPayload (S.pages source.old) cell.now
        content × (out.new.items ≡ out.old.items ++ content)) }
    // The condition stands at the page, and the cell has no payload, unless a page couldn't be read or memory ran out.
    ensures err { S.reads_right source.old → IfErr result (λ e. UnlessUnread (S.gives_pages source.old) e.fault
        (ChainRefused (S.pages source.old) cell.now e.fault e.page
        × (e.fault ≢ Fault.NoMemory → (content : List ℕ) → ¬ IsPayload (S.pages source.old) cell.now content))) }
    ensures unchanged { OnErr result (out.new.items ≡ out.old.items) }
    ensures keeps { KeepsPages S.pages S.size S.reads_right S.gives_pages source.old source.new }
{
    let needed = links_of(cell);
    if needed > u64::from(source.count()) {
        return Err(CheckError {
            page: cell.page,
            fault: Fault::ChainCut,
        });
    }
    let before = out.len();
    let size = cell.payload.unwrap_or(0) as usize;
    match append(alloc, source, cell, needed, out) {
        Ok(()) => {
            out.truncate(before.saturating_add(size));
            Ok(())
        }
        Err(refusal) => {
            out.truncate(before);
            Err(refusal)
        }
    }
}
