//! The frames of a log by the pages that they name.
ghost use Rattle.std.specs.Prelude.{◌≡◌, ◌≤◌, ◌-◌, ℕ, List, length, get_or, IfOk, OnErr, slice_index};
ghost use Rattle.sqwal.specs.Header.{named_size};
ghost use Rattle.sqwal.specs.Frames.{page_of, size_of, IsCommit, IsValidFrame};
ghost use Rattle.sqwal.specs.Took.{TookWithin};
ghost use Rattle.sqpast.specs.internal.Chains.{AreChainsFrom, AreChains, IsLeastCommit};

use sqval::PageSize;
use sqview::ViewError;
use sqwal::{Front, Scan};
use std::alloc::Global;

/// The frames of a log up to its front, by the pages that they name.
#[derive(Drop)]
pub struct Chains {
    pub page_size: PageSize,
    /// How many pages the smallest commit has.
    pub least: u32,
    /// By page, from 1: the first frame that names it; 0 where none does.
    pub first: Vec<u32>,
    /// By frame, from 1: the next one that names the same page; 0 where none does.
    pub next: Vec<u32>,
}

/// So many zeros.
fn zeros(alloc: Global, count: usize) -> Result<Vec<u32>, ViewError>
    ensures zeros { IfOk result (λ v. (length v.items ≡ count) × ((i : ℕ) → slice_index v.items i ≡ 0)) }
    ensures memory { OnErr result (result ≡ Err ViewError.NoMemory) }
{
    Ok(vec![in alloc; 0u32; count]?)
}

/// How many pages the smallest commit up to the front has.
pub fn least_commit(scan: &Scan, front: Front) -> u32
    ensures { (most : ℕ) (w : List ℕ) → TookWithin most w scan.now → IsValidFrame (named_size w) w front.frames
        → IsCommit (named_size w) w front.frames → front.size ≡ size_of (named_size w) w front.frames
        → IsLeastCommit (named_size w) w front.frames result }
{
    let mut least = front.size;
    for before in 0..front.frames {
        let Some(entry) = scan.entry(before as usize + 1) else {
            break;
        };
        if entry.size != 0 && entry.size < least {
            least = entry.size;
        }
    }
    least
}

/// Puts a frame before those that name the same page, if it is a page up to the last.
fn link(first: &mut Vec<u32>, next: &mut Vec<u32>, page: u32, frame: u32)
    requires { (1 ≤ frame) × (frame ≤ length next.old.items) }
    ensures lengths { (length first.new.items ≡ length first.old.items)
        × (length next.new.items ≡ length next.old.items) }
    ensures chains { (size : ℕ) (w : List ℕ) (front pages : ℕ) → page ≡ page_of size w frame → 1 ≤ page
        → AreChainsFrom size w front pages frame first.old.items next.old.items
        → AreChainsFrom size w front pages (frame - 1) first.new.items next.new.items }
{
    let page = page as usize;
    if 0 < page && page <= first.len() {
        next[frame as usize - 1] = first[page - 1];
        first[page - 1] = frame;
    }
}

/// Of each of so many pages the first frame that names it, and of each frame the next one that names the same page.
/// They take 4 bytes each.
pub fn link_all(
    alloc: Global,
    scan: &Scan,
    page_size: PageSize,
    front: Front,
    pages: usize,
) -> Result<Chains, ViewError>
    ensures chains { IfOk result (λ c. (c.page_size ≡ page_size) × (length c.first.items ≡ pages)
        × ((most : ℕ) (w : List ℕ) → TookWithin most w scan.now → named_size w ≡ page_size
        → IsValidFrame (named_size w) w front.frames → IsCommit (named_size w) w front.frames
        → front.size ≡ size_of (named_size w) w front.frames → AreChains w front.frames pages c)) }
    ensures memory { OnErr result (result ≡ Err ViewError.NoMemory) }
{
    let mut first = zeros(alloc, pages)?;
    let mut next = zeros(alloc, front.frames as usize)?;
    for after in 0..front.frames {
        let frame = front.frames - after;
        let Some(entry) = scan.entry(frame as usize) else {
            break;
        };
        link(&mut first, &mut next, entry.page, frame);
    }
    Ok(Chains {
        page_size,
        least: least_commit(scan, front),
        first,
        next,
    })
}

impl Chains {
    /// The next frame that names the same page as this one; 0 where none does.
    pub fn after(&self, frame: u32) -> u32
        requires { 1 ≤ frame }
        ensures { result ≡ get_or self.now.next.items (frame - 1) 0 }
    {
        self.next.get(frame as usize - 1).copied().unwrap_or(0)
    }
}
