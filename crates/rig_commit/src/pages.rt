//! The pages that are committed.
ghost use Rattle.std.specs.Prelude.{◌≡◌, ◌++◌, ◌∷◌, [], ℕ, IfOk, List, OnOk, Some, map};
ghost use Rattle.rig_commit.specs.Pages.{page_bytes, page_front, pages_between};

use sqval::PageSize;
use std::alloc::{AllocError, Global};

/// The first bytes of a database of pages of 1024 bytes (fileformat2, 1.3).
const HEADER: [u8; 24] = *b"SQLite format 3\0\x04\0\x01\x01\0\x40\x20\x20";

/// How many bytes a page has.
pub const PAGE_LEN: u32 = 1024;

/// The size of the pages.
pub fn page_size() -> Option<PageSize>
    ensures { result ≡ Some PAGE_LEN }
{
    PageSize::new(PAGE_LEN)
}

/// What a page begins with: page 1 as a database does.
fn front_of(alloc: Global, page: u32) -> Result<Vec<u8>, AllocError>
    ensures { IfOk result (λ front. front.items ≡ page_front page) }
{
    let mut front = Vec::new(alloc);
    if page == 1 {
        front.extend_from_slice(&HEADER)?;
        front.resize(100, 0)?;
    }
    Ok(front)
}

/// What a page holds after a commit, each after another.
fn page_of(alloc: Global, page: u32, commit: u8) -> Result<Vec<u8>, AllocError>
    ensures { IfOk result (λ bytes. bytes.items ≡ page_bytes page commit) }
{
    let mut bytes = front_of(alloc, page)?;
    bytes.resize(PAGE_LEN as usize, commit)?;
    Ok(bytes)
}

/// Adds what a page holds after a commit.
fn add_page(
    alloc: Global,
    pages: &mut Vec<(u32, Vec<u8>)>,
    page: u32,
    commit: u8,
) -> Result<(), AllocError>
    ensures { OnOk result (map {B = ℕ × List ℕ} (λ p. (p.0, p.1.items)) pages.new.items
        ≡ map {B = ℕ × List ℕ} (λ p. (p.0, p.1.items)) pages.old.items ++ (page, page_bytes page commit) ∷ []) }
{
    let bytes = page_of(alloc, page, commit)?;
    pages.push((page, bytes))?;
    Ok(())
}

/// The pages that a commit writes, from one page to another, by their numbers.
pub fn pages_of(
    alloc: Global,
    first: u32,
    last: u32,
    commit: u8,
) -> Result<Vec<(u32, Vec<u8>)>, AllocError>
    ensures { IfOk result (λ pages. map {B = ℕ × List ℕ} (λ p. (p.0, p.1.items)) pages.items
        ≡ pages_between first last commit) }
{
    let mut pages = Vec::new(alloc);
    if first > last {
        return Ok(pages);
    }
    for page in first..last {
        add_page(alloc, &mut pages, page, commit)?;
    }
    add_page(alloc, &mut pages, last, commit)?;
    Ok(pages)
}

/// The same, lent.
pub fn lent<'a>(
    alloc: Global,
    pages: &'a [(u32, Vec<u8>)],
) -> Result<Vec<(u32, &'a [u8])>, AllocError>
    ensures { IfOk result (λ lent. map {B = ℕ × List ℕ} (λ p. (p.0, p.1.now)) lent.items
        ≡ map {B = ℕ × List ℕ} (λ p. (p.0, p.1.items)) pages.entry.now) }
{
    let mut lent = Vec::new(alloc);
    for (page, bytes) in pages {
        lent.push((*page, bytes.as_slice()))?;
    }
    Ok(lent)
}
