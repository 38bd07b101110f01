//! Where a run begins (own).
ghost use Rattle.std.specs.List.{concat};
ghost use Rattle.crashdisk.specs.Solid.{is_sector_size};
ghost use Rattle.sqval.specs.PageSize.{IsPageSize};
ghost use Rattle.sqworld.specs.Pages.{pages_of, ArePages, IsBase};
ghost use Rattle.std.specs.Prelude.{◌≡◌, ◌↔◌, ◌<◌, IsSome, IfSome, IfOk, IsTrue, false, true};

use recovery::MOST_BYTES;
use sqval::PageSize;
use std::alloc::{AllocError, Global};

/// Whether a sector may have so many bytes.
fn is_sector(bytes: usize) -> bool
    ensures { result ≡ is_sector_size bytes }
{
    matches!(
        bytes,
        512 | 1024 | 2048 | 4096 | 8192 | 16384 | 32768 | 65536
    )
}

/// Whether these are the pages of a database.
fn are_pages(size: usize, pages: &[Vec<u8>]) -> bool
    requires { 0 < size }
    ensures { IsTrue result ↔ ArePages size (pages_of pages.now) }
{
    if pages.is_empty() || pages.len() > MOST_BYTES as usize / size {
        return false;
    }
    for page in pages {
        if page.len() != size {
            return false;
        }
    }
    true
}

/// A database of pages of this size that is durable, beside an empty log, on a disk with sectors of this size.
#[derive(Drop)]
pub struct Base {
    page_size: PageSize,
    sector: usize,
    tears: bool,
    pages: Vec<Vec<u8>>,
    ghost is_base: { IsBase page_size sector tears (pages_of pages.items) },
}

impl Base {
    ghost use Rattle.sqworld.specs.Bases.{IsBaseOf};

    /// On a disk that doesn't tear. None where the sector is no power of two from 512 to 65536, where there is no page
    /// or one of another size, and where they are more than 1,073,741,824 bytes.
    pub fn new(page_size: PageSize, sector: usize, pages: Vec<Vec<u8>>) -> Option<Base>
        ensures some { IsSome result ↔ IsBase page_size sector false (pages_of pages.items) }
        ensures is { IfSome result (λ base. IsBaseOf page_size sector false (pages_of pages.items) base) }
    {
        Base::with(page_size, sector, false, pages)
    }

    /// On a disk that tears. None also where the page size is below the sector.
    pub fn tearing(page_size: PageSize, sector: usize, pages: Vec<Vec<u8>>) -> Option<Base>
        ensures some { IsSome result ↔ IsBase page_size sector true (pages_of pages.items) }
        ensures is { IfSome result (λ base. IsBaseOf page_size sector true (pages_of pages.items) base) }
    {
        Base::with(page_size, sector, true, pages)
    }

    fn with(page_size: PageSize, sector: usize, tears: bool, pages: Vec<Vec<u8>>) -> Option<Base>
        ensures some { IsSome result ↔ IsBase page_size sector tears (pages_of pages.items) }
        ensures is { IfSome result (λ base. IsBaseOf page_size sector tears (pages_of pages.items) base) }
    {
        let size = page_size.get() as usize;
        if !is_sector(sector) || (tears && size < sector) || !are_pages(size, &pages) {
            return None;
        }
        Some(Base {
            page_size,
            sector,
            tears,
            pages,
        })
    }

    /// The size of its pages.
    pub fn page_size(&self) -> PageSize
        ensures { result ≡ self.now.page_size }
    {
        self.page_size
    }

    pub(crate) fn sector(&self) -> usize
        ensures { result ≡ self.now.sector }
    {
        self.sector
    }

    pub(crate) fn tears(&self) -> bool
        ensures { result ≡ self.now.tears }
    {
        self.tears
    }

    /// The bytes of its pages, one after another.
    pub(crate) fn bytes(&self, alloc: Global) -> Result<Vec<u8>, AllocError>
        ensures size { IsPageSize self.now.page_size }
        ensures bytes { IfOk result (λ bytes. bytes.items ≡ concat (pages_of self.now.pages.items)) }
    {
        let mut bytes = Vec::new(alloc);
        bytes.reserve(self.pages.len() * self.page_size.get() as usize)?;
        for page in &self.pages {
            bytes.extend_from_slice(page)?;
        }
        Ok(bytes)
    }
}
