//! Where the pages of a database come from (own).
ghost use Rattle.std.specs.Prelude.{◌≡◌, ◌↔◌, ℕ, ◌%◌, ◌/◌, ◌*◌, ◌<◌, ◌^◌, length, IsOk, OnOk, IsSome, IfSome, IfErr};
ghost use Rattle.sqval.specs.Database.{Database, page};
ghost use Rattle.sqpage.specs.Freelist.{IsPage};
ghost use Rattle.sqpage.specs.Lists.{Every};
ghost use Rattle.sqpage.specs.Source.{KeepsPages};
ghost use Rattle.sqpage.specs.internal.Source.{sliced};
ghost use Rattle.sqpage.specs.declared.fault.Fault.{Fault};

use crate::fault::{CheckError, Fault};
use sqval::PageSize;
use thiserror::Error;

/// A page that could not be read.
#[derive(Clone, Copy, Debug, PartialEq, Eq, Error)]
#[error("a page could not be read")]
pub struct SourceError;

/// A database whose pages are read one by one.
pub trait PageSource {
    /// Its pages.
    ghost pages: { Self → Database };

    /// The size of its pages.
    ghost size: { Self → ℕ };

    /// What a read gives that doesn't fail is right, which is the page. Nothing can be said of the bytes that are read
    /// where it isn't.
    ghost reads_right: { Self → Type 0 };

    /// What a read gives is right, and no read fails.
    ghost gives_pages: { Self → Type 0 };

    /// How many bytes each page has.
    fn page_size(&self) -> PageSize
        ensures { result ≡ size self.now };

    /// How many pages there are.
    fn count(&self) -> u32
        ensures { result ≡ length (pages self.now) };

    /// Reads page `p`, from 1, to `out`, which has the size of a page. Refused by `SourceError` where it can't be
    /// read; `out` may then hold anything.
    fn page(&mut self, p: u32, out: &mut [u8]) -> Result<(), SourceError>
        requires page { IsPage (pages self.old) p }
        requires room { length out.old ≡ size self.old }
        // Each page has that size.
        ensures read { reads_right self.old → OnOk result ((out.new ≡ page (pages self.old) p) × Every
            (λ bytes. length bytes ≡ size self.old) (pages self.old)) }
        ensures never_fails { gives_pages self.old → IsOk result }
        ensures keeps { KeepsPages pages size reads_right gives_pages self.old self.new };

    ghost right: { (source : Self) → gives_pages source → reads_right source };
}

/// The pages of a file that lies in memory.
#[derive(Clone, Copy, Debug)]
pub struct SliceSource<'a> {
    bytes: &'a [u8],
    page_size: PageSize,
    count: u32,
    ghost whole: { length bytes.now ≡ count * page_size },
}

impl<'a> SliceSource<'a> {
    /// The pages in the bytes. None where these are not whole pages, or are above `u32::MAX` pages.
    pub fn new(bytes: &'a [u8], page_size: PageSize) -> Option<SliceSource<'a>>
        ensures whole { IsSome result
            ↔ ((count : ℕ) × (count < 2 ^ 32) × (length bytes.entry.now ≡ count * page_size)) }
        ensures bytes { IfSome result (λ source. source.bytes.now ≡ bytes.entry.now) }
        ensures size { IfSome result (λ source. source.page_size ≡ page_size) }
    {
        let size = page_size.get() as usize;
        if bytes.len() % size != 0 {
            return None;
        }
        match u32::try_from(bytes.len() / size) {
            Ok(count) => Some(SliceSource {
                bytes,
                page_size,
                count,
            }),
            Err(_) => None,
        }
    }
}

impl<'a> PageSource for SliceSource<'a> {
    ghost pages = { λ s. sliced s.page_size s.count s.bytes.now };

    ghost size = { λ s. s.page_size };

    ghost reads_right = { λ _. Unit {0} };

    ghost gives_pages = { λ _. Unit {0} };

    ghost right = { λ _ _. tt };

    fn page_size(&self) -> PageSize {
        self.page_size
    }

    fn count(&self) -> u32 {
        self.count
    }

    fn page(&mut self, p: u32, out: &mut [u8]) -> Result<(), SourceError> {
        let size = self.page_size.get() as usize;
        let at = (p as usize - 1) * size;
        out.copy_from_slice(&self.bytes[at..at + size]);
        Ok(())
    }
}

/// Reads page `p` of the source. Refused by Source where it could not be read.
pub(crate) fn read_page<S: PageSource>(
    source: &mut S,
    p: u32,
    out: &mut [u8],
) -> Result<(), CheckError>
    requires page { IsPage (S.pages source.old) p }
    requires room { length out.old ≡ S.size source.old }
    ensures read { S.reads_right source.old → OnOk result (out.new ≡ page (S.pages source.old) p) }
    ensures never_fails { S.gives_pages source.old → IsOk result }
    ensures keeps { KeepsPages S.pages S.size S.reads_right S.gives_pages source.old source.new }
    ensures err { IfErr result (λ e. (e.fault ≡ Fault.Source) × (e.page ≡ p)) }
{
    source.page(p, out).map_err(|_| CheckError {
        page: p,
        fault: Fault::Source,
    })
}
