//! The freelist (fileformat2, 1.5).
ghost use Rattle.std.specs.Prelude.{◌≡◌, ◌≢◌, ℕ, ◌+◌, ◌-◌, ◌*◌, ◌/◌, ◌<◌, ◌≤◌, List, [], ◌∷◌, ◌++◌, length, IfOk};
ghost use Rattle.std.specs.Prelude.{IfErr, OnOk, OnErr, count_by, not};
ghost use Rattle.sqval.specs.Database.{Database, page};
ghost use Rattle.sqpage.specs.Lists.{In, each_from};
ghost use Rattle.sqpage.specs.Source.{KeepsPages, UnlessUnread};
ghost use Rattle.sqpage.specs.Freelist.{IsFreelist, FreelistRefused, free_pages, usable_size, most_leaves, next_in};
ghost use Rattle.sqpage.specs.Freelist.{leaf_count_in, leaves_in, leaf_in};
ghost use Rattle.sqpage.specs.internal.Taking.{AreTaken, TakesAll, LeafRefused, TakeRefused, TrunkRefused};
ghost use Rattle.sqpage.specs.declared.fault.Fault.{Fault};

use crate::bytes::word_at;
use crate::fault::{CheckError, Fault};
use crate::source::{PageSource, read_page};
use crate::taken::Taken;
use std::alloc::Global;

/// The largest size of a page.
const LARGEST_PAGE: usize = 65536;

/// The free pages that were found so far.
#[derive(Drop)]
struct Found {
    taken: Taken,
    pages: Vec<u32>,
}

impl Found {
    /// Nothing is found yet, of so many pages.
    fn none(alloc: Global, count: u32) -> Result<Found, CheckError>
        ensures taken { IfOk result (λ found. AreTaken found.taken.marks.items found.pages.items) }
        ensures none { IfOk result (λ found. found.pages.items ≡ []) }
        ensures marks { IfOk result (λ found. length found.taken.marks.items ≡ count) }
        ensures err { IfErr result (λ e. e.fault ≡ Fault.NoMemory) }
    {
        match Taken::none(alloc, count) {
            Ok(taken) => Ok(Found {
                taken,
                pages: Vec::new(alloc),
            }),
            Err(_) => Err(CheckError {
                page: 1,
                fault: Fault::NoMemory,
            }),
        }
    }

    /// Takes page `p`, which page `holder` names.
    fn take(&mut self, holder: u32, p: u32) -> Result<(), CheckError>
        requires { AreTaken self.old.taken.marks.items self.old.pages.items }
        ensures ok { OnOk result (TakesAll self.old.taken.marks.items self.old.pages.items self.new.taken.marks.items
            self.new.pages.items (p ∷ [])) }
        ensures fresh { OnOk result (¬ In p self.old.pages.items) }
        ensures fewer { OnOk result (count_by not self.new.taken.marks.items < count_by not
            self.old.taken.marks.items) }
        ensures err { IfErr result
            (λ e. TakeRefused (length self.old.taken.marks.items) self.old.pages.items holder p e.fault e.page) }
    {
        self.taken.take(holder, p)?;
        match self.pages.push(p) {
            Ok(()) => Ok(()),
            Err(_) => Err(CheckError {
                page: p,
                fault: Fault::NoMemory,
            }),
        }
    }

    /// Takes the leaves that a trunk names, whose bytes are `page`.
    fn take_leaves(&mut self, trunk: u32, page: &[u8]) -> Result<(), CheckError>
        requires taken { AreTaken self.old.taken.marks.items self.old.pages.items }
        requires room { 8 + 4 * leaf_count_in page.now ≤ length page.now }
        ensures ok { OnOk result (TakesAll self.old.taken.marks.items self.old.pages.items self.new.taken.marks.items
            self.new.pages.items (leaves_in page.now)) }
        ensures err { IfErr result (λ e. LeafRefused (length self.old.taken.marks.items) self.old.pages.items trunk
            page.now e.fault e.page) }
    {
        let count = word_at(page, 4);
        'leaves: for i in 0..count {
            let leaf = word_at(page, 8 + 4 * i as usize);
            self.take(trunk, leaf)?;
        }
        Ok(())
    }

    /// Takes a trunk, which page `holder` names, and its leaves. Answers the next trunk's number.
    fn take_trunk<S: PageSource>(
        &mut self,
        source: &mut S,
        bytes: &mut [u8],
        usable: usize,
        holder: u32,
        trunk: u32,
    ) -> Result<u32, CheckError>
        requires taken { AreTaken self.old.taken.marks.items self.old.pages.items
            × (length self.old.taken.marks.items ≡ length (S.pages source.old)) }
        requires room { (length bytes.old ≡ S.size source.old) × (16 ≤ usable) × (usable ≤ length bytes.old) }
        ensures ok { S.reads_right source.old → usable ≡ usable_size (S.pages source.old) → IfOk result (λ next.
            (next ≡ next_in (page (S.pages source.old) trunk))
            × (leaf_count_in (page (S.pages source.old) trunk) ≤ most_leaves (S.pages source.old))
            × (self.new.pages.items ≡ self.old.pages.items ++ trunk ∷ leaves_in (page (S.pages source.old) trunk))) }
        ensures taken { OnOk result (AreTaken self.new.taken.marks.items self.new.pages.items
            × (length self.new.taken.marks.items ≡ length self.old.taken.marks.items)
            × (count_by not self.new.taken.marks.items < count_by not self.old.taken.marks.items)) }
        ensures err { S.reads_right source.old → usable ≡ usable_size (S.pages source.old)
            → IfErr result (λ e. UnlessUnread (S.gives_pages source.old) e.fault
            (TrunkRefused (S.pages source.old) self.old.pages.items holder trunk e.fault e.page)) }
        ensures keeps { KeepsPages S.pages S.size S.reads_right S.gives_pages source.old source.new }
    {
        self.take(holder, trunk)?;
        read_page(source, trunk, bytes)?;
        if word_at(bytes, 4) as usize > usable / 4 - 2 {
            return Err(CheckError {
                page: trunk,
                fault: Fault::FreeCount,
            });
        }
        self.take_leaves(trunk, bytes)?;
        Ok(word_at(bytes, 0))
    }
}

/// The pages of the freelist of a source that has pages. `bytes` is room for a page.
fn collect<S: PageSource>(
    alloc: Global,
    source: &mut S,
    bytes: &mut [u8],
) -> Result<Vec<u32>, CheckError>
    requires some { 0 < length (S.pages source.old) }
    requires room { (length bytes.old ≡ S.size source.old) × (512 ≤ length bytes.old) }
    ensures found { S.reads_right source.old → IfOk result (λ pages. IsFreelist (S.pages source.old) pages.items ×
        (length pages.items ≡ free_pages (S.pages source.old))) }
    ensures err { S.reads_right source.old → IfErr result (λ e. UnlessUnread (S.gives_pages source.old) e.fault
        (FreelistRefused (S.pages source.old) e.fault e.page)) }
    ensures keeps { KeepsPages S.pages S.size S.reads_right S.gives_pages source.old source.new }
{
    let mut found = Found::none(alloc, source.count())?;
    read_page(source, 1, bytes)?;
    let usable = bytes.len() - usize::from(bytes[20]);
    let count = word_at(bytes, 36);
    let mut holder = 1;
    let mut trunk = word_at(bytes, 32);
    'trunks: while trunk != 0 {
        let next = found.take_trunk(source, bytes, usable, holder, trunk)?;
        holder = trunk;
        trunk = next;
    }
    if found.pages.len() != count as usize {
        return Err(CheckError {
            page: 1,
            fault: Fault::FreeCount,
        });
    }
    Ok(found.pages)
}

/// The same with a buffer that any page fits into.
fn collect_in<S: PageSource>(
    alloc: Global,
    source: &mut S,
    buffer: &mut [u8],
) -> Result<Vec<u32>, CheckError>
    requires some { 0 < length (S.pages source.old) }
    requires room { length buffer.old ≡ 65536 }
    ensures found { S.reads_right source.old → IfOk result (λ pages. IsFreelist (S.pages source.old) pages.items ×
        (length pages.items ≡ free_pages (S.pages source.old))) }
    ensures err { S.reads_right source.old → IfErr result (λ e. UnlessUnread (S.gives_pages source.old) e.fault
        (FreelistRefused (S.pages source.old) e.fault e.page)) }
    ensures keeps { KeepsPages S.pages S.size S.reads_right S.gives_pages source.old source.new }
{
    let size = source.page_size().get() as usize;
    collect(alloc, source, &mut buffer[..size])
}

/// The pages of the freelist, each trunk before its leaves (fileformat2, 1.5, "The freelist"). Their
/// number is the header's. Refused by PageOutside at the page that holds the number, PageTwice at the page,
/// FreeCount at a trunk that names too many leaves or at page 1 where the header's count isn't the
/// list's, Source and NoMemory. A source of no pages has an empty one.
pub fn freelist<S: PageSource>(alloc: Global, source: &mut S) -> Result<Vec<u32>, CheckError>
    ensures found { S.reads_right source.old → IfOk result (λ pages. IsFreelist (S.pages source.old) pages.items ×
        (length pages.items ≡ free_pages (S.pages source.old))) }
    // The condition stands at the page, unless one couldn't be read.
    ensures err { S.reads_right source.old → IfErr result (λ e. UnlessUnread (S.gives_pages source.old) e.fault
        (FreelistRefused (S.pages source.old) e.fault e.page)) }
    // No list of pages is one, unless a page couldn't be read or memory ran out.
    ensures none { S.reads_right source.old → IfErr result (λ e. e.fault ≢ Fault.Source → e.fault ≢ Fault.NoMemory
        → (pages : List ℕ) → IsFreelist (S.pages source.old) pages → length pages ≢ free_pages (S.pages source.old)) }
    ensures keeps { KeepsPages S.pages S.size S.reads_right S.gives_pages source.old source.new }
{
    if source.count() == 0 {
        return Ok(Vec::new(alloc));
    }
    let mut buffer = [0; LARGEST_PAGE];
    collect_in(alloc, source, &mut buffer)
}
