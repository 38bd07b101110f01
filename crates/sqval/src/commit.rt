//! The pages of a commit, and what may be wrong with them (own).
ghost use Rattle.std.specs.Prelude.{◌≡◌, ◌+◌, ◌*◌, ◌==◌, not, nat_lt, length, IsTrue, IsFalse, OnOk};
ghost use Rattle.std.specs.Bool.{MatchBool};
ghost use Rattle.std.specs.List.{All, list_any};
ghost use Rattle.std.specs.List.Sorted.{IsPermutation, IsNonDecreasing, IsStrictlyIncreasing};
ghost use Rattle.sqval.specs.Bytes.{AreBytes};
ghost use Rattle.sqval.specs.Database.{Pages};
ghost use Rattle.sqval.specs.CommitFaults.{most_bytes, has_twice, first_true, page_faults};
ghost use Rattle.sqval.specs.JudgedPages.{fault_number, lent, Judged};
ghost use Rattle.sqval.specs.internal.JudgedPages.{numbers_of, Misses, number_faults, set_faults};
ghost use Rattle.sqval.specs.internal.JudgedPages.{size_faults};

use crate::limits::Limits;
use crate::page_size::PageSize;
use thiserror::Error;

/// What is wrong with the pages of a commit (own).
#[derive(Clone, Copy, Debug, PartialEq, Eq, Error)]
pub enum CommitFault {
    /// A commit of no page.
    #[error("no page in the commit")]
    EmptyCommit,
    /// A commit to a size of 0 pages.
    #[error("a database of no pages")]
    SizeZero,
    /// A page number 0.
    #[error("page number 0")]
    PageZero,
    /// A page number above the size.
    #[error("page number above the size")]
    PageAboveSize,
    /// A page number twice in one commit.
    #[error("a page twice in the commit")]
    PageTwice,
    /// A page above the old size and up to the new one isn't supplied.
    #[error("a page above the old size is missing")]
    HoleInGrowth,
    /// A page's length isn't the page size.
    #[error("a page of another length")]
    BadLength,
    /// The database would be above 1,073,741,824 bytes.
    #[error("too large")]
    TooLarge,
}

impl CommitFault {
    /// From EmptyCommit, 2, to TooLarge, 9, in the order of the enum.
    pub fn number(&self) -> u8
        ensures { result ≡ fault_number self.now }
    {
        match self {
            CommitFault::EmptyCommit => 2,
            CommitFault::SizeZero => 3,
            CommitFault::PageZero => 4,
            CommitFault::PageAboveSize => 5,
            CommitFault::PageTwice => 6,
            CommitFault::HoleInGrowth => 7,
            CommitFault::BadLength => 8,
            CommitFault::TooLarge => 9,
        }
    }
}

/// Whether there is a page 0.
fn has_zero(pages: &[(u32, &[u8])]) -> bool
    ensures { result ≡ list_any (λ x. x.0 == 0) pages.now }
{
    pages.iter().any(|x| x.0 == 0)
}

/// Whether a page is above the size.
fn has_above(pages: &[(u32, &[u8])], size: u32) -> bool
    ensures { result ≡ list_any (λ x. nat_lt size x.0) pages.now }
{
    pages.iter().any(|x| size < x.0)
}

/// Whether it is a whole page.
fn is_whole(content: &[u8], page_size: u32) -> bool
    ensures long { result ≡ (length content.now == page_size) }
    ensures bytes { AreBytes content.now }
{
    content.len() == page_size as usize
}

/// Whether a page has another length. Otherwise all are bytes.
fn has_bad_length(pages: &[(u32, &[u8])], page_size: u32) -> bool
    ensures found { result ≡ list_any (λ x. not (length x.1.now == page_size)) pages.now }
    ensures bytes { IsFalse result → All (λ x. AreBytes x.1.now) pages.now }
{
    for x in pages {
        let (_, content) = *x;
        if !is_whole(content, page_size) {
            return true;
        }
    }
    false
}

/// Judges each page's number by itself.
fn judge_numbers(pages: &[(u32, &[u8])], size: u32) -> Result<(), CommitFault>
    ensures { Judged fault_number (first_true (number_faults (lent pages.now) size)) result }
{
    if pages.is_empty() {
        return Err(CommitFault::EmptyCommit);
    }
    if size == 0 {
        return Err(CommitFault::SizeZero);
    }
    if has_zero(pages) {
        return Err(CommitFault::PageZero);
    }
    if has_above(pages, size) {
        return Err(CommitFault::PageAboveSize);
    }
    Ok(())
}

/// Puts the page numbers in order. False where there is no memory for them.
fn sort_numbers(pages: &[(u32, &[u8])], numbers: &mut Vec<u32>) -> bool
    ensures same { IsTrue result → IsPermutation (numbers_of pages.now) numbers.new.items }
    ensures order { IsTrue result → IsNonDecreasing numbers.new.items }
{
    numbers.clear();
    if numbers.reserve(pages.len()).is_err() {
        return false;
    }
    for x in pages {
        if numbers.push(x.0).is_err() {
            return false;
        }
    }
    numbers.sort_unstable();
    true
}

/// Whether each number is above the one before it.
fn rises(numbers: &[u32]) -> bool
    ensures { MatchBool result (IsStrictlyIncreasing numbers.now) (IsStrictlyIncreasing numbers.now → ⊥) }
{
    for k in 1..numbers.len() {
        if numbers[k] <= numbers[k - 1] {
            return false;
        }
    }
    true
}

/// Whether some page above the old size and up to the new one isn't among numbers in order.
fn misses(numbers: &[u32], old_size: u32, size: u32) -> bool
    requires { IsNonDecreasing numbers.now }
    ensures { Misses numbers.now old_size size result }
{
    for k in old_size..size {
        if numbers.binary_search(&(k + 1)).is_err() {
            return true;
        }
    }
    false
}

/// Judges the page numbers together, when they are in order.
fn judge_sorted(numbers: &[u32], old_size: u32, size: u32) -> Result<(), CommitFault>
    requires { IsNonDecreasing numbers.now }
    ensures { (pages : Pages) → IsPermutation (numbers_of pages) numbers.now
        → Judged fault_number (first_true (set_faults old_size pages size)) result }
{
    if !rises(numbers) {
        return Err(CommitFault::PageTwice);
    }
    if misses(numbers, old_size, size) {
        return Err(CommitFault::HoleInGrowth);
    }
    Ok(())
}

/// Whether a page is among these.
fn has_page(pages: &[(u32, &[u8])], number: u32) -> bool
    ensures { result ≡ list_any (λ x. x.0 == number) pages.now }
{
    pages.iter().any(|x| x.0 == number)
}

/// Whether a page is there twice: each is compared with those behind it.
fn repeats(pages: &[(u32, &[u8])]) -> bool
    ensures { result ≡ has_twice (lent pages.now) }
{
    for k in 0..pages.len() {
        if has_page(&pages[k + 1..], pages[k].0) {
            return true;
        }
    }
    false
}

/// Whether some page above the old size and up to the new one isn't there.
fn lacks(pages: &[(u32, &[u8])], old_size: u32, size: u32) -> bool
    ensures { Misses (numbers_of pages.now) old_size size result }
{
    for k in old_size..size {
        if !has_page(pages, k + 1) {
            return true;
        }
    }
    false
}

/// Judges the page numbers together, with no memory.
fn judge_pairs(pages: &[(u32, &[u8])], old_size: u32, size: u32) -> Result<(), CommitFault>
    ensures { Judged fault_number (first_true (set_faults old_size (lent pages.now) size)) result }
{
    if repeats(pages) {
        return Err(CommitFault::PageTwice);
    }
    if lacks(pages, old_size, size) {
        return Err(CommitFault::HoleInGrowth);
    }
    Ok(())
}

/// Judges the page numbers together.
fn judge_set(
    pages: &[(u32, &[u8])],
    old_size: u32,
    size: u32,
    numbers: &mut Vec<u32>,
) -> Result<(), CommitFault>
    ensures { Judged fault_number (first_true (set_faults old_size (lent pages.now) size)) result }
{
    if sort_numbers(pages, numbers) {
        judge_sorted(numbers, old_size, size)
    } else {
        judge_pairs(pages, old_size, size)
    }
}

/// Whether so many pages are more than a database may have.
fn is_too_large(size: u32, page_size: u32) -> bool
    ensures { result ≡ nat_lt most_bytes (size * page_size) }
{
    Limits::USUAL.bytes() < u64::from(size) * u64::from(page_size)
}

/// Judges the contents and the size.
fn judge_sizes(pages: &[(u32, &[u8])], size: u32, page_size: u32) -> Result<(), CommitFault>
    ensures judged { Judged fault_number (first_true (size_faults page_size (lent pages.now) size)) result }
    ensures bytes { OnOk result (All (λ x. AreBytes x.1.now) pages.now) }
{
    if has_bad_length(pages, page_size) {
        return Err(CommitFault::BadLength);
    }
    if is_too_large(size, page_size) {
        return Err(CommitFault::TooLarge);
    }
    Ok(())
}

/// What is wrong with a commit of these pages, after which the database has `size` of them; it has `old_size` now. Each
/// is given by its number, from 1, and its whole content. The first of EmptyCommit, SizeZero, PageZero, PageAboveSize,
/// PageTwice, HoleInGrowth, BadLength and TooLarge that holds, whatever memory there is: where there is none for their
/// numbers, it takes time in the square of the pages. `numbers` may hold anything, before and afterwards.
pub fn judge_pages(
    pages: &[(u32, &[u8])],
    size: u32,
    old_size: u32,
    page_size: PageSize,
    numbers: &mut Vec<u32>,
) -> Result<(), CommitFault>
    ensures judged { Judged fault_number (first_true (page_faults old_size page_size (lent pages.now) size)) result }
    ensures bytes { OnOk result (All (λ x. AreBytes x.1.now) pages.now) }
{
    judge_numbers(pages, size)?;
    judge_set(pages, old_size, size, numbers)?;
    judge_sizes(pages, size, page_size.get())
}
