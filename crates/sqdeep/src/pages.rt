//! Pages of trees, beyond their layout (fileformat2, 1.6).
ghost use Rattle.std.specs.Prelude.{◌≡◌, ◌↔◌, ◌<◌, ◌≤◌, ◌+◌, ℕ, suc, List, false, IsTrue, IfErr, OnOk, length, take};
ghost use Rattle.sqpage.specs.Layout.{Span, AreFreeblocks, HasFreeblocks};
ghost use Rattle.sqpage.specs.Page.{head_at, content_start_in};
ghost use Rattle.sqdeep.specs.Pages.{IsFilled, AreSpaced, IsTidyPage, PageRefused};
ghost use Rattle.sqdeep.specs.internal.Judging.{SaysRoot};

use crate::bytes::half_at;
use crate::fault::InnerFault;
use sqpage::BtreePage;

/// Where the header of page 1 as a b-tree page begins, behind the file's header.
const FIRST_HEAD: usize = 100;

/// How many bytes a freeblock has at least.
const LEAST_FREEBLOCK: usize = 4;

/// How many bytes stand between two freeblocks at least.
const LEAST_GAP: usize = 4;

/// Where the header of a b-tree page begins in page `number`.
pub(crate) fn head(number: u32) -> usize
    ensures value { result ≡ head_at number }
    ensures early { result ≤ 100 }
{
    if number == 1 { FIRST_HEAD } else { 0 }
}

/// Where the cells begin.
fn content_start(used: &[u8], number: u32) -> usize
    requires { 480 ≤ length used.now }
    ensures value { result ≡ content_start_in used.now number }
    ensures small { result ≤ 65536 }
{
    match half_at(used, head(number) + 5) {
        0 => 65536,
        start => start,
    }
}

/// Whether page `number` has cells, or may have none: the root of an empty tree, and page 1.
fn is_filled(page: &BtreePage, number: u32, is_root: bool) -> bool
    requires { number ≡ page.now.number }
    ensures { (root : ℕ) → SaysRoot is_root root number → IsTrue result ↔ IsFilled page.now root }
{
    page.len() > 0 || is_root && (!page.kind().is_interior() || number == 1)
}

/// Whether the freeblocks, of which the first is at `first`, stand apart, and the first one at `least` or later.
fn are_spaced(used: &[u8], least: usize, first: usize) -> bool
    requires small { first < 65536 }
    requires most { length used.now ≤ 65536 }
    requires least { least ≤ 65537 }
    ensures yes { IsTrue result → (from : ℕ) (blocks : List Span) → AreFreeblocks used.now from first blocks
        → AreSpaced least blocks }
    ensures not { result ≡ false → (from : ℕ) (blocks : List Span) → AreFreeblocks used.now from first blocks
        → ¬ AreSpaced least blocks }
{
    let mut least = least;
    let mut at = first;
    'places: while at != 0 {
        if at < least {
            return false;
        }
        let end = at + LEAST_FREEBLOCK;
        if end > used.len() {
            return false;
        }
        let size = half_at(used, at + 2);
        least = at + size + LEAST_GAP;
        at = half_at(used, at);
    }
    true
}

/// Judges a page, of whose bytes so many are used. Refused by EmptyPage and FreeblockGap, the first that applies.
pub(crate) fn judge_page(
    page: &BtreePage,
    number: u32,
    bytes: &[u8],
    usable: u32,
    is_root: bool,
) -> Result<(), InnerFault>
    requires number { number ≡ page.now.number }
    requires used { take usable bytes.now ≡ page.now.used }
    requires room { (480 ≤ usable) × (usable ≤ length bytes.now) × (usable ≤ 65536) }
    ensures ok { (root : ℕ) (blocks : List Span) → SaysRoot is_root root number
        → HasFreeblocks page.now blocks → OnOk result (IsTidyPage page.now root) }
    ensures err { (root : ℕ) (blocks : List Span) → SaysRoot is_root root number
        → HasFreeblocks page.now blocks → IfErr result (λ fault. PageRefused page.now root fault) }
{
    if !is_filled(page, number, is_root) {
        return Err(InnerFault::EmptyPage);
    }
    let used = &bytes[..usable as usize];
    let start = content_start(used, number);
    let first = half_at(used, head(number) + 1);
    if !are_spaced(used, start + 1, first) {
        return Err(InnerFault::FreeblockGap);
    }
    Ok(())
}
