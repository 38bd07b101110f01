//! Why a commit is refused (own).
ghost use Rattle.std.specs.Prelude.{◌≡◌, ◌+◌, nat_lt, OnOk};
ghost use Rattle.std.specs.List.{All};
ghost use Rattle.sqval.specs.Bytes.{AreBytes};
ghost use Rattle.sqval.specs.JudgedPages.{lent, Judged};
ghost use Rattle.walcore.specs.CommitRefusals.{most_pages, refusal_of};
ghost use Rattle.walcore.specs.Refusal.{number_of};

use crate::error::WalError;
use sqval::{PageSize, judge_pages};

/// The most pages that are committed into one log.
const MOST_PAGES: usize = 1048576;

/// Whether so many pages are more than a log takes.
fn is_full(used: u32, pages: usize) -> bool
    ensures { result ≡ nat_lt most_pages (used + pages) }
{
    MOST_PAGES < pages.saturating_add(used as usize)
}

/// Why a commit of these pages, after which the database has `size` of them, would be refused: it has `old_size` now,
/// and `used` pages were committed into the log. The first of EmptyCommit, SizeZero, PageZero, PageAboveSize,
/// PageTwice, HoleInGrowth, BadLength, TooLarge and WalFull that holds, whatever memory there is. `numbers` may hold
/// anything.
pub fn judge(
    pages: &[(u32, &[u8])],
    size: u32,
    old_size: u32,
    page_size: PageSize,
    used: u32,
    numbers: &mut Vec<u32>,
) -> Result<(), WalError>
    ensures judged { Judged number_of (refusal_of old_size page_size used (lent pages.now) size) result }
    ensures bytes { OnOk result (All (λ x. AreBytes x.1.now) pages.now) }
{
    judge_pages(pages, size, old_size, page_size, numbers)?;
    if is_full(used, pages.len()) {
        return Err(WalError::WalFull);
    }
    Ok(())
}
