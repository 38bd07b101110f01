//! Which page of a view is missing: the log doesn't have it, and the file hasn't all of it.
ghost use Rattle.std.specs.Prelude.{◌≡◌, ◌<◌, ◌*◌, ◌↔◌, ℕ, length};
ghost use Rattle.sqview.specs.LogView.{pages_of};
ghost use Rattle.sqdeepjudge.specs.Missing.{IsLeast, IsMissingOf};

use sqpage::PageSource;
use sqval::PageSize;
use sqview::{FileBytes, View};

/// How many pages of this size, from 1, so many bytes have whole.
fn whole_pages(long: u64, size: PageSize) -> u64
    ensures { (q : ℕ) → (result < q) ↔ (long < q * size) }
{
    long / u64::from(size.get())
}

/// The least page of a view that is missing, from 1; long: how many bytes the view's file has.
pub fn first_missing<F: FileBytes>(view: &View<F>, long: u64) -> Option<u32>
    ensures { IsLeast (IsMissingOf view.now long) (length (pages_of F.bytes view.now)) result }
{
    let whole = whole_pages(long, view.page_size());
    let count = u64::from(view.count());
    'pages: for before in whole..count {
        let page = before as u32 + 1;
        if view.place(page) == 0 {
            return Some(page);
        }
    }
    None
}
