//! What a commit changes of the database that is there (own).
ghost use Rattle.std.specs.Prelude.{◌≡◌, ◌-◌, ◌^◌, ◌<◌, ◌++◌, ℕ, None, Err, OnOk, OnErr};
ghost use Rattle.sqval.specs.CommitFaults.{first_true, page_faults};
ghost use Rattle.sqval.specs.JudgedPages.{lent};
ghost use Rattle.rollcore.specs.Machine.{recorded};
ghost use Rattle.rollcore.specs.internal.Commits.{AreChanges};
ghost use Rattle.rollcore.specs.internal.Listing.{written, cut_off};
ghost use Rattle.rollcore.specs.declared.error.RollError.TheVariants.{NoMemory};

use crate::error::RollError;
use std::alloc::AllocError;

/// A page that is written or cut off. Its old content goes into the journal.
#[derive(Clone, Copy, Debug, PartialEq, Eq)]
pub struct Change {
    pub page: u32,
    /// The place of its new content among the pages of the commit, unless it is cut off.
    pub content: Option<usize>,
}

/// How many pages of a database of `old_size` are written or cut off.
pub fn count_records(pages: &[(u32, &[u8])], old_size: u32, size: u32) -> usize
    requires { recorded (lent pages.now) old_size size < 2 ^ 64 }
    ensures { result ≡ recorded (lent pages.now) old_size size }
{
    let mut records = old_size.saturating_sub(size) as usize;
    for x in pages {
        if x.0 <= old_size {
            records += 1;
        }
    }
    records
}

/// Lists the pages that are there already, in the order of the commit.
fn list_written(
    pages: &[(u32, &[u8])],
    old_size: u32,
    changes: &mut Vec<Change>,
) -> Result<(), AllocError>
    ensures { OnOk result (changes.new.items ≡ written old_size 0 (lent pages.now)) }
{
    changes.clear();
    for (k, x) in pages.iter().enumerate() {
        if x.0 <= old_size {
            changes.push(Change {
                page: x.0,
                content: Some(k),
            })?;
        }
    }
    Ok(())
}

/// Lists the pages that are cut off, behind those that are listed.
fn list_cut_off(old_size: u32, size: u32, changes: &mut Vec<Change>) -> Result<(), AllocError>
    ensures { OnOk result (changes.new.items ≡ changes.old.items ++ cut_off size (old_size - size)) }
{
    for page in size..old_size {
        changes.push(Change {
            page: page + 1,
            content: None,
        })?;
    }
    Ok(())
}

/// Lists what a commit of these pages changes of a database of `old_size` pages, rising. Refused is NoMemory.
pub fn list_changes(
    pages: &[(u32, &[u8])],
    old_size: u32,
    size: u32,
    changes: &mut Vec<Change>,
) -> Result<(), RollError>
    ensures changes { OnOk result ((page_size : ℕ) → first_true (page_faults old_size page_size (lent pages.now)
        size) ≡ None → AreChanges (lent pages.now) old_size size changes.new.items) }
    ensures memory { OnErr result (result ≡ Err NoMemory) }
{
    list_written(pages, old_size, changes)?;
    changes.sort_unstable_by_key(|change| change.page);
    list_cut_off(old_size, size, changes)?;
    Ok(())
}
