//! The end of a commit, once the journal is durable.
ghost use Rattle.std.specs.Prelude.{◌≡◌, ◌*◌, ◌<◌, ◌≤◌, length, IfErr};
ghost use Rattle.std.specs.List.{All};
ghost use Rattle.crashdisk.specs.During.{During};
ghost use Rattle.rollcore.specs.internal.Committing.{EndsCommit};

use crate::copying::finish;
use crate::error::RollError;
use crate::segments::put_new_pages;
use crashdisk::{Disk, File};
use sqval::PageSize;

/// Writes the pages that the database doesn't have yet, sets its length, and syncs it; then ends the journal
/// (own).
pub fn end_commit<D: Disk>(
    disk: &mut D,
    pages: &[(u32, &[u8])],
    old_size: u32,
    size: u32,
    page_size: PageSize,
) -> Result<(), RollError>
    requires pages { All (λ x. (1 ≤ x.0) × (length x.1.now ≤ 65536)) pages.now }
    ensures disk { During D.keeps_word D.state disk.old disk.new
        (EndsCommit pages.now old_size size page_size result) }
    ensures error { IfErr result (λ e. e ≡ RollError.Device) }
{
    put_new_pages(disk, pages, old_size)?;
    let end = u64::from(size) * u64::from(page_size.get());
    disk.set_len(File::Db, end)?;
    finish(disk)
}
