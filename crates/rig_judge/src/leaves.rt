//! The leaves of the freelist (fileformat2, 1.5).
ghost use Rattle.std.specs.Prelude.{◌≡◌, ◌≤◌, ◌<◌, [], length, IfOk, IfErr};
ghost use Rattle.sqpage.specs.Source.{KeepsPages};
ghost use Rattle.sqval.specs.Database.{page};
ghost use Rattle.sqpage.specs.Freelist.{IsPage, leaf_count_in};
ghost use Rattle.sqpage.specs.Lists.{Every};
ghost use Rattle.rig_judge.specs.declared.error.SnapshotError.TheVariants.{NoMemory};
ghost use Rattle.rig_judge.specs.Leaves.{AreLeaves};
ghost use Rattle.rig_judge.specs.internal.Leaves.{leaves_of};

use crate::error::SnapshotError;
use byteorder::{BigEndian, ByteOrder};
use sqpage::{Fault, PageSource, freelist};
use std::alloc::Global;

/// How many leaves the bytes of a trunk name.
fn leaf_count_of(bytes: &[u8]) -> u32
    requires { 8 ≤ length bytes.now }
    ensures { result ≡ leaf_count_in bytes.now }
{
    BigEndian::read_u32(&bytes[4..8])
}

/// How many leaves the trunk `p` names.
fn leaf_count<S: PageSource>(alloc: Global, source: &mut S, p: u32) -> Result<u32, SnapshotError>
    ensures count { S.reads_right source.old → IfOk result (λ n. n ≡ leaf_count_in (page (S.pages source.old) p)) }
    ensures memory { S.gives_pages source.old → IsPage (S.pages source.old) p → IfErr result (λ e. e ≡ NoMemory) }
    ensures keeps { KeepsPages S.pages S.size S.reads_right S.gives_pages source.old source.new }
{
    if p == 0 || p > source.count() {
        return Err(SnapshotError::Unread);
    }
    let mut bytes = vec![in alloc; 0u8; source.page_size().get() as usize]?;
    source.page(p, &mut bytes)?;
    Ok(leaf_count_of(&bytes))
}

/// The leaves among the pages of a freelist, each trunk before its leaves.
fn leaves_among<S: PageSource>(
    alloc: Global,
    source: &mut S,
    pages: &[u32],
) -> Result<Vec<u32>, SnapshotError>
    ensures leaves { S.reads_right source.old
        → IfOk result (λ v. v.items ≡ leaves_of (S.pages source.old) 0 pages.now) }
    ensures memory { S.gives_pages source.old → Every (IsPage (S.pages source.old)) pages.now
        → IfErr result (λ e. e ≡ NoMemory) }
    ensures keeps { KeepsPages S.pages S.size S.reads_right S.gives_pages source.old source.new }
{
    let mut leaves = Vec::new(alloc);
    let mut left = 0u32;
    for p in pages {
        if left > 0 {
            leaves.push(*p)?;
            left -= 1;
        } else {
            left = leaf_count(alloc, source, *p)?;
        }
    }
    Ok(leaves)
}

/// The leaves of the freelist, whose bytes SQLite neither journals nor logs; none where the freelist isn't sound.
/// Refused by Unread, where a page can't be read, and NoMemory.
pub fn free_leaves<S: PageSource>(alloc: Global, source: &mut S) -> Result<Vec<u32>, SnapshotError>
    ensures leaves { S.reads_right source.old → IfOk result (λ v. AreLeaves (S.pages source.old) v.items) }
    ensures memory { S.gives_pages source.old → IfErr result (λ e. e ≡ NoMemory) }
    ensures keeps { KeepsPages S.pages S.size S.reads_right S.gives_pages source.old source.new }
{
    match freelist(alloc, source) {
        Ok(pages) => leaves_among(alloc, source, &pages),
        Err(error) => match error.fault {
            Fault::NoMemory => Err(SnapshotError::NoMemory),
            Fault::Source => Err(SnapshotError::Unread),
            _ => Ok(Vec::new(alloc)),
        },
    }
}
