//! At which commits a page is gone: a later frame is copied over it, or it may have been cut away.
ghost use Rattle.std.specs.Prelude.{◌≡◌, ◌≤◌, ◌<◌, ◌⊎◌, ◌↔◌, ◌^◌, ◌+◌, ◌-◌};
ghost use Rattle.std.specs.Prelude.{ℕ, List, length, get_or, IsOk, IfOk, OnErr, IfErr, IsTrue};
ghost use Rattle.sqval.specs.Database.{file_pages};
ghost use Rattle.history.specs.Table.{AreUntil};
ghost use Rattle.sqpast.specs.Past.{IsSource};
ghost use Rattle.sqview.specs.Logs.{IsRead};
ghost use Rattle.sqpast.specs.internal.Chains.{AreChains, IsLike, IsUntilNamed, IsUntil, IsTail, IsJudged};

use crate::chains::Chains;
use crate::likeness::{Likeness, is_copied, is_zero};
use sqpage::SourceError;
use sqview::{FileBytes, ViewError};
use std::alloc::Global;

/// What was found of a page.
#[derive(Clone, Copy)]
pub struct Judged {
    /// It is gone at the commits before this one; 0 where at none.
    pub until: u32,
    /// From it on all pages are zeros or copied, and a cut is possible.
    pub tail: bool,
}

/// Before which commit no frame names a page, by the first that does; 0 is none.
fn until_named(first: u32) -> u32
    ensures { IsUntilNamed first result }
{
    if first == 0 { u32::MAX } else { first }
}

/// A page may have been cut away if it is zeros: those after it are zeros or copied, and the smallest commit has fewer
/// pages.
fn may_be_cut(tail: bool, least: u32, p: usize) -> bool
    ensures { IsTrue result ↔ (IsTrue tail × (least < p)) }
{
    tail && (least as usize) < p
}

/// The page before may have been cut away too.
fn goes_on(tail: bool, like: Likeness) -> bool
    ensures { IsTrue result ↔ (IsTrue tail × (IsTrue like.copied ⊎ IsTrue like.zero)) }
{
    tail && (like.copied || like.zero)
}

/// The page is copied, or cut away.
fn is_gone(tail: bool, like: Likeness) -> bool
    ensures { IsTrue result ↔ (IsTrue like.copied ⊎ (IsTrue tail × IsTrue like.zero)) }
{
    like.copied || (tail && like.zero)
}

/// What page `p` of a file is like. Its bytes go to the buffer.
fn likeness<F: FileBytes>(
    db: &mut F,
    log: &mut F,
    chains: &Chains,
    p: usize,
    page: &mut [u8],
) -> Result<Likeness, SourceError>
    requires { (1 ≤ p) × (p ≤ length chains.now.first.items) × (p ≤ 2 ^ 40)
        × (length page.old ≡ chains.now.page_size) }
    ensures read { F.reads_right db.old × F.reads_right log.old → IfOk result (λ like. (front : ℕ)
        → AreChains (F.bytes log.old) front (length chains.now.first.items) chains.now
        → IsLike chains.now.page_size (F.bytes log.old) front (F.bytes db.old) p like) }
    ensures never_fails { F.gives_bytes db.old × F.gives_bytes log.old → IsOk result }
    ensures still_right { F.reads_right db.old × F.reads_right log.old
        → F.reads_right db.new × F.reads_right log.new }
    ensures still_gives { F.gives_bytes db.old × F.gives_bytes log.old
        → F.gives_bytes db.new × F.gives_bytes log.new }
    ensures same_bytes { (F.bytes db.new ≡ F.bytes db.old) × (F.bytes log.new ≡ F.bytes log.old) }
{
    db.read_at((p as u64 - 1) * u64::from(chains.page_size.get()), page)?;
    Ok(Likeness {
        zero: is_zero(page),
        copied: is_copied(log, chains, p, page)?,
    })
}

/// Judges page `p` of a file, after which there is such a tail. It is read only if a frame names it, or if it may have
/// been cut away.
fn judge_page<F: FileBytes>(
    db: &mut F,
    log: &mut F,
    chains: &Chains,
    p: usize,
    tail: bool,
    page: &mut [u8],
) -> Result<Judged, SourceError>
    requires { (1 ≤ p) × (p ≤ length chains.now.first.items) × (p ≤ 2 ^ 40)
        × (length page.old ≡ chains.now.page_size) }
    ensures read { F.reads_right db.old × F.reads_right log.old → IfOk result (λ judged. (front : ℕ)
        → AreChains (F.bytes log.old) front (length chains.now.first.items) chains.now
        → p ≤ file_pages chains.now.page_size (F.bytes db.old)
        → IsTail chains.now.page_size (F.bytes log.old) front (F.bytes db.old) chains.now.least p tail
        → IsJudged chains.now.page_size (F.bytes log.old) front (F.bytes db.old) chains.now.least p judged) }
    ensures never_fails { F.gives_bytes db.old × F.gives_bytes log.old → IsOk result }
    ensures still_right { F.reads_right db.old × F.reads_right log.old
        → F.reads_right db.new × F.reads_right log.new }
    ensures still_gives { F.gives_bytes db.old × F.gives_bytes log.old
        → F.gives_bytes db.new × F.gives_bytes log.new }
    ensures same_bytes { (F.bytes db.new ≡ F.bytes db.old) × (F.bytes log.new ≡ F.bytes log.old) }
{
    let first = chains.first[p - 1];
    let tail = may_be_cut(tail, chains.least, p);
    if !tail && first == 0 {
        return Ok(Judged { until: 0, tail });
    }
    let like = likeness(db, log, chains, p, page)?;
    let until = if is_gone(tail, like) {
        until_named(first)
    } else {
        0
    };
    Ok(Judged {
        until,
        tail: goes_on(tail, like),
    })
}

/// By page: at which commits of the log it is gone, those before this one. Each page of the file that a frame names is
/// read once; so are those after the smallest commit, from the last back to the first that is neither zeros nor copied.
pub(super) fn until<F: FileBytes>(
    alloc: Global,
    db: &mut F,
    log: &mut F,
    chains: &Chains,
    long: usize,
) -> Result<Vec<u32>, ViewError>
    requires { (long ≤ length chains.now.first.items) × (long ≤ 2 ^ 40) }
    ensures right { F.reads_right db.old × F.reads_right log.old → IfOk result (λ list. (front : ℕ)
        → AreChains (F.bytes log.old) front (length chains.now.first.items) chains.now
        → long ≡ file_pages chains.now.page_size (F.bytes db.old)
        → (length list.items ≡ length chains.now.first.items)
        × AreUntil chains.now.page_size (F.bytes log.old) front (F.bytes db.old) list.items) }
    ensures refused { IfErr result IsSource }
    ensures read { F.gives_bytes db.old × F.gives_bytes log.old → IsRead result }
    ensures still_right { F.reads_right db.old × F.reads_right log.old
        → F.reads_right db.new × F.reads_right log.new }
    ensures still_gives { F.gives_bytes db.old × F.gives_bytes log.old
        → F.gives_bytes db.new × F.gives_bytes log.new }
    ensures same_bytes { (F.bytes db.new ≡ F.bytes db.old) × (F.bytes log.new ≡ F.bytes log.old) }
{
    let mut bytes = vec![in alloc; 0u8; chains.page_size.get() as usize]?;
    let page = bytes.as_mut_slice();
    let mut tail = chains.least as usize <= long;
    let mut list = past_end(alloc, chains, long, tail)?;
    for done in 0..long {
        let p = long - done;
        let judged = judge_page(db, log, chains, p, tail, page)?;
        list[p - 1] = judged.until;
        tail = judged.tail;
    }
    Ok(list)
}

/// The same for the pages past the end of a file of so many, which may have been cut or not; 0 for the others.
fn past_end(alloc: Global, chains: &Chains, long: usize, cut: bool) -> Result<Vec<u32>, ViewError>
    requires { long ≤ length chains.now.first.items }
    ensures list { IfOk result (λ list. (length list.items ≡ length chains.now.first.items)
        × ((k : ℕ) → long ≤ k → k < length list.items
        → (IsTrue cut × IsUntilNamed (get_or chains.now.first.items k 0) (get_or list.items k 0))
        ⊎ ((¬ IsTrue cut) × (get_or list.items k 0 ≡ 0)))) }
    ensures memory { OnErr result (result ≡ Err ViewError.NoMemory) }
{
    let mut list = vec![in alloc; 0u32; chains.first.len()]?;
    if cut {
        for k in long..chains.first.len() {
            list[k] = until_named(chains.first[k]);
        }
    }
    Ok(list)
}
