//! Which pages of a database file are known to be as a commit has them (own).
ghost use Rattle.std.specs.Prelude.{◌≡◌, ◌↔◌, ◌+◌, ◌<◌, ℕ, List, true, false, get_or, length, OnOk, IfErr, IsTrue};
ghost use Rattle.sqval.specs.Database.{page, file_page};
ghost use Rattle.rig_judge.specs.declared.error.SnapshotError.TheVariants.{NoMemory};

use crate::error::SnapshotError;
use std::alloc::Global;

/// Which pages of a database file are known to be as a commit has them, so that they need not be compared again (own).
#[derive(Drop)]
pub struct Near {
    /// The size of a page in bytes.
    size: u32,
    /// By page, the first one first.
    same: Vec<bool>,
}

/// Whether number i of a list is set.
fn has(list: &[bool], i: u32) -> bool
    ensures { IsTrue result ↔ get_or list.now i false ≡ true }
{
    match list.get(i as usize) {
        Some(is) => *is,
        None => false,
    }
}

impl Near {
    ghost use Rattle.rig_judge.specs.Shown.{Commit};
    ghost use Rattle.rig_judge.specs.Near.{IsNear};

    /// None is known to be (own).
    pub fn none(alloc: Global) -> Near
        ensures { (c : Commit) (db : List ℕ) → IsNear c db result }
    {
        Near {
            size: 0,
            same: Vec::new(alloc),
        }
    }

    /// None is known to be any more (own).
    pub fn forget(&mut self)
        ensures { (c : Commit) (db : List ℕ) → IsNear c db self.new }
    {
        self.same.clear();
    }

    /// Is ready for so many pages of this size. NoMemory alone.
    pub(crate) fn fit(&mut self, alloc: Global, size: u32, count: u32) -> Result<(), SnapshotError>
        ensures near { (c : Commit) (db : List ℕ) → IsNear c db self.old → IsNear c db self.new }
        ensures size { OnOk result (self.new.size ≡ size) }
        ensures room { OnOk result (length self.new.same.items ≡ count) }
        ensures kept { self.old.size ≡ size → length self.old.same.items ≡ count → self.new ≡ self.old }
        ensures memory { IfErr result (λ e. e ≡ NoMemory) }
    {
        if self.size == size && self.same.len() == count as usize {
            return Ok(());
        }
        self.same = vec![in alloc; false; count as usize]?;
        self.size = size;
        Ok(())
    }

    /// Whether page number i of a view, counted from 0, is the database file's own and is known to be. The place is the
    /// page's in the view's log, 0 where it is the file's own.
    pub(crate) fn knows(&self, place: u64, i: u32) -> bool
        ensures { IsTrue result ↔ ((place ≡ 0) × (get_or self.now.same.items i false ≡ true)) }
    {
        place == 0 && has(&self.same, i)
    }

    /// Page number i of a view, counted from 0, has the commit's bytes, or hasn't.
    pub(crate) fn learn(&mut self, place: u64, i: u32, same: bool)
        ensures near { (c : Commit) (db : List ℕ) → IsNear c db self.old
            → (IsTrue same → place ≡ 0
            → file_page self.old.size db (i + 1) ≡ page c.pages (i + 1)) → IsNear c db self.new }
        ensures size { self.new.size ≡ self.old.size }
        ensures room { length self.new.same.items ≡ length self.old.same.items }
        ensures known { IsTrue same → place ≡ 0 → i < length self.old.same.items
            → get_or self.new.same.items i false ≡ true }
        ensures kept { (k : ℕ) → get_or self.old.same.items k false ≡ true
            → get_or self.new.same.items k false ≡ true }
    {
        if !same || place != 0 || i as usize >= self.same.len() {
            return;
        }
        self.same[i as usize] = true;
    }
}
