//! Which pages were taken, and how many for each use (own).
ghost use Rattle.std.specs.Prelude.{◌≡◌, ◌↔◌, ◌+◌, ◌<◌, ◌≤◌, ◌^◌, true, IsTrue, length, OnOk, OnErr, IfErr};
ghost use Rattle.std.specs.Prelude.{count_by, not};
ghost use Rattle.sqpage.specs.internal.Taking.{Marks, MarkRefused, is_marked};
ghost use Rattle.sqcheck.specs.internal.Counting.{AddsItem};

use crate::item::{Item, Task};
use sqpage::{CheckError, Fault};

/// How many pages of each use were taken.
#[derive(Clone, Copy, Debug)]
pub(crate) struct Counts {
    /// The pages that are roots of trees.
    pub trees: u32,
    pub btree: u32,
    pub overflow: u32,
    pub free: u32,
    /// The largest of the roots, or 0.
    pub largest_root: u32,
}

impl Counts {
    /// Counts the page of an item.
    fn add(&mut self, item: Item)
        requires few { self.old.btree + self.old.overflow + self.old.free + 1 < 2 ^ 32 }
        requires trees { self.old.trees ≤ self.old.btree }
        ensures trees { self.new.trees ≤ self.new.btree }
        ensures counted { AddsItem self.old self.new item }
        ensures one_more { self.new.btree + self.new.overflow + self.new.free ≡ self.old.btree + self.old.overflow +
            self.old.free + 1 }
    {
        match item.task {
            Task::Trunk | Task::Leaf => self.free += 1,
            Task::Link { .. } => self.overflow += 1,
            Task::Node { level, .. } => {
                self.btree += 1;
                self.trees += u32::from(level == 1);
                if level == 1 && item.page > self.largest_root {
                    self.largest_root = item.page;
                }
            }
        }
    }
}

/// The pages that were taken: a mark for each page, and how many there are of each use.
#[derive(Drop)]
pub(crate) struct Uses {
    pub marks: Vec<bool>,
    pub counts: Counts,
    ghost few: { length marks.items < 2 ^ 32 },
    ghost counted: { counts.btree + counts.overflow + counts.free + count_by not marks.items ≤ length marks.items },
    ghost trees: { counts.trees ≤ counts.btree },
}

/// Marks page `p`, which page `holder` names. Refused by PageOutside at the holder where there is no such
/// page, and by PageTwice at the page where it is marked.
#[tactic(auto, using(crate::proofs::visit::MarkedPages::fewer_left))]
fn mark(marks: &mut [bool], holder: u32, p: u32) -> Result<(), CheckError>
    ensures ok { OnOk result (Marks marks.old marks.new p) }
    ensures fewer { OnOk result (count_by not marks.new < count_by not marks.old) }
    ensures length { length marks.new ≡ length marks.old }
    ensures unchanged { OnErr result (marks.new ≡ marks.old) }
    ensures err { IfErr result (λ e. MarkRefused marks.old holder p e.fault e.page) }
{
    if p == 0 || p as usize > marks.len() {
        return Err(CheckError {
            page: holder,
            fault: Fault::PageOutside,
        });
    }
    let i = p as usize - 1;
    if marks[i] {
        return Err(CheckError {
            page: p,
            fault: Fault::PageTwice,
        });
    }
    marks[i] = true;
    Ok(())
}

impl Uses {
    /// Takes the page of an item. Refused as a mark is.
    pub fn take(&mut self, item: Item) -> Result<(), CheckError>
        ensures ok { OnOk result (Marks self.old.marks.items self.new.marks.items item.page) }
        ensures counted { OnOk result (AddsItem self.old.counts self.new.counts item) }
        ensures fewer { OnOk result (count_by not self.new.marks.items < count_by not self.old.marks.items) }
        ensures length { length self.new.marks.items ≡ length self.old.marks.items }
        ensures none { OnErr result ((self.new.marks.items ≡ self.old.marks.items)
            × (self.new.counts ≡ self.old.counts)) }
        ensures err { IfErr result (λ e. MarkRefused self.old.marks.items item.holder item.page e.fault e.page) }
    {
        mark(&mut self.marks, item.holder, item.page)?;
        self.counts.add(item);
        Ok(())
    }
    /// Whether a page was taken.
    pub fn is_taken(&self, page: u32) -> bool
        ensures { IsTrue result ↔ (0 < page) × (page ≤ length self.now.marks.items) ×
            (is_marked self.now.marks.items page ≡ true) }
    {
        let page = page as usize;
        0 < page && page <= self.marks.len() && self.marks[page - 1]
    }
}
