//! What an interior page names (own).
ghost use Rattle.std.specs.Prelude.{◌≡◌, ◌⊎◌, ◌+◌, ◌<◌, ◌≤◌, ℕ, true, false, OnOk, length};
ghost use Rattle.sqpage.specs.Page.{cell_count, has_payload};
ghost use Rattle.sqrows.specs.Trees.{IsChild};
ghost use Rattle.sqsalvage.specs.TreePages.{page_of};
ghost use Rattle.sqsalvage.specs.internal.Taking.{IsChildNamed, IsPlaceNamed, IsUnread, NamesRest};

use crate::cursor::{Piece, Salvage};
use crate::marks::is_unread;
use crate::page::TreePage;
use std::alloc::AllocError;

/// How many children of a page of a table are named at once, so that the page is read again behind so many leaves and
/// not behind each; and how many places may be pending where that is done.
const AT_ONCE: usize = 64;

const FEW: usize = 4096;

impl Salvage {
    /// Whether an interior page has a child `i` that isn't marked.
    fn is_child_unread(&self, page: &TreePage, i: usize) -> bool
        ensures not { result ≡ false → (c : ℕ) → IsChild (page_of page.now) i c → ¬ IsUnread self.now.marks.items c }
    {
        match page.child(i) {
            Some(child) => is_unread(&self.marks, child),
            None => false,
        }
    }

    /// The first child from child `from` on that isn't marked, or the last one. Of an index child `from`, as its cell
    /// comes next.
    fn first_named(&self, page: &TreePage, from: usize) -> usize
        requires { from ≤ cell_count (page_of page.now) }
        ensures within { (from ≤ result) × (result ≤ cell_count (page_of page.now)) }
        ensures cell { has_payload (page_of page.now).kind ≡ true → result ≡ from }
        ensures before { (k c : ℕ) → from ≤ k → k < result → IsChild (page_of page.now) k c
            → ¬ IsUnread self.now.marks.items c }
    {
        if page.kind().has_payload() {
            return from;
        }
        let mut at = from;
        'children: while at < page.cells() {
            if self.is_child_unread(page, at) {
                return at;
            }
            at += 1;
        }
        at
    }

    /// The last child that is named at once with child `first`.
    fn last_named(&self, page: &TreePage, first: usize) -> usize
        requires { first ≤ cell_count (page_of page.now) }
        ensures within { (first ≤ result) × (result ≤ cell_count (page_of page.now)) }
        ensures cell { has_payload (page_of page.now).kind ≡ true → result ≡ first }
        ensures few { (result ≡ first) ⊎ ((length self.now.pending.items < 4096) × (result < first + 64)) }
    {
        if page.kind().has_payload() {
            return first;
        }
        if self.pending.len() >= FEW {
            return first;
        }
        page.cells().min(first + (AT_ONCE - 1))
    }

    /// Names cell `i` of an interior page as the place from which it goes on there, if it has that cell.
    fn name_place(&mut self, page: &TreePage, i: usize) -> Result<(), AllocError>
        ensures ok { OnOk result
            (IsPlaceNamed (page_of page.now) i self.old.pending.items self.new.pending.items) }
        ensures same { (self.new.size ≡ self.old.size) × (self.new.usable ≡ self.old.usable)
            × (self.new.at ≡ self.old.at) × (self.new.table ≡ self.old.table) × (self.new.marks ≡ self.old.marks) }
    {
        if i >= page.cells() {
            return Ok(());
        }
        match self.pending.push(Piece::Part(page.number(), i)) {
            Ok(()) => Ok(()),
            Err(_) => Err(AllocError),
        }
    }

    /// Names child `i` of an interior page, if it has one that isn't marked.
    fn name_child(&mut self, page: &TreePage, i: usize) -> Result<(), AllocError>
        ensures ok { OnOk result (IsChildNamed (page_of page.now) self.old.marks.items i
            self.old.pending.items self.new.pending.items) }
        ensures same { (self.new.size ≡ self.old.size) × (self.new.usable ≡ self.old.usable)
            × (self.new.at ≡ self.old.at) × (self.new.table ≡ self.old.table) × (self.new.marks ≡ self.old.marks) }
    {
        let child = match page.child(i) {
            Some(child) => child,
            None => return Ok(()),
        };
        if !is_unread(&self.marks, child) {
            return Ok(());
        }
        match self.pending.push(Piece::Whole(child)) {
            Ok(()) => Ok(()),
            Err(_) => Err(AllocError),
        }
    }

    /// Names what an interior page has from child `from` on: the place from which it goes on there, and the children
    /// before it from the last one on, so that the first one comes next.
    pub(crate) fn name_from(&mut self, page: &TreePage, from: usize) -> Result<(), AllocError>
        requires { from ≤ cell_count (page_of page.now) }
        ensures ok { OnOk result (NamesRest (page_of page.now) self.old.marks.items from self.old.pending.items
            self.new.pending.items) }
        ensures same { (self.new.size ≡ self.old.size) × (self.new.usable ≡ self.old.usable)
            × (self.new.at ≡ self.old.at) × (self.new.table ≡ self.old.table) × (self.new.marks ≡ self.old.marks) }
    {
        let first = self.first_named(page, from);
        let last = self.last_named(page, first);
        match self.name_place(page, last) {
            Ok(()) => {}
            Err(error) => return Err(error),
        }
        let mut i = last + 1;
        'children: while i > first {
            i -= 1;
            match self.name_child(page, i) {
                Ok(()) => {}
                Err(error) => return Err(error),
            }
        }
        Ok(())
    }
}
