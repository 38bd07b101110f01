//! The steps of a page: its cells and its children in order (fileformat2, 1.6).
ghost use Rattle.std.specs.Prelude.{◌≡◌, ◌<◌, ◌≤◌, ℕ, IfSome, IfNone, MatchOption, length};
ghost use Rattle.sqpage.specs.Page.{cell_count_in, pointer_in, pointers_end_in, HasParts, IsCell};
ghost use Rattle.sqpage.specs.Chain.{payload_size};
ghost use Rattle.sqpage.specs.declared.cell.Cell.{Cell};
ghost use Rattle.sqcheck.specs.Places.{IsCellAt};
ghost use Rattle.sqrows.specs.Trees.{IsChild, step_count, step_of};
ghost use Rattle.sqrows.specs.Cursor.{page_of, steps_of};

use crate::bytes::word_at;
use crate::level::{Level, Step, count, head, pointer, step_at, steps};
use crate::parts::parts_at;
use sqpage::{Cell, Kind, Parts};

/// Cell `i` of a page, of which these are the parts.
#[inline(always)]
fn cell_with<'a>(kind: Kind, used: &'a [u8], number: u32, i: usize, parts: &Parts) -> Cell<'a>
    requires sized { (480 ≤ length used.now) × (length used.now ≤ 65536) }
    requires pointers { pointers_end_in kind used.now number ≤ length used.now }
    requires below { i < cell_count_in used.now number }
    requires parts { HasParts kind used.now (pointer_in kind used.now number i) parts.now }
    ensures cell { IsCell (record { used = used.now; number = number; kind = kind }) i result }
    ensures part { length result.local.now ≤ payload_size result }
{
    Cell {
        page: number,
        usable: used.len() as u32,
        at: pointer(kind, used, number, i),
        child: kind.is_interior().then_some(parts.child),
        rowid: kind.is_table().then_some(parts.rowid.cast_signed()),
        payload: kind.has_payload().then_some(parts.payload),
        local: &used[parts.body..parts.body + parts.local as usize],
        overflow: parts.overflow,
    }
}

/// Cell `i` of a page of one kind, which a caller names, so that each kind has code of its own.
#[inline(always)]
fn cell_of(kind: Kind, used: &[u8], number: u32, i: usize) -> Option<Cell<'_>>
    requires sized { (480 ≤ length used.now) × (length used.now ≤ 65536) }
    requires pointers { pointers_end_in kind used.now number ≤ length used.now }
    ensures cell { MatchOption result
        ((cell : Cell) → ¬ IsCellAt (record { used = used.now; number = number; kind = kind }) i cell)
        (IsCellAt (record { used = used.now; number = number; kind = kind }) i) }
    ensures part { IfSome result (λ cell. length cell.local.now ≤ payload_size cell) }
{
    if i >= count(used, number) {
        return None;
    }
    let at = pointer(kind, used, number, i);
    match parts_at(kind, used, at) {
        Some(parts) => Some(cell_with(kind, used, number, i, &parts)),
        None => None,
    }
}

/// Cell `i` of a page. None where the page has none, or where it leaves the usable part.
#[inline(always)]
fn cell_at(kind: Kind, used: &[u8], number: u32, i: usize) -> Option<Cell<'_>>
    requires sized { (480 ≤ length used.now) × (length used.now ≤ 65536) }
    requires pointers { pointers_end_in kind used.now number ≤ length used.now }
    ensures cell { MatchOption result
        ((cell : Cell) → ¬ IsCellAt (record { used = used.now; number = number; kind = kind }) i cell)
        (IsCellAt (record { used = used.now; number = number; kind = kind }) i) }
    ensures part { IfSome result (λ cell. length cell.local.now ≤ payload_size cell) }
{
    match kind {
        Kind::TableLeaf => cell_of(Kind::TableLeaf, used, number, i),
        Kind::IndexLeaf => cell_of(Kind::IndexLeaf, used, number, i),
        Kind::TableInterior => cell_of(Kind::TableInterior, used, number, i),
        Kind::IndexInterior => cell_of(Kind::IndexInterior, used, number, i),
    }
}

/// The step at this index of a page of one kind, which a caller names, with so many cells. None where none is left.
#[inline(always)]
fn next_step(kind: Kind, cells: usize, index: usize) -> Option<Step>
    requires { cells < 65536 }
    ensures some { IfSome result (λ step. (index < step_count kind cells) × (step ≡ step_of kind index)) }
    ensures none { IfNone result (step_count kind cells ≤ index) }
{
    if index < steps(kind, cells) {
        Some(step_at(kind, index))
    } else {
        None
    }
}

impl Level {
    /// What of the page is used.
    #[inline(always)]
    fn used(&self) -> &[u8]
        ensures value { result.now ≡ (page_of self.now).used }
        ensures length { length result.now ≡ self.now.usable }
    {
        &self.bytes[..self.usable as usize]
    }

    /// The step that comes next. None where none is left.
    #[inline(always)]
    pub fn step(&self) -> Option<Step>
        ensures some { IfSome result (λ step. (self.now.index < steps_of self.now)
            × (step ≡ step_of self.now.kind self.now.index)) }
        ensures none { IfNone result (steps_of self.now ≤ self.now.index) }
    {
        let cells = count(self.used(), self.number);
        match self.kind {
            Kind::TableLeaf => next_step(Kind::TableLeaf, cells, self.index),
            Kind::IndexLeaf => next_step(Kind::IndexLeaf, cells, self.index),
            Kind::TableInterior => next_step(Kind::TableInterior, cells, self.index),
            Kind::IndexInterior => next_step(Kind::IndexInterior, cells, self.index),
        }
    }

    /// Cell `i`. None where the page has none, or where it leaves the usable part.
    #[inline(always)]
    pub fn cell(&self, i: usize) -> Option<Cell<'_>>
        ensures cell { MatchOption result ((cell : Cell) → ¬ IsCellAt (page_of self.now) i cell)
            (IsCellAt (page_of self.now) i) }
        ensures part { IfSome result (λ cell. length cell.local.now ≤ payload_size cell) }
    {
        cell_at(self.kind, self.used(), self.number, i)
    }

    /// Child `i`, past the last cell the right child. None where the page has no such cell, or where it leaves the
    /// usable part.
    pub fn child(&self, i: usize) -> Option<u32>
        ensures { MatchOption result ((p : ℕ) → ¬ IsChild (page_of self.now) i p) (IsChild (page_of self.now) i) }
    {
        if i == count(self.used(), self.number) {
            return Some(word_at(self.used(), head(self.number) + 8));
        }
        match self.cell(i) {
            Some(cell) => Some(cell.child.unwrap_or(0)),
            None => None,
        }
    }
}
