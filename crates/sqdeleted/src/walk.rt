//! The walk over the deleted cells of a page (own).
ghost use Rattle.std.specs.Prelude.{◌≡◌, ◌≢◌, ◌↔◌, ◌<◌, ◌≤◌, ℕ, length, true, false, IfSome, IsNone, MatchOption};
ghost use Rattle.sqpage.specs.Header.{byte};
ghost use Rattle.sqpage.specs.Page.{code_of, head_at};
ghost use Rattle.sqpage.specs.declared.cell.Parts.{Parts};
ghost use Rattle.sqpage.specs.declared.kind.Kind.{Kind};
ghost use Rattle.sqdeleted.specs.Deleted.{StandsBetween, IsDeleted};
ghost use Rattle.sqdeleted.specs.DeletedCursor.{IsLeft, CellsMove};
ghost use Rattle.sqdeleted.specs.internal.Steps.{FindsNone, Finds, Opens, IsAtEnd};

use crate::bytes::{content_start, half_at, head, pointers_end};
use crate::cell::{DeletedCell, cell_at};
use crate::cursor::DeletedCells;
use crate::freeblock::freeblock_size;
use sqpage::Kind;

impl<'a> DeletedCells<'a> {
    /// Before the first deleted cell of page `number`, of which these bytes are used, as one of a tree. None where its
    /// type byte is that of no such page.
    pub fn of_page(used: &'a [u8], number: u32) -> Option<DeletedCells<'a>>
        requires sized { (480 ≤ length used.now) × (length used.now ≤ 65536) }
        ensures some { IfSome result (λ s. (kind : Kind) × (byte used.now (head_at number) ≡ code_of kind)
            × ((at : ℕ) (c : Parts) → IsLeft s at c ↔ IsDeleted kind used.now number at c)) }
        ensures none { IsNone result → (kind : Kind) → byte used.now (head_at number) ≢ code_of kind }
        ensures same { IfSome result (λ s. (s.used.now ≡ used.now) × (s.number ≡ number)) }
    {
        let kind = Kind::of(used[head(number)])?;
        let content = content_start(used, number);
        Some(DeletedCells {
            used,
            number,
            at: pointers_end(kind, used, number),
            to: content.min(used.len()),
            next: half_at(used, head(number) + 1),
            least: content,
        })
    }

    /// Before the first deleted cell of page `number`, of which these bytes are used, as one that is free: anywhere in
    /// it.
    pub fn of_free_page(used: &'a [u8], number: u32) -> DeletedCells<'a>
        requires sized { (480 ≤ length used.now) × (length used.now ≤ 65536) }
        ensures left { (at : ℕ) (c : Parts) → IsLeft result at c ↔ StandsBetween used.now 0 (length used.now) at c }
        ensures same { (result.used.now ≡ used.now) × (result.number ≡ number) }
    {
        DeletedCells {
            used,
            number,
            at: 0,
            to: used.len(),
            next: 0,
            least: used.len(),
        }
    }

    /// The next deleted cell in the gap that it is in. None where there is none.
    fn next_in_gap(&mut self) -> Option<DeletedCell<'a>>
        ensures { MatchOption result (FindsNone self.old self.new) (Finds self.old self.new) }
    {
        'places: while self.at < self.to {
            let at = self.at;
            self.at += 1;
            match cell_at(self.used, self.number, at, self.to) {
                Some(cell) => return Some(cell),
                None => {}
            }
        }
        None
    }

    /// Goes on to the next freeblock. False where there is none that is sound.
    fn open_freeblock(&mut self) -> bool
        ensures yes { result ≡ true → Opens self.old self.new }
        ensures not { result ≡ false → IsAtEnd self.old × (self.new ≡ self.old) }
    {
        let at = self.next;
        let Some(size) = freeblock_size(self.used, self.least, at) else {
            return false;
        };
        self.next = half_at(self.used, at);
        self.least = at + size;
        self.to = at + size;
        self.at = at + 4;
        true
    }

    /// The next deleted cell, by its place. None behind the last one.
    pub fn next_cell(&mut self) -> Option<DeletedCell<'a>>
        // So where it ends, the cells that it told are those that stand there, each once.
        ensures moves { CellsMove self.old self.new result }
        ensures same { (self.new.used.now ≡ self.old.used.now) × (self.new.number ≡ self.old.number) }
    {
        'gaps: loop {
            if let Some(cell) = self.next_in_gap() {
                return Some(cell);
            }
            if !self.open_freeblock() {
                return None;
            }
        }
    }
}
