//! The walk over the cells of a page that lost their first four bytes (own).
ghost use Rattle.std.specs.Prelude.{◌≡◌, ◌≢◌, ◌<◌, ◌≤◌, ℕ, List, length, true, false, IfSome, IsNone, MatchOption};
ghost use Rattle.sqpage.specs.Header.{byte};
ghost use Rattle.sqpage.specs.Page.{code_of, head_at};
ghost use Rattle.sqpage.specs.declared.kind.Kind.{Kind};
ghost use Rattle.sqdeleted.specs.Cut.{AreCutBetween, AreCutOff, AreFilled};
ghost use Rattle.sqdeleted.specs.CutCursor.{AreCutLeft, CutsMove};
ghost use Rattle.sqdeleted.specs.declared.cut.CutCell.{CutCell};
ghost use Rattle.sqdeleted.specs.internal.Rests.{FindsNoCut, FindsCut, OpensCut, IsAtLast};

use crate::bytes::{content_start, half_at, head, pointers_end};
use crate::cut::{CutCell, cut_at};
use crate::cut_cursor::CutCells;
use crate::freeblock::freeblock_size;
use crate::freed::Marked;
use crate::whole::WholeCells;
use sqpage::Kind;

impl<'a> CutCells<'a> {
    /// Before the first cell that lost its first four bytes of page `number`, of which these bytes are used, as one of
    /// a tree, whose deleted cells stand whole where it is told. None where its type byte is that of no such page.
    pub fn of_page(used: &'a [u8], number: u32, whole: &'a WholeCells) -> Option<CutCells<'a>>
        requires sized { (480 ≤ length used.now) × (length used.now ≤ 65536) }
        ensures some { IfSome result (λ s. (kind : Kind) × (byte used.now (head_at number) ≡ code_of kind)
            × ((cells : List CutCell) → AreCutLeft s cells → AreCutOff kind used.now whole.now number cells)) }
        ensures none { IsNone result → (kind : Kind) → byte used.now (head_at number) ≢ code_of kind }
        ensures same { IfSome result (λ s. (s.used.now ≡ used.now) × (s.whole.now ≡ whole.now)
            × (s.number ≡ number)) }
    {
        let kind = Kind::of(used[head(number)])?;
        let content = content_start(used, number);
        Some(CutCells {
            used,
            whole,
            number,
            at: pointers_end(kind, used, number),
            to: content.min(used.len()),
            next: half_at(used, head(number) + 1),
            least: content,
        })
    }

    /// The same of a page that is free: anywhere in it.
    pub fn of_free_page(used: &'a [u8], number: u32, whole: &'a WholeCells) -> CutCells<'a>
        requires sized { (480 ≤ length used.now) × (length used.now ≤ 65536) }
        ensures left { (cells : List CutCell)
            → AreCutLeft result cells → AreCutBetween used.now whole.now number 0 (length used.now) cells }
        ensures same { (result.used.now ≡ used.now) × (result.whole.now ≡ whole.now) × (result.number ≡ number) }
    {
        CutCells {
            used,
            whole,
            number,
            at: 0,
            to: used.len(),
            next: 0,
            least: used.len(),
        }
    }

    /// The next one in the gap that it is in. None where there is none.
    fn next_in_gap(&mut self) -> Option<CutCell<'a>>
        ensures { MatchOption result (FindsNoCut self.old self.new) (FindsCut self.old self.new) }
    {
        'places: while self.at < self.to {
            let at = self.at;
            let page = Marked {
                used: self.used,
                whole: self.whole,
            };
            match cut_at(page, self.number, at, self.to) {
                Some(cell) => {
                    self.at = at + cell.size;
                    return Some(cell);
                }
                None => self.at = at + 1,
            }
        }
        None
    }

    /// Goes on to the next freeblock. False where there is none that is sound.
    fn open_freeblock(&mut self) -> bool
        ensures yes { result ≡ true → OpensCut self.old self.new }
        ensures not { result ≡ false → IsAtLast self.old × (self.new ≡ self.old) }
    {
        let at = self.next;
        let Some(size) = freeblock_size(self.used, self.least, at) else {
            return false;
        };
        self.next = half_at(self.used, at);
        self.least = at + size;
        self.to = at + size;
        self.at = at;
        true
    }

    /// The next cell that lost its first four bytes, by its place. None behind the last one.
    pub fn next_cell(&mut self) -> Option<CutCell<'a>>
        // So where it ends, the cells that it told are those that were left.
        ensures moves { CutsMove self.old self.new result }
        ensures filled { IfSome result (λ cell. AreFilled cell.types.now cell.bodies.now) }
        ensures same { (self.new.used.now ≡ self.old.used.now) × (self.new.whole.now ≡ self.old.whole.now)
            × (self.new.number ≡ self.old.number) }
    {
        'gaps: loop {
            if let Some(cell) = self.next_in_gap() {
                return Some(cell);
            }
            if !self.open_freeblock() {
                return None;
            }
        }
    }
}
