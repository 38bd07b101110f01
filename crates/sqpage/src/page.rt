//! Pages of b-trees (fileformat2, 1.6).
ghost use Rattle.std.specs.Prelude.{◌≡◌, ◌≢◌, ◌⊎◌, ◌+◌, ◌*◌, ◌<◌, ◌≤◌, ℕ, List, false, IsTrue, IfOk, IfErr, OnOk};
ghost use Rattle.std.specs.Prelude.{OnErr, IfSome, IfNone, length, take, replicate, slice_get};
ghost use Rattle.sqval.specs.Bytes.{word};
ghost use Rattle.sqpage.specs.declared.cell.Parts.{Parts};
ghost use Rattle.sqpage.specs.declared.fault.Fault.{Fault};
ghost use Rattle.sqpage.specs.Chain.{payload_size};
ghost use Rattle.sqpage.specs.Layout.{IsLaidOut, LayoutRefused};
ghost use Rattle.sqpage.specs.internal.Marking.{MarksCells, TouchesCells, LieApart, TakesBytes};
ghost use Rattle.sqpage.specs.Page.{Page, IsUsable, IsPageOf, PageRefused, IsCell, HasCell, HasParts, HasPartsOf};
ghost use Rattle.sqpage.specs.Page.{if_present};
ghost use Rattle.sqpage.specs.Page.{is_interior, head_at, cell_count, cell_count_in, content_start_in, pointers_at};
ghost use Rattle.sqpage.specs.Page.{pointer as cell_pointer, pointer_in, pointers_end_in};

use crate::bytes::{half_at, word_at};
use crate::cell::{Cell, Parts, parts_at};
use crate::fault::Fault;
use crate::kind::Kind;
use crate::layout::{clear, mark, mark_freeblocks, words};
use std::alloc::{AllocError, Global};
use std::marker::Model;

/// Where the header of page 1 as a b-tree page begins, behind the file's header.
const FIRST_HEAD: usize = 100;

/// How many bytes of a page may lie in no cell and no freeblock.
const MOST_FRAGMENTS: usize = 60;

/// A page of a b-tree whose cells lie within it (fileformat2, 1.6, "B-tree Pages").
#[derive(Drop)]
pub struct BtreePage<'a> {
    used: &'a [u8],
    number: u32,
    kind: Kind,
}

impl<'a> Model for BtreePage<'a> {
    ghost use Rattle.std.specs.Prelude.{◌≤◌, length};
    ghost use Rattle.sqpage.specs.Page.{Page};
    ghost use Rattle.sqpage.specs.internal.SoundPage.{IsSoundPage};

    ghost Value = { Page };

    ghost view = { λ p. record { used = p.used.now; number = p.number; kind = p.kind } };

    ghost invariant = { λ p. IsSoundPage p.used.now p.number p.kind };
}

/// Where the header of a b-tree page begins in page `number`.
fn head(number: u32) -> usize
    ensures value { result ≡ head_at number }
    ensures early { result ≤ 100 }
{
    if number == 1 { FIRST_HEAD } else { 0 }
}

/// Where the pointers to the cells begin.
fn pointers(kind: Kind, number: u32) -> usize
    ensures value { result ≡ pointers_at kind number }
    ensures early { result ≤ 112 }
{
    head(number) + if kind.is_interior() { 12 } else { 8 }
}

/// How many cells there are.
fn count(used: &[u8], number: u32) -> usize
    requires { 480 ≤ length used.now }
    ensures value { result ≡ cell_count_in used.now number }
    ensures small { result < 65536 }
{
    half_at(used, head(number) + 3)
}

/// Where the cells begin.
fn content_start(used: &[u8], number: u32) -> usize
    requires { 480 ≤ length used.now }
    ensures { result ≡ content_start_in used.now number }
{
    match half_at(used, head(number) + 5) {
        0 => 65536,
        start => start,
    }
}

/// Where cell `i` begins.
fn pointer(kind: Kind, used: &[u8], number: u32, i: usize) -> usize
    requires least { 480 ≤ length used.now }
    requires pointers { pointers_end_in kind used.now number ≤ length used.now }
    requires below { i < cell_count_in used.now number }
    ensures value { result ≡ pointer_in kind used.now number i }
    ensures small { result < 65536 }
{
    half_at(used, pointers(kind, number) + 2 * i)
}

/// Whether the cells lie between the start of the content and the end of the usable part.
fn cells_lie_within(kind: Kind, used: &[u8], number: u32) -> bool
    requires least { 480 ≤ length used.now }
    requires most { length used.now ≤ 65536 }
    requires pointers { pointers_end_in kind used.now number ≤ length used.now }
    ensures yes { IsTrue result → (i : ℕ) → i < cell_count_in used.now number
        → (content_start_in used.now number ≤ pointer_in kind used.now number i)
        × HasCell kind used.now (pointer_in kind used.now number i) }
    ensures not { result ≡ false → (i : ℕ) × (i < cell_count_in used.now number) × ((pointer_in kind used.now number
        i < content_start_in used.now number) ⊎ ¬ HasCell kind used.now (pointer_in kind used.now number i)) }
{
    let start = content_start(used, number);
    'cells: for i in 0..count(used, number) {
        let at = pointer(kind, used, number, i);
        if at < start {
            return false;
        }
        match parts_at(kind, used, at) {
            Some(_) => {}
            None => return false,
        }
    }
    true
}

/// Reads the parts of the cells of a page of one kind, which a caller names, so that each kind has a loop of its own.
#[inline(always)]
fn read_parts_of(kind: Kind, used: &[u8], number: u32, parts: &mut [Parts]) -> bool
    requires sized { (480 ≤ length used.now) × (length used.now ≤ 65536) }
    requires pointers { pointers_end_in kind used.now number ≤ length used.now }
    requires room { cell_count_in used.now number ≤ length parts.old }
    ensures yes { IsTrue result → (i : ℕ) (c : Parts) → i < cell_count_in used.now number
        → slice_get parts.new i ≡ Some c → (content_start_in used.now number ≤ pointer_in kind used.now number i)
        × HasParts kind used.now (pointer_in kind used.now number i) c }
    ensures not { result ≡ false → (i : ℕ) × (i < cell_count_in used.now number) × ((pointer_in kind used.now number
        i < content_start_in used.now number) ⊎ ¬ HasCell kind used.now (pointer_in kind used.now number i)) }
    ensures length { length parts.new ≡ length parts.old }
{
    let start = content_start(used, number);
    'cells: for i in 0..count(used, number) {
        let at = pointer(kind, used, number, i);
        if at < start {
            return false;
        }
        match parts_at(kind, used, at) {
            Some(found) => parts[i] = found,
            None => return false,
        }
    }
    true
}

/// Reads the parts of the cells, and answers whether these lie between the start of the content and the end of
/// the usable part.
fn read_parts(kind: Kind, used: &[u8], number: u32, parts: &mut [Parts]) -> bool
    requires sized { (480 ≤ length used.now) × (length used.now ≤ 65536) }
    requires pointers { pointers_end_in kind used.now number ≤ length used.now }
    requires room { cell_count_in used.now number ≤ length parts.old }
    ensures yes { IsTrue result → (i : ℕ) (c : Parts) → i < cell_count_in used.now number
        → slice_get parts.new i ≡ Some c → (content_start_in used.now number ≤ pointer_in kind used.now number i)
        × HasParts kind used.now (pointer_in kind used.now number i) c }
    ensures not { result ≡ false → (i : ℕ) × (i < cell_count_in used.now number) × ((pointer_in kind used.now number
        i < content_start_in used.now number) ⊎ ¬ HasCell kind used.now (pointer_in kind used.now number i)) }
    ensures length { length parts.new ≡ length parts.old }
{
    match kind {
        Kind::TableLeaf => read_parts_of(Kind::TableLeaf, used, number, parts),
        Kind::TableInterior => read_parts_of(Kind::TableInterior, used, number, parts),
        Kind::IndexLeaf => read_parts_of(Kind::IndexLeaf, used, number, parts),
        Kind::IndexInterior => read_parts_of(Kind::IndexInterior, used, number, parts),
    }
}

impl<'a> BtreePage<'a> {
    /// The page of these bytes and this number, of which the first `usable` bytes, at least 480, are used. Refused by
    /// Kind where its type byte is none, otherwise by CellOutside where the pointers, the start of the cells or a
    /// cell lie outside.
    pub fn new(bytes: &'a [u8], number: u32, usable: u32) -> Result<BtreePage<'a>, Fault>
        requires usable { IsUsable number (length bytes.now) usable }
        ensures ok { IfOk result (IsPageOf (take usable bytes.entry.now) number) }
        ensures err { IfErr result (λ fault. PageRefused fault (take usable bytes.entry.now) number) }
    {
        let used = &bytes[..usable as usize];
        let Some(kind) = Kind::of(used[head(number)]) else {
            return Err(Fault::Kind);
        };
        if pointers(kind, number) + 2 * count(used, number) > used.len() {
            return Err(Fault::CellOutside);
        }
        if content_start(used, number) > used.len() || !cells_lie_within(kind, used, number) {
            return Err(Fault::CellOutside);
        }
        Ok(BtreePage { used, number, kind })
    }

    /// The same, and the parts of its cells, each of which is read once. `parts` is room for a cell in each two bytes.
    pub fn parse(
        bytes: &'a [u8],
        number: u32,
        usable: u32,
        parts: &mut [Parts],
    ) -> Result<BtreePage<'a>, Fault>
        requires usable { IsUsable number (length bytes.now) usable }
        requires room { usable ≤ 2 * length parts.old }
        ensures ok { IfOk result (IsPageOf (take usable bytes.entry.now) number) }
        ensures parts { IfOk result (λ page. HasPartsOf page parts.new) }
        ensures err { IfErr result (λ fault. PageRefused fault (take usable bytes.entry.now) number) }
        ensures length { length parts.new ≡ length parts.old }
    {
        let used = &bytes[..usable as usize];
        let Some(kind) = Kind::of(used[head(number)]) else {
            return Err(Fault::Kind);
        };
        if pointers(kind, number) + 2 * count(used, number) > used.len() {
            return Err(Fault::CellOutside);
        }
        if content_start(used, number) > used.len() || !read_parts(kind, used, number, parts) {
            return Err(Fault::CellOutside);
        }
        Ok(BtreePage { used, number, kind })
    }

    /// Its kind.
    pub fn kind(&self) -> Kind
        ensures { result ≡ self.now.kind }
    {
        self.kind
    }

    /// How many cells it has.
    pub fn len(&self) -> usize
        ensures { result ≡ cell_count self.now }
    {
        count(self.used, self.number)
    }

    /// The rightmost child of an interior page. None of a leaf.
    pub fn right(&self) -> Option<u32>
        ensures { result ≡ if_present (is_interior self.now.kind) (word self.now.used (head_at self.now.number + 8)) }
    {
        let is_interior = self.kind.is_interior();
        is_interior.then_some(word_at(self.used, head(self.number) + 8))
    }

    /// Cell `i`, from 0, in the order of the pointers.
    pub fn cell(&self, i: usize) -> Cell<'a>
        requires { i < cell_count self.now }
        ensures cell { IsCell self.now i result }
        // What of the payload is in the page is not more than the payload.
        ensures part { length result.local.now ≤ payload_size result }
        ensures least { 480 ≤ result.usable }
    {
        let at = pointer(self.kind, self.used, self.number, i);
        match parts_at(self.kind, self.used, at) {
            Some(parts) => self.cell_with(i, &parts),
            None => unreachable!(),
        }
    }

    /// Cell `i`, of which these are the parts.
    pub fn cell_with(&self, i: usize, parts: &Parts) -> Cell<'a>
        requires below { i < cell_count self.now }
        requires parts { HasParts self.now.kind self.now.used (cell_pointer self.now i) parts.now }
        ensures cell { IsCell self.now i result }
        // What of the payload is in the page is not more than the payload.
        ensures part { length result.local.now ≤ payload_size result }
        ensures least { 480 ≤ result.usable }
    {
        Cell {
            page: self.number,
            usable: self.used.len() as u32,
            at: pointer(self.kind, self.used, self.number, i),
            child: self.kind.is_interior().then_some(parts.child),
            rowid: self.kind.is_table().then_some(parts.rowid.cast_signed()),
            payload: self.kind.has_payload().then_some(parts.payload),
            local: &self.used[parts.body..parts.body + parts.local as usize],
            overflow: parts.overflow,
        }
    }

    /// How many bytes the cells take, each with four at least, where each ends at the start of the one before it or
    /// earlier, as SQLite lays them. None where one doesn't.
    fn falling_cells(&self, parts: &[Parts]) -> Option<usize>
        requires { HasPartsOf self.now parts.now }
        ensures { IfSome result (LieApart self.now) }
    {
        let mut taken = 0;
        let mut before = self.used.len();
        'cells: for i in 0..self.len() {
            let at = pointer(self.kind, self.used, self.number, i);
            let end = parts[i].end.max(at + 4);
            if end > before {
                return None;
            }
            taken += end - at;
            before = at;
        }
        Some(taken)
    }

    /// How many bytes are taken, where no freeblock is there and the cells stand as SQLite lays them: no mark is needed
    /// then. None where they don't.
    fn taken_at_sight(&self, parts: &[Parts]) -> Option<usize>
        requires { HasPartsOf self.now parts.now }
        ensures { IfSome result (TakesBytes self.now) }
    {
        let first = half_at(self.used, head(self.number) + 1);
        let end = pointers(self.kind, self.number) + 2 * self.len();
        if first != 0 || end > content_start(self.used, self.number) {
            return None;
        }
        self.falling_cells(parts)
    }

    /// Marks the cells, each with four bytes at least, and counts their bytes. None where one shares a byte with
    /// what is marked. Cells that stand one in front of the other are marked at once, from `low` up to `high`.
    fn mark_cells(&self, parts: &[Parts], map: &mut [u64]) -> Option<usize>
        requires parts { HasPartsOf self.now parts.now }
        requires room { length self.now.used + 4 ≤ 64 * length map.old }
        ensures marked { IfSome result (MarksCells self.now map.old map.new) }
        ensures touched { IfNone result (TouchesCells self.now map.old) }
        ensures length { length map.new ≡ length map.old }
    {
        let mut taken = 0;
        let (mut low, mut high) = (self.used.len(), self.used.len());
        'cells: for i in 0..self.len() {
            let at = pointer(self.kind, self.used, self.number, i);
            let end = parts[i].end.max(at + 4);
            taken += end.min(self.used.len()) - at;
            if end != low {
                if !mark(map, low, high - low) {
                    return None;
                }
                high = end;
            }
            low = at;
        }
        if mark(map, low, high - low) {
            Some(taken)
        } else {
            None
        }
    }

    /// Marks what the cells and freeblocks take, and counts it in bytes. Refused by Freeblock and Overlap.
    fn mark_all(&self, parts: &[Parts], map: &mut [u64]) -> Result<usize, Fault>
        requires parts { HasPartsOf self.now parts.now }
        requires room { length self.now.used + 4 ≤ 64 * length map.old }
        requires clear { map.old ≡ replicate (length map.old) 0 }
        ensures ok { IfOk result (TakesBytes self.now) }
        ensures err { IfErr result (λ fault. (LayoutRefused fault self.now) × (fault ≢ Fault.NoMemory)) }
        ensures length { length map.new ≡ length map.old }
    {
        let start = content_start(self.used, self.number);
        let first = half_at(self.used, head(self.number) + 1);
        let blocks = mark_freeblocks(self.used, start, first, map)?;
        let end = pointers(self.kind, self.number) + 2 * self.len();
        if end > start {
            return Err(Fault::Overlap);
        }
        match self.mark_cells(parts, map) {
            Some(cells) => Ok(blocks + cells),
            None => Err(Fault::Overlap),
        }
    }

    /// Counts the bytes that the cells and freeblocks take, by marks where it needs them. Refused by Freeblock and
    /// Overlap.
    fn taken(&self, parts: &[Parts], map: &mut [u64]) -> Result<usize, Fault>
        requires parts { HasPartsOf self.now parts.now }
        requires room { length self.now.used + 4 ≤ 64 * length map.old }
        ensures ok { IfOk result (TakesBytes self.now) }
        ensures err { IfErr result (λ fault. (LayoutRefused fault self.now) × (fault ≢ Fault.NoMemory)) }
        ensures length { length map.new ≡ length map.old }
    {
        if let Some(taken) = self.taken_at_sight(parts) {
            return Ok(taken);
        }
        clear(map);
        self.mark_all(parts, map)
    }

    /// Judges how many bytes of the content are not taken. Refused by Fragments.
    fn judge_fragments(&self, taken: usize) -> Result<(), Fault>
        requires { TakesBytes self.now taken }
        ensures ok { OnOk result (IsLaidOut self.now) }
        ensures err { IfErr result (λ fault. (LayoutRefused fault self.now) × (fault ≢ Fault.NoMemory)) }
    {
        let start = content_start(self.used, self.number);
        let bare = self.used.len() - start - taken;
        let fragments = usize::from(self.used[head(self.number) + 7]);
        if bare != fragments || fragments > MOST_FRAGMENTS {
            return Err(Fault::Fragments);
        }
        Ok(())
    }

    /// Whether the cells and freeblocks of the page lie in it as they should (fileformat2, 1.6). Refused by
    /// Freeblock, Overlap or Fragments, the first that applies. `parts` are those of its cells. `map` is room for a
    /// bit for each usable byte and four more; what it holds doesn't matter.
    pub fn layout_in(&self, parts: &[Parts], map: &mut [u64]) -> Result<(), Fault>
        requires parts { HasPartsOf self.now parts.now }
        requires room { length self.now.used + 4 ≤ 64 * length map.old }
        ensures ok { OnOk result (IsLaidOut self.now) }
        ensures err { IfErr result (λ fault. LayoutRefused fault self.now × (fault ≢ Fault.NoMemory)) }
        // The page isn't laid out so.
        ensures none { OnErr result (¬ IsLaidOut self.now) }
        ensures length { length map.new ≡ length map.old }
    {
        let map = &mut map[..(self.used.len() + 67) / 64];
        let taken = self.taken(parts, map)?;
        self.judge_fragments(taken)
    }

    /// The parts of its cells.
    fn parts(&self, alloc: Global) -> Result<Vec<Parts>, AllocError>
        ensures { IfOk result (λ parts. HasPartsOf self.now parts.items) }
    {
        let mut parts = vec![in alloc; Parts::NONE; self.len()]?;
        if !read_parts(self.kind, self.used, self.number, &mut parts) {
            unreachable!();
        }
        Ok(parts)
    }

    /// The same with room of its own. Refused by NoMemory too.
    pub fn layout(&self, alloc: Global) -> Result<(), Fault>
        ensures ok { OnOk result (IsLaidOut self.now) }
        ensures err { IfErr result (λ fault. LayoutRefused fault self.now) }
        // The page isn't laid out so, unless memory ran out.
        ensures none { IfErr result (λ fault. fault ≢ Fault.NoMemory → ¬ IsLaidOut self.now) }
    {
        let Ok(parts) = self.parts(alloc) else {
            return Err(Fault::NoMemory);
        };
        match words(alloc, (self.used.len() + 67) / 64) {
            Ok(mut map) => self.layout_in(&parts, &mut map),
            Err(_) => Err(Fault::NoMemory),
        }
    }
}
