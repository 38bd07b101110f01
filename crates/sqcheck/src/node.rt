//! Pages of trees (fileformat2, 1.6).
ghost use Rattle.std.specs.Prelude.{◌≡◌, ◌≢◌, ◌⊎◌, ◌↔◌, Some, None, ◌+◌, ◌<◌, ◌≤◌, ◌^◌, ℕ, suc, true, false, IsTrue};
ghost use Rattle.std.specs.Prelude.{IsSome, IfOk, IfErr, OnOk, OnErr, length, take, reverse, ◌++◌, ◌∷◌, []};
ghost use Rattle.sqval.specs.Database.{Database};
ghost use Rattle.sqpage.specs.declared.fault.Fault.{Fault};
ghost use Rattle.sqpage.specs.declared.kind.Kind.{Kind};
ghost use Rattle.sqpage.specs.Header.{byte};
ghost use Rattle.sqpage.specs.Page.{Page, HasPartsOf, IsUsable, code_of, is_interior, is_table, head_at};
ghost use Rattle.sqcheck.specs.Places.{Node, HasKind, InCell};
ghost use Rattle.sqcheck.specs.WellFormed.{IsBefore, IsAtMost, KeysRise, FirstLeaf, first_child};
ghost use Rattle.sqcheck.specs.internal.Room.{HoldsPage};
ghost use Rattle.sqcheck.specs.Stands.{HasKeyOutOfOrder, NodeRefusedBy};
ghost use Rattle.sqcheck.specs.internal.Walking.{node_of, Pushes, IsChild, IsBelow, IsRead, Judged};
ghost use Rattle.sqcheck.specs.internal.Walking.{KeepsLead, TopLeads};
ghost use Rattle.sqcheck.specs.internal.Walking.{KnowsAt, IsPutDown, LevelAt};
ghost use Rattle.sqcheck.specs.internal.Walking.{Enters, Opens, KeepsWalk};
ghost use Rattle.sqcheck.specs.declared.tree.Tree.{Tree};

use crate::item::{Item, Task, push};
use crate::tree::Tree;
use sqpage::{BtreePage, CheckError, Fault, Kind, Parts, links_of};

/// Where the header of page 1 as a b-tree page begins, behind the file's header.
const FIRST_HEAD: usize = 100;

/// Room for what is read and marked of one page.
#[derive(Drop)]
pub(crate) struct Room {
    /// For the parts of its cells.
    pub parts: Vec<Parts>,
    /// For a bit for each of its bytes.
    pub map: Vec<u64>,
}

/// A page as it was read.
#[derive(Clone, Copy)]
pub(crate) struct RawPage<'a> {
    pub number: u32,
    pub bytes: &'a [u8],
    /// How much of it is used.
    pub usable: u32,
}

/// What is known of a page of a tree: its level, and the bounds of its keys.
#[derive(Clone, Copy, Debug)]
pub(crate) struct Bounds {
    pub level: u32,
    pub low: Option<i64>,
    pub high: Option<i64>,
}

/// The kind of a page of a tree. Refused by Kind where it has no such type byte, or isn't of the tree's
/// kind.
fn kind_in(tree: &Tree, number: u32, used: &[u8]) -> Result<Kind, Fault>
    requires { 480 ≤ length used.now }
    ensures ok { IfOk result (λ kind. (byte used.now (head_at number) ≡ code_of kind) ×
        (is_table kind ≡ tree.now.table)) }
    ensures err { IfErr result (λ fault. (fault ≡ Fault.Kind) ×
        ((kind : Kind) → byte used.now (head_at number) ≡ code_of kind → is_table kind ≢ tree.now.table)) }
{
    let head = if number == 1 { FIRST_HEAD } else { 0 };
    match Kind::of(used[head]) {
        Some(kind) => if kind.is_table() == tree.table {
            Ok(kind)
        } else {
            Err(Fault::Kind)
        },
        None => Err(Fault::Kind),
    }
}

/// The level of a tree's leaves, once a leaf on this level was found. Refused by Depth where the first one
/// stands on another.
fn leaf_level(first: Option<u32>, level: u32) -> Result<u32, Fault>
    ensures ok { IfOk result (λ found. (found ≡ level) × ((first ≡ None) ⊎ (first ≡ Some level))) }
    ensures err { IfErr result (λ fault. (fault ≡ Fault.Depth) × (on : ℕ) × (first ≡ Some on) × (level ≢ on)) }
{
    match first {
        Some(first) => if first == level {
            Ok(first)
        } else {
            Err(Fault::Depth)
        },
        None => Ok(level),
    }
}

/// Whether a key comes behind another.
fn is_behind(before: Option<i64>, key: Option<i64>) -> bool
    ensures { IsTrue result ↔ IsBefore before key }
{
    match (before, key) {
        (Some(before), Some(key)) => before < key,
        _ => true,
    }
}

/// Whether a key is at most a high bound.
fn is_at_most(high: Option<i64>, key: Option<i64>) -> bool
    ensures { IsTrue result ↔ IsAtMost high key }
{
    match (high, key) {
        (Some(high), Some(key)) => key <= high,
        _ => true,
    }
}

/// Whether the keys of a page rise within its bounds.
fn keys_rise(page: &BtreePage, parts: &[Parts], low: Option<i64>, high: Option<i64>) -> bool
    requires { HasPartsOf page.now parts.now }
    ensures yes { (x : Node) → x.low ≡ low → x.high ≡ high → IsTrue result → KeysRise page.now x }
    ensures not { (x : Node) → x.low ≡ low → x.high ≡ high → result ≡ false → HasKeyOutOfOrder page.now x }
{
    let mut before = low;
    'cells: for i in 0..page.len() {
        let key = page.cell_with(i, &parts[i]).rowid;
        if !is_behind(before, key) || !is_at_most(high, key) {
            return false;
        }
        before = key;
    }
    true
}

/// Puts the chains of a page's cells on the stack, the first one on top.
pub(crate) fn push_chains(
    number: u32,
    page: &BtreePage,
    parts: &[Parts],
    stack: &mut Vec<Item>,
) -> Result<(), CheckError>
    requires number { number ≡ page.now.number }
    requires parts { HasPartsOf page.now parts.now }
    ensures ok { OnOk result ((tree : Tree) → Pushes tree (InCell page.now) stack.old.items stack.new.items) }
    ensures leads { OnOk result (KeepsLead stack.old.items stack.new.items) }
    ensures err { IfErr result (λ e. e.fault ≡ Fault.NoMemory) }
{
    let mut left = page.len();
    'cells: while left > 0 {
        left -= 1;
        let cell = page.cell_with(left, &parts[left]);
        let needed = links_of(&cell);
        if needed > 0 {
            push(
                stack,
                Item {
                    holder: number,
                    page: cell.overflow,
                    task: Task::Link {
                        owner: number,
                        needed,
                        first: true,
                    },
                },
            )?;
        }
    }
    Ok(())
}

/// Puts the children of an interior page on the stack, the first one on top.
pub(crate) fn push_children(
    number: u32,
    page: &BtreePage,
    parts: &[Parts],
    bounds: Bounds,
    stack: &mut Vec<Item>,
) -> Result<(), CheckError>
    requires cells { (number ≡ page.now.number) × HasPartsOf page.now parts.now }
    requires interior { is_interior page.now.kind ≡ true }
    requires shallow { bounds.level ≤ 20 }
    ensures ok { OnOk result ((tree : Tree)
        → Pushes tree (IsChild page.now (node_of tree bounds)) stack.old.items stack.new.items) }
    ensures leads { OnOk result ((d : Database) (root : ℕ) → ((on : ℕ) → FirstLeaf d (first_child page.now)
        (suc bounds.level) on → FirstLeaf d root 1 on) → TopLeads d root (reverse stack.new.items)) }
    ensures err { IfErr result (λ e. e.fault ≡ Fault.NoMemory) }
{
    let level = bounds.level + 1;
    let mut child = page.right().unwrap_or(0);
    let mut high = bounds.high;
    let mut left = page.len();
    'cells: while left > 0 {
        left -= 1;
        let cell = page.cell_with(left, &parts[left]);
        let task = Task::Node {
            level,
            low: cell.rowid,
            high,
        };
        push(
            stack,
            Item {
                holder: number,
                page: child,
                task,
            },
        )?;
        child = cell.child.unwrap_or(0);
        high = cell.rowid;
    }
    let task = Task::Node {
        level,
        low: bounds.low,
        high,
    };
    push(
        stack,
        Item {
            holder: number,
            page: child,
            task,
        },
    )
}

/// Judges a page of a tree and its cells. Refused by Kind, Depth, CellOutside, Freeblock, Overlap, Fragments
/// and KeyOrder, the first that applies. `first` is the level of the tree's first leaf, where it is known.
pub(crate) fn judge<'a>(
    tree: &Tree,
    raw: RawPage<'a>,
    bounds: Bounds,
    first: &mut Option<u32>,
    room: &mut Room,
) -> Result<BtreePage<'a>, Fault>
    requires raw { IsUsable raw.number (length raw.bytes.now) raw.usable }
    requires room { HoldsPage raw.usable room.old }
    ensures ok { IfOk result (λ page. (page.number ≡ raw.entry.number) × (page.used ≡ take raw.entry.usable
        raw.entry.bytes.now) × Judged page (node_of tree.now bounds) first.old first.new) }
    ensures err { (d : Database) → IsRead d raw.entry → IfErr result (λ fault.
        NodeRefusedBy (IsPutDown first.old tree.now.root) d fault raw.entry.number (node_of tree.now bounds)) }
    ensures level { (d : Database) → IsRead d raw.entry
        → LevelAt d raw.entry.number bounds.level first.old first.new }
    ensures parts { IfOk result (λ page. HasPartsOf page room.new.parts.items) }
    ensures room { HoldsPage raw.entry.usable room.new }
    ensures source { IfErr result (λ fault. (fault ≢ Fault.Source) × (fault ≢ Fault.SchemaRecord)) }
{
    let kind = kind_in(tree, raw.number, &raw.bytes[..raw.usable as usize])?;
    if !kind.is_interior() {
        *first = Some(leaf_level(*first, bounds.level)?);
    }
    let page = BtreePage::parse(raw.bytes, raw.number, raw.usable, &mut room.parts)?;
    page.layout_in(&room.parts, &mut room.map)?;
    if !keys_rise(&page, &room.parts, bounds.low, bounds.high) {
        return Err(Fault::KeyOrder);
    }
    Ok(page)
}

/// How far the walk has come.
#[derive(Drop)]
pub(crate) struct Walk {
    /// The places that are still to be followed, the next one last.
    pub stack: Vec<Item>,
    /// The leaves of the schema's tree.
    pub rows: Vec<u32>,
    /// The level of the first leaf of the tree that is followed.
    pub leaf_level: Option<u32>,
}

/// Puts a leaf of the schema's tree aside.
fn put_aside(tree: &Tree, kind: Kind, number: u32, rows: &mut Vec<u32>) -> Result<(), CheckError>
    ensures ok { OnOk result (((tree.now.schema ≡ true) × (is_interior kind ≡ false) × (rows.new.items ≡
        rows.old.items ++ number ∷ [])) ⊎ (((tree.now.schema ≡ true) → is_interior kind ≢ false) ×
        (rows.new.items ≡ rows.old.items))) }
    ensures err { IfErr result (λ e. e.fault ≡ Fault.NoMemory) }
{
    if kind.is_interior() || !tree.schema {
        return Ok(());
    }
    match rows.push(number) {
        Ok(()) => Ok(()),
        Err(_) => Err(CheckError {
            page: number,
            fault: Fault::NoMemory,
        }),
    }
}

/// Puts the children of a page on the stack, where it is an interior one.
fn push_below(
    number: u32,
    page: &BtreePage,
    parts: &[Parts],
    bounds: Bounds,
    stack: &mut Vec<Item>,
) -> Result<(), CheckError>
    requires number { number ≡ page.now.number }
    requires parts { HasPartsOf page.now parts.now }
    requires shallow { bounds.level ≤ 20 }
    ensures ok { OnOk result ((tree : Tree)
        → Pushes tree (IsBelow page.now (node_of tree bounds)) stack.old.items stack.new.items) }
    ensures leads { OnOk result ((d : Database) (root : ℕ) → is_interior page.now.kind ≡ true → ((on : ℕ) → FirstLeaf
        d (first_child page.now) (suc bounds.level) on → FirstLeaf d root 1 on) → TopLeads d root (reverse
        stack.new.items)) }
    ensures err { IfErr result (λ e. e.fault ≡ Fault.NoMemory) }
{
    if page.kind().is_interior() {
        push_children(number, page, parts, bounds, stack)
    } else {
        Ok(())
    }
}

/// Judges a page of a tree, and puts what stands in it on the stack: its chains, then its children. The page's
/// kind.
pub(crate) fn enter(
    tree: &Tree,
    raw: RawPage,
    bounds: Bounds,
    room: &mut Room,
    walk: &mut Walk,
) -> Result<Kind, CheckError>
    requires raw { IsUsable raw.number (length raw.bytes.now) raw.usable }
    requires room { HoldsPage raw.usable room.old }
    requires shallow { bounds.level ≤ 20 }
    ensures ok { (d : Database) → IsRead d raw.entry
        → KnowsAt d tree.now.root walk.old.leaf_level raw.entry.number bounds.level
        → IfOk result (λ kind. HasKind d kind raw.entry.number
        × Enters d tree.now raw.entry.number (node_of tree.now bounds) walk.old walk.new) }
    ensures behind { (d : Database) → IsRead d raw.entry
        → IfOk result (λ kind. HasKind d kind raw.entry.number
        × Opens d tree.now raw.entry.number (node_of tree.now bounds) walk.old walk.new) }
    ensures err { (d : Database) → IsRead d raw.entry
        → IfErr result (λ e. ((e.page ≡ raw.entry.number) × NodeRefusedBy (IsPutDown walk.old.leaf_level tree.now.root)
        d e.fault raw.entry.number (node_of tree.now bounds)) ⊎ (e.fault ≡ Fault.NoMemory)) }
    ensures level { (d : Database) → IsRead d raw.entry
        → LevelAt d raw.entry.number bounds.level walk.old.leaf_level walk.new.leaf_level }
    ensures room { HoldsPage raw.entry.usable room.new }
    ensures source { IfErr result (λ e. (e.fault ≢ Fault.Source) × (e.fault ≢ Fault.SchemaRecord)) }
    ensures left { IfErr result (λ e. e.fault ≢ Fault.NoMemory → KeepsWalk walk.old walk.new) }
{
    let number = raw.number;
    let page = match judge(tree, raw, bounds, &mut walk.leaf_level, room) {
        Ok(page) => page,
        Err(fault) => return Err(CheckError {
            page: number,
            fault,
        }),
    };
    let kind = page.kind();
    put_aside(tree, kind, number, &mut walk.rows)?;
    push_below(number, &page, &room.parts, bounds, &mut walk.stack)?;
    push_chains(number, &page, &room.parts, &mut walk.stack)?;
    Ok(kind)
}
