//! The trees that the items of a schema name (fileformat2, 1.6 and 2.6).
ghost use Rattle.std.specs.Prelude.{◌≡◌, ◌≢◌, ℕ, [], ◌∷◌, ◌++◌, if◌then◌else◌, pos, true, false, map, option_map};
ghost use Rattle.std.specs.Prelude.{IfOk, IfErr, OnOk, MatchOption};
ghost use Rattle.sqpage.specs.Freelist.{IsPage, IsWithin};
ghost use Rattle.sqpage.specs.Source.{KeepsPages};
ghost use Rattle.sqschema.specs.Items.{seen};
ghost use Rattle.sqschema.specs.Roots.{HasTree};
ghost use Rattle.sqschema.specs.Schema.{AreAsides};
ghost use Rattle.sqschema.specs.internal.Judging.{AllAt, Tells, TellsOf, SaysRowids, SaysAside, KindTells, Fits};

use crate::alone::item_at;
use crate::error::{ReadError, SchemaError, at_row, no_memory};
use crate::fault::SchemaFault;
use crate::first::{page_bytes, type_byte};
use crate::item::Item;
use schema_ast::made_table;
use sqpage::{Kind, PageSource};
use std::alloc::{AllocError, Global};

/// The longest text that is read as one of a table (own): reading it takes memory for some hundred times its bytes.
const MOST_TEXT: usize = 1_048_576;

/// Whether a text is understood as that of a table with rowids, or of one without.
#[tactic(auto, using(crate::proofs::RowidsSaid::too_long))]
fn has_rowids(alloc: Global, sql: &Option<Vec<u8>>) -> Result<Option<bool>, AllocError>
    ensures { IfOk result (SaysRowids (option_map (λ t. t.items) sql.now)) }
{
    let Some(sql) = sql else {
        return Ok(None);
    };
    if sql.len() > MOST_TEXT {
        return Ok(None);
    }
    match made_table(alloc, sql)? {
        Some(made) => Ok(Some(!made.without_rowid)),
        None => Ok(None),
    }
}

/// Whether an item names no root.
fn is_rootless(item: &Item) -> bool
    ensures none { result ≡ true → item.now.root ≡ pos 0 }
    ensures some { result ≡ false → item.now.root ≢ pos 0 }
{
    item.root == 0
}

/// The page that an item names as its root, of so many.
fn page_number(item: &Item, count: u32) -> Option<u32>
    ensures { MatchOption result ((r : ℕ) → IsWithin count r → item.now.root ≢ pos r)
        (λ r. IsWithin count r × (item.now.root ≡ pos r)) }
{
    let root = item.root;
    if 1 <= root && root <= i64::from(count) {
        Some(root as u32)
    } else {
        None
    }
}

/// Whether a page begins the tree of a table, or that of an index. None where it begins neither.
fn kind_at<S: PageSource>(alloc: Global, source: &mut S, p: u32) -> Result<Option<bool>, ReadError>
    requires { IsPage (S.pages source.old) p }
    ensures ok { S.gives_pages source.old → IfOk result (KindTells (S.pages source.old) p) }
    ensures err { S.gives_pages source.old → IfErr result (λ e. e ≡ ReadError.NoMemory) }
    ensures keeps { KeepsPages S.pages S.size S.reads_right S.gives_pages source.old source.new }
{
    let bytes = page_bytes(alloc, source, p)?;
    match Kind::of(type_byte(p, &bytes)) {
        Some(kind) => Ok(Some(kind.is_table())),
        None => Ok(None),
    }
}

/// Whether a tree is one for an item: true where it is known to be of its kind, false where the item's text isn't
/// understood. None where it is known not to be.
fn fits(alloc: Global, item: &Item, table: bool) -> Result<Option<bool>, AllocError>
    ensures { IfOk result (Fits (seen item.now) table) }
{
    if item.is_index() {
        return Ok(if table { None } else { Some(true) });
    }
    if !item.is_table() {
        return Ok(Some(true));
    }
    match has_rowids(alloc, &item.sql)? {
        Some(rowids) => Ok(if rowids == table { Some(true) } else { None }),
        None => Ok(Some(false)),
    }
}

/// Judges the tree of an item. False where it may be of either kind, since the item's text isn't understood. Refused by
/// RootKind, by Source and NoMemory.
fn judge_root<S: PageSource>(
    alloc: Global,
    source: &mut S,
    item: &Item,
    row: usize,
) -> Result<bool, SchemaError>
    ensures ok { S.gives_pages source.old → IfOk result (λ understood. HasTree (S.pages source.old) (seen item.now)
        × SaysAside understood (seen item.now)) }
    ensures err { S.gives_pages source.old
        → IfErr result (λ e. TellsOf (S.pages source.old) row (seen item.now) e) }
    ensures keeps { KeepsPages S.pages S.size S.reads_right S.gives_pages source.old source.new }
{
    if is_rootless(item) {
        return Ok(true);
    }
    let count = source.count();
    let p = match page_number(item, count) {
        Some(p) => p,
        None => return Err(at_row(row, SchemaFault::RootKind)),
    };
    let found = match kind_at(alloc, source, p) {
        Ok(found) => found,
        Err(refusal) => return Err(SchemaError::Unread(refusal)),
    };
    let table = match found {
        Some(table) => table,
        None => return Err(at_row(row, SchemaFault::RootKind)),
    };
    match fits(alloc, item, table) {
        Ok(Some(understood)) => Ok(understood),
        Ok(None) => Err(at_row(row, SchemaFault::RootKind)),
        Err(_) => Err(no_memory()),
    }
}

/// Adds the index of an item whose text isn't understood.
fn note(asides: &mut Vec<usize>, i: usize, understood: bool) -> Result<(), SchemaError>
    ensures ok { OnOk result (asides.new.items
        ≡ (if understood then asides.old.items else asides.old.items ++ i ∷ [])) }
    ensures err { IfErr result (λ e. e ≡ SchemaError.Unread ReadError.NoMemory) }
{
    if understood {
        return Ok(());
    }
    match asides.push(i) {
        Ok(()) => Ok(()),
        Err(_) => Err(no_memory()),
    }
}

/// Judges the tree of each item, and finds those whose texts aren't understood. Refused by RootKind, by Source and
/// NoMemory.
pub(crate) fn judge_roots<S: PageSource>(
    alloc: Global,
    source: &mut S,
    items: &[Item],
) -> Result<Vec<usize>, SchemaError>
    ensures trees { S.gives_pages source.old → OnOk result
        (AllAt (λ i x. HasTree (S.pages source.old) x) (map seen items.now)) }
    ensures asides { S.gives_pages source.old
        → IfOk result (λ asides. AreAsides (map seen items.now) asides.items) }
    ensures err { S.gives_pages source.old
        → IfErr result (λ e. Tells (S.pages source.old) (map seen items.now) e) }
    ensures keeps { KeepsPages S.pages S.size S.reads_right S.gives_pages source.old source.new }
{
    let mut asides = Vec::new(alloc);
    'items: for i in 0..items.len() {
        let understood = judge_root(alloc, source, item_at(items, i), i)?;
        note(&mut asides, i, understood)?;
    }
    Ok(asides)
}
