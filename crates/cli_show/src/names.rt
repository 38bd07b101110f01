//! The names of a database's trees (fileformat2, 2.6).
ghost use Rattle.std.specs.Prelude.{◌≡◌, ◌≢◌, ◌<◌, ◌≤◌, ℕ, length, slice_get, string_bytes, IfErr, IfNone, IfOk};
ghost use Rattle.std.specs.Prelude.{◌↔◌, ◌+◌, IfSome, IsNone, IsSome, OnOk};
ghost use Rattle.cli_show.specs.declared.names.Name.{Name};
ghost use Rattle.std.specs.List.Sorted.{IsNonDecreasingBy};
ghost use Rattle.sqval.specs.PageSize.{IsPageSize};
ghost use Rattle.cli_facts.specs.declared.outcome.Refusal.TheVariants.{NoMemory};
ghost use Rattle.sqpage.specs.Chain.{payload_size};
ghost use Rattle.sqpage.specs.Freelist.{IsPage};
ghost use Rattle.cli_show.specs.Shown.{IsPageUnread};
ghost use Rattle.sqpage.specs.Source.{KeepsPages};

use crate::cells::{page_in, usable_size};
use cli_facts::{Refusal, is_unsound};
use sqcheck::{Role, Survey};
use sqpage::{BtreePage, Cell, Fault, Kind, PageSource, links_of, payload};
use sqval::{Record, Value};
use std::alloc::Global;
use std::str;

/// The name of the schema's own tree.
const SCHEMA: &str = "sqlite_schema";

/// A tree, by its root, and its name.
#[derive(Drop)]
struct Name {
    root: u32,
    name: String,
}

/// The names of a database's trees, in the order of their roots.
#[derive(Drop)]
pub struct Names {
    found: Vec<Name>,
    ghost ordered: { IsNonDecreasingBy (λ x. x.root) found.items },
}

impl Names {
    ghost use Rattle.cli_show.specs.Names.{IsTreeName, names_of};

    /// The name of the tree with this root, where the schema has one that can be shown.
    pub fn of(&self, root: u32) -> Option<&str>
        ensures { IsTreeName (names_of self.entry.now) root result }
    {
        if root == 1 {
            return Some(SCHEMA);
        }
        named_in(&self.found, root)
    }
}

/// The name at this root, in names that are in the order of their roots.
fn named_in(found: &[Name], root: u32) -> Option<&str>
    requires { IsNonDecreasingBy (λ x. x.root) found.now }
    ensures there { IfSome result (λ name. (i : ℕ) × (x : Name) × (slice_get found.entry.now i ≡ Some x)
        × (x.root ≡ root) × (string_bytes x.name ≡ name.now)) }
    ensures missing { IfNone result ((i : ℕ) (x : Name) → slice_get found.entry.now i ≡ Some x → x.root ≢ root) }
{
    let place = found.partition_point(|name| name.root < root);
    let name = found.get(place)?;
    if name.root == root {
        Some(name.name.as_str())
    } else {
        None
    }
}

/// The name that a row of the schema gives to the tree of a root. None where the row names no tree, or the name isn't
/// text in UTF-8 without control characters.
fn name_in(alloc: Global, row: &Record<'_>) -> Result<Option<Name>, Refusal>
    ensures { IfErr result (λ refusal. refusal ≡ NoMemory) }
{
    let (Some(Value::Text(bytes)), Some(Value::Int(root))) = (row.column(1), row.column(3)) else {
        return Ok(None);
    };
    let (Ok(name), Ok(root)) = (str::from_utf8(bytes), u32::try_from(root)) else {
        return Ok(None);
    };
    if root == 0 || name.chars().any(|c| c.is_control()) {
        return Ok(None);
    }
    Ok(Some(Name {
        root,
        name: String::from_str(alloc, name)?,
    }))
}

/// Whether the text of a database with this page 1 is in UTF-16.
fn is_utf16(first: &[u8]) -> bool {
    matches!(first.get(56..60), Some([0, 0, 0, 2 | 3]))
}

/// What the rows of the schema are read with.
#[derive(Drop)]
struct Rows {
    /// Room for a row.
    content: Vec<u8>,
    /// How many overflow pages may still be read. In a sound database each stands in one chain, so that there are
    /// enough for all rows; where chains share pages, the rows behind those that use them up are not read.
    left: u64,
}

impl Rows {
    /// Takes so many overflow pages of those that may still be read. None where that is more.
    fn take(&mut self, count: u64) -> Option<()>
        ensures enough { IsSome result ↔ count ≤ self.old.left }
        ensures left { IsSome result → self.new.left + count ≡ self.old.left }
        ensures same { IsNone result → self.new.left ≡ self.old.left }
    {
        self.left = self.left.checked_sub(count)?;
        Some(())
    }
}

/// The name that the row in a cell gives to a tree, if it gives one. None also of a row with more overflow pages than
/// may still be read.
fn name_at<S: PageSource>(
    alloc: Global,
    source: &mut S,
    cell: &Cell<'_>,
    rows: &mut Rows,
) -> Result<Option<Name>, Refusal>
    requires payload { IsSome cell.now.payload }
    requires least { 480 ≤ cell.now.usable }
    requires most { cell.now.usable ≤ S.size source.old }
    requires part { length cell.now.local.now ≤ payload_size cell.now }
    ensures refused { S.gives_pages source.old → IfErr result (λ refusal. refusal ≡ NoMemory) }
    ensures same { KeepsPages S.pages S.size S.reads_right S.gives_pages source.old source.new }
{
    if rows.take(links_of(cell)).is_none() {
        return Ok(None);
    }
    let content = &mut rows.content;
    content.clear();
    if let Err(error) = payload(alloc, source, cell, content) {
        return match error.fault {
            Fault::Source => Err(Refusal::FileFailed),
            Fault::NoMemory => Err(Refusal::NoMemory),
            _ => Ok(None),
        };
    }
    match Record::new(content) {
        Ok(row) => name_in(alloc, &row),
        Err(_) => Ok(None),
    }
}

/// Adds the names that the rows in a leaf of the schema's tree give.
fn add_names<S: PageSource>(
    alloc: Global,
    source: &mut S,
    page: &BtreePage<'_>,
    rows: &mut Rows,
    found: &mut Vec<Name>,
) -> Result<(), Refusal>
    requires { length page.now.used ≤ S.size source.old }
    ensures refused { S.gives_pages source.old → IfErr result (λ refusal. refusal ≡ NoMemory) }
    ensures same { KeepsPages S.pages S.size S.reads_right S.gives_pages source.old source.new }
{
    for i in 0..page.len() {
        let cell = page.cell(i);
        if cell.payload.is_none() {
            continue;
        }
        if let Some(name) = name_at(alloc, source, &cell, rows)? {
            if found.push(name).is_err() {
                return Err(Refusal::NoMemory);
            }
        }
    }
    Ok(())
}

/// Adds the names that the rows in a page give, where it is a leaf of a table.
fn add_leaf<S: PageSource>(
    alloc: Global,
    source: &mut S,
    number: u32,
    usable: u32,
    rows: &mut Rows,
    found: &mut Vec<Name>,
) -> Result<(), Refusal>
    requires least { 480 ≤ usable }
    requires most { usable ≤ S.size source.old }
    ensures refused { S.gives_pages source.old → IsPage (S.pages source.old) number
        → IfErr result (λ refusal. refusal ≡ NoMemory) }
    ensures same { KeepsPages S.pages S.size S.reads_right S.gives_pages source.old source.new }
{
    let bytes = page_in(alloc, source, number)?;
    match BtreePage::new(&bytes, number, usable) {
        Ok(page) if page.kind() == Kind::TableLeaf => {
            add_names(alloc, source, &page, rows, found)
        }
        _ => Ok(()),
    }
}

/// Whether the page at a place, from 0, is a leaf of the schema's tree.
fn has_rows(survey: &Survey, i: usize) -> bool {
    matches!(
        survey.roles.get(i),
        Some(Role::Btree {
            kind: Kind::TableLeaf,
            root: 1
        })
    )
}

/// The names that the schema of a database gives to its trees; none where its text isn't UTF-8.
pub(crate) fn names_in<S: PageSource>(
    alloc: Global,
    source: &mut S,
    survey: &Survey,
) -> Result<Names, Refusal>
    ensures refused { S.gives_pages source.old → IfErr result (IsPageUnread (S.pages source.old) 1) }
    ensures same { KeepsPages S.pages S.size S.reads_right S.gives_pages source.old source.new }
{
    let mut found = Vec::new(alloc);
    let first = page_in(alloc, source, 1)?;
    let usable = usable_size(&first);
    if is_utf16(&first) {
        return Ok(Names { found });
    }
    let mut rows = Rows {
        content: Vec::new(alloc),
        left: u64::from(source.count()),
    };
    for i in 0..source.count() {
        if has_rows(survey, i as usize) && !is_unsound(&survey.faults, i + 1) {
            add_leaf(alloc, source, i + 1, usable, &mut rows, &mut found)?;
        }
    }
    found.sort_by_key(|name| name.root)?;
    Ok(Names { found })
}
