//! The rows of the schema (fileformat2, 2.6).
ghost use Rattle.std.specs.Prelude.{◌≡◌, ◌≢◌, ◌⊎◌, ◌↔◌, ◌+◌, ◌<◌, ◌≤◌, ◌^◌, ◌++◌, [], ℕ, List, Some, true, length};
ghost use Rattle.std.specs.Prelude.{take, IsSome, IfOk, IfErr, OnOk, OnErr, ◌∷◌};
ghost use Rattle.sqpage.specs.Lists.{Every, Apart};
ghost use Rattle.sqpage.specs.Page.{cell_count};
ghost use Rattle.sqpage.specs.Chain.{IsPayload};
ghost use Rattle.sqpage.specs.declared.fault.Fault.{Fault};
ghost use Rattle.sqpage.specs.declared.kind.Kind.TheVariants.{TableLeaf};
ghost use Rattle.sqcheck.specs.Places.{IsRootOf, IsSchemaRow, InRow, page_as};
ghost use Rattle.sqcheck.specs.internal.Checking.{StandsAt};
ghost use Rattle.sqcheck.specs.internal.Schema.{IsRowsPage, AreSchemaRows, AllSchemaRows, InRowBelow, InRowsOf};
ghost use Rattle.sqcheck.specs.internal.Schema.{KeepsFound};
ghost use Rattle.sqcheck.specs.internal.Schema.{HasPayloadWithin, IsRootBy, IsNoRow, IsRowRefused};
ghost use Rattle.sqcheck.specs.internal.Snapshots.{Keeps};

use crate::snapshot::Snapshot;
use crate::walker::Reader;
use sqpage::{BtreePage, Cell, CheckError, Fault, Kind, PageSource, payload};
use sqval::{Record, Value};
use std::alloc::Global;

/// The root of a tree, which a row of the schema names.
#[derive(Clone, Copy, Debug)]
pub(crate) struct Root {
    /// The page that the row stands in.
    pub holder: u32,
    pub page: u64,
}

/// The root that a row's fourth column names, or 0 where it is NULL. None where it is no such row.
fn root_in(row: &Record) -> Option<u64>
    ensures { (r : ℕ) → (result ≡ Some r) ↔ IsRootOf row.now r }
{
    if row.len() < 5 {
        return None;
    }
    match row.column(3) {
        Some(Value::Null) => Some(0),
        Some(Value::Int(number)) => u64::try_from(number).ok(),
        _ => None,
    }
}

/// The root that a row of the schema names, or 0. None where the bytes are no such row.
fn schema_root(bytes: &[u8]) -> Option<u64>
    ensures { (r : ℕ) → (result ≡ Some r) ↔ IsSchemaRow bytes.now r }
{
    match Record::new(bytes) {
        Ok(row) => root_in(&row),
        Err(_) => None,
    }
}

/// The root that the row in a cell names, or 0. Refused by SchemaRecord at the cell's page. `content` is
/// room for the row.
pub(crate) fn row_root<V: Snapshot, S: PageSource>(
    alloc: Global,
    source: &mut S,
    cell: &Cell,
    content: &mut Vec<u8>,
) -> Result<u64, CheckError>
    requires cell { HasPayloadWithin V.size cell.now }
    requires same { Keeps V.Snapshot S.PageSource source.old }
    ensures ok { V.right → IfOk result (IsRootBy V.pages cell.now) }
    ensures err { V.right → (bytes : List ℕ) → IsPayload V.pages cell.now bytes → IfErr result (λ e.
        e.fault ≢ Fault.Source → (e.fault ≡ Fault.NoMemory) ⊎ IsRowRefused V.pages cell.now e) }
    ensures row { V.right → IfErr result (λ e. e.fault ≡ Fault.SchemaRecord → IsNoRow V.pages cell.now e) }
    ensures source { IfErr result (λ e. e.fault ≡ Fault.Source → ¬ V.given) }
    ensures same { Keeps V.Snapshot S.PageSource source.new }
{
    content.clear();
    payload(alloc, source, cell, content)?;
    match schema_root(content) {
        Some(root) => Ok(root),
        None => Err(CheckError {
            page: cell.page,
            fault: Fault::SchemaRecord,
        }),
    }
}

/// Adds a root that was found, where it isn't 0, and where no more are kept than there are pages.
pub(crate) fn add_root(
    roots: &mut Vec<Root>,
    count: u32,
    holder: u32,
    page: u64,
) -> Result<(), CheckError>
    ensures zero { OnOk result (page ≡ 0 → roots.new.items ≡ roots.old.items) }
    ensures full { OnOk result (count < length roots.old.items → roots.new.items ≡ roots.old.items) }
    ensures found { OnOk result (page ≢ 0 → length roots.old.items ≤ count → roots.new.items ≡ roots.old.items ++
        record { holder = holder; page = page } ∷ []) }
    ensures err { IfErr result (λ e. e.fault ≡ Fault.NoMemory) }
{
    if page == 0 || roots.len() > count as usize {
        return Ok(());
    }
    match roots.push(Root { holder, page }) {
        Ok(()) => Ok(()),
        Err(_) => Err(CheckError {
            page: holder,
            fault: Fault::NoMemory,
        }),
    }
}

/// Adds the roots that the rows in a leaf of the schema's tree name, in their order, while no more are kept
/// than there are pages.
fn take_rows<V: Snapshot, S: PageSource>(
    alloc: Global,
    source: &mut S,
    page: &BtreePage,
    content: &mut Vec<u8>,
    roots: &mut Vec<Root>,
) -> Result<(), CheckError>
    requires leaf { page.now.kind ≡ TableLeaf }
    requires most { length page.now.used ≤ V.size }
    requires same { Keeps V.Snapshot S.PageSource source.old }
    ensures ok { V.right → page.now ≡ page_as V.pages TableLeaf page.now.number → OnOk result
        (KeepsFound V.pages (InRowBelow V.pages page.now.number (cell_count page.now)) roots.old.items roots.new.items ×
        AreSchemaRows V.pages page.now.number (cell_count page.now)) }
    ensures err { V.right → page.now ≡ page_as V.pages TableLeaf page.now.number
        → IsRowsPage V.pages page.now.number
        → IfErr result (StandsAt V.Snapshot) }
    ensures same { Keeps V.Snapshot S.PageSource source.new }
{
    let count = source.count();
    'rows: for i in 0..page.len() {
        let cell = page.cell(i);
        let root = row_root::<V, S>(alloc, source, &cell, content)?;
        add_root(roots, count, cell.page, root)?;
    }
    Ok(())
}

/// Adds the roots that the rows of page `number` name, which is a leaf of the schema's tree, while no more
/// are kept than there are pages.
fn page_roots<V: Snapshot, S: PageSource>(
    alloc: Global,
    source: &mut S,
    reader: &mut Reader<V>,
    number: u32,
    content: &mut Vec<u8>,
    roots: &mut Vec<Root>,
) -> Result<(), CheckError>
    requires same { Keeps V.Snapshot S.PageSource source.old }
    ensures ok { V.right → IsRowsPage V.pages number → OnOk result (KeepsFound V.pages (InRow V.pages number)
        roots.old.items roots.new.items × AllSchemaRows V.pages number) }
    ensures err { V.right → IsRowsPage V.pages number
        → IfErr result (StandsAt V.Snapshot) }
    ensures usable { reader.new.usable ≡ reader.old.usable }
    ensures same { Keeps V.Snapshot S.PageSource source.new }
{
    if number == 0 || number > source.count() {
        return Err(CheckError {
            page: number,
            fault: Fault::PageOutside,
        });
    }
    reader.read(source, number)?;
    let page = match BtreePage::new(&reader.bytes, number, reader.usable) {
        Ok(page) => page,
        Err(fault) => return Err(CheckError {
            page: number,
            fault,
        }),
    };
    match page.kind() {
        Kind::TableLeaf => take_rows::<V, S>(alloc, source, &page, content, roots),
        _ => Err(CheckError {
            page: number,
            fault: Fault::Kind,
        }),
    }
}

/// The roots that the rows of the schema name, in their order, but not those behind one more than there are
/// pages: one of so many is no page's, or another's. `rows` are the leaves of its tree.
pub(crate) fn roots_in<V: Snapshot, S: PageSource>(
    alloc: Global,
    source: &mut S,
    reader: &mut Reader<V>,
    rows: &[u32],
) -> Result<Vec<Root>, CheckError>
    requires same { Keeps V.Snapshot S.PageSource source.old }
    ensures ok { V.right → Every (IsRowsPage V.pages) rows.now → Apart rows.now → IfOk result (λ roots. KeepsFound
        V.pages (InRowsOf V.pages rows.now) [] roots.items × Every (AllSchemaRows V.pages) rows.now) }
    ensures err { V.right → Every (IsRowsPage V.pages) rows.now
        → IfErr result (StandsAt V.Snapshot) }
    ensures usable { reader.new.usable ≡ reader.old.usable }
    ensures same { Keeps V.Snapshot S.PageSource source.new }
{
    let mut roots = Vec::new(alloc);
    let mut content = Vec::new(alloc);
    'pages: for number in rows {
        page_roots(alloc, source, reader, *number, &mut content, &mut roots)?;
    }
    Ok(roots)
}
