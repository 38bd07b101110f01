//! The roots of a database's tables and indexes, as far as rows of its schema say them (fileformat2, 2.6).
ghost use Rattle.std.specs.Prelude.{◌≡◌, ◌⊎◌, ◌↔◌, ◌-◌, ◌<◌, ◌≤◌, [], length, true, false, None, IsTrue};
ghost use Rattle.std.specs.Prelude.{Err, IfOk, IfErr};
ghost use Rattle.sqpage.specs.declared.fault.Fault.{Fault};
ghost use Rattle.sqpage.specs.declared.kind.Kind.TheVariants.{TableLeaf};
ghost use Rattle.sqcheck.specs.internal.Surveys.{Ends, IsEnd};
ghost use Rattle.sqcheck.specs.internal.Snapshots.{Keeps};
ghost use Rattle.sqcheck.specs.Places.{InRow};
ghost use Rattle.sqcheck.specs.internal.Schema.{HasPayloadWithin, InRowAt, InRowsOf};
ghost use Rattle.sqcheck.specs.internal.Found.{AddsRoot, AddsRoots, IsCellFound, IsPageFound, IsLeafFound};
ghost use Rattle.sqcheck.specs.internal.Found.{TellsFound, TellsRow};
ghost use Rattle.sqpage.specs.Lists.{Every, Apart};
ghost use Rattle.sqpage.specs.declared.kind.Kind.{Kind};
ghost use Rattle.std.specs.Prelude.{OnOk};

use crate::chains::Chains;
use crate::chart::Chart;
use crate::checker::NO_MEMORY;
use crate::schema::{Root, add_root, row_root};
use crate::snapshot::Snapshot;
use crate::walker::Reader;
use sqpage::{BtreePage, Cell, CheckError, Fault, Kind, PageSource};
use sqval::PageSize;
use std::alloc::{AllocError, Global};

/// Whether a fault is one of a row, and not of its chain.
fn is_of_row(fault: Fault) -> bool
    ensures { IsTrue result ↔ (fault ≡ Fault.SchemaRecord) ⊎ IsEnd fault }
{
    match fault {
        Fault::SchemaRecord | Fault::Source | Fault::NoMemory => true,
        _ => false,
    }
}

/// Adds the root that a row names, or tells of the row. A chain that can't be read was told of before.
fn keep_root(
    chart: &mut Chart,
    roots: &mut Vec<Root>,
    count: u32,
    holder: u32,
    found: Result<u64, CheckError>,
) -> Result<(), CheckError>
    ensures ends { IfErr result (λ e. (e.fault ≡ Fault.NoMemory) ⊎ ((e.fault ≡ Fault.Source) × (found ≡ Err e))) }
    ensures roles { chart.new.roles.items ≡ chart.old.roles.items }
    ensures adds { OnOk result (AddsRoot count holder found roots.old.items roots.new.items) }
    ensures tells { OnOk result (TellsRow found chart.old.faults.items chart.new.faults.items) }
{
    match found {
        Ok(root) => add_root(roots, count, holder, root),
        Err(error) => if is_of_row(error.fault) {
            chart.tell(error)
        } else {
            Ok(())
        },
    }
}

/// What was read of the rows of the schema.
#[derive(Drop)]
struct Rows {
    /// The roots that they name.
    roots: Vec<Root>,
    /// The overflow pages of their chains.
    chains: Chains,
    /// Room for a row, and for a page of its chain.
    content: Vec<u8>,
    page: Vec<u8>,
}

impl Rows {
    /// None was read of a database of so many pages.
    fn none(alloc: Global, count: u32, size: PageSize) -> Result<Rows, AllocError>
        ensures room { IfOk result (λ rows. length rows.page.items ≡ size) }
        ensures none { IfOk result (λ rows. rows.roots.items ≡ []) }
    {
        Ok(Rows {
            roots: Vec::new(alloc),
            chains: Chains::none(alloc, count)?,
            content: Vec::new(alloc),
            page: vec![in alloc; 0; size.get() as usize]?,
        })
    }
}

/// Adds the root that the row in a cell names, or tells of the row. A chain that can't be read, or is charted as
/// another cell's, was told of before: such a row isn't read.
fn survey_row<V: Snapshot, S: PageSource>(
    alloc: Global,
    source: &mut S,
    chart: &mut Chart,
    cell: &Cell,
    rows: &mut Rows,
) -> Result<(), CheckError>
    requires cell { HasPayloadWithin V.size cell.now }
    requires room { length rows.old.page.items ≡ V.size }
    requires same { Keeps V.Snapshot S.PageSource source.old }
    ensures ends { IfErr result (λ e. Ends V.given e.fault) }
    ensures roles { chart.new.roles.items ≡ chart.old.roles.items }
    ensures found { V.right → (c : IsCellFound V.pages cell.now) → OnOk result
        (AddsRoots V.pages (InRowAt V.pages cell.now.page c.0) rows.old.roots.items rows.new.roots.items) }
    ensures tells { V.right → IsCellFound V.pages cell.now → OnOk result
        (TellsFound V.maps V.pages V.size chart.old.faults.items chart.new.faults.items) }
    ensures room { length rows.new.page.items ≡ V.size }
    ensures same { Keeps V.Snapshot S.PageSource source.new }
{
    if !rows
        .chains
        .takes(source, &chart.roles, cell, &mut rows.page)?
    {
        return Ok(());
    }
    let count = source.count();
    let found = row_root::<V, S>(alloc, source, cell, &mut rows.content);
    keep_root(chart, &mut rows.roots, count, cell.page, found)
}

/// Adds the roots that the rows of a page name, or tells of them.
fn survey_cells<V: Snapshot, S: PageSource>(
    alloc: Global,
    source: &mut S,
    chart: &mut Chart,
    page: &BtreePage,
    rows: &mut Rows,
) -> Result<(), CheckError>
    requires leaf { page.now.kind ≡ TableLeaf }
    requires most { length page.now.used ≤ V.size }
    requires room { length rows.old.page.items ≡ V.size }
    requires same { Keeps V.Snapshot S.PageSource source.old }
    ensures ends { IfErr result (λ e. Ends V.given e.fault) }
    ensures roles { chart.new.roles.items ≡ chart.old.roles.items }
    ensures found { V.right → IsPageFound V.pages page.now → OnOk result
        (AddsRoots V.pages (InRow V.pages page.now.number) rows.old.roots.items rows.new.roots.items) }
    ensures tells { V.right → IsPageFound V.pages page.now → OnOk result
        (TellsFound V.maps V.pages V.size chart.old.faults.items chart.new.faults.items) }
    ensures room { length rows.new.page.items ≡ V.size }
    ensures same { Keeps V.Snapshot S.PageSource source.new }
{
    'rows: for i in 0..page.len() {
        let cell = page.cell(i);
        survey_row::<V, S>(alloc, source, chart, &cell, rows)?;
    }
    Ok(())
}

/// Adds the roots that the sound rows in a leaf of the schema's tree name, and tells of the others.
fn survey_rows<V: Snapshot, S: PageSource>(
    alloc: Global,
    source: &mut S,
    reader: &mut Reader<V>,
    chart: &mut Chart,
    number: u32,
    rows: &mut Rows,
) -> Result<(), CheckError>
    requires room { length rows.old.page.items ≡ V.size }
    requires same { Keeps V.Snapshot S.PageSource source.old }
    ensures ends { IfErr result (λ e. Ends V.given e.fault) }
    ensures roles { chart.new.roles.items ≡ chart.old.roles.items }
    ensures found { V.right → IsLeafFound V.pages number → OnOk result
        (AddsRoots V.pages (InRow V.pages number) rows.old.roots.items rows.new.roots.items) }
    ensures tells { V.right → IsLeafFound V.pages number → OnOk result
        (TellsFound V.maps V.pages V.size chart.old.faults.items chart.new.faults.items) }
    ensures usable { reader.new.usable ≡ reader.old.usable }
    ensures room { length rows.new.page.items ≡ V.size }
    ensures same { Keeps V.Snapshot S.PageSource source.new }
{
    if number == 0 || number > source.count() {
        return Ok(());
    }
    reader.read(source, number)?;
    let Ok(page) = BtreePage::new(&reader.bytes, number, reader.usable) else {
        return Ok(());
    };
    match page.kind() {
        Kind::TableLeaf => survey_cells::<V, S>(alloc, source, chart, &page, rows),
        _ => Ok(()),
    }
}

/// The roots that the sound rows of the schema name, in their order, and tells of the other rows. `leaves` are those of
/// its tree.
pub(crate) fn sound_roots<V: Snapshot, S: PageSource>(
    alloc: Global,
    source: &mut S,
    reader: &mut Reader<V>,
    chart: &mut Chart,
    leaves: &[u32],
) -> Result<Vec<Root>, CheckError>
    requires same { Keeps V.Snapshot S.PageSource source.old }
    ensures ends { IfErr result (λ e. Ends V.given e.fault) }
    ensures roles { chart.new.roles.items ≡ chart.old.roles.items }
    ensures found { V.right → Every (IsLeafFound V.pages) leaves.now → Apart leaves.now → IfOk result
        (λ roots. AddsRoots V.pages (InRowsOf V.pages leaves.now) [] roots.items) }
    ensures tells { V.right → Every (IsLeafFound V.pages) leaves.now → OnOk result
        (TellsFound V.maps V.pages V.size chart.old.faults.items chart.new.faults.items) }
    ensures usable { reader.new.usable ≡ reader.old.usable }
    ensures same { Keeps V.Snapshot S.PageSource source.new }
{
    let mut rows = match Rows::none(alloc, source.count(), source.page_size()) {
        Ok(rows) => rows,
        Err(_) => return Err(NO_MEMORY),
    };
    'pages: for number in leaves {
        survey_rows(alloc, source, reader, chart, *number, &mut rows)?;
    }
    Ok(rows.roots)
}
