//! Pointer maps, compared with what names each page (fileformat2, 1.8).
ghost use Rattle.std.specs.Prelude.{◌≡◌, ◌≢◌, ◌<◌, ◌≤◌, ◌+◌, ◌↔◌, IsTrue, true, length, OnOk, IfOk, IfErr};
ghost use Rattle.sqval.specs.Bytes.{word};
ghost use Rattle.sqval.specs.Database.{page};
ghost use Rattle.sqpage.specs.Freelist.{IsPage};
ghost use Rattle.sqpage.specs.Header.{byte};
ghost use Rattle.sqpage.specs.PointerMaps.{kind_code};
ghost use Rattle.sqpage.specs.declared.fault.Fault.{Fault};
ghost use Rattle.sqcheck.specs.internal.Checking.{KnowsMaps};
ghost use Rattle.sqcheck.specs.internal.Snapshots.{Keeps};
ghost use Rattle.sqcheck.specs.internal.Walking.{kind_of, IsMapped, EntryRefused};
ghost use Rattle.sqcheck.specs.WellFormed.{IsAutoVacuum, parent_by};

use crate::item::{Item, Task};
use crate::pages::{read_page, word_at};
use crate::snapshot::Snapshot;
use sqpage::{CheckError, EntryPlace, Fault, MapEntry, PageSource, PointerKind, entry_place};
use sqval::PageSize;
use std::alloc::{AllocError, Global};
use std::marker::PhantomData;

/// The pointer maps of a database, and the one that was read last.
#[derive(Drop)]
pub(crate) struct Maps<V: Snapshot> {
    /// Whether there are any.
    pub used: bool,
    pub page_size: PageSize,
    /// How many bytes at the end of each page are not used.
    pub reserved: u8,
    /// The map that was read last, or 0.
    held: u32,
    /// Its bytes.
    bytes: Vec<u8>,
    snapshot: PhantomData<V>,
    ghost sized: { length bytes.items ≡ V.size },
    ghost size: { page_size ≡ V.size },
    ghost known: { V.right → KnowsMaps V.pages V.judged used page_size reserved },
    ghost asked: { used ≡ true → V.maps ≡ true },
    ghost all: { V.right → V.maps ≡ true → IsAutoVacuum V.pages → used ≡ true },
    ghost kept: { V.right → 0 < held → bytes.items ≡ page V.pages held },
}

/// The number of a kind of page.
fn code_of(kind: PointerKind) -> u8
    ensures { result ≡ kind_code kind }
{
    match kind {
        PointerKind::Root => 1,
        PointerKind::Free => 2,
        PointerKind::FirstOverflow => 3,
        PointerKind::Overflow => 4,
        PointerKind::Child => 5,
    }
}

/// The kind that the entry of a page that is named so is to say.
fn kind_named(task: Task) -> PointerKind
    ensures { result ≡ kind_of task }
{
    match task {
        Task::Trunk | Task::Leaf => PointerKind::Free,
        Task::Link { first, .. } => if first {
            PointerKind::FirstOverflow
        } else {
            PointerKind::Overflow
        },
        Task::Node { level, .. } => if level == 1 {
            PointerKind::Root
        } else {
            PointerKind::Child
        },
    }
}

/// The entry that the page of an item is to have.
fn entry_of(item: Item) -> MapEntry
    ensures kind { result.kind ≡ kind_of item.task }
    ensures parent { result.parent ≡ parent_by (kind_of item.task) item.holder }
{
    let kind = kind_named(item.task);
    let parent = match kind {
        PointerKind::Root | PointerKind::Free => 0,
        _ => item.holder,
    };
    MapEntry { kind, parent }
}

/// Whether the bytes of a pointer map from `at` on are those of this entry.
fn says(bytes: &[u8], at: usize, entry: MapEntry) -> bool
    requires room { at + 5 ≤ length bytes.now }
    ensures { IsTrue result ↔ (byte bytes.now at ≡ kind_code entry.kind) × (word bytes.now (at + 1) ≡ entry.parent) }
{
    bytes[at] == code_of(entry.kind) && word_at(bytes, at + 1) == entry.parent
}

impl<V: Snapshot> Maps<V> {
    /// The pointer maps of a database, none of which was read.
    pub fn new(
        alloc: Global,
        used: bool,
        page_size: PageSize,
        reserved: u8,
    ) -> Result<Maps<V>, AllocError>
        requires size { page_size ≡ V.size }
        requires known { V.right → KnowsMaps V.pages V.judged used page_size reserved }
        requires asked { used ≡ true → V.maps ≡ true }
        requires all { V.right → V.maps ≡ true → IsAutoVacuum V.pages → used ≡ true }
        ensures size { IfOk result (λ maps. maps.page_size ≡ page_size) }
    {
        Ok(Maps {
            used,
            page_size,
            reserved,
            held: 0,
            bytes: vec![in alloc; 0; page_size.get() as usize]?,
            snapshot: PhantomData,
        })
    }

    /// Reads a map, unless it was read last. Refused by Source where it could not be read.
    fn read<S: PageSource>(&mut self, source: &mut S, map: u32) -> Result<(), CheckError>
        requires page { IsPage V.pages map }
        requires same { Keeps V.Snapshot S.PageSource source.old }
        ensures read { V.right → OnOk result (self.new.bytes.items ≡ page V.pages map) }
        ensures err { IfErr result (λ e. (e.fault ≡ Fault.Source) × ¬ V.given) }
        ensures same { Keeps V.Snapshot S.PageSource source.new }
    {
        if map == self.held {
            return Ok(());
        }
        self.held = 0;
        read_page::<V, S>(source, map, &mut self.bytes)?;
        self.held = map;
        Ok(())
    }

    /// Compares the entry of an item's page, where it has one, with what names the page. Refused by PointerMap at the
    /// map where it says otherwise, and by Source where that could not be read.
    pub fn judge<S: PageSource>(&mut self, source: &mut S, item: Item) -> Result<(), CheckError>
        requires page { IsPage V.pages item.page }
        requires same { Keeps V.Snapshot S.PageSource source.old }
        ensures ok { V.right × V.judged → OnOk result (IsMapped V.pages item) }
        ensures err { V.right → IfErr result (λ e. e.fault ≢ Fault.Source
            → (self.old.used ≡ true) × EntryRefused V.pages item e.fault e.page) }
        ensures source { IfErr result (λ e. e.fault ≡ Fault.Source → ¬ V.given) }
        ensures same { Keeps V.Snapshot S.PageSource source.new }
    {
        if !self.used {
            return Ok(());
        }
        let Some(EntryPlace { map, at }) = entry_place(self.page_size, self.reserved, item.page)
        else {
            return Ok(());
        };
        self.read(source, map)?;
        if !says(&self.bytes, at as usize, entry_of(item)) {
            return Err(CheckError {
                page: map,
                fault: Fault::PointerMap,
            });
        }
        Ok(())
    }
}
