//! The check of a whole database (own).
ghost use Rattle.std.specs.Prelude.{◌≡◌, ◌≢◌, ◌<◌, ◌≤◌, ◌∷◌, ◌++◌, [], ℕ, List, Bool, true, false, length};
ghost use Rattle.std.specs.Prelude.{IfOk, IfErr, MatchResult, OnOk, replicate, ◌↔◌, ◌-◌, ◌^◌};
ghost use Rattle.sqpage.specs.PointerMaps.{lock_byte_page};
ghost use Rattle.sqpage.specs.Source.{KeepsPages, UnlessUnread};
ghost use Rattle.sqpage.specs.Freelist.{IsPage, IsWithin, usable_size, first_trunk};
ghost use Rattle.sqpage.specs.Lists.{Every};
ghost use Rattle.sqpage.specs.internal.Taking.{is_marked};
ghost use Rattle.sqpage.specs.declared.fault.Fault.{Fault};
ghost use Rattle.sqcheck.specs.Places.{Spot, first_root_spot, names_table};
ghost use Rattle.sqcheck.specs.Roles.{Visit, Told, AreRoles};
ghost use Rattle.sqcheck.specs.internal.Schema.{IsRootAt, RootsMatch};
ghost use Rattle.sqcheck.specs.internal.Snapshots.{IsSourceOf, Keeps};
ghost use Rattle.sqcheck.specs.Stands.{Stands, StandsWith, IsAsideWith};
ghost use Rattle.sqcheck.specs.internal.Agenda.{AreCounted, MarksAside};
ghost use Rattle.sqcheck.specs.WellFormed.{WellFormed, WellFormedWith, HasSoundHeader, IsReport};
ghost use Rattle.sqcheck.specs.internal.Walking.{IsItemOf, TopLeads};
ghost use Rattle.sqcheck.specs.internal.Checking.{IsNew, HasLists, IsReportOf, MarksOne, MarksMaps};
ghost use Rattle.sqcheck.specs.internal.Checking.{StandsAt, Visited, Walks};

use crate::header::judge_header;
use crate::item::{Item, Task, push};
use crate::maps::Maps;
use crate::node::{Room, Walk};
use crate::options::Options;
use crate::pages::read_page;
use crate::report::Report;
use crate::role::{Silent, Visitor};
use crate::schema::{Root, roots_in};
use crate::snapshot::Snapshot;
use crate::tree::Tree;
use crate::unused::judge_unused;
use crate::uses::{Counts, Uses};
use crate::walker::{Reader, Walker};
use sqpage::{CheckError, DbHeader, Fault, PageSource, Parts, is_pointer_map, lock_byte_page};
use sqval::PageSize;
use std::alloc::{AllocError, Global};
use std::marker::{Brand, PhantomData};

/// The tree that the freelist is said to be of, which has no tree.
pub(crate) const NO_TREE: Tree = Tree {
    root: 1,
    table: true,
    schema: false,
};

/// The schema's tree.
pub(crate) const SCHEMA_TREE: Tree = Tree {
    root: 1,
    table: true,
    schema: true,
};

/// What the root of a tree is named as.
pub(crate) const ROOT: Task = Task::Node {
    level: 1,
    low: None,
    high: None,
};

impl<V: Snapshot> Reader<V> {
    /// Whether the page that a root names is one of a table's tree.
    pub fn names_table<S: PageSource>(
        &mut self,
        source: &mut S,
        page: u32,
    ) -> Result<bool, CheckError>
        requires page { IsPage V.pages page }
        requires same { Keeps V.Snapshot S.PageSource source.old }
        ensures ok { V.right → IfOk result (λ table. table ≡ names_table V.pages page) }
        ensures source { IfErr result (λ e. (e.fault ≡ Fault.Source) × ¬ V.given) }
        ensures usable { self.new.usable ≡ self.old.usable }
        ensures same { Keeps V.Snapshot S.PageSource source.new }
    {
        self.read(source, page)?;
        let head = if page == 1 { 100 } else { 0 };
        Ok(self.bytes[head] == 13 || self.bytes[head] == 5)
    }
}

impl<V: Snapshot> Walker<V> {
    /// Follows a place, and all that stand in the pages that it leads to.
    fn follow_from<S: PageSource, T: Visitor>(
        &mut self,
        source: &mut S,
        visitor: &mut T,
        tree: &Tree,
        item: Item,
    ) -> Result<(), CheckError>
        requires same { Keeps V.Snapshot S.PageSource source.old }
        ensures walks { V.right × V.judged → (late : Bool) (visited rest : List Spot) (s : Spot)
            → Visited V.pages late visited (s ∷ rest) self.old.uses self.old.walk → IsItemOf tree.now item s
            → TopLeads V.pages tree.now.root (item ∷ [])
            → Walks V.Snapshot T.saw result late visited rest self.new.uses self.new.walk visitor.old visitor.new }
        ensures same { Keeps V.Snapshot S.PageSource source.new }
    {
        self.walk.leaf_level = None;
        self.walk.stack.clear();
        push(&mut self.walk.stack, item)?;
        self.walk_on(source, visitor, tree)
    }

    /// Follows the trunks of the freelist.
    fn follow_trunks<S: PageSource, T: Visitor>(
        &mut self,
        source: &mut S,
        visitor: &mut T,
        first: u32,
    ) -> Result<(), CheckError>
        requires same { Keeps V.Snapshot S.PageSource source.old }
        ensures walks { V.right × V.judged → first ≡ first_trunk V.pages → IsNew V.pages self.old.uses self.old.walk
            → Walks V.Snapshot T.saw result false [] (first_root_spot ∷ []) self.new.uses self.new.walk visitor.old
            visitor.new }
        ensures same { Keeps V.Snapshot S.PageSource source.new }
    {
        if first == 0 {
            return Ok(());
        }
        let item = Item {
            holder: 1,
            page: first,
            task: Task::Trunk,
        };
        self.follow_from(source, visitor, &NO_TREE, item)
    }

    /// Whether as many pages are free as the header says.
    pub fn judge_free_count(&self, said: u32) -> Result<(), CheckError>
        ensures ok { OnOk result (self.now.uses.counts.free ≡ said) }
        ensures err { IfErr result (λ e. (e.fault ≡ Fault.FreeCount) × (e.page ≡ 1) ×
            (self.now.uses.counts.free ≢ said)) }
    {
        if self.uses.counts.free != said {
            return Err(CheckError {
                page: 1,
                fault: Fault::FreeCount,
            });
        }
        Ok(())
    }

    /// Follows the schema's tree.
    fn follow_schema<S: PageSource, T: Visitor>(
        &mut self,
        source: &mut S,
        visitor: &mut T,
    ) -> Result<(), CheckError>
        requires same { Keeps V.Snapshot S.PageSource source.old }
        ensures walks { V.right × V.judged → (visited : List Spot)
            → Visited V.pages false visited (first_root_spot ∷ []) self.old.uses self.old.walk
            → Walks V.Snapshot T.saw result false visited [] self.new.uses self.new.walk visitor.old visitor.new }
        ensures same { Keeps V.Snapshot S.PageSource source.new }
    {
        let item = Item {
            holder: 1,
            page: 1,
            task: ROOT,
        };
        self.follow_from(source, visitor, &SCHEMA_TREE, item)
    }

    /// Follows the tree of a root. Refused by PageOutside at the row's page where there is no such page.
    fn follow_root<S: PageSource, T: Visitor>(
        &mut self,
        source: &mut S,
        visitor: &mut T,
        root: Root,
    ) -> Result<(), CheckError>
        requires same { Keeps V.Snapshot S.PageSource source.old }
        ensures walks { V.right × V.judged → (visited rest : List Spot) (s : Spot)
            → Visited V.pages true visited (s ∷ rest) self.old.uses self.old.walk → IsRootAt V.pages root s
            → Walks V.Snapshot T.saw result true visited rest self.new.uses self.new.walk visitor.old visitor.new }
        ensures same { Keeps V.Snapshot S.PageSource source.new }
    {
        if root.page == 0 || root.page > u64::from(source.count()) {
            return Err(CheckError {
                page: root.holder,
                fault: Fault::PageOutside,
            });
        }
        let page = root.page as u32;
        let table = self.reader.names_table(source, page)?;
        let tree = Tree {
            root: page,
            table,
            schema: false,
        };
        let item = Item {
            holder: root.holder,
            page,
            task: ROOT,
        };
        self.follow_from(source, visitor, &tree, item)
    }

    /// Follows the trees of the roots, in their order.
    fn follow_roots<S: PageSource, T: Visitor>(
        &mut self,
        source: &mut S,
        visitor: &mut T,
        roots: &[Root],
    ) -> Result<(), CheckError>
        requires same { Keeps V.Snapshot S.PageSource source.old }
        ensures walks { V.right × V.judged → (visited spots rest : List Spot)
            → Visited V.pages true visited (spots ++ rest) self.old.uses self.old.walk
            → RootsMatch V.pages roots.now spots
            → Walks V.Snapshot T.saw result true visited rest self.new.uses self.new.walk visitor.old visitor.new }
        ensures same { Keeps V.Snapshot S.PageSource source.new }
    {
        'roots: for root in roots {
            self.follow_root(source, visitor, *root)?;
        }
        Ok(())
    }

    /// Follows the freelist and the schema's tree. Refused by FreeCount where the freelist isn't as long as
    /// the header says.
    fn follow_first<S: PageSource, T: Visitor>(
        &mut self,
        source: &mut S,
        visitor: &mut T,
        header: &DbHeader,
    ) -> Result<(), CheckError>
        requires same { Keeps V.Snapshot S.PageSource source.old }
        ensures walks { V.right × V.judged → HasLists header.now V.pages → IsNew V.pages self.old.uses self.old.walk
            → Walks V.Snapshot T.saw result false [] [] self.new.uses self.new.walk visitor.old visitor.new }
        ensures same { Keeps V.Snapshot S.PageSource source.new }
    {
        self.follow_trunks(source, visitor, header.first_trunk)?;
        self.judge_free_count(header.free_pages)?;
        self.follow_schema(source, visitor)
    }

    /// Follows the trees of the roots that the rows of the schema name.
    fn follow_others<S: PageSource, T: Visitor>(
        &mut self,
        alloc: Global,
        source: &mut S,
        visitor: &mut T,
    ) -> Result<(), CheckError>
        requires same { Keeps V.Snapshot S.PageSource source.old }
        ensures walks { V.right × V.judged → Every (λ b. length b ≡ V.size) V.pages → (visited : List Spot)
            → Visited V.pages false visited [] self.old.uses self.old.walk
            → Walks V.Snapshot T.saw result true visited [] self.new.uses self.new.walk visitor.old visitor.new }
        ensures same { Keeps V.Snapshot S.PageSource source.new }
    {
        let roots = roots_in(alloc, source, &mut self.reader, &self.walk.rows)?;
        self.follow_roots(source, visitor, &roots)
    }

    /// Whether the largest root is the one that the header says, where there are pointer maps.
    pub(crate) fn judge_largest_root(&self, said: u32) -> Result<(), CheckError>
        ensures ok { OnOk result (self.now.maps.used ≡ true → self.now.uses.counts.largest_root ≡ said) }
        ensures err { IfErr result (λ e. (e.fault ≡ Fault.PointerMap) × (e.page ≡ 1) ×
            (self.now.maps.used ≡ true) × (self.now.uses.counts.largest_root ≢ said)) }
    {
        if self.maps.used && self.uses.counts.largest_root != said {
            return Err(CheckError {
                page: 1,
                fault: Fault::PointerMap,
            });
        }
        Ok(())
    }

    /// Whether all pages were taken, as many of them are free as the header says, and with pointer maps the largest
    /// root is the one that it says.
    fn judge_end(&self, header: &DbHeader) -> Result<(), CheckError>
        ensures taken { OnOk result (((p : ℕ) → IsWithin (length self.now.uses.marks.items) p → is_marked
            self.now.uses.marks.items p ≡ true) × (self.now.uses.counts.free ≡ header.now.free_pages)) }
        ensures largest { OnOk result (self.now.maps.used ≡ true → self.now.uses.counts.largest_root ≡
            header.now.largest_root) }
        ensures err { V.right × V.judged → (visited : List Spot) → HasLists header.now V.pages
            → Visited V.pages true visited [] self.now.uses self.now.walk
            → IfErr result (StandsAt V.Snapshot) }
    {
        judge_unused(&self.uses.marks)?;
        self.judge_free_count(header.free_pages)?;
        self.judge_largest_root(header.largest_root)
    }

    fn report(&self) -> Report
        ensures pages { result.pages ≡ length self.now.uses.marks.items }
        ensures trees { result.trees ≡ self.now.uses.counts.trees }
        ensures btree { result.btree ≡ self.now.uses.counts.btree }
        ensures overflow { result.overflow ≡ self.now.uses.counts.overflow }
        ensures free { result.free ≡ self.now.uses.counts.free }
    {
        let counts = &self.uses.counts;
        Report {
            pages: self.uses.marks.len() as u32,
            trees: counts.trees,
            btree: counts.btree,
            overflow: counts.overflow,
            free: counts.free,
        }
    }

    /// Checks all but the header.
    fn check_pages<S: PageSource, T: Visitor>(
        &mut self,
        alloc: Global,
        source: &mut S,
        visitor: &mut T,
        header: &DbHeader,
    ) -> Result<Report, CheckError>
        requires same { Keeps V.Snapshot S.PageSource source.old }
        ensures checks { V.right × V.judged → (maps : Bool) → Every (λ b. length b ≡ V.size) V.pages
            → HasLists header.now V.pages → IsNew V.pages self.old.uses self.old.walk
            → HasSoundHeader maps V.pages V.size
            → MatchResult result (IsReportOf T.saw maps V.pages V.size visitor.old visitor.new) (StandsAt V.Snapshot) }
        ensures same { Keeps V.Snapshot S.PageSource source.new }
    {
        self.follow_first(source, visitor, header)?;
        self.follow_others(alloc, source, visitor)?;
        self.judge_end(header)?;
        Ok(self.report())
    }
}

/// So many marks, none of which is set.
fn unmarked(alloc: Global, count: u32) -> Result<Vec<bool>, AllocError>
    ensures { IfOk result (λ marks. marks.items ≡ replicate count false) }
{
    let marks = vec![in alloc; false; count as usize]?;
    Ok(marks)
}

/// Marks the lock-byte page, where there is one.
fn set_aside(marks: &mut [bool], size: PageSize)
    ensures length { length marks.new ≡ length marks.old }
    ensures lock { marks.old ≡ replicate (length marks.old) false → MarksOne marks.new (lock_byte_page size) }
{
    let lock = lock_byte_page(size) as usize;
    if lock <= marks.len() {
        marks[lock - 1] = true;
    }
}

/// Marks the pointer maps of such a database.
fn mark_maps(marks: &mut [bool], size: PageSize, reserved: u8)
    requires few { length marks.old < 2 ^ 32 }
    ensures length { length marks.new ≡ length marks.old }
    ensures maps { MarksMaps size (size - reserved) marks.old marks.new }
{
    'pages: for i in 0..marks.len() {
        if is_pointer_map(size, reserved, i as u32 + 1) {
            marks[i] = true;
        }
    }
}

/// The marks of so many pages, of which those that are set aside are marked: the lock-byte page, and the pointer maps.
fn first_marks<V: Snapshot>(
    alloc: Global,
    count: u32,
    maps: &Maps<V>,
) -> Result<Vec<bool>, AllocError>
    ensures long { IfOk result (λ marks. length marks.items ≡ count) }
    ensures aside { V.right × V.judged → IfOk result (λ marks. MarksAside V.pages marks.items) }
    ensures barred { V.right → IfOk result (λ marks. (p : ℕ) → IsWithin (length marks.items) p
        → is_marked marks.items p ≡ true → IsAsideWith V.maps V.pages V.size p) }
{
    let mut marks = unmarked(alloc, count)?;
    set_aside(&mut marks, maps.page_size);
    if maps.used {
        mark_maps(&mut marks, maps.page_size, maps.reserved);
    }
    Ok(marks)
}

/// A walker that has room for the pages that are read, and has taken none of so many. Those that are set aside are
/// marked as taken.
pub(crate) fn new_walker<V: Snapshot>(
    alloc: Global,
    reader: Reader<V>,
    count: u32,
    maps: Maps<V>,
) -> Result<Walker<V>, AllocError>
    requires { count ≡ length V.pages }
    ensures new { V.right × V.judged → IfOk result (λ w. IsNew V.pages w.uses w.walk) }
    ensures rows { IfOk result (λ w. w.walk.rows.items ≡ []) }
    ensures none { IfOk result (λ w. AreCounted [] w.uses.counts) }
    ensures barred { V.right → IfOk result (λ w. (p : ℕ) → IsPage V.pages p
        → is_marked w.uses.marks.items p ≡ true → IsAsideWith V.maps V.pages V.size p) }
{
    let usable = reader.usable as usize;
    let marks = first_marks(alloc, count, &maps)?;
    Ok(Walker {
        room: Room {
            parts: vec![in alloc; Parts::NONE; usable / 2 + 1]?,
            map: vec![in alloc; 0; (usable + 67) / 64]?,
        },
        uses: Uses {
            marks,
            counts: Counts {
                trees: 0,
                btree: 0,
                overflow: 0,
                free: 0,
                largest_root: 0,
            },
        },
        walk: Walk {
            stack: Vec::new(alloc),
            rows: Vec::new(alloc),
            leaf_level: None,
        },
        maps,
        reader,
    })
}

/// Memory ran out before a page was taken.
pub(crate) const NO_MEMORY: CheckError = CheckError {
    page: 1,
    fault: Fault::NoMemory,
};

/// Checks the pages of a snapshot, as `check` does.
fn check_snapshot<V: Snapshot, S: PageSource, T: Visitor>(
    alloc: Global,
    source: &mut S,
    visitor: &mut T,
    options: Options,
) -> Result<Report, CheckError>
    requires judged { V.right ↔ V.judged }
    requires maps { V.maps ≡ options.pointer_maps }
    requires same { IsSourceOf V.Snapshot S.PageSource source.old }
    ensures ok { V.right
        → IfOk result (IsReportOf T.saw options.pointer_maps V.pages V.size visitor.old visitor.new) }
    ensures err { V.right → IfErr result (λ e. UnlessUnread V.given e.fault
        (StandsWith options.pointer_maps V.pages V.size e.fault e.page)) }
    ensures same { IsSourceOf V.Snapshot S.PageSource source.new }
{
    let count = source.count();
    if count == 0 {
        return Err(CheckError {
            page: 1,
            fault: Fault::Magic,
        });
    }
    let size = source.page_size();
    let mut bytes = match vec![in alloc; 0; size.get() as usize] {
        Ok(bytes) => bytes,
        Err(_) => return Err(NO_MEMORY),
    };
    read_page::<V, S>(source, 1, &mut bytes)?;
    let header = judge_header(&bytes, size, options.pointer_maps)?;
    let maps: Maps<V> = match Maps::new(alloc, header.largest_root != 0, size, header.reserved) {
        Ok(maps) => maps,
        Err(_) => return Err(NO_MEMORY),
    };
    let reader: Reader<V> = Reader {
        bytes,
        usable: size.get() - u32::from(header.reserved),
        snapshot: PhantomData,
    };
    match new_walker(alloc, reader, count, maps) {
        Ok(mut walker) => walker.check_pages(alloc, source, visitor, &header),
        Err(_) => Err(NO_MEMORY),
    }
}

/// Whether a database is well formed, and how its pages are used (fileformat2, 1; the order of faults is
/// own). Refused by the first fault, at its page: one of the header at page 1; then one of the freelist, of
/// the schema's tree, of the schema's rows, and of the trees that they name; last PageUnused at the least
/// page that nothing names. Refused by Source where a page could not be read, and by NoMemory.
pub fn check<S: PageSource>(alloc: Global, source: &mut S) -> Result<Report, CheckError>
    // The database is well formed, and the report is its.
    ensures ok { S.reads_right source.old → IfOk result (λ report.
        (w : WellFormed (S.pages source.old) (S.size source.old)) × IsReport (S.pages source.old) w.places
        report) }
    // The condition stands at the page, unless one couldn't be read.
    ensures err { S.reads_right source.old → IfErr result (λ e. UnlessUnread (S.gives_pages source.old) e.fault
        (Stands (S.pages source.old) (S.size source.old) e.fault e.page)) }
    // The database isn't well formed, unless a page couldn't be read or memory ran out.
    ensures none { S.reads_right source.old → IfErr result (λ e. e.fault ≢ Fault.Source → e.fault ≢ Fault.NoMemory
        → ¬ WellFormed (S.pages source.old) (S.size source.old)) }
    ensures keeps { KeepsPages S.pages S.size S.reads_right S.gives_pages source.old source.new }
{
    check_snapshot::<Brand, S, Silent>(alloc, source, &mut Silent, Options::PLAIN)
}

/// Checks a database as `check` does, and where this is asked one of auto-vacuum too. Then its pointer maps and the
/// number at 52 of its header are judged: the entry of a page once the page was found sound, refused by PointerMap at
/// the map; and last the largest root, refused by PointerMap at page 1. The header of another database may not ask for
/// incremental vacuum then (fileformat2, 1.3.12 and 1.8): it is refused by PointerMap at page 1.
pub fn check_with<S: PageSource>(
    alloc: Global,
    source: &mut S,
    options: Options,
) -> Result<Report, CheckError>
    // The database is well formed, and the report is its.
    ensures ok { S.reads_right source.old → IfOk result (λ report.
        (w : WellFormedWith options.pointer_maps (S.pages source.old) (S.size source.old)) ×
        IsReport (S.pages source.old) w.places report) }
    // The condition stands at the page, unless one couldn't be read.
    ensures err { S.reads_right source.old → IfErr result (λ e. UnlessUnread (S.gives_pages source.old) e.fault
        (StandsWith options.pointer_maps (S.pages source.old) (S.size source.old) e.fault e.page)) }
    // The database isn't well formed, unless a page couldn't be read or memory ran out.
    ensures none { S.reads_right source.old → IfErr result (λ e. e.fault ≢ Fault.Source → e.fault ≢ Fault.NoMemory
        → ¬ WellFormedWith options.pointer_maps (S.pages source.old) (S.size source.old)) }
    ensures keeps { KeepsPages S.pages S.size S.reads_right S.gives_pages source.old source.new }
{
    check_snapshot::<Brand, S, Silent>(alloc, source, &mut Silent, options)
}

/// Checks a database as `check` does, and tells a visitor what each page is used for. Where the database is
/// well formed, it is told of each page once. After a refusal it may have been told of some pages.
pub fn visit_pages<S: PageSource, T: Visitor>(
    alloc: Global,
    source: &mut S,
    visitor: &mut T,
) -> Result<Report, CheckError>
    // The database is well formed, the report is its, and the visitor was told of each page once, and its role.
    ensures ok { S.reads_right source.old → IfOk result (λ report.
        (w : WellFormed (S.pages source.old) (S.size source.old)) × IsReport (S.pages source.old) w.places
        report × (visits : List Visit) × Told T.saw visitor.old visits visitor.new ×
        AreRoles (S.pages source.old) (S.size source.old) visits) }
    // The condition stands at the page, unless one couldn't be read.
    ensures err { S.reads_right source.old → IfErr result (λ e. UnlessUnread (S.gives_pages source.old) e.fault
        (Stands (S.pages source.old) (S.size source.old) e.fault e.page)) }
    // The database isn't well formed, unless a page couldn't be read or memory ran out.
    ensures none { S.reads_right source.old → IfErr result (λ e. e.fault ≢ Fault.Source → e.fault ≢ Fault.NoMemory
        → ¬ WellFormed (S.pages source.old) (S.size source.old)) }
    ensures keeps { KeepsPages S.pages S.size S.reads_right S.gives_pages source.old source.new }
{
    check_snapshot::<Brand, S, T>(alloc, source, visitor, Options::PLAIN)
}

/// Checks a database as `check_with` does, and tells a visitor as `visit_pages` does.
pub fn visit_pages_with<S: PageSource, T: Visitor>(
    alloc: Global,
    source: &mut S,
    visitor: &mut T,
    options: Options,
) -> Result<Report, CheckError>
    // The database is well formed, the report is its, and the visitor was told of each page once, and its role.
    ensures ok { S.reads_right source.old → IfOk result (λ report.
        (w : WellFormedWith options.pointer_maps (S.pages source.old) (S.size source.old)) ×
        IsReport (S.pages source.old) w.places report × (visits : List Visit) ×
        Told T.saw visitor.old visits visitor.new × AreRoles (S.pages source.old) (S.size source.old) visits) }
    // The condition stands at the page, unless one couldn't be read.
    ensures err { S.reads_right source.old → IfErr result (λ e. UnlessUnread (S.gives_pages source.old) e.fault
        (StandsWith options.pointer_maps (S.pages source.old) (S.size source.old) e.fault e.page)) }
    // The database isn't well formed, unless a page couldn't be read or memory ran out.
    ensures none { S.reads_right source.old → IfErr result (λ e. e.fault ≢ Fault.Source → e.fault ≢ Fault.NoMemory
        → ¬ WellFormedWith options.pointer_maps (S.pages source.old) (S.size source.old)) }
    ensures keeps { KeepsPages S.pages S.size S.reads_right S.gives_pages source.old source.new }
{
    check_snapshot::<Brand, S, T>(alloc, source, visitor, options)
}
