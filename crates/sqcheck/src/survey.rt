//! A map of a database file, also of a damaged one (own).
ghost use Rattle.std.specs.Prelude.{◌≡◌, ◌↔◌, ◌⊎◌, ◌-◌, ◌≢◌, ◌<◌, ◌≤◌, ◌∷◌, [], length, true, false, not, count_by};
ghost use Rattle.std.specs.Prelude.{Bool, List, None, Some, IsTrue, Err, IfOk, IfErr, IfSome, OnOk};
ghost use Rattle.sqval.specs.Bytes.{word};
ghost use Rattle.sqval.specs.Database.{Database, page};
ghost use Rattle.sqpage.specs.Freelist.{IsPage, usable_size, first_trunk, free_pages};
ghost use Rattle.sqpage.specs.Source.{KeepsPages, UnlessUnread};
ghost use Rattle.sqpage.specs.Header.{byte};
ghost use Rattle.sqpage.specs.Page.{code_of};
ghost use Rattle.sqpage.specs.declared.fault.CheckError.{CheckError};
ghost use Rattle.sqpage.specs.declared.fault.Fault.{Fault};
ghost use Rattle.sqpage.specs.declared.kind.Kind.{Kind};
ghost use Rattle.sqcheck.specs.Surveys.{FindsClean, FindsDamaged, SurveyRefused};
ghost use Rattle.sqcheck.specs.Surveys.{AreFoundRoles, AreFoundFaults};
ghost use Rattle.sqcheck.specs.Surveys.{FindsCleanWith, FindsDamagedWith, SurveyRefusedWith};
ghost use Rattle.sqcheck.specs.internal.Charting.{ArePutDown};
ghost use Rattle.sqcheck.specs.internal.Surveys.{AreSetDown, Ends, IsEnd, IsReserved, KnowsReserved};
ghost use Rattle.sqcheck.specs.internal.Surveys.{Charts};
ghost use Rattle.sqcheck.specs.internal.Snapshots.{IsSourceOf, Keeps};
ghost use Rattle.sqcheck.specs.internal.Found.{IsItemFound, HasFound, HasAll};
ghost use Rattle.sqcheck.specs.internal.Found.{AreFound, ComesNext, Begins, TellsLargest};
ghost use Rattle.sqcheck.specs.internal.Found.{TellsFound, IsFreeCount, IsHeaderNamed, IsSurveyed, HasNoFree, PutsRole};
ghost use Rattle.sqcheck.specs.internal.Schema.{IsRootAt, RootsMatch};
ghost use Rattle.sqcheck.specs.internal.Walking.{IsItemOf, KeepsWalk, role_of};
ghost use Rattle.sqcheck.specs.Found.{IsRoleIn, leaf_of};
ghost use Rattle.sqcheck.specs.Places.{HasKind, Spot, first_root_spot};
ghost use Rattle.sqcheck.specs.declared.chart.Chart.{Chart};
ghost use Rattle.sqcheck.specs.declared.tree.Tree.{Tree};
ghost use Rattle.sqcheck.specs.WellFormed.{HasSoundHeader};

use crate::chart::Chart;
use crate::checker::{NO_MEMORY, NO_TREE, ROOT, SCHEMA_TREE, new_walker, visit_pages_with};
use crate::header::judge_header;
use crate::item::{Item, Task, push};
use crate::maps::Maps;
use crate::options::Options;
use crate::pages::{read_page, word_at};
use crate::report::Report;
use crate::role::{Role, Visitor};
use crate::schema::Root;
use crate::snapshot::Snapshot;
use crate::survey_rows::sound_roots;
use crate::tree::Tree;
use crate::walker::{Reader, Walker};
use sqpage::{CheckError, Fault, Kind, PageSource};
use sqval::PageSize;
use std::alloc::Global;
use std::marker::{Brand, PhantomData};

/// What the pages of a database are used for, and what is wrong with it.
#[derive(Drop)]
pub struct Survey {
    /// By page, from 1: its role, by the first place that names it.
    pub roles: Vec<Role>,
    /// The faults, in the order of the walk, at most 1,000,000 of them.
    pub faults: Vec<CheckError>,
    /// What `check` answers.
    pub answer: Result<Report, CheckError>,
}

/// Where the walk begins, as the bytes of page 1 say, also where the header isn't sound.
#[derive(Clone, Copy, Debug)]
struct Start {
    /// How much of each page is used, and how much isn't.
    usable: u32,
    reserved: u8,
    first_trunk: u32,
    free_pages: u32,
    /// 0 where the database isn't one of auto-vacuum.
    largest_root: u32,
}

/// Reads where the walk begins. None where too little of each page is used.
fn start_in(bytes: &[u8]) -> Option<Start>
    requires large { 512 ≤ length bytes.now }
    requires most { length bytes.now ≤ 65536 }
    ensures usable { IfSome result (λ start. (start.usable ≡ length bytes.now - byte bytes.now 20) ×
        (480 ≤ start.usable)) }
    ensures first { IfSome result (λ start. (start.first_trunk ≡ word bytes.now 32)
        × (start.free_pages ≡ word bytes.now 36)) }
    ensures maps { IfSome result (λ start. (start.reserved ≡ byte bytes.now 20)
        × (start.largest_root ≡ word bytes.now 52)) }
    ensures none { result ≡ None → length bytes.now - byte bytes.now 20 < 480 }
{
    let usable = bytes.len() as u32 - u32::from(bytes[20]);
    if usable < 480 {
        return None;
    }
    Some(Start {
        usable,
        reserved: bytes[20],
        first_trunk: word_at(bytes, 32),
        free_pages: word_at(bytes, 36),
        largest_root: word_at(bytes, 52),
    })
}

/// Whether pointer maps are asked for of a database that has some.
fn has_maps(options: Options, start: Start) -> bool
    ensures only { result ≡ true → (options.pointer_maps ≡ true) × (start.largest_root ≢ 0) }
    ensures all { options.pointer_maps ≡ true → start.largest_root ≢ 0 → result ≡ true }
{
    options.pointer_maps && start.largest_root != 0
}

/// Whether a survey doesn't go on behind a fault.
fn is_end(fault: Fault) -> bool
    ensures { IsTrue result ↔ (fault ≡ Fault.Magic) ⊎ IsEnd fault }
{
    match fault {
        Fault::Magic | Fault::Source | Fault::NoMemory => true,
        _ => false,
    }
}

/// The kind of a page of a tree with this type byte. One that is none counts as that of a leaf.
fn kind_or_leaf(byte: u8, table: bool) -> Kind
    ensures { (byte ≡ code_of result) ⊎ (((kind : Kind) → byte ≢ code_of kind) × (result ≡ leaf_of table)) }
{
    match Kind::of(byte) {
        Some(kind) => kind,
        None => if table {
            Kind::TableLeaf
        } else {
            Kind::IndexLeaf
        },
    }
}

impl<V: Snapshot> Reader<V> {
    /// The kind that a page counts as in a tree.
    fn kind_in_tree<S: PageSource>(
        &mut self,
        source: &mut S,
        page: u32,
        table: bool,
    ) -> Result<Kind, CheckError>
        requires page { IsPage V.pages page }
        requires same { Keeps V.Snapshot S.PageSource source.old }
        ensures ok { V.right → IfOk result (λ kind. HasKind V.pages kind page
            ⊎ (((other : Kind) → ¬ HasKind V.pages other page) × (kind ≡ leaf_of table))) }
        ensures source { IfErr result (λ e. (e.fault ≡ Fault.Source) × ¬ V.given) }
        ensures usable { self.new.usable ≡ self.old.usable }
        ensures same { Keeps V.Snapshot S.PageSource source.new }
    {
        self.read(source, page)?;
        let head = if page == 1 { 100 } else { 0 };
        Ok(kind_or_leaf(self.bytes[head], table))
    }

    /// The role in which an item names its page. Where the type byte of a page of a tree is none, it counts as a leaf.
    fn role_named<S: PageSource>(
        &mut self,
        source: &mut S,
        tree: &Tree,
        item: Item,
    ) -> Result<Role, CheckError>
        requires page { IsPage V.pages item.page }
        requires same { Keeps V.Snapshot S.PageSource source.old }
        ensures ends { IfErr result (λ e. Ends V.given e.fault) }
        ensures role { V.right → IfOk result (IsRoleIn V.pages item.page (role_of tree.now item.task)) }
        ensures usable { self.new.usable ≡ self.old.usable }
        ensures same { Keeps V.Snapshot S.PageSource source.new }
    {
        match item.task {
            Task::Trunk => Ok(Role::FreeTrunk),
            Task::Leaf => Ok(Role::FreeLeaf),
            Task::Link { owner, .. } => Ok(Role::Overflow { owner }),
            Task::Node { .. } => {
                let kind = self.kind_in_tree(source, item.page, tree.table)?;
                Ok(Role::Btree {
                    kind,
                    root: tree.root,
                })
            }
        }
    }
}

impl<V: Snapshot> Maps<V> {
    /// Puts down what the page of an item is used for, and tells where its entry in a pointer map says otherwise.
    fn put_down<S: PageSource>(
        &mut self,
        source: &mut S,
        chart: &mut Chart,
        item: Item,
        role: Role,
    ) -> Result<(), CheckError>
        requires page { IsPage V.pages item.page }
        requires same { Keeps V.Snapshot S.PageSource source.old }
        ensures ends { IfErr result (λ e. Ends V.given e.fault) }
        ensures long { length chart.new.roles.items ≡ length chart.old.roles.items }
        ensures put { OnOk result (Charts chart.old.roles.items item.page role chart.new.roles.items) }
        ensures tells { V.right → (tree : Tree) → IsItemFound V.pages tree item → OnOk result
            (TellsFound V.maps V.pages V.size chart.old.faults.items chart.new.faults.items) }
        ensures same { Keeps V.Snapshot S.PageSource source.new }
    {
        chart.put(item.page, role);
        match self.judge(source, item) {
            Ok(()) => Ok(()),
            Err(error) => chart.tell(error),
        }
    }
}

impl<V: Snapshot> Walker<V> {
    /// Puts down the page of an item that was taken, but can't be followed.
    fn put_refused<S: PageSource>(
        &mut self,
        source: &mut S,
        chart: &mut Chart,
        tree: &Tree,
        item: Item,
    ) -> Result<(), CheckError>
        requires page { IsPage V.pages item.page }
        requires same { Keeps V.Snapshot S.PageSource source.old }
        ensures ends { IfErr result (λ e. Ends V.given e.fault) }
        ensures long { length chart.new.roles.items ≡ length chart.old.roles.items }
        ensures put { V.right → OnOk result
            (PutsRole V.pages item.page (role_of tree.now item.task) chart.old.roles.items chart.new.roles.items) }
        ensures tells { V.right → (named : Tree) → IsItemFound V.pages named item → OnOk result
            (TellsFound V.maps V.pages V.size chart.old.faults.items chart.new.faults.items) }
        ensures walk { (self.new.walk ≡ self.old.walk) × (self.new.uses ≡ self.old.uses) }
        ensures same { Keeps V.Snapshot S.PageSource source.new }
    {
        let role = self.reader.role_named(source, tree, item)?;
        self.maps.put_down(source, chart, item, role)
    }

    /// Follows an item, and puts down what its page is used for. Tells why it can't be followed. Whether it can.
    fn step<S: PageSource>(
        &mut self,
        source: &mut S,
        chart: &mut Chart,
        tree: &Tree,
        item: Item,
    ) -> Result<bool, CheckError>
        requires same { Keeps V.Snapshot S.PageSource source.old }
        ensures ends { IfErr result (λ e. Ends V.given e.fault) }
        ensures long { length chart.new.roles.items ≡ length chart.old.roles.items }
        ensures found { V.right → (first : Chart) (bars : List Bool) (counted late : Bool) (rest : List Spot)
            → ComesNext V.maps V.pages V.size first bars counted late rest tree.now item self.old.uses self.old.walk
            chart.old → OnOk result (AreFound V.maps V.pages V.size first bars counted late rest tree.now
            self.new.uses self.new.walk chart.new) }
        ensures left { IfOk result (λ on. on ≡ false → KeepsWalk self.old.walk self.new.walk) }
        ensures fewer { IfOk result (λ on. on ≡ true
            → count_by not self.new.uses.marks.items < count_by not self.old.uses.marks.items) }
        ensures no_more { count_by not self.new.uses.marks.items ≤ count_by not self.old.uses.marks.items }
        ensures same { Keeps V.Snapshot S.PageSource source.new }
    {
        let before = self.uses.is_taken(item.page);
        match self.follow(source, tree, item) {
            Ok(role) => {
                self.maps.put_down(source, chart, item, role)?;
                Ok(true)
            }
            Err(error) => {
                chart.tell(error)?;
                if !before && self.uses.is_taken(item.page) {
                    self.put_refused(source, chart, tree, item)?;
                }
                Ok(false)
            }
        }
    }

    /// Follows the places on the stack until one of them leads to a page that is sound. Tells of those that don't.
    /// Whether there was one.
    fn advance<S: PageSource>(
        &mut self,
        source: &mut S,
        chart: &mut Chart,
        tree: &Tree,
    ) -> Result<bool, CheckError>
        requires same { Keeps V.Snapshot S.PageSource source.old }
        ensures ends { IfErr result (λ e. Ends V.given e.fault) }
        ensures long { length chart.new.roles.items ≡ length chart.old.roles.items }
        ensures found { V.right → (first : Chart) (bars : List Bool) (counted late : Bool) (rest : List Spot)
            → AreFound V.maps V.pages V.size first bars counted late rest tree.now self.old.uses self.old.walk
            chart.old → OnOk result (AreFound V.maps V.pages V.size first bars counted late rest tree.now
            self.new.uses self.new.walk chart.new) }
        ensures fewer { IfOk result (λ on. on ≡ true
            → count_by not self.new.uses.marks.items < count_by not self.old.uses.marks.items) }
        ensures all { IfOk result (λ on. on ≡ false → self.new.walk.stack.items ≡ []) }
        ensures same { Keeps V.Snapshot S.PageSource source.new }
    {
        'places: while let Some(item) = self.walk.stack.pop() {
            if self.step(source, chart, tree, item)? {
                return Ok(true);
            }
        }
        Ok(false)
    }

    /// Follows a place, and all that stand in the pages that it leads to, also behind faults.
    fn survey_from<S: PageSource>(
        &mut self,
        source: &mut S,
        chart: &mut Chart,
        tree: &Tree,
        item: Item,
    ) -> Result<(), CheckError>
        requires same { Keeps V.Snapshot S.PageSource source.old }
        ensures ends { IfErr result (λ e. Ends V.given e.fault) }
        ensures long { length chart.new.roles.items ≡ length chart.old.roles.items }
        ensures found { V.right → (first : Chart) (bars : List Bool) (counted late : Bool) (rest : List Spot) (s : Spot)
            → IsItemOf tree.now item s
            → HasFound V.maps V.pages V.size first bars counted late (s ∷ rest) self.old.uses self.old.walk chart.old
            → OnOk result (HasFound V.maps V.pages V.size first bars counted late rest self.new.uses self.new.walk
            chart.new) }
        ensures same { Keeps V.Snapshot S.PageSource source.new }
    {
        self.walk.leaf_level = None;
        self.walk.stack.clear();
        push(&mut self.walk.stack, item)?;
        'pages: while self.advance(source, chart, tree)? {}
        Ok(())
    }

    /// Follows the trunks of the freelist, also behind faults.
    fn survey_trunks<S: PageSource>(
        &mut self,
        source: &mut S,
        chart: &mut Chart,
        first: u32,
    ) -> Result<(), CheckError>
        requires same { Keeps V.Snapshot S.PageSource source.old }
        ensures ends { IfErr result (λ e. Ends V.given e.fault) }
        ensures long { length chart.new.roles.items ≡ length chart.old.roles.items }
        ensures found { V.right → first ≡ first_trunk V.pages
            → Begins V.maps V.pages V.size self.old.uses self.old.walk chart.old
            → OnOk result (HasFound V.maps V.pages V.size chart.old self.old.uses.marks.items false false
            (first_root_spot ∷ []) self.new.uses self.new.walk chart.new) }
        ensures same { Keeps V.Snapshot S.PageSource source.new }
    {
        if first == 0 {
            return Ok(());
        }
        let item = Item {
            holder: 1,
            page: first,
            task: Task::Trunk,
        };
        self.survey_from(source, chart, &NO_TREE, item)
    }

    /// Tells where as many pages are not free as the header says.
    fn survey_free_count(&self, chart: &mut Chart, said: u32) -> Result<(), CheckError>
        ensures same { chart.new.roles.items ≡ chart.old.roles.items }
        ensures tells { OnOk result (((self.now.uses.counts.free ≡ said)
            × (chart.new.faults.items ≡ chart.old.faults.items))
            ⊎ ((e : CheckError) × (self.now.uses.counts.free ≢ said) × IsFreeCount e
            × ArePutDown chart.old.faults.items (e ∷ []) chart.new.faults.items)) }
        ensures ends { IfErr result (λ e. e.fault ≡ Fault.NoMemory) }
    {
        match self.judge_free_count(said) {
            Ok(()) => Ok(()),
            Err(error) => chart.tell(error),
        }
    }

    /// Follows the freelist and the schema's tree, also behind faults.
    fn survey_first<S: PageSource>(
        &mut self,
        source: &mut S,
        chart: &mut Chart,
        start: &Start,
    ) -> Result<(), CheckError>
        requires same { Keeps V.Snapshot S.PageSource source.old }
        ensures ends { IfErr result (λ e. Ends V.given e.fault) }
        ensures long { length chart.new.roles.items ≡ length chart.old.roles.items }
        ensures found { V.right → start.now.first_trunk ≡ first_trunk V.pages
            → start.now.free_pages ≡ free_pages V.pages
            → Begins V.maps V.pages V.size self.old.uses self.old.walk chart.old
            → OnOk result (HasFound V.maps V.pages V.size chart.old self.old.uses.marks.items true false []
            self.new.uses self.new.walk chart.new) }
        ensures same { Keeps V.Snapshot S.PageSource source.new }
    {
        self.survey_trunks(source, chart, start.first_trunk)?;
        self.survey_free_count(chart, start.free_pages)?;
        let first = Item {
            holder: 1,
            page: 1,
            task: ROOT,
        };
        self.survey_from(source, chart, &SCHEMA_TREE, first)
    }

    /// Follows the tree of a root, also behind faults.
    fn survey_root<S: PageSource>(
        &mut self,
        source: &mut S,
        chart: &mut Chart,
        root: Root,
    ) -> Result<(), CheckError>
        requires same { Keeps V.Snapshot S.PageSource source.old }
        ensures ends { IfErr result (λ e. Ends V.given e.fault) }
        ensures long { length chart.new.roles.items ≡ length chart.old.roles.items }
        ensures found { V.right → (first : Chart) (bars : List Bool) (rest : List Spot) (s : Spot)
            → IsRootAt V.pages root s
            → HasFound V.maps V.pages V.size first bars true true (s ∷ rest) self.old.uses self.old.walk chart.old
            → OnOk result (HasFound V.maps V.pages V.size first bars true true rest self.new.uses self.new.walk
            chart.new) }
        ensures same { Keeps V.Snapshot S.PageSource source.new }
    {
        if root.page == 0 || root.page > u64::from(source.count()) {
            return chart.tell(CheckError {
                page: root.holder,
                fault: Fault::PageOutside,
            });
        }
        let page = root.page as u32;
        let table = self.reader.names_table(source, page)?;
        let tree = Tree {
            root: page,
            table,
            schema: false,
        };
        let item = Item {
            holder: root.holder,
            page,
            task: ROOT,
        };
        self.survey_from(source, chart, &tree, item)
    }

    /// Follows the trees of the roots, in their order, also behind faults.
    fn survey_roots<S: PageSource>(
        &mut self,
        source: &mut S,
        chart: &mut Chart,
        roots: &[Root],
    ) -> Result<(), CheckError>
        requires same { Keeps V.Snapshot S.PageSource source.old }
        ensures ends { IfErr result (λ e. Ends V.given e.fault) }
        ensures long { length chart.new.roles.items ≡ length chart.old.roles.items }
        ensures found { V.right → (first : Chart) (bars : List Bool) (spots : List Spot)
            → RootsMatch V.pages roots.now spots
            → HasFound V.maps V.pages V.size first bars true true spots self.old.uses self.old.walk chart.old
            → OnOk result (HasFound V.maps V.pages V.size first bars true true [] self.new.uses self.new.walk
            chart.new) }
        ensures same { Keeps V.Snapshot S.PageSource source.new }
    {
        'roots: for root in roots {
            self.survey_root(source, chart, *root)?;
        }
        Ok(())
    }

    /// Follows the trees of the roots that the sound rows of the schema name, also behind faults.
    fn survey_others<S: PageSource>(
        &mut self,
        alloc: Global,
        source: &mut S,
        chart: &mut Chart,
    ) -> Result<(), CheckError>
        requires same { Keeps V.Snapshot S.PageSource source.old }
        ensures ends { IfErr result (λ e. Ends V.given e.fault) }
        ensures long { length chart.new.roles.items ≡ length chart.old.roles.items }
        ensures found { V.right → (first : Chart) (bars : List Bool)
            → HasFound V.maps V.pages V.size first bars true false [] self.old.uses self.old.walk chart.old
            → OnOk result (HasFound V.maps V.pages V.size first bars true true [] self.new.uses self.new.walk
            chart.new) }
        ensures same { Keeps V.Snapshot S.PageSource source.new }
    {
        let roots = sound_roots(alloc, source, &mut self.reader, chart, &self.walk.rows)?;
        self.survey_roots(source, chart, &roots)
    }

    /// Tells where the largest root isn't the one that the header says, of a database with pointer maps.
    fn survey_largest_root(&self, chart: &mut Chart, said: u32) -> Result<(), CheckError>
        ensures same { chart.new.roles.items ≡ chart.old.roles.items }
        ensures tells { V.right → said ≡ word (page V.pages 1) 52 → OnOk result
            (TellsLargest V.maps V.pages self.now.uses chart.old.faults.items chart.new.faults.items) }
        ensures ends { IfErr result (λ e. e.fault ≡ Fault.NoMemory) }
    {
        match self.judge_largest_root(said) {
            Ok(()) => Ok(()),
            Err(error) => chart.tell(error),
        }
    }

    /// Follows all places, also behind faults.
    fn survey_all<S: PageSource>(
        &mut self,
        alloc: Global,
        source: &mut S,
        chart: &mut Chart,
        start: &Start,
    ) -> Result<(), CheckError>
        requires same { Keeps V.Snapshot S.PageSource source.old }
        ensures ends { IfErr result (λ e. Ends V.given e.fault) }
        ensures long { length chart.new.roles.items ≡ length chart.old.roles.items }
        ensures found { V.right → start.now.first_trunk ≡ first_trunk V.pages
            → start.now.free_pages ≡ free_pages V.pages
            → start.now.largest_root ≡ word (page V.pages 1) 52
            → Begins V.maps V.pages V.size self.old.uses self.old.walk chart.old
            → OnOk result (HasAll V.maps V.pages V.size chart.old self.old.uses.marks.items
            self.new.uses self.new.walk chart.new) }
        ensures same { Keeps V.Snapshot S.PageSource source.new }
    {
        self.survey_first(source, chart, start)?;
        self.survey_others(alloc, source, chart)?;
        self.survey_largest_root(chart, start.largest_root)
    }
}

/// Tells what is wrong with the header in the bytes of page 1.
fn survey_header(
    chart: &mut Chart,
    bytes: &[u8],
    size: PageSize,
    options: Options,
) -> Result<(), CheckError>
    requires size { size ≡ length bytes.now }
    requires large { 512 ≤ size }
    ensures same { chart.new.roles.items ≡ chart.old.roles.items }
    ensures tells { (d : Database) → bytes.now ≡ page d 1 → OnOk result
        (TellsFound options.pointer_maps d size chart.old.faults.items chart.new.faults.items) }
    ensures header { (d : Database) → bytes.now ≡ page d 1 → OnOk result
        ((¬ HasSoundHeader options.pointer_maps d size) → IsHeaderNamed chart.new.faults.items) }
    ensures ends { IfErr result (λ e. e.fault ≡ Fault.NoMemory) }
{
    match judge_header(bytes, size, options.pointer_maps) {
        Ok(_) => Ok(()),
        Err(error) => chart.tell(error),
    }
}

/// Surveys the pages of a snapshot behind faults. Whether they can be walked over.
fn survey_snapshot<V: Snapshot, S: PageSource>(
    alloc: Global,
    source: &mut S,
    chart: &mut Chart,
    options: Options,
) -> Result<bool, CheckError>
    requires unjudged { ¬ V.judged }
    requires maps { V.maps ≡ options.pointer_maps }
    requires none { chart.old.faults.items ≡ [] }
    requires same { IsSourceOf V.Snapshot S.PageSource source.old }
    ensures not { V.right → IfOk result (λ walked. walked ≡ false → usable_size V.pages < 480) }
    ensures found { V.right → length chart.old.roles.items ≡ length V.pages
        → HasNoFree V.pages chart.old.roles.items → IfOk result (λ walked. walked ≡ true
        → IsSurveyed V.maps V.pages V.size chart.old.roles.items chart.new.roles.items chart.new.faults.items) }
    ensures ends { IfErr result (λ e. Ends V.given e.fault) }
    ensures long { length chart.new.roles.items ≡ length chart.old.roles.items }
    ensures same { IsSourceOf V.Snapshot S.PageSource source.new }
{
    let count = source.count();
    if count == 0 {
        return Ok(false);
    }
    let size = source.page_size();
    let mut bytes = match vec![in alloc; 0; size.get() as usize] {
        Ok(bytes) => bytes,
        Err(_) => return Err(NO_MEMORY),
    };
    read_page::<V, S>(source, 1, &mut bytes)?;
    let Some(start) = start_in(&bytes) else {
        return Ok(false);
    };
    survey_header(chart, &bytes, size, options)?;
    let used = has_maps(options, start);
    let maps: Maps<V> = match Maps::new(alloc, used, size, start.reserved) {
        Ok(maps) => maps,
        Err(_) => return Err(NO_MEMORY),
    };
    let reader: Reader<V> = Reader {
        bytes,
        usable: start.usable,
        snapshot: PhantomData,
    };
    let mut walker = match new_walker(alloc, reader, count, maps) {
        Ok(walker) => walker,
        Err(_) => return Err(NO_MEMORY),
    };
    walker.survey_all(alloc, source, chart, &start)?;
    chart.tell_unused()?;
    Ok(true)
}

/// How many bytes at the end of each page aren't used, as page 1 of a database of auto-vacuum says (fileformat2, 1.3.4
/// and 1.3.12). None of another database.
fn reserved_in(bytes: &[u8]) -> Option<u8>
    requires { 512 ≤ length bytes.now }
    ensures only { IfSome result (λ n. (word bytes.now 52 ≢ 0) × (n ≡ byte bytes.now 20)) }
    ensures some { word bytes.now 52 ≢ 0 → result ≡ Some (byte bytes.now 20) }
{
    if word_at(bytes, 52) == 0 {
        return None;
    }
    Some(bytes[20])
}

/// The same of a database whose pointer maps are asked for, which is read for it. Refused by Source and NoMemory.
fn reserved_by_maps<S: PageSource>(
    alloc: Global,
    source: &mut S,
    options: Options,
) -> Result<Option<u8>, CheckError>
    ensures known { S.reads_right source.old → options.pointer_maps ≡ true
        → IfOk result (KnowsReserved (S.pages source.old) (S.size source.old)) }
    ensures only { S.reads_right source.old → IfOk result (λ reserved. IfSome reserved
        (IsReserved (S.pages source.old) (S.size source.old))) }
    ensures ends { IfErr result (λ e. Ends (S.gives_pages source.old) e.fault) }
    ensures keeps { KeepsPages S.pages S.size S.reads_right S.gives_pages source.old source.new }
{
    if !options.pointer_maps || source.count() == 0 {
        return Ok(None);
    }
    let mut bytes = match vec![in alloc; 0; source.page_size().get() as usize] {
        Ok(bytes) => bytes,
        Err(_) => return Err(NO_MEMORY),
    };
    if source.page(1, &mut bytes).is_err() {
        return Err(CheckError {
            page: 1,
            fault: Fault::Source,
        });
    }
    Ok(reserved_in(&bytes))
}

/// A chart of the pages of a source on which those are put down that are set aside, and nothing else.
fn first_chart<S: PageSource>(
    alloc: Global,
    source: &S,
    reserved: Option<u8>,
) -> Result<Chart, CheckError>
    ensures set { IfOk result (λ chart. AreSetDown (length (S.pages source.now)) (S.size source.now) reserved
        chart.roles.items) }
    ensures none { IfOk result (λ chart. chart.faults.items ≡ []) }
    ensures ends { IfErr result (λ e. e.fault ≡ Fault.NoMemory) }
{
    match Chart::new(alloc, source.count(), source.page_size(), reserved) {
        Ok(chart) => Ok(chart),
        Err(_) => Err(NO_MEMORY),
    }
}

/// Surveys a database in which `check_with` finds this fault first.
fn survey_behind<S: PageSource>(
    alloc: Global,
    source: &mut S,
    first: CheckError,
    options: Options,
) -> Result<Survey, CheckError>
    ensures answer { IfOk result (λ survey. (survey.answer ≡ Err first) × ¬ IsEnd first.fault) }
    ensures err { S.reads_right source.old → IfErr result (λ e. (e.fault ≡ Fault.NoMemory)
        ⊎ ((e.fault ≡ Fault.Source) × ¬ S.gives_pages source.old) ⊎ ((e ≡ first) × ((first.fault ≡ Fault.Magic)
        ⊎ (first.fault ≡ Fault.Source) ⊎ (usable_size (S.pages source.old) < 480)))) }
    ensures roles { S.reads_right source.old
        → IfOk result (λ survey. AreFoundRoles (S.pages source.old) (S.size source.old) survey.roles.items) }
    ensures faults { S.reads_right source.old → IfOk result (λ survey. AreFoundFaults options.pointer_maps
        (S.pages source.old) (S.size source.old) survey.roles.items survey.faults.items) }
    ensures each { IfOk result (λ survey. length survey.roles.items ≡ length (S.pages source.old)) }
    ensures keeps { KeepsPages S.pages S.size S.reads_right S.gives_pages source.old source.new }
{
    if is_end(first.fault) {
        return Err(first);
    }
    let reserved = reserved_by_maps(alloc, source, options)?;
    let mut chart = first_chart(alloc, source, reserved)?;
    if !survey_snapshot::<Brand, S>(alloc, source, &mut chart, options)? {
        return Err(first);
    }
    Ok(Survey {
        roles: chart.roles,
        faults: chart.faults,
        answer: Err(first),
    })
}

/// What `check` finds, and what each page of a database is used for, also of a damaged one (own). The walk is that of
/// `check`, and goes on behind faults: each page has the role of the first place that names it, whatever is wrong with
/// the page, and Unused where none does. A page of a tree whose type byte is none counts as a leaf. Nothing is followed
/// in a page that is wrong in its role, or from a row of the schema that is none, or whose chain isn't charted as its
/// own. `faults` has those of the header, of each place and of each row, and PageUnused of each page that is unused.
/// Once a page of a tree is wrong, Depth is told of leaves that aren't on the level of the first one so far that is of
/// the tree's kind.
///
/// Refused by the first fault where page 1 is none of a database, or leaves fewer than 480 bytes of a page to be used;
/// by Source where a page could not be read, and by NoMemory.
pub fn survey_pages<S: PageSource>(alloc: Global, source: &mut S) -> Result<Survey, CheckError>
    // Where the database is well formed, it finds so, without a fault, and the roles are those of the pages.
    ensures clean { S.reads_right source.old
        → IfOk result (FindsClean (S.pages source.old) (S.size source.old)) }
    // Otherwise its answer is a fault that stands at its page.
    ensures damaged { S.reads_right source.old
        → IfOk result (FindsDamaged (S.pages source.old) (S.size source.old)) }
    // There is none by its first fault, unless a page couldn't be read.
    ensures refused { S.reads_right source.old → IfErr result (λ e. UnlessUnread (S.gives_pages source.old) e.fault
        (SurveyRefused (S.pages source.old) (S.size source.old) e.fault e.page)) }
    // Each page has one role.
    ensures each { S.reads_right source.old
        → IfOk result (λ survey. length survey.roles.items ≡ length (S.pages source.old)) }
    ensures keeps { KeepsPages S.pages S.size S.reads_right S.gives_pages source.old source.new }
{
    survey_pages_with(alloc, source, Options::PLAIN)
}

/// Surveys a database as `survey_pages` does, by the walk of `check_with`: where this is asked one of auto-vacuum too,
/// with its pointer maps (fileformat2, 1.8). Then each of these has the role PointerMap, whatever names it, and
/// `faults` has PointerMap at the map of each page that has a role and an entry that isn't what names the page first.
pub fn survey_pages_with<S: PageSource>(
    alloc: Global,
    source: &mut S,
    options: Options,
) -> Result<Survey, CheckError>
    // Where the database is well formed, it finds so, without a fault, and the roles are those of the pages.
    ensures clean { S.reads_right source.old → IfOk result
        (FindsCleanWith options.pointer_maps (S.pages source.old) (S.size source.old)) }
    // Otherwise its answer is a fault that stands at its page.
    ensures damaged { S.reads_right source.old → IfOk result
        (FindsDamagedWith options.pointer_maps (S.pages source.old) (S.size source.old)) }
    // There is none by its first fault, unless a page couldn't be read.
    ensures refused { S.reads_right source.old → IfErr result (λ e. UnlessUnread (S.gives_pages source.old) e.fault
        (SurveyRefusedWith options.pointer_maps (S.pages source.old) (S.size source.old) e.fault e.page)) }
    // Each page has one role.
    ensures each { S.reads_right source.old
        → IfOk result (λ survey. length survey.roles.items ≡ length (S.pages source.old)) }
    ensures keeps { KeepsPages S.pages S.size S.reads_right S.gives_pages source.old source.new }
{
    let reserved = reserved_by_maps(alloc, source, options)?;
    let mut chart = first_chart(alloc, source, reserved)?;
    match visit_pages_with(alloc, source, &mut chart, options) {
        Ok(report) => Ok(Survey {
            roles: chart.roles,
            faults: Vec::new(alloc),
            answer: Ok(report),
        }),
        Err(first) => survey_behind(alloc, source, first, options),
    }
}
