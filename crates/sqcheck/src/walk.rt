//! The walk over all places (own).
ghost use Rattle.std.specs.Prelude.{◌≡◌, ◌≢◌, ◌<◌, ◌≤◌, ◌∷◌, [], ℕ, List, Bool, reverse, IfOk, IfErr, OnOk, OnErr};
ghost use Rattle.sqpage.specs.declared.fault.Fault.{Fault};
ghost use Rattle.sqcheck.specs.Places.{Spot, HasKind};
ghost use Rattle.sqcheck.specs.internal.Walking.{Takes, TakesOrNot};
ghost use Rattle.sqcheck.specs.internal.Snapshots.{Keeps};
ghost use Rattle.sqcheck.specs.internal.Walking.{Follows, Passes, KeepsWalk, KnowsNext, IsProper, IsRefused};
ghost use Rattle.sqcheck.specs.internal.Walking.{IsRoleBy, LevelAfter};
ghost use Rattle.sqcheck.specs.internal.Agenda.{Walking};
ghost use Rattle.sqcheck.specs.internal.Checking.{Walks};
ghost use Rattle.sqcheck.specs.declared.item.Task.TheVariants.{Node};

use crate::item::{Item, Task};
use crate::node::{Bounds, RawPage, enter};
use crate::role::{Role, Visitor};
use crate::snapshot::Snapshot;
use crate::tree::Tree;
use crate::walker::Walker;
use sqpage::{CheckError, Fault, Kind, PageSource};

/// The deepest level of a tree.
const DEEPEST: u32 = 20;

impl<V: Snapshot> Walker<V> {
    /// Takes a page of a tree and enters it. Refused by Depth where its level is too deep.
    fn follow_node<S: PageSource>(
        &mut self,
        source: &mut S,
        tree: &Tree,
        item: Item,
        bounds: Bounds,
    ) -> Result<Kind, CheckError>
        requires task { item.task ≡ Node bounds.level bounds.low bounds.high }
        requires same { Keeps V.Snapshot S.PageSource source.old }
        ensures ok { V.right → KnowsNext V.pages tree.now item self.old.walk
            → IfOk result (λ kind. HasKind V.pages kind item.page ×
            Follows V.pages tree.now item self.old.uses self.new.uses self.old.walk self.new.walk) }
        ensures behind { V.right → IfOk result (λ kind. HasKind V.pages kind item.page ×
            Passes V.pages tree.now item self.old.walk self.new.walk) }
        ensures err { V.right → IfErr result (IsRefused V.pages tree.now item self.old.uses self.old.walk) }
        ensures level { V.right → LevelAfter V.pages item self.old.walk.leaf_level self.new.walk.leaf_level }
        ensures source { IfErr result (λ e. e.fault ≡ Fault.Source → ¬ V.given) }
        ensures taken { OnOk result (Takes self.old.uses self.new.uses item) }
        ensures takes { TakesOrNot self.old.uses self.new.uses item }
        ensures rows { IfErr result (λ e. e.fault ≢ Fault.SchemaRecord) }
        ensures left { IfErr result (λ e. e.fault ≢ Fault.NoMemory → KeepsWalk self.old.walk self.new.walk) }
        ensures same { Keeps V.Snapshot S.PageSource source.new }
    {
        self.uses.take(item)?;
        if bounds.level > DEEPEST {
            return Err(CheckError {
                page: item.page,
                fault: Fault::Depth,
            });
        }
        self.reader.read(source, item.page)?;
        let raw = RawPage {
            number: item.page,
            bytes: &self.reader.bytes,
            usable: self.reader.usable,
        };
        enter(tree, raw, bounds, &mut self.room, &mut self.walk)
    }

    /// Takes the page of an item and puts what stands in it on the stack. The page's role.
    pub(crate) fn follow<S: PageSource>(
        &mut self,
        source: &mut S,
        tree: &Tree,
        item: Item,
    ) -> Result<Role, CheckError>
        requires same { Keeps V.Snapshot S.PageSource source.old }
        ensures ok { V.right → IsProper item.task → KnowsNext V.pages tree.now item self.old.walk
            → IfOk result (λ role. IsRoleBy V.pages tree.now item role
            × Follows V.pages tree.now item self.old.uses self.new.uses self.old.walk self.new.walk) }
        ensures behind { V.right → IsProper item.task → IfOk result (λ role. IsRoleBy V.pages tree.now item role
            × Passes V.pages tree.now item self.old.walk self.new.walk) }
        ensures err { V.right → IsProper item.task
            → IfErr result (IsRefused V.pages tree.now item self.old.uses self.old.walk) }
        ensures level { V.right → LevelAfter V.pages item self.old.walk.leaf_level self.new.walk.leaf_level }
        ensures source { IfErr result (λ e. e.fault ≡ Fault.Source → ¬ V.given) }
        ensures taken { OnOk result (Takes self.old.uses self.new.uses item) }
        ensures takes { TakesOrNot self.old.uses self.new.uses item }
        ensures rows { IfErr result (λ e. e.fault ≢ Fault.SchemaRecord) }
        ensures left { IfErr result (λ e. e.fault ≢ Fault.NoMemory → KeepsWalk self.old.walk self.new.walk) }
        ensures same { Keeps V.Snapshot S.PageSource source.new }
    {
        match item.task {
            Task::Trunk => {
                self.follow_trunk(source, item)?;
                Ok(Role::FreeTrunk)
            }
            Task::Leaf => {
                self.uses.take(item)?;
                Ok(Role::FreeLeaf)
            }
            Task::Link { owner, needed, .. } => {
                self.follow_link(source, item, owner, needed)?;
                Ok(Role::Overflow { owner })
            }
            Task::Node { level, low, high } => {
                let kind = self.follow_node(source, tree, item, Bounds { level, low, high })?;
                Ok(Role::Btree {
                    kind,
                    root: tree.root,
                })
            }
        }
    }

    /// Follows the places on the stack, and all that stand in the pages that they name. Tells the visitor of
    /// each page. Refused by PointerMap where an entry doesn't say what names its page.
    pub fn walk_on<S: PageSource, T: Visitor>(
        &mut self,
        source: &mut S,
        visitor: &mut T,
        tree: &Tree,
    ) -> Result<(), CheckError>
        requires same { Keeps V.Snapshot S.PageSource source.old }
        ensures walks { V.right × V.judged → (late : Bool) (visited rest : List Spot)
            → Walking V.pages late tree.now visited rest self.old.uses self.old.walk
            → Walks V.Snapshot T.saw result late visited rest self.new.uses self.new.walk visitor.old visitor.new }
        ensures same { Keeps V.Snapshot S.PageSource source.new }
    {
        'places: while let Some(item) = self.walk.stack.pop() {
            let role = self.follow(source, tree, item)?;
            self.maps.judge(source, item)?;
            visitor.visit(item.page, role);
        }
        Ok(())
    }
}
