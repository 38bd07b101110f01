//! Trunks of the freelist, and links of overflow chains (fileformat2, 1.5 and 1.7).
ghost use Rattle.std.specs.Prelude.{◌≡◌, ◌≢◌, ◌+◌, ◌-◌, ◌*◌, ◌/◌, ◌<◌, ◌≤◌, ◌∷◌, ℕ, Bool, length, reverse, IfErr, OnOk};
ghost use Rattle.std.specs.Prelude.{OnErr};
ghost use Rattle.sqpage.specs.Freelist.{leaf_count_in};
ghost use Rattle.sqpage.specs.declared.fault.Fault.{Fault};
ghost use Rattle.sqcheck.specs.internal.Walking.{Pushes, IsNextTrunk, IsLeafFrom, Follows, KnowsNext};
ghost use Rattle.sqcheck.specs.internal.Walking.{IsRefusal, KeepsLead, KeepsWalk, Passes};
ghost use Rattle.sqcheck.specs.internal.Walking.{Takes, TakesOrNot};
ghost use Rattle.sqcheck.specs.internal.Snapshots.{Keeps};
ghost use Rattle.sqcheck.specs.declared.item.Task.TheVariants.{Trunk, Link};
ghost use Rattle.sqcheck.specs.declared.tree.Tree.{Tree};

use crate::item::{Item, Task, push};
use crate::pages::word_at;
use crate::snapshot::Snapshot;
use crate::walker::Walker;
use sqpage::{CheckError, Fault, PageSource};

/// Puts the next trunk on the stack, where there is one.
fn push_next(trunk: u32, bytes: &[u8], stack: &mut Vec<Item>) -> Result<(), CheckError>
    requires { 8 ≤ length bytes.now }
    ensures ok { OnOk result ((tree : Tree)
        → Pushes tree (IsNextTrunk bytes.now trunk) stack.old.items stack.new.items) }
    ensures leads { OnOk result (KeepsLead stack.old.items stack.new.items) }
    ensures err { IfErr result (λ e. e.fault ≡ Fault.NoMemory) }
{
    let next = word_at(bytes, 0);
    if next == 0 {
        return Ok(());
    }
    push(
        stack,
        Item {
            holder: trunk,
            page: next,
            task: Task::Trunk,
        },
    )
}

/// Puts the leaves of a trunk on the stack, the first one on top.
fn push_leaves(trunk: u32, bytes: &[u8], stack: &mut Vec<Item>) -> Result<(), CheckError>
    requires room { 8 + 4 * leaf_count_in bytes.now ≤ length bytes.now }
    ensures ok { OnOk result ((tree : Tree)
        → Pushes tree (IsLeafFrom bytes.now trunk 0) stack.old.items stack.new.items) }
    ensures leads { OnOk result (KeepsLead stack.old.items stack.new.items) }
    ensures err { IfErr result (λ e. e.fault ≡ Fault.NoMemory) }
{
    let mut left = word_at(bytes, 4);
    'leaves: while left > 0 {
        left -= 1;
        push(
            stack,
            Item {
                holder: trunk,
                page: word_at(bytes, 8 + 4 * left as usize),
                task: Task::Leaf,
            },
        )?;
    }
    Ok(())
}

impl<V: Snapshot> Walker<V> {
    /// Takes a trunk, and puts the next one and its leaves on the stack. Refused by FreeCount where it names
    /// too many leaves.
    pub(crate) fn follow_trunk<S: PageSource>(
        &mut self,
        source: &mut S,
        item: Item,
    ) -> Result<(), CheckError>
        requires task { item.task ≡ Trunk }
        requires same { Keeps V.Snapshot S.PageSource source.old }
        ensures ok { V.right → OnOk result ((tree : Tree)
            → KnowsNext V.pages tree item self.old.walk
            → Follows V.pages tree item self.old.uses self.new.uses self.old.walk self.new.walk) }
        ensures behind { V.right → OnOk result ((tree : Tree) → Passes V.pages tree item self.old.walk self.new.walk) }
        ensures err { V.right → IfErr result (λ e. e.fault ≢ Fault.Source
            → (tree : Tree) → IsRefusal V.pages tree item self.old.uses self.old.walk e) }
        ensures level { self.new.walk.leaf_level ≡ self.old.walk.leaf_level }
        ensures source { IfErr result (λ e. e.fault ≡ Fault.Source → ¬ V.given) }
        ensures taken { OnOk result (Takes self.old.uses self.new.uses item) }
        ensures takes { TakesOrNot self.old.uses self.new.uses item }
        ensures rows { IfErr result (λ e. e.fault ≢ Fault.SchemaRecord) }
        ensures left { IfErr result (λ e. e.fault ≢ Fault.NoMemory → KeepsWalk self.old.walk self.new.walk) }
        ensures same { Keeps V.Snapshot S.PageSource source.new }
    {
        self.uses.take(item)?;
        self.reader.read(source, item.page)?;
        let bytes = self.reader.bytes.as_slice();
        if word_at(bytes, 4) > self.reader.usable / 4 - 2 {
            return Err(CheckError {
                page: item.page,
                fault: Fault::FreeCount,
            });
        }
        push_next(item.page, bytes, &mut self.walk.stack)?;
        push_leaves(item.page, bytes, &mut self.walk.stack)
    }

    /// Takes a page of a chain of which so many are needed, and puts the next one on the stack. Refused by
    /// ChainCut at the holder where there is no number, or where more pages are needed than there are, and by
    /// ChainLong where the last page names a next one.
    pub(crate) fn follow_link<S: PageSource>(
        &mut self,
        source: &mut S,
        item: Item,
        owner: u32,
        needed: u64,
    ) -> Result<(), CheckError>
        requires task { (first : Bool) × (item.task ≡ Link owner needed first) }
        requires same { Keeps V.Snapshot S.PageSource source.old }
        ensures ok { V.right → OnOk result ((tree : Tree)
            → KnowsNext V.pages tree item self.old.walk
            → Follows V.pages tree item self.old.uses self.new.uses self.old.walk self.new.walk) }
        ensures behind { V.right → OnOk result ((tree : Tree) → Passes V.pages tree item self.old.walk self.new.walk) }
        ensures err { V.right → 0 < needed → IfErr result (λ e. e.fault ≢ Fault.Source
            → (tree : Tree) → IsRefusal V.pages tree item self.old.uses self.old.walk e) }
        ensures level { self.new.walk.leaf_level ≡ self.old.walk.leaf_level }
        ensures source { IfErr result (λ e. e.fault ≡ Fault.Source → ¬ V.given) }
        ensures taken { OnOk result (Takes self.old.uses self.new.uses item) }
        ensures takes { TakesOrNot self.old.uses self.new.uses item }
        ensures rows { IfErr result (λ e. e.fault ≢ Fault.SchemaRecord) }
        ensures left { IfErr result (λ e. e.fault ≢ Fault.NoMemory → KeepsWalk self.old.walk self.new.walk) }
        ensures same { Keeps V.Snapshot S.PageSource source.new }
    {
        if item.page == 0 || needed > u64::from(source.count()) {
            return Err(CheckError {
                page: item.holder,
                fault: Fault::ChainCut,
            });
        }
        self.uses.take(item)?;
        self.reader.read(source, item.page)?;
        let next = word_at(&self.reader.bytes, 0);
        if needed > 1 {
            return push(
                &mut self.walk.stack,
                Item {
                    holder: item.page,
                    page: next,
                    task: Task::Link {
                        owner,
                        needed: needed - 1,
                        first: false,
                    },
                },
            );
        }
        if next != 0 {
            return Err(CheckError {
                page: item.page,
                fault: Fault::ChainLong,
            });
        }
        Ok(())
    }
}
