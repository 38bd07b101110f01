//! What is left to be followed (own).
ghost use Rattle.std.specs.Prelude.{◌≡◌, ◌∷◌, ◌++◌, [], OnOk, OnErr, IfErr, IfOk};
ghost use Rattle.sqpage.specs.declared.fault.Fault.{Fault};

use sqpage::{CheckError, Fault};

/// What a page is named as.
#[derive(Clone, Copy, Debug)]
pub(crate) enum Task {
    /// A trunk of the freelist.
    Trunk,
    /// A leaf of the freelist.
    Leaf,
    /// The first of so many pages that are still needed, of the chain of a cell in page `owner`: the chain's first
    /// page, or a later one.
    Link {
        owner: u32,
        needed: u64,
        first: bool,
    },
    /// A page of a tree on this level, whose keys are above `low` and at most `high`.
    Node {
        level: u32,
        low: Option<i64>,
        high: Option<i64>,
    },
}

/// A page that is named, and the page that names it.
#[derive(Clone, Copy, Debug)]
pub(crate) struct Item {
    pub holder: u32,
    pub page: u32,
    pub task: Task,
}

/// Puts an item on the stack.
pub(crate) fn push(stack: &mut Vec<Item>, item: Item) -> Result<(), CheckError>
    ensures ok { OnOk result (stack.new.items ≡ stack.old.items ++ item ∷ []) }
    ensures err { IfErr result (λ e. e.fault ≡ Fault.NoMemory) }
{
    match stack.push(item) {
        Ok(()) => Ok(()),
        Err(_) => Err(CheckError {
            page: item.holder,
            fault: Fault::NoMemory,
        }),
    }
}
