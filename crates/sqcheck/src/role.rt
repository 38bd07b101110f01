//! What the pages of a database are used for (fileformat2, 1.4 to 1.8).
ghost use Rattle.std.specs.Prelude.{ℕ};
ghost use Rattle.sqcheck.specs.declared.role.Role.{Role};

use sqpage::Kind;

/// What a page of a database is used for.
#[derive(Clone, Copy, Debug, PartialEq, Eq)]
pub enum Role {
    /// It is of this kind, in the tree with this root.
    Btree { kind: Kind, root: u32 },
    /// It holds a part of the payload of a cell in page `owner`.
    Overflow { owner: u32 },
    /// It is a trunk of the freelist.
    FreeTrunk,
    /// It is a leaf of the freelist.
    FreeLeaf,
    /// It is the lock-byte page, which no database uses. A visitor is told of no such page.
    LockByte,
    /// It is a pointer map, in a database of auto-vacuum. A visitor is told of no such page.
    PointerMap,
    /// No place names it. A visitor is told of no such page.
    Unused,
}

/// Is told what the pages of a database are used for, page by page.
pub trait Visitor {
    /// How it changes when it is told of a page's role.
    ghost saw: { Self → ℕ → Role → Self → Type 0 };

    /// Tells that page `page`, from 1, has this role.
    fn visit(&mut self, page: u32, role: Role)
        ensures { saw self.old page role self.new };
}

/// Forgets what it is told.
#[derive(Drop)]
pub(crate) struct Silent;

impl Visitor for Silent {
    ghost saw = { λ _ _ _ _. Unit {0} };

    fn visit(&mut self, _page: u32, _role: Role) {}
}
