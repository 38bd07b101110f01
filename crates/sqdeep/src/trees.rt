//! Which pages are of trees (fileformat2, 1.6), as a check tells them.
ghost use Rattle.std.specs.Prelude.{◌≡◌, ◌⊎◌, ◌<◌, ◌≤◌, ℕ, true, IfOk, IfErr, MatchOption, replicate, if◌then◌else◌};
ghost use Rattle.sqpage.specs.Source.{KeepsPages, UnlessUnread};
ghost use Rattle.sqcheck.specs.Stands.{StandsWith};
ghost use Rattle.sqcheck.specs.WellFormed.{WellFormedWith, IsReport};
ghost use Rattle.sqdeep.specs.declared.trees.Use.TheVariants.{Aside, Other, Root, Below};
ghost use Rattle.sqdeep.specs.internal.Uses.{use_of, use_at, PutsDown, AreUses, is_movable};
ghost use Rattle.sqdeep.specs.internal.Uses.{AreFixed, IsFirstMovable, AreNoRoots};

use sqcheck::{Options, Report, Role, Visitor, visit_pages_with};
use sqpage::{CheckError, Fault, PageSource};
use std::alloc::{AllocError, Global};

/// What a page is, as far as trees go.
#[derive(Clone, Copy, Debug, PartialEq, Eq)]
pub(crate) enum Use {
    /// Of no tree, no chain, and not of the freelist: a pointer map or the lock-byte page.
    Aside,
    /// No page of a tree, but of a chain or of the freelist.
    Other,
    /// The root of a tree.
    Root,
    /// Another page of a tree.
    Below,
}

impl Use {
    /// Whether it is a root. None where it is no page of a tree.
    pub fn is_root(self) -> Option<bool>
        ensures { MatchOption result ((self ≡ Aside) ⊎ (self ≡ Other))
            (λ root. self ≡ (if root then Root else Below)) }
    {
        match self {
            Use::Aside | Use::Other => None,
            Use::Root => Some(true),
            Use::Below => Some(false),
        }
    }

    /// Whether it has a role, and is no root: with auto-vacuum such a page may be moved.
    pub fn is_movable(self) -> bool
        ensures { result ≡ is_movable self }
    {
        matches!(self, Use::Other | Use::Below)
    }
}

/// What page `page` of this role is.
fn use_of_role(page: u32, role: Role) -> Use
    ensures { result ≡ use_of page role }
{
    match role {
        Role::Btree { root, .. } => if root == page { Use::Root } else { Use::Below },
        _ => Use::Other,
    }
}

/// What each page is.
#[derive(Drop)]
pub(crate) struct Trees {
    /// By page, from 1.
    pub uses: Vec<Use>,
}

impl Visitor for Trees {
    ghost saw = { λ old page role new. PutsDown old.uses.items page role new.uses.items };

    fn visit(&mut self, page: u32, role: Role) {
        let place = page as usize;
        if 0 < place && place <= self.uses.len() {
            self.uses[place - 1] = use_of_role(page, role);
        }
    }
}

/// Uses of so many pages, of which none has a role.
fn unused(alloc: Global, count: usize) -> Result<Vec<Use>, AllocError>
    ensures { IfOk result (λ uses. uses.items ≡ replicate count Aside) }
{
    vec![in alloc; Use::Aside; count]
}

impl Trees {
    /// What page `page` is.
    pub fn use_of_page(&self, page: u32) -> Use
        requires { 0 < page }
        ensures { result ≡ use_at self.now.uses.items page }
    {
        match self.uses.get(page as usize - 1) {
            Some(found) => *found,
            None => Use::Aside,
        }
    }

    /// The first of so many pages that has a role and is no root.
    fn first_movable(&self, count: u32) -> Option<u32>
        ensures { MatchOption result (AreFixed self.now.uses.items count) (IsFirstMovable self.now.uses.items count) }
    {
        'pages: for i in 0..count {
            let number = i + 1;
            if self.use_of_page(number).is_movable() {
                return Some(number);
            }
        }
        None
    }

    /// A root behind this page, up to that one.
    fn root_behind(&self, page: u32, count: u32) -> Option<u32>
        ensures { MatchOption result (AreNoRoots self.now.uses.items page count)
            (λ p. (page < p) × (p ≤ count) × (use_at self.now.uses.items p ≡ Root)) }
    {
        'pages: for i in page..count {
            let number = i + 1;
            if self.use_of_page(number) == Use::Root {
                return Some(number);
            }
        }
        None
    }

    /// A root behind a page that has a role and is none, of so many pages.
    pub fn misplaced_root(&self, count: u32) -> Option<u32>
        ensures { MatchOption result ((p q : ℕ) → p ≤ count → 0 < q → q ≤ count → use_at self.now.uses.items p ≡ Root
            → is_movable (use_at self.now.uses.items q) ≡ true → p < q)
            (λ p. (p ≤ count) × (use_at self.now.uses.items p ≡ Root) ×
            ((q : ℕ) × (0 < q) × (q < p) × (is_movable (use_at self.now.uses.items q) ≡ true))) }
    {
        let first = self.first_movable(count)?;
        self.root_behind(first, count)
    }
}

/// What a check of a well-formed database tells.
#[derive(Drop)]
pub(crate) struct Found {
    pub report: Report,
    pub trees: Trees,
}

/// Checks a database as `sqcheck::check_with` does, and finds which pages are of its trees.
pub(crate) fn find_trees<S: PageSource>(
    alloc: Global,
    source: &mut S,
    options: Options,
) -> Result<Found, CheckError>
    ensures ok { S.reads_right source.old → IfOk result (λ found.
        (w : WellFormedWith options.pointer_maps (S.pages source.old) (S.size source.old)) ×
        IsReport (S.pages source.old) w.places found.report × AreUses (S.pages source.old) found.trees.uses.items) }
    ensures err { S.reads_right source.old → IfErr result (λ e. UnlessUnread (S.gives_pages source.old) e.fault
        (StandsWith options.pointer_maps (S.pages source.old) (S.size source.old) e.fault e.page)) }
    ensures keeps { KeepsPages S.pages S.size S.reads_right S.gives_pages source.old source.new }
{
    let count = source.count() as usize;
    let Ok(uses) = unused(alloc, count) else {
        return Err(CheckError {
            page: 1,
            fault: Fault::NoMemory,
        });
    };
    let mut trees = Trees { uses };
    let report = visit_pages_with(alloc, source, &mut trees, options)?;
    Ok(Found { report, trees })
}
