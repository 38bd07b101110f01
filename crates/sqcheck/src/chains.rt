//! Chains that are charted as those of their cells (own).
ghost use Rattle.std.specs.Prelude.{◌≡◌, ◌+◌, ◌<◌, ◌≤◌, ℕ, true, length, replicate, false, IfOk, IfErr};
ghost use Rattle.sqpage.specs.Source.{KeepsPages};
ghost use Rattle.sqpage.specs.Chain.{payload_size, bytes_beyond};
ghost use Rattle.sqpage.specs.declared.fault.Fault.{Fault};
ghost use Rattle.sqcheck.specs.internal.Chains.{TakesChain, TakesPage};

use crate::pages::word_at;
use crate::role::Role;
use sqpage::{Cell, CheckError, Fault, PageSource, links_of};
use std::alloc::{AllocError, Global};

/// The overflow pages whose rows were read: each stands in the chain of one cell alone, so rows that are read by their
/// own chains read no such page twice.
#[derive(Drop)]
pub(crate) struct Chains {
    taken: Vec<bool>,
}

impl Chains {
    /// None of so many pages.
    pub(crate) fn none(alloc: Global, count: u32) -> Result<Chains, AllocError>
        ensures { IfOk result (λ chains. chains.taken.items ≡ replicate count false) }
    {
        Ok(Chains {
            taken: vec![in alloc; false; count as usize]?,
        })
    }

    /// Takes a page that is charted as an overflow page of `owner`. Whether it was so, and not taken before.
    fn take(&mut self, roles: &[Role], owner: u32, page: u32) -> bool
        ensures taken { result ≡ true → TakesPage roles.now owner self.old.taken.items self.new.taken.items page }
        ensures left { result ≡ false → self.new.taken.items ≡ self.old.taken.items }
    {
        let at = page as usize;
        if at == 0 || at > self.taken.len() || self.taken[at - 1] {
            return false;
        }
        match roles.get(at - 1) {
            Some(Role::Overflow { owner: of }) if *of == owner => {
                self.taken[at - 1] = true;
                true
            }
            _ => false,
        }
    }

    /// Whether the chain of a cell is its own: each page that the rest of its payload takes is charted as an overflow
    /// page of the cell's page, and was taken by no other cell. Takes these pages. Where it isn't, some may be taken
    /// too. `roles` are by page, from 1, and `bytes` is room for a page. Refused by Source where a page could not be
    /// read.
    pub(crate) fn takes<S: PageSource>(
        &mut self,
        source: &mut S,
        roles: &[Role],
        cell: &Cell,
        bytes: &mut [u8],
    ) -> Result<bool, CheckError>
        requires room { (length bytes.old ≡ S.size source.old) × (4 ≤ length bytes.old) }
        requires least { 480 ≤ cell.now.usable }
        requires part { length cell.now.local.now ≤ payload_size cell.now }
        ensures own { S.reads_right source.old → IfOk result (λ own. own ≡ true → TakesChain (S.pages source.old)
            roles.now cell.now self.old.taken.items self.new.taken.items) }
        ensures short { bytes_beyond cell.now ≡ 0 → IfOk result (λ own. own ≡ true) }
        ensures err { IfErr result (λ e. (e.fault ≡ Fault.Source) × ¬ S.gives_pages source.old) }
        ensures long { length bytes.new ≡ length bytes.old }
        ensures keeps { KeepsPages S.pages S.size S.reads_right S.gives_pages source.old source.new }
    {
        let mut next = cell.overflow;
        let mut left = links_of(cell);
        'links: while left > 0 {
            if next > source.count() || !self.take(roles, cell.page, next) {
                return Ok(false);
            }
            if source.page(next, bytes).is_err() {
                return Err(CheckError {
                    page: next,
                    fault: Fault::Source,
                });
            }
            next = word_at(bytes, 0);
            left -= 1;
        }
        Ok(true)
    }
}
