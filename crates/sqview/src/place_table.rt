//! A table of places that is no longer than what a log has needs (own).
ghost use Rattle.std.specs.Prelude.{◌≡◌, ℕ, ◌+◌, ◌*◌, ◌<◌, ◌≤◌, [], length, take, IfOk, OnOk, OnErr};

use crate::view_error::ViewError;
use std::alloc::Global;
use std::collections::BTreeMap;
use std::marker::Model;

/// How many of the first pages have a place of their own, however few pages a log has.
const FEW: usize = 262_144;

/// Where a log has each page up to a count; 0 where it has none. The first pages are kept in a list, and those behind
/// it that a log has in a map. The list is longer the more pages a log has, whatever count it claims.
#[derive(Drop)]
pub(crate) struct Places {
    count: u32,
    low: Vec<u64>,
    high: BTreeMap<u32, u64>,
}

impl Model for Places {
    ghost use Rattle.sqview.specs.internal.Places.{PlaceTable, table_of};

    ghost Value = { PlaceTable };

    ghost view = { λ s. table_of s.count s.low.items s.high };
}

impl Places {
    ghost use Rattle.sqview.specs.Laid.{place_of};
    ghost use Rattle.sqview.specs.internal.Places.{Noted};

    /// Of no pages.
    pub(crate) fn none(alloc: Global) -> Places
        ensures { result ≡ record { items = []; kept = 0 } }
    {
        Places {
            count: 0,
            low: Vec::new(alloc),
            high: BTreeMap::new(alloc),
        }
    }

    /// Of so many pages, each without a place. So many may be put down.
    pub(crate) fn new(alloc: Global, count: u32, named: usize) -> Result<Places, ViewError>
        ensures empty { IfOk result
            (λ table. (length table.items ≡ count) × ((p : ℕ) → place_of table.items p ≡ 0)) }
        ensures few { IfOk result (λ table. table.kept ≤ 262144 + 16 * named) }
        ensures memory { OnErr result (result ≡ Err ViewError.NoMemory) }
    {
        let few = named.saturating_mul(16).saturating_add(FEW);
        let low = vec![in alloc; 0u64; few.min(count as usize)]?;
        Ok(Places {
            count,
            low,
            high: BTreeMap::new(alloc),
        })
    }

    /// How many pages it has.
    pub(crate) fn len(&self) -> usize
        ensures { result ≡ length self.now.items }
    {
        self.count as usize
    }

    /// Where page `p` begins in the log, 0 where the file's counts.
    pub(crate) fn get(&self, p: u32) -> u64
        requires { 0 < p }
        ensures { result ≡ place_of self.now.items p }
    {
        if p > self.count {
            return 0;
        }
        match self.low.get(p as usize - 1) {
            Some(place) => *place,
            None => self.high.get(&p).copied().unwrap_or(0),
        }
    }

    /// The places of all pages, the first one first.
    pub(crate) fn copy_to(&self, out: &mut [u64])
        requires { length out.old ≡ length self.now.items }
        ensures { out.new ≡ self.now.items }
    {
        for before in 0..self.count {
            out[before as usize] = self.get(before + 1);
        }
    }

    /// Puts down where a page is, if it is one up to the last.
    pub(crate) fn put(&mut self, page: u32, at: u64) -> Result<(), ViewError>
        ensures noted { OnOk result (Noted page at self.old.items self.new.items) }
        ensures few { OnOk result (self.new.kept ≤ self.old.kept + 1) }
        ensures memory { OnErr result (result ≡ Err ViewError.NoMemory) }
    {
        if page == 0 || page > self.count {
            return Ok(());
        }
        let index = page as usize - 1;
        if index < self.low.len() {
            self.low[index] = at;
            return Ok(());
        }
        self.high.insert(page, at)?;
        Ok(())
    }

    /// Leaves the first pages alone.
    pub(crate) fn shorten(&mut self, count: u32)
        ensures items { self.new.items ≡ take count self.old.items }
        ensures few { self.new.kept ≡ self.old.kept }
    {
        self.count = self.count.min(count);
    }
}
