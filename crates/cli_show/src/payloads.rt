//! What was found of the payloads of a page's cells.
ghost use Rattle.std.specs.Prelude.{◌≡◌, ◌<◌, [], length, IfOk, None, Some, get_or, replicate, set};

use cli_text::Unfit;
use sqval::PageSize;
use std::alloc::{AllocError, Global};

/// What is known of the cells of a page, of which several pointers may name one: each that shows no columns is read
/// once.
#[derive(Drop)]
pub(crate) struct Payloads {
    /// By the place where a cell begins, why it shows no columns.
    pub unfit: Vec<Option<Unfit>>,
    /// Room for a payload.
    pub bytes: Vec<u8>,
}

impl Payloads {
    /// Nothing is known of a page of this size.
    pub(crate) fn none(alloc: Global, size: PageSize) -> Result<Payloads, AllocError>
        ensures { IfOk result (λ payloads. payloads.unfit.items ≡ replicate size None) }
    {
        Ok(Payloads {
            unfit: vec![in alloc; None; size.get() as usize]?,
            bytes: Vec::new(alloc),
        })
    }

    /// Why the cell at this place shows no columns. None where that isn't known.
    pub(crate) fn known(&self, at: usize) -> Option<Unfit>
        ensures { result ≡ get_or self.now.unfit.items at None }
    {
        match self.unfit.get(at) {
            Some(known) => *known,
            None => None,
        }
    }

    /// Keeps why the cell at this place shows no columns.
    pub(crate) fn keep(&mut self, at: usize, unfit: Unfit)
        ensures kept { at < length self.old.unfit.items
            → self.new.unfit.items ≡ set self.old.unfit.items at (Some unfit) }
        ensures bytes { self.new.bytes ≡ self.old.bytes }
    {
        if let Some(known) = self.unfit.get_mut(at) {
            *known = Some(unfit);
        }
    }
}
