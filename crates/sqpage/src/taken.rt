//! Which pages of a source were taken (own).
ghost use Rattle.std.specs.Prelude.{◌≡◌, false, length, IfOk, OnOk, OnErr, IfErr, replicate};
ghost use Rattle.sqpage.specs.internal.Taking.{Marks, MarkRefused};

use crate::fault::{CheckError, Fault};
use std::alloc::{AllocError, Global};

/// A mark for each page of a source: whether it was taken.
#[derive(Drop)]
pub(crate) struct Taken {
    marks: Vec<bool>,
}

impl Taken {
    /// No page of so many is taken.
    pub(crate) fn none(alloc: Global, count: u32) -> Result<Taken, AllocError>
        ensures { IfOk result (λ taken. taken.marks.items ≡ replicate count false) }
    {
        Ok(Taken {
            marks: vec![in alloc; false; count as usize]?,
        })
    }

    /// Takes page `p`, which page `holder` names. Refused by PageOutside at the holder where there is no
    /// such page, and by PageTwice at the page where it was taken.
    pub(crate) fn take(&mut self, holder: u32, p: u32) -> Result<(), CheckError>
        ensures ok { OnOk result (Marks self.old.marks.items self.new.marks.items p) }
        ensures err { IfErr result (λ e. MarkRefused self.old.marks.items holder p e.fault e.page) }
        ensures unchanged { OnErr result (self.new.marks.items ≡ self.old.marks.items) }
    {
        if p == 0 || p as usize > self.marks.len() {
            return Err(CheckError {
                page: holder,
                fault: Fault::PageOutside,
            });
        }
        let i = p as usize - 1;
        if self.marks[i] {
            return Err(CheckError {
                page: p,
                fault: Fault::PageTwice,
            });
        }
        self.marks[i] = true;
        Ok(())
    }
}
