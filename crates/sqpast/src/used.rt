//! The pages of a view that SQLite uses.
ghost use Rattle.std.specs.Prelude.{◌≡◌, ◌≤◌, IfOk, MatchResult, OnOk};
ghost use Rattle.sqview.specs.LogView.{pages_of};
ghost use Rattle.sqview.specs.Logs.{IsRead};
ghost use Rattle.sqview.specs.Shapes.{shape_of};
ghost use Rattle.sqpast.specs.Past.{IsSource};
ghost use Rattle.sqpast.specs.Used.{AreCounts, IsUsedPart, used_by};

use crate::at::{header_count, used_of};
use sqpage::PageSource;
use sqview::{FileBytes, View, ViewError};
use std::alloc::Global;

/// How many pages a database has.
#[derive(Clone, Copy, Debug, PartialEq, Eq)]
pub struct Counts {
    /// By the last commit of its log, by its hot journal, or without a log by the file itself.
    pub all: u32,
    /// By its header; 0 if that count isn't valid.
    pub named: u32,
}

impl Counts {
    /// How many of them SQLite uses.
    pub fn used(self) -> u32
        ensures { result ≡ used_by self }
    {
        used_of(self.all, self.named)
    }
}

/// How many pages a view has, and how many its header names. It reads page 1.
pub(super) fn counts_of<F: FileBytes>(
    alloc: Global,
    view: &mut View<F>,
) -> Result<Counts, ViewError>
    ensures right { F.reads_right view.old.db × F.reads_right view.old.log
        → IfOk result (AreCounts (pages_of F.bytes view.old)) }
    ensures all { MatchResult result (λ counts. counts.all ≡ view.old.count) IsSource }
    ensures read { F.gives_bytes view.old.db × F.gives_bytes view.old.log → IsRead result }
    ensures still_right { F.reads_right view.old.db × F.reads_right view.old.log
        → F.reads_right view.new.db × F.reads_right view.new.log }
    ensures still_gives { F.gives_bytes view.old.db × F.gives_bytes view.old.log
        → F.gives_bytes view.new.db × F.gives_bytes view.new.log }
    ensures same { shape_of F.bytes view.new ≡ shape_of F.bytes view.old }
{
    let all = view.count();
    if all == 0 {
        return Ok(Counts { all, named: 0 });
    }
    let mut first = vec![in alloc; 0u8; view.page_size().get() as usize]?;
    let page = first.as_mut_slice();
    view.read(1, page)?;
    Ok(Counts {
        all,
        named: header_count(page),
    })
}

/// Leaves in a view the pages that SQLite uses, and gives how many there were. It reads page 1. Refused by Unread and
/// NoMemory; the view then has its pages.
pub fn leave_used<F: FileBytes>(alloc: Global, view: &mut View<F>) -> Result<Counts, ViewError>
    ensures used { F.reads_right view.old.db × F.reads_right view.old.log
        → OnOk result (IsUsedPart F.bytes view.old view.new) }
    ensures counts { F.reads_right view.old.db × F.reads_right view.old.log
        → IfOk result (AreCounts (pages_of F.bytes view.old)) }
    ensures refused { MatchResult result (λ counts. view.new.count ≡ used_by counts)
        (λ error. IsSource error × (shape_of F.bytes view.new ≡ shape_of F.bytes view.old)) }
    ensures read { F.gives_bytes view.old.db × F.gives_bytes view.old.log → IsRead result }
    ensures still_right { F.reads_right view.old.db × F.reads_right view.old.log
        → F.reads_right view.new.db × F.reads_right view.new.log }
    ensures still_gives { F.gives_bytes view.old.db × F.gives_bytes view.old.log
        → F.gives_bytes view.new.db × F.gives_bytes view.new.log }
{
    let counts = counts_of(alloc, view)?;
    view.shorten(counts.used());
    Ok(counts)
}
