//! What stands in one of two lists of deleted cells alone.
ghost use Rattle.std.specs.Prelude.{◌≡◌, ◌≤◌, ℕ, List, drop, length, OnOk, IfErr};
ghost use Rattle.std.specs.Io.KnownBytes.{Appends};
ghost use Rattle.cli_show_deleted.specs.Changes.{AreChangeLines, Change};
ghost use Rattle.cli_show_deleted.specs.Printed.{IsRunOut};
ghost use Rattle.cli_show_deleted.specs.internal.Candidates.{AreChangesAmong, AreSound, BeginsFound, IsFoundText};
ghost use Rattle.cli_show_deleted.specs.internal.Candidates.{IsTurn};

use crate::candidate::Candidate;
use crate::cell::print_cell;
use crate::layout::Layout;
use crate::mark::Mark;
use cli_show_rows::Stop;
use sqdeleted::DeletedCell;
use std::io::Write;

/// What comes first of two lists of cells in the order of their places.
#[derive(Clone, Copy)]
enum Found<'a> {
    /// A cell of both, with the same bytes.
    Same,
    /// One of the old list alone.
    Went(DeletedCell<'a>),
    /// One of the new list alone.
    Came(DeletedCell<'a>),
}

/// What comes first of two lists, and how many cells of each that takes. None at the end of both.
#[derive(Clone, Copy)]
struct Turn<'a> {
    found: Option<Found<'a>>,
    olds: usize,
    news: usize,
}

impl<'a> Turn<'a> {
    fn new(found: Option<Found<'a>>, olds: usize, news: usize) -> Turn<'a>
        ensures found { result.found ≡ found.entry }
        ensures many { (result.olds ≡ olds) × (result.news ≡ news) }
    {
        Turn { found, olds, news }
    }
}

/// What comes first of both.
fn turn_of<'a>(old: &[Candidate<'a>], new: &[Candidate<'a>]) -> Turn<'a>
    ensures turn { IsTurn old.now new.now result.found (drop result.olds old.now) (drop result.news new.now) }
    ensures within { (result.olds ≤ length old.now) × (result.news ≤ length new.now) }
{
    let Some((went, _)) = old.split_first() else {
        return match new.split_first() {
            Some((came, _)) => Turn::new(Some(Found::Came(came.cell)), 0, 1),
            None => Turn::new(None, 0, 0),
        };
    };
    let Some((came, _)) = new.split_first() else {
        return Turn::new(Some(Found::Went(went.cell)), 1, 0);
    };
    if came.cell.at < went.cell.at {
        return Turn::new(Some(Found::Came(came.cell)), 0, 1);
    }
    if went.cell.at == came.cell.at && went.bytes == came.bytes {
        return Turn::new(Some(Found::Same), 1, 1);
    }
    Turn::new(Some(Found::Went(went.cell)), 1, 0)
}

/// Prints what was found, if it stands in one list alone.
fn print_found<W: Write>(
    out: &mut W,
    layouts: (Layout, Layout),
    found: &Found<'_>,
) -> Result<(), Stop>
    ensures ok { BeginsFound found.now → OnOk result ((t : List ℕ)
        × IsFoundText layouts.0.form layouts.1.form found.now t
        × Appends (W.contents out.old) (W.contents out.new) t) }
    ensures err { IfErr result IsRunOut }
{
    match found {
        Found::Same => Ok(()),
        Found::Went(cell) => print_cell(out, Mark::Went, layouts.0, cell),
        Found::Came(cell) => print_cell(out, Mark::Came, layouts.1, cell),
    }
}

/// Prints the cells of one of two lists that the other hasn't.
pub(crate) fn print_turns<W: Write>(
    out: &mut W,
    layouts: (Layout, Layout),
    old: &[Candidate<'_>],
    new: &[Candidate<'_>],
) -> Result<(), Stop>
    ensures ok { AreSound old.now → AreSound new.now → OnOk result ((changes : List Change) × (t : List ℕ)
        × AreChangesAmong old.now new.now changes
        × AreChangeLines layouts.0.form layouts.1.form changes t
        × Appends (W.contents out.old) (W.contents out.new) t) }
    ensures err { IfErr result IsRunOut }
{
    let mut i = 0;
    let mut j = 0;
    'turns: for _ in 0..u64::MAX {
        let turn = turn_of(&old[i..], &new[j..]);
        let Some(found) = turn.found else {
            return Ok(());
        };
        match print_found(out, layouts, &found) {
            Ok(()) => {}
            Err(stop) => return Err(stop),
        }
        i += turn.olds;
        j += turn.news;
    }
    Err(Stop::NoMemory)
}
