//! Why a commit isn't known.
ghost use Rattle.std.specs.Prelude.{IfOk};
ghost use Rattle.sqwal.specs.Took.{TookWithin};
ghost use Rattle.sqjournal.specs.Journal.{IsHot};
ghost use Rattle.cli_history.specs.History.{AreGiven, bytes_of};
ghost use Rattle.cli_dump.specs.Overwritten.{IsOverwrittenAt};

use crate::commits::found_of;
use cli_facts::Refusal;
use cli_history::{Files, next_known};
use cli_show::LogFound;
use sqval::Limits;
use sqview::FileBytes;
use sqwal::Scan;
use std::alloc::Global;
use std::fmt;
use view_loss::{Loss, loss_at};

/// A commit that isn't known, and why.
#[derive(Clone, Copy, Debug)]
pub struct Overwritten {
    /// The commit, by its last frame; 0 is before the first one.
    pub at: u32,
    /// The first page that a checkpoint may have changed, or how many there are, and how.
    pub loss: Loss,
    /// The first commit after it that is known.
    pub next: Option<u32>,
}

/// Why the database isn't known.
#[derive(Clone, Copy)]
struct Why(Loss);

impl fmt::Display for Why {
    ghost use Rattle.std.specs.Prelude.{Some};
    ghost use Rattle.cli_dump.specs.Overwritten.{loss_text};

    ghost output = { λ why. Some (loss_text why.0) };

    fn fmt<W: fmt::Write>(&self, f: &mut fmt::Formatter<W>) -> fmt::Result {
        match self.0 {
            Loss::Copied { page, frame } => {
                write!(f, "page {page} of FILE has the bytes of frame {frame}")
            }
            Loss::CutAway { page, frame } => {
                write!(
                    f,
                    "the commit at frame {frame} may have cut page {page} away"
                )
            }
            Loss::CutShort { frame } => {
                write!(
                    f,
                    "the commit at frame {frame} may have cut FILE, whose length counts"
                )
            }
            Loss::Lengthened => {
                write!(
                    f,
                    "the last page of FILE may have been added, and its length counts"
                )
            }
        }
    }
}

/// The commit that can be named instead.
#[derive(Clone, Copy)]
struct Next(Option<u32>);

impl fmt::Display for Next {
    ghost use Rattle.std.specs.Prelude.{Some};
    ghost use Rattle.cli_dump.specs.Overwritten.{next_text};

    ghost output = { λ next. Some (next_text next.0) };

    fn fmt<W: fmt::Write>(&self, f: &mut fmt::Formatter<W>) -> fmt::Result {
        match self.0 {
            Some(frame) => write!(f, "; the first known commit after it is at frame {frame}"),
            None => Ok(()),
        }
    }
}

impl fmt::Display for Overwritten {
    ghost use Rattle.std.specs.Prelude.{Some};
    ghost use Rattle.cli_dump.specs.Overwritten.{overwritten_text};

    ghost output = { λ told. Some (overwritten_text told) };

    fn fmt<W: fmt::Write>(&self, f: &mut fmt::Formatter<W>) -> fmt::Result {
        let (at, why, next) = (self.at, Why(self.loss), Next(self.next));
        write!(f, "the database at frame {at} isn't known: {why}{next}")
    }
}

/// Why a commit of this scan isn't known.
fn overwritten_in<F: FileBytes + Copy + Drop>(
    alloc: Global,
    limits: Limits,
    files: Files<F>,
    scan: &Scan,
    at: u32,
) -> Result<Option<Overwritten>, Refusal>
    ensures { AreGiven F.reads_right files → TookWithin limits.frames (F.bytes files.wal) scan.now
        → ¬ IsHot (F.bytes files.journal) → IfOk result (IsOverwrittenAt limits (bytes_of F.bytes files) at) }
{
    let front = scan.committed().frames;
    if at >= front {
        return Ok(None);
    }
    let loss = match loss_at(alloc, limits, (files.db, files.wal), scan, at) {
        Ok(Some(loss)) => loss,
        Ok(None) => return Ok(None),
        Err(error) => return Err(Refusal::from(error)),
    };
    match next_known(alloc, files, scan, at) {
        Ok(next) => Ok(Some(Overwritten { at, loss, next })),
        Err(error) => Err(Refusal::from(error)),
    }
}

/// Why it isn't known which database was there at the commit that this frame ends, or at 0: the first of its pages that
/// a checkpoint may have changed, or how many there are, and the first known commit after it. None if it is known, or
/// refused for another reason. Refused as the log is, and as a view at a commit is.
pub fn overwritten_at<F: FileBytes + Copy + Drop>(
    alloc: Global,
    limits: Limits,
    files: Files<F>,
    at: u32,
) -> Result<Option<Overwritten>, Refusal>
    ensures { AreGiven F.reads_right files → IfOk result (IsOverwrittenAt limits (bytes_of F.bytes files) at) }
{
    let found = match found_of(alloc, limits, &files) {
        Ok(found) => found,
        Err(refusal) => return Err(refusal),
    };
    match &found {
        LogFound::Wal { scan, .. } => overwritten_in(alloc, limits, files, scan, at),
        LogFound::None => Ok(None),
        LogFound::Journal(_) => Ok(None),
    }
}
