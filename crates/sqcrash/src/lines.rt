//! The lines that are printed of what is wrong with images, or the objects (own).
ghost use Rattle.std.specs.Prelude.{◌++◌, ◌∷◌, [], OnOk};
ghost use Rattle.std.specs.Io.KnownBytes.{Appends};
ghost use Rattle.sqcrash.specs.Lines.{commits_text, sum_text};

use crate::marked::CommitFault;
use crate::objects::{FaultMembers, WrongMembers};
use crate::plan::Style;
use crate::survey::Tally;
use rig_judge::Judgment;
use sqpage::{CheckError, Fault};
use sqview::ViewError;
use std::fmt;
use std::io::{self, Write};

/// A fault of a page, as `sqrescue check` prints it.
#[derive(Clone, Copy)]
struct PageFault(u32, Fault);

impl fmt::Display for PageFault {
    ghost use Rattle.std.specs.Prelude.{Some};
    ghost use Rattle.sqcrash.specs.Lines.{fault_text};

    ghost output = { λ x. Some (fault_text x.0 x.1) };

    fn fmt<W: fmt::Write>(&self, f: &mut fmt::Formatter<W>) -> fmt::Result {
        let (page, number, name) = (self.0, self.1.number(), self.1.name());
        write!(f, "page {page}: fault {number} {name}")
    }
}

/// What refuses files that show no database.
#[derive(Clone, Copy)]
struct NoView(ViewError);

impl fmt::Display for NoView {
    ghost use Rattle.std.specs.Prelude.{Some};
    ghost use Rattle.sqcrash.specs.Lines.{refusal_text};

    ghost output = { λ x. Some (refusal_text x.0) };

    fn fmt<W: fmt::Write>(&self, f: &mut fmt::Formatter<W>) -> fmt::Result {
        match self.0 {
            ViewError::TwoLogs => f.write_str("fault two logs"),
            ViewError::TooLarge => f.write_str("fault too large"),
            ViewError::Header(fault) => write!(f, "{}", PageFault(1, fault)),
            ViewError::Unread => f.write_str("fault file failed"),
            ViewError::NoMemory => f.write_str("fault no memory"),
            ViewError::NoSuchCommit => f.write_str("fault no such commit"),
        }
    }
}

/// What is wrong with an image, where a commit is known to be durable.
#[derive(Clone, Copy)]
struct Wrong {
    known: usize,
    judgment: Judgment,
}

impl fmt::Display for Wrong {
    ghost use Rattle.std.specs.Prelude.{Some};
    ghost use Rattle.sqcrash.specs.Lines.{wrong_text};

    ghost output = { λ x. Some (wrong_text x.known x.judgment) };

    fn fmt<W: fmt::Write>(&self, f: &mut fmt::Formatter<W>) -> fmt::Result {
        let known = self.known;
        match self.judgment {
            Judgment::Kept(shown) => write!(f, "kept (commit {shown} shown)"),
            Judgment::Lost(shown) => write!(f, "lost (commit {shown} shown, {known} known)"),
            Judgment::Mixed => f.write_str("mixed"),
            Judgment::Fault(CheckError { page, fault }) => write!(f, "{}", PageFault(page, fault)),
            Judgment::Refused(refusal) => write!(f, "{}", NoView(refusal)),
        }
    }
}

/// The line of a finding at a point.
#[derive(Clone, Copy)]
pub struct Line {
    pub style: Style,
    pub point: u64,
    pub known: usize,
    pub image: u64,
    pub judgment: Judgment,
}

impl fmt::Display for Line {
    ghost use Rattle.std.specs.Prelude.{Some};
    ghost use Rattle.sqcrash.specs.Lines.{line_text};

    ghost output = { λ x. Some (line_text x.style x.point x.known x.image x.judgment) };

    fn fmt<W: fmt::Write>(&self, f: &mut fmt::Formatter<W>) -> fmt::Result {
        let (point, image) = (self.point, self.image);
        let (known, judgment) = (self.known, self.judgment);
        match self.style {
            Style::Lines => {
                let wrong = Wrong { known, judgment };
                write!(f, "point {point} image {image}: {wrong}")
            }
            Style::Json => {
                let wrong = WrongMembers { known, judgment };
                write!(f, "{{\"point\":{point},\"image\":{image},{wrong}}}")
            }
        }
    }
}

/// The line of a commit that isn't well formed.
#[derive(Clone, Copy)]
struct CommitLine(Style, CommitFault);

impl fmt::Display for CommitLine {
    ghost use Rattle.std.specs.Prelude.{Some};
    ghost use Rattle.sqcrash.specs.Lines.{commit_text};

    ghost output = { λ x. Some (commit_text x.0 x.1) };

    fn fmt<W: fmt::Write>(&self, f: &mut fmt::Formatter<W>) -> fmt::Result {
        let CommitFault { commit, error } = self.1;
        match self.0 {
            Style::Lines => {
                let fault = PageFault(error.page, error.fault);
                write!(f, "commit {commit}: {fault}")
            }
            Style::Json => {
                let fault = FaultMembers(error.page, error.fault);
                write!(f, "{{\"commit\":{commit},{fault}}}")
            }
        }
    }
}

/// Writes a line for each commit that isn't well formed, in their order.
pub fn write_commits<O: Write>(out: &mut O, style: Style, faults: &[CommitFault]) -> io::Result<()>
    ensures { OnOk result (Appends (O.contents out.old) (O.contents out.new) (commits_text style faults.now)) }
{
    for fault in faults {
        writeln!(out, "{}", CommitLine(style, *fault))?;
    }
    Ok(())
}

/// The line of what was counted.
#[derive(Clone, Copy)]
struct SumText(Style, Tally);

impl fmt::Display for SumText {
    ghost use Rattle.std.specs.Prelude.{Some};
    ghost use Rattle.sqcrash.specs.Lines.{sum_text};

    ghost output = { λ x. Some (sum_text x.0 x.1) };

    fn fmt<W: fmt::Write>(&self, f: &mut fmt::Formatter<W>) -> fmt::Result {
        let Tally {
            points,
            images,
            lost,
            mixed,
            faults,
        } = self.1;
        match self.0 {
            Style::Lines => write!(
                f,
                "{points} points, {images} images, {lost} lost, {mixed} mixed, {faults} faults"
            ),
            Style::Json => write!(
                f,
                "{{\"points\":{points},\"images\":{images},\"lost\":{lost},\"mixed\":{mixed},\"faults\":{faults}}}"
            ),
        }
    }
}

/// Writes what was counted.
pub fn write_sum<O: Write>(out: &mut O, style: Style, tally: Tally) -> io::Result<()>
    ensures { OnOk result (Appends (O.contents out.old) (O.contents out.new) (sum_text style tally ++ 10 ∷ [])) }
{
    writeln!(out, "{}", SumText(style, tally))?;
    Ok(())
}

/// How long a run took, and how many images it judged.
#[derive(Clone, Copy)]
pub struct TimeText {
    pub millis: u128,
    pub images: u64,
}

impl fmt::Display for TimeText {
    ghost use Rattle.std.specs.Prelude.{Some};
    ghost use Rattle.sqcrash.specs.internal.Times.{time_text};

    ghost output = { λ x. Some (time_text x.millis x.images) };

    fn fmt<W: fmt::Write>(&self, f: &mut fmt::Formatter<W>) -> fmt::Result {
        let (millis, images) = (self.millis, self.images);
        let (seconds, tenths) = (millis / 1000, millis / 100 % 10);
        let (hundredths, thousandths) = (millis / 10 % 10, millis % 10);
        write!(
            f,
            "time: {seconds}.{tenths}{hundredths}{thousandths} s, {images} images"
        )
    }
}
