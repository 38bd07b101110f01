//! The lines of findings: what is wrong with an image, and why (own).
ghost use Rattle.std.specs.Prelude.{◌≡◌, ◌&&◌, [], ◌∷◌, length, take, OnOk, MatchResult};
ghost use Rattle.std.specs.Io.KnownBytes.{Appends};
ghost use Rattle.std.specs.List.{flat_map};
ghost use Rattle.sqcrash.specs.Objects.{next_pair, pairs_text};
ghost use Rattle.sqcrash.specs.Lines.{spaced_text, ranges_text, behind_ranges, missing_text, more_text, missings_text};
ghost use Rattle.sqcrash.specs.Lines.{why_text, finding_text, is_asked, asked_texts, texts_of, left_text, left_line};
ghost use Rattle.sqcrash.specs.Writes.{Writes, is_within};
ghost use Rattle.sqcrash.specs.Refusals.{WriteRefused};

use crate::finding::Finding;
use crate::lines::Line;
use crate::objects::{CallMembers, PairText, SubjectText};
use crate::outcome::{Refusal, more};
use crate::plan::{Plan, Style};
use crate::stopped::Stopped;
use rig_missing::Missing;
use rig_play::{Kind, Subject};
use std::fmt;
use std::io::{self, Write};

/// The most calls of a finding that are told.
const MOST: usize = 20;

/// A call.
#[derive(Clone, Copy)]
struct CallText {
    kind: Kind,
    subject: Subject,
    place: u64,
    count: u64,
}

impl fmt::Display for CallText {
    ghost use Rattle.std.specs.Prelude.{Some};
    ghost use Rattle.sqcrash.specs.Lines.{call_text};

    ghost output = { λ x. Some (call_text x.kind x.subject x.place x.count) };

    fn fmt<W: fmt::Write>(&self, f: &mut fmt::Formatter<W>) -> fmt::Result {
        let (subject, place, count) = (SubjectText(self.subject), self.place, self.count);
        match self.kind {
            Kind::Base => write!(f, "begin {subject}"),
            Kind::Open => write!(f, "create {subject}"),
            Kind::Close => write!(f, "close {subject}"),
            Kind::Write => write!(f, "write {subject} {place}+{count}"),
            Kind::Cut => write!(f, "truncate {subject} to {place}"),
            Kind::Sync | Kind::FolderSync => write!(f, "sync {subject}"),
            Kind::Unlink => write!(f, "unlink {subject}"),
            Kind::Rename => write!(f, "rename {subject}"),
            Kind::Mark => f.write_str("mark"),
            Kind::NotHeld => write!(f, "call {subject}"),
            Kind::End => write!(f, "end {subject}"),
        }
    }
}

impl CallText {
    ghost use Rattle.std.specs.Prelude.{◌≡◌};

    /// The same as members of an object.
    fn members(self) -> CallMembers
        ensures { result ≡ record { kind = self.kind; subject = self.subject; place = self.place; count = self.count } }
    {
        CallMembers {
            kind: self.kind,
            subject: self.subject,
            place: self.place,
            count: self.count,
        }
    }
}

/// Sectors from a first to a last one.
#[derive(Clone, Copy)]
struct RangeText(u64, u64);

impl fmt::Display for RangeText {
    ghost use Rattle.std.specs.Prelude.{Some};
    ghost use Rattle.sqcrash.specs.Lines.{range_text};

    ghost output = { λ x. Some (range_text x.0 x.1) };

    fn fmt<W: fmt::Write>(&self, f: &mut fmt::Formatter<W>) -> fmt::Result {
        let (first, last) = (self.0, self.1);
        if first == last {
            write!(f, " {first}")
        } else {
            write!(f, " {first}-{last}")
        }
    }
}

/// The line of a call that isn't down, up to its sectors.
#[derive(Clone, Copy)]
struct DownText {
    style: Style,
    number: u64,
    call: CallText,
}

impl fmt::Display for DownText {
    ghost use Rattle.std.specs.Prelude.{Some};
    ghost use Rattle.sqcrash.specs.Lines.{down_text};

    ghost output = { λ x. Some (down_text x.style x.number x.call.kind x.call.subject x.call.place x.call.count) };

    fn fmt<W: fmt::Write>(&self, f: &mut fmt::Formatter<W>) -> fmt::Result {
        let (number, call) = (self.number, self.call);
        match self.style {
            Style::Lines => write!(f, "  not down: record {number}: {call}, sectors"),
            Style::Json => {
                let members = call.members();
                write!(f, "{{\"not down\":{number},{members},\"sectors\":[")
            }
        }
    }
}

/// The line of the record behind which the machine stopped.
#[derive(Clone, Copy)]
struct StoppedText(Style, Stopped);

impl fmt::Display for StoppedText {
    ghost use Rattle.std.specs.Prelude.{Some};
    ghost use Rattle.sqcrash.specs.Lines.{stopped_text};

    ghost output = { λ x. Some (stopped_text x.0 x.1) };

    fn fmt<W: fmt::Write>(&self, f: &mut fmt::Formatter<W>) -> fmt::Result {
        let Stopped {
            number,
            kind,
            subject,
            place,
            count,
            ..
        } = self.1;
        let call = CallText {
            kind,
            subject,
            place,
            count,
        };
        match self.0 {
            Style::Lines => write!(f, "  stopped behind record {number}: {call}"),
            Style::Json => {
                let members = call.members();
                write!(f, "{{\"stopped behind\":{number},{members}}}")
            }
        }
    }
}

/// How many more there are.
#[derive(Clone, Copy)]
struct CountText(Style, usize);

impl fmt::Display for CountText {
    ghost use Rattle.std.specs.Prelude.{Some};
    ghost use Rattle.sqcrash.specs.Lines.{count_text};

    ghost output = { λ x. Some (count_text x.0 x.1) };

    fn fmt<W: fmt::Write>(&self, f: &mut fmt::Formatter<W>) -> fmt::Result {
        let count = self.1;
        match self.0 {
            Style::Lines => write!(f, "  .. {count} more"),
            Style::Json => write!(f, "{{\"more not down\":{count}}}"),
        }
    }
}

/// Writes ranges of sectors, with a space before each.
fn write_spaced<O: Write>(out: &mut O, ranges: &[(u64, u64)]) -> io::Result<()>
    ensures { OnOk result (Appends (O.contents out.old) (O.contents out.new) (spaced_text ranges.now)) }
{
    for range in ranges {
        write!(out, "{}", RangeText(range.0, range.1))?;
    }
    Ok(())
}

/// Writes pairs, each behind a comma.
fn write_next_pairs<O: Write>(out: &mut O, ranges: &[(u64, u64)]) -> io::Result<()>
    ensures { OnOk result (Appends (O.contents out.old) (O.contents out.new) (flat_map next_pair ranges.now)) }
{
    for range in ranges {
        write!(out, ",{}", PairText(range.0, range.1))?;
    }
    Ok(())
}

/// Writes pairs, with a comma between two.
#[tactic(auto, using(crate::proofs::PairsWritten::pairs_first, crate::proofs::PairsWritten::pairs_none))]
fn write_pairs<O: Write>(out: &mut O, ranges: &[(u64, u64)]) -> io::Result<()>
    ensures { OnOk result (Appends (O.contents out.old) (O.contents out.new) (pairs_text ranges.now)) }
{
    match ranges.split_first() {
        Some((first, rest)) => {
            write!(out, "{}", PairText(first.0, first.1))?;
            write_next_pairs(out, rest)
        }
        None => Ok(()),
    }
}

/// Writes sectors in ranges.
fn write_ranges<O: Write>(out: &mut O, style: Style, ranges: &[(u64, u64)]) -> io::Result<()>
    ensures { OnOk result (Appends (O.contents out.old) (O.contents out.new) (ranges_text style ranges.now)) }
{
    match style {
        Style::Lines => write_spaced(out, ranges),
        Style::Json => write_pairs(out, ranges),
    }
}

/// What stands behind sectors.
#[derive(Clone, Copy)]
struct BehindRanges(Style);

impl fmt::Display for BehindRanges {
    ghost use Rattle.std.specs.Prelude.{Some};
    ghost use Rattle.sqcrash.specs.Lines.{behind_ranges};

    ghost output = { λ x. Some (behind_ranges x.0) };

    fn fmt<W: fmt::Write>(&self, f: &mut fmt::Formatter<W>) -> fmt::Result {
        f.write_str(match self.0 {
            Style::Lines => "",
            Style::Json => "]}",
        })
    }
}

/// Writes the line of a call that isn't down.
fn write_missing<O: Write>(out: &mut O, style: Style, missing: &Missing) -> io::Result<()>
    ensures { OnOk result (Appends (O.contents out.old) (O.contents out.new) (missing_text style missing.now)) }
{
    let call = CallText {
        kind: missing.kind,
        subject: missing.subject,
        place: missing.place,
        count: missing.count,
    };
    let number = missing.number;
    write!(
        out,
        "{}",
        DownText {
            style,
            number,
            call
        }
    )?;
    write_ranges(out, style, &missing.sectors)?;
    writeln!(out, "{}", BehindRanges(style))?;
    Ok(())
}

/// How many more findings there are.
#[derive(Clone, Copy)]
struct LeftText(Style, u64);

impl fmt::Display for LeftText {
    ghost use Rattle.std.specs.Prelude.{Some};
    ghost use Rattle.sqcrash.specs.Lines.{left_count};

    ghost output = { λ x. Some (left_count x.0 x.1) };

    fn fmt<W: fmt::Write>(&self, f: &mut fmt::Formatter<W>) -> fmt::Result {
        let count = self.1;
        match self.0 {
            Style::Lines => write!(f, ".. {count} more"),
            Style::Json => write!(f, "{{\"more\":{count}}}"),
        }
    }
}

/// Writes how many more findings there are, if there are any.
fn write_left_line<O: Write>(out: &mut O, style: Style, count: u64) -> io::Result<()>
    ensures { OnOk result (Appends (O.contents out.old) (O.contents out.new) (left_line style count)) }
{
    if count == 0 {
        return Ok(());
    }
    writeln!(out, "{}", LeftText(style, count))?;
    Ok(())
}

/// Writes how many of these findings aren't told, if there are any.
pub fn write_left<O: Write>(
    out: &mut O,
    style: Style,
    lines: Option<u64>,
    told: u64,
) -> io::Result<()>
    ensures { OnOk result (Appends (O.contents out.old) (O.contents out.new) (left_text style lines told)) }
{
    match lines {
        Some(most) => write_left_line(out, style, told.saturating_sub(most)),
        None => Ok(()),
    }
}

/// Writes how many more there are, if there are any.
fn write_more<O: Write>(out: &mut O, style: Style, count: usize) -> io::Result<()>
    ensures { OnOk result (Appends (O.contents out.old) (O.contents out.new) (more_text style count)) }
{
    if count == 0 {
        return Ok(());
    }
    writeln!(out, "{}", CountText(style, count))?;
    Ok(())
}

/// Writes the lines of all these calls that aren't down.
fn write_each<O: Write>(out: &mut O, style: Style, missing: &[Missing]) -> io::Result<()>
    ensures { OnOk result (Appends (O.contents out.old) (O.contents out.new)
        (flat_map (missing_text style) missing.now)) }
{
    for call in missing {
        write_missing(out, style, call)?;
    }
    Ok(())
}

/// The first 20, or all where they are fewer.
fn first_few(missing: &[Missing]) -> &[Missing]
    ensures { result.now ≡ take 20 missing.now }
{
    &missing[..missing.len().min(MOST)]
}

/// Writes the lines of calls that aren't down, 20 at most.
fn write_missings<O: Write>(out: &mut O, style: Style, missing: &[Missing]) -> io::Result<()>
    ensures { OnOk result (Appends (O.contents out.old) (O.contents out.new) (missings_text style missing.now)) }
{
    write_each(out, style, first_few(missing))?;
    write_more(out, style, missing.len().saturating_sub(MOST))?;
    Ok(())
}

/// Writes why something is wrong with an image.
fn write_why<O: Write>(
    out: &mut O,
    style: Style,
    at: Stopped,
    missing: &[Missing],
) -> io::Result<()>
    ensures { OnOk result (Appends (O.contents out.old) (O.contents out.new) (why_text style at missing.now)) }
{
    writeln!(out, "{}", StoppedText(style, at))?;
    write_missings(out, style, missing)?;
    Ok(())
}

/// Writes the lines of a finding.
fn write_finding<O: Write>(
    out: &mut O,
    style: Style,
    why: bool,
    at: Stopped,
    finding: &Finding,
) -> io::Result<()>
    ensures { OnOk result
        (Appends (O.contents out.old) (O.contents out.new) (finding_text style why at finding.now)) }
{
    let line = Line {
        style,
        point: at.point,
        known: at.known,
        image: finding.image(),
        judgment: finding.judgment(),
    };
    writeln!(out, "{line}")?;
    if !why {
        return Ok(());
    }
    write_why(out, style, at, finding.missing())?;
    Ok(())
}

/// Whether a number is the one that is asked for, if one is.
pub fn is_asked(asked: Option<u64>, number: u64) -> bool
    ensures { result ≡ is_asked asked number }
{
    match asked {
        Some(wanted) => wanted == number,
        None => true,
    }
}

/// Whether the lines of one more finding may be written, behind so many.
fn is_within(lines: Option<u64>, told: u64) -> bool
    ensures { result ≡ is_within lines told }
{
    match lines {
        Some(most) => told < most,
        None => true,
    }
}

/// Writes the lines of a finding that is asked for, unless as many as may be are told. Answers how many are, this one
/// too.
fn write_one<O: Write>(
    out: &mut O,
    plan: Plan,
    at: Stopped,
    told: u64,
    finding: &Finding,
) -> Result<u64, Refusal>
    ensures { MatchResult result (λ n. Writes plan.lines (finding_text plan.style plan.why at finding.now ∷ []) told n
        (O.contents out.old) (O.contents out.new)) (WriteRefused told 1) }
{
    let count = more(told)?;
    if !is_within(plan.lines, told) {
        return Ok(count);
    }
    write_finding(out, plan.style, plan.why, at, finding)?;
    Ok(count)
}

/// Whether a finding is asked for.
fn is_told(plan: Plan, at: Stopped, finding: &Finding) -> bool
    ensures { result ≡ (is_asked plan.point at.point && is_asked plan.image finding.now.image) }
{
    is_asked(plan.point, at.point) && is_asked(plan.image, finding.image())
}

/// The same of a finding that may be asked for.
fn write_asked<O: Write>(
    out: &mut O,
    plan: Plan,
    at: Stopped,
    told: u64,
    finding: &Finding,
) -> Result<u64, Refusal>
    ensures { MatchResult result (λ n. Writes plan.lines (asked_texts plan at finding.now) told n
        (O.contents out.old) (O.contents out.new)) (WriteRefused told (length (asked_texts plan at finding.now))) }
{
    if !is_told(plan, at, finding) {
        return Ok(told);
    }
    write_one(out, plan, at, told, finding)
}

/// Writes the lines of the findings of a point that are asked for, in their order, until as many as may be are told.
/// Answers how many are asked for, with those before.
pub fn write_findings<O: Write>(
    out: &mut O,
    plan: Plan,
    at: Stopped,
    told: u64,
    findings: &[Finding],
) -> Result<u64, Refusal>
    ensures { MatchResult result (λ n. Writes plan.lines (texts_of plan at findings.now) told n
        (O.contents out.old) (O.contents out.new)) (WriteRefused told (length (texts_of plan at findings.now))) }
{
    let mut count = told;
    for finding in findings {
        let next = write_asked(out, plan, at, count, finding)?;
        count = next;
    }
    Ok(count)
}
