//! What each page of a database is used for, as its log has it.
ghost use Rattle.std.specs.Prelude.{◌≡◌, ◌↔◌, ◌+◌, ◌<◌, ◌≤◌, ℕ, List, length, IfOk, IfErr, OnOk, IsNone, IsSome};
ghost use Rattle.std.specs.Prelude.{IsTrue};
ghost use Rattle.std.specs.Io.KnownBytes.{Appends};
ghost use Rattle.std.specs.List.{flat_map};
ghost use Rattle.sqview.specs.Laid.{place_of};
ghost use Rattle.sqview.specs.Origins.{AreFramePlaces};
ghost use Rattle.sqview.specs.Shapes.{shape_of};
ghost use Rattle.cli_show.specs.Contents.{AreGiven, contents_of};
ghost use Rattle.cli_show.specs.Found.{fault_in, IsFrontFound, IsFoundOf, IsGivenFound};
ghost use Rattle.cli_show.specs.internal.Found.{IsFoundIn};
ghost use Rattle.cli_show.specs.Found.{IsUnfound};
ghost use Rattle.cli_show.specs.internal.Found.{found_without, IsUnfoundIn};
ghost use Rattle.cli_show.specs.Logged.{IsLoggedFrame, IsLoggedRecord};
ghost use Rattle.cli_text.specs.Pages.{page_line_text};
ghost use Rattle.cli_text.specs.declared.pages.PageLine.{PageLine};
ghost use Rattle.cli_show.specs.Names.{names_of, IsNameAt};
ghost use Rattle.cli_show.specs.PageLines.{ArePageLines, IsPageLine};
ghost use Rattle.cli_show.specs.Verdicts.{verdict_text};
ghost use Rattle.cli_show.specs.Pages.{IsSurveyed, IsOrdered, IsUnsurveyed};
ghost use Rattle.cli_show.specs.Records.{AreRecordsOf};
ghost use Rattle.sqpage.specs.Source.{KeepsPages};

use crate::contents::Contents;
use crate::held::{Held, Seen};
use crate::names::{Names, names_in};
use crate::records::{Records, records_in};
use crate::views::{Asked, view_of};
use cli_facts::{Front, Refusal, first_fault, number_of};
use cli_text::{Logged, PageLine, write_fault, write_report};
use cli_words::Style;
use sqcheck::{Options as Maps, Role, Survey, survey_pages_with};
use sqpage::{CheckError, Fault, PageSource};
use sqpast::PastError;
use sqview::{FileBytes, Origin, View, ViewError};
use std::alloc::Global;
use std::io::{self, Write};
use std::marker::{Brand, PhantomData};

/// The pages of a database, what they are used for, and what its trees are named.
#[derive(Drop)]
pub struct Surveyed<F> {
    pub view: View<F>,
    /// The faults are in the order of their pages, and those of one page in the order of the walk.
    pub survey: Survey,
    pub names: Names,
    /// Of the hot journal, where one counts.
    pub records: Records,
}

/// What is found of files.
#[derive(Drop)]
pub enum Found<F> {
    Pages(Surveyed<F>),
    /// This fault, and no page that can be walked over.
    Nothing(CheckError),
}

impl<F> Found<F> {
    /// Whether there is a fault.
    pub fn is_damaged(&self) -> bool
        ensures { IsTrue result ↔ IsSome (fault_in self.now) }
    {
        match self {
            Found::Pages(found) => found.survey.answer.is_err(),
            Found::Nothing(_) => true,
        }
    }
}

impl<F: FileBytes> Found<F> {
    /// The front of the log at which the view stands, if a frame counts.
    pub fn front(&self) -> Option<Front>
        ensures { IsFrontFound self.now result }
    {
        match self {
            Found::Pages(found) => Front::of_view(&found.view),
            Found::Nothing(_) => None,
        }
    }
}

impl<F: FileBytes> Surveyed<F> {
    /// Where page i, from 0, stands in the log that counts. None where the database file's counts.
    pub fn logged(&self, i: usize) -> Option<Logged>
        ensures frame { 1 ≤ self.now.view.front → (wal : List ℕ) → i < self.now.view.count
            → AreFramePlaces self.now.view.page_size wal self.now.view.front self.now.view.count
            self.now.view.places.items
            → IsLoggedFrame self.now.view.page_size wal self.now.view.front (i + 1) result }
        ensures record { self.now.view.front ≡ 0 → (journal : List ℕ) → i < self.now.view.count
            → AreRecordsOf journal self.now.records
            → IsLoggedRecord journal (place_of self.now.view.places.items (i + 1)) result }
        ensures within { IsSome result → i < 4294967295 }
    {
        if i >= self.view.count() as usize {
            return None;
        }
        match self.view.origin(i as u32 + 1) {
            Origin::File => None,
            Origin::Frame(frame) => Some(Logged::Frame(frame)),
            Origin::Record(at) => match self.records.number_at(at) {
                Some(number) => Some(Logged::Record(number)),
                None => None,
            },
        }
    }
}

/// What a survey of a view finds, or the fault for which no page of it can be walked over. Refused by AutoVacuum,
/// FileFailed and NoMemory, which say that a database can't be surveyed and not that it is damaged.
fn survey_of<S: PageSource>(
    alloc: Global,
    source: &mut S,
    maps: Maps,
) -> Result<Result<Survey, CheckError>, Refusal>
    ensures found { S.gives_pages source.old → IfOk result (IsSurveyed maps.pointer_maps (S.pages source.old)
        (S.size source.old)) }
    ensures refused { S.gives_pages source.old
        → IfErr result (IsUnsurveyed maps.pointer_maps (S.pages source.old) (S.size source.old)) }
    ensures same { KeepsPages S.pages S.size S.reads_right S.gives_pages source.old source.new }
{
    let (error, found) = match survey_pages_with(alloc, source, maps) {
        Ok(survey) => match survey.answer {
            Ok(_) => return Ok(Ok(survey)),
            Err(error) => (error, Ok(survey)),
        },
        Err(error) => (error, Err(error)),
    };
    match error.fault {
        Fault::AutoVacuum => Err(Refusal::AutoVacuum),
        Fault::Source => Err(Refusal::FileFailed),
        Fault::NoMemory => Err(Refusal::NoMemory),
        _ => Ok(found),
    }
}

/// A survey of a view whose faults are in the order of their pages, or the fault for which there is none.
fn sorted_survey<S: PageSource>(
    alloc: Global,
    source: &mut S,
    maps: Maps,
) -> Result<Result<Survey, CheckError>, Refusal>
    ensures found { S.gives_pages source.old → IfOk result (IsSurveyed maps.pointer_maps (S.pages source.old)
        (S.size source.old)) }
    ensures ordered { IfOk result (λ found. IfOk found IsOrdered) }
    ensures refused { S.gives_pages source.old
        → IfErr result (IsUnsurveyed maps.pointer_maps (S.pages source.old) (S.size source.old)) }
    ensures same { KeepsPages S.pages S.size S.reads_right S.gives_pages source.old source.new }
{
    match survey_of(alloc, source, maps)? {
        Ok(mut survey) => match survey.faults.sort_by_key(|error| error.page) {
            Ok(()) => Ok(Ok(survey)),
            Err(_) => Err(Refusal::NoMemory),
        },
        Err(error) => Ok(Err(error)),
    }
}

/// What is found of a view that shows this, beside these records.
fn found_held<V: Seen, F: FileBytes + Drop>(
    alloc: Global,
    view: View<F>,
    records: Records,
    maps: Maps,
) -> Result<Found<F>, Refusal>
    requires { shape_of F.bytes view ≡ V.shape }
    ensures found { F.gives_bytes view.db × F.gives_bytes view.log
        → IfOk result (IsFoundIn maps.pointer_maps F.bytes V.shape records) }
    ensures refused { F.gives_bytes view.db × F.gives_bytes view.log
        → IfErr result (IsUnfoundIn maps.pointer_maps V.shape) }
    ensures still_gives { F.gives_bytes view.db × F.gives_bytes view.log
        → IfOk result (IsGivenFound F.gives_bytes) }
{
    let mut held: Held<V, F> = Held {
        view,
        seen: PhantomData,
    };
    let survey = match sorted_survey(alloc, &mut held, maps) {
        Ok(Ok(survey)) => survey,
        Ok(Err(error)) => return Ok(Found::Nothing(error)),
        Err(refusal) => return Err(refusal),
    };
    match names_in(alloc, &mut held, &survey) {
        Ok(names) => {
            let Held { view, .. } = held;
            Ok(Found::Pages(Surveyed {
                view,
                survey,
                names,
                records,
            }))
        }
        Err(refusal) => Err(refusal),
    }
}

/// What is found of a view beside these records.
fn found_in<F: FileBytes + Drop>(
    alloc: Global,
    view: View<F>,
    records: Records,
    maps: Maps,
) -> Result<Found<F>, Refusal>
    ensures found { F.gives_bytes view.db × F.gives_bytes view.log
        → IfOk result (IsFoundIn maps.pointer_maps F.bytes (shape_of F.bytes view) records) }
    ensures refused { F.gives_bytes view.db × F.gives_bytes view.log
        → IfErr result (IsUnfoundIn maps.pointer_maps (shape_of F.bytes view)) }
    ensures still_gives { F.gives_bytes view.db × F.gives_bytes view.log
        → IfOk result (IsGivenFound F.gives_bytes) }
{
    found_held::<Brand, F>(alloc, view, records, maps)
}

/// What is found of files that have no view: the fault of a header, at page 1.
fn without_pages<F>(error: PastError) -> Result<Found<F>, Refusal>
    ensures { result ≡ found_without error }
{
    match error {
        PastError::Refused(ViewError::Header(fault)) => {
            Ok(Found::Nothing(CheckError { page: 1, fault }))
        }
        PastError::Refused(ViewError::TwoLogs) => Err(Refusal::TwoLogs),
        PastError::Refused(ViewError::TooLarge) => Err(Refusal::TooLarge),
        PastError::Refused(ViewError::Unread) => Err(Refusal::FileFailed),
        PastError::Refused(ViewError::NoMemory) => Err(Refusal::NoMemory),
        PastError::Refused(ViewError::NoSuchCommit) => Err(Refusal::NoSuchCommit),
        PastError::CommitOverwritten => Err(Refusal::CommitOverwritten),
    }
}

/// What a survey of files finds within limits, at a commit or as their log has them, with pointer maps where that is
/// asked. Refused as the view and the survey are.
pub fn survey_files<F: FileBytes + Drop>(
    alloc: Global,
    asked: Asked,
    files: Contents<F>,
) -> Result<Found<F>, Refusal>
    ensures found { AreGiven F.gives_bytes files → IfOk result
        (IsFoundOf asked.maps.pointer_maps asked.limits F.bytes asked.at (contents_of F.bytes files)) }
    ensures refused { AreGiven F.gives_bytes files → IfErr result
        (IsUnfound asked.maps.pointer_maps asked.limits asked.at (contents_of F.bytes files)) }
    ensures still_gives { AreGiven F.gives_bytes files → IfOk result (IsGivenFound F.gives_bytes) }
{
    let mut files = files;
    let records = records_in(alloc, &mut files.journal)?;
    let Contents { db, wal, journal } = files;
    match view_of(alloc, asked.limits, db, wal, journal, asked.at) {
        Ok(view) => found_in(alloc, view, records, asked.maps),
        Err(error) => without_pages(error),
    }
}

/// The name of the tree that a page with this role is in.
fn name_of(names: &Names, role: Role) -> Option<&str>
    ensures { IsNameAt (names_of names.entry.now) role result }
{
    match role {
        Role::Btree { root, .. } => names.of(root),
        _ => None,
    }
}

/// The line of page i, from 0.
fn line_of<F: FileBytes>(found: &Surveyed<F>, i: usize) -> PageLine<'_>
    requires { i < length found.now.survey.roles.items }
    ensures { IsPageLine found.entry.now i result }
{
    let number = number_of(i);
    let role = found.survey.roles[i];
    PageLine {
        number,
        role,
        name: name_of(&found.names, role),
        logged: found.logged(i),
        fault: first_fault(&found.survey.faults, number),
    }
}

/// A line, or an object, for each page. An error of the writer.
pub fn write_pages<F: FileBytes, W: Write>(
    out: &mut W,
    style: Style,
    found: &Surveyed<F>,
) -> io::Result<()>
    ensures { OnOk result ((lines : List PageLine) × ArePageLines found.now lines
        × Appends (W.contents out.old) (W.contents out.new) (flat_map (page_line_text style) lines)) }
{
    for i in 0..found.survey.roles.len() {
        let line = line_of(found, i);
        line.write(out, style)?;
    }
    Ok(())
}

/// What `check` prints of what was found. Whether the database is well formed. An error of the writer.
pub fn write_verdict<F, W: Write>(out: &mut W, style: Style, found: &Found<F>) -> io::Result<bool>
    ensures sound { IfOk result (λ sound. IsTrue sound ↔ IsNone (fault_in found.now)) }
    ensures text { OnOk result (Appends (W.contents out.old) (W.contents out.new) (verdict_text style found.now)) }
{
    let error = match found {
        Found::Pages(found) => match &found.survey.answer {
            Ok(report) => {
                write_report(out, style, report)?;
                return Ok(true);
            }
            Err(error) => error,
        },
        Found::Nothing(error) => error,
    };
    write_fault(out, style, error)?;
    Ok(false)
}
