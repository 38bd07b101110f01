//! The commands that read the files of a database, and what they find of opened files.
ghost use Rattle.std.specs.Prelude.{◌≡◌, ◌↔◌, IfErr, IsTrue, OnOk};
ghost use Rattle.cli_show.specs.Contents.{AreGiven, contents_of};
ghost use Rattle.cli_show.specs.Errors.{IfRefused};
ghost use Rattle.cli_job.specs.Commands.{ChecksFiles, Finds, IsDamage, IsPartShown, IsPartUnshown, PrintsRows};
ghost use Rattle.cli_job.specs.Commands.{IsFoundAt, PrintsDeleted, PrintsPlaces, SurveysFiles, prints_meanwhile};
ghost use Rattle.cli_job.specs.Answers.{deep_of};
ghost use Rattle.cli_job.specs.Opened.{reads_logs};

use cli_dump::{Printed, Wanted, show_deleted, show_places, show_rows};
use cli_facts::{Front, Refusal};
use cli_show::{
    Asked, Contents, Found, ShowError, show_commits, show_header, show_log, show_page,
    show_whole_log, survey_files,
};
use cli_show_deep::{DeepFinding, judged_as};
use cli_words::{Deep, Options, Part};
use sqview::FileBytes;
use std::alloc::Global;
use std::io::Write;

/// How many bytes of a database file are read at once, where its pages are read one behind the other.
const PIECE: usize = 32_768;

/// A command that reads the files of a database.
#[derive(Clone, Copy, Debug)]
pub enum Command<'a> {
    /// A check; deep: also of what the pages hold.
    Check { asked: Asked, deep: Option<Deep> },
    /// What each page is used for.
    Pages(Asked),
    /// Another part.
    Show(Part),
    Rows(Wanted<'a>),
    /// Where rows stand: those of the table of this name. None: of each table.
    Places(Option<&'a str>),
    /// What still stands of deleted rows; all: also in the frames of the log that aren't shown.
    Deleted { all: bool },
}

/// How files are read for a command.
#[derive(Clone, Copy, Debug, PartialEq, Eq)]
pub struct Wants {
    /// The logs alone: the database file isn't opened.
    pub only_logs: bool,
    /// How many bytes of the database file are read at once, where its pages are read one behind the other.
    pub ahead: usize,
    /// Whether it is counted how much of the database file is read.
    pub is_counted: bool,
}

impl Wants {
    /// All pages of the database, whose reading is counted.
    pub const PAGES: Wants = Wants {
        only_logs: false,
        ahead: PIECE,
        is_counted: true,
    };

    /// The same, whose reading isn't counted.
    pub const UNCOUNTED: Wants = Wants {
        is_counted: false,
        ..Wants::PAGES
    };
}

/// What a command finds of files.
#[derive(Drop)]
pub enum Finding<F> {
    Checked(DeepFinding),
    Surveyed(Found<F>),
    /// The front of the log from which a part was shown, if a frame of one counts, or why not all of it was.
    Shown(Result<Option<Front>, ShowError>),
    Printed(Printed),
}

impl Command<'_> {
    pub fn wants(&self) -> Wants
        ensures { result.only_logs ≡ reads_logs self.entry.now }
    {
        match self {
            Command::Check { .. } | Command::Pages(_) => Wants::PAGES,
            Command::Show(part) => Wants {
                only_logs: matches!(*part, Part::Log { all: false }),
                ahead: 0,
                is_counted: false,
            },
            Command::Rows(_) | Command::Places(_) => Wants::UNCOUNTED,
            Command::Deleted { .. } => Wants::PAGES,
        }
    }

    /// Which deep check it is, if it is one.
    pub fn deep(&self) -> Option<Deep>
        ensures { result ≡ deep_of self.entry.now }
    {
        match self {
            Command::Check { deep, .. } => *deep,
            _ => None,
        }
    }

    /// Whether it prints while it reads. Its lines are kept back as far as may be until it is known whether the files
    /// changed meanwhile.
    pub fn prints_meanwhile(&self) -> bool
        ensures { result ≡ prints_meanwhile self.entry.now }
    {
        matches!(
            self,
            Command::Show(_) | Command::Rows(_) | Command::Places(_) | Command::Deleted { .. }
        )
    }
}

impl<F: FileBytes> Finding<F> {
    /// The front of the log at which it was found, if a frame counts.
    pub fn front(&self) -> Option<Front>
        ensures { IsFoundAt self.now result }
    {
        match self {
            Finding::Checked(found) => found.front,
            Finding::Surveyed(found) => found.front(),
            Finding::Shown(Ok(front)) => *front,
            Finding::Shown(Err(_)) => None,
            Finding::Printed(printed) => printed.front,
        }
    }

    /// Whether it is damage that a further look may find to be none.
    pub fn is_damaged(&self) -> bool
        ensures { IsTrue result ↔ IsDamage self.now }
    {
        match self {
            Finding::Checked(found) => found.verdict.is_damaged(),
            Finding::Surveyed(found) => found.is_damaged(),
            Finding::Shown(_) | Finding::Printed(_) => false,
        }
    }
}

/// What a command finds of opened files. What it prints meanwhile goes to a writer.
pub(crate) fn find<F: FileBytes + Drop, W: Write>(
    alloc: Global,
    command: &Command<'_>,
    options: Options,
    files: Contents<F>,
    out: &mut W,
) -> Result<Finding<F>, Refusal>
    ensures { Finds F.bytes F.gives_bytes command.entry.now options files result (W.contents out.old)
        (W.contents out.new) }
{
    match command {
        Command::Check { asked, deep } => checked(alloc, *asked, *deep, files),
        Command::Pages(asked) => surveyed(alloc, *asked, files),
        Command::Show(part) => Ok(Finding::Shown(shown(alloc, *part, options, files, out))),
        Command::Rows(wanted) => printed(alloc, *wanted, options, files, out),
        Command::Places(table) => placed(alloc, *table, options, files, out),
        Command::Deleted { all } => deleted(alloc, *all, options, files, out),
    }
}

/// What a check finds.
fn checked<F: FileBytes + Drop>(
    alloc: Global,
    asked: Asked,
    deep: Option<Deep>,
    files: Contents<F>,
) -> Result<Finding<F>, Refusal>
    ensures { ChecksFiles F.bytes F.gives_bytes asked deep files result }
{
    let Contents { db, wal, journal } = files;
    match judged_as(alloc, asked, deep.is_some(), db, wal, journal) {
        Ok(found) => Ok(Finding::Checked(found)),
        Err(refusal) => Err(refusal),
    }
}

/// What a survey finds.
fn surveyed<F: FileBytes + Drop>(
    alloc: Global,
    asked: Asked,
    files: Contents<F>,
) -> Result<Finding<F>, Refusal>
    ensures { SurveysFiles F.bytes F.gives_bytes asked files result }
{
    match survey_files(alloc, asked, files) {
        Ok(found) => Ok(Finding::Surveyed(found)),
        Err(refusal) => Err(refusal),
    }
}

/// Shows a part.
fn shown<F: FileBytes + Drop, W: Write>(
    alloc: Global,
    part: Part,
    options: Options,
    files: Contents<F>,
    out: &mut W,
) -> Result<Option<Front>, ShowError>
    ensures shown { AreGiven F.gives_bytes files
        → OnOk result (IsPartShown part options (contents_of F.bytes files) (W.contents out.old) (W.contents out.new)) }
    ensures refused { AreGiven F.gives_bytes files
        → IfErr result (IfRefused (IsPartUnshown part options (contents_of F.bytes files))) }
{
    let mut files = files;
    match part {
        Part::Header => show_header(alloc, files, options, out),
        Part::Page(number) => show_page(alloc, files, number, options, out),
        Part::Log { all: true } => show_whole_log(alloc, &mut files, options, out),
        Part::Log { all: false } => {
            show_log(alloc, &mut files.wal, &mut files.journal, options, out)
        }
        Part::Commits => show_commits(alloc, &mut files, options, out),
        // Asked for by `Command::Pages`.
        Part::Pages => Ok(None),
    }
}

/// Prints rows.
fn printed<F: FileBytes + Drop, W: Write>(
    alloc: Global,
    wanted: Wanted<'_>,
    options: Options,
    files: Contents<F>,
    out: &mut W,
) -> Result<Finding<F>, Refusal>
    ensures { PrintsRows F.bytes F.gives_bytes wanted.entry options files result (W.contents out.old)
        (W.contents out.new) }
{
    match show_rows(alloc, files, options, wanted, out) {
        Ok(printed) => Ok(Finding::Printed(printed)),
        Err(refusal) => Err(refusal),
    }
}

/// Prints where rows stand.
fn placed<F: FileBytes + Drop, W: Write>(
    alloc: Global,
    table: Option<&str>,
    options: Options,
    files: Contents<F>,
    out: &mut W,
) -> Result<Finding<F>, Refusal>
    ensures { PrintsPlaces F.bytes F.gives_bytes table.entry options files result (W.contents out.old)
        (W.contents out.new) }
{
    match show_places(alloc, files, options, table, out) {
        Ok(printed) => Ok(Finding::Printed(printed)),
        Err(refusal) => Err(refusal),
    }
}

/// Prints what still stands of deleted rows.
fn deleted<F: FileBytes + Drop, W: Write>(
    alloc: Global,
    all: bool,
    options: Options,
    files: Contents<F>,
    out: &mut W,
) -> Result<Finding<F>, Refusal>
    ensures { PrintsDeleted F.bytes F.gives_bytes all options files result (W.contents out.old) (W.contents out.new) }
{
    match show_deleted(alloc, files, options, all, out) {
        Ok(printed) => Ok(Finding::Printed(printed)),
        Err(refusal) => Err(refusal),
    }
}
