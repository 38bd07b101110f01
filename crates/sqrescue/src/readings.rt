//! What is done with a database file that is only read.
ghost use Rattle.std.specs.Prelude.{◌≡◌};
ghost use Rattle.sqrescue.specs.Reads.{asked_named, command_of, extent_of};
ghost use Rattle.sqrescue.specs.Runs.{read_named, task_of};

use cli_dump::Wanted;
use cli_job::{Command, Extent};
use cli_report::Difference;
use cli_show::{Asked, limits_of};
use cli_words::{Cells, Deep, Options, Part, Request};
use sqcheck::Options as Maps;

/// What is looked for in the files.
#[derive(Clone, Copy)]
pub(crate) enum Look<'a> {
    Part(Part),
    /// Deep: also in what the pages hold.
    Damage(Option<Deep>),
    Rows(Wanted<'a>),
    /// Where they stand.
    Places(Option<&'a str>),
    /// What still stands of deleted ones; all: also in the frames of the log that aren't shown.
    Deleted { all: bool },
}

/// What is done with them.
#[derive(Clone, Copy)]
pub(crate) enum Reading<'a> {
    Look(Look<'a>),
    Diff(Difference<'a>),
    /// A file of this name is made.
    Copy(&'a str),
    /// changes: with those of each commit.
    Report { to: &'a str, changes: bool },
    /// places: with the page and the cell of each row.
    Salvage { to: &'a str, places: bool },
}

/// A reading, and the file that it is of.
#[derive(Clone, Copy)]
pub(crate) struct Read<'a> {
    pub(crate) reading: Reading<'a>,
    pub(crate) file: &'a str,
    pub(crate) options: Options,
}

/// What a request is carried out by.
#[derive(Clone, Copy)]
pub(crate) enum Task<'a> {
    Read(Read<'a>),
    /// A recovery in place of this file, and whether nobody is asked if it is in use.
    Recover(&'a str, bool, Options),
    Version,
}

/// What is asked of files.
fn asked_for(options: Options, deep: bool) -> Asked
    ensures { result ≡ asked_named options deep }
{
    Asked {
        limits: limits_of(options),
        at: options.commit(),
        maps: Maps {
            pointer_maps: options.pointer_maps | deep,
        },
    }
}

impl<'a> Look<'a> {
    /// The command that looks for it.
    pub(crate) fn command(self, options: Options) -> Command<'a>
        ensures { result ≡ command_of self.entry options }
    {
        match self {
            Look::Part(Part::Pages) => Command::Pages(asked_for(options, false)),
            Look::Part(part) => Command::Show(part),
            Look::Damage(deep) => Command::Check {
                asked: asked_for(options, deep.is_some()),
                deep,
            },
            Look::Rows(wanted) => Command::Rows(wanted),
            Look::Places(table) => Command::Places(table),
            Look::Deleted { all } => Command::Deleted { all },
        }
    }
}

impl<'a> Reading<'a> {
    /// How much of the database's history is read.
    pub(crate) fn extent(self) -> Extent
        ensures { result ≡ extent_of self.entry }
    {
        match self {
            Reading::Look(Look::Part(Part::Log { .. } | Part::Commits)) => Extent::Log,
            Reading::Diff(_) | Reading::Report { changes: true, .. } => Extent::Several,
            Reading::Look(_)
            | Reading::Copy(_)
            | Reading::Report { .. }
            | Reading::Salvage { .. } => Extent::One,
        }
    }

    /// The commits that it reads, if one is asked for: that one, or both that are compared.
    pub(crate) fn commits(self, at: Option<u32>) -> (u32, Option<u32>) {
        match self {
            Reading::Diff(Difference::Rows(compared)) => (compared.from, compared.to),
            Reading::Diff(Difference::Deleted(between)) => (between.from, between.to),
            Reading::Look(_)
            | Reading::Copy(_)
            | Reading::Report { .. }
            | Reading::Salvage { .. } => (at.unwrap_or(0), None),
        }
    }

    /// The same, of this file.
    fn of(self, file: &'a str, options: Options) -> Task<'a>
        ensures { result ≡ Task.Read (read_named self.entry file.entry options) }
    {
        Task::Read(Read {
            reading: self,
            file,
            options,
        })
    }
}

/// What a request is carried out by.
pub(crate) fn task_of<'a>(request: Request<'a>) -> Task<'a>
    ensures { result ≡ task_of request.entry }
{
    match request {
        Request::Show {
            file,
            part,
            options,
        } => Reading::Look(Look::Part(part)).of(file, options),
        Request::Check {
            file,
            deep,
            options,
        } => Reading::Look(Look::Damage(deep)).of(file, options),
        Request::Rows {
            file,
            table,
            form,
            options,
        } => Reading::Look(Look::Rows(Wanted { table, form })).of(file, options),
        Request::Cells {
            file,
            cells: Cells::Places(table),
            options,
        } => Reading::Look(Look::Places(table)).of(file, options),
        Request::Cells {
            file,
            cells: Cells::Deleted { all },
            options,
        } => Reading::Look(Look::Deleted { all }).of(file, options),
        Request::Diff {
            file,
            compared,
            options,
        } => {
            let at = compared.to;
            Reading::Diff(Difference::Rows(compared)).of(file, Options { at, ..options })
        }
        Request::DeletedDiff {
            file,
            between,
            options,
        } => {
            let at = between.to;
            Reading::Diff(Difference::Deleted(between)).of(file, Options { at, ..options })
        }
        Request::Recover {
            file,
            to: Some(to),
            options,
            ..
        } => Reading::Copy(to).of(file, options),
        Request::Report {
            file,
            to,
            changes,
            options,
        } => Reading::Report { to, changes }.of(file, options),
        Request::Salvage {
            file,
            to,
            places,
            options,
        } => Reading::Salvage { to, places }.of(file, options),
        Request::Recover {
            file,
            to: None,
            force,
            options,
        } => Task::Recover(file, force, options),
        Request::Version => Task::Version,
    }
}
