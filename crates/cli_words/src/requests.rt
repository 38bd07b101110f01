//! What a command line asks for.
ghost use Rattle.std.specs.Prelude.{◌≡◌};
ghost use Rattle.cli_words.specs.Commits.{commit_named, last_of};

use crate::tables::Tables;

/// What of a database file is shown.
#[derive(Clone, Copy, Debug, PartialEq, Eq)]
pub enum Part {
    /// Its header.
    Header,
    /// The page of this number, from 1.
    Page(u32),
    /// Its log; all: also what stands behind the log's stop.
    Log { all: bool },
    /// The commits in its write-ahead log.
    Commits,
    /// What each of its pages is used for.
    Pages,
}

/// Whether the super-journal that a hot journal names exists.
#[derive(Clone, Copy, Debug, PartialEq, Eq)]
pub enum SuperJournal {
    /// It does: the journal is current.
    Present,
    /// It doesn't: the transaction was committed, and the journal is ignored.
    Gone,
    /// The file system decides, as for SQLite.
    Look,
}

/// How what is found is written.
#[derive(Clone, Copy, Debug, PartialEq, Eq)]
pub enum Style {
    /// As lines of words and numbers.
    Lines,
    /// As a JSON object a line.
    Json,
}

/// How rows are printed.
#[derive(Clone, Copy, Debug, PartialEq, Eq)]
pub enum RowForm {
    /// As a JSON object a row.
    Json,
    /// As comma-separated values, a line a row.
    Csv,
    /// As INSERTs of SQL.
    Sql,
}

/// Which cells of rows are told of, by their places.
#[derive(Clone, Copy, Debug, PartialEq, Eq)]
pub enum Cells<'a> {
    /// Those of the rows of the table of this name. None: of each table.
    Places(Option<&'a str>),
    /// Those of deleted rows, as far as they still stand in the pages; all: also in the frames of the log that aren't
    /// shown.
    Deleted { all: bool },
}

/// How changes of rows are printed.
#[derive(Clone, Copy, Debug, PartialEq, Eq)]
pub enum ChangeForm {
    /// A line a change, behind a line that names the table.
    Lines,
    /// As a JSON object a change.
    Json,
    /// As a script of SQL.
    Sql,
}

/// Between which commits rows are compared, of which tables, and how the changes are printed.
#[derive(Clone, Copy, Debug, PartialEq, Eq)]
pub struct Compared<'a> {
    /// The commit frame of the write-ahead log from which on; 0: before the first one.
    pub from: u32,
    /// The commit frame up to which. None: the last one.
    pub to: Option<u32>,
    pub tables: Tables<'a>,
    pub form: ChangeForm,
    /// Whether each commit behind the first one is compared with the one before it.
    pub commits: bool,
}

/// Between which commits the cells of deleted rows are compared.
#[derive(Clone, Copy, Debug, PartialEq, Eq)]
pub struct Between {
    /// The commit frame of the write-ahead log from which on; 0: before the first one.
    pub from: u32,
    /// The commit frame up to which. None: the last one.
    pub to: Option<u32>,
}

/// What a deep check may be asked besides.
#[derive(Clone, Copy, Debug, PartialEq, Eq)]
pub struct Deep {
    /// To refuse a sound database if something isn't judged.
    pub complete: bool,
}

/// What each command may be asked besides.
#[derive(Clone, Copy, Debug, PartialEq, Eq)]
pub struct Options {
    /// To say on standard error what is done and why.
    pub verbose: bool,
    /// Whether the super-journal exists, or that the file system decides. None: unknown.
    pub super_journal: Option<SuperJournal>,
    /// To take the database as it was at this commit frame of the write-ahead log, 0 for before the first one. None: as
    /// it was at the last one.
    pub at: Option<u32>,
    /// The front of the log by its index, up to which its frames are read, 0 for none of them. None, as every line asks
    /// for it: up to the last commit.
    pub front: Option<u32>,
    /// How to write what is found.
    pub style: Style,
    /// To read databases of up to 1,099,511,627,776 bytes and logs of up to 4,294,967,294 frames.
    pub large: bool,
    /// To take a database with auto-vacuum too, and to judge its pointer maps. Nothing to a recovery.
    pub pointer_maps: bool,
}

/// At which commit of its log a database is read.
#[derive(Clone, Copy, Debug, PartialEq, Eq)]
pub enum Commit {
    /// At the last one; without a log the file as it is.
    Last,
    /// At the front that the log's index names: the file with the frames up to this one. 0: the file as it is.
    Front(u32),
    /// At the one that ends with this frame, whatever was copied into the file since. 0: before the first one.
    At(u32),
}

impl Commit {
    /// Up to which frame of the log the database is read. None: up to the last commit.
    pub fn last(self) -> Option<u32>
        ensures { result ≡ last_of self }
    {
        match self {
            Commit::Last => None,
            Commit::Front(frame) | Commit::At(frame) => Some(frame),
        }
    }
}

impl Options {
    /// At which commit the database is read: the one that is asked for, otherwise the front by the index, otherwise the
    /// last one.
    pub fn commit(&self) -> Commit
        ensures { result ≡ commit_named self.now }
    {
        match (self.at, self.front) {
            (Some(frame), _) => Commit::At(frame),
            (None, Some(front)) => Commit::Front(front),
            (None, None) => Commit::Last,
        }
    }
}

/// What a line asks for.
#[derive(Clone, Copy, Debug, PartialEq, Eq)]
pub enum Request<'a> {
    /// To show a part of this database file.
    Show {
        file: &'a str,
        part: Part,
        options: Options,
    },
    /// To check this database file as its log has it; deep: also what its pages hold.
    Check {
        file: &'a str,
        deep: Option<Deep>,
        options: Options,
    },
    /// To print the rows of this database file as its log has them: of the table of this name. None: of each table.
    Rows {
        file: &'a str,
        table: Option<&'a str>,
        form: RowForm,
        options: Options,
    },
    /// To print where rows of this database file stand as its log has them, or what still stands of deleted ones.
    Cells {
        file: &'a str,
        cells: Cells<'a>,
        options: Options,
    },
    /// To print which rows of this database file changed between two commits of its log.
    Diff {
        file: &'a str,
        compared: Compared<'a>,
        options: Options,
    },
    /// To print which cells of deleted rows of this database file went and came between two commits of its log.
    DeletedDiff {
        file: &'a str,
        between: Between,
        options: Options,
    },
    /// To recover this database file: to fold its write-ahead log into it, or to roll it back by its hot journal; by
    /// force: even while another process has it open. To another file, which is made: this one isn't written.
    Recover {
        file: &'a str,
        to: Option<&'a str>,
        force: bool,
        options: Options,
    },
    /// To make another file that reports on this database file, which a browser shows; changes: also on which rows each
    /// commit of its log changed.
    Report {
        file: &'a str,
        to: &'a str,
        changes: bool,
        options: Options,
    },
    /// To make another file: SQL that makes what rows can be read of this database file; places: with the page and the
    /// cell of each.
    Salvage {
        file: &'a str,
        to: &'a str,
        places: bool,
        options: Options,
    },
    /// To say which version this is.
    Version,
}
