//! The arguments and options of the commands. Each step with clap has one function.
use clap::{Arg, ArgAction, value_parser};
use std::alloc::{AllocError, Global};

/// What may need memory.
pub(crate) type Made<T> = Result<T, AllocError>;

/// An option without a value.
fn flag<'a>(alloc: Global, name: &'a str, help: &'a str) -> Arg<'a> {
    Arg::new(alloc, name)
        .long(name)
        .action(ArgAction::SetTrue)
        .help(help)
}

/// An option with a value.
fn option<'a>(alloc: Global, name: &'a str, value: &'a str, help: &'a str) -> Arg<'a> {
    Arg::new(alloc, name)
        .long(name)
        .value_name(value)
        .action(ArgAction::Set)
        .help(help)
}

/// An argument that can't be given together with this one.
fn without<'a>(arg: Made<Arg<'a>>, other: &'a str) -> Made<Arg<'a>> {
    arg?.conflicts_with(other)
}

/// An argument that can be given only with this one.
pub(crate) fn only_with<'a>(arg: Arg<'a>, other: &'a str) -> Made<Arg<'a>> {
    arg.requires_arg(other)
}

/// The argument that names the database file.
pub(crate) fn file_arg<'a>(alloc: Global) -> Arg<'a> {
    Arg::new(alloc, "FILE")
        .required(true)
        .action(ArgAction::Set)
        .help("The database file; its logs are FILE-wal and FILE-journal")
}

/// The file argument of a command that accepts several files. A line that is read here has only one of them.
pub(crate) fn files_arg<'a>(alloc: Global) -> Arg<'a> {
    file_arg(alloc).num_args(1..)
}

pub(crate) fn verbose_arg<'a>(alloc: Global) -> Arg<'a> {
    flag(
        alloc,
        "verbose",
        "Print notes on standard error: files read, log used, why refused",
    )
    .short('v')
}

pub(crate) fn super_journal_arg<'a>(alloc: Global) -> Arg<'a> {
    let answers: &'static [&'static str] = &["present", "gone", "look"];
    option(
        alloc,
        "super-journal",
        "STATE",
        "Whether the super-journal exists; look: see if it does, as SQLite would",
    )
    .require_equals(true)
    .value_parser(answers)
}

pub(crate) fn json_arg<'a>(alloc: Global) -> Arg<'a> {
    flag(
        alloc,
        "json",
        "Print each line as a JSON object, and a refusal too",
    )
}

pub(crate) fn at_arg<'a>(alloc: Global) -> Arg<'a> {
    option(
        alloc,
        "at",
        "M",
        "Use the database as of commit frame M; 0: before the first one",
    )
    .value_parser(value_parser!(u32))
}

pub(crate) fn large_arg<'a>(alloc: Global) -> Arg<'a> {
    flag(
        alloc,
        "large",
        "Accept a database above 1 GiB, or a log above 2,097,152 frames",
    )
}

pub(crate) fn any_arg<'a>(alloc: Global) -> Arg<'a> {
    flag(
        alloc,
        "any",
        "Accept any database: --large, --pointer-maps and --super-journal=look",
    )
}

pub(crate) fn pointer_maps_arg<'a>(alloc: Global) -> Arg<'a> {
    flag(
        alloc,
        "pointer-maps",
        "Accept a database with auto-vacuum, and check its pointer maps",
    )
}

/// The option for pointer maps of `show`, which needs `--pages`.
pub(crate) fn shown_maps_arg<'a>(alloc: Global) -> Made<Arg<'a>> {
    let maps = only_with(pointer_maps_arg(alloc), "pages");
    without(without(without(maps, "page"), "log"), "commits")
}

pub(crate) fn page_arg<'a>(alloc: Global) -> Made<Arg<'a>> {
    let page = option(alloc, "page", "N", "Print page N instead");
    let page = Ok(page.value_parser(value_parser!(u32).range(1..)));
    without(without(without(page, "log"), "commits"), "pages")
}

pub(crate) fn pages_arg<'a>(alloc: Global) -> Made<Arg<'a>> {
    let help = "Print the use of each page instead, and check the database";
    let pages = Ok(flag(alloc, "pages", help));
    without(without(pages, "log"), "commits")
}

pub(crate) fn log_arg<'a>(alloc: Global) -> Made<Arg<'a>> {
    without(Ok(flag(alloc, "log", "Print the log instead")), "at")
}

pub(crate) fn all_arg<'a>(alloc: Global) -> Made<Arg<'a>> {
    let help = "Also list the frames or records after the valid log";
    only_with(flag(alloc, "all", help), "log")
}

pub(crate) fn commits_arg<'a>(alloc: Global) -> Made<Arg<'a>> {
    let help = "List the commits in the write-ahead log instead";
    without(without(Ok(flag(alloc, "commits", help)), "log"), "at")
}

/// Where `recover` writes its copy.
pub(crate) fn copy_arg<'a>(alloc: Global) -> Arg<'a> {
    option(
        alloc,
        "to",
        "OUT",
        "Write the recovered database to a new file OUT; leave FILE alone",
    )
}

pub(crate) fn force_arg<'a>(alloc: Global) -> Arg<'a> {
    flag(
        alloc,
        "force",
        "Go on if another process has FILE locked; it may become malformed",
    )
}

/// How long to wait for SQLite's locks. The line that is read here no longer has it.
pub(crate) fn wait_arg<'a>(alloc: Global) -> Arg<'a> {
    option(
        alloc,
        "wait",
        "SECONDS",
        "Wait up to SECONDS for locks that others hold; default 5, in place 0",
    )
    .value_parser(value_parser!(u32))
}

/// Whether to leave out SQLite's locks. The line that is read here no longer has it.
pub(crate) fn no_lock_arg<'a>(alloc: Global) -> Arg<'a> {
    flag(
        alloc,
        "no-lock",
        "Take no locks; you must make sure that nobody else writes",
    )
}

/// Where `report` writes its page.
pub(crate) fn report_arg<'a>(alloc: Global) -> Arg<'a> {
    option(
        alloc,
        "to",
        "OUT",
        "Write the new file OUT, one HTML page; - prints it instead",
    )
    .required(true)
}

/// Where `salvage` writes its script.
pub(crate) fn script_file_arg<'a>(alloc: Global) -> Arg<'a> {
    option(
        alloc,
        "to",
        "OUT",
        "Write the new file OUT, SQL for sqlite3 -safe; - prints it instead",
    )
    .required(true)
}

/// Whether the script names places.
pub(crate) fn places_arg<'a>(alloc: Global) -> Arg<'a> {
    flag(
        alloc,
        "places",
        "Add a comment with page and cell before each row",
    )
}

/// What else `report` shows.
pub(crate) fn changes_arg<'a>(alloc: Global) -> Arg<'a> {
    flag(
        alloc,
        "changes",
        "Also show the rows that each commit of the log changed",
    )
}

/// What else `check` checks.
pub(crate) fn deep_arg<'a>(alloc: Global) -> Arg<'a> {
    flag(
        alloc,
        "deep",
        "Also check records, schema, indexes, NOT NULL and column types",
    )
}

/// Whether all of it is to be judged.
pub(crate) fn complete_arg<'a>(alloc: Global) -> Made<Arg<'a>> {
    let help = "Refuse a sound database if anything but a view or trigger wasn't judged";
    only_with(flag(alloc, "complete", help), "deep")
}

/// The table whose rows are printed.
pub(crate) fn table_arg<'a>(alloc: Global) -> Arg<'a> {
    option(
        alloc,
        "table",
        "NAME",
        "Print only this table; the case of ASCII letters is ignored",
    )
}

/// The table whose changes are printed.
pub(crate) fn changed_table_arg<'a>(alloc: Global) -> Arg<'a> {
    option(
        alloc,
        "table",
        "NAME",
        "Print only the changes of this table; may be given several times",
    )
    .action(ArgAction::Append)
}

/// The first commit to compare.
pub(crate) fn from_arg<'a>(alloc: Global) -> Arg<'a> {
    option(
        alloc,
        "from",
        "M",
        "Compare from commit frame M; default: 0, before the first commit",
    )
    .value_parser(value_parser!(u32))
}

/// The last commit to compare.
pub(crate) fn until_arg<'a>(alloc: Global) -> Arg<'a> {
    option(
        alloc,
        "to",
        "N",
        "Compare up to commit frame N; default: the current database",
    )
    .value_parser(value_parser!(u32))
}

/// Whether to print the changes of each commit.
pub(crate) fn each_commit_arg<'a>(alloc: Global) -> Made<Arg<'a>> {
    let help = "Print the changes of each commit after M and up to N";
    without(Ok(flag(alloc, "commits", help)), "sql")
}

/// Whether to print changes as SQL.
pub(crate) fn script_arg<'a>(alloc: Global) -> Made<Arg<'a>> {
    let help = "Print SQL that turns the old rows into the new ones";
    without(Ok(flag(alloc, "sql", help)), "json")
}

pub(crate) fn csv_arg<'a>(alloc: Global) -> Made<Arg<'a>> {
    let help = "Print comma-separated values, a line per row; this is the default";
    without(without(Ok(flag(alloc, "csv", help)), "json"), "sql")
}

pub(crate) fn sql_arg<'a>(alloc: Global) -> Made<Arg<'a>> {
    let help = "Print SQL that recreates the rows; without --table the database";
    without(Ok(flag(alloc, "sql", help)), "json")
}

/// Whether places are printed for rows.
pub(crate) fn cells_arg<'a>(alloc: Global) -> Made<Arg<'a>> {
    let help = "Print page, cell and log frame of each row, and not its values";
    without(without(Ok(flag(alloc, "places", help)), "csv"), "sql")
}

/// Whether deleted rows are printed.
pub(crate) fn deleted_arg<'a>(alloc: Global) -> Made<Arg<'a>> {
    let help = "Print cells that look like deleted rows; some may never have been";
    let arg = without(without(Ok(flag(alloc, "deleted", help)), "csv"), "sql");
    without(without(arg, "places"), "table")
}

/// Whether to search the log for deleted rows as well.
pub(crate) fn all_deleted_arg<'a>(alloc: Global) -> Made<Arg<'a>> {
    let help = "Also search superseded and uncommitted frames of the log";
    only_with(flag(alloc, "all", help), "deleted")
}

/// Whether to print how the cells of deleted rows changed.
pub(crate) fn deleted_changes_arg<'a>(alloc: Global) -> Made<Arg<'a>> {
    let help = "Print which cells of rows --deleted went and came instead";
    let arg = without(without(Ok(flag(alloc, "deleted", help)), "sql"), "commits");
    without(arg, "table")
}

pub(crate) fn version_arg<'a>(alloc: Global) -> Arg<'a> {
    flag(alloc, "version", "Print the version").short('V')
}
