//! The commands and their options. Each function accepts and returns a `Result`, and none exits early: an unfinished
//! command has much memory to free.
use crate::arguments::{
    Made, all_arg, all_deleted_arg, any_arg, at_arg, cells_arg, changed_table_arg, changes_arg,
    commits_arg, complete_arg, copy_arg, csv_arg, deep_arg, deleted_arg, deleted_changes_arg,
    each_commit_arg, file_arg, files_arg, force_arg, from_arg, json_arg, large_arg, log_arg,
    no_lock_arg, only_with, page_arg, pages_arg, places_arg, pointer_maps_arg, report_arg,
    script_arg, script_file_arg, shown_maps_arg, sql_arg, super_journal_arg, table_arg, until_arg,
    verbose_arg, version_arg, wait_arg,
};
use crate::texts::{ALL, CHECK, DIFF, RECOVER, REPORT, ROWS, SALVAGE, SHOW};
use clap::{Arg, Command};
use std::alloc::Global;

/// A command with one more argument.
fn with_arg<'a>(command: Made<Command<'a>>, arg: Made<Arg<'a>>) -> Made<Command<'a>> {
    let arg = arg?;
    command?.arg(arg)
}

/// A command with one more command below it.
fn with_command<'a>(command: Made<Command<'a>>, below: Made<Command<'a>>) -> Made<Command<'a>> {
    let below = below?;
    command?.subcommand(below)
}

/// A command with the file and the common options.
fn base_command<'a>(
    alloc: Global,
    name: &'a str,
    about: &'a str,
    examples: &'a str,
    file: Arg<'a>,
    at: Made<Arg<'a>>,
) -> Made<Command<'a>> {
    let command = Ok(Command::new(alloc, name).about(about).after_help(examples));
    let command = with_arg(command, Ok(file));
    let command = with_arg(command, Ok(verbose_arg(alloc)));
    let command = with_arg(command, Ok(json_arg(alloc)));
    let command = with_arg(command, at);
    let command = with_arg(command, Ok(any_arg(alloc)));
    let command = with_arg(command, Ok(large_arg(alloc)));
    let command = with_arg(command, Ok(super_journal_arg(alloc)));
    let command = with_arg(command, Ok(wait_arg(alloc)));
    with_arg(command, Ok(no_lock_arg(alloc)))
}

fn show_command<'a>(alloc: Global) -> Made<Command<'a>> {
    let about = "Print the header of the database, a page, or the log; write nothing";
    let command = base_command(
        alloc,
        "show",
        about,
        SHOW,
        files_arg(alloc),
        Ok(at_arg(alloc)),
    );
    let command = with_arg(command, page_arg(alloc));
    let command = with_arg(command, pages_arg(alloc));
    let command = with_arg(command, shown_maps_arg(alloc));
    let command = with_arg(command, log_arg(alloc));
    let command = with_arg(command, all_arg(alloc));
    with_arg(command, commits_arg(alloc))
}

fn check_command<'a>(alloc: Global) -> Made<Command<'a>> {
    let about = "Check the database together with its log; write nothing";
    let command = base_command(
        alloc,
        "check",
        about,
        CHECK,
        files_arg(alloc),
        Ok(at_arg(alloc)),
    );
    let command = with_arg(command, Ok(pointer_maps_arg(alloc)));
    let command = with_arg(command, Ok(deep_arg(alloc)));
    with_arg(command, complete_arg(alloc))
}

fn rows_command<'a>(alloc: Global) -> Made<Command<'a>> {
    let about = "Print the rows of each table; write nothing";
    let command = base_command(
        alloc,
        "rows",
        about,
        ROWS,
        file_arg(alloc),
        Ok(at_arg(alloc)),
    );
    let command = with_arg(command, Ok(table_arg(alloc)));
    let command = with_arg(command, csv_arg(alloc));
    let command = with_arg(command, sql_arg(alloc));
    let command = with_arg(command, cells_arg(alloc));
    let command = with_arg(command, deleted_arg(alloc));
    with_arg(command, all_deleted_arg(alloc))
}

fn diff_command<'a>(alloc: Global) -> Made<Command<'a>> {
    let about =
        "Print the rows that the log changed, or that a rollback would change; write nothing";
    let command = base_command(
        alloc,
        "diff",
        about,
        DIFF,
        file_arg(alloc),
        Ok(from_arg(alloc)),
    );
    let command = with_arg(command, Ok(until_arg(alloc)));
    let command = with_arg(command, Ok(changed_table_arg(alloc)));
    let command = with_arg(command, each_commit_arg(alloc));
    let command = with_arg(command, deleted_changes_arg(alloc));
    with_arg(command, script_arg(alloc))
}

fn salvage_command<'a>(alloc: Global) -> Made<Command<'a>> {
    let about = "Write the readable rows of a damaged database to OUT, as SQL; leave FILE alone";
    let command = base_command(
        alloc,
        "salvage",
        about,
        SALVAGE,
        file_arg(alloc),
        Ok(at_arg(alloc)),
    );
    let command = with_arg(command, Ok(places_arg(alloc)));
    with_arg(command, Ok(script_file_arg(alloc)))
}

fn recover_command<'a>(alloc: Global) -> Made<Command<'a>> {
    let about =
        "Copy the write-ahead log into FILE, or roll back its hot journal; nobody else may use FILE";
    let at = only_with(at_arg(alloc), "to");
    let command = base_command(alloc, "recover", about, RECOVER, file_arg(alloc), at);
    let command = with_arg(command, Ok(copy_arg(alloc)));
    with_arg(command, Ok(force_arg(alloc)))
}

fn report_command<'a>(alloc: Global) -> Made<Command<'a>> {
    let about = "Write an HTML page that shows the database and its log to OUT; leave FILE alone";
    let command = base_command(
        alloc,
        "report",
        about,
        REPORT,
        file_arg(alloc),
        Ok(at_arg(alloc)),
    );
    let command = with_arg(command, Ok(pointer_maps_arg(alloc)));
    let command = with_arg(command, Ok(changes_arg(alloc)));
    with_arg(command, Ok(report_arg(alloc)))
}

/// The program's command line.
pub(crate) fn command<'a>(alloc: Global) -> Made<Command<'a>> {
    let command = Command::new(alloc, "sqrescue")
        .about("Read, check and recover SQLite databases together with their logs")
        .after_help(ALL)
        .subcommand_required(true)
        .arg_required_else_help(true);
    let command = with_arg(Ok(command), Ok(version_arg(alloc)));
    let command = with_command(command, show_command(alloc));
    let command = with_command(command, check_command(alloc));
    let command = with_command(command, rows_command(alloc));
    let command = with_command(command, diff_command(alloc));
    let command = with_command(command, salvage_command(alloc));
    let command = with_command(command, recover_command(alloc));
    with_command(command, report_command(alloc))
}
