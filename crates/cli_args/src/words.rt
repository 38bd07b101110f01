//! The words of a command line.
ghost use Rattle.std.specs.Prelude.{map, IfOk, IfSome};
ghost use Rattle.cli_words.specs.Line.{Asks};

use crate::commands::command;
use crate::texts::{CONTRADICTION, PIPE};
use clap::error::ErrorKind;
use clap::{ArgMatches, Command};
use cli_words::{Request, asked, asks_version};
use std::alloc::Global;
use thiserror::Error;

/// Why a line asks for nothing.
#[derive(Debug, Drop, Error)]
pub enum LineError {
    /// The words aren't understood; the text says which.
    #[error("{0}")]
    NotUnderstood(clap::Error),
    /// They ask for help, which the text is.
    #[error("{0}")]
    Help(clap::Error),
    /// No memory to read them.
    #[error("no memory")]
    NoMemory,
}

/// Reads a line, whose first word is the program's name. `NotUnderstood` too where options contradict one another.
pub fn request<'a>(alloc: Global, words: &'a [&'a str]) -> Result<Request<'a>, LineError>
    ensures { IfOk result (Asks (map (λ w. w.now) words.entry.now)) }
{
    if asks_version(words) {
        return Ok(Request::Version);
    }
    let mut command = command(alloc).map_err(|_| LineError::NoMemory)?;
    read(&mut command, words)
}

/// Reads a line by this command.
fn read<'a>(command: &mut Command<'a>, words: &'a [&'a str]) -> Result<Request<'a>, LineError>
    ensures { IfOk result (Asks (map (λ w. w.now) words.entry.now)) }
{
    let matches = command.try_get_matches_from_mut(words).map_err(refused)?;
    match matched(words, &matches) {
        Ok(request) => Ok(request),
        Err(amiss) => Err(not_understood(command, amiss)),
    }
}

/// Why words ask for nothing that clap takes one by one.
#[derive(Clone, Copy)]
enum Amiss {
    /// Options contradict one another.
    Contradiction,
    /// The file is `-`, by which others read from a pipe.
    Pipe,
}

/// Whether a file is `-`, and isn't named behind a `--`.
fn is_pipe(words: &[&str], file: &str) -> bool {
    file == "-" && !words.iter().rev().skip(1).any(|word| *word == "--")
}

/// What the words ask for that clap took apart.
fn matched<'a>(words: &'a [&'a str], matches: &ArgMatches<'a>) -> Result<Request<'a>, Amiss>
    ensures { IfOk result (Asks (map (λ w. w.now) words.entry.now)) }
{
    let Some((command, matches)) = matches.subcommand() else {
        return Err(Amiss::Contradiction);
    };
    match matches.get_str("FILE") {
        Some(file) if is_pipe(words, file) => Err(Amiss::Pipe),
        Some(file) => asked(words, command, file).ok_or(Amiss::Contradiction),
        None => Err(Amiss::Contradiction),
    }
}

/// The fault of words that clap takes one by one.
fn not_understood(command: &mut Command<'_>, amiss: Amiss) -> LineError {
    let (kind, text) = match amiss {
        Amiss::Contradiction => (ErrorKind::ArgumentConflict, CONTRADICTION),
        Amiss::Pipe => (ErrorKind::InvalidValue, PIPE),
    };
    match command.error(kind, text) {
        Ok(error) => LineError::NotUnderstood(error),
        Err(_) => LineError::NoMemory,
    }
}

fn refused(error: clap::Error) -> LineError {
    match error.kind() {
        ErrorKind::DisplayHelp => LineError::Help(error),
        ErrorKind::OutOfMemory => LineError::NoMemory,
        _ => LineError::NotUnderstood(error),
    }
}
