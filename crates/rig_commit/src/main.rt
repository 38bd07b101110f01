//! Commits of the engines walcore and rollcore over real files, for rig/record to record.
#![tactic(auto)]

mod failure;
mod pages;
mod runs;

use crate::failure::Failure;
use crate::runs::{run_roll, run_wal};
use filedisk::FileDisk;
use std::env::{self, Env};
use std::fs::OpenOptions;
use std::io::Write;
use std::os::unix::fs::FileExt;
use std::process::ExitCode;
use std::rt::Files;

/// The disk over a database file and its log, both of which are there.
fn open<R: Files>(rt: &R, file: &str, log: &str) -> Result<FileDisk<R::File>, Failure>
where
    R::File: FileExt,
{
    let db = OpenOptions::new().read(true).write(true).open(rt, file)?;
    let log = OpenOptions::new().read(true).write(true).open(rt, log)?;
    Ok(FileDisk::new(db, log))
}

/// Prints how the program is used where the words ask for that.
fn helped<R: Print>(rt: &R, words: &[String]) -> Result<(), Failure> {
    match words {
        [_, word] if word.as_str() == "--help" => Ok(rt.println(Failure::Words)?),
        _ => Err(Failure::Words),
    }
}

/// Commits by one of the engines to the database file that the words name.
fn answer<R: Env + Files + Print + AllocGlobal>(rt: &R) -> Result<(), Failure>
where
    R::File: FileExt,
{
    let alloc = rt.alloc();
    let words: Vec<String> = env::args(rt)?.collect(alloc)?;
    let [_, engine, file] = words.as_slice() else {
        return helped(rt, &words);
    };
    let path = match env::var(rt, "SQCRASH_MARKS") {
        Ok(path) => path,
        Err(_) => return Err(Failure::Words),
    };
    let mut marks = OpenOptions::new()
        .append(true)
        .create(true)
        .open(rt, path.as_str())?;
    let file = file.as_str();
    match engine.as_str() {
        "wal" => {
            let log = format!(in alloc; "{file}-wal")?;
            run_wal(alloc, open(rt, file, log.as_str())?, &mut marks)
        }
        "journal" => {
            let log = format!(in alloc; "{file}-journal")?;
            run_roll(alloc, open(rt, file, log.as_str())?, &mut marks)
        }
        _ => Err(Failure::Words),
    }
}

fn main(rt: HostRuntime) -> ExitCode {
    match answer(&rt) {
        Ok(()) => ExitCode::SUCCESS,
        Err(failure) => {
            let _ = writeln!(rt.stderr(), "rig_commit: {failure}");
            ExitCode::FAILURE
        }
    }
}
