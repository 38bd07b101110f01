//! What is to be done with a command line.
ghost use Rattle.std.specs.Prelude.{◌≡◌, ◌≢◌, ◌↔◌, IfOk, IfSome, IsTrue, MatchOption, Some, false};
ghost use Rattle.std.specs.Prelude.{string_bytes, unwrap_or};
ghost use Rattle.cli_held.specs.Held.{IsTold};
ghost use Rattle.cli_held.specs.Prepared.{IsPrepared, IsToldOf, default_wait, number_of, wanting_text};
ghost use Rattle.cli_held.specs.Todo.{AreSome, IsReason, texts};
ghost use Rattle.cli_held.specs.Wants.{IsWanted};
ghost use Rattle.cli_held.specs.internal.Asking.{IsUnheld, KeepsAsking};

use crate::fdinfo::{Held, held_by};
use crate::line::{Hidden, Line, line_of};
use crate::wants::wanted;
use cli_args::request;
use sqlocks::Want;
use std::alloc::{AllocError, Global};
use std::rt::Files;
use std::{fs, io};

/// How long a reader waits for locks where it isn't said, in seconds.
const READER_WAITS: u32 = 5;

/// Why locks can't be had.
#[derive(Clone, Copy, Debug, PartialEq, Eq)]
pub enum Why {
    /// Somebody holds one in the way.
    InUse,
    /// There are none where the file is.
    NoLocks,
    /// FILE-shm can't be opened for writing, which a recovery locks.
    FileFailed,
}

/// What is known of the locks under which words are carried out.
#[derive(Clone, Copy, Debug, PartialEq, Eq)]
pub enum Locks {
    /// None are held: the words want none, nobody took any, or none are to be taken.
    None,
    /// None are held by these readers, since there are none where the file is.
    NotThere,
    /// They are held.
    Held(Held),
}

/// What is to be done.
#[derive(Drop)]
pub enum Todo<'a> {
    /// To carry out these words under these locks.
    Run {
        words: Vec<&'a str>,
        locks: Locks,
        /// For how many seconds what is read is read again, where others change it meanwhile.
        wait: u32,
    },
    /// To print this: which locks the words ask for, with a newline at its end; nothing where they ask for none.
    Tell(String),
    /// To refuse these words, since the locks can't be had, for this reason.
    Refuse(Vec<&'a str>, Why),
}

/// The path of the file that a path leads to, and whether that is a link. One that is none is left as it is given.
fn resolved<R: Files + AllocGlobal>(rt: &R, file: &str) -> io::Result<(String, bool)>
    ensures { IfOk result (λ found. found.1 ≡ false → string_bytes found.0 ≡ file.now) }
{
    if fs::symlink_metadata(rt, file)?.is_symlink() {
        return Ok((fs::canonicalize(rt, file)?.into_string(), true));
    }
    Ok((String::from_str(rt.alloc(), file)?, false))
}

/// What words want locks for, and on which file; none where they aren't understood, or want none.
fn wanted_by<'a>(alloc: Global, words: &'a [&'a str]) -> Option<(Want, &'a str)>
    ensures { IfSome result (λ found. IsWanted (texts words.entry.now) found.0 found.1) }
{
    match request(alloc, words) {
        Ok(request) => wanted(&request),
        Err(_) => None,
    }
}

/// How long is waited for locks, in seconds.
fn waits(want: Want, wait: Option<u32>) -> u32
    ensures { result ≡ unwrap_or wait (default_wait want) }
{
    match (wait, want) {
        (Some(seconds), _) => seconds,
        (None, Want::Read) => READER_WAITS,
        (None, Want::Recover) => 0,
    }
}

/// The number that says what locks are wanted for: 0 for a reader and 1 for a recovery.
fn number_of(want: Want) -> u32
    ensures { result ≡ number_of want }
{
    match want {
        Want::Read => 0,
        Want::Recover => 1,
    }
}

/// Which locks are wanted on the file of this path, in a line: the number that says what for, for how many seconds they
/// are waited for, and the path.
fn told(alloc: Global, want: Want, wait: u32, path: &str) -> Result<String, AllocError>
    ensures { IfOk result (λ line. string_bytes line ≡ wanting_text want wait path.now) }
{
    let number = number_of(want);
    format!(in alloc; "{number} {wait} {path}\n")
}

/// The line that says which locks these words ask for; nothing where they ask for none.
fn asked_for<R: Files + AllocGlobal>(rt: &R, line: &Line<'_>) -> io::Result<String>
    ensures { IfOk result (λ text. IsToldOf line.now (string_bytes text)) }
{
    if line.is_unlocked {
        return Ok(String::new(rt.alloc()));
    }
    match wanted_by(rt.alloc(), line.words.as_slice()) {
        Some((want, file)) => {
            let (path, _) = resolved(rt, file)?;
            Ok(told(rt.alloc(), want, waits(want, line.wait), path.as_str())?)
        }
        None => Ok(String::new(rt.alloc())),
    }
}

/// The same; nothing also where the file isn't there.
fn told_line<R: Files + AllocGlobal>(rt: &R, line: &Line<'_>) -> String
    ensures { IsToldOf line.now (string_bytes result) }
{
    match asked_for(rt, line) {
        Ok(text) => text,
        Err(_) => String::new(rt.alloc()),
    }
}

/// The locks that words want which are held by open files of these numbers.
fn held_for<R: Files + AllocGlobal>(
    rt: &R,
    words: &[&str],
    numbers: &str,
) -> io::Result<(Option<Want>, Held)>
    ensures { IfOk result (λ found. MatchOption found.0 (found.1 ≡ Held.Nothing) (λ want. IsTold want found.1)) }
{
    match wanted_by(rt.alloc(), words) {
        Some((want, file)) => {
            let (path, _) = resolved(rt, file)?;
            Ok((Some(want), held_by(rt, numbers, want, path.as_str())?))
        }
        None => Ok((None, Held::Nothing)),
    }
}

/// The words of a recovery, with the option by which nobody is asked whether the file is in use.
fn unasked<'a>(alloc: Global, words: &[&'a str]) -> io::Result<Vec<&'a str>>
    ensures { IfOk result (λ all. AreSome (texts words.entry.now) (texts all.items)) }
{
    let mut all = Vec::new(alloc);
    for i in 0..words.len() {
        if i == 2 {
            all.push("--force")?;
        }
        all.push(words[i])?;
    }
    Ok(all)
}

/// What words want locks for, if they do.
fn want_of(alloc: Global, words: &[&str]) -> Option<Want> {
    match wanted_by(alloc, words) {
        Some((want, _)) => Some(want),
        None => None,
    }
}

/// The words of a recovery that isn't to ask, and all others as they are.
fn asking_nobody<'a>(
    alloc: Global,
    words: Vec<&'a str>,
    want: Option<Want>,
) -> io::Result<Vec<&'a str>>
    ensures same { want ≢ Some Want.Recover → IfOk result (λ all. all ≡ words.entry) }
    ensures some { IfOk result (λ all. AreSome (texts words.entry.items) (texts all.items)) }
{
    match want {
        Some(Want::Recover) => unasked(alloc, words.as_slice()),
        _ => Ok(words),
    }
}

/// Whether some locks are held.
fn are_held(held: Held) -> bool
    ensures { IsTrue result ↔ (held ≢ Held.Nothing) }
{
    !matches!(held, Held::Nothing)
}

/// What is to be done with words whose locks open files of these numbers hold. Where the system doesn't say so they are
/// carried out as without.
fn to_run<'a, R: Files + AllocGlobal>(
    rt: &R,
    words: Vec<&'a str>,
    numbers: &str,
    wait: u32,
) -> io::Result<Todo<'a>>
    ensures { IfOk result (KeepsAsking (Some (Hidden.Held numbers.entry)) (texts words.entry.items) wait) }
{
    match held_for(rt, words.as_slice(), numbers) {
        Ok((want, held)) if are_held(held) => Ok(Todo::Run {
            words: asking_nobody(rt.alloc(), words, want)?,
            locks: Locks::Held(held),
            wait,
        }),
        _ => Ok(Todo::Run {
            words,
            locks: Locks::None,
            wait,
        }),
    }
}

/// Why locks can't be had, by the word that says it.
fn reason_of(word: &str) -> Why
    ensures { IsReason word.now result }
{
    if word == "no-locks" {
        return Why::NoLocks;
    }
    if word == "file-failed" {
        return Why::FileFailed;
    }
    Why::InUse
}

/// What is to be done with words whose locks can't be had.
fn without<'a>(alloc: Global, words: Vec<&'a str>, why: &str, wait: u32) -> Todo<'a>
    ensures { KeepsAsking (Some (Hidden.Refused why.entry)) (texts words.entry.items) wait result }
{
    match (want_of(alloc, words.as_slice()), reason_of(why)) {
        (None, _) => Todo::Run {
            words,
            locks: Locks::None,
            wait,
        },
        (Some(Want::Read), Why::NoLocks) => Todo::Run {
            words,
            locks: Locks::NotThere,
            wait,
        },
        (Some(_), reason) => Todo::Refuse(words, reason),
    }
}

/// What is to be done with words that are to be carried out without locks: at once, and nobody is asked.
fn unlocked<'a>(alloc: Global, words: Vec<&'a str>) -> io::Result<Todo<'a>>
    ensures { IfOk result (IsUnheld (texts words.entry.items)) }
{
    let want = want_of(alloc, words.as_slice());
    Ok(Todo::Run {
        words: asking_nobody(alloc, words, want)?,
        locks: Locks::None,
        wait: 0,
    })
}

/// What is to be done with words before which this stood.
fn ready<'a, R: Files + AllocGlobal>(
    rt: &R,
    hidden: Option<Hidden<'a>>,
    words: Vec<&'a str>,
    wait: u32,
) -> io::Result<Todo<'a>>
    ensures { IfOk result (KeepsAsking hidden.entry (texts words.entry.items) wait) }
{
    match hidden {
        Some(Hidden::Held(numbers)) => to_run(rt, words, numbers, wait),
        Some(Hidden::Refused(why)) => Ok(without(rt.alloc(), words, why, wait)),
        _ => Ok(Todo::Run {
            words,
            locks: Locks::None,
            wait,
        }),
    }
}

/// What is to be done with the words of a command line, whose first is the program's name. Where a recovery's locks are
/// held, or it is to go on without, it is one that asks nobody. An error for want of memory.
pub fn prepared<'a, R: Files + AllocGlobal>(rt: &R, words: &'a [&'a str]) -> io::Result<Todo<'a>>
    ensures { IfOk result (IsPrepared (texts words.entry.now)) }
{
    let line = line_of(rt.alloc(), words)?;
    if line.hidden == Some(Hidden::Locks) {
        return Ok(Todo::Tell(told_line(rt, &line)));
    }
    let wait = waits(Want::Read, line.wait);
    let Line {
        hidden,
        words,
        is_unlocked,
        ..
    } = line;
    if is_unlocked {
        return unlocked(rt.alloc(), words);
    }
    ready(rt, hidden, words, wait)
}
