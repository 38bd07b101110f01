//! What is said of words that can't be read.
ghost use Rattle.std.specs.Prelude.{◌≤◌};

use crate::program::{printed, refused};
use cli_args::LineError;
use cli_facts::Status;
use std::env::{Env, FillError};
use std::io::{self, Write};
use std::str;

/// The bytes that a word may have to be named, as many as Linux opens a path by.
const MOST_BYTES: usize = 4096;
/// The words that are looked at, at most.
const MOST_WORDS: usize = 65536;

/// Names the first word that isn't UTF-8, as shells read it. None longer than a path may be is named.
fn name_word<R: Env, E: Write>(rt: &R, err: &mut E) -> io::Result<()> {
    let mut room = [0; MOST_BYTES];
    for at in 1..MOST_WORDS {
        let length = match rt.arg(at, &mut room) {
            Ok(length) => length,
            Err(FillError::TooLong) => 0,
            Err(FillError::NotPresent) => break,
        };
        let word = room.get(..length).unwrap_or(&[]);
        if str::from_utf8(word).is_err() {
            let name = word.escape_ascii();
            return writeln!(
                err,
                "sqrescue: note: $'{name}' isn't UTF-8: give the file and its logs such names"
            );
        }
    }
    Ok(())
}

/// The status where the words can't be read: 3 for want of memory, 2 where they aren't text, of which the first is
/// named.
pub(crate) fn unread<R: Env, E: Write>(rt: &R, err: &mut E, error: &io::Error) -> u8
    ensures { result ≤ 3 }
{
    let status = match error.kind() {
        io::ErrorKind::OutOfMemory => refused(err, &LineError::NoMemory),
        _ => {
            let _ = name_word(rt, err);
            printed(
                err,
                &"sqrescue: the words aren't text",
                Status::NotUnderstood,
            )
        }
    };
    status.code()
}
