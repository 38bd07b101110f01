//! Whether another process has a database open.
ghost use Rattle.std.specs.Prelude.{◌≡◌, ◌<◌, ◌≤◌, ◌-◌, ℕ, length, slice_index, EachIndex, Err, IfErr, IfOk, IsOkAnd};
ghost use Rattle.std.specs.Fs.{IsDir, file_type};
ghost use Rattle.cli_facts.specs.declared.outcome.Refusal.TheVariants.{InUse};

use crate::paths::{Paths, is_missing, look_at};
use crate::progress::Count;
use cli_facts::{Guard, Identity, Notes, Refusal, identity_of, is_locked};
use std::cell::RefCell;
use std::fs::{Metadata, OpenOptions};
use std::io::{self, ErrorKind, Read, Write};
use std::rt::Files;
use std::str;

/// Where Linux lists the locks that processes hold.
const LOCKS: &str = "/proc/locks";

/// How many bytes of the list are held at once. A line of it has some 80, and what is longer is no line of a lock.
const ROOM: usize = 8192;

/// Asks whether a process holds a POSIX lock on a database file or on its FILE-shm, as each connection of SQLite does
/// that reads, writes, or has a database in WAL mode open, or whether a folder FILE.lock is there, as with SQLite's
/// unix-dotfile. If the locks can't be read, nothing is refused, and the reason is kept. It allocates no memory, so it
/// can also be asked after a file was changed. What is read is counted.
pub struct OpenElsewhere<'a, R: Files, M> {
    pub rt: &'a R,
    pub paths: &'a Paths,
    /// Nothing is asked.
    pub forced: bool,
    pub meter: &'a M,
    /// What the system said where the locks couldn't be read last.
    pub unread: &'a RefCell<Option<io::Error>>,
}

impl<R: Files, M> Drop for OpenElsewhere<'_, R, M> {
    fn drop(self) {
        let OpenElsewhere {
            rt: _,
            paths: _,
            forced: _,
            meter: _,
            unread: _,
        } = self;
    }
}

impl<R: Files, M> OpenElsewhere<'_, R, M> {
    /// Whether the list has a lock on either file.
    fn is_listed(&self, db: Identity, shm: Identity) -> io::Result<bool> {
        match OpenOptions::new().read(true).open(self.rt, LOCKS) {
            Ok(mut list) => has_lock(&mut list, db, shm),
            Err(error) => Err(error),
        }
    }
}

/// Whether a process is known to hold a lock on the index of a database's log, as each connection does that has it in
/// WAL mode.
pub fn is_index_live<R: Files>(rt: &R, paths: &Paths) -> bool {
    let Ok(index) = look_at(rt, paths.shm.as_str()) else {
        return false;
    };
    let index = identity_of(&index);
    match OpenOptions::new().read(true).open(rt, LOCKS) {
        Ok(mut list) => has_lock(&mut list, index, index).unwrap_or(false),
        Err(_) => false,
    }
}

/// Says that it isn't known whether another process has the files open, where the locks couldn't be read.
pub fn tell_unread<E: Write>(notes: &mut Notes<'_, E>, unread: &RefCell<Option<io::Error>>) {
    if let Ok(Some(error)) = unread.try_replace(None) {
        notes.say(&format_args!(
            "{LOCKS}: {error}: whether another process has the files open isn't known"
        ));
    }
}

/// Refused by `InUse` if FILE.lock is a folder, by which SQLite's unix-dotfile locks FILE.
fn unless_folder(found: io::Result<Metadata>) -> Result<(), Refusal>
    ensures folder { IfOk found (λ m. IsDir (file_type m) → result ≡ Err InUse) }
    ensures refused { IfErr result (λ refusal. IsOkAnd found (λ m. IsDir (file_type m)) × (refusal ≡ InUse)) }
{
    match found {
        Ok(found) if found.is_dir() => Err(Refusal::InUse),
        _ => Ok(()),
    }
}

impl<R: Files, M: Count> Guard for OpenElsewhere<'_, R, M> {
    /// Refused by `InUse`, or where the system doesn't say which file is which.
    fn ask(&self) -> Result<(), Refusal> {
        if self.forced {
            return Ok(());
        }
        unless_folder(look_at(self.rt, self.paths.lock.as_str()))?;
        let db = identity_of(&look_at(self.rt, self.paths.db.as_str())?);
        let shm = match look_at(self.rt, self.paths.shm.as_str()) {
            Ok(shm) => identity_of(&shm),
            Err(error) if is_missing(&error) => db,
            Err(error) => return Err(Refusal::from(error)),
        };
        match self.is_listed(db, shm) {
            Ok(true) => Err(Refusal::InUse),
            Ok(_) => Ok(()),
            Err(error) => {
                let _ = self.unread.try_replace(Some(error));
                Ok(())
            }
        }
    }

    fn has_read(&self, bytes: u64) {
        self.meter.count(bytes);
    }
}

/// Reads what comes next, and says how many bytes. A read that a signal ends is made again.
fn read_next<F: Read>(file: &mut F, out: &mut [u8]) -> io::Result<usize>
    ensures { IfOk result (λ count. count ≤ length out.old) }
{
    for _ in 0..u64::MAX {
        match file.read(out) {
            Err(error) if error.kind() == ErrorKind::Interrupted => {}
            answer => return answer,
        }
    }
    Err(io::Error::from(ErrorKind::Interrupted))
}

/// Where the last whole line of these bytes ends: behind their last newline.
fn end_of_lines(bytes: &[u8]) -> usize
    ensures within { result ≤ length bytes.now }
    ensures ends { 0 < result → slice_index bytes.now (result - 1) ≡ 10 }
    ensures last { (k : ℕ) → result ≤ k → k < length bytes.now → ¬ (slice_index bytes.now k ≡ 10) }
{
    let mut end = 0;
    for (i, byte) in bytes.iter().enumerate() {
        if *byte == b'\n' {
            end = i + 1;
        }
    }
    end
}

/// Whether bytes that are whole lines of the list have a lock on either file. Refused where they are no text.
fn have_lock(bytes: &[u8], db: Identity, shm: Identity) -> io::Result<bool> {
    let Ok(lines) = str::from_utf8(bytes) else {
        return Err(io::Error::from(ErrorKind::InvalidData));
    };
    match (is_locked(lines, db), is_locked(lines, shm)) {
        (Ok(first), Ok(second)) => Ok(first || second),
        _ => Err(io::Error::from(ErrorKind::InvalidData)),
    }
}

/// Whether the list has a lock on either file. It is read in pieces; a line that a piece ends in is looked at with the
/// next.
fn has_lock<F: Read>(list: &mut F, db: Identity, shm: Identity) -> io::Result<bool> {
    let mut room = [0u8; ROOM];
    let mut held = 0;
    for _ in 0..u64::MAX {
        let count = read_next(list, &mut room[held..])?;
        let end = held + count;
        let lines = if count == 0 {
            end
        } else {
            end_of_lines(&room[..end])
        };
        if have_lock(&room[..lines], db, shm)? {
            return Ok(true);
        }
        if count == 0 {
            break;
        }
        room.copy_within(lines..end, 0);
        held = end - lines;
        if held == ROOM {
            held = 0;
        }
    }
    Ok(false)
}
