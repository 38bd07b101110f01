//! Which of the locks the process holds.
ghost use Rattle.std.specs.Prelude.{◌≤◌, IfOk, length};
ghost use Rattle.cli_held.specs.Held.{HeldBy, IsTold};

use sqlocks::{FileId, Lock, Want, tells, tells_all};
use std::fs::{self, Metadata, OpenOptions};
use std::io::{self, ErrorKind, Read};
use std::os::unix::fs::MetadataExt;
use std::rt::Files;
use std::{fmt, str};

/// Which of SQLite's locks on a database the process holds, until it ends.
#[derive(Clone, Copy, Debug, PartialEq, Eq)]
pub enum Held {
    /// None.
    Nothing,
    /// A reader's on FILE, without a FILE-shm. A hot journal is current until it changes: from then on FILE alone is
    /// the database.
    File,
    /// A reader's on FILE, and no journal is current: none was hot, or somebody was about to write.
    Alone,
    /// A reader's on FILE and on FILE-shm: FILE doesn't change, and of FILE-wal what stands up to the front that the
    /// index names; behind it somebody may write.
    Front,
    /// The same, and nobody writes to FILE-wal.
    Log,
    /// A recovery's: nobody else reads or writes.
    Everything,
}

/// How many bytes of what the system tells of the open files are held. Two of them with their locks have some 600.
const ROOM: usize = 4096;

/// Takes a device's number apart, as Linux puts it together: 12 and 20 bits of each part, the lowest first.
fn id_of(metadata: &Metadata) -> FileId {
    let device = metadata.dev();
    FileId {
        major: ((device >> 32) & 0xffff_f000) as u32 | ((device >> 8) & 0xfff) as u32,
        minor: ((device >> 12) & 0xffff_ff00) as u32 | (device & 0xff) as u32,
        inode: metadata.ino(),
    }
}

/// Reads what comes next, and says how many bytes. A read that a signal ends is made again.
fn read_next<F: Read>(file: &mut F, out: &mut [u8]) -> io::Result<usize>
    ensures { IfOk result (λ count. count ≤ length out.old) }
{
    for _ in 0..u64::MAX {
        match file.read(out) {
            Err(error) if error.kind() == ErrorKind::Interrupted => {}
            answer => return answer,
        }
    }
    Err(io::Error::from(ErrorKind::Interrupted))
}

/// Reads what the system tells of the open file of this number, and says how many bytes: none where there is no such
/// file.
fn read_told<R: Files + AllocGlobal>(rt: &R, number: &str, out: &mut [u8]) -> io::Result<usize>
    ensures { IfOk result (λ count. count ≤ length out.old) }
{
    let path = format!(in rt.alloc(); "/proc/self/fdinfo/{number}")?;
    match OpenOptions::new().read(true).open(rt, path.as_str()) {
        Ok(mut file) => read_next(&mut file, out),
        Err(_) => Ok(0),
    }
}

/// What the system says of a file; none where there is no such file.
fn id_at<R: Files>(rt: &R, path: &str) -> io::Result<Option<FileId>> {
    match fs::symlink_metadata(rt, path) {
        Ok(found) => Ok(Some(id_of(&found))),
        Err(error) if error.kind() == ErrorKind::NotFound => Ok(None),
        Err(error) => Err(error),
    }
}

/// Which locks are told of in this text of /proc/self/fdinfo, on a file and its FILE-shm, if that is there.
pub fn told_of(
    text: &str,
    want: Want,
    file: FileId,
    index: Option<FileId>,
) -> Result<Held, fmt::Error>
    ensures { IfOk result (λ held. HeldBy text.now want file index held) }
{
    if !tells_all(text, want, file, index)? {
        return Ok(Held::Nothing);
    }
    match (want, index) {
        (Want::Recover, _) => Ok(Held::Everything),
        (Want::Read, None) => if tells(text, Lock::Alone, file)? {
            Ok(Held::Alone)
        } else {
            Ok(Held::File)
        },
        (Want::Read, Some(index)) => if tells(text, Lock::Writers, index)? {
            Ok(Held::Log)
        } else {
            Ok(Held::Front)
        },
    }
}

/// Which locks are told of in this text, on a database file and on its FILE-shm, if that is there.
fn told_at<R: Files + AllocGlobal>(rt: &R, text: &str, want: Want, path: &str) -> io::Result<Held>
    ensures { IfOk result (IsTold want) }
{
    let shm = format!(in rt.alloc(); "{path}-shm")?;
    let Some(file) = id_at(rt, path)? else {
        return Ok(Held::Nothing);
    };
    let index = id_at(rt, shm.as_str())?;
    match told_of(text, want, file, index) {
        Ok(held) => Ok(held),
        Err(_) => Ok(Held::Nothing),
    }
}

/// What the system tells of the open files of these numbers, which a comma parts, in as many of these bytes as it
/// takes.
fn read_all<R: Files + AllocGlobal>(
    rt: &R,
    numbers: &str,
    out: &mut [u8; ROOM],
) -> io::Result<usize>
    ensures { IfOk result (λ count. count ≤ 4096) }
{
    let Some((first, second)) = numbers.split_once(',') else {
        return read_told(rt, numbers, out);
    };
    let count = read_told(rt, first, out)?;
    let more = read_told(rt, second, &mut out[count..])?;
    Ok(count + more)
}

/// Which locks the process holds by open files of these numbers, which a comma parts, on the database file of this
/// path, and on its FILE-shm, if that is there. Nothing where the system doesn't say so.
pub fn held_by<R: Files + AllocGlobal>(
    rt: &R,
    numbers: &str,
    want: Want,
    path: &str,
) -> io::Result<Held>
    ensures { IfOk result (IsTold want) }
{
    let mut told = [0u8; ROOM];
    let count = read_all(rt, numbers, &mut told)?;
    match str::from_utf8(&told[..count]) {
        Ok(text) => told_at(rt, text, want, path),
        Err(_) => Ok(Held::Nothing),
    }
}
