//! What Linux tells of the locks on the open files of a process, in /proc/self/fdinfo (own).
ghost use Rattle.std.specs.Prelude.{◌≡◌, ◌↔◌, ◌⊎◌, codes, nat_eq, true, IfOk, IsTrue};
ghost use Rattle.std.specs.List.{ends_with};
ghost use Rattle.std.specs.Str.Iter.{HasSubslice};
ghost use Rattle.sqlocks.specs.Told.{inode_text, place_text, range_text, kind_text};
ghost use Rattle.sqlocks.specs.Told.{NamesFile, IsOfLock, Tells, TellsAll};

use crate::plan::{Lock, Want};
use arrayvec::ArrayString;
use std::fmt::{self, Write};

/// By what the system knows a file: the number of its device, and its own number there.
#[derive(Clone, Copy, Debug, PartialEq, Eq)]
pub struct FileId {
    pub major: u32,
    pub minor: u32,
    pub inode: u64,
}

/// The most bytes of a text that names a file: two numbers of 8 digits, one of 20, two colons and two blanks.
const LONGEST: usize = 40;

/// How a line names a file.
fn place_text(file: FileId) -> Result<ArrayString<LONGEST>, fmt::Error>
    ensures { IfOk result (λ text. text.bytes ≡ place_text file) }
{
    let FileId {
        major,
        minor,
        inode,
    } = file;
    let mut text = ArrayString::new();
    write!(text, " {major:02x}:{minor:02x}:{inode} ")?;
    Ok(text)
}

/// How a line names a file whose device isn't looked at.
fn inode_text(file: FileId) -> Result<ArrayString<LONGEST>, fmt::Error>
    ensures { IfOk result (λ text. text.bytes ≡ inode_text file) }
{
    let inode = file.inode;
    let mut text = ArrayString::new();
    write!(text, ":{inode} ")?;
    Ok(text)
}

/// How a line of a lock ends: with the first and the last byte.
fn range_text(lock: Lock) -> &'static str
    ensures { result.now ≡ range_text lock }
{
    match lock {
        Lock::Pending => " 1073741824 1073741824",
        Lock::Shared => " 1073741826 1073742335",
        Lock::Exclusive => " 1073741824 1073742335",
        Lock::Writers => " 120 120",
        Lock::Checkpoints => " 123 123",
        Lock::Restarts => " 127 127",
        Lock::Connections => " 128 128",
        Lock::WholeIndex => " 120 128",
        Lock::Alone => " 1073742337 1073742337",
    }
}

/// How a line says whether a lock is for one alone.
fn kind_text(lock: Lock) -> &'static str
    ensures { result.now ≡ kind_text lock }
{
    match lock {
        Lock::Exclusive | Lock::Connections | Lock::WholeIndex => " WRITE ",
        Lock::Pending
        | Lock::Shared
        | Lock::Writers
        | Lock::Checkpoints
        | Lock::Restarts
        | Lock::Alone => " READ ",
    }
}

/// Whether the text stands in the line.
fn has(line: &str, text: &str) -> bool
    ensures { IsTrue result ↔ HasSubslice line.now text.now }
{
    line.contains(text)
}

/// Whether the line ends with the text.
fn ends(line: &str, text: &str) -> bool
    ensures { IsTrue result ↔ (ends_with nat_eq line.now text.now ≡ true) }
{
    line.ends_with(text)
}

/// Whether the device of a file, or the one in a line, has no number of its own.
fn is_unnumbered(line: &str, file: FileId) -> bool
    ensures { IsTrue result ↔ ((file.major ≡ 0) ⊎ HasSubslice line.now (codes " 00:")) }
{
    file.major == 0 || has(line, " 00:")
}

/// Whether a line names this file, which it does by these texts.
fn names_file(line: &str, file: FileId, place: &str, inode: &str) -> bool
    requires place { place.now ≡ place_text file }
    requires inode { inode.now ≡ inode_text file }
    ensures { IsTrue result ↔ NamesFile line.now file }
{
    has(line, place) || (has(line, inode) && is_unnumbered(line, file))
}

/// Whether a line is of this lock.
fn is_of_lock(line: &str, lock: Lock) -> bool
    ensures { IsTrue result ↔ IsOfLock line.now lock }
{
    has(line, " OFDLCK ") && has(line, kind_text(lock)) && ends(line, range_text(lock))
}

/// Whether a text of the lines that the system tells of open files tells of this lock on this file. No memory is asked
/// for; that a text that names a file finds no room doesn't come.
pub fn tells(text: &str, lock: Lock, file: FileId) -> Result<bool, fmt::Error>
    ensures { IfOk result (λ told. IsTrue told ↔ Tells text.now lock file) }
{
    let place = place_text(file)?;
    let inode = inode_text(file)?;
    Ok(
        text.lines().any(|line| names_file(line, file, place.as_str(), inode.as_str())
            && is_of_lock(line, lock)),
    )
}

/// Whether such a text tells of two locks.
fn tell_both(
    text: &str,
    lock: Lock,
    file: FileId,
    other: Lock,
    index: FileId,
) -> Result<bool, fmt::Error>
    ensures { IfOk result (λ told. IsTrue told ↔ (Tells text.now lock file × Tells text.now other index)) }
{
    Ok(tells(text, lock, file)? && tells(text, other, index)?)
}

/// Whether such a text tells of all locks that are held where a plan goes on: those on FILE, and on its FILE-shm, where
/// there is one.
pub fn tells_all(
    text: &str,
    want: Want,
    file: FileId,
    index: Option<FileId>,
) -> Result<bool, fmt::Error>
    ensures { IfOk result (λ told. IsTrue told ↔ TellsAll text.now want file index) }
{
    match (want, index) {
        (Want::Read, None) => tells(text, Lock::Shared, file),
        (Want::Read, Some(index)) => {
            let has_file = tells(text, Lock::Shared, file)?;
            let has_index = tell_both(text, Lock::Restarts, index, Lock::Checkpoints, index)?;
            Ok(has_file && has_index)
        }
        (Want::Recover, None) => tells(text, Lock::Exclusive, file),
        (Want::Recover, Some(index)) => tell_both(
            text,
            Lock::Exclusive,
            file,
            Lock::WholeIndex,
            index,
        ),
    }
}
