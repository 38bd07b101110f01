//! Which lines of /proc/locks are of a file.
ghost use Rattle.std.specs.Prelude.{◌≡◌, ◌↔◌, ◌⊎◌, codes, IfOk, IsTrue};
ghost use Rattle.std.specs.Str.Iter.{HasSubslice};
ghost use Rattle.cli_facts.specs.Locks.{HasLockOn, IsLockOn, IsOfLock, NamesFile, inode_text, place_text};

use arrayvec::ArrayString;
use std::fmt::{self, Write};
use std::fs::Metadata;
use std::os::unix::fs::MetadataExt;

/// By what the system knows a file: the number of its device, and its own number there.
#[derive(Clone, Copy, Debug, PartialEq, Eq)]
pub struct Identity {
    pub major: u32,
    pub minor: u32,
    pub inode: u64,
}

/// Takes a device's number apart, as Linux puts it together: 12 and 20 bits of each part, the lowest first.
pub fn identity_of(metadata: &Metadata) -> Identity {
    let device = metadata.dev();
    let major = ((device >> 32) & 0xffff_f000) as u32 | ((device >> 8) & 0xfff) as u32;
    let minor = ((device >> 12) & 0xffff_ff00) as u32 | (device & 0xff) as u32;
    Identity {
        major,
        minor,
        inode: metadata.ino(),
    }
}

/// The most bytes of a text that names a file: two numbers of 8 digits, one of 20, two colons and two blanks.
const LONGEST: usize = 40;

/// How a line names a file.
fn place_text(file: Identity) -> Result<ArrayString<LONGEST>, fmt::Error>
    ensures { IfOk result (λ text. text.bytes ≡ place_text file) }
{
    let Identity {
        major,
        minor,
        inode,
    } = file;
    let mut text = ArrayString::new();
    write!(text, " {major:02x}:{minor:02x}:{inode} ")?;
    Ok(text)
}

/// How a line names a file whose device isn't looked at.
fn inode_text(file: Identity) -> Result<ArrayString<LONGEST>, fmt::Error>
    ensures { IfOk result (λ text. text.bytes ≡ inode_text file) }
{
    let inode = file.inode;
    let mut text = ArrayString::new();
    write!(text, ":{inode} ")?;
    Ok(text)
}

/// Whether the text stands in the line.
fn has(line: &str, text: &str) -> bool
    ensures { IsTrue result ↔ HasSubslice line.now text.now }
{
    line.contains(text)
}

/// Whether the device of a file, or the one in a line, has no number of its own.
fn is_unnumbered(line: &str, file: Identity) -> bool
    ensures { IsTrue result ↔ ((file.major ≡ 0) ⊎ HasSubslice line.now (codes " 00:")) }
{
    file.major == 0 || has(line, " 00:")
}

/// Whether a line names this file, which it does by these texts.
fn names_file(line: &str, file: Identity, place: &str, inode: &str) -> bool
    requires place { place.now ≡ place_text file }
    requires inode { inode.now ≡ inode_text file }
    ensures { IsTrue result ↔ NamesFile line.now file }
{
    has(line, place) || (has(line, inode) && is_unnumbered(line, file))
}

/// Whether a line is of a lock of a process, or of one of an open file.
fn is_of_lock(line: &str) -> bool
    ensures { IsTrue result ↔ IsOfLock line.now }
{
    has(line, " POSIX ") || has(line, " OFDLCK ")
}

/// Whether a line is of such a lock on this file, which it names by these texts.
fn is_lock_on(line: &str, file: Identity, place: &str, inode: &str) -> bool
    requires place { place.now ≡ place_text file }
    requires inode { inode.now ≡ inode_text file }
    ensures { IsTrue result ↔ IsLockOn line.now file }
{
    is_of_lock(line) && names_file(line, file, place, inode)
}

/// Whether a text of such lines has a lock of a process or of an open file on this file. No memory is asked for; that a
/// text that names a file finds no room doesn't come.
pub fn is_locked(lines: &str, file: Identity) -> Result<bool, fmt::Error>
    ensures { IfOk result (λ found. IsTrue found ↔ HasLockOn lines.now file) }
{
    let place = place_text(file)?;
    let inode = inode_text(file)?;
    Ok(lines.lines().any(|line| is_lock_on(line, file, place.as_str(), inode.as_str())))
}
