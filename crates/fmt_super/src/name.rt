//! How a journal names its super-journal, as SQLite reads it.
ghost use Rattle.std.specs.Prelude.{◌≡◌, ◌↔◌, ◌+◌, ◌-◌, ◌≤◌, ℕ, List, IsTrue, MatchOption, length};
ghost use Rattle.sqval.specs.Bytes.{part, word};
ghost use Rattle.fmt_super.specs.Supers.{IsEndOf, IsPathIn, IsSuperName, IsSuperPath, name_sum, signed};
ghost use Rattle.fmt_super.specs.internal.Supers.{HasLength, Ends};

use byteorder::{BigEndian, ByteOrder};
use sqjournal::is_magic;

/// The longest name that SQLite accepts, in bytes.
const LONGEST: usize = 512;

/// What stands after the name: its length, its sum and the magic.
const TAIL: usize = 16;

/// How many bytes at the end of a journal have the longest name and what stands after it.
pub const END: usize = 528;

/// The number at a place, the highest byte first.
fn word(bytes: &[u8], at: usize) -> u32
    requires { at + 4 ≤ length bytes.now }
    ensures { result ≡ word bytes.now at }
{
    BigEndian::read_u32(&bytes[at..at + 4])
}

/// Whether the bytes end with the magic of a journal.
fn ends(bytes: &[u8]) -> bool
    requires { 8 ≤ length bytes.now }
    ensures { IsTrue result ↔ Ends bytes.now }
{
    let mut last = [0u8; 8];
    let at = bytes.len() - 8;
    last.copy_from_slice(&bytes[at..]);
    is_magic(&last)
}

/// A byte of a name as SQLite adds it: as a signed one.
fn signed(byte: u8) -> u32
    ensures { result ≡ signed byte }
{
    if byte < 128 {
        u32::from(byte)
    } else {
        u32::from(byte) + 0xffff_ff00
    }
}

/// The sum of a name.
fn name_sum(name: &[u8]) -> u32
    ensures { result ≡ name_sum name.now }
{
    let mut sum = 0u32;
    for byte in name {
        sum = sum.wrapping_add(signed(*byte));
    }
    sum
}

/// The length of the name that a journal with this end may have. None: it has no such name.
fn length_in(end: &[u8]) -> Option<usize>
    ensures { MatchOption result ((n : ℕ) → ¬ HasLength end.now n) (HasLength end.now) }
{
    if end.len() < TAIL || !ends(end) {
        return None;
    }
    let at = end.len() - TAIL;
    let count = word(end, at) as usize;
    if count == 0 || count > LONGEST || count > at {
        return None;
    }
    Some(count)
}

/// The name of the super-journal of a journal with this end, as SQLite reads it. None: it has none.
fn super_name<'a>(end: &'a [u8]) -> Option<&'a [u8]>
    ensures { MatchOption result ((name : List ℕ) → ¬ IsSuperName end.entry.now name)
        (λ name. IsSuperName end.entry.now name.now) }
{
    let count = length_in(end)?;
    let at = end.len() - TAIL;
    let name = &end[at - count..at];
    if word(end, at + 4) == name_sum(name) && name[0] != 0 {
        Some(name)
    } else {
        None
    }
}

/// The path that a name is: up to its first zero byte.
fn path_in<'a>(name: &'a [u8]) -> &'a [u8]
    ensures { IsPathIn name.entry.now result.now }
{
    for i in 0..name.len() {
        if name[i] == 0 {
            return &name[..i];
        }
    }
    name
}

/// The path of the super-journal of a journal with this end, as SQLite reads it. None: it has none.
pub fn super_path<'a>(end: &'a [u8]) -> Option<&'a [u8]>
    ensures { (journal : List ℕ) → IsEndOf journal end.entry.now
        → MatchOption result ((path : List ℕ) → ¬ IsSuperPath journal path) (λ path. IsSuperPath journal path.now) }
{
    match super_name(end) {
        Some(name) => Some(path_in(name)),
        None => None,
    }
}
