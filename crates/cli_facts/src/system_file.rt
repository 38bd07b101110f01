//! Files of the system, of which a clause can name the bytes.
ghost use Rattle.std.specs.Prelude.{◌≡◌, ◌≢◌, ◌+◌, ◌<◌, ◌≤◌, ℕ, List, length, slice_index, IfErr, IfOk, IsOk, OnOk};
ghost use Rattle.std.specs.IoError.{error_kind};
ghost use Rattle.std.specs.Io.{ReadsAtMost};
ghost use Rattle.std.specs.Fs.{metadata_len};
ghost use Rattle.std.specs.declared.io.ErrorKind.TheVariants.{Interrupted};
ghost use Rattle.sqview.specs.Laid.{part_or_zeros};
ghost use Rattle.cli_facts.specs.SystemFiles.{IsPartRead};

use std::fs::{File, Metadata, OpenFile};
use std::io::{self, ErrorKind};
use std::os::unix::fs::FileExt;

/// A file of the system, of which a clause can name the bytes while it keeps its word. Of a real one it is the user's
/// premise that it does.
pub trait SystemFile: FileExt + OpenFile {
    /// Its bytes.
    ghost bytes: { Self → List ℕ };

    /// What a call answers that doesn't fail is of those bytes.
    ghost keeps_word: { Self → Type 0 };

    /// No read fails.
    ghost never_fails: { Self → Type 0 };

    /// What the system says of the file, of one call.
    fn said(&self) -> io::Result<Metadata>
        ensures { keeps_word self.now → IfOk result (λ said. metadata_len said ≡ length (bytes self.now)) };

    /// Reads some bytes from a place on, by one call, and says how many.
    fn part_at(&self, out: &mut [u8], at: u64) -> io::Result<usize>
        ensures bound { ReadsAtMost result out.new }
        ensures read { keeps_word self.now → IfOk result (IsPartRead (bytes self.now) at out.new) }
        ensures answered { never_fails self.now → IsOk result };
}

impl SystemFile for File {
    ghost use Rattle.std.specs.Prelude.{[]};

    ghost bytes = { λ _. [] };

    ghost keeps_word = { λ _. ⊥ };

    ghost never_fails = { λ _. ⊥ };

    fn said(&self) -> io::Result<Metadata> {
        self.metadata()
    }

    fn part_at(&self, out: &mut [u8], at: u64) -> io::Result<usize> {
        self.read_at(out, at)
    }
}

/// What the system says of an opened file. A call that a signal ends is made again.
pub fn metadata_of<F: SystemFile>(file: &F) -> io::Result<Metadata>
    ensures length { F.keeps_word file.now → IfOk result (λ said. metadata_len said ≡ length (F.bytes file.now)) }
    ensures again { IfErr result (λ error. error_kind error ≢ Interrupted) }
{
    for _ in 0..u64::MAX {
        match file.said() {
            Err(error) if error.kind() == ErrorKind::Interrupted => {}
            answer => return answer,
        }
    }
    Err(io::Error::from(ErrorKind::TimedOut))
}

/// Reads some bytes from a place on, and says how many. A read that a signal ends is made again.
fn part_of<F: SystemFile>(file: &F, at: u64, out: &mut [u8]) -> io::Result<usize>
    ensures bound { IfOk result (λ count. count ≤ length out.new) }
    ensures read { F.keeps_word file.now → IfOk result (IsPartRead (F.bytes file.now) at out.new) }
    ensures answered { F.never_fails file.now → IsOk result }
    ensures again { IfErr result (λ error. error_kind error ≢ Interrupted) }
{
    for i in 0..u64::MAX {
        match file.part_at(out, at) {
            Err(error) if error.kind() == ErrorKind::Interrupted => {}
            answer => return answer,
        }
    }
    Err(io::Error::from(ErrorKind::TimedOut))
}

/// Fills so many bytes of the buffer from a place on, up to the end of the file, and says how many. A read that a
/// signal ends is made again.
pub fn read_up_to<F: SystemFile>(
    file: &F,
    at: u64,
    most: usize,
    out: &mut [u8],
) -> io::Result<usize>
    requires { most ≤ length out.old }
    ensures bound { IfOk result (λ count. count ≤ most) }
    ensures read { F.keeps_word file.now → IfOk result (λ count. (k : ℕ) → k < count
        → slice_index out.new k ≡ slice_index (F.bytes file.now) (at + k)) }
    ensures end { F.keeps_word file.now → IfOk result (λ count. count < most
        → length (F.bytes file.now) ≤ at + count) }
    ensures answered { F.never_fails file.now → IsOk result }
    ensures again { IfErr result (λ error. error_kind error ≢ Interrupted) }
{
    let mut from = 0;
    while from < most {
        let place = at.wrapping_add(from as u64);
        let count = part_of(file, place, &mut out[from..most])?;
        if count == 0 {
            break;
        }
        from += count;
    }
    Ok(from)
}

/// Fills the buffer from a place on, with zeros past the end of the file. A read that a signal ends is made again.
pub fn read_or_zeros<F: SystemFile>(file: &F, at: u64, out: &mut [u8]) -> io::Result<()>
    ensures read { F.keeps_word file.now
        → OnOk result (out.new ≡ part_or_zeros (length out.old) at (F.bytes file.now)) }
    ensures answered { F.never_fails file.now → IsOk result }
    ensures again { IfErr result (λ error. error_kind error ≢ Interrupted) }
{
    let count = read_up_to(file, at, out.len(), out)?;
    out[count..].fill(0);
    Ok(())
}
