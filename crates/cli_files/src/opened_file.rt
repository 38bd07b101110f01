//! A real file as the bytes of a database or a log.
ghost use Rattle.std.specs.Prelude.{◌≡◌, ◌+◌, ◌<◌, ◌≤◌, length, IsOk, OnOk};
ghost use Rattle.sqview.specs.Laid.{part_or_zeros};
ghost use Rattle.cli_files.specs.Files.{IsMissing, IsOpenedAt, IsSteady, NeverFails, file_of, opened_bytes};

use crate::place::Place;
use cli_facts::{SystemFile, read_up_to};
use sqpage::SourceError;
use sqview::FileBytes;
use std::io::{self, ErrorKind};
use std::os::unix::fs::FileExt;

/// An opened file of this length, or a missing one, which has none. It gives its bytes while it keeps its word and its
/// length. Why a read failed is kept at the file's place.
#[derive(Drop)]
pub struct OpenedFile<'a, F> {
    file: Option<(F, &'a Place)>,
    length: u64,
}

impl<'a, F> OpenedFile<'a, F> {
    /// A file of this length that was opened at this place.
    pub fn new(file: F, length: u64, place: &'a Place) -> OpenedFile<'a, F>
        ensures { IsOpenedAt result place.entry.now length }
    {
        OpenedFile {
            file: Some((file, place)),
            length,
        }
    }

    /// A missing file.
    pub fn missing() -> OpenedFile<'a, F>
        ensures { IsMissing result }
    {
        OpenedFile {
            file: None,
            length: 0,
        }
    }

    /// The file as it was opened; none where it is missing.
    pub fn into_file(self) -> Option<F>
        ensures { result ≡ file_of self.entry }
    {
        let OpenedFile { file, length: _ } = self;
        match file {
            Some((file, _)) => Some(file),
            None => None,
        }
    }
}

/// What the system says of a read of a byte that a file doesn't have.
fn cut_short<F: SystemFile>(file: &F, at: u64) -> io::Error {
    let mut byte = [0u8; 1];
    match file.read_exact_at(&mut byte, at) {
        Err(error) => error,
        Ok(()) => io::Error::from(ErrorKind::UnexpectedEof),
    }
}

/// Fills so many bytes of the buffer from a place on, and the rest with zeros. Refused also where the file doesn't have
/// so many there.
fn fill_front<F: SystemFile>(file: &F, at: u64, count: usize, out: &mut [u8]) -> io::Result<()>
    requires { count ≤ length out.old }
    ensures read { F.keeps_word file.now → (count < length out.old → length (F.bytes file.now) ≤ at + count)
        → OnOk result (out.new ≡ part_or_zeros (length out.old) at (F.bytes file.now)) }
    ensures answered { F.keeps_word file.now → F.never_fails file.now
        → (0 < count → at + count ≤ length (F.bytes file.now)) → IsOk result }
{
    let there = read_up_to(file, at, count, out)?;
    if there < count {
        return Err(cut_short(file, at.saturating_add(there as u64)));
    }
    out[count..].fill(0);
    Ok(())
}

impl<F: SystemFile> OpenedFile<'_, F> {
    /// Fills the buffer from a place on, with zeros past the end. Refused also where the file is shorter now than when
    /// it was opened.
    pub(crate) fn fill(&self, at: u64, out: &mut [u8]) -> Result<(), SourceError>
        ensures read { IsSteady F.bytes F.keeps_word self.now
            → OnOk result (out.new ≡ part_or_zeros (length out.old) at (opened_bytes F.bytes self.now)) }
        ensures answered { IsSteady F.bytes F.keeps_word self.now → NeverFails F.never_fails self.now → IsOk result }
    {
        let count = self.length.saturating_sub(at).min(out.len() as u64) as usize;
        match &self.file {
            Some((file, place)) => match fill_front(file, at, count, out) {
                Ok(()) => Ok(()),
                Err(error) => Err(place.failed(error)),
            },
            None => {
                out.fill(0);
                Ok(())
            }
        }
    }
}

impl<F: SystemFile> FileBytes for OpenedFile<'_, F> {
    ghost use Rattle.cli_files.specs.Files.{opened_bytes, IsSteady, NeverFails};

    ghost bytes = { λ file. opened_bytes F.bytes file };

    ghost reads_right = { λ file. IsSteady F.bytes F.keeps_word file };

    ghost gives_bytes = { λ file. IsSteady F.bytes F.keeps_word file × NeverFails F.never_fails file };

    ghost right = { λ _ gives. gives.0 };

    fn len(&self) -> u64 {
        self.length
    }

    fn read_at(&mut self, at: u64, out: &mut [u8]) -> Result<(), SourceError> {
        self.fill(at, out)
    }
}

impl<F: SystemFile> FileBytes for &OpenedFile<'_, F> {
    ghost use Rattle.cli_files.specs.Files.{opened_bytes, IsSteady, NeverFails};

    ghost bytes = { λ file. opened_bytes F.bytes file.now };

    ghost reads_right = { λ file. IsSteady F.bytes F.keeps_word file.now };

    ghost gives_bytes = { λ file. IsSteady F.bytes F.keeps_word file.now × NeverFails F.never_fails file.now };

    ghost right = { λ _ gives. gives.0 };

    fn len(&self) -> u64 {
        self.length
    }

    fn read_at(&mut self, at: u64, out: &mut [u8]) -> Result<(), SourceError> {
        self.fill(at, out)
    }
}
