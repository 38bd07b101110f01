//! A database file and its log as a disk.
ghost use Rattle.std.specs.Prelude.{◌≡◌, ◌≢◌, ◌≤◌, length, IfErr, IfOk, MatchOption, None, Some};
ghost use Rattle.std.specs.IoError.{error_kind};
ghost use Rattle.std.specs.declared.io.ErrorKind.TheVariants.{Interrupted};
ghost use Rattle.crashdisk.specs.declared.error.DiskError.TheVariants.{Failed};
ghost use Rattle.crashdisk.specs.declared.file.File.TheVariants.{Db, Log};

use crashdisk::{Disk, DiskError, File};
use std::fs::{Metadata, OpenFile};
use std::io::{self, ErrorKind};
use std::os::unix::fs::FileExt;

/// A database file and its log as a disk of sectors of 4096 bytes. Each fault of the system is `Failed`, and kept. That
/// the files keep the word of a disk no contract can say: it is the user's premise.
#[derive(Drop)]
pub struct FileDisk<F: FileExt + OpenFile + Drop> {
    db: F,
    log: F,
    failure: Option<(File, io::Error)>,
}

impl<F: FileExt + OpenFile + Drop> FileDisk<F> {
    /// A disk over a database file and its log, both opened to be read and written, of which no call failed yet.
    pub fn new(db: F, log: F) -> FileDisk<F>
        ensures db { result.db ≡ db }
        ensures log { result.log ≡ log }
        ensures unfailed { result.failure ≡ None }
    {
        FileDisk {
            db,
            log,
            failure: None,
        }
    }

    /// The file of which the system refused a call last, and what it said; none where it refused none.
    pub fn failure(&self) -> Option<&(File, io::Error)>
        ensures { MatchOption result (self.now.failure ≡ None) (λ said. self.now.failure ≡ Some said.now) }
    {
        match &self.failure {
            Some(said) => Some(said),
            None => None,
        }
    }

    fn file(&self, file: File) -> &F
        ensures db { file ≡ Db → result.now ≡ self.now.db }
        ensures log { file ≡ Log → result.now ≡ self.now.log }
    {
        match file {
            File::Db => &self.db,
            File::Log => &self.log,
        }
    }

    /// What a call of the system on a file answered, of which a refusal is kept.
    fn answered<T: Drop>(&mut self, file: File, answer: io::Result<T>) -> Result<T, DiskError>
        ensures ok { IfOk answer (λ value. (result ≡ Ok value) × (self.new.failure ≡ self.old.failure)) }
        ensures err { IfErr answer (λ error. (result ≡ Err Failed) × (self.new.failure ≡ Some (file, error))) }
        ensures files { (self.new.db ≡ self.old.db) × (self.new.log ≡ self.old.log) }
    {
        match answer {
            Ok(value) => Ok(value),
            Err(error) => {
                self.failure = Some((file, error));
                Err(DiskError::Failed)
            }
        }
    }
}

/// What the system says of a file. A call that a signal ends is made again.
fn metadata_of<F: OpenFile>(file: &F) -> io::Result<Metadata>
    ensures { IfErr result (λ error. error_kind error ≢ Interrupted) }
{
    for _ in 0..u64::MAX {
        match file.metadata() {
            Err(error) if error.kind() == ErrorKind::Interrupted => {}
            answer => return answer,
        }
    }
    Err(io::Error::from(ErrorKind::TimedOut))
}

/// Reads some bytes from a place on, and says how many. A read that a signal ends is made again.
fn part_of<F: FileExt>(file: &F, at: u64, out: &mut [u8]) -> io::Result<usize>
    ensures bound { IfOk result (λ count. count ≤ length out.new) }
    ensures again { IfErr result (λ error. error_kind error ≢ Interrupted) }
{
    for _ in 0..u64::MAX {
        match file.read_at(out, at) {
            Err(error) if error.kind() == ErrorKind::Interrupted => {}
            answer => return answer,
        }
    }
    Err(io::Error::from(ErrorKind::TimedOut))
}

/// Fills the buffer from a place on, with zeros past the end of the file.
fn read_or_zeros<F: FileExt>(file: &F, at: u64, out: &mut [u8]) -> io::Result<()>
    ensures { IfErr result (λ error. error_kind error ≢ Interrupted) }
{
    let mut from = 0;
    while from < out.len() {
        let count = part_of(file, at.wrapping_add(from as u64), &mut out[from..])?;
        if count == 0 {
            break;
        }
        from += count;
    }
    out[from..].fill(0);
    Ok(())
}

impl<F: FileExt + OpenFile + Drop> Disk for FileDisk<F> {
    ghost use Rattle.filedisk.specs.internal.FileDisk.{nothing};

    ghost state = { λ _. nothing };

    ghost keeps_word = { λ _. ⊥ };

    ghost sound = { λ disk word. absurd word };

    fn sector(&self) -> usize {
        4096
    }

    fn tears(&self) -> bool {
        false
    }

    fn len(&mut self, file: File) -> Result<u64, DiskError> {
        let answer = metadata_of(self.file(file));
        Ok(self.answered(file, answer)?.len())
    }

    fn read_at(&mut self, file: File, at: u64, out: &mut [u8]) -> Result<(), DiskError> {
        let answer = read_or_zeros(self.file(file), at, out);
        self.answered(file, answer)
    }

    fn write_at(&mut self, file: File, at: u64, bytes: &[u8]) -> Result<(), DiskError> {
        let answer = self.file(file).write_all_at(bytes, at);
        self.answered(file, answer)
    }

    fn set_len(&mut self, file: File, end: u64) -> Result<(), DiskError> {
        let answer = self.file(file).set_len(end);
        self.answered(file, answer)
    }

    fn sync(&mut self, file: File) -> Result<(), DiskError> {
        let answer = self.file(file).sync_all();
        self.answered(file, answer)
    }
}
