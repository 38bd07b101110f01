//! A file that is made whole, or not at all.
ghost use Rattle.std.specs.Prelude.{◌≡◌, ◌++◌, ◌≤◌, codes, length, IfErr, IfOk, string_bytes};
ghost use Rattle.cli_files.specs.NewFiles.{IsBegunFile, IsPart, IsShortPart};
ghost use Rattle.cli_files.specs.Refusals.{IsFromSystem, IsFromWatch};

use crate::hints::told;
use crate::paths::{Paths, folder_of, is_missing, look_at};
use crate::place::Place;
use cli_facts::{Identity, Notes, Quoted, Refusal, SystemFile, identity_of, metadata_of};
use std::alloc::{AllocError, Global};
use std::fs;
use std::fs::{OpenFile, OpenOptions};
use std::io::{self, ErrorKind, Seek, SeekFrom, Write};
use std::os::unix::fs::OpenOptionsExt;
use std::rt::Files;

/// So many bytes of zeros, or as many as are left of what is written at once, become a hole.
const BLOCK: usize = 4096;

/// A file that is made under the name of another in its folder, and gets its own once it is whole and durable, so that
/// no stop leaves a part of it under its own name. Blocks of zeros that are written to it become holes.
#[derive(Drop)]
pub struct NewFile<'a, F> {
    file: F,
    /// The name that it gets.
    to: &'a str,
    /// The name under which it is made.
    part: String,
    /// The permissions that were asked for.
    mode: u32,
    /// How many bytes it is to have.
    end: u64,
    /// Whether the last of them are zeros that weren't written.
    has_hole: bool,
}

/// The name under which a file is made.
fn part_of(alloc: Global, to: &str) -> Result<String, AllocError>
    ensures { IfOk result (λ part. string_bytes part ≡ to.now ++ codes ".sqrescue-part") }
{
    format!(in alloc; "{to}.sqrescue-part")
}

/// The same, where the file's own name leaves no room for more.
fn short_part_of(alloc: Global, to: &str) -> Result<String, AllocError>
    ensures { IfOk result (λ part. IsShortPart to.now (string_bytes part)) }
{
    let folder = folder_of(to);
    format!(in alloc; "{folder}/.sqrescue-part")
}

/// A file under whose name another is made: its name, and the permissions that were asked for.
#[derive(Drop)]
struct Part<F> {
    file: F,
    name: String,
    mode: u32,
}

/// A new file with these permissions, as far as the process gives them.
fn open_new<R: Files>(rt: &R, path: &str, mode: u32) -> io::Result<R::File> {
    OpenOptions::new()
        .write(true)
        .create_new(true)
        .mode(mode)
        .open(rt, path)
}

/// Whether a file is the one that lies at a place.
fn lies_at<R: Files>(rt: &R, file: Identity, place: &Place) -> bool {
    match look_at(rt, place.as_str()) {
        Ok(found) => identity_of(&found) == file,
        Err(_) => false,
    }
}

/// Whether a file is one of a database's.
fn is_of<R: Files>(rt: &R, file: Identity, paths: &Paths) -> bool {
    lies_at(rt, file, &paths.db)
        || lies_at(rt, file, &paths.wal)
        || lies_at(rt, file, &paths.journal)
        || lies_at(rt, file, &paths.shm)
}

/// Removes what a run before left at a path that was stopped. Refused where it is a file of the database.
fn sweep<R: Files>(rt: &R, path: &str, paths: &Paths) -> io::Result<()> {
    let found = look_at(rt, path)?;
    if is_of(rt, identity_of(&found), paths) {
        return Err(io::Error::from(ErrorKind::AlreadyExists));
    }
    fs::remove_file(rt, path)
}

/// A new file, in place of what a run before left there that was stopped.
fn open_anew<R: Files>(rt: &R, path: &str, mode: u32, paths: &Paths) -> io::Result<R::File> {
    match open_new(rt, path, mode) {
        Err(error) if error.kind() == ErrorKind::AlreadyExists => {
            sweep(rt, path, paths)?;
            open_new(rt, path, mode)
        }
        answer => answer,
    }
}

/// Whether nothing lies at a path, not even a link.
fn is_free<R: Files>(rt: &R, path: &str) -> io::Result<()> {
    match look_at(rt, path) {
        Ok(_) => Err(io::Error::from(ErrorKind::AlreadyExists)),
        Err(error) if is_missing(&error) => Ok(()),
        Err(error) => Err(error),
    }
}

/// Opens the file under which another is made, and says by which name.
fn open_part<R: Files + AllocGlobal>(
    rt: &R,
    to: &str,
    mode: u32,
    paths: &Paths,
) -> io::Result<Part<R::File>>
    ensures { IfOk result (λ part. IsPart to.now (string_bytes part.name) × (part.mode ≡ mode)) }
{
    is_free(rt, to)?;
    let name = part_of(rt.alloc(), to)?;
    match open_anew(rt, name.as_str(), mode, paths) {
        Ok(file) => Ok(Part { file, name, mode }),
        Err(error) if is_unfit(&error) => open_short(rt, to, mode, paths),
        Err(error) => Err(error),
    }
}

/// Whether another name is to be taken: this one is too long, or that of a file of the database.
fn is_unfit(error: &io::Error) -> bool {
    matches!(
        error.kind(),
        ErrorKind::InvalidFilename | ErrorKind::AlreadyExists
    )
}

/// The same, under the short name.
fn open_short<R: Files + AllocGlobal>(
    rt: &R,
    to: &str,
    mode: u32,
    paths: &Paths,
) -> io::Result<Part<R::File>>
    ensures { IfOk result (λ part. IsPart to.now (string_bytes part.name) × (part.mode ≡ mode)) }
{
    let name = short_part_of(rt.alloc(), to)?;
    match open_anew(rt, name.as_str(), mode, paths) {
        Ok(file) => Ok(Part { file, name, mode }),
        Err(error) => Err(error),
    }
}

/// Whether a system refused a second name for that it has none, or not for this file.
fn has_no_links(error: &io::Error) -> bool {
    matches!(
        error.kind(),
        ErrorKind::Unsupported | ErrorKind::PermissionDenied | ErrorKind::TooManyLinks
    )
}

/// Gives a file another name, which nothing has.
fn renamed<R: Files>(rt: &R, part: &str, to: &str) -> io::Result<()> {
    is_free(rt, to)?;
    fs::rename(rt, part, to)
}

/// Gives a file its name, and takes that under which it was made. What lies at its name isn't replaced; only where the
/// system has no links, what comes there between a last look and the renaming is.
fn named<R: Files>(rt: &R, part: &str, to: &str) -> io::Result<()> {
    match fs::hard_link(rt, part, to) {
        Ok(()) => {
            // Else the next run that makes the file removes it.
            let _ = fs::remove_file(rt, part);
            Ok(())
        }
        Err(error) if has_no_links(&error) => renamed(rt, part, to),
        Err(error) => Err(error),
    }
}

/// Removes a file. Where that fails it is told.
pub fn remove<R: Files, E: Write>(rt: &R, path: &str, notes: &mut Notes<'_, E>) {
    if let Err(error) = fs::remove_file(rt, path) {
        notes.blame(path, &error);
    }
}

/// Syncs the folder in which a file lies, where the system lets us.
fn sync_folder<R: Files>(rt: &R, path: &str) {
    if let Ok(folder) = OpenOptions::new().read(true).open(rt, folder_of(path)) {
        let _ = folder.sync_all();
    }
}

/// Whether a file still has the name under which it is made: another run may have taken it for what is left of one
/// that was stopped.
fn is_at<R: Files>(rt: &R, file: &R::File, path: &str) -> io::Result<bool>
where
    R::File: SystemFile,
{
    let there = match look_at(rt, path) {
        Ok(there) => identity_of(&there),
        Err(error) if is_missing(&error) => return Ok(false),
        Err(error) => return Err(error),
    };
    match metadata_of(file) {
        Ok(own) => Ok(identity_of(&own) == there),
        Err(error) => Err(error),
    }
}

/// Begins a file that gets this name and these permissions, as far as the process gives them, beside the files of a
/// database, of which none is touched. Refused by `FileFailed` where something lies there.
pub fn begin_file<'a, R: Files + AllocGlobal, E: Write>(
    rt: &R,
    paths: &Paths,
    to: &'a str,
    mode: u32,
    notes: &mut Notes<'_, E>,
) -> Result<NewFile<'a, R::File>, Refusal>
    ensures begun { IfOk result (IsBegunFile to.entry.now mode) }
    ensures refused { IfErr result IsFromSystem }
{
    match open_part(rt, to, mode, paths) {
        Ok(Part { file, name, mode }) => Ok(NewFile {
            file,
            to,
            part: name,
            mode,
            end: 0,
            has_hole: false,
        }),
        Err(error) => Err(told(notes, to, error).refusal),
    }
}

/// Gives a file that was finished its name, and syncs its folder where the system lets us. Refused by `FileFailed`
/// where something lies there by now, and by `FileChanged` where another run makes the file, too; then it is discarded.
pub fn end_file<R: Files, E: Write>(
    rt: &R,
    made: NewFile<'_, R::File>,
    notes: &mut Notes<'_, E>,
) -> Result<(), Refusal>
where
    R::File: SystemFile,
    ensures refused { IfErr result IsFromWatch }
{
    match is_at(rt, &made.file, made.part.as_str()) {
        Ok(true) => {}
        Ok(_) => {
            let to = Quoted(made.to);
            notes.explain(&format_args!("{to}: another run makes it, too"));
            return Err(Refusal::FileChanged);
        }
        Err(error) => return Err(refused_end(rt, made, error, notes)),
    }
    match named(rt, made.part.as_str(), made.to) {
        Ok(()) => {
            sync_folder(rt, made.to);
            Ok(())
        }
        Err(error) => Err(refused_end(rt, made, error, notes)),
    }
}

/// Discards a file, and says why.
fn refused_end<R: Files, E: Write>(
    rt: &R,
    made: NewFile<'_, R::File>,
    error: io::Error,
    notes: &mut Notes<'_, E>,
) -> Refusal
    ensures { IsFromSystem result }
{
    let refusal = told(notes, made.to, error).refusal;
    discard_file(rt, made, notes);
    refusal
}

/// Removes a file that has no name of its own yet.
pub fn discard_file<R: Files, E: Write>(
    rt: &R,
    made: NewFile<'_, R::File>,
    notes: &mut Notes<'_, E>,
) {
    remove(rt, made.part.as_str(), notes);
}

fn is_zeros(bytes: &[u8]) -> bool {
    bytes.iter().all(|byte| *byte == 0)
}

/// How many bytes of the first blocks are zeros, or aren't, as the first block is.
fn like_first(bytes: &[u8], zeros: bool) -> usize
    ensures { result ≤ length bytes.now }
{
    let mut end = 0_usize;
    for block in bytes.chunks(BLOCK) {
        if is_zeros(block) != zeros {
            break;
        }
        end = end.saturating_add(block.len());
    }
    end.min(bytes.len())
}

impl<F: Write + Seek + OpenFile> NewFile<'_, F> {
    /// The path that the file gets.
    pub fn path(&self) -> &str
        ensures { result.now ≡ self.now.to.now }
    {
        self.to
    }

    /// Ends a file that was written, and makes it durable under the name under which it is made.
    pub fn finish(&mut self) -> io::Result<()>
        ensures to { self.new.to ≡ self.old.to }
        ensures part { self.new.part ≡ self.old.part }
        ensures mode { self.new.mode ≡ self.old.mode }
    {
        if self.has_hole {
            self.file.set_len(self.end)?;
        }
        self.file.sync_all()
    }

    /// Writes bytes that begin with a block that isn't zeros.
    fn write_block(&mut self, bytes: &[u8]) -> io::Result<usize>
        ensures { IfOk result (λ count. count ≤ length bytes.now) }
    {
        if self.has_hole {
            self.file.seek(SeekFrom::Start(self.end))?;
            self.has_hole = false;
        }
        let count = self.file.write(&bytes[..like_first(bytes, false)])?;
        self.end = self.end.saturating_add(count as u64);
        Ok(count)
    }
}

impl<F: Write + Seek + OpenFile> Write for NewFile<'_, F> {
    fn write(&mut self, buf: &[u8]) -> io::Result<usize> {
        let zeros = like_first(buf, true);
        if zeros == 0 {
            return self.write_block(buf);
        }
        self.has_hole = true;
        self.end = self.end.saturating_add(zeros as u64);
        Ok(zeros)
    }

    fn flush(&mut self) -> io::Result<()> {
        self.file.flush()
    }
}
