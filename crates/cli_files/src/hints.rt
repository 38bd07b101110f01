//! What `-v` says of the files, and of the log that counts.
ghost use Rattle.std.specs.Prelude.{◌≡◌, ◌≢◌, ℕ, List, Option, None, IfOk, IsOk, IsTrue, false};
ghost use Rattle.std.specs.Option.{option_map};
ghost use Rattle.std.specs.IoError.{error_kind};
ghost use Rattle.std.specs.declared.io.ErrorKind.TheVariants.{OutOfMemory};
ghost use Rattle.cli_facts.specs.declared.outcome.Refusal.TheVariants.{FileFailed, NoMemory};
ghost use Rattle.sqwal.specs.Took.{TookWithin};
ghost use Rattle.sqview.specs.Laid.{part_or_zeros};
ghost use Rattle.cli_facts.specs.Quoted.{name_text};
ghost use Rattle.cli_files.specs.Files.{IsSteady, NeverFails, opened_bytes};
ghost use Rattle.cli_files.specs.Notes.{IsDropped, NamesPages, counts_text, note_text, shorter_text};
ghost use Rattle.cli_files.specs.declared.note.Named.{Named};
ghost use Rattle.cli_files.specs.Refusals.{IsFromSystem};

use crate::note::{Named, Note, counts_note, dropped_note, named_pages, shorter_note};
use crate::opened_file::OpenedFile;
use crate::paths::Paths;
use cli_facts::{Notes, Quoted, Refusal, SystemFile};
use sqpage::SourceError;
use sqview::FileBytes;
use sqwal::Scan;
use std::fs::Metadata;
use std::io::{self, Write};
use std::os::unix::fs::FileTypeExt;

/// A refusal for what the system said of a path, and the path as a note names it.
#[derive(Clone, Copy)]
pub struct ToldRefusal<'a> {
    pub refusal: Refusal,
    pub path: Quoted<'a>,
}

/// The refusal for what the system said of a path, which is told.
pub fn told<'a, E: Write>(
    notes: &mut Notes<'_, E>,
    path: &'a str,
    error: io::Error,
) -> ToldRefusal<'a>
    ensures memory { error_kind error ≡ OutOfMemory → result.refusal ≡ NoMemory }
    ensures other { error_kind error ≢ OutOfMemory → result.refusal ≡ FileFailed }
    ensures system { IsFromSystem result.refusal }
    ensures path { result.path.0.now ≡ path.entry.now }
{
    let path = notes.blame(path, &error);
    ToldRefusal {
        refusal: Refusal::from(error),
        path,
    }
}

fn kind_of(found: &Metadata) -> &'static str {
    let kind = found.file_type();
    if kind.is_symlink() {
        "a symbolic link"
    } else if kind.is_dir() {
        "a directory"
    } else if kind.is_fifo() {
        "a FIFO"
    } else if kind.is_socket() {
        "a socket"
    } else {
        "a device"
    }
}

/// The refusal for what isn't a regular file, which is told.
pub(crate) fn told_kind<E: Write>(notes: &mut Notes<'_, E>, path: &str, found: &Metadata) -> Refusal
    ensures { result ≡ FileFailed }
{
    let (path, kind) = (Quoted(path), kind_of(found));
    notes.explain(&format_args!("{path}: {kind}, no regular file"));
    Refusal::FileFailed
}

/// What is known of a database's logs.
#[derive(Clone, Copy)]
pub(crate) struct Logs {
    /// The length of the write-ahead log, 0 where there is none.
    pub wal: u64,
    /// Whether there is a journal of at least the shortest length.
    pub has_journal: bool,
    pub is_hot: bool,
    /// Whether the journal names a super-journal that is gone.
    pub is_out_of_force: bool,
    /// Whether the file alone is the database: none of the log's frames counts by its index, or FILE alone is read.
    pub is_left_out: bool,
}

/// What a journal is taken for, and why.
fn journal_word(logs: Logs) -> &'static str {
    if logs.is_hot && logs.is_left_out {
        "is left out: FILE alone is the database"
    } else if logs.is_hot {
        "counts: it is hot"
    } else if logs.is_out_of_force {
        "doesn't count: the super-journal that it names is gone"
    } else if logs.has_journal {
        "doesn't count: it isn't hot, as its first header isn't valid, or its first sector isn't whole"
    } else {
        "doesn't count: there is none, or it is shorter than a header"
    }
}

/// What a write-ahead log is taken for, and why.
fn wal_word(logs: Logs) -> &'static str {
    if logs.wal == 0 {
        "doesn't count: there is none, or it is empty"
    } else if logs.is_left_out {
        "is left out: FILE alone is the database"
    } else {
        "counts: it isn't empty"
    }
}

/// Says what a file is taken for.
fn tell_word<E: Write>(notes: &mut Notes<'_, E>, path: &str, word: &str) {
    let path = Quoted(path);
    notes.tell(&format_args!("{path} {word}"));
}

/// Says that both logs count.
fn tell_both<E: Write>(notes: &mut Notes<'_, E>, paths: &Paths) {
    let (wal, journal) = (paths.wal.quoted(), paths.journal.quoted());
    notes.explain(&format_args!(
        "{wal} and {journal} both count, of which SQLite leaves one: look at both, and move away the one that isn't \
         of the last writer"
    ));
}

/// Says which log counts or is left out, and why the other doesn't.
pub(crate) fn tell_choice<E: Write>(notes: &mut Notes<'_, E>, paths: &Paths, logs: Logs) {
    if logs.is_hot && logs.wal != 0 && !logs.is_left_out {
        tell_both(notes, paths);
    } else {
        tell_word(notes, paths.journal.as_str(), journal_word(logs));
        tell_word(notes, paths.wal.as_str(), wal_word(logs));
    }
}

/// What the header of a database file names.
pub(crate) fn named_by<F: SystemFile>(db: &OpenedFile<'_, F>) -> Result<Option<Named>, SourceError>
    ensures named { IsSteady F.bytes F.keeps_word db.now
        → IfOk result (NamesPages (part_or_zeros 100 0 (opened_bytes F.bytes db.now))) }
    ensures answered { IsSteady F.bytes F.keeps_word db.now → NeverFails F.never_fails db.now → IsOk result }
{
    let mut head = [0u8; 100];
    db.fill(0, &mut head)?;
    Ok(named_pages(&head))
}

/// Says where a database file beside a log that counts is shorter than its header says, if notes are asked for. What is
/// said; nothing where the header can't be read.
pub fn tell_length<'a, F: SystemFile, E: Write>(
    notes: &mut Notes<'_, E>,
    path: &'a str,
    db: &OpenedFile<'_, F>,
) -> Option<Note<'a>>
    ensures told { IsSteady F.bytes F.keeps_word db.now → NeverFails F.never_fails db.now → IsTrue notes.old.verbose
        → (named : Option Named) × NamesPages (part_or_zeros 100 0 (opened_bytes F.bytes db.now)) named
        × (option_map note_text result ≡ shorter_text (name_text path.entry.now) db.now.length named) }
    ensures unasked { notes.old.verbose ≡ false → result ≡ None }
{
    if !notes.are_asked() {
        return None;
    }
    let note = shorter_note(Quoted(path), db.len(), named_by(db).ok()?)?;
    notes.tell(&note);
    Some(note)
}

/// Says what of a log of this length isn't recovered, once it is emptied, if notes are asked for. What is said.
pub fn tell_dropped<E: Write>(
    notes: &mut Notes<'_, E>,
    length: u64,
    scan: &Scan,
) -> Option<Note<'static>>
    ensures told { (most : ℕ) (wal : List ℕ) → TookWithin most wal scan.now → IsTrue notes.old.verbose
        → IsDropped most wal length (option_map note_text result) }
    ensures unasked { notes.old.verbose ≡ false → result ≡ None }
{
    if !notes.are_asked() {
        return None;
    }
    let note = dropped_note(length, scan)?;
    notes.tell(&note);
    Some(note)
}

/// Notes if the header of a database of so many pages names fewer or more; 0 if that number isn't valid. Gives the
/// note.
pub fn tell_counts<E: Write>(notes: &Notes<'_, E>, all: u32, named: u32) -> Option<Note<'static>>
    ensures { option_map note_text result ≡ counts_text all named }
{
    let note = counts_note(all, named)?;
    notes.say(&note);
    Some(note)
}
