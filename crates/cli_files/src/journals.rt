//! What a journal says that decides whether it counts, here and for SQLite.
ghost use Rattle.std.specs.Prelude.{◌≡◌, ◌↔◌, IfOk, IsOkAnd, IsTrue, Some};
ghost use Rattle.cli_words.specs.declared.requests.SuperJournal.TheVariants.{Gone};
ghost use Rattle.cli_files.specs.Journals.{MayBeThere, NamesSuperJournal};

use crate::opened_file::OpenedFile;
use crate::paths::{is_missing, look_at};
use cli_facts::{Notes, Quoted, SystemFile};
use cli_words::SuperJournal;
use sqjournal::{JournalHeader, is_magic};
use sqpage::SourceError;
use sqview::FileBytes;
use std::io::Write;
use std::rt::Files;
use std::str;

/// Whether a journal ends as one does that names a super-journal: with the magic.
pub fn names_super_journal<F: FileBytes>(journal: &mut F) -> Result<bool, SourceError>
    ensures answer { F.gives_bytes journal.old
        → IsOkAnd result (λ names. IsTrue names ↔ NamesSuperJournal (F.bytes journal.old)) }
    ensures right { F.reads_right journal.old
        → IfOk result (λ names. IsTrue names ↔ NamesSuperJournal (F.bytes journal.old)) }
    ensures still_gives { F.gives_bytes journal.old → F.gives_bytes journal.new }
    ensures same_bytes { F.bytes journal.new ≡ F.bytes journal.old }
{
    let mut end = [0u8; 8];
    let length = journal.len();
    journal.read_at(length.saturating_sub(8), &mut end)?;
    Ok(is_magic(&end))
}

/// Whether a hot journal is out of force: it names a super-journal, and that one is gone.
pub(crate) fn is_out_of_force(names_super: bool, decided: Option<SuperJournal>) -> bool
    ensures { IsTrue result ↔ (IsTrue names_super × (decided ≡ Some Gone)) }
{
    names_super && decided == Some(SuperJournal::Gone)
}

/// Whether a hot journal that wasn't ignored may name a super-journal: one that is said to exist, or was looked for.
pub fn may_be_there(said: Option<SuperJournal>) -> bool
    ensures { IsTrue result ↔ MayBeThere said }
{
    said == Some(SuperJournal::Present) || said == Some(SuperJournal::Look)
}

/// The longest name of a super-journal that is read, in bytes: SQLite takes at most 512.
const LONGEST: usize = 512;

/// The name of the super-journal that a journal names, which stands before its length, its sum and the magic; none
/// where it is longer than SQLite takes one, or isn't UTF-8.
fn super_name<'a, F: SystemFile>(
    journal: &OpenedFile<'_, F>,
    room: &'a mut [u8; LONGEST],
) -> Result<Option<&'a str>, SourceError> {
    let mut end = [0u8; 4];
    let place = journal.len().saturating_sub(16);
    journal.fill(place, &mut end)?;
    let length = u32::from_be_bytes(end) as usize;
    if length > LONGEST || length as u64 > place {
        return Ok(None);
    }
    let name = &mut room[..length];
    journal.fill(place.saturating_sub(length as u64), name)?;
    Ok(str::from_utf8(name).ok())
}

/// Whether the file of a name is there, as a note says it.
fn tell_presence<R: Files, E: Write>(rt: &R, name: &str, notes: &mut Notes<'_, E>) {
    let quoted = Quoted(name);
    match look_at(rt, name) {
        Ok(_) => notes.explain(&format_args!("the super-journal {quoted} is there")),
        Err(error) if is_missing(&error) => {
            notes.explain(&format_args!("the super-journal {quoted} isn't there"));
        }
        Err(error) => {
            notes.blame(name, &error);
        }
    }
}

/// Says which super-journal a journal names, and whether it is there.
pub(crate) fn tell_super_journal<R: Files, F: SystemFile, E: Write>(
    rt: &R,
    journal: &OpenedFile<'_, F>,
    notes: &mut Notes<'_, E>,
) -> Result<(), SourceError> {
    if !notes.explains() {
        return Ok(());
    }
    let mut room = [0u8; LONGEST];
    match super_name(journal, &mut room)? {
        Some(name) => tell_presence(rt, name, notes),
        None => notes.explain(&"the super-journal's name is no text, or too long for one"),
    }
    Ok(())
}

/// A header with the smallest sector and page size in place of those that SQLite takes and that aren't a journal's
/// here: a sector of 32 to 256 bytes, and a page size of 0.
fn loosened(front: &[u8; 28]) -> [u8; 28] {
    let mut header = *front;
    if matches!(&front[20..24], [0, 0, 0, 32 | 64 | 128] | [0, 0, 1, 0]) {
        header[20..24].copy_from_slice(&[0, 0, 2, 0]);
    }
    if matches!(&front[24..28], [0, 0, 0, 0]) {
        header[24..28].copy_from_slice(&[0, 0, 2, 0]);
    }
    header
}

/// Whether SQLite takes the journal's header though it isn't a valid one here.
pub(crate) fn is_valid_for_sqlite_alone<F: SystemFile>(
    journal: &OpenedFile<'_, F>,
) -> Result<bool, SourceError> {
    let mut front = [0u8; 28];
    journal.fill(0, &mut front)?;
    Ok(JournalHeader::read(&front).is_err() && JournalHeader::read(&loosened(&front)).is_ok())
}
