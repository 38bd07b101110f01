//! What is noted of the length of a database file, and of what of a log isn't recovered.
ghost use Rattle.std.specs.Prelude.{◌≡◌, ◌<◌, ◌↔◌, ℕ, List, IsTrue};
ghost use Rattle.std.specs.Option.{option_map};
ghost use Rattle.sqval.specs.Bytes.{word};
ghost use Rattle.sqwal.specs.Took.{TookWithin};
ghost use Rattle.cli_facts.specs.Quoted.{name_text};
ghost use Rattle.cli_files.specs.Notes.{IsDropped, NamesPages, alone_text, dropped_text, named_length, note_text};
ghost use Rattle.cli_files.specs.Notes.{counts_text, shorter_text};

use cli_facts::Quoted;
use sqpage::{has_magic, named_page_size};
use sqwal::{Front, Scan, Stop, WalHeader, Why};
use std::fmt;

/// Why the frames of a log stop, as it is called.
#[derive(Clone, Copy)]
struct Reason(Why);

impl fmt::Display for Reason {
    ghost use Rattle.std.specs.Prelude.{Some};
    ghost use Rattle.cli_files.specs.Notes.{why_word};

    ghost output = { λ reason. Some (why_word reason.0) };

    fn fmt<W: fmt::Write>(&self, f: &mut fmt::Formatter<W>) -> fmt::Result {
        match self.0 {
            Why::End => f.write_str("End"),
            Why::Cut => f.write_str("Cut"),
            Why::Salt => f.write_str("Salt"),
            Why::PageZero => f.write_str("PageZero"),
            Why::Sum => f.write_str("Sum"),
        }
    }
}

/// How many pages of which size the header of a database file names.
#[derive(Clone, Copy, Debug, PartialEq, Eq)]
pub struct Named {
    pub pages: u32,
    /// In bytes.
    pub size: u32,
}

impl Named {
    /// How many bytes they have.
    pub fn length(self) -> u64
        ensures { result ≡ named_length self }
    {
        u64::from(self.pages) * u64::from(self.size)
    }
}

/// A note.
#[derive(Clone, Copy)]
pub enum Note<'a> {
    /// A database file of this length that no log counts beside ends before the pages that its header names.
    Cut {
        path: Quoted<'a>,
        length: u64,
        named: Named,
    },
    /// It goes on for so many bytes behind them.
    Rest {
        path: Quoted<'a>,
        bytes: u64,
        named: Named,
    },
    /// A database file of this length beside a log that counts is shorter than they are.
    Shorter {
        path: Quoted<'a>,
        length: u64,
        named: Named,
    },
    /// So many whole frames, and bytes in all, stand behind the front of a log, which stops so.
    Dropped {
        frames: u64,
        bytes: u64,
        stop: Stop,
    },
    /// The database has so many pages above the number in its header.
    Unused {
        pages: u32,
        named: u32,
    },
    /// Its header names more pages than there are.
    Excess {
        all: u32,
        named: u32,
    },
}

impl fmt::Display for Note<'_> {
    ghost use Rattle.std.specs.Prelude.{Some};
    ghost use Rattle.cli_files.specs.Notes.{note_text};

    ghost output = { λ note. Some (note_text note) };

    fn fmt<W: fmt::Write>(&self, f: &mut fmt::Formatter<W>) -> fmt::Result {
        match *self {
            Note::Cut {
                path,
                length,
                named,
            } => {
                let (pages, size) = (named.pages, named.size);
                write!(
                    f,
                    "{path} ends at byte {length}, before the {pages} pages of {size} bytes that its header names: \
                     what is missing is taken as zeros"
                )
            }
            Note::Rest { path, bytes, named } => {
                let pages = named.pages;
                write!(
                    f,
                    "{path} goes on for {bytes} bytes behind the {pages} pages that its header names: these aren't \
                     looked at"
                )
            }
            Note::Shorter {
                path,
                length,
                named,
            } => {
                let (pages, size) = (named.pages, named.size);
                write!(
                    f,
                    "{path}: {length} bytes, shorter than the {pages} pages of {size} bytes that its header names"
                )
            }
            Note::Dropped {
                frames,
                bytes,
                stop,
            } => {
                let (why, at) = (Reason(stop.why), stop.frame);
                write!(
                    f,
                    "{frames} frames, {bytes} bytes behind the front are dropped: stop {why} at {at}"
                )
            }
            Note::Unused { pages, named } => write!(
                f,
                "the header counts {named} pages: the {pages} above them aren't judged, since SQLite doesn't use them"
            ),
            Note::Excess { all, named } => write!(
                f,
                "the header counts {named} pages, but there are {all} by the log: SQLite calls that malformed"
            ),
        }
    }
}

fn number_at(head: &[u8; 100], at: usize) -> u32
    requires { at < 97 }
    ensures { result ≡ word head.now at }
{
    u32::from_be_bytes([head[at], head[at + 1], head[at + 2], head[at + 3]])
}

/// Whether the count of pages in a header counts (fileformat2, 1.3.7).
fn counts_pages(head: &[u8; 100]) -> bool
    ensures { IsTrue result ↔ (word head.now 24 ≡ word head.now 92) }
{
    number_at(head, 24) == number_at(head, 92)
}

/// How many pages a database file's header names, and of which size; none where that doesn't count, or is no header.
pub(crate) fn named_pages(head: &[u8; 100]) -> Option<Named>
    ensures { NamesPages head.now result }
{
    if !has_magic(head) || !counts_pages(head) {
        return None;
    }
    match named_page_size(head) {
        Some(size) => Some(Named {
            pages: number_at(head, 28),
            size: size.get(),
        }),
        None => None,
    }
}

/// What is noted of a database file of this length that no log counts beside, and whose header names these pages.
pub(crate) fn alone_note<'a>(
    path: Quoted<'a>,
    length: u64,
    named: Option<Named>,
) -> Option<Note<'a>>
    ensures { option_map note_text result ≡ alone_text (name_text path.entry.0.now) length named }
{
    let named = named?;
    let end = named.length();
    if length < end {
        Some(Note::Cut {
            path,
            length,
            named,
        })
    } else if end != 0 && end < length {
        let bytes = length - end;
        Some(Note::Rest { path, bytes, named })
    } else {
        None
    }
}

/// What is noted of one beside a log that counts.
pub(crate) fn shorter_note<'a>(
    path: Quoted<'a>,
    length: u64,
    named: Option<Named>,
) -> Option<Note<'a>>
    ensures { option_map note_text result ≡ shorter_text (name_text path.entry.0.now) length named }
{
    let named = named?;
    (length < named.length()).then_some(Note::Shorter {
        path,
        length,
        named,
    })
}

/// What is noted of a log of this length with this header and front, which stops so.
fn note_behind(
    length: u64,
    header: Option<WalHeader>,
    front: Front,
    stop: Stop,
) -> Option<Note<'static>>
    ensures { option_map note_text result ≡ dropped_text length header front stop }
{
    let frame = u64::from(header?.page_size.get()) + 24;
    let bytes = length.saturating_sub(front.end.max(32));
    let frames = bytes / frame;
    (bytes != 0).then_some(Note::Dropped {
        frames,
        bytes,
        stop,
    })
}

/// What is noted of a log of this length that is emptied: what stands behind its front. Nothing where its header isn't
/// whole.
pub(crate) fn dropped_note(length: u64, scan: &Scan) -> Option<Note<'static>>
    ensures { (most : ℕ) (wal : List ℕ) → TookWithin most wal scan.now
        → IsDropped most wal length (option_map note_text result) }
{
    let (header, front, stop) = (scan.header(), scan.committed(), scan.stop());
    note_behind(length, header, front, stop)
}

/// The note for a database of so many pages, whose header names so many, 0 if that number isn't valid.
pub(crate) fn counts_note(all: u32, named: u32) -> Option<Note<'static>>
    ensures { option_map note_text result ≡ counts_text all named }
{
    if named == 0 || named == all {
        None
    } else if named < all {
        let pages = all - named;
        Some(Note::Unused { pages, named })
    } else {
        Some(Note::Excess { all, named })
    }
}
