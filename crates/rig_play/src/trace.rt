//! The trace of a run: what a program did to a database file and its two logs (own, docs/TRACE.md).
ghost use Rattle.std.specs.Prelude.{◌≡◌, ◌≢◌, ◌+◌, ◌≤◌, ◌<◌, ◌^◌, ◌↔◌, IsTrue, ℕ, length, IfOk, IfErr, MatchOption};
ghost use Rattle.std.specs.Prelude.{MatchResult, take};
ghost use Rattle.rig_play.specs.Trace.{number_at, kind_number, subject_number, carries, speaks_of, HasMagic, IsHeadAt};
ghost use Rattle.rig_play.specs.Trace.{IsNamed, NamesNone};
ghost use Rattle.rig_play.specs.internal.Trace.{NextAnswer, ListAnswer};

use byteorder::{ByteOrder, LittleEndian};
use std::alloc::{AllocError, AllocFailed, Global};
use thiserror::Error;

/// What a trace begins with.
const MAGIC: [u8; 8] = *b"SQCRTR1\n";

/// How many bytes of a record stand in front of those that it carries.
const HEAD_LEN: usize = 40;

/// What a record is of.
#[derive(Clone, Copy, Debug, PartialEq, Eq)]
pub enum Kind {
    /// A file that was there when recording began, with its bytes.
    Base,
    /// An opening; place 1 where it made the file.
    Open,
    /// A closing.
    Close,
    /// A write of its bytes at its place.
    Write,
    /// A change of a file's length to its place.
    Cut,
    /// A sync of a file.
    Sync,
    /// A file's name was taken away.
    Unlink,
    /// A file's name was changed to that of the file whose number is its place.
    Rename,
    /// A sync of the folder.
    FolderSync,
    /// A line that the program wrote.
    Mark,
    /// A call that a trace can't hold.
    NotHeld,
    /// A file as it was when recording ended: its place is 1 where it was there, its answer is its sum.
    End,
}

/// What a record speaks of.
#[derive(Clone, Copy, Debug, PartialEq, Eq)]
pub enum Subject {
    /// The database file.
    Db,
    /// Its write-ahead log.
    Wal,
    /// Its rollback journal.
    Journal,
    /// The folder that they lie in.
    Folder,
    /// The program's marks.
    Marks,
    /// A name that is none of these.
    Other,
}

/// One record of a trace: the numbers of its head, and where the bytes that it carries begin.
#[derive(Clone, Copy, Debug, PartialEq, Eq)]
pub struct Record {
    /// What it is of.
    pub kind: Kind,
    /// What it speaks of.
    pub subject: Subject,
    /// How often the recorded process saw the file's name made.
    pub making: u32,
    /// The thread that made the call.
    pub thread: u32,
    /// What the call answered, in two's complement.
    pub answer: u64,
    /// A place in the file, or what stands for it.
    pub place: u64,
    /// How many bytes it carries, where its kind carries any.
    pub length: u64,
    /// Where the bytes that it carries begin in the trace.
    pub from: usize,
}

/// The records of a trace.
#[derive(Drop)]
pub struct Trace {
    /// In the order of the trace.
    pub records: Vec<Record>,
    /// Where the last whole record ends, in bytes. What stands behind it is one that was cut.
    pub end: usize,
}

/// Why bytes are no trace.
#[derive(Clone, Copy, Debug, PartialEq, Eq, Error)]
pub enum TraceError {
    /// They don't begin as a trace does.
    #[error("not a trace")]
    NotATrace,
    /// The record at this byte has no kind, or speaks of a file that its kind doesn't speak of.
    #[error("damaged at byte {0}")]
    Damaged(usize),
    /// No memory.
    #[error("no memory")]
    NoMemory,
}

impl From<AllocError> for TraceError {
    ghost use Rattle.std.specs.Prelude.{◌≡◌};
    ghost use Rattle.rig_play.specs.declared.trace.TraceError.TheVariants.{NoMemory};

    ghost from_gives = { λ _ e. e ≡ NoMemory };

    fn from(_refused: AllocError) -> TraceError {
        TraceError::NoMemory
    }
}

impl<T: Drop> From<AllocFailed<T>> for TraceError {
    ghost use Rattle.std.specs.Prelude.{◌≡◌};
    ghost use Rattle.rig_play.specs.declared.trace.TraceError.TheVariants.{NoMemory};

    ghost from_gives = { λ _ e. e ≡ NoMemory };

    fn from(_refused: AllocFailed<T>) -> TraceError {
        TraceError::NoMemory
    }
}

impl Kind {
    /// The kind of this number.
    fn from_number(number: u32) -> Option<Kind>
        ensures { MatchOption result ((k : _) → kind_number k ≢ number) (λ k. kind_number k ≡ number) }
    {
        Some(match number {
            1 => Kind::Base,
            2 => Kind::Open,
            3 => Kind::Close,
            4 => Kind::Write,
            5 => Kind::Cut,
            6 => Kind::Sync,
            7 => Kind::Unlink,
            8 => Kind::Rename,
            9 => Kind::FolderSync,
            10 => Kind::Mark,
            11 => Kind::NotHeld,
            12 => Kind::End,
            _ => return None,
        })
    }

    /// Whether its records carry bytes.
    fn carries(self) -> bool
        ensures { result ≡ carries self }
    {
        matches!(self, Kind::Base | Kind::Write | Kind::Mark)
    }

    /// Whether its records may speak of this.
    fn speaks_of(self, subject: Subject) -> bool
        ensures { result ≡ speaks_of self subject }
    {
        match self {
            Kind::FolderSync => subject == Subject::Folder,
            Kind::Mark => subject == Subject::Marks,
            Kind::Rename => subject.is_file() || subject == Subject::Other,
            _ => subject.is_file(),
        }
    }
}

impl Subject {
    ghost use Rattle.std.specs.Prelude.{◌≡◌, ◌≢◌, MatchOption};
    ghost use Rattle.rig_play.specs.Trace.{is_file, subject_number};

    /// The subject of this number.
    fn from_number(number: u32) -> Option<Subject>
        ensures { MatchOption result ((s : _) → subject_number s ≢ number) (λ s. subject_number s ≡ number) }
    {
        Some(match number {
            0 => Subject::Db,
            1 => Subject::Wal,
            2 => Subject::Journal,
            3 => Subject::Folder,
            4 => Subject::Marks,
            255 => Subject::Other,
            _ => return None,
        })
    }

    /// Whether it is one of the three files.
    pub fn is_file(self) -> bool
        ensures { result ≡ is_file self }
    {
        matches!(self, Subject::Db | Subject::Wal | Subject::Journal)
    }
}

/// The number of four bytes at a place, the lowest first.
fn word_at(bytes: &[u8], at: usize) -> u32
    requires { at + 4 ≤ length bytes.now }
    ensures { result ≡ number_at bytes.now at 4 }
{
    LittleEndian::read_u32(&bytes[at..])
}

/// The number of eight bytes at a place, the lowest first.
fn long_at(bytes: &[u8], at: usize) -> u64
    requires { at + 8 ≤ length bytes.now }
    ensures { result ≡ number_at bytes.now at 8 }
{
    LittleEndian::read_u64(&bytes[at..])
}

/// The kind and the subject of the record at a place.
fn named_at(bytes: &[u8], at: usize) -> Option<(Kind, Subject)>
    requires { at + 40 ≤ length bytes.now }
    ensures { MatchOption result (NamesNone bytes.now at) (λ named. IsNamed bytes.now at named.0 named.1) }
{
    let kind = Kind::from_number(word_at(bytes, at))?;
    let subject = Subject::from_number(word_at(bytes, at + 4))?;
    if !kind.speaks_of(subject) {
        return None;
    }
    Some((kind, subject))
}

/// The head of the record at a place.
fn head_at(bytes: &[u8], at: usize) -> Option<Record>
    requires { at + 40 ≤ length bytes.now }
    ensures { MatchOption result (NamesNone bytes.now at) (IsHeadAt bytes.now at) }
{
    let (kind, subject) = named_at(bytes, at)?;
    Some(Record {
        kind,
        subject,
        making: word_at(bytes, at + 8),
        thread: word_at(bytes, at + 12),
        answer: long_at(bytes, at + 16),
        place: long_at(bytes, at + 24),
        length: long_at(bytes, at + 32),
        from: at + HEAD_LEN,
    })
}

impl Record {
    ghost use Rattle.std.specs.Prelude.{◌≡◌};
    ghost use Rattle.rig_play.specs.Trace.{carried, has_failed, bytes_of};

    /// How many bytes it carries.
    pub fn carried(&self) -> u64
        ensures { result ≡ carried self.now }
    {
        if self.kind.carries() { self.length } else { 0 }
    }

    /// Whether the call failed.
    pub fn has_failed(&self) -> bool
        ensures { result ≡ has_failed self.now }
    {
        self.answer >= 1 << 63
    }

    /// The bytes that it carries, of its trace; of another one as many of them as stand there.
    pub fn bytes<'a>(&self, trace: &'a [u8]) -> &'a [u8]
        ensures { result.now ≡ bytes_of trace.now self.now }
    {
        let rest = &trace[self.from.min(trace.len())..];
        &rest[..self.carried().min(rest.len() as u64) as usize]
    }
}

/// The record at a place, or None where it is cut.
fn record_at(bytes: &[u8], at: usize) -> Result<Option<Record>, TraceError>
    requires { at ≤ length bytes.now }
    ensures { NextAnswer bytes.now at result }
{
    if bytes.len() - at < HEAD_LEN {
        return Ok(None);
    }
    let Some(record) = head_at(bytes, at) else {
        return Err(TraceError::Damaged(at));
    };
    if record.carried() > (bytes.len() - at - HEAD_LEN) as u64 {
        return Ok(None);
    }
    Ok(Some(record))
}

/// Whether it begins as a trace does.
fn has_magic(bytes: &[u8]) -> bool
    ensures { IsTrue result ↔ HasMagic bytes.now }
{
    bytes.len() >= 8 && &bytes[..8] == MAGIC.as_slice()
}

/// The records from a place on.
fn records_from(alloc: Global, bytes: &[u8], start: usize) -> Result<Trace, TraceError>
    requires { start ≤ length bytes.now }
    ensures { ListAnswer bytes.now start result }
{
    let mut records = Vec::new(alloc);
    let mut at = start;
    while let Some(record) = record_at(bytes, at)? {
        records.push(record)?;
        at = record.from + record.carried() as usize;
    }
    Ok(Trace { records, end: at })
}

impl Trace {
    ghost use Rattle.rig_play.specs.Trace.{TraceAnswer};

    /// The records of a trace. One that is cut at the end is left out. Refused by NotATrace, by Damaged with the place
    /// of the first record that is none, and by NoMemory.
    pub fn read(alloc: Global, bytes: &[u8]) -> Result<Trace, TraceError>
        ensures { TraceAnswer bytes.now result }
    {
        if !has_magic(bytes) {
            return Err(TraceError::NotATrace);
        }
        records_from(alloc, bytes, MAGIC.len())
    }
}
