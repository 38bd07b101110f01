//! The trace of a run: what a program did to a set of files in a folder (own, docs/TRACE.md).
ghost use Rattle.std.specs.Prelude.{◌≡◌, ◌≢◌, ◌+◌, ◌≤◌, ◌↔◌, IsTrue, ℕ, length, MatchOption};
ghost use Rattle.rig_play.specs.Trace.{number_at};
ghost use Rattle.rig_store.specs.Calls.{action_number, carries, HasMagic, IsHeadAt, NamesNone};
ghost use Rattle.rig_store.specs.internal.Calls.{NextAnswer, ListAnswer};

use byteorder::{ByteOrder, LittleEndian};
use rig_play::{Kind, Record, Subject, TraceError};
use std::alloc::Global;

/// What a trace of a set of files begins with.
const MAGIC: [u8; 8] = *b"SQCRTR2\n";

/// How many bytes of a record stand in front of those that it carries.
const HEAD_LEN: usize = 40;

/// What a record is of.
#[derive(Clone, Copy, Debug, PartialEq, Eq)]
pub enum Action {
    /// A file that was there under a name when recording began, with its bytes.
    Base,
    /// A file without bytes was made under a name.
    Make,
    /// A write of its bytes at its place of a file.
    Write,
    /// A change of a file's length to its place.
    Cut,
    /// A sync of a file, of its bytes and length alone where its place is 1.
    Sync,
    /// A name was taken away.
    Unlink,
    /// The file of a name got the name whose number is its place, and lost the old one.
    Rename,
    /// A sync of the folder.
    FolderSync,
    /// A line that the program wrote.
    Mark,
    /// A call that a trace can't hold.
    NotHeld,
    /// What was under a name when recording ended: its place is 1 where a file was, its answer is that file's sum.
    End,
    /// The text of the next name.
    Name,
}

/// One record of a trace: the numbers of its head, and where the bytes that it carries begin.
#[derive(Clone, Copy, Debug, PartialEq, Eq)]
pub struct Call {
    /// What it is of.
    pub action: Action,
    /// The number of the file that it speaks of, in the order in which they were made.
    pub file: u32,
    /// The number of the name that it speaks of, in the order in which they were told.
    pub name: u32,
    /// The thread that made the call.
    pub thread: u32,
    /// What the call answered, in two's complement.
    pub answer: u64,
    /// A place in the file, or what stands for it.
    pub place: u64,
    /// How many bytes it carries, where its action carries any.
    pub length: u64,
    /// Where the bytes that it carries begin in the trace.
    pub from: usize,
}

/// The records of a trace.
#[derive(Drop)]
pub struct Trace {
    /// In the order of the trace.
    pub calls: Vec<Call>,
    /// Where the last whole record ends, in bytes. What stands behind it is one that was cut.
    pub end: usize,
}

impl Action {
    /// The action of this number.
    fn from_number(number: u32) -> Option<Action>
        ensures { MatchOption result ((a : _) → action_number a ≢ number) (λ a. action_number a ≡ number) }
    {
        Some(match number {
            1 => Action::Base,
            2 => Action::Make,
            4 => Action::Write,
            5 => Action::Cut,
            6 => Action::Sync,
            7 => Action::Unlink,
            8 => Action::Rename,
            9 => Action::FolderSync,
            10 => Action::Mark,
            11 => Action::NotHeld,
            12 => Action::End,
            13 => Action::Name,
            _ => return None,
        })
    }

    /// Whether its records carry bytes.
    fn carries(self) -> bool
        ensures { result ≡ carries self }
    {
        matches!(
            self,
            Action::Base | Action::Write | Action::Mark | Action::Name
        )
    }
}

/// The number of four bytes at a place, the lowest first.
fn word_at(bytes: &[u8], at: usize) -> u32
    requires { at + 4 ≤ length bytes.now }
    ensures { result ≡ number_at bytes.now at 4 }
{
    LittleEndian::read_u32(&bytes[at..])
}

/// The number of eight bytes at a place, the lowest first.
fn long_at(bytes: &[u8], at: usize) -> u64
    requires { at + 8 ≤ length bytes.now }
    ensures { result ≡ number_at bytes.now at 8 }
{
    LittleEndian::read_u64(&bytes[at..])
}

/// The head of the record at a place.
fn head_at(bytes: &[u8], at: usize) -> Option<Call>
    requires { at + 40 ≤ length bytes.now }
    ensures { MatchOption result (NamesNone bytes.now at) (IsHeadAt bytes.now at) }
{
    let action = Action::from_number(word_at(bytes, at))?;
    Some(Call {
        action,
        file: word_at(bytes, at + 4),
        name: word_at(bytes, at + 8),
        thread: word_at(bytes, at + 12),
        answer: long_at(bytes, at + 16),
        place: long_at(bytes, at + 24),
        length: long_at(bytes, at + 32),
        from: at + HEAD_LEN,
    })
}

impl Call {
    ghost use Rattle.std.specs.Prelude.{◌≡◌};
    ghost use Rattle.rig_play.specs.declared.trace.Kind.TheVariants.{Base};
    ghost use Rattle.rig_store.specs.Calls.{carried, has_failed, bytes_of, record_of, empty_file};

    /// How many bytes it carries.
    pub fn carried(&self) -> u64
        ensures { result ≡ carried self.now }
    {
        if self.action.carries() {
            self.length
        } else {
            0
        }
    }

    /// Whether the call failed.
    pub fn has_failed(&self) -> bool
        ensures { result ≡ has_failed self.now }
    {
        self.answer >= 1 << 63
    }

    /// The bytes that it carries, of its trace; of another one as many of them as stand there.
    pub fn bytes<'a>(&self, trace: &'a [u8]) -> &'a [u8]
        ensures { result.now ≡ bytes_of trace.now self.now }
    {
        let rest = &trace[self.from.min(trace.len())..];
        &rest[..self.carried().min(rest.len() as u64) as usize]
    }

    /// The same as a record of this kind, which speaks of a file alone.
    pub(crate) fn record(&self, kind: Kind) -> Record
        ensures { result ≡ record_of self.now kind }
    {
        Record {
            kind,
            subject: Subject::Db,
            making: 0,
            thread: self.thread,
            answer: self.answer,
            place: self.place,
            length: self.length,
            from: self.from,
        }
    }

    /// A record of a file without bytes.
    pub(crate) fn empty(&self) -> Record
        ensures { result ≡ empty_file self.now }
    {
        let mut record = self.record(Kind::Base);
        record.length = 0;
        record
    }
}

/// The record at a place, or None where it is cut.
fn call_at(bytes: &[u8], at: usize) -> Result<Option<Call>, TraceError>
    requires { at ≤ length bytes.now }
    ensures { NextAnswer bytes.now at result }
{
    if bytes.len() - at < HEAD_LEN {
        return Ok(None);
    }
    let Some(call) = head_at(bytes, at) else {
        return Err(TraceError::Damaged(at));
    };
    if call.carried() > (bytes.len() - at - HEAD_LEN) as u64 {
        return Ok(None);
    }
    Ok(Some(call))
}

/// Whether it begins as such a trace does.
fn has_magic(bytes: &[u8]) -> bool
    ensures { IsTrue result ↔ HasMagic bytes.now }
{
    bytes.len() >= 8 && &bytes[..8] == MAGIC.as_slice()
}

/// The records from a place on.
fn calls_from(alloc: Global, bytes: &[u8], start: usize) -> Result<Trace, TraceError>
    requires { start ≤ length bytes.now }
    ensures { ListAnswer bytes.now start result }
{
    let mut calls = Vec::new(alloc);
    let mut at = start;
    while let Some(call) = call_at(bytes, at)? {
        calls.push(call)?;
        at = call.from + call.carried() as usize;
    }
    Ok(Trace { calls, end: at })
}

impl Trace {
    ghost use Rattle.rig_store.specs.Calls.{TraceAnswer};

    /// The records of a trace of a set of files. One that is cut at the end is left out. Refused by NotATrace, by
    /// Damaged with the place of the first record that is none, and by NoMemory.
    pub fn read(alloc: Global, bytes: &[u8]) -> Result<Trace, TraceError>
        ensures { TraceAnswer bytes.now result }
    {
        if !has_magic(bytes) {
            return Err(TraceError::NotATrace);
        }
        calls_from(alloc, bytes, MAGIC.len())
    }
}
