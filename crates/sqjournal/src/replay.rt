//! A replay of a journal (fileformat2, 3) that comes in pieces (own).
ghost use Rattle.std.specs.Prelude.{◌≡◌, ℕ, ◌^◌, ◌<◌, ◌≤◌, length};
ghost use Rattle.std.specs.Option.{ForSome, ForNone};
ghost use Rattle.sqjournal.specs.Reading.{IsSound};

use crate::error::JournalError;
use crate::header::JournalHeader;
use crate::pieces::{first_header, take};
use crate::reading::{Next, Reading, Record, Why};
use std::alloc::Global;

/// The longest journal that is read, in bytes.
pub const LONGEST: u64 = 1 << 40;

/// Where and why a journal ends.
#[derive(Clone, Copy, Debug, PartialEq, Eq)]
pub struct Stop {
    /// The place where the next header or record would begin.
    pub at: u64,
    /// Why the journal ends there.
    pub why: Why,
}

/// What a journal says, of which the bytes come in pieces. It keeps 16 bytes for each record, and
/// of the pages at most the one that is begun.
#[derive(Drop)]
pub struct Replay {
    /// How many bytes came.
    taken: u64,
    /// How far they are read, once the first header was judged.
    reading: Option<Reading>,
    /// The bytes of the next header or record that came so far.
    begun: Vec<u8>,
    /// The records that passed.
    records: Vec<Record>,
    ghost within: { taken ≤ 2 ^ 40 },
    ghost unjudged: { ForNone reading ((length begun.items ≡ taken) × (taken < 28)) },
    ghost sound: { ForSome reading (λ r. IsSound taken (length begun.items) r) },
}

impl Replay {
    ghost use Rattle.std.specs.Prelude.{IsTrue, ◌++◌, ◌+◌, ◌↔◌, List, [], Option, Some, None, IfOk, MatchOption};
    ghost use Rattle.std.specs.Prelude.{MatchResult};
    ghost use Rattle.sqjournal.specs.Header.{IsRefused};
    ghost use Rattle.sqjournal.specs.Journal.{IsFirst};
    ghost use Rattle.sqjournal.specs.declared.error.JournalError.TheVariants.{NoMemory};
    ghost use Rattle.sqjournal.specs.Took.{Took, EndsWhole, IsSettled, Feeds, StopsSo, HasEntry, HasCount};
    ghost use Rattle.sqjournal.specs.internal.Took.{GoesOn};

    /// A replay of which no byte came.
    pub fn new(alloc: Global) -> Replay
        ensures { Took [] result }
    {
        Replay {
            taken: 0,
            reading: None,
            begun: Vec::new(alloc),
            records: Vec::new(alloc),
        }
    }

    /// Takes the next bytes of the journal. Refused by `TooLong` where it has more than
    /// 1,099,511,627,776 with them; otherwise by `NotAJournal`, `SectorSize` or `PageSize`, the first
    /// that holds, once the first header's 28 bytes are there; or by `NoMemory`. A refusal changes
    /// nothing.
    pub fn feed(&mut self, piece: &[u8]) -> Result<(), JournalError>
        ensures { Feeds piece.now self.old self.new result }
    {
        if piece.len() as u64 > LONGEST - self.taken {
            return Err(JournalError::TooLong);
        }
        match self.judged(piece)? {
            Some(reading) => self.go_on(&reading, piece),
            None => self.begin(piece),
        }
    }

    /// The reading that takes the piece, where the first header is judged before it or in it.
    fn judged(&self, piece: &[u8]) -> Result<Option<Reading>, JournalError>
        ensures judged { (b : List ℕ) → Took b self.now → MatchResult result
            (λ judged. MatchOption judged (length (b ++ piece.now) < 28)
            (λ r. (28 ≤ length (b ++ piece.now)) × GoesOn b piece.now self.now r))
            (λ e. (28 ≤ length (b ++ piece.now)) × IsRefused (b ++ piece.now) e) }
        ensures sound { IfOk result (λ judged. MatchOption judged
            ((self.now.reading ≡ None) × (self.now.taken + length piece.now < 28))
            (λ r. IsSound self.now.taken (length self.now.begun.items) r)) }
    {
        if let Some(reading) = self.reading {
            return Ok(Some(reading));
        }
        match first_header(&self.begun, piece)? {
            Some(header) => Ok(Some(Reading {
                header,
                at: 0,
                next: Next::NewSegment,
            })),
            None => Ok(None),
        }
    }

    /// Keeps a piece with which the first header isn't whole.
    fn begin(&mut self, piece: &[u8]) -> Result<(), JournalError>
        requires unjudged { self.old.reading ≡ None }
        requires short { self.old.taken + length piece.now < 28 }
        ensures { (b : List ℕ) → Took b self.old → MatchResult result
            (λ _. Took (b ++ piece.now) self.new) (λ e. (e ≡ NoMemory) × Took b self.new) }
    {
        self.begun.extend_from_slice(piece)?;
        self.taken += piece.len() as u64;
        Ok(())
    }

    /// Reads on through a piece.
    fn go_on(&mut self, reading: &Reading, piece: &[u8]) -> Result<(), JournalError>
        requires sound { IsSound self.old.taken (length self.old.begun.items) reading.now }
        requires within { self.old.taken + length piece.now ≤ 2 ^ 40 }
        ensures { (b : List ℕ) → Took b self.old → GoesOn b piece.now self.old reading.now
            → MatchResult result
            (λ _. Took (b ++ piece.now) self.new) (λ e. (e ≡ NoMemory) × Took b self.new) }
    {
        let next = take(
            reading,
            self.taken,
            piece,
            &mut self.begun,
            &mut self.records,
        )?;
        self.reading = Some(next);
        self.taken += piece.len() as u64;
        Ok(())
    }

    /// The first header. None where the journal isn't hot: without bytes, cut before the end of its
    /// first sector, or refused.
    pub fn first(&self) -> Option<JournalHeader>
        ensures { (b : List ℕ) → Took b self.now → IsFirst b result }
    {
        let reading = self.reading?;
        if self.taken < u64::from(reading.header.sector) {
            return None;
        }
        Some(reading.header)
    }

    /// How many records passed.
    pub fn count(&self) -> usize
        ensures { (b : List ℕ) → Took b self.now → HasCount b result }
    {
        self.records.as_slice().len()
    }

    /// The record of this number, from 1, in order over all segments.
    pub fn entry(&self, i: usize) -> Option<Record>
        ensures { (b : List ℕ) → Took b self.now → HasEntry b i result }
    {
        let at = i.checked_sub(1)?;
        self.records.get(at).copied()
    }

    /// Where and why the journal ends, if no more bytes come.
    pub fn stop(&self) -> Stop
        ensures { (b : List ℕ) → Took b self.now → StopsSo b result }
    {
        match self.reading {
            Some(reading) => Stop {
                at: reading.at,
                why: reading.why(self.taken),
            },
            None if self.taken == 0 => Stop {
                at: 0,
                why: Why::End,
            },
            None => Stop {
                at: 0,
                why: Why::Header,
            },
        }
    }

    /// Whether the journal ends at a header or a record that is whole. No bytes that may follow change what it says
    /// then, and they needn't be fed.
    pub fn is_over(&self) -> bool
        ensures whole { (b : List ℕ) → Took b self.now → (IsTrue result ↔ EndsWhole b) }
        ensures settled { IsTrue result → (b : List ℕ) → Took b self.now → IsSettled b }
    {
        match self.reading {
            Some(reading) => reading.is_over(),
            None => false,
        }
    }
}
