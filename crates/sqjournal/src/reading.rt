//! A reading of a journal: where it goes on, and with what (fileformat2, 3; later segments and why it ends are own).
ghost use Rattle.std.specs.Prelude.{IsTrue, ◌≡◌, ◌⊎◌, ◌↔◌, ℕ, ◌+◌, ◌-◌, ◌*◌, ◌^◌, min, ◌<◌, ◌≤◌, ◌++◌, List, length};
ghost use Rattle.std.specs.Prelude.{MatchOption, option_to_list};
ghost use Rattle.sqval.specs.Bytes.{part};
ghost use Rattle.sqjournal.specs.Header.{next_header};
ghost use Rattle.sqjournal.specs.Reading.{Stands, next_len, IsOver, UnlessOver};
ghost use Rattle.sqjournal.specs.internal.Reading.{IsNext, why_of};
ghost use Rattle.sqjournal.specs.declared.reading.Record.{Record};
ghost use Rattle.sqjournal.specs.declared.reading.Next.TheVariants.{NewSegment, Records, Over};

use crate::header::{JournalHeader, MAGIC, round_up, word_at};
use crate::nonce::page_sum;

/// A record of a journal.
#[derive(Clone, Copy, Debug, PartialEq, Eq)]
pub struct Record {
    /// The page that it holds.
    pub page: u32,
    /// Where the bytes of the page begin in the journal.
    pub at: u64,
}

/// Why a journal ends.
#[derive(Clone, Copy, Debug, PartialEq, Eq)]
pub enum Why {
    /// The file ends where a header would begin, or a record under the count `u32::MAX`.
    End,
    /// What stands at a header's place is no valid header.
    Header,
    /// The file ends within a record, or before one that the count asks for.
    Short,
    /// A record names page 0.
    PageZero,
    /// The sum of a record is wrong.
    Sum,
}

/// What stands at the place where a reading goes on.
#[derive(Clone, Copy, Debug, PartialEq, Eq)]
pub(crate) enum Next {
    /// The header of a segment.
    NewSegment,
    /// A record of a segment with this nonce, of which so many more are asked for: all up to the end
    /// of the file where it is `u32::MAX`.
    Records { nonce: u32, left: u32 },
    /// Nothing: the journal ended.
    Over(Why),
}

/// How far a journal with this first header is read.
#[derive(Clone, Copy, Debug, PartialEq, Eq)]
pub(crate) struct Reading {
    pub header: JournalHeader,
    /// The place of the next header or record, or of the stop.
    pub at: u64,
    pub next: Next,
}

impl Reading {
    /// Whether the journal ended.
    pub fn is_over(&self) -> bool
        ensures { IsTrue result ↔ IsOver self.now.next }
    {
        matches!(self.next, Next::Over(_))
    }

    /// The bytes of the next header's sector or record.
    pub fn next_len(&self) -> usize
        ensures value { result ≡ next_len self.now }
        ensures small { result < 2 ^ 33 }
    {
        match self.next {
            Next::NewSegment => self.header.sector as usize,
            Next::Records { .. } => self.header.page_size.get() as usize + 8,
            Next::Over(_) => 0,
        }
    }

    /// Where the next header or record begins in a piece of so many bytes at this place of the
    /// journal, if it lies in it whole.
    pub fn start_in(&self, place: u64, len: usize) -> Option<usize>
        requires within { place ≤ 2 ^ 40 }
        requires limit { self.now.at ≤ 2 ^ 41 }
        ensures { MatchOption result
            (UnlessOver self.now.next
            (place ≤ self.now.at → place + len < self.now.at + next_len self.now))
            (λ start. (IsOver self.now.next → ⊥) × (start + place ≡ self.now.at)
            × (start + next_len self.now ≤ len)) }
    {
        if matches!(self.next, Next::Over(_)) || self.at < place {
            return None;
        }
        let start = (self.at - place) as usize;
        if start + self.next_len() > len {
            return None;
        }
        Some(start)
    }

    /// Why the journal ends here if it has so many bytes.
    pub fn why(&self, len: u64) -> Why
        ensures { result ≡ why_of self.now len }
    {
        match self.next {
            Next::Over(why) => why,
            Next::NewSegment if len <= self.at => Why::End,
            Next::NewSegment => Why::Header,
            Next::Records { left: u32::MAX, .. } if len <= self.at => Why::End,
            Next::Records { .. } => Why::Short,
        }
    }

    /// Where the bytes begin that are kept of such a piece: those of the next header or record.
    pub fn kept_in(&self, place: u64, len: usize) -> usize
        ensures within { result ≤ len }
        ensures over { IsOver self.now.next → result ≡ len }
        ensures value { UnlessOver self.now.next (result ≡ min (self.now.at - place) len) }
    {
        match self.next {
            Next::Over(_) => len,
            _ => (self.at.saturating_sub(place) as usize).min(len),
        }
    }

    /// The reading goes on at the end of a segment's header or of one of its records.
    fn goes_on(self, end: u64, nonce: u32, left: u32) -> Reading
        requires { (0 < self.header.sector) × (end ≤ 2 ^ 40) }
        ensures header { result.header ≡ self.header }
        ensures full { left ≡ 0 → (result.next ≡ NewSegment)
            × (result.at ≡ next_header self.header.sector end) }
        ensures more { 0 < left → (result.next ≡ Records nonce left) × (result.at ≡ end) }
        ensures near { (end ≤ result.at) × (result.at < end + self.header.sector) }
    {
        if left == 0 {
            Reading {
                at: round_up(end, self.header.sector),
                next: Next::NewSegment,
                ..self
            }
        } else {
            Reading {
                at: end,
                next: Next::Records { nonce, left },
                ..self
            }
        }
    }

    /// The reading after the sector of a header.
    fn after_header(self, sector: &[u8]) -> Reading
        requires next { (self.next ≡ NewSegment) × (512 ≤ self.header.sector) }
        requires whole { (length sector.now ≡ self.header.sector) × (self.at + self.header.sector ≤ 2 ^ 40) }
        ensures stands { (b : List ℕ) (es : List Record) → Stands b self es
            → IsNext b self sector.now → Stands b result es }
        ensures header { result.header ≡ self.header }
        ensures further { UnlessOver result.next (self.at + self.header.sector ≤ result.at) }
        ensures near { result.at < self.at + 2 * self.header.sector }
    {
        if !sector.starts_with(&MAGIC) {
            return self.over(Why::Header);
        }
        let end = self.at + u64::from(self.header.sector);
        self.goes_on(end, word_at(sector, 12), word_at(sector, 8))
    }

    /// The reading after a record, and the record where it passes.
    fn after_record(self, nonce: u32, left: u32, bytes: &[u8]) -> (Reading, Option<Record>)
        requires next { (self.next ≡ Records nonce left) × (0 < self.header.sector) }
        requires whole { (length bytes.now ≡ self.header.page_size + 8) × (self.at + length bytes.now ≤ 2 ^ 40) }
        ensures stands { (b : List ℕ) (es : List Record) → Stands b self es
            → IsNext b self bytes.now → Stands b result.0 (es ++ option_to_list result.1) }
        ensures header { result.0.header ≡ self.header }
        ensures further { UnlessOver result.0.next (self.at + length bytes.now ≤ result.0.at) }
        ensures near { result.0.at < self.at + length bytes.now + self.header.sector }
    {
        let page = word_at(bytes, 0);
        if page == 0 {
            return (self.over(Why::PageZero), None);
        }
        let sum_at = bytes.len() - 4;
        if page_sum(nonce, &bytes[4..sum_at]) != word_at(bytes, sum_at) {
            return (self.over(Why::Sum), None);
        }
        let left = if left == u32::MAX {
            left
        } else {
            left.saturating_sub(1)
        };
        let record = Record {
            page,
            at: self.at + 4,
        };
        let end = self.at + bytes.len() as u64;
        (self.goes_on(end, nonce, left), Some(record))
    }

    /// The journal ends here.
    fn over(self, why: Why) -> Reading
        ensures header { result.header ≡ self.header }
        ensures at { result.at ≡ self.at }
        ensures next { result.next ≡ Over why }
    {
        Reading {
            next: Next::Over(why),
            ..self
        }
    }

    /// The reading after the whole header or record that is next, and the record where one passes.
    pub fn after(self, unit: &[u8]) -> (Reading, Option<Record>)
        requires sector { (512 ≤ self.header.sector) × (self.header.sector ≤ 65536) }
        requires whole { (length unit.now ≡ next_len self) × (self.at + length unit.now ≤ 2 ^ 40) }
        ensures stands { (b : List ℕ) (es : List Record) → Stands b self es
            → IsNext b self unit.now → Stands b result.0 (es ++ option_to_list result.1) }
        ensures header { result.0.header ≡ self.header }
        ensures further { UnlessOver result.0.next (self.at + length unit.now ≤ result.0.at) }
        ensures near { result.0.at ≤ 2 ^ 41 }
    {
        match self.next {
            Next::NewSegment => (self.after_header(unit), None),
            Next::Records { nonce, left } => self.after_record(nonce, left, unit),
            Next::Over(_) => (self, None),
        }
    }
}
