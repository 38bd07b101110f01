//! The scan of a log (fileformat2, 4.1 and 4.5; pieces and stops are own).
ghost use Rattle.std.specs.Prelude.{◌≡◌, ◌↔◌, IsTrue, ℕ, ◌+◌, ◌-◌, ◌<◌, ◌≤◌, List, [], ◌++◌, length, take};
ghost use Rattle.std.specs.Prelude.{if◌then◌else◌, is_ok, OnErr, IfOk, IfErr, MatchResult};
ghost use Rattle.sqval.specs.Bytes.{word};
ghost use Rattle.sqval.specs.PageSize.{IsPageSize};
ghost use Rattle.sqwal.specs.Header.{IsHeaderOf};
ghost use Rattle.sqwal.specs.internal.ScanParts.{NamesSalts, NamesSum, GoesOver, IsJudged};

use crate::error::WalFormatError;
use crate::header::WalHeader;
use crate::sum::Sum;
use crate::words::word;
use sqval::Limits;
use std::alloc::Global;

const HEADER_LENGTH: usize = 32;

/// A valid frame: the page that it names, and the database's size in pages where it ends a commit, otherwise 0.
#[derive(Clone, Copy, Debug, PartialEq, Eq)]
pub struct Entry {
    /// From 1.
    pub page: u32,
    /// In pages, or 0.
    pub size: u32,
}

/// The front of a log: its number of committed frames, the database's size in pages there, and the place in bytes
/// behind the last of them.
#[derive(Clone, Copy, Debug, PartialEq, Eq)]
pub struct Front {
    /// Those up to the last one that ends a commit.
    pub frames: u32,
    /// In pages.
    pub size: u32,
    /// In bytes.
    pub end: u64,
}

/// Why a log stops at a frame.
#[derive(Clone, Copy, Debug, PartialEq, Eq)]
pub enum Why {
    /// The bytes end where a frame, or the header, would begin.
    End,
    /// The frame, or the header, isn't wholly there.
    Cut,
    /// Its salts aren't the header's.
    Salt,
    /// It names page 0.
    PageZero,
    /// Its sums are wrong.
    Sum,
}

/// The first frame of a log that isn't valid, from 1; 0 while the header isn't whole.
#[derive(Clone, Copy, Debug, PartialEq, Eq)]
pub struct Stop {
    /// From 1, or 0.
    pub frame: u32,
    /// The first reason that holds, in the order of the enum.
    pub why: Why,
}

/// How long a frame is, in bytes.
pub(crate) fn frame_length(header: &WalHeader) -> usize
    ensures value { result ≡ 24 + header.now.page_size }
    ensures page_size { IsPageSize header.now.page_size }
{
    24 + header.page_size.get() as usize
}

/// The page and the size that a frame names.
fn entry_of(frame: &[u8]) -> Entry
    requires { 8 ≤ length frame.now }
    ensures page { result.page ≡ word frame.now 0 }
    ensures size { result.size ≡ word frame.now 4 }
{
    Entry {
        page: word(frame, 0),
        size: word(frame, 4),
    }
}

/// Whether the frame's salts are the header's.
fn names_salts(header: &WalHeader, frame: &[u8]) -> bool
    requires { 16 ≤ length frame.now }
    ensures { IsTrue result ↔ NamesSalts header.now frame.now }
{
    word(frame, 8) == header.salt1 && word(frame, 12) == header.salt2
}

/// Whether the frame names this sum.
pub(crate) fn names_sum(frame: &[u8], sum: Sum) -> bool
    requires { 24 ≤ length frame.now }
    ensures { IsTrue result ↔ NamesSum frame.now sum }
{
    word(frame, 16) == sum.s0 && word(frame, 20) == sum.s1
}

/// The sum that goes on over the frame's first 8 bytes and its page.
pub(crate) fn sum_over(header: &WalHeader, before: Sum, frame: &[u8]) -> Sum
    requires whole { length frame.now ≡ 24 + header.now.page_size }
    requires page_size { IsPageSize header.now.page_size }
    ensures { GoesOver header.now frame.now before result }
{
    let order = header.order;
    before.add(&frame[..8], order).add(&frame[24..], order)
}

/// The sum behind a frame that passes, or why it doesn't pass.
fn judged(header: &WalHeader, before: Sum, frame: &[u8]) -> Result<Sum, Why>
    requires whole { length frame.now ≡ 24 + header.now.page_size }
    requires page_size { IsPageSize header.now.page_size }
    ensures { IsJudged header.now before frame.now result }
{
    if !names_salts(header, frame) {
        return Err(Why::Salt);
    }
    if word(frame, 0) == 0 {
        return Err(Why::PageZero);
    }
    let sum = sum_over(header, before, frame);
    if !names_sum(frame, sum) {
        return Err(Why::Sum);
    }
    Ok(sum)
}

/// A copy of bytes.
fn kept(alloc: Global, bytes: &[u8]) -> Result<Vec<u8>, WalFormatError>
    ensures items { IfOk result (λ v. v.items ≡ bytes.now) }
    ensures memory { IfErr result (λ e. e ≡ WalFormatError.NoMemory) }
{
    Vec::from_slice(alloc, bytes).map_err(|_| WalFormatError::NoMemory)
}

/// The bytes of both, one after the other.
fn joined(alloc: Global, front: &[u8], back: &[u8]) -> Result<Vec<u8>, WalFormatError>
    ensures items { IfOk result (λ v. v.items ≡ front.now ++ back.now) }
    ensures memory { IfErr result (λ e. e ≡ WalFormatError.NoMemory) }
{
    let mut bytes = kept(alloc, front)?;
    match bytes.extend_from_slice(back) {
        Ok(()) => Ok(bytes),
        Err(_) => Err(WalFormatError::NoMemory),
    }
}

/// How many bytes complete a frame that is begun; none where none is.
fn missing_of(header: &WalHeader, begun: &[u8]) -> usize
    ensures none { length begun.now ≡ 0 → result ≡ 0 }
    ensures some { 1 ≤ length begun.now → result ≡ 24 + header.now.page_size - length begun.now }
{
    if begun.is_empty() {
        return 0;
    }
    frame_length(header).saturating_sub(begun.len())
}

/// How far a scan has come, and how far it may go.
#[derive(Clone, Copy)]
struct Progress {
    limits: Limits,
    /// The first frame that isn't known to be valid, from 1; 0 while the header isn't whole.
    next: u32,
    /// The sum of all before that frame.
    sum: Sum,
    front: Front,
    /// Why that frame isn't valid, where it is whole.
    refused: Option<Why>,
}

impl Progress {
    ghost use Rattle.sqval.specs.Limits.{greatest};
    ghost use Rattle.sqwal.specs.internal.ScanParts.{progress_behind};

    /// One valid frame further.
    fn behind(self, header: &WalHeader, entry: Entry, sum: Sum) -> Progress
        requires { self.next ≤ greatest.frames }
        ensures { result ≡ progress_behind header.now entry sum self }
    {
        let front = if entry.size == 0 {
            self.front
        } else {
            Front {
                frames: self.next,
                size: entry.size,
                end: 32 + u64::from(self.next) * (24 + u64::from(header.page_size.get())),
            }
        };
        Progress {
            limits: self.limits,
            next: self.next + 1,
            sum,
            front,
            refused: self.refused,
        }
    }
}

/// The valid frames of a log.
#[derive(Drop)]
struct FrameList {
    entries: Vec<Entry>,
    progress: Progress,
}

impl FrameList {
    ghost use Rattle.sqwal.specs.internal.ScanParts.{ListTook, KeepsFrames, KeepsLimits, IsPushed, FramesRefused};

    /// No frames yet, behind a whole header.
    fn new(alloc: Global, limits: Limits, header: &WalHeader, head: &[u8; 32]) -> FrameList
        ensures took { IsHeaderOf head.now header.now → ListTook header.now head.now [] result }
        ensures limits { result.progress.limits ≡ limits }
    {
        FrameList {
            entries: Vec::new(alloc),
            progress: Progress {
                limits,
                next: 1,
                sum: Sum::zero().add(&head[..24], header.order),
                front: Front {
                    frames: 0,
                    size: 0,
                    end: 32,
                },
                refused: None,
            },
        }
    }

    /// Adds a valid frame. After an error the frames are as before.
    fn push(&mut self, header: &WalHeader, entry: Entry, sum: Sum) -> Result<(), WalFormatError>
        ensures { IsPushed header.now entry sum self.old result self.new }
    {
        if self.progress.next > self.progress.limits.frames() {
            return Err(WalFormatError::TooLong);
        }
        self.entries
            .push(entry)
            .map_err(|_| WalFormatError::NoMemory)?;
        self.progress = self.progress.behind(header, entry, sum);
        Ok(())
    }

    /// Takes a whole frame.
    fn take(&mut self, header: &WalHeader, frame: &[u8]) -> Result<(), WalFormatError>
        requires whole { length frame.now ≡ 24 + header.now.page_size }
        requires page_size { IsPageSize header.now.page_size }
        ensures took { (b held first : List ℕ) → ListTook header.now b held self.old → frame.now ≡ held ++ first →
            MatchResult result (λ _. ListTook header.now (b ++ first) [] self.new)
            (FramesRefused self.old.progress.limits.frames header.now.page_size (b ++ first)) }
        ensures keeps { KeepsFrames self.old self.new }
        ensures limits { KeepsLimits self.old self.new }
    {
        if self.progress.refused.is_some() {
            return Ok(());
        }
        match judged(header, self.progress.sum, frame) {
            Ok(sum) => self.push(header, entry_of(frame), sum),
            Err(why) => {
                self.progress.refused = Some(why);
                Ok(())
            }
        }
    }

    /// Takes the whole frames at the front of these bytes and gives back the rest.
    fn take_whole<'a>(
        &mut self,
        header: &WalHeader,
        bytes: &'a [u8],
    ) -> Result<&'a [u8], WalFormatError>
        ensures took { (b : List ℕ) → ListTook header.now b [] self.old → MatchResult result
            (λ rest. ListTook header.now (b ++ bytes.now) rest.now self.new)
            (FramesRefused self.old.progress.limits.frames header.now.page_size (b ++ bytes.now)) }
        ensures keeps { KeepsFrames self.old self.new }
        ensures limits { KeepsLimits self.old self.new }
    {
        let length = frame_length(header);
        let mut rest = bytes;
        while rest.len() >= length {
            let (frame, more) = rest.split_at(length);
            self.take(header, frame)?;
            rest = more;
        }
        Ok(rest)
    }
}

/// A scan of a log that is handed over in pieces, of any lengths. It keeps 8 bytes for each valid frame and no page
/// but that of a frame in two pieces.
#[derive(Drop)]
pub struct Scan {
    /// The bytes of a header or a frame that isn't whole.
    held: Vec<u8>,
    header: Option<WalHeader>,
    frames: FrameList,
}

impl Scan {
    ghost use Rattle.sqwal.specs.Took.{Took, TookWithin, IsSettledWithin};
    ghost use Rattle.sqwal.specs.Stops.{IsStop};
    ghost use Rattle.sqwal.specs.Answers.{FeedAnswerWithin, HeaderFound, EntryFound, AreEntriesWithin};
    ghost use Rattle.sqwal.specs.Answers.{IsCommittedWithin};
    ghost use Rattle.sqwal.specs.internal.ScanParts.{ListTook, ScanTook, HasTaken, KeepsHeld, KeepsFrames};
    ghost use Rattle.sqwal.specs.internal.ScanParts.{KeepsLimits, IsFed};
    ghost use Rattle.sqwal.specs.internal.ScanParts.{IsBegunScan};
    ghost use Rattle.sqwal.specs.internal.ScanParts.{IsCompleted, FramesRefused};

    /// A scan of no bytes, at the usual limit.
    pub fn new(alloc: Global) -> Scan
        ensures { Took [] result }
    {
        Scan::within(alloc, Limits::USUAL)
    }

    /// A scan of no bytes that takes no more valid frames than these limits allow.
    pub fn within(alloc: Global, limits: Limits) -> Scan
        ensures { TookWithin limits.frames [] result }
    {
        Scan {
            held: Vec::new(alloc),
            header: None,
            frames: FrameList {
                entries: Vec::new(alloc),
                progress: Progress {
                    limits,
                    next: 0,
                    sum: Sum::zero(),
                    front: Front {
                        frames: 0,
                        size: 0,
                        end: 0,
                    },
                    refused: None,
                },
            },
        }
    }

    /// Takes the next piece of the log. Refused by NotAWal, PageSize, HeaderSum or UnknownVersion, the first that
    /// holds, once the header's 32 bytes are there; by TooLong once the frame behind the last one of the limits is
    /// there and valid; or by NoMemory. After a refusal the scan stands as before the piece. Bytes behind a frame that
    /// isn't valid are taken and not looked at.
    pub fn feed(&mut self, piece: &[u8]) -> Result<(), WalFormatError>
        ensures { (most : ℕ) (b : List ℕ) → TookWithin most b self.old
            → FeedAnswerWithin most b piece.now result self.new }
    {
        match self.header {
            Some(header) => self.feed_frames(&header, piece),
            None => self.feed_header(piece),
        }
    }

    /// The header, once it is whole.
    pub fn header(&self) -> Option<WalHeader>
        ensures { (most : ℕ) (b : List ℕ) → TookWithin most b self.now → HeaderFound b result }
    {
        self.header
    }

    /// Valid frame i, from 1. None where it isn't valid.
    pub fn entry(&self, i: usize) -> Option<Entry>
        ensures { (most : ℕ) (b : List ℕ) → TookWithin most b self.now → EntryFound b i result }
    {
        let index = i.checked_sub(1)?;
        self.frames.entries.get(index).copied()
    }

    /// All valid frames, the first one first.
    pub fn entries(&self) -> &[Entry]
        ensures { (most : ℕ) (b : List ℕ) → TookWithin most b self.now → AreEntriesWithin most b result.now }
    {
        &self.frames.entries
    }

    /// The front. With no committed frame its size is 0, and its end 32, or 0 while the header isn't whole.
    pub fn committed(&self) -> Front
        ensures { (most : ℕ) (b : List ℕ) → TookWithin most b self.now → IsCommittedWithin most b result }
    {
        self.frames.progress.front
    }

    /// Where the log stops and why, if it ends here.
    pub fn stop(&self) -> Stop
        ensures { (most : ℕ) (b : List ℕ) → TookWithin most b self.now → IsStop b result.frame result.why }
    {
        let short = if self.held.is_empty() {
            Why::End
        } else {
            Why::Cut
        };
        Stop {
            frame: self.frames.progress.next,
            why: self.frames.progress.refused.unwrap_or(short),
        }
    }

    /// Whether the log stops at a whole frame. The scan is then one of all bytes that may follow, too, and they needn't
    /// be fed.
    pub fn is_over(&self) -> bool
        ensures { (most : ℕ) (b : List ℕ) → TookWithin most b self.now
            → (IsTrue result ↔ IsSettledWithin most b self.now) }
    {
        self.frames.progress.refused.is_some()
    }

    /// The scan of a header and what follows it.
    fn begun(
        alloc: Global,
        limits: Limits,
        head: &[u8; 32],
        bytes: &[u8],
    ) -> Result<Scan, WalFormatError>
        ensures { IsBegunScan limits.frames (head.now ++ bytes.now) result }
    {
        let header = WalHeader::read(head)?;
        let mut frames = FrameList::new(alloc, limits, &header, head);
        let rest = frames.take_whole(&header, bytes)?;
        let held = kept(alloc, rest)?;
        Ok(Scan {
            held,
            header: Some(header),
            frames,
        })
    }

    /// Takes a piece while the header isn't whole.
    fn feed_header(&mut self, piece: &[u8]) -> Result<(), WalFormatError>
        ensures { (most : ℕ) (b : List ℕ) → self.old.header ≡ None → HasTaken most b self.old
            → IsFed most b piece.now result self.new }
    {
        let missing = HEADER_LENGTH.saturating_sub(self.held.len());
        if piece.len() < missing {
            return self.hold(piece);
        }
        let alloc = *self.held.allocator();
        let (first, rest) = piece.split_at(missing);
        let head = joined(alloc, &self.held, first)?;
        let Some(head) = head.first_chunk::<HEADER_LENGTH>() else {
            return Ok(());
        };
        *self = Scan::begun(alloc, self.frames.progress.limits, head, rest)?;
        Ok(())
    }

    /// Keeps the bytes of a piece that completes nothing. After an error they are as before.
    fn hold(&mut self, piece: &[u8]) -> Result<(), WalFormatError>
        ensures held { self.new.held.items ≡ (if is_ok result then self.old.held.items ++
            piece.now else self.old.held.items) }
        ensures header { self.new.header ≡ self.old.header }
        ensures entries { self.new.frames.entries.items ≡ self.old.frames.entries.items }
        ensures progress { self.new.frames.progress ≡ self.old.frames.progress }
        ensures memory { IfErr result (λ e. e ≡ WalFormatError.NoMemory) }
    {
        self.held
            .extend_from_slice(piece)
            .map_err(|_| WalFormatError::NoMemory)
    }

    /// Takes a piece behind the header.
    fn feed_frames(&mut self, header: &WalHeader, piece: &[u8]) -> Result<(), WalFormatError>
        ensures { (b : List ℕ) → self.old.header ≡ Some header.now → ScanTook header.now b self.old
            → IsFed self.old.frames.progress.limits.frames b piece.now result self.new }
    {
        if self.frames.progress.refused.is_some() {
            return Ok(());
        }
        let missing = missing_of(header, &self.held);
        if piece.len() < missing {
            return self.hold(piece);
        }
        let (first, rest) = piece.split_at(missing);
        self.complete(header, first, rest)
    }

    /// Takes bytes that complete the frame that is held back, if one is, and what follows it.
    fn complete(
        &mut self,
        header: &WalHeader,
        first: &[u8],
        rest: &[u8],
    ) -> Result<(), WalFormatError>
        ensures { (b : List ℕ) → self.old.header ≡ Some header.now → ScanTook header.now b self.old
            → self.old.frames.progress.refused ≡ None → IsCompleted header.now self.old.held.items first.now
            → IsFed self.old.frames.progress.limits.frames b (first.now ++ rest.now) result self.new }
    {
        let held = self.held.len();
        let count = self.frames.entries.len();
        let progress = self.frames.progress;
        match self.advance(header, first, rest) {
            Ok(left) => {
                self.held = left;
                Ok(())
            }
            Err(error) => {
                self.held.truncate(held);
                self.frames.entries.truncate(count);
                self.frames.progress = progress;
                Err(error)
            }
        }
    }

    /// Takes the frame that is held back with the bytes that complete it, and the whole frames behind it, and gives
    /// what is left of the bytes. After an error more is held and taken.
    fn advance(
        &mut self,
        header: &WalHeader,
        first: &[u8],
        rest: &[u8],
    ) -> Result<Vec<u8>, WalFormatError>
        ensures took { (b : List ℕ) → ScanTook header.now b self.old
            → self.old.frames.progress.refused ≡ None → IsCompleted header.now self.old.held.items first.now
            → MatchResult result (λ left. ListTook header.now (b ++ (first.now ++ rest.now)) left.items self.new.frames)
            (FramesRefused self.old.frames.progress.limits.frames header.now.page_size
            (b ++ (first.now ++ rest.now))) }
        ensures header { self.new.header ≡ self.old.header }
        ensures held { KeepsHeld self.old self.new }
        ensures entries { KeepsFrames self.old.frames self.new.frames }
        ensures limits { KeepsLimits self.old.frames self.new.frames }
    {
        let alloc = *self.held.allocator();
        self.finish(header, first)?;
        let left = self.frames.take_whole(header, rest)?;
        kept(alloc, left)
    }

    /// Takes the frame that is held back with the bytes that complete it.
    fn finish(&mut self, header: &WalHeader, first: &[u8]) -> Result<(), WalFormatError>
        ensures took { (b : List ℕ) → ScanTook header.now b self.old → self.old.frames.progress.refused ≡ None
            → IsCompleted header.now self.old.held.items first.now → MatchResult result
            (λ _. ListTook header.now (b ++ first.now) [] self.new.frames)
            (FramesRefused self.old.frames.progress.limits.frames header.now.page_size (b ++ first.now)) }
        ensures header { self.new.header ≡ self.old.header }
        ensures held { KeepsHeld self.old self.new }
        ensures entries { KeepsFrames self.old.frames self.new.frames }
        ensures limits { KeepsLimits self.old.frames self.new.frames }
    {
        self.hold(first)?;
        if self.held.len() == frame_length(header) {
            return self.frames.take(header, &self.held);
        }
        Ok(())
    }
}
