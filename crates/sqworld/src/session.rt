//! An engine that is there, and its readers (own).
ghost use Rattle.std.specs.Prelude.{◌≡◌, ◌+◌, ◌<◌, ◌≤◌, ◌^◌, ◌++◌, ◌∷◌, ℕ, [], IfOk, MatchOption, length, get_or, Some};
ghost use Rattle.std.specs.Prelude.{None};
ghost use Rattle.sqval.specs.Answers.{Done, Page};
ghost use Rattle.walcore.specs.Machine.{Commits, Syncs, Checkpoints, Restarts, Begins, Reads, Ends};
ghost use Rattle.sqval.specs.JudgedPages.{lent};
ghost use Rattle.walcore.specs.Bringing.{answer_of as checkpoint_answer};
ghost use Rattle.sqworld.specs.Run.{numbered, answer_of};
ghost use Rattle.sqworld.specs.Sessions.{tokens_of};
ghost use Rattle.sqworld.specs.internal.Sessions.{SessionServes, begun_by};
ghost use Rattle.recovery.specs.Moments.{answered};
ghost use Rattle.walcore.specs.Refusal.{number_of};

use crate::reply::Reply;
use crashdisk::ModelDisk;
use sqval::PageSize;
use std::alloc::{AllocError, AllocFailed, Global};
use walcore::{Checkpointed, Reader, Wal, WalError};

/// An engine, and the readers from number `first` on, each while it is open.
pub struct Session {
    pub wal: Wal<ModelDisk>,
    pub first: usize,
    pub slots: Vec<Option<Reader>>,
}

/// Pages as an engine takes them.
pub(crate) fn lend(alloc: Global, pages: &[(u32, Vec<u8>)]) -> Result<Vec<(u32, &[u8])>, AllocError>
    ensures { IfOk result (λ all. lent all.items ≡ numbered pages.now) }
{
    let mut all = Vec::new(alloc);
    for page in pages {
        all.push((page.0, page.1.as_slice()))?;
    }
    Ok(all)
}

/// So many zeros.
pub(crate) fn zeros(alloc: Global, count: usize) -> Result<Vec<u8>, AllocError>
    ensures { IfOk result (λ bytes. length bytes.items ≡ count) }
{
    let mut bytes = Vec::new(alloc);
    bytes.resize(count, 0)?;
    Ok(bytes)
}

/// What a call answers that is done or refused.
fn outcome(answer: Result<(), WalError>) -> Reply
    ensures { answer_of result ≡ answered number_of (λ _. Done) answer }
{
    match answer {
        Ok(()) => Reply::Done,
        Err(error) => Reply::Refused(error.number()),
    }
}

/// What a read of these bytes answers.
fn page_outcome(answer: Result<(), WalError>, bytes: Vec<u8>) -> Reply
    ensures { answer_of result ≡ answered number_of (λ _. Page bytes.items) answer }
{
    match answer {
        Ok(()) => Reply::Page(bytes),
        Err(error) => Reply::Refused(error.number()),
    }
}

/// What a checkpoint answers.
fn checkpoint_outcome(answer: Result<Checkpointed, WalError>) -> Reply
    ensures { answer_of result ≡ answered number_of checkpoint_answer answer }
{
    match answer {
        Ok(Checkpointed::Complete) => Reply::Complete,
        Ok(Checkpointed::Partial) => Reply::Partial,
        Err(error) => Reply::Refused(error.number()),
    }
}

impl Session {
    /// No reader has begun since the engine was opened, and so many before.
    pub fn new(alloc: Global, wal: Wal<ModelDisk>, first: usize) -> Session
        ensures wal { result.wal ≡ wal }
        ensures first { result.first ≡ first }
        ensures slots { result.slots.items ≡ [] }
    {
        Session {
            wal,
            first,
            slots: Vec::new(alloc),
        }
    }

    /// The place of a reader's slot, if it began since the engine was opened.
    fn slot(&self, number: u64) -> Option<usize>
        ensures { MatchOption result (get_or (tokens_of self.now) number None ≡ None)
            (λ i. (i < length self.now.slots.items) × (number ≡ self.now.first + i)) }
    {
        let number = number as usize;
        if number < self.first || number - self.first >= self.slots.len() {
            return None;
        }
        Some(number - self.first)
    }

    /// Commits pages.
    pub fn commit(
        &mut self,
        alloc: Global,
        pages: &[(u32, Vec<u8>)],
        size: u32,
    ) -> Result<Reply, AllocError>
        ensures serves { (page_size : ℕ) → IfOk result (λ reply. SessionServes page_size self.old self.new
            (Commits (numbered pages.now) size) (answer_of reply)) }
        ensures begun { begun_by self.new ≡ begun_by self.old }
    {
        let all = lend(alloc, pages)?;
        Ok(outcome(self.wal.commit(&all, size)))
    }

    /// Makes all commits durable.
    pub fn sync(&mut self) -> Reply
        ensures serves { (page_size : ℕ) → SessionServes page_size self.old self.new Syncs (answer_of result) }
        ensures begun { begun_by self.new ≡ begun_by self.old }
    {
        outcome(self.wal.sync())
    }

    /// Brings commits into the database file.
    pub fn checkpoint(&mut self) -> Reply
        ensures serves { (page_size : ℕ) → SessionServes page_size self.old self.new Checkpoints (answer_of result) }
        ensures begun { begun_by self.new ≡ begun_by self.old }
    {
        checkpoint_outcome(self.wal.checkpoint())
    }

    /// Begins the log anew.
    pub fn restart(&mut self, salt2: u32) -> Reply
        ensures serves { (page_size : ℕ)
            → SessionServes page_size self.old self.new (Restarts salt2) (answer_of result) }
        ensures begun { begun_by self.new ≡ begun_by self.old }
    {
        outcome(self.wal.restart(salt2))
    }

    /// A reader begins.
    pub fn begin(&mut self) -> Result<Reply, AllocError>
        requires { begun_by self.old < 2 ^ 63 }
        ensures serves { (page_size : ℕ)
            → IfOk result (λ reply. SessionServes page_size self.old self.new Begins (answer_of reply)) }
        ensures begun { begun_by self.new ≤ begun_by self.old + 1 }
    {
        let number = (self.first + self.slots.len()) as u64;
        match self.wal.begin() {
            Ok(reader) => self.hold(reader, number),
            Err(error) => Ok(Reply::Refused(error.number())),
        }
    }

    /// Keeps a reader that began.
    fn hold(&mut self, reader: Reader, number: u64) -> Result<Reply, AllocError>
        ensures wal { IfOk result (λ reply. self.new.wal ≡ self.old.wal) }
        ensures first { self.new.first ≡ self.old.first }
        ensures slots { IfOk result (λ reply. self.new.slots.items ≡ self.old.slots.items ++ Some reader ∷ []) }
        ensures begun { length self.new.slots.items ≤ length self.old.slots.items + 1 }
        ensures reply { IfOk result (λ reply. reply ≡ Reply.Reader number) }
    {
        match self.slots.push(Some(reader)) {
            Ok(()) => Ok(Reply::Reader(number)),
            Err(AllocFailed { value }) => {
                if let Some(reader) = value {
                    self.wal.end(reader);
                }
                Err(AllocError)
            }
        }
    }

    /// A reader reads a page.
    pub fn read(
        &mut self,
        alloc: Global,
        page_size: PageSize,
        number: u64,
        page: u32,
    ) -> Result<Reply, AllocError>
        ensures serves { IfOk result (λ reply. SessionServes page_size self.old self.new
            (Reads number page) (answer_of reply)) }
        ensures begun { begun_by self.new ≡ begun_by self.old }
    {
        let Some(i) = self.slot(number) else {
            return Ok(Reply::NoReader);
        };
        let mut out = zeros(alloc, page_size.get() as usize)?;
        let Some(reader) = &self.slots[i] else {
            return Ok(Reply::NoReader);
        };
        let answer = self.wal.read(reader, page, &mut out);
        Ok(page_outcome(answer, out))
    }

    /// A reader ends.
    pub fn end(&mut self, number: u64) -> Reply
        ensures serves { (page_size : ℕ) → SessionServes page_size self.old self.new (Ends number) (answer_of result) }
        ensures begun { begun_by self.new ≡ begun_by self.old }
    {
        let Some(i) = self.slot(number) else {
            return Reply::NoReader;
        };
        let Some(reader) = self.slots[i].take() else {
            return Reply::NoReader;
        };
        self.wal.end(reader);
        Reply::Done
    }

    /// Ends all readers and gives the disk back, and how many readers have begun.
    pub fn close(self) -> (ModelDisk, usize)
        requires { begun_by self < 2 ^ 63 }
        ensures disk { result.0 ≡ self.wal.disk }
        ensures begun { result.1 ≡ begun_by self }
    {
        let Session {
            mut wal,
            first,
            mut slots,
        } = self;
        let begun = first + slots.len();
        while let Some(slot) = slots.pop() {
            if let Some(reader) = slot {
                wal.end(reader);
            }
        }
        slots.destroy_empty();
        (wal.into_disk(), begun)
    }
}
