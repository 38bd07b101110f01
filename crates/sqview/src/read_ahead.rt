//! A file of which some bytes are read ahead.
ghost use Rattle.std.specs.Prelude.{◌≡◌, ◌+◌, ◌≤◌, ℕ, List, length, IfOk, MatchOption};
ghost use Rattle.sqview.specs.internal.Laid.{HoldsPart};

use crate::file_bytes::FileBytes;
use sqpage::SourceError;
use std::alloc::{AllocError, Global};

/// How many bytes may stand between two parts of which the second follows the first: the head of a log's frame.
const GAP: u64 = 24;

/// A file's bytes. Where a part is read that follows the one before, at its end or up to 24 bytes behind it, some bytes
/// from its beginning on are read at once, and given from memory when they are asked for. Where these can't be read,
/// the part is read alone, so that a read fails only where what it asks for can't be read.
#[derive(Drop)]
pub struct ReadAhead<F> {
    file: F,
    /// Room for what is read at once.
    piece: Vec<u8>,
    /// Where its bytes begin in the file, and how many are held.
    from: u64,
    held: usize,
    /// Behind the part that was asked for last.
    next: u64,
    /// Behind the last piece that couldn't be read. None is read from a place before it.
    barred: u64,
    ghost within: { held ≤ length piece.items },
}

impl<F: FileBytes + Drop> ReadAhead<F> {
    ghost use Rattle.sqview.specs.Ahead.{IsUnread};

    /// A file of which up to so many bytes are read at once, and kept; none where `most` is 0.
    pub fn new(alloc: Global, file: F, most: usize) -> Result<ReadAhead<F>, AllocError>
        ensures { IfOk result (IsUnread file most) }
    {
        let piece = vec![in alloc; 0u8; most]?;
        Ok(ReadAhead {
            file,
            piece,
            from: 0,
            held: 0,
            next: 0,
            barred: 0,
        })
    }

    /// Whether a part from this place on follows the one that was asked for last, and lies behind each piece that
    /// couldn't be read.
    fn follows(&self, at: u64) -> bool {
        at >= self.barred && matches!(at.checked_sub(self.next), Some(gap) if gap <= GAP)
    }

    /// Where so many bytes from this place on stand in the piece, if they are held.
    fn place(&self, at: u64, count: usize) -> Option<usize>
        ensures { MatchOption result (Unit {0}) (λ place. (self.now.from + place ≡ at)
            × (place + count ≤ self.now.held)) }
    {
        let before = at.checked_sub(self.from)?;
        if before > self.held as u64 || count as u64 > self.held as u64 - before {
            return None;
        }
        Some(before as usize)
    }

    /// Reads a piece from this place on. Where some of it can't be read nothing is held.
    fn fill(&mut self, at: u64)
        ensures holds { F.reads_right self.old.file
            → HoldsPart (F.bytes self.new.file) self.new.from self.new.held self.new.piece.items }
        ensures still_right { F.reads_right self.old.file → F.reads_right self.new.file }
        ensures still_gives { F.gives_bytes self.old.file → F.gives_bytes self.new.file }
        ensures same { F.bytes self.new.file ≡ F.bytes self.old.file }
        ensures room { length self.new.piece.items ≡ length self.old.piece.items }
    {
        self.held = 0;
        let Ok(()) = self.file.read_at(at, &mut self.piece) else {
            self.barred = at.saturating_add(self.piece.len() as u64);
            return;
        };
        self.from = at;
        self.held = self.piece.len();
    }
}

impl<F: FileBytes + Drop> FileBytes for ReadAhead<F> {
    ghost bytes = { λ a. F.bytes a.file };

    ghost reads_right = { λ a. F.reads_right a.file × HoldsPart (F.bytes a.file) a.from a.held a.piece.items };

    ghost gives_bytes = { λ a. F.gives_bytes a.file × HoldsPart (F.bytes a.file) a.from a.held a.piece.items };

    ghost right = { λ a gives. (F.right a.file gives.0, gives.1) };

    fn len(&self) -> u64 {
        self.file.len()
    }

    fn read_at(&mut self, at: u64, out: &mut [u8]) -> Result<(), SourceError> {
        if self.follows(at) && out.len() < self.piece.len() && self.place(at, out.len()).is_none() {
            self.fill(at);
        }
        self.next = at.saturating_add(out.len() as u64);
        match self.place(at, out.len()) {
            Some(place) => {
                out.copy_from_slice(&self.piece[place..place + out.len()]);
                Ok(())
            }
            None => self.file.read_at(at, out),
        }
    }
}
