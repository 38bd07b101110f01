//! The frames of a log by the pages that they name (own).
ghost use Rattle.std.specs.Prelude.{◌≡◌, ◌+◌, ◌<◌, ◌≤◌, max, [], ◌∷◌, ◌++◌, length, OnOk, OnErr};

use crate::error::WalFormatError;
use std::alloc::Global;
use std::marker::Model;

/// What a search found: a frame, or 0, and how many frame numbers it took from the index.
#[derive(Clone, Copy, Debug, PartialEq, Eq)]
pub struct Hit {
    /// From 1; 0 where none is found.
    pub frame: u32,
    /// How many frame numbers were taken.
    pub steps: u32,
}

/// For each page of a log the frames that name it, the newest first. It takes 4 bytes for each page up to the bound
/// and 4 for each frame.
#[derive(Drop)]
pub struct FrameIndex {
    // by page, from 0; a frame or 0
    newest: Vec<u32>,
    // by frame, from 1: the frame before it that names the same page, or 0
    earlier: Vec<u32>,
    room: u32,
}

impl Model for FrameIndex {
    ghost use Rattle.sqwal.specs.Index.{FrameTable};
    ghost use Rattle.sqwal.specs.internal.Chains.{table_of, IsIndex};
    ghost use Rattle.std.specs.Prelude.{vec_capacity};

    ghost Value = { FrameTable };

    ghost view = { λ s. table_of s.newest.items s.earlier.items s.room };

    ghost invariant = { λ s. IsIndex s.newest.items s.earlier.items s.room (vec_capacity s.earlier) };
}

impl FrameIndex {
    ghost use Rattle.sqwal.specs.Index.{IsHit};

    /// No page, no room, no frames.
    pub fn new(alloc: Global) -> FrameIndex
        ensures { result ≡ record { bound = 0; room = 0; pages = [] } }
    {
        FrameIndex {
            newest: Vec::new(alloc),
            earlier: Vec::new(alloc),
            room: 0,
        }
    }

    /// Makes room for pages up to the bound and for so many frames in all. NoMemory alone; the frames stay.
    pub fn grow(&mut self, bound: u32, frames: u32) -> Result<(), WalFormatError>
        ensures pages { self.new.pages ≡ self.old.pages }
        ensures bound { OnOk result (self.new.bound ≡ max self.old.bound bound) }
        ensures room { OnOk result (frames ≤ self.new.room) }
        ensures stays { self.old.room ≤ self.new.room }
        ensures refused { OnErr result (self.new.bound ≡ self.old.bound) }
        ensures memory { OnErr result (result ≡ Err WalFormatError.NoMemory) }
    {
        let pages = self.newest.len().max(bound as usize + 1);
        self.newest.reserve(pages - self.newest.len())?;
        let more = (frames as usize).saturating_sub(self.earlier.len());
        self.earlier.reserve(more)?;
        self.newest.resize(pages, 0).unwrap();
        self.room = self.room.max(frames);
        Ok(())
    }

    /// The next frame names this page, 0 where nobody will ask for it.
    pub fn push(&mut self, page: u32)
        requires page { page ≤ self.old.bound }
        requires room { length self.old.pages < self.old.room }
        ensures { self.new ≡ record self.old { pages = self.old.pages ++ page ∷ [] } }
    {
        let frame = self.earlier.len() as u32 + 1;
        let before = self.newest[page as usize];
        self.newest[page as usize] = frame;
        self.earlier.push(before).unwrap();
    }

    /// No frames. The bound and the room stay.
    pub fn clear(&mut self)
        ensures { self.new ≡ record self.old { pages = [] } }
    {
        self.newest.fill(0);
        self.earlier.clear();
    }

    /// The newest frame up to the mark that names the page. It takes a step for each frame above the mark that names
    /// the page, and one for the frame that it finds.
    pub fn find(&self, page: u32, mark: u32) -> Hit
        ensures { IsHit self.now page mark result }
    {
        if page == 0 {
            return Hit { frame: 0, steps: 0 };
        }
        let mut frame = self.newest.get(page as usize).copied().unwrap_or(0);
        let mut steps = 0;
        while frame > mark {
            steps += 1;
            frame = self.earlier[frame as usize - 1];
        }
        if frame != 0 {
            steps += 1;
        }
        Hit { frame, steps }
    }
}
