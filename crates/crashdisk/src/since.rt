//! What a disk that tears keeps of its log.
ghost use Rattle.std.specs.Prelude.{◌≡◌, ◌<◌, ◌≤◌, ◌+◌, ◌^◌, ◌++◌, [], ◌∷◌, List, length, slice_index, ℕ, map};
ghost use Rattle.std.specs.Prelude.{OnOk, OnErr, IfOk};
ghost use Rattle.crashdisk.specs.State.{byte, longest};
ghost use Rattle.crashdisk.specs.Call.{ArePresent};
ghost use Rattle.crashdisk.specs.Held.{file_of};
ghost use Rattle.crashdisk.specs.internal.Held.{Stands};

use crate::error::DiskError;
use crate::held::Held;
use std::alloc::{AllocError, Global};

/// The bytes of the log when it last had nothing unsynced, and each write since then. It has room for all bytes of the
/// log.
#[derive(Drop)]
pub(crate) struct Since {
    room: Vec<u8>,
    kept: usize,
    handed: Vec<(u64, Vec<u8>)>,
    ghost fits: { kept ≤ length room.items },
}

impl Since {
    ghost use Rattle.crashdisk.specs.Since.{kept_bytes, handed_writes};
    ghost use Rattle.crashdisk.specs.internal.Since.{by_answer};

    /// No bytes and no writes.
    pub(crate) fn new(alloc: Global) -> Since
        ensures kept { kept_bytes result ≡ [] }
        ensures handed { handed_writes result ≡ [] }
        ensures room { length result.room.items ≡ 0 }
    {
        Since {
            room: Vec::new(alloc),
            kept: 0,
            handed: Vec::new(alloc),
        }
    }

    pub(crate) fn copy(&self, alloc: Global) -> Result<Since, AllocError>
        ensures room { IfOk result (λ s. length s.room.items ≡ length self.now.room.items) }
        ensures kept { IfOk result (λ s. kept_bytes s ≡ kept_bytes self.now) }
        ensures handed { IfOk result (λ s. handed_writes s ≡ handed_writes self.now) }
    {
        let room = Vec::from_slice(alloc, self.room.as_slice())?;
        let mut handed = Vec::new(alloc);
        for (at, bytes) in self.handed.iter() {
            handed.push((*at, Vec::from_slice(alloc, bytes)?))?;
        }
        Ok(Since {
            room,
            kept: self.kept,
            handed,
        })
    }

    /// The bytes.
    pub(crate) fn kept(&self) -> &[u8]
        ensures { result.now ≡ kept_bytes self.now }
    {
        &self.room[..self.kept]
    }

    /// The writes.
    pub(crate) fn handed(&self) -> &[(u64, Vec<u8>)]
        ensures { result.now ≡ self.now.handed.items }
    {
        self.handed.as_slice()
    }

    /// Makes room for so many bytes of the log.
    pub(crate) fn reserve(&mut self, end: usize) -> Result<(), AllocError>
        ensures room { OnOk result (end ≤ length self.new.room.items) }
        ensures longer { length self.old.room.items ≤ length self.new.room.items }
        ensures kept { kept_bytes self.new ≡ kept_bytes self.old }
        ensures handed { handed_writes self.new ≡ handed_writes self.old }
    {
        if self.room.len() < end {
            self.room.resize(end, 0)?;
        }
        Ok(())
    }

    /// Takes a write that is to be made.
    pub(crate) fn hand_over(
        &mut self,
        alloc: Global,
        at: u64,
        bytes: &[u8],
    ) -> Result<(), AllocError>
        requires room { at + length bytes.now ≤ longest }
        ensures room { OnOk result (at + length bytes.now ≤ length self.new.room.items) }
        ensures longer { length self.old.room.items ≤ length self.new.room.items }
        ensures kept { kept_bytes self.new ≡ kept_bytes self.old }
        ensures ok { OnOk result (handed_writes self.new ≡ handed_writes self.old ++ (at, bytes.now) ∷ []) }
        ensures err { OnErr result (handed_writes self.new ≡ handed_writes self.old) }
    {
        self.reserve(at as usize + bytes.len())?;
        let copy = Vec::from_slice(alloc, bytes)?;
        self.handed.push((at, copy))?;
        Ok(())
    }

    /// Takes the last write back where it wasn't made, not even in part.
    pub(crate) fn answer(&mut self, answer: &Result<(), DiskError>)
        ensures room { length self.new.room.items ≡ length self.old.room.items }
        ensures kept { kept_bytes self.new ≡ kept_bytes self.old }
        ensures handed { handed_writes self.new ≡ by_answer answer.now (handed_writes self.old) }
    {
        match answer {
            Ok(()) | Err(DiskError::Failed) => (),
            Err(_) => {
                let _ = self.handed.pop();
            }
        }
    }

    /// Keeps the present bytes of the log, and forgets the writes. It takes no memory.
    pub(crate) fn keep(&mut self, held: &Held, sector: usize)
        requires stands { Stands sector held.now }
        requires room { held.now.len ≤ length self.old.room.items }
        ensures room { length self.new.room.items ≡ length self.old.room.items }
        ensures kept { ArePresent (file_of sector held.now) (kept_bytes self.new) }
        ensures handed { handed_writes self.new ≡ [] }
    {
        copy_present(held, sector, &mut self.room);
        self.kept = held.len;
        self.handed.clear();
    }
}

/// Copies the present bytes of a file to the front of these.
fn copy_present(held: &Held, sector: usize, out: &mut [u8])
    requires stands { Stands sector held.now }
    requires room { held.now.len ≤ length out.old }
    ensures { (i : ℕ) → i < held.now.len → slice_index out.new i ≡ byte (file_of sector held.now) i }
{
    held.read(sector, 0, &mut out[..held.len]);
}
