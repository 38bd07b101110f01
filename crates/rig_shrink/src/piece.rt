//! Pieces of a file that may not be down, and how one is brought down (own).
ghost use Rattle.std.specs.Prelude.{◌≡◌, ◌≤◌, ◌++◌, ℕ, length, take, drop, IfOk};
ghost use Rattle.rig_shrink.specs.Shrunk.{patched, down};
ghost use Rattle.rig_shrink.specs.declared.piece.Piece.TheVariants.{Sector};
ghost use Rattle.rig_shrink.specs.internal.Trying.{piece_at};

use rig_missing::SectorSize;
use std::alloc::{AllocError, Global};

/// A piece of a file that may not be down.
#[derive(Clone, Copy, Debug, PartialEq, Eq)]
pub enum Piece {
    /// The sector of this number, counted from 0.
    Sector(usize),
    /// Its length.
    Length,
    /// All of it, as where its name isn't down.
    All,
}

/// The bytes of a file, those from a place up to another one from the present file.
fn patched(
    alloc: Global,
    from: usize,
    to: usize,
    present: &[u8],
    old: &[u8],
) -> Result<Vec<u8>, AllocError>
    requires order { from ≤ to }
    requires in_present { to ≤ length present.now }
    requires in_old { to ≤ length old.now }
    ensures { IfOk result (λ new. new.items ≡ patched from to present.now old.now) }
{
    let mut new = Vec::from_slice(alloc, &old[..from])?;
    new.extend_from_slice(&present[from..to])?;
    new.extend_from_slice(&old[to..])?;
    Ok(new)
}

/// The bytes of a file with a sector of the present one, as far as both go.
fn with_sector(
    alloc: Global,
    size: SectorSize,
    k: usize,
    present: &[u8],
    old: &[u8],
) -> Result<Vec<u8>, AllocError>
    ensures { IfOk result (λ new. new.items ≡ down (Sector k) size.bytes present.now old.now) }
{
    let end = present.len().min(old.len());
    let from = k.saturating_mul(size.bytes as usize).min(end);
    let to = from.saturating_add(size.bytes as usize).min(end);
    patched(alloc, from, to, present, old)
}

/// The bytes of a file that ends where the present one does, with that one's behind its own.
fn with_length(alloc: Global, present: &[u8], old: &[u8]) -> Result<Vec<u8>, AllocError>
    ensures { IfOk result (λ new. new.items ≡ take (length present.now) old.now ++ drop (length old.now) present.now) }
{
    let mut new = Vec::from_slice(alloc, &old[..old.len().min(present.len())])?;
    new.extend_from_slice(&present[old.len().min(present.len())..])?;
    Ok(new)
}

impl Piece {
    /// The piece of a number: all, the length, and then the sectors.
    pub(crate) fn at(n: usize) -> Piece
        ensures { result ≡ piece_at n }
    {
        match n {
            0 => Piece::All,
            1 => Piece::Length,
            _ => Piece::Sector(n - 2),
        }
    }

    /// The bytes of a file with this piece brought down.
    pub(crate) fn down(
        self,
        alloc: Global,
        size: SectorSize,
        present: &[u8],
        old: &[u8],
    ) -> Result<Vec<u8>, AllocError>
        ensures { IfOk result (λ new. new.items ≡ down self size.bytes present.now old.now) }
    {
        match self {
            Piece::Sector(k) => with_sector(alloc, size, k, present, old),
            Piece::Length => with_length(alloc, present, old),
            Piece::All => Vec::from_slice(alloc, present),
        }
    }
}
