//! An image with something wrong is brought down as far as the same is found of it (own).
ghost use Rattle.std.specs.Prelude.{◌≡◌, ◌↔◌, ◌||◌, IsTrue, IfOk};
ghost use Rattle.rig_play.specs.Plays.{files_of};
ghost use Rattle.rig_images.specs.declared.torn.Which.TheVariants.{Db, Wal, Journal};
ghost use Rattle.rig_shrink.specs.Shrunk.{GoesDown, AreAlike, IsShrunk};
ghost use Rattle.rig_shrink.specs.internal.Trying.{IsEnough, IsLeast};

use crate::files::may_leave;
use crate::piece::Piece;
use crashdisk::DiskError;
use rig_images::{Image, Which};
use rig_missing::SectorSize;
use rig_play::Player;
use std::alloc::{AllocError, Global};

/// Who says whether the same is found of an image as of the first one.
pub trait Finder {
    ghost use Rattle.std.specs.Prelude.{Bool, IfOk};
    ghost use Rattle.rig_images.specs.declared.image.Image.{Image};

    /// What it may say of an image.
    ghost says: { Self → Image → Bool → Type 0 };

    /// Whether the same is found of an image. NoMemory alone.
    fn finds(&self, image: &Image) -> Result<bool, DiskError>
        ensures { IfOk result (says self.now image.now) };
}

/// What an image is brought down to, and who says whether it may be.
#[derive(Drop)]
struct Ground<'a, F> {
    alloc: Global,
    player: &'a Player,
    size: SectorSize,
    finder: &'a F,
    /// The present files.
    present: &'a Image,
}

/// The bytes of a file.
fn copied(alloc: Global, bytes: &[u8]) -> Result<Vec<u8>, AllocError>
    ensures { IfOk result (λ copy. copy.items ≡ bytes.now) }
{
    Vec::from_slice(alloc, bytes)
}

/// An image with the same files.
fn copy_of(alloc: Global, image: &Image) -> Result<Image, AllocError>
    ensures { IfOk result (AreAlike image.now) }
{
    let db = copied(alloc, &image.db)?;
    let wal = copied(alloc, &image.wal)?;
    let journal = copied(alloc, &image.journal)?;
    Ok(Image { db, wal, journal })
}

/// Whether two files are the same.
fn are_same(x: &[u8], y: &[u8]) -> bool
    ensures { IsTrue result ↔ (x.now ≡ y.now) }
{
    x == y
}

/// Whether two images have the same files.
fn are_alike(x: &Image, y: &Image) -> bool
    ensures { IsTrue result ↔ AreAlike x.now y.now }
{
    let db = are_same(&x.db, &y.db);
    if !db {
        return false;
    }
    let wal = are_same(&x.wal, &y.wal);
    if !wal {
        return false;
    }
    let journal = are_same(&x.journal, &y.journal);
    journal
}

/// An image with a piece of its database file brought down, to that of present files.
fn with_db(
    alloc: Global,
    size: SectorSize,
    present: &Image,
    piece: Piece,
    image: &Image,
) -> Result<Image, AllocError>
    ensures { IfOk result (GoesDown size.bytes present.now Db piece image.now) }
{
    let db = piece.down(alloc, size, &present.db, &image.db)?;
    let wal = copied(alloc, &image.wal)?;
    let journal = copied(alloc, &image.journal)?;
    Ok(Image { db, wal, journal })
}

/// The same of its log.
fn with_wal(
    alloc: Global,
    size: SectorSize,
    present: &Image,
    piece: Piece,
    image: &Image,
) -> Result<Image, AllocError>
    ensures { IfOk result (GoesDown size.bytes present.now Wal piece image.now) }
{
    let db = copied(alloc, &image.db)?;
    let wal = piece.down(alloc, size, &present.wal, &image.wal)?;
    let journal = copied(alloc, &image.journal)?;
    Ok(Image { db, wal, journal })
}

/// The same of its journal.
fn with_journal(
    alloc: Global,
    size: SectorSize,
    present: &Image,
    piece: Piece,
    image: &Image,
) -> Result<Image, AllocError>
    ensures { IfOk result (GoesDown size.bytes present.now Journal piece image.now) }
{
    let db = copied(alloc, &image.db)?;
    let wal = copied(alloc, &image.wal)?;
    let journal = piece.down(alloc, size, &present.journal, &image.journal)?;
    Ok(Image { db, wal, journal })
}

/// An image with a piece of one of its files brought down, to those of present files.
fn lowered(
    alloc: Global,
    size: SectorSize,
    present: &Image,
    which: Which,
    piece: Piece,
    image: &Image,
) -> Result<Image, AllocError>
    ensures { IfOk result (GoesDown size.bytes present.now which piece image.now) }
{
    match which {
        Which::Db => with_db(alloc, size, present, piece, image),
        Which::Wal => with_wal(alloc, size, present, piece, image),
        Which::Journal => with_journal(alloc, size, present, piece, image),
    }
}

/// One or the other.
fn either(a: bool, b: bool) -> bool
    ensures { result ≡ (a || b) }
{
    a || b
}

/// So many numbers as pieces are to be tried of each file of an image.
fn piece_count(size: SectorSize, image: &Image) -> usize
    ensures { IsEnough size.bytes image.now result }
{
    let longest = image.db.len().max(image.wal.len()).max(image.journal.len());
    longest / (size.bytes as usize) + 3
}

impl<F: Finder> Ground<'_, F> {
    ghost use Rattle.std.specs.Prelude.{◌⊎◌, true, false, IfOk, MatchBool};
    ghost use Rattle.rig_play.specs.Plays.{files_of};
    ghost use Rattle.rig_images.specs.Left.{MayLeave};
    ghost use Rattle.rig_shrink.specs.Shrunk.{AreAlike};
    ghost use Rattle.rig_shrink.specs.internal.Trying.{Tries, HasPassed};

    /// Whether an image may stand for another one: it has other files, a crash may leave it, and the same is found of
    /// it.
    fn may_stand(&self, next: &Image, image: &Image) -> Result<bool, DiskError>
        ensures { IfOk result (λ may. MatchBool may
            (MayLeave (files_of self.now.player.now) next.now × F.says self.now.finder.now next.now true)
            (AreAlike next.now image.now ⊎ ((MayLeave (files_of self.now.player.now) next.now → ⊥)
            ⊎ F.says self.now.finder.now next.now false))) }
    {
        if are_alike(next, image) {
            return Ok(false);
        }
        let left = may_leave(self.alloc, self.player, next)?;
        if !left {
            return Ok(false);
        }
        let found = self.finder.finds(next)?;
        Ok(found)
    }

    /// Brings a piece of a file down, where that may be. Answers whether it did.
    fn try_piece(&self, which: Which, piece: Piece, image: &mut Image) -> Result<bool, DiskError>
        ensures { IfOk result (λ taken. Tries (F.says self.now.finder.now) (files_of self.now.player.now)
            self.now.size.bytes self.now.present.now which piece taken image.old image.new) }
    {
        let Ok(next) = lowered(self.alloc, self.size, self.present, which, piece, image) else {
            return Err(DiskError::NoMemory);
        };
        let may = self.may_stand(&next, image)?;
        if !may {
            return Ok(false);
        }
        *image = next;
        Ok(true)
    }

    /// Tries each piece of each file once. Answers whether one was brought down.
    fn pass(&self, image: &mut Image) -> Result<bool, DiskError>
        ensures { IfOk result (λ taken. HasPassed (F.says self.now.finder.now) (files_of self.now.player.now)
            self.now.size.bytes self.now.present.now taken image.old image.new) }
    {
        let count = piece_count(self.size, image);
        let mut taken = false;
        for n in 0..count {
            let piece = Piece::at(n);
            let db = self.try_piece(Which::Db, piece, image)?;
            let wal = self.try_piece(Which::Wal, piece, image)?;
            let journal = self.try_piece(Which::Journal, piece, image)?;
            let logs = either(wal, journal);
            let any = either(db, logs);
            taken = either(taken, any);
        }
        Ok(taken)
    }
}

/// An image of which something is found, brought down to these present files.
fn shrink_to<F: Finder>(
    alloc: Global,
    player: &Player,
    size: SectorSize,
    finder: &F,
    present: &Image,
    first: &Image,
) -> Result<Image, DiskError>
    ensures { IfOk result
        (IsLeast (F.says finder.now) (files_of player.now) size.bytes present.now first.now) }
{
    let Ok(mut image) = copy_of(alloc, first) else {
        return Err(DiskError::NoMemory);
    };
    let ground = Ground {
        alloc,
        player,
        size,
        finder,
        present,
    };
    for round in 0..u64::MAX {
        let taken = ground.pass(&mut image)?;
        if !taken {
            return Ok(image);
        }
    }
    Err(DiskError::NoMemory)
}

/// An image of which something is found, shrunk: pieces of its files are brought down, to what the files have now, as
/// long as a crash may leave that and the same is found of it, until no other one can be. What was brought down stays
/// so: there are no more passes over all pieces than there are pieces, and one. NoMemory alone (own).
pub fn shrink<F: Finder>(
    alloc: Global,
    player: &Player,
    size: SectorSize,
    finder: &F,
    first: &Image,
) -> Result<Image, DiskError>
    ensures { IfOk result (IsShrunk (F.says finder.now) (files_of player.now) size.bytes first.now) }
{
    let mut present = Image::none(alloc);
    present.set_present(player)?;
    let image = shrink_to(alloc, player, size, finder, &present, first)?;
    Ok(image)
}
