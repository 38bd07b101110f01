//! Images that are drawn one after the other, of which the files that a crash leaves in one way alone are made once
//! (own).
ghost use Rattle.std.specs.Prelude.{◌≡◌, IfErr, IsTrue, MatchResult, OnOk};
ghost use Rattle.crashdisk.specs.Refusal.{number_of};
ghost use Rattle.rig_play.specs.Names.{name_of};
ghost use Rattle.rig_play.specs.Plays.{files_of, epoch_now};
ghost use Rattle.rig_images.specs.Left.{MayBeLeft, MayLeaveIn};

use crate::draws::{draw_in, put_draw};
use crate::fixed::Fixed;
use crate::image::Image;
use crashdisk::DiskError;
use rand_core::Rng;
use rig_play::{Holds, Name, Player};
use std::alloc::Global;

/// Puts there a file that may be left under a name that holds this, or leaves the one that is there.
fn put_redraw<R: Rng>(
    alloc: Global,
    rng: &mut R,
    name: &Name,
    holds: Holds,
    stays: bool,
    out: &mut Vec<u8>,
) -> Result<(), DiskError>
    ensures left { MayBeLeft (name_of name.now) holds out.old.items
        → OnOk result (MayBeLeft (name_of name.now) holds out.new.items) }
    ensures same { IsTrue stays → out.new.items ≡ out.old.items }
    ensures error { IfErr result (λ e. number_of e ≡ 4) }
{
    if stays {
        return Ok(());
    }
    put_draw(alloc, rng, name, holds, out)
}

/// Takes an image that is drawn in place of what it has: one of those that a crash may leave where all changes of names
/// and lengths are durable. NoMemory alone, and then nothing is said of it (own).
pub fn draw_now<R: Rng>(
    alloc: Global,
    rng: &mut R,
    player: &Player,
    image: &mut Image,
) -> Result<(), DiskError>
    ensures { MatchResult result (λ done. MayLeaveIn (files_of player.now) (epoch_now (files_of player.now)) image.new)
        (λ e. number_of e ≡ 4) }
{
    draw_in(alloc, rng, player, player.epoch(), image)
}

/// The same as `draw_now` in place of an image that such a crash may leave: the files that are fixed stay (own).
pub fn redraw<R: Rng>(
    alloc: Global,
    rng: &mut R,
    player: &Player,
    fixed: Fixed,
    image: &mut Image,
) -> Result<(), DiskError>
    ensures left { MayLeaveIn (files_of player.now) (epoch_now (files_of player.now)) image.old
        → OnOk result (MayLeaveIn (files_of player.now) (epoch_now (files_of player.now)) image.new) }
    ensures same_log { IsTrue fixed.wal → OnOk result (image.new.wal.items ≡ image.old.wal.items) }
    ensures error { IfErr result (λ e. number_of e ≡ 4) }
{
    let epoch = player.epoch();
    put_redraw(alloc, rng, player.db(), epoch.db, fixed.db, &mut image.db)?;
    put_redraw(
        alloc,
        rng,
        player.wal(),
        epoch.wal,
        fixed.wal,
        &mut image.wal,
    )?;
    put_redraw(
        alloc,
        rng,
        player.journal(),
        epoch.journal,
        fixed.journal,
        &mut image.journal,
    )
}
