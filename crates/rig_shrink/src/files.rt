//! Whether a crash may leave an image of a database file and its logs (own).
ghost use Rattle.std.specs.Prelude.{◌≡◌, ◌↔◌, [], IsTrue, map, IfOk};
ghost use Rattle.crashdisk.specs.Model.{state_of};
ghost use Rattle.rig_play.specs.Names.{name_of};
ghost use Rattle.rig_play.specs.Plays.{files_of};
ghost use Rattle.rig_images.specs.Left.{MayBeLeft, MayLeaveIn, MayLeave};
ghost use Rattle.rig_images.specs.Ways.{held_files, may_be_none};
ghost use Rattle.rig_shrink.specs.internal.Values.{IsOfOne};

use crate::bytes::is_image;
use crashdisk::{DiskError, ModelDisk};
use rig_images::Image;
use rig_play::{Epoch, Holds, Name, Player};
use std::alloc::Global;

/// The files of a name that a crash may leave where it holds this.
fn held_files<'a>(name: &'a Name, holds: Holds) -> &'a [ModelDisk]
    ensures { map (λ d. state_of d) result.now ≡ held_files (name_of name.now) holds }
{
    let files = name.files();
    match holds {
        Holds::Any => files,
        Holds::Nothing => &files[..0],
        Holds::File(i) => {
            let from = &files[i.min(files.len())..];
            &from[..from.len().min(1)]
        }
    }
}

/// Whether a crash may leave nothing under a name that holds this.
fn may_be_none(name: &Name, holds: Holds) -> bool
    ensures { result ≡ may_be_none (name_of name.now) holds }
{
    match holds {
        Holds::Any if name.maybe_none() => true,
        _ => held_files(name, holds).is_empty(),
    }
}

/// Whether these bytes are none, and it may leave that.
fn is_none(name: &Name, holds: Holds, bytes: &[u8]) -> bool
    ensures { IsTrue result ↔ (IsTrue (may_be_none (name_of name.now) holds) × (bytes.now ≡ [])) }
{
    bytes.is_empty() && may_be_none(name, holds)
}

/// Whether a crash may leave these bytes of one of these files.
fn is_of_one(alloc: Global, files: &[ModelDisk], bytes: &[u8]) -> Result<bool, DiskError>
    ensures { IfOk result (λ is. IsTrue is ↔ IsOfOne (map (λ d. state_of d) files.now) bytes.now) }
{
    for i in 0..files.len() {
        let found = is_image(alloc, &files[i], bytes)?;
        if found {
            return Ok(true);
        }
    }
    Ok(false)
}

/// Whether it may leave them under a name that holds this.
fn may_be_left(alloc: Global, name: &Name, holds: Holds, bytes: &[u8]) -> Result<bool, DiskError>
    ensures { IfOk result (λ is. IsTrue is ↔ MayBeLeft (name_of name.now) holds bytes.now) }
{
    if is_none(name, holds, bytes) {
        return Ok(true);
    }
    let found = is_of_one(alloc, held_files(name, holds), bytes)?;
    Ok(found)
}

/// Whether it may leave an image in an epoch.
fn may_leave_in(
    alloc: Global,
    player: &Player,
    epoch: Epoch,
    image: &Image,
) -> Result<bool, DiskError>
    ensures { IfOk result (λ is. IsTrue is ↔ MayLeaveIn (files_of player.now) epoch image.now) }
{
    let of_db = may_be_left(alloc, player.db(), epoch.db, &image.db)?;
    if !of_db {
        return Ok(false);
    }
    let of_wal = may_be_left(alloc, player.wal(), epoch.wal, &image.wal)?;
    if !of_wal {
        return Ok(false);
    }
    let of_journal = may_be_left(alloc, player.journal(), epoch.journal, &image.journal)?;
    Ok(of_journal)
}

/// Whether a crash may leave an image. NoMemory alone (own).
pub fn may_leave(alloc: Global, player: &Player, image: &Image) -> Result<bool, DiskError>
    ensures { IfOk result (λ is. IsTrue is ↔ MayLeave (files_of player.now) image.now) }
{
    let earlier = player.earlier();
    for i in 0..earlier.len() {
        let found = may_leave_in(alloc, player, earlier[i], image)?;
        if found {
            return Ok(true);
        }
    }
    let last = may_leave_in(alloc, player, player.epoch(), image)?;
    Ok(last)
}
