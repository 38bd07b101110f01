//! Images that are drawn (own).
ghost use Rattle.std.specs.Prelude.{◌≡◌, ◌<◌, ◌++◌, [], ℕ, List, length, IfErr, IfOk, MatchResult};
ghost use Rattle.crashdisk.specs.Choice.{naming_of, is_newest};
ghost use Rattle.crashdisk.specs.Model.{state_of};
ghost use Rattle.crashdisk.specs.Refusal.{number_of};
ghost use Rattle.rig_play.specs.Names.{name_of};
ghost use Rattle.std.specs.List.{Contains};
ghost use Rattle.rig_play.specs.Plays.{files_of, epochs_of};
ghost use Rattle.rig_images.specs.Left.{MayBeLeft, MayLeave, MayLeaveIn};
ghost use Rattle.rig_images.specs.internal.Tearing.{IsNamed};

use crate::counts::{held_files, may_be_none};
use crate::image::Image;
use crashdisk::{Disk, DiskError, File, FileChoice, ModelDisk, Rest};
use rand_core::Rng;
use rig_play::{Epoch, Holds, Name, Player};
use std::alloc::{AllocError, Global};

/// A number below another.
pub(crate) fn below<R: Rng>(rng: &mut R, count: u64) -> u64
    requires { 0 < count }
    ensures { result < count }
{
    rng.next_u64() % count
}

/// A length that a crash may leave, each in four draws one: the least, the greatest, the present one, one between.
fn draw_length<R: Rng>(rng: &mut R, least: u64, greatest: u64, sector: u64) -> Option<u64> {
    match rng.next_u32() % 4 {
        0 => Some(least),
        1 => Some(greatest),
        2 => None,
        _ => {
            let sectors = greatest.saturating_sub(least) / sector.max(1);
            let more = below(rng, sectors.saturating_add(1));
            Some(least.saturating_add(more.saturating_mul(sector)))
        }
    }
}

/// A number for each of so many sectors.
fn draw_picks<R: Rng>(alloc: Global, rng: &mut R, sectors: u64) -> Result<Vec<u64>, AllocError> {
    let mut picks = Vec::new(alloc);
    for _ in 0..sectors {
        picks.push(rng.next_u64() >> 1)?;
    }
    Ok(picks)
}

/// All sectors by one rule, and this length.
pub(crate) fn plain(alloc: Global, rest: Rest, len: Option<u64>) -> FileChoice
    ensures { naming_of result ≡ record { pick = []; torn = []; newest = is_newest rest; len = len } }
{
    FileChoice {
        pick: Vec::new(alloc),
        torn: Vec::new(alloc),
        rest,
        len,
    }
}

/// What is left of a sector that tears: the present bytes up to some place, and behind it the oldest ones, or in every
/// second draw one byte, as of a sector that was being written when power failed.
pub(crate) fn torn_sector<R: Rng>(
    alloc: Global,
    rng: &mut R,
    newest: &[u8],
    oldest: &[u8],
) -> Result<Vec<u8>, AllocError>
    ensures { length newest.now ≡ length oldest.now → IfOk result (λ v. length v.items ≡ length newest.now) }
{
    let count = newest.len().min(oldest.len());
    let at = (below(rng, (count as u64).saturating_add(1)) as usize).min(count);
    let mut bytes = Vec::from_slice(alloc, &newest[..at])?;
    if below(rng, 2) == 0 {
        bytes.extend_from_slice(&oldest[at..])?;
    } else {
        bytes.resize(count, below(rng, 256) as u8)?;
    }
    Ok(bytes)
}

/// Torn sectors, one in eight of those that have more than one value.
fn draw_torn<R: Rng>(
    alloc: Global,
    rng: &mut R,
    disk: &ModelDisk,
    greatest: u64,
) -> Result<Vec<(u32, Vec<u8>)>, DiskError>
    ensures { IfErr result (λ e. number_of e ≡ 4) }
{
    let sector = disk.sector();
    let mut newest = Vec::new(alloc);
    let mut oldest = Vec::new(alloc);
    disk.image(
        File::Db,
        &plain(alloc, Rest::Newest, Some(greatest)),
        &mut newest,
    )?;
    disk.image(
        File::Db,
        &plain(alloc, Rest::Oldest, Some(greatest)),
        &mut oldest,
    )?;
    let mut torn = Vec::new(alloc);
    for (k, (new, old)) in newest.chunks(sector).zip(oldest.chunks(sector)).enumerate() {
        let Ok(number) = u32::try_from(k) else {
            break;
        };
        if disk.values(File::Db, k) > 1 && below(rng, 8) == 0 {
            let Ok(bytes) = torn_sector(alloc, rng, new, old) else {
                return Err(DiskError::NoMemory);
            };
            if torn.push((number, bytes)).is_err() {
                return Err(DiskError::NoMemory);
            }
        }
    }
    Ok(torn)
}

/// What a crash leaves of a file: in eight draws one the newest values, one the oldest, otherwise each sector one of
/// its values, or where it tears a torn one.
pub(crate) fn draw_choice<R: Rng>(
    alloc: Global,
    rng: &mut R,
    disk: &ModelDisk,
) -> Result<FileChoice, DiskError>
    ensures { IfErr result (λ e. number_of e ≡ 4) }
{
    let sector = disk.sector() as u64;
    let (least, greatest) = disk.lengths(File::Db);
    let len = draw_length(rng, least, greatest, sector);
    match below(rng, 8) {
        0 => return Ok(plain(alloc, Rest::Newest, len)),
        1 => return Ok(plain(alloc, Rest::Oldest, len)),
        _ => {}
    }
    let Ok(pick) = draw_picks(alloc, rng, greatest.div_ceil(sector)) else {
        return Err(DiskError::NoMemory);
    };
    let torn = if disk.tears() {
        draw_torn(alloc, rng, disk, greatest)?
    } else {
        Vec::new(alloc)
    };
    Ok(FileChoice {
        pick,
        torn,
        rest: Rest::Newest,
        len,
    })
}

/// Appends what a crash by this choice leaves of the file of a disk.
pub(crate) fn append_image(
    disk: &ModelDisk,
    choice: &FileChoice,
    out: &mut Vec<u8>,
) -> Result<(), DiskError>
    ensures { MatchResult result (λ done. (bytes : List ℕ) × (out.new.items ≡ out.old.items ++ bytes)
        × IsNamed (state_of disk.now) (naming_of choice.now) bytes) (λ e. number_of e ≡ 4) }
{
    disk.image(File::Db, choice, out)
}

/// Puts there a file that may be left under a name that holds this: each of its files, or none, as often as any other.
pub(crate) fn put_draw<R: Rng>(
    alloc: Global,
    rng: &mut R,
    name: &Name,
    holds: Holds,
    out: &mut Vec<u8>,
) -> Result<(), DiskError>
    ensures { MatchResult result (λ done. MayBeLeft (name_of name.now) holds out.new.items) (λ e. number_of e ≡ 4) }
{
    out.clear();
    let files = held_files(name, holds);
    let none = may_be_none(name, holds);
    let ways = (files.len() as u64).saturating_add(u64::from(none));
    if ways == 0 {
        return Ok(());
    }
    match files.get(below(rng, ways) as usize) {
        Some(disk) => {
            let choice = draw_choice(alloc, rng, disk)?;
            append_image(disk, &choice, out)
        }
        None => Ok(()),
    }
}

/// One of the epochs of a player, as often as any other.
fn draw_epoch<R: Rng>(rng: &mut R, player: &Player) -> Epoch
    ensures { Contains (epochs_of (files_of player.now)) result }
{
    let earlier = player.earlier();
    if earlier.is_empty() {
        return player.epoch();
    }
    let count = (earlier.len() as u64).saturating_add(1);
    match earlier.get(below(rng, count) as usize) {
        Some(epoch) => *epoch,
        None => player.epoch(),
    }
}

/// Takes an image that is drawn in place of what it has: one of those that a crash may leave in this epoch.
pub(crate) fn draw_in<R: Rng>(
    alloc: Global,
    rng: &mut R,
    player: &Player,
    epoch: Epoch,
    image: &mut Image,
) -> Result<(), DiskError>
    ensures { MatchResult result (λ done. MayLeaveIn (files_of player.now) epoch image.new) (λ e. number_of e ≡ 4) }
{
    put_draw(alloc, rng, player.db(), epoch.db, &mut image.db)?;
    put_draw(alloc, rng, player.wal(), epoch.wal, &mut image.wal)?;
    put_draw(
        alloc,
        rng,
        player.journal(),
        epoch.journal,
        &mut image.journal,
    )
}

/// Takes an image that is drawn in place of what it has: one of those that a crash may leave. NoMemory alone, and then
/// nothing is said of it.
pub fn draw<R: Rng>(
    alloc: Global,
    rng: &mut R,
    player: &Player,
    image: &mut Image,
) -> Result<(), DiskError>
    ensures { MatchResult result (λ done. MayLeave (files_of player.now) image.new) (λ e. number_of e ≡ 4) }
{
    let epoch = draw_epoch(rng, player);
    draw_in(alloc, rng, player, epoch, image)
}
