//! Images that are drawn with a torn sector (own).
ghost use Rattle.std.specs.List.{Contains};
ghost use Rattle.std.specs.Prelude.{◌≡◌, ◌≢◌, ◌⊎◌, ◌<◌, ◌≤◌, ℕ, cond, length, map, IfErr, IfOk, MatchOption, MatchBool};
ghost use Rattle.std.specs.Prelude.{MatchResult};
ghost use Rattle.crashdisk.specs.Choice.{naming_of, last_torn, is_newest};
ghost use Rattle.crashdisk.specs.Model.{state_of};
ghost use Rattle.crashdisk.specs.Refusal.{number_of};
ghost use Rattle.rig_play.specs.Plays.{files_of};
ghost use Rattle.rig_images.specs.Torn.{name_in, holds_in, IsPlace, IsTornFile, MayLeaveTorn, NoneTears};
ghost use Rattle.rig_images.specs.Ways.{held_files};
ghost use Rattle.rig_images.specs.internal.Tearing.{IsTearing, NoneTearing, IsPlaceOf, NoneIn, IsValue, sector_end};

use crate::counts::held_files;
use crate::draws::{append_image, below, draw_choice, draw_in, plain, torn_sector};
use crate::image::Image;
use crashdisk::{Disk, DiskError, File, FileChoice, ModelDisk, Rest};
use rand_core::Rng;
use rig_play::{Epoch, Holds, Name, Player};
use std::alloc::{AllocError, Global};

/// One of the three files.
#[derive(Clone, Copy, Debug, PartialEq, Eq)]
pub enum Which {
    /// The database file.
    Db,
    /// Its write-ahead log.
    Wal,
    /// Its rollback journal.
    Journal,
}

impl Which {
    ghost use Rattle.std.specs.Prelude.{◌≡◌};
    ghost use Rattle.rig_play.specs.Names.{name_of};
    ghost use Rattle.rig_play.specs.Plays.{files_of};
    ghost use Rattle.rig_images.specs.Torn.{name_in, holds_in};

    /// What a player has under its name.
    fn name(self, player: &Player) -> &Name
        ensures { name_of result.now ≡ name_in self (files_of player.now) }
    {
        match self {
            Which::Db => player.db(),
            Which::Wal => player.wal(),
            Which::Journal => player.journal(),
        }
    }

    /// What its name holds in an epoch.
    fn holds(self, epoch: Epoch) -> Holds
        ensures { result ≡ holds_in self epoch }
    {
        match self {
            Which::Db => epoch.db,
            Which::Wal => epoch.wal,
            Which::Journal => epoch.journal,
        }
    }
}

/// A sector of a file that may be torn in an epoch.
#[derive(Clone, Copy)]
struct Place<'a> {
    epoch: Epoch,
    disk: &'a ModelDisk,
    sector: u32,
}

/// One of the touched sectors of a file on a disk that tears, as often as any other.
fn tearing_sector<R: Rng>(rng: &mut R, disk: &ModelDisk) -> Option<u32>
    ensures { MatchOption result ((k : ℕ) → ¬ IsTearing (state_of disk.now) k) (IsTearing (state_of disk.now)) }
{
    if !disk.tears() {
        return None;
    }
    let (_, greatest) = disk.lengths(File::Db);
    let sectors = (greatest / 512 + 1).min(u64::from(u32::MAX)) as u32;
    let mut found = None;
    let mut seen = 0u64;
    for k in 0..sectors {
        if disk.values(File::Db, k as usize) > 1 {
            seen = seen.saturating_add(1);
            if found.is_none() || below(rng, seen) == 0 {
                found = Some(k);
            }
        }
    }
    found
}

/// One of two that there may be. Where there are both, so many were looked at before the second.
fn either<R: Rng, T: Copy>(rng: &mut R, first: Option<T>, second: Option<T>, seen: u64) -> Option<T>
    ensures none { result ≡ None → (first ≡ None) × (second ≡ None) }
    ensures one { (result ≡ first) ⊎ (result ≡ second) }
{
    if first.is_none() {
        return second;
    }
    if second.is_some() && below(rng, seen.saturating_add(1)) == 0 {
        return second;
    }
    first
}

/// A sector of a file that may be torn, with the file.
fn tearing_disk<'a, R: Rng>(rng: &mut R, disk: &'a ModelDisk) -> Option<(&'a ModelDisk, u32)>
    ensures { MatchOption result ((k : ℕ) → ¬ IsTearing (state_of disk.now) k)
        (λ p. (p.0.now ≡ disk.now) × IsTearing (state_of disk.now) p.1) }
{
    match tearing_sector(rng, disk) {
        Some(sector) => Some((disk, sector)),
        None => None,
    }
}

/// A sector of one of these files that may be torn.
fn tearing_file<'a, R: Rng>(rng: &mut R, files: &'a [ModelDisk]) -> Option<(&'a ModelDisk, u32)>
    ensures { MatchOption result (NoneTearing files.now (length files.now))
        (λ p. IsPlaceOf files.now p.0.now p.1) }
{
    let mut found = None;
    for i in 0..files.len() {
        let more = tearing_disk(rng, &files[i]);
        found = either(rng, found, more, i as u64);
    }
    found
}

/// A sector of the file of a name that may be torn in an epoch.
fn place_in<'a, R: Rng>(
    rng: &mut R,
    player: &'a Player,
    which: Which,
    epoch: Epoch,
) -> Option<Place<'a>>
    ensures { MatchOption result (NoneIn (files_of player.now) which epoch) (λ p. (p.epoch ≡ epoch)
        × Contains (held_files (name_in which (files_of player.now)) (holds_in which epoch)) (state_of p.disk.now)
        × IsTearing (state_of p.disk.now) p.sector) }
{
    let files = held_files(which.name(player), which.holds(epoch));
    match tearing_file(rng, files) {
        Some((disk, sector)) => Some(Place {
            epoch,
            disk,
            sector,
        }),
        None => None,
    }
}

/// A sector of the file of a name that may be torn, in each epoch that has one as often as in any other.
fn tearing_place<'a, R: Rng>(rng: &mut R, player: &'a Player, which: Which) -> Option<Place<'a>>
    ensures { MatchOption result (NoneTears (files_of player.now) which)
        (λ p. IsPlace (files_of player.now) which p.epoch (state_of p.disk.now) p.sector) }
{
    let mut found = place_in(rng, player, which, player.epoch());
    let earlier = player.earlier();
    for i in 0..earlier.len() {
        let more = place_in(rng, player, which, earlier[i]);
        found = either(rng, found, more, i as u64 + 1);
    }
    found
}

/// The newest or the oldest bytes of a touched sector, as far as the file at its longest goes.
fn value_of(alloc: Global, disk: &ModelDisk, k: u32, rest: Rest) -> Result<Vec<u8>, DiskError>
    ensures { MatchResult result (λ v. IsValue (state_of disk.now).sector (state_of disk.now).db k
        (cond (is_newest rest) (length ((state_of disk.now).db.earlier k)) 0) v.items) (λ e. number_of e ≡ 4) }
{
    let (_, greatest) = disk.lengths(File::Db);
    let mut all = Vec::new(alloc);
    disk.image(File::Db, &plain(alloc, rest, Some(greatest)), &mut all)?;
    let start = (k as usize * disk.sector()).min(all.len());
    let end = (start + disk.sector()).min(all.len());
    match Vec::from_slice(alloc, &all[start..end]) {
        Ok(bytes) => Ok(bytes),
        Err(_) => Err(DiskError::NoMemory),
    }
}

/// A byte that is neither of these.
fn third(a: u8, b: u8) -> u8
    ensures first { result ≢ a }
    ensures second { result ≢ b }
{
    if a != 0 && b != 0 {
        0
    } else if a != 1 && b != 1 {
        1
    } else {
        2
    }
}

/// The bytes of a torn sector, which are neither of these.
fn torn_bytes<R: Rng>(
    alloc: Global,
    rng: &mut R,
    new: &[u8],
    old: &[u8],
) -> Result<Vec<u8>, AllocError>
    requires some { 0 < length new.now }
    requires same { length new.now ≡ length old.now }
    ensures long { IfOk result (λ v. length v.items ≡ length new.now) }
    ensures not_new { IfOk result (λ v. v.items ≢ new.now) }
    ensures not_old { IfOk result (λ v. v.items ≢ old.now) }
{
    let mut bytes = torn_sector(alloc, rng, new, old)?;
    if bytes.as_slice() == new || bytes.as_slice() == old {
        bytes[0] = third(new[0], old[0]);
    }
    Ok(bytes)
}

/// What a crash leaves of a file while sector k is being written, which then has these bytes.
fn torn_choice<R: Rng>(
    alloc: Global,
    rng: &mut R,
    disk: &ModelDisk,
    k: u32,
    bytes: Vec<u8>,
) -> Result<FileChoice, DiskError>
    ensures torn { IfOk result (λ c. last_torn (naming_of c).torn k ≡ Some bytes.items) }
    ensures long { IfOk result (λ c. (n : ℕ) × (c.len ≡ Some n)
        × (sector_end (state_of disk.now).sector (state_of disk.now).db k ≤ n)) }
    ensures error { IfErr result (λ e. number_of e ≡ 4) }
{
    let mut choice = draw_choice(alloc, rng, disk)?;
    let (_, greatest) = disk.lengths(File::Db);
    let sector = disk.sector() as u64;
    let end = (u64::from(k) * sector + sector).min(greatest);
    choice.len = Some(choice.len.unwrap_or(greatest).max(end));
    if choice.torn.push((k, bytes)).is_err() {
        return Err(DiskError::NoMemory);
    }
    Ok(choice)
}

/// Puts there a file that a crash leaves while sector k is being written.
fn put_torn<R: Rng>(
    alloc: Global,
    rng: &mut R,
    disk: &ModelDisk,
    k: u32,
    out: &mut Vec<u8>,
) -> Result<(), DiskError>
    requires { IsTearing (state_of disk.now) k }
    ensures { MatchResult result (λ done. IsTornFile (state_of disk.now) out.new.items) (λ e. number_of e ≡ 4) }
{
    let new = value_of(alloc, disk, k, Rest::Newest)?;
    let old = value_of(alloc, disk, k, Rest::Oldest)?;
    let Ok(bytes) = torn_bytes(alloc, rng, &new, &old) else {
        return Err(DiskError::NoMemory);
    };
    let choice = torn_choice(alloc, rng, disk, k, bytes)?;
    out.clear();
    append_image(disk, &choice, out)
}

/// Takes an image that is drawn in place of what it has: one that a crash may leave while a sector of this file is
/// being written. Answers false where no sector of it may be torn. NoMemory alone, and then nothing is said of the
/// image (own).
pub fn draw_torn<R: Rng>(
    alloc: Global,
    rng: &mut R,
    player: &Player,
    which: Which,
    image: &mut Image,
) -> Result<bool, DiskError>
    ensures { MatchResult result (λ torn. MatchBool torn (MayLeaveTorn (files_of player.now) which image.new)
        (NoneTears (files_of player.now) which)) (λ e. number_of e ≡ 4) }
{
    let Some(place) = tearing_place(rng, player, which) else {
        return Ok(false);
    };
    draw_in(alloc, rng, player, place.epoch, image)?;
    let (disk, sector) = (place.disk, place.sector);
    match which {
        Which::Db => put_torn(alloc, rng, disk, sector, &mut image.db)?,
        Which::Wal => put_torn(alloc, rng, disk, sector, &mut image.wal)?,
        Which::Journal => put_torn(alloc, rng, disk, sector, &mut image.journal)?,
    }
    Ok(true)
}
