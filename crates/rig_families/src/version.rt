//! Versions of the files: which values their sectors had behind a call (own).
ghost use Rattle.std.specs.Prelude.{◌≡◌, ◌&&◌, ◌↔◌, ◌^◌, ◌<◌, get_or, length, set, IsTrue, IfOk, MatchResult};
ghost use Rattle.std.specs.List.{Contains};
ghost use Rattle.crashdisk.specs.Choice.{naming_of};
ghost use Rattle.crashdisk.specs.Model.{state_of};
ghost use Rattle.crashdisk.specs.Refusal.{number_of};
ghost use Rattle.rig_play.specs.Names.{name_of};
ghost use Rattle.rig_play.specs.Plays.{files_of, epochs_of};
ghost use Rattle.rig_families.specs.Versions.{file_named, numbers_of, name_version};
ghost use Rattle.rig_families.specs.Families.{numbers_in, without_piece};
ghost use Rattle.rig_families.specs.internal.Puts.{IsMade};

use crate::file_version::FileVersion;
use crate::puts::put_name;
use crashdisk::{Disk, DiskError, File, FileChoice, ModelDisk, Rest};
use rig_images::{Image, Which};
use rig_play::{Epoch, Name, Player};
use std::alloc::{AllocError, Global};

/// A version of the three files.
#[derive(Drop)]
pub struct Version {
    /// What their names held.
    epoch: Epoch,
    db: Option<FileVersion>,
    wal: Option<FileVersion>,
    journal: Option<FileVersion>,
}

/// What may not be down of a file.
#[derive(Clone, Copy, Debug, PartialEq, Eq)]
pub enum Piece {
    /// The sector of this number, counted from 0.
    Sector(usize),
    /// Its length.
    Length,
}

/// The number of each sector's present value.
fn numbers(alloc: Global, disk: &ModelDisk) -> Result<Vec<u64>, AllocError>
    ensures { IfOk result (λ numbers. numbers.items ≡ numbers_of (state_of disk.now)) }
{
    let (_, greatest) = disk.lengths(File::Db);
    let sectors = greatest.div_ceil(disk.sector() as u64);
    let mut numbers = Vec::new(alloc);
    for k in 0..sectors {
        numbers.push((disk.values(File::Db, k as usize) - 1) as u64)?;
    }
    Ok(numbers)
}

/// A file as it is now.
fn file_now(alloc: Global, name: &Name) -> Result<Option<FileVersion>, AllocError>
    ensures { IfOk result (λ v. file_named v ≡ name_version (name_of name.now)) }
{
    if name.is_gone() {
        return Ok(None);
    }
    let files = name.files();
    let Some(disk) = files.last() else {
        return Ok(None);
    };
    let pick = numbers(alloc, disk)?;
    let choice = FileChoice {
        pick,
        torn: Vec::new(alloc),
        rest: Rest::Oldest,
        len: Some(disk.present_len(File::Db)),
    };
    let file = files.len() - 1;
    Ok(Some(FileVersion { file, choice }))
}

/// Whether two are the same.
fn are_same(x: Epoch, y: Epoch) -> bool
    ensures { IsTrue result ↔ (x ≡ y) }
{
    x == y
}

/// Whether a crash may leave what an epoch holds.
fn is_left(player: &Player, epoch: Epoch) -> bool
    ensures { IsTrue result ↔ Contains (epochs_of (files_of player.now)) epoch }
{
    let earlier = player.earlier();
    for i in 0..earlier.len() {
        if are_same(earlier[i], epoch) {
            return true;
        }
    }
    are_same(player.epoch(), epoch)
}

/// Takes the oldest value of sector k, where there is that sector.
fn take_oldest(pick: &mut Vec<u64>, k: usize)
    ensures { pick.new.items ≡ set pick.old.items k 0 }
{
    if k < pick.len() {
        pick[k] = 0;
    }
}

/// A version of a file with the oldest value of a sector, or its least length.
fn without_piece(
    alloc: Global,
    version: &Option<FileVersion>,
    piece: Piece,
) -> Result<Option<FileVersion>, AllocError>
    ensures { IfOk result (λ v. file_named v ≡ without_piece piece (file_named version.now)) }
{
    let Some(version) = version else {
        return Ok(None);
    };
    let mut pick = Vec::from_slice(alloc, &version.choice.pick)?;
    let mut len = version.choice.len;
    match piece {
        Piece::Sector(k) => take_oldest(&mut pick, k),
        Piece::Length => len = Some(0),
    }
    let choice = FileChoice {
        pick,
        torn: Vec::new(alloc),
        rest: version.choice.rest,
        len,
    };
    let file = version.file;
    Ok(Some(FileVersion { file, choice }))
}

/// The number of the value of sector k of a version; 0 where there is none.
fn number_of(version: &Option<FileVersion>, k: usize) -> u64
    ensures { result ≡ get_or (numbers_in (file_named version.now)) k 0 }
{
    match version {
        Some(version) if k < version.choice.pick.len() => version.choice.pick[k],
        _ => 0,
    }
}

/// Of how many sectors a version has numbers.
fn count_of(version: &Option<FileVersion>) -> usize
    ensures count { result ≡ length (numbers_in (file_named version.now)) }
    ensures small { result < 2 ^ 63 }
{
    match version {
        Some(version) => version.choice.pick.len(),
        None => 0,
    }
}

/// Whether all three are so.
fn are_all(db: bool, wal: bool, journal: bool) -> bool
    ensures { result ≡ ((db && wal) && journal) }
{
    db && wal && journal
}

/// Puts a version of each file there. Answers whether a crash may leave them now.
fn put_all(
    player: &Player,
    epoch: Epoch,
    files: (
        &Option<FileVersion>,
        &Option<FileVersion>,
        &Option<FileVersion>,
    ),
    image: &mut Image,
) -> Result<bool, DiskError>
    ensures { MatchResult result (IsMade (files_of player.now) (record {
      epoch = epoch;
      db = file_named files.entry.0.now;
      wal = file_named files.entry.1.now;
      journal = file_named files.entry.2.now;
    }) image.new)
        (λ e. number_of e ≡ 4) }
{
    if !is_left(player, epoch) {
        return Ok(false);
    }
    let db = put_name(player.db(), epoch.db, files.0, &mut image.db)?;
    let wal = put_name(player.wal(), epoch.wal, files.1, &mut image.wal)?;
    let journal = put_name(player.journal(), epoch.journal, files.2, &mut image.journal)?;
    Ok(are_all(db, wal, journal))
}

impl Version {
    ghost use Rattle.std.specs.Prelude.{◌≡◌, ◌≢◌, ◌↔◌, ◌^◌, ◌<◌, IsTrue, IfOk, MatchResult};
    ghost use Rattle.crashdisk.specs.Refusal.{number_of};
    ghost use Rattle.rig_play.specs.Plays.{files_of};
    ghost use Rattle.rig_families.specs.Versions.{named_of, version_now};
    ghost use Rattle.rig_families.specs.Families.{IsOpen, in_version, most_sectors, without, without_piece};
    ghost use Rattle.rig_families.specs.internal.Puts.{IsMade, IsPut};
    ghost use Rattle.rig_images.specs.Torn.{name_in, holds_in, bytes_in};
    ghost use Rattle.rig_images.specs.declared.torn.Which.{Which};

    /// The files as they are now. NoMemory alone (own).
    pub fn now(alloc: Global, player: &Player) -> Result<Version, AllocError>
        ensures { IfOk result (λ v. named_of v ≡ version_now (files_of player.now)) }
    {
        Ok(Version {
            epoch: player.epoch(),
            db: file_now(alloc, player.db())?,
            wal: file_now(alloc, player.wal())?,
            journal: file_now(alloc, player.journal())?,
        })
    }

    /// One of the files.
    fn file(&self, which: Which) -> &Option<FileVersion>
        ensures { file_named result.now ≡ in_version which (named_of self.now) }
    {
        match which {
            Which::Db => &self.db,
            Which::Wal => &self.wal,
            Which::Journal => &self.journal,
        }
    }

    /// So many sectors as any of the files has (own).
    pub(crate) fn sectors(&self) -> usize
        ensures most { result ≡ most_sectors (named_of self.now) }
        ensures small { result < 2 ^ 63 }
    {
        count_of(&self.db)
            .max(count_of(&self.wal))
            .max(count_of(&self.journal))
    }

    /// Whether a piece of a file may not be down: the length, or a sector with a value that isn't the oldest.
    pub(crate) fn is_open(&self, which: Which, piece: Piece) -> bool
        ensures { IsTrue result ↔ IsOpen (in_version which (named_of self.now)) piece }
    {
        match piece {
            Piece::Sector(k) => number_of(self.file(which), k) > 0,
            Piece::Length => true,
        }
    }

    /// Takes the files in this version in place of an image, and answers whether a crash may leave them now. NoMemory
    /// alone, and then nothing is said of the image (own).
    pub(crate) fn put(&self, player: &Player, image: &mut Image) -> Result<bool, DiskError>
        ensures { MatchResult result (IsMade (files_of player.now) (named_of self.now) image.new)
            (λ e. number_of e ≡ 4) }
    {
        put_all(
            player,
            self.epoch,
            (&self.db, &self.wal, &self.journal),
            image,
        )
    }

    /// The same with the oldest value of a sector of a file, or its least length.
    pub(crate) fn put_without(
        &self,
        alloc: Global,
        player: &Player,
        which: Which,
        piece: Piece,
        image: &mut Image,
    ) -> Result<bool, DiskError>
        ensures { MatchResult result (IsMade (files_of player.now) (without which piece (named_of self.now)) image.new)
            (λ e. number_of e ≡ 4) }
    {
        let Ok(file) = without_piece(alloc, self.file(which), piece) else {
            return Err(DiskError::NoMemory);
        };
        let (db, wal, journal) = (&self.db, &self.wal, &self.journal);
        match which {
            Which::Db => put_all(player, self.epoch, (&file, wal, journal), image),
            Which::Wal => put_all(player, self.epoch, (db, &file, journal), image),
            Which::Journal => put_all(player, self.epoch, (db, wal, &file), image),
        }
    }

    /// Puts such a version of one file there, and leaves the others as they are. Answers whether its name may hold it.
    pub(crate) fn put_one(
        &self,
        alloc: Global,
        player: &Player,
        which: Which,
        piece: Piece,
        image: &mut Image,
    ) -> Result<bool, DiskError>
        ensures made { MatchResult result (IsPut (name_in which (files_of player.now))
            (holds_in which (named_of self.now).epoch) (without_piece piece (in_version which (named_of self.now)))
            (bytes_in which image.new)) (λ e. number_of e ≡ 4) }
        ensures others { (v : Which) → v ≢ which → bytes_in v image.new ≡ bytes_in v image.old }
    {
        let Ok(file) = without_piece(alloc, self.file(which), piece) else {
            return Err(DiskError::NoMemory);
        };
        let epoch = self.epoch;
        match which {
            Which::Db => put_name(player.db(), epoch.db, &file, &mut image.db),
            Which::Wal => put_name(player.wal(), epoch.wal, &file, &mut image.wal),
            Which::Journal => put_name(player.journal(), epoch.journal, &file, &mut image.journal),
        }
    }
}
