//! In how many ways a crash may leave a database file and its logs (own).
ghost use Rattle.std.specs.Prelude.{◌≡◌, ◌<◌, ◌≤◌, ◌+◌, ◌*◌, ◌^◌, MatchOption, IfOk, cond, map};
ghost use Rattle.crashdisk.specs.Count.{length_count};
ghost use Rattle.crashdisk.specs.Model.{state_of};
ghost use Rattle.crashdisk.specs.State.{longest};
ghost use Rattle.rig_play.specs.Names.{name_of};
ghost use Rattle.rig_images.specs.Ways.{file_ways, files_ways, held_files, may_be_none, name_ways};

use crashdisk::{Disk, File, ModelDisk};
use rig_play::{Epoch, Holds, Name, Player};
use std::alloc::{AllocError, Global};

/// How many lengths a choice can name: the least, each multiple of the sector size strictly between, and the greatest.
fn lengths(sector: u64, least: u64, greatest: u64) -> u64
    requires positive { 0 < sector }
    requires short { greatest ≤ longest }
    ensures { result ≡ length_count sector least greatest }
{
    if least == greatest {
        1
    } else {
        2 + (greatest.saturating_sub(1) / sector).saturating_sub(least / sector)
    }
}

/// The product of two numbers. None where it is above the limit.
fn times(a: u64, b: u64, limit: u64) -> Option<u64>
    ensures { MatchOption result (limit < a * b) (λ n. (n ≡ a * b) × (n ≤ limit)) }
{
    match a.checked_mul(b) {
        Some(product) if product <= limit => Some(product),
        _ => None,
    }
}

/// How many choices there are of the file of a disk. None where they are above the limit.
pub(crate) fn file_count(disk: &ModelDisk, limit: u64) -> Option<u64>
    ensures { MatchOption result (limit < file_ways (state_of disk.now))
        (λ n. (n ≡ file_ways (state_of disk.now)) × (n ≤ limit)) }
{
    let sector = disk.sector() as u64;
    let (least, greatest) = disk.lengths(File::Db);
    let mut count = 1;
    for k in 0..(greatest + sector - 1) / sector {
        let values = disk.values(File::Db, k as usize) as u64;
        let Some(product) = times(count, values, limit) else {
            return None;
        };
        count = product;
    }
    times(count, lengths(sector, least, greatest), limit)
}

/// The files of a name that a crash may leave where it holds this.
pub(crate) fn held_files<'a>(name: &'a Name, holds: Holds) -> &'a [ModelDisk]
    ensures { map (λ d. state_of d) result.now ≡ held_files (name_of name.now) holds }
{
    let files = name.files();
    match holds {
        Holds::Any => files,
        Holds::Nothing => &files[..0],
        Holds::File(i) => {
            let from = &files[i.min(files.len())..];
            &from[..from.len().min(1)]
        }
    }
}

/// Whether a crash may leave nothing under a name that holds this.
pub(crate) fn may_be_none(name: &Name, holds: Holds) -> bool
    ensures { result ≡ may_be_none (name_of name.now) holds }
{
    match holds {
        Holds::Any if name.maybe_none() => true,
        _ => held_files(name, holds).is_empty(),
    }
}

/// In how many ways a crash may leave these files, and one more where it may leave none. None where they are above the
/// limit.
fn files_count(files: &[ModelDisk], none: bool, limit: u64) -> Option<u64>
    ensures { MatchOption result (limit < cond none 1 0 + files_ways (map (λ d. state_of d) files.now))
        (λ n. (n ≡ cond none 1 0 + files_ways (map (λ d. state_of d) files.now)) × (n ≤ limit)) }
{
    let mut count = u64::from(none);
    if count > limit {
        return None;
    }
    for disk in files {
        let Some(more) = file_count(disk, limit - count) else {
            return None;
        };
        count += more;
    }
    Some(count)
}

/// In how many ways a crash may leave what is under a name that holds this. None where they are above the limit.
pub(crate) fn name_count(name: &Name, holds: Holds, limit: u64) -> Option<u64>
    ensures { MatchOption result (limit < name_ways (name_of name.now) holds)
        (λ n. (n ≡ name_ways (name_of name.now) holds) × (n ≤ limit)) }
{
    files_count(held_files(name, holds), may_be_none(name, holds), limit)
}

/// In how many ways a crash may leave what is under each name in an epoch, where the three files crash independently of
/// each other.
#[derive(Clone, Copy, Debug, PartialEq, Eq)]
pub(crate) struct EpochCounts {
    pub(crate) epoch: Epoch,
    /// Of the database file.
    pub(crate) db: u64,
    /// Of the write-ahead log.
    pub(crate) wal: u64,
    /// Of the rollback journal.
    pub(crate) journal: u64,
    /// Of all three.
    pub(crate) images: u64,
    ghost some_db: { 0 < db },
    ghost some_wal: { 0 < wal },
}

impl EpochCounts {
    ghost use Rattle.rig_play.specs.Plays.{files_of};
    ghost use Rattle.rig_images.specs.Images.{epoch_count, IsCounted};

    /// Those of a player's files. None where the images are more than the limit.
    fn of(player: &Player, epoch: Epoch, limit: u64) -> Option<EpochCounts>
        ensures { MatchOption result (limit < epoch_count (files_of player.now) epoch)
            (λ c. IsCounted (files_of player.now) epoch c × (c.images ≤ limit)) }
    {
        let Some(db) = name_count(player.db(), epoch.db, limit) else {
            return None;
        };
        let Some(wal) = name_count(player.wal(), epoch.wal, limit) else {
            return None;
        };
        let Some(journal) = name_count(player.journal(), epoch.journal, limit) else {
            return None;
        };
        let Some(logs) = times(wal, journal, limit) else {
            return None;
        };
        let Some(images) = times(db, logs, limit) else {
            return None;
        };
        Some(EpochCounts {
            epoch,
            db,
            wal,
            journal,
            images,
        })
    }
}

/// In how many ways a crash may leave what is under the names of a player: those of each epoch, one after the other.
#[derive(Drop)]
pub struct Counts {
    epochs: Vec<EpochCounts>,
    images: u64,
}

impl Counts {
    ghost use Rattle.std.specs.Prelude.{◌≡◌, ◌+◌};
    ghost use Rattle.rig_play.specs.Plays.{files_of};
    ghost use Rattle.rig_images.specs.Images.{CountsAnswer, numbered, EachIsNumbered, EachHasPlace};
    ghost use Rattle.rig_images.specs.internal.Adding.{IsAdded};

    /// Those of a player's files. None where the images are more than the limit.
    pub fn of(alloc: Global, player: &Player, limit: u64) -> Result<Option<Counts>, AllocError>
        ensures { CountsAnswer (files_of player.now) limit result }
    {
        let mut counts = Counts {
            epochs: Vec::new(alloc),
            images: 0,
        };
        for epoch in player.earlier() {
            if !counts.add(player, *epoch, limit)? {
                return Ok(None);
            }
        }
        if !counts.add(player, player.epoch(), limit)? {
            return Ok(None);
        }
        Ok(Some(counts))
    }

    /// Counts one epoch more, or answers false where the images are more than the limit then.
    fn add(&mut self, player: &Player, epoch: Epoch, limit: u64) -> Result<bool, AllocError>
        requires { self.old.images ≤ limit }
        ensures { IfOk result (IsAdded (files_of player.now) epoch limit self.old self.new) }
    {
        let Some(more) = EpochCounts::of(player, epoch, limit - self.images) else {
            return Ok(false);
        };
        self.epochs.push(more)?;
        self.images += more.images;
        Ok(true)
    }

    /// How many images there are.
    pub fn images(&self) -> u64
        ensures { result ≡ self.now.images }
    {
        self.images
    }

    /// Of which epoch the image of a number is, and its number there.
    pub(crate) fn place(&self, n: u64) -> Option<(EpochCounts, u64)>
        ensures { result ≡ numbered self.now.epochs.items n }
    {
        let mut rest = n;
        for counts in &self.epochs {
            if rest < counts.images {
                return Some((*counts, rest));
            }
            rest -= counts.images;
        }
        None
    }

    /// Each three ways of the files are those of one image of an epoch. It does nothing; its contract is that law.
    pub fn number_each_image()
        ensures { EachIsNumbered }
    {}

    /// Each image of an epoch has one number, below the count. It does nothing; its contract is that law.
    pub fn number_each_epoch(&self)
        ensures { EachHasPlace self.now.epochs.items }
    {}
}
