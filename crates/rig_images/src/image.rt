//! What a crash left of a database file and its logs (own).
ghost use Rattle.std.specs.Prelude.{◌≡◌, ◌++◌, ◌%◌, ◌/◌, MatchResult, map};
ghost use Rattle.rig_play.specs.Names.{name_of, ArePresentOf, file_now};
ghost use Rattle.crashdisk.specs.Model.{state_of};
ghost use Rattle.crashdisk.specs.Refusal.{number_of};
ghost use Rattle.rig_images.specs.Ways.{files_way, held_files};

use crate::counts::{Counts, EpochCounts, file_count, held_files};
use crashdisk::{DiskError, File, ModelDisk};
use rig_play::{Holds, Name, Player};
use std::alloc::Global;
use std::hash::{FoldHasher, Hasher};

/// What a crash left: the bytes of each file. One that is gone has none.
#[derive(Drop)]
pub struct Image {
    pub db: Vec<u8>,
    pub wal: Vec<u8>,
    pub journal: Vec<u8>,
}

/// Appends one of these files in the way of this number, or nothing: the choices of each file, one file after the
/// other, and then none.
fn append_way(files: &[ModelDisk], n: u64, out: &mut Vec<u8>) -> Result<(), DiskError>
    ensures { MatchResult result (λ done. out.new.items ≡ out.old.items
        ++ files_way (map (λ d. state_of d) files.now) n) (λ e. number_of e ≡ 4) }
{
    let mut rest = n;
    for disk in files {
        match file_count(disk, rest) {
            Some(count) => rest -= count,
            None => {
                let Some(choice) = disk.choice(rest)? else {
                    return Ok(());
                };
                return disk.image(File::Db, &choice.db, out);
            }
        }
    }
    Ok(())
}

/// Puts there the file that is left under a name that holds this, in the way of this number.
fn put_way(name: &Name, holds: Holds, n: u64, out: &mut Vec<u8>) -> Result<(), DiskError>
    ensures { MatchResult result (λ done. out.new.items ≡ files_way (held_files (name_of name.now) holds) n)
        (λ e. number_of e ≡ 4) }
{
    out.clear();
    append_way(held_files(name, holds), n, out)
}

/// Puts there the file that has a name now.
fn put_present(name: &Name, out: &mut Vec<u8>) -> Result<(), DiskError>
    ensures { MatchResult result (λ done. ArePresentOf (file_now (name_of name.now)) out.new.items)
        (λ e. number_of e ≡ 4) }
{
    out.clear();
    name.append_present(out)
}

impl Image {
    ghost use Rattle.std.specs.Prelude.{◌≡◌, [], MatchResult};
    ghost use Rattle.crashdisk.specs.Refusal.{number_of};
    ghost use Rattle.rig_play.specs.Plays.{files_of};
    ghost use Rattle.rig_images.specs.Images.{IsNumbered, IsNumberedIn, IsNone};
    ghost use Rattle.rig_images.specs.Keys.{key_of};
    ghost use Rattle.rig_images.specs.Left.{IsPresent};

    /// No files.
    pub fn none(alloc: Global) -> Image
        ensures db { result.db.items ≡ [] }
        ensures wal { result.wal.items ≡ [] }
        ensures journal { result.journal.items ≡ [] }
    {
        Image {
            db: Vec::new(alloc),
            wal: Vec::new(alloc),
            journal: Vec::new(alloc),
        }
    }

    /// Takes the image of this number, counted from 0, in place of what it has: those of the first epoch come first,
    /// and in an epoch the way of the database file changes fastest, and that of the journal slowest. From the count
    /// of images on there are no bytes. NoMemory alone, and then nothing is said of it.
    pub fn set(&mut self, player: &Player, counts: &Counts, n: u64) -> Result<(), DiskError>
        ensures { MatchResult result (λ done. IsNumbered (files_of player.now) counts.now n self.new)
            (λ e. number_of e ≡ 4) }
    {
        let Some((counts, number)) = counts.place(n) else {
            self.clear();
            return Ok(());
        };
        self.set_in(player, &counts, number)
    }

    /// Takes the image of this number of an epoch.
    fn set_in(&mut self, player: &Player, counts: &EpochCounts, n: u64) -> Result<(), DiskError>
        ensures { MatchResult result (λ done. IsNumberedIn (files_of player.now) counts.now n self.new)
            (λ e. number_of e ≡ 4) }
    {
        let epoch = counts.epoch;
        let logs = n / counts.db;
        put_way(player.db(), epoch.db, n % counts.db, &mut self.db)?;
        put_way(player.wal(), epoch.wal, logs % counts.wal, &mut self.wal)?;
        put_way(
            player.journal(),
            epoch.journal,
            logs / counts.wal,
            &mut self.journal,
        )
    }

    fn clear(&mut self)
        ensures { IsNone self.new }
    {
        self.db.clear();
        self.wal.clear();
        self.journal.clear();
    }

    /// A number that is the same for the same files, and seldom for others (own).
    pub fn key(&self) -> u64
        ensures { result ≡ key_of self.now }
    {
        let mut hasher = FoldHasher::default();
        hasher.write(&self.db);
        hasher.write(&self.wal);
        hasher.write(&self.journal);
        hasher.finish()
    }

    /// Takes the present files in place of what it has. NoMemory alone, and then nothing is said of it.
    pub fn set_present(&mut self, player: &Player) -> Result<(), DiskError>
        ensures { MatchResult result (λ done. IsPresent (files_of player.now) self.new)
            (λ e. number_of e ≡ 4) }
    {
        put_present(player.db(), &mut self.db)?;
        put_present(player.wal(), &mut self.wal)?;
        put_present(player.journal(), &mut self.journal)
    }
}
