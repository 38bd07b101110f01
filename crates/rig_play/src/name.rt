//! A name, and the files that a crash may leave under it (own).
ghost use Rattle.std.specs.Prelude.{◌≡◌, ◌<◌, ◌≤◌, ◌+◌, ◌^◌, IsTrue, [], ℕ, length, OnOk, IfOk, IfErr};
ghost use Rattle.crashdisk.specs.Call.{IsNew, EndsWithin};
ghost use Rattle.crashdisk.specs.Ending.{EndsDb};
ghost use Rattle.crashdisk.specs.Model.{state_of};
ghost use Rattle.crashdisk.specs.Solid.{is_sector_size};
ghost use Rattle.rig_play.specs.Ends.{sum_of};
ghost use Rattle.rig_play.specs.Files.{answer_of, IsWritten, IsCut, IsSynced, FileRefused};

use crate::error::PlayError;
use crate::meta::{Holds, Meta};
use crate::trace::Record;
use crashdisk::{Disk, DiskError, File, ModelDisk, Part};
use std::alloc::Global;

/// What a modelled disk is made with, and how metadata becomes durable.
#[derive(Clone, Copy)]
pub(crate) struct Manner {
    pub(crate) alloc: Global,
    pub(crate) sector: usize,
    pub(crate) tears: bool,
    pub(crate) meta: Meta,
}

impl Manner {
    ghost use Rattle.std.specs.Prelude.{◌≡◌, IsTrue, length, nat_lt, cond, IfOk, IfErr};
    ghost use Rattle.crashdisk.specs.Call.{IsNew};
    ghost use Rattle.crashdisk.specs.Refusal.{number_of};
    ghost use Rattle.crashdisk.specs.State.{longest};
    ghost use Rattle.crashdisk.specs.Model.{state_of};
    ghost use Rattle.crashdisk.specs.Solid.{is_sector_size};

    /// A disk whose database has these bytes, which are durable.
    fn disk(&self, bytes: Vec<u8>) -> Result<ModelDisk, DiskError>
        requires { IsTrue (is_sector_size self.now.sector) }
        ensures made { IfOk result (λ d. IsNew self.now.sector self.now.tears bytes.items (state_of d)) }
        ensures error { IfErr result (λ e. number_of e ≡ cond (nat_lt longest (length bytes.items)) 3 4) }
    {
        if self.tears {
            ModelDisk::tearing(self.alloc, self.sector, bytes)
        } else {
            ModelDisk::new(self.alloc, self.sector, bytes)
        }
    }
}

/// Has the next call of a disk fail, where it is to fail. It then leaves what was there.
fn arm(disk: &mut ModelDisk, alloc: Global, fails: bool)
    ensures sector { (state_of disk.new).sector ≡ (state_of disk.old).sector }
    ensures tears { (state_of disk.new).tears ≡ (state_of disk.old).tears }
    ensures db { (state_of disk.new).db ≡ (state_of disk.old).db }
{
    if fails {
        let pick = Vec::new(alloc);
        disk.fail(
            1,
            Part {
                pick,
                new_len: false,
            },
        );
    }
}

/// Whether the disk answered as it was to.
fn told(answer: Result<(), DiskError>, fails: bool) -> Result<(), PlayError>
    ensures told { OnOk result (answer ≡ answer_of fails) }
    ensures refused { (end : ℕ) → EndsWithin answer end → IfErr result (FileRefused end) }
{
    match answer {
        Ok(()) if !fails => Ok(()),
        Err(DiskError::Failed) if fails => Ok(()),
        Err(DiskError::TooLong) => Err(PlayError::TooLong),
        _ => Err(PlayError::NoMemory),
    }
}

/// Writes into the file of a disk.
fn write_file(
    disk: &mut ModelDisk,
    alloc: Global,
    at: u64,
    bytes: &[u8],
    fails: bool,
) -> Result<(), PlayError>
    ensures does { OnOk result (IsWritten at bytes.now fails (state_of disk.old) (state_of disk.new)) }
    ensures refused { IfErr result (FileRefused (at + length bytes.now)) }
{
    arm(disk, alloc, fails);
    told(disk.write_at(File::Db, at, bytes), fails)
}

/// Changes the length of the file of a disk.
fn cut_file(disk: &mut ModelDisk, alloc: Global, end: u64, fails: bool) -> Result<(), PlayError>
    ensures does { OnOk result (IsCut end fails (state_of disk.old) (state_of disk.new)) }
    ensures refused { IfErr result (FileRefused end) }
{
    arm(disk, alloc, fails);
    told(disk.set_len(File::Db, end), fails)
}

/// The file of a disk, ended at a length.
fn ended(disk: &ModelDisk, end: u64) -> Result<ModelDisk, PlayError>
    ensures does { IfOk result (λ d. EndsDb end (state_of disk.now) (state_of d)) }
    ensures refused { IfErr result (FileRefused end) }
{
    let mut cut = disk.copy()?;
    cut.end_db(end);
    Ok(cut)
}

/// Syncs the file of a disk.
fn sync_file(disk: &mut ModelDisk, alloc: Global, fails: bool) -> Result<(), PlayError>
    ensures does { OnOk result (IsSynced fails (state_of disk.old) (state_of disk.new)) }
    ensures refused { IfErr result (FileRefused 0) }
{
    arm(disk, alloc, fails);
    told(disk.sync(File::Db), fails)
}

/// The sum of bytes (docs/TRACE.md).
fn sum_of(bytes: &[u8]) -> u64
    ensures { result ≡ sum_of bytes.now }
{
    let mut sum = 0u64;
    for byte in bytes {
        sum = sum
            .wrapping_mul(1_099_511_628_211)
            .wrapping_add(u64::from(*byte));
    }
    sum
}

/// The files that a crash may leave under a name. Each is the database file of a modelled disk.
#[derive(Drop)]
pub struct Name {
    /// Those that were made under it and are not gone for good, the oldest first, and behind each those that whole
    /// truncations left of it.
    pub(crate) files: Vec<ModelDisk>,
    /// Where in that list the one stands that was made last, as it was before the truncations that may not be durable.
    pub(crate) made: usize,
    /// The least length that one of these truncations gave it.
    pub(crate) below: u64,
    /// Whether a crash may leave none.
    pub(crate) maybe_none: bool,
    /// Whether the name is gone now.
    pub(crate) gone: bool,
}

impl Name {
    ghost use Rattle.std.specs.Prelude.{◌≡◌, ◌↔◌, IsTrue, true, ◌+◌, ◌++◌, ℕ, List, length, OnOk, IfOk, IfErr, map};
    ghost use Rattle.std.specs.Prelude.{MatchBool, MatchResult};
    ghost use Rattle.crashdisk.specs.Model.{state_of};
    ghost use Rattle.crashdisk.specs.Refusal.{number_of};
    ghost use Rattle.crashdisk.specs.Solid.{is_sector_size};
    ghost use Rattle.rig_play.specs.Files.{IsWritten, IsCut, IsSynced, FileRefused};
    ghost use Rattle.rig_play.specs.Names.{name_of, no_file, LastGoes, IsBase, Makes, IsLonger, CutsWhole, Cuts, Syncs};
    ghost use Rattle.rig_play.specs.Names.{without_uncut, last_made, only_now, UncutGo, TakesBelow, Writes, least_cut};
    ghost use Rattle.rig_play.specs.Names.{ArePresentOf, file_now, is_resized};
    ghost use Rattle.rig_play.specs.Ends.{IsAsNoted, IsUnlikeNoted};
    ghost use Rattle.rig_play.specs.Plays.{holds_now};
    ghost use Rattle.rig_play.specs.declared.error.PlayError.TheVariants.{NoMemory};

    /// Those that were made under it and are not gone for good, the oldest first, and behind each those that whole
    /// truncations left of it. A crash may leave an image of one of them.
    pub fn files(&self) -> &[ModelDisk]
        ensures { map (λ d. state_of d) result.now ≡ (name_of self.now).files }
    {
        self.files.as_slice()
    }

    /// Whether a crash may leave no file under it.
    pub fn maybe_none(&self) -> bool
        ensures { result ≡ (name_of self.now).maybe_none }
    {
        self.maybe_none
    }

    /// Whether no file has the name now. Otherwise the last one has it.
    pub fn is_gone(&self) -> bool
        ensures { result ≡ (name_of self.now).gone }
    {
        self.gone
    }

    /// Whether the length of the present file changed since it was last synced: it was written longer, or cut.
    pub(crate) fn is_resized(&self) -> bool
        ensures { result ≡ is_resized (name_of self.now) }
    {
        if self.files.is_empty() {
            return false;
        }
        let last = self.files.len() - 1;
        let (least, greatest) = self.files[last].lengths(File::Db);
        self.made < last || least < greatest
    }

    /// Appends the bytes of the file that has the name now, none where no file has it. NoMemory alone.
    pub fn append_present(&self, out: &mut Vec<u8>) -> Result<(), DiskError>
        ensures { MatchResult result (λ done. (bytes : List ℕ) × (out.new.items ≡ out.old.items ++ bytes)
            × ArePresentOf (file_now (name_of self.now)) bytes) (λ e. number_of e ≡ 4) }
    {
        if self.gone {
            return Ok(());
        }
        match self.files().last() {
            Some(disk) => disk.present(File::Db, out),
            None => Ok(()),
        }
    }

    /// Whether it is as a record of the end says: no file has it, or the present one has that length and that sum.
    pub(crate) fn is_as_noted(&self, alloc: Global, end: &Record) -> Result<bool, PlayError>
        ensures is { IfOk result (λ is. MatchBool is (IsAsNoted end.now (name_of self.now))
            (IsUnlikeNoted end.now (name_of self.now))) }
        ensures memory { IfErr result (λ e. e ≡ NoMemory) }
    {
        if self.gone {
            return Ok(end.place == 0);
        }
        if end.place == 0 {
            return Ok(false);
        }
        let mut bytes = Vec::new(alloc);
        if self.append_present(&mut bytes).is_err() {
            return Err(PlayError::NoMemory);
        }
        Ok(bytes.len() as u64 == end.length && sum_of(&bytes) == end.answer)
    }

    /// What it holds after a crash that comes when all changes are durable.
    pub(crate) fn holds(&self, meta: Meta) -> Holds
        ensures { result ≡ holds_now meta (name_of self.now) }
    {
        match meta {
            Meta::Ordered if self.gone => Holds::Nothing,
            Meta::Ordered => Holds::File(self.files.len().saturating_sub(1)),
            Meta::Parts | Meta::Whole => Holds::Any,
        }
    }

    /// Nothing is there, and that is durable.
    pub(crate) fn nothing(alloc: Global) -> Name
        ensures { name_of result ≡ no_file }
    {
        Name {
            files: Vec::new(alloc),
            made: 0,
            below: 0,
            maybe_none: true,
            gone: true,
        }
    }

    /// A file with these bytes is there, and that is durable.
    pub(crate) fn base(manner: &Manner, bytes: &[u8]) -> Result<Name, PlayError>
        requires { IsTrue (is_sector_size manner.now.sector) }
        ensures does { IfOk result (λ n. IsBase manner.now.sector manner.now.tears bytes.now (name_of n)) }
        ensures refused { IfErr result (FileRefused (length bytes.now)) }
    {
        let copy = Vec::from_slice(manner.alloc, bytes)?;
        let mut files = Vec::new(manner.alloc);
        files.push(manner.disk(copy)?)?;
        Ok(Name {
            files,
            made: 0,
            below: 0,
            maybe_none: false,
            gone: false,
        })
    }

    /// A new file was made.
    pub(crate) fn make(&mut self, manner: &Manner) -> Result<(), PlayError>
        requires { IsTrue (is_sector_size manner.now.sector) }
        ensures does { OnOk result (Makes manner.now.sector manner.now.tears (name_of self.old) (name_of self.new)) }
        ensures refused { IfErr result (FileRefused 0) }
    {
        let disk = manner.disk(Vec::new(manner.alloc))?;
        let made = self.files.len();
        self.files.push(disk)?;
        self.made = made;
        self.gone = false;
        Ok(())
    }

    /// The name was taken away.
    pub(crate) fn unlink(&mut self)
        ensures { name_of self.new ≡ record (name_of self.old) { maybe_none = true; gone = true } }
    {
        self.maybe_none = true;
        self.gone = true;
    }

    /// Bytes were written into the present file, and what lies below its truncations that may not be durable into those
    /// before these.
    pub(crate) fn write(
        &mut self,
        alloc: Global,
        at: u64,
        bytes: &[u8],
        fails: bool,
    ) -> Result<(), PlayError>
        ensures does { OnOk result (Writes at bytes.now fails (name_of self.old) (name_of self.new)) }
        ensures refused { IfErr result (FileRefused (at + length bytes.now)) }
    {
        self.write_uncut(alloc, at, bytes, fails)?;
        self.write_last(alloc, at, bytes, fails)
    }

    /// The files that truncations left take the bytes below these.
    fn write_uncut(
        &mut self,
        alloc: Global,
        at: u64,
        bytes: &[u8],
        fails: bool,
    ) -> Result<(), PlayError>
        ensures does { OnOk result (UncutGo (TakesBelow (name_of self.old).below at bytes.now fails)
            (name_of self.old) (name_of self.new)) }
        ensures refused { IfErr result (FileRefused (at + length bytes.now)) }
    {
        if at >= self.below {
            return Ok(());
        }
        let count = (self.below - at).min(bytes.len() as u64) as usize;
        for k in self.made..self.files.len().saturating_sub(1) {
            write_file(&mut self.files[k], alloc, at, &bytes[..count], fails)?;
        }
        Ok(())
    }

    /// The present file takes bytes.
    fn write_last(
        &mut self,
        alloc: Global,
        at: u64,
        bytes: &[u8],
        fails: bool,
    ) -> Result<(), PlayError>
        ensures does { OnOk result (LastGoes (IsWritten at bytes.now fails) (name_of self.old) (name_of self.new)) }
        ensures refused { IfErr result (FileRefused (at + length bytes.now)) }
    {
        if self.files.is_empty() {
            return Ok(());
        }
        let last = self.files.len() - 1;
        write_file(&mut self.files[last], alloc, at, bytes, fails)
    }

    /// The length of the present file was changed.
    pub(crate) fn cut(&mut self, manner: &Manner, end: u64, fails: bool) -> Result<(), PlayError>
        ensures does { OnOk result (Cuts manner.now.meta end fails (name_of self.old) (name_of self.new)) }
        ensures refused { IfErr result (FileRefused end) }
    {
        match manner.meta {
            Meta::Whole | Meta::Ordered if self.is_longer(end) => self.cut_whole(end, fails),
            _ => self.cut_parts(manner.alloc, end, fails),
        }
    }

    /// Whether the present file is longer than this.
    fn is_longer(&self, end: u64) -> bool
        ensures { IsTrue result ↔ IsLonger end (name_of self.now) }
    {
        if self.files.is_empty() {
            return false;
        }
        let last = self.files.len() - 1;
        end < self.files[last].present_len(File::Db)
    }

    /// The present file gets another length, which may be there in part.
    fn cut_parts(&mut self, alloc: Global, end: u64, fails: bool) -> Result<(), PlayError>
        ensures does { OnOk result (LastGoes (IsCut end fails) (name_of self.old) (name_of self.new)) }
        ensures refused { IfErr result (FileRefused end) }
    {
        if self.files.is_empty() {
            return Ok(());
        }
        let last = self.files.len() - 1;
        cut_file(&mut self.files[last], alloc, end, fails)
    }

    /// It is ended at a length, and stays beside that.
    fn cut_whole(&mut self, end: u64, fails: bool) -> Result<(), PlayError>
        requires { IsLonger end (name_of self.old) }
        ensures does { OnOk result (CutsWhole end fails (name_of self.old) (name_of self.new)) }
        ensures refused { IfErr result (FileRefused end) }
    {
        if fails || self.files.is_empty() {
            return Ok(());
        }
        let last = self.files.len() - 1;
        let cut = ended(&self.files[last], end)?;
        let below = self.least_cut(end);
        self.files.push(cut)?;
        self.below = below;
        Ok(())
    }

    /// The least length that a truncation to this one and those before it that may not be durable gave.
    fn least_cut(&self, end: u64) -> u64
        ensures { result ≡ least_cut end (name_of self.now) }
    {
        if self.made < self.files.len().saturating_sub(1) {
            self.below.min(end)
        } else {
            end
        }
    }

    /// The present file was synced.
    pub(crate) fn sync(&mut self, manner: &Manner, fails: bool) -> Result<(), PlayError>
        ensures does { OnOk result (Syncs manner.now.meta fails (name_of self.old) (name_of self.new)) }
        ensures refused { IfErr result (FileRefused 0) }
    {
        self.sync_last(manner.alloc, fails)?;
        match manner.meta {
            Meta::Whole | Meta::Ordered if !fails => self.forget_uncut(),
            _ => {}
        }
        Ok(())
    }

    /// It was synced, and nothing is said of its truncations.
    fn sync_last(&mut self, alloc: Global, fails: bool) -> Result<(), PlayError>
        ensures does { OnOk result (LastGoes (IsSynced fails) (name_of self.old) (name_of self.new)) }
        ensures refused { IfErr result (FileRefused 0) }
    {
        if self.files.is_empty() {
            return Ok(());
        }
        let last = self.files.len() - 1;
        sync_file(&mut self.files[last], alloc, fails)
    }

    /// The truncations of the present file are durable.
    fn forget_uncut(&mut self)
        ensures { name_of self.new ≡ without_uncut (name_of self.old) }
    {
        if self.files.is_empty() {
            return;
        }
        let last = self.files.len() - 1;
        let first = self.made.min(last);
        self.files.swap(first, last);
        self.files.truncate(first + 1);
    }

    /// Of what was made under it the last alone is left, with what truncations may leave of that.
    fn forget_older(&mut self)
        ensures { name_of self.new ≡ last_made (name_of self.old) }
    {
        if self.files.is_empty() {
            return;
        }
        let count = self.files.len();
        let first = self.made.min(count - 1);
        self.files.rotate_left(first);
        self.files.truncate(count - first);
    }

    /// The folder was synced: what the name has now stays, with what truncations may leave of it.
    pub(crate) fn settle(&mut self)
        ensures { name_of self.new ≡ only_now (name_of self.old) }
    {
        if self.gone {
            self.files.clear();
        } else {
            self.forget_older();
        }
        self.made = 0;
        self.maybe_none = self.gone;
    }
}
