//! A trace is played over modelled disks (own).
ghost use Rattle.std.specs.Prelude.{◌≡◌, ◌⊎◌, IsTrue, OnOk};
ghost use Rattle.crashdisk.specs.Solid.{is_sector_size};
ghost use Rattle.rig_play.specs.Names.{name_of};

use crate::calls::{has_all_down, play_call};
use crate::error::PlayError;
use crate::meta::{Epoch, Meta};
use crate::name::{Manner, Name};
use crate::trace::{Record, Subject};
use std::alloc::Global;

/// What a crash may leave of a database file and its two logs, after the calls of a trace.
#[derive(Drop)]
pub struct Player {
    manner: Manner,
    db: Name,
    wal: Name,
    journal: Name,
    /// What the names held before each change that may not be durable, the oldest first.
    earlier: Vec<Epoch>,
    ghost is_size: { IsTrue (is_sector_size manner.sector) },
}

impl Player {
    ghost use Rattle.std.specs.Prelude.{◌≡◌, ◌≢◌, IsTrue, OnOk, IfErr};
    ghost use Rattle.crashdisk.specs.Solid.{is_sector_size};
    ghost use Rattle.rig_play.specs.declared.error.PlayError.TheVariants.{NoMemory};
    ghost use Rattle.rig_play.specs.declared.trace.Subject.TheVariants.{Folder};
    ghost use Rattle.rig_play.specs.Names.{name_of};
    ghost use Rattle.rig_play.specs.Plays.{files_of, no_files, epoch_now, NamesGo, Step, StepRefused, Plays};
    ghost use Rattle.rig_play.specs.Plays.{Follows, CallRefused, PlaysRefused, name_at, has_all_down};

    /// None of the files is there. The disks have sectors of this size, a power of two from 512 to 65536 bytes, and
    /// tear or not; metadata becomes durable so.
    pub fn new(alloc: Global, sector: usize, tears: bool, meta: Meta) -> Player
        requires { IsTrue (is_sector_size sector) }
        ensures { files_of result ≡ no_files sector tears meta }
    {
        Player {
            manner: Manner {
                alloc,
                sector,
                tears,
                meta,
            },
            db: Name::nothing(alloc),
            wal: Name::nothing(alloc),
            journal: Name::nothing(alloc),
            earlier: Vec::new(alloc),
        }
    }

    /// Whether a sector that was being written may hold anything after a crash.
    pub fn tears(&self) -> bool
        ensures { result ≡ (files_of self.now).tears }
    {
        self.manner.tears
    }

    /// What a crash may leave under the name of the database file.
    pub fn db(&self) -> &Name
        ensures { name_of result.now ≡ (files_of self.now).db }
    {
        &self.db
    }

    /// What it may leave under that of the write-ahead log.
    pub fn wal(&self) -> &Name
        ensures { name_of result.now ≡ (files_of self.now).wal }
    {
        &self.wal
    }

    /// What it may leave under that of the rollback journal.
    pub fn journal(&self) -> &Name
        ensures { name_of result.now ≡ (files_of self.now).journal }
    {
        &self.journal
    }

    /// What the names held before each change that may not be durable, the oldest first. Only where metadata goes down
    /// in order there are any: a crash leaves what one of these epochs holds, or the present one.
    pub fn earlier(&self) -> &[Epoch]
        ensures { result.now ≡ (files_of self.now).earlier }
    {
        self.earlier.as_slice()
    }

    /// What the names hold after a crash that comes when all changes of names and lengths are durable.
    pub fn epoch(&self) -> Epoch
        ensures { result ≡ epoch_now (files_of self.now) }
    {
        let meta = self.manner.meta;
        Epoch {
            db: self.db.holds(meta),
            wal: self.wal.holds(meta),
            journal: self.journal.holds(meta),
        }
    }

    /// Plays one record of a trace. Refused by NotHeld, Renamed (of a rename that didn't fail), Differs, TooLong and
    /// NoMemory, after which nothing is said of the files.
    pub fn play(&mut self, trace: &[u8], call: &Record) -> Result<(), PlayError>
        ensures step { OnOk result (Step trace.now call.now (files_of self.old) (files_of self.new)) }
        ensures refused { IfErr result (StepRefused (files_of self.old) trace.now call.now) }
    {
        let before = self.epoch();
        let all_down = self.has_all_down(call);
        self.go(trace, call)?;
        self.follow(before, all_down)
    }

    /// Whether all changes of names and lengths before a record are durable behind it.
    fn has_all_down(&self, call: &Record) -> bool
        ensures { result ≡ has_all_down (files_of self.now) call.now }
    {
        match call.subject {
            Subject::Folder => !call.has_failed(),
            Subject::Db => has_all_down(&self.db, call),
            Subject::Wal => has_all_down(&self.wal, call),
            Subject::Journal => has_all_down(&self.journal, call),
            Subject::Marks | Subject::Other => false,
        }
    }

    /// Plays a record on the names.
    fn go(&mut self, trace: &[u8], call: &Record) -> Result<(), PlayError>
        ensures goes { OnOk result (NamesGo trace.now call.now (files_of self.old) (files_of self.new)) }
        ensures refused { IfErr result
            (λ e. (call.now.subject ≡ Folder → ⊥) × CallRefused call.now.kind trace.now call.now
            (name_at call.now.subject (files_of self.old)) e) }
    {
        let manner = self.manner;
        match call.subject {
            Subject::Folder => {
                if !call.has_failed() {
                    self.db.settle();
                    self.wal.settle();
                    self.journal.settle();
                }
                Ok(())
            }
            Subject::Db => play_call(&mut self.db, &manner, trace, call),
            Subject::Wal => play_call(&mut self.wal, &manner, trace, call),
            Subject::Journal => play_call(&mut self.journal, &manner, trace, call),
            Subject::Marks | Subject::Other => {
                let mut other = Name::nothing(manner.alloc);
                play_call(&mut other, &manner, trace, call)
            }
        }
    }

    /// Keeps what the names held before a record, where they hold something else now and not all is durable.
    fn follow(&mut self, before: Epoch, all_down: bool) -> Result<(), PlayError>
        ensures follows { OnOk result (Follows all_down before (epoch_now (files_of self.old))
            (files_of self.old).earlier (files_of self.new).earlier) }
        ensures rest { files_of self.new ≡ record (files_of self.old) { earlier = (files_of self.new).earlier } }
        ensures refused { IfErr result (λ e. (epoch_now (files_of self.old) ≢ before) × (e ≡ NoMemory)) }
    {
        if all_down {
            self.earlier.clear();
        } else if self.epoch() != before {
            self.earlier.push(before)?;
        }
        Ok(())
    }

    /// Plays records of a trace, one after the other. Refused as `play` is.
    pub fn play_all(&mut self, trace: &[u8], records: &[Record]) -> Result<(), PlayError>
        ensures plays { OnOk result (Plays trace.now records.now (files_of self.old) (files_of self.new)) }
        ensures refused { IfErr result (PlaysRefused trace.now records.now (files_of self.old)) }
    {
        for record in records {
            self.play(trace, record)?;
        }
        Ok(())
    }
}
