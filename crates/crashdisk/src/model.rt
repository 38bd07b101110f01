//! A disk in memory that keeps what a crash may bring back.
ghost use Rattle.std.specs.Prelude.{◌≡◌, ◌↔◌, IsTrue, ◌<◌, ◌≤◌, ◌+◌, ◌^◌, [], Bool, true, false, max, length};
ghost use Rattle.std.specs.Prelude.{slice_index, OnOk, EachIndex, OnErr, IfOk, IfErr, ℕ, List, ◌++◌, cond, nat_lt};
ghost use Rattle.std.specs.Prelude.{Some, map, IsSome, IfSome, ◌*◌, ◌/◌};
ghost use Rattle.crashdisk.specs.State.{longest};
ghost use Rattle.crashdisk.specs.Call.{IsNew};
ghost use Rattle.crashdisk.specs.Held.{file_of, IsHeld};
ghost use Rattle.crashdisk.specs.Solid.{IsSolid, is_sector_size};
ghost use Rattle.crashdisk.specs.Refusal.{number_of};
ghost use Rattle.crashdisk.specs.Since.{kept_bytes, handed_writes};

use crate::calls::{
    LIMIT, Manner, append_present, cut_held, empty, end_held, filled, is_too_long, refuse,
    sync_held, turn_held, write_held,
};
use crate::choice::{Choice, FileChoice};
use crate::counting::{count_values, file_choice, next_choice};
use crate::crash::{append_image, crash_held};
use crate::disk::Disk;
use crate::error::DiskError;
use crate::file::File;
use crate::held::{Held, Part};
use crate::log::{crash_log, cut_log, sync_log, write_log};
use crate::since::Since;
use crate::stops::Stops;
use std::alloc::{AllocError, Global};

/// A disk in memory, of which a crash leaves what is chosen (own). It keeps its word always.
#[derive(Drop)]
pub struct ModelDisk {
    alloc: Global,
    sector: usize,
    tears: bool,
    db: Held,
    log: Held,
    refused: u64,
    stops: Stops,
    part: Part,
    since: Since,
    ghost is_size: { IsTrue (is_sector_size sector) },
    ghost db_held: { IsHeld sector db },
    ghost db_solid: { IsSolid sector (file_of sector db) },
    ghost log_held: { IsHeld sector log },
    ghost log_solid: { IsSolid sector (file_of sector log) },
    ghost counted: { refused < 2 ^ 64 },
    ghost kept_room: { IsTrue tears → log.greatest ≤ length since.room.items },
    ghost untorn: { tears ≡ false → (kept_bytes since ≡ []) × (handed_writes since ≡ []) },
}

impl ModelDisk {
    ghost use Rattle.crashdisk.specs.Call.{of, ArePresent, IsCrash};
    ghost use Rattle.crashdisk.specs.Choice.{naming_of, image_of};
    ghost use Rattle.crashdisk.specs.Stop.{no_stops};
    ghost use Rattle.crashdisk.specs.Count.{value_count, choice_count, IsChoice, HasDigits, EachIsCounted};
    ghost use Rattle.crashdisk.specs.Ending.{EndsDb};
    ghost use Rattle.crashdisk.specs.Model.{state_of};

    /// A disk of sectors of this size, a power of two from 512 to 65536 bytes, which doesn't tear: the database holds
    /// these bytes, the log is empty, both are durable, and no stop and no failure is set. TooLong where the bytes are
    /// more than 1,099,511,627,776, otherwise NoMemory alone.
    pub fn new(alloc: Global, sector: usize, db: Vec<u8>) -> Result<ModelDisk, DiskError>
        requires { IsTrue (is_sector_size sector) }
        ensures made { IfOk result (λ d. IsNew sector false db.items (state_of d)) }
        ensures unset { IfOk result (λ d. d.stops ≡ no_stops) }
        ensures error { IfErr result (λ e. number_of e ≡ cond (nat_lt longest (length db.items)) 3 4) }
        ensures fits { OnOk result (length db.items ≤ longest) }
    {
        ModelDisk::with(alloc, sector, false, db.as_slice())
    }

    /// The same, of a disk that tears.
    pub fn tearing(alloc: Global, sector: usize, db: Vec<u8>) -> Result<ModelDisk, DiskError>
        requires { IsTrue (is_sector_size sector) }
        ensures made { IfOk result (λ d. IsNew sector true db.items (state_of d)) }
        ensures unset { IfOk result (λ d. d.stops ≡ no_stops) }
        ensures error { IfErr result (λ e. number_of e ≡ cond (nat_lt longest (length db.items)) 3 4) }
        ensures fits { OnOk result (length db.items ≤ longest) }
    {
        ModelDisk::with(alloc, sector, true, db.as_slice())
    }

    fn with(alloc: Global, sector: usize, tears: bool, db: &[u8]) -> Result<ModelDisk, DiskError>
        requires { IsTrue (is_sector_size sector) }
        ensures made { IfOk result (λ d. IsNew sector tears db.now (state_of d)) }
        ensures unset { IfOk result (λ d. d.stops ≡ no_stops) }
        ensures error { IfErr result (λ e. number_of e ≡ cond (nat_lt longest (length db.now)) 3 4) }
        ensures fits { OnOk result (length db.now ≤ longest) }
    {
        if is_too_long(0, db.len()) {
            return Err(DiskError::TooLong);
        }
        let file = filled(alloc, sector, db)?;
        Ok(ModelDisk {
            alloc,
            sector,
            tears,
            db: file,
            log: empty(alloc),
            refused: 0,
            stops: Stops::new(),
            part: Part::nothing(alloc),
            since: Since::new(alloc),
        })
    }

    /// The next so many calls, other than of `sector` and `tears`, are carried out, and all later ones answer Stopped.
    /// It replaces what was set before, but once a call was stopped the disk stays so.
    pub fn stop_after(&mut self, calls: u64)
        ensures { self.new ≡ record self.old { stops = record self.old.stops { calls = Some calls } } }
    {
        self.stops.calls = Some(calls);
    }

    /// The sync of this number from now, counted over both files, and all later calls answer Stopped; 0 only takes away
    /// what was set before.
    pub fn stop_at_sync(&mut self, syncs: u64)
        ensures { self.new ≡ record self.old { stops = record self.old.stops { syncs = syncs } } }
    {
        self.stops.syncs = syncs;
    }

    /// The call of this number from now, other than of `sector` and `tears`, answers Failed and leaves what the part
    /// says; 0 only takes away what was set before. It is judged after Stopped, TooLong and NoMemory, and counts
    /// whatever those calls answer.
    pub fn fail(&mut self, calls: u64, part: Part)
        ensures { self.new ≡ record self.old { stops = record self.old.stops { fails = calls }; part = part } }
    {
        self.stops.fails = calls;
        self.part = part;
    }

    /// The machine stops and begins again: of each file what the choice names is left, alone. It clears stops and
    /// failures, and takes no memory. How many calls were refused stays.
    pub fn crash(&mut self, choice: &Choice)
        ensures left { IsCrash
            (image_of self.old.sector self.old.tears (state_of self.old).db (naming_of choice.now.db))
            (image_of self.old.sector self.old.tears (state_of self.old).log (naming_of choice.now.log))
            (state_of self.old) (state_of self.new) }
        ensures cleared { self.new.stops ≡ no_stops }
    {
        let since = &mut self.since;
        crash_held(&mut self.db, self.sector, self.tears, &choice.db);
        crash_log(&mut self.log, since, self.sector, self.tears, &choice.log);
        self.stops = Stops::new();
    }

    /// Appends the present bytes of a file; NoMemory alone, and then `out` is as it was. It isn't counted as a call.
    pub fn present(&self, file: File, out: &mut Vec<u8>) -> Result<(), DiskError>
        ensures ok { OnOk result ((bytes : List ℕ) × (out.new.items ≡ out.old.items ++ bytes) × ArePresent (of file
            (state_of self.now)) bytes) }
        ensures err { OnErr result (out.new.items ≡ out.old.items) }
        ensures error { IfErr result (λ e. number_of e ≡ 4) }
    {
        match file {
            File::Db => append_present(self.alloc, &self.db, self.sector, out),
            File::Log => append_present(self.alloc, &self.log, self.sector, out),
        }
    }

    /// Appends what a crash by this choice would leave of a file, without a crash; NoMemory alone, and then `out` is as
    /// it was. It isn't counted as a call.
    pub fn image(&self, file: File, choice: &FileChoice, out: &mut Vec<u8>) -> Result<(), DiskError>
        ensures ok { OnOk result (out.new.items ≡ out.old.items ++ image_of self.now.sector self.now.tears
            (of file (state_of self.now)) (naming_of choice.now)) }
        ensures err { OnErr result (out.new.items ≡ out.old.items) }
        ensures error { IfErr result (λ e. number_of e ≡ 4) }
    {
        match file {
            File::Db => append_image(&self.db, self.sector, self.tears, choice, out),
            File::Log => append_image(&self.log, self.sector, self.tears, choice, out),
        }
    }

    /// How many values sector k of a file has, counted from 0. It isn't counted as a call.
    pub fn values(&self, file: File, k: usize) -> usize
        ensures { result ≡ value_count (of file (state_of self.now)) k }
    {
        match file {
            File::Db => count_values(&self.db.sectors, self.sector, k),
            File::Log => count_values(&self.log.sectors, self.sector, k),
        }
    }

    /// The least and the greatest length in bytes that a crash may leave of a file. It isn't counted as a call.
    pub fn lengths(&self, file: File) -> (u64, u64)
        ensures least { result.0 ≡ (of file (state_of self.now)).least }
        ensures greatest { result.1 ≡ (of file (state_of self.now)).greatest }
    {
        match file {
            File::Db => (self.db.least as u64, self.db.greatest as u64),
            File::Log => (self.log.least as u64, self.log.greatest as u64),
        }
    }

    /// The present length of a file in bytes. It isn't counted as a call.
    pub fn present_len(&self, file: File) -> u64
        ensures { result ≡ (of file (state_of self.now)).len }
    {
        let held = match file {
            File::Db => &self.db,
            File::Log => &self.log,
        };
        held.len as u64
    }

    /// Ends the database at a length, where it is longer, at once and in each of its values: nothing says any more what
    /// stood behind that. It takes no memory, and isn't counted as a call.
    pub fn end_db(&mut self, end: u64)
        ensures { EndsDb end (state_of self.old) (state_of self.new) }
    {
        end_held(&mut self.db, self.sector, end);
    }

    /// A disk of its own that lists the same, and of which the same is set; NoMemory alone. It isn't counted as a call.
    pub fn copy(&self) -> Result<ModelDisk, DiskError>
        ensures same { IfOk result (λ d. state_of d ≡ state_of self.now) }
        ensures error { IfErr result (λ e. number_of e ≡ 4) }
    {
        match self.copy_all() {
            Ok(disk) => Ok(disk),
            Err(_) => Err(DiskError::NoMemory),
        }
    }

    fn copy_all(&self) -> Result<ModelDisk, AllocError>
        ensures { IfOk result (λ d. state_of d ≡ state_of self.now) }
    {
        let db = self.db.copy(self.alloc)?;
        let log = self.log.copy(self.alloc)?;
        let part = self.part.copy(self.alloc)?;
        let since = self.since.copy(self.alloc)?;
        Ok(ModelDisk {
            alloc: self.alloc,
            sector: self.sector,
            tears: self.tears,
            db,
            log,
            refused: self.refused,
            stops: self.stops,
            part,
            since,
        })
    }

    /// The choice of this number, counted from 0, and None from the count of choices on; NoMemory alone. The digits of
    /// the number are, the first one changing fastest: for the database and then for the log, of each sector from 0 to
    /// the one with the last byte of the greatest length the number of its value, the oldest first, and then the
    /// length: the least, each multiple of the sector size strictly between, the greatest. It isn't counted as a call.
    pub fn choice(&self, n: u64) -> Result<Option<Choice>, DiskError>
        ensures found { IfOk result (λ found. IsSome found ↔ n < choice_count self.now.sector (state_of self.now).db
            * choice_count self.now.sector (state_of self.now).log) }
        ensures named { IfOk result (λ found. IfSome found (λ choice. IsChoice self.now.sector (state_of self.now).db
            (state_of self.now).log n (naming_of choice.db) (naming_of choice.log))) }
        ensures db { IfOk result (λ found. IfSome found (λ choice. HasDigits self.now.sector (state_of self.now).db n
            (image_of self.now.sector self.now.tears (state_of self.now).db (naming_of choice.db)))) }
        ensures log { IfOk result (λ found. IfSome found (λ choice. HasDigits self.now.sector (state_of self.now).log
            (n / choice_count self.now.sector (state_of self.now).db)
            (image_of self.now.sector self.now.tears (state_of self.now).log (naming_of choice.log)))) }
        ensures error { IfErr result (λ e. number_of e ≡ 4) }
    {
        let mut rest = n;
        let db = next_choice(self.alloc, &self.db, self.sector, &mut rest)?;
        let log = next_choice(self.alloc, &self.log, self.sector, &mut rest)?;
        if rest > 0 {
            return Ok(None);
        }
        Ok(Some(Choice { db, log }))
    }

    /// The choice of this number, counted as `choice` counts them; from the count of choices on they come again in the
    /// same order. Each value of each sector, with each of the lengths that are counted, is of some number below the
    /// count; sectors that are torn, and lengths in between, are of none. AllocError where it finds no memory. It isn't
    /// counted as a call.
    pub fn choice_at(&self, alloc: Global, n: u64) -> Result<Choice, AllocError>
        ensures named { IfOk result (λ choice. IsChoice self.now.sector (state_of self.now).db (state_of self.now).log n
            (naming_of choice.db) (naming_of choice.log)) }
        ensures db { IfOk result (λ choice. HasDigits self.now.sector (state_of self.now).db n
            (image_of self.now.sector self.now.tears (state_of self.now).db (naming_of choice.db))) }
        ensures log { IfOk result (λ choice. HasDigits self.now.sector (state_of self.now).log
            (n / choice_count self.now.sector (state_of self.now).db)
            (image_of self.now.sector self.now.tears (state_of self.now).log (naming_of choice.log))) }
        ensures each { EachIsCounted self.now.sector (state_of self.now).db (state_of self.now).log }
    {
        let mut digits = n;
        let db = file_choice(alloc, &self.db, self.sector, &mut digits)?;
        let log = file_choice(alloc, &self.log, self.sector, &mut digits)?;
        Ok(Choice { db, log })
    }

    /// Of a disk that tears, the bytes of the log when it last had nothing unsynced, and the place and bytes of each
    /// write into it since then that was made, or failed. Both are empty on a disk that doesn't tear. It isn't counted
    /// as a call.
    pub fn since(&self) -> (&[u8], &[(u64, Vec<u8>)])
        ensures kept { result.0.now ≡ (state_of self.now).kept }
        ensures handed { map (λ entry. (entry.0, entry.1.items)) result.1.now ≡ (state_of self.now).handed }
    {
        (self.since.kept(), self.since.handed())
    }

    /// How many calls were refused by Stopped, Failed or NoMemory; it stays at its greatest. It isn't counted as a
    /// call.
    pub fn refused(&self) -> u64
        ensures { result ≡ (state_of self.now).refused }
    {
        self.refused
    }
}

impl Disk for ModelDisk {
    ghost use Rattle.std.specs.Prelude.{◌≡◌, ◌↔◌, ◌+◌, length, max, slice_index, OnOk, IfOk, EachIndex};
    ghost use Rattle.crashdisk.specs.State.{byte, written, WriteTouches, cut_to, CutTouches};
    ghost use Rattle.crashdisk.specs.Call.{of, Writes, Cuts, Syncs, Looks};
    ghost use Rattle.crashdisk.specs.Model.{state_of, IsCounted, IsSyncCounted, PickedBy, TurnedBy};
    ghost use Rattle.crashdisk.specs.internal.SoundModel.{sound_disk};

    ghost state = { state_of };

    ghost keeps_word = { λ _. Unit {0} };

    ghost sound = { λ disk word. sound_disk (state_of disk) disk.is_size disk.db_solid
        disk.log_solid disk.counted disk.untorn };

    fn sector(&self) -> usize {
        self.sector
    }

    fn tears(&self) -> bool {
        self.tears
    }

    /// It takes no memory.
    fn len(&mut self, file: File) -> Result<u64, DiskError>
        ensures word { Unit {0} ↔ Unit {0} }
        ensures answer { Unit {0} → IfOk result (λ n. n ≡ (of file (state_of self.old)).len) }
        ensures state { Unit {0} → Looks 0 result (state_of self.old) (state_of self.new) }
        ensures counted { IsCounted false result self.old self.new }
    {
        let fails = self.stops.fails();
        if self.stops.call() {
            refuse(&mut self.refused);
            return Err(DiskError::Stopped);
        }
        if fails {
            refuse(&mut self.refused);
            return Err(DiskError::Failed);
        }
        Ok(match file {
            File::Db => self.db.len as u64,
            File::Log => self.log.len as u64,
        })
    }

    /// It takes no memory.
    fn read_at(&mut self, file: File, at: u64, out: &mut [u8]) -> Result<(), DiskError>
        ensures word { Unit {0} ↔ Unit {0} }
        ensures bytes { Unit {0} → OnOk result
            (EachIndex out.new (λ i. slice_index out.new i ≡ byte (of file (state_of self.old)) (at + i))) }
        ensures state { Unit {0} → Looks (at + length out.old) result (state_of self.old) (state_of self.new) }
        ensures counted { IsCounted false result self.old self.new }
    {
        let fails = self.stops.fails();
        if self.stops.call() {
            refuse(&mut self.refused);
            return Err(DiskError::Stopped);
        }
        if is_too_long(at, out.len()) {
            return Err(DiskError::TooLong);
        }
        if fails {
            refuse(&mut self.refused);
            return Err(DiskError::Failed);
        }
        match file {
            File::Db => self.db.read(self.sector, at as usize, out),
            File::Log => self.log.read(self.sector, at as usize, out),
        }
        Ok(())
    }

    /// Where it is the call to fail, it leaves what was set for that.
    fn write_at(&mut self, file: File, at: u64, bytes: &[u8]) -> Result<(), DiskError>
        ensures word { Unit {0} ↔ Unit {0} }
        ensures state { Unit {0} → Writes file at bytes.now result (state_of self.old) (state_of self.new) }
        ensures counted { IsCounted true result self.old self.new }
        ensures picked { PickedBy self.old.sector
            (WriteTouches self.old.sector (of file (state_of self.old)) at bytes.now)
            (written (of file (state_of self.old)) at bytes.now)
            (max (of file (state_of self.old)).len (at + length bytes.now)) self.old.part result
            (of file (state_of self.old)) (of file (state_of self.new)) }
    {
        let fails = self.stops.fails();
        if self.stops.call() {
            refuse(&mut self.refused);
            return Err(DiskError::Stopped);
        }
        if is_too_long(at, bytes.len()) {
            return Err(DiskError::TooLong);
        }
        let manner = Manner {
            alloc: self.alloc,
            sector: self.sector,
            tears: self.tears,
            fails,
            part: &self.part,
        };
        match file {
            File::Db => write_held(&mut self.db, &mut self.refused, &manner, at, bytes),
            File::Log => {
                let since = &mut self.since;
                write_log(&mut self.log, since, &mut self.refused, &manner, at, bytes)
            }
        }
    }

    /// Where it is the call to fail, it leaves what was set for that.
    fn set_len(&mut self, file: File, end: u64) -> Result<(), DiskError>
        ensures word { Unit {0} ↔ Unit {0} }
        ensures state { Unit {0} → Cuts file end result (state_of self.old) (state_of self.new) }
        ensures counted { IsCounted true result self.old self.new }
        ensures picked { PickedBy self.old.sector (CutTouches self.old.sector (of file (state_of self.old)) end)
            (cut_to (of file (state_of self.old)) end) end self.old.part result (of file (state_of self.old))
            (of file (state_of self.new)) }
    {
        let fails = self.stops.fails();
        if self.stops.call() {
            refuse(&mut self.refused);
            return Err(DiskError::Stopped);
        }
        if end > LIMIT {
            return Err(DiskError::TooLong);
        }
        let manner = Manner {
            alloc: self.alloc,
            sector: self.sector,
            tears: self.tears,
            fails,
            part: &self.part,
        };
        match file {
            File::Db => cut_held(&mut self.db, &mut self.refused, &manner, end),
            File::Log => {
                let since = &mut self.since;
                cut_log(&mut self.log, since, &mut self.refused, &manner, end)
            }
        }
    }

    /// It takes no memory. Where it is the call to fail, it leaves what was set for that.
    fn sync(&mut self, file: File) -> Result<(), DiskError>
        ensures word { Unit {0} ↔ Unit {0} }
        ensures state { Unit {0} → Syncs file result (state_of self.old) (state_of self.new) }
        ensures counted { IsSyncCounted result self.old self.new }
        ensures turned { TurnedBy self.old.sector self.old.part result (of file (state_of self.old))
            (of file (state_of self.new)) }
    {
        let fails = self.stops.fails();
        if self.stops.sync() {
            refuse(&mut self.refused);
            return Err(DiskError::Stopped);
        }
        if fails {
            refuse(&mut self.refused);
            let pick = self.part.pick.as_slice();
            match file {
                File::Db => turn_held(&mut self.db, self.sector, pick),
                File::Log => turn_held(&mut self.log, self.sector, pick),
            }
            return Err(DiskError::Failed);
        }
        match file {
            File::Db => sync_held(&mut self.db, self.sector),
            File::Log => sync_log(&mut self.log, &mut self.since, self.sector, self.tears),
        }
        Ok(())
    }
}
