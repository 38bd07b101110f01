//! What holds of every run of the machine.
ghost use Rattle.std.specs.Prelude.{◌≡◌, ◌<◌, ◌≤◌, ℕ, Bool, List, [], length, Result, Ok, true, false, IsTrue};
ghost use Rattle.sqval.specs.Database.{Database};
ghost use Rattle.sqval.specs.Answers.{Answer, Files};
ghost use Rattle.sqval.specs.PageSize.{IsPageSize};
ghost use Rattle.sqval.specs.Held.{IsJust, IsHeld};
ghost use Rattle.sqval.specs.Runs.{Moment, Runs};
ghost use Rattle.crashdisk.specs.State.{IsSectorSize, IsSettled};
ghost use Rattle.crashdisk.specs.Call.{DiskState, IsSoundDisk, Syncs, Looks, IsCrash, IsNew};
ghost use Rattle.crashdisk.specs.declared.file.File.{File};
ghost use Rattle.crashdisk.specs.declared.file.File.TheVariants.{Log};
ghost use Rattle.crashdisk.specs.declared.error.DiskError.{DiskError};
ghost use Rattle.crashdisk.specs.Keeps.{SameFiles, IsLogDurable, Suits};
ghost use Rattle.walcore.specs.Alone.{AreWhole, wal_log};
ghost use Rattle.walcore.specs.Fits.{Past, FitsDisk, FitsAlone, FitsCore, none_open};
ghost use Rattle.walcore.specs.Fits.{beginning, beginning_beside};
ghost use Rattle.walcore.specs.Laws.{IsSane, Keeps, KeepsShown, is_opening, expected, takes_memory, needs_disk};
ghost use Rattle.walcore.specs.Machine.{State, Act, Reads, Step, gone, start};
ghost use Rattle.walcore.specs.Made.{AreMade, NoChance};
ghost use Rattle.walcore.specs.Opening.{MayOpen};
ghost use Rattle.walcore.specs.Plans.{IsFit};
ghost use Rattle.walcore.specs.declared.state.Core.{Core};
ghost use Rattle.recovery.specs.Files.{AreFiles};
ghost use Rattle.recovery.specs.Logs.{ShowsAlone, ShowsWhole};
ghost use Rattle.recovery.specs.Moments.{IsExpected};
ghost use Rattle.recovery.specs.Histories.{at, last};

/// A disk with a base in its file and an empty log, both durable, fits where a world begins, whatever was called of it
/// before; so does one that is new.
pub fn a_base_fits()
    ensures durable { (size : ℕ) (base : Database) (bytes : List ℕ) (s : DiskState) → Suits size s → IsHeld size base
        → IsJust size base bytes → IsSettled s.db bytes → IsLogDurable s [] → FitsAlone (beginning size base) s }
    // no sector that tears exceeds a page
    ensures new { (size sector : ℕ) (torn : Bool) (base : Database) (bytes : List ℕ) (s : DiskState)
        → IsPageSize size → IsSectorSize sector → (torn ≡ true → sector ≤ size) → IsHeld size base
        → IsJust size base bytes → IsNew sector torn bytes s → FitsAlone (beginning size base) s }
{}

/// Two files that are durable fit where a world begins with the database that they show together, whatever the log
/// holds (own). Files that an opening may take show one, and what their log holds may count as made, so that an opening
/// finds nothing that passes by chance.
pub fn settled_files_fit()
    ensures fits { (size : ℕ) (base : Database) (logs : List (List ℕ)) (files : Files) (s : DiskState) → Suits size s
        → IsHeld size base → AreMade size logs → IsSettled s.db files.db → IsLogDurable s files.log
        → ShowsWhole wal_log size files.db files.log base → FitsAlone (beginning_beside size base logs) s }
    ensures shown { (size : ℕ) (files : Files) (s : DiskState) → IsPageSize size → MayOpen size files s
        → (base : Database) × IsHeld size base × ShowsWhole wal_log size files.db files.log base }
    ensures made { (size : ℕ) (log : List ℕ) → IsFit size log
        → (logs : List (List ℕ)) × AreMade size logs × NoChance logs log }
{}

/// What fits an engine, or a disk that no engine holds, fits it after calls that changed no byte of the disk, and
/// whatever was set of it, as a borrower of it may do (own).
pub fn a_look_fits()
    ensures alone { (past : Past) (old new : DiskState) → SameFiles old new → FitsAlone past old → FitsAlone past new }
    ensures core { (past : Past) (core : Core) (old new : DiskState) → SameFiles old new → FitsCore past core old
        → FitsCore past core new }
{}

/// What fits a disk that no engine holds fits it after a crash, once every reader is forgotten; where the disk tears,
/// if no valid header or frame is put together by chance (own).
pub fn a_crash_fits()
    ensures { (past : Past) (db log : List ℕ) (old new : DiskState) → FitsAlone past old → IsCrash db log old new
        → (old.tears ≡ true → AreWhole old.kept old.handed log)
        → FitsAlone (record { state = gone past.state; made = past.made; tokens = none_open past.tokens }) new }
{}

/// What fits a disk shows, once the log is synced, one database of the history alone, at the floor or later, and the
/// newest where the machine is open: so what is said of interrupted recovery holds of each opening of a run.
pub fn one_is_shown()
    ensures { (past : Past) (files : Files) (old mid : DiskState) → FitsDisk past old → AreFiles old files
        → NoChance past.made.logs files.log → Syncs {T = Unit {0}} Log (Ok tt) old mid → (k : ℕ)
        × (past.state.floor ≤ k) × (k < length past.state.history)
        × (IsTrue past.state.is_open → k ≡ last past.state.history)
        × ShowsAlone wal_log past.state.page_size (at past.state.history k) mid }
{}

/// The one database that a disk shows alone stays shown: after a look, after a sync of either file, done or refused,
/// after calls that changed no byte and whatever was set, and after a crash, where a disk that tears puts no valid
/// header or frame together by chance.
pub fn what_is_shown_stays()
    ensures len { (end : ℕ) (result : Result ℕ DiskError) (old new : DiskState) → Looks end result old new
        → KeepsShown old new }
    ensures read { (end : ℕ) (result : Result (Unit {0}) DiskError) (old new : DiskState) → Looks end result old new
        → KeepsShown old new }
    ensures sync { (file : File) (result : Result (Unit {0}) DiskError) (old new : DiskState)
        → IsSoundDisk old → Syncs file result old new → KeepsShown old new }
    ensures same { (old new : DiskState) → IsSoundDisk old → SameFiles old new → KeepsShown old new }
    ensures crash { (db log : List ℕ) (old new : DiskState) → IsSoundDisk old → IsCrash db log old new
        → (old.tears ≡ true → AreWhole old.kept old.handed log) → KeepsShown old new }
{}

/// In every run the floor is a place of the history, at most 1,048,576 pages are in the log, and a drained log has
/// no reader of anything but the newest database (own).
pub fn runs_are_sane()
    ensures { (page_size : ℕ) (base : Database) (moments : List (Moment Act)) (new : State) (after : ℕ)
        → Runs Step (start page_size base) 0 moments new after → IsSane new }
{}

/// What is known to be durable stays, through crashes and openings: the floor never falls, and the databases up to it
/// stand (own).
pub fn what_is_durable_stays()
    ensures { (page_size : ℕ) (base : Database) (before later : List (Moment Act)) (old new : State) (count after : ℕ)
        → Runs Step (start page_size base) 0 before old count → Runs Step old count later new after → Keeps old new }
{}

/// The machine chooses nothing but the database that an opening shows. It answers what is expected; in place of an
/// answer that is no refusal, want of memory (an opening, a commit and a begin alone), or a refused call of the disk
/// that has a cause (every call of the engine but the end of a reader). A read changes nothing (own).
pub fn one_step()
    ensures next { (old : State) (act : Act) (answer : Answer) (b a c d : ℕ) (new other : State)
        → is_opening act ≡ false → Step old act answer b a new → Step old act answer c d other → new ≡ other }
    ensures answer { (old : State) (act : Act) (answer : Answer) (b a : ℕ) (new : State)
        → Step old act answer b a new → IsExpected (expected old act) (takes_memory act) (needs_disk act) answer b a }
    ensures read { (old : State) (reader number : ℕ) (answer : Answer) (b a : ℕ) (new : State)
        → Step old (Reads reader number) answer b a new → new ≡ old }
{}
