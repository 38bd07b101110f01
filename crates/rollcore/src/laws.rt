//! What holds of every run of the machine, and of what a disk shows.
ghost use Rattle.std.specs.Prelude.{◌≡◌, ◌<◌, ◌≤◌, ℕ, Bool, List, length, true, false, IsTrue, Result, Ok, []};
ghost use Rattle.sqval.specs.Database.{Database};
ghost use Rattle.sqval.specs.Answers.{Files, Answer};
ghost use Rattle.sqval.specs.PageSize.{IsPageSize};
ghost use Rattle.sqval.specs.Held.{IsJust, IsHeld};
ghost use Rattle.crashdisk.specs.State.{IsSectorSize, IsSettled};
ghost use Rattle.crashdisk.specs.Call.{DiskState, IsSoundDisk, IsNew, Syncs, Looks, IsCrash};
ghost use Rattle.crashdisk.specs.declared.file.File.{File};
ghost use Rattle.crashdisk.specs.declared.file.File.TheVariants.{Log};
ghost use Rattle.crashdisk.specs.declared.error.DiskError.{DiskError};
ghost use Rattle.crashdisk.specs.Keeps.{SameFiles, Suits, IsLogDurable};
ghost use Rattle.rollcore.specs.Alone.{AreWhole, journal_log};
ghost use Rattle.rollcore.specs.Fits.{FitsDisk, FitsCore};
ghost use Rattle.rollcore.specs.Replaying.{TearsJournal};
ghost use Rattle.rollcore.specs.Laws.{IsSane, Keeps, is_opening, expected, takes_memory, needs_disk};
ghost use Rattle.sqval.specs.Runs.{Moment, Runs};
ghost use Rattle.rollcore.specs.Machine.{State, Act, Reads, Step, start, closed};
ghost use Rattle.rollcore.specs.declared.state.Core.{Core};
ghost use Rattle.recovery.specs.Logs.{ShowsAlone, ShowsWhole};
ghost use Rattle.recovery.specs.Moments.{IsExpected};
ghost use Rattle.recovery.specs.Histories.{at, last};

/// A disk with a base of pages that no sector that tears exceeds, and with an empty log, fits where the machine begins:
/// one that is new, and one on which both files are durable, whatever calls of it there were (own).
pub fn a_base_fits()
    ensures new { (size sector : ℕ) (torn : Bool) (base : Database) (bytes : List ℕ) (s : DiskState)
        → IsPageSize size → IsSectorSize sector → (torn ≡ true → sector ≤ size) → IsHeld size base
        → IsJust size base bytes → IsNew sector torn bytes s → FitsDisk (start size base) s }
    ensures durable { (size : ℕ) (base : Database) (bytes : List ℕ) (s : DiskState) → Suits size s → IsHeld size base
        → IsJust size base bytes → IsSettled s.db bytes → IsLogDurable s [] → FitsDisk (start size base) s }
{}

/// Two files that are durable fit where the machine begins with the database that they show together: a hot journal
/// that is rolled back, or one that isn't hot beside a file of whole pages. On a disk that tears a hot one names no
/// smaller pages and no smaller sectors (own).
pub fn settled_files_fit()
    ensures { (size : ℕ) (base : Database) (files : Files) (s : DiskState) → Suits size s → IsHeld size base
        → IsSettled s.db files.db → IsLogDurable s files.log → (TearsJournal s files.log → ⊥)
        → ShowsWhole journal_log size files.db files.log base → FitsDisk (start size base) s }
{}

/// In every run the floor is a place of the history (own).
pub fn runs_are_sane()
    ensures { (page_size : ℕ) (base : Database) (moments : List (Moment Act)) (new : State) (after : ℕ)
        → Runs Step (start page_size base) 0 moments new after → IsSane new }
{}

/// What is known to be durable stays, through crashes and openings: the floor never falls, and the databases up to it
/// stand (own).
pub fn what_is_durable_stays()
    ensures { (page_size : ℕ) (base : Database) (before later : List (Moment Act)) (old new : State) (count after : ℕ)
        → Runs Step (start page_size base) 0 before old count → Runs Step old count later new after → Keeps old new }
{}

/// What fits an engine, or a disk that none holds, fits it after calls that changed no byte of the disk, and whatever
/// was set of it, as a borrower of it may do (own).
pub fn a_look_fits()
    ensures core { (past : State) (core : Core) (old new : DiskState) → SameFiles old new → FitsCore past core old
        → FitsCore past core new }
    ensures alone { (past : State) (old new : DiskState) → SameFiles old new → FitsDisk past old → FitsDisk past new }
{}

/// What fits a disk fits it after a crash, as the machine is then: on a disk that tears, after one that puts no header
/// of the journal together (own).
pub fn a_crash_fits()
    ensures { (past : State) (db log : List ℕ) (old new : DiskState) → IsCrash db log old new
        → (old.tears ≡ true → AreWhole old.kept old.handed log) → FitsDisk past old → FitsDisk (closed past) new }
{}

/// What fits a disk shows, once the journal is synced, one database of the history alone, at the floor or later, and
/// the newest where the machine is open: so what is said of interrupted recovery holds of each opening of a run.
pub fn one_is_shown()
    ensures { (past : State) (old mid : DiskState) → FitsDisk past old → Syncs {T = Unit {0}} Log (Ok tt) old mid
        → (k : ℕ) × (past.floor ≤ k) × (k < length past.history) × (IsTrue past.is_open → k ≡ last past.history)
        × ShowsAlone journal_log past.page_size (at past.history k) mid }
{}

/// What a disk shows alone stays shown: after a sync of either file, also one that is refused or fails; after a look;
/// after calls that changed no byte, and whatever was set; and after a crash, on a disk that tears one that puts no
/// header of the journal together.
pub fn what_is_shown_stays()
    ensures sync { (size : ℕ) (d : Database) (f : File) (called : Result (Unit {0}) DiskError) (old new : DiskState)
        → IsSoundDisk old → ShowsAlone journal_log size d old → Syncs f called old new
        → ShowsAlone journal_log size d new }
    ensures length { (size : ℕ) (d : Database) (called : Result ℕ DiskError) (old new : DiskState) → IsSoundDisk old
        → ShowsAlone journal_log size d old → Looks 0 called old new → ShowsAlone journal_log size d new }
    ensures read { (size : ℕ) (d : Database) (end : ℕ) (called : Result (Unit {0}) DiskError) (old new : DiskState)
        → IsSoundDisk old → ShowsAlone journal_log size d old → Looks end called old new
        → ShowsAlone journal_log size d new }
    ensures same { (size : ℕ) (d : Database) (old new : DiskState) → IsSoundDisk old → ShowsAlone journal_log size d old
        → SameFiles old new → ShowsAlone journal_log size d new }
    ensures crash { (size : ℕ) (d : Database) (db log : List ℕ) (old new : DiskState) → IsSoundDisk old
        → ShowsAlone journal_log size d old → IsCrash db log old new
        → (old.tears ≡ true → AreWhole old.kept old.handed log)
        → ShowsAlone journal_log size d new }
{}

/// The machine chooses nothing but the database that an opening shows. It answers what is expected; in place of an
/// answer that is no refusal, want of memory (an opening and a commit alone), or a refused call of the disk that has a
/// cause (each call of the engine). A read changes nothing (own).
pub fn one_step()
    ensures next { (old : State) (act : Act) (answer : Answer) (b a c d : ℕ) (new other : State)
        → is_opening act ≡ false → Step old act answer b a new → Step old act answer c d other → new ≡ other }
    ensures answer { (old : State) (act : Act) (answer : Answer) (b a : ℕ) (new : State)
        → Step old act answer b a new → IsExpected (expected old act) (takes_memory act) (needs_disk act) answer b a }
    ensures read { (old : State) (number : ℕ) (answer : Answer) (b a : ℕ) (new : State)
        → Step old (Reads number) answer b a new → new ≡ old }
{}
