//! A disk whose files are changed only where a guard lets them.
ghost use Rattle.std.specs.Prelude.{◌≡◌, IsOk, IsSome, IsTrue, None, OnErr, OnOk, false};
ghost use Rattle.crashdisk.specs.declared.file.File.TheVariants.{Db, Log};

use cli_facts::{Guard, Notes, Refusal};
use cli_files::{Count, OpenElsewhere};
use crashdisk::{Disk, DiskError, File};
use filedisk::FileDisk;
use std::fs::OpenFile;
use std::io::Write;
use std::os::unix::fs::FileExt;
use std::rt::Files;

/// A guard of which it may be known that it lets each change be.
pub(crate) trait Gate: Guard {
    /// It refuses none.
    ghost lets_change: { Self → Type 0 };

    /// Asks it.
    fn asked(&self) -> Result<(), Refusal>
        ensures { lets_change self.now → IsOk result };
}

impl<R: Files, M: Count> Gate for OpenElsewhere<'_, R, M> {
    ghost use Rattle.std.specs.Prelude.{◌≡◌, true};

    ghost lets_change = { λ guard. guard.forced ≡ true };

    fn asked(&self) -> Result<(), Refusal> {
        if self.forced {
            return Ok(());
        }
        self.ask()
    }
}

/// A disk over a database file and a log that were opened to be read and written.
pub trait Over<F>: Disk + Drop {
    /// It is over this database file and this log.
    ghost is_over: { Self → F → F → Type 0 };

    /// A disk of which no call failed yet.
    fn over(db: F, log: F) -> Self
        ensures { is_over result db log };

    /// Says which call the system refused last, if it did, of files with these paths.
    fn tell<E: Write>(&self, db: &str, log: &str, notes: &mut Notes<'_, E>);
}

impl<F: FileExt + OpenFile + Drop> Over<F> for FileDisk<F> {
    ghost use Rattle.std.specs.Prelude.{◌≡◌};

    ghost is_over = { λ disk db log. (disk.db ≡ db) × (disk.log ≡ log) };

    fn over(db: F, log: F) -> FileDisk<F> {
        FileDisk::new(db, log)
    }

    fn tell<E: Write>(&self, db: &str, log: &str, notes: &mut Notes<'_, E>) {
        if let Some((file, error)) = self.failure() {
            let path = match file {
                File::Db => db,
                File::Log => log,
            };
            notes.blame(path, error);
        }
    }
}

/// A disk. Before the first change of each of its files the guard is asked, and where it refuses, the change is
/// `Failed`. It keeps its word as the disk does, where the guard lets each change be.
#[derive(Drop)]
pub(crate) struct GuardedDisk<D: Disk + Drop, G: Gate> {
    disk: D,
    guard: G,
    changes_db: bool,
    changes_log: bool,
    refusal: Option<Refusal>,
}

impl<D: Disk + Drop, G: Gate> GuardedDisk<D, G> {
    /// A disk of which nothing was refused or changed yet.
    pub fn new(disk: D, guard: G) -> GuardedDisk<D, G>
        ensures disk { result.disk ≡ disk }
        ensures guard { result.guard ≡ guard }
        ensures unrefused { result.refusal ≡ None }
        ensures unchanged { (result.changes_db ≡ false) × (result.changes_log ≡ false) }
    {
        GuardedDisk {
            disk,
            guard,
            changes_db: false,
            changes_log: false,
            refusal: None,
        }
    }

    /// Why the guard refused a change, if it did.
    pub fn refusal(&self) -> Option<Refusal>
        ensures { result ≡ self.now.refusal }
    {
        self.refusal
    }

    /// Asks the guard before the first change of a file. For want of memory nothing is refused once the database was
    /// changed.
    fn may_change(&mut self, file: File) -> Result<(), DiskError>
        ensures db { OnOk result (file ≡ Db → IsTrue self.new.changes_db) }
        ensures log { OnOk result (file ≡ Log → IsTrue self.new.changes_log) }
        ensures told { OnErr result (IsSome self.new.refusal) }
        ensures passed { G.lets_change self.old.guard → IsOk result }
        ensures same { (self.new.disk ≡ self.old.disk) × (self.new.guard ≡ self.old.guard) }
    {
        let changes = match file {
            File::Db => self.changes_db,
            File::Log => self.changes_log,
        };
        if changes {
            return Ok(());
        }
        match self.guard.asked() {
            Ok(()) => {}
            Err(Refusal::NoMemory) if self.changes_db => {}
            Err(refusal) => {
                self.refusal = Some(refusal);
                return Err(DiskError::Failed);
            }
        }
        match file {
            File::Db => self.changes_db = true,
            File::Log => self.changes_log = true,
        }
        Ok(())
    }
}

impl<D: Disk + Drop, G: Gate> GuardedDisk<D, G> {
    /// Says which call the system refused last, if it did, of files with these paths.
    pub fn tell<F, E: Write>(&self, db: &str, log: &str, notes: &mut Notes<'_, E>)
    where
        D: Over<F>,
    {
        self.disk.tell(db, log, notes);
    }
}

impl<D: Disk + Drop, G: Gate> Disk for GuardedDisk<D, G> {
    ghost state = { λ guarded. D.state guarded.disk };

    ghost keeps_word = { λ guarded. D.keeps_word guarded.disk × G.lets_change guarded.guard };

    ghost sound = { λ guarded word. D.sound guarded.disk word.0 };

    fn sector(&self) -> usize {
        self.disk.sector()
    }

    fn tears(&self) -> bool {
        self.disk.tears()
    }

    fn len(&mut self, file: File) -> Result<u64, DiskError> {
        self.disk.len(file)
    }

    fn read_at(&mut self, file: File, at: u64, out: &mut [u8]) -> Result<(), DiskError> {
        let answer = self.disk.read_at(file, at, out);
        self.guard.has_read(out.len() as u64);
        answer
    }

    fn write_at(&mut self, file: File, at: u64, bytes: &[u8]) -> Result<(), DiskError> {
        self.may_change(file)?;
        self.disk.write_at(file, at, bytes)
    }

    fn set_len(&mut self, file: File, end: u64) -> Result<(), DiskError> {
        self.may_change(file)?;
        self.disk.set_len(file, end)
    }

    fn sync(&mut self, file: File) -> Result<(), DiskError> {
        self.disk.sync(file)
    }
}
