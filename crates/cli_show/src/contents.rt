//! The files of a database.
ghost use Rattle.std.specs.Prelude.{◌≡◌, IfOk, IfErr};
ghost use Rattle.cli_facts.specs.declared.outcome.Refusal.TheVariants.{NoMemory};
ghost use Rattle.cli_show.specs.Contents.{AreUnread};

use cli_facts::Refusal;
use sqview::{FileBytes, ReadAhead};
use std::alloc::Global;

/// A database file and its logs, of which each may be missing.
#[derive(Drop)]
pub struct Contents<F> {
    pub db: F,
    pub wal: F,
    pub journal: F,
}

/// Files of which up to so many bytes of the database are read at once, and kept. Refused by `NoMemory`.
pub fn read_ahead<F: FileBytes + Drop>(
    alloc: Global,
    files: Contents<F>,
    most: usize,
) -> Result<Contents<ReadAhead<F>>, Refusal>
    ensures unread { IfOk result (AreUnread files most) }
    ensures memory { IfErr result (λ refusal. refusal ≡ NoMemory) }
{
    let Contents { db, wal, journal } = files;
    let db = ReadAhead::new(alloc, db, most);
    let wal = ReadAhead::new(alloc, wal, 0);
    let journal = ReadAhead::new(alloc, journal, 0);
    match (db, wal, journal) {
        (Ok(db), Ok(wal), Ok(journal)) => Ok(Contents { db, wal, journal }),
        _ => Err(Refusal::NoMemory),
    }
}
