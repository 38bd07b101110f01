//! Commits, each of which is marked once its engine says that it is durable.
ghost use Rattle.std.specs.Prelude.{IfErr};
ghost use Rattle.rig_commit.specs.Failures.{IsOfRoll, IsOfWal};

use crate::failure::Failure;
use crate::pages::{lent, page_size, pages_of};
use crashdisk::Disk;
use rollcore::Roll;
use std::alloc::Global;
use std::io::Write;
use walcore::Wal;

/// A commit: it writes these pages, after which the database has so many.
struct Commit {
    first: u32,
    last: u32,
    size: u32,
}

/// What is committed, one after the other: pages are written over, added and cut off.
const COMMITS: [Commit; 10] = [
    Commit {
        first: 1,
        last: 4,
        size: 4,
    },
    Commit {
        first: 2,
        last: 2,
        size: 4,
    },
    Commit {
        first: 1,
        last: 7,
        size: 7,
    },
    Commit {
        first: 6,
        last: 7,
        size: 7,
    },
    Commit {
        first: 1,
        last: 2,
        size: 3,
    },
    Commit {
        first: 3,
        last: 6,
        size: 6,
    },
    Commit {
        first: 1,
        last: 1,
        size: 6,
    },
    Commit {
        first: 2,
        last: 6,
        size: 6,
    },
    Commit {
        first: 1,
        last: 1,
        size: 2,
    },
    Commit {
        first: 2,
        last: 5,
        size: 5,
    },
];

/// Commits by the engine over a write-ahead log. Each second commit is synced and marked; after every third the log is
/// checkpointed, and begun anew.
fn commit_wal<D: Disk, M: Write>(
    alloc: Global,
    wal: &mut Wal<D>,
    marks: &mut M,
) -> Result<(), Failure>
    ensures { IfErr result IsOfWal }
{
    let mut number: u8 = 0;
    for commit in &COMMITS {
        number = number.wrapping_add(1);
        let pages = pages_of(alloc, commit.first, commit.last, number)?;
        let pages = lent(alloc, &pages)?;
        wal.commit(&pages, commit.size)?;
        if number % 2 == 0 {
            wal.sync()?;
            marks.write_all(b"commit\n")?;
        }
        if number % 3 == 0 {
            wal.checkpoint()?;
            marks.write_all(b"checkpoint\n")?;
            wal.restart(u32::from(number))?;
        }
    }
    wal.sync()?;
    marks.write_all(b"closed\n")?;
    Ok(())
}

/// Opens a database file with its write-ahead log, and commits.
pub fn run_wal<D: Disk + Drop, M: Write>(
    alloc: Global,
    disk: D,
    marks: &mut M,
) -> Result<(), Failure>
    ensures { IfErr result IsOfWal }
{
    let Some(size) = page_size() else {
        return Ok(());
    };
    match Wal::open(alloc, disk, size, (1, 1)) {
        Ok(mut wal) => {
            let done = commit_wal(alloc, &mut wal, marks);
            let _disk = wal.into_disk();
            done
        }
        Err(walcore::Refused { error, disk: _ }) => Err(Failure::Wal(error)),
    }
}

/// Commits by the engine over a rollback journal. Each commit is marked.
fn commit_roll<D: Disk, M: Write>(
    alloc: Global,
    roll: &mut Roll<D>,
    marks: &mut M,
) -> Result<(), Failure>
    ensures { IfErr result IsOfRoll }
{
    let mut number: u8 = 0;
    for commit in &COMMITS {
        number = number.wrapping_add(1);
        let pages = pages_of(alloc, commit.first, commit.last, number)?;
        let pages = lent(alloc, &pages)?;
        roll.commit(&pages, commit.size, &[u32::from(number)])?;
        marks.write_all(b"commit\n")?;
    }
    marks.write_all(b"closed\n")?;
    Ok(())
}

/// Opens a database file with its rollback journal, and commits.
pub fn run_roll<D: Disk + Drop, M: Write>(
    alloc: Global,
    disk: D,
    marks: &mut M,
) -> Result<(), Failure>
    ensures { IfErr result IsOfRoll }
{
    let Some(size) = page_size() else {
        return Ok(());
    };
    match Roll::open(alloc, disk, size) {
        Ok(mut roll) => {
            let done = commit_roll(alloc, &mut roll, marks);
            let _disk = roll.into_disk();
            done
        }
        Err(rollcore::Refused { error, disk: _ }) => Err(Failure::Roll(error)),
    }
}
