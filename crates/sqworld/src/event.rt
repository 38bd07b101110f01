//! What happens in a run (own).
use crashdisk::{Choice, Part};

/// What happens to an engine over a write-ahead log and to its disk (own).
#[derive(Clone, Debug, PartialEq, Eq, Drop)]
pub enum Event {
    /// The engine is opened with these salts. One that is there is given up first, without a crash. The pair of salts
    /// must be new: from an opening on whose salts an earlier log of the run had, or that finds a header or a frame
    /// which passes by chance, `runs` of `run_wal` says nothing.
    Open {
        salts: (u32, u32),
    },
    /// These pages are committed, by their numbers, after which the database has `size` pages.
    Commit {
        pages: Vec<(u32, Vec<u8>)>,
        size: u32,
    },
    /// All commits are made durable.
    Sync,
    /// All commits are made durable, and what the oldest reader sees is copied into the database file.
    Checkpoint,
    /// The log is begun anew with this second salt, and with the first salt of the log in force plus 1. This pair must
    /// be new as well.
    Restart {
        salt2: u32,
    },
    /// A reader begins. Readers are numbered from 0, over the whole run.
    Begin,
    /// The reader of this number reads a page, from 1.
    Read {
        reader: u64,
        page: u32,
    },
    /// The reader of this number ends.
    End {
        reader: u64,
    },
    /// The disk stops after so many calls.
    StopAfter(u64),
    /// The disk stops at the sync of this number, from 1.
    StopAtSync(u64),
    /// The call of the disk of this number, from 1, fails and leaves a part of what it changes.
    Fail {
        call: u64,
        part: Part,
    },
    /// The machine stops. What the choice names is left of the files, and no engine.
    Crash(Choice),
    /// The machine stops. Of all that a crash may leave, the files of this number are left, and no engine. They are
    /// counted from 0 as `ModelDisk::choice` of crashdisk counts them; from their count on they come again in the same
    /// order.
    CrashAt(u64),
}
