//! What happens in a run over a rollback journal (own).
use crashdisk::{Choice, Part};

/// What happens to an engine over a rollback journal and to its disk (own).
#[derive(Clone, Debug, PartialEq, Eq, Drop)]
pub enum JEvent {
    /// The engine is opened. One that is there is given up first, without a crash.
    Open,
    /// These pages are committed, by their numbers, after which the database has `size` pages. Each segment of the
    /// journal takes a nonce: a commit has one for each 64 pages of the old database that are written or cut off, one
    /// at least. A nonce need not be new: `runs` of `run_journal` rests on none.
    Commit {
        pages: Vec<(u32, Vec<u8>)>,
        size: u32,
        nonces: Vec<u32>,
    },
    /// A page of the last commit is read, from 1.
    Read {
        page: u32,
    },
    /// The disk stops after so many calls.
    StopAfter(u64),
    /// The disk stops at the sync of this number, from 1.
    StopAtSync(u64),
    /// The call of the disk of this number, from 1, fails and leaves a part of what it changes.
    Fail {
        call: u64,
        part: Part,
    },
    /// The machine stops. What the choice names is left of the files, and no engine.
    Crash(Choice),
    /// The machine stops. Of all that a crash may leave, the files of this number are left, and no engine. They are
    /// counted from 0 as `ModelDisk::choice` of crashdisk counts them; from their count on they come again in the same
    /// order.
    CrashAt(u64),
}
