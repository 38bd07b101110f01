//! What a caller is asked to do, and what it answers.
ghost use Rattle.std.specs.Prelude.{◌≡◌};
ghost use Rattle.sqlocks.specs.Runs.{IsRun, MayAsk, log_of};

use crate::places::{Place, next, step_at};

/// What the locks are for.
#[derive(Clone, Copy, Debug, PartialEq, Eq)]
pub enum Want {
    /// To read a database that others may write meanwhile.
    Read,
    /// To recover a database in its place, which nobody else may open meanwhile.
    Recover,
}

/// A file on which locks are.
#[derive(Clone, Copy, Debug, PartialEq, Eq)]
pub enum Target {
    /// FILE.
    Database,
    /// FILE-shm, the index of FILE-wal.
    Index,
}

/// What is locked, of the bytes by which the connections of SQLite keep apart.
#[derive(Clone, Copy, Debug, PartialEq, Eq)]
pub enum Lock {
    /// FILE, byte 1073741824, shared, for a moment: no writer waits for the readers to go.
    Pending,
    /// FILE, 510 bytes from 1073741826 on, shared: nobody writes to FILE but a checkpoint, and no log goes away.
    Shared,
    /// FILE, 512 bytes from 1073741824 on, exclusive: nobody else reads or writes. Asked for at once, since while byte
    /// 1073741825 (RESERVED) alone is locked, also shared, SQLite takes a hot journal for a live writer's.
    Exclusive,
    /// FILE-shm, byte 127, shared: FILE-wal isn't begun anew, nor cut.
    Restarts,
    /// FILE-shm, byte 123, shared: no checkpoint writes to FILE.
    Checkpoints,
    /// FILE-shm, byte 120, shared: nobody writes to FILE-wal.
    Writers,
    /// FILE-shm, byte 128, exclusive, for a moment: refused where a connection has FILE-shm open.
    Connections,
    /// FILE-shm, 9 bytes from 120 on, exclusive.
    WholeIndex,
    /// FILE, byte 1073742337, shared: none of SQLite's. It shows whoever goes on that no journal is current. It isn't
    /// next to the bytes of `Shared`, since the system joins adjacent locks of one kind.
    Alone,
}

/// Why a plan is given up.
#[derive(Clone, Copy, Debug, PartialEq, Eq)]
pub enum Reason {
    /// A lock was refused until the time was over.
    InUse,
    /// There are no such locks here.
    NoLocks,
    /// FILE-shm can't be opened for writing.
    Failed,
}

/// What is to be done.
#[derive(Clone, Copy, Debug, PartialEq, Eq)]
pub enum Step {
    /// To open a file; one that was opened before is closed first. FILE for reading, in a recovery for writing too:
    /// Given, or any other answer. FILE-shm for both: Given; for reading alone: Refused; Missing; Unsupported: it can't
    /// be.
    Open(Target),
    /// To ask for a lock, and not to wait for it. Given; Refused: somebody holds one in its way; Unsupported.
    Take(Lock),
    /// To give a lock back. Any answer.
    Give(Lock),
    /// To see whether the path of FILE still leads to the file that is open. Given or Refused.
    Compare,
    /// To see whether no folder FILE.lock is there, by which SQLite's unix-dotfile locks FILE. Given: there is none; or
    /// Refused.
    LookForFolder,
    /// To see whether the index names a front of FILE-wal. Given or Refused.
    Look,
    /// To see whether FILE-journal is hot, by its header and its length. Given or Refused.
    LookAtJournal,
    /// To see whether somebody holds RESERVED, byte 1073741825 of FILE, without taking it. Given: nobody does; Refused:
    /// somebody is about to write; Unsupported.
    AskReserved,
    /// To see whether FILE-journal still has the header and the length that were looked at. Given or Refused.
    CompareJournal,
    /// To wait for a moment. Given; Refused: the time is over.
    Wait,
    /// To do what the locks are for. Any answer, once it is done.
    Go,
    /// To do it without locks. Any answer.
    GoUnlocked,
    /// To say that it can't be done. Any answer.
    GiveUp(Reason),
    /// Nothing more.
    End,
}

/// What a step came to.
#[derive(Clone, Copy, Debug, PartialEq, Eq)]
pub enum Answer {
    Given,
    Refused,
    Missing,
    Unsupported,
}

/// What is to be done next, behind these answers to the steps before it, the first one first. Behind a `Wait` that is
/// Given all begins anew, so the answers up to it may be left out.
pub fn asked(want: Want, answers: &[Answer]) -> Step
    ensures run { IsRun want (log_of want answers.now) }
    ensures next { MayAsk want (log_of want answers.now) result }
{
    let mut place = Place::OpenFile(want);
    for answer in answers {
        place = next(place, *answer);
    }
    step_at(place)
}
