//! What is answered in a run (own).
ghost use Rattle.std.specs.Prelude.{◌≡◌, [], IfOk};
ghost use Rattle.sqworld.specs.Run.{answer_of};

use std::alloc::{AllocError, Global};

/// What an event answers.
#[derive(Clone, Debug, PartialEq, Eq, Drop)]
pub enum Reply {
    /// It was done.
    Done,
    /// A reader began, of this number.
    Reader(u64),
    /// The bytes of a page.
    Page(Vec<u8>),
    /// A checkpoint brought all of the log into the database file.
    Complete,
    /// A checkpoint brought a part of it there, since there are readers of an earlier commit.
    Partial,
    /// No reader of that number is open.
    NoReader,
    /// It was refused, for the reason that `WalError` or `RollError` gives this number.
    Refused(u8),
}

impl Reply {
    /// One of its own that says the same.
    pub(crate) fn copy(&self, alloc: Global) -> Result<Reply, AllocError>
        ensures { IfOk result (λ copy. answer_of copy ≡ answer_of self.now) }
    {
        Ok(match self {
            Reply::Done => Reply::Done,
            Reply::Reader(number) => Reply::Reader(*number),
            Reply::Page(bytes) => Reply::Page(Vec::from_slice(alloc, bytes)?),
            Reply::Complete => Reply::Complete,
            Reply::Partial => Reply::Partial,
            Reply::NoReader => Reply::NoReader,
            Reply::Refused(number) => Reply::Refused(*number),
        })
    }
}

/// The bytes of both files when an opening begins.
#[derive(Clone, Debug, PartialEq, Eq, Drop)]
pub struct Found {
    /// Of the database.
    pub db: Vec<u8>,
    /// Of its log.
    pub log: Vec<u8>,
}

/// What a crash left of the log of a disk that tears; the bytes of the log at the last moment before it at which
/// nothing of the log was unsynced; and place and bytes of each write into it since then that was made, or failed.
#[derive(Clone, Debug, PartialEq, Eq, Drop)]
pub struct Crashed {
    /// The bytes that it left.
    pub log: Vec<u8>,
    /// The bytes when nothing was unsynced.
    pub kept: Vec<u8>,
    /// The writes since then.
    pub handed: Vec<(u64, Vec<u8>)>,
}

/// What a run answered: for each event a reply, and how many calls the disk had refused when it ended; for each opening
/// what it found; and on a disk that tears, for each crash what it left.
#[derive(Clone, Debug, PartialEq, Eq, Drop)]
pub struct Run {
    /// One for each event.
    pub replies: Vec<Reply>,
    /// One count for each event, over the whole run.
    pub refused: Vec<u64>,
    /// One for each opening.
    pub found: Vec<Found>,
    /// One for each crash, none on a disk that doesn't tear.
    pub crashed: Vec<Crashed>,
}

impl Run {
    /// Nothing is answered yet.
    pub(crate) fn new(alloc: Global) -> Run
        ensures replies { result.replies.items ≡ [] }
        ensures refused { result.refused.items ≡ [] }
        ensures found { result.found.items ≡ [] }
        ensures crashed { result.crashed.items ≡ [] }
    {
        Run {
            replies: Vec::new(alloc),
            refused: Vec::new(alloc),
            found: Vec::new(alloc),
            crashed: Vec::new(alloc),
        }
    }
}
