//! What a program says by its marks, and what SQLite promises there (own).

/// What is known to be durable at a mark.
#[derive(Clone, Copy, Debug, PartialEq, Eq)]
pub enum Promise {
    /// The last commit.
    Full,
    /// All commits but the last.
    Last,
    /// Commits stay in their order: the last one where a checkpoint or a closing has returned.
    Ordered,
    /// None.
    Nothing,
}

/// What a program says by a mark.
#[derive(Clone, Copy, Debug, PartialEq, Eq)]
pub enum Mark {
    /// A commit has returned.
    Commit,
    /// A checkpoint has returned, or the last connection was closed.
    Settled,
    /// Something of which nothing is promised.
    Other,
}

impl Mark {
    ghost use Rattle.sqcrash.specs.Promises.{IsMark};

    /// The mark of a line.
    pub fn of(line: &[u8]) -> Mark
        ensures { IsMark line.now result }
    {
        if line == b"commit".as_slice() {
            return Mark::Commit;
        }
        if line == b"checkpoint".as_slice() {
            return Mark::Settled;
        }
        if line == b"closed".as_slice() {
            return Mark::Settled;
        }
        Mark::Other
    }
}

impl Promise {
    ghost use Rattle.std.specs.Prelude.{◌≡◌};
    ghost use Rattle.sqcrash.specs.Promises.{promised};

    /// The number of the last commit that is promised to be durable at a mark, where that of the marking thread's last
    /// commit is `last`. Commit 0 was there when the run began.
    pub fn promised(self, mark: Mark, last: usize) -> usize
        ensures { result ≡ promised self mark last }
    {
        match (self, mark) {
            (Promise::Full, Mark::Commit | Mark::Settled) => last,
            (Promise::Last, Mark::Commit | Mark::Settled) => last.saturating_sub(1),
            (Promise::Ordered, Mark::Settled) => last,
            _ => 0,
        }
    }
}
