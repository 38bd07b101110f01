//! How names and lengths become durable, and what the names hold (own).

/// How metadata becomes durable: which names and lengths a crash may leave.
#[derive(Clone, Copy, Debug, PartialEq, Eq)]
pub enum Meta {
    /// In parts: a truncation touches each sector by itself, and the length is any between the least and the greatest.
    /// Makings and unlinks are durable once the folder is synced.
    Parts,
    /// A truncation is old or new as a whole: a crash leaves the file as it was before it, or the file that was cut,
    /// until that is synced. Makings and unlinks are durable once the folder is synced.
    Whole,
    /// As `Whole`, and makings, unlinks and truncations of all three files become durable in the order of the calls, as
    /// in the journal of a file system. A sync of a file or of the folder makes all of them durable that came before
    /// it, but an fdatasync of a file whose length is as it was when it was last synced none.
    Ordered,
}

/// What a name holds after a crash.
#[derive(Clone, Copy, Debug, PartialEq, Eq)]
pub enum Holds {
    /// Any of its files, or none where it may be gone.
    Any,
    /// None.
    Nothing,
    /// The file of this number, counted from 0, the oldest first.
    File(usize),
}

/// What the three names hold after a crash, between two changes of names and lengths.
#[derive(Clone, Copy, Debug, PartialEq, Eq)]
pub struct Epoch {
    /// That of the database file.
    pub db: Holds,
    /// That of the write-ahead log.
    pub wal: Holds,
    /// That of the rollback journal.
    pub journal: Holds,
}
