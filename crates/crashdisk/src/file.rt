//! The two files of a disk (own).

/// A file of a disk: the database itself, or its log, which is a rollback journal or a write-ahead log.
#[derive(Clone, Copy, Debug, PartialEq, Eq)]
pub enum File {
    /// The database.
    Db,
    /// Its journal or its write-ahead log.
    Log,
}
