//! What can be wrong with an index (own).
ghost use Rattle.std.specs.Prelude.{◌≡◌};
ghost use Rattle.sqindex.specs.IndexFaults.{number_of, name_of};

use thiserror::Error;

/// What can be wrong with an index.
#[derive(Clone, Copy, Debug, PartialEq, Eq, Error)]
pub enum IndexFault {
    /// An entry hasn't the key's columns and an integer as rowid.
    #[error("an entry of an index hasn't the columns of its key and a rowid")]
    EntryForm,
    /// An entry doesn't come behind the one before it in the index's order.
    #[error("an entry of an index is out of order")]
    EntryOrder,
    /// Two entries of a UNIQUE index have the same key, and no column of it is NULL.
    #[error("a UNIQUE index has the same key twice")]
    KeyTwice,
    /// No row of the table has this entry.
    #[error("an entry of an index is that of no row")]
    EntryOfNoRow,
    /// No entry is this row's.
    #[error("a row has no entry in an index")]
    RowWithoutEntry,
    /// Two entries have the same rowid.
    #[error("an index has two entries of one rowid")]
    RowTwice,
}

impl IndexFault {
    /// The fault's number, from 60 to 65.
    pub fn number(&self) -> u8
        ensures { result ≡ number_of self.now }
    {
        match self {
            IndexFault::EntryForm => 60,
            IndexFault::EntryOrder => 61,
            IndexFault::KeyTwice => 62,
            IndexFault::EntryOfNoRow => 63,
            IndexFault::RowWithoutEntry => 64,
            IndexFault::RowTwice => 65,
        }
    }

    /// The fault's name, as reports print it.
    pub fn name(&self) -> &'static str
        ensures { result.now ≡ name_of self.now }
    {
        match self {
            IndexFault::EntryForm => "EntryForm",
            IndexFault::EntryOrder => "EntryOrder",
            IndexFault::KeyTwice => "KeyTwice",
            IndexFault::EntryOfNoRow => "EntryOfNoRow",
            IndexFault::RowWithoutEntry => "RowWithoutEntry",
            IndexFault::RowTwice => "RowTwice",
        }
    }
}
