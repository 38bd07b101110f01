//! What can be wrong with a row of a table (own).
ghost use Rattle.std.specs.Prelude.{◌≡◌};
ghost use Rattle.sqindex.specs.RowFaults.{number_of, name_of};

use thiserror::Error;

/// What can be wrong with a row of a table.
#[derive(Clone, Copy, Debug, PartialEq, Eq, Error)]
pub enum RowFault {
    /// A column that is NOT NULL is NULL.
    #[error("a row has NULL under NOT NULL")]
    NullUnderNotNull,
    /// A value isn't of the type of its column in a STRICT table.
    #[error("a value isn't of the type of its column")]
    TypeUnderStrict,
    /// A number stands in a column of affinity TEXT.
    #[error("a number stands under affinity TEXT")]
    NumberUnderText,
    /// A text that reads as a number stands in a column of affinity NUMERIC, INTEGER or REAL.
    #[error("a text that reads as a number stands under a numeric affinity")]
    TextUnderNumeric,
    /// A row of a table WITHOUT ROWID doesn't come behind the one before it by its primary key.
    #[error("a row is out of the order of its primary key")]
    RowOrder,
}

impl RowFault {
    /// The fault's number, from 70 to 74.
    pub fn number(&self) -> u8
        ensures { result ≡ number_of self.now }
    {
        match self {
            RowFault::NullUnderNotNull => 70,
            RowFault::TypeUnderStrict => 71,
            RowFault::NumberUnderText => 72,
            RowFault::TextUnderNumeric => 73,
            RowFault::RowOrder => 74,
        }
    }

    /// The fault's name, as reports print it.
    pub fn name(&self) -> &'static str
        ensures { result.now ≡ name_of self.now }
    {
        match self {
            RowFault::NullUnderNotNull => "NullUnderNotNull",
            RowFault::TypeUnderStrict => "TypeUnderStrict",
            RowFault::NumberUnderText => "NumberUnderText",
            RowFault::TextUnderNumeric => "TextUnderNumeric",
            RowFault::RowOrder => "RowOrder",
        }
    }
}
