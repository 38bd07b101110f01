//! How changes are written (own).
use sqdeep::Encoding;
use sqkeydiff::KeyOrder;
use sqtables::Columns;

/// As what a change is written.
#[derive(Clone, Copy, Debug, PartialEq, Eq)]
pub enum Writing {
    /// As a line that begins with `+`, `-` or `~`, values as in SQL.
    Line,
    /// As an object of JSON (RFC 8259), with the frame that ends the commit which made the change, where one is named.
    Object(Option<u32>),
    /// As the DELETE of the row that went or changed.
    Removal,
    /// As the INSERT of the row that came, or of what one that changed is now.
    Arrival,
}

/// How the changes of a table are written.
#[derive(Clone, Copy)]
pub struct Style<'a> {
    pub writing: Writing,
    /// That of the texts of the databases.
    pub encoding: Encoding,
    /// The table's columns.
    pub columns: &'a Columns,
    /// What stands before the first change.
    pub before: &'a [u8],
    /// What an object, a DELETE or an INSERT begins with.
    pub head: &'a [u8],
    /// Whether the rowid stands before the values of an INSERT.
    pub leads: bool,
    /// How the rows of a table WITHOUT ROWID are sorted, which their keys name then. Rowids do where there is none.
    pub key: Option<KeyOrder>,
}

/// Where a row is named.
#[derive(Clone, Copy, Debug, PartialEq, Eq)]
pub(crate) enum Naming {
    /// In a line.
    InLine,
    /// In an object of JSON.
    InObject,
    /// In the condition of a statement.
    InCondition,
}
