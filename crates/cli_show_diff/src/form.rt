//! How changes are printed (own).

/// How changes are printed.
#[derive(Clone, Copy, Debug, PartialEq, Eq)]
pub enum ChangeForm {
    /// A line a change, behind a line that names the table.
    Lines,
    /// An object of JSON a change (RFC 8259), with the frame that ends the commit which made it, where one is named.
    Json(Option<u32>),
    /// A script of SQL, which makes the new rows of the old ones.
    Sql,
}
