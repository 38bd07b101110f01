//! How rows are written (own).
use sqdeep::Encoding;

/// As what rows are written.
#[derive(Clone, Copy, Debug, PartialEq, Eq)]
pub enum Notation {
    /// An object a row, its members by the columns' names (RFC 8259). An integer beyond 2^53 is
    /// `{"integer":".."}`, a BLOB `{"blob":".."}` and a text that isn't well formed in the database's encoding
    /// `{"text":".."}`, these two in hex.
    Json,
    /// A line a row (RFC 4180): texts in quotes, NULL as nothing, a BLOB as X'..' and a text that isn't well formed in
    /// the database's encoding as TX'..', both without quotes.
    Csv,
    /// An INSERT a row, which SQLite takes.
    Sql,
}

/// How the rows of a database are written.
#[derive(Clone, Copy, Debug, PartialEq, Eq)]
pub struct Form {
    pub notation: Notation,
    /// That of the database's texts.
    pub encoding: Encoding,
}
