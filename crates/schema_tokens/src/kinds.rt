//! What tokens there are.

/// What a token is.
#[derive(Clone, Copy, Debug, PartialEq, Eq)]
pub enum Kind {
    /// Blanks: spaces, tabs, LF, VT, FF and CR.
    Blanks,
    /// U+FEFF in UTF-8; SQLite reads it as a blank.
    ByteOrderMark,
    /// `--` and the rest of its line, without the LF.
    LineComment,
    /// `/*` to `*/`, or to the text's end.
    BlockComment,
    /// A word that is no keyword.
    Word,
    /// A keyword that is an identifier where the grammar has no use for it.
    Fallback,
    /// A keyword that may be a name: INDEXED, or a word of JOIN.
    Joining,
    /// Any other keyword.
    Reserved,
    /// A name in `"`, in `` ` `` or in `[` and `]`.
    Quoted,
    /// A text in `'`.
    Text,
    /// `x'..'`.
    Blob,
    Integer,
    Float,
    /// A parameter: `?1`, `:a`, `@a`, `$a`, `#a`.
    Variable,
    /// `(`
    Open,
    /// `)`
    Close,
    Comma,
    Semicolon,
    Dot,
    /// Any other operator.
    Operator,
}

/// What a text begins with.
#[derive(Clone, Copy, Debug, PartialEq, Eq)]
pub struct Form {
    pub kind: Kind,
    /// In bytes.
    pub length: usize,
}

/// A token or a space of a text.
#[derive(Clone, Copy, Debug, PartialEq, Eq)]
pub struct Piece {
    pub kind: Kind,
    /// Its first byte.
    pub from: usize,
    /// The byte after its last.
    pub to: usize,
}
