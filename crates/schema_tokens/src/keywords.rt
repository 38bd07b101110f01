//! Keywords.
ghost use Rattle.std.specs.Prelude.{◌≡◌};
ghost use Rattle.std.specs.List.{list_any};
ghost use Rattle.schema_tokens.specs.Keywords.{is_same_word, word_kind};

use crate::kinds::Kind;

/// Keywords that are identifiers where a statement has no use for them (`%fallback`), and WINDOW.
pub const FALLBACK: [&[u8]; 81] = [
    b"ABORT",
    b"ACTION",
    b"AFTER",
    b"ALWAYS",
    b"ANALYZE",
    b"ASC",
    b"ATTACH",
    b"BEFORE",
    b"BEGIN",
    b"BY",
    b"CASCADE",
    b"CAST",
    b"COLUMN",
    b"CONFLICT",
    b"CURRENT",
    b"CURRENT_DATE",
    b"CURRENT_TIME",
    b"CURRENT_TIMESTAMP",
    b"DATABASE",
    b"DEFERRED",
    b"DESC",
    b"DETACH",
    b"DO",
    b"END",
    b"EACH",
    b"EXCLUSIVE",
    b"EXCLUDE",
    b"EXPLAIN",
    b"FAIL",
    b"FILTER",
    b"FIRST",
    b"FOLLOWING",
    b"FOR",
    b"GENERATED",
    b"GLOB",
    b"GROUPS",
    b"IF",
    b"IGNORE",
    b"IMMEDIATE",
    b"INITIALLY",
    b"INSTEAD",
    b"KEY",
    b"LAST",
    b"LIKE",
    b"MATCH",
    b"MATERIALIZED",
    b"NO",
    b"NULLS",
    b"OF",
    b"OFFSET",
    b"OTHERS",
    b"OVER",
    b"PARTITION",
    b"PLAN",
    b"PRAGMA",
    b"PRECEDING",
    b"QUERY",
    b"RAISE",
    b"RANGE",
    b"RECURSIVE",
    b"REGEXP",
    b"REINDEX",
    b"RELEASE",
    b"RENAME",
    b"REPLACE",
    b"RESTRICT",
    b"ROLLBACK",
    b"ROW",
    b"ROWS",
    b"SAVEPOINT",
    b"TEMP",
    b"TEMPORARY",
    b"TIES",
    b"TRIGGER",
    b"UNBOUNDED",
    b"VACUUM",
    b"VIEW",
    b"VIRTUAL",
    b"WINDOW",
    b"WITH",
    b"WITHOUT",
];

/// Keywords that may be names, but no words of a type.
pub const JOINING: [&[u8]; 8] = [
    b"CROSS", b"FULL", b"INDEXED", b"INNER", b"LEFT", b"NATURAL", b"OUTER", b"RIGHT",
];

/// All other keywords.
pub const RESERVED: [&[u8]; 58] = [
    b"ADD",
    b"ALL",
    b"ALTER",
    b"AND",
    b"AS",
    b"AUTOINCREMENT",
    b"BETWEEN",
    b"CASE",
    b"CHECK",
    b"COLLATE",
    b"COMMIT",
    b"CONSTRAINT",
    b"CREATE",
    b"DEFAULT",
    b"DEFERRABLE",
    b"DELETE",
    b"DISTINCT",
    b"DROP",
    b"ELSE",
    b"ESCAPE",
    b"EXCEPT",
    b"EXISTS",
    b"FOREIGN",
    b"FROM",
    b"GROUP",
    b"HAVING",
    b"IN",
    b"INDEX",
    b"INSERT",
    b"INTERSECT",
    b"INTO",
    b"IS",
    b"ISNULL",
    b"JOIN",
    b"LIMIT",
    b"NOT",
    b"NOTHING",
    b"NOTNULL",
    b"NULL",
    b"ON",
    b"OR",
    b"ORDER",
    b"PRIMARY",
    b"REFERENCES",
    b"RETURNING",
    b"SELECT",
    b"SET",
    b"TABLE",
    b"THEN",
    b"TO",
    b"TRANSACTION",
    b"UNION",
    b"UNIQUE",
    b"UPDATE",
    b"USING",
    b"VALUES",
    b"WHEN",
    b"WHERE",
];

/// Whether two words are the same, the case of ASCII letters aside.
pub fn is_same_word(a: &[u8], b: &[u8]) -> bool
    ensures { result ≡ is_same_word a.now b.now }
{
    a.eq_ignore_ascii_case(b)
}

pub fn is_listed(words: &[&[u8]], word: &[u8]) -> bool
    ensures { result ≡ list_any (λ k. is_same_word k.now word.now) words.now }
{
    words.iter().any(|k| is_same_word(k, word))
}

/// What a word is.
#[tactic(auto, unfolding(crate::specs::Keywords::word_kind))]
pub fn word_kind(word: &[u8]) -> Kind
    ensures { result ≡ word_kind word.now }
{
    if is_listed(&FALLBACK, word) {
        Kind::Fallback
    } else if is_listed(&JOINING, word) {
        Kind::Joining
    } else if is_listed(&RESERVED, word) {
        Kind::Reserved
    } else {
        Kind::Word
    }
}
