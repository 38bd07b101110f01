//! The values that columns take (SQLite's datatype3, 3, and stricttables).
ghost use Rattle.std.specs.Prelude.{◌≡◌, slice_get};
ghost use Rattle.sqkeys.specs.Accepted.{by_affinity, by_strict_type, accepts_of, accepts_at};

use sqdefaults::{Affinity, affinity_of};
use sqlite_ast::CreateTable;

/// The values that a column takes beside NULL, by what `PRAGMA integrity_check` looks for.
#[derive(Clone, Copy, Debug, PartialEq, Eq)]
pub enum Accepts {
    /// Each one.
    All,
    /// Integers, as INT and INTEGER of a STRICT table.
    Integers,
    /// Integers and real numbers, as REAL of a STRICT table.
    Numbers,
    /// Texts, as TEXT of a STRICT table.
    Texts,
    /// BLOBs, as BLOB of a STRICT table.
    Blobs,
    /// Each one but numbers, by the affinity TEXT.
    NotNumbers,
    /// Each one but texts that read as numbers, by the affinities NUMERIC, INTEGER and REAL.
    NotNumericTexts,
}

/// What a column of this affinity takes.
fn by_affinity(affinity: Affinity) -> Accepts
    ensures { result ≡ by_affinity affinity }
{
    match affinity {
        Affinity::Text => Accepts::NotNumbers,
        Affinity::Blob => Accepts::All,
        Affinity::Integer | Affinity::Real | Affinity::Numeric => Accepts::NotNumericTexts,
    }
}

/// What a column of a STRICT table takes whose type is written so. None where a STRICT table has no such type.
fn by_strict_type(written: &[u8]) -> Option<Accepts>
    ensures { result ≡ by_strict_type written.now }
{
    if written.eq_ignore_ascii_case(b"int") || written.eq_ignore_ascii_case(b"integer") {
        Some(Accepts::Integers)
    } else if written.eq_ignore_ascii_case(b"real") {
        Some(Accepts::Numbers)
    } else if written.eq_ignore_ascii_case(b"text") {
        Some(Accepts::Texts)
    } else if written.eq_ignore_ascii_case(b"blob") {
        Some(Accepts::Blobs)
    } else if written.eq_ignore_ascii_case(b"any") {
        Some(Accepts::All)
    } else {
        None
    }
}

/// What a column takes whose type is written so. None where that isn't known.
fn accepts_of(is_strict: bool, written: &[u8]) -> Option<Accepts>
    ensures { result ≡ accepts_of is_strict written.now }
{
    if is_strict {
        by_strict_type(written)
    } else {
        Some(by_affinity(affinity_of(written)))
    }
}

/// What column `j` of a table takes. None where that isn't known.
pub(crate) fn accepts_at(made: &CreateTable, j: usize) -> Option<Accepts>
    ensures { result ≡ accepts_at made.now.is_strict (slice_get made.now.body.columns j) }
{
    match made.body.columns.get(j) {
        Some(column) => accepts_of(made.is_strict, column.1.as_slice()),
        None => None,
    }
}
