//! The rows of the schema table (fileformat2, 2.6).
ghost use Rattle.std.specs.Prelude.{◌≡◌, ◌≢◌, ℕ, ◌<◌, ◌^◌, List, Some, MatchOption, slice_get, pos};
ghost use Rattle.sqval.specs.Datum.{integer, text};
ghost use Rattle.std.specs.Prelude.{IfOk};
ghost use Rattle.sqtables.specs.Schema.{IsTableRow, IsObjectRow};
ghost use Rattle.sqtables.specs.internal.Listing.{IsCopyOf};

use crate::list::Object;
use sqval::{Record, Value};
use std::alloc::{AllocError, Global};

/// The text in a column.
fn text_at<'a>(values: &Record<'a>, i: usize) -> Option<&'a [u8]>
    ensures { MatchOption result ((bytes : List ℕ) → slice_get values.now i ≢ Some (text bytes))
        (λ bytes. slice_get values.now i ≡ Some (text bytes.now)) }
{
    match values.column(i) {
        Some(Value::Text(bytes)) => Some(bytes),
        _ => None,
    }
}

/// The page number in a column.
fn root_at(values: &Record, i: usize) -> Option<u32>
    ensures { MatchOption result ((root : ℕ) → 0 < root → root < 2 ^ 32
        → slice_get values.now i ≢ Some (integer (pos root)))
        (λ root. (0 < root) × (slice_get values.now i ≡ Some (integer (pos root)))) }
{
    match values.column(i) {
        Some(Value::Int(number)) if 0 < number && number < 0x1_0000_0000 => Some(number as u32),
        _ => None,
    }
}

/// What a row of the schema says of a table.
#[derive(Clone, Copy, Debug)]
pub struct TableRow<'a> {
    /// The table's name.
    pub name: &'a [u8],
    /// The root of its tree.
    pub root: u32,
    /// The text that made it.
    pub sql: &'a [u8],
}

/// What a row of the schema says of a table, in a database whose texts are UTF-8. None where it is that of none with
/// rows of its own, as a view or a virtual table.
pub fn table_row<'a>(values: &Record<'a>) -> Option<TableRow<'a>>
    ensures { MatchOption result ((name sql : List ℕ) (root : ℕ) → ¬ IsTableRow values.now name root sql)
        (λ t. IsTableRow values.now t.name.now t.root t.sql.now) }
{
    if text_at(values, 0)? != b"table".as_slice() {
        return None;
    }
    let name = text_at(values, 1)?;
    let root = root_at(values, 3)?;
    let sql = text_at(values, 4)?;
    Some(TableRow { name, root, sql })
}

/// The page number in a column, or 0.
fn number_at(values: &Record, i: usize) -> Option<u32>
    ensures { MatchOption result ((root : ℕ) → root < 2 ^ 32 → slice_get values.now i ≢ Some (integer (pos root)))
        (λ root. slice_get values.now i ≡ Some (integer (pos root))) }
{
    match values.column(i) {
        Some(Value::Int(number)) if 0 <= number && number < 0x1_0000_0000 => Some(number as u32),
        _ => None,
    }
}

/// What a row of the schema says of an object that has a text.
#[derive(Clone, Copy, Debug)]
pub(crate) struct ObjectRow<'a> {
    kind: &'a [u8],
    name: &'a [u8],
    root: u32,
    sql: &'a [u8],
}

/// What a row of the schema says of an object. None where it has no text, as an index that a constraint made.
pub(crate) fn object_row<'a>(values: &Record<'a>) -> Option<ObjectRow<'a>>
    ensures { MatchOption result
        ((kind name sql : List ℕ) (root : ℕ) → ¬ IsObjectRow values.now kind name root sql)
        (λ o. IsObjectRow values.now o.kind.now o.name.now o.root o.sql.now) }
{
    let kind = text_at(values, 0)?;
    let name = text_at(values, 1)?;
    let root = number_at(values, 3)?;
    let sql = text_at(values, 4)?;
    Some(ObjectRow {
        kind,
        name,
        root,
        sql,
    })
}

impl ObjectRow<'_> {
    /// The same, with bytes of its own.
    pub(crate) fn copied(&self, alloc: Global) -> Result<Object, AllocError>
        ensures { IfOk result (IsCopyOf self.now) }
    {
        Ok(Object {
            kind: Vec::from_slice(alloc, self.kind)?,
            name: Vec::from_slice(alloc, self.name)?,
            root: self.root,
            sql: Vec::from_slice(alloc, self.sql)?,
        })
    }
}
