//! The columns of a table, and what they show of a row.
ghost use Rattle.std.specs.Prelude.{◌≡◌, ◌+◌, ◌<◌, ◌^◌, IfOk, map, length, slice_get, unwrap_or, option_map};
ghost use Rattle.sqval.specs.Datum.{datum_of, row_of};
ghost use Rattle.sqtables.specs.Columns.{default_in, place_in, shown_at, shown};

use sqdefaults::Literal;
use sqrows::Row;
use sqval::Value;
use std::alloc::{AllocError, Global};

/// The columns of a table in the order of its text.
#[derive(Debug, Drop)]
pub struct Columns {
    /// Their names. None where the table's text isn't understood.
    pub names: Vec<Vec<u8>>,
    /// The one that is another name for the rowid: what a row stores of it is NULL.
    pub alias: Option<usize>,
    /// What stands for a column that a row doesn't store, as those behind ALTER TABLE ADD COLUMN. None where that is
    /// unknown.
    pub defaults: Vec<Option<Literal>>,
    /// How many columns a row must store so that the values of the others are known.
    pub needed: usize,
    /// Where the rows of a table WITHOUT ROWID store each column. In one with rowids column j is the j-th, and there
    /// are no places.
    pub places: Vec<usize>,
}

impl Columns {
    /// The default of a column, which is NULL where none is known.
    fn default_at(&self, j: usize) -> Value<'_>
        ensures { datum_of result ≡ default_in (slice_get self.now.defaults.items j) }
    {
        match self.defaults.get(j) {
            Some(Some(literal)) => literal.as_value(),
            _ => Value::Null,
        }
    }

    /// Where a row stores a column.
    fn place_at(&self, j: usize) -> usize
        ensures { result ≡ place_in self.now.places.items j }
    {
        match self.places.get(j) {
            Some(place) => *place,
            None => j,
        }
    }

    /// What a row stores in a column, or the column's default.
    fn stored_at<'a>(&'a self, row: &Row<'a>, j: usize) -> Value<'a>
        ensures { datum_of result ≡ unwrap_or (slice_get row.now.values (place_in self.now.places.items j))
            (default_in (slice_get self.now.defaults.items j)) }
    {
        match row.values.column(self.place_at(j)) {
            Some(value) => value,
            None => self.default_at(j),
        }
    }

    /// The value of a column in a row, from 0.
    pub fn value_at<'a>(&'a self, row: &Row<'a>, j: usize) -> Value<'a>
        ensures { datum_of result ≡ shown_at self.now (record { rowid = row.now.rowid; values = row.now.values }) j }
    {
        match (self.alias, row.rowid) {
            (Some(i), Some(id)) if i == j => Value::Int(id),
            _ => self.stored_at(row, j),
        }
    }

    /// The values of the columns in a row: as many as are stored or named.
    pub fn shown<'a>(&'a self, alloc: Global, row: &Row<'a>) -> Result<Vec<Value<'a>>, AllocError>
        ensures { IfOk result (λ values. row_of values.items
            ≡ shown self.now (record { rowid = row.now.rowid; values = row.now.values })) }
    {
        let count = row.values.len().max(self.names.len());
        let mut values = Vec::with_capacity(alloc, count)?;
        for j in 0..count {
            values.push(self.value_at(row, j))?;
        }
        Ok(values)
    }
}
