//! The row in a cell of a tree (fileformat2, 1.6 and 2.1).
ghost use Rattle.std.specs.Prelude.{◌≡◌, ℕ, IfOk, IfErr};
ghost use Rattle.sqval.specs.Database.{Database};
ghost use Rattle.sqval.specs.Record.{Refused};
ghost use Rattle.sqpage.specs.Chain.{IsPayload};
ghost use Rattle.sqrows.specs.Trees.{entry_of};
ghost use Rattle.sqrows.specs.Rows.{IsRowIn};

use sqpage::Cell;
use sqval::{Record, RecordError};

/// A row of a tree: its rowid, and its values as they are stored.
#[derive(Debug, Drop)]
pub struct Row<'a> {
    /// Its key in a table. An index has none, nor has a table WITHOUT ROWID.
    pub rowid: Option<i64>,
    /// One for each column that is stored: behind ALTER TABLE ADD COLUMN those of older rows are fewer.
    pub values: Record<'a>,
}

/// The row in a cell whose payload these bytes are. Nothing is copied. Refused as `Record::new` does.
pub fn read_row<'a>(cell: &Cell, bytes: &'a [u8]) -> Result<Row<'a>, RecordError>
    // It is the row in the cell, where these bytes are the cell's payload.
    ensures ok { IfOk result (λ row. (d : Database) (index : ℕ) → IsPayload d cell.now bytes.now → IsRowIn d
        (entry_of index cell.now) (record { rowid = row.rowid; values = row.values })) }
    ensures err { IfErr result (λ error. Refused error bytes.now) }
{
    Ok(Row {
        rowid: cell.rowid,
        values: Record::new(bytes)?,
    })
}
