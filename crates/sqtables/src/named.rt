//! The columns that the text of a table names.
ghost use Rattle.std.specs.Prelude.{◌≡◌, ◌<◌, All, IfOk, map};
ghost use Rattle.sqtables.specs.Named.{HasColumns, AreColumns, IsBare};
ghost use Rattle.sqtables.specs.internal.KeyColumns.{AreKeyed};

use crate::columns::Columns;
use crate::defaults::{defaults_of, needed_of};
use crate::keys::{places_of, plain_key};
use crate::text::alias_of;
use schema_ast::made_table;
use sqlite_ast::CreateTable;
use sqlite_value::value::Bytes;
use std::alloc::{AllocError, Global};

/// The names of columns.
fn names_of(alloc: Global, columns: &[(Bytes, Bytes)]) -> Result<Vec<Vec<u8>>, AllocError>
    ensures { IfOk result (λ names. map (λ n. n.items) names.items ≡ map (λ c. c.0) columns.now) }
{
    let mut names = Vec::with_capacity(alloc, columns.len())?;
    for column in columns {
        names.push(Vec::from_slice(alloc, column.0.as_slice())?)?;
    }
    Ok(names)
}

/// The columns of a table that stand at these places.
fn columns_in(
    alloc: Global,
    def: &CreateTable,
    alias: Option<usize>,
    places: Vec<usize>,
) -> Result<Columns, AllocError>
    requires { All (λ place. place < 18446744073709551615) places.items }
    ensures { IfOk result (HasColumns def.now alias places.items) }
{
    let defaults = defaults_of(alloc, def)?;
    let needed = needed_of(&defaults, &places);
    Ok(Columns {
        names: names_of(alloc, def.body.columns.as_slice())?,
        alias,
        defaults,
        needed,
        places,
    })
}

/// No columns.
fn bare(alloc: Global) -> Columns
    ensures { IsBare result }
{
    Columns {
        names: Vec::new(alloc),
        alias: None,
        defaults: Vec::new(alloc),
        needed: 0,
        places: Vec::new(alloc),
    }
}

/// The columns of a table WITHOUT ROWID; none where its key isn't understood.
fn key_columns(alloc: Global, def: &CreateTable) -> Result<Columns, AllocError>
    ensures { IfOk result (AreKeyed def.now) }
{
    match plain_key(&def.body) {
        Some(keys) => {
            let places = places_of(alloc, keys, def.body.columns.as_slice())?;
            columns_in(alloc, def, None, places)
        }
        None => Ok(bare(alloc)),
    }
}

/// The columns of the table that the text of the schema makes, in the order of the text, but for VIRTUAL ones, which
/// rows don't store. No column is named if the text isn't understood, if one is STORED (an INSERT can't give its
/// value), or if the table is WITHOUT ROWID and its key has a column twice.
#[tactic(auto, using(crate::proofs::ColumnsNamed::rows_made))]
pub fn columns_of(alloc: Global, text: &[u8]) -> Result<Columns, AllocError>
    ensures ok { IfOk result (AreColumns text.now) }
{
    let Some(found) = made_table(alloc, text)? else {
        return Ok(bare(alloc));
    };
    if found.computed {
        return Ok(bare(alloc));
    }
    if found.without_rowid {
        let columns = key_columns(alloc, &found.def)?;
        return Ok(columns);
    }
    let alias = alias_of(&found.def.body);
    let columns = columns_in(alloc, &found.def, alias, Vec::new(alloc))?;
    Ok(columns)
}
