//! The tables and indexes that the texts of a schema make.
ghost use Rattle.std.specs.Prelude.{false, true, IfOk, MatchOption};
ghost use Rattle.sqkeys.specs.Keys.{MakesRowids, ReadsAs, IsNoTable, IsNoIndex};
ghost use Rattle.sqkeys.specs.Keyed.{MakesKeyed, IsNoKeyed};
ghost use Rattle.sqkeys.specs.Entries.{IsNotPartial, ReadsAsNone};
ghost use Rattle.sqkeys.specs.RowRules.{MakesRows, HasNoRows};
ghost use Rattle.sqkeys.specs.internal.Reading.{IsOnlyTable, HasNoTable, IsOnlyIndex, HasNoIndex};

use schema_ast::{MadeIndex, MadeTable, made_index, made_table};
use sqlite_ast::{CreateIndex, CreateTable};
use std::alloc::{AllocError, Global};

/// The longest text that is read (own): reading it takes memory for some hundred times its bytes.
const MOST_TEXT: usize = 1_048_576;

/// The table that a text makes, if no VIRTUAL column keeps to a rule.
fn table_in(alloc: Global, text: &[u8]) -> Result<Option<MadeTable>, AllocError>
    ensures { IfOk result (λ found. MatchOption found (HasNoTable text.now) (IsOnlyTable text.now)) }
{
    if text.len() > MOST_TEXT {
        return Ok(None);
    }
    let Some(made) = made_table(alloc, text)? else {
        return Ok(None);
    };
    if made.bound { Ok(None) } else { Ok(Some(made)) }
}

/// The table with rowids that a text makes.
pub(crate) fn rows_table(alloc: Global, text: &[u8]) -> Result<Option<CreateTable>, AllocError>
    ensures { IfOk result (λ found. MatchOption found (HasNoRows text.now) (MakesRows text.now)) }
{
    match table_in(alloc, text)? {
        Some(made) => {
            if made.without_rowid {
                Ok(None)
            } else {
                Ok(Some(made.def))
            }
        }
        None => Ok(None),
    }
}

/// The same, if SQLite has the collations of its columns and keys by itself.
pub(crate) fn rowid_table(alloc: Global, text: &[u8]) -> Result<Option<CreateTable>, AllocError>
    ensures { IfOk result (λ found. MatchOption found (IsNoTable text.now) (MakesRowids text.now)) }
{
    match table_in(alloc, text)? {
        Some(made) => {
            if made.without_rowid {
                Ok(None)
            } else if made.clear {
                Ok(Some(made.def))
            } else {
                Ok(None)
            }
        }
        None => Ok(None),
    }
}

/// The table WITHOUT ROWID that a text makes, with such collations.
pub(crate) fn keyed_table(alloc: Global, text: &[u8]) -> Result<Option<CreateTable>, AllocError>
    ensures { IfOk result (λ found. MatchOption found (IsNoKeyed text.now) (MakesKeyed text.now)) }
{
    match table_in(alloc, text)? {
        Some(made) => {
            if !made.without_rowid {
                Ok(None)
            } else if made.clear {
                Ok(Some(made.def))
            } else {
                Ok(None)
            }
        }
        None => Ok(None),
    }
}

/// The index over columns that a text makes.
fn index_in(alloc: Global, text: &[u8]) -> Result<Option<MadeIndex>, AllocError>
    ensures { IfOk result (λ found. MatchOption found (HasNoIndex text.now) (IsOnlyIndex text.now)) }
{
    if text.len() > MOST_TEXT {
        return Ok(None);
    }
    made_index(alloc, text)
}

/// The index without WHERE that a text makes.
pub(crate) fn index_text(alloc: Global, text: &[u8]) -> Result<Option<CreateIndex>, AllocError>
    ensures { IfOk result (λ found. MatchOption found (IsNoIndex text.now) (ReadsAs text.now false)) }
{
    match index_in(alloc, text)? {
        Some(made) => {
            if made.partial {
                Ok(None)
            } else {
                Ok(Some(made.def))
            }
        }
        None => Ok(None),
    }
}

/// The index with WHERE that a text makes.
pub(crate) fn partial_text(alloc: Global, text: &[u8]) -> Result<Option<CreateIndex>, AllocError>
    ensures { IfOk result (λ found. MatchOption found (IsNotPartial text.now) (ReadsAs text.now true)) }
{
    match index_in(alloc, text)? {
        Some(made) => {
            if made.partial {
                Ok(Some(made.def))
            } else {
                Ok(None)
            }
        }
        None => Ok(None),
    }
}

/// The index that a text makes, and whether it has WHERE.
pub(crate) fn either_text(
    alloc: Global,
    text: &[u8],
) -> Result<Option<(bool, CreateIndex)>, AllocError>
    ensures { IfOk result (λ found. MatchOption found (ReadsAsNone text.now)
        (λ indexed. ReadsAs text.now indexed.0 indexed.1)) }
{
    match index_in(alloc, text)? {
        Some(made) => Ok(Some((made.partial, made.def))),
        None => Ok(None),
    }
}
