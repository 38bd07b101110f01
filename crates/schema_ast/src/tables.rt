//! The table that the text of a table creates.
ghost use Rattle.std.specs.Prelude.{◌≡◌, ◌++◌, ◌&&◌, map, filter, Some, IfOk, IfSome};
ghost use Rattle.std.specs.List.{list_all, list_any, flat_map};
ghost use Rattle.schema_columns.specs.Columns.{columns_of, is_strict, is_without_rowid};
ghost use Rattle.schema_ast.specs.Tables.{is_kept, is_rowid_name, is_computed, is_bound, kept_columns};
ghost use Rattle.schema_ast.specs.Tables.{column_for, column_rules};
ghost use Rattle.schema_ast.specs.Tables.{key_rule, key_rules};
ghost use Rattle.schema_ast.specs.Tables.{table_of, is_known, is_known_key, is_collated, is_clear, MakesTable};
ghost use Rattle.schema_ast.specs.declared.tables.MadeTable.{MadeTable};

use crate::rules::{
    Keys, collation_of, columns_in, is_kept, own_name, rules_of_columns, rules_of_keys,
};
use crate::types::type_for;
use schema_columns::{
    Column, Key, columns_of, integer_key, is_stored, is_strict, is_without_rowid, keys_of, name_at,
    written_type,
};
use schema_index::KeyColumn;
use schema_print::Head;
use schema_text::{Clause, TableText, read_table};
use schema_tokens::{Piece, is_same_word, text_of};
use sqlite_ast::{CreateTable, TableBody};
use sqlite_items::Items;
use sqlite_value::value::Bytes;
use std::alloc::{AllocError, Global};

/// What the text of a table creates.
#[derive(Drop)]
pub struct MadeTable {
    /// It is WITHOUT ROWID.
    pub without_rowid: bool,
    /// One of its columns is STORED, or is generated and hides one of the rowid's names.
    pub computed: bool,
    /// One of its columns is VIRTUAL, and NOT NULL or of a STRICT table: rows don't show whether its values keep to it.
    pub bound: bool,
    /// SQLite has the collations of its columns and keys by itself, and each column of a key is one of the table's.
    pub clear: bool,
    /// Its columns that rows store, with a word for their types, and what these and its keys state. A collation that
    /// SQLite doesn't have by itself is left out.
    pub def: CreateTable,
}

/// Whether it is one of the rowid's names.
#[tactic(auto, unfolding(crate::specs::Tables::is_rowid_name))]
fn is_rowid_name(name: &[u8]) -> bool
    ensures { result ≡ is_rowid_name name.now }
{
    is_same_word(b"rowid", name) || is_same_word(b"_rowid_", name) || is_same_word(b"oid", name)
}

#[tactic(auto, unfolding(crate::specs::Tables::is_computed))]
fn is_computed(
    alloc: Global,
    text: &[u8],
    tokens: &[Piece],
    column: &Column,
) -> Result<bool, AllocError>
    ensures { IfOk result (λ b. b ≡ is_computed text.now tokens.now column.now) }
{
    match column.generated {
        Some(clause) => {
            let name = name_at(alloc, text, tokens, column.name)?;
            Ok(is_stored(text, tokens, &clause) || is_rowid_name(&name))
        }
        None => Ok(false),
    }
}

/// Whether one of these columns is STORED, or is generated and hides one of the rowid's names.
fn has_computed(
    alloc: Global,
    text: &[u8],
    tokens: &[Piece],
    columns: &[Column],
) -> Result<bool, AllocError>
    ensures { IfOk result (λ b. b ≡ list_any (is_computed text.now tokens.now) columns.now) }
{
    for column in columns {
        if is_computed(alloc, text, tokens, column)? {
            return Ok(true);
        }
    }
    Ok(false)
}

#[tactic(auto, unfolding(crate::specs::Tables::is_bound))]
fn is_bound(text: &[u8], tokens: &[Piece], strict: bool, column: &Column) -> bool
    ensures { result ≡ is_bound text.now tokens.now strict column.now }
{
    !is_kept(text, tokens, column) && (column.not_null || strict)
}

/// Whether one of these columns is VIRTUAL, and NOT NULL or of a STRICT table.
fn has_bound(text: &[u8], tokens: &[Piece], strict: bool, columns: &[Column]) -> bool
    ensures { result ≡ list_any (is_bound text.now tokens.now strict) columns.now }
{
    columns.iter().any(|c| is_bound(text, tokens, strict, c))
}

/// The columns that rows store.
#[tactic(auto, using(std::proofs::lemmas::List::Elements::filter_more))]
fn kept_among(
    alloc: Global,
    text: &[u8],
    tokens: &[Piece],
    columns: &[Column],
) -> Result<Vec<Column>, AllocError>
    ensures { IfOk result (λ v. v.items ≡ filter (is_kept text.now tokens.now) columns.now) }
{
    let mut kept = Vec::new(alloc);
    for column in columns {
        if is_kept(text, tokens, column) {
            kept.push(*column)?;
        }
    }
    Ok(kept)
}

#[tactic(auto, unfolding(crate::specs::Tables::column_for))]
fn column_for(
    alloc: Global,
    text: &[u8],
    tokens: &[Piece],
    column: &Column,
) -> Result<(Bytes, Bytes), AllocError>
    ensures { IfOk result (λ c. c ≡ column_for text.now tokens.now column.now) }
{
    let name = own_name(alloc, text, tokens, column.name)?;
    let type_name = type_for(alloc, written_type(text, tokens, column))?;
    Ok((name, type_name))
}

fn columns_for(
    alloc: Global,
    text: &[u8],
    tokens: &[Piece],
    columns: &[Column],
) -> Result<Items<(Bytes, Bytes)>, AllocError>
    ensures { IfOk result (λ all. all ≡ map (column_for text.now tokens.now) columns.now) }
{
    let mut all = Items::new(alloc);
    for column in columns {
        all.push(column_for(alloc, text, tokens, column)?)?;
    }
    Ok(all)
}

/// The table of these columns, some of them stored in rows, and keys.
fn body_of(
    alloc: Global,
    text: &[u8],
    tokens: &[Piece],
    of: &Keys<'_>,
    keys: &[Key],
) -> Result<TableBody, AllocError>
    ensures columns { IfOk result (λ b. b.columns
        ≡ map (column_for text.now tokens.now) (filter (is_kept text.now tokens.now) of.now.columns.now)) }
    ensures rules { IfOk result (λ b. b.rules
        ≡ flat_map (column_rules text.now tokens.now) (filter (is_kept text.now tokens.now) of.now.columns.now)
        ++ map (key_rule text.now tokens.now of.now.columns.now of.now.clauses.now of.now.integer) keys.now) }
{
    let kept = kept_among(alloc, text, tokens, of.columns)?;
    let mut rules = rules_of_columns(alloc, text, tokens, &kept)?;
    rules.append(rules_of_keys(alloc, text, tokens, of, keys)?)?;
    Ok(TableBody {
        columns: columns_for(alloc, text, tokens, &kept)?,
        rules,
    })
}

#[tactic(auto, unfolding(crate::specs::Tables::is_known))]
fn is_known(
    alloc: Global,
    text: &[u8],
    tokens: &[Piece],
    columns: &[Column],
    column: &KeyColumn,
) -> Result<bool, AllocError>
    ensures { IfOk result (λ b. b ≡ is_known text.now tokens.now columns.now column.now) }
{
    if column.column >= columns.len() {
        return Ok(false);
    }
    Ok(collation_of(alloc, text, tokens, column.collate)?.is_some())
}

fn are_known(
    alloc: Global,
    text: &[u8],
    tokens: &[Piece],
    columns: &[Column],
    key: &[KeyColumn],
) -> Result<bool, AllocError>
    ensures { IfOk result (λ b. b ≡ list_all (is_known text.now tokens.now columns.now) key.now) }
{
    for column in key {
        if !is_known(alloc, text, tokens, columns, column)? {
            return Ok(false);
        }
    }
    Ok(true)
}

#[tactic(auto, unfolding(crate::specs::Tables::is_known_key))]
fn is_known_key(
    alloc: Global,
    text: &[u8],
    tokens: &[Piece],
    of: &Keys<'_>,
    key: &Key,
) -> Result<bool, AllocError>
    ensures { IfOk result (λ b.
        b ≡ is_known_key text.now tokens.now of.now.columns.now of.now.clauses.now of.now.integer key.now) }
{
    let columns = columns_in(alloc, text, tokens, of, key)?;
    are_known(alloc, text, tokens, of.columns, &columns)
}

fn are_known_keys(
    alloc: Global,
    text: &[u8],
    tokens: &[Piece],
    of: &Keys<'_>,
    keys: &[Key],
) -> Result<bool, AllocError>
    ensures { IfOk result (λ b. b
        ≡ list_all (is_known_key text.now tokens.now of.now.columns.now of.now.clauses.now of.now.integer) keys.now) }
{
    for key in keys {
        if !is_known_key(alloc, text, tokens, of, key)? {
            return Ok(false);
        }
    }
    Ok(true)
}

#[tactic(auto, unfolding(crate::specs::Tables::is_collated))]
fn is_collated(
    alloc: Global,
    text: &[u8],
    tokens: &[Piece],
    column: &Column,
) -> Result<bool, AllocError>
    ensures { IfOk result (λ b. b ≡ is_collated text.now tokens.now column.now) }
{
    Ok(collation_of(alloc, text, tokens, column.collate)?.is_some())
}

fn are_collated(
    alloc: Global,
    text: &[u8],
    tokens: &[Piece],
    columns: &[Column],
) -> Result<bool, AllocError>
    ensures { IfOk result (λ b. b ≡ list_all (is_collated text.now tokens.now) columns.now) }
{
    for column in columns {
        if !is_collated(alloc, text, tokens, column)? {
            return Ok(false);
        }
    }
    Ok(true)
}

/// Whether all collations are SQLite's own, and each column of a key is one of the table's.
fn is_clear(
    alloc: Global,
    text: &[u8],
    tokens: &[Piece],
    of: &Keys<'_>,
    keys: &[Key],
) -> Result<bool, AllocError>
    ensures { IfOk result (λ b. b ≡ (list_all (is_collated text.now tokens.now) of.now.columns.now
        && list_all (is_known_key text.now tokens.now of.now.columns.now of.now.clauses.now of.now.integer) keys.now)) }
{
    if are_collated(alloc, text, tokens, of.columns)? {
        are_known_keys(alloc, text, tokens, of, keys)
    } else {
        Ok(false)
    }
}

/// The table that a statement creates.
#[tactic(auto, unfolding(crate::specs::Tables::table_of, crate::specs::Tables::is_clear))]
fn table_of(
    alloc: Global,
    text: &[u8],
    tokens: &[Piece],
    head: Head,
    clauses: &[Clause],
) -> Result<MadeTable, AllocError>
    ensures without_rowid { IfOk result (λ t. t.without_rowid ≡ is_without_rowid clauses.now) }
    ensures computed { IfOk result (λ t. t.computed
        ≡ list_any (is_computed text.now tokens.now) (columns_of clauses.now)) }
    ensures bound { IfOk result (λ t. t.bound
        ≡ list_any (is_bound text.now tokens.now (is_strict clauses.now)) (columns_of clauses.now)) }
    ensures clear { IfOk result (λ t. t.clear ≡ is_clear text.now tokens.now clauses.now) }
    ensures def { IfOk result (λ t. t.def ≡ table_of text.now tokens.now head clauses.now) }
{
    let columns = columns_of(alloc, clauses)?;
    let keys = keys_of(alloc, clauses)?;
    let of = Keys {
        clauses,
        columns: &columns,
        integer: integer_key(alloc, text, tokens, clauses)?,
    };
    Ok(MadeTable {
        without_rowid: is_without_rowid(clauses),
        computed: has_computed(alloc, text, tokens, &columns)?,
        bound: has_bound(text, tokens, is_strict(clauses), &columns),
        clear: is_clear(alloc, text, tokens, &of, &keys)?,
        def: CreateTable {
            if_missing: false,
            name: own_name(alloc, text, tokens, head.name)?,
            body: body_of(alloc, text, tokens, &of, &keys)?,
            is_strict: is_strict(clauses),
            resolves: false,
        },
    })
}

/// The table that the first statement of a text creates, as SQLite's loader reads it; None if that isn't CREATE TABLE.
pub fn made_table(alloc: Global, bytes: &[u8]) -> Result<Option<MadeTable>, AllocError>
    ensures found { IfOk result (λ r. IfSome r (λ t. MakesTable bytes.now t)) }
    ensures only { IfOk result (λ r. (t : MadeTable) → MakesTable bytes.now t → r ≡ Some t) }
{
    let Some(TableText { tokens, table }) = read_table(alloc, bytes)? else {
        return Ok(None);
    };
    let made = table_of(alloc, text_of(bytes), &tokens, table.head, &table.clauses)?;
    Ok(Some(made))
}
