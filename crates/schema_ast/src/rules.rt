//! What a table's columns and keys state.
ghost use Rattle.std.specs.Prelude.{◌≡◌, ◌++◌, map, IfOk, OnOk};
ghost use Rattle.std.specs.List.{flat_map};
ghost use Rattle.std.specs.Option.{option_to_list};
ghost use Rattle.schema_columns.specs.Keys.{name_at};
ghost use Rattle.schema_ast.specs.Tables.{collation_named, collation_of, is_kept, not_null_rule, collate_rule};
ghost use Rattle.schema_ast.specs.Tables.{default_rule, column_rules, column_name, keyed_of, columns_in};
ghost use Rattle.schema_ast.specs.Tables.{is_descending, rule_of, key_rule};

use crate::defaults::default_of;
use schema_columns::{Column, Key, integer_key, is_stored, keys_of, name_at};
use schema_index::{KeyColumn, collation_name, integer_column, key_columns};
use schema_text::Clause;
use schema_tokens::{Piece, is_same_word};
use sqlite_ast::{Keyed, Rule};
use sqlite_items::Items;
use sqlite_value::keys::Collation;
use sqlite_value::value::Bytes;
use std::alloc::{AllocError, Global};

/// The collation of a name, if SQLite has it by itself.
#[tactic(auto, unfolding(crate::specs::Tables::collation_named))]
pub fn collation_named(name: &[u8]) -> Option<Collation>
    ensures { result ≡ collation_named name.now }
{
    if is_same_word(b"BINARY", name) {
        Some(Collation::Binary)
    } else if is_same_word(b"NOCASE", name) {
        Some(Collation::NoCase)
    } else if is_same_word(b"RTRIM", name) {
        Some(Collation::RTrim)
    } else {
        None
    }
}

/// The collation that a COLLATE gives, or BINARY.
#[tactic(auto, unfolding(crate::specs::Tables::collation_of))]
pub fn collation_of(
    alloc: Global,
    text: &[u8],
    tokens: &[Piece],
    collate: Option<Clause>,
) -> Result<Option<Collation>, AllocError>
    ensures { IfOk result (λ k. k ≡ collation_of text.now tokens.now collate) }
{
    let name = collation_name(alloc, text, tokens, collate)?;
    Ok(collation_named(&name))
}

/// A name as the kit has it.
pub fn own_name(
    alloc: Global,
    text: &[u8],
    tokens: &[Piece],
    at: usize,
) -> Result<Bytes, AllocError>
    ensures { IfOk result (λ b. b ≡ name_at text.now tokens.now at) }
{
    let name = name_at(alloc, text, tokens, at)?;
    Bytes::from_slice(alloc, &name)
}

/// Whether rows store a column.
#[tactic(auto, unfolding(crate::specs::Tables::is_kept))]
pub fn is_kept(text: &[u8], tokens: &[Piece], column: &Column) -> bool
    ensures { result ≡ is_kept text.now tokens.now column.now }
{
    match column.generated {
        Some(clause) => is_stored(text, tokens, &clause),
        None => true,
    }
}

#[tactic(auto, unfolding(crate::specs::Tables::not_null_rule))]
fn not_null_rule(alloc: Global, name: &[u8], column: &Column) -> Result<Option<Rule>, AllocError>
    ensures { IfOk result (λ r. r ≡ not_null_rule name.now column.now) }
{
    if column.not_null {
        Ok(Some(Rule::NotNull(Bytes::from_slice(alloc, name)?)))
    } else {
        Ok(None)
    }
}

#[tactic(auto, unfolding(crate::specs::Tables::collate_rule))]
fn collate_rule(
    alloc: Global,
    text: &[u8],
    tokens: &[Piece],
    name: &[u8],
    column: &Column,
) -> Result<Option<Rule>, AllocError>
    ensures { IfOk result (λ r. r ≡ collate_rule text.now tokens.now name.now column.now) }
{
    let Some(clause) = column.collate else {
        return Ok(None);
    };
    match collation_of(alloc, text, tokens, Some(clause))? {
        Some(collation) => Ok(Some(Rule::Collate(Bytes::from_slice(alloc, name)?, collation))),
        None => Ok(None),
    }
}

#[tactic(auto, unfolding(crate::specs::Tables::default_rule))]
fn default_rule(
    alloc: Global,
    text: &[u8],
    tokens: &[Piece],
    name: &[u8],
    column: &Column,
) -> Result<Option<Rule>, AllocError>
    ensures { IfOk result (λ r. r ≡ default_rule text.now tokens.now name.now column.now) }
{
    match column.default {
        Some(clause) => Ok(Some(Rule::Default(
            Bytes::from_slice(alloc, name)?,
            default_of(alloc, text, tokens, &clause)?,
        ))),
        None => Ok(None),
    }
}

fn add(rules: &mut Items<Rule>, rule: Option<Rule>) -> Result<(), AllocError>
    ensures { OnOk result (rules.new ≡ rules.old ++ option_to_list rule) }
{
    if let Some(rule) = rule {
        rules.push(rule)?;
    }
    Ok(())
}

/// The rules in a column's definition.
#[tactic(auto, unfolding(crate::specs::Tables::column_rules))]
fn column_rules(
    alloc: Global,
    text: &[u8],
    tokens: &[Piece],
    column: &Column,
) -> Result<Items<Rule>, AllocError>
    ensures { IfOk result (λ r. r ≡ column_rules text.now tokens.now column.now) }
{
    let name = name_at(alloc, text, tokens, column.name)?;
    let mut rules = Items::new(alloc);
    add(&mut rules, not_null_rule(alloc, &name, column)?)?;
    add(
        &mut rules,
        collate_rule(alloc, text, tokens, &name, column)?,
    )?;
    add(
        &mut rules,
        default_rule(alloc, text, tokens, &name, column)?,
    )?;
    Ok(rules)
}

/// The rules in the columns' definitions.
pub fn rules_of_columns(
    alloc: Global,
    text: &[u8],
    tokens: &[Piece],
    columns: &[Column],
) -> Result<Items<Rule>, AllocError>
    ensures { IfOk result (λ r. r ≡ flat_map (column_rules text.now tokens.now) columns.now) }
{
    let mut rules = Items::new(alloc);
    for column in columns {
        rules.append(column_rules(alloc, text, tokens, column)?)?;
    }
    Ok(rules)
}

#[tactic(auto, unfolding(crate::specs::Tables::column_name))]
fn column_name(
    alloc: Global,
    text: &[u8],
    tokens: &[Piece],
    columns: &[Column],
    at: usize,
) -> Result<Bytes, AllocError>
    ensures { IfOk result (λ b. b ≡ column_name text.now tokens.now columns.now at) }
{
    match columns.get(at) {
        Some(column) => own_name(alloc, text, tokens, column.name),
        None => Bytes::from_slice(alloc, b""),
    }
}

#[tactic(auto, unfolding(crate::specs::Tables::keyed_of))]
fn keyed_of(
    alloc: Global,
    text: &[u8],
    tokens: &[Piece],
    columns: &[Column],
    column: &KeyColumn,
) -> Result<Keyed, AllocError>
    ensures { IfOk result (λ k. k ≡ keyed_of text.now tokens.now columns.now column.now) }
{
    Ok(Keyed {
        name: column_name(alloc, text, tokens, columns, column.column)?,
        collation: collation_of(alloc, text, tokens, column.collate)?,
        descending: column.descends,
    })
}

fn all_keyed(
    alloc: Global,
    text: &[u8],
    tokens: &[Piece],
    columns: &[Column],
    key: &[KeyColumn],
) -> Result<Items<Keyed>, AllocError>
    ensures { IfOk result (λ all. all ≡ map (keyed_of text.now tokens.now columns.now) key.now) }
{
    let mut all = Items::new(alloc);
    for column in key {
        all.push(keyed_of(alloc, text, tokens, columns, column)?)?;
    }
    Ok(all)
}

/// What keys are read from: the clauses, the columns of these, and which one is the PRIMARY KEY alone and INTEGER.
#[derive(Clone, Copy)]
pub struct Keys<'a> {
    pub clauses: &'a [Clause],
    pub columns: &'a [Column],
    pub integer: Option<usize>,
}

/// The columns of a key.
#[tactic(auto, unfolding(crate::specs::Tables::columns_in, schema_index::specs::Automatic::is_indexed))]
pub fn columns_in(
    alloc: Global,
    text: &[u8],
    tokens: &[Piece],
    of: &Keys<'_>,
    key: &Key,
) -> Result<Vec<KeyColumn>, AllocError>
    ensures { IfOk result (λ v. v.items
        ≡ columns_in text.now tokens.now of.now.columns.now of.now.clauses.now of.now.integer key.now) }
{
    match of.integer {
        Some(at) if key.primary => {
            let column = integer_column(alloc, of.columns, of.clauses, at)?;
            Vec::from_slice(alloc, &[column])
        }
        _ => key_columns(alloc, text, tokens, of.columns, of.clauses, key),
    }
}

/// Whether it is PRIMARY KEY DESC in a column's definition.
#[tactic(auto, unfolding(crate::specs::Tables::is_descending))]
fn is_descending(key: &Key, columns: &[KeyColumn]) -> bool
    ensures { result ≡ is_descending key.now columns.now }
{
    key.own
        && match columns.get(0) {
            Some(column) => column.descends,
            None => false,
        }
}

fn rule_of(key: &Key, columns: &[KeyColumn], named: Items<Keyed>) -> Rule
    ensures { result ≡ rule_of key.now columns.now named }
{
    if !key.primary {
        Rule::Unique(named)
    } else if is_descending(key, columns) {
        Rule::DescendingKey(named)
    } else {
        Rule::PrimaryKey(named)
    }
}

/// The rule that a key states.
#[tactic(auto, unfolding(crate::specs::Tables::key_rule))]
fn key_rule(
    alloc: Global,
    text: &[u8],
    tokens: &[Piece],
    of: &Keys<'_>,
    key: &Key,
) -> Result<Rule, AllocError>
    ensures { IfOk result (λ r.
        r ≡ key_rule text.now tokens.now of.now.columns.now of.now.clauses.now of.now.integer key.now) }
{
    let columns = columns_in(alloc, text, tokens, of, key)?;
    let named = all_keyed(alloc, text, tokens, of.columns, &columns)?;
    Ok(rule_of(key, &columns, named))
}

/// The rules that the keys state, in order.
pub fn rules_of_keys(
    alloc: Global,
    text: &[u8],
    tokens: &[Piece],
    of: &Keys<'_>,
    keys: &[Key],
) -> Result<Items<Rule>, AllocError>
    ensures { IfOk result (λ all.
        all ≡ map (key_rule text.now tokens.now of.now.columns.now of.now.clauses.now of.now.integer) keys.now) }
{
    let mut all = Items::new(alloc);
    for key in keys {
        all.push(key_rule(alloc, text, tokens, of, key)?)?;
    }
    Ok(all)
}
