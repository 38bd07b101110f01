//! What the rows of a table keep to (SQLite's lang_createtable, stricttables and lang_altertable).
ghost use Rattle.std.specs.Prelude.{◌≡◌, ℕ, None, IfOk, MatchOption, slice_get};
ghost use Rattle.std.specs.List.{list_any};
ghost use Rattle.std.specs.Str.{str_eq_ignore_ascii_case};
ghost use Rattle.sqtables.specs.Texts.{IsAlias};
ghost use Rattle.sqkeys.specs.Accepted.{accepts_at};
ghost use Rattle.sqkeys.specs.RowRules.{forbids_null, is_not_null, is_not_null_at, is_free, IsRuleOf};
ghost use Rattle.sqkeys.specs.RowRules.{IsUntyped, AreRulesIn, AreRulesOf, HasNoRules};

use crate::accepts::{Accepts, accepts_at};
use crate::column::is_alias;
use crate::default::default_at;
use crate::text::rows_table;
use sqlite_ast::{CreateTable, Keyed, Rule};
use sqlite_value::value::Value;
use std::alloc::{AllocError, Global};

/// What the values of a column keep to.
#[derive(Debug, Drop)]
pub struct ColumnRule {
    /// Whether none of them is NULL.
    pub not_null: bool,
    /// What they are beside NULL.
    pub accepts: Accepts,
    /// The value in a row that doesn't store the column; a text is in UTF-8. None where it isn't known.
    pub default: Option<Value>,
}

/// Whether a key has a column of this name.
pub(crate) fn has_column(keys: &[Keyed], name: &[u8]) -> bool
    ensures { result ≡ list_any (λ keyed. str_eq_ignore_ascii_case keyed.name name.now) keys.now }
{
    keys.iter()
        .any(|keyed| keyed.name.as_slice().eq_ignore_ascii_case(name))
}

/// Whether a rule forbids NULL in the column of this name.
fn forbids_null(rule: &Rule, is_strict: bool, name: &[u8]) -> bool
    ensures { result ≡ forbids_null is_strict name.now rule.now }
{
    match rule {
        Rule::NotNull(column) => column.as_slice().eq_ignore_ascii_case(name),
        Rule::PrimaryKey(keys) | Rule::DescendingKey(keys) | Rule::CountedKey(keys) => {
            is_strict && has_column(keys.as_slice(), name)
        }
        _ => false,
    }
}

/// Whether a table forbids NULL in the column of this name.
pub(crate) fn is_not_null(made: &CreateTable, name: &[u8]) -> bool
    ensures { result ≡ is_not_null made.now name.now }
{
    let rules = made.body.rules.as_slice();
    let is_strict = made.is_strict;
    rules.iter().any(|rule| forbids_null(rule, is_strict, name))
}

/// Whether it does in column `j`.
fn is_not_null_at(made: &CreateTable, j: usize) -> bool
    ensures { result ≡ is_not_null_at made.now (slice_get made.now.body.columns j) }
{
    match made.body.columns.get(j) {
        Some(column) => is_not_null(made, column.0.as_slice()),
        None => false,
    }
}

/// What another name for the rowid keeps to: rows store it as NULL.
fn free() -> ColumnRule
    ensures { result ≡ is_free }
{
    ColumnRule {
        not_null: false,
        accepts: Accepts::All,
        default: Some(Value::Null),
    }
}

/// What column `j` of a table keeps to. None where its type isn't understood.
fn rule_at(alloc: Global, made: &CreateTable, j: usize) -> Result<Option<ColumnRule>, AllocError>
    ensures { IfOk result (λ found. MatchOption found
        (accepts_at made.now.is_strict (slice_get made.now.body.columns j) ≡ None) (IsRuleOf made.now j)) }
{
    if is_alias(&made.body, j) {
        return Ok(Some(free()));
    }
    let Some(accepts) = accepts_at(made, j) else {
        return Ok(None);
    };
    let default = default_at(alloc, &made.body, j)?;
    Ok(Some(ColumnRule {
        not_null: is_not_null_at(made, j),
        accepts,
        default,
    }))
}

/// What each column of a table keeps to.
fn rules_in(alloc: Global, made: &CreateTable) -> Result<Option<Vec<ColumnRule>>, AllocError>
    ensures { IfOk result (λ found. MatchOption found ((j : ℕ) × IsUntyped made.now j)
        (λ rules. AreRulesIn made.now rules.items)) }
{
    let mut rules = Vec::new(alloc);
    for j in 0..made.body.columns.len() {
        match rule_at(alloc, made, j)? {
            Some(rule) => rules.push(rule)?,
            None => return Ok(None),
        }
    }
    Ok(Some(rules))
}

/// What each column of a table keeps to in its rows, in the order in which they store them. From the table's text, in
/// UTF-8. None where it isn't understood, or is that of a table WITHOUT ROWID. It takes memory for some hundred times
/// the text's bytes.
pub fn rules_of(alloc: Global, table: &[u8]) -> Result<Option<Vec<ColumnRule>>, AllocError>
    // They are those of the table; or it is said why none are known.
    ensures { IfOk result (λ found. MatchOption found (HasNoRules table.now)
        (λ rules. AreRulesOf table.now rules.items)) }
{
    match rows_table(alloc, table)? {
        Some(made) => rules_in(alloc, &made),
        None => Ok(None),
    }
}
