//! The indexes that the constraints of a table make (SQLite's lang_createtable).
ghost use Rattle.std.specs.Prelude.{◌≡◌, ◌⊎◌, ◌-◌, ◌<◌, ◌≤◌, Some, None, map, slice_get, option_map};
ghost use Rattle.std.specs.Prelude.{MatchOption, OnOk, IfOk};
ghost use Rattle.std.specs.List.{list_any};
ghost use Rattle.sqtables.specs.Texts.{is_key_column};
ghost use Rattle.sqkeys.specs.Constraints.{is_rowid, constrained, collation_for, is_like, repeats, with_columns};
ghost use Rattle.sqkeys.specs.Constraints.{indexes_of, IsNoNumber, IsNumbered, IsAutomaticKey, HasNoAutomatic};

use crate::key::{IndexKey, key_over};
use crate::rule::collation_of;
use crate::text::rowid_table;
use sqlite_ast::{Keyed, Rule, TableBody};
use sqlite_value::keys::Collation;
use sqtables::is_integer;
use std::alloc::{AllocError, Global};

/// The most rules of a table that are compared with each other (own).
const MOST_RULES: usize = 1000;

/// Whether some column has this name and INTEGER as its type.
fn has_integer(body: &TableBody, name: &[u8]) -> bool
    ensures { result ≡ list_any (λ column. is_key_column (Some column) name.now) body.now.columns }
{
    let columns = body.columns.as_slice();
    columns.iter().any(|column| is_integer(column, name))
}

/// Whether a primary key over these columns is another name for the rowid.
fn is_rowid(body: &TableBody, named: &[Keyed]) -> bool
    ensures { result ≡ is_rowid body.now named.now }
{
    match named {
        [keyed] => has_integer(body, keyed.name.as_slice()),
        _ => false,
    }
}

/// The columns over which a rule makes an index.
fn constrained<'a>(body: &TableBody, rule: &'a Rule) -> Option<&'a [Keyed]>
    ensures { option_map (λ named. named.now) result ≡ constrained body.now rule.now }
{
    match rule {
        Rule::Unique(named) | Rule::DescendingKey(named) => Some(named.as_slice()),
        Rule::PrimaryKey(named) | Rule::CountedKey(named) => {
            if is_rowid(body, named.as_slice()) {
                None
            } else {
                Some(named.as_slice())
            }
        }
        _ => None,
    }
}

/// The collation of a column of a key.
fn collation_for(body: &TableBody, keyed: &Keyed) -> Collation
    ensures { result ≡ collation_for body.now keyed.now }
{
    match keyed.collation {
        Some(collation) => collation,
        None => collation_of(body, keyed.name.as_slice()),
    }
}

/// Whether two columns of keys are one, sorted by the same collation.
pub(crate) fn is_like(body: &TableBody, a: &Keyed, b: &Keyed) -> bool
    ensures { result ≡ is_like body.now a.now b.now }
{
    a.name.as_slice().eq_ignore_ascii_case(b.name.as_slice())
        && collation_for(body, a).code() == collation_for(body, b).code()
}

/// Whether a constraint repeats another.
fn repeats(body: &TableBody, named: &[Keyed], others: &[Keyed]) -> bool
    ensures { result ≡ repeats body.now named.now others.now }
{
    match named {
        [] => others.is_empty(),
        [a, named @ ..] => match others {
            [] => false,
            [b, others @ ..] => is_like(body, a, b) && repeats(body, named, others),
        },
    }
}

/// Whether it repeats one of these.
fn repeats_any(body: &TableBody, named: &[Keyed], before: &[&[Keyed]]) -> bool
    ensures { result ≡ list_any (λ others. repeats body.now named.now others.now) before.now }
{
    before.iter().any(|others| repeats(body, named, others))
}

/// Adds the columns of a constraint, unless it repeats one before it.
fn add<'a>(
    body: &TableBody,
    before: &mut Vec<&'a [Keyed]>,
    named: &'a [Keyed],
) -> Result<(), AllocError>
    ensures { OnOk result (map (λ named. named.now) before.new.items
        ≡ with_columns body.now (map (λ named. named.now) before.old.items) (Some named.entry.now)) }
{
    if repeats_any(body, named, before.as_slice()) {
        return Ok(());
    }
    before.push(named)?;
    Ok(())
}

/// The columns of the indexes that the constraints of a table make.
fn indexes_of(alloc: Global, body: &TableBody) -> Result<Vec<&[Keyed]>, AllocError>
    ensures { IfOk result (λ found. map (λ named. named.now) found.items ≡ indexes_of body.now body.now.rules) }
{
    let mut found = Vec::new(alloc);
    for rule in body.rules.as_slice() {
        match constrained(body, rule) {
            Some(named) => add(body, &mut found, named)?,
            None => {}
        }
    }
    Ok(found)
}

/// The columns of the index of this number, from 1.
pub(crate) fn index_numbered(
    alloc: Global,
    body: &TableBody,
    number: u32,
) -> Result<Option<&[Keyed]>, AllocError>
    ensures { IfOk result (λ found. MatchOption found (IsNoNumber body.now number)
        (λ named. IsNumbered body.now number named.now)) }
{
    if number == 0 || body.rules.len() > MOST_RULES {
        return Ok(None);
    }
    let found = indexes_of(alloc, body)?;
    match found.get(number as usize - 1) {
        Some(named) => Ok(Some(*named)),
        None => Ok(None),
    }
}

/// The key of the index that a constraint of a table made, which has no text: that of this number, from 1, behind the
/// last `_` of its name. From the table's text, in UTF-8, and the number of the schema's format in the header. None
/// where the text isn't understood, or has no such constraint. It takes memory for some hundred times the text's bytes.
pub fn automatic_key_of(
    alloc: Global,
    table: &[u8],
    number: u32,
    schema_format: u32,
) -> Result<Option<IndexKey>, AllocError>
    // The index has this key; or it is said why none is known.
    ensures { IfOk result (λ found. MatchOption found (HasNoAutomatic table.now number schema_format)
        (IsAutomaticKey table.now number schema_format)) }
{
    let Some(made) = rowid_table(alloc, table)? else {
        return Ok(None);
    };
    match index_numbered(alloc, &made.body, number)? {
        Some(named) => key_over(alloc, &made.body, schema_format, named, true),
        None => Ok(None),
    }
}
