//! Where the rows of a table WITHOUT ROWID store its columns (fileformat2, 2.4).
ghost use Rattle.std.specs.Prelude.{◌≡◌, ◌<◌, ◌≤◌, All, IfOk, MatchOption, Some, length, option_map, true, false};
ghost use Rattle.sqlite_ast.specs.declared.Keyed.{Keyed as SpecKeyed};
ghost use Rattle.std.specs.Prelude.{List};
ghost use Rattle.sqdefaults.specs.Defaults.{last_said};
ghost use Rattle.sqtables.specs.Keys.{primary_in, own_place, place_in_key, places_of, HasPlainKey, IsPlainKey};

use sqlite_ast::{Keyed, Rule, TableBody};
use sqlite_value::value::Bytes;
use std::alloc::{AllocError, Global};

/// The most columns of a key that is understood (own).
const MOST_KEYED: usize = 1000;

/// The columns of the primary key that a rule states.
fn primary_in(rule: &Rule) -> Option<&[Keyed]>
    ensures { option_map (λ named. named.now) result ≡ primary_in rule.now }
{
    match rule {
        Rule::PrimaryKey(named) | Rule::DescendingKey(named) => Some(named.as_slice()),
        _ => None,
    }
}

/// The columns of the primary key: those that the last of its rules states.
pub fn primary_of(rules: &[Rule]) -> Option<&[Keyed]>
    ensures { option_map (λ named. named.now) result ≡ last_said primary_in rules.now }
{
    let mut found = None;
    for rule in rules {
        found = primary_in(rule).or(found);
    }
    found
}

/// The place of a column of this name in a key.
fn place_in_key(keys: &[Keyed], name: &[u8]) -> Option<usize>
    ensures { result ≡ place_in_key keys.now name.now }
{
    keys.iter()
        .position(|key| key.name.as_slice().eq_ignore_ascii_case(name))
}

/// The first place of the name that stands at a place of a key.
fn own_place(keys: &[Keyed], i: usize) -> Option<usize>
    ensures { result ≡ own_place keys.now i }
{
    match keys.get(i) {
        Some(key) => place_in_key(keys, key.name.as_slice()),
        None => None,
    }
}

/// Whether no column stands twice in a key.
fn is_plain(keys: &[Keyed]) -> bool
    ensures yes { result ≡ true → IsPlainKey keys.now }
    ensures not { result ≡ false → ¬ IsPlainKey keys.now }
{
    if keys.len() > MOST_KEYED {
        return false;
    }
    for i in 0..keys.len() {
        if own_place(keys, i) != Some(i) {
            return false;
        }
    }
    true
}

/// The primary key of a table, where no column stands twice in it.
pub(crate) fn plain_key(body: &TableBody) -> Option<&[Keyed]>
    ensures { MatchOption result ((keys : List SpecKeyed) → ¬ HasPlainKey body.now keys)
        (λ keys. HasPlainKey body.now keys.now) }
{
    match primary_of(body.rules.as_slice()) {
        Some(keys) => { if is_plain(keys) { Some(keys) } else { None } }
        None => None,
    }
}

/// Where rows store each column of a table with this key.
pub(crate) fn places_of(
    alloc: Global,
    keys: &[Keyed],
    columns: &[(Bytes, Bytes)],
) -> Result<Vec<usize>, AllocError>
    ensures { IfOk result (λ places. (places.items ≡ places_of keys.now (length keys.now) columns.now)
        × All (λ place. place < 18446744073709551615) places.items) }
{
    let mut places = Vec::with_capacity(alloc, columns.len())?;
    let mut next = keys.len();
    for column in columns {
        match place_in_key(keys, column.0.as_slice()) {
            Some(place) => places.push(place)?,
            None => {
                places.push(next)?;
                next += 1;
            }
        }
    }
    Ok(places)
}
