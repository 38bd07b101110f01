//! The column of a table that is another name for its rowid.
ghost use Rattle.std.specs.Prelude.{◌≡◌, ◌<◌, ℕ, length, Some, MatchOption, slice_get, option_copied};
ghost use Rattle.sqtables.specs.Texts.{lone_key, key_by, is_key_column, IsAliasBy, IsAlias};

use sqlite_ast::{Keyed, Rule, TableBody};
use sqlite_value::value::Bytes;

/// The lone column of a primary key.
fn lone_key_of(rule: &Rule) -> Option<&Keyed>
    ensures { option_copied result ≡ lone_key rule.now }
{
    match rule {
        Rule::PrimaryKey(keys) | Rule::CountedKey(keys) => match keys.as_slice() {
            [key] => Some(key),
            _ => None,
        },
        _ => None,
    }
}

/// Whether a column, a name and a type, has this name, and its type is INTEGER.
pub fn is_integer(column: &(Bytes, Bytes), name: &[u8]) -> bool
    ensures { result ≡ is_key_column (Some column.now) name.now }
{
    column.0.as_slice().eq_ignore_ascii_case(name)
        && column.1.as_slice().eq_ignore_ascii_case(b"integer")
}

/// The lone column of the primary key that rule `k` states.
fn key_at(body: &TableBody, k: usize) -> Option<&Keyed>
    ensures { option_copied result ≡ key_by (slice_get body.now.rules k) }
{
    match body.rules.get(k) {
        Some(rule) => lone_key_of(rule),
        None => None,
    }
}

/// Whether column `i` has this name, and its type is INTEGER.
fn is_integer_at(body: &TableBody, name: &[u8], i: usize) -> bool
    ensures { result ≡ is_key_column (slice_get body.now.columns i) name.now }
{
    match body.columns.get(i) {
        Some(column) => is_integer(column, name),
        None => false,
    }
}

/// The column of a table that rule `k` makes another name for its rowid.
fn alias_by(body: &TableBody, k: usize) -> Option<usize>
    requires { k < length body.now.rules }
    ensures { MatchOption result ((i : ℕ) → ¬ IsAliasBy body.now k i) (IsAliasBy body.now k) }
{
    let key = key_at(body, k)?;
    for i in 0..body.columns.len() {
        if is_integer_at(body, key.name.as_slice(), i) {
            return Some(i);
        }
    }
    None
}

/// The column of a table that is another name for its rowid, by its rules. A table WITHOUT ROWID has none, whatever
/// these say.
pub fn alias_of(body: &TableBody) -> Option<usize>
    ensures { MatchOption result ((i : ℕ) → ¬ IsAlias body.now i) (IsAlias body.now) }
{
    for k in 0..body.rules.len() {
        match alias_by(body, k) {
            Some(i) => return Some(i),
            None => {}
        }
    }
    None
}
