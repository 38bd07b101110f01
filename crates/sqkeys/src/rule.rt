//! The collations that the rules of a table say of its columns.
ghost use Rattle.std.specs.Prelude.{◌≡◌};
ghost use Rattle.sqdefaults.specs.Defaults.{last_said};
ghost use Rattle.sqkeys.specs.Columns.{collation_in, collation_of};

use sqlite_ast::{Rule, TableBody};
use sqlite_value::keys::Collation;

/// The collation that a rule says of a column.
fn collation_in(rule: &Rule, name: &[u8]) -> Option<Collation>
    ensures { result ≡ collation_in name.now rule.now }
{
    match rule {
        Rule::Collate(column, collation) if column.as_slice().eq_ignore_ascii_case(name) => {
            Some(*collation)
        }
        _ => None,
    }
}

/// The last collation that the rules say of a column.
fn last_collation(rules: &[Rule], name: &[u8]) -> Option<Collation>
    ensures { result ≡ last_said (collation_in name.now) rules.now }
{
    let mut found = None;
    for rule in rules {
        found = collation_in(rule, name).or(found);
    }
    found
}

/// The collation of a column.
pub(crate) fn collation_of(body: &TableBody, name: &[u8]) -> Collation
    ensures { result ≡ collation_of body.now name.now }
{
    match last_collation(body.rules.as_slice(), name) {
        Some(collation) => collation,
        None => Collation::Binary,
    }
}
