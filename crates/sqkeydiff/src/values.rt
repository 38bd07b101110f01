//! Whether two rows have the same values (own).
ghost use Rattle.std.specs.Prelude.{◌≡◌, ◌↔◌, IsTrue};
ghost use Rattle.sqval.specs.Datum.{datum_of};

use sqval::{Record, Value};

/// Whether two values are the same as they are stored: an integer is no real number.
fn is_same_value(old: Value<'_>, new: Value<'_>) -> bool
    ensures { IsTrue result ↔ (datum_of old.entry ≡ datum_of new.entry) }
{
    old == new
}

/// Whether two records hold the same values.
pub(crate) fn are_same(old: &Record<'_>, new: &Record<'_>) -> bool
    ensures { IsTrue result ↔ (old.now ≡ new.now) }
{
    let mut others = new.columns();
    'values: for value in old.columns() {
        match others.next() {
            Some(other) => {
                if !is_same_value(value, other) {
                    return false;
                }
            }
            None => return false,
        }
    }
    others.next().is_none()
}
