//! How the columns of a key are sorted (datatype3, 7.2; fileformat2, 1.3.8).
ghost use Rattle.std.specs.Prelude.{◌≡◌, ◌≤◌, ◌^◌, map, MatchOption};
ghost use Rattle.sqkeys.specs.Keys.{key_for, order_of};

use crate::rule::collation_of;
use sqlite_ast::{Keyed, TableBody};
use sqlite_value::keys::{Key, Order};

/// How a column is sorted.
fn key_for(body: &TableBody, format: u32, keyed: &Keyed) -> Key
    ensures { result ≡ key_for body.now format keyed.now }
{
    let collation = match keyed.collation {
        Some(collation) => collation,
        None => collation_of(body, keyed.name.as_slice()),
    };
    Key {
        collation,
        descending: keyed.descending && format == 4,
    }
}

/// The order of these columns. None where 64 bits don't hold it.
pub(crate) fn order_of(body: &TableBody, format: u32, named: &[Keyed]) -> Option<Order>
    ensures { MatchOption result (2 ^ 64 ≤ (order_of (map (key_for body.now format) named.now)).digits)
        (λ order. order ≡ order_of (map (key_for body.now format) named.now)) }
{
    match named {
        [] => Some(Order::PLAIN),
        [first, others @ ..] => {
            let later = order_of(body, format, others)?;
            Order::from_parts(key_for(body, format, first), later)
        }
    }
}
