//! The values that columns keep as they are (datatype3, 3.1 and 3.2).
ghost use Rattle.std.specs.Prelude.{◌≡◌};
ghost use Rattle.sqkeys.specs.Affinities.{keeps};

use sqdefaults::Affinity;
use sqlite_value::value::Value;

/// Whether a column of this affinity is known to keep a value as it is.
pub(crate) fn keeps(affinity: Affinity, value: &Value) -> bool
    ensures { result ≡ keeps affinity value.now }
{
    match (affinity, value) {
        (_, Value::Null | Value::Blob(_)) => true,
        (Affinity::Integer | Affinity::Numeric | Affinity::Real | Affinity::Blob, Value::Real(_)) =>
            { true }
        (Affinity::Integer | Affinity::Numeric | Affinity::Blob, Value::Int(_)) => true,
        (Affinity::Text | Affinity::Blob, Value::Text(_)) => true,
        _ => false,
    }
}
