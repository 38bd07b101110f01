//! Which points and images are asked for (own).
ghost use Rattle.std.specs.Prelude.{◌≡◌};
ghost use Rattle.sqcrash_store.specs.Points.{is_asked, is_of_part};

use crate::plan::Part;

/// Whether a number is the one that is asked for, if one is.
pub fn is_asked(asked: Option<u64>, number: u64) -> bool
    ensures { result ≡ is_asked asked number }
{
    match asked {
        None => true,
        Some(wanted) => wanted == number,
    }
}

/// Whether a point of this number, counted from 1, is of the part that is asked for, if one is.
pub fn is_of_part(part: Option<Part>, point: u64) -> bool
    ensures { result ≡ is_of_part part point }
{
    match part {
        None => true,
        Some(part) => point.saturating_sub(1) % part.of == part.number.saturating_sub(1),
    }
}
