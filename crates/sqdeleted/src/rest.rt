//! What is left of a cell behind its first four bytes (fileformat2, 1.6 and 2.1).
ghost use Rattle.std.specs.Prelude.{◌≡◌, ◌↔◌, ◌⊎◌, ◌+◌, ◌<◌, ◌≤◌, ℕ, length, drop, IsNone, MatchOption, Some};
ghost use Rattle.sqval.specs.Serial.{body_size};
ghost use Rattle.sqval.specs.Varint.{Begins};
ghost use Rattle.sqdeleted.specs.Cut.{IsHeld, IsRest, IsRather};
ghost use Rattle.sqdeleted.specs.internal.Rests.{AreTypesFrom, AreFirstFrom, IsRecordBehind, IsRecordFrom, IsTypeAt};

use crate::freed::{Marked, ends_here, freed_end};
use crate::header::{body_size_of, least_size};
use sqval::varint;

/// How many bytes the types of a record take at most whose header's size is one byte.
const MOST_TYPES: usize = 126;

/// Where the serial types begin that are left of a cell, where they end and the bodies begin, and where these end.
#[derive(Clone, Copy, Debug)]
pub(crate) struct Rest {
    pub(crate) types: usize,
    pub(crate) bodies: usize,
    pub(crate) end: usize,
}

/// The varint that begins at `at`: its number, and how many bytes it takes. None where none does.
fn varint_at(bytes: &[u8], at: usize) -> Option<(u64, usize)>
    requires { at ≤ length bytes.now }
    ensures found { (number size : ℕ) → (result ≡ Some (number, size)) ↔ Begins number size (drop at bytes.now) }
    ensures none { IsNone result ↔ ((number size : ℕ) → ¬ Begins number size (drop at bytes.now)) }
{
    let (_, rest) = bytes.split_at(at);
    varint::read(rest)
}

/// The serial type that begins at `at`: how many bytes it takes, and how many its body. None where none does that
/// stands in files, in the fewest bytes.
fn type_at(bytes: &[u8], at: usize) -> Option<(usize, u64)>
    requires { at ≤ length bytes.now }
    ensures { MatchOption result ((serial size : ℕ) → ¬ IsTypeAt (drop at bytes.now) serial size) (λ found.
        (serial : ℕ) × IsTypeAt (drop at bytes.now) serial found.0 × (found.1 ≡ body_size serial)) }
{
    let (serial, size) = varint_at(bytes, at)?;
    if serial == 10 || serial == 11 {
        return None;
    }
    let least = least_size(serial);
    if least < size {
        return None;
    }
    Some((size, body_size_of(serial)))
}

/// The types from `from` on that end between two places, and whose bodies end where a cell may: of several the first.
fn types_from(
    page: Marked<'_>,
    last: usize,
    to: usize,
    from: usize,
    span: (usize, usize),
) -> Option<Rest>
    requires { to ≤ length page.used.now }
    ensures { MatchOption result
        ((rest : Rest) → ¬ AreTypesFrom page.entry.used.now page.entry.whole.now.begin.items last to from
        span.0 span.1 rest)
        (λ rest. AreFirstFrom page.entry.used.now page.entry.whole.now.begin.items last to from span.0 span.1 rest) }
{
    if from >= to {
        return None;
    }
    let mut bodies = from;
    let mut end = from;
    'types: while bodies < span.1 {
        let Some((size, body)) = type_at(page.used, bodies) else {
            return None;
        };
        let left = (to - end) as u64;
        if body > left || left - body < size as u64 {
            return None;
        }
        bodies += size;
        end += size + body as usize;
        if span.0 <= bodies && bodies <= span.1 && ends_here(page, last, end) {
            return Some(Rest {
                types: from,
                bodies,
                end,
            });
        }
    }
    None
}

/// The types of the record whose header begins at `header`, where they are such.
fn record_from(page: Marked<'_>, last: usize, to: usize, header: usize) -> Option<Rest>
    requires { to ≤ length page.used.now }
    ensures { MatchOption result
        ((rest : Rest) → ¬ IsRecordFrom page.entry.used.now page.entry.whole.now.begin.items last to header rest)
        (λ rest. IsRecordFrom page.entry.used.now page.entry.whole.now.begin.items last to header rest
        × ((other : Rest) → IsRecordFrom page.entry.used.now page.entry.whole.now.begin.items last to header other
        → (other.types ≡ rest.types) × (rest.end ≤ other.end))) }
{
    if header >= to {
        return None;
    }
    let (number, size) = varint_at(page.used, header)?;
    if number > to as u64 {
        return None;
    }
    let bodies = header + number as usize;
    types_from(page, last, to, header + size, (bodies, bodies))
}

/// What is left of the record whose header's size stands, from `start` on: behind the end of a rowid, or at once.
fn record_behind(page: Marked<'_>, last: usize, to: usize, start: usize) -> Option<Rest>
    requires { to ≤ length page.used.now }
    ensures { MatchOption result
        ((rest : Rest) → ¬ IsRecordBehind page.entry.used.now page.entry.whole.now.begin.items last to start rest)
        (λ rest. IsRecordBehind page.entry.used.now page.entry.whole.now.begin.items last to start rest
        × ((other : Rest) → IsRecordBehind page.entry.used.now page.entry.whole.now.begin.items last to start other
        → ¬ IsRather other rest)) }
{
    if start >= to {
        return None;
    }
    let found = varint_at(page.used, start)?;
    match record_from(page, last, to, start + found.1) {
        Some(rest) => Some(rest),
        None => record_from(page, last, to, start),
    }
}

/// What is left of a cell that began at `at` and ends at `to` or before. None where none did, or where a whole
/// one has that byte.
pub(crate) fn rest_at(page: Marked<'_>, at: usize, to: usize) -> Option<Rest>
    requires { to ≤ length page.used.now }
    ensures { MatchOption result
        (IsHeld page.entry.whole.now at
        ⊎ ((rest : Rest) → ¬ IsRest page.entry.used.now page.entry.whole.now.begin.items to at rest))
        (λ rest. (¬ IsHeld page.entry.whole.now at)
        × IsRest page.entry.used.now page.entry.whole.now.begin.items to at rest
        × ((other : Rest) → IsRest page.entry.used.now page.entry.whole.now.begin.items to at other
        → ¬ IsRather other rest)) }
{
    if at >= to {
        return None;
    }
    if page.whole.holds(at) {
        return None;
    }
    let last = freed_end(page.used, at)?;
    let start = at + 4;
    match record_behind(page, last, to, start) {
        Some(rest) => Some(rest),
        None => types_from(page, last, to, start, (start, start + MOST_TYPES)),
    }
}
