//! The defaults of columns, and which of them rows must store.
ghost use Rattle.std.specs.Prelude.{◌≡◌, ◌<◌, ◌^◌, All, IfOk, map, option_map, slice_get};
ghost use Rattle.sqdefaults.specs.Literals.{datum_in};
ghost use Rattle.sqtables.specs.Columns.{place_in};
ghost use Rattle.sqtables.specs.Defaults.{default_for, is_unknown, IsNeeded};

use sqdefaults::{Literal, affinity_in, default_of};
use sqlite_ast::CreateTable;
use sqlite_value::value::Bytes;
use std::alloc::{AllocError, Global};

/// What stands for a column where it isn't stored.
fn default_for(
    alloc: Global,
    def: &CreateTable,
    column: &(Bytes, Bytes),
) -> Result<Option<Literal>, AllocError>
    ensures { IfOk result (λ found. option_map datum_in found ≡ default_for def.now column.now) }
{
    let affinity = affinity_in(def.is_strict, column.1.as_slice());
    default_of(
        alloc,
        affinity,
        column.0.as_slice(),
        def.body.rules.as_slice(),
    )
}

/// The same of each column.
pub(crate) fn defaults_of(
    alloc: Global,
    def: &CreateTable,
) -> Result<Vec<Option<Literal>>, AllocError>
    ensures { IfOk result (λ defaults.
        map (option_map datum_in) defaults.items ≡ map (default_for def.now) def.now.body.columns) }
{
    let columns = def.body.columns.as_slice();
    let mut defaults = Vec::with_capacity(alloc, columns.len())?;
    for column in columns {
        defaults.push(default_for(alloc, def, column)?)?;
    }
    Ok(defaults)
}

/// Whether the default of column `j` isn't known.
fn is_unknown(defaults: &[Option<Literal>], j: usize) -> bool
    ensures { result ≡ is_unknown (slice_get defaults.now j) }
{
    match defaults.get(j) {
        Some(None) => true,
        _ => false,
    }
}

/// Where rows store column `j`.
fn place_in(places: &[usize], j: usize) -> usize
    ensures { result ≡ place_in places.now j }
{
    match places.get(j) {
        Some(place) => *place,
        None => j,
    }
}

/// How many columns a row must store, so that the values of the others are known.
pub(crate) fn needed_of(defaults: &[Option<Literal>], places: &[usize]) -> usize
    requires { All (λ place. place < 18446744073709551615) places.now }
    ensures { IsNeeded defaults.now places.now result }
{
    let mut needed = 0;
    for j in 0..defaults.len() {
        if is_unknown(defaults, j) {
            needed = needed.max(place_in(places, j) + 1);
        }
    }
    needed
}
