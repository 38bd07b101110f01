//! The choices of a crash, counted.
ghost use Rattle.std.specs.Prelude.{◌≡◌, ◌<◌, ◌≤◌, ◌+◌, ◌-◌, ◌*◌, ◌/◌, ◌^◌, ℕ, suc, [], length, map};
ghost use Rattle.std.specs.Prelude.{slice_index_or, OnOk, IfOk, IfErr};
ghost use Rattle.std.specs.List.{range_with_len};
ghost use Rattle.crashdisk.specs.State.{longest};
ghost use Rattle.crashdisk.specs.Held.{file_of, file_by, AreWhole};
ghost use Rattle.crashdisk.specs.internal.Held.{Stands};
ghost use Rattle.crashdisk.specs.Choice.{naming_of};
ghost use Rattle.crashdisk.specs.Refusal.{number_of};
ghost use Rattle.crashdisk.specs.Count.{sector_count, value_count, ways, digit, length_count, length_at, choice_count};
ghost use Rattle.crashdisk.specs.Count.{naming_at};

use crate::choice::{FileChoice, Rest};
use crate::error::DiskError;
use crate::held::Held;
use crate::values::Values;
use std::alloc::{AllocError, Global};

/// Takes from a number the digits of a file, and gives the choice that they name.
pub(crate) fn next_choice(
    alloc: Global,
    held: &Held,
    sector: usize,
    n: &mut u64,
) -> Result<FileChoice, DiskError>
    requires { Stands sector held.now }
    ensures named { IfOk result (λ choice. naming_of choice ≡ naming_at sector (file_of sector held.now) n.old) }
    ensures rest { OnOk result (n.new ≡ n.old / choice_count sector (file_of sector held.now)) }
    ensures error { IfErr result (λ e. number_of e ≡ 4) }
{
    match file_choice(alloc, held, sector, n) {
        Ok(choice) => Ok(choice),
        Err(_) => Err(DiskError::NoMemory),
    }
}

/// The same, with memory that the caller gives.
pub(crate) fn file_choice(
    alloc: Global,
    held: &Held,
    sector: usize,
    n: &mut u64,
) -> Result<FileChoice, AllocError>
    requires { Stands sector held.now }
    ensures named { IfOk result (λ choice. naming_of choice ≡ naming_at sector (file_of sector held.now) n.old) }
    ensures rest { OnOk result (n.new ≡ n.old / choice_count sector (file_of sector held.now)) }
{
    let count = (held.greatest + sector - 1) / sector;
    let pick = picks(alloc, &held.sectors, sector, count, n)?;
    let lengths = count_lengths(sector, held.least, held.greatest);
    let j = *n % lengths as u64;
    *n /= lengths as u64;
    let len = nth_length(sector, held.least, held.greatest, j as usize);
    Ok(FileChoice {
        pick,
        torn: Vec::new(alloc),
        rest: Rest::Newest,
        len: Some(len as u64),
    })
}

/// How many values sector k has.
pub(crate) fn count_values(sectors: &[Values], sector: usize, k: usize) -> usize
    requires whole { AreWhole sector sectors.now }
    ensures { result ≡ value_count (file_by sector sectors.now 0 0 0) k }
{
    match sectors.get(k) {
        Some(values) => values.count(),
        None => 1,
    }
}

/// Takes from a number the digits of the first so many sectors.
fn picks(
    alloc: Global,
    sectors: &[Values],
    sector: usize,
    count: usize,
    n: &mut u64,
) -> Result<Vec<u64>, AllocError>
    requires whole { AreWhole sector sectors.now }
    ensures named { IfOk result (λ v. v.items ≡ map (digit (value_count (file_by sector sectors.now 0 0 0)) n.old)
        (range_with_len 0 count)) }
    ensures rest { OnOk result (n.new ≡ n.old / ways (value_count (file_by sector sectors.now 0 0 0)) count) }
{
    let mut pick = Vec::new(alloc);
    let mut rest = *n;
    for k in 0..count {
        let values = count_values(sectors, sector, k) as u64;
        pick.push(rest % values)?;
        rest /= values;
    }
    *n = rest;
    Ok(pick)
}

/// How many lengths a choice can name.
fn count_lengths(sector: usize, least: usize, greatest: usize) -> usize
    requires positive { 0 < sector }
    requires short { greatest ≤ longest }
    ensures { result ≡ length_count sector least greatest }
{
    if least == greatest {
        1
    } else {
        2 + (greatest.saturating_sub(1) / sector).saturating_sub(least / sector)
    }
}

/// The length of this number.
fn nth_length(sector: usize, least: usize, greatest: usize, j: usize) -> usize
    requires positive { 0 < sector }
    requires short { greatest ≤ longest }
    requires order { least ≤ greatest }
    ensures { result ≡ length_at sector least greatest j }
{
    if j == 0 {
        least
    } else if j < count_lengths(sector, least, greatest) - 1 {
        (least / sector + j) * sector
    } else {
        greatest
    }
}
