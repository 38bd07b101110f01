//! Numbers in ranges (own).
ghost use Rattle.std.specs.Prelude.{◌≡◌, ◌↔◌, ◌⊎◌, ℕ, ◌+◌, ◌≤◌, ◌++◌, ◌∷◌, [], true, IsTrue, OnOk};
ghost use Rattle.rig_store.specs.Differing.{InRanges};

use std::alloc::AllocFailed;

/// Whether a number is the next one behind a range.
fn follows(range: (u64, u64), k: u64) -> bool
    ensures { result ≡ true → (range.0 ≤ k) × (k ≡ range.1 + 1) }
{
    range.0 <= k && range.1 < k && k - range.1 == 1
}

/// One number more, behind a range that comes behind others.
fn add_behind(
    ranges: &mut Vec<(u64, u64)>,
    range: (u64, u64),
    k: u64,
) -> Result<(), AllocFailed<(u64, u64)>>
    ensures { OnOk result ((j : ℕ) → InRanges ranges.new.items j
        ↔ (InRanges (ranges.old.items ++ range ∷ []) j ⊎ (j ≡ k))) }
{
    if follows(range, k) {
        ranges.push((range.0, k))?;
        return Ok(());
    }
    ranges.push(range)?;
    ranges.push((k, k))?;
    Ok(())
}

/// One number more, behind the others.
fn add(ranges: &mut Vec<(u64, u64)>, k: u64) -> Result<(), AllocFailed<(u64, u64)>>
    ensures { OnOk result ((j : ℕ) → InRanges ranges.new.items j ↔ (InRanges ranges.old.items j ⊎ (j ≡ k))) }
{
    match ranges.pop() {
        Some(range) => add_behind(ranges, range, k),
        None => ranges.push((k, k)),
    }
}

/// One number more, if so.
pub(crate) fn add_if(
    ranges: &mut Vec<(u64, u64)>,
    is: bool,
    k: u64,
) -> Result<(), AllocFailed<(u64, u64)>>
    ensures { OnOk result ((j : ℕ) → InRanges ranges.new.items j
        ↔ (InRanges ranges.old.items j ⊎ (IsTrue is × (j ≡ k)))) }
{
    if !is {
        return Ok(());
    }
    add(ranges, k)
}
