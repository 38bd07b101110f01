//! What a crash leaves of a modelled file, and what it would leave.
ghost use Rattle.std.specs.Prelude.{◌≡◌, ◌⊎◌, ◌<◌, ◌≤◌, ◌+◌, ◌-◌, ◌*◌, ◌/◌, ◌^◌, ◌++◌, ℕ, [], length};
ghost use Rattle.std.specs.Prelude.{slice_index, slice_index_or, OnOk, OnErr, IfErr};
ghost use Rattle.crashdisk.specs.State.{longest, IsImage, IsSettled};
ghost use Rattle.crashdisk.specs.Held.{file_of, file_by, AreWhole};
ghost use Rattle.crashdisk.specs.internal.Held.{Stands};
ghost use Rattle.crashdisk.specs.Choice.{naming_of, named_byte, image_of};
ghost use Rattle.crashdisk.specs.internal.Choice.{IsLeft};
ghost use Rattle.crashdisk.specs.Refusal.{number_of};

use crate::choice::FileChoice;
use crate::error::DiskError;
use crate::held::Held;
use crate::values::{Values, fill_with};

/// Leaves the file that a choice names, alone.
pub(crate) fn crash_held(held: &mut Held, sector: usize, tears: bool, choice: &FileChoice)
    requires { Stands sector held.old }
    ensures stands { Stands sector held.new }
    ensures image { IsImage sector tears (file_of sector held.old)
        (image_of sector tears (file_of sector held.old) (naming_of choice.now)) }
    ensures settled { IsSettled (file_of sector held.new)
        (image_of sector tears (file_of sector held.old) (naming_of choice.now)) }
{
    let len = choice.length(held.least, held.len, held.greatest);
    leave_each(&mut held.sectors, sector, tears, choice, len);
    held.len = len;
    held.least = len;
    held.greatest = len;
}

/// Leaves of each sector the one value that a choice names, with zeros from an end on.
fn leave_each(
    sectors: &mut Vec<Values>,
    sector: usize,
    tears: bool,
    choice: &FileChoice,
    end: usize,
)
    requires whole { AreWhole sector sectors.old.items }
    requires room { length sectors.old.items * sector < 2 ^ 62 }
    ensures count { length sectors.new.items ≡ length sectors.old.items }
    ensures each { (k : ℕ) → k < length sectors.old.items → IsLeft tears (naming_of choice.now) k (end - k * sector)
        (slice_index_or sectors.old.items k []) (slice_index_or sectors.new.items k []) }
{
    for k in 0..sectors.len() {
        let values = &mut sectors[k];
        choice.leave(values, tears, k, end.saturating_sub(k * sector));
    }
}

/// Appends the file that a choice names.
pub(crate) fn append_image(
    held: &Held,
    sector: usize,
    tears: bool,
    choice: &FileChoice,
    out: &mut Vec<u8>,
) -> Result<(), DiskError>
    requires { Stands sector held.now }
    ensures ok { OnOk result
        (out.new.items ≡ out.old.items ++ image_of sector tears (file_of sector held.now) (naming_of choice.now)) }
    ensures err { OnErr result (out.new.items ≡ out.old.items) }
    ensures error { IfErr result (λ e. number_of e ≡ 4) }
{
    let len = choice.length(held.least, held.len, held.greatest);
    let start = out.len();
    if out.resize(start + len, 0).is_err() {
        return Err(DiskError::NoMemory);
    }
    put_each(&held.sectors, sector, tears, choice, &mut out[start..]);
    Ok(())
}

/// Puts to their places the bytes that a choice names, in place of zeros.
fn put_each(sectors: &[Values], sector: usize, tears: bool, choice: &FileChoice, out: &mut [u8])
    requires positive { 0 < sector }
    requires whole { AreWhole sector sectors.now }
    requires room { length sectors.now * sector < 2 ^ 62 }
    requires short { length out.old ≤ longest }
    requires zeros { (i : ℕ) → i < length out.old → slice_index out.old i ≡ 0 }
    ensures { (i : ℕ) → i < length out.old → slice_index out.new i ≡ named_byte sector tears
        (file_by sector sectors.now 0 0 0) (naming_of choice.now) (i / sector) i }
{
    for k in 0..sectors.len() {
        put_sector(choice.named(&sectors[k], tears, k), k * sector, sector, out);
    }
}

/// Puts a sector's bytes to its place, cut or filled with zeros.
fn put_sector(bytes: &[u8], start: usize, sector: usize, out: &mut [u8])
    requires { start + sector < 2 ^ 63 }
    ensures inside { (i : ℕ) → i < length out.old → start ≤ i → i < start + sector
        → slice_index out.new i ≡ slice_index bytes.now (i - start) }
    ensures outside { (i : ℕ) → (i < start) ⊎ (start + sector ≤ i) → slice_index out.new i ≡ slice_index out.old i }
{
    let from = start.min(out.len());
    let to = (start + sector).min(out.len());
    fill_with(&mut out[from..to], bytes);
}
