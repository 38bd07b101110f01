//! A version of one file is put there (own).
ghost use Rattle.std.specs.Prelude.{◌≡◌, ◌<◌, List, ℕ, IsTrue, MatchOption, MatchResult};
ghost use Rattle.crashdisk.specs.Choice.{naming_of, image_of};
ghost use Rattle.crashdisk.specs.Model.{state_of};
ghost use Rattle.crashdisk.specs.Call.{DiskState};
ghost use Rattle.crashdisk.specs.Refusal.{number_of};
ghost use Rattle.crashdisk.specs.State.{IsImage};
ghost use Rattle.rig_play.specs.Names.{name_of};
ghost use Rattle.rig_images.specs.Ways.{may_be_none};
ghost use Rattle.rig_families.specs.Versions.{IsFileOf, file_named};
ghost use Rattle.rig_families.specs.internal.Puts.{IsPut};

use crate::file_version::FileVersion;
use crashdisk::{DiskError, File, FileChoice, ModelDisk};
use rig_play::{Holds, Name};

/// Whether a crash may leave nothing under a name that holds this.
fn may_be_none(name: &Name, holds: Holds) -> bool
    ensures { result ≡ may_be_none (name_of name.now) holds }
{
    match holds {
        Holds::Any => name.maybe_none() || name.files().is_empty(),
        Holds::Nothing => true,
        Holds::File(i) => i >= name.files().len(),
    }
}

/// The file of this number, counted from 0, where a name that holds this may have it.
fn file_of(name: &Name, holds: Holds, number: usize) -> Option<&ModelDisk>
    ensures { MatchOption result ((f : DiskState) → ¬ IsFileOf (name_of name.now) holds number f)
        (λ d. IsFileOf (name_of name.now) holds number (state_of d.now)) }
{
    let files = name.files();
    match holds {
        Holds::Any => files.get(number),
        Holds::File(i) if i == number => files.get(number),
        _ => None,
    }
}

/// Puts there what a crash by this choice leaves of a file.
fn put_image(disk: &ModelDisk, choice: &FileChoice, out: &mut Vec<u8>) -> Result<(), DiskError>
    ensures { MatchResult result (λ done. (out.new.items ≡ image_of (state_of disk.now).sector
        (state_of disk.now).tears (state_of disk.now).db (naming_of choice.now))
        × IsImage (state_of disk.now).sector (state_of disk.now).tears (state_of disk.now).db out.new.items)
        (λ e. number_of e ≡ 4) }
{
    out.clear();
    disk.image(File::Db, choice, out)
}

/// Puts nothing there, where a name that holds this may have no file. Answers whether it did.
fn put_none(name: &Name, holds: Holds, out: &mut Vec<u8>) -> bool
    ensures { IsPut (name_of name.now) holds None out.new.items result }
{
    out.clear();
    may_be_none(name, holds)
}

/// Puts a version of a file there, where a name that holds this may have it. Answers whether it did.
fn put_file(
    name: &Name,
    holds: Holds,
    version: &FileVersion,
    out: &mut Vec<u8>,
) -> Result<bool, DiskError>
    ensures { MatchResult result (IsPut (name_of name.now) holds (file_named (Some version.now)) out.new.items)
        (λ e. number_of e ≡ 4) }
{
    let Some(disk) = file_of(name, holds, version.file) else {
        return Ok(false);
    };
    put_image(disk, &version.choice, out)?;
    Ok(true)
}

/// Puts a version of what is under a name there, where the name may hold that. Answers whether it did.
pub(crate) fn put_name(
    name: &Name,
    holds: Holds,
    version: &Option<FileVersion>,
    out: &mut Vec<u8>,
) -> Result<bool, DiskError>
    ensures { MatchResult result (IsPut (name_of name.now) holds (file_named version.now) out.new.items)
        (λ e. number_of e ≡ 4) }
{
    match version {
        Some(version) => put_file(name, holds, version, out),
        None => Ok(put_none(name, holds, out)),
    }
}
