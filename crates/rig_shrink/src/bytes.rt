//! Whether a crash may leave these bytes of the file of a disk (own).
ghost use Rattle.std.specs.Prelude.{◌≡◌, ◌↔◌, ◌∷◌, ◌++◌, [], ◌/◌, ◌<◌, ◌≤◌, ℕ, IsTrue, true, Some};
ghost use Rattle.std.specs.Prelude.{get_or, length, map, OnOk, IfOk};
ghost use Rattle.crashdisk.specs.Choice.{naming_of};
ghost use Rattle.crashdisk.specs.Model.{state_of};
ghost use Rattle.crashdisk.specs.State.{IsImage, OneListed};
ghost use Rattle.rig_shrink.specs.internal.Values.{IsEach, IsValued, AreValued, AreValues, HasMost};
ghost use Rattle.rig_shrink.specs.internal.Values.{AreSameFrom, IsSameIn, IsSameAsOne};

use crashdisk::{Disk, DiskError, File, FileChoice, ModelDisk, Rest};
use std::alloc::{AllocError, Global};

/// The greater one of two.
fn greater(a: usize, b: usize) -> usize
    ensures first { a ≤ result }
    ensures second { b ≤ result }
{
    if a < b { b } else { a }
}

/// More than any sector of the file of a disk has earlier values.
fn most_values(disk: &ModelDisk) -> usize
    ensures { HasMost (state_of disk.now) result }
{
    let (_, greatest) = disk.lengths(File::Db);
    let sector = disk.sector() as u64;
    let stop = greatest / sector + 1;
    let mut most = 1;
    for k in 0..stop {
        let values = disk.values(File::Db, k as usize);
        most = greater(most, values);
    }
    most
}

/// The same number for each of so many sectors.
fn each(alloc: Global, number: u64, sectors: u64) -> Result<Vec<u64>, AllocError>
    ensures { IfOk result (λ picks. IsEach number sectors picks.items) }
{
    let mut picks = Vec::new(alloc);
    for k in 0..sectors {
        picks.push(number)?;
    }
    Ok(picks)
}

/// Each sector with the value of its number, and this length.
fn numbered(alloc: Global, pick: Vec<u64>, len: u64) -> FileChoice
    ensures { naming_of result ≡ record { pick = pick.items; torn = []; newest = true; len = Some len } }
{
    FileChoice {
        pick,
        torn: Vec::new(alloc),
        rest: Rest::Newest,
        len: Some(len),
    }
}

/// The file of a disk at its longest, each sector with its value of this number.
fn valued(alloc: Global, disk: &ModelDisk, number: usize) -> Result<Vec<u8>, DiskError>
    ensures { IfOk result (λ bytes. IsValued (state_of disk.now) number bytes.items) }
{
    let (_, greatest) = disk.lengths(File::Db);
    let sector = disk.sector() as u64;
    let sectors = greatest / sector + 1;
    let Ok(pick) = each(alloc, number as u64, sectors) else {
        return Err(DiskError::NoMemory);
    };
    let choice = numbered(alloc, pick, greatest);
    let mut bytes = Vec::new(alloc);
    disk.image(File::Db, &choice, &mut bytes)?;
    Ok(bytes)
}

/// One file more.
fn pushed(all: &mut Vec<Vec<u8>>, bytes: Vec<u8>) -> Result<(), DiskError>
    ensures { OnOk result (all.new.items ≡ all.old.items ++ bytes ∷ []) }
{
    match all.push(bytes) {
        Ok(()) => Ok(()),
        Err(_) => Err(DiskError::NoMemory),
    }
}

/// The file of a disk at its longest, with its values of each number below this one.
fn values_below(alloc: Global, disk: &ModelDisk, most: usize) -> Result<Vec<Vec<u8>>, DiskError>
    ensures { IfOk result (λ all. AreValued (state_of disk.now) most (map (λ v. v.items) all.items)) }
{
    let mut all = Vec::new(alloc);
    for n in 0..most {
        let bytes = valued(alloc, disk, n)?;
        pushed(&mut all, bytes)?;
    }
    Ok(all)
}

/// The same of each number that a sector may have.
fn values(alloc: Global, disk: &ModelDisk) -> Result<Vec<Vec<u8>>, DiskError>
    ensures { IfOk result (λ all. AreValues (state_of disk.now) (map (λ v. v.items) all.items)) }
{
    let most = most_values(disk);
    let all = values_below(alloc, disk, most)?;
    Ok(all)
}

/// The byte at a place, or zero behind the end.
fn byte_at(bytes: &[u8], i: usize) -> u8
    ensures { result ≡ get_or bytes.now i 0 }
{
    match bytes.get(i) {
        Some(byte) => *byte,
        None => 0,
    }
}

/// Whether two files are the same from a place up to another one, with zeros behind their ends.
fn are_same_from(longer: &[u8], bytes: &[u8], start: usize, end: usize) -> bool
    ensures { IsTrue result ↔ AreSameFrom start end longer.now bytes.now }
{
    for i in start..end {
        if byte_at(bytes, i) != byte_at(longer, i) {
            return false;
        }
    }
    true
}

/// Whether sector k of these bytes is that of another file.
fn is_same_in(longer: &[u8], bytes: &[u8], sector: usize, k: usize) -> bool
    requires { 0 < sector }
    ensures { IsTrue result ↔ IsSameIn sector k longer.now bytes.now }
{
    let start = k.saturating_mul(sector).min(bytes.len());
    let end = start.saturating_add(sector).min(bytes.len());
    are_same_from(longer, bytes, start, end)
}

/// Whether it is that of one of these files.
fn is_same_as_one(all: &[Vec<u8>], bytes: &[u8], sector: usize, k: usize) -> bool
    requires { 0 < sector }
    ensures { IsTrue result ↔ IsSameAsOne sector k (map (λ v. v.items) all.now) bytes.now }
{
    for n in 0..all.len() {
        let value = &all[n];
        let same = is_same_in(value, bytes, sector, k);
        if same {
            return true;
        }
    }
    false
}

/// Whether sector k of the file of a disk may hold anything after a crash.
fn may_tear(disk: &ModelDisk, k: usize) -> bool
    ensures { IsTrue result
        ↔ (IsTrue (state_of disk.now).tears × (0 < length ((state_of disk.now).db.earlier k))) }
{
    disk.tears() && disk.values(File::Db, k) > 1
}

/// Whether a crash may leave sector k of these bytes, which are no longer than the file of the disk at its longest.
fn is_listed(disk: &ModelDisk, all: &[Vec<u8>], bytes: &[u8], k: usize) -> bool
    requires values { AreValues (state_of disk.now) (map (λ v. v.items) all.now) }
    requires within { k ≤ (state_of disk.now).db.greatest / (state_of disk.now).sector }
    requires long { length bytes.now ≤ (state_of disk.now).db.greatest }
    ensures { IsTrue result
        ↔ OneListed (state_of disk.now).sector (state_of disk.now).tears (state_of disk.now).db bytes.now k }
{
    if may_tear(disk, k) {
        return true;
    }
    is_same_as_one(all, bytes, disk.sector(), k)
}

/// Whether a crash may leave each sector of these bytes.
fn are_listed(disk: &ModelDisk, all: &[Vec<u8>], bytes: &[u8]) -> bool
    requires values { AreValues (state_of disk.now) (map (λ v. v.items) all.now) }
    requires long { length bytes.now ≤ (state_of disk.now).db.greatest }
    ensures { IsTrue result ↔ ((k : ℕ)
        → OneListed (state_of disk.now).sector (state_of disk.now).tears (state_of disk.now).db bytes.now k) }
{
    let sector = disk.sector();
    let stop = bytes.len() / sector + 1;
    for k in 0..stop {
        if !is_listed(disk, all, bytes, k) {
            return false;
        }
    }
    true
}

/// Whether a crash may leave so many bytes of the file of a disk.
fn is_long(disk: &ModelDisk, length: u64) -> bool
    ensures { IsTrue result ↔ (((state_of disk.now).db.least ≤ length) × (length ≤ (state_of disk.now).db.greatest)) }
{
    let (least, greatest) = disk.lengths(File::Db);
    least <= length && length <= greatest
}

/// Whether a crash may leave these bytes of the file of a disk. NoMemory alone.
pub(crate) fn is_image(alloc: Global, disk: &ModelDisk, bytes: &[u8]) -> Result<bool, DiskError>
    ensures { IfOk result (λ is. IsTrue is
        ↔ IsImage (state_of disk.now).sector (state_of disk.now).tears (state_of disk.now).db bytes.now) }
{
    if !is_long(disk, bytes.len() as u64) {
        return Ok(false);
    }
    let all = values(alloc, disk)?;
    Ok(are_listed(disk, &all, bytes))
}
