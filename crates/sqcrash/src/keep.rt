//! Images that are found wrong are kept as files (own).
ghost use Rattle.std.specs.Prelude.{◌≡◌, IfErr, IfOk, IsSome};
ghost use Rattle.sqcrash.specs.Refusals.{IsOfFiles};
ghost use Rattle.sqcrash.specs.declared.outcome.Refusal.TheVariants.{FileFailed};

use crate::explained::is_asked;
use crate::outcome::Refusal;
use crate::plan::Plan;
use rig_images::Image;
use std::rt::Files;
use std::{fs, io};

/// The most images that are kept.
const MOST: u64 = 1000;

/// Where images go that are found wrong.
pub trait Keeper {
    ghost use Rattle.std.specs.Prelude.{ℕ, List, [], ◌∷◌, Option, None, IfErr, OnOk};
    ghost use Rattle.rig_images.specs.declared.image.Image.{Image};
    ghost use Rattle.sqcrash.specs.Keeping.{Keeps};
    ghost use Rattle.sqcrash.specs.Refusals.{IsOfFiles};

    /// The images that were given to it, each with its number at its point, where these are known.
    ghost kept: { Self → Option (List (ℕ × Image)) } = { λ _. None };

    /// The images that follow are those of this point, counted from 1.
    fn reach(&mut self, point: u64);

    /// Takes an image that was found wrong, by its number at the point, counted from 0. Refused by FileFailed and
    /// NoMemory alone.
    fn keep(&mut self, number: u64, image: &Image) -> Result<(), Refusal>
        ensures kept { OnOk result (Keeps (kept self.old) (kept self.new) ((number, image.now) ∷ [])) }
        ensures refused { IfErr result IsOfFiles };
}

/// A folder in which images are kept, or none.
#[derive(Drop)]
pub struct Folder<'a, R> {
    rt: &'a R,
    path: Option<&'a str>,
    kept: u64,
    /// The point that was reached.
    at: u64,
    /// The point and the image that are asked for, where they are.
    point: Option<u64>,
    image: Option<u64>,
}

impl<'a, R: Files + AllocGlobal> Folder<'a, R> {
    /// The folder of this path, which is made where it isn't there; where there is no path, nothing is kept. Refused by
    /// FileFailed. Images that aren't asked for are left out.
    pub fn new(rt: &'a R, path: Option<&'a str>, plan: Plan) -> Result<Folder<'a, R>, Refusal>
        ensures path { IfOk result (λ folder. folder.path ≡ path.entry) }
        ensures none { IfOk result (λ folder. folder.kept ≡ 0) }
        ensures failed { IfErr result (λ refusal. IsSome path.entry × (refusal ≡ FileFailed)) }
    {
        if let Some(folder) = path {
            make(rt, folder)?;
        }
        Ok(Folder {
            rt,
            path,
            kept: 0,
            at: 0,
            point: plan.point,
            image: plan.image,
        })
    }
}

/// Makes a folder where it isn't there.
fn make<R: Files>(rt: &R, path: &str) -> Result<(), Refusal>
    ensures { IfErr result (λ refusal. refusal ≡ FileFailed) }
{
    if fs::create_dir(rt, path).is_ok() {
        return Ok(());
    }
    match fs::metadata(rt, path) {
        Ok(there) if there.is_dir() => Ok(()),
        _ => Err(Refusal::FileFailed),
    }
}

/// Writes a file, in place of one that is there.
fn put<R: Files>(rt: &R, path: &str, bytes: &[u8]) -> Result<(), Refusal>
    ensures { IfErr result IsOfFiles }
{
    match fs::write(rt, path, bytes) {
        Ok(()) => Ok(()),
        Err(error) if error.kind() == io::ErrorKind::OutOfMemory => Err(Refusal::NoMemory),
        Err(_) => Err(Refusal::FileFailed),
    }
}

/// Writes a log. One without bytes isn't written, and none is left in its place.
fn put_log<R: Files>(rt: &R, path: &str, bytes: &[u8]) -> Result<(), Refusal>
    ensures { IfErr result IsOfFiles }
{
    if !bytes.is_empty() {
        return put(rt, path, bytes);
    }
    match fs::remove_file(rt, path) {
        Ok(()) => Ok(()),
        Err(error) if error.kind() == io::ErrorKind::NotFound => Ok(()),
        Err(_) => Err(Refusal::FileFailed),
    }
}

impl<R: Files + AllocGlobal> Keeper for Folder<'_, R> {
    fn reach(&mut self, point: u64) {
        self.at = point;
    }

    fn keep(&mut self, number: u64, image: &Image) -> Result<(), Refusal> {
        let point = self.at;
        let Some(folder) = self.path else {
            return Ok(());
        };
        if !is_asked(self.point, point) || !is_asked(self.image, number) {
            return Ok(());
        }
        if self.kept >= MOST {
            return Ok(());
        }
        self.kept += 1;
        let alloc = self.rt.alloc();
        let db = format!(in alloc; "{folder}/p{point}-i{number}.db")?;
        let wal = format!(in alloc; "{db}-wal")?;
        let journal = format!(in alloc; "{db}-journal")?;
        put(self.rt, db.as_str(), &image.db)?;
        put_log(self.rt, wal.as_str(), &image.wal)?;
        put_log(self.rt, journal.as_str(), &image.journal)
    }
}
