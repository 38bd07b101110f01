//! Which files a database is made of.
ghost use Rattle.std.specs.Prelude.{◌≡◌, ◌≢◌, ◌⊎◌, ◌↔◌, ◌++◌, IfErr, IfOk, IsTrue, false, string_bytes};
ghost use Rattle.std.specs.IoError.{error_kind};
ghost use Rattle.std.specs.declared.io.ErrorKind.TheVariants.{Interrupted, InvalidFilename, NotFound};
ghost use Rattle.cli_files.specs.Files.{AreBeside, HasNameBeside, HasNameOf, IsFolderOf, IsOneFolder};
ghost use Rattle.cli_files.specs.Files.{path_of};
ghost use Rattle.cli_files.specs.Refusals.{IsFromSystem};
ghost use Rattle.cli_files.specs.internal.Paths.{AreApart};

use crate::hints::told;
use crate::place::Place;
use cli_facts::{Identity, Notes, Quoted, Refusal, SystemFile, identity_of, read_or_zeros};
use sqjournal::is_magic;
use std::alloc::{AllocError, Global};
use std::fs::{File, Metadata};
use std::io::Write;
use std::path::Path;
use std::rt::Files;
use std::{fs, io};

/// The paths of a database file and of the files beside it.
#[derive(Drop)]
pub struct Paths {
    pub db: Place,
    pub wal: Place,
    pub journal: Place,
    pub shm: Place,
    /// FILE.lock, a folder by which SQLite's unix-dotfile locks FILE.
    pub lock: Place,
    /// Whether the path that was given is a symbolic link, and the database's that of the file that it leads to.
    pub is_link: bool,
}

impl Paths {
    /// The refusal, of which it is told why a file couldn't be read.
    pub fn told<E: Write>(&self, notes: &mut Notes<'_, E>, refusal: Refusal) -> Refusal
        ensures { result ≡ refusal }
    {
        if refusal == Refusal::FileFailed {
            self.db.tell(notes);
            self.wal.tell(notes);
            self.journal.tell(notes);
        }
        refusal
    }
}

/// What the system says of a file; of a symbolic link itself. A call that a signal ends is made again.
pub fn look_at<R: Files>(rt: &R, path: &str) -> io::Result<Metadata>
    ensures { IfErr result (λ error. error_kind error ≢ Interrupted) }
{
    for _ in 0..u64::MAX {
        match fs::symlink_metadata(rt, path) {
            Err(error) if error.kind() == io::ErrorKind::Interrupted => {}
            answer => return answer,
        }
    }
    Err(io::Error::from(io::ErrorKind::TimedOut))
}

/// Whether the system says that there is no such file, also as its name is too long for one.
pub fn is_missing(error: &io::Error) -> bool
    ensures { IsTrue result ↔ ((error_kind error.now ≡ NotFound) ⊎ (error_kind error.now ≡ InvalidFilename)) }
{
    matches!(
        error.kind(),
        io::ErrorKind::NotFound | io::ErrorKind::InvalidFilename
    )
}

/// Whether a file is a symbolic link.
fn is_link<R: Files>(rt: &R, file: &str) -> io::Result<bool> {
    match look_at(rt, file) {
        Ok(found) => Ok(found.is_symlink()),
        Err(error) => Err(error),
    }
}

/// The path of the file that a symbolic link leads to.
fn target_of<R: Files + AllocGlobal>(rt: &R, link: &str) -> io::Result<String> {
    match fs::canonicalize(rt, link) {
        Ok(path) => Ok(path.into_string()),
        Err(error) => Err(error),
    }
}

/// The path of a file behind symbolic links, and whether it is one. One that is no link is left as it is given.
fn resolved<R: Files + AllocGlobal>(rt: &R, file: &str) -> io::Result<(String, bool)>
    ensures { IfOk result (λ found. found.1 ≡ false → string_bytes found.0 ≡ file.now) }
{
    if is_link(rt, file)? {
        return Ok((target_of(rt, file)?, true));
    }
    Ok((String::from_str(rt.alloc(), file)?, false))
}

/// The file beside a database file whose name ends so.
fn beside(alloc: Global, db: &str, end: &str) -> Result<Place, AllocError>
    ensures { IfOk result (λ place. path_of place ≡ db.now ++ end.now) }
{
    match format!(in alloc; "{db}{end}") {
        Ok(path) => Ok(Place::new(path)),
        Err(error) => Err(error),
    }
}

/// The paths of a database file and of the files beside it, and whether a link was followed to it.
fn all_paths(alloc: Global, db: String, is_link: bool) -> Result<Paths, AllocError>
    ensures db { IfOk result (λ paths. path_of paths.db ≡ string_bytes db) }
    ensures link { IfOk result (λ paths. paths.is_link ≡ is_link) }
    ensures beside { IfOk result AreBeside }
{
    let wal = beside(alloc, db.as_str(), "-wal")?;
    let journal = beside(alloc, db.as_str(), "-journal")?;
    let shm = beside(alloc, db.as_str(), "-shm")?;
    match beside(alloc, db.as_str(), ".lock") {
        Ok(lock) => Ok(Paths {
            db: Place::new(db),
            wal,
            journal,
            shm,
            lock,
            is_link,
        }),
        Err(error) => Err(error),
    }
}

/// Says what lies at FILE.lock, if something does: a folder there is a lock of SQLite's unix-dotfile, which no other
/// lock is seen by.
pub fn tell_lock<R: Files + AllocGlobal, E: Write>(rt: &R, file: &str, notes: &mut Notes<'_, E>) {
    let Ok((db, _)) = resolved(rt, file) else {
        return;
    };
    let Ok(lock) = beside(rt.alloc(), db.as_str(), ".lock") else {
        return;
    };
    let Ok(found) = look_at(rt, lock.as_str()) else {
        return;
    };
    let path = lock.quoted();
    if found.is_dir() {
        notes.say(&format_args!(
            "{path}: a folder, by which SQLite's unix-dotfile locks the database: its owner may write meanwhile"
        ));
    } else {
        notes.say(&format_args!("{path}: no folder, so no lock of SQLite's unix-dotfile"));
    }
}

/// The refusal for a path that leads to no file, which is told.
fn unresolved<R: Files + AllocGlobal, E: Write>(
    rt: &R,
    file: &str,
    error: io::Error,
    notes: &mut Notes<'_, E>,
) -> Refusal
    ensures { IsFromSystem result }
{
    if notes.explains() && is_missing(&error) {
        if tell_of_log(rt, file, notes).is_err() {
            return Refusal::NoMemory;
        }
    }
    told(notes, file, error).refusal
}

/// The paths of a database, whose other files lie beside the file that the links lead to, as for SQLite. Says so where
/// that file is a log.
pub fn paths_of<R: Files + AllocGlobal, E: Write>(
    rt: &R,
    file: &str,
    notes: &mut Notes<'_, E>,
) -> Result<Paths, Refusal>
where
    R::File: SystemFile,
    ensures named { IfOk result (λ paths. paths.is_link ≡ false → path_of paths.db ≡ file.now) }
    ensures beside { IfOk result AreBeside }
    ensures refused { IfErr result IsFromSystem }
{
    let (db, is_link) = match resolved(rt, file) {
        Ok(found) => found,
        Err(error) => return Err(unresolved(rt, file, error, notes)),
    };
    if is_log(rt, db.as_str()) {
        notes.say(&"this is a log; name its database");
    }
    match all_paths(rt.alloc(), db, is_link) {
        Ok(paths) => Ok(paths),
        Err(error) => Err(Refusal::from(error)),
    }
}

/// Says what recovers a log whose database file is missing.
fn tell_of_log<R: Files + AllocGlobal, E: Write>(
    rt: &R,
    file: &str,
    notes: &mut Notes<'_, E>,
) -> Result<(), AllocError> {
    let wal = beside(rt.alloc(), file, "-wal")?;
    if look_at(rt, wal.as_str()).is_ok() {
        tell_orphan(notes, wal.as_str(), file);
    }
    Ok(())
}

fn tell_orphan<E: Write>(notes: &mut Notes<'_, E>, wal: &str, file: &str) {
    let (wal, file) = (Quoted(wal), Quoted(file));
    notes.explain(&format_args!(
        "{wal} is there without its database: make {file} as an empty file, and recover restores it from the log"
    ));
}

/// The first bytes of a file that is read; none where they can't be.
fn front_of<R: Files>(rt: &R, path: &str) -> Option<[u8; 8]>
where
    R::File: SystemFile,
{
    let mut front = [0u8; 8];
    match File::open(rt, path) {
        Ok(file) if read_or_zeros(&file, 0, &mut front).is_ok() => Some(front),
        _ => None,
    }
}

/// Whether a file begins and is named as a log: a WAL or a journal. Not where it can't be read.
fn is_log<R: Files>(rt: &R, path: &str) -> bool
where
    R::File: SystemFile,
{
    if !path.ends_with("-wal") && !path.ends_with("-journal") {
        return false;
    }
    match look_at(rt, path) {
        Ok(found) if found.is_file() => {}
        _ => return false,
    }
    front_of(rt, path).is_some_and(|front| begins_as_log(&front))
}

/// Whether these are the first bytes of a WAL or of a journal.
fn begins_as_log(front: &[u8; 8]) -> bool {
    is_magic(front) || matches!(front, [0x37, 0x7f, 0x06, 0x82 | 0x83, ..])
}

/// Whether a database file and its logs are different files, as far as each log is there.
pub(crate) fn are_apart(db: Identity, wal: Option<Identity>, journal: Option<Identity>) -> bool
    ensures { IsTrue result ↔ AreApart db wal journal }
{
    match (wal, journal) {
        (Some(wal), Some(journal)) => wal != db && journal != db && wal != journal,
        (Some(log), None) | (None, Some(log)) => log != db,
        (None, None) => true,
    }
}

/// The folder in which a file lies.
pub fn folder_of(path: &str) -> &str
    ensures { IsFolderOf result.now path.entry.now }
{
    match Path::new(path).parent() {
        Some(folder) if !folder.as_str().is_empty() => folder.as_str(),
        _ => ".",
    }
}

/// Whether two paths end in the same name.
fn have_one_name(place: &Place, path: &str) -> bool
    ensures { IsTrue result ↔ HasNameOf place.now path.now }
{
    Path::new(place.as_str()).file_name() == Path::new(path).file_name()
}

/// By what the system knows the folder in which a file lies; none where it doesn't say.
pub fn folder_identity<R: Files>(rt: &R, path: &str) -> Option<Identity> {
    match fs::metadata(rt, folder_of(path)) {
        Ok(folder) => Some(identity_of(&folder)),
        Err(_) => None,
    }
}

/// Whether both folders are known, and are one.
fn are_one_folder(here: Option<Identity>, there: Option<Identity>) -> bool
    ensures { IsTrue result ↔ IsOneFolder here there }
{
    here.is_some() && here == there
}

/// Whether a path has the name of a file that lies beside a database's.
fn has_name_beside(paths: &Paths, path: &str) -> bool
    ensures { IsTrue result ↔ HasNameBeside paths.now path.now }
{
    have_one_name(&paths.wal, path)
        || have_one_name(&paths.journal, path)
        || have_one_name(&paths.shm, path)
}

/// Whether SQLite takes the file that a path names for one of a database's: it has the name of one, and lies in the
/// same folder. Of its folder and of the database's it is given by what the system knows them (`folder_identity`).
pub fn is_log_of(
    paths: &Paths,
    path: &str,
    folder: Option<Identity>,
    of_database: Option<Identity>,
) -> bool
    ensures { IsTrue result ↔ (HasNameBeside paths.now path.now × IsOneFolder folder of_database) }
{
    if !has_name_beside(paths, path) {
        return false;
    }
    are_one_folder(folder, of_database)
}
