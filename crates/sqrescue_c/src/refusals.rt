//! What a recovery refuses and a view of the files doesn't ask.
ghost use Rattle.std.specs.Prelude.{◌≡◌, ◌⊎◌, ◌↔◌, ◌<◌, ◌≤◌, length, IsTrue, IfErr, OnOk, MatchOption};
ghost use Rattle.sqwal.specs.Header.{HeaderAnswer, named_size};
ghost use Rattle.sqview.specs.LogView.{head_of};
ghost use Rattle.sqrescue_c.specs.Recoveries.{EndsWithMagic, NamesOtherSize, HasFront};
ghost use Rattle.sqrescue_c.specs.internal.Recoveries.{IsAsked, IsAskedAt, IsAskedOfLog, memory_of, version_of};
ghost use Rattle.sqrescue_c.specs.declared.status.Status.TheVariants.{NoMemory, PageSizesDiffer};

use crate::status::Status;
use crate::view::Files;
use crate::wal::scan_of;
use sqjournal::is_magic;
use sqpage::{has_magic, named_page_size};
use sqval::PageSize;
use sqview::{FileBytes, LogInUse, log_in_use};
use sqwal::{WalFormatError, WalHeader};
use std::alloc::Global;

/// Whether a journal ends as one that names a super-journal.
pub(crate) fn names_super_journal(journal: &[u8]) -> bool
    ensures { IsTrue result ↔ EndsWithMagic journal.now }
{
    if journal.len() < 8 {
        return false;
    }
    let mut end = [0u8; 8];
    end.copy_from_slice(&journal[journal.len() - 8..]);
    is_magic(&end)
}

/// What the header of a log says, or what refuses it; None where it isn't whole.
fn header_of(wal: &[u8]) -> Option<Result<WalHeader, WalFormatError>>
    ensures { MatchOption result (length wal.now < 32)
        (λ answer. (32 ≤ length wal.now) × HeaderAnswer wal.now answer) }
{
    if wal.len() < 32 {
        return None;
    }
    let mut front = [0u8; 32];
    front.copy_from_slice(&wal[..32]);
    Some(WalHeader::read(&front))
}

/// The first 100 bytes of a database file, with zeros past its end.
fn head_of_file(db: &[u8]) -> [u8; 100]
    ensures { result ≡ head_of db.now }
{
    let mut head = [0u8; 100];
    let mut source = db;
    match source.read_at(0, &mut head) {
        Ok(()) | Err(_) => head,
    }
}

/// Whether the header of a database file names pages of another size than this one.
fn has_other_size(db: &[u8], size: PageSize) -> bool
    ensures { IsTrue result ↔ NamesOtherSize db.now size }
{
    if db.len() < 18 {
        return false;
    }
    let head = head_of_file(db);
    match named_page_size(&head) {
        Some(own) => has_magic(&head) && own != size,
        None => false,
    }
}

/// Of what refuses the bytes of a log, the lack of memory alone.
fn memory_alone(error: WalFormatError) -> Result<(), Status>
    ensures { result ≡ memory_of error }
{
    match error {
        WalFormatError::NoMemory => Err(Status::NoMemory),
        WalFormatError::NotAWal
        | WalFormatError::PageSize
        | WalFormatError::HeaderSum
        | WalFormatError::UnknownVersion
        | WalFormatError::TooLong => Ok(()),
    }
}

/// Of what refuses the header of a log, another version alone.
fn version_alone(error: WalFormatError) -> Result<(), Status>
    ensures { result ≡ version_of error }
{
    match error {
        WalFormatError::UnknownVersion => Err(Status::LogVersion),
        WalFormatError::NotAWal
        | WalFormatError::PageSize
        | WalFormatError::HeaderSum
        | WalFormatError::TooLong
        | WalFormatError::NoMemory => Ok(()),
    }
}

/// Refuses a log with a front, whose pages are of another size than the database file's.
fn refuse_front(alloc: Global, wal: &[u8]) -> Result<(), Status>
    ensures refused { IfErr result (λ s. ((s ≡ PageSizesDiffer) × HasFront wal.now) ⊎ (s ≡ NoMemory)) }
    ensures passed { OnOk result (¬ HasFront wal.now) }
{
    match scan_of(alloc, wal) {
        Ok(scan) => {
            if scan.committed().frames != 0 {
                return Err(Status::PageSizesDiffer);
            }
            Ok(())
        }
        Err(error) => memory_alone(error),
    }
}

/// Refuses a log of another version, or of pages of another size than the database file's.
fn ask_of_log(alloc: Global, db: &[u8], wal: &[u8]) -> Result<(), Status>
    ensures { IsAskedOfLog db.now wal.now result }
{
    match header_of(wal) {
        Some(Ok(header)) => {
            if has_other_size(db, header.page_size) {
                return refuse_front(alloc, wal);
            }
            Ok(())
        }
        Some(Err(error)) => version_alone(error),
        None => Ok(()),
    }
}

/// Refuses what a recovery refuses besides two logs and what is too large: of the log that counts another version, or
/// pages of another size than the database file's; of a journal that counts that it names a super-journal.
pub(crate) fn ask(alloc: Global, files: &Files<'_>) -> Result<(), Status>
    ensures { IsAsked files.now.db.now files.now.wal.now files.now.journal.now result }
{
    let mut journal = files.journal;
    match log_in_use(&files.wal, &mut journal) {
        Ok(LogInUse::Wal) => ask_of_log(alloc, files.db, files.wal),
        Ok(LogInUse::Journal(_)) => {
            if names_super_journal(files.journal) {
                return Err(Status::SuperJournal);
            }
            Ok(())
        }
        Ok(LogInUse::Neither) => Ok(()),
        Err(_) => Ok(()),
    }
}

/// The same of a database at a commit frame of its write-ahead log: nothing at frame 0, and of no journal.
pub(crate) fn ask_at(alloc: Global, files: &Files<'_>, frame: u32) -> Result<(), Status>
    ensures { IsAskedAt frame files.now.db.now files.now.wal.now files.now.journal.now result }
{
    if frame == 0 {
        return Ok(());
    }
    let mut journal = files.journal;
    match log_in_use(&files.wal, &mut journal) {
        Ok(LogInUse::Wal) => ask_of_log(alloc, files.db, files.wal),
        Ok(LogInUse::Journal(_)) => Ok(()),
        Ok(LogInUse::Neither) => Ok(()),
        Err(_) => Ok(()),
    }
}
