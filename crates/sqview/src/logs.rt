//! Logs that lie in a source, read in pieces and no further than they count (own).
ghost use Rattle.std.specs.Prelude.{◌≡◌, ℕ, ◌+◌, ◌^◌, ◌≤◌, List, length, take, IsOk, IfOk};
ghost use Rattle.sqwal.specs.Took.{TookWithin};
ghost use Rattle.sqjournal.specs.Journal.{IsFirst};
ghost use Rattle.sqjournal.specs.Took.{Took as ReplayTook};
ghost use Rattle.sqview.specs.Logs.{HotAnswer, ScanAnswer, ScanAnswerWithin, ReplayAnswer, CountsAnswer, IsRead};
ghost use Rattle.sqview.specs.internal.ViewParts.{ScanPiece, ReplayPiece};

use crate::file_bytes::FileBytes;
use crate::view_error::ViewError;
use sqjournal::{JournalError, JournalHeader, LONGEST, Replay};
use sqpage::SourceError;
use sqval::Limits;
use sqwal::{Scan, WalFormatError};
use std::alloc::Global;

/// How much of a log is read at once, in bytes.
const PIECE: usize = 65_536;

/// The log that counts beside a database file.
#[derive(Clone, Copy, Debug, PartialEq, Eq)]
pub enum LogInUse {
    /// No hot journal, and no write-ahead log or an empty one.
    Neither,
    /// The write-ahead log: it isn't empty, and the journal isn't hot.
    Wal,
    /// The journal, which is hot and has this first header.
    Journal(JournalHeader),
}

/// The first header of a journal that is hot: it is valid, and its whole sector is there. Of one that is shorter than a
/// header nothing is read, and of others 28 bytes. Refused where these can't be read.
pub fn hot_header<F: FileBytes>(journal: &mut F) -> Result<Option<JournalHeader>, SourceError>
    ensures answer { F.gives_bytes journal.old → HotAnswer (F.bytes journal.old) result }
    ensures right { F.reads_right journal.old → IfOk result (IsFirst (F.bytes journal.old)) }
    ensures still_right { F.reads_right journal.old → F.reads_right journal.new }
    ensures still_gives { F.gives_bytes journal.old → F.gives_bytes journal.new }
    ensures same_bytes { F.bytes journal.new ≡ F.bytes journal.old }
{
    let length = journal.len();
    if length < 28 {
        return Ok(None);
    }
    let mut front = [0u8; 28];
    journal.read_at(0, &mut front)?;
    let Ok(header) = JournalHeader::read(&front) else {
        return Ok(None);
    };
    if length < u64::from(header.sector) {
        return Ok(None);
    }
    Ok(Some(header))
}

/// The log that counts: a journal that is hot, otherwise a write-ahead log that isn't empty. Refused by TwoLogs where
/// both are so, and by Unread. Nothing is read but the journal's first 28 bytes.
pub fn log_in_use<F: FileBytes>(wal: &F, journal: &mut F) -> Result<LogInUse, ViewError>
    ensures answer { F.gives_bytes wal.now → F.gives_bytes journal.old
        → CountsAnswer (F.bytes wal.now) (F.bytes journal.old) result }
    ensures right { F.reads_right wal.now → F.reads_right journal.old → IsRead result
        → CountsAnswer (F.bytes wal.now) (F.bytes journal.old) result }
    ensures still_right { F.reads_right journal.old → F.reads_right journal.new }
    ensures still_gives { F.gives_bytes journal.old → F.gives_bytes journal.new }
    ensures same_bytes { F.bytes journal.new ≡ F.bytes journal.old }
{
    let header = hot_header(journal)?;
    let bare = wal.len() == 0;
    match header {
        Some(_) if !bare => Err(ViewError::TwoLogs),
        Some(header) => Ok(LogInUse::Journal(header)),
        None if bare => Ok(LogInUse::Neither),
        None => Ok(LogInUse::Wal),
    }
}

/// Reads the bytes at a place and hands them to the scan of those before.
fn scan_piece<F: FileBytes>(
    log: &mut F,
    scan: &mut Scan,
    at: u64,
    piece: &mut [u8],
) -> Result<Result<(), WalFormatError>, SourceError>
    ensures fed { (most : ℕ) → F.reads_right log.old → at + length piece.old ≤ length (F.bytes log.old)
        → TookWithin most (take at (F.bytes log.old)) scan.old
        → ScanPiece most (F.bytes log.old) (at + length piece.old) result scan.new }
    ensures never_fails { F.gives_bytes log.old → IsOk result }
    ensures still_right { F.reads_right log.old → F.reads_right log.new }
    ensures still_gives { F.gives_bytes log.old → F.gives_bytes log.new }
    ensures same_bytes { F.bytes log.new ≡ F.bytes log.old }
{
    log.read_at(at, piece)?;
    Ok(scan.feed(piece))
}

/// The scan of a write-ahead log, or what refuses its bytes. It is read in pieces of 65536 bytes, none of them behind
/// the one in which the log stops. Refused by `SourceError` where a piece can't be read.
pub fn scan_log<F: FileBytes>(
    alloc: Global,
    log: &mut F,
) -> Result<Result<Scan, WalFormatError>, SourceError>
    ensures answer { F.gives_bytes log.old → ScanAnswer (F.bytes log.old) result }
    ensures right { F.reads_right log.old → IsOk result → ScanAnswer (F.bytes log.old) result }
    ensures still_right { F.reads_right log.old → F.reads_right log.new }
    ensures still_gives { F.gives_bytes log.old → F.gives_bytes log.new }
    ensures same_bytes { F.bytes log.new ≡ F.bytes log.old }
{
    scan_log_within(alloc, Limits::USUAL, log)
}

/// The same of a log of no more valid frames than these limits allow.
pub fn scan_log_within<F: FileBytes>(
    alloc: Global,
    limits: Limits,
    log: &mut F,
) -> Result<Result<Scan, WalFormatError>, SourceError>
    ensures answer { F.gives_bytes log.old → ScanAnswerWithin limits.frames (F.bytes log.old) result }
    ensures right { F.reads_right log.old → IsOk result
        → ScanAnswerWithin limits.frames (F.bytes log.old) result }
    ensures still_right { F.reads_right log.old → F.reads_right log.new }
    ensures still_gives { F.gives_bytes log.old → F.gives_bytes log.new }
    ensures same_bytes { F.bytes log.new ≡ F.bytes log.old }
{
    let Ok(mut piece) = vec![in alloc; 0u8; PIECE] else {
        return Ok(Err(WalFormatError::NoMemory));
    };
    let mut scan = Scan::within(alloc, limits);
    let end = log.len();
    let mut at = 0;
    while at < end {
        let count = (end - at).min(PIECE as u64) as usize;
        if let Err(error) = scan_piece(log, &mut scan, at, &mut piece[..count])? {
            return Ok(Err(error));
        }
        at += count as u64;
        if scan.is_over() {
            return Ok(Ok(scan));
        }
    }
    Ok(Ok(scan))
}

/// Reads the bytes at a place and hands them to the replay of those before.
fn replay_piece<F: FileBytes>(
    journal: &mut F,
    replay: &mut Replay,
    at: u64,
    piece: &mut [u8],
) -> Result<Result<(), JournalError>, SourceError>
    ensures fed { F.reads_right journal.old → at + length piece.old ≤ length (F.bytes journal.old)
        → length (F.bytes journal.old) ≤ 2 ^ 40 → ReplayTook (take at (F.bytes journal.old)) replay.old
        → ReplayPiece (F.bytes journal.old) (at + length piece.old) result replay.new }
    ensures never_fails { F.gives_bytes journal.old → IsOk result }
    ensures still_right { F.reads_right journal.old → F.reads_right journal.new }
    ensures still_gives { F.gives_bytes journal.old → F.gives_bytes journal.new }
    ensures same_bytes { F.bytes journal.new ≡ F.bytes journal.old }
{
    journal.read_at(at, piece)?;
    Ok(replay.feed(piece))
}

/// The replay of a journal, or what refuses its bytes: TooLong by its length, of which nothing is read then. It is read
/// in pieces of 65536 bytes, none of them behind the one in which the journal ends. Refused by `SourceError` where a
/// piece can't be read.
pub fn replay_log<F: FileBytes>(
    alloc: Global,
    journal: &mut F,
) -> Result<Result<Replay, JournalError>, SourceError>
    ensures answer { F.gives_bytes journal.old → ReplayAnswer (F.bytes journal.old) result }
    ensures right { F.reads_right journal.old → IsOk result → ReplayAnswer (F.bytes journal.old) result }
    ensures still_right { F.reads_right journal.old → F.reads_right journal.new }
    ensures still_gives { F.gives_bytes journal.old → F.gives_bytes journal.new }
    ensures same_bytes { F.bytes journal.new ≡ F.bytes journal.old }
{
    let end = journal.len();
    if end > LONGEST {
        return Ok(Err(JournalError::TooLong));
    }
    let Ok(mut piece) = vec![in alloc; 0u8; PIECE] else {
        return Ok(Err(JournalError::NoMemory));
    };
    let mut replay = Replay::new(alloc);
    let mut at = 0;
    while at < end {
        let count = (end - at).min(PIECE as u64) as usize;
        if let Err(error) = replay_piece(journal, &mut replay, at, &mut piece[..count])? {
            return Ok(Err(error));
        }
        at += count as u64;
        if replay.is_over() {
            return Ok(Ok(replay));
        }
    }
    Ok(Ok(replay))
}
