//! The scan of the log on a disk (own).
ghost use Rattle.std.specs.Prelude.{◌≡◌, ◌<◌, length, ℕ, []};
ghost use Rattle.crashdisk.specs.During.{During};
ghost use Rattle.recovery.specs.Reading.{OnlyReads, OfLog};
ghost use Rattle.recovery.specs.Scanning.{ScanAnswer};
ghost use Rattle.recovery.specs.internal.Scanning.{TakesPiece, TakesLog};

use crashdisk::{Disk, DiskError, File};
use std::alloc::{AllocError, Global};

/// How many bytes of the log are read at once.
const PIECE: usize = 131072;

/// A scan that the bytes of a log are handed to, one piece after another.
pub trait LogScan<E: From<DiskError> + From<AllocError>> {
    ghost use Rattle.std.specs.Prelude.{ℕ, List};
    ghost use Rattle.std.specs.declared.alloc.AllocError.{AllocError};
    ghost use Rattle.crashdisk.specs.Call.{DiskState};
    ghost use Rattle.crashdisk.specs.declared.error.DiskError.{DiskError};
    ghost use Rattle.recovery.specs.Scanning.{ScanKind, FeedsPiece, EndsScan, IsSoundKind};

    /// What it is a scan of, within so many frames.
    ghost kind: { ℕ → ScanKind Self E };

    /// The error by which a refused call of the disk is told.
    ghost device: { E };

    /// Takes the next bytes. False where the log doesn't count.
    fn take_piece(&mut self, piece: &[u8]) -> Result<bool, E>
        ensures { (most : ℕ) → FeedsPiece (kind most) piece.now self.old self.new result };

    /// Whether no bytes that may follow change what the scan says.
    fn is_settled(&self) -> bool
        ensures { (most : ℕ) → EndsScan (kind most) self.now result };

    /// What is so of each kind.
    ghost sound: { (most : ℕ) → IsSoundKind (kind most) device };

    /// The disk's errors are told by that one.
    ghost device_gives: { (error : DiskError) (e : E) → ⟦<E as From<DiskError>>⟧.from_gives error e → e ≡ device };

    /// A log may be refused where memory is short.
    ghost memory_gives: { (most : ℕ) (w : List ℕ) (error : AllocError) (e : E) (a b : DiskState)
        → ⟦<E as From<AllocError>>⟧.from_gives error e → (kind most).Refused w e a b };
}

/// Reads the next piece of the log and hands it to the scan. Whether the log may count.
fn feed_piece<D: Disk, E: From<DiskError> + From<AllocError>, S: LogScan<E>>(
    disk: &mut D,
    scan: &mut S,
    at: u64,
    piece: &mut [u8],
) -> Result<bool, E>
    ensures { During D.keeps_word D.state disk.old disk.new
        (OnlyReads S.device result (λ a b. (most : ℕ)
        → TakesPiece (S.kind most) at (length piece.old) scan.old scan.new result a b)) }
{
    disk.read_at(File::Log, at, piece)?;
    scan.take_piece(piece)
}

/// Hands the log, which has this many bytes, to the scan, no further than the piece in which it is settled. Whether it
/// may count.
fn scan_pieces<D: Disk, E: From<DiskError> + From<AllocError>, S: LogScan<E>>(
    disk: &mut D,
    scan: &mut S,
    long: u64,
    buffer: &mut [u8],
) -> Result<bool, E>
    requires { 0 < length buffer.old }
    ensures { During D.keeps_word D.state disk.old disk.new
        (OnlyReads S.device result (λ a b. (most : ℕ)
        → TakesLog (S.kind most) long scan.old scan.new result a b)) }
{
    let most = buffer.len();
    let mut at = 0;
    while at < long {
        let n = (long - at).min(most as u64) as usize;
        if !feed_piece(disk, scan, at, &mut buffer[..n])? {
            return Ok(false);
        }
        at += n as u64;
        if scan.is_settled() {
            return Ok(true);
        }
    }
    Ok(true)
}

/// Scans the log, which has this many bytes, from a scan of none on. None where it doesn't count.
pub fn scan_log<D: Disk, E: From<DiskError> + From<AllocError>, S: LogScan<E> + Drop>(
    alloc: Global,
    disk: &mut D,
    scan: S,
    long: u64,
) -> Result<Option<S>, E>
    ensures { During D.keeps_word D.state disk.old disk.new
        (OnlyReads S.device result (OfLog long (λ w a b. (most : ℕ)
        → (S.kind most).Took [] scan → ScanAnswer (S.kind most) w result a b))) }
{
    let mut scan = scan;
    let mut buffer = vec![in alloc; 0u8; PIECE]?;
    if scan_pieces(disk, &mut scan, long, &mut buffer)? {
        Ok(Some(scan))
    } else {
        Ok(None)
    }
}
