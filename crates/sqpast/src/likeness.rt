//! What a page of a file is like: zeros, or the bytes of a frame that names it.
ghost use Rattle.std.specs.Prelude.{◌≡◌, ◌≤◌, ◌<◌, ◌+◌, ◌^◌, ◌↔◌};
ghost use Rattle.std.specs.Prelude.{ℕ, List, length, IsOk, IfOk, IsTrue, EachIndex, slice_index};
ghost use Rattle.sqval.specs.Database.{file_page};
ghost use Rattle.sqwal.specs.Frames.{frame_at, content_of};
ghost use Rattle.history.specs.Checkpoints.{zero_page};
ghost use Rattle.sqview.specs.Laid.{part_or_zeros};
ghost use Rattle.sqpast.specs.internal.Chains.{AreChains, IsLike, NamesAny};

use crate::chains::Chains;
use sqpage::SourceError;
use sqval::PageSize;
use sqview::FileBytes;

/// What a page of a file is like.
#[derive(Clone, Copy)]
pub struct Likeness {
    /// It is zeros.
    pub zero: bool,
    /// It has the bytes of a frame that names it.
    pub copied: bool,
}

/// These bytes are zeros.
pub fn is_zero(bytes: &[u8]) -> bool
    ensures { IsTrue result ↔ EachIndex bytes.now (λ k. slice_index bytes.now k ≡ 0) }
{
    bytes.iter().all(|byte| *byte == 0)
}

/// How many bytes of a frame are compared at once.
const PIECE: usize = 4096;

/// These bytes, a piece at most, are what the file has from a place on.
fn is_piece<F: FileBytes>(file: &mut F, at: u64, bytes: &[u8]) -> Result<bool, SourceError>
    requires { length bytes.now ≤ 4096 }
    ensures read { F.reads_right file.old → IfOk result
        (λ same. IsTrue same ↔ (bytes.now ≡ part_or_zeros (length bytes.now) at (F.bytes file.old))) }
    ensures never_fails { F.gives_bytes file.old → IsOk result }
    ensures still_right { F.reads_right file.old → F.reads_right file.new }
    ensures still_gives { F.gives_bytes file.old → F.gives_bytes file.new }
    ensures same_bytes { F.bytes file.new ≡ F.bytes file.old }
{
    let mut piece = [0u8; PIECE];
    let part = &mut piece[..bytes.len()];
    file.read_at(at, part)?;
    Ok(*part == *bytes)
}

/// These bytes are what the file has from a place on. It is read in pieces, none of them after the first that differs.
fn is_part<F: FileBytes>(file: &mut F, at: u64, bytes: &[u8]) -> Result<bool, SourceError>
    requires { at + length bytes.now < 2 ^ 64 }
    ensures read { F.reads_right file.old → IfOk result
        (λ same. IsTrue same ↔ (bytes.now ≡ part_or_zeros (length bytes.now) at (F.bytes file.old))) }
    ensures never_fails { F.gives_bytes file.old → IsOk result }
    ensures still_right { F.reads_right file.old → F.reads_right file.new }
    ensures still_gives { F.gives_bytes file.old → F.gives_bytes file.new }
    ensures same_bytes { F.bytes file.new ≡ F.bytes file.old }
{
    let mut done = 0;
    while done < bytes.len() {
        let count = (bytes.len() - done).min(PIECE);
        if !is_piece(file, at + done as u64, &bytes[done..done + count])? {
            return Ok(false);
        }
        done += count;
    }
    Ok(true)
}

/// Where the page of a frame begins in the log.
pub fn place(frame: u32, page_size: PageSize) -> u64
    requires { 1 ≤ frame }
    ensures place { result ≡ frame_at page_size frame + 24 }
    ensures low { result + page_size < 2 ^ 60 }
{
    32 + u64::from(frame - 1) * (24 + u64::from(page_size.get())) + 24
}

/// A frame that names page `p` has these bytes.
pub fn is_copied<F: FileBytes>(
    log: &mut F,
    chains: &Chains,
    p: usize,
    bytes: &[u8],
) -> Result<bool, SourceError>
    requires { (1 ≤ p) × (p ≤ length chains.now.first.items) × (length bytes.now ≡ chains.now.page_size) }
    ensures read { F.reads_right log.old → IfOk result (λ same. (front : ℕ)
        → AreChains (F.bytes log.old) front (length chains.now.first.items) chains.now
        → IsTrue same ↔ NamesAny chains.now.page_size (F.bytes log.old) front p bytes.now) }
    ensures never_fails { F.gives_bytes log.old → IsOk result }
    ensures still_right { F.reads_right log.old → F.reads_right log.new }
    ensures still_gives { F.gives_bytes log.old → F.gives_bytes log.new }
    ensures same_bytes { F.bytes log.new ≡ F.bytes log.old }
{
    let mut frame = chains.first[p - 1];
    for step in 0..chains.next.len() {
        if frame as usize <= step {
            break;
        }
        if is_part(log, place(frame, chains.page_size), bytes)? {
            return Ok(true);
        }
        frame = chains.after(frame);
    }
    Ok(false)
}
