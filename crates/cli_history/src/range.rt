//! The commits of a log between two of them.
ghost use Rattle.std.specs.Prelude.{◌≡◌, ℕ, List, IfOk, IfErr};
ghost use Rattle.sqwal.specs.Took.{TookWithin};
ghost use Rattle.sqwal.specs.Header.{named_size};
ghost use Rattle.cli_history.specs.Ranges.{AreBetween, is_between};

use sqwal::{Scan, WalFormatError};
use std::alloc::Global;

/// Whether a frame is behind the first one, and not behind the last one, where one is named.
fn is_between(from: u32, to: Option<u32>, frame: u32) -> bool
    ensures { result ≡ is_between from to frame }
{
    match to {
        Some(last) => from < frame && frame <= last,
        None => from < frame,
    }
}

/// The commits of a log, by their last frames and rising, that are behind the frame `from` and up to the frame `to`; up
/// to the last one where none is named. Refused by NoMemory alone.
pub fn commits_between(
    alloc: Global,
    scan: &Scan,
    from: u32,
    to: Option<u32>,
) -> Result<Vec<u32>, WalFormatError>
    ensures between { IfOk result (λ list. (most : ℕ) (b : List ℕ) → TookWithin most b scan.now
        → AreBetween (named_size b) b from to list.items) }
    ensures memory { IfErr result (λ error. error ≡ WalFormatError.NoMemory) }
{
    let all = scan.commits(alloc)?;
    let mut list = Vec::new(alloc);
    for frame in &all {
        if is_between(from, to, *frame) {
            match list.push(*frame) {
                Ok(()) => {}
                Err(_) => return Err(WalFormatError::NoMemory),
            }
        }
    }
    Ok(list)
}
