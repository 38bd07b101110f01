//! The commits of a log (fileformat2, 4.1).
ghost use Rattle.std.specs.Prelude.{◌≡◌, ℕ, List, IfOk, IfErr};
ghost use Rattle.sqwal.specs.Commits.{AreCommits};
ghost use Rattle.sqwal.specs.Header.{named_size};
ghost use Rattle.sqwal.specs.Took.{TookWithin};

use crate::error::WalFormatError;
use crate::scan::Scan;
use std::alloc::Global;

impl Scan {
    /// The frames that end a commit, from 1 and rising; the last one is the front. They take 4 bytes each. Refused by
    /// NoMemory alone.
    pub fn commits(&self, alloc: Global) -> Result<Vec<u32>, WalFormatError>
        ensures commits { IfOk result (λ list. (most : ℕ) (b : List ℕ) → TookWithin most b self.now
            → AreCommits (named_size b) b list.items) }
        ensures memory { IfErr result (λ e. e ≡ WalFormatError.NoMemory) }
    {
        let mut commits = Vec::new(alloc);
        for before in 0..self.committed().frames {
            let Some(entry) = self.entry(before as usize + 1) else {
                break;
            };
            if entry.size != 0 {
                commits
                    .push(before + 1)
                    .map_err(|_| WalFormatError::NoMemory)?;
            }
        }
        Ok(commits)
    }
}
