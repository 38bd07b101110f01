//! What the calls of a modelled disk do to its log, and to what a disk that tears keeps of it.
ghost use Rattle.std.specs.Prelude.{◌≡◌, ◌≤◌, ◌+◌, length};
ghost use Rattle.crashdisk.specs.State.{longest, IsImage, IsSettled, IsSynced};
ghost use Rattle.crashdisk.specs.Call.{counted, with_write};
ghost use Rattle.crashdisk.specs.Held.{file_of};
ghost use Rattle.crashdisk.specs.internal.Answer.{writing, cutting, IsAnswered};
ghost use Rattle.crashdisk.specs.Choice.{naming_of, image_of};
ghost use Rattle.crashdisk.specs.Since.{handed_writes};
ghost use Rattle.crashdisk.specs.internal.Since.{StandsLog, Hands, Synced, Left};
ghost use Rattle.crashdisk.specs.declared.file.File.TheVariants.{Log};

use crate::calls::{Manner, cut_held, refuse, sync_held, write_held};
use crate::choice::FileChoice;
use crate::crash::crash_held;
use crate::error::DiskError;
use crate::held::Held;
use crate::since::Since;

/// Writes into the log, and counts a refusal.
pub(crate) fn write_log(
    held: &mut Held,
    since: &mut Since,
    refused: &mut u64,
    manner: &Manner<'_>,
    at: u64,
    bytes: &[u8],
) -> Result<(), DiskError>
    requires stands { StandsLog manner.now.sector manner.now.tears held.old since.old }
    requires room { at + length bytes.now ≤ longest }
    ensures stands { StandsLog manner.now.sector manner.now.tears held.new since.new }
    ensures answered { IsAnswered manner.now (writing (file_of manner.now.sector held.old) at bytes.now)
        result held.old held.new }
    ensures counted { refused.new ≡ counted result refused.old }
    ensures hands { Hands (with_write manner.now.tears Log result at bytes.now (handed_writes since.old))
        since.old since.new }
{
    if !manner.tears {
        return write_held(held, refused, manner, at, bytes);
    }
    match since.hand_over(manner.alloc, at, bytes) {
        Ok(()) => {
            let answer = write_held(held, refused, manner, at, bytes);
            since.answer(&answer);
            answer
        }
        Err(_) => {
            refuse(refused);
            Err(DiskError::NoMemory)
        }
    }
}

/// Changes the length of the log, and counts a refusal.
pub(crate) fn cut_log(
    held: &mut Held,
    since: &mut Since,
    refused: &mut u64,
    manner: &Manner<'_>,
    end: u64,
) -> Result<(), DiskError>
    requires stands { StandsLog manner.now.sector manner.now.tears held.old since.old }
    requires room { end ≤ longest }
    ensures stands { StandsLog manner.now.sector manner.now.tears held.new since.new }
    ensures answered { IsAnswered manner.now (cutting (file_of manner.now.sector held.old) end)
        result held.old held.new }
    ensures counted { refused.new ≡ counted result refused.old }
    ensures hands { Hands (handed_writes since.old) since.old since.new }
{
    if manner.tears && since.reserve(end as usize).is_err() {
        refuse(refused);
        return Err(DiskError::NoMemory);
    }
    cut_held(held, refused, manner, end)
}

/// Syncs the log.
pub(crate) fn sync_log(held: &mut Held, since: &mut Since, sector: usize, tears: bool)
    requires { StandsLog sector tears held.old since.old }
    ensures stands { StandsLog sector tears held.new since.new }
    ensures synced { IsSynced (file_of sector held.old) (file_of sector held.new) }
    ensures since { Synced tears (file_of sector held.old) since.old since.new }
{
    if tears {
        since.keep(held, sector);
    }
    sync_held(held, sector);
}

/// Leaves the log that a choice names, alone.
pub(crate) fn crash_log(
    held: &mut Held,
    since: &mut Since,
    sector: usize,
    tears: bool,
    choice: &FileChoice,
)
    requires { StandsLog sector tears held.old since.old }
    ensures stands { StandsLog sector tears held.new since.new }
    ensures image { IsImage sector tears (file_of sector held.old)
        (image_of sector tears (file_of sector held.old) (naming_of choice.now)) }
    ensures settled { IsSettled (file_of sector held.new)
        (image_of sector tears (file_of sector held.old) (naming_of choice.now)) }
    ensures since { Left tears (image_of sector tears (file_of sector held.old) (naming_of choice.now))
        since.old since.new }
{
    crash_held(held, sector, tears, choice);
    if tears {
        since.keep(held, sector);
    }
}
