//! The engine of a run, or the disk that it is to be opened on (own).
ghost use Rattle.std.specs.Prelude.{◌≡◌, ◌+◌, ◌<◌, ◌≤◌, ◌^◌, ℕ, IfOk, OnOk};
ghost use Rattle.crashdisk.specs.Call.{of, ArePresent};
ghost use Rattle.crashdisk.specs.Model.{state_of};
ghost use Rattle.crashdisk.specs.Stop.{no_stops};
ghost use Rattle.sqworld.specs.Run.{files_of, numbered};
ghost use Rattle.sqworld.specs.Engines.{IsLeftBy, IsLeftAt, FailsAt};
ghost use Rattle.sqworld.specs.internal.Engines.{IsAlone};
ghost use Rattle.recovery.specs.Files.{AreFiles};

use crate::reply::{Crashed, Found, Reply};
use crashdisk::{Choice, DiskError, File, ModelDisk, Part};
use sqval::PageSize;
use std::alloc::{AllocError, Global};

/// An engine of a run, or the disk that it is to be opened on.
pub trait Engine {
    ghost use Rattle.sqworld.specs.WorldKinds.{WorldKind, disk_of};
    ghost use Rattle.sqworld.specs.internal.Worlds.{IsLawful};

    /// What it answers.
    type Event;

    ghost kind: { WorldKind Self Self.Event };

    ghost begun_of: { Self → ℕ };

    /// No engine, on this disk.
    fn closed(disk: ModelDisk) -> Self
        ensures is { result ≡ kind.closed disk }
        ensures begun { begun_of result ≡ 0 };

    /// Answers an event.
    fn serve(
        self,
        alloc: Global,
        page_size: PageSize,
        tears: bool,
        event: &Self::Event,
    ) -> (Self, Result<Given, AllocError>)
        requires { begun_of self < 2 ^ 63 }
        ensures answers { IfOk result.1 (λ given. kind.Answers page_size tears event.now self given result.0) }
        ensures begun { begun_of result.0 ≤ begun_of self + 1 };

    /// How many calls the disk has refused.
    fn refused(&mut self) -> u64
        ensures value { result ≡ (disk_of kind self.old).refused }
        ensures same { self.new ≡ self.old };

    /// A disk of its own that lists the same.
    fn copy_disk(&mut self) -> Result<ModelDisk, DiskError>
        ensures same { self.new ≡ self.old }
        ensures listed { IfOk result (λ disk. state_of disk ≡ disk_of kind self.old) };

    /// Gives the disk back.
    fn into_disk(self) -> ModelDisk
        requires { begun_of self < 2 ^ 63 }
        ensures { state_of result ≡ disk_of kind self };

    ghost lawful: { IsLawful kind };
}

/// What an event gave.
#[derive(Drop)]
pub struct Given {
    pub reply: Reply,
    pub found: Option<Found>,
    pub crashed: Option<Crashed>,
}

/// The bytes of a file.
fn bytes_of(alloc: Global, disk: &ModelDisk, file: File) -> Result<Vec<u8>, AllocError>
    ensures { IfOk result (λ bytes. ArePresent (of file (state_of disk.now)) bytes.items) }
{
    let mut bytes = Vec::new(alloc);
    match disk.present(file, &mut bytes) {
        Ok(()) => Ok(bytes),
        Err(_) => Err(AllocError),
    }
}

/// The bytes of both files.
pub(crate) fn find(alloc: Global, disk: &ModelDisk) -> Result<Found, AllocError>
    ensures { IfOk result (λ found. AreFiles (state_of disk.now) (files_of found)) }
{
    let db = bytes_of(alloc, disk, File::Db)?;
    let log = bytes_of(alloc, disk, File::Log)?;
    Ok(Found { db, log })
}

/// Places and bytes of writes.
fn copy_writes(alloc: Global, writes: &[(u64, Vec<u8>)]) -> Result<Vec<(u64, Vec<u8>)>, AllocError>
    ensures { IfOk result (λ copy. numbered copy.items ≡ numbered writes.now) }
{
    let mut copy = Vec::new(alloc);
    for write in writes {
        let bytes = Vec::from_slice(alloc, &write.1)?;
        copy.push((write.0, bytes))?;
    }
    Ok(copy)
}

/// Crashes a disk, and answers what that left of the log of one that tears.
pub(crate) fn crash_disk(
    alloc: Global,
    disk: &mut ModelDisk,
    tears: bool,
    choice: &Choice,
) -> Result<Option<Crashed>, AllocError>
    ensures left { IfOk result (λ left. IsLeftBy tears choice.now left (state_of disk.old) (state_of disk.new)) }
    ensures cleared { OnOk result (disk.new.stops ≡ no_stops) }
{
    if !tears {
        disk.crash(choice);
        return Ok(None);
    }
    let since = disk.since();
    let kept = Vec::from_slice(alloc, since.0)?;
    let handed = copy_writes(alloc, since.1)?;
    disk.crash(choice);
    let log = Vec::from_slice(alloc, disk.since().0)?; // what a crash leaves is kept
    Ok(Some(Crashed { log, kept, handed }))
}

/// The same, of the files that the choice of this number names.
pub(crate) fn crash_disk_at(
    alloc: Global,
    disk: &mut ModelDisk,
    tears: bool,
    number: u64,
) -> Result<Option<Crashed>, AllocError>
    ensures left { IfOk result (λ left. IsLeftAt tears number left (state_of disk.old) (state_of disk.new)) }
    ensures cleared { OnOk result (disk.new.stops ≡ no_stops) }
{
    let choice = disk.choice_at(alloc, number)?;
    crash_disk(alloc, disk, tears, &choice)
}

/// Lets a call of the disk fail, of which this part is left.
pub(crate) fn fail_disk(
    alloc: Global,
    disk: &mut ModelDisk,
    call: u64,
    part: &Part,
) -> Result<(), AllocError>
    ensures set { OnOk result (FailsAt call part.now disk.old disk.new) }
{
    let pick = Vec::from_slice(alloc, &part.pick)?;
    let new_len = part.new_len;
    disk.fail(call, Part { pick, new_len });
    Ok(())
}

/// A reply, and nothing else.
pub(crate) fn alone(reply: Result<Reply, AllocError>) -> Result<Given, AllocError>
    ensures { IsAlone reply result }
{
    let reply = reply?;
    Ok(Given {
        reply,
        found: None,
        crashed: None,
    })
}
