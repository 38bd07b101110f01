//! Checkpoints: what the log has is brought into the database file.
ghost use Rattle.std.specs.Prelude.{◌≡◌, ◌≢◌, ◌+◌, ◌≤◌, length, OnErr, IfErr, IsOk, false};
ghost use Rattle.std.specs.Prelude.{if◌then◌else◌};
ghost use Rattle.crashdisk.specs.During.{During};
ghost use Rattle.walcore.specs.Closing.{ClosesOnDevice};
ghost use Rattle.walcore.specs.internal.Uncommitted.{BringsNothing};
ghost use Rattle.walcore.specs.Bringing.{BringsOldest};
ghost use Rattle.walcore.specs.internal.Bringing.{IsLeast, SizeAnswer, BringsOver, BringsDatabase, ClosedBy};
ghost use Rattle.recovery.specs.Reading.{OnlyReads};

use crate::copying::{copy_pages, sync_database};
use crate::error::WalError;
use crate::paging::read_place;
use crate::state::Core;
use crate::wal::{Checkpointed, Wal};
use byteorder::{BigEndian, ByteOrder};
use crashdisk::{Disk, File};
use sqwal::FrameIndex;

/// The mark of the oldest open reader, or the newest mark where none is open.
fn least_mark(marks: &[u32], newest: u32) -> u32
    ensures { IsLeast marks.now newest result }
{
    let mut least = newest;
    for mark in marks {
        if *mark < least {
            least = *mark;
        }
    }
    least
}

/// How many pages the database has that ends with this frame of the log.
fn size_at<D: Disk>(disk: &mut D, page_size: usize, frame: u32) -> Result<u32, WalError>
    requires some { 1 ≤ frame }
    requires size { page_size ≤ 65536 }
    ensures disk { During D.keeps_word D.state disk.old disk.new
        (OnlyReads WalError.Device result (SizeAnswer page_size frame result)) }
    ensures error { OnErr result (result ≡ Err WalError.Device) }
{
    let mut bytes = [0; 4];
    let at = 32 + u64::from(frame - 1) * (24 + page_size as u64) + 4;
    read_place(disk, File::Log, at, &mut bytes)?;
    Ok(BigEndian::read_u32(&bytes))
}

/// Brings the database that ends with this frame of the log into the database file.
fn bring_over<D: Disk>(
    disk: &mut D,
    index: &FrameIndex,
    frame: u32,
    page: &mut [u8],
) -> Result<(), WalError>
    requires { (1 ≤ length page.old) × (length page.old ≤ 65536) }
    ensures disk { During D.keeps_word D.state disk.old disk.new (BringsOver (length page.old) frame index.now result) }
    ensures error { OnErr result (result ≡ Err WalError.Device) }
    ensures none { frame ≡ 0 → IsOk result × (disk.new ≡ disk.old) }
{
    if frame == 0 {
        return Ok(());
    }
    let size = size_at(disk, page.len(), frame)?;
    copy_pages(disk, index, frame, size, page.len(), page)?;
    sync_database(disk)
}

/// All of the log, or a part.
fn reached(all: bool) -> Checkpointed
    ensures { result ≡ (if all then Checkpointed.Complete else Checkpointed.Partial) }
{
    if all {
        Checkpointed::Complete
    } else {
        Checkpointed::Partial
    }
}

/// Closes a core of which a call was refused.
fn close_on(core: &mut Core, done: Result<Checkpointed, WalError>) -> Result<Checkpointed, WalError>
    ensures same { result ≡ done }
    ensures core { ClosedBy done core.old core.new }
    ensures shut { OnErr result (core.new.is_open ≡ false) }
{
    if done.is_err() {
        core.is_open = false;
    }
    done
}

impl<D: Disk> Wal<D> {
    /// Brings the database of the oldest open reader into the database file, once the log is durable.
    fn copy_oldest(&mut self) -> Result<Checkpointed, WalError>
        ensures disk { During D.keeps_word D.state self.old.disk self.new.disk
            (BringsDatabase result self.old.core self.new.core) }
        ensures error { OnErr result (result ≡ Err WalError.Device) }
        ensures none { self.old.core.mark ≡ 0 → IsOk result × BringsNothing self.old self.new }
    {
        let frame = least_mark(&self.core.marks, self.core.mark);
        let size = self.core.page_size.get() as usize;
        bring_over(
            &mut self.disk,
            &self.core.index,
            frame,
            &mut self.core.frame[24..24 + size],
        )?;
        let all = frame == self.core.mark;
        self.core.drained = all;
        Ok(reached(all))
    }

    /// Makes all commits durable, as `sync` does, and copies the database that the oldest open reader sees, or the
    /// newest where none is open, into the database file (fileformat2, 4.3). Refused are Closed and Device.
    pub fn checkpoint(&mut self) -> Result<Checkpointed, WalError>
        ensures disk { During D.keeps_word D.state self.old.disk self.new.disk
            (BringsOldest result self.old.core self.new.core) }
        ensures kept { IfErr result (λ e. e ≢ WalError.Device → self.new ≡ self.old) }
        ensures closes { ClosesOnDevice result self.old.disk self.new.disk self.old.core self.new.core }
        ensures memory { result ≢ Err WalError.NoMemory }
    {
        self.sync()?;
        let done = self.copy_oldest();
        close_on(&mut self.core, done)
    }
}
