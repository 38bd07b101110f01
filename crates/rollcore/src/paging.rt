//! Pages are read, and the disk is lent.
ghost use Rattle.std.specs.Prelude.{◌≡◌, ◌≤◌, length, OnOk, IfErr};
ghost use Rattle.std.specs.Borrow.{Lends, sem};
ghost use Rattle.rollcore.specs.Paging.{ReadJudged, ReadAnswers, ReadsPage};
ghost use Rattle.crashdisk.specs.During.{During};
ghost use Rattle.recovery.specs.internal.Reading.{ReadsPlace};

use crate::error::RollError;
use crate::roll::Roll;
use crate::state::Core;
use crashdisk::{Disk, File};

/// Whether a page can be read into a buffer of `room` bytes.
fn judge_read(core: &Core, page: u32, room: usize) -> Result<(), RollError>
    ensures judged { ReadJudged core.now page room result }
    ensures some { OnOk result (1 ≤ page) }
    ensures room { OnOk result (room ≤ 65536) }
{
    if !core.is_open {
        return Err(RollError::Closed);
    }
    if page == 0 {
        return Err(RollError::PageZero);
    }
    if page > core.size {
        return Err(RollError::PageAboveSize);
    }
    if room != core.page_size.get() as usize {
        return Err(RollError::BadLength);
    }
    Ok(())
}

/// Reads bytes from a place of a file.
pub(crate) fn read_place<D: Disk>(
    disk: &mut D,
    file: File,
    at: u64,
    out: &mut [u8],
) -> Result<(), RollError>
    ensures disk { During D.keeps_word D.state disk.old disk.new (ReadsPlace RollError.Device file at out.new result) }
    ensures error { IfErr result (λ e. e ≡ RollError.Device) }
{
    disk.read_at(file, at, out)?;
    Ok(())
}

impl<D: Disk> Roll<D> {
    ghost use Rattle.rollcore.specs.contracts.roll.Roll.{the_row};

    /// Reads a page of the last commit (own). Refused are Closed, PageZero, PageAboveSize, BadLength and Device, which
    /// doesn't close the core. After a refusal `out` may hold anything.
    pub fn read(&mut self, page: u32, out: &mut [u8]) -> Result<(), RollError>
        ensures disk { During D.keeps_word D.state self.old.disk self.new.disk
            (ReadsPage page (length out.old) out.new result self.old.core self.new.core) }
        ensures answer { ReadAnswers self.old.core page (length out.old) result self.old self.new }
        // whatever is answered
        ensures core { self.new.core ≡ self.old.core }
    {
        judge_read(&self.core, page, out.len())?;
        let at = u64::from(page - 1) * out.len() as u64;
        read_place(&mut self.disk, File::Db, at, out)
    }

    /// Lends the disk (own), as for a stop or a failure to be set. What is written to it by other calls the engine
    /// doesn't know.
    pub fn disk(&mut self) -> &mut D
        ensures* writes_back { sem 𝓛 (Lends (the_row D.row) D.row self.entry result
            (λ w. record self.old { disk = w })) }
        ensures value { result.now ≡ self.old.disk }
    {
        &mut self.disk
    }

    /// Gives the disk back (own).
    pub fn into_disk(self) -> D
        ensures { result ≡ self.disk }
    {
        let Roll { disk, core: _ } = self;
        disk
    }
}
