//! Commits.
ghost use Rattle.std.specs.Prelude.{◌≡◌, ◌≢◌, ◌*◌, ◌≤◌, length, false, Err, OnErr};
ghost use Rattle.std.specs.Prelude.{IfErr};
ghost use Rattle.sqval.specs.JudgedPages.{lent};
ghost use Rattle.crashdisk.specs.During.{During};
ghost use Rattle.rollcore.specs.internal.Committing.{PutsCommit};
ghost use Rattle.rollcore.specs.Commits.{CommitsPages};
ghost use Rattle.rollcore.specs.internal.Commits.{CommitsOpen};
ghost use Rattle.rollcore.specs.Commits.{KeepsCore};
ghost use Rattle.rollcore.specs.internal.Commits.{IsReady, PagesJudged, PrepareAnswer, EndAnswer};
ghost use Rattle.rollcore.specs.Commits.{ClosesOnDevice};

use crate::changes::{count_records, list_changes};
use crate::error::RollError;
use crate::finishing::end_commit;
use crate::parts::{count_segments, put_segments};
use crate::roll::Roll;
use crate::state::Core;
use crashdisk::Disk;
use sqval::judge_pages;

/// Judges the pages of a commit.
fn judge(core: &mut Core, pages: &[(u32, &[u8])], size: u32) -> Result<(), RollError>
    ensures keeps { KeepsCore core.old core.new }
    ensures answer { PagesJudged pages.now size result core.old }
    ensures own { IfErr result (λ e. e ≢ RollError.Device) }
{
    judge_pages(pages, size, core.size, core.page_size, &mut core.numbers)?;
    Ok(())
}

/// Judges a commit, and lists what it changes of the database that is there.
fn prepare(
    core: &mut Core,
    pages: &[(u32, &[u8])],
    size: u32,
    nonces: usize,
) -> Result<(), RollError>
    ensures keeps { KeepsCore core.old core.new }
    ensures answer { PrepareAnswer pages.now size nonces result core.old core.new }
    ensures own { IfErr result (λ e. e ≢ RollError.Device) }
{
    judge(core, pages, size)?;
    if nonces < count_segments(count_records(pages, core.size, size)) {
        return Err(RollError::NonceMissing);
    }
    list_changes(pages, core.size, size, &mut core.changes)
}

/// Carries a commit out that is granted: the journal's segments one after another, each with its pages, then the pages
/// that are new, the length, and the journal's end.
fn put_commit<D: Disk>(
    disk: &mut D,
    core: &mut Core,
    pages: &[(u32, &[u8])],
    size: u32,
    nonces: &[u32],
) -> Result<(), RollError>
    requires { IsReady pages.now size (length nonces.now) core.old }
    ensures disk { During D.keeps_word D.state disk.old disk.new
        (PutsCommit core.old pages.now size nonces.now result) }
    ensures error { IfErr result (λ e. e ≡ RollError.Device) }
    ensures keeps { KeepsCore core.old core.new }
{
    let sector = disk.sector() as u32;
    put_segments(disk, core, pages, nonces, sector)?;
    end_commit(disk, pages, core.size, size, core.page_size)
}

/// The commit is the newest one, or the core is closed.
fn end_put(core: &mut Core, size: u32, put: Result<(), RollError>) -> Result<(), RollError>
    requires { size * core.old.page_size ≤ 1073741824 }
    ensures same { result ≡ put }
    ensures answer { EndAnswer size put core.old core.new }
{
    match put {
        Ok(()) => core.size = size,
        Err(_) => core.is_open = false,
    }
    put
}

/// Carries a commit out that is granted, and notes it.
fn write_commit<D: Disk>(
    disk: &mut D,
    core: &mut Core,
    pages: &[(u32, &[u8])],
    size: u32,
    nonces: &[u32],
) -> Result<(), RollError>
    requires { IsReady pages.now size (length nonces.now) core.old }
    ensures disk { During D.keeps_word D.state disk.old disk.new
        (CommitsOpen (lent pages.now) size nonces.now result core.old core.new) }
    ensures error { OnErr result (result ≡ Err RollError.Device) }
    ensures shut { OnErr result (core.new.is_open ≡ false) }
{
    let put = put_commit(disk, core, pages, size, nonces);
    end_put(core, size, put)
}

/// Commits these pages.
fn commit_pages<D: Disk>(
    disk: &mut D,
    core: &mut Core,
    pages: &[(u32, &[u8])],
    size: u32,
    nonces: &[u32],
) -> Result<(), RollError>
    ensures disk { During D.keeps_word D.state disk.old disk.new
        (CommitsPages (lent pages.now) size nonces.now result core.old core.new) }
    ensures kept { IfErr result (λ e. e ≢ RollError.Device → (disk.new ≡ disk.old) × KeepsCore core.old core.new) }
    ensures closes { ClosesOnDevice result core.old core.new disk.old disk.new }
{
    if !core.is_open {
        return Err(RollError::Closed);
    }
    prepare(core, pages, size, nonces.len())?;
    write_commit(disk, core, pages, size, nonces)
}

impl<D: Disk> Roll<D> {
    /// Commits these pages, each given by its number, from 1, and its whole content, after which the database has
    /// `size` pages (fileformat2, 3). Each of the journal's segments takes a nonce: there is one for each 64 old pages
    /// that are written or cut off, and one at least. Refused are, in this order, Closed, EmptyCommit, SizeZero,
    /// PageZero, PageAboveSize, PageTwice, HoleInGrowth, BadLength, TooLarge, NonceMissing; NoMemory; Device, after
    /// which the core is closed.
    pub fn commit(
        &mut self,
        pages: &[(u32, &[u8])],
        size: u32,
        nonces: &[u32],
    ) -> Result<(), RollError>
        ensures disk { During D.keeps_word D.state self.old.disk self.new.disk
            (CommitsPages (lent pages.now) size nonces.now result self.old.core self.new.core) }
        // a refusal other than Device changes nothing but what its buffers hold
        ensures kept { IfErr result
            (λ e. e ≢ RollError.Device → (self.new.disk ≡ self.old.disk) × KeepsCore self.old.core self.new.core) }
        ensures closes { ClosesOnDevice result self.old.core self.new.core self.old.disk self.new.disk }
    {
        commit_pages(&mut self.disk, &mut self.core, pages, size, nonces)
    }
}
