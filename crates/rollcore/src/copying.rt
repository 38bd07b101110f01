//! The pages of a journal's records are copied into the database, and the journal's header is zeroed.
ghost use Rattle.std.specs.Prelude.{◌≡◌, ◌+◌, ◌-◌, ◌*◌, ◌^◌, ◌<◌, ◌≤◌, ℕ, List, length, Some, IsTrue, IfErr};
ghost use Rattle.crashdisk.specs.During.{During};
ghost use Rattle.sqjournal.specs.Took.{HasEntry};
ghost use Rattle.rollcore.specs.internal.Copying.{CopiesRecords, Finishes};
ghost use Rattle.rollcore.specs.internal.RecordPlan.{record_plan};
ghost use Rattle.rollcore.specs.internal.Steps.{HasRead};

use crate::error::RollError;
use crashdisk::Disk;
use recovery::{CopyPlan, Run, Shape};
use sqjournal::{Record, Replay};

/// How many bytes the header of a segment has.
const HEADER: usize = 28;

/// How many bytes a record has round its page: the page's number before it, and its sum behind it.
const ROUND: usize = 8;

/// Whether a record is of the page that comes so many behind another's, and stands so many records behind it.
fn follows(next: Record, first: Record, run: usize, size: usize) -> bool
    requires { (run < 2 ^ 25) × (size ≤ 65536) }
    ensures { IsTrue result → next ≡ record { page = first.page + run; at = first.at + run * (size + ROUND) } }
{
    let page = u64::from(first.page) + run as u64;
    let at = u128::from(first.at) + (run * (size + ROUND)) as u128;
    u64::from(next.page) == page && u128::from(next.at) == at
}

/// How many records from this one on, at most so many, are of one page behind the other, and stand one behind the
/// other.
fn run_from(scan: &Replay, number: usize, first: Record, size: usize, most: usize) -> usize
    requires number { (1 ≤ number) × (number - 1 + most < 2 ^ 64) }
    requires most { (1 ≤ most) × (most ≤ 2 ^ 25) × (size ≤ 65536) }
    ensures count { (1 ≤ result) × (result ≤ most) }
    ensures each { (w : List ℕ) → HasRead w scan.now → HasEntry w number (Some first) → (j : ℕ) → j < result
        → HasEntry w (number + j) (Some (record { page = first.page + j; at = first.at + j * (size + ROUND) })) }
{
    let mut run = 1;
    while run < most {
        let Some(next) = scan.entry(number + run) else {
            break;
        };
        if !follows(next, first, run, size) {
            break;
        }
        run += 1;
    }
    run
}

/// The records of a journal.
#[derive(Clone, Copy)]
pub(crate) struct Records<'a> {
    pub(crate) scan: &'a Replay,
}

/// A step is a record: its page, where it is one of the database.
impl CopyPlan for Records<'_> {
    ghost kind = { record_plan };

    fn steps(&self, _shape: Shape) -> usize {
        self.scan.count()
    }

    fn between(&self) -> usize {
        ROUND
    }

    fn find_run(&self, shape: Shape, done: usize, most: usize) -> Option<Run> {
        let Some(first) = self.scan.entry(done + 1) else {
            return None;
        };
        if first.page == 0 || first.page > shape.count {
            return None;
        }
        let left = (shape.count - first.page) as usize + 1;
        Some(Run {
            at: first.at,
            page: first.page,
            count: run_from(self.scan, done + 1, first, shape.size, most.min(left)),
        })
    }
}

/// Copies the pages of a journal's records in order, each of this size, and sets the database's length to so many pages
/// (fileformat2, 3). In a room for more than a page several are copied at once.
pub fn copy_records<D: Disk>(
    disk: &mut D,
    scan: &Replay,
    count: u32,
    size: usize,
    room: &mut [u8],
) -> Result<(), RollError>
    requires size { (1 ≤ size) × (size ≤ 65536) }
    requires room { (size ≤ length room.old) × (length room.old ≤ 2 ^ 24) }
    ensures { During D.keeps_word D.state disk.old disk.new (CopiesRecords size scan.now count result) }
{
    let plan = Records { scan };
    recovery::copy_pages(disk, &plan, Shape { count, size }, room)
}

/// Syncs the database, and then zeroes the journal's first header (fileformat2, 3).
pub fn finish<D: Disk>(disk: &mut D) -> Result<(), RollError>
    ensures disk { During D.keeps_word D.state disk.old disk.new (Finishes result) }
    ensures error { IfErr result (λ e. e ≡ RollError.Device) }
{
    recovery::finish(disk, HEADER)?;
    Ok(())
}
