//! The pages that a log has are copied into the database file (own).
ghost use Rattle.std.specs.Prelude.{◌≡◌, ◌+◌, ◌-◌, ◌*◌, ◌^◌, ◌<◌, ◌≤◌, ℕ, length, IfOk, OnErr};
ghost use Rattle.crashdisk.specs.During.{During};
ghost use Rattle.recovery.specs.Copying.{CopiesPages};
ghost use Rattle.recovery.specs.internal.Copying.{CopiesRun};

use crate::errors::DeviceError;
use crashdisk::{Disk, File};
use sqval::gather;

/// How many pages a database has, and how many bytes a page.
#[derive(Clone, Copy)]
pub struct Shape {
    pub count: u32,
    pub size: usize,
}

/// Pages that stand one behind the other in the log, and belong so in the database.
#[derive(Clone, Copy)]
pub struct Run {
    /// Where the first of them begins in the log.
    pub at: u64,
    /// Its number.
    pub page: u32,
    pub count: usize,
}

/// Which pages of a log are to stand in the database, step by step.
pub trait CopyPlan {
    ghost use Rattle.std.specs.Prelude.{◌≡◌, ◌+◌, ◌^◌, ◌<◌, ◌≤◌, ℕ, List, MatchOption};
    ghost use Rattle.recovery.specs.Copying.{PlanKind, IsWithin, Skips, Copies};

    /// What it is a plan of.
    ghost kind: { PlanKind Self };

    /// How many steps it takes.
    fn steps(&self, shape: Shape) -> usize
        ensures { kind.Takes self.now shape.count result };

    /// How many bytes stand in the log between two pages of a run.
    fn between(&self) -> usize
        ensures value { result ≡ kind.between }
        ensures few { result ≤ 65536 };

    /// What the next steps copy, at most so many, behind those that are done. Each of a run's pages is a step; with
    /// None one step copies nothing.
    fn find_run(&self, shape: Shape, done: usize, most: usize) -> Option<Run>
        requires steps { (n : ℕ) × kind.Takes self.now shape.count n × (n < 2 ^ 64) × (done + most ≤ n) }
        requires most { (1 ≤ most) × (most ≤ 2 ^ 25) × (shape.size ≤ 65536) }
        ensures within { MatchOption result (Unit {0}) (IsWithin shape.count most) }
        ensures copies { (w : List ℕ) → kind.IsOf self.now shape.size shape.count w
            → MatchOption result (Skips kind self.now shape.size shape.count w done)
            (Copies kind self.now shape.size shape.count w done) };
}

/// How many pages are copied at once in a room of so many bytes: they are read with what stands between them in the
/// log, behind room for one page fewer, and then brought together.
fn fitting(room: usize, size: usize, between: usize) -> usize
    requires some { 1 ≤ size }
    requires least { size ≤ room }
    requires most { (room ≤ 2 ^ 24) × (between ≤ 2 ^ 24) }
    ensures some { 1 ≤ result }
    ensures few { result < 2 ^ 32 }
    ensures fits { result * (2 * size + between) ≤ room + size + between }
{
    (room + size + between) / (2 * size + between)
}

/// Copies what the next steps do, at most so many. How many steps.
fn copy_run<D: Disk, E: DeviceError, P: CopyPlan>(
    disk: &mut D,
    plan: &P,
    shape: Shape,
    done: usize,
    most: usize,
    room: &mut [u8],
) -> Result<usize, E>
    requires steps { (n : ℕ) × P.kind.Takes plan.now shape.count n × (n < 2 ^ 64) × (done + most ≤ n) }
    requires room { (1 ≤ most) × (most ≤ 2 ^ 25) × (shape.size ≤ 65536)
        × (most * (2 * shape.size + P.kind.between) ≤ length room.old + shape.size + P.kind.between) }
    ensures disk { During D.keeps_word D.state disk.old disk.new
        (CopiesRun E.device P.kind plan.now shape.size shape.count done result) }
    ensures count { IfOk result (λ k. (1 ≤ k) × (k ≤ most)) }
    ensures error { OnErr result (result ≡ Err E.device) }
    ensures room { length room.new ≡ length room.old }
{
    let Some(next) = plan.find_run(shape, done, most) else {
        return Ok(1);
    };
    let size = shape.size;
    let between = plan.between();
    let from = (next.count - 1) * size;
    let end = from + next.count * (size + between) - between;
    disk.read_at(File::Log, next.at, &mut room[from..end])?;
    gather(room, size, between, next.count);
    let at = u64::from(next.page - 1) * size as u64;
    disk.write_at(File::Db, at, &room[..next.count * size])?;
    Ok(next.count)
}

/// Copies the pages that the log has, as planned, into a database of this shape, and sets its length. In a room for
/// more than a page several are copied at once.
pub fn copy_pages<D: Disk, E: DeviceError, P: CopyPlan>(
    disk: &mut D,
    plan: &P,
    shape: Shape,
    room: &mut [u8],
) -> Result<(), E>
    requires size { (1 ≤ shape.size) × (shape.size ≤ 65536) }
    requires room { (shape.size ≤ length room.old) × (length room.old ≤ 2 ^ 24) }
    ensures disk { During D.keeps_word D.state disk.old disk.new
        (CopiesPages E.device P.kind plan.now shape.size shape.count result) }
    ensures error { OnErr result (result ≡ Err E.device) }
{
    let most = fitting(room.len(), shape.size, plan.between());
    let total = plan.steps(shape);
    let mut done = 0;
    while done < total {
        let left = total - done;
        done += copy_run::<D, E, P>(disk, plan, shape, done, most.min(left), room)?;
    }
    disk.set_len(File::Db, u64::from(shape.count) * shape.size as u64)?;
    Ok(())
}
