//! What a caller is to do next, in numbers.
ghost use Rattle.std.specs.Prelude.{◌≡◌, ◌≢◌, map, IfOk};
ghost use Rattle.sqlocks.specs.Runs.{IsRun, MayAsk, log_of};
ghost use Rattle.sqlocks_c.specs.Steps.{answer_of, want_of, numbers_of, IsNext};

use sqlocks::{Answer, Bytes, Lock, Reason, Step, Target, Want, asked, bytes_of};
use std::alloc::{AllocError, Global};

/// What is to be done: the kind, from Open, 0, to End, 13; the file, 0 FILE and 1 FILE-shm; whether exclusively; why it
/// is given up, from InUse, 0, to Failed, 2; and which bytes are locked, released or asked about. A number that a kind
/// doesn't have is 0.
#[repr(C)]
#[derive(Clone, Copy)]
pub struct LockStep {
    pub kind: u32,
    pub is_of_index: u32,
    pub is_exclusive: u32,
    pub reason: u32,
    pub start: u64,
    pub count: u64,
}

/// 0 for a reader, any other number for a recovery.
fn want_of(want: u32) -> Want
    ensures { result ≡ want_of want }
{
    if want == 0 { Want::Read } else { Want::Recover }
}

/// From Given, 0, to Unsupported, 3 and above.
fn answer_of(number: u8) -> Answer
    ensures { result ≡ answer_of number }
{
    match number {
        0 => Answer::Given,
        1 => Answer::Refused,
        2 => Answer::Missing,
        _ => Answer::Unsupported,
    }
}

/// A step that is of this kind alone.
fn plain(kind: u32, is_of_index: u32, reason: u32) -> LockStep
    ensures { result ≡ record {
      kind = kind;
      is_of_index = is_of_index;
      is_exclusive = 0;
      reason = reason;
      start = 0;
      count = 0;
    } }
{
    LockStep {
        kind,
        is_of_index,
        is_exclusive: 0,
        reason,
        start: 0,
        count: 0,
    }
}

/// A step on the bytes of a lock.
fn on_bytes(kind: u32, lock: Lock) -> LockStep
    ensures { result ≡ Rattle.sqlocks_c.specs.Steps.on_bytes kind lock }
{
    let Bytes {
        is_of_index,
        is_exclusive,
        start,
        count,
    } = bytes_of(lock);
    LockStep {
        kind,
        is_of_index: u32::from(is_of_index),
        is_exclusive: u32::from(is_exclusive),
        reason: 0,
        start,
        count,
    }
}

/// A question about RESERVED, which is locked by who is about to write.
fn on_reserved() -> LockStep
    ensures { result ≡ Rattle.sqlocks_c.specs.Steps.on_reserved }
{
    LockStep {
        kind: 6,
        is_of_index: 0,
        is_exclusive: 1,
        reason: 0,
        start: 1_073_741_825,
        count: 1,
    }
}

/// A step in numbers.
fn numbers_of(step: Step) -> LockStep
    ensures { result ≡ numbers_of step }
{
    match step {
        Step::Open(Target::Database) => plain(0, 0, 0),
        Step::Open(Target::Index) => plain(0, 1, 0),
        Step::Take(lock) => on_bytes(1, lock),
        Step::Give(lock) => on_bytes(2, lock),
        Step::Compare => plain(3, 0, 0),
        Step::Look => plain(4, 0, 0),
        Step::Wait => plain(5, 0, 0),
        Step::AskReserved => on_reserved(),
        Step::LookAtJournal => plain(7, 0, 0),
        Step::CompareJournal => plain(8, 0, 0),
        Step::LookForFolder => plain(9, 0, 0),
        Step::Go => plain(10, 0, 0),
        Step::GoUnlocked => plain(11, 0, 0),
        Step::GiveUp(Reason::InUse) => plain(12, 0, 0),
        Step::GiveUp(Reason::NoLocks) => plain(12, 0, 1),
        Step::GiveUp(Reason::Failed) => plain(12, 0, 2),
        Step::End => plain(13, 0, 0),
    }
}

/// The answers of these numbers.
fn answers_of(alloc: Global, numbers: &[u8]) -> Result<Vec<Answer>, AllocError>
    ensures { IfOk result (λ answers. answers.items ≡ map answer_of numbers.now) }
{
    numbers
        .iter()
        .map(|number| answer_of(*number))
        .collect(alloc)
}

/// The step behind these answers.
fn next_step(alloc: Global, want: Want, numbers: &[u8]) -> Result<Step, AllocError>
    ensures { IfOk result (λ step. IsRun want (log_of want (map answer_of numbers.now))
        × MayAsk want (log_of want (map answer_of numbers.now)) step) }
{
    let answers = answers_of(alloc, numbers)?;
    Ok(asked(want, &answers))
}

/// What is to be done next for a reader (0) or a recovery (1), behind these answers to the steps before it, the first
/// one first: 0 Given, 1 Refused, 2 Missing, 3 Unsupported, as sqlocks' `Step` says. Behind a Wait that is Given all
/// begins anew, so the answers up to it may be left out. Answers 0, or 6 for want of memory, and then leaves the step
/// as it is.
#[unsafe(no_mangle)]
pub extern "C" fn sqr_lock_step(alloc: Global, want: u32, answers: &[u8], out: &mut LockStep) -> u32
    ensures next { result ≡ 0 → IsNext want answers.now out.new }
    ensures memory { result ≢ 0 → result ≡ 6 }
    ensures kept { result ≢ 0 → out.new ≡ out.old }
{
    match next_step(alloc, want_of(want), answers) {
        Ok(step) => {
            *out = numbers_of(step);
            0
        }
        Err(_) => 6,
    }
}
