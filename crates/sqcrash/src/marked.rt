//! The databases that files show at the beginning of a trace and at each mark, each checked (own).
ghost use Rattle.std.specs.Prelude.{◌≡◌, MatchResult};
ghost use Rattle.sqcrash.specs.Runs.{no_run};
ghost use Rattle.sqcrash.specs.Marked.{are_at_marks, AreMarked};
ghost use Rattle.sqcrash.specs.Refusals.{IsOfMemory, PlayRefused};
ghost use Rattle.sqcrash.specs.Refused.{MarkingRefused};

use crate::outcome::Refusal;
use crate::plan::{CommitsAt, Plan};
use crate::run::Run;
use rig_judge::Snapshot;
use rig_play::{Kind, Record};
use sqpage::CheckError;
use std::alloc::Global;

/// A commit that isn't well formed.
#[derive(Clone, Copy, Debug, PartialEq, Eq)]
pub struct CommitFault {
    /// The number of the commit, counted from 0.
    pub commit: usize,
    pub error: CheckError,
}

/// The commits at the marks of a trace.
#[derive(Drop)]
pub struct Marked {
    /// The oldest first.
    pub commits: Vec<Snapshot>,
    /// Of those that aren't well formed, in their order.
    pub faults: Vec<CommitFault>,
}

/// Whether commits are those at marks.
pub fn are_at_marks(commits: CommitsAt) -> bool
    ensures { result ≡ are_at_marks commits }
{
    match commits {
        CommitsAt::Calls => false,
        CommitsAt::Marks => true,
    }
}

/// A run of which what the files show is looked at.
#[derive(Drop)]
struct Marking {
    run: Run,
    faults: Vec<CommitFault>,
}

impl Marking {
    ghost use Rattle.std.specs.Prelude.{MatchResult};
    ghost use Rattle.sqcrash.specs.Marked.{NotesChecked, BeginsChecked, GoesOver, MarksBy};
    ghost use Rattle.sqcrash.specs.Markings.{marking_of};

    /// Takes what the present files show, and keeps what is wrong with it.
    fn note(&mut self, thread: u32) -> Result<(), Refusal>
        ensures { MatchResult result (λ done. NotesChecked thread (marking_of self.old) (marking_of self.new))
            IsOfMemory }
    {
        let commit = self.run.commits();
        match self.run.note_checked(thread)? {
            Some(error) => {
                self.faults.push(CommitFault { commit, error })?;
                Ok(())
            }
            None => Ok(()),
        }
    }

    /// Takes commit 0 before the first call.
    fn begin(&mut self, thread: u32) -> Result<(), Refusal>
        ensures { MatchResult result (λ done. BeginsChecked thread (marking_of self.old) (marking_of self.new))
            IsOfMemory }
    {
        if self.run.commits() > 0 {
            return Ok(());
        }
        self.note(thread)
    }

    /// Plays the call of a record.
    fn go(&mut self, trace: &[u8], call: &Record) -> Result<(), Refusal>
        ensures { MatchResult result
            (λ done. GoesOver trace.now call.now (marking_of self.old) (marking_of self.new))
            (PlayRefused trace.now call.now (marking_of self.old).run) }
    {
        self.run.go(trace, call)
    }

    /// Plays one record of its trace, and takes what the files show where it is a mark.
    fn play(&mut self, trace: &[u8], call: &Record) -> Result<(), Refusal>
        ensures { MatchResult result
            (λ done. MarksBy call.now.kind trace.now call.now (marking_of self.old) (marking_of self.new))
            (PlayRefused trace.now call.now (marking_of self.old).run) }
    {
        match call.kind {
            Kind::Base => self.go(trace, call),
            Kind::Mark => {
                self.begin(call.thread)?;
                self.go(trace, call)?;
                self.note(call.thread)
            }
            _ => {
                self.begin(call.thread)?;
                self.go(trace, call)
            }
        }
    }
}

/// The databases that the files show at the beginning and at each mark of a trace, and what is wrong with them. Refused
/// by Record and NoMemory.
pub fn take_marked(
    alloc: Global,
    plan: Plan,
    bytes: &[u8],
    records: &[Record],
) -> Result<Marked, Refusal>
    ensures { MatchResult result
        (AreMarked (no_run plan.promise plan.sector plan.tears plan.meta) bytes.now records.now)
        (MarkingRefused plan bytes.now records.now) }
{
    let mut marking = Marking {
        run: Run::new(alloc, plan.promise, plan.sector, plan.tears, plan.meta),
        faults: Vec::new(alloc),
    };
    for call in records {
        marking.play(bytes, call)?;
    }
    Ok(Marked {
        commits: marking.run.into_commits(),
        faults: marking.faults,
    })
}
