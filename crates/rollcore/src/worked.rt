//! Worked runs of the machine, and what is none (own).
ghost use Rattle.rollcore.specs.Rows.{Committed, Stopped, StoppedLate, CallsRefused, NoLostCommit, NoHalf};

/// A commit that is done is shown after a crash; of one that was stopped an opening shows all or nothing; and a refused
/// call changes nothing.
pub fn commits_are_whole()
    ensures committed { Committed }
    ensures stopped { Stopped }
    ensures stopped_late { StoppedLate }
    ensures calls_refused { CallsRefused }
{}

/// No runs: a commit that is done is lost; half of one is shown.
pub fn no_runs()
    ensures lost_commit { NoLostCommit }
    ensures half { NoHalf }
{}
