//! What the steps of a recovery leave, and that they are a recovery's.
ghost use Rattle.sqplan.specs.Applied.{LeavesDatabase, LeavesLog, ShowsMeanwhile, AsksAsRecovery};

/// The steps of a plan, carried out one after another, leave in the database file the database that the file and the
/// log showed, and a log that doesn't count; and as long as the log is as it was, that database is shown meanwhile. It
/// does nothing; its contract is that law.
pub fn a_plan_leaves_the_database()
    ensures database { LeavesDatabase }
    ensures log { LeavesLog }
    ensures meanwhile { ShowsMeanwhile }
{}

/// They are the calls that `fold_within` and `replay_within` make of a disk. It does nothing; its contract is that law.
pub fn a_plan_asks_what_a_recovery_asks()
    ensures { AsksAsRecovery }
{}
