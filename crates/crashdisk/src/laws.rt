//! What every disk that keeps its word has in common.
ghost use Rattle.crashdisk.specs.Ending.{EndsEachImage};
ghost use Rattle.crashdisk.specs.Images.{ImagesAreListed, WritesAddTheNew, CutsAddTheNew, SyncsSettle};
ghost use Rattle.crashdisk.specs.Images.{OthersAddNothing, CrashesSettle};

/// What a crash may leave of a file, and what each call adds to that: all that recovery rests on (own). It does
/// nothing; its contract is that law.
pub fn what_a_crash_may_leave()
    ensures image { ImagesAreListed }
    ensures write { WritesAddTheNew }
    ensures set_len { CutsAddTheNew }
    ensures sync { SyncsSettle }
    ensures other { OthersAddNothing }
    ensures crash { CrashesSettle }
{}

/// Which images a file has that was ended at a length. It does nothing; its contract is that law.
pub fn what_an_end_leaves()
    ensures { EndsEachImage }
{}
