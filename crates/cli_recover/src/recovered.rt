//! What a recovery leaves shows what was shown before it (fileformat2, 3 and 4.3).
ghost use Rattle.cli_recover.specs.Recovered.{FoldKeepsView, ReplayKeepsView};

/// The view of the files before a recovery is the view of the file after it, for a log that is folded and for a journal
/// that is replayed, where the database's header names its page size and doesn't count other pages than there are. It
/// does nothing; its contract is that law.
pub fn recovery_keeps_view()
    ensures fold { FoldKeepsView }
    ensures replay { ReplayKeepsView }
{}
