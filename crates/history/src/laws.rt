//! What is known of a commit.
ghost use Rattle.history.specs.Known.{KnownIsPast, LostIsUnknown, DatabaseIsOne, PastIsNotUnknown, LaterIsKnown};

/// The criterion: a database at a commit is determined exactly if none of its pages is gone, and neither is its length.
/// It does nothing; its contract is that law.
pub fn known_or_lost()
    ensures known { KnownIsPast }
    ensures lost { LostIsUnknown }
    ensures one { DatabaseIsOne }
    ensures apart { PastIsNotUnknown }
{}

/// In a log that names its growth each commit after a known one is known; SQLite writes such logs. It does nothing; its
/// contract is that law.
pub fn later_is_known()
    ensures { LaterIsKnown }
{}
