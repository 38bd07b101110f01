//! A database that says in which frame of a log each of its pages stands.
ghost use Rattle.std.specs.Prelude.{◌≡◌, ℕ, Option};

use sqpage::PageSource;

/// A database whose pages are read one by one, and of each of which it is known in which frame of the write-ahead log
/// it stands.
pub(crate) trait Framed: PageSource {
    /// In which frame each page stands, whatever was read; in none where it stands in the database file, or in a
    /// record of a hot journal.
    ghost frames: { ℕ → Option ℕ };

    /// What is said of a page's frame is right.
    ghost tells_right: { Type 0 };

    /// In which frame page `p` stands. None of a number that no page has.
    fn frame(&self, p: u32) -> Option<u64>
        ensures { tells_right → result ≡ frames p };
}
