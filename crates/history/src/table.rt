//! What is known of all commits of a log together, in time that is linear in its pages and its commits.
ghost use Rattle.std.specs.Prelude.{◌≡◌, ◌≤◌, ◌↔◌, ℕ, List, IsTrue, MatchOption, length};
ghost use Rattle.history.specs.Table.{AreGreatest, AreThere, IsFirstGone};

/// For each page, which commits it is gone at. It keeps 4 bytes for each.
#[derive(Drop)]
pub struct Table {
    /// By page, from 1: one of the pages up to it is gone at the commits before this one.
    greatest: Vec<u32>,
}

impl Table {
    /// The table of pages that are gone at the commits before these, 0 where at none (own).
    pub fn new(until: Vec<u32>) -> Table
        ensures { AreGreatest until.items result.greatest.items }
    {
        let mut greatest = until;
        let mut most = 0;
        for place in 0..greatest.len() {
            most = most.max(greatest[place]);
            greatest[place] = most;
        }
        Table { greatest }
    }

    /// How many pages it has.
    pub fn len(&self) -> usize
        ensures { result ≡ length self.now.greatest.items }
    {
        self.greatest.len()
    }

    /// The first of the pages 1 to `pages` that is gone at the commit that this frame ends, or at 0. None if they are
    /// all there. It looks at each of them up to that one (own).
    pub fn first_gone(&self, frame: u32, pages: usize) -> Option<usize>
        requires { pages ≤ length self.now.greatest.items }
        ensures { (until : List ℕ) → AreGreatest until self.now.greatest.items
            → MatchOption result (AreThere until frame pages) (IsFirstGone until frame pages) }
    {
        for before in 0..pages {
            if frame < self.greatest[before] {
                return Some(before + 1);
            }
        }
        None
    }

    /// All of the pages 1 to `pages` are there at the commit that this frame ends, or at 0. One step (own).
    pub fn is_known(&self, frame: u32, pages: usize) -> bool
        requires { pages ≤ length self.now.greatest.items }
        ensures { (until : List ℕ) → AreGreatest until self.now.greatest.items
            → IsTrue result ↔ AreThere until frame pages }
    {
        pages == 0 || self.greatest[pages - 1] <= frame
    }
}
