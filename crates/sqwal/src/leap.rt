//! What the sums of a log are taken times where words follow that were summed on their own (own).
ghost use Rattle.std.specs.Prelude.{◌≡◌, ℕ, ◌+◌, ◌*◌, ◌%◌, ◌^◌, ◌<◌, MatchOption};
ghost use Rattle.sqwal.specs.internal.Leaps.{IsLeap};

/// The Fibonacci numbers of a count of words, of one word fewer and of one more.
#[derive(Clone, Copy)]
pub(crate) struct Leap {
    pub(crate) before: u32,
    pub(crate) here: u32,
    pub(crate) behind: u32,
}

/// The words of the shortest leap that is taken.
const SHORTEST: usize = 32;

impl Leap {
    /// The leap over 32 words.
    fn shortest() -> Leap
        ensures { IsLeap 32 result }
    {
        Leap {
            before: 1346269,
            here: 2178309,
            behind: 3524578,
        }
    }

    /// The leap over so many words, where they are 32 or a power of two times as many.
    pub(crate) fn over(words: usize) -> Option<Leap>
        requires { words < 2 ^ 60 }
        ensures { MatchOption result ((k : ℕ) → words ≡ 32 * 2 ^ k → ⊥) (λ leap. IsLeap words leap) }
    {
        let mut leap = Leap::shortest();
        let mut reached = SHORTEST;
        while reached < words {
            leap = leap.doubled();
            reached *= 2;
        }
        if reached == words { Some(leap) } else { None }
    }

    /// The leap over twice as many words.
    fn doubled(self) -> Leap
        ensures { (words : ℕ) → IsLeap words self → IsLeap (2 * words) result }
    {
        let square = self.here.wrapping_mul(self.here);
        Leap {
            before: self.before.wrapping_mul(self.before).wrapping_add(square),
            here: self
                .here
                .wrapping_mul(self.before.wrapping_add(self.behind)),
            behind: self.behind.wrapping_mul(self.behind).wrapping_add(square),
        }
    }
}
