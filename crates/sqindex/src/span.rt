//! A range of rowids (own).
ghost use Rattle.std.specs.Prelude.{◌≡◌, MatchOption, None, Some, ⊤, true, ℤ};
ghost use Rattle.sqindex.specs.internal.Spans.{up_to, passed};

/// The rowids behind one, where there is one, and up to another.
#[derive(Clone, Copy, Debug)]
pub(crate) struct Span {
    pub(crate) above: Option<i64>,
    pub(crate) last: Option<i64>,
}

/// Whether a rowid comes no later than the last one that was passed.
pub(crate) fn is_passed(above: Option<i64>, rowid: i64) -> bool
    ensures { result ≡ passed above rowid }
{
    match above {
        Some(above) => rowid <= above,
        None => false,
    }
}

/// Whether a rowid is at most this one, where there is one.
pub(crate) fn is_up_to(last: Option<i64>, rowid: i64) -> bool
    ensures { result ≡ up_to last rowid }
{
    match last {
        Some(last) => rowid <= last,
        None => true,
    }
}

impl Span {
    ghost use Rattle.sqindex.specs.internal.Spans.{in_span, passed};

    /// All rowids.
    pub(crate) fn all() -> Span
        ensures { (result.above ≡ None) × (result.last ≡ None) }
    {
        Span {
            above: None,
            last: None,
        }
    }

    /// All behind this one.
    pub(crate) fn behind(rowid: i64) -> Span
        ensures { (result.above ≡ Some rowid) × (result.last ≡ None) }
    {
        Span {
            above: Some(rowid),
            last: None,
        }
    }

    /// Whether a rowid is one of them.
    pub(crate) fn has(self, rowid: i64) -> bool
        ensures { result ≡ in_span self.above self.last rowid }
    {
        !is_passed(self.above, rowid) && is_up_to(self.last, rowid)
    }

    /// Those of them up to this one. None where it isn't one of them.
    pub(crate) fn up_to(self, last: i64) -> Option<Span>
        ensures { MatchOption result ⊤ (λ span. (span.above ≡ self.above) × (span.last ≡ Some last)
            × (in_span self.above self.last last ≡ true)) }
    {
        if !self.has(last) {
            return None;
        }
        Some(Span {
            above: self.above,
            last: Some(last),
        })
    }

    /// All behind them. None where there are none.
    pub(crate) fn next(self) -> Option<Span>
        ensures { MatchOption result (self.last ≡ None) (λ span. (b : ℤ) × (self.last ≡ Some b)
            × (span.above ≡ Some b) × (span.last ≡ None)) }
    {
        match self.last {
            Some(_) => Some(Span {
                above: self.last,
                last: None,
            }),
            None => None,
        }
    }
}
