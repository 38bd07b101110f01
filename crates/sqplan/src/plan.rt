//! The steps of a recovery (fileformat2, 3 and 4.3; zeros and syncs are own).
ghost use Rattle.std.specs.Prelude.{◌≡◌, ◌+◌, ◌-◌, ◌*◌, ◌^◌, ◌<◌, ◌≤◌, ◌∷◌, [], drop, MatchOption, IfSome};
ghost use Rattle.sqview.specs.Laid.{place_of};
ghost use Rattle.sqplan.specs.Plans.{pages_from, ending, steps_left};
ghost use Rattle.sqplan.specs.declared.plan.Recovery.TheVariants as recoveries;
ghost use Rattle.sqplan.specs.declared.plan.Step.TheVariants.{WritePage};

/// What a recovery comes to.
#[derive(Clone, Copy, Debug, PartialEq, Eq)]
pub enum Recovery {
    /// No log counts: nothing.
    Nothing,
    /// A write-ahead log with a front is folded into the database file, and emptied.
    Fold,
    /// One without a front is emptied.
    Empty,
    /// A hot journal is replayed into the database file, and its header is zeroed.
    RollBack,
}

/// A step of a recovery.
#[derive(Clone, Copy, Debug, PartialEq, Eq)]
pub enum Step {
    /// This page of the database, from 1, is written whole at its place in the database file.
    WritePage(u32),
    /// The database file has this length, in bytes.
    SetLength(u64),
    /// The database file is made durable.
    SyncDatabase,
    /// So many zeros are written at the front of the log.
    ZeroHeader(u32),
    /// The log has no bytes.
    CutLog,
    /// The log is made durable.
    SyncLog,
}

/// A recovery of a database of so many pages, of this size in bytes.
#[derive(Clone, Copy, Debug)]
pub struct Plan<'a> {
    pub recovery: Recovery,
    pub page_size: u32,
    pub pages: u32,
    /// By page, from 1: where its bytes begin in the log, in bytes; 0, or none, where the file's count.
    pub places: &'a [u64],
}

impl Plan<'_> {
    /// Where a page begins in the log; 0 where the file's counts.
    fn place(&self, page: u64) -> u64
        requires { 1 ≤ page }
        ensures { result ≡ place_of self.now.places.now page }
    {
        self.places.get(page as usize - 1).copied().unwrap_or(0)
    }

    /// The first page, from this one on, that lies in the log.
    fn placed_from(&self, first: u64) -> Option<u32>
        requires { 1 ≤ first }
        ensures pages { MatchOption result (pages_from self.now first ≡ [])
            (λ p. pages_from self.now first ≡ WritePage p ∷ pages_from self.now (p + 1)) }
        ensures within { IfSome result (λ p. (first ≤ p) × (p ≤ self.now.pages)) }
    {
        let mut page = first;
        while page <= u64::from(self.pages) {
            if self.place(page) != 0 {
                return Some(page as u32);
            }
            page += 1;
        }
        None
    }

    /// How many bytes the database has.
    fn length(&self) -> u64
        ensures { result ≡ self.now.pages * self.now.page_size }
    {
        u64::from(self.pages) * u64::from(self.page_size)
    }

    /// The step that follows where so much was done, and what is done with it; 0 before the first. None at the end.
    pub fn next(&self, done: u64) -> Option<(Step, u64)>
        ensures { MatchOption result (steps_left self.now done ≡ [])
            (λ next. steps_left self.now done ≡ next.0 ∷ steps_left self.now next.1) }
    {
        if self.recovery == Recovery::Nothing {
            return None;
        }
        if done == 0 {
            return Some((Step::SyncLog, 1));
        }
        if let Some(page) = self.placed_from(done) {
            return Some((Step::WritePage(page), u64::from(page) + 1));
        }
        let after = done.max(u64::from(self.pages) + 1) - (u64::from(self.pages) + 1);
        let step = end_step(self.recovery, self.length(), after)?;
        Some((step, u64::from(self.pages) + 1 + after + 1))
    }
}

/// Step `i`, from 0, of the end of a fold into a file of this length.
fn fold_end(length: u64, i: u64) -> Option<Step>
    ensures { MatchOption result (drop i (ending recoveries.Fold length) ≡ [])
        (λ step. drop i (ending recoveries.Fold length) ≡ step ∷ drop (i + 1) (ending recoveries.Fold length)) }
{
    match i {
        0 => Some(Step::SetLength(length)),
        1 => Some(Step::SyncDatabase),
        2 => Some(Step::ZeroHeader(32)),
        3 => Some(Step::SyncLog),
        4 => Some(Step::CutLog),
        5 => Some(Step::SyncLog),
        _ => None,
    }
}

/// Step `i`, from 0, of the end of the replay of a journal.
fn roll_back_end(length: u64, i: u64) -> Option<Step>
    ensures { MatchOption result (drop i (ending recoveries.RollBack length) ≡ [])
        (λ step. drop i (ending recoveries.RollBack length)
        ≡ step ∷ drop (i + 1) (ending recoveries.RollBack length)) }
{
    match i {
        0 => Some(Step::SetLength(length)),
        1 => Some(Step::SyncDatabase),
        2 => Some(Step::ZeroHeader(28)),
        3 => Some(Step::SyncLog),
        _ => None,
    }
}

/// Step `i`, from 0, of the end of a recovery.
fn end_step(recovery: Recovery, length: u64, i: u64) -> Option<Step>
    requires { i < 2 ^ 64 - 1 }
    ensures { MatchOption result (drop i (ending recovery length) ≡ [])
        (λ step. drop i (ending recovery length) ≡ step ∷ drop (i + 1) (ending recovery length)) }
{
    match recovery {
        Recovery::Nothing => None,
        Recovery::Fold => fold_end(length, i),
        Recovery::Empty => fold_end(length, i + 1),
        Recovery::RollBack => roll_back_end(length, i),
    }
}
