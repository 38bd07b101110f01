//! The plans: where each of them stands, what is done there, and where an answer leads.
ghost use Rattle.std.specs.Prelude.{◌≡◌};
ghost use Rattle.sqlocks.specs.Places.{after_file, after_first, after_lock, compared, after_index, live_asked};
ghost use Rattle.sqlocks.specs.Places.{looked, given_back, waited, next, step_at, last_of, first_of, hold_of};
ghost use Rattle.sqlocks.specs.Places.{behind};

use crate::plan::{Answer, Lock, Reason, Step, Target, Want};

/// The locks that are held, the last one named.
#[derive(Clone, Copy, Debug, PartialEq, Eq)]
pub(crate) enum Hold {
    Pending,
    Shared,
    Restarts,
    Checkpoints,
    Writers,
    Exclusive,
    WholeIndex,
    Alone,
}

/// The locks with which a caller goes on.
#[derive(Clone, Copy, Debug, PartialEq, Eq)]
pub(crate) enum Kept {
    /// The first one alone: there is no FILE-shm, and for a reader a journal is current.
    File(Want),
    /// Those of a reader without a FILE-shm, for whom no journal is current.
    Alone,
    /// Those of a reader that takes the front of the index.
    Front,
    /// Those of a reader that takes the front of FILE-wal.
    Log,
    /// Those of a recovery.
    Whole,
}

/// What follows once all is given back.
#[derive(Clone, Copy, Debug, PartialEq, Eq)]
pub(crate) enum Then {
    Wait,
    NoLocks,
    Failed,
    End,
}

/// Where a plan stands: before which step.
#[derive(Clone, Copy, Debug, PartialEq, Eq)]
pub(crate) enum Place {
    OpenFile(Want),
    TakePending,
    TakeShared,
    GivePending,
    TakeExclusive,
    Compare(Want),
    LookForFolder,
    OpenIndex(Want),
    /// Here and below: whether FILE-shm is open for writing, so that Connections can be asked for.
    TakeRestarts(bool),
    TakeCheckpoints(bool),
    Ask,
    EndAsking,
    Look,
    TakeWriters(bool),
    AskAgain,
    EndAskingAgain,
    LookAgain,
    GiveWriters,
    TakeWhole,
    LookAtJournal,
    AskReserved,
    CompareJournal,
    TakeAlone,
    Go(Kept),
    Back(Hold, Then),
    Wait(Want),
    NoFile(Want),
    Unlocked,
    InUse(Want),
    NoLocks,
    Failed,
    Over(Want),
}

/// The lock that was taken last.
fn last_of(hold: Hold) -> Lock
    ensures { result ≡ last_of hold }
{
    match hold {
        Hold::Pending => Lock::Pending,
        Hold::Shared => Lock::Shared,
        Hold::Restarts => Lock::Restarts,
        Hold::Checkpoints => Lock::Checkpoints,
        Hold::Writers => Lock::Writers,
        Hold::Exclusive => Lock::Exclusive,
        Hold::WholeIndex => Lock::WholeIndex,
        Hold::Alone => Lock::Alone,
    }
}

/// What is done at a place.
pub(crate) fn step_at(place: Place) -> Step
    ensures { result ≡ step_at place }
{
    match place {
        Place::OpenFile(_) => Step::Open(Target::Database),
        Place::TakePending => Step::Take(Lock::Pending),
        Place::TakeShared => Step::Take(Lock::Shared),
        Place::GivePending => Step::Give(Lock::Pending),
        Place::TakeExclusive => Step::Take(Lock::Exclusive),
        Place::Compare(_) => Step::Compare,
        Place::LookForFolder => Step::LookForFolder,
        Place::OpenIndex(_) => Step::Open(Target::Index),
        Place::TakeRestarts(_) => Step::Take(Lock::Restarts),
        Place::TakeCheckpoints(_) => Step::Take(Lock::Checkpoints),
        Place::Ask | Place::AskAgain => Step::Take(Lock::Connections),
        Place::EndAsking | Place::EndAskingAgain => Step::Give(Lock::Connections),
        Place::Look | Place::LookAgain => Step::Look,
        Place::TakeWriters(_) => Step::Take(Lock::Writers),
        Place::GiveWriters => Step::Give(Lock::Writers),
        Place::TakeWhole => Step::Take(Lock::WholeIndex),
        Place::LookAtJournal => Step::LookAtJournal,
        Place::AskReserved => Step::AskReserved,
        Place::CompareJournal => Step::CompareJournal,
        Place::TakeAlone => Step::Take(Lock::Alone),
        Place::Go(_) => Step::Go,
        Place::Back(hold, _) => Step::Give(last_of(hold)),
        Place::Wait(_) => Step::Wait,
        Place::NoFile(_) | Place::Unlocked => Step::GoUnlocked,
        Place::InUse(_) => Step::GiveUp(Reason::InUse),
        Place::NoLocks => Step::GiveUp(Reason::NoLocks),
        Place::Failed => Step::GiveUp(Reason::Failed),
        Place::Over(_) => Step::End,
    }
}

/// Behind the opening of FILE.
fn after_file(answer: Answer, want: Want) -> Place
    ensures { result ≡ after_file answer want }
{
    match (answer, want) {
        (Answer::Given, Want::Read) => Place::TakePending,
        (Answer::Given, Want::Recover) => Place::TakeExclusive,
        _ => Place::NoFile(want),
    }
}

/// Behind a plan's first lock.
fn after_first(answer: Answer, want: Want) -> Place
    ensures { result ≡ after_first answer want }
{
    match (answer, want) {
        (Answer::Given, Want::Read) => Place::TakeShared,
        (Answer::Given, Want::Recover) => Place::Compare(Want::Recover),
        (Answer::Unsupported, Want::Read) => Place::Unlocked,
        (Answer::Unsupported, Want::Recover) => Place::NoLocks,
        _ => Place::Wait(want),
    }
}

/// Behind another one, which was asked for while these were held.
fn after_lock(answer: Answer, place: Place, hold: Hold) -> Place
    ensures { result ≡ after_lock answer place hold }
{
    match answer {
        Answer::Given => place,
        Answer::Unsupported => Place::Back(hold, Then::NoLocks),
        _ => Place::Back(hold, Then::Wait),
    }
}

/// The first lock that is kept.
fn first_of(want: Want) -> Hold
    ensures { result ≡ first_of want }
{
    match want {
        Want::Read => Hold::Shared,
        Want::Recover => Hold::Exclusive,
    }
}

/// What is held with these locks.
fn hold_of(kept: Kept) -> Hold
    ensures { result ≡ hold_of kept }
{
    match kept {
        Kept::File(want) => first_of(want),
        Kept::Front => Hold::Checkpoints,
        Kept::Log => Hold::Writers,
        Kept::Whole => Hold::WholeIndex,
        Kept::Alone => Hold::Alone,
    }
}

/// Behind the comparison of FILE with its path.
fn compared(answer: Answer, want: Want) -> Place
    ensures { result ≡ compared answer want }
{
    match (answer, want) {
        (Answer::Given, Want::Read) => Place::OpenIndex(want),
        (Answer::Given, Want::Recover) => Place::LookForFolder,
        _ => Place::Back(first_of(want), Then::Wait),
    }
}

/// Behind the opening of FILE-shm.
fn after_index(answer: Answer, want: Want) -> Place
    ensures { result ≡ after_index answer want }
{
    match (answer, want) {
        (Answer::Given, Want::Read) => Place::TakeRestarts(true),
        (Answer::Refused, Want::Read) => Place::TakeRestarts(false),
        (Answer::Given, Want::Recover) => Place::TakeWhole,
        (Answer::Refused, Want::Recover) => Place::Back(Hold::Exclusive, Then::Failed),
        (Answer::Missing, Want::Read) => Place::LookAtJournal,
        (Answer::Missing, Want::Recover) => Place::Go(Kept::File(want)),
        (Answer::Unsupported, _) => Place::Back(first_of(want), Then::NoLocks),
    }
}

/// After the question whether a connection is live, or about to write: the place if it isn't, if it is, and what is
/// held.
fn live_asked(answer: Answer, not: Place, live: Place, hold: Hold) -> Place
    ensures { result ≡ live_asked answer not live hold }
{
    match answer {
        Answer::Given => not,
        Answer::Unsupported => Place::Back(hold, Then::NoLocks),
        _ => live,
    }
}

/// After a look at the index: the place if it names a front, and if it names none; and after a look at the journal.
fn looked(answer: Answer, named: Place, unnamed: Place) -> Place
    ensures { result ≡ looked answer named unnamed }
{
    match answer {
        Answer::Given => named,
        _ => unnamed,
    }
}

/// Once nothing is held.
fn behind(then: Then, want: Want) -> Place
    ensures { result ≡ behind then want }
{
    match (then, want) {
        (Then::Wait, _) => Place::Wait(want),
        (Then::NoLocks, Want::Read) => Place::Unlocked,
        (Then::NoLocks, Want::Recover) => Place::NoLocks,
        (Then::Failed, Want::Recover) => Place::Failed,
        _ => Place::Over(want),
    }
}

/// Once the lock that was taken last is given back.
fn given_back(hold: Hold, then: Then) -> Place
    ensures { result ≡ given_back hold then }
{
    match hold {
        Hold::Pending | Hold::Shared => behind(then, Want::Read),
        Hold::Restarts => Place::Back(Hold::Shared, then),
        Hold::Checkpoints => Place::Back(Hold::Restarts, then),
        Hold::Writers => Place::Back(Hold::Checkpoints, then),
        Hold::Exclusive => behind(then, Want::Recover),
        Hold::WholeIndex => Place::Back(Hold::Exclusive, then),
        Hold::Alone => Place::Back(Hold::Shared, then),
    }
}

/// Behind a wait.
fn waited(answer: Answer, want: Want) -> Place
    ensures { result ≡ waited answer want }
{
    match answer {
        Answer::Given => Place::OpenFile(want),
        _ => Place::InUse(want),
    }
}

/// Where an answer leads.
pub(crate) fn next(place: Place, answer: Answer) -> Place
    ensures { result ≡ next place answer }
{
    match place {
        Place::OpenFile(want) => after_file(answer, want),
        Place::TakePending => after_first(answer, Want::Read),
        Place::TakeShared => after_lock(answer, Place::GivePending, Hold::Pending),
        Place::GivePending => Place::Compare(Want::Read),
        Place::TakeExclusive => after_first(answer, Want::Recover),
        Place::Compare(want) => compared(answer, want),
        Place::LookForFolder => {
            after_lock(answer, Place::OpenIndex(Want::Recover), Hold::Exclusive)
        }
        Place::OpenIndex(want) => after_index(answer, want),
        Place::TakeRestarts(asks) => {
            after_lock(answer, Place::TakeCheckpoints(asks), Hold::Shared)
        }
        Place::TakeCheckpoints(true) => after_lock(answer, Place::Ask, Hold::Restarts),
        Place::TakeCheckpoints(false) => {
            after_lock(answer, Place::TakeWriters(false), Hold::Restarts)
        }
        Place::Ask => live_asked(answer, Place::EndAsking, Place::Look, Hold::Checkpoints),
        Place::EndAsking => Place::TakeWriters(true),
        Place::Look => looked(answer, Place::Go(Kept::Front), Place::TakeWriters(true)),
        Place::TakeWriters(true) => after_lock(answer, Place::AskAgain, Hold::Checkpoints),
        Place::TakeWriters(false) => { after_lock(answer, Place::Go(Kept::Log), Hold::Checkpoints) }
        Place::AskAgain => live_asked(
            answer,
            Place::EndAskingAgain,
            Place::LookAgain,
            Hold::Writers,
        ),
        Place::EndAskingAgain => Place::Go(Kept::Log),
        Place::LookAgain => looked(answer, Place::GiveWriters, Place::Go(Kept::Log)),
        Place::GiveWriters => Place::Go(Kept::Front),
        Place::TakeWhole => after_lock(answer, Place::Go(Kept::Whole), Hold::Exclusive),
        Place::LookAtJournal => looked(answer, Place::AskReserved, Place::TakeAlone),
        Place::AskReserved => live_asked(
            answer,
            Place::CompareJournal,
            Place::TakeAlone,
            Hold::Shared,
        ),
        Place::CompareJournal => {
            looked(answer, Place::Go(Kept::File(Want::Read)), Place::TakeAlone)
        }
        Place::TakeAlone => after_lock(answer, Place::Go(Kept::Alone), Hold::Shared),
        Place::Go(kept) => Place::Back(hold_of(kept), Then::End),
        Place::Back(hold, then) => given_back(hold, then),
        Place::Wait(want) => waited(answer, want),
        Place::NoFile(want) | Place::InUse(want) | Place::Over(want) => Place::Over(want),
        Place::Unlocked => Place::Over(Want::Read),
        Place::NoLocks | Place::Failed => Place::Over(Want::Recover),
    }
}
