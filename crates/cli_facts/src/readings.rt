//! What files are at one time, and whether they are so later.
ghost use Rattle.std.specs.Prelude.{◌≡◌, Err, IsTrue, false};
ghost use Rattle.cli_facts.specs.Readings.{AreSame, IsSame, IsSameFile, IsSameFront};
ghost use Rattle.cli_facts.specs.declared.outcome.Refusal.TheVariants.{FileChanged};

use crate::locks::Identity;
use crate::outcome::Refusal;

/// What a file is at one time, as far as a writer can't leave it as it was.
#[derive(Clone, Copy, Debug, PartialEq, Eq)]
pub struct Reading {
    pub identity: Identity,
    /// In bytes.
    pub length: u64,
    /// When it was last changed, in seconds since 1970, and the nanoseconds behind them.
    pub seconds: i64,
    pub nanoseconds: i64,
    /// Of a database file the 16 bytes from 24 on, which have the change counter, and zeros; of a log its first 32
    /// bytes; none where they can't be read and needn't be.
    pub front: Option<[u8; 32]>,
}

/// What a database file and its logs are at one time; none where there is no such file.
#[derive(Clone, Copy, Debug, PartialEq, Eq)]
pub struct Readings {
    pub db: Option<Reading>,
    pub wal: Option<Reading>,
    pub journal: Option<Reading>,
}

/// Whether bytes are as they were. Bytes that couldn't be read at one of both times aren't.
fn is_same_front(before: &Option<[u8; 32]>, after: &Option<[u8; 32]>) -> bool
    ensures yes { IsTrue result → IsSameFront before.now after.now }
    ensures not { result ≡ false → ¬ IsSameFront before.now after.now }
{
    match (before, after) {
        (Some(before), Some(after)) => *before == *after,
        (None, None) => true,
        _ => false,
    }
}

/// Whether a file is as it was.
fn is_same(before: &Reading, after: &Reading) -> bool
    ensures yes { IsTrue result → IsSame before.now after.now }
    ensures not { result ≡ false → ¬ IsSame before.now after.now }
{
    before.identity == after.identity
        && before.length == after.length
        && before.seconds == after.seconds
        && before.nanoseconds == after.nanoseconds
        && is_same_front(&before.front, &after.front)
}

/// Whether a file is as it was, or is missing as it was.
fn is_same_file(before: &Option<Reading>, after: &Option<Reading>) -> bool
    ensures yes { IsTrue result → IsSameFile before.now after.now }
    ensures not { result ≡ false → ¬ IsSameFile before.now after.now }
{
    match (before, after) {
        (Some(before), Some(after)) => is_same(before, after),
        (None, None) => true,
        _ => false,
    }
}

/// Whether all three are as they were.
fn are_same(before: &Readings, after: &Readings) -> bool
    ensures yes { IsTrue result → AreSame before.now after.now }
    ensures not { result ≡ false → ¬ AreSame before.now after.now }
{
    is_same_file(&before.db, &after.db)
        && is_same_file(&before.wal, &after.wal)
        && is_same_file(&before.journal, &after.journal)
}

/// The answer that was found between two readings, or FileChanged where a file changed.
pub fn unchanged<T: Drop>(
    before: &Readings,
    after: &Readings,
    answer: Result<T, Refusal>,
) -> Result<T, Refusal>
    ensures same { AreSame before.now after.now → result ≡ answer }
    ensures changed { ¬ AreSame before.now after.now → result ≡ Err FileChanged }
{
    if are_same(before, after) {
        answer
    } else {
        Err(Refusal::FileChanged)
    }
}
