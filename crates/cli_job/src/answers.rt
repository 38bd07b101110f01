//! What a command comes to.
ghost use Rattle.std.specs.Prelude.{◌≡◌};
ghost use Rattle.cli_job.specs.Answers.{answer_named, answer_of_check};

use cli_words::Deep;
use sqdeepjudge::DeepVerdict;
use thiserror::Error;

/// What a command comes to.
#[derive(Clone, Copy, Debug, PartialEq, Eq)]
pub enum Answer {
    Done,
    /// It found damage, which was told.
    Damaged,
    /// It is refused for this, which is to be told behind what was printed.
    Refused(Untold),
}

/// Why a command is refused after what was printed.
#[derive(Clone, Copy, Debug, PartialEq, Eq, Error)]
pub enum Untold {
    #[error("no such table")]
    NoSuchTable,
    /// Why was noted.
    #[error("not understood")]
    NotUnderstood,
    /// The database is sound, but something isn't judged, and all was to be. What it is was noted.
    #[error("not judged")]
    NotJudged,
}

impl Answer {
    /// That of a database, by whether it is damaged.
    pub fn of(is_damaged: bool) -> Answer
        ensures { result ≡ answer_named is_damaged }
    {
        if is_damaged {
            Answer::Damaged
        } else {
            Answer::Done
        }
    }

    /// The answer of a check, by what it found. If all was to be judged, it is refused by `NotJudged` if the database
    /// is sound and something isn't judged.
    pub fn of_check(deep: Option<Deep>, verdict: &DeepVerdict) -> Answer
        ensures { result ≡ answer_of_check deep verdict.now }
    {
        match deep {
            Some(Deep { complete: true }) if verdict.is_in_part() => {
                Answer::Refused(Untold::NotJudged)
            }
            _ => Answer::of(verdict.is_damaged()),
        }
    }
}
