//! The status with which a run of the program ends.
ghost use Rattle.std.specs.Prelude.{◌≡◌, ◌≤◌};
ghost use Rattle.cli_facts.specs.Statuses.{status_code};

/// How a run ends.
#[derive(Clone, Copy, Debug, PartialEq, Eq)]
pub enum Status {
    /// It did what was asked; also where help was asked for.
    Done,
    /// It found damage.
    Damaged,
    /// The words aren't understood.
    NotUnderstood,
    /// It was refused, or a file or a writer failed.
    Refused,
}

impl Status {
    /// The number with which the process ends, in the order above from 0 on.
    pub fn code(self) -> u8
        ensures is { result ≡ status_code self }
        ensures least { result ≤ 3 }
    {
        match self {
            Status::Done => 0,
            Status::Damaged => 1,
            Status::NotUnderstood => 2,
            Status::Refused => 3,
        }
    }
}
