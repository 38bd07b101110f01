//! How a trace is to be judged (own).
ghost use Rattle.std.specs.Prelude.{◌<◌, IsTrue};
ghost use Rattle.crashdisk.specs.Solid.{is_sector_size};

use crate::promise::Promise;
use rig_play::Meta;

/// Which databases of a run are its commits.
#[derive(Clone, Copy, Debug, PartialEq, Eq)]
pub enum CommitsAt {
    /// Those that the files show at the beginning and at each mark.
    Marks,
    /// Each that the files show at the beginning and behind a call.
    Calls,
}

/// One of the parts between which points are dealt out in turn.
#[derive(Clone, Copy, Debug, PartialEq, Eq)]
pub struct Part {
    /// Its number, counted from 1.
    pub number: u64,
    /// How many parts there are.
    pub of: u64,
    ghost is_some: { 0 < of },
}

/// How what is found is printed.
#[derive(Clone, Copy, Debug, PartialEq, Eq)]
pub enum Style {
    Lines,
    /// A JSON object on each line.
    Json,
}

/// How a trace is to be judged.
#[derive(Clone, Copy, Debug, PartialEq, Eq)]
pub struct Plan {
    /// The size of a disk's sectors in bytes, a power of two from 512 to 65536.
    pub sector: usize,
    /// Whether a sector that is being written may hold anything after a crash.
    pub tears: bool,
    /// How names and lengths become durable.
    pub meta: Meta,
    /// The most images that are taken at a point with no sector torn. A third as many are taken with one of each file.
    pub images: u64,
    /// What the draws begin with.
    pub seed: u64,
    /// Whether a crash comes after each call, and not only at marks.
    pub every: bool,
    /// What is known at marks.
    pub promise: Promise,
    /// Which databases are commits.
    pub commits: CommitsAt,
    /// Whether it is told of an image with something wrong which calls aren't down.
    pub why: bool,
    /// Whether such an image is shrunk before that is told and before it is kept.
    pub shrink: bool,
    /// The part whose points are judged; all points where there is none.
    pub part: Option<Part>,
    /// The most findings whose lines are written; all where there is none.
    pub lines: Option<u64>,
    /// The point of which lines are written, counted from 1; all where there is none.
    pub point: Option<u64>,
    /// The image at its point of which a line is written, counted from 0; all where there is none.
    pub image: Option<u64>,
    pub style: Style,
    ghost is_size: { IsTrue (is_sector_size sector) },
}
