//! A record that is played (own).
ghost use Rattle.std.specs.Prelude.{◌<◌, ◌^◌};

/// A record that is played.
#[derive(Clone, Copy, Debug, PartialEq, Eq)]
pub struct Playing {
    /// Its number in the trace, counted from 1.
    pub number: u64,
    /// How many bytes it carries.
    pub count: u64,
    /// How long its file was before it, in bytes.
    pub was: u64,
    ghost room: { was < 2 ^ 63 },
}
