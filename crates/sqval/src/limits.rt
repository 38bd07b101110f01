//! How large a database may be and how long a log, where they are read (own).
ghost use Rattle.std.specs.Prelude.{◌≡◌, ◌↔◌, ◌≤◌, IsSome, IfSome};
ghost use Rattle.sqval.specs.Limits.{AreLimits, greatest};

use std::marker::Model;

/// The most bytes of a database that is read, and the most valid frames of a write-ahead log. No limits are above
/// `LARGE`.
#[derive(Clone, Copy, Debug, PartialEq, Eq)]
pub struct Limits {
    bytes: u64,
    frames: u32,
}

impl Model for Limits {
    ghost use Rattle.sqval.specs.Limits.{Bounds, AreLimits};

    ghost Value = { Bounds };

    ghost view = { λ s. record { bytes = s.bytes; frames = s.frames } };

    ghost invariant = { λ s. AreLimits s.bytes s.frames };

    ghost inverse = { λ b. record { bytes = b.bytes; frames = b.frames } };
}

impl Limits {
    /// 1,073,741,824 bytes and 2,097,152 frames: the limits of what is written, too.
    pub const USUAL: Limits = Limits {
        bytes: 1_073_741_824,
        frames: 2_097_152,
    };

    /// The greatest: 1,099,511,627,776 bytes and 4,294,967,294 frames. The number of the frame behind the last one
    /// fits 32 bits.
    pub const LARGE: Limits = Limits {
        bytes: 1_099_511_627_776,
        frames: 4_294_967_294,
    };

    /// These limits. None where one of them is above the greatest.
    pub fn new(bytes: u64, frames: u32) -> Option<Limits>
        ensures valid { IsSome result ↔ AreLimits bytes frames }
        ensures bytes { IfSome result (λ limits. limits.bytes ≡ bytes) }
        ensures frames { IfSome result (λ limits. limits.frames ≡ frames) }
    {
        if bytes <= Limits::LARGE.bytes && frames <= Limits::LARGE.frames {
            Some(Limits { bytes, frames })
        } else {
            None
        }
    }

    /// The most bytes of a database.
    pub fn bytes(self) -> u64
        ensures value { result ≡ self.bytes }
        ensures within { result ≤ greatest.bytes }
    {
        self.bytes
    }

    /// The most valid frames of a log.
    pub fn frames(self) -> u32
        ensures value { result ≡ self.frames }
        ensures within { result ≤ greatest.frames }
    {
        self.frames
    }
}
