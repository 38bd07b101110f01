//! How many bytes the entries of an index may take (own).
ghost use Rattle.std.specs.Prelude.{◌≡◌};

/// How many bytes the entries of an index may take that are held at once, beside an eighth of the index: 64 MiB (own).
const HELD_BYTES: u64 = 64 << 20;

/// How many bytes may be held, and how many an entry may have.
#[derive(Clone, Copy, Debug)]
pub(crate) struct Room {
    pub(crate) held: u64,
    pub(crate) longest: u64,
}

impl Room {
    /// Beside an eighth of an index of so many entries, whose payloads have so many bytes in all: 64 MiB, or where that
    /// is less as many as an entry may have. An entry takes three bytes in its page at least beside its payload.
    pub(crate) fn of(many: u64, bytes: u64, longest: u64) -> Room
        ensures { result.longest ≡ longest }
    {
        let index = bytes.saturating_add(many.saturating_mul(3));
        Room {
            held: longest.min(HELD_BYTES).saturating_add(index / 8),
            longest,
        }
    }
}
