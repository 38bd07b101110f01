//! The bytes of the locks (own; SQLite's os.h and wal.c).
ghost use Rattle.std.specs.Prelude.{◌≡◌, ◌+◌, ◌<◌, ◌≤◌, true, false};
ghost use Rattle.sqlocks.specs.Bytes.{bytes_of};

use crate::plan::Lock;

/// Bytes of FILE, or of its FILE-shm, and whether they are locked for one alone.
#[derive(Clone, Copy, Debug, PartialEq, Eq)]
pub struct Bytes {
    pub is_of_index: bool,
    pub is_exclusive: bool,
    pub start: u64,
    pub count: u64,
}

/// The bytes of a lock. RESERVED, byte 1073741825 of FILE, is among them only with all others of FILE.
pub fn bytes_of(lock: Lock) -> Bytes
    ensures bytes { result ≡ bytes_of lock }
    ensures reserved { result.is_of_index ≡ false → result.start ≤ 1073741825 → 1073741825 < result.start + result.count
        → (result.is_exclusive ≡ true) × (result.start ≡ 1073741824) × (result.count ≡ 512) }
{
    let (is_of_index, is_exclusive, start, count) = match lock {
        Lock::Pending => (false, false, 1_073_741_824, 1),
        Lock::Shared => (false, false, 1_073_741_826, 510),
        Lock::Exclusive => (false, true, 1_073_741_824, 512),
        Lock::Writers => (true, false, 120, 1),
        Lock::Checkpoints => (true, false, 123, 1),
        Lock::Restarts => (true, false, 127, 1),
        Lock::Connections => (true, true, 128, 1),
        Lock::WholeIndex => (true, true, 120, 9),
        Lock::Alone => (false, false, 1_073_742_337, 1),
    };
    Bytes {
        is_of_index,
        is_exclusive,
        start,
        count,
    }
}
