//! Sectors of a file (own).
ghost use Rattle.std.specs.Prelude.{◌<◌, ◌≤◌};

/// The size of a disk's sectors in bytes.
#[derive(Clone, Copy, Debug, PartialEq, Eq)]
pub struct SectorSize {
    pub bytes: u64,
    ghost positive: { 0 < bytes },
    ghost short: { bytes ≤ 65536 },
}

impl SectorSize {
    ghost use Rattle.std.specs.Prelude.{◌≡◌, ◌<◌, ◌^◌, IsTrue};
    ghost use Rattle.crashdisk.specs.Count.{sector_count};
    ghost use Rattle.crashdisk.specs.Solid.{is_sector_size};
    ghost use Rattle.rig_missing.specs.Missing.{sector_bytes};

    /// This size, a power of two from 512 to 65536.
    pub fn new(bytes: usize) -> SectorSize
        requires { IsTrue (is_sector_size bytes) }
        ensures { result.bytes ≡ bytes }
    {
        SectorSize {
            bytes: bytes as u64,
        }
    }

    /// How many sectors a file of this length has.
    pub(crate) fn count(self, length: u64) -> u64
        requires { length < 2 ^ 63 }
        ensures { result ≡ sector_count self.bytes length }
    {
        (length + self.bytes - 1) / self.bytes
    }

    /// The bytes of sector k, as far as there are any.
    pub(crate) fn bytes_of(self, bytes: &[u8], k: u64) -> &[u8]
        ensures { result.now ≡ sector_bytes self.bytes k bytes.now }
    {
        let start = k.saturating_mul(self.bytes).min(bytes.len() as u64) as usize;
        let rest = &bytes[start..];
        &rest[..rest.len().min(self.bytes as usize)]
    }
}
