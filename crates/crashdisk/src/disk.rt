//! A disk as an engine sees it (own).
ghost use Rattle.std.specs.Prelude.{◌≡◌, ◌↔◌, ◌+◌, ℕ, length, slice_index, OnOk, IfOk, EachIndex};
ghost use Rattle.crashdisk.specs.State.{byte, IsSectorSize};

use crate::error::DiskError;
use crate::file::File;

/// Two files, of which a crash may leave, for each sector, any value that it had since the file was last synced, or, on
/// a disk that tears, anything where the sector was written since then; and for each file any length from the least to
/// the greatest that it had since then. Places and lengths are in bytes. Stops and failures may be injected into its
/// next calls (into those of a real disk none are): each call but `sector` and `tears` is subject to them.
pub trait Disk {
    ghost use Rattle.crashdisk.specs.declared.file.File.{File};
    ghost use Rattle.crashdisk.specs.Call.{DiskState, of, IsSoundDisk, Writes, Cuts, Syncs, Looks};

    /// What it lists, where it keeps its word.
    ghost state: { Self → DiskState };

    /// It keeps its word.
    ghost keeps_word: { Self → Type 0 };

    /// The size of a sector in bytes. It never changes, is always answered and isn't counted as a call.
    fn sector(&self) -> usize
        ensures is_size { IsSectorSize result }
        ensures answer { keeps_word self.now → result ≡ (state self.now).sector }
        ensures sound { keeps_word self.now → IsSoundDisk (state self.now) };

    /// Whether a sector that is being written when the machine stops may hold anything afterwards. It never changes,
    /// is always answered and isn't counted as a call.
    fn tears(&self) -> bool
        ensures { keeps_word self.now → result ≡ (state self.now).tears };

    /// How long a file is. Refused by Stopped, Failed or NoMemory; a refusal changes nothing.
    fn len(&mut self, file: File) -> Result<u64, DiskError>
        ensures word { keeps_word self.old ↔ keeps_word self.new }
        ensures answer { keeps_word self.old → IfOk result (λ n. n ≡ (of file (state self.old)).len) }
        ensures state { keeps_word self.old → Looks 0 result (state self.old) (state self.new) };

    /// Reads the bytes from a place on; past the end of the file they are zeros. Refused by Stopped, by TooLong where
    /// it would end above 1,099,511,627,776, by Failed or NoMemory. A refusal changes nothing, but `out` may hold
    /// anything.
    fn read_at(&mut self, file: File, at: u64, out: &mut [u8]) -> Result<(), DiskError>
        ensures word { keeps_word self.old ↔ keeps_word self.new }
        ensures bytes { keeps_word self.old
            → OnOk result (EachIndex out.new (λ i. slice_index out.new i ≡ byte (of file (state self.old)) (at + i))) }
        ensures state { keeps_word self.old → Looks (at + length out.old) result (state self.old) (state self.new) };

    /// Writes the bytes at a place, and lengthens the file where they end past its end. Refused by Stopped, by TooLong
    /// where it would end above 1,099,511,627,776, or by NoMemory, all of which change nothing; or by Failed, after
    /// which each sector that it would change, and the length, is old or new.
    fn write_at(&mut self, file: File, at: u64, bytes: &[u8]) -> Result<(), DiskError>
        ensures word { keeps_word self.old ↔ keeps_word self.new }
        ensures state { keeps_word self.old → Writes file at bytes.now result (state self.old) (state self.new) };

    /// Cuts a file at a length, or lengthens it by zeros. Refused as `write_at` is.
    fn set_len(&mut self, file: File, end: u64) -> Result<(), DiskError>
        ensures word { keeps_word self.old ↔ keeps_word self.new }
        ensures state { keeps_word self.old → Cuts file end result (state self.old) (state self.new) };

    /// Makes what the file holds stay, whatever a crash does. Refused by Stopped or NoMemory, which change nothing; or
    /// by Failed, after which nothing more stays, and each sector has one of the values that it had since the last
    /// sync.
    fn sync(&mut self, file: File) -> Result<(), DiskError>
        ensures word { keeps_word self.old ↔ keeps_word self.new }
        ensures state { keeps_word self.old → Syncs file result (state self.old) (state self.new) };

    /// A disk that keeps its word is sound.
    ghost sound: { (disk : Self) → keeps_word disk → IsSoundDisk (state disk) };
}
