//! Where the bytes of a file come from (own).
ghost use Rattle.std.specs.Prelude.{◌≡◌, ℕ, List, length, IsOk, OnOk};
ghost use Rattle.sqval.specs.Bytes.{AreBytes};
ghost use Rattle.sqview.specs.Laid.{part_or_zeros};

use sqpage::SourceError;

/// The bytes of a file, a database's or a log's, read in parts. A missing file has none.
pub trait FileBytes {
    /// Its bytes.
    ghost bytes: { Self → List ℕ };

    /// What a read gives that doesn't fail is right, which is those bytes. Nothing can be said of them where it isn't.
    ghost reads_right: { Self → Type 0 };

    /// What a read gives is right, and no read fails.
    ghost gives_bytes: { Self → Type 0 };

    /// How many there are.
    fn len(&self) -> u64
        ensures count { reads_right self.now → result ≡ length (bytes self.now) }
        ensures bytes { reads_right self.now → AreBytes (bytes self.now) };

    /// Fills the buffer from a place on, with zeros past the end. Refused by `SourceError` where a byte before the end
    /// can't be read; the buffer may then hold anything.
    fn read_at(&mut self, at: u64, out: &mut [u8]) -> Result<(), SourceError>
        ensures read { reads_right self.old
            → OnOk result (out.new ≡ part_or_zeros (length out.old) at (bytes self.old)) }
        ensures never_fails { gives_bytes self.old → IsOk result }
        ensures still_right { reads_right self.old → reads_right self.new }
        ensures still_gives { gives_bytes self.old → gives_bytes self.new }
        ensures same_bytes { bytes self.new ≡ bytes self.old };

    ghost right: { (file : Self) → gives_bytes file → reads_right file };
}

/// How many bytes there are.
fn count_of(file: &[u8]) -> u64
    ensures count { result ≡ length file.now }
    ensures bytes { AreBytes file.now }
{
    file.len() as u64
}

impl FileBytes for &[u8] {
    ghost bytes = { λ file. file.now };

    ghost reads_right = { λ _. Unit {0} };

    ghost gives_bytes = { λ _. Unit {0} };

    ghost right = { λ _ _. tt };

    fn len(&self) -> u64 {
        count_of(self)
    }

    fn read_at(&mut self, at: u64, out: &mut [u8]) -> Result<(), SourceError> {
        let file = *self;
        let rest = &file[at.min(file.len() as u64) as usize..];
        let count = rest.len().min(out.len());
        let (front, back) = out.split_at_mut(count);
        front.copy_from_slice(&rest[..count]);
        back.fill(0);
        Ok(())
    }
}
