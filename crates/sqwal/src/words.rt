//! Numbers of 32 bits in a log's headers (fileformat2, 4.1).
ghost use Rattle.std.specs.Prelude.{◌≡◌, ◌+◌, ◌*◌, ◌^◌, ◌<◌, ◌≤◌, ℕ, length, slice_index};
ghost use Rattle.std.specs.List.{flat_map};
ghost use Rattle.byteorder.specs.Endian.{big_bytes};
ghost use Rattle.sqval.specs.Bytes.{word};

use byteorder::{BigEndian, ByteOrder};

/// The number at a place, the highest byte first.
pub fn word(bytes: &[u8], at: usize) -> u32
    requires { at + 4 ≤ length bytes.now }
    ensures { result ≡ word bytes.now at }
{
    BigEndian::read_u32(&bytes[at..at + 4])
}

/// Writes numbers one after the other, the highest byte of each first.
pub fn put_words(out: &mut [u8], words: &[u32])
    requires { length out.old ≡ 4 * length words.now }
    ensures bytes { out.new ≡ flat_map (big_bytes 4) words.now }
    ensures fit { (i : ℕ) → slice_index words.now i < 2 ^ 32 }
{
    BigEndian::write_u32_into(words, out);
}
