//! The header of a rollback journal (fileformat2, 3).
ghost use Rattle.std.specs.Prelude.{◌≡◌, ℕ, ◌+◌, ◌*◌, ◌^◌, ◌<◌, ◌≤◌, ◌↔◌, ◌++◌, IsTrue, length, take, drop};
ghost use Rattle.byteorder.specs.Endian.{big_bytes};
ghost use Rattle.sqval.specs.Bytes.{word};
ghost use Rattle.sqjournal.specs.Header.{magic, IsSector, next_header, IsFirstHeader, IsRead, Names, header_bytes};

use crate::error::JournalError;
use byteorder::{BigEndian, ByteOrder};
use sqval::PageSize;

/// The number of four bytes at a place, the highest byte first.
pub(crate) fn word_at(bytes: &[u8], at: usize) -> u32
    requires { at + 4 ≤ length bytes.now }
    ensures { result ≡ word bytes.now at }
{
    BigEndian::read_u32(&bytes[at..])
}

/// Writes a number as four bytes at a place, the highest byte first.
fn put_word(bytes: &mut [u8], at: usize, value: u32)
    requires { at + 4 ≤ length bytes.old }
    ensures { bytes.new ≡ take at bytes.old ++ big_bytes 4 value ++ drop (at + 4) bytes.old }
{
    BigEndian::write_u32(&mut bytes[at..], value);
}

/// The bytes of a header that have a meaning. Those up to the end of its sector are padding.
pub const HEADER_LEN: usize = 28;

/// What a header begins with.
pub const MAGIC: [u8; 8] = [0xd9, 0xd5, 0x05, 0xf9, 0x20, 0xa1, 0x63, 0xd7];

/// The header of a journal, or of a later segment of one.
#[derive(Clone, Copy, Debug, PartialEq, Eq)]
pub struct JournalHeader {
    /// How many records follow. `u32::MAX` is all up to the end of the file.
    pub count: u32,
    /// What the sums of the records begin with.
    pub nonce: u32,
    /// The size of the database before the transaction, in pages.
    pub first_size: u32,
    /// The size of a sector in bytes, which the header fills.
    pub sector: u32,
    /// The size of a page in bytes.
    pub page_size: PageSize,
}

/// Whether these are the bytes that a journal's header begins with.
pub fn is_magic(bytes: &[u8; 8]) -> bool
    ensures { IsTrue result ↔ (bytes.now ≡ magic) }
{
    *bytes == MAGIC
}

/// Where the next header begins after the end of a segment, in bytes: at the least multiple of the sector, a power of
/// two from 512 to 65536, that isn't below it (own: each header begins at such a place). The end is at most 2^41.
pub fn next_header_at(end: u64, sector: u32) -> u64
    requires sector { IsSector sector }
    requires within { end ≤ 2 ^ 41 }
    ensures value { result ≡ next_header sector end }
    ensures multiple { (k : ℕ) × (result ≡ k * sector) }
    ensures not_below { end ≤ result }
    ensures least { result < end + sector }
{
    round_up(end, sector)
}

/// The least multiple of the step that isn't below the place.
pub(crate) fn round_up(place: u64, step: u32) -> u64
    requires positive { 0 < step }
    requires room { place ≤ 2 ^ 41 }
    ensures value { result ≡ next_header step place }
    ensures multiple { (k : ℕ) × (result ≡ k * step) }
    ensures not_below { place ≤ result }
    ensures least { result < place + step }
{
    let step = u64::from(step);
    (place + step - 1) / step * step
}

impl JournalHeader {
    /// Reads a first header. It is refused for its magic, its sector size and its page size, in
    /// this order.
    pub fn read(bytes: &[u8; 28]) -> Result<JournalHeader, JournalError>
        ensures { IsRead bytes.now result }
    {
        if !bytes.starts_with(&MAGIC) {
            return Err(JournalError::NotAJournal);
        }
        let sector = word_at(bytes, 20);
        if PageSize::new(sector).is_none() {
            return Err(JournalError::SectorSize);
        }
        let Some(page_size) = PageSize::new(word_at(bytes, 24)) else {
            return Err(JournalError::PageSize);
        };
        Ok(JournalHeader {
            count: word_at(bytes, 8),
            nonce: word_at(bytes, 12),
            first_size: word_at(bytes, 16),
            sector,
            page_size,
        })
    }

    /// Writes the header, whose sector is a power of two from 512 to 65536. What is written reads back.
    pub fn write(&self, out: &mut [u8; 28])
        requires { IsSector self.now.sector }
        ensures bytes { out.new ≡ header_bytes self.now }
        ensures first { IsFirstHeader out.new }
        ensures names { Names out.new self.now }
    {
        let JournalHeader {
            count,
            nonce,
            first_size,
            sector,
            page_size,
        } = *self;
        out[..8].copy_from_slice(&MAGIC);
        put_word(out, 8, count);
        put_word(out, 12, nonce);
        put_word(out, 16, first_size);
        put_word(out, 20, sector);
        put_word(out, 24, page_size.get());
    }
}
