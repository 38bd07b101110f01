//! The database header (fileformat2, 1.3).
ghost use Rattle.std.specs.Prelude.{◌≡◌, ℕ, ◌+◌, ◌≤◌, ◌<◌, ◌↔◌, IsTrue, ◌^◌, ◌*◌, length, flat_map, slice_index, IfOk};
ghost use Rattle.std.specs.Prelude.{IfErr, IsSome, IfSome, replicate};
ghost use Rattle.sqval.specs.Bytes.{part};
ghost use Rattle.sqval.specs.PageSize.{IsPageSize};
ghost use Rattle.byteorder.specs.Endian.{big_bytes};
ghost use Rattle.sqpage.specs.Header.{IsHeader, HeaderRefused, HasMagic, HasPageSize, HasFractions, size_named};
ghost use Rattle.sqpage.specs.Header.{size_named_by};
ghost use Rattle.sqpage.specs.declared.header.DbHeader.{DbHeader};

use crate::bytes::word_at;
use crate::fault::Fault;
use byteorder::{BigEndian, ByteOrder};
use sqval::PageSize;

const MAGIC: [u8; 16] = *b"SQLite format 3\0";

/// The payload fractions that every database has.
const FRACTIONS: [u8; 3] = [64, 32, 32];

/// The least usable size of a page.
const LEAST_USABLE: u32 = 480;

/// The header of a database file, its first 100 bytes (fileformat2, 1.3, "The Database Header").
/// The fields that `read` doesn't judge hold what stands there.
#[derive(Clone, Copy, Debug, PartialEq, Eq)]
pub struct DbHeader {
    /// How many bytes a page has (1.3.2).
    pub page_size: PageSize,
    /// 1 for a rollback journal, 2 for a write-ahead log (1.3.3).
    pub write_version: u8,
    /// The same, for those that only read.
    pub read_version: u8,
    /// How many bytes at the end of each page are not used (1.3.4).
    pub reserved: u8,
    /// Raised when the file was changed (1.3.6).
    pub change_counter: u32,
    /// How many pages the database has (1.3.7). It counts where it isn't 0 and `change_counter` is
    /// `version_valid_for`; otherwise the file's length does.
    pub size_in_pages: u32,
    /// The first trunk of the freelist, or 0 (1.3.8).
    pub first_trunk: u32,
    /// How many pages the freelist has (1.3.8).
    pub free_pages: u32,
    /// Raised when the schema was changed (1.3.9).
    pub schema_cookie: u32,
    /// From 1 to 4 (1.3.10).
    pub schema_format: u32,
    /// How many pages a cache should have (1.3.11).
    pub cache_size: u32,
    /// The largest root page where the database is one of auto-vacuum, or 0 (1.3.12).
    pub largest_root: u32,
    /// 1 for UTF-8, 2 for UTF-16le, 3 for UTF-16be (1.3.13).
    pub text_encoding: u32,
    /// A number that the user sets (1.3.14).
    pub user_version: u32,
    /// Not 0 for incremental vacuum (1.3.12).
    pub incremental_vacuum: u32,
    /// A number of the application that the file is of (1.3.15).
    pub application_id: u32,
    /// The change counter when `writer_version` was written (1.3.16).
    pub version_valid_for: u32,
    /// The version of the library that wrote last (1.3.16).
    pub writer_version: u32,
}

/// Whether the bytes begin as those of a database do (fileformat2, 1.3.1).
pub fn has_magic(bytes: &[u8; 100]) -> bool
    ensures { IsTrue result ↔ HasMagic bytes.now }
{
    &bytes[..16] == MAGIC.as_slice()
}

fn has_fractions(bytes: &[u8; 100]) -> bool
    ensures { IsTrue result ↔ HasFractions bytes.now }
{
    &bytes[21..24] == FRACTIONS.as_slice()
}

/// The page size that the header names.
fn named_size(bytes: &[u8; 100]) -> u32
    ensures { result ≡ size_named bytes.now }
{
    match BigEndian::read_u16(&bytes[16..18]) {
        1 => 65536,
        size => u32::from(size),
    }
}

/// The page size that a header names, in bytes (fileformat2, 1.3.2). None where it is none that a database can have.
/// Nothing else of the header is judged.
pub fn named_page_size(bytes: &[u8; 100]) -> Option<PageSize>
    ensures valid { IsSome result ↔ HasPageSize bytes.now }
    ensures value { IfSome result (λ size. size ≡ size_named bytes.now) }
{
    PageSize::new(named_size(bytes))
}

/// How a header names a page size: 65536, which doesn't fit, is 1.
fn name_of_size(size: u32) -> u16
    requires { IsPageSize size }
    ensures { size ≡ size_named_by result }
{
    u16::try_from(size).unwrap_or(1)
}

/// Writes numbers of four bytes each, one behind the other.
fn write_words(words: &[u32], out: &mut [u8])
    requires { length out.old ≡ 4 * length words.now }
    ensures written { out.new ≡ flat_map (big_bytes 4) words.now }
    ensures fits { (i : ℕ) → slice_index words.now i < 2 ^ 32 }
{
    BigEndian::write_u32_into(words, out)
}

impl DbHeader {
    /// The header that these bytes are. Refused by Magic, PageSize, Fraction or Reserved, the first
    /// that applies.
    pub fn read(bytes: &[u8; 100]) -> Result<DbHeader, Fault>
        ensures ok { IfOk result (λ header. IsHeader header bytes.now) }
        ensures err { IfErr result (λ fault. HeaderRefused fault bytes.now) }
    {
        if !has_magic(bytes) {
            return Err(Fault::Magic);
        }
        let Some(page_size) = PageSize::new(named_size(bytes)) else {
            return Err(Fault::PageSize);
        };
        if !has_fractions(bytes) {
            return Err(Fault::Fraction);
        }
        let reserved = bytes[20];
        if LEAST_USABLE + u32::from(reserved) > page_size.get() {
            return Err(Fault::Reserved);
        }
        Ok(DbHeader {
            page_size,
            write_version: bytes[18],
            read_version: bytes[19],
            reserved,
            change_counter: word_at(bytes, 24),
            size_in_pages: word_at(bytes, 28),
            first_trunk: word_at(bytes, 32),
            free_pages: word_at(bytes, 36),
            schema_cookie: word_at(bytes, 40),
            schema_format: word_at(bytes, 44),
            cache_size: word_at(bytes, 48),
            largest_root: word_at(bytes, 52),
            text_encoding: word_at(bytes, 56),
            user_version: word_at(bytes, 60),
            incremental_vacuum: word_at(bytes, 64),
            application_id: word_at(bytes, 68),
            version_valid_for: word_at(bytes, 92),
            writer_version: word_at(bytes, 96),
        })
    }

    /// Writes the header, by which at least 480 bytes of a page are usable. The bytes 72 to 91, which have no meaning
    /// yet, are zeros (own).
    pub fn write(&self, out: &mut [u8; 100])
        requires { 480 + self.now.reserved ≤ self.now.page_size }
        ensures written { IsHeader self.now out.new }
        ensures zeros { part out.new 72 20 ≡ replicate 20 0 }
        ensures reads_back { (header : DbHeader) → IsHeader header out.new → header ≡ self.now }
    {
        let [high, low] = name_of_size(self.page_size.get()).to_be_bytes();
        *out = [0; 100];
        out[..16].copy_from_slice(&MAGIC);
        out[16..24].copy_from_slice(&[
            high,
            low,
            self.write_version,
            self.read_version,
            self.reserved,
            FRACTIONS[0],
            FRACTIONS[1],
            FRACTIONS[2],
        ]);
        let words = [
            self.change_counter,
            self.size_in_pages,
            self.first_trunk,
            self.free_pages,
            self.schema_cookie,
            self.schema_format,
            self.cache_size,
            self.largest_root,
            self.text_encoding,
            self.user_version,
            self.incremental_vacuum,
            self.application_id,
        ];
        write_words(&words, &mut out[24..72]);
        write_words(
            &[self.version_valid_for, self.writer_version],
            &mut out[92..],
        );
    }
}
