//! Whether a rollback journal is hot.
ghost use Rattle.std.specs.Prelude.{◌≡◌, ◌≢◌, IsTrue, false, take};
ghost use Rattle.sqlocks_c.specs.Journals.{HasHeader, IsColdIf, IsHotIf};

use sqjournal::JournalHeader;

/// Whether a journal of this length that begins with these 28 bytes is hot.
fn is_hot(front: &[u8; 28], length: u64) -> bool
    ensures yes { IsTrue result → IsHotIf front.now length }
    ensures not { result ≡ false → IsColdIf front.now length }
{
    match JournalHeader::read(front) {
        Ok(header) => u64::from(header.sector) <= length,
        Err(_) => false,
    }
}

/// 1 if a journal of this length that begins with these bytes is hot; otherwise 0. Its first 28 bytes are looked at:
/// its header (fileformat2, 3). If there are fewer, it isn't hot.
#[unsafe(no_mangle)]
pub extern "C" fn sqr_journal_is_hot(front: &[u8], length: u64) -> u32
    ensures yes { result ≡ 1 → HasHeader front.now × IsHotIf (take 28 front.now) length }
    ensures not { result ≢ 1 → HasHeader front.now → IsColdIf (take 28 front.now) length }
{
    match front.first_chunk::<28>() {
        Some(front) => u32::from(is_hot(front, length)),
        None => 0,
    }
}
