//! The sums of a journal's records (fileformat2, 3).
ghost use Rattle.std.specs.Prelude.{◌≡◌};
ghost use Rattle.sqjournal.specs.NonceSum.{nonce_sum};

/// The bytes between two that count.
const STRIDE: usize = 200;

/// The sum of a record: the nonce and every 200th byte of the page, counted from the page's end
/// and without the byte at 0, modulo 2^32.
pub fn page_sum(nonce: u32, page: &[u8]) -> u32
    ensures { result ≡ nonce_sum nonce page.now }
{
    let mut sum = nonce;
    let mut at = page.len();
    while at > STRIDE {
        at -= STRIDE;
        sum = sum.wrapping_add(u32::from(page[at]));
    }
    sum
}
