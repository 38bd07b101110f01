//! The header of a log (fileformat2, 4.1).
ghost use Rattle.std.specs.Prelude.{◌≡◌};
ghost use Rattle.sqval.specs.Bytes.{word, AreBytes};

use crate::error::WalFormatError;
use crate::sum::{Order, Sum};
use crate::words::{put_words, word};
use sqval::PageSize;

const VERSION: u32 = 3007000;

/// The sums that stand in a header.
fn stored_sum(bytes: &[u8; 32]) -> Sum
    ensures first { result.s0 ≡ word bytes.now 24 }
    ensures second { result.s1 ≡ word bytes.now 28 }
    ensures bytes { AreBytes bytes.now }
{
    Sum {
        s0: word(bytes, 24),
        s1: word(bytes, 28),
    }
}

/// What the 32 bytes of a log's header say (fileformat2, 4.1).
#[derive(Clone, Copy, Debug, PartialEq, Eq)]
pub struct WalHeader {
    /// The order of the words that sums are over, as the magic says.
    pub order: Order,
    /// The size of the pages.
    pub page_size: PageSize,
    /// Raised by one with each restart of the log.
    pub sequence: u32,
    /// Raised by one with each restart, too; each frame has it.
    pub salt1: u32,
    /// Another one after each restart; each frame has it.
    pub salt2: u32,
}

impl WalHeader {
    ghost use Rattle.std.specs.Prelude.{ℕ, List};
    ghost use Rattle.sqwal.specs.Header.{HeaderAnswer, IsHeaderOf};
    ghost use Rattle.sqwal.specs.Slots.{stored};

    /// Reads a header. Refused are, in this order, NotAWal, PageSize, HeaderSum and UnknownVersion.
    pub fn read(bytes: &[u8; 32]) -> Result<WalHeader, WalFormatError>
        ensures { HeaderAnswer bytes.now result }
    {
        let Some(order) = Order::named(word(bytes, 0)) else {
            return Err(WalFormatError::NotAWal);
        };
        let Some(page_size) = PageSize::new(word(bytes, 8)) else {
            return Err(WalFormatError::PageSize);
        };
        let sum = Sum::zero().add(&bytes[..24], order);
        if sum.s0 != word(bytes, 24) || sum.s1 != word(bytes, 28) {
            return Err(WalFormatError::HeaderSum);
        }
        if word(bytes, 4) != VERSION {
            return Err(WalFormatError::UnknownVersion);
        }
        Ok(WalHeader {
            order,
            page_size,
            sequence: word(bytes, 12),
            salt1: word(bytes, 16),
            salt2: word(bytes, 20),
        })
    }

    /// Writes the header with its sums, so that reading it gives it back.
    pub fn write(&self, out: &mut [u8; 32])
        ensures { IsHeaderOf out.new self.now }
    {
        let front = [
            self.order.magic(),
            VERSION,
            self.page_size.get(),
            self.sequence,
            self.salt1,
            self.salt2,
        ];
        put_words(&mut out[..24], &front);
        let sum = Sum::zero().add(&out[..24], self.order);
        put_words(&mut out[24..], &[sum.s0, sum.s1]);
    }

    /// The sums that stand in the header, from which those of the first frame follow.
    pub fn sum(&self) -> Sum
        ensures { (w : List ℕ) → AreBytes w → IsHeaderOf w self.now → result ≡ stored self.now.page_size w 0 }
    {
        let mut bytes = [0; 32];
        self.write(&mut bytes);
        stored_sum(&bytes)
    }
}
