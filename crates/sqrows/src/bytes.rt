//! Numbers of several bytes, the highest first (own).
ghost use Rattle.std.specs.Prelude.{◌≡◌, ◌+◌, ◌<◌, ◌≤◌, length};
ghost use Rattle.sqval.specs.Bytes.{word};
ghost use Rattle.sqpage.specs.Header.{half};

use byteorder::{BigEndian, ByteOrder};

/// The number of four bytes at `at`.
#[inline(always)]
pub(crate) fn word_at(bytes: &[u8], at: usize) -> u32
    requires { at + 4 ≤ length bytes.now }
    ensures { result ≡ word bytes.now at }
{
    BigEndian::read_u32(&bytes[at..at + 4])
}

/// The number of two bytes at `at`.
#[inline(always)]
pub(crate) fn half_at(bytes: &[u8], at: usize) -> usize
    requires { at + 2 ≤ length bytes.now }
    ensures value { result ≡ half bytes.now at }
    ensures small { result < 65536 }
{
    usize::from(BigEndian::read_u16(&bytes[at..at + 2]))
}
