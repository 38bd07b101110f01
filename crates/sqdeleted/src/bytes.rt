//! Numbers in the header of a page (fileformat2, 1.6).
ghost use Rattle.std.specs.Prelude.{◌≡◌, ◌+◌, ◌<◌, ◌≤◌, length};
ghost use Rattle.sqpage.specs.Header.{half};
ghost use Rattle.sqpage.specs.Page.{head_at, content_start_in, pointers_end_in};
ghost use Rattle.sqpage.specs.declared.kind.Kind.{Kind};

use byteorder::{BigEndian, ByteOrder};
use sqpage::Kind;

/// Where the header of page 1 as a b-tree page begins, behind the file's header.
const FIRST_HEAD: usize = 100;

/// The number of two bytes at `at`.
pub(crate) fn half_at(bytes: &[u8], at: usize) -> usize
    requires { at + 2 ≤ length bytes.now }
    ensures value { result ≡ half bytes.now at }
    ensures small { result < 65536 }
{
    usize::from(BigEndian::read_u16(&bytes[at..at + 2]))
}

/// Where the header of a b-tree page begins in page `number`.
pub(crate) fn head(number: u32) -> usize
    ensures value { result ≡ head_at number }
    ensures early { result ≤ 100 }
{
    if number == 1 { FIRST_HEAD } else { 0 }
}

/// Where the pointers to the cells end.
pub(crate) fn pointers_end(kind: Kind, used: &[u8], number: u32) -> usize
    requires { 480 ≤ length used.now }
    ensures { result ≡ pointers_end_in kind used.now number }
{
    let head = head(number);
    head + if kind.is_interior() { 12 } else { 8 } + 2 * half_at(used, head + 3)
}

/// Where the cells begin, 0 standing for 65536.
pub(crate) fn content_start(used: &[u8], number: u32) -> usize
    requires { 480 ≤ length used.now }
    ensures { result ≡ content_start_in used.now number }
{
    let start = half_at(used, head(number) + 5);
    if start == 0 { 65536 } else { start }
}
