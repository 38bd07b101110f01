//! The header of the index of a write-ahead log, FILE-shm (walformat, 2.1).
ghost use Rattle.std.specs.Prelude.{◌≡◌, ◌+◌, ◌-◌, ◌*◌, ◌↔◌, ◌≤◌, ℕ, List, IsTrue, length};
ghost use Rattle.sqval.specs.Bytes.{part, word};
ghost use Rattle.sqwal.specs.Frames.{frame_at};
ghost use Rattle.sqlocks.specs.Index.{low_word, low_half, named_size, StandsTwice, HasRightSums, IndexAnswer};
ghost use Rattle.sqlocks.specs.Index.{IsFrontOf};
ghost use Rattle.sqlocks.specs.internal.Fronts.{NamesFront};

use byteorder::{BigEndian, ByteOrder, LittleEndian};
use sqval::PageSize;
use sqwal::{Order, Sum};

/// The version of the index's header.
const VERSION: u32 = 3_007_000;

/// What a valid header of an index says (walformat, 2.1).
#[derive(Clone, Copy, Debug, PartialEq, Eq)]
pub struct IndexHead {
    /// The size of the pages; 512 where no frame counts and none is named yet.
    pub page_size: PageSize,
    /// The frames of the log that count, up to the last commit; 0: the log counts for nothing.
    pub frames: u32,
    /// The log's salts, as its header and its frames have them.
    pub salt1: u32,
    pub salt2: u32,
    /// The sums of the last frame that counts.
    pub sum: Sum,
    /// How many frames are copied to FILE (nBackfill).
    pub copied: u32,
    /// Up to which frame somebody began to copy (nBackfillAttempted).
    pub attempted: u32,
}

/// The number of 32 bits at a place, the lowest byte first.
fn low_word(bytes: &[u8], at: usize) -> u32
    requires { at + 4 ≤ length bytes.now }
    ensures { result ≡ low_word bytes.now at }
{
    LittleEndian::read_u32(&bytes[at..at + 4])
}

/// The number of 16 bits at a place, the lowest byte first.
fn low_half(bytes: &[u8], at: usize) -> u16
    requires { at + 2 ≤ length bytes.now }
    ensures { result ≡ low_half bytes.now at }
{
    LittleEndian::read_u16(&bytes[at..at + 2])
}

/// The number of 32 bits at a place, the highest byte first.
fn high_word(bytes: &[u8], at: usize) -> u32
    requires { at + 4 ≤ length bytes.now }
    ensures { result ≡ word bytes.now at }
{
    BigEndian::read_u32(&bytes[at..at + 4])
}

/// The page size for which a number stands: 1 for 65536. An index in which no frame counts may have 0, while its log
/// has no header yet: 512 stands for that, and no page is read by it.
fn named_size(number: u16, frames: u32) -> u32
    ensures { result ≡ named_size number frames }
{
    if number == 1 {
        65_536
    } else if number == 0 && frames == 0 {
        512
    } else {
        u32::from(number)
    }
}

/// Whether the header stands twice.
fn stands_twice(bytes: &[u8; 136]) -> bool
    ensures { IsTrue result ↔ StandsTwice bytes.now }
{
    bytes[..48] == bytes[48..96]
}

/// Whether its sums are right.
fn has_right_sums(bytes: &[u8; 136]) -> bool
    ensures { IsTrue result ↔ HasRightSums bytes.now }
{
    let sum = Sum::zero().add(&bytes[..40], Order::Little);
    low_word(bytes, 40) == sum.s0 && low_word(bytes, 44) == sum.s1
}

/// What the first 136 bytes of FILE-shm say; None where they begin with no valid header: where its two copies differ,
/// it isn't begun, it is of another version or of a machine of the other byte order, or its sums are wrong.
pub fn index_front(bytes: &[u8; 136]) -> Option<IndexHead>
    ensures { IndexAnswer bytes.now result }
{
    if !stands_twice(bytes) {
        return None;
    }
    if low_word(bytes, 0) != VERSION {
        return None;
    }
    if bytes[12] == 0 {
        return None;
    }
    if !has_right_sums(bytes) {
        return None;
    }
    let frames = low_word(bytes, 16);
    let page_size = PageSize::new(named_size(low_half(bytes, 14), frames))?;
    Some(IndexHead {
        page_size,
        frames,
        salt1: high_word(bytes, 32),
        salt2: high_word(bytes, 36),
        sum: Sum {
            s0: low_word(bytes, 24),
            s1: low_word(bytes, 28),
        },
        copied: low_word(bytes, 96),
        attempted: low_word(bytes, 128),
    })
}

/// Whether two numbers stand at a place, the highest byte of each first.
fn stand_at(bytes: &[u8], at: usize, first: u32, second: u32) -> bool
    requires { at + 8 ≤ length bytes.now }
    ensures { IsTrue result ↔ ((word bytes.now at ≡ first) × (word bytes.now (at + 4) ≡ second)) }
{
    high_word(bytes, at) == first && high_word(bytes, at + 4) == second
}

/// Whether the header of a log and the frame that an index names last are those that it names.
fn is_named(head: &IndexHead, header: &[u8; 32], frame: &[u8; 24]) -> bool
    ensures { IsTrue result ↔ NamesFront head.now header.now frame.now }
{
    let names_log = high_word(header, 8) == head.page_size.get()
        && stand_at(header, 16, head.salt1, head.salt2);
    let names_frame = stand_at(frame, 8, head.salt1, head.salt2)
        && stand_at(frame, 16, head.sum.s0, head.sum.s1);
    names_log && names_frame && high_word(frame, 4) != 0
}

/// Whether the last frame that counts by an index stands in a log that begins with these 32 bytes: the frame begins
/// with these 24, at byte 32 + (frames - 1) * (24 + page size).
pub fn names_front(head: &IndexHead, header: &[u8; 32], frame: &[u8; 24]) -> bool
    ensures { (w : List ℕ) → part w 0 32 ≡ header.now
        → part w (frame_at head.now.page_size head.now.frames) 24 ≡ frame.now → IsTrue result ↔ IsFrontOf head.now w }
{
    is_named(head, header, frame)
}
