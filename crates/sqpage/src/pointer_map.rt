//! The lock-byte page, and the pointer maps of a database of auto-vacuum (fileformat2, 1.4 and 1.8).
ghost use Rattle.std.specs.Prelude.{◌≡◌, ◌↔◌, IsTrue, ℕ, ◌+◌, ◌-◌, ◌<◌, ◌≤◌, length};
ghost use Rattle.sqpage.specs.PointerMaps.{lock_byte, HoldsByte, lock_byte_page, IsPointerMap};
ghost use Rattle.sqpage.specs.internal.PointerMaps.{IsNear};
ghost use Rattle.sqpage.specs.PointerMaps.{PlaceAnswer, EntryAnswer};

use crate::bytes::word_at;
use sqval::PageSize;

/// The byte of a file that locks are taken on.
const LOCK_BYTE: u32 = 1_073_741_824;

/// How many bytes an entry of a pointer map has.
const ENTRY: u32 = 5;

/// What a page is, by a pointer map (fileformat2, 1.8).
#[derive(Clone, Copy, Debug, PartialEq, Eq)]
pub enum PointerKind {
    /// The root of a b-tree. The entry names page 0.
    Root,
    /// A page of the freelist. The entry names page 0.
    Free,
    /// The first page of an overflow chain. The entry names the b-tree page that holds the cell.
    FirstOverflow,
    /// A further page of an overflow chain. The entry names the page before it in the chain.
    Overflow,
    /// A page of a b-tree that isn't its root. The entry names the page above it.
    Child,
}

/// An entry of a pointer map.
#[derive(Clone, Copy, Debug, PartialEq, Eq)]
pub struct MapEntry {
    /// What the page is.
    pub kind: PointerKind,
    /// The page that leads to it, or 0.
    pub parent: u32,
}

/// Where the entry of a page stands.
#[derive(Clone, Copy, Debug, PartialEq, Eq)]
pub struct EntryPlace {
    /// The pointer map.
    pub map: u32,
    /// Where the entry begins in it, in bytes.
    pub at: u32,
}

/// The lock-byte page: the one that holds byte 1,073,741,824 of the file. No database uses it (fileformat2, 1.4).
pub fn lock_byte_page(page_size: PageSize) -> u32
    ensures value { result ≡ lock_byte_page page_size }
    ensures holds { HoldsByte page_size result lock_byte }
{
    LOCK_BYTE / page_size.get() + 1
}

/// How many bytes of a page are used, where so many at its end are reserved.
fn usable_of(page_size: PageSize, reserved: u8) -> u32
    ensures value { result ≡ page_size - reserved }
    ensures some { 257 ≤ result }
    ensures fits { result ≤ 65536 }
{
    page_size.get() - u32::from(reserved)
}

/// The pointer map of the group of pages that page `p` stands in.
fn map_near(page_size: PageSize, reserved: u8, p: u32) -> u32
    requires { 2 ≤ p }
    ensures near { IsNear page_size (page_size - reserved) p result }
    ensures room { 257 ≤ page_size - reserved }
{
    let length = usable_of(page_size, reserved) / ENTRY + 1;
    let first = p - (p - 2) % length;
    if first == lock_byte_page(page_size) {
        first + 1
    } else {
        first
    }
}

/// Whether page `p` is a pointer map, in a database of auto-vacuum with such pages, of which so many bytes at the end
/// are reserved.
pub fn is_pointer_map(page_size: PageSize, reserved: u8, p: u32) -> bool
    ensures { IsTrue result ↔ IsPointerMap page_size (page_size - reserved) p }
{
    p >= 2 && map_near(page_size, reserved, p) == p
}

/// Where the entry of page `p` stands in such a database. None where it has none: page 1, a pointer map, and the
/// lock-byte page.
pub fn entry_place(page_size: PageSize, reserved: u8, p: u32) -> Option<EntryPlace>
    ensures { PlaceAnswer page_size (page_size - reserved) p result }
{
    if p < 2 || p == lock_byte_page(page_size) {
        return None;
    }
    let map = map_near(page_size, reserved, p);
    if p <= map {
        return None;
    }
    Some(EntryPlace {
        map,
        at: (p - map - 1) * ENTRY,
    })
}

impl MapEntry {
    /// The entry that five bytes are. None where the first one is no kind.
    pub fn parse(bytes: &[u8; 5]) -> Option<MapEntry>
        ensures { EntryAnswer bytes.now result }
    {
        let kind = match bytes[0] {
            1 => PointerKind::Root,
            2 => PointerKind::Free,
            3 => PointerKind::FirstOverflow,
            4 => PointerKind::Overflow,
            5 => PointerKind::Child,
            _ => return None,
        };
        Some(MapEntry {
            kind,
            parent: word_at(bytes, 1),
        })
    }
}
