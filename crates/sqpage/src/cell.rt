//! The cells of b-tree pages (fileformat2, 1.6).
ghost use Rattle.std.specs.Prelude.{◌≡◌, ◌↔◌, ◌+◌, ◌<◌, ◌≤◌, ◌^◌, ℕ, Some, IsTrue, IfSome, length};
ghost use Rattle.sqpage.specs.Page.{has_payload, local_size, FourBytes, VarintAt, HasParts};
ghost use Rattle.sqpage.specs.declared.cell.Parts.{Parts};

use crate::bytes::word_at;
use crate::kind::Kind;
use sqval::varint;

/// How many bytes of a payload lie in its cell.
#[inline(always)]
#[tactic(auto, unfolding(crate::specs::Page::local_size))]
fn local_part(kind: Kind, usable: u64, payload: u64) -> u64
    requires least { 480 ≤ usable }
    requires most { usable ≤ 65536 }
    ensures local { result ≡ local_size kind usable payload }
    ensures all_at_most { result ≤ payload }
    ensures usable_at_most { result ≤ usable }
{
    let most_on_index_pages = (usable - 12) * 64 / 255 - 23;
    let most = match kind {
        Kind::TableLeaf => usable - 35,
        Kind::TableInterior | Kind::IndexLeaf | Kind::IndexInterior => most_on_index_pages,
    };
    if payload <= most {
        return payload;
    }
    let least = (usable - 12) * 32 / 255 - 23;
    let even = least + (payload - least) % (usable - 4);
    if even <= most { even } else { least }
}

/// How many bytes of a payload lie in its cell, and how many in overflow pages, where a page has so many
/// usable bytes, at least 480 (fileformat2, 1.6, on the maximum local payload).
pub fn split(kind: Kind, usable: u32, payload: u64) -> (u64, u64)
    requires least { 480 ≤ usable }
    requires most { usable ≤ 65536 }
    requires payload { IsTrue (has_payload kind) }
    ensures local { result.0 ≡ local_size kind usable payload }
    ensures rest { result.0 + result.1 ≡ payload }
{
    let local = local_part(kind, u64::from(usable), payload);
    (local, payload - local)
}

/// A cell of a b-tree page. Where its kind has no such part there are None, no bytes and 0.
#[derive(Clone, Copy, Debug)]
pub struct Cell<'a> {
    /// The number of its page.
    pub page: u32,
    /// How many bytes of its page are usable.
    pub usable: u32,
    /// Where it begins in the page.
    pub at: usize,
    /// The left child.
    pub child: Option<u32>,
    /// The rowid, which is a table's key.
    pub rowid: Option<i64>,
    /// The size of the whole payload in bytes.
    pub payload: Option<u64>,
    /// What of the payload lies in the page.
    pub local: &'a [u8],
    /// The first overflow page, or 0.
    pub overflow: u32,
}

/// The parts of a cell, in numbers. Those that its kind doesn't have are 0.
#[derive(Clone, Copy, Debug)]
pub struct Parts {
    /// The left child.
    pub child: u32,
    /// The size of the whole payload in bytes.
    pub payload: u64,
    /// The rowid as it stands there, without a sign.
    pub rowid: u64,
    /// Where in the page the local payload begins.
    pub body: usize,
    /// How many bytes of the payload are local.
    pub local: u64,
    /// The first overflow page.
    pub overflow: u32,
    /// Where in the page the cell ends.
    pub end: usize,
}

impl Parts {
    /// Those of no cell, for room that is to be filled.
    pub const NONE: Parts = Parts {
        child: 0,
        payload: 0,
        rowid: 0,
        body: 0,
        local: 0,
        overflow: 0,
        end: 0,
    };
}

/// A number of four bytes from `from` on and its end, or 0 in no byte where it isn't present. None where it
/// isn't in `used`.
#[inline(always)]
fn four_bytes(present: bool, used: &[u8], from: usize) -> Option<(u32, usize)>
    requires { from < 2 ^ 32 }
    ensures found { (number to : ℕ) → (result ≡ Some (number, to)) ↔ FourBytes present used.now from to number }
    ensures short { IfSome result (λ found. found.1 ≤ from + 4) }
{
    if !present {
        return Some((0, from));
    }
    if used.len() < from + 4 {
        return None;
    }
    Some((word_at(used, from), from + 4))
}

/// A varint from `from` on and its end, or 0 in no byte where it isn't present. None where none is in `used`.
#[inline(always)]
fn varint_at(present: bool, used: &[u8], from: usize) -> Option<(u64, usize)>
    requires { from < 2 ^ 32 }
    ensures found { (number to : ℕ) → (result ≡ Some (number, to)) ↔ VarintAt present used.now from to number }
    ensures short { IfSome result (λ found. found.1 ≤ from + 9) }
{
    if !present {
        return Some((0, from));
    }
    if used.len() < from {
        return None;
    }
    match varint::read(&used[from..]) {
        Some((number, size)) => Some((number, from + size)),
        None => None,
    }
}

/// The parts of the cell that begins at `at`. None where it doesn't end in `used`, the usable part of a page.
#[inline(always)]
pub(crate) fn parts_at(kind: Kind, used: &[u8], at: usize) -> Option<Parts>
    requires least { 480 ≤ length used.now }
    requires most { length used.now ≤ 65536 }
    requires place { at < 65536 }
    ensures found { (parts : Parts) → (result ≡ Some parts) ↔ HasParts kind used.now at parts }
{
    let (child, after_child) = four_bytes(kind.is_interior(), used, at)?;
    let (payload, after_size) = varint_at(kind.has_payload(), used, after_child)?;
    let (rowid, body) = varint_at(kind.is_table(), used, after_size)?;
    let local = local_part(kind, used.len() as u64, payload);
    let (overflow, end) = four_bytes(local < payload, used, body + local as usize)?;
    if end > used.len() {
        return None;
    }
    Some(Parts {
        child,
        payload,
        rowid,
        body,
        local,
        overflow,
        end,
    })
}
