//! The parts of a cell, where it is read alone (fileformat2, 1.6).
ghost use Rattle.std.specs.Prelude.{◌≡◌, ◌↔◌, ◌+◌, ◌<◌, ◌≤◌, ◌^◌, ℕ, Some, false, IfSome, length};
ghost use Rattle.sqpage.specs.Page.{has_payload, local_size, FourBytes, VarintAt, HasParts};
ghost use Rattle.sqpage.specs.declared.cell.Parts.{Parts};

use crate::bytes::word_at;
use sqpage::{Kind, Parts, split};
use sqval::varint;

/// How many bytes of a payload lie in its cell.
#[inline(always)]
#[tactic(auto, unfolding(sqpage::specs::Page::local_size))]
fn local_part(kind: Kind, usable: u32, payload: u64) -> u64
    requires least { 480 ≤ usable }
    requires most { usable ≤ 65536 }
    requires none { has_payload kind ≡ false → payload ≡ 0 }
    ensures local { result ≡ local_size kind usable payload }
    ensures all_at_most { result ≤ payload }
    ensures usable_at_most { result ≤ usable }
{
    // A payload of so few bytes lies whole in a page of any kind.
    if payload <= u64::from(usable) / 4 - 26 {
        return payload;
    }
    if kind.has_payload() {
        split(kind, usable, payload).0
    } else {
        0
    }
}

/// A number of four bytes from `from` on and its end, or 0 in no byte where it isn't present. None where it
/// isn't in `used`.
#[inline(always)]
fn four_bytes(present: bool, used: &[u8], from: usize) -> Option<(u32, usize)>
    requires { from < 2 ^ 32 }
    ensures found { (number to : ℕ) → (result ≡ Some (number, to)) ↔ FourBytes present used.now from to number }
    ensures short { IfSome result (λ found. found.1 ≤ from + 4) }
{
    if !present {
        return Some((0, from));
    }
    if used.len() < from + 4 {
        return None;
    }
    Some((word_at(used, from), from + 4))
}

/// A varint from `from` on and its end, or 0 in no byte where it isn't present. None where none is in `used`.
#[inline(always)]
fn varint_at(present: bool, used: &[u8], from: usize) -> Option<(u64, usize)>
    requires { from < 2 ^ 32 }
    ensures found { (number to : ℕ) → (result ≡ Some (number, to)) ↔ VarintAt present used.now from to number }
    ensures short { IfSome result (λ found. found.1 ≤ from + 9) }
{
    if !present {
        return Some((0, from));
    }
    if used.len() < from {
        return None;
    }
    match varint::read(&used[from..]) {
        Some((number, size)) => Some((number, from + size)),
        None => None,
    }
}

/// The parts of the cell that begins at `at`. None where it doesn't end in `used`, the usable part of a page.
#[inline(always)]
pub(crate) fn parts_at(kind: Kind, used: &[u8], at: usize) -> Option<Parts>
    requires least { 480 ≤ length used.now }
    requires most { length used.now ≤ 65536 }
    requires place { at < 65536 }
    ensures found { (parts : Parts) → (result ≡ Some parts) ↔ HasParts kind used.now at parts }
{
    let (child, after_child) = four_bytes(kind.is_interior(), used, at)?;
    let (payload, after_size) = varint_at(kind.has_payload(), used, after_child)?;
    let (rowid, body) = varint_at(kind.is_table(), used, after_size)?;
    let local = local_part(kind, used.len() as u32, payload);
    let (overflow, end) = four_bytes(local < payload, used, body + local as usize)?;
    if end > used.len() {
        return None;
    }
    Some(Parts {
        child,
        payload,
        rowid,
        body,
        local,
        overflow,
        end,
    })
}
