//! Marks on the bytes of a page that its cells and freeblocks take (fileformat2, 1.6; marks are own).
ghost use Rattle.std.specs.Prelude.{◌≡◌, ◌↔◌, ◌+◌, ◌-◌, ◌*◌, ◌<◌, ◌≤◌, ◌^◌, ℕ, List, false, IsTrue, IfOk, IfErr};
ghost use Rattle.std.specs.Prelude.{length, replicate, Some, None};
ghost use Rattle.sqpage.specs.Header.{half};
ghost use Rattle.sqpage.specs.Layout.{Span, IsFreeblock, AreFreeblocks};
ghost use Rattle.sqpage.specs.internal.Marking.{SetsBits, HasBit, MarksSpan, IsTouched, MarksFreeblocks};
ghost use Rattle.sqpage.specs.internal.Marking.{FreeblocksRefused};

use crate::bytes::half_at;
use crate::fault::Fault;
use std::alloc::{AllocError, Global};

/// So many words, none of whose bits is set.
pub(crate) fn words(alloc: Global, count: usize) -> Result<Vec<u64>, AllocError>
    ensures { IfOk result (λ map. length map.items ≡ count) }
{
    vec![in alloc; 0; count]
}

/// Clears each word.
pub(crate) fn clear(map: &mut [u64])
    ensures { map.new ≡ replicate (length map.old) 0 }
{
    map.fill(0);
}

/// A word whose bits from `low` up to `high` are set.
fn bits_between(low: usize, high: usize) -> u64
    requires order { low < high }
    requires most { high ≤ 64 }
    ensures { result ≡ 2 ^ high - 2 ^ low }
{
    (u64::MAX >> (64 - (high - low))) << low
}

/// Sets the bits of a word from `low` up to `high`, unless one of them is set.
fn set_bits(word: &mut u64, low: usize, high: usize) -> bool
    requires order { low < high }
    requires most { high ≤ 64 }
    ensures sets { IsTrue result → SetsBits word.old word.new low high }
    ensures has { result ≡ false → HasBit word.old low high }
{
    let bits = bits_between(low, high);
    if *word & bits != 0 {
        return false;
    }
    *word |= bits;
    true
}

/// Marks so many bytes from `at` on, unless one of them is marked: a bit for each, some of a word at once.
fn mark_bits(map: &mut [u64], at: usize, size: usize) -> bool
    requires within { at + size ≤ 64 * length map.old }
    requires fits { at + size < 2 ^ 63 }
    ensures marked { IsTrue result → MarksSpan map.old map.new (record { start = at; size = size }) }
    ensures touched { result ≡ false → IsTouched map.old (record { start = at; size = size }) }
    ensures length { length map.new ≡ length map.old }
{
    let end = at + size;
    let mut from = at;
    'words: while from < end {
        let index = from / 64;
        let to = end.min(index * 64 + 64);
        if !set_bits(&mut map[index], from % 64, to - index * 64) {
            return false;
        }
        from = to;
    }
    true
}

/// Marks all bytes of the words from `first` up to `last`, unless one of them is marked.
fn mark_words(map: &mut [u64], first: usize, last: usize) -> bool
    requires { (first ≤ last) × (last ≤ length map.old) }
    ensures marked { IsTrue result
        → MarksSpan map.old map.new (record { start = 64 * first; size = 64 * (last - first) }) }
    ensures touched { result ≡ false
        → IsTouched map.old (record { start = 64 * first; size = 64 * (last - first) }) }
    ensures length { length map.new ≡ length map.old }
{
    'words: for index in first..last {
        if map[index] != 0 {
            return false;
        }
        map[index] = u64::MAX;
    }
    true
}

/// Marks so many bytes from `at` on, unless one of them is marked.
pub(crate) fn mark(map: &mut [u64], at: usize, size: usize) -> bool
    requires within { at + size ≤ 64 * length map.old }
    requires fits { at + size < 2 ^ 63 }
    ensures marked { IsTrue result → MarksSpan map.old map.new (record { start = at; size = size }) }
    ensures touched { result ≡ false → IsTouched map.old (record { start = at; size = size }) }
    ensures length { length map.new ≡ length map.old }
{
    let end = at + size;
    let (first, last) = (at.div_ceil(64), end / 64);
    if last <= first {
        return mark_bits(map, at, size);
    }
    let (front, back) = (64 * first, 64 * last);
    if !mark_bits(map, at, front - at) {
        return false;
    }
    if !mark_words(map, first, last) {
        return false;
    }
    mark_bits(map, back, end - back)
}

/// The size of the freeblock at `at`, which is to begin at `least` or later. None where none is there.
fn freeblock_size(used: &[u8], least: usize, at: usize) -> Option<usize>
    requires { at < 65536 }
    ensures found { (size : ℕ) → (result ≡ Some size)
        ↔ IsFreeblock used.now least (record { start = at; size = size }) }
{
    if at < least || at + 4 > used.len() {
        return None;
    }
    let size = half_at(used, at + 2);
    (size >= 4 && at + size <= used.len()).then_some(size)
}

/// Marks the freeblocks of a page, of which the first begins at `first`, and none before `start`, and counts
/// their bytes. Refused by Freeblock where one stands where none can, otherwise by Overlap where they share a byte.
pub(crate) fn mark_freeblocks(
    used: &[u8],
    start: usize,
    first: usize,
    map: &mut [u64],
) -> Result<usize, Fault>
    requires small { (first < 65536) × (length used.now ≤ 65536) }
    requires room { length used.now ≤ 64 * length map.old }
    requires clear { map.old ≡ replicate (length map.old) 0 }
    ensures ok { IfOk result (λ taken. MarksFreeblocks used.now start first map.new taken) }
    ensures err { IfErr result (FreeblocksRefused used.now start first) }
    ensures length { length map.new ≡ length map.old }
{
    let mut least = start;
    let mut at = first;
    let mut apart = true;
    let mut taken = 0;
    'blocks: while at != 0 {
        let Some(size) = freeblock_size(used, least, at) else {
            return Err(Fault::Freeblock);
        };
        apart &= mark(map, at, size);
        taken += size;
        least = at + 1;
        at = half_at(used, at);
    }
    if apart {
        Ok(taken)
    } else {
        Err(Fault::Overlap)
    }
}
