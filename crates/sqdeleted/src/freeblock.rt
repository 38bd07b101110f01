//! The freeblocks of a page (fileformat2, 1.6).
ghost use Rattle.std.specs.Prelude.{◌≡◌, ◌↔◌, ◌<◌, ℕ, Some};
ghost use Rattle.sqpage.specs.Layout.{Span, IsFreeblock};

use crate::bytes::half_at;

/// The size of the freeblock at `at`, which is to begin at `least` or later. None where none is there.
pub(crate) fn freeblock_size(used: &[u8], least: usize, at: usize) -> Option<usize>
    requires { at < 65536 }
    ensures found { (size : ℕ) → (result ≡ Some size)
        ↔ IsFreeblock used.now least (record { start = at; size = size }) }
{
    if at < least || at + 4 > used.len() {
        return None;
    }
    let size = half_at(used, at + 2);
    (size >= 4 && at + size <= used.len()).then_some(size)
}
