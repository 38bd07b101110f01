//! A cursor over the deleted cells of a page (own).
ghost use Rattle.std.specs.Prelude.{◌<◌, ◌≤◌, length};

/// Goes over the deleted cells of a page, from its front to its end: those between the pointers and the content, and
/// those in its freeblocks. It borrows the page and holds nothing else of it.
#[derive(Debug, Drop)]
pub struct DeletedCells<'a> {
    pub(crate) used: &'a [u8],
    pub(crate) number: u32,
    /// The place that it looks at next.
    pub(crate) at: usize,
    /// Where the gap ends that it is in.
    pub(crate) to: usize,
    /// Where the next freeblock begins, if that is `least` or later and it is sound.
    pub(crate) next: usize,
    pub(crate) least: usize,
    ghost enough: { 480 ≤ length used.now },
    ghost most: { length used.now ≤ 65536 },
    ghost within: { to ≤ length used.now },
    ghost apart: { to ≤ least },
    ghost named: { next < 65536 },
}
