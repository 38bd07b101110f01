//! The headers of frames (fileformat2, 4.1).
ghost use Rattle.std.specs.Prelude.{◌≡◌, length};
ghost use Rattle.sqwal.specs.Frames.{IsFrameHead};

use crate::header::WalHeader;
use crate::sum::Sum;
use crate::words::put_words;

/// The header of the frame behind a log whose sum is `before`, and the sum with this frame. `size` is the database's
/// size in pages on the last frame of a commit and 0 on others; `bytes` is the page's content.
pub fn frame_head(
    header: &WalHeader,
    before: Sum,
    page: u32,
    size: u32,
    bytes: &[u8],
) -> ([u8; 24], Sum)
    requires { length bytes.now ≡ header.now.page_size }
    ensures { IsFrameHead header.now before page size bytes.now result.0 result.1 }
{
    let mut head = [0; 24];
    put_words(&mut head[..8], &[page, size]);
    let after = before
        .add(&head[..8], header.order)
        .add(&bytes[..header.page_size.get() as usize], header.order);
    let rest = [header.salt1, header.salt2, after.s0, after.s1];
    put_words(&mut head[8..], &rest);
    (head, after)
}
