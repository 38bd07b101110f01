//! The front that the index of a write-ahead log names.
ghost use Rattle.cli_held.specs.Held.{FramesNamed};

use sqlocks::index_front;

/// How many frames of the log count by the first 136 bytes of its index (walformat, 2.1); none where they begin with no
/// valid header.
pub fn frames_named(index: &[u8; 136]) -> Option<u32>
    ensures { FramesNamed index.now result }
{
    match index_front(index) {
        Some(head) => Some(head.frames),
        None => None,
    }
}
