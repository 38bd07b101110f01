//! How much of a write-ahead log counts by its index, FILE-shm (walformat, 2.1).
ghost use Rattle.std.specs.Prelude.{◌≡◌, List};
ghost use Rattle.sqrescue_c.specs.Indexes.{IsEnd, EndOf};
ghost use Rattle.sqrescue_c.specs.internal.Indexes.{HeadAnswer};

use sqlocks::{IndexHead, index_front};

/// Where the frames that count by an index end in its log, in bytes: 0 where none counts.
fn end_of(head: &IndexHead) -> u64
    ensures { IsEnd head.now result }
{
    if head.frames == 0 {
        return 0;
    }
    32 + u64::from(head.frames) * (24 + u64::from(head.page_size.get()))
}

/// What the first 136 bytes of FILE-shm say; none where there are fewer.
fn head_of(index: &[u8]) -> Option<IndexHead>
    ensures { HeadAnswer index.now result }
{
    match index.first_chunk::<136>() {
        Some(head) => index_front(head),
        None => None,
    }
}

/// How many bytes of FILE-wal count by the first 136 bytes of FILE-shm: those up to the end of the last frame that
/// counts; 0 where none counts, or where they are no valid header.
#[unsafe(no_mangle)]
pub extern "C" fn sqr_index_end(index: &[u8]) -> u64
    ensures { EndOf index.now result }
{
    match head_of(index) {
        Some(head) => end_of(&head),
        None => 0,
    }
}
