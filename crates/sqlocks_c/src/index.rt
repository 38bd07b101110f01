//! Whether an index names a front of a log.
ghost use Rattle.std.specs.Prelude.{◌≡◌, IsTrue};
ghost use Rattle.sqlocks_c.specs.Fronts.{IsPlace, PlaceOf, Counts, NamesFront};
ghost use Rattle.sqlocks_c.specs.internal.Heads.{HeadAnswer};

use sqlocks::{IndexHead, index_front, names_front};

/// Where the last frame that counts by an index begins in its log, in bytes: 0 where none counts.
fn place_of(head: &IndexHead) -> u64
    ensures { IsPlace head.now result }
{
    if head.frames == 0 {
        return 0;
    }
    32 + u64::from(head.frames - 1) * (24 + u64::from(head.page_size.get()))
}

/// What the first 136 bytes of FILE-shm say; none where there are fewer.
fn head_of(index: &[u8]) -> Option<IndexHead>
    ensures { HeadAnswer index.now result }
{
    match index.first_chunk::<136>() {
        Some(head) => index_front(head),
        None => None,
    }
}

/// Where the last frame that counts by the first 136 bytes of FILE-shm begins in FILE-wal, in bytes; 0 where none
/// counts, or where they are no valid header.
#[unsafe(no_mangle)]
pub extern "C" fn sqr_index_place(index: &[u8]) -> u64
    ensures { PlaceOf index.now result }
{
    match head_of(index) {
        Some(head) => place_of(&head),
        None => 0,
    }
}

/// Whether the frames that count by an index are in a log with this header, and this frame.
fn counts(head: &IndexHead, header: &[u8], frame: &[u8]) -> bool
    ensures { IsTrue result → Counts head.now header.now frame.now }
{
    if head.frames == 0 {
        return true;
    }
    let Some(header) = header.first_chunk::<32>() else {
        return false;
    };
    match frame.first_chunk::<24>() {
        Some(frame) => names_front(head, header, frame),
        None => false,
    }
}

/// 1 where the first 136 bytes of FILE-shm name a front of FILE-wal: no frame, or a last frame that is in the log,
/// which begins with this header, of 32 bytes, and has these 24 bytes at the place that `sqr_index_place` names;
/// otherwise 0.
#[unsafe(no_mangle)]
pub extern "C" fn sqr_index_names(index: &[u8], header: &[u8], frame: &[u8]) -> u32
    ensures { result ≡ 1 → NamesFront index.now header.now frame.now }
{
    match head_of(index) {
        Some(head) if counts(&head, header, frame) => 1,
        _ => 0,
    }
}
