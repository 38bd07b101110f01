//! The places of records, whether a valid record stands there or not (own).
ghost use Rattle.std.specs.Prelude.{IsTrue, ◌↔◌};
ghost use Rattle.sqjournal.specs.Slots.{IsZeroed};

use crate::header::{HEADER_LEN, word_at};
use crate::nonce::page_sum;
use sqval::PageSize;

/// What stands at the place of a record, whether it is one that counts or not.
#[derive(Clone, Copy, Debug, PartialEq, Eq)]
pub struct RecordSlot {
    /// The page that it names.
    pub page: u32,
    /// The one nonce that its sum follows from: a record that was written under another header has that header's.
    pub nonce: u32,
}

impl RecordSlot {
    ghost use Rattle.sqjournal.specs.Slots.{RecordSlotAnswer};

    /// Reads the bytes of a record. None where they aren't a page and 8.
    pub fn read(page_size: PageSize, bytes: &[u8]) -> Option<RecordSlot>
        ensures { RecordSlotAnswer page_size bytes.now result }
    {
        let size = page_size.get() as usize;
        if bytes.len() != size + 8 {
            return None;
        }
        let over = page_sum(0, &bytes[4..size + 4]);
        Some(RecordSlot {
            page: word_at(bytes, 0),
            nonce: word_at(bytes, size + 4).wrapping_sub(over),
        })
    }
}

/// Whether a first header was overwritten with zeros, as SQLite leaves it after a commit under `journal_mode=PERSIST`.
pub fn is_zeroed(head: &[u8; 28]) -> bool
    ensures { IsTrue result ↔ IsZeroed head.now }
{
    *head == [0; HEADER_LEN]
}
