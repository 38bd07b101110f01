//! What a core holds in memory: nothing of any page (own).
ghost use Rattle.std.specs.Prelude.{◌≡◌, ◌+◌, ◌*◌, ◌≤◌, length};

use crate::changes::Change;
use sqval::PageSize;

/// The database in force, as far as an engine has to know it.
#[derive(Drop)]
pub struct Core {
    pub page_size: PageSize,
    /// Until a call of the disk is refused.
    pub is_open: bool,
    /// Pages of the newest database.
    pub size: u32,
    /// The page numbers of a commit, while it is judged.
    pub numbers: Vec<u32>,
    /// What a commit changes of the database that is there.
    pub changes: Vec<Change>,
    /// A record on its way to the journal.
    pub record: Vec<u8>,
    /// A segment's header, with zeros up to the end of its sector.
    pub header: Vec<u8>,
    ghost sized: { (512 ≤ page_size) × (page_size ≤ 65536) },
    ghost record_room: { length record.items ≡ page_size + 8 },
    ghost header_room: { 512 ≤ length header.items },
    ghost header_short: { length header.items ≤ 65536 },
    ghost few: { size * page_size ≤ 1073741824 },
}
