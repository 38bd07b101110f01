//! What a core holds in memory: nothing of any page, but where each page's frames are (own).
ghost use Rattle.std.specs.Prelude.{◌≡◌, ◌+◌, ◌*◌, ◌≤◌, cond, length};

use sqval::PageSize;
use sqwal::{FrameIndex, Sum, WalHeader};

/// The log in force, as far as an engine has to know it.
#[derive(Drop)]
pub struct Core {
    pub page_size: PageSize,
    /// Until a call of the disk is refused.
    pub is_open: bool,
    /// The database file has all that the log has.
    pub drained: bool,
    /// The header in force, and the sum of the log behind its last frame.
    pub header: WalHeader,
    pub sum: Sum,
    /// Frames of the log, and the one that ends the last commit (a copy may stand behind it).
    pub frames: u32,
    pub mark: u32,
    /// The page that the last frame names, 0 with no frames.
    pub last_page: u32,
    /// Pages of the newest database.
    pub size: u32,
    /// Pages committed since the last opening or restart.
    pub used: u32,
    /// There was a commit since the last opening, restart, sync or checkpoint.
    pub unsynced: bool,
    /// The frames by their pages, with room for one more where there is a commit that isn't synced.
    pub index: FrameIndex,
    /// The marks of the open readers.
    pub marks: Vec<u32>,
    /// The page numbers of a commit, while it is judged.
    pub numbers: Vec<u32>,
    /// A frame on its way to the log or from it.
    pub frame: Vec<u8>,
    ghost counted: { length index.pages ≡ frames },
    ghost room: { frames + cond unsynced 1 0 ≤ index.room },
    ghost few: { frames + cond unsynced 1 0 ≤ 2 * used },
    ghost most: { used ≤ 1048576 },
    ghost bound: { last_page ≤ index.bound },
    ghost framed: { length frame.items ≡ 24 + page_size },
    ghost headed: { header.page_size ≡ page_size },
}
