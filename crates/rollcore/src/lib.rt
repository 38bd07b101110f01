//! The engine over a rollback journal (own; the journal is that of fileformat2, 3).
//!
//! Between two commits each file that a crash may leave has just the pages of the database; the journal is durable, and
//! no header begins at its front. A read is one call of the disk, for the file.
//!
//! A commit writes over pages in place. So the old contents go into the journal first: of each page that was there and
//! is now written or cut off, rising. They are cut into segments of 64 records, of which the last has the rest, and a
//! commit of none has one segment without records. For one segment after another (atomiccommit, 3.5 to 3.9):
//!
//! 1. Its records are written, behind the sector that its header is going to fill: each is a page's number, the old
//!    content, and a sum that begins with the segment's nonce.
//! 2. Where a header's magic stands behind them, left by an earlier journal, its first byte is made a zero. The journal
//!    is synced. The records are durable, and no header counts them yet.
//! 3. Its header is written, with zeros up to the end of the sector: how many records, the nonce, and the size of the
//!    old database. The journal is synced. From here on a crash leaves a hot journal, which restores these pages.
//! 4. Its pages are written into the file, unless they are cut off. The file is not synced yet.
//!
//! Then the commit ends (atomiccommit, 3.10, 3.11 and 7.6: the journal is zeroed, as with journal_mode PERSIST):
//!
//! 5. The pages above the old size are written, and the file's length is set.
//! 6. The file is synced. All of the new database is durable, and a crash still shows the old one, by the hot journal.
//! 7. 28 zeros are written over the journal's first header. From here on a crash shows the one or the other.
//! 8. The journal is synced. The new database is durable, and the commit is answered.
//!
//! A call of the disk that is refused closes the engine, but for a read's. Until step 7 all that may be left shows the
//! old database; from there on it shows the old one or the new one, and an opening answers which.
//!
//! A replay (atomiccommit, 4) syncs the journal before it reads it, so that it reads what a crash would leave. Where
//! the journal is hot, the pages of its records, up to the first size, are written into the file in order, the length
//! is set, and steps 6 to 8 follow. Each step leaves the same database shown, so that a replay that was cut off is
//! called again. An opening does the same; where the journal isn't hot but a magic stands at its front, it makes the
//! first byte a zero and syncs the journal, so that no later write makes it hot.
//!
//! On a disk that tears this rests on one premise (specs/Premises.antt): a crash puts no header together by chance.
#![tactic(auto)]

mod changes;
mod commits;
mod copying;
mod error;
mod finishing;
mod laws;
mod opening;
mod paging;
mod parts;
mod plan;
mod reading;
mod replaying;
mod roll;
mod segments;
mod state;
mod worked;

pub use error::RollError;
pub use laws::{
    a_base_fits, a_crash_fits, a_look_fits, one_is_shown, one_step, runs_are_sane,
    settled_files_fit, what_is_durable_stays, what_is_shown_stays,
};
pub use replaying::{Replayed, replay, replay_synced, replay_within};
pub use roll::{Refused, Roll, SEGMENT_RECORDS};
pub use worked::{commits_are_whole, no_runs};
