//! The engine over a write-ahead log (own; the log is that of fileformat2, 4).
//!
//! The log has a header of 32 bytes, with the page size, a sequence and two salts, and behind it frames: a head of 24
//! bytes and a page. A frame counts where it has the header's salts and its sum goes on from the one before. One whose
//! head has a size ends a commit, of a database of so many pages; what stands behind the last such frame doesn't count.
//!
//! A commit writes a frame for each of its pages behind the last one, one call each, and the size on the last of them
//! (fileformat2, 4.1). It syncs nothing. A crash leaves all commits up to one of them: none that was durable is lost,
//! and none is left in part.
//!
//! A sync makes all commits durable by a sync of the log. On a disk that tears, where the last commit isn't durable and
//! the log doesn't end at the end of a sector, a copy of the last frame is written behind it first, so that what is
//! written later tears no sector of that commit, but at most the copy.
//!
//! A read takes the last frame up to the reader's mark that names the page, or the file where none does (fileformat2,
//! 4.5). It is one call of the disk.
//!
//! A checkpoint (fileformat2, 4.3) has this order:
//!
//! 1. All commits are made durable, as by a sync.
//! 2. The pages of the database that the oldest open reader sees, or the newest where none is open, are written into
//!    the file, each from its last frame up to there, and the file's length is set.
//! 3. The file is synced. The log stays as it was: until here a crash shows by its frames what the file has in part.
//!
//! A restart (fileformat2, 4.4) is granted once a checkpoint brought all commits into the file, and no reader is open.
//! It writes a header with the next sequence and other salts over the old one, and syncs the log before any frame is
//! written. From then on the frames of before don't count, whichever of them are left.
//!
//! A fold brings a log into its file, as after a crash. The log is synced before it is read, so that what is read is
//! what a crash would leave; the pages are written as in step 2, from all committed frames, and the file is synced.
//! Then 32 zeros are written over the log's header, the log is synced, cut to no bytes, and synced again. Each step
//! leaves the same database shown, so that a fold that was cut off is called again. An opening folds the log, writes
//! the header of a new one, and syncs that before any frame is written.
//!
//! So the file is written from frames that are durable alone, and a header only once the file is durable. A call of the
//! disk that is refused closes the engine, but for a read's. All of it rests on the premise that what counts in a log
//! that is opened as a header or a frame was made as one (specs/Made.antt).
#![tactic(auto)]

mod checkpoints;
mod commits;
mod copying;
mod error;
mod faults;
mod folding;
mod frames;
mod laws;
mod logs;
mod opening;
mod paging;
mod plan;
mod reader;
mod reading;
mod restarts;
mod state;
mod syncs;
mod wal;
mod worked;

pub use error::WalError;
pub use folding::{Folded, fold, fold_synced, fold_within};
pub use laws::{
    a_base_fits, a_crash_fits, a_look_fits, one_is_shown, one_step, runs_are_sane,
    settled_files_fit, what_is_durable_stays, what_is_shown_stays,
};
pub use logs::logs_are_determined;
pub use plan::index_of;
pub use reader::Reader;
pub use wal::{Checkpointed, Refused, Wal};
pub use worked::{crashes_lose_what_is_not_durable, no_runs, readers_are_waited_for};
