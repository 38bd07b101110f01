//! Write-ahead logs (fileformat2, 4): their sums, headers and frames, the scan of a log in any pieces, and its frames
//! by page.
#![tactic(auto)]

mod commits;
mod error;
mod frame;
mod header;
mod index;
mod leap;
mod scan;
mod slots;
mod sum;
mod words;

pub use error::WalFormatError;
pub use frame::frame_head;
pub use header::WalHeader;
pub use index::{FrameIndex, Hit};
pub use scan::{Entry, Front, Scan, Stop, Why};
pub use slots::Slot;
pub use sum::{Order, Sum};
