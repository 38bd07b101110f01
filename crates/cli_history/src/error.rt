//! Why not all commits are printed (own).
use cli_show_rows::Stop;
use sqpast::PastError;
use thiserror::Error;

/// Why not all commits are printed. What stands before it is.
#[derive(Debug, Drop, Error)]
pub enum HistoryError {
    /// There is no view at the next commit, or at the one before it.
    #[error("{0}")]
    View(PastError),
    /// The changes of the next commit aren't printed to their end.
    #[error("{0}")]
    Stop(Stop),
}
