//! What is asked before files are changed.
use crate::outcome::Refusal;

/// What is asked before files are changed, and told of what is read of them.
pub trait Guard: Drop {
    /// Refused where they aren't to be changed.
    fn ask(&self) -> Result<(), Refusal>;

    /// So many bytes more were asked for.
    fn has_read(&self, _bytes: u64) {}
}
