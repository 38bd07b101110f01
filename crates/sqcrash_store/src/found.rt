//! What is found of an image (own).
use crate::crash::Crash;
use crate::verdict::Verdict;
use rig_store::Difference;

/// What is found of an image.
#[derive(Debug, Drop, PartialEq, Eq)]
pub struct Found {
    /// Where the crash came that left it.
    pub crash: Crash,
    /// Its number at that point, counted from 0.
    pub number: u64,
    pub verdict: Verdict,
    /// The first line that the command wrote.
    pub line: String,
    /// In what the names show other things than they would without the crash.
    pub differences: Vec<Difference>,
}
