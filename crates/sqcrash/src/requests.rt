//! What a command line asks for, or why it asks for nothing.
use crate::plan::Plan;
use thiserror::Error;

/// What is asked for.
#[derive(Clone, Copy, Debug, PartialEq, Eq)]
pub struct Request<'a> {
    /// The path of the trace.
    pub trace: &'a str,
    /// How it is to be judged.
    pub plan: Plan,
    /// The folder in which images are kept that are found wrong.
    pub keep: Option<&'a str>,
    /// Whether it is told how long it took.
    pub time: bool,
}

/// Why a line asks for nothing.
#[derive(Debug, Drop, Error)]
pub enum LineError {
    /// The words aren't understood; the text says which.
    #[error("{0}")]
    NotUnderstood(clap::Error),
    /// They ask for help, which the text is.
    #[error("{0}")]
    Help(clap::Error),
    /// They ask for the version, which the text is.
    #[error("sqcrash 0.1.0")]
    Version,
    /// No memory to read them.
    #[error("no memory")]
    NoMemory,
}
