//! The words of sqrescue's command line, as clap reads them.
#![tactic(auto)]

mod arguments;
mod commands;
mod texts;
mod words;

pub use words::{LineError, request};
