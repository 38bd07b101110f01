//! The tokens of SQL's texts, as SQLite reads them.
#![tactic(auto)]

mod bytes;
mod forms;
mod keywords;
mod kinds;
mod lengths;
mod numbers;
mod pieces;
mod runs;

pub use bytes::{after, byte_at, is_blank, is_word_byte};
pub use keywords::{is_listed, is_same_word};
pub use kinds::{Form, Kind, Piece};
pub use pieces::{Reading, is_token, read, text_of, tokens};
pub use runs::up_to;
