//! Texts in the encodings of a database, and in UTF-8 (fileformat2, 1.3.13).
#![tactic(auto)]

mod stored;
mod text;
mod utf16;

pub use stored::encoded;
pub use text::{decoded, encoding_named, has_nul_or_cr};
pub use utf16::split_char;
