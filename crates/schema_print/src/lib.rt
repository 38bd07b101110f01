//! Which texts of a schema may be in a script that sqlite3 reads, and how.
#![tactic(auto)]

mod heads;
mod names;
mod refusals;
mod spaced;

pub use heads::{Head, Object, bytes_of, head_of, is_name, is_open, is_word, table_at};
pub use names::name_of;
pub use refusals::{Printed, Row, Why};
pub use spaced::printable;
