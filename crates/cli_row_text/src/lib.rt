//! Rows as lines: objects of JSON, comma-separated values, or INSERTs of SQL.
#![tactic(auto)]

mod form;
mod heading;
mod insert;
mod line;
mod print;
mod value;

pub use form::{Form, Notation};
pub use heading::write_heading;
pub use insert::write_insert;
pub use line::{write_line, write_values};
pub use print::{PrintError, Style, print_rows};
pub use value::{write_between, write_integer, write_string, write_value};
