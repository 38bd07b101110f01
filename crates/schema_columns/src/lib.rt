//! The meaning of a table's clauses: its columns and their types, its keys, the rowid's alias, and its options.
#![tactic(auto)]

mod columns;
mod keys;
mod types;

pub use columns::{
    Column, columns_of, is_stored, is_strict, is_without_rowid, written_default, written_type,
};
pub use keys::{Key, Term, integer_key, keys_of, name_at, primary_terms, rowid_of, terms_of};
pub use types::{Affinity, STANDARD, Type, affinity_in, type_of};
