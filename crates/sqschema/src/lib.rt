//! The schema of a well-formed database against its trees (fileformat2, 2.6): what its rows say of tables, indexes,
//! views and triggers, and whether that is so.
#![tactic(auto)]

mod alone;
mod check;
mod error;
mod fault;
mod first;
mod item;
mod listing;
mod names;
mod owners;
mod roots;
mod text;

pub use check::{Schema, check_schema};
pub use error::{ObjectError, ReadError, SchemaError};
pub use fault::SchemaFault;
pub use item::Item;
