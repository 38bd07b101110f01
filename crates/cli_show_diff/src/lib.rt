//! The changes of rows between two databases as they are printed: of each table exactly its changes, each once.
#![tactic(auto)]

mod both;
mod changes;
mod form;
mod frame;
mod left;
mod one;
mod pair;
mod sorted;
mod stop;
mod table;
mod table_diff;
mod turn;

pub use changes::{Selected, print_changes};
pub use form::ChangeForm;
