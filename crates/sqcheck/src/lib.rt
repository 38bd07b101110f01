//! Whether a database file is well formed, and if not, where not (fileformat2, 1 and 2.6).
#![tactic(auto)]

mod chains;
mod chart;
mod checker;
mod header;
mod item;
mod maps;
mod node;
mod options;
mod pages;
mod report;
mod role;
mod schema;
mod snapshot;
mod survey;
mod survey_rows;
mod tree;
mod trunk;
mod unused;
mod uses;
mod walk;
mod walker;

pub use checker::{check, check_with, visit_pages, visit_pages_with};
pub use options::Options;
pub use report::Report;
pub use role::{Role, Visitor};
pub use survey::{Survey, survey_pages, survey_pages_with};
