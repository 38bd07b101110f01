//! What is made of what was found: a page of HTML, a script of SQL, what changed between two commits, and what is told
//! behind rows.
#![tactic(auto)]

mod difference;
mod diffs;
mod overwritten;
mod pages;
mod reports;
mod rows;
mod salvages;

pub use difference::Difference;
pub use diffs::print_diff;
pub use overwritten::tell_overwritten;
pub use pages::Template;
pub use reports::{VERSION, report_to, write_report};
pub use rows::{KEPT, write_printed};
pub use salvages::salvage_to;
