//! What of a database and its logs is shown, over the bytes of files, wherever they come from: a header, a page with
//! its cells, what each page is used for, a log, its commits, and what stands behind its stop.
#![tactic(auto)]

mod behind;
mod cells;
mod commits;
mod contents;
mod error;
mod generations;
mod held;
mod limits;
mod logs;
mod names;
mod payloads;
mod records;
mod report;
mod surveys;
mod views;

pub use cells::{read_page, show_header, show_page, usable_size};
pub use commits::show_commits;
pub use contents::{Contents, read_ahead};
pub use error::ShowError;
pub use limits::{asked_of, limits_of};
pub use logs::{LogFound, log_of, replayed, scanned, show_log, show_whole_log};
pub use names::Names;
pub use records::Records;
pub use report::{ReportFacts, facts_of, write_report_facts};
pub use surveys::{Found, Surveyed, survey_files, write_pages, write_verdict};
pub use views::{Asked, Finding, Used, judged, used_view_of, view_of, whole_view_of};
