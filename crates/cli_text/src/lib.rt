//! What is printed of a database and its logs: lines, or a JSON object a line. No text of a file stands in one but as
//! hex, so that none needs an escape.
#![tactic(auto)]

mod behind;
mod fact;
mod header;
mod hex_lines;
mod line;
mod logs;
mod pages;
mod report;
mod report_page;
mod verdicts;
mod words;

pub use behind::{SlotKind, write_end, write_record_slot, write_slot};
pub use fact::{Fact, number, write_facts};
pub use header::{write_fields, write_header};
pub use hex_lines::{write_bytes, write_hex};
pub use logs::{write_commits, write_journal, write_log};
pub use pages::{Logged, PageLine, Unfit, write_cell, write_page, write_record, write_unfit};
pub use report::{Tree, write_journal_object, write_run, write_tree, write_wal_object};
pub use report_page::{HEAD, TAIL};
pub use verdicts::{write_fault, write_none, write_report};
pub use words::{kind_name, record_stop_name, stop_name, use_of};
