//! What the words of sqrescue's command line ask for.
#![tactic(auto)]

mod requests;
mod tables;
mod words;

pub use requests::{
    Between, Cells, ChangeForm, Commit, Compared, Deep, Options, Part, Request, RowForm, Style,
    SuperJournal,
};
pub use tables::Tables;
pub use words::{asked, asks_complete, asks_version};
