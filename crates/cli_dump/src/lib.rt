//! The rows of a database as its log has them, over the bytes of files, wherever they come from.
#![tactic(auto)]

mod begin;
mod changes;
mod commits;
mod deleted;
mod deleted_changes;
mod kept;
mod kept_element;
mod kept_page;
mod overwritten;
mod places;
mod rows;
mod salvage;

pub use begin::{first_commit, write_first};
pub use changes::show_changes;
pub use commits::show_history;
pub use deleted::show_deleted;
pub use deleted_changes::show_deleted_changes;
pub use kept::{Ended, Kept, keep_history};
pub use kept_page::{CHANGES_HEAD, CHANGES_TAIL};
pub use overwritten::{Overwritten, overwritten_at};
pub use places::show_places;
pub use rows::{Printed, Wanted, show_rows};
pub use salvage::{Salvaged, show_salvage};
