//! Why not all changes are printed.
ghost use Rattle.std.specs.Prelude.{◌≡◌};
ghost use Rattle.cli_show_diff.specs.internal.Stopping.{stop_of_diff, stop_of_side, unordered};

use cli_row_text::PrintError;
use cli_show_rows::Stop;
use sqdiff::{DiffError, SideError};
use sqpage::{CheckError, Fault};

/// That the rowids or keys of a table don't rise, whose root is this page. It isn't known how those of a table WITHOUT
/// ROWID are sorted whose text isn't understood, and one of which no column is known may be such a one.
fn unordered(root: u32, has_order: bool) -> Stop
    ensures { result ≡ unordered root has_order }
{
    if has_order {
        Stop::Fault(CheckError {
            page: root,
            fault: Fault::KeyOrder,
        })
    } else {
        Stop::NotUnderstood
    }
}

/// Why the rows of a table aren't read.
fn of_side(error: SideError, root: u32, has_order: bool) -> Stop
    ensures { result ≡ stop_of_side error root has_order }
{
    match error {
        SideError::Rows(error) => Stop::from(PrintError::Row(error)),
        SideError::Record(error) => Stop::Record(error),
        SideError::Unordered => unordered(root, has_order),
    }
}

/// Why the changes between two tables aren't found, whose roots are these pages.
pub(crate) fn of_diff(error: DiffError, roots: (u32, u32), has_order: bool) -> Stop
    ensures { result ≡ stop_of_diff error roots has_order }
{
    match error {
        DiffError::Old(error) => of_side(error, roots.0, has_order),
        DiffError::New(error) => of_side(error, roots.1, has_order),
    }
}
