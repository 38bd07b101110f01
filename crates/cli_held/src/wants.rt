//! Which locks a request is carried out under.
ghost use Rattle.std.specs.Prelude.{◌≡◌, MatchOption};
ghost use Rattle.cli_held.specs.Wants.{Wants, WantsNone};

use cli_words::Request;
use sqlocks::Want;

/// What a request wants locks for, and the database file that it is of: a recovery in place those of a recovery, all
/// else a reader's. None for the version, and where a recovery is forced.
pub fn wanted<'a>(request: &Request<'a>) -> Option<(Want, &'a str)>
    ensures { MatchOption result (WantsNone request.now) (λ found. Wants request.now found.0 found.1) }
{
    match request {
        Request::Show { file, .. }
        | Request::Check { file, .. }
        | Request::Rows { file, .. }
        | Request::Cells { file, .. }
        | Request::Diff { file, .. }
        | Request::DeletedDiff { file, .. }
        | Request::Report { file, .. }
        | Request::Salvage { file, .. } => Some((Want::Read, *file)),
        Request::Recover {
            file,
            to: Some(_),
            ..
        } => Some((Want::Read, *file)),
        Request::Recover {
            file,
            to: None,
            force: false,
            ..
        } => Some((Want::Recover, *file)),
        Request::Recover {
            to: None,
            force: true,
            ..
        }
        | Request::Version => None,
    }
}
