//! Why not all rows are printed.
ghost use Rattle.std.specs.Prelude.{◌≡◌, IsTrue};
ghost use Rattle.cli_show_rows.specs.declared.stop.Stop.TheVariants.{NoMemory, Write};
ghost use Rattle.cli_show_rows.specs.Stops.{IsEnded, IsFailingWritten, IsWriteError};
ghost use Rattle.cli_show_rows.specs.internal.Stopping.{stop_of_row, stop_of_print, stop_of_list};

use cli_row_text::PrintError;
use sqpage::CheckError;
use sqrows::{PayloadError, RowsError};
use sqtables::ListError;
use sqval::RecordError;
use std::alloc::AllocError;
use std::io::{self, Write};
use thiserror::Error;

/// Why not all is printed. What stands before it is.
#[derive(Debug, Drop, Error)]
pub enum Stop {
    /// The tree of a table isn't sound, a page could not be read, or memory ran out.
    #[error("{0}")]
    Fault(CheckError),
    /// A row is no record.
    #[error("a row is unsound: {0}")]
    Record(RecordError),
    /// A row has more than 1 GiB.
    #[error("a row is above 1,073,741,824 bytes")]
    TooLong,
    /// The text of a table that is to be written as SQL isn't understood.
    #[error("columns not understood")]
    NotUnderstood,
    /// A row doesn't store a column whose default isn't a literal that is understood.
    #[error("default not understood")]
    Default,
    /// A row that is to be written as SQL stores more columns than its table has.
    #[error("more columns than the table has")]
    Behind,
    /// The encoding of the database's texts isn't known.
    #[error("text encoding not understood")]
    Encoding,
    /// No statement of a script can have the table's name.
    #[error("a name with NUL or CR")]
    NotNamed,
    /// A script leaves out so many texts and tables, each behind a comment that says why.
    #[error("{0} texts and tables left out")]
    LeftOut(usize),
    /// No table has the name.
    #[error("no such table")]
    NoSuchTable,
    /// No memory.
    #[error("no memory")]
    NoMemory,
    /// A line could not be written.
    #[error("{0}")]
    Write(io::Error),
}

/// Whether the writer failed.
fn is_unwritten(stop: &Stop) -> bool
    ensures { IsTrue result → IsWriteError stop.now }
{
    matches!(stop, Stop::Write(_))
}

/// Ends a script that had to stop with a statement that fails: loading it isn't green. Writes nothing if the writer had
/// failed. Gives why it stopped, or that the writer fails now.
pub fn stopped_script<W: Write>(out: &mut W, stop: Stop) -> Stop
    ensures { IsEnded IsFailingWritten stop result (W.contents out.old) (W.contents out.new) }
{
    if is_unwritten(&stop) {
        return stop;
    }
    match out.write_all(b"SELECT sqrescue_stopped();\n") {
        Ok(()) => stop,
        Err(error) => Stop::Write(error),
    }
}

/// Why a row isn't read.
fn of_row(error: RowsError) -> Stop
    ensures { result ≡ stop_of_row error }
{
    match error {
        RowsError::Tree(fault) => Stop::Fault(fault),
        RowsError::Payload(PayloadError::Chain(fault)) => Stop::Fault(fault),
        RowsError::Payload(PayloadError::TooLong) => Stop::TooLong,
    }
}

impl From<PrintError> for Stop {
    ghost from_gives = { λ error stop. stop ≡ stop_of_print error };

    fn from(error: PrintError) -> Stop {
        match error {
            PrintError::Tree(fault) => Stop::Fault(fault),
            PrintError::Row(error) => of_row(error),
            PrintError::Record(error) => Stop::Record(error),
            PrintError::NoMemory => Stop::NoMemory,
            PrintError::Default => Stop::Default,
            PrintError::Behind => Stop::Behind,
            PrintError::Write(error) => Stop::Write(error),
        }
    }
}

impl From<ListError> for Stop {
    ghost from_gives = { λ error stop. stop ≡ stop_of_list error };

    fn from(error: ListError) -> Stop {
        match error {
            ListError::Tree(fault) => Stop::Fault(fault),
            ListError::Row(error) => of_row(error),
            ListError::Record(error) => Stop::Record(error),
            ListError::NoMemory => Stop::NoMemory,
        }
    }
}

impl From<AllocError> for Stop {
    ghost from_gives = { λ _ stop. stop ≡ NoMemory };

    fn from(_error: AllocError) -> Stop {
        Stop::NoMemory
    }
}

impl From<io::Error> for Stop {
    ghost from_gives = { λ error stop. stop ≡ Write error };

    fn from(error: io::Error) -> Stop {
        Stop::Write(error)
    }
}
