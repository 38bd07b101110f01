//! What `rows` prints behind the rows.
ghost use Rattle.std.specs.Prelude.{◌≡◌, Err};
ghost use Rattle.std.specs.IoError.{error_kind};
ghost use Rattle.cli_job.specs.Answers.{Tells, answer_of_rows, answer_of_unsound, error_of_write};

use cli_facts::{Notes, Refusal};
use cli_job::{Answer, Untold};
use cli_show::ShowError;
use cli_show_rows::Stop;
use cli_text::write_fault;
use cli_words::Style;
use sqpage::{CheckError, Fault};
use std::io::{self, ErrorKind, Write};

/// How many bytes of lines are kept back, so that nothing is printed of files that changed: as many as a header and
/// what a page itself holds come to.
pub const KEPT: usize = 1 << 19;

/// Writes what stopped rows, behind those that were printed before.
pub fn write_printed<W: Write, E: Write>(
    out: &mut W,
    style: Style,
    ended: Result<(), Stop>,
    notes: &mut Notes<'_, E>,
) -> Result<Answer, ShowError>
    ensures { Tells (answer_of_rows ended) result }
{
    match ended {
        Ok(()) => {
            out.flush()?;
            Ok(Answer::Done)
        }
        Err(stop) => {
            tell_stop(out, style, &stop, notes)?;
            out.flush()?;
            answer_of(&stop)
        }
    }
}

/// What comes of rows that were stopped so.
fn answer_of(stop: &Stop) -> Result<Answer, ShowError>
    ensures { result ≡ answer_of_rows (Err stop.now) }
{
    match stop {
        Stop::Fault(error) => answer_of_unsound(error.fault),
        Stop::Record(_) | Stop::LeftOut(_) => Ok(Answer::Damaged),
        Stop::TooLong => Err(ShowError::Refused(Refusal::TooLarge)),
        Stop::NoMemory => Err(ShowError::Refused(Refusal::NoMemory)),
        Stop::Write(error) => Err(unwritten(error)),
        Stop::NoSuchTable => Ok(Answer::Refused(Untold::NoSuchTable)),
        Stop::NotUnderstood | Stop::Default | Stop::Behind | Stop::Encoding | Stop::NotNamed => Ok(
            Answer::Refused(Untold::NotUnderstood),
        ),
    }
}

/// What comes of a page's fault: it is damage, unless the page couldn't be read, or memory ran out.
fn answer_of_unsound(fault: Fault) -> Result<Answer, ShowError>
    ensures { result ≡ answer_of_unsound fault }
{
    match fault {
        Fault::Source => Err(ShowError::Refused(Refusal::FileFailed)),
        Fault::NoMemory => Err(ShowError::Refused(Refusal::NoMemory)),
        _ => Ok(Answer::Damaged),
    }
}

/// Why rows are refused that weren't written.
fn unwritten(error: &io::Error) -> ShowError
    ensures { result ≡ error_of_write (error_kind error.now) }
{
    match error.kind() {
        ErrorKind::OutOfMemory => ShowError::Refused(Refusal::NoMemory),
        _ => ShowError::Unwritten,
    }
}

/// Tells what stopped rows, unless a refusal does.
fn tell_stop<W: Write, E: Write>(
    out: &mut W,
    style: Style,
    stop: &Stop,
    notes: &Notes<'_, E>,
) -> io::Result<()> {
    match stop {
        Stop::Fault(error) => return tell_fault(out, style, error, notes),
        Stop::Record(error) => notes.say(&format_args!("a row is no record: {error}")),
        Stop::NoSuchTable | Stop::TooLong | Stop::NoMemory | Stop::Write(_) => {}
        stop => notes.say(&format_args!("{stop}")),
    }
    Ok(())
}

/// Tells a fault, unless it is that a page couldn't be read, or that memory ran out.
fn tell_fault<W: Write, E: Write>(
    out: &mut W,
    style: Style,
    error: &CheckError,
    notes: &Notes<'_, E>,
) -> io::Result<()> {
    if matches!(error.fault, Fault::Source | Fault::NoMemory) {
        return Ok(());
    }
    if style == Style::Json {
        return write_fault(out, style, error);
    }
    let (page, fault, name) = (error.page, error.fault.number(), error.fault.name());
    notes.say(&format_args!("page {page}: fault {fault} {name}"));
    Ok(())
}
