//! What `show --pages` prints.
ghost use Rattle.std.specs.Prelude.{◌≡◌, IfOk, Ok};
ghost use Rattle.cli_show.specs.Found.{fault_in};
ghost use Rattle.cli_job.specs.Answers.{Tells, answer_of_fault};

use cli_facts::Refusal;
use cli_job::Answer;
use cli_show::{Found, ShowError, write_pages, write_verdict};
use cli_words::Style;
use sqview::FileBytes;
use std::alloc::Global;
use std::io::{self, BufWriter, Write};

/// How many bytes of lines are written at once.
const PIECE: usize = 65_536;

/// Prints what each page of a database file is used for, and what `check` prints.
pub(crate) fn write_surveyed<F: FileBytes, O: Write>(
    alloc: Global,
    style: Style,
    found: &Found<F>,
    out: &mut O,
) -> Result<Answer, ShowError>
    ensures { Tells (Ok (answer_of_fault (fault_in found.now))) result }
{
    match BufWriter::with_capacity(alloc, PIECE, out) {
        Ok(mut lines) => Ok(write_lines(style, found, &mut lines)?),
        Err(_) => Err(ShowError::Refused(Refusal::NoMemory)),
    }
}

/// The same, to a writer that keeps lines back.
fn write_lines<F: FileBytes, W: Write>(
    style: Style,
    found: &Found<F>,
    lines: &mut W,
) -> io::Result<Answer>
    ensures { IfOk result (λ answer. answer ≡ answer_of_fault (fault_in found.now)) }
{
    if let Found::Pages(found) = found {
        write_pages(lines, style, found)?;
    }
    let is_well_formed = write_verdict(lines, style, found)?;
    lines.flush()?;
    Ok(Answer::of(!is_well_formed))
}
