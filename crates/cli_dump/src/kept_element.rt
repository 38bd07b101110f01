//! What commits changed, as an element of a page of HTML.
ghost use Rattle.std.specs.Prelude.{◌≡◌, OnOk};
ghost use Rattle.std.specs.Io.KnownBytes.{Appends};
ghost use Rattle.std.specs.IoError.{error_kind};
ghost use Rattle.cli_dump.specs.Elements.{begun_text, element_text, ended_text, escaped, escaped_byte, stop_word};
ghost use Rattle.cli_dump.specs.Elements.{view_word, write_word};

use crate::kept::{Ended, Kept};
use cli_history::HistoryError;
use cli_show_rows::Stop;
use cli_text::{Fact, number, write_facts};
use cli_words::Style;
use sqpast::PastError;
use sqview::ViewError;
use std::io::{self, ErrorKind, Write};

/// For why what a commit changed is left out.
const LEFT_OUT: &str = "left out";

/// That it has no room.
const FULL: &str = "more than a page holds";

/// That a later checkpoint may have changed its database.
const OVERWRITTEN: &str = "commit overwritten";

impl Kept {
    /// What is kept as an element of a page of HTML, in which no `<` of it stands. An error of the writer.
    pub fn write_element<W: Write>(&self, out: &mut W) -> io::Result<()>
        ensures { OnOk result (Appends (W.contents out.old) (W.contents out.new) (element_text self.now)) }
    {
        out.write_all(b"<script id='changes' type='text/plain'>\n")?;
        write_begun(out, self.from)?;
        write_escaped(out, &self.text)?;
        write_ended(out, &self.ended)?;
        out.write_all(b"</script>\n")
    }
}

/// That the commits before this one are left out, if there are.
pub(crate) fn write_begun<W: Write>(out: &mut W, from: u32) -> io::Result<()>
    ensures { OnOk result (Appends (W.contents out.old) (W.contents out.new) (begun_text from)) }
{
    if from == 0 {
        return Ok(());
    }
    let facts = [number("from", from), Fact::Text(LEFT_OUT, OVERWRITTEN)];
    write_facts(out, Style::Json, &facts)
}

/// A text of JSON, in which `<` stands in strings alone, with none.
fn write_escaped<W: Write>(out: &mut W, text: &[u8]) -> io::Result<()>
    ensures { OnOk result (Appends (W.contents out.old) (W.contents out.new) (escaped text.now)) }
{
    for byte in text {
        write_byte(out, *byte)?;
    }
    Ok(())
}

/// A byte of a text of JSON.
fn write_byte<W: Write>(out: &mut W, byte: u8) -> io::Result<()>
    ensures { OnOk result (Appends (W.contents out.old) (W.contents out.new) (escaped_byte byte)) }
{
    if byte == b'<' {
        out.write_all(b"\\u003c")
    } else {
        out.write_all(&[byte])
    }
}

/// Which commit is left out, if one is.
fn write_ended<W: Write>(out: &mut W, ended: &Ended) -> io::Result<()>
    ensures { OnOk result (Appends (W.contents out.old) (W.contents out.new) (ended_text ended.now)) }
{
    match ended {
        Ended::Whole => Ok(()),
        Ended::Full(frame) => {
            let facts = [number("frame", *frame), Fact::Text(LEFT_OUT, FULL)];
            write_facts(out, Style::Json, &facts)
        }
        Ended::Stopped(frame, error) => write_stopped(out, *frame, error),
    }
}

/// Which commit isn't printed, and why.
fn write_stopped<W: Write>(out: &mut W, frame: u32, error: &HistoryError) -> io::Result<()>
    ensures { OnOk result (Appends (W.contents out.old) (W.contents out.new)
        (ended_text (Ended.Stopped frame error.now))) }
{
    match error {
        HistoryError::View(error) => {
            let facts = [
                number("frame", frame),
                Fact::Text(LEFT_OUT, word_of_view(*error)),
            ];
            write_facts(out, Style::Json, &facts)
        }
        HistoryError::Stop(Stop::Fault(error)) => {
            let facts = [
                number("frame", frame),
                Fact::Text(LEFT_OUT, error.fault.name()),
                number("page", error.page),
                number("fault", error.fault.number()),
            ];
            write_facts(out, Style::Json, &facts)
        }
        HistoryError::Stop(stop) => {
            let facts = [
                number("frame", frame),
                Fact::Text(LEFT_OUT, word_of_stop(stop)),
            ];
            write_facts(out, Style::Json, &facts)
        }
    }
}

/// A word for why there is no view of a commit.
fn word_of_view(error: PastError) -> &'static str
    ensures { result.now ≡ view_word error }
{
    match error {
        PastError::Refused(ViewError::TwoLogs) => "two logs",
        PastError::Refused(ViewError::TooLarge) => "too large",
        PastError::Refused(ViewError::Header(_)) => "not a database",
        PastError::Refused(ViewError::Unread) => "file failed",
        PastError::Refused(ViewError::NoMemory) => "no memory",
        PastError::Refused(ViewError::NoSuchCommit) => "no such commit",
        PastError::CommitOverwritten => OVERWRITTEN,
    }
}

/// A word for why a text of at most so many bytes isn't written.
fn word_of_write(kind: ErrorKind) -> &'static str
    ensures { result.now ≡ write_word kind }
{
    match kind {
        ErrorKind::OutOfMemory => "no memory",
        _ => FULL,
    }
}

/// A word for why changes aren't printed.
fn word_of_stop(stop: &Stop) -> &'static str
    ensures { result.now ≡ stop_word stop.now }
{
    match stop {
        Stop::Fault(error) => error.fault.name(),
        Stop::Record(_) => "a row is no record",
        Stop::TooLong => "a row is too large",
        Stop::NotUnderstood => "columns not understood",
        Stop::Default => "default not understood",
        Stop::Behind => "more columns than the table has",
        Stop::Encoding => "text encoding",
        Stop::NotNamed => "a name with NUL or CR",
        Stop::LeftOut(_) => "texts or tables left out",
        Stop::NoSuchTable => "no such table",
        Stop::NoMemory => "no memory",
        Stop::Write(error) => word_of_write(error.kind()),
    }
}
