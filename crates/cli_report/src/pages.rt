//! A page of HTML as it is written, and a file that has it whole or isn't there.
ghost use Rattle.std.specs.Prelude.{◌≡◌, [], IfErr, OnOk, Some};
ghost use Rattle.std.specs.Io.Buffered.{writer_buffer, writer_contents, writer_inner};
ghost use Rattle.std.specs.Io.KnownBytes.{Appends, Keeps};
ghost use Rattle.cli_files.specs.Refusals.{IsFromSystem, IsFromWatch};
ghost use Rattle.cli_report.specs.Pages.{changes_text};
ghost use Rattle.cli_report.specs.internal.Pages.{AppendsPage, HasPage};

use cli_dump::Kept;
use cli_facts::{NoteWriter, Notes, Refusal, SystemFile};
use cli_files::{NewFile, discard_file, end_file, told};
use cli_show::{ReportFacts, write_report_facts};
use sqview::FileBytes;
use std::alloc::Global;
use std::io::{self, BufWriter, Write};
use std::rt::Files;

/// How many bytes are written at once.
pub(crate) const WRITTEN: usize = 65_536;

/// What a page shows: the facts, and the changes of each commit where they are asked for.
#[derive(Drop)]
pub(crate) struct Shown<F> {
    pub facts: ReportFacts<F>,
    pub changes: Option<Kept>,
}

/// What is the same in each page.
#[derive(Clone, Copy)]
pub struct Template<'a> {
    /// The program and its version.
    pub version: &'a str,
    /// What stands before the facts, and what ends the page.
    pub head: &'a str,
    pub tail: &'a str,
    /// What stands before the changes, where there are some, and behind them.
    pub changes_head: &'a str,
    pub changes_tail: &'a str,
}

/// A file that gets its name once all of it is there.
pub(crate) trait Whole: Write {
    /// Its bytes are durable under the name by which it is made.
    ghost is_synced: { Self → Type 0 };

    /// It has its own name.
    ghost is_named: { Self → Type 0 };

    /// Makes its bytes durable.
    fn sync(&mut self) -> io::Result<()>
        ensures synced { OnOk result (is_synced self.new) }
        ensures same { OnOk result (Keeps (Self.contents self.old) (Self.contents self.new)) };

    /// Gives it its name.
    fn name<E: Write>(self, notes: &mut Notes<'_, E>) -> Result<(), Refusal>
        requires { is_synced self }
        ensures named { OnOk result (is_named self) }
        ensures refused { IfErr result IsFromWatch };

    /// Removes it, for this error, which is told.
    fn discard<E: Write>(self, error: io::Error, notes: &mut Notes<'_, E>) -> Refusal
        ensures { IsFromSystem result };
}

/// A file that is made for a page.
pub(crate) struct Page<'a, R: Files> {
    pub rt: &'a R,
    pub made: NewFile<'a, R::File>,
}

/// One that doesn't get its name is removed.
impl<R: Files> Drop for Page<'_, R> {
    fn drop(self) {
        let Page { rt, made } = self;
        let nowhere = NoteWriter::new(io::sink());
        discard_file(rt, made, &mut Notes::new(&nowhere, false, false));
    }
}

impl<R: Files> Write for Page<'_, R> {
    fn write(&mut self, buf: &[u8]) -> io::Result<usize> {
        self.made.write(buf)
    }

    fn flush(&mut self) -> io::Result<()> {
        self.made.flush()
    }
}

impl<R: Files> Whole for Page<'_, R>
where
    R::File: SystemFile,
{
    ghost is_synced = { λ _. Unit {0} };

    ghost is_named = { λ _. Unit {0} };

    fn sync(&mut self) -> io::Result<()> {
        self.made.finish()
    }

    fn name<E: Write>(self, notes: &mut Notes<'_, E>) -> Result<(), Refusal> {
        let Page { rt, made } = self;
        end_file(rt, made, notes)
    }

    fn discard<E: Write>(self, error: io::Error, notes: &mut Notes<'_, E>) -> Refusal {
        let Page { rt, made } = self;
        let refusal = told(notes, made.path(), error).refusal;
        discard_file(rt, made, notes);
        refusal
    }
}

/// The changes of commits, where they are asked for.
fn write_changes<W: Write>(
    out: &mut W,
    template: &Template<'_>,
    changes: &Option<Kept>,
) -> io::Result<()>
    ensures { OnOk result (Appends (W.contents out.old) (W.contents out.new)
        (changes_text template.entry.now changes.now)) }
{
    match changes {
        Some(kept) => write_kept(out, template, kept),
        None => Ok(()),
    }
}

/// Those that are kept.
fn write_kept<W: Write>(out: &mut W, template: &Template<'_>, kept: &Kept) -> io::Result<()>
    ensures { OnOk result (Appends (W.contents out.old) (W.contents out.new)
        (changes_text template.entry.now (Some kept.now))) }
{
    out.write_all(template.changes_head.as_bytes())?;
    kept.write_element(out)?;
    out.write_all(template.changes_tail.as_bytes())
}

/// The page, with what it shows. An error of the writer.
pub(crate) fn write_html<W: Write, F: FileBytes>(
    out: &mut W,
    template: &Template<'_>,
    file: &str,
    shown: &Shown<F>,
) -> io::Result<()>
    ensures { OnOk result (AppendsPage template.entry.now file.now shown.now
        (W.contents out.old) (W.contents out.new)) }
{
    out.write_all(template.head.as_bytes())?;
    write_report_facts(out, template.version, file, &shown.facts)?;
    write_changes(out, template, &shown.changes)?;
    out.write_all(template.tail.as_bytes())
}

/// Writes a page to its end through a buffer, which has nothing of it any more then.
fn write_through<W: Write + Drop, F: FileBytes>(
    lines: &mut BufWriter<W>,
    template: &Template<'_>,
    file: &str,
    shown: &Shown<F>,
) -> io::Result<()>
    ensures text { OnOk result (AppendsPage template.entry.now file.now shown.now
        (writer_contents W.contents lines.old) (writer_contents W.contents lines.new)) }
    ensures empty { OnOk result (writer_buffer lines.new ≡ []) }
{
    write_html(lines, template, file, shown)?;
    lines.flush()
}

/// Writes a page to a file, makes it durable, and then gives the file its name. Where that fails the file is removed.
pub(crate) fn made_whole<W: Whole + Drop, F: FileBytes, E: Write>(
    alloc: Global,
    made: W,
    template: &Template<'_>,
    file: &str,
    shown: &Shown<F>,
    notes: &mut Notes<'_, E>,
) -> Result<(), Refusal>
    ensures whole { OnOk result (HasPage W.contents W.is_synced W.is_named template.entry.now file.now shown.now
        made) }
    ensures refused { IfErr result IsFromWatch }
{
    match BufWriter::with_capacity(alloc, WRITTEN, made) {
        Ok(lines) => written_whole(lines, template, file, shown, notes),
        Err(_) => Err(Refusal::NoMemory),
    }
}

/// The same, through a buffer that has nothing yet.
fn written_whole<W: Whole + Drop, F: FileBytes, E: Write>(
    lines: BufWriter<W>,
    template: &Template<'_>,
    file: &str,
    shown: &Shown<F>,
    notes: &mut Notes<'_, E>,
) -> Result<(), Refusal>
    requires { writer_buffer lines ≡ [] }
    ensures whole { OnOk result (HasPage W.contents W.is_synced W.is_named template.entry.now file.now shown.now
        (writer_inner lines)) }
    ensures refused { IfErr result IsFromWatch }
{
    let mut lines = lines;
    match write_through(&mut lines, template, file, shown) {
        Ok(()) => ended(inner_of(lines), notes),
        Err(error) => Err(inner_of(lines).discard(error, notes)),
    }
}

/// The writer below a buffer, without what the buffer has.
fn inner_of<W: Write + Drop>(lines: BufWriter<W>) -> W
    ensures { result ≡ writer_inner lines }
{
    let (inner, _) = lines.into_parts();
    inner
}

/// Makes a file durable that was written to its end, and gives it its name.
fn ended<W: Whole + Drop, E: Write>(made: W, notes: &mut Notes<'_, E>) -> Result<(), Refusal>
    ensures whole { OnOk result ((whole : W) × Keeps (W.contents made) (W.contents whole) × W.is_synced whole
        × W.is_named whole) }
    ensures refused { IfErr result IsFromWatch }
{
    let mut made = made;
    match made.sync() {
        Ok(()) => made.name(notes),
        Err(error) => Err(made.discard(error, notes)),
    }
}
