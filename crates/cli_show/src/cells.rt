//! A database's header, and a page with its cells.
ghost use Rattle.std.specs.Prelude.{◌≡◌, ◌-◌, ◌<◌, ◌≤◌, List, ℕ, length, take, IfOk, IfErr, IsSome, OnOk, MatchResult};
ghost use Rattle.std.specs.Io.KnownBytes.{Appends};
ghost use Rattle.sqval.specs.PageSize.{IsPageSize};
ghost use Rattle.sqpage.specs.Chain.{payload_size};
ghost use Rattle.sqpage.specs.Header.{byte, IsHeader};
ghost use Rattle.sqval.specs.Database.{page as page_at};
ghost use Rattle.sqpage.specs.Freelist.{IsPage};
ghost use Rattle.sqview.specs.LogView.{pages_of};
ghost use Rattle.cli_facts.specs.declared.outcome.Refusal.TheVariants.{NoMemory};
ghost use Rattle.cli_words.specs.Commits.{commit_named};
ghost use Rattle.cli_show.specs.Contents.{AreGiven};
ghost use Rattle.cli_show.specs.Errors.{IfRefused, IsFromPage};
ghost use Rattle.cli_show.specs.Fronts.{IsAskedFront};
ghost use Rattle.cli_show.specs.Limits.{limits_named};
ghost use Rattle.cli_show.specs.Shown.{IsHeaderText, IsPageUnread, ShowsHeader, ShowsPage};
ghost use Rattle.cli_show.specs.internal.Shown.{IsHeaderUnread};
ghost use Rattle.cli_show.specs.Shown.{IsHeaderUnshown, IsPageUnshown};
ghost use Rattle.sqpage.specs.Source.{KeepsPages};
ghost use Rattle.cli_show.specs.Views.{IsWholeView, IsUnasked};

use crate::contents::Contents;
use crate::error::ShowError;
use crate::limits::limits_of;
use crate::payloads::Payloads;
use crate::views::whole_view_of;
use cli_facts::{Front, Refusal};
use cli_text::{
    Unfit, number, write_bytes, write_cell, write_facts, write_header, write_page, write_record,
    write_unfit,
};
use cli_words::{Options, Style};
use sqpage::{BtreePage, Cell, DbHeader, Fault, PageSource, payload};
use sqval::Record;
use sqview::{FileBytes, View};
use std::alloc::Global;
use std::io::Write;

/// A page of a source. Refused by `NoSuchPage` where there is none of this number, by `FileFailed` and by `NoMemory`.
pub(crate) fn page_in<S: PageSource>(
    alloc: Global,
    source: &mut S,
    number: u32,
) -> Result<Vec<u8>, Refusal>
    ensures sized { IfOk result (λ page. (length page.items ≡ S.size source.old) × IsPageSize (length page.items)) }
    ensures above { OnOk result (0 < number) }
    ensures answer { S.gives_pages source.old
        → MatchResult result (λ page. IsPage (S.pages source.old) number
        × (page.items ≡ page_at (S.pages source.old) number))
        (IsPageUnread (S.pages source.old) number) }
    ensures refused { IfErr result IsFromPage }
    ensures same { KeepsPages S.pages S.size S.reads_right S.gives_pages source.old source.new }
{
    if number == 0 || number > source.count() {
        return Err(Refusal::NoSuchPage);
    }
    let size = source.page_size().get() as usize;
    let mut page = vec![in alloc; 0u8; size]?;
    source.page(number, &mut page)?;
    Ok(page)
}

/// A page of a view. Refused by `NoSuchPage` where there is none of this number, by `FileFailed` and by `NoMemory`.
pub fn read_page<F: FileBytes>(
    alloc: Global,
    view: &mut View<F>,
    number: u32,
) -> Result<Vec<u8>, Refusal>
    ensures page { IfOk result (λ page. (length page.items ≡ view.old.page_size) × IsPageSize (length page.items)) }
    ensures content { F.gives_bytes view.old.db × F.gives_bytes view.old.log
        → IfOk result (λ page. page.items ≡ page_at (pages_of F.bytes view.old) number) }
    ensures number { OnOk result (0 < number) }
    ensures size { view.new.page_size ≡ view.old.page_size }
    ensures there { F.gives_bytes view.old.db × F.gives_bytes view.old.log
        → MatchResult result (λ _. IsPage (pages_of F.bytes view.old) number)
        (IsPageUnread (pages_of F.bytes view.old) number) }
    ensures refused { IfErr result IsFromPage }
{
    page_in(alloc, view, number)
}

/// How many bytes of a page are usable, by page 1. Where these are too few, all are (own).
pub fn usable_size(first: &[u8]) -> u32
    requires { IsPageSize (length first.now) }
    ensures least { 480 ≤ result }
    ensures most { result ≤ length first.now }
    ensures named { 480 ≤ length first.now - byte first.now 20 → result ≡ length first.now - byte first.now 20 }
    ensures all { length first.now - byte first.now 20 < 480 → result ≡ length first.now }
{
    let size = first.len() as u32;
    let usable = size - u32::from(first[20]);
    if usable < 480 { size } else { usable }
}

/// The view of files that is asked for, with all its pages.
fn asked_view<F: FileBytes + Drop>(
    alloc: Global,
    files: Contents<F>,
    options: Options,
) -> Result<View<F>, Refusal>
    ensures answer { AreGiven F.gives_bytes files → MatchResult result
        (IsWholeView (limits_named options.large) F.bytes (commit_named options) (F.bytes files.db) (F.bytes files.wal)
        (F.bytes files.journal))
        (IsUnasked options (F.bytes files.db) (F.bytes files.wal) (F.bytes files.journal)) }
    ensures still_gives { AreGiven F.gives_bytes files
        → IfOk result (λ view. F.gives_bytes view.db × F.gives_bytes view.log) }
{
    let Contents { db, wal, journal } = files;
    match whole_view_of(
        alloc,
        limits_of(options),
        db,
        wal,
        journal,
        options.commit(),
    ) {
        Ok(view) => Ok(view),
        Err(error) => Err(Refusal::from(error)),
    }
}

/// The header on page 1 of a view. Refused by `NotADatabase` where it isn't a database's.
fn header_of<S: PageSource>(alloc: Global, source: &mut S) -> Result<DbHeader, Refusal>
    ensures { S.gives_pages source.old → MatchResult result
        (λ header. IsHeader header (take 100 (page_at (S.pages source.old) 1)))
        (IsHeaderUnread (S.pages source.old)) }
{
    if source.count() == 0 {
        return Err(Refusal::NotADatabase);
    }
    let page = page_in(alloc, source, 1)?;
    match page.first_chunk::<100>() {
        Some(head) => match DbHeader::read(head) {
            Ok(header) => Ok(header),
            Err(_) => Err(Refusal::NotADatabase),
        },
        None => Err(Refusal::NotADatabase),
    }
}

/// Prints the header of a database as its log has it. The front of the log, if a frame of one counts. Refused by
/// `NotADatabase`, and as the view is.
pub fn show_header<F: FileBytes + Drop, W: Write>(
    alloc: Global,
    files: Contents<F>,
    options: Options,
    out: &mut W,
) -> Result<Option<Front>, ShowError>
    ensures front { AreGiven F.gives_bytes files
        → IfOk result (IsAskedFront (commit_named options) (F.bytes files.wal) (F.bytes files.journal)) }
    ensures shown { AreGiven F.gives_bytes files
        → OnOk result (ShowsHeader options (F.bytes files.db) (F.bytes files.wal) (F.bytes files.journal)) }
    ensures text { AreGiven F.gives_bytes files → OnOk result ((text : List ℕ)
        × IsHeaderText options (F.bytes files.db) (F.bytes files.wal) (F.bytes files.journal) text
        × Appends (W.contents out.old) (W.contents out.new) text) }
    ensures refused { AreGiven F.gives_bytes files → IfErr result
        (IfRefused (IsHeaderUnshown options (F.bytes files.db) (F.bytes files.wal) (F.bytes files.journal))) }
{
    let mut view = asked_view(alloc, files, options)?;
    let (front, count) = (Front::of_view(&view), view.count());
    match header_of(alloc, &mut view) {
        Ok(header) => {
            write_header(out, options.style, &header, count)?;
            Ok(front)
        }
        Err(refusal) => Err(ShowError::Refused(refusal)),
    }
}

/// Prints a page of a database as its log has it. The front of the log, if a frame of one counts. Refused by
/// `NoSuchPage`, and as the view is.
pub fn show_page<F: FileBytes + Drop, W: Write>(
    alloc: Global,
    files: Contents<F>,
    number: u32,
    options: Options,
    out: &mut W,
) -> Result<Option<Front>, ShowError>
    ensures front { AreGiven F.gives_bytes files
        → IfOk result (IsAskedFront (commit_named options) (F.bytes files.wal) (F.bytes files.journal)) }
    ensures shown { AreGiven F.gives_bytes files
        → OnOk result (ShowsPage options number (F.bytes files.db) (F.bytes files.wal) (F.bytes files.journal)) }
    ensures refused { AreGiven F.gives_bytes files → IfErr result
        (IfRefused (IsPageUnshown options number (F.bytes files.db) (F.bytes files.wal) (F.bytes files.journal))) }
{
    let mut view = asked_view(alloc, files, options)?;
    let front = Front::of_view(&view);
    match show_page_of(alloc, &mut view, number, options.style, out) {
        Ok(()) => Ok(front),
        Err(error) => Err(error),
    }
}

/// Prints a page of a view.
fn show_page_of<S: PageSource, W: Write>(
    alloc: Global,
    source: &mut S,
    number: u32,
    style: Style,
    out: &mut W,
) -> Result<(), ShowError>
    ensures { S.gives_pages source.old → MatchResult result (λ _. IsPage (S.pages source.old) number)
        (IfRefused (IsPageUnread (S.pages source.old) number)) }
{
    let usable = usable_size(&page_in(alloc, source, 1)?);
    let page = page_in(alloc, source, number)?;
    match BtreePage::new(&page, number, usable) {
        Ok(btree) => show_btree(alloc, source, &btree, number, style, out),
        Err(_) => Ok(write_bytes(out, style, &page)?),
    }
}

/// Prints a b-tree page of the view with its cells.
fn show_btree<S: PageSource, W: Write>(
    alloc: Global,
    source: &mut S,
    page: &BtreePage<'_>,
    page_number: u32,
    style: Style,
    out: &mut W,
) -> Result<(), ShowError>
    requires { length page.now.used ≤ S.size source.old }
    ensures { S.gives_pages source.old → IfErr result (IfRefused (λ refusal. refusal ≡ NoMemory)) }
{
    write_page(out, style, page_number, page)?;
    let mut payloads = Payloads::none(alloc, source.page_size())?;
    show_cells(alloc, source, page, &mut payloads, style, out)
}

/// Prints the cells of a page, and the page on its right.
fn show_cells<S: PageSource, W: Write>(
    alloc: Global,
    source: &mut S,
    page: &BtreePage<'_>,
    payloads: &mut Payloads,
    style: Style,
    out: &mut W,
) -> Result<(), ShowError>
    requires { length page.now.used ≤ S.size source.old }
    ensures { S.gives_pages source.old → IfErr result (IfRefused (λ refusal. refusal ≡ NoMemory)) }
{
    for i in 0..page.len() {
        let cell = page.cell(i);
        write_cell(out, style, i, &cell)?;
        if cell.payload.is_some() {
            show_payload(alloc, source, &cell, payloads, style, out)?;
        }
    }
    if let Some(right) = page.right() {
        write_facts(out, style, &[number("right", right)])?;
    }
    Ok(())
}

/// Prints the columns of the record in a cell's payload, or what refuses the payload or the record. Where that is known
/// of the cell's place the payload isn't read.
fn show_payload<S: PageSource, W: Write>(
    alloc: Global,
    source: &mut S,
    cell: &Cell<'_>,
    payloads: &mut Payloads,
    style: Style,
    out: &mut W,
) -> Result<(), ShowError>
    requires payload { IsSome cell.now.payload }
    requires least { 480 ≤ cell.now.usable }
    requires most { cell.now.usable ≤ S.size source.old }
    requires part { length cell.now.local.now ≤ payload_size cell.now }
    ensures refused { S.gives_pages source.old → IfErr result (IfRefused (λ refusal. refusal ≡ NoMemory)) }
    ensures same { KeepsPages S.pages S.size S.reads_right S.gives_pages source.old source.new }
{
    if let Some(unfit) = payloads.known(cell.at) {
        return Ok(write_unfit(out, style, unfit)?);
    }
    payloads.bytes.clear();
    let unfit = match payload(alloc, source, cell, &mut payloads.bytes) {
        Ok(()) => match Record::new(&payloads.bytes) {
            Ok(record) => return Ok(write_record(out, style, &record)?),
            Err(error) => Unfit::Record(error),
        },
        Err(error) => match error.fault {
            Fault::Source => return Err(ShowError::Refused(Refusal::FileFailed)),
            Fault::NoMemory => return Err(ShowError::Refused(Refusal::NoMemory)),
            fault => Unfit::Payload(fault),
        },
    };
    payloads.keep(cell.at, unfit);
    Ok(write_unfit(out, style, unfit)?)
}
