//! The pages of a database, and the cells of one.
ghost use Rattle.std.specs.Prelude.{◌≡◌, ◌++◌, ◌∷◌, OnOk, codes, length};
ghost use Rattle.std.specs.Io.KnownBytes.{Appends};
ghost use Rattle.hex.specs.Hex.{encode_lower};
ghost use Rattle.sqval.specs.Datum.{datum_of};
ghost use Rattle.cli_words.specs.declared.requests.Style.TheVariants.{Json};
ghost use Rattle.cli_text.specs.Facts.{behind, between, number_text, opening, word_text};
ghost use Rattle.cli_text.specs.Pages.{cell_text, child_parts, column_text, columns_text, content_start, content_text};
ghost use Rattle.cli_text.specs.Pages.{fault_parts, logged_parts, named_parts, of_parts, page_line_text, page_text};
ghost use Rattle.cli_text.specs.Pages.{payload_parts, rowid_parts, unfit_number, unfit_text, unfit_word, use_part};
ghost use Rattle.cli_text.specs.Words.{of_page, use_word};

use crate::fact::{Fact, number, write_end_of_facts, write_facts};
use crate::hex_lines::{hex_end, write_hex};
use crate::words::{kind_name, use_of};
use cli_words::Style;
use sqcheck::Role;
use sqpage::{BtreePage, Cell, Fault};
use sqval::{Record, RecordError, Value};
use std::io::{self, Write};

/// Where a page stands in the log that counts.
#[derive(Clone, Copy, Debug, PartialEq, Eq)]
pub enum Logged {
    /// In this frame of the write-ahead log, from 1.
    Frame(u64),
    /// In this record of the hot journal, from 1.
    Record(u64),
}

/// What is printed of a page.
#[derive(Clone, Copy)]
pub struct PageLine<'a> {
    /// Its number, from 1.
    pub number: u32,
    pub role: Role,
    /// The name of the tree that it is in, without control characters.
    pub name: Option<&'a str>,
    /// None where it stands in the database file.
    pub logged: Option<Logged>,
    pub fault: Option<Fault>,
}

impl PageLine<'_> {
    /// The page as a line, or as an object. An error of the writer.
    pub fn write<W: Write>(&self, out: &mut W, style: Style) -> io::Result<()>
        ensures { OnOk result (Appends (W.contents out.old) (W.contents out.new) (page_line_text style self.now)) }
    {
        write_use(out, style, self.number, self.role)?;
        self.write_parts(out, style)?;
        write_end_of_facts(out, style)
    }

    /// What is told of the page behind its use.
    fn write_parts<W: Write>(&self, out: &mut W, style: Style) -> io::Result<()>
        ensures { OnOk result (Appends (W.contents out.old) (W.contents out.new) (behind (between style)
            (of_parts style (of_page self.now.role) ++ (named_parts style self.now.name
            ++ (logged_parts style self.now.logged ++ fault_parts style self.now.fault))))) }
    {
        write_of(out, style, self.role)?;
        write_name(out, style, self.name)?;
        write_logged(out, style, self.logged)?;
        write_page_fault(out, style, self.fault)
    }
}

/// A page's number, and what it is used for.
fn write_use<W: Write>(out: &mut W, style: Style, page: u32, role: Role) -> io::Result<()>
    ensures { OnOk result (Appends (W.contents out.old) (W.contents out.new) (opening style
        ++ (number_text style (codes "page") page ++ (between style ++ use_part style (use_word role))))) }
{
    let (name, _) = use_of(role);
    match style {
        Style::Lines => write!(out, "page {page} {name}"),
        Style::Json => write!(out, "{{\"page\":{page},\"use\":\"{name}\""),
    }
}

/// The page that its use is of.
fn write_of<W: Write>(out: &mut W, style: Style, role: Role) -> io::Result<()>
    ensures { OnOk result (Appends (W.contents out.old) (W.contents out.new)
        (behind (between style) (of_parts style (of_page role)))) }
{
    let (_, of) = use_of(role);
    match (style, of) {
        (Style::Lines, Some(of)) => write!(out, " of {of}"),
        (Style::Json, Some(of)) => write!(out, ",\"of\":{of}"),
        (_, None) => Ok(()),
    }
}

/// Where a page stands in a log.
fn write_logged<W: Write>(out: &mut W, style: Style, logged: Option<Logged>) -> io::Result<()>
    ensures { OnOk result (Appends (W.contents out.old) (W.contents out.new)
        (behind (between style) (logged_parts style logged))) }
{
    match (style, logged) {
        (Style::Lines, Some(Logged::Frame(frame))) => write!(out, " from frame {frame}"),
        (Style::Lines, Some(Logged::Record(record))) => write!(out, " from record {record}"),
        (Style::Json, Some(Logged::Frame(frame))) => write!(out, ",\"frame\":{frame}"),
        (Style::Json, Some(Logged::Record(record))) => write!(out, ",\"record\":{record}"),
        (_, None) => Ok(()),
    }
}

/// A name as a member of an object behind others: its bytes in hex.
fn write_hex_name<W: Write>(out: &mut W, name: &str) -> io::Result<()>
    ensures { OnOk result (Appends (W.contents out.old) (W.contents out.new)
        (between Json ++ word_text Json (codes "named") (encode_lower name.now))) }
{
    out.write_all(b",\"named\":\"")?;
    write_hex(out, name.as_bytes())?;
    out.write_all(b"\"")
}

/// The name of the tree that a page is in; in an object its bytes in hex.
fn write_name<W: Write>(out: &mut W, style: Style, name: Option<&str>) -> io::Result<()>
    ensures { OnOk result (Appends (W.contents out.old) (W.contents out.new)
        (behind (between style) (named_parts style name.entry))) }
{
    match (style, name) {
        (Style::Lines, Some(name)) => write!(out, " named {name}"),
        (Style::Json, Some(name)) => write_hex_name(out, name),
        (_, None) => Ok(()),
    }
}

/// The fault that was told at a page.
fn write_page_fault<W: Write>(out: &mut W, style: Style, fault: Option<Fault>) -> io::Result<()>
    ensures { OnOk result (Appends (W.contents out.old) (W.contents out.new)
        (behind (between style) (fault_parts style fault))) }
{
    let Some(fault) = fault else {
        return Ok(());
    };
    let (number, name) = (fault.number(), fault.name());
    match style {
        Style::Lines => write!(out, " fault {number} {name}"),
        Style::Json => write!(out, ",\"fault\":{number},\"name\":\"{name}\""),
    }
}

/// A b-tree page, without its cells. An error of the writer.
pub fn write_page<W: Write>(
    out: &mut W,
    style: Style,
    page_number: u32,
    page: &BtreePage<'_>,
) -> io::Result<()>
    ensures { OnOk result (Appends (W.contents out.old) (W.contents out.new) (page_text style page_number page.now)) }
{
    let (kind, cells) = (kind_name(page.kind()), page.len());
    match style {
        Style::Lines => writeln!(out, "page {page_number} {kind}, {cells} cells"),
        Style::Json => {
            let facts = [
                number("page", page_number),
                Fact::Text("kind", kind),
                Fact::Number("cells", cells as u64),
            ];
            write_facts(out, style, &facts)
        }
    }
}

/// A cell's number and its place.
fn write_place<W: Write>(out: &mut W, style: Style, i: usize, at: usize) -> io::Result<()>
    ensures { OnOk result (Appends (W.contents out.old) (W.contents out.new) (opening style
        ++ (number_text style (codes "cell") i ++ (between style ++ number_text style (codes "at") at)))) }
{
    match style {
        Style::Lines => write!(out, "cell {i} at {at}"),
        Style::Json => write!(out, "{{\"cell\":{i},\"at\":{at}"),
    }
}

/// A cell's left child.
fn write_child<W: Write>(out: &mut W, style: Style, child: Option<u32>) -> io::Result<()>
    ensures { OnOk result (Appends (W.contents out.old) (W.contents out.new)
        (behind (between style) (child_parts style child))) }
{
    match (style, child) {
        (Style::Lines, Some(child)) => write!(out, " child {child}"),
        (Style::Json, Some(child)) => write!(out, ",\"child\":{child}"),
        (_, None) => Ok(()),
    }
}

/// A cell's rowid.
fn write_rowid<W: Write>(out: &mut W, style: Style, rowid: Option<i64>) -> io::Result<()>
    ensures { OnOk result (Appends (W.contents out.old) (W.contents out.new)
        (behind (between style) (rowid_parts style rowid))) }
{
    match (style, rowid) {
        (Style::Lines, Some(rowid)) => write!(out, " rowid {rowid}"),
        (Style::Json, Some(rowid)) => write!(out, ",\"rowid\":{rowid}"),
        (_, None) => Ok(()),
    }
}

/// A cell's payload.
fn write_payload<W: Write>(out: &mut W, style: Style, cell: &Cell<'_>) -> io::Result<()>
    ensures { OnOk result (Appends (W.contents out.old) (W.contents out.new) (behind (between style)
        (payload_parts style (length cell.now.local.now) cell.now.overflow cell.now.payload))) }
{
    let (local, overflow) = (cell.local.len(), cell.overflow);
    match (style, cell.payload) {
        (Style::Lines, Some(payload)) => {
            write!(out, " payload {payload} local {local} overflow {overflow}")
        }
        (Style::Json, Some(payload)) => write!(
            out,
            ",\"payload\":{payload},\"local\":{local},\"overflow\":{overflow}"
        ),
        (_, None) => Ok(()),
    }
}

/// The parts that a cell has.
fn write_cell_parts<W: Write>(out: &mut W, style: Style, cell: &Cell<'_>) -> io::Result<()>
    ensures { OnOk result (Appends (W.contents out.old) (W.contents out.new) (behind (between style)
        (child_parts style cell.now.child ++ (rowid_parts style cell.now.rowid
        ++ payload_parts style (length cell.now.local.now) cell.now.overflow cell.now.payload)))) }
{
    write_child(out, style, cell.child)?;
    write_rowid(out, style, cell.rowid)?;
    write_payload(out, style, cell)
}

/// A cell: its number from 0, its place, and the parts that it has. An error of the writer.
pub fn write_cell<W: Write>(out: &mut W, style: Style, i: usize, cell: &Cell<'_>) -> io::Result<()>
    ensures { OnOk result (Appends (W.contents out.old) (W.contents out.new) (cell_text style i cell.now)) }
{
    write_place(out, style, i, cell.at)?;
    write_cell_parts(out, style, cell)?;
    write_end_of_facts(out, style)
}

/// What stands before a column's bytes.
fn write_content_start<W: Write>(out: &mut W, style: Style, name: &str) -> io::Result<()>
    ensures { OnOk result (Appends (W.contents out.old) (W.contents out.new) (content_start style name.now)) }
{
    match style {
        Style::Lines => write!(out, "  {name} "),
        Style::Json => write!(out, "{{\"{name}\":\""),
    }
}

/// A column of bytes, which are of this type.
fn write_content<W: Write>(out: &mut W, style: Style, name: &str, bytes: &[u8]) -> io::Result<()>
    ensures { OnOk result (Appends (W.contents out.old) (W.contents out.new) (content_text style name.now bytes.now)) }
{
    write_content_start(out, style, name)?;
    write_hex(out, bytes)?;
    out.write_all(hex_end(style).as_bytes())
}

/// A column.
fn write_column<W: Write>(out: &mut W, style: Style, value: &Value<'_>) -> io::Result<()>
    ensures { OnOk result (Appends (W.contents out.old) (W.contents out.new)
        (column_text style (datum_of value.now))) }
{
    match (style, *value) {
        (Style::Lines, Value::Null) => out.write_all(b"  null\n"),
        (Style::Json, Value::Null) => out.write_all(b"{\"null\":null}\n"),
        (Style::Lines, Value::Int(number)) => writeln!(out, "  int {number}"),
        (Style::Json, Value::Int(number)) => writeln!(out, "{{\"int\":{number}}}"),
        (_, Value::Real(bytes)) => write_content(out, style, "real", bytes.as_slice()),
        (_, Value::Text(bytes)) => write_content(out, style, "text", bytes),
        (_, Value::Blob(bytes)) => write_content(out, style, "blob", bytes),
    }
}

/// Each column of a record. An error of the writer.
pub fn write_record<W: Write>(out: &mut W, style: Style, record: &Record<'_>) -> io::Result<()>
    ensures { OnOk result (Appends (W.contents out.old) (W.contents out.new) (columns_text style «record».now)) }
{
    for value in record.columns() {
        write_column(out, style, &value)?;
    }
    Ok(())
}

/// Why no columns of a cell can be shown.
#[derive(Clone, Copy, Debug, PartialEq, Eq)]
pub enum Unfit {
    /// Its payload can't be put together.
    Payload(Fault),
    /// The payload is no record.
    Record(RecordError),
}

/// What is refused, and the number of the refusal.
fn refusal_of(unfit: Unfit) -> (&'static str, u8)
    ensures word { result.0.now ≡ unfit_word unfit }
    ensures number { result.1 ≡ unfit_number unfit }
{
    match unfit {
        Unfit::Payload(fault) => ("payload refused", fault.number()),
        Unfit::Record(error) => ("record refused", error.number()),
    }
}

/// That a cell shows no columns. An error of the writer.
pub fn write_unfit<W: Write>(out: &mut W, style: Style, unfit: Unfit) -> io::Result<()>
    ensures { OnOk result (Appends (W.contents out.old) (W.contents out.new) (unfit_text style unfit)) }
{
    let (what, reason) = refusal_of(unfit);
    match style {
        Style::Lines => writeln!(out, "  {what} {reason}"),
        Style::Json => write_facts(out, style, &[number(what, reason)]),
    }
}
