//! How it is printed what a deep check finds.
ghost use Rattle.std.specs.Prelude.{OnOk};
ghost use Rattle.std.specs.Io.KnownBytes.{Appends};
ghost use Rattle.cli_show_deep.specs.Lines.{content_text, cut_text, excess_text, found_text, inner_text, schema_text};
ghost use Rattle.cli_show_deep.specs.Lines.{clean_counts, clean_object, clean_text, damage_object, damage_text};
ghost use Rattle.cli_show_deep.specs.Lines.{place_text, sound_text, table_row_text, whole_or_part};

use crate::parts::{write_part_line, write_part_object};
use cli_text::{Fact, number, write_facts, write_fault, write_report};
use cli_words::Style;
use sqcheck::Report;
use sqcontents::{ContentError, TableRowError};
use sqdeep::InnerError;
use sqdeepjudge::{Damage, DeepVerdict, Unjudged};
use sqpage::CheckError;
use sqschema::{ObjectError, Schema};
use std::io::{self, Write};

/// A database of which all is judged, and sound.
fn write_sound<W: Write>(
    out: &mut W,
    style: Style,
    report: &Report,
    ill_formed: u64,
) -> io::Result<()>
    ensures { OnOk result (Appends (W.contents out.old) (W.contents out.new) (sound_text style report.now ill_formed)) }
{
    let Report {
        pages,
        trees,
        btree,
        overflow,
        free,
    } = *report;
    match style {
        Style::Lines => writeln!(
            out,
            "clean: {pages} pages, {trees} trees, {btree} b-tree, {overflow} overflow, {free} free; \
             records, schema and indexes sound"
        ),
        Style::Json => {
            let facts = [
                Fact::Text("check", "clean"),
                Fact::Text("records", "sound"),
                Fact::Text("schema", "sound"),
                Fact::Text("indexes", "sound"),
                number("pages", pages),
                number("trees", trees),
                number("b-tree", btree),
                number("overflow", overflow),
                number("free", free),
                number("ill_formed", ill_formed),
            ];
            write_facts(out, style, &facts)
        }
    }
}

/// A sound database, of which this isn't judged.
fn write_whole_or_part<W: Write>(
    out: &mut W,
    style: Style,
    report: &Report,
    schema: &Schema,
    unjudged: &Unjudged,
) -> io::Result<()>
    ensures { OnOk result (Appends (W.contents out.old) (W.contents out.new) (whole_or_part style report.now
        schema.now unjudged.now.all.items unjudged.now.ill_formed)) }
{
    let (all, ill_formed) = (unjudged.all.as_slice(), unjudged.ill_formed);
    if all.is_empty() {
        return write_sound(out, style, report, ill_formed);
    }
    match style {
        Style::Lines => write_part_line(out, report, schema, all),
        Style::Json => write_part_object(out, report, schema, all, ill_formed),
    }
}

/// The counts at the front of the object of a well-formed database with a missing page.
fn write_clean_counts<W: Write>(out: &mut W, report: &Report) -> io::Result<()>
    ensures { OnOk result (Appends (W.contents out.old) (W.contents out.new) (clean_counts report.now)) }
{
    let Report {
        pages,
        trees,
        btree,
        overflow,
        free,
    } = *report;
    write!(
        out,
        "{{\"check\":\"clean\",\"pages\":{pages},\"trees\":{trees},\"b-tree\":{btree},\
         \"overflow\":{overflow},\"free\":{free},\"missing\":"
    )
}

/// A well-formed database with this least missing page, as an object.
fn write_clean_object<W: Write>(out: &mut W, report: &Report, page: u32) -> io::Result<()>
    ensures { OnOk result (Appends (W.contents out.old) (W.contents out.new) (clean_object report.now page)) }
{
    write_clean_counts(out, report)?;
    writeln!(out, "{page}}}")
}

/// A well-formed database, and in an object the least page that is missing.
fn write_clean<W: Write>(
    out: &mut W,
    style: Style,
    report: &Report,
    missing: Option<u32>,
) -> io::Result<()>
    ensures { OnOk result (Appends (W.contents out.old) (W.contents out.new) (clean_text style report.now missing)) }
{
    match missing {
        None => write_report(out, style, report),
        Some(page) => match style {
            Style::Lines => write_report(out, Style::Lines, report),
            Style::Json => write_clean_object(out, report, page),
        },
    }
}

/// A fault at a page, with this least missing page, as an object.
fn write_damage_object<W: Write>(out: &mut W, error: &CheckError, least: u32) -> io::Result<()>
    ensures { OnOk result (Appends (W.contents out.old) (W.contents out.new) (damage_object error.now least)) }
{
    let (page, fault, name) = (error.page, error.fault.number(), error.fault.name());
    writeln!(
        out,
        "{{\"page\":{page},\"fault\":{fault},\"name\":\"{name}\",\"missing\":{least}}}"
    )
}

/// A fault at a page, and in an object the least page that is missing.
fn write_damage<W: Write>(
    out: &mut W,
    style: Style,
    error: &CheckError,
    missing: Option<u32>,
) -> io::Result<()>
    ensures { OnOk result (Appends (W.contents out.old) (W.contents out.new) (damage_text style error.now missing)) }
{
    match missing {
        None => write_fault(out, style, error),
        Some(least) => match style {
            Style::Lines => write_fault(out, Style::Lines, error),
            Style::Json => write_damage_object(out, error, least),
        },
    }
}

/// A page that is missing.
fn write_cut<W: Write>(out: &mut W, style: Style, page: u32) -> io::Result<()>
    ensures { OnOk result (Appends (W.contents out.old) (W.contents out.new) (cut_text style page)) }
{
    match style {
        Style::Lines => writeln!(out, "page {page}: fault 36 FileCut"),
        Style::Json => writeln!(out, "{{\"page\":{page},\"fault\":36,\"name\":\"FileCut\"}}"),
    }
}

/// A header that counts more pages than there are.
fn write_excess<W: Write>(out: &mut W, style: Style) -> io::Result<()>
    ensures { OnOk result (Appends (W.contents out.old) (W.contents out.new) (excess_text style)) }
{
    match style {
        Style::Lines => writeln!(out, "page 1: fault 37 PageCount"),
        Style::Json => writeln!(out, "{{\"page\":1,\"fault\":37,\"name\":\"PageCount\"}}"),
    }
}

/// A fault inside, at a page or a cell of it.
fn write_inner<W: Write>(out: &mut W, style: Style, error: &InnerError) -> io::Result<()>
    ensures { OnOk result (Appends (W.contents out.old) (W.contents out.new) (inner_text style error.now)) }
{
    let (page, fault, name) = (error.page, error.fault.number(), error.fault.name());
    match (style, error.cell) {
        (Style::Lines, None) => writeln!(out, "page {page}: fault {fault} {name}"),
        (Style::Lines, Some(cell)) => writeln!(
            out,
            "page {page} cell {cell}: fault {fault} {name}"
        ),
        (Style::Json, None) => {
            let facts = [
                number("page", page),
                number("fault", fault),
                Fact::Text("name", name),
            ];
            write_facts(out, style, &facts)
        }
        (Style::Json, Some(cell)) => {
            let facts = [
                number("page", page),
                number("cell", cell as u64),
                number("fault", fault),
                Fact::Text("name", name),
            ];
            write_facts(out, style, &facts)
        }
    }
}

/// A fault of a row of the schema.
fn write_schema<W: Write>(out: &mut W, style: Style, error: &ObjectError) -> io::Result<()>
    ensures { OnOk result (Appends (W.contents out.old) (W.contents out.new) (schema_text style error.now)) }
{
    let row = error.row as u128 + 1;
    let (fault, name) = (error.fault.number(), error.fault.name());
    match style {
        Style::Lines => writeln!(out, "schema row {row}: fault {fault} {name}"),
        Style::Json => writeln!(
            out,
            "{{\"row\":{row},\"fault\":{fault},\"name\":\"{name}\"}}"
        ),
    }
}

/// A fault of what a row of the schema names, and the cell that it stands at.
#[derive(Clone, Copy)]
struct Place {
    row: usize,
    page: u32,
    cell: usize,
    fault: u8,
    name: &'static str,
}

/// A fault at a cell of what a row of the schema names.
fn write_place<W: Write>(out: &mut W, style: Style, place: &Place) -> io::Result<()>
    ensures { OnOk result (Appends (W.contents out.old) (W.contents out.new) (place_text style place.now.row
        place.now.page place.now.cell place.now.fault place.now.name.now)) }
{
    let row = place.row as u128 + 1;
    let (page, cell) = (place.page, place.cell);
    let (fault, name) = (place.fault, place.name);
    match style {
        Style::Lines => writeln!(
            out,
            "schema row {row}: page {page} cell {cell}: fault {fault} {name}"
        ),
        Style::Json => writeln!(
            out,
            "{{\"row\":{row},\"page\":{page},\"cell\":{cell},\"fault\":{fault},\"name\":\"{name}\"}}"
        ),
    }
}

/// A fault of the index in a row of the schema.
fn write_content<W: Write>(out: &mut W, style: Style, error: &ContentError) -> io::Result<()>
    ensures { OnOk result (Appends (W.contents out.old) (W.contents out.new) (content_text style error.now)) }
{
    let place = Place {
        row: error.row,
        page: error.error.page,
        cell: error.error.cell,
        fault: error.error.fault.number(),
        name: error.error.fault.name(),
    };
    write_place(out, style, &place)
}

/// A fault of the table in a row of the schema.
fn write_row<W: Write>(out: &mut W, style: Style, error: &TableRowError) -> io::Result<()>
    ensures { OnOk result (Appends (W.contents out.old) (W.contents out.new) (table_row_text style error.now)) }
{
    let place = Place {
        row: error.row,
        page: error.error.page,
        cell: error.error.cell,
        fault: error.error.fault.number(),
        name: error.error.fault.name(),
    };
    write_place(out, style, &place)
}

/// What a check found, or a deep one: a line, or an object. That of a check that isn't deep also has the least page
/// that is missing. An error of the writer.
pub fn write_found<W: Write>(
    out: &mut W,
    style: Style,
    verdict: &DeepVerdict,
    missing: Option<u32>,
) -> io::Result<()>
    ensures { OnOk result (Appends (W.contents out.old) (W.contents out.new) (found_text style verdict.now missing)) }
{
    match verdict {
        DeepVerdict::Clean(report) => write_clean(out, style, report, missing),
        DeepVerdict::Sound(report, schema, unjudged) => {
            write_whole_or_part(out, style, report, schema, unjudged)
        }
        DeepVerdict::Damaged(Damage::Cut(page)) => write_cut(out, style, *page),
        DeepVerdict::Damaged(Damage::Excess(_)) => write_excess(out, style),
        DeepVerdict::Damaged(Damage::Check(error)) => write_damage(out, style, error, missing),
        DeepVerdict::Damaged(Damage::Inner(error)) => write_inner(out, style, error),
        DeepVerdict::Damaged(Damage::Schema(error)) => write_schema(out, style, error),
        DeepVerdict::Damaged(Damage::Content(error)) => write_content(out, style, error),
        DeepVerdict::Damaged(Damage::Row(error)) => write_row(out, style, error),
    }
}
