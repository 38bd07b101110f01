//! The header of a database.
ghost use Rattle.std.specs.Prelude.{◌≡◌, OnOk, map};
ghost use Rattle.std.specs.Io.KnownBytes.{Appends};
ghost use Rattle.cli_text.specs.Facts.{between, joined, number_text};
ghost use Rattle.std.specs.List.{flat_map};
ghost use Rattle.cli_words.specs.declared.requests.Style.TheVariants.{Json};
ghost use Rattle.cli_text.specs.Headers.{field_line, header_fields, header_text, members_text};

use crate::fact::{number, write_end_of_facts, write_fact, write_opening};
use cli_words::Style;
use sqpage::DbHeader;
use std::io::{self, Write};

/// A field of a header: its name, and what stands in it.
#[derive(Clone, Copy)]
struct Field(&'static str, u32);

/// The fields of a database's header, by their names (fileformat2, 1.3).
#[tactic(auto, unfolding(crate::specs::Headers::header_fields))]
fn fields_of(header: &DbHeader) -> [Field; 18]
    ensures { map (λ f. (f.0.now, f.1)) result ≡ header_fields header.now }
{
    [
        Field("page size", header.page_size.get()),
        Field("write version", u32::from(header.write_version)),
        Field("read version", u32::from(header.read_version)),
        Field("reserved", u32::from(header.reserved)),
        Field("change counter", header.change_counter),
        Field("size in pages", header.size_in_pages),
        Field("first trunk", header.first_trunk),
        Field("free pages", header.free_pages),
        Field("schema cookie", header.schema_cookie),
        Field("schema format", header.schema_format),
        Field("cache size", header.cache_size),
        Field("largest root", header.largest_root),
        Field("text encoding", header.text_encoding),
        Field("user version", header.user_version),
        Field("incremental vacuum", header.incremental_vacuum),
        Field("application id", header.application_id),
        Field("version valid for", header.version_valid_for),
        Field("writer version", header.writer_version),
    ]
}

/// The spaces up to where the values stand.
const SPACES: [u8; 20] = [b' '; 20];

/// A field on a line of its own, its value behind 20 columns.
fn write_field_line<W: Write>(out: &mut W, name: &str, value: u32) -> io::Result<()>
    ensures { OnOk result (Appends (W.contents out.old) (W.contents out.new) (field_line name.now value)) }
{
    out.write_all(name.as_bytes())?;
    out.write_all(&SPACES[name.len().min(20)..])?;
    writeln!(out, "{value}")
}

/// The fields on a line each.
fn write_field_lines<W: Write>(out: &mut W, fields: &[Field]) -> io::Result<()>
    ensures { OnOk result (Appends (W.contents out.old) (W.contents out.new)
        (flat_map (λ f. field_line f.0.now f.1) fields.now)) }
{
    for field in fields {
        write_field_line(out, field.0, field.1)?;
    }
    Ok(())
}

/// The fields as the first members of an object.
fn write_members<W: Write>(out: &mut W, fields: &[Field]) -> io::Result<()>
    ensures { OnOk result (Appends (W.contents out.old) (W.contents out.new)
        (joined (between Json) (map (λ f. number_text Json f.0.now f.1) fields.now))) }
{
    for (i, field) in fields.iter().enumerate() {
        write_fact(out, Style::Json, i == 0, number(field.0, field.1))?;
    }
    Ok(())
}

/// A line for each field of a database's header, and one for how many pages there are; or one object of all. An error
/// of the writer.
pub fn write_header<W: Write>(
    out: &mut W,
    style: Style,
    header: &DbHeader,
    pages: u32,
) -> io::Result<()>
    ensures { OnOk result (Appends (W.contents out.old) (W.contents out.new) (header_text style header.now pages)) }
{
    let fields = fields_of(header);
    match style {
        Style::Lines => {
            write_field_lines(out, &fields)?;
            write_field_line(out, "pages", pages)
        }
        Style::Json => {
            write_opening(out, style)?;
            write_members(out, &fields)?;
            write_fact(out, style, false, number("pages", pages))?;
            write_end_of_facts(out, style)
        }
    }
}

/// The fields of a database's header as the members of an object, each on a line. An error of the writer.
pub fn write_fields<W: Write>(out: &mut W, header: &DbHeader) -> io::Result<()>
    ensures { OnOk result (Appends (W.contents out.old) (W.contents out.new) (members_text header.now)) }
{
    let fields = fields_of(header);
    for (i, field) in fields.iter().enumerate() {
        if i > 0 {
            out.write_all(b",\n")?;
        }
        let (name, value) = (field.0, field.1);
        write!(out, "\"{name}\":{value}")?;
    }
    Ok(())
}
