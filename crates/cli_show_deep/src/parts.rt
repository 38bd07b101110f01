//! How it is printed what a deep check doesn't judge of a sound database.
ghost use Rattle.std.specs.Prelude.{◌≡◌, ◌↔◌, IsTrue, OnOk, map, take};
ghost use Rattle.std.specs.Str.{IsUtf8};
ghost use Rattle.std.specs.Io.KnownBytes.{Appends};
ghost use Rattle.cli_text.specs.Facts.{joined, separator};
ghost use Rattle.cli_show_deep.specs.Parts.{comma, kind_word, line_head, most_listed, nevers_text, part_end};
ghost use Rattle.cli_show_deep.specs.Parts.{hex_string, name_string, part_counts, part_head, part_line, part_name};
ghost use Rattle.cli_show_deep.specs.Parts.{part_object, shares_text, thing_object, thing_text, why_word};

use cli_row_text::write_string;
use cli_text::write_hex;
use sqcheck::Report;
use sqdeepjudge::{Kind, NotJudged, Why, objects_of, things_of};
use sqschema::Schema;
use std::io::{self, Write};
use std::{fmt, str};

/// How many things that aren't judged are listed at most.
const MOST_LISTED: usize = 1000;

/// How many of a kind aren't judged, of how many, and its word.
#[derive(Clone, Copy)]
struct Share<'a>(usize, usize, &'a str);

impl fmt::Display for Share<'_> {
    ghost use Rattle.std.specs.Prelude.{Some};
    ghost use Rattle.cli_show_deep.specs.Parts.{share_text};

    ghost output = { λ x. Some (share_text x.0 x.1 x.2.now) };

    fn fmt<W: fmt::Write>(&self, f: &mut fmt::Formatter<W>) -> fmt::Result {
        let Share(left, total, word) = *self;
        write!(f, "{left} of {total} {word}")
    }
}

/// How many there are of a kind of which none is judged, and its word.
#[derive(Clone, Copy)]
struct Never<'a>(usize, &'a str);

impl fmt::Display for Never<'_> {
    ghost use Rattle.std.specs.Prelude.{Some};
    ghost use Rattle.cli_show_deep.specs.Parts.{never_text};

    ghost output = { λ x. Some (never_text x.0 x.1.now) };

    fn fmt<W: fmt::Write>(&self, f: &mut fmt::Formatter<W>) -> fmt::Result {
        let Never(n, word) = *self;
        if n == 0 {
            Ok(())
        } else {
            write!(f, ", {}", Share(n, n, word))
        }
    }
}

/// The counts of a database of which not all is judged.
fn write_line_head<W: Write>(out: &mut W, report: &Report) -> io::Result<()>
    ensures { OnOk result (Appends (W.contents out.old) (W.contents out.new) (line_head report.now)) }
{
    let Report {
        pages,
        trees,
        btree,
        overflow,
        free,
    } = *report;
    write!(
        out,
        "clean: {pages} pages, {trees} trees, {btree} b-tree, {overflow} overflow, {free} free; \
         not fully judged: "
    )
}

/// How many indexes, tables and CHECKs aren't judged, of how many.
fn write_shares<W: Write>(out: &mut W, schema: &Schema, all: &[NotJudged]) -> io::Result<()>
    ensures { OnOk result (Appends (W.contents out.old) (W.contents out.new) (shares_text schema.now all.now)) }
{
    let indexes = Share(
        things_of(all, Kind::Index),
        objects_of(schema, Kind::Index),
        "indexes",
    );
    let tables = Share(
        things_of(all, Kind::Table),
        objects_of(schema, Kind::Table),
        "tables",
    );
    let checks = things_of(all, Kind::Check);
    let checks = Share(checks, checks, "checks");
    write!(out, "{indexes}, {tables}, {checks}")
}

/// How many views, triggers, virtual tables and foreign keys there are.
fn write_nevers<W: Write>(out: &mut W, all: &[NotJudged]) -> io::Result<()>
    ensures { OnOk result (Appends (W.contents out.old) (W.contents out.new) (nevers_text all.now)) }
{
    let views = Never(things_of(all, Kind::View), "views");
    let triggers = Never(things_of(all, Kind::Trigger), "triggers");
    let virtual_tables = Never(things_of(all, Kind::VirtualTable), "virtual tables");
    let keys = Never(things_of(all, Kind::ForeignKey), "foreign keys");
    write!(out, "{views}{triggers}{virtual_tables}{keys}")
}

/// A sound database of which not all is judged, as a line.
pub(crate) fn write_part_line<W: Write>(
    out: &mut W,
    report: &Report,
    schema: &Schema,
    all: &[NotJudged],
) -> io::Result<()>
    ensures { OnOk result (Appends (W.contents out.old) (W.contents out.new) (part_line report.now schema.now
        all.now)) }
{
    write_line_head(out, report)?;
    write_shares(out, schema, all)?;
    write_nevers(out, all)?;
    out.write_all(b"\n")
}

/// The word for what isn't judged.
fn kind_word(kind: Kind) -> &'static str
    ensures { result.now ≡ kind_word kind }
{
    match kind {
        Kind::Index => "index",
        Kind::Table => "table",
        Kind::Check => "check",
        Kind::ForeignKey => "foreign key",
        Kind::View => "view",
        Kind::Trigger => "trigger",
        Kind::VirtualTable => "virtual table",
    }
}

/// The word for why it isn't.
fn why_word(why: Why) -> &'static str
    ensures { result.now ≡ why_word why }
{
    match why {
        Why::Entries => "entries",
        Why::Where => "where",
        Why::Rows => "rows",
        Why::Tree => "tree",
        Why::Never => "never",
    }
}

/// Whether a name is UTF-8.
fn is_text(name: &[u8]) -> bool
    ensures { IsTrue result ↔ IsUtf8 name.now }
{
    str::from_utf8(name).is_ok()
}

/// The bytes of a name as a string of hex.
fn write_hex_string<W: Write>(out: &mut W, name: &[u8]) -> io::Result<()>
    ensures { OnOk result (Appends (W.contents out.old) (W.contents out.new) (hex_string name.now)) }
{
    out.write_all(b"\"hex:")?;
    write_hex(out, name)?;
    out.write_all(b"\"")
}

/// A name of the schema as a string of JSON: its bytes as hex if they aren't UTF-8.
fn write_name_string<W: Write>(out: &mut W, name: &[u8]) -> io::Result<()>
    ensures { OnOk result (Appends (W.contents out.old) (W.contents out.new) (name_string name.now)) }
{
    if is_text(name) {
        write_string(out, name)
    } else {
        write_hex_string(out, name)
    }
}

/// The name of what isn't judged, of an object of this name.
fn write_name<W: Write>(out: &mut W, it: NotJudged, name: &[u8]) -> io::Result<()>
    ensures { OnOk result (Appends (W.contents out.old) (W.contents out.new) (part_name it.kind it.number name.now)) }
{
    let number = it.number;
    match it.kind {
        Kind::Check | Kind::ForeignKey => write!(out, "\"{number}\""),
        _ => write_name_string(out, name),
    }
}

/// One thing that isn't judged, of an object of this name, which belongs to this table.
fn write_thing<W: Write>(out: &mut W, it: NotJudged, name: &[u8], table: &[u8]) -> io::Result<()>
    ensures { OnOk result (Appends (W.contents out.old) (W.contents out.new) (thing_object name.now table.now it)) }
{
    let (kind, why) = (kind_word(it.kind), why_word(it.why));
    write!(out, "{{\"kind\":\"{kind}\",\"name\":")?;
    write_name(out, it, name)?;
    out.write_all(b",\"table\":")?;
    write_name_string(out, table)?;
    write!(out, ",\"why\":\"{why}\"}}")
}

/// One thing that isn't judged of a schema.
fn write_of<W: Write>(out: &mut W, schema: &Schema, it: NotJudged) -> io::Result<()>
    ensures { OnOk result (Appends (W.contents out.old) (W.contents out.new) (thing_text schema.now it)) }
{
    match schema.items.get(it.row) {
        Some(item) => write_thing(out, it, &item.name, &item.table),
        None => write_thing(out, it, b"", b""),
    }
}

/// What stands before one, which is the first one or not.
fn write_separator<W: Write>(out: &mut W, is_first: bool) -> io::Result<()>
    ensures { OnOk result (Appends (W.contents out.old) (W.contents out.new) (separator comma is_first)) }
{
    if is_first {
        out.write_all(b"")
    } else {
        out.write_all(b",")
    }
}

/// These things that aren't judged.
fn write_parts<W: Write>(out: &mut W, schema: &Schema, listed: &[NotJudged]) -> io::Result<()>
    ensures { OnOk result (Appends (W.contents out.old) (W.contents out.new)
        (joined comma (map (thing_text schema.now) listed.now))) }
{
    for (i, it) in listed.iter().enumerate() {
        write_separator(out, i == 0)?;
        write_of(out, schema, *it)?;
    }
    Ok(())
}

/// Those of these that are listed: the first ones.
fn first_of(all: &[NotJudged]) -> &[NotJudged]
    ensures { result.now ≡ take most_listed all.now }
{
    &all[..MOST_LISTED.min(all.len())]
}

/// The counts at the front of the object of a database that isn't fully judged.
fn write_part_counts<W: Write>(out: &mut W, report: &Report) -> io::Result<()>
    ensures { OnOk result (Appends (W.contents out.old) (W.contents out.new) (part_counts report.now)) }
{
    let Report {
        pages,
        trees,
        btree,
        overflow,
        free,
    } = *report;
    write!(
        out,
        "{{\"check\":\"clean\",\"records\":\"sound\",\"schema\":\"sound\",\"indexes\":\"in part\",\
         \"pages\":{pages},\"trees\":{trees},\"b-tree\":{btree},\"overflow\":{overflow},\"free\":{free},\
         \"ill_formed\":"
    )
}

/// The first members of that object.
fn write_part_head<W: Write>(out: &mut W, report: &Report, ill_formed: u64) -> io::Result<()>
    ensures { OnOk result (Appends (W.contents out.old) (W.contents out.new) (part_head report.now ill_formed)) }
{
    write_part_counts(out, report)?;
    write!(out, "{ill_formed},\"not_judged\":[")
}

/// The end of it.
fn write_part_end<W: Write>(out: &mut W, all: &[NotJudged]) -> io::Result<()>
    ensures { OnOk result (Appends (W.contents out.old) (W.contents out.new) (part_end all.now)) }
{
    let count = all.len();
    writeln!(out, "],\"not_judged_count\":{count}}}")
}

/// A sound database of which not all is judged, as an object.
pub(crate) fn write_part_object<W: Write>(
    out: &mut W,
    report: &Report,
    schema: &Schema,
    all: &[NotJudged],
    ill_formed: u64,
) -> io::Result<()>
    ensures { OnOk result (Appends (W.contents out.old) (W.contents out.new) (part_object report.now schema.now
        all.now ill_formed)) }
{
    write_part_head(out, report, ill_formed)?;
    write_parts(out, schema, first_of(all))?;
    write_part_end(out, all)
}
