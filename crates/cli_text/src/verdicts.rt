//! What a check finds.
ghost use Rattle.std.specs.Prelude.{OnOk};
ghost use Rattle.std.specs.Io.KnownBytes.{Appends};
ghost use Rattle.cli_text.specs.Verdicts.{fault_text, none_text, report_text};

use crate::fact::{Fact, number, write_facts};
use cli_words::Style;
use sqcheck::Report;
use sqpage::CheckError;
use std::io::{self, Write};

/// A well-formed database: its pages by their use. An error of the writer.
pub fn write_report<W: Write>(out: &mut W, style: Style, report: &Report) -> io::Result<()>
    ensures { OnOk result (Appends (W.contents out.old) (W.contents out.new) (report_text style report.now)) }
{
    let Report {
        pages,
        trees,
        btree,
        overflow,
        free,
    } = *report;
    match style {
        Style::Lines => writeln!(
            out,
            "clean: {pages} pages, {trees} trees, {btree} b-tree, {overflow} overflow, {free} free"
        ),
        Style::Json => {
            let facts = [
                Fact::Text("check", "clean"),
                number("pages", pages),
                number("trees", trees),
                number("b-tree", btree),
                number("overflow", overflow),
                number("free", free),
            ];
            write_facts(out, style, &facts)
        }
    }
}

/// A fault at a page, 0 for none. An error of the writer.
pub fn write_fault<W: Write>(out: &mut W, style: Style, error: &CheckError) -> io::Result<()>
    ensures { OnOk result (Appends (W.contents out.old) (W.contents out.new) (fault_text style error.now)) }
{
    let (page, fault, name) = (error.page, error.fault.number(), error.fault.name());
    match style {
        Style::Lines => writeln!(out, "page {page}: fault {fault} {name}"),
        Style::Json => {
            let facts = [
                number("page", page),
                number("fault", fault),
                Fact::Text("name", name),
            ];
            write_facts(out, style, &facts)
        }
    }
}

/// That nothing of a kind is there. An error of the writer.
pub fn write_none<W: Write>(out: &mut W, style: Style, what: &str) -> io::Result<()>
    ensures { OnOk result (Appends (W.contents out.old) (W.contents out.new) (none_text style what.now)) }
{
    match style {
        Style::Lines => writeln!(out, "no {what}"),
        Style::Json => write_facts(out, style, &[Fact::Text(what, "none")]),
    }
}
