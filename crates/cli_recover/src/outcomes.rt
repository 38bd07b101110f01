//! What is printed of a recovery, or a JSON object of it.
ghost use Rattle.std.specs.Prelude.{◌≡◌, IfErr, OnOk};
ghost use Rattle.std.specs.Io.KnownBytes.{Appends};
ghost use Rattle.cli_recover.specs.Outcomes.{outcome_text};

use cli_facts::Outcome;
use cli_show::ShowError;
use cli_text::{Fact, number, write_facts};
use cli_words::{Options, Style};
use std::io::{self, Write};

/// What a recovery did.
fn write_outcome<W: Write>(out: &mut W, style: Style, outcome: Outcome) -> io::Result<()>
    ensures { OnOk result (Appends (W.contents out.old) (W.contents out.new) (outcome_text style outcome)) }
{
    match (style, outcome) {
        (Style::Lines, Outcome::Nothing) => out.write_all(b"nothing to recover\n"),
        (Style::Lines, Outcome::NoFront) => out.write_all(b"wal: front 0\n"),
        (Style::Lines, Outcome::Folded { frames, pages }) => {
            writeln!(out, "wal: front {frames}, {pages} pages")
        }
        (Style::Lines, Outcome::RolledBack { records, pages }) => {
            writeln!(out, "journal: {records} records, {pages} pages")
        }
        (Style::Json, Outcome::Nothing) => {
            write_facts(out, style, &[Fact::Text("recover", "nothing")])
        }
        (Style::Json, Outcome::NoFront) => {
            let facts = [Fact::Text("recover", "wal"), Fact::Number("front", 0)];
            write_facts(out, style, &facts)
        }
        (Style::Json, Outcome::Folded { frames, pages }) => {
            let facts = [
                Fact::Text("recover", "wal"),
                number("front", frames),
                number("pages", pages),
            ];
            write_facts(out, style, &facts)
        }
        (Style::Json, Outcome::RolledBack { records, pages }) => {
            let facts = [
                Fact::Text("recover", "journal"),
                Fact::Number("records", records as u64),
                number("pages", pages),
            ];
            write_facts(out, style, &facts)
        }
    }
}

/// Prints what a recovery did.
pub(crate) fn print_outcome<W: Write>(
    out: &mut W,
    options: Options,
    outcome: Outcome,
) -> Result<(), ShowError>
    ensures printed { OnOk result (Appends (W.contents out.old) (W.contents out.new)
        (outcome_text options.style outcome)) }
    ensures refused { IfErr result (λ error. error ≡ ShowError.Unwritten) }
{
    write_outcome(out, options.style, outcome)?;
    out.flush()?;
    Ok(())
}
