//! Facts of a word and a value, as a line of both or as a JSON object.
ghost use Rattle.std.specs.Prelude.{◌≡◌, ◌++◌, ℕ, OnOk};
ghost use Rattle.std.specs.Io.KnownBytes.{Appends};
ghost use Rattle.cli_text.specs.Facts.{between, closing, fact_text, facts_text, opening, separator};

use crate::line::{ROOM, put_facts};
use cli_words::Style;
use std::fmt;
use std::io::{self, Write};

/// A word, and what stands behind it.
#[derive(Clone, Copy)]
pub enum Fact<'a> {
    Number(&'a str, u64),
    Signed(&'a str, i64),
    /// A text of letters, digits, spaces and `-`.
    Text(&'a str, &'a str),
    /// Two numbers in hex, of eight digits each.
    Salts(&'a str, u32, u32),
}

/// The fact of a number.
pub fn number<'a, N: Into<u64>>(word: &'a str, number: N) -> Fact<'a>
    ensures { (n : ℕ) × N.converts number n × (result ≡ Fact.Number word.entry n) }
{
    Fact::Number(word, number.into())
}

/// A number as eight hex digits.
#[derive(Clone, Copy)]
struct HexWord(u32);

impl fmt::Display for HexWord {
    ghost use Rattle.std.specs.Prelude.{Some};
    ghost use Rattle.cli_text.specs.Facts.{hex_word};

    ghost output = { λ x. Some (hex_word x.0) };

    fn fmt<W: fmt::Write>(&self, f: &mut fmt::Formatter<W>) -> fmt::Result {
        let number = self.0;
        write!(f, "{number:08x}")
    }
}

/// A fact in a style.
#[derive(Clone, Copy)]
struct Styled<'a>(Style, Fact<'a>);

impl fmt::Display for Styled<'_> {
    ghost use Rattle.std.specs.Prelude.{Some};
    ghost use Rattle.cli_text.specs.Facts.{fact_text};

    ghost output = { λ x. Some (fact_text x.0 x.1) };

    fn fmt<W: fmt::Write>(&self, f: &mut fmt::Formatter<W>) -> fmt::Result {
        match (self.0, self.1) {
            (Style::Lines, Fact::Number(word, number)) => write!(f, "{word} {number}"),
            (Style::Json, Fact::Number(word, number)) => write!(f, "\"{word}\":{number}"),
            (Style::Lines, Fact::Signed(word, number)) => write!(f, "{word} {number}"),
            (Style::Json, Fact::Signed(word, number)) => write!(f, "\"{word}\":{number}"),
            (Style::Lines, Fact::Text(word, text)) => write!(f, "{word} {text}"),
            (Style::Json, Fact::Text(word, text)) => write!(f, "\"{word}\":\"{text}\""),
            (Style::Lines, Fact::Salts(word, first, second)) => {
                write!(f, "{word} {} {}", HexWord(first), HexWord(second))
            }
            (Style::Json, Fact::Salts(word, first, second)) => {
                let (first, second) = (HexWord(first), HexWord(second));
                write!(f, "\"{word}\":[\"{first}\",\"{second}\"]")
            }
        }
    }
}

/// What a line or an object begins with.
pub(crate) fn opening_of(style: Style) -> &'static [u8]
    ensures { result.now ≡ opening style }
{
    match style {
        Style::Lines => b"",
        Style::Json => b"{",
    }
}

/// What stands between two facts.
pub(crate) fn between_of(style: Style) -> &'static [u8]
    ensures { result.now ≡ between style }
{
    match style {
        Style::Lines => b" ",
        Style::Json => b",",
    }
}

/// What a line or an object ends with.
pub(crate) fn closing_of(style: Style) -> &'static [u8]
    ensures { result.now ≡ closing style }
{
    match style {
        Style::Lines => b"\n",
        Style::Json => b"}\n",
    }
}

/// What a line or an object begins with.
pub(crate) fn write_opening<W: Write>(out: &mut W, style: Style) -> io::Result<()>
    ensures { OnOk result (Appends (W.contents out.old) (W.contents out.new) (opening style)) }
{
    out.write_all(opening_of(style))
}

/// A fact of a line or an object, the first one or one behind others.
pub(crate) fn write_fact<W: Write>(
    out: &mut W,
    style: Style,
    is_first: bool,
    fact: Fact<'_>,
) -> io::Result<()>
    ensures { OnOk result (Appends (W.contents out.old) (W.contents out.new)
        (separator (between style) is_first ++ fact_text style fact.entry)) }
{
    let fact = Styled(style, fact);
    match (style, is_first) {
        (_, true) => write!(out, "{fact}"),
        (Style::Lines, false) => write!(out, " {fact}"),
        (Style::Json, false) => write!(out, ",{fact}"),
    }
}

/// The end of a line or an object of facts.
pub(crate) fn write_end_of_facts<W: Write>(out: &mut W, style: Style) -> io::Result<()>
    ensures { OnOk result (Appends (W.contents out.old) (W.contents out.new) (closing style)) }
{
    out.write_all(closing_of(style))
}

/// Facts one by one, as a line or as an object.
fn write_each_fact<W: Write>(out: &mut W, style: Style, facts: &[Fact<'_>]) -> io::Result<()>
    ensures { OnOk result (Appends (W.contents out.old) (W.contents out.new) (facts_text style facts.now)) }
{
    write_opening(out, style)?;
    for (i, fact) in facts.iter().enumerate() {
        write_fact(out, style, i == 0, *fact)?;
    }
    write_end_of_facts(out, style)
}

/// Facts as a line, or as an object. An error of the writer.
pub fn write_facts<W: Write>(out: &mut W, style: Style, facts: &[Fact<'_>]) -> io::Result<()>
    ensures { OnOk result (Appends (W.contents out.old) (W.contents out.new) (facts_text style facts.now)) }
{
    let mut line = [0; ROOM];
    match put_facts(&mut line, style, facts) {
        Some(start) => out.write_all(&line[start..]),
        None => write_each_fact(out, style, facts),
    }
}
