//! A line of facts that is put together in memory, from its end on, so that it is written at once.
ghost use Rattle.std.specs.Prelude.{◌≡◌, ◌≤◌, ◌++◌, drop, map};
ghost use Rattle.std.specs.Fmt.{decimal};
ghost use Rattle.std.specs.Option.{IfSome};
ghost use Rattle.cli_text.specs.Facts.{behind, between, closing, fact_text, facts_text, opening, pair_text};
ghost use Rattle.cli_text.specs.internal.Values.{value_text};

use crate::fact::{Fact, between_of, closing_of, opening_of};
use cli_words::Style;

/// How many bytes a line has room for.
pub(crate) const ROOM: usize = 256;

/// Bytes before those that stand from a place on, if they fit; where they begin.
#[inline]
fn put(line: &mut [u8; ROOM], bytes: &[u8], end: usize) -> Option<usize>
    requires { end ≤ 256 }
    ensures { IfSome result (λ start. (start ≤ 256) × (drop start line.new ≡ bytes.now ++ drop end line.old)) }
{
    let start = end.checked_sub(bytes.len())?;
    line[start..end].copy_from_slice(bytes);
    Some(start)
}

/// A number before what stands from a place on, if it fits; where it begins.
#[inline]
fn put_number(line: &mut [u8; ROOM], number: u64, end: usize) -> Option<usize>
    requires { end ≤ 256 }
    ensures { IfSome result (λ start. (start ≤ 256) × (drop start line.new ≡ decimal number ++ drop end line.old)) }
{
    if end < 20 {
        return None;
    }
    Some(itoa::write_digits(number, line, end))
}

/// A text in its style before what stands from a place on, if it fits; where it begins.
fn put_text(line: &mut [u8; ROOM], style: Style, text: &str, end: usize) -> Option<usize>
    requires { end ≤ 256 }
    ensures { IfSome result (λ start. (start ≤ 256)
        × (drop start line.new ≡ value_text style text.now ++ drop end line.old)) }
{
    match style {
        Style::Lines => put(line, text.as_bytes(), end),
        Style::Json => {
            let last = put(line, b"\"", end)?;
            let first = put(line, text.as_bytes(), last)?;
            put(line, b"\"", first)
        }
    }
}

/// A word before its value, which stands from a place on, if it fits; where it begins.
#[inline]
fn put_word(line: &mut [u8; ROOM], style: Style, word: &str, end: usize) -> Option<usize>
    requires { end ≤ 256 }
    ensures { IfSome result (λ start. (start ≤ 256)
        × (drop start line.new ≡ pair_text style word.now (drop end line.old))) }
{
    match style {
        Style::Lines => {
            let last = put(line, b" ", end)?;
            put(line, word.as_bytes(), last)
        }
        Style::Json => {
            let last = put(line, b"\":", end)?;
            let first = put(line, word.as_bytes(), last)?;
            put(line, b"\"", first)
        }
    }
}

/// A number or a text behind its word, before what stands from a place on, if it fits; where it begins.
fn put_fact(line: &mut [u8; ROOM], style: Style, fact: Fact<'_>, end: usize) -> Option<usize>
    requires { end ≤ 256 }
    ensures { IfSome result (λ start. (start ≤ 256)
        × (drop start line.new ≡ fact_text style fact.entry ++ drop end line.old)) }
{
    match fact {
        Fact::Number(word, number) => {
            let value = put_number(line, number, end)?;
            put_word(line, style, word, value)
        }
        Fact::Text(word, text) => {
            let value = put_text(line, style, text, end)?;
            put_word(line, style, word, value)
        }
        Fact::Signed(..) | Fact::Salts(..) => None,
    }
}

/// Facts behind the first one and the end, as the end of a line, if they fit; where they begin.
fn put_others(line: &mut [u8; ROOM], style: Style, facts: &[Fact<'_>]) -> Option<usize>
    ensures { IfSome result (λ start. (start ≤ 256)
        × (drop start line.new ≡ behind (between style) (map (fact_text style) facts.now) ++ closing style)) }
{
    let mut start = put(line, closing_of(style), ROOM)?;
    let mut i = facts.len();
    while i > 0 {
        i -= 1;
        let fact = put_fact(line, style, facts[i], start)?;
        start = put(line, between_of(style), fact)?;
    }
    Some(start)
}

/// Facts as the end of a line, if they fit; where they begin.
pub(crate) fn put_facts(line: &mut [u8; ROOM], style: Style, facts: &[Fact<'_>]) -> Option<usize>
    ensures { IfSome result (λ start. (start ≤ 256) × (drop start line.new ≡ facts_text style facts.now)) }
{
    let (first, others) = facts.split_first()?;
    let behind = put_others(line, style, others)?;
    let fact = put_fact(line, style, *first, behind)?;
    put(line, opening_of(style), fact)
}
