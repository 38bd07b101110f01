//! A command line taken apart.
ghost use Rattle.std.specs.Prelude.{◌≡◌, ◌≢◌, ◌≤◌, ◌<◌, ◌^◌, ◌++◌, ℕ, IfOk, IsTrue, MatchOption, Some, false};
ghost use Rattle.std.specs.Prelude.{drop, slice_get, take};
ghost use Rattle.cli_words.specs.Line.{IsNumber};
ghost use Rattle.cli_each.specs.Lines.{IsApart, IsOne, IsStarter, texts};

use std::alloc::{AllocError, Global};

/// A command line taken apart.
#[derive(Drop)]
pub struct Apart<'a> {
    /// What whoever starts the program says before all other words: `--locks`, `--held` or `--refused`, and a word.
    pub starter: Option<(&'a str, &'a str)>,
    /// Of which of the files alone the line is, from 1: `--one K`, before the command.
    pub one: Option<usize>,
    /// The program's name, the command and all words behind it.
    pub words: Vec<&'a str>,
}

/// What the starter says.
fn starter_of<'a>(words: &'a [&'a str]) -> Option<(&'a str, &'a str)>
    ensures { IsStarter (texts words.now) result }
{
    if words.len() < 3 {
        return None;
    }
    match words[1] {
        "--locks" | "--held" | "--refused" => Some((words[1], words[2])),
        _ => None,
    }
}

/// The number that a word is.
fn number_in(word: &str) -> Option<usize>
    ensures { MatchOption result ((n : ℕ) → n < 2 ^ 64 → ¬ IsNumber word.now n) (IsNumber word.now) }
{
    word.parse::<usize>().ok()
}

/// Whether the word at a place is this one.
fn is_word(words: &[&str], at: usize, text: &str) -> bool
    ensures yes { IsTrue result → slice_get (texts words.now) at ≡ Some text.now }
    ensures not { result ≡ false → slice_get (texts words.now) at ≢ Some text.now }
{
    if words.len() <= at {
        return false;
    }
    words[at] == text
}

/// Which of the files is meant, where the word at a place says that one is.
fn one_at(words: &[&str], at: usize) -> Option<usize>
    requires { at ≤ 3 }
    ensures { IsOne (texts words.now) at result }
{
    if !is_word(words, at, "--one") {
        return None;
    }
    match words.get(at + 1) {
        Some(word) => number_in(word),
        None => None,
    }
}

/// The program's name and the words from a place on.
#[tactic(auto, using(std::proofs::lemmas::List::take_min, std::proofs::lemmas::List::drop_min))]
fn words_from<'a>(
    alloc: Global,
    words: &'a [&'a str],
    from: usize,
) -> Result<Vec<&'a str>, AllocError>
    ensures { IfOk result (λ rest. rest.items ≡ take 1 words.entry.now ++ drop from words.entry.now) }
{
    let mut rest = Vec::new(alloc);
    rest.extend_from_slice(&words[..1.min(words.len())])?;
    rest.extend_from_slice(&words[from.min(words.len())..])?;
    Ok(rest)
}

/// Takes a command line apart.
pub fn taken_apart<'a>(alloc: Global, words: &'a [&'a str]) -> Result<Apart<'a>, AllocError>
    ensures { IfOk result (IsApart (texts words.entry.now)) }
{
    let starter = starter_of(words);
    let at = if starter.is_some() { 3 } else { 1 };
    let one = one_at(words, at);
    let from = if one.is_some() { at + 2 } else { at };
    Ok(Apart {
        starter,
        one,
        words: words_from(alloc, words, from)?,
    })
}
