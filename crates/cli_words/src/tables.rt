//! The tables that a command line names.
ghost use Rattle.std.specs.Prelude.{ℕ, List, ◌<◌, map, length, codes, IfOk, MatchOption};
ghost use Rattle.cli_words.specs.Line.{GiveTexts, GivesText};

use crate::words::joined_text;
use std::alloc::{AllocError, Global};

/// The option that names a table.
const NAMED: &str = "--table";

/// The tables that are named, each by a `--table`; where none is, each table.
#[derive(Clone, Copy, Debug, PartialEq, Eq)]
pub struct Tables<'a> {
    /// The options of the command.
    pub options: &'a [&'a str],
}

/// The text that the word at a place gives, where it is an option of this name.
fn given_at<'a>(options: &'a [&'a str], i: usize, name: &str) -> Option<&'a str>
    requires { i < length options.now }
    ensures { MatchOption result ((text : List ℕ) → ¬ GivesText name.now (map (λ w. w.now) options.entry.now) i text)
        (λ text. GivesText name.now (map (λ w. w.now) options.entry.now) i text.now) }
{
    if options[i] == name && i + 1 < options.len() {
        return Some(options[i + 1]);
    }
    joined_text(options[i], name)
}

impl<'a> Tables<'a> {
    /// Their names, in the order of the options.
    pub fn names(self, alloc: Global) -> Result<Vec<&'a str>, AllocError>
        ensures { IfOk result (λ names. GiveTexts (codes "--table") (map (λ w. w.now) self.entry.options.now)
            (length self.entry.options.now) (map (λ w. w.now) names.items)) }
    {
        let mut names = Vec::new(alloc);
        for i in 0..self.options.len() {
            if let Some(name) = given_at(self.options, i, NAMED) {
                names.push(name)?;
            }
        }
        Ok(names)
    }
}
