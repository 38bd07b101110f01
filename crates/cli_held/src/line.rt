//! The words that say how SQLite's locks are taken.
ghost use Rattle.std.specs.Prelude.{◌≡◌, ◌<◌, ◌≤◌, ◌+◌, ◌++◌, ℕ, List, Some, IfOk, IsTrue, MatchOption, codes};
ghost use Rattle.std.specs.Prelude.{false, length, slice_get, true};
ghost use Rattle.std.specs.List.{Contains};
ghost use Rattle.cli_words.specs.Line.{TakesValue};
ghost use Rattle.cli_held.specs.Saying.{AreSeconds, GivesBehind, IsOpen, IsTakenApart};
ghost use Rattle.cli_held.specs.Todo.{IsHidden, IsPlainLine, texts};
ghost use Rattle.cli_held.specs.internal.Words.{IsRest, IsSaid, IsSaidAt, IsSoFar, MayTell};

use std::alloc::{AllocError, Global};

/// What stands before the command, from whoever starts the program.
#[derive(Clone, Copy, Debug, PartialEq, Eq)]
pub enum Hidden<'a> {
    /// `--locks 1`: to say which locks the words ask for.
    Locks,
    /// `--held N,N`: the locks are held, by the open files of these numbers.
    Held(&'a str),
    /// `--refused WHY`: they can't be had: `in-use`, `no-locks` or `file-failed`.
    Refused(&'a str),
}

/// A command line taken apart.
#[derive(Drop)]
pub struct Line<'a> {
    pub hidden: Option<Hidden<'a>>,
    /// The words without those, and without `--wait SECONDS`, `--wait=SECONDS` and `--no-lock`.
    pub words: Vec<&'a str>,
    /// In seconds.
    pub wait: Option<u32>,
    /// Whether no locks are to be taken.
    pub is_unlocked: bool,
}

/// What stands before the command, if these two words do.
fn hidden_of<'a>(words: &'a [&'a str]) -> Option<Hidden<'a>>
    ensures { IsHidden (texts words.now) result }
{
    if words.len() < 3 {
        return None;
    }
    match words[1] {
        "--locks" => Some(Hidden::Locks),
        "--held" => Some(Hidden::Held(words[2])),
        "--refused" => Some(Hidden::Refused(words[2])),
        _ => None,
    }
}

/// Whether a word is the value of the option before it.
fn is_value(before: &str) -> bool
    ensures yes { IsTrue result → TakesValue before.now }
    ensures not { result ≡ false → ¬ TakesValue before.now }
{
    before == "--page"
        || before == "--to"
        || before == "--at"
        || before == "--table"
        || before == "--from"
}

/// The seconds that a text is.
fn seconds_in(text: &str) -> Option<u32>
    ensures { MatchOption result ((n : ℕ) → ¬ AreSeconds text.now n) (AreSeconds text.now) }
{
    text.parse::<u32>().ok()
}

/// The seconds that a word gives by itself.
fn joined_wait(word: &str) -> Option<u32>
    ensures { MatchOption result ((text : List ℕ) (n : ℕ) → word.now ≡ codes "--wait=" ++ text → ¬ AreSeconds text n)
        (λ n. (text : List ℕ) × (word.now ≡ codes "--wait=" ++ text) × AreSeconds text n) }
{
    match word.strip_prefix("--wait=") {
        Some(text) => seconds_in(text),
        None => None,
    }
}

/// The seconds that the word at a place gives, if there is one.
fn seconds_at(words: &[&str], i: usize) -> Option<u32>
    ensures { MatchOption result
        ((text : List ℕ) (n : ℕ) → slice_get (texts words.now) i ≡ Some text → ¬ AreSeconds text n)
        (λ n. (text : List ℕ) × (slice_get (texts words.now) i ≡ Some text) × AreSeconds text n) }
{
    match words.get(i) {
        Some(word) => seconds_in(word),
        None => None,
    }
}

/// The seconds that a `--wait` at a place gives, by the word behind it.
fn seconds_behind(words: &[&str], i: usize) -> Option<u32>
    requires { i < length words.now }
    ensures { MatchOption result ((n : ℕ) → ¬ GivesBehind (texts words.now) i n) (GivesBehind (texts words.now) i) }
{
    if words[i] == "--wait" {
        return seconds_at(words, i + 1);
    }
    None
}

/// What a word of a command line says of locks.
#[derive(Clone, Copy)]
enum Said {
    Nothing,
    /// That none are to be taken.
    Unlocked,
    /// For how many seconds they are waited for.
    Wait(u32),
    /// The same, by the word behind it.
    WaitBehind(u32),
}

/// What the word at a place says, which is none behind `--`, nor the value of another option.
fn said_at(words: &[&str], i: usize) -> Said
    requires { i < length words.now }
    ensures said { IsSaid (texts words.now) result }
    ensures exactly { IsSaidAt (texts words.now) i result }
{
    let word = words[i];
    if word == "--no-lock" {
        return Said::Unlocked;
    }
    match joined_wait(word) {
        Some(seconds) => Said::Wait(seconds),
        None => match seconds_behind(words, i) {
            Some(seconds) => Said::WaitBehind(seconds),
            None => Said::Nothing,
        },
    }
}

/// What of a command line is left without the words that say how locks are taken, and what these say.
#[derive(Drop)]
struct Rest<'a> {
    words: Vec<&'a str>,
    /// In seconds.
    wait: Option<u32>,
    is_unlocked: bool,
    /// Whether a `--` was seen.
    is_over: bool,
    /// Whether the next word is the value of `--wait`.
    is_taken: bool,
}

/// Whether a word may say how locks are taken, where it is known whether a `--` was seen.
fn may_say(words: &[&str], i: usize, from: usize, is_over: bool) -> bool
    requires { i < length words.now }
    ensures yes { IsTrue result → IsOpen (texts words.now) from i × (is_over ≡ false) }
    ensures not { result ≡ false → IsOpen (texts words.now) from i → is_over ≡ true }
{
    if is_over || i <= from {
        return false;
    }
    if is_value(words[i - 1]) {
        return false;
    }
    true
}

/// Whether a word stands between the program's name and the command.
fn is_between(i: usize, from: usize) -> bool
    ensures yes { IsTrue result → (0 < i) × (i < from) }
    ensures not { result ≡ false → 0 < i → from ≤ i }
{
    0 < i && i < from
}

/// Takes in the word at a place, which may say how locks are taken.
fn take_free<'a>(
    rest: &mut Rest<'a>,
    words: &'a [&'a str],
    i: usize,
    from: usize,
) -> Result<(), AllocError>
    requires place { i < length words.now }
    requires first { 1 ≤ from }
    requires before { IsRest (texts words.now) from i rest.old }
    requires may { MayTell (texts words.now) from i rest.old }
    ensures rest { IfOk result (λ _. IsRest (texts words.entry.now) from (i + 1) rest.new) }
    ensures so_far { IfOk result (λ _. IsSoFar (texts words.entry.now) from (i + 1) rest.new) }
{
    match said_at(words, i) {
        Said::Nothing => rest.words.push(words[i])?,
        Said::Unlocked => rest.is_unlocked = true,
        Said::Wait(seconds) => rest.wait = Some(seconds),
        Said::WaitBehind(seconds) => {
            rest.wait = Some(seconds);
            rest.is_taken = true;
        }
    }
    Ok(())
}

/// Takes in the word at a place.
fn take<'a>(
    rest: &mut Rest<'a>,
    words: &'a [&'a str],
    i: usize,
    from: usize,
) -> Result<(), AllocError>
    requires place { i < length words.now }
    requires first { 1 ≤ from }
    requires before { IsRest (texts words.now) from i rest.old }
    requires so_far { IsSoFar (texts words.now) from i rest.old }
    ensures rest { IfOk result (λ _. IsRest (texts words.entry.now) from (i + 1) rest.new) }
    ensures so_far { IfOk result (λ _. IsSoFar (texts words.entry.now) from (i + 1) rest.new) }
{
    if is_between(i, from) {
        return Ok(());
    }
    if rest.is_taken {
        rest.is_taken = false;
        return Ok(());
    }
    if may_say(words, i, from, rest.is_over) {
        rest.is_over = words[i] == "--";
        return take_free(rest, words, i, from);
    }
    rest.words.push(words[i])?;
    Ok(())
}

/// What is left of the words of a command line behind the first ones.
fn rest_of<'a>(alloc: Global, words: &'a [&'a str], from: usize) -> Result<Rest<'a>, AllocError>
    requires { 1 ≤ from }
    ensures rest { IfOk result (IsRest (texts words.entry.now) from (length words.entry.now)) }
    ensures so_far { IfOk result (IsSoFar (texts words.entry.now) from (length words.entry.now)) }
{
    let mut rest = Rest {
        words: Vec::new(alloc),
        wait: None,
        is_unlocked: false,
        is_over: false,
        is_taken: false,
    };
    for i in 0..words.len() {
        take(&mut rest, words, i, from)?;
    }
    Ok(rest)
}

/// Takes a command line apart. Words behind `--`, and values of other options, are left as they are, and so is `--wait`
/// without a number, which isn't understood then.
pub fn line_of<'a>(alloc: Global, words: &'a [&'a str]) -> Result<Line<'a>, AllocError>
    ensures hidden { IfOk result (λ line. IsHidden (texts words.entry.now) line.hidden) }
    ensures only { IfOk result (λ line. (word : List ℕ) → Contains (texts line.words.items) word
        → Contains (texts words.entry.now) word) }
    ensures unlocked { IfOk result (λ line. IsTrue line.is_unlocked
        → Contains (texts words.entry.now) (codes "--no-lock")) }
    ensures plain { IfOk result (IsPlainLine (texts words.entry.now)) }
    ensures apart { IfOk result (IsTakenApart (texts words.entry.now)) }
{
    let hidden = hidden_of(words);
    let from = if hidden.is_some() { 3 } else { 1 };
    let Rest {
        words,
        wait,
        is_unlocked,
        ..
    } = rest_of(alloc, words, from)?;
    Ok(Line {
        hidden,
        words,
        wait,
        is_unlocked,
    })
}
