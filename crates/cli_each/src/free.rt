//! Which words of a command line stand for themselves.
ghost use Rattle.std.specs.Prelude.{◌≡◌, ◌≢◌, ◌<◌, ◌≤◌, ◌++◌, IsTrue, List, Some, codes, ℕ, false, length, slice_get};
ghost use Rattle.std.specs.List.{Contains};
ghost use Rattle.cli_words.specs.Line.{IsPlain};
ghost use Rattle.cli_each.specs.Lines.{IsFree, TakesValue, texts};

/// Whether one of the words is a `--`.
fn has_dashes(words: &[&str]) -> bool
    ensures yes { IsTrue result → Contains (texts words.now) (codes "--") }
    ensures not { result ≡ false → ¬ Contains (texts words.now) (codes "--") }
{
    for word in words {
        if *word == "--" {
            return true;
        }
    }
    false
}

/// Whether a word is no option.
fn is_plain(word: &str) -> bool
    ensures yes { IsTrue result → IsPlain word.now }
    ensures not { result ≡ false → ¬ IsPlain word.now }
{
    match word.strip_prefix("-") {
        Some(rest) => rest.is_empty(),
        None => true,
    }
}

/// Whether a value stands behind a word.
fn takes_value(word: &str) -> bool
    ensures yes { IsTrue result → TakesValue word.now }
    ensures not { result ≡ false → ¬ TakesValue word.now }
{
    word == "--page"
        || word == "--to"
        || word == "--at"
        || word == "--table"
        || word == "--from"
        || word == "--wait"
}

/// Whether a word behind the command stands for itself.
fn stands_free(words: &[&str], i: usize) -> bool
    requires behind { 2 ≤ i }
    requires within { i < length words.now }
    ensures yes { IsTrue result → (word : List ℕ) → slice_get (texts words.now) i ≡ Some word
        → IsFree (texts words.now) i word }
    ensures not { result ≡ false → (word : List ℕ) → ¬ IsFree (texts words.now) i word }
{
    has_dashes(&words[2..i]) || (is_plain(words[i]) && !takes_value(words[i - 1]))
}

/// Whether the word at a place stands for itself behind the command.
pub(crate) fn is_free(words: &[&str], i: usize) -> bool
    requires { i < length words.now }
    ensures yes { IsTrue result → (word : List ℕ) → slice_get (texts words.now) i ≡ Some word
        → IsFree (texts words.now) i word }
    ensures not { result ≡ false → (word : List ℕ) → ¬ IsFree (texts words.now) i word }
{
    if i < 2 {
        return false;
    }
    stands_free(words, i)
}
