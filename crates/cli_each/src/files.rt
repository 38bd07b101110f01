//! The files that a command line names, and its words with one of them alone.
ghost use Rattle.std.specs.Prelude.{◌≡◌, ◌≢◌, ◌⊎◌, ◌<◌, IfOk, IsTrue, List, Some, ℕ, false, length, slice_get};
ghost use Rattle.cli_each.specs.Lines.{AreFiles, AreLeft, IsFree, IsOfSeveral, TakesSeveral, texts};

use crate::free::is_free;
use std::alloc::{AllocError, Global};

/// Whether a command takes several files.
fn is_of_several(command: &str) -> bool
    ensures yes { IsTrue result → IsOfSeveral command.now }
    ensures not { result ≡ false → ¬ IsOfSeveral command.now }
{
    command == "check" || command == "show"
}

/// Whether a line is of such a command.
fn takes_several(words: &[&str]) -> bool
    ensures yes { IsTrue result → TakesSeveral (texts words.now) }
    ensures not { result ≡ false → ¬ TakesSeveral (texts words.now) }
{
    if words.len() < 2 {
        return false;
    }
    is_of_several(words[1])
}

/// The places of the files that a line names, whose second word is the command, in their order: of a command that takes
/// several, the words behind it that stand for themselves; of any other none.
pub fn files_of(alloc: Global, words: &[&str]) -> Result<Vec<usize>, AllocError>
    ensures { IfOk result (λ places. AreFiles (texts words.now) places.items) }
{
    let mut places = Vec::new(alloc);
    if !takes_several(words) {
        return Ok(places);
    }
    for i in 0..words.len() {
        if is_free(words, i) {
            places.push(i)?;
        }
    }
    Ok(places)
}

/// Whether a word stays in a line of which the file at this place alone does.
fn stays(words: &[&str], i: usize, place: usize) -> bool
    requires { i < length words.now }
    ensures yes { IsTrue result → (i ≡ place) ⊎ ((word : List ℕ) → ¬ IsFree (texts words.now) i word) }
    ensures not { result ≡ false → (i ≢ place) × ((word : List ℕ) → slice_get (texts words.now) i ≡ Some word
        → IsFree (texts words.now) i word) }
{
    if i == place {
        return true;
    }
    !is_free(words, i)
}

/// The words of a line without those that stand for themselves, but for the one at this place.
pub fn line_of<'a>(
    alloc: Global,
    words: &'a [&'a str],
    place: usize,
) -> Result<Vec<&'a str>, AllocError>
    ensures { IfOk result (λ left. AreLeft (texts words.entry.now) place (length words.entry.now) (texts left.items)) }
{
    let mut left = Vec::new(alloc);
    for i in 0..words.len() {
        if stays(words, i, place) {
            left.push(words[i])?;
        }
    }
    Ok(left)
}
