//! The super-journal that a journal names.
ghost use Rattle.std.specs.Prelude.{◌≡◌, ◌≢◌, ◌⊎◌, ◌+◌, ◌≤◌, ◌↔◌, ◌++◌, ◌∷◌, [], List, ℕ, length, take};
ghost use Rattle.fmt_super.specs.Supers.{IsSuperPath};
ghost use Rattle.sqrescue_c.specs.Recoveries.{EndsWithMagic};

use crate::refusals::names_super_journal;
use fmt_super::super_path;

/// What is answered of a journal that doesn't end as one that names a super-journal.
const NONE: u32 = 0;

/// That it ends so, and has no name that SQLite accepts.
const UNNAMED: u32 = 1;

/// That it names one.
const NAMED: u32 = 2;

/// That there is no room for the path.
const NO_ROOM: u32 = 3;

/// Writes a path, with a zero after it.
fn written(path: &[u8], out: &mut [u8]) -> u32
    ensures path { result ≡ 2 → take (length path.now + 1) out.new ≡ path.now ++ 0 ∷ [] }
    ensures one { (result ≡ 2) ⊎ (result ≡ 3) }
    ensures short { result ≢ 2 → length out.old ≤ length path.now }
{
    if out.len() <= path.len() {
        return NO_ROOM;
    }
    out[..path.len()].copy_from_slice(path);
    out[path.len()] = 0;
    NAMED
}

/// The path of the super-journal that a journal names, as SQLite reads it. Answers 0 if the journal doesn't end as one
/// that names a super-journal; 1 if it ends so, but has no such path; 2 if the path was written, with a zero after it;
/// 3 if there is no room for it.
#[unsafe(no_mangle)]
pub extern "C" fn sqr_super_path(journal: &[u8], out: &mut [u8]) -> u32
    ensures none { (result ≡ 0) ↔ ¬ EndsWithMagic journal.now }
    ensures unnamed { result ≡ 1 → (path : List ℕ) → ¬ IsSuperPath journal.now path }
    ensures named { result ≡ 2 → (path : List ℕ) × IsSuperPath journal.now path
        × (take (length path + 1) out.new ≡ path ++ 0 ∷ []) }
    ensures room { result ≡ 3 → (path : List ℕ) × IsSuperPath journal.now path × (length out.old ≤ length path) }
{
    if !names_super_journal(journal) {
        return NONE;
    }
    match super_path(journal) {
        Some(path) => written(path, out),
        None => UNNAMED,
    }
}
