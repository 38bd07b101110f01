//! The words of a command line.
ghost use Rattle.std.specs.Prelude.{◌≡◌, ◌≢◌, ◌⊎◌, ◌<◌, ◌≤◌, ◌++◌, ℕ, false, List, map, length, slice_get, codes, IfOk};
ghost use Rattle.std.specs.Prelude.{◌↔◌, IfSome, IsTrue, MatchOption, true};
ghost use Rattle.std.specs.List.{Contains};
ghost use Rattle.cli_words.specs.Line.{AreKnown, AreNoReport, AreNoRows, AreNoSalvage, AreOptions, Asks};
ghost use Rattle.cli_words.specs.Line.{AsksBesides, AsksLarge, AsksMaps};
ghost use Rattle.cli_words.specs.Line.{AreNoCheck, AsksComplete, AsksDeep, AsksNoDeep, AsksNoPart};
ghost use Rattle.cli_words.specs.Line.{AsksCells, AsksForm, AsksNoCells, AsksNoForm, AsksNoPlaces, IsOwn};
ghost use Rattle.cli_words.specs.Line.{AsksBetween, AsksChangeForm, AsksCompared, AsksFrame, AsksNoChangeForm};
ghost use Rattle.cli_words.specs.Line.{AsksNothingCompared};
ghost use Rattle.cli_words.specs.internal.Line.{AskNoDiff, IsBetween, IsCompared, IsDiff};
ghost use Rattle.cli_words.specs.internal.Line.{IsCheck, IsFormed, IsPlaced};
ghost use Rattle.cli_words.specs.internal.Line.{IsReport, IsRows};
ghost use Rattle.cli_words.specs.internal.Line.{IsSalvage};
ghost use Rattle.cli_words.specs.declared.words.Own.{Own};
ghost use Rattle.cli_words.specs.Line.{AsksNoneBesides, AsksNothing, AsksOf, AsksPart, AsksStyle, AsksVersion};
ghost use Rattle.cli_words.specs.Line.{AsksToLook, AsksTwo};
ghost use Rattle.cli_words.specs.Line.{HasNoText, HasText, IsCommon, IsFile, IsKnown};
ghost use Rattle.cli_words.specs.Line.{IsFrameNumber, IsNamed};
ghost use Rattle.cli_words.specs.Line.{IsPlain, MayBeAt, NamesNoFrame, NamesOfLog, StandsFree, TakesValue};
ghost use Rattle.cli_words.specs.Line.{IsPageNumber, IsVersion};

use crate::requests::{
    Between, Cells, ChangeForm, Compared, Deep, Options, Part, Request, RowForm, Style,
    SuperJournal,
};
use crate::tables::Tables;

/// Whether a word is this text.
fn stands_in(words: &[&str], text: &str) -> bool
    ensures yes { IsTrue result → Contains (map (λ w. w.now) words.entry.now) text.now }
    ensures not { result ≡ false → ¬ Contains (map (λ w. w.now) words.entry.now) text.now }
{
    for word in words {
        if *word == text {
            return true;
        }
    }
    false
}

/// What stands behind the `-` with which a word begins.
fn behind_dash<'a>(word: &'a str) -> Option<&'a str>
    ensures { MatchOption result ((rest : List ℕ) → word.entry.now ≢ codes "-" ++ rest)
        (λ rest. word.entry.now ≡ codes "-" ++ rest.now) }
{
    word.strip_prefix("-")
}

/// Whether a word is no option.
fn is_plain(word: &str) -> bool
    ensures yes { IsTrue result → IsPlain word.now }
    ensures not { result ≡ false → ¬ IsPlain word.now }
{
    match behind_dash(word) {
        Some(rest) => rest.is_empty(),
        None => true,
    }
}

/// What stands behind this name and a `=` in a word.
pub(crate) fn joined_text<'a>(word: &'a str, name: &str) -> Option<&'a str>
    ensures { MatchOption result ((text : List ℕ) → word.entry.now ≢ name.now ++ (codes "=" ++ text))
        (λ text. word.entry.now ≡ name.now ++ (codes "=" ++ text.now)) }
{
    let rest = word.strip_prefix(name)?;
    rest.strip_prefix("=")
}

/// Whether a word names an option with a value.
fn is_named(word: &str, name: &str) -> bool
    ensures yes { IsTrue result → IsNamed name.now word.now }
    ensures not { result ≡ false → ¬ IsNamed name.now word.now }
{
    word == name || joined_text(word, name).is_some()
}

/// Whether a word is an option that each command has.
fn is_common(word: &str) -> bool
    ensures yes { IsTrue result → IsCommon word.now }
    ensures not { result ≡ false → ¬ IsCommon word.now }
{
    word == "-v"
        || word == "--verbose"
        || word == "--json"
        || word == "--large"
        || word == "--any"
        || word == "--super-journal=present"
        || word == "--super-journal=gone"
        || word == "--super-journal=look"
        || is_named(word, "--at")
}

/// A command that has options which not each has.
#[derive(Clone, Copy, Debug, PartialEq, Eq)]
pub(crate) enum Own {
    /// `check`.
    Checks,
    /// `recover`.
    Recovers,
    /// `report`.
    Reports,
    /// `rows`.
    Prints,
    /// `diff`.
    Compares,
    /// `salvage`.
    Salvages,
}

/// Whether a word is an option of a command, and not of each.
fn is_own(word: &str, own: Own) -> bool
    ensures yes { IsTrue result → IsOwn own word.now }
    ensures not { result ≡ false → ¬ IsOwn own word.now }
{
    match own {
        Own::Checks => word == "--deep" || word == "--complete" || word == "--pointer-maps",
        Own::Recovers => word == "--force" || is_named(word, "--to"),
        Own::Reports => {
            word == "--changes" || word == "--pointer-maps" || is_named(word, "--to")
        }
        Own::Prints => {
            word == "--csv"
                || word == "--sql"
                || word == "--places"
                || word == "--deleted"
                || word == "--all"
                || is_named(word, "--table")
        }
        Own::Salvages => word == "--places" || is_named(word, "--to"),
        Own::Compares => {
            word == "--sql"
                || word == "--commits"
                || word == "--deleted"
                || is_named(word, "--table")
                || is_named(word, "--from")
                || is_named(word, "--to")
        }
    }
}

/// Whether a word behind a command is no option, or one that the command has.
fn is_known(word: &str, own: Own) -> bool
    ensures yes { IsTrue result → IsKnown own word.now }
    ensures not { result ≡ false → ¬ IsKnown own word.now }
{
    is_plain(word) || is_common(word) || is_own(word, own)
}

/// Whether each word behind a command is no option, or one that the command has.
fn are_known(words: &[&str], own: Own) -> bool
    ensures yes { IsTrue result → AreKnown own (map (λ w. w.now) words.entry.now) }
    ensures not { result ≡ false → ¬ AreKnown own (map (λ w. w.now) words.entry.now) }
{
    for word in words {
        if !is_known(word, own) {
            return false;
        }
    }
    true
}

/// Whether a value stands behind a word.
fn takes_value(word: &str) -> bool
    ensures yes { IsTrue result → TakesValue word.now }
    ensures not { result ≡ false → ¬ TakesValue word.now }
{
    word == "--page" || word == "--to" || word == "--at" || word == "--table" || word == "--from"
}

/// Whether a word behind the command stands for itself.
fn stands_free(words: &[&str], i: usize) -> bool
    requires behind { 2 ≤ i }
    requires within { i < length words.now }
    ensures yes { IsTrue result → (word : List ℕ) → slice_get (map (λ w. w.now) words.entry.now) i ≡ Some word
        → StandsFree (map (λ w. w.now) words.entry.now) i word }
    ensures not { result ≡ false → (word : List ℕ) → ¬ StandsFree (map (λ w. w.now) words.entry.now) i word }
{
    stands_in(&words[2..i], "--") || (is_plain(words[i]) && !takes_value(words[i - 1]))
}

/// Whether no word from a place on stands for itself.
fn none_free(words: &[&str], from: usize) -> bool
    requires { 2 ≤ from }
    ensures yes { IsTrue result → (i : ℕ) (word : List ℕ) → from ≤ i
        → ¬ StandsFree (map (λ w. w.now) words.entry.now) i word }
    ensures not { result ≡ false → (i : ℕ) × (word : List ℕ) × (from ≤ i)
        × StandsFree (map (λ w. w.now) words.entry.now) i word }
{
    for i in from..words.len() {
        if stands_free(words, i) {
            return false;
        }
    }
    true
}

/// Whether the only word that stands for itself is the file.
fn names_file(words: &[&str], file: &str) -> bool
    ensures yes { IsTrue result → IsFile (map (λ w. w.now) words.entry.now) file.now }
    ensures not { result ≡ false → ¬ IsFile (map (λ w. w.now) words.entry.now) file.now }
{
    for i in 2..words.len() {
        if stands_free(words, i) {
            return words[i] == file && none_free(words, i + 1);
        }
    }
    false
}

/// Whether the words are a program's name, this command and then words of which one is the file.
fn is_asked(words: &[&str], command: &str, file: &str) -> bool
    ensures second { IsTrue result → slice_get (map (λ w. w.now) words.entry.now) 1 ≡ Some command.now }
    ensures file { IsTrue result → IsFile (map (λ w. w.now) words.entry.now) file.now }
    ensures not { result ≡ false → slice_get (map (λ w. w.now) words.entry.now) 1 ≡ Some command.now
        → ¬ IsFile (map (λ w. w.now) words.entry.now) file.now }
{
    if words.len() < 2 {
        return false;
    }
    words[1] == command && names_file(words, file)
}

/// The words behind the command and before `--`.
fn options_of<'a>(words: &'a [&'a str]) -> &'a [&'a str]
    ensures { AreOptions (map (λ w. w.now) words.entry.now) (map (λ w. w.now) result.now) }
{
    let from = words.len().min(2);
    for end in from..words.len() {
        if words[end] == "--" {
            return &words[from..end];
        }
    }
    &words[from..]
}

/// The text that the option of this name gives.
fn text_of<'a>(options: &'a [&'a str], name: &str) -> Option<&'a str>
    ensures { MatchOption result (HasNoText name.now (map (λ w. w.now) options.entry.now))
        (λ text. HasText name.now (map (λ w. w.now) options.entry.now) text.now) }
{
    for i in 0..options.len() {
        if options[i] == name && i + 1 < options.len() {
            return Some(options[i + 1]);
        }
        if let Some(text) = joined_text(options[i], name) {
            return Some(text);
        }
    }
    None
}

/// The number of a page. None where the text is none, or 0.
fn page_number(text: &str) -> Option<u32>
    ensures { MatchOption result ((n : ℕ) → ¬ IsPageNumber text.now n) (IsPageNumber text.now) }
{
    match text.parse::<u32>() {
        Ok(number) if number != 0 => Some(number),
        _ => None,
    }
}

/// The number of a commit's frame, or 0. None where the text is none.
fn frame_number(text: &str) -> Option<u32>
    ensures { MatchOption result ((n : ℕ) → ¬ IsFrameNumber text.now n) (IsFrameNumber text.now) }
{
    text.parse::<u32>().ok()
}

/// The part that the options ask for. None where its number is none, or where they ask for more than one.
fn part_of(options: &[&str]) -> Option<Part>
    ensures { MatchOption result (AsksNoPart (map (λ w. w.now) options.entry.now))
        (AsksPart (map (λ w. w.now) options.entry.now)) }
{
    let log = stands_in(options, "--log");
    let commits = stands_in(options, "--commits");
    let all = stands_in(options, "--all");
    let pages = stands_in(options, "--pages");
    if log && commits {
        return None;
    }
    if all && !log {
        return None;
    }
    if pages && log {
        return None;
    }
    if pages && commits {
        return None;
    }
    if let Some(text) = text_of(options, "--page") {
        let number = page_number(text)?;
        if log {
            return None;
        }
        if commits {
            return None;
        }
        if pages {
            return None;
        }
        return Some(Part::Page(number));
    }
    if log {
        return Some(Part::Log { all });
    }
    if commits {
        return Some(Part::Commits);
    }
    Some(if pages { Part::Pages } else { Part::Header })
}

/// Whether a part is none of the whole log, or no commit is named for it.
fn may_be_at(part: Part, at: Option<u32>) -> bool
    ensures yes { IsTrue result → MayBeAt part at }
    ensures not { result ≡ false → (¬ MayBeAt part at) }
{
    match part {
        Part::Header | Part::Page(_) | Part::Pages => true,
        Part::Log { .. } | Part::Commits => at.is_none(),
    }
}

/// Whether they ask to look for the super-journal, or to accept any database.
fn looks(options: &[&str]) -> bool
    ensures yes { IsTrue result → AsksToLook (map (λ w. w.now) options.entry.now) }
    ensures not { result ≡ false → ¬ AsksToLook (map (λ w. w.now) options.entry.now) }
{
    stands_in(options, "--super-journal=look") || stands_in(options, "--any")
}

/// What they say of the super-journal. None if they contradict themselves.
fn super_journal_of(options: &[&str]) -> Option<Option<SuperJournal>>
    ensures { MatchOption result (AsksTwo (map (λ w. w.now) options.entry.now))
        (AsksOf (map (λ w. w.now) options.entry.now)) }
{
    let present = stands_in(options, "--super-journal=present");
    let gone = stands_in(options, "--super-journal=gone");
    let look = looks(options);
    match (present, gone, look) {
        (false, false, false) => Some(None),
        (true, false, false) => Some(Some(SuperJournal::Present)),
        (false, true, false) => Some(Some(SuperJournal::Gone)),
        (false, false, true) => Some(Some(SuperJournal::Look)),
        _ => None,
    }
}

/// Whether they accept databases above 1 GiB.
fn is_large(options: &[&str]) -> bool
    ensures { AsksLarge (map (λ w. w.now) options.entry.now) result }
{
    stands_in(options, "--large") || stands_in(options, "--any")
}

/// Whether they accept databases with auto-vacuum.
fn has_maps(options: &[&str]) -> bool
    ensures { AsksMaps (map (λ w. w.now) options.entry.now) result }
{
    stands_in(options, "--pointer-maps") || stands_in(options, "--any")
}

/// The commit that the option of this name gives. None where what it gives is no frame.
fn commit_of(options: &[&str], name: &str) -> Option<Option<u32>>
    ensures { MatchOption result (NamesNoFrame name.now (map (λ w. w.now) options.entry.now))
        (AsksFrame name.now (map (λ w. w.now) options.entry.now)) }
{
    match text_of(options, name) {
        Some(text) => Some(Some(frame_number(text)?)),
        None => Some(None),
    }
}

/// How they ask for what is found.
fn style_of(options: &[&str]) -> Style
    ensures { AsksStyle (map (λ w. w.now) options.entry.now) result }
{
    if stands_in(options, "--json") {
        Style::Json
    } else {
        Style::Lines
    }
}

/// What the options ask besides. None if they contradict themselves about the super-journal, or name no frame for a
/// commit.
fn besides(options: &[&str]) -> Option<Options>
    ensures { MatchOption result (AsksNoneBesides (map (λ w. w.now) options.entry.now))
        (AsksBesides (map (λ w. w.now) options.entry.now)) }
{
    let verbose = stands_in(options, "-v") || stands_in(options, "--verbose");
    let super_journal = super_journal_of(options)?;
    let at = commit_of(options, "--at")?;
    let style = style_of(options);
    let large = is_large(options);
    let pointer_maps = has_maps(options);
    Some(Options {
        verbose,
        super_journal,
        at,
        front: None,
        style,
        large,
        pointer_maps,
    })
}

/// The part that they ask for at this commit, if they name one. None where they ask for none, or it can't be shown
/// there.
fn part_at(options: &[&str], at: Option<u32>) -> Option<Part>
    ensures { MatchOption result
        (AsksNoPart (map (λ w. w.now) options.entry.now) ⊎ NamesOfLog (map (λ w. w.now) options.entry.now) at)
        (λ part. AsksPart (map (λ w. w.now) options.entry.now) part × MayBeAt part at) }
{
    let part = part_of(options)?;
    if may_be_at(part, at) {
        Some(part)
    } else {
        None
    }
}

/// Whether the words after a command ask for all to be judged.
pub fn asks_complete(words: &[&str]) -> bool
    ensures { AsksComplete (map (λ w. w.now) words.entry.now) result }
{
    stands_in(options_of(words), "--complete")
}

/// Which deep check they ask for, if any. None if they ask for all to be judged, and for no deep check.
fn deep_of(options: &[&str]) -> Option<Option<Deep>>
    ensures { MatchOption result (AsksNoDeep (map (λ w. w.now) options.entry.now))
        (AsksDeep (map (λ w. w.now) options.entry.now)) }
{
    let deep = stands_in(options, "--deep");
    let complete = stands_in(options, "--complete");
    if deep {
        return Some(Some(Deep { complete }));
    }
    if complete { None } else { Some(None) }
}

/// What the options of `check` ask for. None if they aren't understood.
fn check_asked<'a>(given: &'a [&'a str], file: &'a str, options: Options) -> Option<Request<'a>>
    ensures { MatchOption result (AreNoCheck (map (λ w. w.now) given.entry.now))
        (IsCheck (map (λ w. w.now) given.entry.now) file.entry options) }
{
    if !are_known(given, Own::Checks) {
        return None;
    }
    let deep = deep_of(given)?;
    Some(Request::Check {
        file,
        deep,
        options,
    })
}

/// What the options of a report ask for. None where they don't say so.
fn report_asked<'a>(given: &'a [&'a str], file: &'a str, options: Options) -> Option<Request<'a>>
    ensures { MatchOption result (AreNoReport (map (λ w. w.now) given.entry.now))
        (IsReport (map (λ w. w.now) given.entry.now) file.entry options) }
{
    if !are_known(given, Own::Reports) {
        return None;
    }
    let to = text_of(given, "--to")?;
    let changes = stands_in(given, "--changes");
    Some(Request::Report {
        file,
        to,
        changes,
        options,
    })
}

/// The form of rows that they ask for. None where they ask for two.
fn form_of(options: &[&str]) -> Option<RowForm>
    ensures { MatchOption result (AsksNoForm (map (λ w. w.now) options.entry.now))
        (AsksForm (map (λ w. w.now) options.entry.now)) }
{
    let json = stands_in(options, "--json");
    let csv = stands_in(options, "--csv");
    let sql = stands_in(options, "--sql");
    if json && csv {
        return None;
    }
    if json && sql {
        return None;
    }
    if csv && sql {
        return None;
    }
    if json {
        return Some(RowForm::Json);
    }
    Some(if sql { RowForm::Sql } else { RowForm::Csv })
}

/// What the options of `rows` that ask for no places ask for. None where they ask for two forms.
fn formed<'a>(given: &'a [&'a str], file: &'a str, options: Options) -> Option<Request<'a>>
    requires plain { AsksNoPlaces (map (λ w. w.now) given.now) }
    ensures { MatchOption result (AsksNoForm (map (λ w. w.now) given.entry.now))
        (IsFormed (map (λ w. w.now) given.entry.now) file.entry options) }
{
    let form = form_of(given)?;
    let table = text_of(given, "--table");
    Some(Request::Rows {
        file,
        table,
        form,
        options,
    })
}

/// Which cells they ask for the places of, where they ask for places; deleted: of deleted ones; all: of these also in
/// frames that aren't shown. None where they ask for no such places.
fn cells_of<'a>(given: &'a [&'a str], places: bool, deleted: bool, all: bool) -> Option<Cells<'a>>
    requires places { IsTrue places ↔ Contains (map (λ w. w.now) given.now) (codes "--places") }
    requires deleted { IsTrue deleted ↔ Contains (map (λ w. w.now) given.now) (codes "--deleted") }
    requires all { IsTrue all ↔ Contains (map (λ w. w.now) given.now) (codes "--all") }
    requires some { IsTrue places ⊎ IsTrue deleted }
    ensures { MatchOption result (AsksNoCells (map (λ w. w.now) given.entry.now))
        (AsksCells (map (λ w. w.now) given.entry.now)) }
{
    if stands_in(given, "--csv") {
        return None;
    }
    if stands_in(given, "--sql") {
        return None;
    }
    if !deleted {
        if all {
            return None;
        }
        return Some(Cells::Places(text_of(given, "--table")));
    }
    if places {
        return None;
    }
    match text_of(given, "--table") {
        Some(_) => None,
        None => Some(Cells::Deleted { all }),
    }
}

/// What the options of `rows` ask for that are all known. None where they don't say so.
fn rows_or_cells<'a>(given: &'a [&'a str], file: &'a str, options: Options) -> Option<Request<'a>>
    ensures { MatchOption result
        (AsksNoForm (map (λ w. w.now) given.entry.now) ⊎ AsksNoCells (map (λ w. w.now) given.entry.now))
        (λ request. IsFormed (map (λ w. w.now) given.entry.now) file.entry options request
        ⊎ IsPlaced (map (λ w. w.now) given.entry.now) file.entry options request) }
{
    let places = stands_in(given, "--places");
    let deleted = stands_in(given, "--deleted");
    let all = stands_in(given, "--all");
    if !places && !deleted {
        if all {
            return None;
        }
        return formed(given, file, options);
    }
    match cells_of(given, places, deleted, all) {
        Some(cells) => Some(Request::Cells {
            file,
            cells,
            options,
        }),
        None => None,
    }
}

/// What the options of `rows` ask for. None where they don't say so.
fn rows_asked<'a>(given: &'a [&'a str], file: &'a str, options: Options) -> Option<Request<'a>>
    ensures { MatchOption result (AreNoRows (map (λ w. w.now) given.entry.now))
        (IsRows (map (λ w. w.now) given.entry.now) file.entry options) }
{
    if !are_known(given, Own::Prints) {
        return None;
    }
    rows_or_cells(given, file, options)
}

/// The form of changes that they ask for. None where they ask for two, or for a script of each commit.
fn change_form_of(options: &[&str]) -> Option<ChangeForm>
    ensures { MatchOption result (AsksNoChangeForm (map (λ w. w.now) options.entry.now))
        (AsksChangeForm (map (λ w. w.now) options.entry.now)) }
{
    let json = stands_in(options, "--json");
    if !stands_in(options, "--sql") {
        return Some(if json {
            ChangeForm::Json
        } else {
            ChangeForm::Lines
        });
    }
    if json || stands_in(options, "--commits") {
        return None;
    }
    Some(ChangeForm::Sql)
}

/// What they ask to be compared, which is no deleted cells. None where they name no frame for a commit, or ask for no
/// form.
fn compared_of<'a>(given: &'a [&'a str]) -> Option<Compared<'a>>
    requires rows { ¬ Contains (map (λ w. w.now) given.now) (codes "--deleted") }
    ensures { MatchOption result (AsksNothingCompared (map (λ w. w.now) given.entry.now))
        (AsksCompared (map (λ w. w.now) given.entry.now)) }
{
    let from = commit_of(given, "--from")?;
    let to = commit_of(given, "--to")?;
    let form = change_form_of(given)?;
    let commits = stands_in(given, "--commits");
    Some(Compared {
        from: from.unwrap_or(0),
        to,
        tables: Tables { options: given },
        form,
        commits,
    })
}

/// Between which commits they ask for deleted cells. None where they name no frame for one, or ask for what doesn't go
/// with these.
fn between_of(given: &[&str]) -> Option<Between>
    requires deleted { Contains (map (λ w. w.now) given.now) (codes "--deleted") }
    ensures { MatchOption result (AsksNothingCompared (map (λ w. w.now) given.entry.now))
        (AsksBetween (map (λ w. w.now) given.entry.now)) }
{
    if stands_in(given, "--sql") {
        return None;
    }
    if stands_in(given, "--commits") {
        return None;
    }
    if let Some(_) = text_of(given, "--table") {
        return None;
    }
    let from = commit_of(given, "--from")?;
    let to = commit_of(given, "--to")?;
    Some(Between {
        from: from.unwrap_or(0),
        to,
    })
}

/// What the options of `diff` that are all known ask for. None where they don't say so.
fn rows_or_deleted<'a>(given: &'a [&'a str], file: &'a str, options: Options) -> Option<Request<'a>>
    ensures { MatchOption result (AsksNothingCompared (map (λ w. w.now) given.entry.now))
        (λ request. IsCompared (map (λ w. w.now) given.entry.now) file.entry options request
        ⊎ IsBetween (map (λ w. w.now) given.entry.now) file.entry options request) }
{
    if stands_in(given, "--deleted") {
        let between = between_of(given)?;
        return Some(Request::DeletedDiff {
            file,
            between,
            options,
        });
    }
    let compared = compared_of(given)?;
    Some(Request::Diff {
        file,
        compared,
        options,
    })
}

/// What the options of `diff` ask for. None where they don't say so.
fn diff_asked<'a>(given: &'a [&'a str], file: &'a str, options: Options) -> Option<Request<'a>>
    ensures { MatchOption result (AskNoDiff (map (λ w. w.now) given.entry.now) options)
        (IsDiff (map (λ w. w.now) given.entry.now) file.entry options) }
{
    if !are_known(given, Own::Compares) {
        return None;
    }
    if options.at.is_some() {
        return None;
    }
    rows_or_deleted(given, file, options)
}

/// What the options of `salvage` ask for. None where they don't say so.
fn salvage_asked<'a>(given: &'a [&'a str], file: &'a str, options: Options) -> Option<Request<'a>>
    ensures { MatchOption result (AreNoSalvage (map (λ w. w.now) given.entry.now))
        (IsSalvage (map (λ w. w.now) given.entry.now) file.entry options) }
{
    if !are_known(given, Own::Salvages) {
        return None;
    }
    let to = text_of(given, "--to")?;
    let places = stands_in(given, "--places");
    Some(Request::Salvage {
        file,
        to,
        places,
        options,
    })
}

/// What the words ask for where the command is this one and the file that one; None where they don't say so.
pub fn asked<'a>(words: &'a [&'a str], command: &str, file: &'a str) -> Option<Request<'a>>
    ensures { MatchOption result (AsksNothing (map (λ w. w.now) words.entry.now) command.now file.entry.now)
        (Asks (map (λ w. w.now) words.entry.now)) }
{
    if !is_asked(words, command, file) {
        return None;
    }
    let given = options_of(words);
    let options = besides(given)?;
    if command == "show" {
        let part = part_at(given, options.at)?;
        return Some(Request::Show {
            file,
            part,
            options,
        });
    }
    if command == "report" {
        return report_asked(given, file, options);
    }
    if command == "rows" {
        return rows_asked(given, file, options);
    }
    if command == "diff" {
        return diff_asked(given, file, options);
    }
    if command == "check" {
        return check_asked(given, file, options);
    }
    if command == "salvage" {
        return salvage_asked(given, file, options);
    }
    if command != "recover" || !are_known(given, Own::Recovers) {
        return None;
    }
    let to = text_of(given, "--to");
    if to.is_none() && options.at.is_some() {
        return None;
    }
    let force = stands_in(given, "--force");
    Some(Request::Recover {
        file,
        to,
        force,
        options,
    })
}

/// Whether a word asks for the version.
fn is_version(word: &str) -> bool
    ensures { IsTrue result ↔ IsVersion word.now }
{
    word == "--version" || word == "-V"
}

/// Whether the first word behind the program's name asks for the version.
pub fn asks_version(words: &[&str]) -> bool
    ensures { IsTrue result ↔ AsksVersion (map (λ w. w.now) words.entry.now) }
{
    words.len() > 1 && is_version(words[1])
}
