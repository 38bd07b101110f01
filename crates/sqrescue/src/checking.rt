//! What `check` prints.
ghost use Rattle.std.specs.Prelude.{Ok, OnOk};
ghost use Rattle.std.specs.Io.KnownBytes.{Appends};
ghost use Rattle.cli_show_deep.specs.Lines.{found_text};
ghost use Rattle.cli_job.specs.Answers.{Tells, answer_of_check};

use cli_facts::{Notes, Quoted};
use cli_job::Answer;
use cli_show::ShowError;
use cli_show_deep::{DeepFinding, write_found};
use cli_words::{Deep, Style};
use sqdeepjudge::{DeepVerdict, Kind, NotJudged, Why};
use sqschema::Schema;
use std::io::Write;
use std::str;

/// Prints what a check found, and notes what a deep one leaves open. Refused by `NotJudged` after that if all was to be
/// judged, and something isn't.
pub(crate) fn write_checked<O: Write, E: Write>(
    out: &mut O,
    of: (Style, Option<Deep>),
    found: &DeepFinding,
    notes: &Notes<'_, E>,
) -> Result<Answer, ShowError>
    ensures answer { Tells (Ok (answer_of_check of.1 found.now.verdict)) result }
    ensures text { OnOk result (Appends (O.contents out.old) (O.contents out.new)
        (found_text of.0 found.now.verdict found.now.missing)) }
{
    let (style, deep) = of;
    let verdict = &found.verdict;
    write_found(out, style, verdict, found.missing)?;
    out.flush()?;
    if let DeepVerdict::Sound(_, schema, unjudged) = verdict {
        tell_asides(verdict, notes);
        tell_unjudged(verdict, notes);
        tell_unjudged_tables(verdict, notes);
        tell_others(schema, &unjudged.all, notes);
        tell_ill_formed(unjudged.ill_formed, notes);
    }
    Ok(Answer::of_check(deep, verdict))
}

/// Says how many cells have a text that isn't one in the database's encoding.
fn tell_ill_formed<E: Write>(count: u64, notes: &Notes<'_, E>) {
    if count > 0 {
        notes.say(&format_args!(
            "records with a text that isn't valid in the database's encoding: {count}; SQLite stores such texts"
        ));
    }
}

/// Says of each table whose text isn't understood that the kind of its tree isn't judged.
fn tell_asides<E: Write>(verdict: &DeepVerdict, notes: &Notes<'_, E>) {
    for i in 0..usize::MAX {
        let Some(name) = verdict.aside(i) else {
            return;
        };
        let name = Quoted(str::from_utf8(name).unwrap_or("?"));
        notes.say(&format_args!(
            "not judged: the kind of the tree of {name}, a table whose text isn't understood"
        ));
    }
}

/// Says of each index that isn't judged that it isn't.
fn tell_unjudged<E: Write>(verdict: &DeepVerdict, notes: &Notes<'_, E>) {
    for i in 0..usize::MAX {
        let Some(name) = verdict.unjudged(i) else {
            return;
        };
        let name = Quoted(str::from_utf8(name).unwrap_or("?"));
        notes.say(&format_args!("not judged: the entries of index {name}"));
    }
}

/// Says of each table whose rows aren't judged that they aren't.
fn tell_unjudged_tables<E: Write>(verdict: &DeepVerdict, notes: &Notes<'_, E>) {
    for i in 0..usize::MAX {
        let Some(name) = verdict.unjudged_table(i) else {
            return;
        };
        let name = Quoted(str::from_utf8(name).unwrap_or("?"));
        notes.say(&format_args!("not judged: NOT NULL and the types of table {name}"));
    }
}

/// Says what else of an object isn't judged.
fn tell_other<E: Write>(it: NotJudged, name: Quoted<'_>, notes: &Notes<'_, E>) {
    let number = it.number;
    match (it.kind, it.why) {
        (Kind::Index, Why::Where) => {
            notes.say(&format_args!("not judged: which rows index {name} has by its WHERE"));
        }
        (Kind::Index | Kind::Table, _) => {}
        (Kind::Check, _) => {
            notes.say(&format_args!("not judged: CHECK {number} of table {name}"));
        }
        (Kind::ForeignKey, _) => {
            notes.say(&format_args!("not judged: foreign key {number} of table {name}"));
        }
        (Kind::View, _) => notes.say(&format_args!("not judged: view {name}")),
        (Kind::Trigger, _) => notes.say(&format_args!("not judged: trigger {name}")),
        (Kind::VirtualTable, _) => notes.say(&format_args!("not judged: virtual table {name}")),
    }
}

/// Says of each other thing that isn't judged that it isn't.
fn tell_others<E: Write>(schema: &Schema, all: &[NotJudged], notes: &Notes<'_, E>) {
    for it in all {
        if let Some(item) = schema.items.get(it.row) {
            tell_other(
                *it,
                Quoted(str::from_utf8(&item.name).unwrap_or("?")),
                notes,
            );
        }
    }
}
