//! What a script leaves out.
ghost use Rattle.std.specs.Prelude.{◌≡◌, ◌≤◌, ◌⊎◌, IfErr, IfOk, IsTrue, false, length, true};
ghost use Rattle.std.specs.Borrow.{Bor};
ghost use Rattle.std.specs.List.{list_any};
ghost use Rattle.std.specs.Str.{str_eq_ignore_ascii_case};
ghost use Rattle.cli_show_rows.specs.declared.stop.Stop.{Stop};
ghost use Rattle.cli_show_diff.specs.Changes.{texts_of};
ghost use Rattle.sqtables.specs.Objects.{IsTable};
ghost use Rattle.cli_show_diff.specs.LeftOut.{HasCount, IsMade, IsMadeLeft, IsNewLeft, IsOldLeft, IsPassed, IsStated};
ghost use Rattle.cli_show_diff.specs.LeftOut.{IsThere, LeavesOut, is_asked};

use crate::form::ChangeForm;
use crate::frame::{is_text_left, is_trigger, is_virtual_left};
use crate::pair::are_kept;
use cli_schema_text::can_be_named;
use cli_show_rows::{Stop, is_internal};
use sqtables::{Object, table_named};
use std::alloc::{AllocError, Global};

/// Whether an object has this name. SQLite's names don't tell ASCII's small letters from its capitals.
fn is_named(object: &Object, name: &[u8]) -> bool
    ensures { result ≡ str_eq_ignore_ascii_case object.now.name.items name.now }
{
    object.name.as_slice().eq_ignore_ascii_case(name)
}

/// Whether an object has one of these names.
fn is_among(names: &[&str], object: &Object) -> bool
    ensures { result ≡ list_any (λ n. str_eq_ignore_ascii_case object.now.name.items n.now) names.now }
{
    names.iter().any(|n| is_named(object, n.as_bytes()))
}

/// The same, or there is none.
fn is_asked(names: &[&str], object: &Object) -> bool
    ensures { result ≡ is_asked (texts_of names.now) object.now }
{
    names.is_empty() || is_among(names, object)
}

/// Whether statements of a script name an object of the old database: a trigger, or a table that is asked for.
fn is_stated(names: &[&str], object: &Object) -> bool
    ensures yes { IsTrue result → IsStated (texts_of names.now) object.now }
    ensures not { result ≡ false → ¬ IsStated (texts_of names.now) object.now }
{
    is_trigger(object) || (object.is_table() && is_asked(names, object))
}

/// Whether an object of the old database is left out.
fn is_old_left(names: &[&str], news: &[Object], object: &Object) -> bool
    ensures { IsOldLeft (texts_of names.now) news.now object.now result }
{
    if !is_stated(names, object) {
        return is_virtual_left(news, object);
    }
    !can_be_named(object.name.as_slice())
}

/// How many of these are.
fn count_olds(names: &[&str], news: &[Object], olds: &[Object]) -> usize
    ensures counted { HasCount (IsOldLeft (texts_of names.now) news.now) olds.now result }
    ensures few { result ≤ length olds.now }
{
    let mut count = 0;
    for object in olds {
        if is_old_left(names, news, object) {
            count += 1;
        }
    }
    count
}

/// Whether a table of the new database is kept as the old one has it.
fn is_there(olds: &[Object], object: &Object) -> bool
    ensures yes { IsTrue result → IsThere olds.now object.now }
    ensures not { result ≡ false → IsMade olds.now object.now }
{
    match table_named(olds, object.name.as_slice()) {
        Some(was) => are_kept(ChangeForm::Sql, was, object),
        None => false,
    }
}

/// Whether an object is a table that is asked for and made.
fn is_made(names: &[&str], olds: &[Object], object: &Object) -> bool
    ensures yes { IsTrue result → IsTable object.now × (is_asked (texts_of names.now) object.now ≡ true)
        × IsMade olds.now object.now }
    ensures not { result ≡ false → IsPassed (texts_of names.now) olds.now object.now }
{
    if !object.is_table() {
        return false;
    }
    if !is_asked(names, object) {
        return false;
    }
    if is_there(olds, object) {
        return false;
    }
    true
}

/// Whether a table that is made is left out, or its text.
fn is_made_left(alloc: Global, object: &Object) -> Result<bool, AllocError>
    ensures { IfOk result (IsMadeLeft object.now) }
{
    let text = is_text_left(alloc, object)?;
    let name = object.name.as_slice();
    Ok(!can_be_named(name) || (!is_internal(name) && text))
}

/// Whether an object of the new database is left out, or its text.
fn is_new_left(
    alloc: Global,
    names: &[&str],
    olds: &[Object],
    object: &Object,
) -> Result<bool, AllocError>
    ensures { IfOk result (IsNewLeft (texts_of names.now) olds.now object.now) }
{
    if is_trigger(object) {
        return is_text_left(alloc, object);
    }
    if is_made(names, olds, object) {
        return is_made_left(alloc, object);
    }
    Ok(is_virtual_left(olds, object))
}

/// How many of these are.
fn count_news(
    alloc: Global,
    names: &[&str],
    olds: &[Object],
    news: &[Object],
) -> Result<usize, AllocError>
    ensures counted { IfOk result (HasCount (IsNewLeft (texts_of names.now) olds.now) news.now) }
    ensures few { IfOk result (λ n. n ≤ length news.now) }
{
    let mut count = 0;
    for object in news {
        if is_new_left(alloc, names, olds, object)? {
            count += 1;
        }
    }
    Ok(count)
}

/// How many objects a script leaves out, or their texts.
pub(crate) fn left_out(
    alloc: Global,
    form: ChangeForm,
    names: &[&str],
    olds: &[Object],
    news: &[Object],
) -> Result<usize, Stop>
    ensures ok { IfOk result (LeavesOut form (texts_of names.now) olds.now news.now) }
    ensures err { IfErr result (λ stop. stop ≡ Stop.NoMemory) }
{
    match form {
        ChangeForm::Lines | ChangeForm::Json(_) => return Ok(0),
        ChangeForm::Sql => {}
    }
    let old = count_olds(names, news, olds);
    match count_news(alloc, names, olds, news) {
        Ok(new) => Ok(old + new),
        Err(_) => Err(Stop::NoMemory),
    }
}
