//! What stands before and behind the changes of a script.
ghost use Rattle.std.specs.Prelude.{◌≡◌, ◌⊎◌, ◌++◌, ℕ, All, Bool, IfErr, IfOk, IsTrue, List, MatchBool, OnOk};
ghost use Rattle.std.specs.Prelude.{false, true};
ghost use Rattle.std.specs.Io.KnownBytes.{Appends};
ghost use Rattle.std.specs.List.{Contains};
ghost use Rattle.sqtables.specs.declared.list.Object.{Object};
ghost use Rattle.cli_schema_text.specs.Comments.{hex_line, unnamed_text};
ghost use Rattle.cli_show_rows.specs.declared.stop.Stop.{Stop};
ghost use Rattle.cli_show_diff.specs.Frames.{AreTextsOf, IsClosingText, IsDropText, IsMakeText, IsOpeningText};
ghost use Rattle.cli_show_diff.specs.Frames.{IsSameVirtual, IsStaying, IsTextLeft, IsTriggerNamed, IsVirtualLeft};
ghost use Rattle.cli_show_diff.specs.Frames.{drop_trigger, is_trigger, undropped_text, unmade_text};

use crate::form::ChangeForm;
use cli_row_text::write_between;
use cli_schema_text::{can_be_named, is_left_out, judged, write_unnamed};
use cli_show_rows::{Stop, is_virtual, print_statement, write_start};
use cli_text::write_hex;
use sqdeep::Encoding;
use sqtables::Object;
use std::alloc::{AllocError, Global};
use std::io::{self, Write};

/// Whether an object is a trigger.
pub(crate) fn is_trigger(object: &Object) -> bool
    ensures { result ≡ is_trigger object.now }
{
    object.kind.as_slice() == b"trigger".as_slice()
}

/// Whether an object is a trigger of this name. SQLite's names don't tell ASCII's small letters from its capitals.
fn is_trigger_named(object: &Object, name: &[u8]) -> bool
    ensures yes { IsTrue result → IsTriggerNamed name.now object.now }
    ensures not { result ≡ false → ¬ IsTriggerNamed name.now object.now }
{
    is_trigger(object) && object.name.as_slice().eq_ignore_ascii_case(name)
}

/// Whether a comment stands for the text of an object.
pub(crate) fn is_text_left(alloc: Global, object: &Object) -> Result<bool, AllocError>
    ensures { IfOk result (IsTextLeft object.now) }
{
    let kind = object.kind.as_slice();
    let name = object.name.as_slice();
    let printed = judged(alloc, kind, name, object.sql.as_slice())?;
    Ok(is_left_out(&printed))
}

/// Whether an object is a trigger of this name whose text isn't printed.
fn stays_for(alloc: Global, object: &Object, name: &[u8]) -> Result<bool, AllocError>
    ensures { IfOk result (λ stays. MatchBool stays (IsTriggerNamed name.now object.now × IsTextLeft object.now true)
        ((¬ IsTriggerNamed name.now object.now) ⊎ IsTextLeft object.now false)) }
{
    if !is_trigger_named(object, name) {
        return Ok(false);
    }
    is_text_left(alloc, object)
}

/// Whether a trigger of this name stays, as its new text isn't printed.
fn is_staying(alloc: Global, news: &[Object], name: &[u8]) -> Result<bool, AllocError>
    ensures { IfOk result (IsStaying name.now news.now) }
{
    for object in news {
        if stays_for(alloc, object, name)? {
            return Ok(true);
        }
    }
    Ok(false)
}

/// Bytes in hex at the end of a comment.
fn write_hex_name<W: Write>(out: &mut W, name: &[u8]) -> io::Result<()>
    ensures { OnOk result (Appends (W.contents out.old) (W.contents out.new) (hex_line name.now)) }
{
    out.write_all(b": x'")?;
    write_hex(out, name)?;
    out.write_all(b"'\n")
}

/// That a trigger of this name stays.
fn write_stay<W: Write>(out: &mut W, name: &[u8]) -> io::Result<()>
    ensures { OnOk result (Appends (W.contents out.old) (W.contents out.new) (drop_trigger true name.now)) }
{
    out.write_all(b"-- not dropped, its new text isn't printed")?;
    write_hex_name(out, name)
}

/// What drops a trigger of this name.
fn write_drop<W: Write>(out: &mut W, name: &[u8]) -> io::Result<()>
    ensures { OnOk result (Appends (W.contents out.old) (W.contents out.new) (drop_trigger false name.now)) }
{
    out.write_all(b"DROP TRIGGER ")?;
    write_between(out, b'"', name)?;
    out.write_all(b";\n")
}

/// The one or the other.
fn write_named<W: Write>(out: &mut W, stays: bool, name: &[u8]) -> io::Result<()>
    ensures { OnOk result (Appends (W.contents out.old) (W.contents out.new) (drop_trigger stays name.now)) }
{
    if stays {
        write_stay(out, name)
    } else {
        write_drop(out, name)
    }
}

/// Adds what is written of a trigger of this name in the old database.
fn add_named(alloc: Global, news: &[Object], name: &[u8], out: &mut Vec<u8>) -> Result<(), Stop>
    ensures ok { OnOk result ((stays : Bool) × IsStaying name.now news.now stays
        × (out.new.items ≡ out.old.items ++ drop_trigger stays name.now)) }
    ensures err { IfErr result (λ stop. stop ≡ Stop.NoMemory) }
{
    let Ok(stays) = is_staying(alloc, news, name) else {
        return Err(Stop::NoMemory);
    };
    match write_named(out, stays, name) {
        Ok(()) => Ok(()),
        Err(_) => Err(Stop::NoMemory),
    }
}

/// The same of one that no statement can name.
fn add_unnamed(name: &[u8], out: &mut Vec<u8>) -> Result<(), Stop>
    ensures ok { OnOk result (out.new.items ≡ out.old.items ++ unnamed_text name.now) }
    ensures err { IfErr result (λ stop. stop ≡ Stop.NoMemory) }
{
    match write_unnamed(out, name) {
        Ok(()) => Ok(()),
        Err(_) => Err(Stop::NoMemory),
    }
}

/// Whether both are virtual tables of one name and one text.
fn is_same_virtual(object: &Object, other: &Object) -> bool
    ensures yes { IsTrue result → IsSameVirtual object.now other.now }
    ensures not { result ≡ false → ¬ IsSameVirtual object.now other.now }
{
    is_virtual(object)
        && is_virtual(other)
        && other.name.as_slice() == object.name.as_slice()
        && other.sql.as_slice() == object.sql.as_slice()
}

/// Whether one of these objects is the same virtual table.
fn has_virtual(others: &[Object], object: &Object) -> bool
    ensures yes { IsTrue result → (p : Object) × Contains others.now p × IsSameVirtual object.now p }
    ensures not { result ≡ false → All (λ p. ¬ IsSameVirtual object.now p) others.now }
{
    for other in others {
        if is_same_virtual(object, other) {
            return true;
        }
    }
    false
}

/// Whether an object is a virtual table that the other database lacks, or has with another text.
pub(crate) fn is_virtual_left(others: &[Object], object: &Object) -> bool
    ensures { IsVirtualLeft others.now object.now result }
{
    if !is_virtual(object) {
        return false;
    }
    !has_virtual(others, object)
}

/// A comment that says so of an object of the old database.
fn write_undropped<W: Write>(out: &mut W, left: bool, object: &Object) -> io::Result<()>
    ensures { OnOk result (Appends (W.contents out.old) (W.contents out.new) (undropped_text left object.now)) }
{
    if !left {
        return Ok(());
    }
    out.write_all(b"-- not dropped, a virtual table")?;
    write_hex_name(out, object.name.as_slice())
}

/// And of one of the new one.
fn write_unmade<W: Write>(out: &mut W, left: bool, object: &Object) -> io::Result<()>
    ensures { OnOk result (Appends (W.contents out.old) (W.contents out.new) (unmade_text left object.now)) }
{
    if !left {
        return Ok(());
    }
    out.write_all(b"-- not made, a virtual table")?;
    write_hex_name(out, object.sql.as_slice())
}

/// Adds such a comment for an object of the old database.
fn add_undropped(news: &[Object], object: &Object, out: &mut Vec<u8>) -> Result<(), Stop>
    ensures ok { OnOk result ((left : Bool) × IsVirtualLeft news.now object.now left
        × (out.new.items ≡ out.old.items ++ undropped_text left object.now)) }
    ensures err { IfErr result (λ stop. stop ≡ Stop.NoMemory) }
{
    match write_undropped(out, is_virtual_left(news, object), object) {
        Ok(()) => Ok(()),
        Err(_) => Err(Stop::NoMemory),
    }
}

/// And for one of the new one.
fn add_unmade(olds: &[Object], object: &Object, out: &mut Vec<u8>) -> Result<(), Stop>
    ensures ok { OnOk result ((left : Bool) × IsVirtualLeft olds.now object.now left
        × (out.new.items ≡ out.old.items ++ unmade_text left object.now)) }
    ensures err { IfErr result (λ stop. stop ≡ Stop.NoMemory) }
{
    match write_unmade(out, is_virtual_left(olds, object), object) {
        Ok(()) => Ok(()),
        Err(_) => Err(Stop::NoMemory),
    }
}

/// Adds what is written of an object of the old database.
fn add_drop(alloc: Global, news: &[Object], object: &Object, out: &mut Vec<u8>) -> Result<(), Stop>
    ensures ok { OnOk result ((t : List ℕ) × IsDropText news.now object.now t
        × (out.new.items ≡ out.old.items ++ t)) }
    ensures err { IfErr result (λ stop. stop ≡ Stop.NoMemory) }
{
    if !is_trigger(object) {
        return add_undropped(news, object, out);
    }
    let name = object.name.as_slice();
    if !can_be_named(name) {
        return add_unnamed(name, out);
    }
    add_named(alloc, news, name, out)
}

/// Adds what is written of an object of the new one.
fn add_make(alloc: Global, olds: &[Object], object: &Object, out: &mut Vec<u8>) -> Result<(), Stop>
    ensures ok { OnOk result ((t : List ℕ) × IsMakeText olds.now object.now t
        × (out.new.items ≡ out.old.items ++ t)) }
    ensures err { IfErr result (λ stop. stop ≡ Stop.NoMemory) }
{
    if !is_trigger(object) {
        return add_unmade(olds, object, out);
    }
    match print_statement(alloc, object, out) {
        Ok(()) => Ok(()),
        Err(_) => Err(Stop::NoMemory),
    }
}

/// The same of each object of the old one.
fn add_drops(alloc: Global, olds: &[Object], news: &[Object], out: &mut Vec<u8>) -> Result<(), Stop>
    ensures ok { OnOk result ((t : List ℕ) × AreTextsOf (IsDropText news.now) olds.now t
        × (out.new.items ≡ out.old.items ++ t)) }
    ensures err { IfErr result (λ stop. stop ≡ Stop.NoMemory) }
{
    for object in olds {
        match add_drop(alloc, news, object, out) {
            Ok(()) => {}
            Err(stop) => return Err(stop),
        }
    }
    Ok(())
}

/// And of each of the new one.
fn add_makes(alloc: Global, olds: &[Object], news: &[Object], out: &mut Vec<u8>) -> Result<(), Stop>
    ensures ok { OnOk result ((t : List ℕ) × AreTextsOf (IsMakeText olds.now) news.now t
        × (out.new.items ≡ out.old.items ++ t)) }
    ensures err { IfErr result (λ stop. stop ≡ Stop.NoMemory) }
{
    for object in news {
        match add_make(alloc, olds, object, out) {
            Ok(()) => {}
            Err(stop) => return Err(stop),
        }
    }
    Ok(())
}

/// What stands before all changes of a database of these objects, which become those.
pub(crate) fn opening_of(
    alloc: Global,
    form: ChangeForm,
    encoding: Encoding,
    olds: &[Object],
    news: &[Object],
) -> Result<Vec<u8>, Stop>
    ensures ok { IfOk result (λ v. IsOpeningText form encoding olds.now news.now v.items) }
    ensures err { IfErr result (λ stop. stop ≡ Stop.NoMemory) }
{
    let mut out = Vec::new(alloc);
    match form {
        ChangeForm::Lines | ChangeForm::Json(_) => return Ok(out),
        ChangeForm::Sql => {}
    }
    match write_start(&mut out, encoding) {
        Ok(()) => {}
        Err(_) => return Err(Stop::NoMemory),
    }
    match add_drops(alloc, olds, news, &mut out) {
        Ok(()) => Ok(out),
        Err(stop) => Err(stop),
    }
}

/// What stands behind all changes of a database of these objects, which became those.
pub(crate) fn closing_of(
    alloc: Global,
    form: ChangeForm,
    olds: &[Object],
    news: &[Object],
) -> Result<Vec<u8>, Stop>
    ensures ok { IfOk result (λ v. IsClosingText form olds.now news.now v.items) }
    ensures err { IfErr result (λ stop. stop ≡ Stop.NoMemory) }
{
    let mut out = Vec::new(alloc);
    match form {
        ChangeForm::Lines | ChangeForm::Json(_) => return Ok(out),
        ChangeForm::Sql => {}
    }
    match out.extend_from_slice(b"COMMIT;\n") {
        Ok(()) => {}
        Err(_) => return Err(Stop::NoMemory),
    }
    match add_makes(alloc, olds, news, &mut out) {
        Ok(()) => Ok(out),
        Err(stop) => Err(stop),
    }
}
