//! The record behind which a crash came, as it is told (own).
ghost use Rattle.std.specs.Prelude.{◌≡◌, map};
ghost use Rattle.std.specs.String.{string_bytes};
ghost use Rattle.sqcrash_store.specs.Calls.{name_of};

use rig_store::{Action, Call};
use std::fmt;

/// The text of a name, by its number.
pub fn name_of(names: &[String], number: u64) -> &str
    ensures { result.now ≡ name_of (map (λ n. string_bytes n) names.now) number }
{
    if number >= names.len() as u64 {
        return "";
    }
    names[number as usize].as_str()
}

/// What a record is of.
#[derive(Clone, Copy)]
struct ActionText(Action);

impl fmt::Display for ActionText {
    ghost use Rattle.std.specs.Prelude.{Some};
    ghost use Rattle.sqcrash_store.specs.Calls.{action_text};

    ghost output = { λ x. Some (action_text x.0) };

    fn fmt<W: fmt::Write>(&self, f: &mut fmt::Formatter<W>) -> fmt::Result {
        f.write_str(match self.0 {
            Action::Base => "begin",
            Action::Make => "create",
            Action::Write => "write",
            Action::Cut => "truncate",
            Action::Sync => "sync",
            Action::Unlink => "unlink",
            Action::Rename => "rename",
            Action::FolderSync => "sync folder",
            Action::Mark => "mark",
            Action::NotHeld => "call",
            Action::End => "end",
            Action::Name => "name",
        })
    }
}

/// A record, beside the texts of the names that it speaks of.
#[derive(Clone, Copy)]
pub struct CallText<'a> {
    pub call: Call,
    /// That of its name.
    pub name: &'a str,
    /// Of a renaming that of the new one.
    pub other: &'a str,
}

impl<'a> CallText<'a> {
    ghost use Rattle.std.specs.Prelude.{◌≡◌, map};
    ghost use Rattle.std.specs.String.{string_bytes};
    ghost use Rattle.sqcrash_store.specs.Calls.{name_of};

    /// Of a run with these names.
    pub fn of(names: &'a [String], call: Call) -> CallText<'a>
        ensures call { result.call ≡ call }
        ensures name { result.name.now ≡ name_of (map (λ n. string_bytes n) names.entry.now) call.name }
        ensures other { result.other.now ≡ name_of (map (λ n. string_bytes n) names.entry.now) call.place }
    {
        CallText {
            call,
            name: name_of(names, u64::from(call.name)),
            other: name_of(names, call.place),
        }
    }
}

impl fmt::Display for CallText<'_> {
    ghost use Rattle.std.specs.Prelude.{Some};
    ghost use Rattle.sqcrash_store.specs.Calls.{call_text_by};

    ghost output = { λ x. Some (call_text_by x.name.now x.other.now x.call) };

    fn fmt<W: fmt::Write>(&self, f: &mut fmt::Formatter<W>) -> fmt::Result {
        let (name, other) = (self.name, self.other);
        let Call {
            action,
            file,
            place,
            length,
            ..
        } = self.call;
        let done = ActionText(action);
        match action {
            Action::Base | Action::Make => write!(f, "{done} file {file}, {name}"),
            Action::Write => write!(f, "{done} file {file} {place}+{length}"),
            Action::Cut => write!(f, "{done} file {file} to {place}"),
            Action::Sync => write!(f, "{done} file {file}"),
            Action::Unlink => write!(f, "{done} {name}"),
            Action::Rename => write!(f, "{done} {name} to {other}"),
            Action::FolderSync | Action::Mark | Action::NotHeld | Action::End | Action::Name =>
                write!(f, "{done}"),
        }
    }
}
