//! What the call of a record does to the name that it speaks of (own).
ghost use Rattle.std.specs.Prelude.{◌≡◌, IsTrue, OnOk, IfErr};
ghost use Rattle.crashdisk.specs.Solid.{is_sector_size};
ghost use Rattle.rig_play.specs.Names.{name_of};
ghost use Rattle.rig_play.specs.Plays.{CallDoes, CallRefused, file_brings_down};
ghost use Rattle.rig_play.specs.Trace.{has_failed};

use crate::error::PlayError;
use crate::name::{Manner, Name};
use crate::trace::{Kind, Record};

/// Plays a record that speaks of a name.
pub(crate) fn play_call(
    name: &mut Name,
    manner: &Manner,
    trace: &[u8],
    call: &Record,
) -> Result<(), PlayError>
    requires { IsTrue (is_sector_size manner.now.sector) }
    ensures does { OnOk result (CallDoes call.now.kind manner.now.sector manner.now.tears manner.now.meta trace.now
        call.now (name_of name.old) (name_of name.new)) }
    ensures refused { IfErr result (CallRefused call.now.kind trace.now call.now (name_of name.old)) }
{
    let fails = call.has_failed();
    match call.kind {
        Kind::Base => {
            *name = Name::base(manner, call.bytes(trace))?;
            Ok(())
        }
        Kind::Open => {
            if call.place == 1 {
                name.make(manner)?;
            }
            Ok(())
        }
        Kind::Write => name.write(manner.alloc, call.place, call.bytes(trace), fails),
        Kind::Cut => name.cut(manner, call.place, fails),
        Kind::Sync => name.sync(manner, fails),
        Kind::Unlink => {
            if !fails {
                name.unlink();
            }
            Ok(())
        }
        Kind::Rename if fails => Ok(()),
        Kind::Rename => Err(PlayError::Renamed),
        Kind::NotHeld => Err(PlayError::NotHeld),
        Kind::End if name.is_as_noted(manner.alloc, call)? => Ok(()),
        Kind::End => Err(PlayError::Differs),
        Kind::Close | Kind::FolderSync | Kind::Mark => Ok(()),
    }
}

/// Whether all changes of names and lengths before a call on a file are durable behind it.
pub(crate) fn has_all_down(name: &Name, call: &Record) -> bool
    ensures { result ≡ file_brings_down call.now.kind call.now.place (has_failed call.now) (name_of name.now) }
{
    match call.kind {
        Kind::Base => true,
        Kind::Sync => !call.has_failed() && (call.place != 1 || name.is_resized()),
        _ => false,
    }
}
