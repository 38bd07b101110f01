//! The files that a crash leaves in one way alone (own).
ghost use Rattle.std.specs.Prelude.{◌≡◌, ◌↔◌, IsTrue};
ghost use Rattle.rig_play.specs.Names.{name_of};
ghost use Rattle.rig_play.specs.Plays.{files_of};
ghost use Rattle.rig_images.specs.Ways.{name_ways};
ghost use Rattle.rig_images.specs.Fixing.{AreFixed};

use crate::counts::name_count;
use rig_play::{Holds, Name, Player};

/// Which files a crash leaves in one way alone, where all changes of names and lengths are durable.
#[derive(Clone, Copy, Debug, PartialEq, Eq)]
pub struct Fixed {
    pub db: bool,
    pub wal: bool,
    pub journal: bool,
}

/// Whether a crash leaves what is under a name that holds this in one way alone.
fn is_fixed(name: &Name, holds: Holds) -> bool
    ensures { IsTrue result ↔ (name_ways (name_of name.now) holds ≡ 1) }
{
    matches!(name_count(name, holds, 1), Some(1))
}

impl Fixed {
    /// Those of a player (own).
    pub fn of(player: &Player) -> Fixed
        ensures { AreFixed (files_of player.now) result }
    {
        let epoch = player.epoch();
        Fixed {
            db: is_fixed(player.db(), epoch.db),
            wal: is_fixed(player.wal(), epoch.wal),
            journal: is_fixed(player.journal(), epoch.journal),
        }
    }
}
