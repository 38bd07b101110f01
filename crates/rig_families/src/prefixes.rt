//! Versions of the files behind the last calls (own).
ghost use Rattle.std.specs.Prelude.{◌≡◌, ◌++◌, ◌∷◌, [], map, OnOk};
ghost use Rattle.rig_play.specs.Plays.{files_of};
ghost use Rattle.rig_families.specs.Versions.{named_of, version_now};

use crate::version::Version;
use rig_play::{Kind, Player};
use std::alloc::{AllocError, Global};

/// Of how many calls the versions are kept.
const MOST_CALLS: usize = 32;

/// The versions of the files behind the last calls, the oldest first.
#[derive(Drop)]
pub struct Prefixes {
    versions: Vec<Version>,
}

impl Prefixes {
    ghost use Rattle.std.specs.Prelude.{◌≡◌, ◌++◌, ◌∷◌, [], map, OnOk};
    ghost use Rattle.rig_play.specs.Plays.{files_of};
    ghost use Rattle.rig_families.specs.Versions.{named_of, version_now};
    ghost use Rattle.rig_families.specs.Families.{last_kept, noted};

    /// Those of no call (own).
    pub fn new(alloc: Global) -> Prefixes
        ensures { result.versions.items ≡ [] }
    {
        Prefixes {
            versions: Vec::new(alloc),
        }
    }

    /// The versions, the oldest first (own).
    pub fn versions(&self) -> &[Version]
        ensures { result.now ≡ self.now.versions.items }
    {
        self.versions.as_slice()
    }

    /// Lets the oldest one go, where there are as many as are kept.
    fn make_room(&mut self)
        ensures { map (λ v. named_of v) self.new.versions.items
            ≡ last_kept (map (λ v. named_of v) self.old.versions.items) }
    {
        if self.versions.len() >= MOST_CALLS {
            self.versions.remove(0);
        }
    }

    /// One more: the files as they are now.
    fn push_now(&mut self, alloc: Global, player: &Player) -> Result<(), AllocError>
        ensures { OnOk result (map (λ v. named_of v) self.new.versions.items
            ≡ map (λ v. named_of v) self.old.versions.items ++ version_now (files_of player.now) ∷ []) }
    {
        let now = Version::now(alloc, player)?;
        self.versions.push(now)?;
        Ok(())
    }

    /// The files are as a player has them behind a record of this kind. Of the versions behind earlier calls none are
    /// kept behind a sync, otherwise the last 31; what changes neither a file nor a name isn't noted. NoMemory alone,
    /// and then nothing is said of them (own).
    pub fn note(&mut self, alloc: Global, player: &Player, kind: Kind) -> Result<(), AllocError>
        ensures { OnOk result (map (λ v. named_of v) self.new.versions.items ≡ noted kind
            (map (λ v. named_of v) self.old.versions.items) (version_now (files_of player.now))) }
    {
        match kind {
            Kind::Base | Kind::Sync | Kind::FolderSync => self.versions.clear(),
            Kind::Open | Kind::Write | Kind::Cut | Kind::Unlink | Kind::Rename => self.make_room(),
            Kind::Close | Kind::Mark | Kind::NotHeld | Kind::End => return Ok(()),
        }
        self.push_now(alloc, player)
    }
}
