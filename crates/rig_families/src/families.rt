//! The likeliest images, by their numbers (own).
ghost use Rattle.std.specs.Prelude.{◌≡◌, ◌*◌, ◌^◌, ◌<◌};
ghost use Rattle.rig_families.specs.Members.{which_by, piece_at};

use crate::prefixes::Prefixes;
use crate::version::{Piece, Version};
use crashdisk::DiskError;
use rig_images::{Image, Which};
use rig_play::Player;
use std::alloc::{AllocError, Global};

/// The likeliest images that a crash may leave now.
#[derive(Drop)]
pub struct Families<'a> {
    /// The versions behind earlier calls.
    versions: &'a [Version],
    present: Version,
    /// The image that was put there last is the present one but for this file.
    but: Option<Which>,
}

/// The files in turn.
fn which_by(rest: u128) -> Which
    ensures { result ≡ which_by rest }
{
    match rest {
        0 => Which::Db,
        1 => Which::Wal,
        _ => Which::Journal,
    }
}

/// Of each the length, and then the sectors.
fn piece_at(m: u128) -> Piece
    requires { m < 3 * 2 ^ 63 }
    ensures { result ≡ piece_at m }
{
    if m < 3 {
        return Piece::Length;
    }
    Piece::Sector((m / 3 - 1) as usize)
}

impl<'a> Families<'a> {
    ghost use Rattle.std.specs.Prelude.{◌≡◌, ◌↔◌, ◌+◌, ◌*◌, ◌^◌, ◌<◌, ◌≤◌, length, map, IsTrue, OnOk, IfOk, IfErr};
    ghost use Rattle.crashdisk.specs.Refusal.{number_of};
    ghost use Rattle.rig_play.specs.Plays.{files_of};
    ghost use Rattle.rig_families.specs.Versions.{named_of};
    ghost use Rattle.rig_families.specs.Members.{IsKept, IsMember, member_count};
    ghost use Rattle.rig_families.specs.internal.Puts.{IsPieceMade};
    ghost use Rattle.rig_families.specs.Likeliest.{AreFamilies};

    /// Those of a player's files. NoMemory alone (own).
    pub fn of(
        alloc: Global,
        player: &Player,
        prefixes: &'a Prefixes,
    ) -> Result<Families<'a>, AllocError>
        ensures families { IfOk result (AreFamilies (files_of player.now) prefixes.now.versions.items) }
        ensures none { IfOk result (λ f. f.but ≡ None) }
    {
        let present = Version::now(alloc, player)?;
        let versions = prefixes.versions();
        Ok(Families {
            versions,
            present,
            but: None,
        })
    }

    /// How many numbers there are (own).
    pub fn count(&self) -> u128
        ensures count { result
            ≡ member_count (map (λ v. named_of v) self.now.versions.now) (named_of self.now.present) }
        ensures few { result ≤ length self.now.versions.now + 3 * 2 ^ 63 }
    {
        self.versions.len() as u128 + 3 * (self.present.sectors() as u128 + 1)
    }

    /// Whether the image that was put there last is the present one but for this file.
    fn is_but(&self, which: Which) -> bool
        ensures { IsTrue result ↔ (self.now.but ≡ Some which) }
    {
        self.but == Some(which)
    }

    /// Takes the image in which all is down but the piece of this number in place of the one that was put there last.
    fn put_piece(
        &mut self,
        alloc: Global,
        player: &Player,
        m: u128,
        image: &mut Image,
    ) -> Result<bool, DiskError>
        requires { m < 3 * 2 ^ 63 }
        ensures made { IsKept (files_of player.now) (named_of self.old.present) self.old.but image.old
            → IfOk result (IsPieceMade (files_of player.now) (named_of self.old.present) m image.new) }
        ensures kept { IsKept (files_of player.now) (named_of self.old.present) self.old.but image.old
            → OnOk result (IsKept (files_of player.now) (named_of self.old.present) self.new.but image.new) }
        ensures same { self.new ≡ record self.old { but = self.new.but } }
        ensures error { IfErr result (λ e. number_of e ≡ 4) }
    {
        let (which, piece) = (which_by(m % 3), piece_at(m));
        if !self.present.is_open(which, piece) {
            return Ok(false);
        }
        if self.is_but(which) {
            return self.present.put_one(alloc, player, which, piece, image);
        }
        self.but = None;
        let made = self
            .present
            .put_without(alloc, player, which, piece, image)?;
        if made {
            self.but = Some(which);
        }
        Ok(made)
    }

    /// Takes the image of this number, counted from 0, in place of the one that was put there last, or at first of any:
    /// those behind earlier calls come first. Answers whether there is one; some numbers have none. NoMemory alone, and
    /// then nothing is said of the image (own).
    pub fn put(
        &mut self,
        alloc: Global,
        player: &Player,
        n: u128,
        image: &mut Image,
    ) -> Result<bool, DiskError>
        requires { n < length self.old.versions.now + 3 * 2 ^ 63 }
        ensures made { IsKept (files_of player.now) (named_of self.old.present) self.old.but image.old
            → IfOk result (IsMember (files_of player.now) (map (λ v. named_of v) self.old.versions.now)
            (named_of self.old.present) n image.new) }
        ensures kept { IsKept (files_of player.now) (named_of self.old.present) self.old.but image.old
            → OnOk result (IsKept (files_of player.now) (named_of self.old.present) self.new.but image.new) }
        ensures same { self.new ≡ record self.old { but = self.new.but } }
        ensures error { IfErr result (λ e. number_of e ≡ 4) }
    {
        let count = self.versions.len() as u128;
        if n < count {
            self.but = None;
            return self.versions[n as usize].put(player, image);
        }
        self.put_piece(alloc, player, n - count, image)
    }
}
