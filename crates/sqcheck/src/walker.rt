//! What a check keeps while it goes on (own).
ghost use Rattle.std.specs.Prelude.{◌≡◌, ◌≤◌, length, OnOk, IfErr};
ghost use Rattle.sqval.specs.Database.{page};
ghost use Rattle.sqpage.specs.Freelist.{IsPage, usable_size};
ghost use Rattle.sqpage.specs.declared.fault.Fault.{Fault};
ghost use Rattle.sqcheck.specs.internal.Room.{HoldsPage};
ghost use Rattle.sqcheck.specs.internal.Snapshots.{Keeps};

use crate::maps::Maps;
use crate::node::{Room, Walk};
use crate::pages::read_page;
use crate::snapshot::Snapshot;
use crate::uses::Uses;
use sqpage::{CheckError, PageSource};
use std::marker::PhantomData;

/// The page that was read last, and how much of each page is used.
#[derive(Drop)]
pub(crate) struct Reader<V: Snapshot> {
    pub bytes: Vec<u8>,
    pub usable: u32,
    pub snapshot: PhantomData<V>,
    ghost sized: { length bytes.items ≡ V.size },
    ghost least: { 480 ≤ usable },
    ghost most: { usable ≤ V.size },
    ghost used: { V.right → usable ≡ usable_size V.pages },
}

impl<V: Snapshot> Reader<V> {
    /// Reads page `p`. Refused by Source where it could not be read.
    pub fn read<S: PageSource>(&mut self, source: &mut S, p: u32) -> Result<(), CheckError>
        requires page { IsPage V.pages p }
        requires same { Keeps V.Snapshot S.PageSource source.old }
        ensures read { V.right → OnOk result (self.new.bytes.items ≡ page V.pages p) }
        ensures err { IfErr result (λ e. (e.fault ≡ Fault.Source) × ¬ V.given) }
        ensures usable { self.new.usable ≡ self.old.usable }
        ensures same { Keeps V.Snapshot S.PageSource source.new }
    {
        read_page::<V, S>(source, p, &mut self.bytes)
    }
}

/// Follows the places of a database, from the first one on.
#[derive(Drop)]
pub(crate) struct Walker<V: Snapshot> {
    pub reader: Reader<V>,
    pub room: Room,
    pub uses: Uses,
    pub walk: Walk,
    pub maps: Maps<V>,
    ghost marks: { length uses.marks.items ≡ length V.pages },
    ghost holds: { HoldsPage reader.usable room },
}
