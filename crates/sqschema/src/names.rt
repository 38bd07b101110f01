//! Sets of names, where ASCII's small letters are its capitals (own).
ghost use Rattle.std.specs.Prelude.{◌≡◌, ◌||◌, ℕ, List, false, not, IfOk, OnOk};
ghost use Rattle.std.specs.Str.{bytes_eq};
ghost use Rattle.sqschema.specs.internal.Judging.{key_of, holds};

use std::alloc::{AllocError, Global};
use std::collections::BTreeSet;

/// What a name is found by: its small letters behind the number of its space.
fn key_of(alloc: Global, space: u8, name: &[u8]) -> Result<Vec<u8>, AllocError>
    ensures { IfOk result (λ key. key.items ≡ key_of space name.now) }
{
    let mut key = Vec::new(alloc);
    key.push(space)?;
    for byte in name {
        key.push(byte.to_ascii_lowercase())?;
    }
    Ok(key)
}

/// A set of names, each in a space that has a number.
#[derive(Drop)]
pub(crate) struct Names {
    alloc: Global,
    keys: BTreeSet<Vec<u8>>,
}

impl Names {
    /// No name.
    pub fn new(alloc: Global) -> Names
        ensures { (key : List ℕ) → holds result key ≡ false }
    {
        Names {
            alloc,
            keys: BTreeSet::new(alloc),
        }
    }

    /// Adds a name. False where it was there.
    pub fn add(&mut self, space: u8, name: &[u8]) -> Result<bool, AllocError>
        ensures fresh { IfOk result (λ fresh. fresh ≡ not (holds self.old (key_of space name.now))) }
        ensures held { OnOk result ((key : List ℕ)
            → holds self.new key ≡ (holds self.old key || bytes_eq key (key_of space name.now))) }
    {
        let key = key_of(self.alloc, space, name)?;
        Ok(self.keys.insert(key)?)
    }

    /// Whether a name is there.
    pub fn has(&self, space: u8, name: &[u8]) -> Result<bool, AllocError>
        ensures { IfOk result (λ found. found ≡ holds self.now (key_of space name.now)) }
    {
        let key = key_of(self.alloc, space, name)?;
        Ok(self.keys.contains(key.as_slice()))
    }
}
