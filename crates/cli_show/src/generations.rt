//! The frame slots after the stop of a log, by the log that they are of (own).
ghost use Rattle.std.specs.Prelude.{◌≡◌, ◌≢◌, ◌⊎◌, ◌↔◌, ◌+◌, ◌-◌, ◌<◌, ◌^◌, ℕ, List, IsTrue, OnOk, false, suc};
ghost use Rattle.std.specs.Io.KnownBytes.{Appends};
ghost use Rattle.std.specs.List.{flat_map};
ghost use Rattle.sqwal.specs.Slots.{IsSlot};
ghost use Rattle.cli_show.specs.Generations.{generation_text};
ghost use Rattle.cli_show.specs.internal.Generations.{AreRead, IsOpen, all_of};

use cli_text::{Fact, write_facts};
use cli_words::Style;
use sqwal::Slot;
use std::alloc::{AllocError, Global};
use std::io::{self, Write};

/// Consecutive frame slots with the same salts.
#[derive(Clone, Copy, Debug, PartialEq, Eq)]
pub struct Generation {
    pub salt1: u32,
    pub salt2: u32,
    /// The first slot, from 1.
    pub from: u64,
    /// The last slot.
    pub to: u64,
    /// How many commits are whole.
    pub commits: u64,
}

/// A generation that may go on.
#[derive(Clone, Copy)]
struct Open {
    generation: Generation,
    /// Whether a commit ends in it that was judged, and each slot from there on follows.
    is_judged: bool,
}

impl Open {
    /// One that begins at this slot.
    fn new(number: u64, slot: &Slot) -> Open
        ensures going { (size : ℕ) (w : List ℕ) → IsSlot size w number slot.now → IsOpen size w (number + 1) result }
        ensures from { result.generation.from ≡ number }
    {
        Open {
            generation: Generation {
                salt1: slot.salt1,
                salt2: slot.salt2,
                from: number,
                to: number,
                commits: 0,
            },
            is_judged: false,
        }
    }

    /// Whether a slot has its salts.
    fn has(&self, slot: &Slot) -> bool
        ensures { IsTrue result ↔ ((slot.now.salt1 ≡ self.now.generation.salt1)
            × (slot.now.salt2 ≡ self.now.generation.salt2)) }
    {
        slot.salt1 == self.generation.salt1 && slot.salt2 == self.generation.salt2
    }

    /// The same with the slot after its last one, which has its salts.
    fn grown(self, number: u64, slot: &Slot) -> Open
        requires { (slot.now.salt1 ≡ self.generation.salt1) × (slot.now.salt2 ≡ self.generation.salt2) }
        ensures going { (size : ℕ) (w : List ℕ) → IsSlot size w number slot.now → number < 2 ^ 64 - 1
            → IsOpen size w number self → IsOpen size w (number + 1) result }
        ensures from { result.generation.from ≡ self.generation.from }
    {
        let is_whole = is_whole(slot, self.is_judged);
        Open {
            generation: Generation {
                to: number,
                commits: counted(self.generation.commits, is_whole),
                ..self.generation
            },
            is_judged: is_judged_from(slot, self.is_judged),
        }
    }
}

/// Whether a slot ends a whole commit, if this says whether the commit can be judged.
fn is_whole(slot: &Slot, is_judged: bool) -> bool
    ensures { IsTrue result ↔ ((slot.now.size ≢ 0) × IsTrue slot.now.follows × IsTrue is_judged) }
{
    slot.size != 0 && slot.follows && is_judged
}

/// Whether the commit after a slot, or the one that goes on, can be judged.
fn is_judged_from(slot: &Slot, is_judged: bool) -> bool
    ensures { IsTrue result ↔ (IsTrue slot.now.follows × ((slot.now.size ≢ 0) ⊎ IsTrue is_judged)) }
{
    slot.follows && (slot.size != 0 || is_judged)
}

/// So many commits, and one more if it is whole.
fn counted(commits: u64, is_whole: bool) -> u64
    ensures more { IsTrue is_whole → commits < 2 ^ 64 - 1 → result ≡ suc commits }
    ensures same { is_whole ≡ false → result ≡ commits }
{
    if is_whole {
        commits.saturating_add(1)
    } else {
        commits
    }
}

/// The generations of slots that were read.
#[derive(Drop)]
pub(crate) struct Generations {
    closed: Vec<Generation>,
    /// The last one, which may go on.
    last: Option<Open>,
}

impl Generations {
    /// Those of no slots.
    pub(crate) fn new(alloc: Global) -> Generations
        ensures { (size : ℕ) (w : List ℕ) (first : ℕ) → AreRead size w first first result }
    {
        Generations {
            closed: Vec::new(alloc),
            last: None,
        }
    }

    /// Adds the next slot.
    pub(crate) fn add(&mut self, number: u64, slot: &Slot) -> Result<(), AllocError>
        ensures { (size : ℕ) (w : List ℕ) (first : ℕ) → number < 2 ^ 64 - 1 → IsSlot size w number slot.now
            → AreRead size w first number self.old → OnOk result (AreRead size w first (number + 1) self.new) }
    {
        let Some(last) = self.last else {
            self.last = Some(Open::new(number, slot));
            return Ok(());
        };
        if last.has(slot) {
            self.last = Some(last.grown(number, slot));
            return Ok(());
        }
        self.closed.push(last.generation)?;
        self.last = Some(Open::new(number, slot));
        Ok(())
    }

    /// Prints a line, or an object, for each. An error of the writer.
    pub(crate) fn write<W: Write>(&self, out: &mut W, style: Style) -> io::Result<()>
        ensures { OnOk result (Appends (W.contents out.old) (W.contents out.new)
            (flat_map (generation_text style) (all_of self.now))) }
    {
        for generation in &self.closed {
            write_generation(out, style, generation)?;
        }
        match &self.last {
            Some(last) => write_generation(out, style, &last.generation),
            None => Ok(()),
        }
    }
}

/// Prints one. An error of the writer.
fn write_generation<W: Write>(out: &mut W, style: Style, it: &Generation) -> io::Result<()>
    ensures { OnOk result (Appends (W.contents out.old) (W.contents out.new) (generation_text style it.now)) }
{
    let facts = [
        Fact::Salts("generation", it.salt1, it.salt2),
        Fact::Number("from", it.from),
        Fact::Number("to", it.to),
        Fact::Number("whole commits", it.commits),
    ];
    write_facts(out, style, &facts)
}
