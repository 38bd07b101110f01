//! What a crash is told to leave (own).
ghost use Rattle.std.specs.Prelude.{◌≡◌, ◌<◌, length, min, max, suc, Option, Some, None, MatchOption, []};
ghost use Rattle.crashdisk.specs.Choice.{naming_of, newest, oldest, is_newest, named_len, last_torn, torn_here};
ghost use Rattle.crashdisk.specs.internal.Choice.{Names};
ghost use Rattle.crashdisk.specs.Choice.{EachImageIsNamed};
ghost use Rattle.crashdisk.specs.internal.Choice.{IsLeft};
ghost use Rattle.crashdisk.specs.Held.{picked};

use crate::values::Values;
use std::alloc::Global;

/// The value that a sector without an entry takes.
#[derive(Clone, Copy, Debug, PartialEq, Eq)]
pub enum Rest {
    /// The first that is listed.
    Oldest,
    /// The present one.
    Newest,
}

/// What a crash leaves of a file.
#[derive(Clone, Debug, PartialEq, Eq, Drop)]
pub struct FileChoice {
    /// Sector k takes the value of number `pick[k]` modulo their count, 0 being the oldest.
    pub pick: Vec<u64>,
    /// On a disk that tears, a sector that was touched since its file was last synced, or since a later crash, takes
    /// the bytes of its last entry here, cut or filled with zeros to a sector. Other entries are without effect. A
    /// crash goes through all entries for each such sector.
    pub torn: Vec<(u32, Vec<u8>)>,
    /// What the sectors take that have no entry in `pick`.
    pub rest: Rest,
    /// The length in bytes, which is brought between the least and the greatest; None is the present length.
    pub len: Option<u64>,
}

/// What a crash leaves of both files.
#[derive(Clone, Debug, PartialEq, Eq, Drop)]
pub struct Choice {
    /// Of the database.
    pub db: FileChoice,
    /// Of the log.
    pub log: FileChoice,
}

impl Rest {
    fn is_newest(self) -> bool
        ensures { result ≡ is_newest self }
    {
        match self {
            Rest::Oldest => false,
            Rest::Newest => true,
        }
    }
}

impl FileChoice {
    /// No picks, and this for all sectors.
    fn all(alloc: Global, rest: Rest, len: Option<u64>) -> FileChoice
        ensures { naming_of result ≡ record { pick = []; torn = []; newest = is_newest rest; len = len } }
    {
        FileChoice {
            pick: Vec::new(alloc),
            torn: Vec::new(alloc),
            rest,
            len,
        }
    }

    /// The number of the value of sector k that it picks among so many.
    pub(crate) fn number(&self, k: usize, count: usize) -> usize
        requires { 0 < count }
        ensures is { result ≡ picked (naming_of self.now).pick (naming_of self.now).newest k count }
        ensures below { result < count }
    {
        match self.pick.get(k) {
            Some(n) => (*n % count as u64) as usize,
            None => { if self.rest.is_newest() { count - 1 } else { 0 } }
        }
    }

    /// The length that it names.
    pub(crate) fn length(&self, least: usize, present: usize, greatest: usize) -> usize
        ensures { result ≡ named_len self.now.len least present greatest }
    {
        match self.len {
            Some(n) => least.max((n as usize).min(greatest)),
            None => present,
        }
    }

    /// The bytes of the last torn entry of sector k.
    pub(crate) fn torn_bytes(&self, k: usize) -> Option<&[u8]>
        ensures { MatchOption result (last_torn (naming_of self.now).torn k ≡ None)
            (λ bytes. last_torn (naming_of self.now).torn k ≡ Some bytes.now) }
    {
        let mut found = None;
        for entry in self.torn.iter() {
            if entry.0 as usize == k {
                found = Some(entry.1.as_slice());
            }
        }
        found
    }
}

impl FileChoice {
    /// The bytes of sector k where it is torn, which only a touched one is.
    fn torn_here(&self, tears: bool, touched: bool, k: usize) -> Option<&[u8]>
        ensures { MatchOption result (torn_here tears touched (naming_of self.now) k ≡ None)
            (λ bytes. torn_here tears touched (naming_of self.now) k ≡ Some bytes.now) }
    {
        if tears && touched {
            self.torn_bytes(k)
        } else {
            None
        }
    }

    /// The bytes that it names of sector k, which has these values. Behind them are zeros.
    pub(crate) fn named<'a>(&'a self, values: &'a Values, tears: bool, k: usize) -> &'a [u8]
        requires { 0 < length values.now }
        ensures { Names tears (naming_of self.now) k values.now result.now }
    {
        let touched = values.count() - 1 > 0;
        match self.torn_here(tears, touched, k) {
            Some(bytes) => bytes,
            None => values.value(self.number(k, values.count())),
        }
    }

    /// Leaves of a sector the one value that it names, with zeros from a place on.
    pub(crate) fn leave(&self, values: &mut Values, tears: bool, k: usize, end: usize)
        requires { 0 < length values.old }
        ensures { IsLeft tears (naming_of self.now) k end values.old values.new }
    {
        let touched = values.count() - 1 > 0;
        values.keep(self.number(k, values.count()));
        if let Some(bytes) = self.torn_here(tears, touched, k) {
            values.replace(bytes);
        }
        values.settle(end);
    }
}

impl Choice {
    /// The newest value of each sector, and the present lengths.
    pub fn newest(alloc: Global) -> Choice
        ensures db { naming_of result.db ≡ newest }
        ensures log { naming_of result.log ≡ newest }
    {
        Choice {
            db: FileChoice::all(alloc, Rest::Newest, None),
            log: FileChoice::all(alloc, Rest::Newest, None),
        }
    }

    /// The oldest value of each sector, and the least lengths.
    pub fn oldest(alloc: Global) -> Choice
        ensures db { naming_of result.db ≡ oldest }
        ensures log { naming_of result.log ≡ oldest }
    {
        Choice {
            db: FileChoice::all(alloc, Rest::Oldest, Some(0)),
            log: FileChoice::all(alloc, Rest::Oldest, Some(0)),
        }
    }

    /// Whatever a crash may leave of a file some choice names. It does nothing; its contract is that law.
    pub fn names_each_image()
        ensures { EachImageIsNamed }
    {}
}
