//! How far a long run is, which notes say once a second.
ghost use Rattle.std.specs.Prelude.{◌≡◌, ◌+◌, ◌/◌, min};

use cli_facts::Notes;
use cli_words::Options;
use std::cell::Cell;
use std::io::Write;
use std::time::{Clock, Duration, Instant};

/// How many bytes are read until the clock is asked again.
const STEP: u64 = 65_536;

/// A mebibyte, in bytes.
const MEBIBYTE: u64 = 1_048_576;

/// How long it is at least from the beginning to a note, and from one note to the next, in seconds.
const PAUSE: u64 = 1;

/// Who is told how many bytes were read.
pub trait Count {
    /// So many bytes in all are to be read from now on, of which none is read.
    fn begin(&self, all: u64);

    /// So many bytes more were read.
    fn count(&self, bytes: u64);
}

/// What is read of what is to be read.
pub struct Progress<'a, C, E> {
    clock: &'a C,
    notes: Notes<'a, E>,
    /// When the last note was written, or the run began. None where nothing is to be said.
    last: Cell<Option<Instant>>,
    /// In bytes.
    all: Cell<u64>,
    done: Cell<u64>,
    /// What was read since the clock was asked.
    unasked: Cell<u64>,
}

impl<C, E> Drop for Progress<'_, C, E> {
    fn drop(self) {
        let Progress {
            clock: _,
            notes,
            last: _,
            all: _,
            done: _,
            unasked: _,
        } = self;
        drop(notes);
    }
}

/// How many bytes are read, where so many more were: never more than all.
fn counted(done: u64, bytes: u64, all: u64) -> u64
    ensures { result ≡ min (done + bytes) all }
{
    done.saturating_add(bytes).min(all)
}

/// Whole mebibytes, rounded down.
fn mebibytes(bytes: u64) -> u64
    ensures { result ≡ bytes / 1048576 }
{
    bytes / MEBIBYTE
}

impl<'a, C: Clock, E: Write> Progress<'a, C, E> {
    /// A run that begins now. Nothing is said of it but with `--large` and `-v`, nor where the clock can't be read.
    pub fn new(clock: &'a C, notes: Notes<'a, E>, options: Options) -> Progress<'a, C, E>
        ensures clock { result.clock ≡ clock.entry }
        ensures notes { result.notes ≡ notes.entry }
    {
        let is_asked = options.large && options.verbose;
        let last = if is_asked {
            Instant::now(clock).ok()
        } else {
            None
        };
        Progress {
            clock,
            notes,
            last: Cell::new(last),
            all: Cell::new(0),
            done: Cell::new(0),
            unasked: Cell::new(0),
        }
    }

    /// Says how far the run is, if it is a second since the last note.
    fn tell_if_due(&self, last: Instant) {
        let Ok(now) = Instant::now(self.clock) else {
            return;
        };
        if now.duration_since(last) >= Duration::from_secs(PAUSE) {
            self.last.set(Some(now));
            self.tell();
        }
    }

    /// Says how far the run is.
    fn tell(&self) {
        let (done, all) = (mebibytes(self.done.get()), mebibytes(self.all.get()));
        self.notes.say(&format_args!("{done} of {all} MiB"));
    }
}

impl<C: Clock, E: Write> Count for Progress<'_, C, E> {
    fn begin(&self, all: u64) {
        self.all.set(all);
        self.done.set(0);
    }

    fn count(&self, bytes: u64) {
        let Some(last) = self.last.get() else {
            return;
        };
        self.done
            .set(counted(self.done.get(), bytes, self.all.get()));
        let unasked = self.unasked.get().saturating_add(bytes);
        if unasked < STEP {
            self.unasked.set(unasked);
        } else {
            self.unasked.set(0);
            self.tell_if_due(last);
        }
    }
}
