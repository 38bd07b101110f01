//! Readings that are made again while others change the files.
ghost use Rattle.std.specs.Prelude.{◌≡◌, ◌↔◌, ◌*◌, ◌<◌, Err, IsTrue, None, false};
ghost use Rattle.std.specs.Duration.{as_nanos};
ghost use Rattle.cli_facts.specs.declared.outcome.Refusal.TheVariants.{FileChanged};
ghost use Rattle.cli_show.specs.declared.error.ShowError.TheVariants.{Refused};

use cli_facts::Refusal;
use cli_show::ShowError;
use std::io::{self, Write};
use std::thread;
use std::time::{Clock, Duration, Instant};

/// How long it is from one reading to the next, in milliseconds.
const PAUSE: u64 = 1;

/// A writer, and whether anything was given to it.
pub struct Begun<'a, O> {
    out: &'a mut O,
    is_begun: bool,
}

impl<O> Drop for Begun<'_, O> {
    fn drop(self) {
        let Begun {
            out: _,
            is_begun: _,
        } = self;
    }
}

impl<'a, O> Begun<'a, O> {
    /// A writer to which nothing was given yet.
    pub fn new(out: &'a mut O) -> Begun<'a, O>
        ensures { result.is_begun ≡ false }
    {
        Begun {
            out,
            is_begun: false,
        }
    }
}

impl<O: Write> Write for Begun<'_, O> {
    fn write(&mut self, buf: &[u8]) -> io::Result<usize> {
        self.is_begun = true;
        self.out.write(buf)
    }

    fn flush(&mut self) -> io::Result<()> {
        self.out.flush()
    }
}

impl<O> Begun<'_, O> {
    /// Whether what was read is to be read again: others changed it, and nothing of it was printed.
    pub fn is_to_be_read_again<T>(&self, answer: &Result<T, ShowError>) -> bool
        ensures { IsTrue result ↔ ((self.now.is_begun ≡ false) × (answer.now ≡ Err (Refused FileChanged))) }
    {
        !self.is_begun && matches!(answer, Err(ShowError::Refused(Refusal::FileChanged)))
    }
}

/// For how long a reading is made again.
#[derive(Clone, Copy)]
pub struct Until {
    /// None where the clock can't be read.
    began: Option<Instant>,
    wait: Duration,
}

impl Until {
    /// For so many seconds from now on.
    pub fn new<C: Clock>(clock: &C, seconds: u32) -> Until
        ensures { as_nanos result.wait ≡ seconds * 1000000000 }
    {
        Until {
            began: Instant::now(clock).ok(),
            wait: Duration::from_secs(u64::from(seconds)),
        }
    }

    /// Whether there is time for a reading so long after it began.
    fn has_time(&self, gone: Duration) -> bool
        ensures { IsTrue result ↔ as_nanos gone < as_nanos self.now.wait }
    {
        gone.as_nanos() < self.wait.as_nanos()
    }

    /// Waits until the next reading. Whether there is time for it: the clock can be read, and less than the time is
    /// gone.
    pub fn goes_on<C: Clock>(&self, clock: &C) -> bool
        ensures unread { self.now.began ≡ None → result ≡ false }
        ensures over { as_nanos self.now.wait ≡ 0 → result ≡ false }
    {
        let Some(began) = self.began else {
            return false;
        };
        match began.elapsed(clock) {
            Ok(gone) if self.has_time(gone) => {
                thread::sleep(clock, Duration::from_millis(PAUSE));
                true
            }
            _ => false,
        }
    }
}
