//! When a modelled disk stops, and which call of it fails.
ghost use Rattle.std.specs.Prelude.{◌≡◌};
ghost use Rattle.crashdisk.specs.Stop.{is_over as over, one_less as less};

/// What is set for the calls to come.
#[derive(Clone, Copy)]
pub(crate) struct Stops {
    pub(crate) stopped: bool,
    pub(crate) calls: Option<u64>,
    pub(crate) syncs: u64,
    pub(crate) fails: u64,
}

fn is_over(calls: Option<u64>) -> bool
    ensures { result ≡ over calls }
{
    match calls {
        Some(n) => n == 0,
        None => false,
    }
}

fn one_less(calls: Option<u64>) -> Option<u64>
    ensures { result ≡ less calls }
{
    match calls {
        Some(n) => Some(n.saturating_sub(1)),
        None => None,
    }
}

impl Stops {
    ghost use Rattle.std.specs.Prelude.{◌≡◌};
    ghost use Rattle.crashdisk.specs.Stop.{no_stops, fails_call, stops_call, stops_sync, after_call, after_sync};

    /// Nothing is set.
    pub(crate) fn new() -> Stops
        ensures { result ≡ no_stops }
    {
        Stops {
            stopped: false,
            calls: None,
            syncs: 0,
            fails: 0,
        }
    }

    /// Whether the next call is the one to fail.
    pub(crate) fn fails(&self) -> bool
        ensures { result ≡ fails_call self.now }
    {
        self.fails == 1
    }

    /// Counts a call other than a sync, and says whether it is stopped.
    pub(crate) fn call(&mut self) -> bool
        ensures answer { result ≡ stops_call self.old }
        ensures after { self.new ≡ after_call self.old }
    {
        self.stopped = self.stopped || is_over(self.calls);
        self.calls = one_less(self.calls);
        self.fails = self.fails.saturating_sub(1);
        self.stopped
    }

    /// Counts a sync, and says whether it is stopped.
    pub(crate) fn sync(&mut self) -> bool
        ensures answer { result ≡ stops_sync self.old }
        ensures after { self.new ≡ after_sync self.old }
    {
        self.stopped = self.stopped || is_over(self.calls) || self.syncs == 1;
        self.calls = one_less(self.calls);
        self.syncs = self.syncs.saturating_sub(1);
        self.fails = self.fails.saturating_sub(1);
        self.stopped
    }
}
