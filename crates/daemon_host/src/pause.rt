//! How long the store is left alone after it failed.
ghost use Rattle.std.specs.Prelude.{◌≡◌, nat_lt};
ghost use Rattle.daemon_host.specs.Pauses.{PauseIsOver, PauseBegins};

/// For how many milliseconds after the first failure.
const FIRST: u64 = 1000;

/// For how many at most.
const LONGEST: u64 = 60000;

/// How long the store is left alone. Moments are in milliseconds.
#[derive(Clone, Copy, Debug, PartialEq, Eq)]
pub struct Pause {
    /// The moment from which on it may be asked for.
    until: u64,
    /// For how many milliseconds it is left alone after the next failure.
    next: u64,
}

impl Pause {
    /// It may be asked for.
    pub fn none() -> Pause
        ensures { PauseIsOver result }
    {
        Pause {
            until: 0,
            next: FIRST,
        }
    }

    /// Whether it isn't to be asked for yet.
    pub fn lasts(&self, now: u64) -> bool
        ensures { result ≡ nat_lt now self.now.until }
    {
        now < self.until
    }

    /// The store failed: it is left alone for a second, and for twice as long after each further failure, up to a minute.
    pub fn begin(&mut self, now: u64)
        ensures { PauseBegins now self.old self.new }
    {
        self.until = now.saturating_add(self.next);
        self.next = self.next.saturating_mul(2).min(LONGEST);
    }
}
