//! For how long those whose account used much time wait for the next command of one that was just served.
ghost use Rattle.std.specs.Prelude.{◌≡◌, ◌≤◌};
ghost use Rattle.net_shares.specs.Graces as g;
ghost use Rattle.net_shares.specs.Graces.{LateGetOn};

/// For how many microseconds after the last act of an account that used little the others wait: a client on the same machine says its
/// next command within 100 to 1,000.
const SPAN: u64 = 2_000;

/// At once it is waited for this many microseconds at most; what the system takes beyond that isn't counted.
const MAX_WAITED: u64 = 5_000;

/// A microsecond of waiting costs this many of acts: of the time that nobody else uses those who wait have at least four fifths.
const PRICE: u64 = 4;

/// No more is kept than pays 50 milliseconds of waiting: that is for who says many short commands, one behind the answer to the other.
const MAX_EARNED: u64 = 200_000;

/// Waits for the next command of a connection whose account used little: whoever used much goes on only after them. They are paid by what
/// the acts of these take, so that they get on whatever others say.
#[derive(Clone, Copy, Debug, PartialEq, Eq)]
pub struct Grace {
    /// How many microseconds of acts aren't spent yet.
    pub earned: u64,
}

impl Grace {
    /// Nothing is earned.
    pub fn none() -> Grace
        ensures { result.earned ≡ 0 }
    {
        Grace { earned: 0 }
    }

    /// An act of an account that used much took that many microseconds.
    pub fn earn(&mut self, micros: u64)
        ensures { self.new ≡ g.earned_by micros self.old }
    {
        self.earned = self.earned.saturating_add(micros).min(MAX_EARNED);
    }

    /// Whether it may be waited for a while, if that many microseconds have passed since one was served that used little.
    pub fn may_wait(&self, passed: u64) -> bool
        ensures { result ≡ g.may_wait passed self.now }
    {
        passed < SPAN && PRICE * MAX_WAITED <= self.earned
    }

    /// That many microseconds were waited.
    pub fn pay(&mut self, micros: u64)
        ensures { self.new ≡ g.paid_by micros self.old }
    {
        let cost = PRICE * micros.min(MAX_WAITED);
        self.earned = self.earned.saturating_sub(cost);
    }
}

/// Whatever others say, those who used much have four fifths of the time that nobody else uses.
pub fn late_get_on()
    ensures { LateGetOn }
{}
