//! How long a row waits.
ghost use Rattle.std.specs.Prelude.{◌≡◌};
ghost use Rattle.smtp_queue.specs.Waits as s;

use smtp_dialogue::Ending;

/// How many seconds a row waits that is permanently refused.
const DAY: u64 = 86_400;

/// For how many seconds after its row was due what is known of it is kept, and for how many before. None is noted for longer than a
/// day, and a run is shorter than another.
const KEPT: u64 = 172_800;

/// What is known of a row that was tried without success.
#[derive(Clone, Copy, Debug, PartialEq, Eq)]
pub struct Wait {
    /// The moment from which on it is due again, in seconds since 1970-01-01 UTC.
    pub due: u64,
    /// How many times in a row it was tried without success.
    pub tries: u64,
}

impl Wait {
    /// Whether its row is due at a moment: the wait is over, or is more than a day ahead. None is noted for longer than a day, so such a
    /// one was noted by a clock that was ahead.
    pub fn is_over(&self, now: u64) -> bool
        ensures { result ≡ s.is_wait_over now self.now }
    {
        self.due <= now || now.saturating_add(DAY) < self.due
    }

    /// Whether it is kept at a moment: within two days of the moment at which the row is due. So what a clock noted that was ahead is
    /// forgotten too, even of a row that is gone.
    pub fn is_kept(&self, now: u64) -> bool
        ensures { result ≡ s.is_wait_kept now self.now }
    {
        now < self.due.saturating_add(KEPT) && self.due <= now.saturating_add(KEPT)
    }
}

/// How many seconds a row waits that was tried this many times before: 1, 2, 4, 8, 16, 32 and then 60 minutes.
pub fn pause_after(tries: u64) -> u64
    ensures { result ≡ s.pause_after tries }
{
    match tries {
        0 => 60,
        1 => 120,
        2 => 240,
        3 => 480,
        4 => 960,
        5 => 1_920,
        _ => 3_600,
    }
}

/// How many seconds a row waits after an ending: none after 250; a day if it is permanently refused, needs what the server
/// doesn't offer, or has an address that is no mailbox.
pub fn seconds_after(ending: Ending, tries: u64) -> Option<u64>
    ensures { result ≡ s.seconds_after ending tries }
{
    match ending {
        Ending::Sent => None,
        Ending::Refused(_) | Ending::Undeclared | Ending::Unaddressed => Some(DAY),
        Ending::Delayed(_) | Ending::OutOfPlace(_) | Ending::Lost => Some(pause_after(tries)),
    }
}

/// The wait of a row that was tried this many times before and ended so at a moment; none if it was sent.
pub fn wait_after(tries: u64, ending: Ending, moment: u64) -> Option<Wait>
    ensures { result ≡ s.wait_after tries ending moment }
{
    match seconds_after(ending, tries) {
        Some(seconds) => Some(Wait {
            due: moment.saturating_add(seconds),
            tries: tries.saturating_add(1),
        }),
        None => None,
    }
}
