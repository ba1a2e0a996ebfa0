//! What a connection waits for, and since when. Moments are in milliseconds.
ghost use Rattle.std.specs.Prelude.{◌≡◌, true, false};
ghost use Rattle.lmtp_connections.specs.Progress as s;

/// For how many milliseconds the store is asked for without success, for all recipients of a message together.
const MAX_AWAY: u64 = 60000;

/// After how many milliseconds it is asked for again.
const RETRY_SPAN: u64 = 5;

/// For how many milliseconds a client may say nothing (RFC 5321, section 4.5.3.2.7).
const MAX_SILENCE: u64 = 300_000;

/// What is wanted of a connection to which all is sent.
#[derive(Clone, Copy, Debug, PartialEq, Eq)]
pub enum Wanted {
    /// More octets.
    More,
    /// To continue with what it has heard.
    Step,
    /// To continue at that moment.
    Until(u64),
    /// That it ends.
    Done,
}

/// What a connection waits for, beside its socket.
#[derive(Clone, Copy, Debug, PartialEq, Eq)]
pub enum StoreWait {
    /// Nothing.
    Nothing,
    /// The store, which wasn't available at the first moment, and is asked for again at the second.
    Store(u64, u64),
}

/// How far a message has come, and the time that it took.
#[derive(Clone, Copy, Debug, PartialEq, Eq)]
pub struct LmtpProgress {
    /// How many forms of the recipient that is asked for have no account.
    pub tried: usize,
    /// How many recipients got a reply after the text.
    pub told: usize,
    pub waits: StoreWait,
    /// How many milliseconds the store was away before, for this message.
    pub spent: u64,
    /// The moment from which on the client's silence is counted.
    pub since: u64,
    /// The moment from which its claim counts: its last step with an accepted recipient, else when it came.
    pub claim_since: u64,
}

impl LmtpProgress {
    /// That of a new message.
    pub fn fresh(now: u64) -> LmtpProgress
        ensures { result ≡ s.new_progress now }
    {
        LmtpProgress {
            tried: 0,
            told: 0,
            waits: StoreWait::Nothing,
            spent: 0,
            since: now,
            claim_since: now,
        }
    }

    /// Whether the store may be asked: it wasn't away for too long.
    pub fn may_ask(&self, now: u64) -> bool
        ensures may { result ≡ true → s.MayAskStore now self.now }
        ensures waited { result ≡ false → s.HasWaited now self.now }
    {
        self.waited(now) < MAX_AWAY
    }

    /// For how many milliseconds the store was away in all.
    fn waited(&self, now: u64) -> u64
        ensures { result ≡ s.waited now self.now }
    {
        match self.waits {
            StoreWait::Nothing => self.spent.min(MAX_AWAY),
            StoreWait::Store(since, _) => self
                .spent
                .saturating_add(now.saturating_sub(since))
                .min(MAX_AWAY),
        }
    }

    /// After something that was done: the store isn't waited for.
    pub fn done(&self, now: u64) -> LmtpProgress
        ensures { result ≡ s.progress_done now self.now }
    {
        LmtpProgress {
            tried: self.tried,
            told: self.told,
            waits: StoreWait::Nothing,
            spent: self.waited(now),
            since: now,
            claim_since: self.claim_since,
        }
    }

    /// After something that was done, while a transaction is open or none is, with a recipient that was taken or without.
    pub fn settled(&self, now: u64, opened: bool, taken: bool) -> LmtpProgress
        ensures { result ≡ s.progress_settled now opened taken self.now }
    {
        let mut progress = if opened {
            self.done(now)
        } else {
            LmtpProgress::fresh(now)
        };
        progress.claim_since = if taken { now } else { self.claim_since };
        progress
    }

    /// After the store's absence.
    pub fn away(&self, now: u64) -> LmtpProgress
        ensures { result ≡ s.progress_away now self.now }
    {
        let since = match self.waits {
            StoreWait::Nothing => now,
            StoreWait::Store(since, _) => since,
        };
        LmtpProgress {
            tried: self.tried,
            told: self.told,
            waits: StoreWait::Store(since, now.wrapping_add(RETRY_SPAN)),
            spent: self.spent,
            since: self.since,
            claim_since: self.claim_since,
        }
    }

    /// After this many octets came. While the client sends a message's text each octet moves its deadline by a millisecond.
    pub fn heard(&self, now: u64, sending: bool, count: usize) -> LmtpProgress
        ensures { result ≡ s.progress_heard now sending count self.now }
    {
        let since = if sending {
            self.since.wrapping_add(count as u64).min(now)
        } else {
            now
        };
        LmtpProgress {
            tried: self.tried,
            told: self.told,
            waits: self.waits,
            spent: self.spent,
            since,
            claim_since: self.claim_since,
        }
    }

    /// The moment by which the client is late.
    pub fn due(&self) -> u64
        ensures { result ≡ s.due self.now }
    {
        match self.waits {
            StoreWait::Nothing => self.since.wrapping_add(MAX_SILENCE),
            StoreWait::Store(_, _) => u64::MAX,
        }
    }

    /// What is wanted, if `comes` is what the dialogue wants.
    pub fn wanted(&self, comes: Wanted) -> Wanted
        ensures { result ≡ s.wanted comes self.now }
    {
        match self.waits {
            StoreWait::Nothing => comes,
            StoreWait::Store(_, again) => Wanted::Until(again),
        }
    }
}
