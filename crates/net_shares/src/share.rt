//! How much time accounts have used recently.
ghost use Rattle.std.specs.Prelude.{◌≡◌, ◌==◌, ◌<◌, ◌/◌, [], length, not, filter, find, option_copied, slice_get, slice_set, position, Some, OnOk, OnErr};
ghost use Rattle.net_shares.specs.declared.share.Share.{Share as ShareOf};
ghost use Rattle.net_shares.specs.Shares as s;

use crate::time_account::TimeAccount;
use std::alloc::{AllocError, Global};

/// The length of a slot, in milliseconds. Time counts in the slot in which it was spent and in the next one: for at least half a second
/// and at most a second.
const SLOT: u64 = 500;

/// At most this many accounts are known: those that used time in these slots. Nothing is noted of others then, and they wait for nobody.
const MAX_ACCOUNTS: usize = 1000;

/// What an account used, in microseconds.
#[derive(Drop)]
pub struct Share {
    account: TimeAccount,
    /// The last slot in which it used time.
    slot: u64,
    /// What it used in that slot.
    spent: u64,
    /// What it used in the slot before.
    before: u64,
}

impl Share {
    /// What counts of it in a slot: what was used in it and in the one before.
    fn spent_in(&self, slot: u64) -> u64
        ensures { result ≡ s.spent_in slot self.now }
    {
        if slot == self.slot {
            return self.spent.saturating_add(self.before);
        }
        if slot.saturating_sub(1) == self.slot {
            return self.spent;
        }
        0
    }

    /// Adds that many microseconds, used in a slot.
    fn add(&mut self, slot: u64, micros: u64)
        ensures { self.new ≡ s.with_spent slot micros self.old }
    {
        if slot == self.slot {
            self.spent = self.spent.saturating_add(micros);
            return;
        }
        self.before = if slot.saturating_sub(1) == self.slot {
            self.spent
        } else {
            0
        };
        self.slot = slot;
        self.spent = micros;
    }
}

/// What counts in a slot of what an account used; 0 if nothing is known of it.
fn spent_of(share: Option<&Share>, slot: u64) -> u64
    ensures { result ≡ s.spent_of (option_copied share.entry) slot }
{
    match share {
        Some(share) => share.spent_in(slot),
        None => 0,
    }
}

/// Keeps those that used something recently.
fn leave_late(shares: &mut Vec<Share>, slot: u64)
    ensures { shares.new.items ≡ filter (λ share. not (s.spent_in slot share == 0)) shares.old.items }
{
    shares.retain(|share| share.spent_in(slot) != 0);
}

/// What accounts used recently.
#[derive(Drop)]
pub struct Shares {
    pub entries: Vec<Share>,
}

impl Shares {
    /// No account used anything. Takes no memory.
    pub fn new(alloc: Global) -> Shares
        ensures { result.entries.items ≡ [] }
    {
        Shares {
            entries: Vec::new(alloc),
        }
    }

    /// How many microseconds an account used recently, at a moment in milliseconds. Time is linear in the number of known accounts.
    pub fn spent(&self, account: &TimeAccount, now: u64) -> u64
        ensures { result ≡ s.spent_by account.now now self.now.entries.items }
    {
        spent_of(self.find(account), now / SLOT)
    }

    /// What is known of an account.
    fn find(&self, account: &TimeAccount) -> Option<&Share>
        ensures { option_copied result ≡ find (λ share. s.is_same_account share.account account.now) self.now.entries.items }
    {
        self.entries.iter().find(|share| share.account.is(account))
    }

    /// Adds the microseconds that an account used up to a moment, in milliseconds. Nothing is noted of an account that isn't known yet if a
    /// thousand others used something recently.
    ///
    /// Lack of memory is the only error; nothing is noted then.
    pub fn add(
        &mut self,
        alloc: Global,
        account: &TimeAccount,
        now: u64,
        micros: u64,
    ) -> Result<(), AllocError>
        ensures ok { OnOk result (self.new.entries.items ≡ s.with_share account.now (now / s.slot_span) micros self.old.entries.items) }
        ensures err { OnErr result (self.new.entries.items ≡ s.cleared (now / s.slot_span) self.old.entries.items) }
    {
        let slot = now / SLOT;
        if self.find(account).is_some() {
            self.raise(account, slot, micros);
            return Ok(());
        }
        self.clear(slot);
        self.begin(alloc, account, slot, micros)
    }

    /// Adds microseconds to a known account, in a slot.
    fn raise(&mut self, account: &TimeAccount, slot: u64, micros: u64)
        ensures { self.new.entries.items ≡ s.more_of account.now slot micros self.old.entries.items }
    {
        if let Some(at) = self.place_of(account) {
            self.raise_at(at, slot, micros);
        }
    }

    fn place_of(&self, account: &TimeAccount) -> Option<usize>
        ensures { result ≡ position (λ share. s.is_same_account share.account account.now) self.now.entries.items }
    {
        self.entries
            .iter()
            .position(|share| share.account.is(account))
    }

    fn raise_at(&mut self, at: usize, slot: u64, micros: u64)
        requires { at < length self.old.entries.items }
        ensures { (share : ShareOf) → slice_get self.old.entries.items at ≡ Some share → self.new.entries.items ≡ slice_set self.old.entries.items at (s.with_spent slot micros share) }
    {
        self.entries[at].add(slot, micros);
    }

    /// If as many are known as may be, forgets those that used nothing recently.
    fn clear(&mut self, slot: u64)
        ensures { self.new.entries.items ≡ s.cleared slot self.old.entries.items }
    {
        if self.entries.len() >= MAX_ACCOUNTS {
            leave_late(&mut self.entries, slot);
        }
    }

    /// Notes the microseconds of an account that isn't known yet, in a slot; nothing is noted if there is no room.
    fn begin(
        &mut self,
        alloc: Global,
        account: &TimeAccount,
        slot: u64,
        micros: u64,
    ) -> Result<(), AllocError>
        ensures ok { OnOk result (self.new.entries.items ≡ s.with_new_share account.now slot micros self.old.entries.items) }
        ensures err { OnErr result (self.new.entries.items ≡ self.old.entries.items) }
    {
        if self.entries.len() >= MAX_ACCOUNTS {
            return Ok(());
        }
        let account = account.try_clone(alloc)?;
        let share = Share {
            account,
            slot,
            spent: micros,
            before: 0,
        };
        match self.entries.push(share) {
            Ok(()) => Ok(()),
            Err(_) => Err(AllocError),
        }
    }
}
