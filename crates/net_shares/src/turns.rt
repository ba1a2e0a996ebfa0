//! Who waits after the others.
ghost use Rattle.std.specs.Prelude.{◌≡◌, ◌/◌, [], not, filter, find, true, false, Some, IfOk, OnOk, OnErr, IsTrue, is_some, option_copied};
ghost use Rattle.std.specs.Ordering.{nat_cmp};
ghost use Rattle.std.specs.BTreeMap as tree;
ghost use Rattle.net_shares.specs.Order as o;
ghost use Rattle.net_shares.specs.Order.{PutsOffLate, LetsOneGo, Unordered};
ghost use Rattle.net_shares.specs.Shares as s;

use crate::share::Shares;
use crate::time_account::TimeAccount;
use net_loop::outcome::Wake;
use std::alloc::{AllocError, Global};
use std::collections::{BTreeMap, VecDeque};
use std::mem::swap;

/// Connections of an account that used more than this many microseconds recently wait after all others.
const MAX_SPENT: u64 = 50_000;

/// Of these, connections of an account that used more than this many microseconds wait after the others.
const MAX_LATE: u64 = 200_000;

/// How much time accounts used, for which account each connection had its last act, and the wakes of those that wait after the
/// others.
#[derive(Drop)]
pub struct Scheduler {
    alloc: Global,
    shares: Shares,
    accounts: BTreeMap<u32, TimeAccount>,
    put_off: VecDeque<Wake>,
}

impl Scheduler {
    /// Nobody used time, and nobody waits. Takes no memory.
    pub fn new(alloc: Global) -> Scheduler
        ensures { result.put_off.items ≡ [] }
    {
        Scheduler {
            alloc,
            shares: Shares::new(alloc),
            accounts: BTreeMap::new(alloc),
            put_off: VecDeque::new(alloc),
        }
    }

    /// A connection comes: its acts count for that account, as long as nothing else is known.
    ///
    /// Lack of memory is the only error; nothing changes then.
    pub fn enter(&mut self, id: u32, account: TimeAccount) -> Result<(), AllocError>
        ensures ok { OnOk result (tree.Updates nat_cmp self.old.accounts self.new.accounts id (Some account)) }
        ensures err { OnErr result (tree.IsUnchanged self.old.accounts self.new.accounts) }
        ensures shares { self.new.shares ≡ self.old.shares }
        ensures put_off { self.new.put_off ≡ self.old.put_off }
    {
        match self.accounts.insert(id, account) {
            Ok(_) => Ok(()),
            Err(_) => Err(AllocError),
        }
    }

    /// An act of a connection, for an account, took that many microseconds, up to a moment in milliseconds.
    ///
    /// Lack of memory is the only error; a part of what was to be noted is lost then.
    pub fn charge(
        &mut self,
        id: u32,
        account: TimeAccount,
        now: u64,
        micros: u64,
    ) -> Result<(), AllocError>
        ensures spent { OnOk result (self.new.shares.entries.items ≡ s.with_share account (now / s.slot_span) micros self.old.shares.entries.items) }
        ensures account { OnOk result (tree.Updates nat_cmp self.old.accounts self.new.accounts id (Some account)) }
        ensures put_off { self.new.put_off ≡ self.old.put_off }
    {
        self.shares.add(self.alloc, &account, now, micros)?;
        self.enter(id, account)
    }

    /// The account for which a connection had its last act, if it is known.
    pub fn account(&self, id: u32) -> Option<&TimeAccount>
        ensures { option_copied result ≡ tree.get nat_cmp self.now.accounts id }
    {
        self.accounts.get(&id)
    }

    /// A connection is closed.
    pub fn leave(&mut self, id: u32)
        ensures { self.new.put_off.items ≡ filter (λ wake. not (o.is_of id wake)) self.old.put_off.items }
    {
        forget(&mut self.accounts, id);
        self.put_off.retain(|wake| !is_of(id, *wake));
    }

    /// Whether somebody waits after the others.
    pub fn has_waiting(&self) -> bool
        ensures { IsTrue (not result) → self.now.put_off.items ≡ [] }
    {
        !self.put_off.is_empty()
    }

    /// Whether the account of a connection used too much time recently, if it is known.
    pub fn is_late(&self, id: u32, now: u64) -> bool
        ensures { result ≡ o.late_at self.now now id }
    {
        is_late(&self.shares, &self.accounts, now, &Wake::Ready(id))
    }

    /// Of the new wakes in `ready` and of those that waited, all go on whose accounts used little time recently; all others wait.
    ///
    /// Lack of memory is the only error; then accounts aren't compared: either all go on, or only the new ones
    /// while the others keep waiting.
    pub fn put_off_late(&mut self, now: u64, ready: &mut VecDeque<Wake>) -> Result<(), AllocError>
        ensures ok { OnOk result (PutsOffLate now self.old ready.old.items self.new ready.new.items) }
        ensures err { OnErr result (Unordered self.old.put_off.items ready.old.items self.new.put_off.items ready.new.items) }
    {
        if !join(&mut self.put_off, ready) {
            return Err(AllocError);
        }
        let late = late_of(&self.shares, &self.accounts, now, ready)?;
        leave_early(&self.shares, &self.accounts, now, ready);
        self.put_off = late;
        Ok(())
    }

    /// Whether one waits whose account didn't use far too much time.
    pub fn has_lighter(&self, now: u64) -> bool
        ensures { result ≡ is_some (find (λ wake. not (o.heavy_in self.now now wake)) self.now.put_off.items) }
    {
        self.first_not_heavy(now).is_some()
    }

    /// If nobody goes on, one of those that wait does: the first whose account didn't use far too much time, or if there is none, the first.
    ///
    /// Lack of memory is the only error; nothing changes then.
    pub fn let_one_go(&mut self, now: u64, ready: &mut VecDeque<Wake>) -> Result<(), AllocError>
        ensures ok { OnOk result (LetsOneGo now self.old ready.old.items self.new ready.new.items) }
        ensures err { OnErr result ((self.new ≡ self.old) × (ready.new.items ≡ ready.old.items)) }
    {
        if !ready.is_empty() {
            return Ok(());
        }
        let Some(next) = self.next_late(now) else {
            return Ok(());
        };
        if ready.push_back(next).is_err() {
            return Err(AllocError);
        }
        leave_one(&mut self.put_off, next);
        Ok(())
    }

    /// Who goes on of those that wait.
    fn next_late(&self, now: u64) -> Option<Wake>
        ensures { result ≡ o.next_late (o.heavy_in self.now now) self.now.put_off.items }
    {
        match self.first_not_heavy(now) {
            Some(wake) => Some(*wake),
            None => match self.put_off.front() {
                Some(wake) => Some(*wake),
                None => None,
            },
        }
    }

    /// The first of those that wait whose account didn't use far too much time.
    fn first_not_heavy(&self, now: u64) -> Option<&Wake>
        ensures { option_copied result ≡ find (λ wake. not (o.heavy_in self.now now wake)) self.now.put_off.items }
    {
        self.put_off
            .iter()
            .find(|wake| !is_heavy(&self.shares, &self.accounts, now, *wake))
    }
}

/// Leaves out one of those that wait.
fn leave_one(waited: &mut VecDeque<Wake>, one: Wake)
    ensures { waited.new.items ≡ filter (λ other. not (o.same_wake other one)) waited.old.items }
{
    waited.retain(|other| !is_same(*other, one));
}

/// Whether the wake is of a connection whose account used far too much time recently.
fn is_heavy(shares: &Shares, accounts: &BTreeMap<u32, TimeAccount>, now: u64, wake: &Wake) -> bool
    ensures { result ≡ o.is_heavy_wake shares.now.entries.items accounts.now now wake.now }
{
    match wake {
        Wake::Ready(id) => match accounts.get(id) {
            Some(account) => shares.spent(account, now) > MAX_LATE,
            None => false,
        },
        Wake::Knock(_) => false,
    }
}

/// Joins those that waited and the new wakes in `told`, each once; nobody waits then. Returns false if there is no memory for that, and
/// each stays where it is.
fn join(waited: &mut VecDeque<Wake>, told: &mut VecDeque<Wake>) -> bool
    ensures joined { result ≡ true → told.new.items ≡ o.all_wakes waited.old.items told.old.items }
    ensures empty { result ≡ true → waited.new.items ≡ [] }
    ensures apart { result ≡ false → told.new.items ≡ o.others waited.old.items told.old.items }
    ensures stays { result ≡ false → waited.new.items ≡ waited.old.items }
{
    leave_others(waited, told);
    if waited.append(told).is_err() {
        return false;
    }
    swap(waited, told);
    true
}

/// Keeps those of the new wakes that didn't wait.
fn leave_others(waited: &VecDeque<Wake>, told: &mut VecDeque<Wake>)
    ensures { told.new.items ≡ o.others waited.now.items told.old.items }
{
    told.retain(|wake| !is_among(waited, wake));
}

fn is_among(waited: &VecDeque<Wake>, wake: &Wake) -> bool
    ensures { result ≡ o.is_among waited.now.items wake.now }
{
    waited.iter().any(|other| is_same(*other, *wake))
}

fn is_same(wake: Wake, other: Wake) -> bool
    ensures { result ≡ o.same_wake wake other }
{
    match (wake, other) {
        (Wake::Ready(id), Wake::Ready(other)) => id == other,
        (Wake::Knock(kind), Wake::Knock(other)) => kind == other,
        _ => false,
    }
}

/// Keeps those that aren't late.
fn leave_early(
    shares: &Shares,
    accounts: &BTreeMap<u32, TimeAccount>,
    now: u64,
    wakes: &mut VecDeque<Wake>,
)
    ensures { wakes.new.items ≡ o.early (o.is_late_wake shares.now.entries.items accounts.now now) wakes.old.items }
{
    wakes.retain(|wake| !is_late(shares, accounts, now, wake));
}

/// Forgets a connection.
fn forget(accounts: &mut BTreeMap<u32, TimeAccount>, id: u32) {
    let _ = accounts.remove(&id);
}

/// Whether the wake is of this connection.
fn is_of(id: u32, wake: Wake) -> bool
    ensures { result ≡ o.is_of id wake }
{
    match wake {
        Wake::Ready(other) => other == id,
        Wake::Knock(_) => false,
    }
}

/// Whether the wake is of a connection whose account used too much time recently.
fn is_late(shares: &Shares, accounts: &BTreeMap<u32, TimeAccount>, now: u64, wake: &Wake) -> bool
    ensures { result ≡ o.is_late_wake shares.now.entries.items accounts.now now wake.now }
{
    match wake {
        Wake::Ready(id) => match accounts.get(id) {
            Some(account) => shares.spent(account, now) > MAX_SPENT,
            None => false,
        },
        Wake::Knock(_) => false,
    }
}

/// The wakes of such connections.
fn late_of(
    shares: &Shares,
    accounts: &BTreeMap<u32, TimeAccount>,
    now: u64,
    wakes: &VecDeque<Wake>,
) -> Result<VecDeque<Wake>, AllocError>
    ensures { IfOk result (λ late. late.items ≡ filter (o.is_late_wake shares.now.entries.items accounts.now now) wakes.now.items) }
{
    let mut late = copied(wakes)?;
    leave_late(shares, accounts, now, &mut late);
    Ok(late)
}

/// Keeps those that are late.
fn leave_late(
    shares: &Shares,
    accounts: &BTreeMap<u32, TimeAccount>,
    now: u64,
    wakes: &mut VecDeque<Wake>,
)
    ensures { wakes.new.items ≡ filter (o.is_late_wake shares.now.entries.items accounts.now now) wakes.old.items }
{
    wakes.retain(|wake| is_late(shares, accounts, now, wake));
}

fn copied(wakes: &VecDeque<Wake>) -> Result<VecDeque<Wake>, AllocError>
    ensures { IfOk result (λ copy. copy.items ≡ wakes.now.items) }
{
    wakes.clone()
}
