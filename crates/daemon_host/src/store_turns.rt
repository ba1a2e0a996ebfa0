//! Who waits for the store, and whose turn it is.
ghost use Rattle.std.specs.Prelude.{◌≡◌, ◌==◌, [], not, filter, find, option_copied};
ghost use Rattle.net_shares.specs.Order.{late_at};
ghost use Rattle.std.specs.Ordering.{nat_cmp};
ghost use Rattle.std.specs.BTreeMap as tree;
ghost use Rattle.daemon_host.specs.Queue as q;

use net_shares::Scheduler;
use std::alloc::Global;
use std::collections::BTreeMap;

/// Whoever waits asks for the store each 5 ms. One that didn't ask for this many milliseconds holds up nobody: its client reads nothing,
/// say, and it has no turn until that takes some of its answers.
const PATIENCE: u64 = 100;

/// The numbers of connections, in the order in which they came, each once, and the moment at which each asked last. If memory is
/// lacking for one it isn't in it, and may be served out of its order.
#[derive(Drop)]
pub struct StoreTurns {
    ids: Vec<u32>,
    asked: BTreeMap<u32, u64>,
}

impl StoreTurns {
    /// Nobody. Takes no memory.
    pub fn new(alloc: Global) -> StoreTurns
        ensures { result.ids.items ≡ [] }
    {
        StoreTurns {
            ids: Vec::new(alloc),
            asked: BTreeMap::new(alloc),
        }
    }

    /// Whether it is the turn of this one, which asks now, at a moment in milliseconds: of those who asked of late and whose accounts used
    /// little time recently it came first; if there is none, its account used little, or of all who asked it came first. Time is linear in
    /// those who wait.
    pub fn comes_next(&self, id: u32, now: u64, turns: &Scheduler) -> bool
        ensures { result ≡ q.comes_next (late_at turns.now now) id now self.now.ids.items self.now.asked }
    {
        match self.first_early(id, now, turns) {
            Some(early) => *early == id,
            None => is_first(id, self.first_that_asks(id, now)) || !turns.is_late(id, now),
        }
    }

    /// The first of those who asked of late, among whom this one is.
    fn first_that_asks(&self, id: u32, now: u64) -> Option<&u32>
        ensures { option_copied result ≡ find (q.asks id now self.now.asked) self.now.ids.items }
    {
        self.ids
            .iter()
            .find(|other| asks(id, now, &self.asked, **other))
    }

    /// The first of them whose account used little time.
    fn first_early(&self, id: u32, now: u64, turns: &Scheduler) -> Option<&u32>
        ensures { option_copied result ≡ find (q.asks_early (late_at turns.now now) id now self.now.asked) self.now.ids.items }
    {
        self.ids
            .iter()
            .find(|other| asks_early(id, now, &self.asked, turns, **other))
    }

    /// One waits, and asks at that moment. It keeps its place if it has one.
    pub fn join(&mut self, id: u32, now: u64)
        ensures ids { q.Joins id self.old.ids.items self.new.ids.items }
        ensures asked { q.NotesAsking id now self.old.asked self.new.asked }
    {
        let _ = self.asked.insert(id, now);
        if !self.ids.contains(&id) {
            let _ = self.ids.push(id);
        }
    }

    /// One no longer waits.
    pub fn leave(&mut self, id: u32)
        ensures { self.new.ids.items ≡ filter (λ other. not (other == id)) self.old.ids.items }
    {
        forget(&mut self.asked, id);
        self.ids.retain(|other| *other != id);
    }
}

/// Whether it is the first, or there is none.
fn is_first(id: u32, first: Option<&u32>) -> bool
    ensures { result ≡ q.is_first id (option_copied first.entry) }
{
    match first {
        Some(first) => *first == id,
        None => true,
    }
}

/// Whether another one asked of late, or is the one that asks now.
fn asks(id: u32, now: u64, asked: &BTreeMap<u32, u64>, other: u32) -> bool
    ensures { result ≡ q.asks id now asked.now other }
{
    if other == id {
        return true;
    }
    match asked.get(&other) {
        Some(moment) => now.saturating_sub(*moment) < PATIENCE,
        None => false,
    }
}

/// The same, and its account used little time recently.
fn asks_early(id: u32, now: u64, asked: &BTreeMap<u32, u64>, turns: &Scheduler, other: u32) -> bool
    ensures { result ≡ q.asks_early (late_at turns.now now) id now asked.now other }
{
    !turns.is_late(other, now) && asks(id, now, asked, other)
}

/// Forgets when it asked.
fn forget(asked: &mut BTreeMap<u32, u64>, id: u32) {
    let _ = asked.remove(&id);
}
