//! The daemon: sessions, what each connection waits for, and whether the store is held.
ghost use Rattle.std.specs.Prelude.{◌≡◌, []};
ghost use Rattle.daemon_core.specs.Holds as rules;

use crate::client_state::ClientState;
use std::alloc::Global;
use std::collections::BTreeMap;
use store_engine::Clients;

/// Whether the store is held, and when a message is to move on. Moments are in milliseconds.
#[derive(Clone, Copy, Debug, PartialEq, Eq)]
pub struct Holding {
    /// It may be held.
    pub is_held: bool,
    /// The moment from which on it is to be checked whether somebody waits for it.
    pub look: u64,
    /// The moment of the last event that asked it.
    pub asked: u64,
    /// Whether mail moves on at all.
    pub moves: bool,
    /// The moment from which on a message may move on.
    pub next: u64,
    /// It is soon: somebody waited for the store, or it wasn't available.
    pub soon: bool,
    /// How many events asked the store since the last message was to move; at most ten are counted.
    pub events: u64,
}

/// The sessions of clients, and what else is known of each connection, by its number.
#[derive(Drop)]
pub struct Daemon {
    pub alloc: Global,
    pub clients: Clients,
    pub states: BTreeMap<u32, ClientState>,
    pub holding: Holding,
}

impl Holding {
    /// After an event that asked the store at a moment: it is held.
    pub fn asked_at(self, now: u64) -> Holding
        ensures { result ≡ rules.asked_at now self }
    {
        Holding {
            is_held: true,
            look: now,
            asked: now,
            moves: self.moves,
            next: now,
            soon: self.soon,
            events: count_event(self.events),
        }
    }

    /// The same after this many events at once.
    pub fn asked_by(self, count: usize, now: u64) -> Holding
        ensures { result ≡ rules.asked_by count now self }
    {
        Holding {
            is_held: true,
            look: now,
            asked: now,
            moves: self.moves,
            next: now,
            soon: self.soon,
            events: self.events.saturating_add(count as u64).min(10),
        }
    }
}

/// One more, at most ten.
fn count_event(events: u64) -> u64
    ensures { result ≡ rules.counted_events events }
{
    if events < 10 { events + 1 } else { 10 }
}

impl Daemon {
    /// No connections. If `moves`, mail moves on. Takes no memory.
    pub fn new(alloc: Global, moves: bool) -> Daemon
        ensures sessions { result.clients.sessions.entries ≡ [] }
        ensures states { result.states.entries ≡ [] }
        ensures moves { result.holding.moves ≡ moves }
    {
        Daemon {
            alloc,
            clients: Clients::new(alloc),
            states: BTreeMap::new(alloc),
            holding: Holding {
                is_held: false,
                look: 0,
                asked: 0,
                moves,
                next: 0,
                soon: false,
                events: 0,
            },
        }
    }
}
