//! What is to happen.
ghost use Rattle.std.specs.Prelude.{◌≤◌};

use net_loop::outcome::Wake;
use octets::Octets;
use std::alloc::Global;
use std::collections::VecDeque;

/// What a read of a connection comes to.
#[derive(Drop)]
pub enum Reading {
    /// These octets, or as many of them as are asked for; the others are lost.
    Piece(Octets),
    /// Its end.
    Over,
    /// A failure.
    Lost,
}

/// What is to happen, each in its order. A read or a write of another connection than the first of its list finds nothing, or
/// takes all; so does each once a list is used up.
#[derive(Drop)]
pub struct SocketScript {
    /// What each wait tells.
    pub wakes: VecDeque<Vec<Wake>>,
    /// The kinds of the connections that come.
    pub comers: VecDeque<u32>,
    /// What each read of a connection comes to.
    pub readings: VecDeque<(u32, Reading)>,
    /// How many octets each write of a connection takes; none: it finds no room.
    pub room: VecDeque<(u32, usize)>,
    /// What the clock shows.
    pub moments: VecDeque<u64>,
}

impl SocketScript {
    /// Nothing happens. Takes no memory.
    pub fn new(alloc: Global) -> SocketScript {
        SocketScript {
            wakes: VecDeque::new(alloc),
            comers: VecDeque::new(alloc),
            readings: VecDeque::new(alloc),
            room: VecDeque::new(alloc),
            moments: VecDeque::new(alloc),
        }
    }

    /// What the next wait tells.
    pub fn next_wakes(&mut self, alloc: Global) -> Vec<Wake> {
        match self.wakes.pop_front() {
            Some(wakes) => wakes,
            None => Vec::new(alloc),
        }
    }

    /// Whether a connection of that kind comes now.
    pub fn comes(&mut self, kind: u32) -> bool {
        match self.comers.front() {
            Some(first) => {
                if *first != kind {
                    return false;
                }
            }
            None => return false,
        }
        let _ = self.comers.pop_front();
        true
    }

    /// What a read of that connection comes to, if something.
    pub fn next_reading(&mut self, id: u32) -> Option<Reading> {
        match self.readings.front() {
            Some(first) => {
                if first.0 != id {
                    return None;
                }
            }
            None => return None,
        }
        match self.readings.pop_front() {
            Some((_, reading)) => Some(reading),
            None => None,
        }
    }

    /// How many of `most` octets a write of that connection takes.
    pub fn next_room(&mut self, id: u32, most: usize) -> usize
        ensures { result ≤ most }
    {
        match self.room.front() {
            Some(first) => {
                if first.0 != id {
                    return most;
                }
            }
            None => return most,
        }
        match self.room.pop_front() {
            Some((_, room)) => room.min(most),
            None => most,
        }
    }
}
