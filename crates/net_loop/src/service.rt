//! The loop: one act a call.
ghost use Rattle.std.specs.Prelude.{◌≡◌, ◌<◌, [], IsTrue, OnErr};
ghost use Rattle.net_loop.specs.Moves.{LoopActsOr, loop_state};
ghost use Rattle.net_loop.specs.declared.turn.Turn.TheVariants.{Free, Rested, Waked, Sweep, Accepting, Busy, OutOfMemory};

use crate::accept::door_once;
use crate::close::{end_once, full_once};
use crate::connection::busy_once;
use crate::machine::Machine;
use crate::outcome::{WaitError, Wake};
use crate::outside::{Clock, Sockets};
use crate::schedule::{calm_once, rested_once, sweep_once, time_once};
use crate::turn::Turn;
use octets::{Octets, Pending};
use std::alloc::Global;
use std::collections::{BTreeMap, VecDeque};

/// How far a connection is.
#[derive(Clone, Copy, Debug, PartialEq, Eq)]
pub enum Phase {
    /// It is the machine's.
    Open,
    /// It was late: what is said to it last is sent.
    Closing,
    /// It makes room for another: what is said to it last is sent if that goes at once, and it is closed.
    Yielding,
    /// This side was shut, and this many octets more are read and dropped.
    Shut(usize),
}

/// An open connection.
#[derive(Drop)]
pub struct Client {
    /// Its number.
    pub id: u32,
    /// Of which listener it is.
    pub kind: u32,
    /// What is to be sent.
    pub unsent: Pending,
    /// What is to be sent after it, if memory was lacking to put it there.
    pub behind: Octets,
    pub phase: Phase,
    /// The moment by which it is late with what is to be sent, or dropped.
    pub until: u64,
}

/// All open connections, and whose turn it is.
#[derive(Drop)]
pub struct Service {
    pub alloc: Global,
    /// By their numbers.
    pub clients: BTreeMap<u32, Client>,
    /// What the last wait told and is not yet taken up.
    pub ready: VecDeque<Wake>,
    /// Those who wait for something other than their socket, in the order in which they came.
    pub waiting: Vec<u32>,
    /// The latest moment that the clock showed.
    pub moment: u64,
    /// The number of the next to come.
    pub next: u32,
    /// What that was when the last wait ended.
    pub since: u32,
    pub turn: Turn,
}

impl Service {
    /// No connections.
    pub fn new(alloc: Global) -> Service
        ensures none { result.clients.entries ≡ [] }
        ensures ready { result.ready.items ≡ [] }
        ensures waiting { result.waiting.items ≡ [] }
        ensures turn { result.turn ≡ Free }
    {
        Service {
            alloc,
            clients: BTreeMap::new(alloc),
            ready: VecDeque::new(alloc),
            waiting: Vec::new(alloc),
            moment: 0,
            next: 1,
            since: 1,
            turn: Turn::Free,
        }
    }
}

/// One act.
///
/// # Errors
///
/// If a wait failed; nothing has changed.
pub fn act<O: Sockets + Clock, M: Machine<O>>(
    outside: &mut O,
    machine: &mut M,
    service: &mut Service,
) -> Result<(), WaitError>
    ensures { LoopActsOr O.told O.broken M.rules (loop_state outside.old machine.old service.old) (loop_state outside.new machine.new service.new) result }
{
    match service.turn {
        Turn::Free => calm_once(outside, machine, service),
        Turn::Rested => rested_once(outside, machine, service),
        Turn::Waked => {
            time_once(outside, machine, service);
            Ok(())
        }
        Turn::Sweep => sweep_once(outside, machine, service),
        Turn::Accepting(kind, knocked) => {
            door_once(outside, machine, service, kind, knocked);
            Ok(())
        }
        Turn::Busy(id, count) => {
            busy_once(outside, machine, service, id, count);
            Ok(())
        }
        Turn::OutOfMemory(id, kind) => {
            full_once(outside, machine, service, id, kind);
            Ok(())
        }
        Turn::Leaving(id, kind) => {
            end_once(outside, machine, service, id, kind);
            Ok(())
        }
    }
}
