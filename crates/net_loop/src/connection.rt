//! The turn of one connection: what is sent to it, read of it and done for it.
ghost use Rattle.std.specs.Prelude.{ℕ, ◌≡◌, ◌==◌, ◌<◌, ◌≤◌, length, take, true, Some, None, IsTrue, IsSome};
ghost use Rattle.net_loop.specs.Moves.{LoopActs, loop_state};
ghost use Rattle.net_loop.specs.Talk.{client_of, client_kind, waits, shut_from, is_nothing, gathers, task, task_by, task_sent};
ghost use Rattle.net_loop.specs.Talk.{task_unsent, task_wanted, takes_more, next_piece, Gathers, Taken, ClientStays, drained, due_taken};
ghost use Rattle.net_loop.specs.Turns.{Tasks, ServiceAnswers, ServiceGiven, service_state};
ghost use Rattle.net_loop.specs.declared.turn.Turn.TheVariants.{Free, Busy, OutOfMemory};
ghost use Rattle.net_loop.specs.declared.turn.Task.TheVariants.{Send, Hear, Step, Rest, HangUp, Drain};

use crate::accept::MAX_UNSENT;
use crate::act::Act;
use crate::close::{again_once, end_once};
use crate::machine::{Machine, Want};
use crate::outcome::{Input, Output};
use crate::outside::{Clock, Sockets};
use crate::schedule::{MAX_PARTING, is_all_sent};
use crate::service::{Client, Phase, Service};
use crate::turn::{Task, Turn};
use octets::{Octets, Pending};
use std::alloc::Global;
use std::mem;

/// While fewer octets than this wait to be sent to a connection, its steps continue before they are sent.
const MAX_GATHERED: usize = 16384;

/// No more octets of a connection are read at once.
const MAX_PIECE: usize = 4096;

/// After this many acts in a row of one connection another has its turn, and earlier after a step that took long.
const MAX_ACTS: u32 = 16;

/// This many octets, or a few more, are read and dropped of a connection after this side was shut: its peer sees what was said
/// to it last, instead of an error.
const MAX_DROPPED: usize = 1048576;

/// What is to be done on it, after this many acts of its turn.
pub fn task_of<O: Sockets + Clock, M: Machine<O>>(
    machine: &M,
    service: &Service,
    id: u32,
    count: u32,
) -> Task
    ensures { result ≡ task M.rules machine.now service.now.moment count id (client_of service.now id) }
{
    match service.clients.get(&id) {
        Some(client) => task_of_client(client, service.moment, count, machine.wants(id)),
        None => Task::Nothing,
    }
}

fn task_of_client(client: &Client, now: u64, count: u32, want: Want) -> Task
    ensures { result ≡ task_by (waits client.now) (gathers client.now count) client.now.phase now want }
{
    let task = task_of_phase(client.phase, now, want);
    if is_all_sent(client) {
        return task;
    }
    task_of_unsent(may_gather(client, count), task)
}

/// What is to be done if all is sent.
fn task_of_phase(phase: Phase, now: u64, want: Want) -> Task
    ensures { result ≡ task_sent phase now want }
{
    match phase {
        Phase::Open => task_of_want(now, want),
        Phase::Closing | Phase::Yielding => Task::HangUp,
        Phase::Shut(left) => { if left == 0 { Task::End } else { Task::Drain } }
    }
}

/// What is to be done if something waits: that is sent, but for a step that may be made before.
fn task_of_unsent(gathers: bool, task: Task) -> Task
    ensures { result ≡ task_unsent gathers task }
{
    match task {
        Task::Step => { if gathers { Task::Step } else { Task::Send } }
        _ => Task::Send,
    }
}

/// Whether a step may be made before what waits is sent.
fn may_gather(client: &Client, count: u32) -> bool
    ensures { result ≡ gathers client.now count }
{
    client.behind.is_empty() && client.unsent.len() < MAX_GATHERED && count < MAX_ACTS - 1
}

fn task_of_want(now: u64, want: Want) -> Task
    ensures { result ≡ task_wanted now want }
{
    match want {
        Want::More => Task::Hear,
        Want::Step => Task::Step,
        Want::Wait => Task::Rest,
        Want::Until(moment) => { if now < moment { Task::Rest } else { Task::Step } }
        Want::Done => Task::HangUp,
    }
}

/// Of which kind it is.
pub fn kind_of_client(service: &Service, id: u32) -> u32
    ensures { result ≡ client_kind (client_of service.now id) }
{
    match service.clients.get(&id) {
        Some(client) => client.kind,
        None => 0,
    }
}

/// One act of it.
pub fn busy_once<O: Sockets + Clock, M: Machine<O>>(
    outside: &mut O,
    machine: &mut M,
    service: &mut Service,
    id: u32,
    count: u32,
)
    requires { service.old.turn ≡ Busy id count }
    ensures { LoopActs O.told M.rules (loop_state outside.old machine.old service.old) (loop_state outside.new machine.new service.new) }
{
    if count >= MAX_ACTS {
        return again_once(outside, machine, service, id);
    }
    let kind = kind_of_client(service, id);
    match task_of(machine, service, id, count) {
        Task::Send => send_once(outside, machine, service, id, count, kind),
        Task::Hear => hear_once(outside, machine, service, id, count, kind),
        Task::Step => step_once(outside, machine, service, id, count, kind),
        Task::Rest => rest_once(outside, machine, service, id, kind),
        Task::HangUp => shut_once(outside, machine, service, id, count),
        Task::Drain => drain_once(outside, machine, service, id, count, kind),
        Task::End => end_once(outside, machine, service, id, kind),
        Task::Nothing => again_once(outside, machine, service, id),
    }
}

/// Sends what waits.
fn send_once<O: Sockets + Clock, M: Machine<O>>(
    outside: &mut O,
    machine: &mut M,
    service: &mut Service,
    id: u32,
    count: u32,
    kind: u32,
)
    requires turn { Tasks M.rules machine.old service.old id count Send }
    requires kind { kind ≡ client_kind (client_of service.old id) }
    ensures { LoopActs O.told M.rules (loop_state outside.old machine.old service.old) (loop_state outside.new machine.new service.new) }
{
    let Some(client) = service.clients.get_mut(&id) else {
        return;
    };
    match outside.write(id, first_piece(client)) {
        Output::Taken(taken) => {
            take_off(client, service.alloc, service.moment, taken);
            service.turn = Turn::Busy(id, count + 1);
        }
        Output::Nothing => {
            service.turn = Turn::Free;
        }
        Output::Lost => {
            service.turn = Turn::Leaving(id, kind);
        }
    }
}

/// What is sent next of what waits.
fn first_piece(client: &Client) -> &[u8]
    ensures { result.now ≡ next_piece client.now.unsent client.now.behind }
{
    if client.unsent.is_empty() {
        return client.behind.as_slice();
    }
    client.unsent.as_slice()
}

/// Takes off this many octets, which were sent.
#[tactic(auto, using(crate::proofs::SendLemmas::taken_front))]
fn take_off(client: &mut Client, alloc: Global, now: u64, count: usize)
    requires { count ≤ length (next_piece client.old.unsent client.old.behind) }
    ensures { Taken now (take count (next_piece client.old.unsent client.old.behind)) client.old client.new }
{
    bring_up(client, alloc);
    client.unsent.drop_front(count);
    client.until = due_taken(now, client.phase, client.until);
}

/// By which moment some more of what waits is to be taken, after some was: for what is said last it stays.
fn due_taken(now: u64, phase: Phase, until: u64) -> u64
    ensures { result ≡ due_taken now phase until }
{
    match phase {
        Phase::Open => now.wrapping_add(MAX_UNSENT),
        Phase::Closing | Phase::Yielding | Phase::Shut(_) => until,
    }
}

/// If nothing waits before it, what waits after it is next.
fn bring_up(client: &mut Client, alloc: Global)
    ensures first { client.new.unsent ≡ next_piece client.old.unsent client.old.behind }
    ensures waits { waits client.new ≡ waits client.old }
    ensures until { client.new.until ≡ client.old.until }
    ensures stays { ClientStays client.old client.new }
{
    if !client.unsent.is_empty() {
        return;
    }
    let behind = mem::replace(&mut client.behind, Octets::new(alloc));
    client.unsent = Pending::from_octets(behind);
}

/// Reads, and has the machine hear it.
fn hear_once<O: Sockets + Clock, M: Machine<O>>(
    outside: &mut O,
    machine: &mut M,
    service: &mut Service,
    id: u32,
    count: u32,
    kind: u32,
)
    requires turn { Tasks M.rules machine.old service.old id count Hear }
    requires kind { kind ≡ client_kind (client_of service.old id) }
    ensures { LoopActs O.told M.rules (loop_state outside.old machine.old service.old) (loop_state outside.new machine.new service.new) }
{
    let mut buffer = [0u8; MAX_PIECE];
    match outside.read(id, &mut buffer) {
        Input::Got(got) => give(machine, service, id, count, kind, &buffer[..got]),
        Input::Nothing => {
            service.turn = Turn::Free;
        }
        Input::Over => {
            service.turn = Turn::Leaving(id, kind);
        }
        Input::Lost => {
            service.turn = Turn::Leaving(id, kind);
        }
    }
}

/// Has the machine hear a piece.
fn give<O: Sockets + Clock, M: Machine<O>>(
    machine: &mut M,
    service: &mut Service,
    id: u32,
    count: u32,
    kind: u32,
    piece: &[u8],
)
    requires turn { Tasks M.rules machine.old service.old id count Hear }
    requires kind { kind ≡ client_kind (client_of service.old id) }
    ensures { ServiceGiven M.rules (service_state machine.old service.old) id count piece.now (service_state machine.new service.new) }
{
    let mut out = Octets::new(service.alloc);
    if machine.give(service.moment, id, piece, &mut out).is_ok() {
        answer(service, id, count + 1, out);
    } else {
        service.turn = Turn::OutOfMemory(id, kind);
    }
}

/// What is said to it is to be sent, and its turn goes on, with `count` acts done by then.
fn answer(service: &mut Service, id: u32, count: u32, said: Octets)
    requires some { IsSome (client_of service.old id) }
    requires more { takes_more (client_of service.old id) ≡ true }
    ensures { ServiceAnswers id count said service.old service.new }
{
    service.turn = Turn::Busy(id, count);
    let Some(client) = service.clients.get_mut(&id) else {
        return;
    };
    gather(client, service.moment, said);
}

/// What is said to it is to be sent, after what waits.
fn gather(client: &mut Client, now: u64, said: Octets)
    requires { is_nothing client.old.behind ≡ true }
    ensures { Gathers now said client.old client.new }
{
    if client.unsent.is_empty() {
        client.unsent = Pending::from_octets(said);
        client.until = now.wrapping_add(MAX_UNSENT);
        return;
    }
    if client.unsent.extend_from_slice(said.as_slice()).is_err() {
        client.behind = said;
    }
}

/// Has the machine continue.
fn step_once<O: Sockets + Clock, M: Machine<O>>(
    outside: &mut O,
    machine: &mut M,
    service: &mut Service,
    id: u32,
    count: u32,
    kind: u32,
)
    requires turn { Tasks M.rules machine.old service.old id count Step }
    requires kind { kind ≡ client_kind (client_of service.old id) }
    ensures { LoopActs O.told M.rules (loop_state outside.old machine.old service.old) (loop_state outside.new machine.new service.new) }
{
    let mut out = Octets::new(service.alloc);
    if machine.step(outside, service.moment, id, &mut out).is_ok() {
        let long = outside.was_long();
        answer(service, id, count_behind(count, long), out);
    } else {
        let _ = outside.was_long();
        outside.note(Act::Full(id));
        service.turn = Turn::Leaving(id, kind);
    }
}

/// How many acts of its turn are done after a step: a long one leaves it at most one more act, in which its answer is sent.
fn count_behind(count: u32, long: bool) -> u32
    requires { count < 16 }
    ensures further { count < result }
    ensures within { result ≤ 16 }
{
    if long {
        (count + 1).max(MAX_ACTS - 1)
    } else {
        count + 1
    }
}

/// Lets it wait for something other than its socket.
fn rest_once<O: Sockets + Clock, M: Machine<O>>(
    outside: &mut O,
    machine: &mut M,
    service: &mut Service,
    id: u32,
    kind: u32,
)
    requires turn { (count : ℕ) × Tasks M.rules machine.old service.old id count Rest }
    requires kind { kind ≡ client_kind (client_of service.old id) }
    ensures { LoopActs O.told M.rules (loop_state outside.old machine.old service.old) (loop_state outside.new machine.new service.new) }
{
    if service.waiting.contains(&id) {
        outside.note(Act::Waits(id));
        service.turn = Turn::Free;
        return;
    }
    if service.waiting.push(id).is_ok() {
        outside.note(Act::Waits(id));
        service.turn = Turn::Free;
    } else {
        outside.note(Act::Full(id));
        service.turn = Turn::Leaving(id, kind);
    }
}

/// Tells its peer that no more comes.
fn shut_once<O: Sockets + Clock, M: Machine<O>>(
    outside: &mut O,
    machine: &mut M,
    service: &mut Service,
    id: u32,
    count: u32,
)
    requires { Tasks M.rules machine.old service.old id count HangUp }
    ensures { LoopActs O.told M.rules (loop_state outside.old machine.old service.old) (loop_state outside.new machine.new service.new) }
{
    let Some(client) = service.clients.get_mut(&id) else {
        return;
    };
    outside.shut(id);
    client.phase = shut_from(client.phase);
    client.until = service.moment.wrapping_add(MAX_PARTING);
    service.turn = Turn::Busy(id, count + 1);
}

/// Its phase once this side is shut: of one that makes room nothing more is read.
fn shut_from(phase: Phase) -> Phase
    ensures { result ≡ shut_from phase }
{
    match phase {
        Phase::Yielding => Phase::Shut(0),
        Phase::Open | Phase::Closing | Phase::Shut(_) => Phase::Shut(MAX_DROPPED),
    }
}

/// Reads and drops.
fn drain_once<O: Sockets + Clock, M: Machine<O>>(
    outside: &mut O,
    machine: &mut M,
    service: &mut Service,
    id: u32,
    count: u32,
    kind: u32,
)
    requires turn { Tasks M.rules machine.old service.old id count Drain }
    requires kind { kind ≡ client_kind (client_of service.old id) }
    ensures { LoopActs O.told M.rules (loop_state outside.old machine.old service.old) (loop_state outside.new machine.new service.new) }
{
    let Some(client) = service.clients.get_mut(&id) else {
        return;
    };
    match outside.discard(id) {
        Input::Got(got) => {
            client.phase = drain(client.phase, got);
            service.turn = Turn::Busy(id, count + 1);
        }
        Input::Nothing => {
            service.turn = Turn::Free;
        }
        Input::Over => {
            service.turn = Turn::Leaving(id, kind);
        }
        Input::Lost => {
            service.turn = Turn::Leaving(id, kind);
        }
    }
}

/// Counts this many octets more as dropped.
fn drain(phase: Phase, count: usize) -> Phase
    ensures { result ≡ drained count phase }
{
    match phase {
        Phase::Open => Phase::Open,
        Phase::Closing => Phase::Closing,
        Phase::Yielding => Phase::Yielding,
        Phase::Shut(left) => Phase::Shut(left.saturating_sub(count)),
    }
}
