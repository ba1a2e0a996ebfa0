//! One step of a connection: one event, or one text that was kept back.
ghost use Rattle.std.specs.Prelude.{◌≡◌, [], Some, true, false, IsTrue, IsSome, IsErr, OnOk, OnErr};
ghost use Rattle.std.specs.Ordering.{nat_cmp};
ghost use Rattle.std.specs.BTreeMap as tree;
ghost use Rattle.net_loop.specs.Rules.{StepsIf, IdlesIf, machine_state, step_at};
ghost use Rattle.net_loop.specs.Told.{ToldBefore};
ghost use Rattle.daemon_core.specs.DaemonRules.{daemon_rules, client_state_at, AtClientState, Forgets, DaemonRenews, LacksFor, held_at};
ghost use Rattle.daemon_core.specs.ClientStates as states;
ghost use Rattle.daemon_core.specs.ClientStates.{client_at, state_renewed, state_told};
ghost use Rattle.daemon_core.specs.Waiting as waiting;
ghost use Rattle.daemon_core.specs.Waiting.{SessionMayAsk, MayGiveUp, said_at_once, waits_after, IsReplyKeptBack};
ghost use Rattle.daemon_core.specs.declared.note.Note.TheVariants.{Away};
ghost use Rattle.store_engine.specs.Hosts.{EventAsksStore};
ghost use Rattle.store_engine.specs.declared.event.Event.TheVariants.{Step};

use crate::client_state::{ClientState, Fit, SessionWait};
use crate::daemon::Daemon;
use crate::eviction::is_user;
use crate::store_access::StoreAccess;
use octets::Octets;
use std::alloc::AllocError;
use std::collections::BTreeMap;
use std::mem::replace;
use store_engine::{Answer, Clients, Event, apply_free};

/// For how many milliseconds the answer to a login that failed is kept back.
const LOGIN_DELAY: u64 = 2000;

/// After how many milliseconds the store is asked for again.
const RETRY_SPAN: u64 = 5;

/// For how many milliseconds the store is asked for in all.
const MAX_AWAY: u64 = 5000;

/// What is answered to a login that failed, which is known by these octets: no other answer is spelled so.
const FAILED: &[u8] = b"NO \"Authentication failed.\"\r\n";

/// The same at the third failure, which ends the session.
const FAILED_LAST: &[u8] = b"BYE \"Too many failures.\"\r\n";

/// What is said to one that sends what there is no room for (RFC 5804, 1.3).
const TOO_MUCH: &[u8] = b"BYE (TRYLATER) \"Too much to hold.\"\r\n";

// ---- what an answer comes to

/// Whether that is the answer to a login that failed.
fn is_failure(octets: &[u8]) -> bool
    ensures { result ≡ waiting.is_failure octets.now }
{
    octets == FAILED || octets == FAILED_LAST
}

/// What is waited for after an answer; what is said of it at once is put out.
fn take_answer(now: u64, answer: Answer, out: &mut Octets) -> SessionWait
    requires { out.old ≡ [] }
    ensures waits { result ≡ waits_after now answer }
    ensures said { out.new ≡ said_at_once answer }
{
    match answer {
        Answer::Out(_, octets) => {
            if is_failure(octets.as_slice()) {
                return SessionWait::Reply(now.wrapping_add(LOGIN_DELAY), octets);
            }
            *out = octets;
            SessionWait::Nothing
        }
        Answer::Refused(_) => SessionWait::Refused,
        _ => SessionWait::Nothing,
    }
}

/// Whether an answer is one of a session, and no refusal.
pub fn is_out(answer: &Answer) -> bool
    ensures { result ≡ states.is_out answer.now }
{
    match answer {
        Answer::Out(_, _) => true,
        _ => false,
    }
}

// ---- what is known of one connection

/// Replaces what a connection waits for, and returns what it waited for.
fn replace_waits(
    states: &mut BTreeMap<u32, ClientState>,
    now: u64,
    id: u32,
    waits: SessionWait,
    answered: bool,
    user: bool,
) -> SessionWait
    ensures changed { (before : ClientState) → tree.get nat_cmp states.old id ≡ Some before → tree.Updates nat_cmp states.old states.new id (Some (state_renewed now before waits answered user)) }
    ensures before { (before : ClientState) → tree.get nat_cmp states.old id ≡ Some before → result ≡ before.waits }
{
    let Some(state) = states.get_mut(&id) else {
        return SessionWait::Nothing;
    };
    let unauthenticated_since = if user {
        now
    } else {
        state.unauthenticated_since
    };
    let since = if answered { now } else { state.since };
    let before = replace(
        state,
        ClientState {
            waits,
            unauthenticated_since,
            since,
            fit: state.fit,
        },
    );
    before.waits
}

/// From now on a connection waits so; `answered`, if its next command is counted from now on.
fn renew(daemon: &mut Daemon, now: u64, id: u32, waits: SessionWait, answered: bool) -> SessionWait
    ensures renews { DaemonRenews daemon.old now id waits answered daemon.new }
    ensures before { (before : ClientState) → client_state_at daemon.old id ≡ Some before → result ≡ before.waits }
{
    let user = is_user(&daemon.clients, id);
    replace_waits(&mut daemon.states, now, id, waits, answered, user)
}

/// Forgets a connection.
pub fn forget(daemon: &mut Daemon, id: u32)
    ensures { Forgets daemon.old id daemon.new }
{
    let _ = daemon.states.remove(&id);
}

/// Memory is lacking for a connection.
pub fn lack(daemon: &mut Daemon, id: u32) -> Result<(), AllocError>
    ensures err { IsErr result }
    ensures forgets { Forgets daemon.old id daemon.new }
{
    forget(daemon, id);
    Err(AllocError)
}

/// What follows from an answer: what is said at once, and what is waited for.
fn settle(daemon: &mut Daemon, now: u64, id: u32, answer: Answer, out: &mut Octets)
    requires { out.old ≡ [] }
    ensures renews { DaemonRenews daemon.old now id (waits_after now answer) (states.is_out answer) daemon.new }
    ensures said { out.new ≡ said_at_once answer }
{
    let answered = is_out(&answer);
    let waits = take_answer(now, answer, out);
    let _ = renew(daemon, now, id, waits, answered);
}

/// Since when the store is asked for, for a connection.
fn asked_since(daemon: &Daemon, now: u64, id: u32) -> u64
    ensures { (before : ClientState) → client_state_at daemon.now id ≡ Some before → result ≡ waiting.session_asked_since now before.waits }
{
    let Some(state) = daemon.states.get(&id) else {
        return now;
    };
    match &state.waits {
        SessionWait::Store(since, _) => *since,
        _ => now,
    }
}

/// As `settle`, when the store answered: it is held then.
fn settle_done(daemon: &mut Daemon, now: u64, id: u32, answer: Answer, out: &mut Octets)
    requires { out.old ≡ [] }
    ensures renews { DaemonRenews (held_at now daemon.old) now id (waits_after now answer) (states.is_out answer) daemon.new }
    ensures said { out.new ≡ said_at_once answer }
{
    daemon.holding = daemon.holding.asked_at(now);
    settle(daemon, now, id, answer, out)
}

/// A connection waits for the store.
fn await_store(daemon: &mut Daemon, now: u64, id: u32)
    ensures { (before : ClientState) → client_state_at daemon.old id ≡ Some before → DaemonRenews daemon.old now id (waiting.waits_behind now before.waits Away) false daemon.new }
{
    let since = asked_since(daemon, now, id);
    let waits = SessionWait::Store(since, now.wrapping_add(RETRY_SPAN));
    let _ = renew(daemon, now, id, waits, false);
}

// ---- one step

/// Applies what comes first to the store.
fn apply_step<O: StoreAccess>(
    daemon: &mut Daemon,
    outside: &mut O,
    now: u64,
    id: u32,
    out: &mut Octets,
) -> Result<(), AllocError>
    requires out { out.old ≡ [] }
    requires may { AtClientState daemon.old id (λ state. SessionMayAsk now state.waits) }
    requires asks { EventAsksStore (Step id) daemon.old.clients.sessions }
    ensures kept { ToldBefore O.told outside.old outside.new }
    ensures ok { OnOk result (StepsIf O.told (daemon_rules O.store.view) (machine_state outside.old daemon.old) (step_at now id out.new) (machine_state outside.new daemon.new)) }
    ensures err { OnErr result (IdlesIf O.told outside.old outside.new) }
    ensures lacks { OnErr result (LacksFor daemon.old id daemon.new) }
{
    match outside.apply_event(id, &mut daemon.clients, &Event::Step(id)) {
        Some(answer) => {
            settle_done(daemon, now, id, answer, out);
            Ok(())
        }
        None => {
            await_store(daemon, now, id);
            Ok(())
        }
    }
}

/// Steps what comes first: at once if it asks no store, else by the store.
fn step_first<O: StoreAccess>(
    daemon: &mut Daemon,
    outside: &mut O,
    now: u64,
    id: u32,
    out: &mut Octets,
) -> Result<(), AllocError>
    requires out { out.old ≡ [] }
    requires may { AtClientState daemon.old id (λ state. SessionMayAsk now state.waits) }
    ensures kept { ToldBefore O.told outside.old outside.new }
    ensures ok { OnOk result (StepsIf O.told (daemon_rules O.store.view) (machine_state outside.old daemon.old) (step_at now id out.new) (machine_state outside.new daemon.new)) }
    ensures err { OnErr result (IdlesIf O.told outside.old outside.new) }
    ensures lacks { OnErr result (LacksFor daemon.old id daemon.new) }
{
    let event = Event::Step(id);
    match apply_free(&mut daemon.clients, &event) {
        Ok(None) => apply_step(daemon, outside, now, id, out),
        Ok(Some(answer)) => {
            if !is_out(&answer) {
                return lack(daemon, id);
            }
            outside.tell_freed(id, &event, &answer);
            settle(daemon, now, id, answer, out);
            Ok(())
        }
        Err(AllocError) => lack(daemon, id),
    }
}

/// Gives up what comes first.
fn give_up<O: StoreAccess>(
    daemon: &mut Daemon,
    outside: &mut O,
    now: u64,
    id: u32,
    out: &mut Octets,
) -> Result<(), AllocError>
    requires out { out.old ≡ [] }
    requires may { AtClientState daemon.old id (λ state. MayGiveUp now state.waits) }
    ensures kept { ToldBefore O.told outside.old outside.new }
    ensures ok { OnOk result (StepsIf O.told (daemon_rules O.store.view) (machine_state outside.old daemon.old) (step_at now id out.new) (machine_state outside.new daemon.new)) }
    ensures err { OnErr result (IdlesIf O.told outside.old outside.new) }
    ensures lacks { OnErr result (LacksFor daemon.old id daemon.new) }
{
    let event = Event::GiveUp(id);
    match apply_free(&mut daemon.clients, &event) {
        Ok(Some(answer)) => {
            outside.tell_freed(id, &event, &answer);
            settle(daemon, now, id, answer, out);
            Ok(())
        }
        Ok(None) => lack(daemon, id),
        Err(AllocError) => lack(daemon, id),
    }
}

/// Says what was kept back.
fn speak<O: StoreAccess>(daemon: &mut Daemon, outside: &mut O, now: u64, id: u32, out: &mut Octets)
    requires out { out.old ≡ [] }
    requires may { AtClientState daemon.old id (λ state. IsReplyKeptBack state.waits) }
    ensures kept { ToldBefore O.told outside.old outside.new }
    ensures ok { StepsIf O.told (daemon_rules O.store.view) (machine_state outside.old daemon.old) (step_at now id out.new) (machine_state outside.new daemon.new) }
{
    outside.tell_spoke(id);
    match renew(daemon, now, id, SessionWait::Nothing, true) {
        SessionWait::Reply(_, text) => {
            *out = text;
        }
        _ => {}
    }
}

/// Whether there was no room for what one sent, and it hasn't been told so yet.
fn is_over(fit: Fit) -> bool
    ensures { result ≡ true → fit ≡ Fit.Over }
{
    match fit {
        Fit::Over => true,
        _ => false,
    }
}

/// Notes that one is told that there was no room.
fn note_told(states: &mut BTreeMap<u32, ClientState>, now: u64, id: u32, user: bool)
    ensures { (before : ClientState) → tree.get nat_cmp states.old id ≡ Some before → tree.Updates nat_cmp states.old states.new id (Some (state_told now before user)) }
{
    let Some(state) = states.get_mut(&id) else {
        return;
    };
    if user {
        state.unauthenticated_since = now;
    }
    state.waits = SessionWait::Nothing;
    state.fit = Fit::Told;
}

/// Tells one that sends what there is no room for so; nothing more is done for it.
fn refuse<O: StoreAccess>(
    daemon: &mut Daemon,
    outside: &mut O,
    now: u64,
    id: u32,
    out: &mut Octets,
) -> Result<(), AllocError>
    requires out { out.old ≡ [] }
    requires may { AtClientState daemon.old id (λ state. (state.waits ≡ SessionWait.Nothing) × (state.fit ≡ Fit.Over)) }
    ensures kept { ToldBefore O.told outside.old outside.new }
    ensures ok { OnOk result (StepsIf O.told (daemon_rules O.store.view) (machine_state outside.old daemon.old) (step_at now id out.new) (machine_state outside.new daemon.new)) }
    ensures err { OnErr result (IdlesIf O.told outside.old outside.new) }
    ensures lacks { OnErr result (LacksFor daemon.old id daemon.new) }
{
    if out.extend_from_slice(TOO_MUCH).is_err() {
        return lack(daemon, id);
    }
    outside.tell_answered(id);
    let user = is_user(&daemon.clients, id);
    note_told(&mut daemon.states, now, id, user);
    Ok(())
}

/// One step of a connection that waits for nothing.
fn step_free<O: StoreAccess>(
    daemon: &mut Daemon,
    outside: &mut O,
    now: u64,
    id: u32,
    fit: Fit,
    out: &mut Octets,
) -> Result<(), AllocError>
    requires out { out.old ≡ [] }
    requires may { AtClientState daemon.old id (λ state. (state.waits ≡ SessionWait.Nothing) × (state.fit ≡ fit)) }
    ensures kept { ToldBefore O.told outside.old outside.new }
    ensures ok { OnOk result (StepsIf O.told (daemon_rules O.store.view) (machine_state outside.old daemon.old) (step_at now id out.new) (machine_state outside.new daemon.new)) }
    ensures err { OnErr result (IdlesIf O.told outside.old outside.new) }
    ensures lacks { OnErr result (LacksFor daemon.old id daemon.new) }
{
    if is_over(fit) {
        refuse(daemon, outside, now, id, out)
    } else {
        step_first(daemon, outside, now, id, out)
    }
}

/// One step of a connection.
pub fn step_once<O: StoreAccess>(
    daemon: &mut Daemon,
    outside: &mut O,
    now: u64,
    id: u32,
    out: &mut Octets,
) -> Result<(), AllocError>
    requires { out.old ≡ [] }
    ensures kept { ToldBefore O.told outside.old outside.new }
    ensures ok { OnOk result (StepsIf O.told (daemon_rules O.store.view) (machine_state outside.old daemon.old) (step_at now id out.new) (machine_state outside.new daemon.new)) }
    ensures err { OnErr result (IdlesIf O.told outside.old outside.new) }
    ensures lacks { OnErr result (LacksFor daemon.old id daemon.new) }
{
    let Some(state) = daemon.states.get(&id) else {
        return lack(daemon, id);
    };
    match &state.waits {
        SessionWait::Nothing => {
            let fit = state.fit;
            step_free(daemon, outside, now, id, fit, out)
        }
        SessionWait::Store(since, _) => {
            if now.saturating_sub(*since) < MAX_AWAY {
                step_first(daemon, outside, now, id, out)
            } else {
                give_up(daemon, outside, now, id, out)
            }
        }
        SessionWait::Refused => give_up(daemon, outside, now, id, out),
        SessionWait::Reply(_, _) => {
            speak(daemon, outside, now, id, out);
            Ok(())
        }
    }
}
