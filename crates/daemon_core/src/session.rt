//! Connections that come, say something, and go.
ghost use Rattle.std.specs.Prelude.{◌≡◌, [], Some, OnOk, OnErr};
ghost use Rattle.std.specs.Ordering.{nat_cmp};
ghost use Rattle.std.specs.BTreeMap as tree;
ghost use Rattle.daemon_core.specs.ClientStates.{begun};
ghost use Rattle.daemon_core.specs.Waiting as waiting;
ghost use Rattle.daemon_core.specs.DaemonRules.{DaemonOpens, DaemonGives, DaemonCloses, LacksFor};

use crate::client_state::{ClientState, Fit, SessionWait};
use crate::daemon::Daemon;
use crate::step::{forget, is_out, lack};
use octets::Octets;
use std::alloc::{AllocError, Global};
use std::collections::BTreeMap;
use store_engine::{Answer, Event, apply_free};

/// One comes: it is greeted, and its session begins.
pub fn enter(daemon: &mut Daemon, now: u64, id: u32, out: &mut Octets) -> Result<(), AllocError>
    requires { out.old ≡ [] }
    ensures ok { OnOk result (DaemonOpens daemon.old now id out.new daemon.new) }
    ensures err { OnErr result (LacksFor daemon.old id daemon.new) }
{
    let state = ClientState {
        waits: SessionWait::Nothing,
        unauthenticated_since: now,
        since: now,
        fit: Fit::Fits,
    };
    if daemon.states.insert(id, state).is_err() {
        return lack(daemon, id);
    }
    match apply_free(&mut daemon.clients, &Event::Open(id)) {
        Ok(Some(answer)) => {
            if !is_out(&answer) {
                return lack(daemon, id);
            }
            *out = octets_of(daemon.alloc, answer);
            Ok(())
        }
        Ok(None) => lack(daemon, id),
        Err(AllocError) => lack(daemon, id),
    }
}

/// What an answer sends to a client.
fn octets_of(alloc: Global, answer: Answer) -> Octets
    ensures { result ≡ waiting.answer_octets answer }
{
    match answer {
        Answer::Out(_, octets) => octets,
        _ => Octets::new(alloc),
    }
}

/// Takes octets of a connection, for which there was room or not.
pub fn hear(
    daemon: &mut Daemon,
    now: u64,
    id: u32,
    piece: &[u8],
    fit: Fit,
) -> Result<(), AllocError>
    ensures ok { OnOk result (DaemonGives daemon.old now id piece.now fit [] daemon.new) }
    ensures err { OnErr result (LacksFor daemon.old id daemon.new) }
{
    let Some(session) = daemon.clients.session(id) else {
        return lack(daemon, id);
    };
    let begins = session.unread_len() == 0;
    if !daemon.states.contains_key(&id) {
        return lack(daemon, id);
    }
    if !is_out(&daemon.clients.give(id, piece)) {
        return lack(daemon, id);
    }
    begin(&mut daemon.states, now, id, begins, fit);
    Ok(())
}

/// If the octets that came begin what comes next (`begins`), its time is counted from now on; and whether there was room for them.
fn begin(states: &mut BTreeMap<u32, ClientState>, now: u64, id: u32, begins: bool, fit: Fit)
    ensures { (before : ClientState) → tree.get nat_cmp states.old id ≡ Some before → tree.Updates nat_cmp states.old states.new id (Some (begun now before begins fit)) }
{
    let Some(state) = states.get_mut(&id) else {
        return;
    };
    state.fit = fit;
    if begins {
        state.since = now;
    }
}

/// Ends a connection that is gone, and its session.
pub fn leave(daemon: &mut Daemon, id: u32)
    ensures { DaemonCloses daemon.old id daemon.new }
{
    forget(daemon, id);
    let _ = apply_free(&mut daemon.clients, &Event::Close(id));
}
