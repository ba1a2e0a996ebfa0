//! What the daemon wants of a connection, and by which moment it is late.
ghost use Rattle.std.specs.Prelude.{◌≡◌};
ghost use Rattle.daemon_core.specs.DaemonRules.{client_state_at};
ghost use Rattle.daemon_core.specs.ClientStates as states;
ghost use Rattle.daemon_core.specs.ClientStates.{client_at};

use crate::client_state::{ClientState, Fit, SessionWait};
use crate::daemon::Daemon;
use managesieve_sessions::Session;
use net_loop::machine::Want;

/// How many milliseconds there are for a login in all.
const MAX_LOGIN: u64 = 60000;

/// How many milliseconds there are for a command, from its first octet on.
const MAX_COMMAND: u64 = 300000;

/// For how many milliseconds a client that is logged in may say nothing (RFC 5804, 1.2).
const MAX_SILENCE: u64 = 1800000;

/// What is wanted of a connection that waits so, and for whose octets there was room or not.
pub fn want_by(waits: &SessionWait, fit: Fit, session: &Session) -> Want
    ensures { result ≡ states.session_want_by waits.now fit session.now.client }
{
    match waits {
        SessionWait::Nothing => want_in(fit, session),
        SessionWait::Store(_, again) => Want::Until(*again),
        SessionWait::Refused => Want::Step,
        SessionWait::Reply(until, _) => Want::Until(*until),
    }
}

fn want_in(fit: Fit, session: &Session) -> Want
    ensures { result ≡ states.want_in fit session.now.client }
{
    match fit {
        Fit::Fits => want_of_session(session),
        Fit::Over => Want::Step,
        Fit::Told => Want::Done,
    }
}

fn want_of_session(session: &Session) -> Want
    ensures { result ≡ states.want_of_session session.now.client }
{
    if session.is_closed() {
        Want::Done
    } else if session.ready() {
        Want::Step
    } else {
        Want::More
    }
}

/// The moment by which a connection is late.
pub fn due_by(state: &ClientState, session: &Session) -> u64
    ensures { result ≡ states.session_due_by state.now.waits state.now session.now.client }
{
    match &state.waits {
        SessionWait::Nothing => due_of_session(state, session),
        _ => u64::MAX,
    }
}

fn due_of_session(state: &ClientState, session: &Session) -> u64
    ensures { result ≡ states.due_of_session state.now session.now.client.user session.now.client.unread }
{
    if !session.is_logged_in() {
        return state.unauthenticated_since.wrapping_add(MAX_LOGIN);
    }
    if session.unread_len() == 0 {
        state.since.wrapping_add(MAX_SILENCE)
    } else {
        state.since.wrapping_add(MAX_COMMAND)
    }
}

/// What is wanted of a client.
pub fn want_of(daemon: &Daemon, id: u32) -> Want
    ensures { result ≡ states.want_of (client_state_at daemon.now id) (client_at daemon.now.clients.sessions id) }
{
    match daemon.states.get(&id) {
        Some(state) => match daemon.clients.session(id) {
            Some(session) => want_by(&state.waits, state.fit, session),
            None => Want::Done,
        },
        None => Want::Done,
    }
}

/// The moment by which a client is late.
pub fn due_of(daemon: &Daemon, id: u32) -> u64
    ensures { result ≡ states.due_of (client_state_at daemon.now id) (client_at daemon.now.clients.sessions id) }
{
    match daemon.states.get(&id) {
        Some(state) => match daemon.clients.session(id) {
            Some(session) => due_by(state, session),
            None => u64::MAX,
        },
        None => u64::MAX,
    }
}
