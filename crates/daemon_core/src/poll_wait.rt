//! How long the daemon may rest if nothing happens.
ghost use Rattle.std.specs.Prelude.{◌≡◌};
ghost use Rattle.daemon_core.specs.DaemonRules as rules;
ghost use Rattle.daemon_core.specs.Holds as holds;
ghost use Rattle.daemon_core.specs.MailRules as mail;

use crate::client_state::SessionWait;
use crate::daemon::{Daemon, Holding};
use crate::look::MAX_EVENTS;
use crate::mail::MailDaemon;
use lmtp_connections::Wanted;

/// How long the loop waits for its sockets while a client waits for the store, in milliseconds.
const WHILE_AWAY: u32 = 5;

/// The same while the daemon holds the store.
const WHILE_HAD: u32 = 20;

/// The same if mail came that is to move once it is quiet.
const WHILE_LULL: u32 = 2;

/// The same while something is kept back.
const WHILE_KEPT: u32 = 100;

/// The same while mail is to move soon, and the store isn't held.
const WHILE_SOON: u32 = 50;

/// The same at other times.
const AT_REST: u32 = 1000;

/// For how many milliseconds it may rest if nothing happens.
pub fn patience_for(daemon: &MailDaemon) -> u32
    ensures { result ≡ mail.patience_for daemon.now }
{
    let mut span = patience_of(&daemon.daemon);
    for (_, connection) in daemon.lmtp_connections.iter() {
        span = least(span, patience_by(connection.wanted()));
    }
    span
}

fn patience_by(wanted: Wanted) -> u32
    ensures { result ≡ mail.lmtp_patience wanted }
{
    match wanted {
        Wanted::Until(_) => WHILE_AWAY,
        _ => AT_REST,
    }
}

/// The same by what clients of ManageSieve wait for.
fn patience_of(daemon: &Daemon) -> u32
    ensures { result ≡ rules.patience_of daemon.now }
{
    let mut span = patience_by_store(&daemon.holding);
    for (_, state) in daemon.states.iter() {
        span = least(span, patience_with(&state.waits));
    }
    span
}

/// The same by the store: none if the next message is to move at once, and not long if one is to move soon.
fn patience_by_store(holding: &Holding) -> u32
    ensures { result ≡ holds.patience_by holding.now }
{
    if !holding.is_held {
        return while_away(holding);
    }
    if is_moving(holding) {
        return 0;
    }
    while_had(holding)
}

/// The same if the store is held.
fn while_had(holding: &Holding) -> u32
    ensures { result ≡ holds.patience_had holding.now }
{
    if holding.moves && holding.events != 0 {
        WHILE_LULL
    } else {
        WHILE_HAD
    }
}

/// The same if the store isn't held.
fn while_away(holding: &Holding) -> u32
    ensures { result ≡ holds.patience_away holding.now }
{
    if holding.moves && holding.soon {
        WHILE_SOON
    } else {
        AT_REST
    }
}

/// Whether the next message is to move at once, unless an event comes before; or the next step of a batch, whatever comes.
fn is_moving(holding: &Holding) -> bool
    ensures { result ≡ holds.is_moving holding.now }
{
    holding.moves
        && (holding.events == 0 || MAX_EVENTS <= holding.events)
        && holding.next <= holding.asked
}

fn least(span: u32, other: u32) -> u32
    ensures { result ≡ rules.least span other }
{
    if other < span { other } else { span }
}

fn patience_with(waits: &SessionWait) -> u32
    ensures { result ≡ rules.session_patience waits.now }
{
    match waits {
        SessionWait::Nothing => AT_REST,
        SessionWait::Store(_, _) => WHILE_AWAY,
        SessionWait::Refused => WHILE_AWAY,
        SessionWait::Reply(_, _) => WHILE_KEPT,
    }
}
