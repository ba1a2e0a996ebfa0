//! Which connection is closed when all places of its kind are taken and a new one knocks: what each claims.
ghost use Rattle.std.specs.Prelude.{◌≡◌, ◌-◌};
ghost use Rattle.daemon_core.specs.DaemonRules as rules;
ghost use Rattle.daemon_core.specs.ClientStates as states;
ghost use Rattle.daemon_core.specs.ClientStates.{client_at};
ghost use Rattle.daemon_core.specs.Eviction as eviction;

use crate::client_state::{ClientState, SessionWait};
use crate::daemon::Daemon;
use crate::want::want_by;
use lmtp_connections::LmtpConnection;
use managesieve_sessions::Session;
use net_loop::machine::{Claim, Want};
use std::collections::BTreeMap;
use store_engine::Clients;

/// The span in milliseconds, from when it came, in which a ManageSieve client that isn't logged in makes no room for another; the same
/// for an LMTP client before its LHLO while many others haven't said theirs. A client on the same machine answers its greeting within
/// one or two, and 300 silent ones have gone by within a second.
const FIRST_SPAN: u64 = 50;

/// For how many milliseconds any other client of LMTP is left alone before one of its recipients is accepted.
const SENDER_SPAN: u64 = 1000;

/// Once at most this many milliseconds are left for which the answer to a login that failed is kept back, its client may make room, and
/// doesn't hear it: it has waited for 500 then, so who guesses passwords keeps each place that long.
const KEPT_LEFT: u64 = 1500;

/// Who failed a login goes before the others.
const FAILED: u32 = 0;

/// Any that owes octets.
const SILENT: u32 = 1;

/// Who waits for the answer to a login that failed goes last.
const KEPT: u32 = 2;

/// Whether somebody is logged in there.
pub fn is_user(clients: &Clients, id: u32) -> bool
    ensures { result ≡ states.has_login (client_at clients.now.sessions id) }
{
    match clients.session(id) {
        Some(session) => session.is_logged_in(),
        None => false,
    }
}

/// What one claims that owes octets, and has done so since that moment.
fn owed_claim(now: u64, span: u64, rank: u32, since: u64) -> Option<Claim>
    ensures { result ≡ eviction.owed_claim now span rank since }
{
    if since.wrapping_add(span) <= now {
        Some(Claim {
            rank,
            moment: since,
        })
    } else {
        None
    }
}

/// What one claims to whom the answer to a login is said at that moment: who would hear it last goes first.
fn kept_claim(now: u64, until: u64) -> Option<Claim>
    ensures { result ≡ eviction.kept_claim now until }
{
    if until <= now.wrapping_add(KEPT_LEFT) {
        Some(Claim {
            rank: KEPT,
            moment: u64::MAX - until,
        })
    } else {
        None
    }
}

fn rank_of(session: &Session) -> u32
    ensures { result ≡ eviction.unauthenticated_rank session.now.client }
{
    if session.has_failed() { FAILED } else { SILENT }
}

/// The claim of a connection of which the loop wants this.
fn want_claim(now: u64, want: Want, rank: u32, since: u64) -> Option<Claim>
    ensures { result ≡ eviction.want_claim now want rank since }
{
    match want {
        Want::More => owed_claim(now, FIRST_SPAN, rank, since),
        Want::Step | Want::Wait | Want::Until(_) | Want::Done => None,
    }
}

/// The claim of a client in this wait.
fn waits_claim(now: u64, state: &ClientState, session: &Session) -> Option<Claim>
    ensures { result ≡ eviction.waits_claim now state.now.waits state.now session.now.client }
{
    match &state.waits {
        SessionWait::Reply(until, _) => kept_claim(now, *until),
        _ => want_claim(
            now,
            want_by(&state.waits, state.fit, session),
            rank_of(session),
            state.unauthenticated_since,
        ),
    }
}

/// What a client of ManageSieve claims; none if somebody is logged in there.
pub fn claim_of_unauthenticated(daemon: &Daemon, now: u64, id: u32) -> Option<Claim>
    ensures { result ≡ eviction.unauthenticated_claim now (rules.client_state_at daemon.now id) (client_at daemon.now.clients.sessions id) }
{
    match daemon.states.get(&id) {
        Some(state) => match daemon.clients.session(id) {
            Some(session) => {
                if session.is_logged_in() {
                    None
                } else {
                    waits_claim(now, state, session)
                }
            }
            None => None,
        },
        None => None,
    }
}

/// What a client of LMTP claims: nothing while one of its recipients is accepted. `flooded`, if many haven't said LHLO.
pub fn claim_of_sender(
    clients: &Clients,
    now: u64,
    flooded: bool,
    id: u32,
    connection: &LmtpConnection,
) -> Option<Claim>
    ensures { result ≡ eviction.sender_claim now flooded (client_at clients.now.sessions id) connection.now }
{
    if is_user(clients, id) {
        return None;
    }
    let span = span_by(connection.has_said_hello(), flooded);
    since_claim(now, span, connection.owed_since())
}

fn since_claim(now: u64, span: u64, since: Option<u64>) -> Option<Claim>
    ensures { result ≡ eviction.since_claim now span since }
{
    match since {
        Some(since) => owed_claim(now, span, SILENT, since),
        None => None,
    }
}

fn span_by(hello: bool, flooded: bool) -> u64
    ensures { result ≡ eviction.silence_span hello flooded }
{
    if hello {
        SENDER_SPAN
    } else if flooded {
        FIRST_SPAN
    } else {
        SENDER_SPAN
    }
}

/// Whether many LMTP clients haven't said LHLO yet, where there are places for that many. Time is linear in all LMTP connections.
pub fn is_flooded(senders: u32, lmtp_connections: &BTreeMap<u32, LmtpConnection>) -> bool
    ensures { result ≡ eviction.is_flooded senders lmtp_connections.now.entries }
{
    less_silent(many_silent(senders), lmtp_connections) == 0
}

/// How many are many: three quarters of the places, rounded down, and at least one.
fn many_silent(senders: u32) -> usize
    ensures { result ≡ eviction.many_silent senders }
{
    let quarters = senders as usize * 3 / 4;
    if quarters < 1 { 1 } else { quarters }
}

/// `most` less how many of them haven't.
fn less_silent(most: usize, lmtp_connections: &BTreeMap<u32, LmtpConnection>) -> usize
    ensures { result ≡ most - eviction.silent_in lmtp_connections.now.entries }
{
    let mut left = most;
    for (_, connection) in lmtp_connections.iter() {
        left = left.saturating_sub(silent_by(connection.has_said_hello()));
    }
    left
}

fn silent_by(hello: bool) -> usize
    ensures { result ≡ eviction.silent_by hello }
{
    if hello { 0 } else { 1 }
}
