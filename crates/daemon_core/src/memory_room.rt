//! How many octets all connections hold, and for how many more there is room.
ghost use Rattle.std.specs.Prelude.{◌≡◌, ◌⊎◌, ◌≤◌, ◌<◌, ◌+◌, ◌-◌, true, false, Some};
ghost use Rattle.lmtp_dialogue.specs.Receivers.{held_by};
ghost use Rattle.lmtp_connections.specs.declared.connection.LmtpConnection.{LmtpConnection as ConnectionOf};
ghost use Rattle.daemon_core.specs.Bounds as bounds;
ghost use Rattle.daemon_core.specs.MailRules as rules;
ghost use Rattle.daemon_core.specs.ClientStates.{client_at};

use crate::client_state::ClientState;
use crate::eviction::is_user;
use crate::mail::MailDaemon;
use lmtp_connections::LmtpConnection;
use std::collections::BTreeMap;
use store_engine::Clients;

/// Octets of a KiB.
const KIB: usize = 1024;

/// How many octets each client may hold, whatever the others do.
const OWN: usize = 8192;

/// How many octets of each KiB clients of ManageSieve may hold who aren't logged in.
const UNAUTHENTICATED_SHARE: usize = 128;

/// Whether there is room for this many octets more. Time is linear in the connections.
pub fn has_octet_room(mail: &MailDaemon, count: usize) -> bool
    ensures has { result ≡ true → bounds.held mail.now + count ≤ bounds.bound mail.now }
    ensures lacks { result ≡ false → bounds.bound mail.now < bounds.held mail.now + count }
{
    count < left(mail)
}

/// Whether there is room for this many octets more of a client of ManageSieve: they are within what each may hold, or there is room for
/// them, and if nobody is logged in there, also in the share of such clients. Time is linear in the connections.
pub fn has_room_for(mail: &MailDaemon, id: u32, count: usize) -> bool
    ensures has { result ≡ true → bounds.FitsClient mail.now id count }
    ensures lacks { result ≡ false → bounds.PassesBound mail.now id count }
{
    if is_small(&mail.daemon.clients, id, count) {
        return true;
    }
    keeps_bound(mail, id, count)
}

/// Whether all hold what they may with this many octets more of a client of ManageSieve.
fn keeps_bound(mail: &MailDaemon, id: u32, count: usize) -> bool
    ensures has { result ≡ true → bounds.KeepsBound mail.now id count }
    ensures lacks { result ≡ false → (bounds.bound mail.now < bounds.held mail.now + count) ⊎ (bounds.IsUnauthenticatedAt mail.now id × (bounds.share mail.now < bounds.unauthenticated_held mail.now + count)) }
{
    if !has_octet_room(mail, count) {
        return false;
    }
    if is_user(&mail.daemon.clients, id) {
        return true;
    }
    count < left_to_unauthenticated(mail)
}

/// Whether a client of ManageSieve holds no more with this many octets than each may.
fn is_small(clients: &Clients, id: u32, count: usize) -> bool
    ensures has { result ≡ true → bounds.unread_of (client_at clients.now.sessions id) + count ≤ bounds.own }
    ensures lacks { result ≡ false → bounds.own < bounds.unread_of (client_at clients.now.sessions id) + count }
{
    is_within(unread_of(clients, id), count)
}

/// Whether this many octets more of a client of LMTP are within what each may hold, whatever the others do.
pub fn is_own(mail: &MailDaemon, id: u32, count: usize) -> bool
    ensures has { result ≡ true → rules.IsOwnShare mail.now id count }
    ensures lacks { result ≡ false → (connection : ConnectionOf) → rules.lmtp_connection_at mail.now id ≡ Some connection → bounds.own < held_by connection.receiver + count }
{
    match mail.lmtp_connections.get(&id) {
        Some(connection) => is_within(connection.held(), count),
        None => false,
    }
}

/// Whether `held` and `count` together are no more than each client may hold.
fn is_within(held: usize, count: usize) -> bool
    ensures has { result ≡ true → held + count ≤ bounds.own }
    ensures lacks { result ≡ false → bounds.own < held + count }
{
    count <= OWN && held <= OWN - count
}

/// For how many octets more there is room. Time is linear in the connections.
pub fn room(mail: &MailDaemon) -> usize
    ensures { result ≡ bounds.octet_room mail.now }
{
    left(mail).saturating_sub(1)
}

/// The least number of octets more that pass the bound; 0 if it is passed.
fn left(mail: &MailDaemon) -> usize
    ensures { result ≡ bounds.bound mail.now + 1 - bounds.held mail.now }
{
    let most = mail.memory as usize * KIB + 1;
    let left = less_unread(most, &mail.daemon.clients, &mail.daemon.states);
    less_held(left, &mail.lmtp_connections)
}

/// One octet more than what those who aren't logged in may still hold of their share; 0 if they have passed it.
fn left_to_unauthenticated(mail: &MailDaemon) -> usize
    ensures { result ≡ bounds.share mail.now + 1 - bounds.unauthenticated_held mail.now }
{
    let most = mail.memory as usize * UNAUTHENTICATED_SHARE + 1;
    less_unauthenticated(most, &mail.daemon.clients, &mail.daemon.states)
}

/// `most` less what clients of ManageSieve hold who aren't logged in.
fn less_unauthenticated(
    most: usize,
    clients: &Clients,
    states: &BTreeMap<u32, ClientState>,
) -> usize
    ensures { result ≡ most - bounds.unauthenticated_in clients.now.sessions states.now.entries }
{
    let mut left = most;
    for (id, _) in states.iter() {
        left = left.saturating_sub(unauthenticated_unread(clients, *id));
    }
    left
}

fn unauthenticated_unread(clients: &Clients, id: u32) -> usize
    ensures { result ≡ bounds.unauthenticated_unread (client_at clients.now.sessions id) }
{
    if is_user(clients, id) {
        0
    } else {
        unread_of(clients, id)
    }
}

/// `most` less what clients of ManageSieve hold.
fn less_unread(most: usize, clients: &Clients, states: &BTreeMap<u32, ClientState>) -> usize
    ensures { result ≡ most - bounds.unread_in clients.now.sessions states.now.entries }
{
    let mut left = most;
    for (id, _) in states.iter() {
        left = left.saturating_sub(unread_of(clients, *id));
    }
    left
}

fn unread_of(clients: &Clients, id: u32) -> usize
    ensures { result ≡ bounds.unread_of (client_at clients.now.sessions id) }
{
    match clients.session(id) {
        Some(session) => session.unread_len(),
        None => 0,
    }
}

/// `most` less what clients of LMTP hold.
fn less_held(most: usize, lmtp_connections: &BTreeMap<u32, LmtpConnection>) -> usize
    ensures { result ≡ most - bounds.held_in lmtp_connections.now.entries }
{
    let mut left = most;
    for (_, connection) in lmtp_connections.iter() {
        left = left.saturating_sub(connection.held());
    }
    left
}
