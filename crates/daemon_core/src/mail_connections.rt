//! Clients that come, say something, and go.
ghost use Rattle.std.specs.Prelude.{◌≡◌, true, false, None, [], IsErr, IfSome, OnOk, OnErr};
ghost use Rattle.daemon_core.specs.DaemonRules.{client_state_at};
ghost use Rattle.daemon_core.specs.MailRules as rules;

use crate::client_state::Fit;
use crate::mail::MailDaemon;
use crate::memory_room::{has_octet_room, has_room_for, is_own};
use crate::session::{enter, hear, leave};
use crate::step::forget;
use lmtp_connections::LmtpConnection;
use lmtp_dialogue::LmtpReply;
use octets::Octets;
use std::alloc::AllocError;

/// What is said to a client of ManageSieve that was idle.
const IDLE: &[u8] = b"BYE \"Idle.\"\r\n";

/// A client of LMTP comes: it is greeted.
pub fn enter_lmtp(
    mail: &mut MailDaemon,
    now: u64,
    id: u32,
    out: &mut Octets,
) -> Result<(), AllocError>
    requires { out.old ≡ [] }
    ensures ok { OnOk result (rules.LmtpClientOpens mail.old now id out.new mail.new) }
    ensures err { OnErr result (rules.LacksBy mail.old id mail.new) }
{
    let alloc = mail.daemon.alloc;
    let Ok(connection) = LmtpConnection::new(alloc, mail.names, mail.host.as_slice(), now, out)
    else {
        return lack_by(mail, id);
    };
    if mail.lmtp_connections.insert(id, connection).is_err() {
        return lack_by(mail, id);
    }
    forget(&mut mail.daemon, id);
    Ok(())
}

/// A client of ManageSieve comes: it is greeted, and its session begins.
pub fn enter_client(
    mail: &mut MailDaemon,
    now: u64,
    id: u32,
    out: &mut Octets,
) -> Result<(), AllocError>
    requires { out.old ≡ [] }
    ensures ok { OnOk result (rules.SessionOpens mail.old now id out.new mail.new) }
    ensures err { OnErr result (rules.LacksBy mail.old id mail.new) }
{
    let _ = mail.lmtp_connections.remove(&id);
    enter(&mut mail.daemon, now, id, out)
}

/// Memory is lacking for a connection.
pub fn lack_by(mail: &mut MailDaemon, id: u32) -> Result<(), AllocError>
    ensures err { IsErr result }
    ensures lacks { rules.LacksBy mail.old id mail.new }
{
    forget(&mut mail.daemon, id);
    let _ = mail.lmtp_connections.remove(&id);
    Err(AllocError)
}

/// Takes octets of a connection.
pub fn hear_by(mail: &mut MailDaemon, now: u64, id: u32, piece: &[u8]) -> Result<(), AllocError>
    ensures ok { OnOk result (rules.GivesBy mail.old now id piece.now [] mail.new) }
    ensures err { OnErr result (rules.LacksBy mail.old id mail.new) }
{
    if mail.lmtp_connections.contains_key(&id) {
        hear_lmtp(mail, now, id, piece)
    } else {
        hear_client(mail, now, id, piece)
    }
}

/// Takes octets of a client of ManageSieve; if there is no room for them, its connection ends after them.
fn hear_client(mail: &mut MailDaemon, now: u64, id: u32, piece: &[u8]) -> Result<(), AllocError>
    requires { rules.lmtp_connection_at mail.old id ≡ None }
    ensures ok { OnOk result (rules.SessionGives mail.old now id piece.now [] mail.new) }
    ensures err { OnErr result (rules.LacksBy mail.old id mail.new) }
{
    let fit = fit_of(mail, id, piece.len());
    hear(&mut mail.daemon, now, id, piece, fit)
}

/// Whether there is room for this many octets of a client of ManageSieve.
fn fit_of(mail: &MailDaemon, id: u32, count: usize) -> Fit
    ensures { rules.FitsAs mail.now id count result }
{
    if has_room_for(mail, id, count) {
        Fit::Fits
    } else {
        Fit::Over
    }
}

/// Takes octets of a client of LMTP; if there is no room for them beside its text, that is dropped, and if there is none then, its
/// connection ends.
fn hear_lmtp(mail: &mut MailDaemon, now: u64, id: u32, piece: &[u8]) -> Result<(), AllocError>
    ensures ok { OnOk result (rules.LmtpClientGives mail.old now id piece.now [] mail.new) }
    ensures err { OnErr result (rules.LacksBy mail.old id mail.new) }
{
    if mail.daemon.clients.session(id).is_some() {
        return lack_by(mail, id);
    }
    if !fit(mail, id, piece.len()) {
        return lack_by(mail, id);
    }
    take_piece(mail, now, id, piece)
}

/// Makes room for this many octets of a client of LMTP, by its text if that is needed. Returns whether there is some; there is for 8,192
/// octets of one whose text is dropped and that holds no line.
fn fit(mail: &mut MailDaemon, id: u32, count: usize) -> bool
    ensures fits { result ≡ true → rules.Fits mail.old id count mail.new }
    ensures none { result ≡ false → rules.KeepsLmtpConnections mail.old id mail.new }
    ensures lacks { result ≡ false → rules.LacksRoom mail.new id count }
{
    if may_take(mail, id, count) {
        return true;
    }
    if !drop_text(mail, id) {
        return false;
    }
    may_take(mail, id, count)
}

/// Whether this many octets of a client of LMTP fit: all may hold them, or they are its own.
fn may_take(mail: &MailDaemon, id: u32, count: usize) -> bool
    ensures has { result ≡ true → rules.HasOctetRoom mail.now id count }
    ensures lacks { result ≡ false → rules.LacksRoom mail.now id count }
{
    if has_octet_room(mail, count) {
        return true;
    }
    is_own(mail, id, count)
}

/// Drops the text of a client of LMTP, if there is that client.
fn drop_text(mail: &mut MailDaemon, id: u32) -> bool
    ensures drops { result ≡ true → rules.DropsText mail.old id mail.new }
    ensures none { result ≡ false → mail.new ≡ mail.old }
{
    let Some(connection) = mail.lmtp_connections.get_mut(&id) else {
        return false;
    };
    connection.drop_text();
    true
}

/// Appends the octets to its dialogue.
fn take_piece(mail: &mut MailDaemon, now: u64, id: u32, piece: &[u8]) -> Result<(), AllocError>
    ensures ok { OnOk result (rules.TakesPiece mail.old now id piece.now mail.new) }
    ensures err { OnErr result (rules.LacksBy mail.old id mail.new) }
{
    let Some(connection) = mail.lmtp_connections.get_mut(&id) else {
        return lack_by(mail, id);
    };
    if connection.hear(now, piece).is_err() {
        return lack_by(mail, id);
    }
    Ok(())
}

/// Says the last to one that is late or makes room. If memory was lacking for it before, nothing is said.
pub fn say_last(mail: &mut MailDaemon, id: u32, out: &mut Octets) -> Result<(), AllocError>
    requires { out.old ≡ [] }
    ensures ok { OnOk result (rules.SaysLast mail.old id out.new mail.new) }
    ensures err { OnErr result (rules.LacksBy mail.old id mail.new) }
{
    let Some(farewell) = farewell_to(mail, id) else {
        return lack_by(mail, id);
    };
    if out.extend_from_slice(farewell).is_err() {
        return lack_by(mail, id);
    }
    Ok(())
}

/// What is said last, by what is known of the connection; none if nothing is.
fn farewell_to(mail: &MailDaemon, id: u32) -> Option<&'static [u8]>
    ensures { IfSome result (λ word. rules.IsFarewell (rules.lmtp_connection_at mail.now id) (client_state_at mail.now.daemon id) word.now) }
{
    match mail.lmtp_connections.get(&id) {
        Some(_) => Some(LmtpReply::Idle.line()),
        None => match mail.daemon.states.get(&id) {
            Some(_) => Some(IDLE),
            None => None,
        },
    }
}

/// Forgets a connection that is gone.
pub fn leave_by(mail: &mut MailDaemon, id: u32)
    ensures { rules.ClosesBy mail.old id mail.new }
{
    let _ = mail.lmtp_connections.remove(&id);
    leave(&mut mail.daemon, id);
}
