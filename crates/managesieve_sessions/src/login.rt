//! Logins by PLAIN (RFC 5804, section 2.1; RFC 4616).
ghost use Rattle.std.specs.Prelude.{◌≡◌, Option, Some, None, IfOk};
ghost use Rattle.managesieve_protocol.specs.declared.commands.ClientCommand.TheVariants as command;
ghost use Rattle.managesieve_sessions.specs.Logins as s;
ghost use Rattle.managesieve_sessions.specs.Replies.{borrowed_text};
ghost use Rattle.managesieve_sessions.specs.CommandClasses.{of_login};
ghost use Rattle.managesieve_sessions.specs.CommandOutcomes as t;

use crate::command_class::LoginCommand;
use crate::command_outcome::{CommandOutcome, SessionChange};
use crate::replies::{bye_reply, challenge_reply, negative_reply, ok_reply};
use managesieve_protocol::ServerReply;
use octets::Octets;
use sasl_plain::{Login, PasswordHash, ROUNDS, accepts, digest};
use std::alloc::{AllocError, Global};

/// How many logins may fail before a further failure ends the session: a limit of this project.
pub(crate) const MAX_FAILURES: u32 = 2;

/// The text that decides a login, if the command has one and it is looked at: it isn't if somebody is logged in already,
/// the mechanism isn't PLAIN, or the exchange is cancelled. Takes no memory.
pub fn login_text<'a>(user: &Option<Octets>, command: &'a LoginCommand) -> Option<&'a [u8]>
    ensures { borrowed_text result ≡ t.login_text user.now (of_login command.entry.now) }
{
    match command {
        LoginCommand::Authenticate {
            mechanism,
            response: Some(text),
        } if user.is_none() && is_plain(mechanism.as_slice()) => Some(text.as_slice()),
        LoginCommand::Authenticate { .. } => None,
        LoginCommand::Response(text) if is_star(text.as_slice()) => None,
        LoginCommand::Response(text) => Some(text.as_slice()),
    }
}

/// Whether the login's password is the one stored for its user. Takes no memory, and as much time as `accepts`.
pub fn has_password(login: &Login, kept: &PasswordHash) -> bool
    ensures { result ≡ s.has_password login.now.password (t.account_password kept.now) }
{
    accepts(kept, login.password.as_slice())
}

/// Takes as long as `has_password` does for an account's record, and looks at nothing. A login with a name that has no open
/// account takes this time too, so that the time of the answer doesn't tell which names have one. An account's salt has 16 octets.
pub(crate) fn spend_rounds(login: &Login) {
    let salt = [0; 16];
    let _unused = digest(&salt, ROUNDS, login.password.as_slice());
}

/// Answers `AUTHENTICATE` or the answer to a challenge, in a session where this user is logged in or nobody, and where that
/// many logins failed; `who` is the user whom the text that decides the login (`login_text`) logs in, if any.
///
/// Lack of memory is the only error.
pub fn exchange(
    alloc: Global,
    user: &Option<Octets>,
    failures: u32,
    command: &LoginCommand,
    who: Option<Octets>,
) -> Result<CommandOutcome, AllocError>
    ensures { let sent = of_login command.now in IfOk result (t.IsCommandOutcome (t.FitsLogin user.now failures sent who) sent) }
{
    match command {
        LoginCommand::Authenticate {
            mechanism,
            response,
        } => authenticate(alloc, user, failures, mechanism.as_slice(), response, who),
        LoginCommand::Response(text) => respond(alloc, user, failures, text.as_slice(), who),
    }
}

// `AUTHENTICATE` (RFC 5804, 2.1).
fn authenticate(
    alloc: Global,
    user: &Option<Octets>,
    failures: u32,
    mechanism: &[u8],
    response: &Option<Octets>,
    who: Option<Octets>,
) -> Result<CommandOutcome, AllocError>
    ensures { let sent = command.Authenticate mechanism.now response.now in IfOk result (t.IsCommandOutcome (t.FitsLogin user.now failures sent who) sent) }
{
    if user.is_some() {
        return stay(alloc, b"Already logged in.");
    }
    if !is_plain(mechanism) {
        return stay(alloc, b"Unknown mechanism.");
    }
    if response.is_none() {
        return Ok(CommandOutcome {
            reply: challenge_reply(alloc)?,
            session_change: SessionChange::Challenge,
        });
    }
    log_in(alloc, failures, who)
}

// The answer to a challenge (RFC 5804, 2.1).
fn respond(
    alloc: Global,
    user: &Option<Octets>,
    failures: u32,
    text: &[u8],
    who: Option<Octets>,
) -> Result<CommandOutcome, AllocError>
    ensures { let sent = command.Response text.now in IfOk result (t.IsCommandOutcome (t.FitsLogin user.now failures sent who) sent) }
{
    if is_star(text) {
        return stay(alloc, b"Cancelled.");
    }
    log_in(alloc, failures, who)
}

// A login by this user, or a failed one.
fn log_in(alloc: Global, failures: u32, who: Option<Octets>) -> Result<CommandOutcome, AllocError>
    ensures { IfOk result (t.IsLoginOutcome who failures) }
{
    let Some(user) = who else {
        return fail(alloc, failures);
    };
    let reply = ok_reply(alloc, b"Logged in.")?;
    Ok(CommandOutcome {
        reply,
        session_change: SessionChange::LogIn(user),
    })
}

fn fail(alloc: Global, failures: u32) -> Result<CommandOutcome, AllocError>
    ensures { IfOk result (t.IsLoginOutcome None failures) }
{
    let reply = failure(alloc, failures)?;
    Ok(CommandOutcome {
        reply,
        session_change: SessionChange::Fail,
    })
}

fn failure(alloc: Global, failures: u32) -> Result<ServerReply, AllocError>
    ensures { IfOk result (λ reply. reply ≡ s.login_reply None failures) }
{
    if failures < MAX_FAILURES {
        return negative_reply(alloc, None, b"Authentication failed.");
    }
    bye_reply(alloc, b"Too many failures.")
}

// `NO`, and the session stays as it is.
fn stay(alloc: Global, text: &[u8]) -> Result<CommandOutcome, AllocError>
    ensures { IfOk result (λ turn. turn ≡ t.stays text.now) }
{
    let reply = negative_reply(alloc, None, text)?;
    Ok(CommandOutcome {
        reply,
        session_change: SessionChange::Stay,
    })
}

// Whether it is PLAIN, the only mechanism, in upper or lower case.
fn is_plain(mechanism: &[u8]) -> bool
    ensures { result ≡ s.is_plain_mechanism mechanism.now }
{
    mechanism.eq_ignore_ascii_case(b"PLAIN")
}

// Whether the client cancels the exchange.
fn is_star(text: &[u8]) -> bool
    ensures { result ≡ s.is_star text.now }
{
    text == b"*".as_slice()
}
