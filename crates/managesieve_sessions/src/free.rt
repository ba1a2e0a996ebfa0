//! Answers the commands that need no account.
ghost use Rattle.std.specs.Prelude.{◌≡◌, IfOk};
ghost use Rattle.managesieve_sessions.specs.declared.command_outcome.SessionChange.TheVariants.{Stay};
ghost use Rattle.managesieve_sessions.specs.CommandClasses.{of_free, of_script};
ghost use Rattle.managesieve_sessions.specs.Table.{needs_login as needs_login_of, early_reply};
ghost use Rattle.managesieve_sessions.specs.CommandOutcomes.{IsFreeOutcome, IsOutcomeAlone, IsCommandOutcome, HasSessionUser};

use crate::command_class::{CommandClass, FreeCommand, ScriptCommand, StoreCommand, classify};
use crate::command_outcome::{CommandOutcome, SessionChange};
use crate::replies::{capability_reply, negative_reply, noop_reply, ok_reply};
use crate::scripts::check_script;
use managesieve_protocol::{ClientCommand, ServerReply};
use octets::Octets;
use std::alloc::{AllocError, Global};

/// What a command comes to without the store.
#[derive(Drop)]
pub enum FreeOutcome {
    /// The answer, and how the session changes.
    Made(CommandOutcome),
    /// The store has to be asked about this.
    Asks(StoreCommand),
}

/// Answers a command without the store, in a session where this user is logged in, or nobody; or returns the order for the
/// store. Lack of memory is the only error.
pub fn free_outcome(
    alloc: Global,
    user: &Option<Octets>,
    command: ClientCommand,
) -> Result<FreeOutcome, AllocError>
    ensures { IfOk result (IsFreeOutcome user.now command) }
{
    match classify(command) {
        CommandClass::Free(command) => Ok(FreeOutcome::Made(turn_of(alloc, user, &command)?)),
        CommandClass::Login(command) => Ok(FreeOutcome::Asks(StoreCommand::Login(command))),
        CommandClass::Script(command) => script_turn(alloc, user, command),
    }
}

/// The order of a command about scripts, for the user who is logged in; if nobody is, the answer that a login is needed.
fn script_turn(
    alloc: Global,
    user: &Option<Octets>,
    command: ScriptCommand,
) -> Result<FreeOutcome, AllocError>
    ensures { IfOk result (IsFreeOutcome user.now (of_script command)) }
{
    let Some(user) = user else {
        return Ok(FreeOutcome::Made(early(alloc)?));
    };
    let user = user.try_clone(alloc)?;
    Ok(FreeOutcome::Asks(StoreCommand::Script { user, command }))
}

/// Answers a command that asks no store, unless it lacks a login.
fn turn_of(
    alloc: Global,
    user: &Option<Octets>,
    command: &FreeCommand,
) -> Result<CommandOutcome, AllocError>
    ensures { IfOk result (IsOutcomeAlone user.now (of_free command.now)) }
{
    if needs_login(command) && user.is_none() {
        return early(alloc);
    }
    free(alloc, user, command)
}

/// Answers `CAPABILITY`, `NOOP`, `LOGOUT`, `UNAUTHENTICATE` and `CHECKSCRIPT` (RFC 5804, 2.3, 2.4, 2.12 to 2.14), in a
/// session where this user is logged in, or nobody. Lack of memory is the only error.
fn free(
    alloc: Global,
    user: &Option<Octets>,
    command: &FreeCommand,
) -> Result<CommandOutcome, AllocError>
    ensures { IfOk result (IsCommandOutcome (HasSessionUser user.now) (of_free command.now)) }
{
    match command {
        FreeCommand::Capability => Ok(with_session_change(
            capability_reply(alloc, user)?,
            SessionChange::Stay,
        )),
        FreeCommand::Noop(tag) => Ok(with_session_change(
            noop_reply(alloc, tag)?,
            SessionChange::Stay,
        )),
        FreeCommand::Logout => Ok(with_session_change(
            ok_reply(alloc, b"Bye.")?,
            SessionChange::Close,
        )),
        FreeCommand::Unauthenticate => Ok(with_session_change(
            ok_reply(alloc, b"Done.")?,
            SessionChange::LogOut,
        )),
        FreeCommand::CheckScript(text) => Ok(with_session_change(
            check_script(alloc, text.as_slice())?,
            SessionChange::Stay,
        )),
    }
}

/// Answers a command that needs a login and comes before one.
fn early(alloc: Global) -> Result<CommandOutcome, AllocError>
    ensures { IfOk result (λ turn. turn ≡ record { reply = early_reply; session_change = Stay }) }
{
    Ok(with_session_change(
        negative_reply(alloc, None, b"Log in first.")?,
        SessionChange::Stay,
    ))
}

/// Whether only a user who is logged in may send the command. Takes no memory.
fn needs_login(command: &FreeCommand) -> bool
    ensures { result ≡ needs_login_of (of_free command.now) }
{
    matches!(
        command,
        FreeCommand::Unauthenticate | FreeCommand::CheckScript(_)
    )
}

fn with_session_change(reply: ServerReply, session_change: SessionChange) -> CommandOutcome
    ensures { result ≡ record { reply = reply; session_change = session_change } }
{
    CommandOutcome {
        reply,
        session_change,
    }
}
