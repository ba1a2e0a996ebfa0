//! What a session reads of its user's account, and what it writes there.
ghost use Rattle.std.specs.Prelude.{◌≡◌, ◌≢◌, ◌++◌, false, take, Some, OnOk, OnErr, IfErr};
ghost use Rattle.sqlite.specs.Held.{state};
ghost use Rattle.store_accounts.specs.Promises.{ReadsOpenAccount, WritesAccount};
ghost use Rattle.store_accounts.specs.Refusals.{IsTransient};
ghost use Rattle.managesieve_protocol.specs.Replies.{reply_octets};
ghost use Rattle.sasl_plain.specs.Parts.{login_shown};
ghost use Rattle.managesieve_sessions.specs.Acts.{ReadsAccounts};
ghost use Rattle.managesieve_sessions.specs.Decisions.{AreScripts, Decides, change_made};
ghost use Rattle.managesieve_sessions.specs.Logins.{admitted_by};
ghost use Rattle.managesieve_sessions.specs.Orders.{ActsCommand};
ghost use Rattle.managesieve_sessions.specs.Replies.{borrowed_text};
ghost use Rattle.managesieve_sessions.specs.CommandClasses.{of_script};
ghost use Rattle.managesieve_sessions.specs.Table.{early_reply};
ghost use Rattle.managesieve_sessions.specs.CommandOutcomes.{admitted_in, says_login};

use crate::command_class::ScriptCommand;
use crate::decision::{Decision, ScriptChange};
use crate::login::{has_password, spend_rounds};
use crate::replies::negative_reply;
use crate::scripts::{decide_script_command, get_script};
use managesieve_protocol::spell;
use octets::{Octets, Texts, as_deref};
use sasl_plain::{Login, PasswordHash, plain};
use sqlite::Alter;
use std::alloc::{AllocError, Global};
use std::mem;
use store_accounts::{Profile, Refusal, Store};

/// The names of an account's scripts, in the order of their octets, and the active one.
#[derive(Drop)]
pub(crate) struct KeptScripts {
    pub names: Texts,
    pub active: Option<Octets>,
}

/// Answers a command about the user's scripts, and returns whether the account is open: it is read, the answer is appended to the
/// output, and the change that goes with the answer is written last. If the account isn't open any more, the user is told to log in.
/// After a refusal the output and the store are as they were.
pub(crate) fn execute<S: Alter>(
    alloc: Global,
    store: &mut Store<S>,
    user: &[u8],
    command: &ScriptCommand,
    out: &mut Octets,
) -> Result<bool, Refusal>
    ensures acts { ActsCommand user.now (of_script command.now) out.old out.new (state S.Store store.old) (state S.Store store.new) result }
    ensures err { OnErr result (out.new ≡ out.old) }
    ensures named { IfErr result IsTransient }
{
    let decided = decision_on(alloc, store, user, command);
    if let Err(Refusal::NoUser) = decided {
        turn_away(alloc, out)?;
        return Ok(false);
    }
    let Decision { reply, change } = decided?;
    let before = out.len();
    spell(alloc, &reply, out)?;
    let Some(change) = change else {
        return Ok(true);
    };
    if let Err(refusal) = make(store, user, change) {
        shorten(alloc, out, before);
        return Err(in_a_step(refusal));
    }
    Ok(true)
}

/// Tells a user whose account isn't open any more to log in. After an error the output is as it was.
fn turn_away(alloc: Global, out: &mut Octets) -> Result<(), AllocError>
    ensures told { OnOk result (out.new ≡ out.old ++ reply_octets early_reply) }
    ensures err { OnErr result (out.new ≡ out.old) }
{
    let reply = negative_reply(alloc, None, b"Log in first.")?;
    spell(alloc, &reply, out)
}

/// The user whom the text logs in, if there is a text and it logs someone in. If it isn't a login, no store is asked, and lack
/// of memory is the only refusal.
pub(crate) fn admitted<S: Alter>(
    alloc: Global,
    store: &mut Store<S>,
    text: Option<&[u8]>,
) -> Result<Option<Octets>, Refusal>
    ensures reads { ReadsAccounts (λ who accounts. admitted_in accounts (borrowed_text text.entry) ≡ who) (state S.Store store.old) (state S.Store store.new) result }
    ensures unasked { says_login (borrowed_text text.entry) ≡ false → store.new ≡ store.old }
    ensures refused { says_login (borrowed_text text.entry) ≡ false → IfErr result (λ e. e ≡ Refusal.Memory) }
{
    let Some(text) = text else {
        return Ok(None);
    };
    let Some(login) = plain(alloc, text)? else {
        return Ok(None);
    };
    checked(store, login)
}

/// The user of the login, if the account is open and has the password. A name without an account, and one of a closed account,
/// take as long as a wrong password.
fn checked<S: Alter>(store: &mut Store<S>, login: Login) -> Result<Option<Octets>, Refusal>
    ensures { ReadsAccounts (λ who accounts. admitted_by accounts (login_shown (Some login)) ≡ who) (state S.Store store.old) (state S.Store store.new) result }
{
    let Some(profile) = store.account(login.user.as_slice())? else {
        spend_rounds(&login);
        return Ok(None);
    };
    if profile.is_closed() {
        spend_rounds(&login);
        return Ok(None);
    }
    let kept = record_of(profile);
    if !has_password(&login, &kept) {
        return Ok(None);
    }
    Ok(Some(login.user))
}

/// The stored password of an account.
fn record_of(profile: Profile) -> PasswordHash
    ensures { result ≡ record { salt = profile.salt; rounds = profile.rounds; digest = profile.digest } }
{
    PasswordHash {
        salt: profile.salt,
        rounds: profile.rounds,
        digest: profile.digest,
    }
}

/// A refusal as a step reports it: lack of memory stays, any other is `Store`, since the account was there a moment ago.
fn in_a_step(refusal: Refusal) -> Refusal
    ensures named { IsTransient result }
    ensures memory { refusal ≡ Refusal.Memory → result ≡ Refusal.Memory }
    ensures store { refusal ≢ Refusal.Memory → result ≡ Refusal.Store }
{
    match refusal {
        Refusal::Memory => Refusal::Memory,
        _ => Refusal::Store,
    }
}

/// Decides a command about scripts, from what the user's account has.
fn decision_on<'a, S: Alter>(
    alloc: Global,
    store: &mut Store<S>,
    user: &[u8],
    command: &'a ScriptCommand,
) -> Result<Decision<'a>, Refusal>
    ensures { ReadsOpenAccount user.now (Decides (of_script command.entry.now)) (state S.Store store.old) (state S.Store store.new) result }
{
    let command = match command {
        ScriptCommand::Get(name) => {
            let text = store.script(user, name.as_slice())?;
            let reply = get_script(alloc, text)?;
            return Ok(Decision {
                reply,
                change: None,
            });
        }
        ScriptCommand::Named(command) => command,
    };
    let KeptScripts { names, active } = kept_scripts(store, user)?;
    let decision = decide_script_command(alloc, names, as_deref(&active), command)?;
    Ok(decision)
}

/// The names of the user's scripts, and the active one.
fn kept_scripts<S: Alter>(store: &mut Store<S>, user: &[u8]) -> Result<KeptScripts, Refusal>
    ensures { ReadsOpenAccount user.now (λ kept a. AreScripts kept.names kept.active a) (state S.Store store.old) (state S.Store store.new) result }
{
    let profile = store.enter(user)?;
    let names = store.scripts_of(user)?;
    Ok(KeptScripts {
        names,
        active: profile.active,
    })
}

/// Writes the change to the user's scripts, in one transaction.
fn make<S: Alter>(store: &mut Store<S>, user: &[u8], change: ScriptChange) -> Result<(), Refusal>
    ensures { WritesAccount user.now (change_made change.entry) (state S.Store store.old) (state S.Store store.new) result }
{
    match change {
        ScriptChange::Put { name, script } => store.put_script(user, name, script),
        ScriptChange::Activate(name) => store.set_active(user, name),
        ScriptChange::Delete(name) => store.delete(user, name),
        ScriptChange::Rename { old, new } => store.rename(user, old, new),
    }
}

// Shortens the output to that many octets. Takes no memory.
fn shorten(alloc: Global, out: &mut Octets, count: usize)
    ensures { out.new ≡ take count out.old }
{
    let mut octets = mem::replace(out, Octets::new(alloc)).into_vec();
    octets.truncate(count);
    *out = Octets::from_vec(octets);
}
