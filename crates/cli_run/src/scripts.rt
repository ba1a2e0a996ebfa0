//! The subcommands on a user's scripts: `scripts` and `put`.
ghost use Rattle.std.specs.Prelude.{◌≡◌, ◌≢◌, false, IsTrue, IfOk, OnOk, option_copied};
ghost use Rattle.store_engine.specs.Hosts.{answer_of};
ghost use Rattle.store_engine.specs.declared.upkeep.Upkeep.TheVariants as upkeep;
ghost use Rattle.store_accounts.specs.Account.{Account};
ghost use Rattle.managesieve_sessions.specs.Decisions.{AreScripts};
ghost use Rattle.managesieve_sessions.specs.Replies.{borrowed_text};
ghost use Rattle.cli_run.specs.Draining.{TurnsTables};
ghost use Rattle.cli_run.specs.Promise.{status_after};
ghost use Rattle.cli_run.specs.Serving.{HasDenied, HasGiven};
ghost use Rattle.cli_run.specs.Streams.{ReadsToEnd};
ghost use Rattle.cli_run.specs.Subcommands.{DeniedAtEnd, DoesPut, DoesRead, DoesScripts, IsStoredBy, LacksScript, ListsScripts, IsPutEvent, PutsScript, ShowsScript, TellsVerdict, account_part};
ghost use Rattle.cli_run.specs.Transitions.{across};

use crate::account_read::{ScriptNames, ScriptOf, ScriptsOf, read_once};
use crate::commands::take_store;
use crate::fault::RunFault;
use crate::listing::{Listing, run_listing};
use crate::stream::{read_all, write_all, write_line};
use cli_reports::report_fault;
use cli_subcommands::{PutArgs, ScriptsArgs, StoreLocation};
use managesieve_protocol::spell;
use managesieve_sessions::command_class::NamedCommand;
use managesieve_sessions::scripts::decide_script_command;
use octets::Octets;
use sieve_lex::ScriptFault;
use std::alloc::{AllocError, Global};
use std::io::{Read, Write};
use store_accounts::Refusal;
use store_engine::{Answer, Upkeep, do_upkeep};
use store_lock::Keeper;

impl Listing for ScriptsOf<'_> {
    ghost use Rattle.cli_run.specs.Subcommands.{ListsScripts};

    ghost shows = { λ wanted a text. ListsScripts a text };

    fn lines(&self, alloc: Global, found: &ScriptNames) -> Result<Octets, AllocError> {
        script_lines(alloc, found)
    }
}

/// The lines that LISTSCRIPTS has before its `OK` (RFC 5804, 2.7).
fn script_lines(alloc: Global, found: &ScriptNames) -> Result<Octets, AllocError>
    ensures { IfOk result (λ text. (a : Account) → AreScripts found.now.names found.now.active a → ListsScripts a text) }
{
    let names = found.names.try_clone(alloc)?;
    let decision = decide_script_command(
        alloc,
        names,
        active_in(found),
        &NamedCommand::ListScripts,
    )?;
    let mut reply = decision.reply;
    reply.word = None;
    let mut text = Octets::new(alloc);
    spell(alloc, &reply, &mut text)?;
    Ok(text)
}

/// The name of the active script, if there is one.
fn active_in(found: &ScriptNames) -> Option<&[u8]>
    ensures { borrowed_text result ≡ found.now.active }
{
    match &found.active {
        Some(name) => Some(name.as_slice()),
        None => None,
    }
}

/// `scripts`: the user's scripts, as LISTSCRIPTS lists them, or the octets of the one with the name.
pub fn run_scripts<W: Write, K: Keeper>(
    alloc: Global,
    asked: ScriptsArgs<'_>,
    output: &mut W,
    keeper: &mut K,
) -> Result<(), RunFault>
    ensures back { K.is_out keeper.old ≡ false → K.is_out keeper.new ≡ false }
    ensures does { IsTrue K.tells → DoesScripts (HasDenied K.refuses K.will_wait asked.entry.location) asked.entry.user.now
        (option_copied asked.entry.script) (across W.contents output.old output.new) result
        (across K.holds keeper.old keeper.new) }
    ensures given { OnOk result (HasGiven K.gives K.will_wait asked.entry.location) }
{
    match asked.script {
        None => run_listing(
            alloc,
            asked.location,
            &ScriptsOf(asked.user),
            output,
            keeper,
        ),
        Some(name) => run_script(asked.location, asked.user, name, output, keeper),
    }
}

/// `scripts` with a name: the octets of that script.
fn run_script<W: Write, K: Keeper>(
    location: StoreLocation<'_>,
    user: &str,
    name: &str,
    output: &mut W,
    keeper: &mut K,
) -> Result<(), RunFault>
    ensures back { K.is_out keeper.old ≡ false → K.is_out keeper.new ≡ false }
    ensures does { IsTrue K.tells → DoesRead ⊥ (HasDenied K.refuses K.will_wait location.entry)
        (account_part user.now (ShowsScript name.now) (LacksScript name.now)) (across W.contents output.old output.new) result
        (across K.holds keeper.old keeper.new) }
    ensures given { OnOk result (HasGiven K.gives K.will_wait location.entry) }
{
    let Some(text) = read_once(location, &ScriptOf(user, name), keeper)? else {
        return Err(RunFault::NoScript);
    };
    write_all(output, text.as_slice())
}

/// `put`: stores the script in the input, and makes it the active one if asked to. If it isn't valid, the line
/// that tells why is written, and nothing is stored.
pub fn run_put<R: Read, W: Write, K: Keeper>(
    alloc: Global,
    asked: PutArgs<'_>,
    input: &mut R,
    output: &mut W,
    keeper: &mut K,
) -> Result<(), RunFault>
    ensures unread { status_after result ≡ 64 → input.new ≡ input.old }
    ensures reads { OnOk result (ReadsToEnd R.remaining input.old input.new) }
    ensures back { K.is_out keeper.old ≡ false → K.is_out keeper.new ≡ false }
    ensures does { IsTrue K.tells → DoesPut
        (DeniedAtEnd (HasDenied K.refuses K.will_wait asked.entry.location) (R.remaining input.new))
        (IsPutEvent asked.entry.user.now asked.entry.script.now asked.entry.activate (R.remaining input.old))
        (across W.contents output.old output.new) result (across K.holds keeper.old keeper.new) }
    ensures given { OnOk result (HasGiven K.gives K.will_wait asked.entry.location) }
{
    let octets = read_all(alloc, input)?;
    let name = Octets::from_slice(alloc, asked.script.as_bytes())?;
    let verdict = store_script(
        alloc,
        asked.location,
        asked.user.as_bytes(),
        name,
        Octets::from_vec(octets),
        asked.activate,
        keeper,
    )?;
    tell_verdict(alloc, asked.script.as_bytes(), verdict, output)
}

/// Stores the script, in a store that is taken and handed back; or returns what is wrong with it.
pub(crate) fn store_script<K: Keeper>(
    alloc: Global,
    location: StoreLocation<'_>,
    user: &[u8],
    name: Octets,
    text: Octets,
    activate: bool,
    keeper: &mut K,
) -> Result<Option<ScriptFault>, RunFault>
    ensures late { status_after result ≢ 64 }
    ensures back { K.is_out keeper.old ≡ false → K.is_out keeper.new ≡ false }
    ensures puts { IsTrue K.tells → TurnsTables
        (PutsScript (HasDenied K.refuses K.will_wait location.entry) user.now (upkeep.StoreScript name text activate) result)
        (K.holds keeper.old) (K.holds keeper.new) }
    ensures given { OnOk result (HasGiven K.gives K.will_wait location.entry) }
{
    let upkeep = Upkeep::StoreScript {
        name,
        text,
        activate,
    };
    let mut store = take_store(location, false, keeper)?;
    let kept = do_upkeep(alloc, &mut store, user, &upkeep);
    keeper.hand_back(store);
    stored_by(kept)
}

/// What is wrong with the script, if anything; a refusal of the engine is the fault.
fn stored_by(kept: Result<Answer, Refusal>) -> Result<Option<ScriptFault>, RunFault>
    ensures { IsStoredBy (answer_of kept) result }
{
    match kept {
        Ok(Answer::Refused(refusal)) => Err(RunFault::Refused(refusal)),
        Ok(Answer::Invalid(fault)) => Ok(Some(fault)),
        Ok(_) => Ok(None),
        Err(refusal) => Err(RunFault::Refused(refusal)),
    }
}

/// Prints that the script was stored, or what is wrong with it, which is a fault then.
fn tell_verdict<W: Write>(
    alloc: Global,
    name: &[u8],
    verdict: Option<ScriptFault>,
    output: &mut W,
) -> Result<(), RunFault>
    ensures late { status_after result ≢ 64 }
    ensures tells { TellsVerdict name.now verdict (W.contents output.old) (W.contents output.new) result }
{
    match verdict {
        None => write_line(output, b"stored ", name),
        Some(fault) => {
            let line = report_fault(alloc, fault)?;
            write_all(output, line.as_slice())?;
            Err(RunFault::Invalid)
        }
    }
}
