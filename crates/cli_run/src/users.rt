//! The subcommand on all users: who has an account, and which script is active.
ghost use Rattle.std.specs.Prelude.{◌≡◌, ◌≢◌, ◌++◌, false, IsTrue, OnOk};
ghost use Rattle.cli_run.specs.Promise.{status_after};
ghost use Rattle.cli_run.specs.Serving.{HasDenied, HasGiven};
ghost use Rattle.cli_run.specs.Subcommands.{DoesListing, found_line, open_line, profile_line, user_line};
ghost use Rattle.cli_run.specs.Transitions.{across};

use crate::all_users::{AccountLines, run_for_all};
use crate::fault::RunFault;
use cli_subcommands::UsersArgs;
use managesieve_protocol::spell_string;
use octets::Octets;
use sqlite::Alter;
use std::alloc::{AllocError, Global};
use std::io::Write;
use store_accounts::{Profile, Refusal, Store};
use store_lock::Keeper;

/// The line that says who has an account, and how it stands.
#[derive(Clone, Copy)]
pub struct StandingLine;

impl AccountLines for StandingLine {
    ghost use Rattle.cli_run.specs.Subcommands.{user_line};

    ghost lines = { λ listed name a. user_line name a };

    fn add<S: Alter>(
        &self,
        store: &mut Store<S>,
        name: &[u8],
        text: &mut Octets,
    ) -> Result<(), Refusal> {
        let found = store.account(name)?;
        add_found(name, &found, text)?;
        Ok(())
    }
}

/// `users`: a line for each account, in the order of the octets of the names.
pub fn run_users<W: Write, K: Keeper>(
    alloc: Global,
    asked: UsersArgs<'_>,
    output: &mut W,
    keeper: &mut K,
) -> Result<(), RunFault>
    ensures late { status_after result ≢ 64 }
    ensures back { K.is_out keeper.old ≡ false → K.is_out keeper.new ≡ false }
    ensures does { IsTrue K.tells → DoesListing (HasDenied K.refuses K.will_wait asked.entry.location) user_line
        (across W.contents output.old output.new) result (across K.holds keeper.old keeper.new) }
    ensures given { OnOk result (HasGiven K.gives K.will_wait asked.entry.location) }
{
    run_for_all(alloc, asked.location, &StandingLine, output, keeper)
}

/// Appends the line of the account that was found, if there is one.
fn add_found(name: &[u8], found: &Option<Profile>, text: &mut Octets) -> Result<(), AllocError>
    ensures { OnOk result (text.new ≡ text.old ++ found_line name.now found.now) }
{
    match found {
        Some(profile) => add_line(name, profile, text),
        None => Ok(()),
    }
}

/// Appends the line of an account; a removed one has none.
fn add_line(name: &[u8], profile: &Profile, text: &mut Octets) -> Result<(), AllocError>
    ensures { OnOk result (text.new ≡ text.old ++ profile_line name.now profile.now) }
{
    if profile.is_removed() {
        return Ok(());
    }
    if profile.is_closed() {
        text.extend_from_slice(b"closed ")?;
        text.extend_from_slice(name)?;
        return text.push(b'\n');
    }
    add_open(name, profile, text)
}

/// Appends the line of an open account.
fn add_open(name: &[u8], profile: &Profile, text: &mut Octets) -> Result<(), AllocError>
    ensures { OnOk result (text.new ≡ text.old ++ open_line name.now profile.now.active profile.now.address) }
{
    text.extend_from_slice(name)?;
    text.push(b' ')?;
    match &profile.active {
        Some(script) => spell_string(script.as_slice(), text)?,
        None => text.push(b'-')?,
    }
    text.push(b' ')?;
    text.extend_from_slice(profile.address.as_slice())?;
    text.push(b'\n')
}
