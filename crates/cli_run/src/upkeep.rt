//! The subcommands with which an administrator maintains an account: each is one event of the engine.
ghost use Rattle.std.specs.Prelude.{◌≡◌, ◌≢◌, false, IsTrue, OnOk, option_copied};
ghost use Rattle.store_engine.specs.Hosts.{answer_of};
ghost use Rattle.store_engine.specs.declared.event.Event.TheVariants.{DoUpkeep};
ghost use Rattle.store_engine.specs.declared.upkeep.Upkeep.TheVariants as upkeep;
ghost use Rattle.cli_run.specs.Promise.{status_after};
ghost use Rattle.cli_run.specs.Serving.{HasDenied, HasGiven};
ghost use Rattle.cli_run.specs.Streams.{ReadsToEnd};
ghost use Rattle.cli_run.specs.Values.{HasNoSalt};
ghost use Rattle.cli_run.specs.Subcommands.{DeniedAtEnd, DoesEvent, IsPasswdEvent, IsDoneBy, IsUpkeepEvent, IsPlainUpkeep, PutsInTables, SaltFailed, upkeep_answer};
ghost use Rattle.cli_run.specs.Transitions.{across};

use crate::commands::take_store;
use crate::fault::RunFault;
use crate::stream::{read_all, write_line};
use crate::values::{first_input_line, given_salt};
use cli_subcommands::{AddressArgs, OpenArgs, PasswdArgs, RemoveArgs, StoreLocation};
use octets::Octets;
use std::alloc::Global;
use std::io::{Read, Write};
use store_accounts::Refusal;
use store_engine::{Answer, Upkeep, do_upkeep};
use store_lock::Keeper;

/// `passwd`: another password, which is the first line of the input. `random` is the salt if the arguments have none.
pub fn run_passwd<R: Read, W: Write, K: Keeper>(
    alloc: Global,
    asked: PasswdArgs<'_>,
    random: Option<[u8; 16]>,
    input: &mut R,
    output: &mut W,
    keeper: &mut K,
) -> Result<(), RunFault>
    ensures unread { status_after result ≡ 64 → input.new ≡ input.old }
    ensures reads { OnOk result (ReadsToEnd R.remaining input.old input.new) }
    ensures back { K.is_out keeper.old ≡ false → K.is_out keeper.new ≡ false }
    ensures does { IsTrue K.tells → DoesEvent (SaltFailed (option_copied asked.entry.salt) random)
        (HasNoSalt (option_copied asked.entry.salt))
        (DeniedAtEnd (HasDenied K.refuses K.will_wait asked.entry.location) (R.remaining input.new))
        (IsPasswdEvent (option_copied asked.entry.salt) random asked.entry.user.now (R.remaining input.old))
        (across W.contents output.old output.new) result (across K.holds keeper.old keeper.new) }
    ensures given { OnOk result (HasGiven K.gives K.will_wait asked.entry.location) }
{
    let salt = given_salt(asked.salt, random)?;
    let octets = read_all(alloc, input)?;
    let password = Octets::from_slice(alloc, first_input_line(octets.as_slice()))?;
    let upkeep = Upkeep::SetPassword { salt, password };
    keep_up(
        alloc,
        asked.location,
        asked.user.as_bytes(),
        &upkeep,
        keeper,
    )?;
    write_line(output, b"changed ", asked.user.as_bytes())
}

/// `address`: another mail address.
pub fn run_address<W: Write, K: Keeper>(
    alloc: Global,
    asked: AddressArgs<'_>,
    output: &mut W,
    keeper: &mut K,
) -> Result<(), RunFault>
    ensures back { K.is_out keeper.old ≡ false → K.is_out keeper.new ≡ false }
    ensures does { IsTrue K.tells → DoesEvent ⊥ ⊥ (HasDenied K.refuses K.will_wait asked.entry.location)
        (IsUpkeepEvent asked.entry.user.now (upkeep.SetAddress asked.entry.address.now))
        (across W.contents output.old output.new) result (across K.holds keeper.old keeper.new) }
    ensures given { OnOk result (HasGiven K.gives K.will_wait asked.entry.location) }
{
    let address = Octets::from_slice(alloc, asked.address.as_bytes())?;
    let upkeep = Upkeep::SetAddress { address };
    keep_up(
        alloc,
        asked.location,
        asked.user.as_bytes(),
        &upkeep,
        keeper,
    )?;
    write_line(output, b"changed ", asked.user.as_bytes())
}

/// `open`: opens a closed account as it was.
pub fn run_open<W: Write, K: Keeper>(
    alloc: Global,
    asked: OpenArgs<'_>,
    output: &mut W,
    keeper: &mut K,
) -> Result<(), RunFault>
    ensures back { K.is_out keeper.old ≡ false → K.is_out keeper.new ≡ false }
    ensures does { IsTrue K.tells → DoesEvent ⊥ ⊥ (HasDenied K.refuses K.will_wait asked.entry.location)
        (IsUpkeepEvent asked.entry.user.now upkeep.OpenAccount) (across W.contents output.old output.new) result
        (across K.holds keeper.old keeper.new) }
    ensures given { OnOk result (HasGiven K.gives K.will_wait asked.entry.location) }
{
    let user = asked.user.as_bytes();
    keep_up(alloc, asked.location, user, &Upkeep::OpenAccount, keeper)?;
    write_line(output, b"opened ", user)
}

/// `remove`: removes an account, its mail only if asked to.
pub fn run_remove<W: Write, K: Keeper>(
    alloc: Global,
    asked: RemoveArgs<'_>,
    output: &mut W,
    keeper: &mut K,
) -> Result<(), RunFault>
    ensures back { K.is_out keeper.old ≡ false → K.is_out keeper.new ≡ false }
    ensures does { IsTrue K.tells → DoesEvent ⊥ ⊥ (HasDenied K.refuses K.will_wait asked.entry.location)
        (IsUpkeepEvent asked.entry.user.now (upkeep.RemoveAccount asked.entry.mail))
        (across W.contents output.old output.new) result (across K.holds keeper.old keeper.new) }
    ensures given { OnOk result (HasGiven K.gives K.will_wait asked.entry.location) }
{
    let user = asked.user.as_bytes();
    let upkeep = Upkeep::RemoveAccount { mail: asked.mail };
    keep_up(alloc, asked.location, user, &upkeep, keeper)?;
    write_line(output, b"removed ", user)
}

/// Maintains the account, in a store that is taken and handed back. `Ok` says that it was done.
fn keep_up<K: Keeper>(
    alloc: Global,
    location: StoreLocation<'_>,
    user: &[u8],
    upkeep: &Upkeep,
    keeper: &mut K,
) -> Result<(), RunFault>
    requires plain { IsPlainUpkeep upkeep.now }
    ensures late { status_after result ≢ 64 }
    ensures back { K.is_out keeper.old ≡ false → K.is_out keeper.new ≡ false }
    ensures puts { IsTrue K.tells → PutsInTables (HasDenied K.refuses K.will_wait location.entry) (DoUpkeep user.now upkeep.now)
        (λ done. upkeep_answer upkeep.now) result (across K.holds keeper.old keeper.new) }
    ensures given { OnOk result (HasGiven K.gives K.will_wait location.entry) }
{
    let mut store = take_store(location, false, keeper)?;
    let kept = do_upkeep(alloc, &mut store, user, upkeep);
    keeper.hand_back(store);
    done_by(kept)
}

/// Whether it was done: a refusal of the engine is the fault.
pub fn done_by(kept: Result<Answer, Refusal>) -> Result<(), RunFault>
    ensures { IsDoneBy (answer_of kept) result }
{
    match kept {
        Ok(Answer::Refused(refusal)) => Err(RunFault::Refused(refusal)),
        Ok(_) => Ok(()),
        Err(refusal) => Err(RunFault::Refused(refusal)),
    }
}
