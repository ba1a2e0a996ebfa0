//! The subcommands that work on a store, a function each.
ghost use Rattle.std.specs.Prelude.{◌≡◌, ◌≢◌, false, IsTrue, IfOk, OnOk, OnErr, IfErr, option_copied};
ghost use Rattle.sqlite.specs.Held.{state};
ghost use Rattle.store_lock.specs.Taken.{IsStoreTaken};
ghost use Rattle.store_engine.specs.declared.answer.Answer.TheVariants.{Delivered, Added};
ghost use Rattle.store_engine.specs.declared.event.Event.TheVariants as machine;
ghost use Rattle.store_engine.specs.Terms.{terms_of};
ghost use Rattle.cli_run.specs.Promise.{status_after};
ghost use Rattle.cli_run.specs.Serving.{HasDenied, HasGiven};
ghost use Rattle.cli_run.specs.Streams.{ReadsToEnd};
ghost use Rattle.cli_run.specs.Values.{IsNoNumber, HasNoWhen, HasNoSalt, envelope_with};
ghost use Rattle.cli_run.specs.Subcommands.{IsAddUserEvent, IsDeliverEvent, DeliverInputFailed, SaltFailed, DeniedAtEnd, PutsInTables, DoesEvent, DoesRead, DoesInit, ShowsMessage, LacksMessage, account_part};
ghost use Rattle.cli_run.specs.Transitions.{across};

use crate::account_read::{MessageOf, read_once};
use crate::fault::RunFault;
use crate::host_texts::HostTexts;
use crate::report::print_report;
use crate::stream::{read_all, write_all, write_line};
use crate::values::{decimal, envelope_of, first_input_line, given_salt, terms_for};
use cli_subcommands::{AddUserArgs, DeliverArgs, InitArgs, ShowArgs, StoreLocation};
use std::alloc::Global;
use std::io::{Read, Write};
use store_accounts::{Refusal, Store};
use store_engine::{Envelope, KeptScripts, LentTerms, Report, add_user, deliver};
use store_lock::Keeper;

/// `init`: a new store.
pub fn run_init<W: Write, K: Keeper>(
    asked: InitArgs<'_>,
    output: &mut W,
    keeper: &mut K,
) -> Result<(), RunFault>
    ensures back { K.is_out keeper.old ≡ false → K.is_out keeper.new ≡ false }
    ensures does { IsTrue K.tells → DoesInit (HasDenied K.refuses K.will_wait asked.entry.location)
        (across W.contents output.old output.new) result (across K.holds keeper.old keeper.new) }
    ensures given { OnOk result (HasGiven K.gives K.will_wait asked.entry.location) }
{
    let store = take_store(asked.location, true, keeper)?;
    keeper.hand_back(store);
    write_all(output, b"ready\n")
}

/// `adduser`: a new account. Its password is the first line of the input. `random` is the salt if the arguments have none.
pub fn run_adduser<R: Read, W: Write, K: Keeper>(
    alloc: Global,
    asked: AddUserArgs<'_>,
    random: Option<[u8; 16]>,
    input: &mut R,
    output: &mut W,
    keeper: &mut K,
) -> Result<(), RunFault>
    ensures unread { status_after result ≡ 64 → input.new ≡ input.old }
    ensures reads { OnOk result (ReadsToEnd R.remaining input.old input.new) }
    ensures back { K.is_out keeper.old ≡ false → K.is_out keeper.new ≡ false }
    ensures does { IsTrue K.tells → DoesEvent (SaltFailed (option_copied asked.entry.salt) random)
        (HasNoSalt (option_copied asked.entry.salt))
        (DeniedAtEnd (HasDenied K.refuses K.will_wait asked.entry.location) (R.remaining input.new))
        (IsAddUserEvent (option_copied asked.entry.salt) random asked.entry.name.now asked.entry.address.now
        (R.remaining input.old)) (across W.contents output.old output.new) result (across K.holds keeper.old keeper.new) }
    ensures given { OnOk result (HasGiven K.gives K.will_wait asked.entry.location) }
{
    let salt = given_salt(asked.salt, random)?;
    let octets = read_all(alloc, input)?;
    let password = first_input_line(octets.as_slice());
    add(
        alloc,
        asked.location,
        asked.name.as_bytes(),
        asked.address.as_bytes(),
        salt,
        password,
        keeper,
    )?;
    write_line(output, b"added ", asked.name.as_bytes())
}

/// Adds the account, in a store that is taken and handed back.
fn add<K: Keeper>(
    alloc: Global,
    location: StoreLocation<'_>,
    name: &[u8],
    address: &[u8],
    salt: [u8; 16],
    password: &[u8],
    keeper: &mut K,
) -> Result<(), RunFault>
    ensures late { status_after result ≢ 64 }
    ensures back { K.is_out keeper.old ≡ false → K.is_out keeper.new ≡ false }
    ensures puts { IsTrue K.tells → PutsInTables (HasDenied K.refuses K.will_wait location.entry)
        (machine.AddUser name.now address.now salt password.now) (λ done. Added) result (across K.holds keeper.old keeper.new) }
    ensures given { OnOk result (HasGiven K.gives K.will_wait location.entry) }
{
    let mut store = take_store(location, false, keeper)?;
    let added = add_user(alloc, &mut store, name, address, salt, password);
    keeper.hand_back(store);
    Ok(added?)
}

/// `deliver`: the input is a message for a user. `clock` is the moment if the arguments have none, and `host` are the texts of
/// the host's scripts.
///
/// The report is written after the store was handed back, and takes no memory. What was delivered is on the disk by then, whether
/// or not the store could be closed.
pub fn run_deliver<R: Read, W: Write, K: Keeper>(
    alloc: Global,
    asked: DeliverArgs<'_>,
    clock: Option<u64>,
    host: HostTexts,
    input: &mut R,
    output: &mut W,
    keeper: &mut K,
) -> Result<(), RunFault>
    ensures unread { status_after result ≡ 64 → input.new ≡ input.old }
    ensures reads { OnOk result (ReadsToEnd R.remaining input.old input.new) }
    ensures back { K.is_out keeper.old ≡ false → K.is_out keeper.new ≡ false }
    ensures does { IsTrue K.tells → DoesEvent (DeliverInputFailed (option_copied asked.entry.at) clock)
        (HasNoWhen (option_copied asked.entry.at) (option_copied asked.entry.zone))
        (DeniedAtEnd (HasDenied K.refuses K.will_wait asked.entry.location) (R.remaining input.new))
        (IsDeliverEvent (envelope_with asked.entry.from.now asked.entry.to.now) (option_copied asked.entry.at)
        (option_copied asked.entry.zone) asked.entry.user.now clock host (R.remaining input.old))
        (across W.contents output.old output.new) result (across K.holds keeper.old keeper.new) }
    ensures given { OnOk result (HasGiven K.gives K.will_wait asked.entry.location) }
{
    let terms = terms_for(asked.at, asked.zone, clock, host)?;
    let envelope = envelope_of(alloc, asked.from, asked.to)?;
    let message = read_all(alloc, input)?;
    let report = deliver_in_store(
        alloc,
        asked.location,
        asked.user.as_bytes(),
        envelope,
        message.as_slice(),
        terms.lend(),
        keeper,
    )?;
    print_report(&report, output)
}

/// Delivers the message, in a store that is taken and handed back.
///
/// # Errors
///
/// Those of [`deliver`]; and `Store`, so that the sender tries again, where the file at the path is no longer the one that was
/// opened: what was delivered isn't in the file to which the path leads now.
fn deliver_in_store<K: Keeper>(
    alloc: Global,
    location: StoreLocation<'_>,
    user: &[u8],
    envelope: Envelope,
    message: &[u8],
    terms: LentTerms<'_>,
    keeper: &mut K,
) -> Result<Report, RunFault>
    ensures late { status_after result ≢ 64 }
    ensures back { K.is_out keeper.old ≡ false → K.is_out keeper.new ≡ false }
    ensures puts { IsTrue K.tells → PutsInTables (HasDenied K.refuses K.will_wait location.entry)
        (machine.Deliver user.now envelope message.now (terms_of terms.entry)) Delivered result
        (across K.holds keeper.old keeper.new) }
    ensures given { OnOk result (HasGiven K.gives K.will_wait location.entry) }
{
    let mut store = take_store(location, false, keeper)?;
    let mut kept = KeptScripts::new(alloc);
    let delivered = deliver(alloc, &mut store, &mut kept, user, envelope, message, terms);
    let is_there = keeper.is_there(location.path);
    keeper.hand_back(store);
    let report = delivered?;
    if !is_there {
        return Err(RunFault::Refused(Refusal::Store));
    }
    Ok(report)
}

/// `show`: a message of a user's folder, by its number from 1. No other message is read.
pub fn run_show<W: Write, K: Keeper>(
    asked: ShowArgs<'_>,
    output: &mut W,
    keeper: &mut K,
) -> Result<(), RunFault>
    ensures back { K.is_out keeper.old ≡ false → K.is_out keeper.new ≡ false }
    ensures does { IsTrue K.tells → DoesRead (IsNoNumber asked.entry.number.now)
        (HasDenied K.refuses K.will_wait asked.entry.location)
        (account_part asked.entry.user.now (ShowsMessage asked.entry.folder.now asked.entry.number.now)
        (LacksMessage asked.entry.folder.now asked.entry.number.now))
        (across W.contents output.old output.new) result (across K.holds keeper.old keeper.new) }
    ensures given { OnOk result (HasGiven K.gives K.will_wait asked.entry.location) }
{
    let number = decimal(asked.number)?;
    let wanted = MessageOf(asked.user, asked.folder, number);
    let Some(message) = read_once(asked.location, &wanted, keeper)? else {
        return Err(RunFault::NoMessage);
    };
    write_all(output, message.as_slice())
}

/// Takes the store at a place: the one that is there, or with `fresh` a new one.
pub fn take_store<K: Keeper>(
    location: StoreLocation<'_>,
    fresh: bool,
    keeper: &mut K,
) -> Result<Store<K::S>, RunFault>
    ensures late { status_after result ≢ 64 }
    ensures taken { IfOk result (λ store. IsTrue K.tells → IsStoreTaken fresh (K.holds keeper.old) (state K.S.Store store).now) }
    ensures refused { OnErr result (IsTrue K.tells → K.holds keeper.new ≡ K.holds keeper.old) }
    ensures kept { OnErr result (K.is_out keeper.new ≡ K.is_out keeper.old) }
    ensures given { OnOk result (HasGiven K.gives K.will_wait location.entry) }
    ensures denied { IfErr result (HasDenied K.refuses K.will_wait location.entry) }
{
    keeper.wait_for_lock(location.waits);
    Ok(keeper.take(location.path, fresh)?)
}
