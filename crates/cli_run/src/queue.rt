//! The subcommands on queues: the list, of a user or of all; the octets of one message; and that one was sent.
ghost use Rattle.std.specs.Prelude.{◌≡◌, ◌≢◌, false, true, None, Some, IsTrue, OnOk, option_copied};
ghost use Rattle.store_engine.specs.declared.answer.Answer.TheVariants.{Taken};
ghost use Rattle.store_engine.specs.declared.event.Event.TheVariants.{TakeOut};
ghost use Rattle.cli_run.specs.Promise.{status_after};
ghost use Rattle.cli_run.specs.Serving.{HasDenied, HasGiven};
ghost use Rattle.cli_run.specs.Values.{IsNoNumber};
ghost use Rattle.cli_run.specs.Subcommands.{IsDoneEvent, PutsInTables, DoesEvent, DoesQueue, DoesRead, ShowsOutgoing, LacksOutgoing, account_part};
ghost use Rattle.cli_run.specs.Transitions.{across};

use crate::account_read::{OutgoingOf, QueueOf, read_once};
use crate::all_queues::QueueLines;
use crate::all_users::run_for_all;
use crate::commands::take_store;
use crate::fault::RunFault;
use crate::listing::run_listing;
use crate::stream::{write_all, write_number};
use crate::values::decimal;
use cli_subcommands::{DoneArgs, QueueArgs, StoreLocation};
use std::alloc::Global;
use std::io::Write;
use store_accounts::{QueuedMessage, Refusal};
use store_engine::take_out;
use store_lock::Keeper;

/// `queue`: the user's messages on their way out, or the octets of the one with the number; with `--all` those of all users.
pub fn run_queue<W: Write, K: Keeper>(
    alloc: Global,
    asked: QueueArgs<'_>,
    output: &mut W,
    keeper: &mut K,
) -> Result<(), RunFault>
    ensures back { K.is_out keeper.old ≡ false → K.is_out keeper.new ≡ false }
    ensures does { IsTrue K.tells → DoesQueue (HasDenied K.refuses K.will_wait asked.entry.location) asked.entry.all
        (option_copied asked.entry.user) (option_copied asked.entry.id) (across W.contents output.old output.new) result
        (across K.holds keeper.old keeper.new) }
    ensures given { OnOk result (HasGiven K.gives K.will_wait asked.entry.location) }
{
    if asked.all {
        return match asked.user {
            None => run_all_queues(alloc, asked.location, asked.id, output, keeper),
            Some(_) => Err(RunFault::BadArgument),
        };
    }
    match asked.user {
        Some(user) => run_queue_of(alloc, asked.location, user, asked.id, output, keeper),
        None => Err(RunFault::BadArgument),
    }
}

/// `queue --all`, with which no number is asked for.
fn run_all_queues<W: Write, K: Keeper>(
    alloc: Global,
    location: StoreLocation<'_>,
    id: Option<&str>,
    output: &mut W,
    keeper: &mut K,
) -> Result<(), RunFault>
    ensures back { K.is_out keeper.old ≡ false → K.is_out keeper.new ≡ false }
    ensures does { IsTrue K.tells → DoesQueue (HasDenied K.refuses K.will_wait location.entry) true None (option_copied id.entry)
        (across W.contents output.old output.new) result (across K.holds keeper.old keeper.new) }
    ensures given { OnOk result (HasGiven K.gives K.will_wait location.entry) }
{
    match id {
        None => run_for_all(alloc, location, &QueueLines, output, keeper),
        Some(_) => Err(RunFault::BadArgument),
    }
}

/// `queue` of one user: all that is on its way out, or the octets of the message with the number.
fn run_queue_of<W: Write, K: Keeper>(
    alloc: Global,
    location: StoreLocation<'_>,
    user: &str,
    id: Option<&str>,
    output: &mut W,
    keeper: &mut K,
) -> Result<(), RunFault>
    ensures back { K.is_out keeper.old ≡ false → K.is_out keeper.new ≡ false }
    ensures does { IsTrue K.tells → DoesQueue (HasDenied K.refuses K.will_wait location.entry) false (Some user.now)
        (option_copied id.entry) (across W.contents output.old output.new) result (across K.holds keeper.old keeper.new) }
    ensures given { OnOk result (HasGiven K.gives K.will_wait location.entry) }
{
    match id {
        None => run_listing(alloc, location, &QueueOf(user), output, keeper),
        Some(id) => run_queued(location, user, id, output, keeper),
    }
}

/// `queue` with a number: the octets of that message.
fn run_queued<W: Write, K: Keeper>(
    location: StoreLocation<'_>,
    user: &str,
    id: &str,
    output: &mut W,
    keeper: &mut K,
) -> Result<(), RunFault>
    ensures back { K.is_out keeper.old ≡ false → K.is_out keeper.new ≡ false }
    ensures does { IsTrue K.tells → DoesRead (IsNoNumber id.now) (HasDenied K.refuses K.will_wait location.entry)
        (account_part user.now (ShowsOutgoing id.now) (LacksOutgoing id.now)) (across W.contents output.old output.new) result
        (across K.holds keeper.old keeper.new) }
    ensures given { OnOk result (HasGiven K.gives K.will_wait location.entry) }
{
    let id = decimal(id)?;
    let Some(row) = read_once(location, &OutgoingOf(user, id), keeper)? else {
        return Err(RunFault::Refused(Refusal::NoRow));
    };
    write_all(output, row.message.as_slice())
}

/// `done`: a message leaves the queue, since it was sent.
pub fn run_done<W: Write, K: Keeper>(
    asked: DoneArgs<'_>,
    output: &mut W,
    keeper: &mut K,
) -> Result<(), RunFault>
    ensures back { K.is_out keeper.old ≡ false → K.is_out keeper.new ≡ false }
    ensures does { IsTrue K.tells → DoesEvent ⊥ (IsNoNumber asked.entry.id.now)
        (HasDenied K.refuses K.will_wait asked.entry.location) (IsDoneEvent asked.entry.user.now asked.entry.id.now)
        (across W.contents output.old output.new) result (across K.holds keeper.old keeper.new) }
    ensures given { OnOk result (HasGiven K.gives K.will_wait asked.entry.location) }
{
    let id = decimal(asked.id)?;
    dequeue(asked.location, asked.user.as_bytes(), id, keeper)?;
    write_number(output, b"taken ", id)
}

/// Takes the message with the number out of the queue, in a store that is taken and handed back.
fn dequeue<K: Keeper>(
    location: StoreLocation<'_>,
    user: &[u8],
    id: u64,
    keeper: &mut K,
) -> Result<QueuedMessage, RunFault>
    ensures late { status_after result ≢ 64 }
    ensures back { K.is_out keeper.old ≡ false → K.is_out keeper.new ≡ false }
    ensures puts { IsTrue K.tells → PutsInTables (HasDenied K.refuses K.will_wait location.entry) (TakeOut user.now id) Taken
        result (across K.holds keeper.old keeper.new) }
    ensures given { OnOk result (HasGiven K.gives K.will_wait location.entry) }
{
    let mut store = take_store(location, false, keeper)?;
    let row = take_out(&mut store, user, id);
    keeper.hand_back(store);
    Ok(row?)
}
