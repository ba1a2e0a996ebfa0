//! The subcommand that empties a folder: its messages go into a sink, and then out of the store.
ghost use Rattle.std.specs.Prelude.{◌≡◌, ◌≢◌, ◌⊎◌, ℕ, List, false, IfErr, IfOk, OnOk, IsTrue, option_copied};
ghost use Rattle.sqlite.specs.Held.{state};
ghost use Rattle.cli_run.specs.Draining.{IsMost, DrainsFirst, MovesAll, Drains, MovesTables, HasDrained, HasRefused, IsUnkept, sink_mails};
ghost use Rattle.cli_run.specs.Faults.{memory, no_user, store_failed, IsFailure, IsSudden};
ghost use Rattle.cli_run.specs.Serving.{HasDenied, HasGiven};
ghost use Rattle.cli_run.specs.Values.{HasNoNumber};
ghost use Rattle.cli_run.specs.Transitions.{across};

use crate::commands::take_store;
use crate::fault::RunFault;
use crate::stream::write_number;
use crate::values::decimal;
use cli_subcommands::DrainArgs;
use maildir_files::{MailSink, SinkError};
use sqlite::Alter;
use std::io::Write;
use store_accounts::{Refusal, Store};
use store_engine::first_message;
use store_lock::Keeper;

/// `drain`: moves a folder's messages into a Maildir, the first ones first. If the arguments or the path are wrong, no store is
/// taken.
pub fn run_drain<W: Write, K: Keeper, T: MailSink>(
    asked: DrainArgs<'_>,
    output: &mut W,
    keeper: &mut K,
    sink: &mut T,
) -> Result<(), RunFault>
    ensures back { K.is_out keeper.old ≡ false → K.is_out keeper.new ≡ false }
    ensures drains { IsTrue K.tells → HasDrained (HasRefused T.refuses) (HasDenied K.refuses K.will_wait asked.entry.location)
        asked.entry (sink_mails T.tells (T.kept sink.old) (T.kept sink.new)) (across W.contents output.old output.new) result
        (across K.holds keeper.old keeper.new) }
    ensures given { OnOk result (HasGiven K.gives K.will_wait asked.entry.location) }
    ensures placed { OnOk result (T.is_at sink.new asked.entry.maildir.now) }
{
    let most = most_of(asked.most)?;
    sink.open(asked.maildir)?;
    let moved = drain_store(asked, most, keeper, sink)?;
    write_number(output, b"drained ", moved)
}

/// How many messages the arguments ask for, at most.
fn most_of(digits: Option<&str>) -> Result<u64, RunFault>
    ensures ok { IfOk result (IsMost (option_copied digits.entry)) }
    ensures right { OnOk result (HasNoNumber (option_copied digits.entry) → ⊥) }
    ensures fault { IfErr result (λ fault. fault ≡ RunFault.BadArgument) }
    ensures none { IfErr result (λ fault. HasNoNumber (option_copied digits.entry)) }
{
    match digits {
        Some(digits) => decimal(digits),
        None => Ok(u64::MAX),
    }
}

/// Moves the messages out of a store that is taken and handed back. Returns how many moved.
fn drain_store<K: Keeper, T: MailSink>(
    asked: DrainArgs<'_>,
    most: u64,
    keeper: &mut K,
    sink: &mut T,
) -> Result<u64, RunFault>
    ensures back { K.is_out keeper.old ≡ false → K.is_out keeper.new ≡ false }
    ensures moves { IsTrue K.tells → MovesTables (HasRefused T.refuses) (HasDenied K.refuses K.will_wait asked.entry.location)
        asked.entry (sink_mails T.tells (T.kept sink.old) (T.kept sink.new)) most result (across K.holds keeper.old keeper.new) }
    ensures given { OnOk result (HasGiven K.gives K.will_wait asked.entry.location) }
    ensures stays { (path : List ℕ) → T.is_at sink.old path → T.is_at sink.new path }
{
    let user = asked.user.as_bytes();
    let folder = asked.folder.as_bytes();
    let mut store = take_store(asked.location, false, keeper)?;
    let drained = drain(&mut store, user, folder, most, sink);
    keeper.hand_back(store);
    drained
}

/// Moves the first message of the folder of a user who has an account: the sink keeps it, and then it leaves the store.
/// Returns whether there was one.
///
/// # Errors
///
/// `Memory`, `Store`, or `Stream` if the sink failed. The message is in the folder still, and may be in the sink too.
fn move_first<S: Alter, T: MailSink>(
    store: &mut Store<S>,
    user: &[u8],
    folder: &[u8],
    sink: &mut T,
) -> Result<bool, RunFault>
    ensures moves { DrainsFirst user.now folder.now (sink_mails T.tells (T.kept sink.old) (T.kept sink.new)) result
        (state S.Store store.old) (state S.Store store.new) }
    ensures stays { (path : List ℕ) → T.is_at sink.old path → T.is_at sink.new path }
    ensures fault { IfErr result (IsSudden (IsUnkept (HasRefused T.refuses))) }
{
    let first = match first_message(store, user, folder) {
        Ok(first) => first,
        Err(refusal) => return Err(failure_of(refusal)),
    };
    let Some(first) = first else {
        return Ok(false);
    };
    let (message, flags) = (first.message.as_slice(), first.flags.as_slice());
    if let Err(error) = sink.keep(user, folder, first.number, message, flags) {
        return Err(sink_failure(error));
    }
    match store.take_mail(user, folder) {
        Ok(()) => Ok(true),
        Err(refusal) => Err(RunFault::Refused(refusal)),
    }
}

/// Why the folder of a user whose account was there a moment ago can't be read.
fn failure_of(refusal: Refusal) -> RunFault
    ensures sudden { IsSudden ⊥ result }
    ensures memory { refusal ≡ Refusal.Memory → result ≡ memory }
    ensures other { refusal ≢ Refusal.Memory → result ≡ store_failed }
{
    match refusal {
        Refusal::Memory => RunFault::Refused(Refusal::Memory),
        _ => RunFault::Refused(Refusal::Store),
    }
}

/// Why a message isn't kept by a sink that is open.
fn sink_failure(error: SinkError) -> RunFault
    ensures failure { IsFailure result }
    ensures memory { error ≡ SinkError.Memory → result ≡ memory }
    ensures other { error ≢ SinkError.Memory → result ≡ RunFault.Stream }
{
    match error {
        SinkError::Memory => RunFault::Refused(Refusal::Memory),
        _ => RunFault::Stream,
    }
}

/// Moves the first messages of the folder, of a user who has an account, until that many have moved or none is left. Returns
/// how many moved. Errors are those of `move_first`.
fn move_all<S: Alter, T: MailSink>(
    store: &mut Store<S>,
    user: &[u8],
    folder: &[u8],
    most: u64,
    sink: &mut T,
) -> Result<u64, RunFault>
    ensures moves { MovesAll user.now folder.now (sink_mails T.tells (T.kept sink.old) (T.kept sink.new)) most result
        (state S.Store store.old) (state S.Store store.new) }
    ensures stays { (path : List ℕ) → T.is_at sink.old path → T.is_at sink.new path }
    ensures fault { IfErr result (IsSudden (IsUnkept (HasRefused T.refuses))) }
{
    for moved in 0..most {
        if !move_first(store, user, folder, sink)? {
            return Ok(moved);
        }
    }
    Ok(most)
}

/// Moves messages of the user's folder into the sink, the first ones first, until that many have moved or none is left. Returns
/// how many moved. Time is in proportion to the messages that move, memory to the largest of them.
///
/// # Errors
///
/// `NoUser` if there is no open account of the name; nothing has moved then. `Memory`, `Store`, and `Stream` if the sink failed,
/// may come at any message: those that moved before stay in the sink, and the next one may be there though it is in the folder
/// still.
fn drain<S: Alter, T: MailSink>(
    store: &mut Store<S>,
    user: &[u8],
    folder: &[u8],
    most: u64,
    sink: &mut T,
) -> Result<u64, RunFault>
    ensures moves { Drains user.now folder.now (sink_mails T.tells (T.kept sink.old) (T.kept sink.new)) most result
        (state S.Store store.old) (state S.Store store.new) }
    ensures stays { (path : List ℕ) → T.is_at sink.old path → T.is_at sink.new path }
    ensures fault { IfErr result (λ fault. IsSudden (IsUnkept (HasRefused T.refuses)) fault ⊎ (fault ≡ no_user)) }
{
    let _ = store.enter(user)?;
    move_all(store, user, folder, most, sink)
}
