//! Takes rows out of the queue, and messages out of folders.
ghost use Rattle.std.specs.Prelude.{◌≡◌, ◌≤◌, ◌⊎◌, ◌↔◌, IsTrue, OnOk, IfErr};
ghost use Rattle.sqlite.specs.Held.{state};
ghost use Rattle.sqlite.specs.State.{HasCleanDisk};
ghost use Rattle.store_engine.specs.Hosts.{ActsTaking, ActsMailTaking, RefusesTaking};
ghost use Rattle.store_engine.specs.Takings.{max_together, ActsMailTakings, CountsFirst, TakesLongestRun};
ghost use Rattle.store_accounts.specs.Connection.{IsSettled};

use crate::account::{first_message, outgoing, profile};
use sqlite::Alter;
use store_accounts::{NumberedMessage, QueuedMessage, Refusal, Store};

/// Takes a row out of the user's queue and returns it, in one transaction, which is the last step. The number isn't used
/// again.
///
/// Only the row with the number is read. Memory is in proportion to it.
///
/// # Errors
///
/// In this order: [`Refusal::NoUser`], and [`Refusal::NoRow`] if no row has the number. [`Refusal::Memory`] and
/// [`Refusal::Store`] may come at any point. The store then stays as it was.
pub fn take_out<S: Alter>(
    store: &mut Store<S>,
    user: &[u8],
    id: u64,
) -> Result<QueuedMessage, Refusal>
    ensures acts { ActsTaking user.now id (state S.Store store.old) (state S.Store store.new) result }
    ensures settled { HasCleanDisk (state S.Store store.new) → OnOk result (IsSettled (state S.Store store.new)) }
    ensures named { IfErr result RefusesTaking }
{
    let Some(row) = outgoing(store, user, id)? else {
        return Err(Refusal::NoRow);
    };
    store.take_out(user, id)?;
    Ok(row)
}

/// Takes the first message out of the user's folder, in one transaction, which is the last step. The folder disappears with its
/// last message. The message's number isn't used again.
///
/// Only this message is read: memory is in proportion to it.
///
/// # Errors
///
/// In this order: [`Refusal::NoUser`], and [`Refusal::NoRow`] if the folder has no message. [`Refusal::Memory`] and
/// [`Refusal::Store`] may come at any point. The store then stays as it was.
pub fn take_mail<S: Alter>(store: &mut Store<S>, user: &[u8], folder: &[u8]) -> Result<(), Refusal>
    ensures acts { ActsMailTaking user.now folder.now (state S.Store store.old) (state S.Store store.new) result }
    ensures settled { HasCleanDisk (state S.Store store.new) → OnOk result (IsSettled (state S.Store store.new)) }
    ensures named { IfErr result RefusesTaking }
{
    let first = first_message(store, user, folder)?;
    let Some(_message) = first else {
        return Err(Refusal::NoRow);
    };
    store.take_mail(user, folder)
}

/// How many of that many messages may leave together.
fn together(count: usize) -> u8
    ensures few { result ≤ max_together }
    ensures within { result ≤ count }
    ensures most { (result ≡ count) ⊎ (result ≡ max_together) }
{
    if count < 64 { count as u8 } else { 64 }
}

/// Whether it is the same message, by its number, octets and flags.
fn is_same(there: &Option<NumberedMessage>, mail: &NumberedMessage) -> bool
    ensures { IsTrue result ↔ (there.now ≡ Some mail.now) }
{
    match there {
        Some(there) => {
            there.number == mail.number
                && there.message == mail.message
                && there.flags == mail.flags
        }
        None => false,
    }
}

/// How many of the folder's first messages are, in order, the first of these; at most 64 are read.
fn count_same<S: Alter>(
    store: &mut Store<S>,
    user: &[u8],
    folder: &[u8],
    mails: &[NumberedMessage],
) -> Result<u8, Refusal>
    ensures { CountsFirst user.now folder.now mails.now (state S.Store store.old) (state S.Store store.new) result }
{
    let _ = profile(store, user)?;
    let most = together(mails.len());
    for at in 0..most {
        let there = store.nth_numbered_of(user, folder, at as i64)?;
        if !is_same(&there, &mails[at as usize]) {
            return Ok(at);
        }
    }
    Ok(most)
}

/// Takes the first of these messages out of the user's folder together, in one transaction, which is the last step, and returns
/// how many, at least 1: the longest run of the folder's first messages that are, in order, the first of `mails`, and at most
/// 64 of them. They are compared by their numbers, octets and flags, since after they were read somebody else may have taken
/// mail out, or have removed the account and imported it again. The folder disappears with its last message. The messages'
/// numbers aren't used again.
///
/// One message more than these is read, one after the other: memory is in proportion to the longest.
///
/// # Errors
///
/// In this order: [`Refusal::NoUser`], and [`Refusal::NoRow`] if the folder's first message isn't the first of these, or if
/// there is none of the one or the other. [`Refusal::Memory`] and [`Refusal::Store`] may come at any point. The store then
/// stays as it was.
pub fn take_mails<S: Alter>(
    store: &mut Store<S>,
    user: &[u8],
    folder: &[u8],
    mails: &[NumberedMessage],
) -> Result<u64, Refusal>
    ensures acts { ActsMailTakings user.now folder.now mails.now (state S.Store store.old) (state S.Store store.new) result }
    ensures numbered { TakesLongestRun user.now folder.now mails.now (state S.Store store.old) (state S.Store store.new) result }
    ensures settled { HasCleanDisk (state S.Store store.new) → OnOk result (IsSettled (state S.Store store.new)) }
    ensures named { IfErr result RefusesTaking }
{
    let count = count_same(store, user, folder, mails)?;
    if count == 0 {
        return Err(Refusal::NoRow);
    }
    store.take_mails(user, folder, count)?;
    Ok(u64::from(count))
}
