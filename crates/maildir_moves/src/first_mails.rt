//! The first messages of a folder.
ghost use Rattle.std.specs.Prelude.{◌≤◌, length, IfOk};
ghost use Rattle.sqlite.specs.Held.{state};
ghost use Rattle.store_engine.specs.Takings.{max_together};
ghost use Rattle.maildir_moves.specs.Enduring.{OnlyReads};
ghost use Rattle.maildir_moves.specs.Steps.{IsSmall, WereFolderFront};

use octets::List;
use sqlite::Alter;
use std::alloc::Global;
use store_accounts::{NumberedMessage, Refusal, Store};

/// How many messages move together at most: so many leave a store in one transaction.
const MAX_MAILS: u8 = 64;

/// With how many octets of messages a batch is full: it is read, and held, as a whole.
const FULL: usize = 1_048_576;

/// The first messages of a user's folder, in order: at most 64, of which all but the last have less than 1 MiB together; none if the
/// folder is absent. The copies before a message are passed over. Memory is in proportion to the messages.
///
/// # Errors
///
/// [`Refusal::NoUser`]; [`Refusal::Memory`] and [`Refusal::Store`] may come at any point.
pub fn first_mails<S: Alter>(
    store: &mut Store<S>,
    alloc: Global,
    user: &[u8],
    folder: &[u8],
) -> Result<List<NumberedMessage>, Refusal>
    ensures reads { OnlyReads (state S.Store store.old) (state S.Store store.new) }
    ensures few { IfOk result (λ mails. length mails ≤ max_together) }
    ensures small { IfOk result IsSmall }
    ensures front { IfOk result (λ mails.
        WereFolderFront user.now folder.now mails (state S.Store store.old) (state S.Store store.new)) }
{
    let _ = store.enter(user)?;
    let mut mails = List::new(alloc);
    let mut octets: usize = 0;
    for count in 0..MAX_MAILS {
        let Some(mail) = store.nth_numbered_of(user, folder, count as i64)? else {
            return Ok(mails);
        };
        octets = octets.saturating_add(mail.message.len());
        mails.push(mail)?;
        if octets >= FULL {
            return Ok(mails);
        }
    }
    Ok(mails)
}
