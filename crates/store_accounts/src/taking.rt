//! The first messages of a folder, and how they are taken out.
ghost use Rattle.std.specs.Prelude.{◌≡◌, ◌==◌, ◌≤◌, IfOk, IfErr};
ghost use Rattle.std.specs.List.{list_any};
ghost use Rattle.sqlite.specs.Held.{state};
ghost use Rattle.store_accounts.specs.Account.{takes_mail};
ghost use Rattle.store_accounts.specs.Delivery.{Pushes};
ghost use Rattle.store_accounts.specs.Taking.{AreTaking, copy_taken, is_filing_of, is_other_beside, IsSharedBeside, AreLeaving, PushesLeaving, SeesAmong};
ghost use Rattle.store_accounts.specs.CopyRows.{IsFirstIn};
ghost use Rattle.store_accounts.specs.Promises.{FindsAmong, ReadsOpenAccount, ReadsEntered, ReadsOwn, WritesAccount};
ghost use Rattle.store_accounts.specs.Refusals.{IsTransient};
ghost use Rattle.store_accounts.specs.Shows.{IsFirstOf, IsNthOf};

use crate::cell::number;
use crate::filing::Filing;
use crate::refusal::Refusal;
use crate::store::Store;
use octets::Octets;
use sqlite::Alter;
use std::alloc::Global;
use store_tables::Change;

/// A message of a folder, with the number of its copy and its flags.
#[derive(Debug, Drop)]
pub struct NumberedMessage {
    /// The number, from 1 on; the account never uses it again.
    pub number: u64,
    /// The octets that were received.
    pub message: Octets,
    /// The text that names the copy's flags (RFC 5232); empty if it has none.
    pub flags: Octets,
}

/// The copy that is to leave a folder.
#[derive(Drop)]
struct Leaving {
    copy: Filing,
    /// Whether there is another copy of its message that doesn't leave before it, so that the message stays.
    is_shared: bool,
}

/// Whether one of those that leave is the copy.
fn has_copy(gone: &[Leaving], copy: &Filing) -> bool
    ensures { result ≡ list_any (λ l. is_filing_of copy.now l.copy) gone.now }
{
    gone.iter()
        .any(|l| l.copy.n == copy.n && l.copy.id == copy.id)
}

/// Whether one of those that leave is a copy of the message.
fn has_message(gone: &[Leaving], id: u64) -> bool
    ensures { result ≡ list_any (λ l. l.copy.id == id) gone.now }
{
    gone.iter().any(|l| l.copy.id == id)
}

/// Whether one of these is another copy of the same message, and not of those that leave.
fn has_other_beside(all: &[Filing], copy: &Filing, gone: &[Leaving]) -> bool
    ensures { result ≡ list_any (is_other_beside copy.now gone.now) all.now }
{
    all.iter()
        .any(|f| f.id == copy.id && f.n != copy.n && !has_copy(gone, f))
}

/// The changes that take a copy out of the user's folder, and its message if it was the last copy of it.
fn push_taking<'a>(
    changes: &mut Vec<Change<'a>>,
    user: &'a [u8],
    folder: &'a [u8],
    leaving: &Leaving,
) -> Result<(), Refusal>
    ensures taking { Pushes user.now (copy_taken user.now folder.now leaving.now) changes.old.items changes.new.items result }
    ensures named { IfErr result IsTransient }
{
    let n = number(leaving.copy.n)?;
    changes.push(Change::RemoveCopy {
        owner: user,
        folder,
        n,
    })?;
    if leaving.is_shared {
        return Ok(());
    }
    let id = number(leaving.copy.id)?;
    changes.push(Change::RemoveMessage { owner: user, id })?;
    Ok(())
}

/// The changes that take the copies out of the user's folder, one after the other.
fn taking_changes<'a>(
    alloc: Global,
    user: &'a [u8],
    folder: &'a [u8],
    leaving: &[Leaving],
) -> Result<Vec<Change<'a>>, Refusal>
    ensures taking { IfOk result (λ changes. AreTaking user.now folder.now leaving.now changes.items) }
    ensures named { IfErr result IsTransient }
{
    let mut changes = Vec::new(alloc);
    for one in leaving {
        push_taking(&mut changes, user, folder, one)?;
    }
    Ok(changes)
}

impl<S: Alter> Store<S> {
    /// The folder's message after that many with the number of its copy and its flags, as in the user's rows; `None` if there
    /// are no more. For an account that was entered. The copies before it are passed over; memory is in proportion to the
    /// message.
    pub fn nth_numbered_of(
        &mut self,
        user: &[u8],
        folder: &[u8],
        count: i64,
    ) -> Result<Option<NumberedMessage>, Refusal>
        ensures finds { FindsAmong user.now (IsNthOf user.now folder.now count) (state S.Store self.old) (state S.Store self.new) result }
        ensures named { IfErr result IsTransient }
    {
        let Some(filing) = self.nth_filing_of(user, folder, count)? else {
            return Ok(None);
        };
        let message = self.message_of(user, filing.id)?;
        Ok(Some(NumberedMessage {
            number: filing.n,
            message,
            flags: filing.flags,
        }))
    }

    /// The first message of the folder, the one that came first, with the number of its copy and its flags; `None` if the
    /// folder is absent. No other message and no other copy is read; memory is in proportion to it.
    pub fn first_message(
        &mut self,
        user: &[u8],
        folder: &[u8],
    ) -> Result<Option<NumberedMessage>, Refusal>
        ensures first { ReadsOpenAccount user.now (IsFirstIn folder.now) (state S.Store self.old) (state S.Store self.new) result }
        ensures numbered { ReadsOwn user.now (IsFirstOf user.now folder.now) (state S.Store self.old) (state S.Store self.new) result }
    {
        self.enter(user)?;
        self.nth_numbered_of(user, folder, 0)
    }

    /// The same for an account that was entered.
    pub fn first_message_of(
        &mut self,
        user: &[u8],
        folder: &[u8],
    ) -> Result<Option<NumberedMessage>, Refusal>
        ensures first { ReadsEntered user.now (IsFirstIn folder.now) (state S.Store self.old) (state S.Store self.new) result }
        ensures numbered { FindsAmong user.now (IsFirstOf user.now folder.now) (state S.Store self.old) (state S.Store self.new) result }
    {
        self.nth_numbered_of(user, folder, 0)
    }

    /// Whether there is another copy of the same message that is none of those that leave, for an account that was entered. At
    /// most one copy is read; all of the user's, and no message, if another copy of the message is among those that leave.
    fn is_shared_beside(
        &mut self,
        user: &[u8],
        copy: &Filing,
        gone: &[Leaving],
    ) -> Result<bool, Refusal>
        ensures finds { FindsAmong user.now (IsSharedBeside user.now copy.now gone.now) (state S.Store self.old) (state S.Store self.new) result }
        ensures named { IfErr result IsTransient }
    {
        let is_shared = self.has_other_copy(user, copy)?;
        if !is_shared {
            return Ok(false);
        }
        if !has_message(gone, copy.id) {
            return Ok(true);
        }
        let all = self.filings_of(user)?;
        Ok(has_other_beside(all.as_slice(), copy, gone))
    }

    /// The folder's copy after that many joins those that leave, if there is one. For an account that was entered.
    fn push_leaving(
        &mut self,
        leaving: &mut Vec<Leaving>,
        user: &[u8],
        folder: &[u8],
        at: u8,
    ) -> Result<(), Refusal>
        ensures finds { PushesLeaving user.now folder.now at leaving.old.items leaving.new.items (state S.Store self.old) (state S.Store self.new) result }
        ensures named { IfErr result IsTransient }
    {
        let Some(copy) = self.nth_filing_of(user, folder, at as i64)? else {
            return Ok(());
        };
        let is_shared = self.is_shared_beside(user, &copy, leaving)?;
        leaving.push(Leaving { copy, is_shared })?;
        Ok(())
    }

    /// The folder's first copies, up to that many, as they leave one after the other. For an account that was entered.
    fn leaving_of(&mut self, user: &[u8], folder: &[u8], count: u8) -> Result<Vec<Leaving>, Refusal>
        ensures sees { SeesAmong user.now (λ leaving. AreLeaving user.now folder.now count leaving.items) (state S.Store self.old) (state S.Store self.new) result }
        ensures named { IfErr result IsTransient }
    {
        let mut leaving = Vec::new(self.alloc);
        for at in 0..count {
            self.push_leaving(&mut leaving, user, folder, at)?;
        }
        Ok(leaving)
    }

    /// Takes the first `count` messages out of the folder of a user whose account was entered, in one transaction: removes
    /// their copies, each message's row with the last copy of it, and with its last message the folder. The numbers are not
    /// used again. The caller has to see to it that the folder has as many messages: of one with fewer all are taken. The
    /// copies are found by their key, and no message and no copy but another one of the same message is read.
    ///
    /// # Errors
    ///
    /// `Memory`, `Store`.
    pub fn take_mails(&mut self, user: &[u8], folder: &[u8], count: u8) -> Result<(), Refusal>
        requires { 1 ≤ count }
        ensures writes { WritesAccount user.now (takes_mail folder.now count) (state S.Store self.old) (state S.Store self.new) result }
        ensures named { IfErr result IsTransient }
    {
        let leaving = self.leaving_of(user, folder, count)?;
        let changes = taking_changes(self.alloc, user, folder, &leaving)?;
        self.apply(&changes)
    }

    /// The same of the first message alone.
    ///
    /// # Errors
    ///
    /// `Memory`, `Store`.
    pub fn take_mail(&mut self, user: &[u8], folder: &[u8]) -> Result<(), Refusal>
        ensures writes { WritesAccount user.now (takes_mail folder.now 1) (state S.Store self.old) (state S.Store self.new) result }
        ensures named { IfErr result IsTransient }
    {
        self.take_mails(user, folder, 1)
    }
}
