//! A user's folders.
ghost use Rattle.std.specs.Prelude.{◌≡◌, ℕ, false, OnOk, List, map, option_map, slice_get, IfOk, IfErr};
ghost use Rattle.sqlite.specs.Held.{state};
ghost use Rattle.store_accounts.specs.CopyRows.{AreMessagesOf, IsMessageAt, IsNthMessage};
ghost use Rattle.store_accounts.specs.Promises.{FindsUserRows, ReadsOpenAccount, ReadsEntered};
ghost use Rattle.store_tables.specs.Connection.{Queries};
ghost use Rattle.store_accounts.specs.Tally.{AreFolderRows, tallied, AreFolders, counted};
ghost use Rattle.store_accounts.specs.Refusals.{IsTransient};
ghost use Rattle.sqlite_value.specs.declared.value.Value.TheVariants.{Blob};
ghost use Rattle.sqlite_value.specs.Order.{column};

use crate::cell::text_at;
use crate::refusal::Refusal;
use crate::row::read_each;
use crate::store::Store;
use crate::taking::NumberedMessage;
use octets::{List, Octets, Texts};
use sqlite::{Alter, Connection, Error, Row, params};
use std::alloc::Global;
use store_tables::query;

/// A folder and the number of its messages.
#[derive(Debug, Drop)]
pub struct Folder {
    pub name: Octets,
    pub count: u64,
}

/// The folder of each copy, in the order of their octets.
fn find_folders<S: Alter>(conn: &mut Connection<S>, owner: &[u8]) -> Result<Vec<Row>, Error>
    requires { conn.old.in_transaction ≡ false }
    ensures { Queries S.Store (FindsUserRows owner.now AreFolderRows) conn.old conn.new result }
{
    query(
        conn,
        "SELECT folder FROM copy WHERE owner = ?1 ORDER BY folder",
        params![owner],
    )
}

/// Adds one message to the count of the last folder, if it has the name, else to that of a new one.
/// After a refusal the folders may lack their last one.
fn count(folders: &mut Vec<Folder>, name: Octets) -> Result<(), Refusal>
    ensures counted { OnOk result (folders.new.items ≡ counted folders.old.items name) }
    ensures named { IfErr result IsTransient }
{
    let Some(last) = folders.pop() else {
        folders.push(Folder { name, count: 1 })?;
        return Ok(());
    };
    if last.name == name {
        let Some(count) = last.count.checked_add(1) else {
            return Err(Refusal::Store);
        };
        folders.push(Folder { name, count })?;
        return Ok(());
    }
    folders.push(last)?;
    folders.push(Folder { name, count: 1 })?;
    Ok(())
}

/// The folders whose names are in the rows, in order, each with how many times it occurs.
fn tally(alloc: Global, rows: &[Row]) -> Result<List<Folder>, Refusal>
    ensures ok { IfOk result (λ all. (names : List (List ℕ)) → map (λ r. column r 0) rows.now ≡ map (λ n. Blob n) names → all ≡ tallied names) }
    ensures named { IfErr result IsTransient }
{
    let mut all = Vec::new(alloc);
    for row in rows {
        count(&mut all, text_at(row, 0)?)?;
    }
    Ok(List::from_vec(all))
}

/// The message, without the number of its copy and its flags.
fn without_number(numbered: Option<NumberedMessage>) -> Option<Octets>
    ensures { result ≡ option_map (λ m. m.message) numbered }
{
    match numbered {
        Some(
            NumberedMessage {
                number: _,
                message,
                flags: _,
            },
        ) => Some(message),
        None => None,
    }
}

/// A copy of the message after that many, if there is one.
fn cloned_at(alloc: Global, messages: &[Octets], at: u64) -> Result<Option<Octets>, Refusal>
    ensures same { IfOk result (λ copy. copy ≡ slice_get messages.now at) }
    ensures named { IfErr result IsTransient }
{
    match messages.get(at as usize) {
        Some(message) => Ok(Some(message.try_clone(alloc)?)),
        None => Ok(None),
    }
}

impl<S: Alter> Store<S> {
    /// The messages of the folder, in the order in which they came; none if it is absent.
    pub fn folder(&mut self, user: &[u8], folder: &[u8]) -> Result<Texts, Refusal>
        ensures { ReadsOpenAccount user.now (AreMessagesOf folder.now) (state S.Store self.old) (state S.Store self.new) result }
    {
        self.enter(user)?;
        self.folder_of(user, folder)
    }

    /// The same for an account that was entered.
    fn folder_of(&mut self, user: &[u8], folder: &[u8]) -> Result<Texts, Refusal>
        ensures { ReadsEntered user.now (AreMessagesOf folder.now) (state S.Store self.old) (state S.Store self.new) result }
    {
        read_each(
            self.alloc,
            &mut self.conn,
            "SELECT message.bytes FROM copy JOIN message ON message.owner = copy.owner AND message.id = copy.id WHERE copy.owner = ?1 AND copy.folder = ?2 ORDER BY copy.n",
            params![user, folder],
        )
    }

    /// The message of the folder after that many, in the order in which they came; `None` if there are no more. No other
    /// message is read: time is linear in it and in the number of messages before it, memory in it.
    pub fn message_at(
        &mut self,
        user: &[u8],
        folder: &[u8],
        at: u64,
    ) -> Result<Option<Octets>, Refusal>
        ensures { ReadsOpenAccount user.now (IsMessageAt folder.now at) (state S.Store self.old) (state S.Store self.new) result }
    {
        self.enter(user)?;
        self.message_at_of(user, folder, at)
    }

    /// The same for an account that was entered.
    fn message_at_of(
        &mut self,
        user: &[u8],
        folder: &[u8],
        at: u64,
    ) -> Result<Option<Octets>, Refusal>
        ensures { ReadsEntered user.now (IsMessageAt folder.now at) (state S.Store self.old) (state S.Store self.new) result }
    {
        match i64::try_from(at) {
            Ok(count) => self.nth_message_of(user, folder, count),
            // The database can't hold such a number, which its contracts don't say: all messages are looked at.
            Err(_) => self.message_among_of(user, folder, at),
        }
    }

    /// The message after that many, found by the folder's key.
    fn nth_message_of(
        &mut self,
        user: &[u8],
        folder: &[u8],
        count: i64,
    ) -> Result<Option<Octets>, Refusal>
        ensures { ReadsEntered user.now (IsNthMessage folder.now count) (state S.Store self.old) (state S.Store self.new) result }
    {
        let nth = self.nth_numbered_of(user, folder, count)?;
        Ok(without_number(nth))
    }

    /// The message after that many, found among all of the folder's.
    fn message_among_of(
        &mut self,
        user: &[u8],
        folder: &[u8],
        at: u64,
    ) -> Result<Option<Octets>, Refusal>
        ensures { ReadsEntered user.now (IsMessageAt folder.now at) (state S.Store self.old) (state S.Store self.new) result }
    {
        let messages = self.folder_of(user, folder)?;
        cloned_at(self.alloc, messages.as_slice(), at)
    }

    /// The user's folders in the order of the octets of their names, with the number of their
    /// messages. No message is read.
    pub fn folders(&mut self, user: &[u8]) -> Result<List<Folder>, Refusal>
        ensures { ReadsOpenAccount user.now AreFolders (state S.Store self.old) (state S.Store self.new) result }
    {
        self.enter(user)?;
        self.folders_of(user)
    }

    /// The same for an account that was entered.
    pub(crate) fn folders_of(&mut self, user: &[u8]) -> Result<List<Folder>, Refusal>
        ensures { ReadsEntered user.now AreFolders (state S.Store self.old) (state S.Store self.new) result }
    {
        let rows = find_folders(&mut self.conn, user)?;
        tally(self.alloc, &rows)
    }
}
