//! A user's messages on their way out.
ghost use Rattle.std.specs.Prelude.{◌≡◌, false, pos, IfOk, IfErr, option_copied};
ghost use Rattle.sqlite_value.specs.declared.value.Value.TheVariants.{Int};
ghost use Rattle.sqlite_value.specs.Order.{column};
ghost use Rattle.sqlite.specs.Held.{state};
ghost use Rattle.store_accounts.specs.Account.{room_in, row_with, takes_out};
ghost use Rattle.store_tables.specs.Connection.{Queries};
ghost use Rattle.store_accounts.specs.Promises.{FindsUserRows, ReadsOpenAccount, ReadsEntered, WritesUser};
ghost use Rattle.store_accounts.specs.QueueRows.{AreFirstIds, HasOutgoingRow, IsOutgoing};
ghost use Rattle.store_tables.specs.QueueTable.{kind_number};
ghost use Rattle.store_accounts.specs.Refusals.{IsTransient};

use crate::cell::{number, text_at};
use crate::refusal::Refusal;
use crate::row::{FromRow, first_from_row, read_each};
use crate::store::Store;
use octets::{List, Octets};
use sqlite::{Alter, Connection, Error, Row, params};
use std::alloc::{AllocError, Global};
use store_tables::{Change, QueuedKind, query};

/// How many rows of a user's queue wait at most.
const MAX_WAITING: u64 = 1_000;

/// A message on its way out.
#[derive(Debug, Drop)]
pub struct QueuedMessage {
    /// The account's own number, from 1 on; it is never used again.
    pub id: u64,
    pub kind: QueuedKind,
    /// The envelope sender; empty for a reply.
    pub sender: Octets,
    pub target: Octets,
    pub message: Octets,
}

impl QueuedMessage {
    /// A copy of the row. Lack of memory is the only error.
    pub fn try_clone(&self, alloc: Global) -> Result<QueuedMessage, AllocError>
        ensures { IfOk result (λ row. row ≡ self.now) }
    {
        Ok(QueuedMessage {
            id: self.id,
            kind: self.kind,
            sender: self.sender.try_clone(alloc)?,
            target: self.target.try_clone(alloc)?,
            message: self.message.try_clone(alloc)?,
        })
    }
}

/// The row with the number, if there is one.
fn row_in(rows: &[QueuedMessage], id: u64) -> Option<&QueuedMessage>
    ensures { option_copied result ≡ row_with id rows.now }
{
    rows.iter().find(|row| row.id == id)
}

/// A copy of the row, if there is one.
fn cloned(alloc: Global, row: Option<&QueuedMessage>) -> Result<Option<QueuedMessage>, Refusal>
    ensures same { IfOk result (λ copy. copy ≡ option_copied row.entry) }
    ensures named { IfErr result IsTransient }
{
    match row {
        Some(row) => Ok(Some(row.try_clone(alloc)?)),
        None => Ok(None),
    }
}

/// The message of the user's queue with the number.
fn find_outgoing<S: Alter>(
    conn: &mut Connection<S>,
    owner: &[u8],
    id: &i64,
) -> Result<Vec<Row>, Error>
    requires { conn.old.in_transaction ≡ false }
    ensures { Queries S.Store (FindsUserRows owner.now (HasOutgoingRow id.now)) conn.old conn.new result }
{
    query(
        conn,
        "SELECT id, kind, sender, target, message FROM outgoing WHERE owner = ?1 AND id = ?2",
        params![owner, id],
    )
}

/// The kind whose number is in the cell; another number is refused.
pub(crate) fn kind_at(row: &Row, at: usize) -> Result<QueuedKind, Refusal>
    ensures ok { IfOk result (λ kind. column row.now at ≡ Int (pos (kind_number kind))) }
    ensures named { IfErr result IsTransient }
{
    let number: i64 = row.get(at)?;
    if number == 1 {
        return Ok(QueuedKind::Redirect);
    }
    if number == 2 {
        return Ok(QueuedKind::Reply);
    }
    Err(Refusal::Store)
}

impl FromRow for QueuedMessage {
    ghost use Rattle.store_accounts.specs.FirstCells.{first_five};
    ghost use Rattle.store_accounts.specs.QueueRows.{outgoing_cells};

    ghost cells_of = { first_five };

    ghost shows = { outgoing_cells };

    fn from_row(row: &Row) -> Result<QueuedMessage, Refusal> {
        Ok(QueuedMessage {
            id: row.get(0)?,
            kind: kind_at(row, 1)?,
            sender: text_at(row, 2)?,
            target: text_at(row, 3)?,
            message: text_at(row, 4)?,
        })
    }
}

impl<S: Alter> Store<S> {
    /// The user's messages on their way out, in the order of their numbers. All are in memory at once.
    pub fn queue(&mut self, user: &[u8]) -> Result<List<QueuedMessage>, Refusal>
        ensures { ReadsOpenAccount user.now (λ queue a. queue ≡ a.queue) (state S.Store self.old) (state S.Store self.new) result }
    {
        self.enter(user)?;
        self.queue_of(user)
    }

    /// The same of an account that was entered.
    fn queue_of(&mut self, user: &[u8]) -> Result<List<QueuedMessage>, Refusal>
        ensures { ReadsEntered user.now (λ queue a. queue ≡ a.queue) (state S.Store self.old) (state S.Store self.new) result }
    {
        read_each(
            self.alloc,
            &mut self.conn,
            "SELECT id, kind, sender, target, message FROM outgoing WHERE owner = ?1 ORDER BY id",
            params![user],
        )
    }

    /// How many more rows may join the user's queue until it has 1,000, of an account that was entered. The numbers of 1,000 rows are
    /// read at most, and no message.
    pub fn room_of(&mut self, user: &[u8]) -> Result<u64, Refusal>
        ensures { ReadsEntered user.now (λ room a. room ≡ room_in a) (state S.Store self.old) (state S.Store self.new) result }
    {
        let waiting = self.first_ids_of(user)?;
        Ok(MAX_WAITING.saturating_sub(waiting.as_slice().len() as u64))
    }

    /// The first numbers of the user's queue, 1,000 at most, of an account that was entered.
    fn first_ids_of(&mut self, user: &[u8]) -> Result<List<u64>, Refusal>
        ensures { ReadsEntered user.now AreFirstIds (state S.Store self.old) (state S.Store self.new) result }
    {
        read_each(
            self.alloc,
            &mut self.conn,
            "SELECT id FROM outgoing WHERE owner = ?1 ORDER BY id LIMIT 1000",
            params![user],
        )
    }

    /// The message on its way out with the number; none where no row of the queue has it. No other row is read.
    pub fn outgoing(&mut self, user: &[u8], id: u64) -> Result<Option<QueuedMessage>, Refusal>
        ensures { ReadsOpenAccount user.now (λ row a. row ≡ row_with id a.queue) (state S.Store self.old) (state S.Store self.new) result }
    {
        self.enter(user)?;
        self.outgoing_of(user, id)
    }

    /// The same of an account that was entered.
    pub fn outgoing_of(&mut self, user: &[u8], id: u64) -> Result<Option<QueuedMessage>, Refusal>
        ensures { ReadsEntered user.now (λ row a. row ≡ row_with id a.queue) (state S.Store self.old) (state S.Store self.new) result }
    {
        match i64::try_from(id) {
            Ok(id) => self.outgoing_at(user, id),
            // The database has no such number, which its contracts don't say: all rows are looked at.
            Err(_) => self.outgoing_among(user, id),
        }
    }

    /// The message with the number, found by its key.
    fn outgoing_at(&mut self, user: &[u8], id: i64) -> Result<Option<QueuedMessage>, Refusal>
        ensures { ReadsEntered user.now (IsOutgoing id) (state S.Store self.old) (state S.Store self.new) result }
    {
        let rows = find_outgoing(&mut self.conn, user, &id)?;
        first_from_row(&rows)
    }

    /// The message with the number, found among all of the queue.
    fn outgoing_among(&mut self, user: &[u8], id: u64) -> Result<Option<QueuedMessage>, Refusal>
        ensures { ReadsEntered user.now (λ row a. row ≡ row_with id a.queue) (state S.Store self.old) (state S.Store self.new) result }
    {
        let queue = self.queue_of(user)?;
        cloned(self.alloc, row_in(queue.as_slice(), id))
    }

    /// The row with the number leaves the queue; the number is not used again. That a row has the number is for the
    /// caller to see: without one nothing changes.
    pub fn take_out(&mut self, user: &[u8], id: u64) -> Result<(), Refusal>
        ensures { WritesUser user.now (takes_out id) (state S.Store self.old) (state S.Store self.new) result }
    {
        let id = number(id)?;
        self.apply(&[Change::RemoveOutgoing { owner: user, id }])
    }
}
