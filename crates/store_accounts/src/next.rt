//! The next message or row over all users, for moving mail on or sending it. No message is read.
ghost use Rattle.std.specs.Prelude.{◌≡◌, ◌≤◌, ◌^◌, false, Err, IfErr};
ghost use Rattle.sqlite.specs.Held.{state};
ghost use Rattle.store_tables.specs.Connection.{Queries};
ghost use Rattle.store_accounts.specs.Next.{FindsAll, IsNextFiled, IsNextQueued, LeastFiled, LeastQueued, ShowFiled, ShowQueued};
ghost use Rattle.store_accounts.specs.Next.{IsLaterInFolder, IsLaterOfUser, IsLaterFolder, IsLaterOwner, IsLaterId, IsLaterQueue, ShowLaterNumber, ShowLaterId};
ghost use Rattle.store_accounts.specs.Refusals.{IsTransient};

use crate::cell::{number, text_at};
use crate::refusal::Refusal;
use crate::row::{FromRow, first_from_row};
use crate::store::Store;
use octets::Octets;
use sqlite::{Alter, Connection, Error, Row, params};
use store_tables::query;

/// The place of a message.
#[derive(Debug, Drop)]
pub struct CopyKey {
    pub user: Octets,
    pub folder: Octets,
    /// The number of its copy in the account.
    pub number: u64,
}

/// The place of a row in a queue.
#[derive(Debug, Drop)]
pub struct QueueKey {
    pub user: Octets,
    /// The row's number in the account.
    pub id: u64,
}

/// The first copy of the folder with a higher number.
fn find_later_number<S: Alter>(
    conn: &mut Connection<S>,
    owner: &[u8],
    folder: &[u8],
    n: &i64,
) -> Result<Vec<Row>, Error>
    requires { conn.old.in_transaction ≡ false }
    ensures { Queries S.Store (FindsAll (λ rows. ShowLaterNumber owner.now folder.now n.now rows.items)) conn.old conn.new result }
{
    query(
        conn,
        "SELECT owner, folder, n FROM copy WHERE owner = ?1 AND folder = ?2 AND n > ?3 ORDER BY owner, folder, n LIMIT 1",
        params![owner, folder, n],
    )
}

/// The first copy in a later folder of the user.
fn find_later_folder<S: Alter>(
    conn: &mut Connection<S>,
    owner: &[u8],
    folder: &[u8],
) -> Result<Vec<Row>, Error>
    requires { conn.old.in_transaction ≡ false }
    ensures { Queries S.Store (FindsAll (λ rows. ShowFiled (IsLaterFolder owner.now folder.now) rows.items)) conn.old conn.new result }
{
    query(
        conn,
        "SELECT owner, folder, n FROM copy WHERE owner = ?1 AND folder > ?2 ORDER BY owner, folder, n LIMIT 1",
        params![owner, folder],
    )
}

/// The first copy of a later user.
fn find_later_owner<S: Alter>(conn: &mut Connection<S>, owner: &[u8]) -> Result<Vec<Row>, Error>
    requires { conn.old.in_transaction ≡ false }
    ensures { Queries S.Store (FindsAll (λ rows. ShowFiled (IsLaterOwner owner.now) rows.items)) conn.old conn.new result }
{
    query(
        conn,
        "SELECT owner, folder, n FROM copy WHERE owner > ?1 ORDER BY owner, folder, n LIMIT 1",
        params![owner],
    )
}

/// The first row of the user's queue with a higher number.
fn find_later_id<S: Alter>(
    conn: &mut Connection<S>,
    owner: &[u8],
    id: &i64,
) -> Result<Vec<Row>, Error>
    requires { conn.old.in_transaction ≡ false }
    ensures { Queries S.Store (FindsAll (λ rows. ShowLaterId owner.now id.now rows.items)) conn.old conn.new result }
{
    query(
        conn,
        "SELECT owner, id FROM outgoing WHERE owner = ?1 AND id > ?2 ORDER BY owner, id LIMIT 1",
        params![owner, id],
    )
}

/// The first row of the queue of a later user.
fn find_later_queue<S: Alter>(conn: &mut Connection<S>, owner: &[u8]) -> Result<Vec<Row>, Error>
    requires { conn.old.in_transaction ≡ false }
    ensures { Queries S.Store (FindsAll (λ rows. ShowQueued (IsLaterQueue owner.now) rows.items)) conn.old conn.new result }
{
    query(
        conn,
        "SELECT owner, id FROM outgoing WHERE owner > ?1 ORDER BY owner, id LIMIT 1",
        params![owner],
    )
}

impl FromRow for CopyKey {
    ghost use Rattle.store_accounts.specs.FirstCells.{first_three};
    ghost use Rattle.store_accounts.specs.Next.{filed_cells};

    ghost cells_of = { first_three };

    ghost shows = { filed_cells };

    fn from_row(row: &Row) -> Result<CopyKey, Refusal> {
        Ok(CopyKey {
            user: text_at(row, 0)?,
            folder: text_at(row, 1)?,
            number: row.get(2)?,
        })
    }
}

impl FromRow for QueueKey {
    ghost use Rattle.store_accounts.specs.FirstCells.{first_two};
    ghost use Rattle.store_accounts.specs.Next.{queue_key_cells};

    ghost cells_of = { first_two };

    ghost shows = { queue_key_cells };

    fn from_row(row: &Row) -> Result<QueueKey, Refusal> {
        Ok(QueueKey {
            user: text_at(row, 0)?,
            id: row.get(1)?,
        })
    }
}

impl<S: Alter> Store<S> {
    /// The first message after this place, in the order of the octets of the users, the octets of the folders and the numbers,
    /// whether or not there is a message at the place. No message is read: at most three rows are found by their keys.
    ///
    /// # Errors
    ///
    /// `Memory`, and `Store`: always for a number from 2^63 on, which the database can't hold (`past`).
    pub fn next_filed(&mut self, start: &CopyKey) -> Result<Option<CopyKey>, Refusal>
        ensures next { FindsAll (IsNextFiled start.now) (state S.Store self.old) (state S.Store self.new) result }
        ensures named { IfErr result IsTransient }
        ensures past { 2 ^ 63 ≤ start.now.number → result ≡ Err Refusal.Store }
    {
        match self.later_filed(start)? {
            Some(filed) => Ok(Some(filed)),
            None => self.filed_of_later(start.user.as_slice()),
        }
    }

    /// The first row of a queue after this one, in the order of the octets of the users and the numbers, whether or not
    /// this one is there. No message is read: at most two rows are found by their keys.
    ///
    /// # Errors
    ///
    /// `Memory`, and `Store`: always for a number from 2^63 on, which the database can't hold (`past`).
    pub fn next_queued(&mut self, start: &QueueKey) -> Result<Option<QueueKey>, Refusal>
        ensures next { FindsAll (IsNextQueued start.now) (state S.Store self.old) (state S.Store self.new) result }
        ensures named { IfErr result IsTransient }
        ensures past { 2 ^ 63 ≤ start.now.id → result ≡ Err Refusal.Store }
    {
        match self.later_queued(start)? {
            Some(queued) => Ok(Some(queued)),
            None => self.queued_of_later(start.user.as_slice()),
        }
    }

    /// The first message of the same user after this place.
    fn later_filed(&mut self, start: &CopyKey) -> Result<Option<CopyKey>, Refusal>
        ensures finds { FindsAll (LeastFiled (IsLaterOfUser start.now)) (state S.Store self.old) (state S.Store self.new) result }
        ensures named { IfErr result IsTransient }
        ensures past { 2 ^ 63 ≤ start.now.number → result ≡ Err Refusal.Store }
    {
        match self.filed_in_same(start)? {
            Some(filed) => Ok(Some(filed)),
            None => self.filed_in_later(start.user.as_slice(), start.folder.as_slice()),
        }
    }

    /// The first message of the same folder after this place.
    fn filed_in_same(&mut self, start: &CopyKey) -> Result<Option<CopyKey>, Refusal>
        ensures finds { FindsAll (LeastFiled (IsLaterInFolder start.now)) (state S.Store self.old) (state S.Store self.new) result }
        ensures named { IfErr result IsTransient }
        ensures past { 2 ^ 63 ≤ start.now.number → result ≡ Err Refusal.Store }
    {
        let n = number(start.number)?;
        let rows = find_later_number(
            &mut self.conn,
            start.user.as_slice(),
            start.folder.as_slice(),
            &n,
        )?;
        first_from_row(&rows)
    }

    /// The first message in a later folder of the user.
    fn filed_in_later(&mut self, user: &[u8], folder: &[u8]) -> Result<Option<CopyKey>, Refusal>
        ensures finds { FindsAll (LeastFiled (IsLaterFolder user.now folder.now)) (state S.Store self.old) (state S.Store self.new) result }
        ensures named { IfErr result IsTransient }
    {
        let rows = find_later_folder(&mut self.conn, user, folder)?;
        first_from_row(&rows)
    }

    /// The first message of a later user.
    fn filed_of_later(&mut self, user: &[u8]) -> Result<Option<CopyKey>, Refusal>
        ensures finds { FindsAll (LeastFiled (IsLaterOwner user.now)) (state S.Store self.old) (state S.Store self.new) result }
        ensures named { IfErr result IsTransient }
    {
        let rows = find_later_owner(&mut self.conn, user)?;
        first_from_row(&rows)
    }

    /// The first row of the same queue after this one.
    fn later_queued(&mut self, start: &QueueKey) -> Result<Option<QueueKey>, Refusal>
        ensures finds { FindsAll (LeastQueued (IsLaterId start.now.user start.now.id)) (state S.Store self.old) (state S.Store self.new) result }
        ensures named { IfErr result IsTransient }
        ensures past { 2 ^ 63 ≤ start.now.id → result ≡ Err Refusal.Store }
    {
        let id = number(start.id)?;
        let rows = find_later_id(&mut self.conn, start.user.as_slice(), &id)?;
        first_from_row(&rows)
    }

    /// The first row of the queue of a later user.
    fn queued_of_later(&mut self, user: &[u8]) -> Result<Option<QueueKey>, Refusal>
        ensures finds { FindsAll (LeastQueued (IsLaterQueue user.now)) (state S.Store self.old) (state S.Store self.new) result }
        ensures named { IfErr result IsTransient }
    {
        let rows = find_later_queue(&mut self.conn, user)?;
        first_from_row(&rows)
    }
}
