//! The copies of messages in folders: one by its position, and another one of the same message.
ghost use Rattle.std.specs.Prelude.{◌≡◌, false, IfErr};
ghost use Rattle.sqlite.specs.Held.{state};
ghost use Rattle.store_accounts.specs.Promises.{FindsAmong};
ghost use Rattle.store_tables.specs.Connection.{Queries};
ghost use Rattle.store_accounts.specs.Listing.{AreFilingsOf};
ghost use Rattle.store_accounts.specs.Refusals.{IsTransient};
ghost use Rattle.store_accounts.specs.Shows.{AreNthRows, AreOtherRows, IsNthFiling, IsShared};

use crate::cell::{number, text_at};
use crate::refusal::Refusal;
use crate::row::{FromRow, first_from_row, read_each};
use crate::store::Store;
use octets::{List, Octets};
use sqlite::{Alter, Connection, Error, Row, params};
use store_tables::query;

/// A copy in a folder, without its message.
#[derive(Debug, Drop)]
pub struct Filing {
    /// The folder's name.
    pub folder: Octets,
    /// The copy's own number in the account, from 1 on; it is never used again.
    pub n: u64,
    /// The number of its message.
    pub id: u64,
    /// The text that names its flags (RFC 5232); empty if it has none.
    pub flags: Octets,
}

/// The folder's copy after that many, found by its key.
fn find_nth<S: Alter>(
    conn: &mut Connection<S>,
    owner: &[u8],
    folder: &[u8],
    count: &i64,
) -> Result<Vec<Row>, Error>
    requires { conn.old.in_transaction ≡ false }
    ensures { Queries S.Store (FindsAmong owner.now (λ rows. AreNthRows owner.now folder.now count.now rows.items)) conn.old conn.new result }
{
    query(
        conn,
        "SELECT folder, n, id, flags FROM copy WHERE owner = ?1 AND folder = ?2 ORDER BY n LIMIT 1 OFFSET ?3",
        params![owner, folder, count],
    )
}

/// A copy of the message with the number other than this one, if there is one.
fn find_other<S: Alter>(
    conn: &mut Connection<S>,
    owner: &[u8],
    id: &i64,
    n: &i64,
) -> Result<Vec<Row>, Error>
    requires { conn.old.in_transaction ≡ false }
    ensures { Queries S.Store (FindsAmong owner.now (λ rows. AreOtherRows owner.now id.now n.now rows.items)) conn.old conn.new result }
{
    query(
        conn,
        "SELECT n FROM copy WHERE owner = ?1 AND id = ?2 AND n <> ?3 LIMIT 1",
        params![owner, id, n],
    )
}

impl FromRow for Filing {
    ghost use Rattle.store_accounts.specs.FirstCells.{first_four};
    ghost use Rattle.store_accounts.specs.CopyRows.{filing_cells};

    ghost cells_of = { first_four };

    ghost shows = { filing_cells };

    fn from_row(row: &Row) -> Result<Filing, Refusal> {
        Ok(Filing {
            folder: text_at(row, 0)?,
            n: row.get(1)?,
            id: row.get(2)?,
            flags: text_at(row, 3)?,
        })
    }
}

impl<S: Alter> Store<S> {
    /// All copies of the user, in the order of their numbers, for an account that was entered. No message is read: time
    /// and memory are linear in the answer.
    pub fn filings_of(&mut self, user: &[u8]) -> Result<List<Filing>, Refusal>
        ensures finds { FindsAmong user.now (AreFilingsOf user.now) (state S.Store self.old) (state S.Store self.new) result }
        ensures named { IfErr result IsTransient }
    {
        read_each(
            self.alloc,
            &mut self.conn,
            "SELECT folder, n, id, flags FROM copy WHERE owner = ?1 ORDER BY n",
            params![user],
        )
    }

    /// The folder's copy after that many, if there is one, for an account that was entered. The copies before it are passed
    /// over, and those after it aren't read.
    pub(crate) fn nth_filing_of(
        &mut self,
        user: &[u8],
        folder: &[u8],
        count: i64,
    ) -> Result<Option<Filing>, Refusal>
        ensures finds { FindsAmong user.now (IsNthFiling user.now folder.now count) (state S.Store self.old) (state S.Store self.new) result }
        ensures named { IfErr result IsTransient }
    {
        let rows = find_nth(&mut self.conn, user, folder, &count)?;
        first_from_row(&rows)
    }

    /// Whether there is another copy of the same message, for an account that was entered. At most one is read, and no message.
    pub fn has_other_copy(&mut self, user: &[u8], copy: &Filing) -> Result<bool, Refusal>
        ensures finds { FindsAmong user.now (IsShared user.now copy.now) (state S.Store self.old) (state S.Store self.new) result }
        ensures named { IfErr result IsTransient }
    {
        let id = number(copy.id)?;
        let n = number(copy.n)?;
        let rows = find_other(&mut self.conn, user, &id, &n)?;
        Ok(!rows.is_empty())
    }
}
