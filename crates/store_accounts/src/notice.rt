//! A user's notices.
ghost use Rattle.std.specs.Prelude.{◌≡◌, false, IfErr};
ghost use Rattle.sqlite.specs.Held.{state};
ghost use Rattle.store_tables.specs.Connection.{Queries};
ghost use Rattle.store_accounts.specs.Account.{takes_notices};
ghost use Rattle.store_accounts.specs.Listing.{AreNoticeNumbersOf, HasNoticeRow, IsNoticeOf};
ghost use Rattle.store_accounts.specs.Promises.{FindsAmong, ReadsOpenAccount, ReadsEntered, WritesUser};
ghost use Rattle.store_accounts.specs.Refusals.{IsTransient};

use crate::cell::{number, text_at};
use crate::refusal::Refusal;
use crate::row::{FromRow, first_from_row, read_each};
use crate::store::Store;
use octets::{List, Octets};
use sqlite::{Alter, Connection, Error, Row, params};
use store_tables::{Change, query};

/// A notice to the user: what went wrong with a delivery.
#[derive(Debug, Drop)]
pub struct Notice {
    /// The moment of the delivery, in seconds since 1970-01-01 UTC.
    pub moment: u64,
    pub text: Octets,
}

/// The user's notice with the number.
fn find_notice<S: Alter>(
    conn: &mut Connection<S>,
    owner: &[u8],
    id: &i64,
) -> Result<Vec<Row>, Error>
    requires { conn.old.in_transaction ≡ false }
    ensures { Queries S.Store (FindsAmong owner.now (λ rows. HasNoticeRow owner.now id.now rows.items)) conn.old conn.new result }
{
    query(
        conn,
        "SELECT moment, text FROM notice WHERE owner = ?1 AND id = ?2",
        params![owner, id],
    )
}

impl FromRow for Notice {
    ghost use Rattle.store_accounts.specs.FirstCells.{first_two};
    ghost use Rattle.store_accounts.specs.NoticeRows.{notice_cells};

    ghost cells_of = { first_two };

    ghost shows = { notice_cells };

    fn from_row(row: &Row) -> Result<Notice, Refusal> {
        Ok(Notice {
            moment: row.get(0)?,
            text: text_at(row, 1)?,
        })
    }
}

impl<S: Alter> Store<S> {
    /// The user's notices, in the order in which they came.
    pub fn notices(&mut self, user: &[u8]) -> Result<List<Notice>, Refusal>
        ensures { ReadsOpenAccount user.now (λ notices a. notices ≡ a.notices) (state S.Store self.old) (state S.Store self.new) result }
    {
        self.enter(user)?;
        self.notices_of(user)
    }

    /// The same for an account that was entered.
    fn notices_of(&mut self, user: &[u8]) -> Result<List<Notice>, Refusal>
        ensures { ReadsEntered user.now (λ notices a. notices ≡ a.notices) (state S.Store self.old) (state S.Store self.new) result }
    {
        read_each(
            self.alloc,
            &mut self.conn,
            "SELECT moment, text FROM notice WHERE owner = ?1 ORDER BY id",
            params![user],
        )
    }

    /// The numbers of the user's notices, in their order, for an account that was entered. No text is read into memory.
    pub fn notice_numbers_of(&mut self, user: &[u8]) -> Result<List<u64>, Refusal>
        ensures finds { FindsAmong user.now (AreNoticeNumbersOf user.now) (state S.Store self.old) (state S.Store self.new) result }
        ensures named { IfErr result IsTransient }
    {
        read_each(
            self.alloc,
            &mut self.conn,
            "SELECT id FROM notice WHERE owner = ?1 ORDER BY id",
            params![user],
        )
    }

    /// The notice with the number, if there is one, for an account that was entered. One row is found by its key; a number from
    /// 2^63 on, which the database can't hold, is refused as `Store`.
    pub fn notice_of(&mut self, user: &[u8], id: u64) -> Result<Option<Notice>, Refusal>
        ensures finds { FindsAmong user.now (IsNoticeOf user.now id) (state S.Store self.old) (state S.Store self.new) result }
        ensures named { IfErr result IsTransient }
    {
        let id = number(id)?;
        let rows = find_notice(&mut self.conn, user, &id)?;
        first_from_row(&rows)
    }

    /// Takes the notices up to the moment `until`, in seconds since 1970-01-01 UTC; the others stay in their order. A moment
    /// from 2^63 on, which the database can't hold, is refused as `Store`.
    pub fn take_notices(&mut self, user: &[u8], until: u64) -> Result<(), Refusal>
        ensures { WritesUser user.now (takes_notices until) (state S.Store self.old) (state S.Store self.new) result }
    {
        let until = number(until)?;
        self.apply(&[Change::RemoveEarlyNotices { owner: user, until }])
    }
}
