//! The moments of a user's last replies.
ghost use Rattle.std.specs.Prelude.{◌≡◌, false, map, pos, option_map, slice_get, IfOk, IfErr};
ghost use Rattle.sqlite_value.specs.declared.value.Value.TheVariants.{Int};
ghost use Rattle.sqlite_value.specs.Order.{column};
ghost use Rattle.store_accounts.specs.Account as accounts;
ghost use Rattle.store_accounts.specs.Promises.{FindsUserRows, ReadsOpenAccount, ReadsEntered};
ghost use Rattle.store_tables.specs.Connection.{Queries};
ghost use Rattle.store_accounts.specs.Refusals.{IsTransient};
ghost use Rattle.store_accounts.specs.ReplyRows.{AreFirstBetween, AreKeptReplies, HasMomentRow, IsLastReply, IsReplyMoment, reply_key_of};
ghost use Rattle.std.specs.FinMap.{keys};
ghost use Rattle.sqlite.specs.Held.{state};

use crate::cell::text_at;
use crate::refusal::Refusal;
use crate::row::{FromRow, read_each};
use crate::store::Store;
use octets::{List, Octets};
use sqlite::{Alter, Connection, Error, Row, params};
use store_tables::query;

/// The moment of the last reply under a handle.
#[derive(Debug, Drop)]
pub struct KeptReply {
    /// The key of the handle, any octets.
    pub handle: Octets,
    /// In seconds since 1970-01-01 UTC.
    pub moment: u64,
}

/// Under what the moment of a reply is kept.
#[derive(Debug, Drop)]
pub struct ReplyKey {
    /// The key of the handle, any octets.
    pub handle: Octets,
    pub sender: Octets,
}

/// The later one of a moment and the one that is kept, if one is.
pub fn latest(last: Option<u64>, moment: u64) -> u64
    ensures { result ≡ accounts.latest last moment }
{
    match last {
        Some(last) => last.max(moment),
        None => moment,
    }
}

/// The moment that is kept under the handle's key and the sender.
fn find_moment<S: Alter>(
    conn: &mut Connection<S>,
    owner: &[u8],
    handle: &[u8],
    sender: &[u8],
) -> Result<Vec<Row>, Error>
    requires { conn.old.in_transaction ≡ false }
    ensures { Queries S.Store (FindsUserRows owner.now (HasMomentRow (handle.now, sender.now))) conn.old conn.new result }
{
    query(
        conn,
        "SELECT moment FROM reply WHERE owner = ?1 AND handle = ?2 AND sender = ?3",
        params![owner, handle, sender],
    )
}

/// The moment in the first row, if there is a row.
fn first_moment(rows: &[Row]) -> Result<Option<u64>, Refusal>
    ensures ok { IfOk result (λ moment. option_map (λ m. Int (pos m)) moment ≡ option_map (λ r. column r 0) (slice_get rows.now 0)) }
    ensures named { IfErr result IsTransient }
{
    match rows.first() {
        Some(row) => {
            let moment: u64 = row.get(0)?;
            Ok(Some(moment))
        }
        None => Ok(None),
    }
}

impl FromRow for KeptReply {
    ghost use Rattle.store_accounts.specs.FirstCells.{first_two};
    ghost use Rattle.store_accounts.specs.ReplyRows.{kept_cells};

    ghost cells_of = { first_two };

    ghost shows = { kept_cells };

    fn from_row(row: &Row) -> Result<KeptReply, Refusal> {
        Ok(KeptReply {
            handle: text_at(row, 0)?,
            moment: row.get(1)?,
        })
    }
}

impl FromRow for ReplyKey {
    ghost use Rattle.store_accounts.specs.FirstCells.{first_two};
    ghost use Rattle.store_accounts.specs.ReplyRows.{key_cells};

    ghost cells_of = { first_two };

    ghost shows = { key_cells };

    fn from_row(row: &Row) -> Result<ReplyKey, Refusal> {
        Ok(ReplyKey {
            handle: text_at(row, 0)?,
            sender: text_at(row, 1)?,
        })
    }
}

impl<S: Alter> Store<S> {
    /// The moment of the last reply to the sender under the handle's key, if one is kept; case ignored in the sender.
    pub fn last_reply(
        &mut self,
        user: &[u8],
        handle: &[u8],
        sender: &[u8],
    ) -> Result<Option<u64>, Refusal>
        ensures { ReadsOpenAccount user.now (IsLastReply handle.now sender.now) (state S.Store self.old) (state S.Store self.new) result }
    {
        self.enter(user)?;
        self.last_reply_of(user, handle, sender)
    }

    /// The same for an account that was entered.
    pub fn last_reply_of(
        &mut self,
        user: &[u8],
        handle: &[u8],
        sender: &[u8],
    ) -> Result<Option<u64>, Refusal>
        ensures { ReadsEntered user.now (IsLastReply handle.now sender.now) (state S.Store self.old) (state S.Store self.new) result }
    {
        let sender = octets::lowered(self.alloc, sender)?;
        self.moment_of(user, handle, sender.as_slice())
    }

    /// The moment that is kept under the handle's key and just this sender, if one is, of an account that was entered. It is found by
    /// its key.
    pub fn moment_of(
        &mut self,
        user: &[u8],
        handle: &[u8],
        sender: &[u8],
    ) -> Result<Option<u64>, Refusal>
        ensures { ReadsEntered user.now (IsReplyMoment handle.now sender.now) (state S.Store self.old) (state S.Store self.new) result }
    {
        let rows = find_moment(&mut self.conn, user, handle, sender)?;
        first_moment(&rows)
    }

    /// The moments of the last replies to the sender, in the order of the octets of their handles' keys; case ignored
    /// in the sender.
    pub fn replies(&mut self, user: &[u8], sender: &[u8]) -> Result<List<KeptReply>, Refusal>
        ensures { ReadsOpenAccount user.now (AreKeptReplies sender.now) (state S.Store self.old) (state S.Store self.new) result }
    {
        self.enter(user)?;
        self.replies_of(user, sender)
    }

    /// The same for an account that was entered.
    pub fn replies_of(&mut self, user: &[u8], sender: &[u8]) -> Result<List<KeptReply>, Refusal>
        ensures { ReadsEntered user.now (AreKeptReplies sender.now) (state S.Store self.old) (state S.Store self.new) result }
    {
        let sender = octets::lowered(self.alloc, sender)?;
        read_each(
            self.alloc,
            &mut self.conn,
            "SELECT handle, moment FROM reply WHERE owner = ?1 AND sender = ?2 ORDER BY handle",
            params![user, sender.as_slice()],
        )
    }

    /// The first keys that have a handle's key from the first of these on and before the second, in the order of `reply_keys_of`: 32 of
    /// them at most, of an account that was entered. No other row is read but the one behind them.
    pub fn reply_keys_between(
        &mut self,
        user: &[u8],
        from: &[u8],
        below: &[u8],
    ) -> Result<List<ReplyKey>, Refusal>
        ensures { ReadsEntered user.now (AreFirstBetween from.now below.now) (state S.Store self.old) (state S.Store self.new) result }
    {
        read_each(
            self.alloc,
            &mut self.conn,
            "SELECT handle, sender FROM reply WHERE owner = ?1 AND handle >= ?2 AND handle < ?3 ORDER BY handle, sender LIMIT 32",
            params![user, from, below],
        )
    }

    /// The keys of all moments that are kept, in the order of the octets of the handles' keys, and under one handle of those of the
    /// senders, of an account that was entered.
    pub fn reply_keys_of(&mut self, user: &[u8]) -> Result<List<ReplyKey>, Refusal>
        ensures { ReadsEntered user.now (λ all a. all ≡ map reply_key_of (keys a.replies)) (state S.Store self.old) (state S.Store self.new) result }
    {
        read_each(
            self.alloc,
            &mut self.conn,
            "SELECT handle, sender FROM reply WHERE owner = ?1 ORDER BY handle, sender",
            params![user],
        )
    }
}
