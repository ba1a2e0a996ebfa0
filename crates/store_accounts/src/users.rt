//! The users who have an account, one after the other.
ghost use Rattle.std.specs.Prelude.{◌≡◌, false, IfErr};
ghost use Rattle.sqlite.specs.Held.{state};
ghost use Rattle.store_tables.specs.Connection.{Queries};
ghost use Rattle.store_accounts.specs.Next.{FindsAll};
ghost use Rattle.store_accounts.specs.Users.{FindsOver, IsNextUser, ShowLaterUser};
ghost use Rattle.store_accounts.specs.Refusals.{IsTransient};

use crate::refusal::Refusal;
use crate::row::first_from_row;
use crate::store::Store;
use octets::Octets;
use sqlite::{Alter, Connection, Error, Row, params};
use store_tables::query;

/// The first name of an account after this one.
fn find_later_user<S: Alter>(conn: &mut Connection<S>, name: &[u8]) -> Result<Vec<Row>, Error>
    requires { conn.old.in_transaction ≡ false }
    ensures { Queries S.Store (FindsAll (λ rows. ShowLaterUser name.now rows.items)) conn.old conn.new result }
{
    query(
        conn,
        "SELECT name FROM account WHERE name > ?1 ORDER BY name LIMIT 1",
        params![name],
    )
}

impl<S: Alter> Store<S> {
    /// The first user after this name, in the order of octets, whether or not the name has an account; users whose account is
    /// closed or was removed are included. One row is found by its key. The first of all comes after the empty name, which
    /// no account that was added has.
    ///
    /// # Errors
    ///
    /// `Memory`, `Store`.
    pub fn next_user(&mut self, name: &[u8]) -> Result<Option<Octets>, Refusal>
        ensures next { FindsOver (IsNextUser name.now) (state S.Store self.old) (state S.Store self.new) result }
        ensures named { IfErr result IsTransient }
    {
        let rows = find_later_user(&mut self.conn, name)?;
        first_from_row(&rows)
    }
}
