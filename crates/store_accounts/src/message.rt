//! A user's messages by their numbers.
ghost use Rattle.std.specs.Prelude.{◌≡◌, false, IfErr};
ghost use Rattle.store_accounts.specs.Promises.{FindsAmong};
ghost use Rattle.store_tables.specs.Connection.{Queries};
ghost use Rattle.store_accounts.specs.Refusals.{IsTransient};
ghost use Rattle.store_accounts.specs.Shows.{AreOctetRows, HasMessageOctets};
ghost use Rattle.sqlite.specs.Held.{state};

use crate::cell::{first_text, number};
use crate::refusal::Refusal;
use crate::store::Store;
use octets::Octets;
use sqlite::{Alter, Connection, Error, Row, params};
use store_tables::query;

/// The octets of the message with the number.
fn find_message<S: Alter>(
    conn: &mut Connection<S>,
    owner: &[u8],
    id: &i64,
) -> Result<Vec<Row>, Error>
    requires { conn.old.in_transaction ≡ false }
    ensures { Queries S.Store (FindsAmong owner.now (λ rows. AreOctetRows owner.now id.now rows.items)) conn.old conn.new result }
{
    query(
        conn,
        "SELECT bytes FROM message WHERE owner = ?1 AND id = ?2",
        params![owner, id],
    )
}

impl<S: Alter> Store<S> {
    /// The octets of the user's message with the number, for an account that was entered. A number that isn't there is refused as `Store`.
    pub fn message_of(&mut self, user: &[u8], id: u64) -> Result<Octets, Refusal>
        ensures finds { FindsAmong user.now (HasMessageOctets user.now id) (state S.Store self.old) (state S.Store self.new) result }
        ensures named { IfErr result IsTransient }
    {
        let id = number(id)?;
        let rows = find_message(&mut self.conn, user, &id)?;
        match first_text(&rows)? {
            Some(octets) => Ok(octets),
            None => Err(Refusal::Store),
        }
    }
}
