//! The table of the moments of the last replies.
ghost use Rattle.store_tables.specs.Changes.{reply_added, reply_removed};
ghost use Rattle.store_tables.specs.Connection.{ChangesRows, MakesTables};
ghost use Rattle.store_tables.specs.Schema.{schema_4, schema_5};

use crate::statement::execute;
use sqlite::{Alter, Error, Transaction, params};

/// Makes the table `reply`, inside a transaction.
pub(crate) fn make_reply<S: Alter>(tx: &mut Transaction<'_, S>) -> Result<(), Error>
    ensures { MakesTables S.Store schema_4 schema_5 tx.old tx.new result }
{
    execute(
        tx,
        "CREATE TABLE reply (owner BLOB NOT NULL REFERENCES account (name), handle BLOB NOT NULL, sender BLOB NOT NULL, moment INTEGER NOT NULL, PRIMARY KEY (owner, handle, sender)) STRICT",
        &[],
    )
}

/// Adds the moment of the last reply to a sender; none may be stored under the handle yet. Inside a transaction.
pub fn add_reply<S: Alter>(
    tx: &mut Transaction<'_, S>,
    owner: &[u8],
    handle: &[u8],
    sender: &[u8],
    moment: &i64,
) -> Result<(), Error>
    ensures { ChangesRows S.Store (reply_added owner.now handle.now sender.now moment.now) tx.old tx.new result }
{
    execute(
        tx,
        "INSERT INTO reply (owner, handle, sender, moment) VALUES (?1, ?2, ?3, ?4)",
        params![owner, handle, sender, moment],
    )
}

/// Removes the row of the handle and the sender, if there is one. Inside a transaction.
pub(crate) fn remove_reply<S: Alter>(
    tx: &mut Transaction<'_, S>,
    owner: &[u8],
    handle: &[u8],
    sender: &[u8],
) -> Result<(), Error>
    ensures { ChangesRows S.Store (reply_removed owner.now handle.now sender.now) tx.old tx.new result }
{
    execute(
        tx,
        "DELETE FROM reply WHERE owner = ?1 AND handle = ?2 AND sender = ?3",
        params![owner, handle, sender],
    )
}
