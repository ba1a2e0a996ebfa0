//! The table of the messages in folders: each is stored once.
ghost use Rattle.store_tables.specs.Changes.{owned_removed, message_added, message_removed};
ghost use Rattle.store_tables.specs.MessageTable.{message_tree};
ghost use Rattle.store_tables.specs.Connection.{ChangesRows, MakesTables};
ghost use Rattle.store_tables.specs.Schema.{schema_6, schema_7};

use crate::statement::execute;
use sqlite::{Alter, Error, Transaction, params};

/// Makes the table `message`, inside a transaction.
pub(crate) fn make_message<S: Alter>(tx: &mut Transaction<'_, S>) -> Result<(), Error>
    ensures { MakesTables S.Store schema_6 schema_7 tx.old tx.new result }
{
    execute(
        tx,
        "CREATE TABLE message (owner BLOB NOT NULL REFERENCES account (name), id INTEGER NOT NULL, bytes BLOB NOT NULL, PRIMARY KEY (owner, id)) STRICT",
        &[],
    )
}

/// Adds a message with its number. Inside a transaction.
pub fn add_message<S: Alter>(
    tx: &mut Transaction<'_, S>,
    owner: &[u8],
    id: &i64,
    bytes: &[u8],
) -> Result<(), Error>
    ensures { ChangesRows S.Store (message_added owner.now id.now bytes.now) tx.old tx.new result }
{
    execute(
        tx,
        "INSERT INTO message (owner, id, bytes) VALUES (?1, ?2, ?3)",
        params![owner, id, bytes],
    )
}

/// Removes the row with the number, if there is one; no copy may refer to it. Inside a transaction.
pub(crate) fn remove_message<S: Alter>(
    tx: &mut Transaction<'_, S>,
    owner: &[u8],
    id: &i64,
) -> Result<(), Error>
    ensures { ChangesRows S.Store (message_removed owner.now id.now) tx.old tx.new result }
{
    execute(
        tx,
        "DELETE FROM message WHERE owner = ?1 AND id = ?2",
        params![owner, id],
    )
}

/// Removes all messages of the owner. Inside a transaction.
pub(crate) fn remove_messages<S: Alter>(
    tx: &mut Transaction<'_, S>,
    owner: &[u8],
) -> Result<(), Error>
    ensures { ChangesRows S.Store (owned_removed message_tree owner.now) tx.old tx.new result }
{
    execute(tx, "DELETE FROM message WHERE owner = ?1", params![owner])
}
