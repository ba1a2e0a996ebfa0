//! The table of the copies of messages, which make up the folders.
ghost use Rattle.store_tables.specs.Changes.{owned_removed, copy_added, copy_removed};
ghost use Rattle.store_tables.specs.CopyTable.{copy_tree};
ghost use Rattle.store_tables.specs.Connection.{ChangesRows, MakesTables};
ghost use Rattle.store_tables.specs.Schema.{mail_schema, schema_7, schema_8};

use crate::statement::execute;
use sqlite::{Alter, Error, Transaction, params};

/// Makes the table `copy`, inside a transaction.
pub(crate) fn make_copy<S: Alter>(tx: &mut Transaction<'_, S>) -> Result<(), Error>
    ensures { MakesTables S.Store schema_7 schema_8 tx.old tx.new result }
{
    execute(
        tx,
        "CREATE TABLE copy (owner BLOB NOT NULL REFERENCES account (name), folder BLOB NOT NULL, n INTEGER NOT NULL, id INTEGER NOT NULL, flags BLOB NOT NULL, PRIMARY KEY (owner, folder, n), FOREIGN KEY (owner, id) REFERENCES message (owner, id)) STRICT",
        &[],
    )
}

/// Makes the index of the copies by their messages, with which SQLite finds out whether a message that is removed is still
/// referred to. Inside a transaction.
pub(crate) fn make_copy_message<S: Alter>(tx: &mut Transaction<'_, S>) -> Result<(), Error>
    ensures { MakesTables S.Store schema_8 mail_schema tx.old tx.new result }
{
    execute(tx, "CREATE INDEX copy_message ON copy (owner, id)", &[])
}

/// Adds a copy in a folder, with its number, of the message with the number `id`, which is there; `flags` is the text that names
/// its flags. Inside a transaction.
pub fn add_copy<S: Alter>(
    tx: &mut Transaction<'_, S>,
    owner: &[u8],
    folder: &[u8],
    n: &i64,
    id: &i64,
    flags: &[u8],
) -> Result<(), Error>
    ensures { ChangesRows S.Store (copy_added owner.now folder.now n.now id.now flags.now) tx.old tx.new result }
{
    execute(
        tx,
        "INSERT INTO copy (owner, folder, n, id, flags) VALUES (?1, ?2, ?3, ?4, ?5)",
        params![owner, folder, n, id, flags],
    )
}

/// Removes the copy with the number from the folder, if there is one. Inside a transaction.
pub(crate) fn remove_copy<S: Alter>(
    tx: &mut Transaction<'_, S>,
    owner: &[u8],
    folder: &[u8],
    n: &i64,
) -> Result<(), Error>
    ensures { ChangesRows S.Store (copy_removed owner.now folder.now n.now) tx.old tx.new result }
{
    execute(
        tx,
        "DELETE FROM copy WHERE owner = ?1 AND folder = ?2 AND n = ?3",
        params![owner, folder, n],
    )
}

/// Removes all copies of the owner. Inside a transaction.
pub(crate) fn remove_copies<S: Alter>(
    tx: &mut Transaction<'_, S>,
    owner: &[u8],
) -> Result<(), Error>
    ensures { ChangesRows S.Store (owned_removed copy_tree owner.now) tx.old tx.new result }
{
    execute(tx, "DELETE FROM copy WHERE owner = ?1", params![owner])
}
