//! The table of messages on their way out.
ghost use Rattle.std.specs.Prelude.{◌≡◌};
ghost use Rattle.store_tables.specs.Changes.{owned_removed, outgoing_added, outgoing_removed};
ghost use Rattle.store_tables.specs.QueueTable.{outgoing_tree};
ghost use Rattle.store_tables.specs.Connection.{ChangesRows, MakesTables};
ghost use Rattle.store_tables.specs.QueueTable.{kind_number};
ghost use Rattle.store_tables.specs.Schema.{schema_3, schema_4};

use crate::statement::execute;
use sqlite::{Alter, Error, Transaction, params};

/// Why a message goes out.
#[derive(Clone, Copy, Debug, PartialEq, Eq)]
pub enum QueuedKind {
    /// A `redirect` (RFC 5228, section 4.2).
    Redirect,
    /// A vacation reply (RFC 5230).
    Reply,
}

/// Makes the table `outgoing`, inside a transaction.
pub(crate) fn make_outgoing<S: Alter>(tx: &mut Transaction<'_, S>) -> Result<(), Error>
    ensures { MakesTables S.Store schema_3 schema_4 tx.old tx.new result }
{
    execute(
        tx,
        "CREATE TABLE outgoing (owner BLOB NOT NULL REFERENCES account (name), id INTEGER NOT NULL, kind INTEGER NOT NULL, sender BLOB NOT NULL, target BLOB NOT NULL, message BLOB NOT NULL, PRIMARY KEY (owner, id)) STRICT",
        &[],
    )
}

/// The number of the kind in the table.
fn number_of(kind: QueuedKind) -> u32
    ensures { result ≡ kind_number kind }
{
    match kind {
        QueuedKind::Redirect => 1,
        QueuedKind::Reply => 2,
    }
}

/// Adds a message to the queue, with its number. Inside a transaction.
pub(crate) fn add_outgoing<S: Alter>(
    tx: &mut Transaction<'_, S>,
    owner: &[u8],
    id: &i64,
    kind: QueuedKind,
    sender: &[u8],
    target: &[u8],
    message: &[u8],
) -> Result<(), Error>
    ensures { ChangesRows S.Store (outgoing_added owner.now id.now kind sender.now target.now message.now) tx.old tx.new result }
{
    let kind = number_of(kind);
    execute(
        tx,
        "INSERT INTO outgoing (owner, id, kind, sender, target, message) VALUES (?1, ?2, ?3, ?4, ?5, ?6)",
        params![owner, id, kind, sender, target, message],
    )
}

/// Removes the row with the number, if there is one. Inside a transaction.
pub(crate) fn remove_outgoing<S: Alter>(
    tx: &mut Transaction<'_, S>,
    owner: &[u8],
    id: &i64,
) -> Result<(), Error>
    ensures { ChangesRows S.Store (outgoing_removed owner.now id.now) tx.old tx.new result }
{
    execute(
        tx,
        "DELETE FROM outgoing WHERE owner = ?1 AND id = ?2",
        params![owner, id],
    )
}

/// Removes all rows of the owner. Inside a transaction.
pub(crate) fn remove_queue<S: Alter>(tx: &mut Transaction<'_, S>, owner: &[u8]) -> Result<(), Error>
    ensures { ChangesRows S.Store (owned_removed outgoing_tree owner.now) tx.old tx.new result }
{
    execute(tx, "DELETE FROM outgoing WHERE owner = ?1", params![owner])
}
