//! The table of notices.
ghost use Rattle.store_tables.specs.Changes.{early_notices_removed, owned_removed, notice_added};
ghost use Rattle.store_tables.specs.NoticeTable.{notice_tree};
ghost use Rattle.store_tables.specs.Connection.{ChangesRows, MakesTables};
ghost use Rattle.store_tables.specs.Schema.{schema_5, schema_6};

use crate::statement::execute;
use sqlite::{Alter, Error, Transaction, params};

/// Makes the table `notice`, inside a transaction.
pub(crate) fn make_notice<S: Alter>(tx: &mut Transaction<'_, S>) -> Result<(), Error>
    ensures { MakesTables S.Store schema_5 schema_6 tx.old tx.new result }
{
    execute(
        tx,
        "CREATE TABLE notice (owner BLOB NOT NULL REFERENCES account (name), id INTEGER NOT NULL, moment INTEGER NOT NULL, text BLOB NOT NULL, PRIMARY KEY (owner, id)) STRICT",
        &[],
    )
}

/// Adds a notice with its number. Inside a transaction.
pub fn add_notice<S: Alter>(
    tx: &mut Transaction<'_, S>,
    owner: &[u8],
    id: &i64,
    moment: &i64,
    text: &[u8],
) -> Result<(), Error>
    ensures { ChangesRows S.Store (notice_added owner.now id.now moment.now text.now) tx.old tx.new result }
{
    execute(
        tx,
        "INSERT INTO notice (owner, id, moment, text) VALUES (?1, ?2, ?3, ?4)",
        params![owner, id, moment, text],
    )
}

/// Removes all notices of the owner. Inside a transaction.
pub(crate) fn remove_notices<S: Alter>(
    tx: &mut Transaction<'_, S>,
    owner: &[u8],
) -> Result<(), Error>
    ensures { ChangesRows S.Store (owned_removed notice_tree owner.now) tx.old tx.new result }
{
    execute(tx, "DELETE FROM notice WHERE owner = ?1", params![owner])
}

/// Removes the owner's notices of this moment and before. Inside a transaction.
pub(crate) fn remove_early_notices<S: Alter>(
    tx: &mut Transaction<'_, S>,
    owner: &[u8],
    until: &i64,
) -> Result<(), Error>
    ensures { ChangesRows S.Store (early_notices_removed owner.now until.now) tx.old tx.new result }
{
    execute(
        tx,
        "DELETE FROM notice WHERE owner = ?1 AND moment <= ?2",
        params![owner, until],
    )
}
