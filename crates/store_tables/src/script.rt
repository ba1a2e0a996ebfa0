//! The table of scripts.
ghost use Rattle.store_tables.specs.Changes.{owned_removed, script_added, script_removed};
ghost use Rattle.store_tables.specs.ScriptTable.{scripts_tree};
ghost use Rattle.store_tables.specs.Connection.{ChangesRows, MakesTables};
ghost use Rattle.store_tables.specs.Schema.{schema_2, schema_3};

use crate::statement::execute;
use sqlite::{Alter, Error, Transaction, params};

/// Makes the table `script`, inside a transaction.
pub(crate) fn make_script<S: Alter>(tx: &mut Transaction<'_, S>) -> Result<(), Error>
    ensures { MakesTables S.Store schema_2 schema_3 tx.old tx.new result }
{
    execute(
        tx,
        "CREATE TABLE script (owner BLOB NOT NULL REFERENCES account (name), name BLOB NOT NULL, text BLOB NOT NULL, PRIMARY KEY (owner, name)) STRICT",
        &[],
    )
}

/// Adds a script whose name has no row yet. Inside a transaction.
pub(crate) fn add_script<S: Alter>(
    tx: &mut Transaction<'_, S>,
    owner: &[u8],
    name: &[u8],
    text: &[u8],
) -> Result<(), Error>
    ensures { ChangesRows S.Store (script_added owner.now name.now text.now) tx.old tx.new result }
{
    execute(
        tx,
        "INSERT INTO script (owner, name, text) VALUES (?1, ?2, ?3)",
        params![owner, name, text],
    )
}

/// Removes the row of the name, if there is one. Inside a transaction.
pub(crate) fn remove_script<S: Alter>(
    tx: &mut Transaction<'_, S>,
    owner: &[u8],
    name: &[u8],
) -> Result<(), Error>
    ensures { ChangesRows S.Store (script_removed owner.now name.now) tx.old tx.new result }
{
    execute(
        tx,
        "DELETE FROM script WHERE owner = ?1 AND name = ?2",
        params![owner, name],
    )
}

/// Removes all scripts of the owner. Inside a transaction.
pub(crate) fn remove_scripts<S: Alter>(
    tx: &mut Transaction<'_, S>,
    owner: &[u8],
) -> Result<(), Error>
    ensures { ChangesRows S.Store (owned_removed scripts_tree owner.now) tx.old tx.new result }
{
    execute(tx, "DELETE FROM script WHERE owner = ?1", params![owner])
}
