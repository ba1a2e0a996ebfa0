//! The row of the version, if it is an earlier one.
ghost use Rattle.std.specs.Prelude.{◌≡◌, false, ◌↔◌, IfOk, IsTrue};
ghost use Rattle.sqlite.specs.Held.{state};
ghost use Rattle.store_tables.specs.MetaTable.{version_key, meta_tree, HoldsVersion};
ghost use Rattle.store_tables.specs.Connection.{AsksDatabase, Queries, ChangesRows};
ghost use Rattle.store_tables.specs.Rows.{rows_removed};
ghost use Rattle.store_versions.specs.Upgrade.{IsOlder, IsOlderSchema, version_of};

use sqlite::{Alter, Connection, Error, Row, Transaction, params};
use store_tables::{are_version, execute, find_version};

/// The tables of an earlier version.
#[derive(Clone, Copy)]
pub(crate) enum Older {
    /// Those of version 2.
    Second,
    /// Those of version 1, with the copies after all others.
    CopiesLast,
    /// Those of version 1, with the copies before the queue, the replies and the notices.
    CopiesFourth,
}

/// Whether there is one row, and it says the version.
fn are_older(rows: &[Row], older: Older) -> Result<bool, Error>
    ensures { IfOk result (λ is. IsTrue is ↔ HoldsVersion (version_of older) rows.now) }
{
    match older {
        Older::Second => are_version(rows, &2),
        Older::CopiesLast => are_version(rows, &1),
        Older::CopiesFourth => are_version(rows, &1),
    }
}

/// Removes the rows of the version, inside a transaction.
pub(crate) fn remove_version<S: Alter>(tx: &mut Transaction<'_, S>) -> Result<(), Error>
    ensures { ChangesRows S.Store (rows_removed meta_tree version_key) tx.old tx.new result }
{
    execute(tx, "DELETE FROM meta WHERE item = ?1", params!["version"])
}

/// Whether there is one row of the version, and it says this one.
pub(crate) fn has_old_version<S: Alter>(
    conn: &mut Connection<S>,
    older: Older,
) -> Result<bool, Error>
    requires { conn.old.in_transaction ≡ false }
    ensures { Queries S.Store (AsksDatabase (IsOlderSchema older) (λ is. IsTrue is ↔ IsOlder older (state S.Store conn.old).now)) conn.old conn.new result }
{
    let rows = find_version(conn)?;
    are_older(&rows, older)
}
