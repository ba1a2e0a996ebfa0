//! The table of the version.
ghost use Rattle.std.specs.Prelude.{◌≡◌, false, ◌↔◌, IsTrue, pos, IfOk};
ghost use Rattle.sqlite.specs.Held.{state};
ghost use Rattle.store_tables.specs.Ours.{IsOurs};
ghost use Rattle.store_tables.specs.MetaTable.{select_version, version_key, version_row, meta_tree, HoldsVersion};
ghost use Rattle.store_tables.specs.Connection.{AnswersQuery, AsksDatabase, Queries, ChangesRows, MakesTables};
ghost use Rattle.store_tables.specs.Rows.{row_added};
ghost use Rattle.store_tables.specs.Schema.{no_schema, schema_1, IsOurSchema};
ghost use Rattle.sqlite_value.specs.declared.value.Value.TheVariants.{Int};
ghost use Rattle.sqlite_value.specs.Order.{column};

use crate::statement::{execute, query};
use sqlite::{Alter, Connection, Error, Row, Transaction, params};

/// Makes the table `meta`, inside a transaction.
pub(crate) fn make_meta<S: Alter>(tx: &mut Transaction<'_, S>) -> Result<(), Error>
    ensures { MakesTables S.Store no_schema schema_1 tx.old tx.new result }
{
    execute(
        tx,
        "CREATE TABLE meta (item TEXT NOT NULL PRIMARY KEY, value INTEGER NOT NULL) STRICT",
        &[],
    )
}

/// Adds the row of the version, inside a transaction.
pub fn add_version<S: Alter>(tx: &mut Transaction<'_, S>) -> Result<(), Error>
    ensures { ChangesRows S.Store (row_added meta_tree version_row) tx.old tx.new result }
{
    execute(
        tx,
        "INSERT INTO meta (item, value) VALUES ('version', 3)",
        &[],
    )
}

/// The numbers in the rows of the version.
pub fn find_version<S: Alter>(conn: &mut Connection<S>) -> Result<Vec<Row>, Error>
    requires { conn.old.in_transaction ≡ false }
    ensures { Queries S.Store (AnswersQuery select_version version_key) conn.old conn.new result }
{
    query(
        conn,
        "SELECT value FROM meta WHERE item = ?1",
        params!["version"],
    )
}

/// Whether there is one row of the version, and it says 3.
pub(crate) fn has_version<S: Alter>(conn: &mut Connection<S>) -> Result<bool, Error>
    requires { conn.old.in_transaction ≡ false }
    ensures { Queries S.Store (AsksDatabase IsOurSchema (λ is. IsTrue is ↔ IsOurs (state S.Store conn.old).now)) conn.old conn.new result }
{
    let rows = find_version(conn)?;
    are_version(&rows, &3)
}

/// Whether the first number of the row is this one.
fn is_version(row: &Row, version: &i64) -> Result<bool, Error>
    ensures { IfOk result (λ is. IsTrue is ↔ (column row.now 0 ≡ Int version.now)) }
{
    let number: i64 = row.get(0)?;
    Ok(number == *version)
}

/// Whether there is one row, and it says this version.
pub fn are_version(rows: &[Row], version: &i64) -> Result<bool, Error>
    ensures { IfOk result (λ is. IsTrue is ↔ HoldsVersion version.now rows.now) }
{
    match rows {
        [row] => is_version(row, version),
        _ => Ok(false),
    }
}
